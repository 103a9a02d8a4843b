ghost use Rattle.std.specs.Prelude.{◌≡◌, ◌+◌, ◌^◌, ◌<◌, ◌≤◌, ◌++◌, [], ◌∷◌, length, slice_get, Some, IfOk};
ghost use Rattle.std.specs.List.{All};
ghost use Rattle.std.specs.Vec.{vec_len};
ghost use Rattle.history_pages.specs.Paged.{IsFresh, IsPaged, data_of};

use std::alloc::{AllocError, Global};
use std::marker::Model;
use std::mem;

/// Values one after another, in pages of `PAGE` each. Contracts see the values in order, and how many there is room
/// for. All pages are made by `new`: `push` allocates nothing, and moves nothing that was pushed before.
#[derive(Debug, Drop)]
pub(crate) struct Paged<T, const PAGE: usize> {
    full: Vec<Vec<T>>,
    last: Vec<T>,
    spare: Vec<Vec<T>>,
}

impl<T, const PAGE: usize> Model for Paged<T, PAGE> {
    ghost use Rattle.history_pages.specs.Paged.{IsPaged, PagedData, data_of, paged_code};

    ghost Value = { PagedData T };

    ghost coded = { paged_code T.code };

    ghost view = { λ p. data_of PAGE p.full p.last p.spare };

    ghost invariant = { λ p. IsPaged PAGE p.full p.last p.spare };
}

impl<T: Copy, const PAGE: usize> Paged<T, PAGE> {
    /// No values, and room for at least that many. Fails only if an allocation fails.
    pub(crate) fn new(alloc: Global, room: usize) -> Result<Paged<T, PAGE>, AllocError>
        requires page { 0 < PAGE }
        requires few { room + PAGE < 2 ^ 64 }
        ensures items { IfOk result (λ p. p.items ≡ []) }
        ensures room { IfOk result (λ p. room ≤ p.room) }
    {
        let count = room / PAGE;
        let last = Vec::with_capacity(alloc, PAGE)?;
        let full = Vec::with_capacity(alloc, count)?;
        let spare = fresh_pages(alloc, count, PAGE)?;
        Ok(Paged { full, last, spare })
    }

    /// How many values there are.
    pub(crate) fn len(&self) -> usize
        ensures { result ≡ length self.now.items }
    {
        self.full.len() * PAGE + self.last.len()
    }

    /// Adds a value, for which there is room.
    pub(crate) fn push(&mut self, value: T)
        requires { length self.old.items < self.old.room }
        ensures { self.new ≡ record self.old { items = self.old.items ++ value ∷ [] } }
    {
        turn_page(&mut self.full, &mut self.last, &mut self.spare, PAGE);
        self.last.push_reserved(value);
    }

    /// The value at an index, from 0; `None` past the end.
    pub(crate) fn get(&self, index: usize) -> Option<T>
        ensures { result ≡ slice_get self.now.items index }
    {
        if index < self.len() {
            Some(self.at(index))
        } else {
            None
        }
    }

    /// The value at an index, from 0, which exists.
    pub(crate) fn at(&self, index: usize) -> T
        requires { index < length self.now.items }
        ensures { slice_get self.now.items index ≡ Some result }
    {
        let pages = self.full.len();
        let page = index / PAGE;
        let rest = index % PAGE;
        if page < pages {
            let full = &self.full[page];
            full[rest]
        } else {
            self.last[rest]
        }
    }
}

/// Begins the next page if the last one is full. There is room for one more value.
fn turn_page<T: Copy>(
    full: &mut Vec<Vec<T>>,
    last: &mut Vec<T>,
    spare: &mut Vec<Vec<T>>,
    page: usize,
)
    requires pages { IsPaged page full.old last.old spare.old }
    requires room { let paged = data_of page full.old last.old spare.old in length paged.items < paged.room }
    ensures pages { IsPaged page full.new last.new spare.new }
    ensures same { data_of page full.new last.new spare.new ≡ data_of page full.old last.old spare.old }
    ensures room { vec_len last.new < page }
{
    if last.len() < page {
        return;
    }
    match spare.pop() {
        Some(next) => full.push_reserved(mem::replace(last, next)),
        None => {}
    }
}

/// That many empty pages, each with this much room.
fn fresh_pages<T: Copy>(alloc: Global, count: usize, room: usize) -> Result<Vec<Vec<T>>, AllocError>
    ensures count { IfOk result (λ pages. vec_len pages ≡ count) }
    ensures fresh { IfOk result (λ pages. All (IsFresh room) pages.items) }
{
    let mut pages = Vec::with_capacity(alloc, count)?;
    for _page in 0..count {
        pages.push_reserved(Vec::with_capacity(alloc, room)?);
    }
    Ok(pages)
}
