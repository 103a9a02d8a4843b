ghost use Rattle.std.specs.Prelude.{◌≡◌, ◌++◌, length, replicate, slice_get, OnOk};
ghost use Rattle.typed_trees.specs.First.{all_of, data_in};

use crate::datum::Datum;
use crate::first_runs::FirstRuns;
use std::alloc::{AllocError, Global};
use std::marker::Model;

/// The first data of a datum's elements, in order. If the declaration gives no value, all are equal and only one is
/// kept. Contracts see the whole list (RAPID Kernel, data declarations).
#[derive(Debug, Drop)]
pub struct FirstData {
    kept: Kept,
}

/// How first data are kept.
#[derive(Debug, Drop)]
enum Kept {
    /// One for each element.
    Given(Vec<Datum>),
    /// One datum, repeated this many times.
    Alike(Datum, usize),
}

impl Model for FirstData {
    ghost use Rattle.std.specs.Prelude.{List};
    ghost use Rattle.typed_trees.specs.declared.datum.Datum.{Datum};
    ghost use Rattle.typed_trees.specs.First.{all_of};

    ghost Value = { List Datum };

    ghost view = { λ f. all_of f.kept };
}

impl FirstData {
    /// The given data.
    pub fn given(first: Vec<Datum>) -> FirstData
        ensures { result ≡ first.items }
    {
        let kept = Kept::Given(first);
        FirstData { kept }
    }

    /// `count` equal data. Allocates nothing.
    pub fn alike(datum: Datum, count: usize) -> FirstData
        ensures { result ≡ replicate count datum }
    {
        let kept = Kept::Alike(datum, count);
        FirstData { kept }
    }

    /// How many there are.
    pub fn len(&self) -> usize
        ensures { result ≡ length self.now }
    {
        match &self.kept {
            Kept::Given(first) => first.len(),
            Kept::Alike(_, count) => *count,
        }
    }

    /// The data as they are kept.
    pub fn runs(&self) -> FirstRuns<'_>
        ensures { data_in result ≡ self.now }
    {
        match &self.kept {
            Kept::Given(first) => FirstRuns::Each(first),
            Kept::Alike(datum, count) => FirstRuns::Alike(datum, *count),
        }
    }

    /// Appends a copy of each, in order. Fails only if an allocation fails.
    pub fn append_to(&self, alloc: Global, to: &mut Vec<Datum>) -> Result<(), AllocError>
        ensures { OnOk result (to.new.items ≡ to.old.items ++ self.now) }
    {
        match &self.kept {
            Kept::Given(first) => append_each(alloc, first, to),
            Kept::Alike(datum, count) => append_alike(alloc, datum, *count, to),
        }
    }
}

/// Appends a copy of each datum. Fails only if an allocation fails.
fn append_each(alloc: Global, first: &[Datum], to: &mut Vec<Datum>) -> Result<(), AllocError>
    ensures { OnOk result (to.new.items ≡ to.old.items ++ first.now) }
{
    for datum in first {
        to.push(datum.copy(alloc)?)?;
    }
    Ok(())
}

/// Appends `count` copies of a datum. Fails only if an allocation fails.
fn append_alike(
    alloc: Global,
    datum: &Datum,
    count: usize,
    to: &mut Vec<Datum>,
) -> Result<(), AllocError>
    ensures { OnOk result (to.new.items ≡ to.old.items ++ replicate count datum.now) }
{
    for _copy in 0..count {
        to.push(datum.copy(alloc)?)?;
    }
    Ok(())
}
