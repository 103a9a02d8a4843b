//! The pages of a history: events of every form are kept as they are, over more than one page.

use event_forms::{FORMS, Longest, event};
use history_pages::Pages;
use rapid_model::Event;
use rapid_num::Memory;
use std::alloc::Global;
use std::test::Fail;

/// More events than one page has.
const EVENTS: u32 = 5_000;

/// Pages with events of all forms, again and again.
fn filled(alloc: Global, longest: &Longest) -> Result<Pages, Memory> {
    let mut pages = Pages::new(alloc, EVENTS)?;
    for k in 0..EVENTS {
        pages.push(&event(k % FORMS, k, longest));
    }
    Ok(pages)
}

/// Whether the pages have those events.
fn are_kept(pages: &Pages, longest: &Longest) -> bool {
    for k in 0..pages.len() {
        if pages.get(k) != event(k % FORMS, k, longest) {
            return false;
        }
    }
    true
}

/// Whether a list has that many of those events.
fn are_copied(events: &[Event], count: u32, longest: &Longest) -> bool {
    for k in 0..count {
        match events.get(k as usize) {
            Some(copied) if *copied == event(k % FORMS, k, longest) => {}
            _ => return false,
        }
    }
    events.len() == count as usize
}

#[test]
fn every_form_comes_back(rt: HostRuntime) -> Result<(), Fail> {
    let longest = Longest::new().ok_or("the numbers are nums")?;
    assert_eq!(rt; longest.text.bytes().len(), 80);
    let pages = filled(rt.alloc(), &longest).ok().ok_or("memory")?;
    assert_eq!(rt; pages.len(), EVENTS);
    assert!(rt; are_kept(&pages, &longest));
    let mut events = Vec::with_capacity(rt.alloc(), pages.len() as usize)?;
    pages.copy_to(&mut events);
    assert!(rt; are_copied(events.as_slice(), EVENTS, &longest));
    Ok(())
}
