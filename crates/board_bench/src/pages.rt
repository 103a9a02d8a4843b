//! A history in pages: events of all forms.

use event_forms::{FORMS, Longest, event};
use history_pages::Pages;
use std::alloc::Global;

/// Pushes this many events, of all forms in turn, and reads each one back. How many are as they were pushed; 0 if out
/// of memory.
pub(crate) fn kept(alloc: Global, count: u32) -> u32 {
    let Some(longest) = Longest::new() else {
        return 0;
    };
    let Ok(mut pages) = Pages::new(alloc, count) else {
        return 0;
    };
    for k in 0..count {
        pages.push(&event(k % FORMS, k, &longest));
    }
    let mut kept = 0;
    for k in 0..pages.len() {
        if pages.get(k) == event(k % FORMS, k, &longest) {
            kept += 1;
        }
    }
    kept
}
