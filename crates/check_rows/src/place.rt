//! Where a module is refused.

use controller::{Refused, Report};

/// Where the place of a refused module is, seen from a byte of a text: before it, at it or past it.
pub fn side_of(report: &Report, text: &[u8], at: usize) -> &'static str {
    let (line, column) = place_of(text.get(..at).unwrap_or(text));
    match &report.refused {
        Some(Refused::Module { place, .. }) => {
            if place.line > line || place.line == line && place.column > column {
                " past"
            } else if place.line == line && place.column == column {
                " at"
            } else {
                " before"
            }
        }
        _ => "",
    }
}

/// The line and the column of the byte after a text, from 1.
fn place_of(text: &[u8]) -> (u32, u32) {
    let mut line = 1u32;
    let mut column = 1u32;
    for byte in text {
        if *byte == b'\n' {
            line = line.wrapping_add(1);
            column = 1;
        } else {
            column = column.wrapping_add(1);
        }
    }
    (line, column)
}
