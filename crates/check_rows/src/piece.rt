//! Bytes that a row spells.

use std::alloc::{AllocError, Global};

/// The bytes of a text, in which `/` is a line feed, `<` a carriage return, `_` a blank, `~` the byte FF and `%` the byte
/// C3.
pub fn piece_of(alloc: Global, text: &str) -> Result<Vec<u8>, AllocError> {
    let mut bytes = Vec::new(alloc);
    for byte in text.bytes() {
        bytes.push(match byte {
            b'/' => b'\n',
            b'<' => b'\r',
            b'_' => b' ',
            b'~' => 0xFF,
            b'%' => 0xC3,
            other => other,
        })?;
    }
    Ok(bytes)
}

/// The words between blanks, of which an empty text has none. `''` is an empty word.
pub fn words_of(alloc: Global, text: &str) -> Result<Vec<Vec<u8>>, AllocError> {
    let mut words = Vec::new(alloc);
    if text.is_empty() {
        return Ok(words);
    }
    for word in text.split(' ') {
        let spelled = if word == "''" { "" } else { word };
        words.push(piece_of(alloc, spelled)?)?;
    }
    Ok(words)
}
