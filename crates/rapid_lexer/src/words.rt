//! Reserved words.

ghost use Rattle.std.specs.Prelude.{◌≡◌, ◌==◌, map, slice_index_or};
ghost use Rattle.std.specs.List.{filter};
ghost use Rattle.rapid_lexer.specs.Words.{is_reserved, word_of, words};
ghost use Rattle.rapid_lexer.specs.Reading.{is_word};

use crate::bytes::upper;
use crate::word::Word;

static WITH_A: [(&[u8], Word); 2] = [(b"ALIAS", Word::Alias), (b"AND", Word::And)];

static WITH_B: [(&[u8], Word); 1] = [(b"BACKWARD", Word::Backward)];

static WITH_C: [(&[u8], Word); 3] = [
    (b"CASE", Word::Case),
    (b"CONNECT", Word::Connect),
    (b"CONST", Word::Const),
];

static WITH_D: [(&[u8], Word); 3] = [
    (b"DEFAULT", Word::Default),
    (b"DIV", Word::Div),
    (b"DO", Word::Do),
];

static WITH_E: [(&[u8], Word); 13] = [
    (b"ELSE", Word::Else),
    (b"ELSEIF", Word::ElseIf),
    (b"ENDFOR", Word::EndFor),
    (b"ENDFUNC", Word::EndFunc),
    (b"ENDIF", Word::EndIf),
    (b"ENDMODULE", Word::EndModule),
    (b"ENDPROC", Word::EndProc),
    (b"ENDRECORD", Word::EndRecord),
    (b"ENDTEST", Word::EndTest),
    (b"ENDTRAP", Word::EndTrap),
    (b"ENDWHILE", Word::EndWhile),
    (b"ERROR", Word::Error),
    (b"EXIT", Word::Exit),
];

static WITH_F: [(&[u8], Word); 4] = [
    (b"FALSE", Word::False),
    (b"FOR", Word::For),
    (b"FROM", Word::From),
    (b"FUNC", Word::Func),
];

static WITH_G: [(&[u8], Word); 1] = [(b"GOTO", Word::Goto)];

static WITH_I: [(&[u8], Word); 2] = [(b"IF", Word::If), (b"INOUT", Word::Inout)];

static WITH_L: [(&[u8], Word); 1] = [(b"LOCAL", Word::Local)];

static WITH_M: [(&[u8], Word); 2] = [(b"MOD", Word::Mod), (b"MODULE", Word::Module)];

static WITH_N: [(&[u8], Word); 3] = [
    (b"NOSTEPIN", Word::NoStepIn),
    (b"NOT", Word::Not),
    (b"NOVIEW", Word::NoView),
];

static WITH_O: [(&[u8], Word); 1] = [(b"OR", Word::Or)];

static WITH_P: [(&[u8], Word); 2] = [(b"PERS", Word::Pers), (b"PROC", Word::Proc)];

static WITH_R: [(&[u8], Word); 5] = [
    (b"RAISE", Word::Raise),
    (b"READONLY", Word::ReadOnly),
    (b"RECORD", Word::Record),
    (b"RETRY", Word::Retry),
    (b"RETURN", Word::Return),
];

static WITH_S: [(&[u8], Word); 2] = [(b"STEP", Word::Step), (b"SYSMODULE", Word::SysModule)];

static WITH_T: [(&[u8], Word); 7] = [
    (b"TASK", Word::Task),
    (b"TEST", Word::Test),
    (b"THEN", Word::Then),
    (b"TO", Word::To),
    (b"TRAP", Word::Trap),
    (b"TRUE", Word::True),
    (b"TRYNEXT", Word::TryNext),
];

static WITH_U: [(&[u8], Word); 1] = [(b"UNDO", Word::Undo)];

static WITH_V: [(&[u8], Word); 2] = [(b"VAR", Word::Var), (b"VIEWONLY", Word::ViewOnly)];

static WITH_W: [(&[u8], Word); 2] = [(b"WHILE", Word::While), (b"WITH", Word::With)];

static WITH_X: [(&[u8], Word); 1] = [(b"XOR", Word::Xor)];

/// The reserved words, in uppercase, that start with this letter.
fn words_with(letter: u8) -> &'static [(&'static [u8], Word)]
    ensures { map (λ row. (row.0.now, row.1)) result.now ≡ filter (λ row. slice_index_or row.0 0 0 == letter) words }
{
    match letter {
        b'A' => &WITH_A,
        b'B' => &WITH_B,
        b'C' => &WITH_C,
        b'D' => &WITH_D,
        b'E' => &WITH_E,
        b'F' => &WITH_F,
        b'G' => &WITH_G,
        b'I' => &WITH_I,
        b'L' => &WITH_L,
        b'M' => &WITH_M,
        b'N' => &WITH_N,
        b'O' => &WITH_O,
        b'P' => &WITH_P,
        b'R' => &WITH_R,
        b'S' => &WITH_S,
        b'T' => &WITH_T,
        b'U' => &WITH_U,
        b'V' => &WITH_V,
        b'W' => &WITH_W,
        b'X' => &WITH_X,
        _ => &[],
    }
}

/// Whether a text is this uppercase word, case-insensitive.
fn is_word(word: &[u8], text: &[u8]) -> bool
    ensures { result ≡ is_word word.now text.now }
{
    if word.len() != text.len() {
        return false;
    }
    for (i, letter) in word.iter().enumerate() {
        if *letter != upper(text[i]) {
            return false;
        }
    }
    true
}

/// The reserved word that a name is, case-insensitive.
pub(crate) fn word_of(text: &[u8]) -> Option<Word>
    ensures { result ≡ word_of text.now }
{
    let Some(first) = text.first() else {
        return None;
    };
    for (capitals, word) in words_with(upper(*first)) {
        if is_word(capitals, text) {
            return Some(*word);
        }
    }
    None
}

/// Whether a name is a reserved word, case-insensitive.
pub fn is_reserved(text: &[u8]) -> bool
    ensures { result ≡ is_reserved text.now }
{
    word_of(text).is_some()
}
