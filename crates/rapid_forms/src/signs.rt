//! The sign of a token.

ghost use Rattle.std.specs.Prelude.{◌≡◌};
ghost use Rattle.rapid_lexer.specs.Tokens.{view};
ghost use Rattle.rapid_forms.specs.Signs.{sign_of, sign_of_mark, sign_of_word};

use crate::sign::Sign;
use rapid_lexer::{Kind, Mark, Token, Word};

/// What a grammar sees of a token.
#[tactic(auto, unfolding(crate::specs::Signs::sign_of))]
pub fn sign_of(token: &Token<'_>) -> Sign
    ensures { result ≡ sign_of (view token.now) }
{
    match token.kind {
        Kind::Name => Sign::Name,
        Kind::Word(word) => sign_of_word(word),
        Kind::Number => Sign::Number,
        Kind::Quoted => Sign::Quoted,
        Kind::Mark(mark) => sign_of_mark(mark),
    }
}

fn sign_of_word(word: Word) -> Sign
    ensures { result ≡ sign_of_word word }
{
    match word {
        Word::Alias => Sign::Alias,
        Word::And => Sign::And,
        Word::Backward => Sign::Backward,
        Word::Case => Sign::Case,
        Word::Connect => Sign::Connect,
        Word::Const => Sign::Const,
        Word::Default => Sign::Default,
        Word::Div => Sign::Div,
        Word::Do => Sign::Do,
        Word::Else => Sign::Else,
        Word::ElseIf => Sign::ElseIf,
        Word::EndFor => Sign::EndFor,
        Word::EndFunc => Sign::EndFunc,
        Word::EndIf => Sign::EndIf,
        Word::EndModule => Sign::EndModule,
        Word::EndProc => Sign::EndProc,
        Word::EndRecord => Sign::EndRecord,
        Word::EndTest => Sign::EndTest,
        Word::EndTrap => Sign::EndTrap,
        Word::EndWhile => Sign::EndWhile,
        Word::Error => Sign::Error,
        Word::Exit => Sign::Exit,
        Word::False => Sign::False,
        Word::For => Sign::For,
        Word::From => Sign::From,
        Word::Func => Sign::Func,
        Word::Goto => Sign::Goto,
        Word::If => Sign::If,
        Word::Inout => Sign::Inout,
        Word::Local => Sign::Local,
        Word::Mod => Sign::Mod,
        Word::Module => Sign::Module,
        Word::NoStepIn => Sign::NoStepIn,
        Word::Not => Sign::Not,
        Word::NoView => Sign::NoView,
        Word::Or => Sign::Or,
        Word::Pers => Sign::Pers,
        Word::Proc => Sign::Proc,
        Word::Raise => Sign::Raise,
        Word::ReadOnly => Sign::ReadOnly,
        Word::Record => Sign::Record,
        Word::Retry => Sign::Retry,
        Word::Return => Sign::Return,
        Word::Step => Sign::Step,
        Word::SysModule => Sign::SysModule,
        Word::Task => Sign::Task,
        Word::Test => Sign::Test,
        Word::Then => Sign::Then,
        Word::To => Sign::To,
        Word::Trap => Sign::Trap,
        Word::True => Sign::True,
        Word::TryNext => Sign::TryNext,
        Word::Undo => Sign::Undo,
        Word::Var => Sign::Var,
        Word::ViewOnly => Sign::ViewOnly,
        Word::While => Sign::While,
        Word::With => Sign::With,
        Word::Xor => Sign::Xor,
    }
}

fn sign_of_mark(mark: Mark) -> Sign
    ensures { result ≡ sign_of_mark mark }
{
    match mark {
        Mark::OpenBrace => Sign::OpenBrace,
        Mark::CloseBrace => Sign::CloseBrace,
        Mark::OpenBracket => Sign::OpenBracket,
        Mark::CloseBracket => Sign::CloseBracket,
        Mark::OpenParenthesis => Sign::OpenParenthesis,
        Mark::CloseParenthesis => Sign::CloseParenthesis,
        Mark::Comma => Sign::Comma,
        Mark::Dot => Sign::Dot,
        Mark::Semicolon => Sign::Semicolon,
        Mark::Colon => Sign::Colon,
        Mark::Assign => Sign::Assign,
        Mark::Equal => Sign::Equal,
        Mark::Less => Sign::Less,
        Mark::Greater => Sign::Greater,
        Mark::LessEqual => Sign::LessEqual,
        Mark::GreaterEqual => Sign::GreaterEqual,
        Mark::NotEqual => Sign::NotEqual,
        Mark::Plus => Sign::Plus,
        Mark::Minus => Sign::Minus,
        Mark::Star => Sign::Star,
        Mark::Slash => Sign::Slash,
        Mark::Backslash => Sign::Backslash,
        Mark::Question => Sign::Question,
    }
}
