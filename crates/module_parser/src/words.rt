//! The meaning of the words of declarations.

ghost use Rattle.std.specs.Prelude.{◌≡◌};
ghost use Rattle.rapid_lexer.specs.Tokens.{view};
ghost use Rattle.module_parser.specs.Words.{attribute_of, kind_of, mode_of};

use rapid_forms::{Sign, sign_of};
use rapid_lexer::Token;
use rapid_model::Mode;
use raw_trees::{Attribute, DatumKind};

pub(crate) fn kind_of(token: &Token<'_>) -> DatumKind
    ensures { result ≡ kind_of (view token.now) }
{
    match sign_of(token) {
        Sign::Const => DatumKind::Const,
        Sign::Var => DatumKind::Var,
        _ => DatumKind::Pers,
    }
}

pub(crate) fn mode_of(token: &Token<'_>) -> Mode
    ensures { result ≡ mode_of (view token.now) }
{
    match sign_of(token) {
        Sign::Inout => Mode::Inout,
        Sign::Var => Mode::Var,
        _ => Mode::Pers,
    }
}

pub(crate) fn attribute_of(token: &Token<'_>) -> Attribute
    ensures { result ≡ attribute_of token.now.at (view token.now) }
{
    match sign_of(token) {
        Sign::SysModule => Attribute::SysModule,
        Sign::NoView => Attribute::NoView,
        Sign::NoStepIn => Attribute::NoStepIn,
        Sign::ViewOnly => Attribute::ViewOnly,
        _ => Attribute::ReadOnly,
    }
}
