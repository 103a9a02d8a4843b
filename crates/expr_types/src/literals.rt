//! Literals, and the values that they spell.

ghost use Rattle.std.specs.Prelude.{◌≡◌, pos};
ghost use Rattle.raw_trees.specs.Plain.{Number, Quoted, Truth};
ghost use Rattle.typed_trees.specs.Views.{view_expr};
ghost use Rattle.rule_checks.specs.TypeChecks.{Gives};
ghost use Rattle.named_data.specs.Views.{view_site};
ghost use Rattle.expr_types.specs.Typing;

use crate::values::must_fit;
use named_data::{Site, Wanted};
use rapid_model::{Sort, Text, Value};
use rapid_num::{Num, read_literal};
use rule_checks::TypeFault;
use typed_trees::Expr;

/// A numerical literal at this byte.
#[tactic(auto, unfolding(crate::specs::Typing::typed))]
pub(crate) fn number(
    site: &Site<'_>,
    want: Wanted,
    at: usize,
    text: &[u8],
) -> Result<Expr, TypeFault>
    ensures { Gives view_expr result (Typing.typed (view_site site.now) (Number at text.now) want) }
{
    must_fit(site, want, at, Sort::Num)?;
    let tree = Expr::constant(site.alloc, at, Sort::Num, Value::Num(number_of(text)))?;
    Ok(tree)
}

/// A string at this byte.
#[tactic(auto, unfolding(crate::specs::Typing::typed))]
pub(crate) fn quoted(
    site: &Site<'_>,
    want: Wanted,
    at: usize,
    text: &[u8],
) -> Result<Expr, TypeFault>
    ensures { Gives view_expr result (Typing.typed (view_site site.now) (Quoted at text.now) want) }
{
    must_fit(site, want, at, Sort::Text)?;
    let tree = Expr::constant(site.alloc, at, Sort::Text, Value::Text(text_of(text)))?;
    Ok(tree)
}

/// TRUE or FALSE at this byte.
#[tactic(auto, unfolding(crate::specs::Typing::typed))]
pub(crate) fn truth(
    site: &Site<'_>,
    want: Wanted,
    at: usize,
    value: bool,
) -> Result<Expr, TypeFault>
    ensures { Gives view_expr result (Typing.typed (view_site site.now) (Truth at value) want) }
{
    must_fit(site, want, at, Sort::Bool)?;
    let tree = Expr::constant(site.alloc, at, Sort::Bool, Value::Bool(value))?;
    Ok(tree)
}

/// The number that a literal spells (RAPID Kernel, lexical elements).
fn number_of(text: &[u8]) -> Num
    ensures { result ≡ Typing.number_of text.now }
{
    match read_literal(text) {
        Ok(number) => number,
        Err(_) => zero(),
    }
}

fn zero() -> Num
    ensures { result ≡ pos 0 }
{
    Num::new(0).unwrap()
}

/// The text that a string spells (RAPID Kernel, lexical elements).
fn text_of(quoted: &[u8]) -> Text
    ensures { result ≡ Typing.text_of quoted.now }
{
    match string_texts::text_of(quoted) {
        Some(text) => text,
        None => Text::new(),
    }
}
