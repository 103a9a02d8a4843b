//! The body of a routine.

ghost use Rattle.rapid_forms.specs.Reading.{Gives, rest_from};
ghost use Rattle.module_parser.specs.Bodies.{view_body};
ghost use Rattle.module_parser.specs.Reads.{body_read};

use crate::data::locals;
use crate::optional::handler_if_any;
use rapid_forms::{Parser, SyntaxFault};
use rapid_limits::MOST_LEVELS;
use raw_trees::{RawDatum, RawStmt};
use stmt_parser::list;

/// The data of a routine, its statements, and its ERROR part.
#[derive(Drop)]
pub(crate) struct Body<'a> {
    pub(crate) locals: Vec<RawDatum<'a>>,
    pub(crate) list: Vec<RawStmt<'a>>,
    pub(crate) handler: Option<Vec<RawStmt<'a>>>,
}

/// The body of a routine.
#[tactic(auto, unfolding(crate::specs::Reads::body_read, rapid_forms::specs::Reading::seq_read, rapid_forms::specs::Reading::then_read))]
pub(crate) fn routine_body<'a>(
    p: &Parser<'_, 'a>,
    at: usize,
) -> Result<(Body<'a>, usize), SyntaxFault>
    ensures { Gives p.now.tokens view_body result (body_read MOST_LEVELS (rest_from p.now.tokens at)) }
{
    let (locals, next) = locals(p, at)?;
    let (list, after) = list(p, next, MOST_LEVELS)?;
    let (handler, end) = handler_if_any(p, after)?;
    let body = Body {
        locals,
        list,
        handler,
    };
    Ok((body, end))
}
