//! The context of a statement.

ghost use Rattle.std.specs.Prelude.{◌≡◌};
ghost use Rattle.stmt_types.specs.Bodies;
ghost use Rattle.stmt_types.specs.Views.{view_around, view_body};
ghost use Rattle.named_data.specs.Views.{view_site};

use crate::body::Body;
use crate::label_list::LabelList;
use named_data::Site;
use rule_checks::Spot;

/// The context of a statement: the innermost FOR around it, the labels of its own list and of the enclosing ones, and
/// whether it is in the ERROR part.
#[derive(Clone, Copy)]
pub(crate) struct Around<'a, 'b> {
    pub(crate) within: Option<u32>,
    pub(crate) levels: &'a [&'a LabelList<'b>],
    pub(crate) handler: bool,
}

impl<'a, 'b> Around<'a, 'b> {
    /// The context of a routine's list, or of its ERROR part: nothing is around it.
    pub(crate) fn outside(handler: bool) -> Around<'a, 'b>
        ensures { view_around result ≡ Bodies.outside handler }
    {
        Around {
            within: None,
            levels: &[],
            handler,
        }
    }

    /// The context of the statements in the FOR with this number, without their labels.
    pub(crate) fn in_loop(&self, number: u32) -> Around<'a, 'b>
        ensures { view_around result ≡ record (view_around self.now) { within = Some number } }
    {
        Around {
            within: Some(number),
            levels: self.levels,
            handler: self.handler,
        }
    }
}

/// The site of a statement at this byte.
pub(crate) fn site_at<'a>(body: &Body<'a, '_>, around: &Around<'_, '_>, at: usize) -> Site<'a>
    ensures { view_site result ≡ Bodies.site (view_body body.now) (view_around around.now) at }
{
    Site {
        alloc: body.alloc,
        scopes: body.scopes,
        spot: Spot {
            module: body.module,
            routine: Some(body.routine),
            within: around.within,
            at,
        },
    }
}
