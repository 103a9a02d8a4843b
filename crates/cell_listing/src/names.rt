ghost use Rattle.std.specs.Prelude.{◌≡◌, ◌≤◌, length};
ghost use Rattle.cell_listing.specs.OpListing.{op_name};

use crate::op_rooms::NAME_BYTES;
use stack_code::Op;

/// The name of an operation.
pub(crate) fn op_name(op: &Op) -> &'static str
    ensures name { result.now ≡ op_name op.now }
    ensures short { length result.now ≤ NAME_BYTES }
{
    match op {
        Op::Push(_) => "Push",
        Op::Errno => "Errno",
        Op::Drop => "Drop",
        Op::Dup => "Dup",
        Op::Over => "Over",
        Op::Slot(_) => "Slot",
        Op::Local(_) => "Local",
        Op::Pers(_) => "Pers",
        Op::Ref(_) => "Ref",
        Op::Index(_) => "Index",
        Op::Part(_) => "Part",
        Op::Load => "Load",
        Op::Store => "Store",
        Op::GetSignal(_) => "GetSignal",
        Op::PutSignal(_) => "PutSignal",
        Op::Bit => "Bit",
        Op::Pack(_) => "Pack",
        Op::Binary(_) => "Binary",
        Op::Unary(_) => "Unary",
        Op::Func(_) => "Func",
        Op::Jump(_) => "Jump",
        Op::JumpTrue(_) => "JumpTrue",
        Op::JumpFalse(_) => "JumpFalse",
        Op::Look => "Look",
        Op::Call(_) => "Call",
        Op::Back => "Back",
        Op::BackWith => "BackWith",
        Op::NoBack => "NoBack",
        Op::Raise => "Raise",
        Op::Again => "Again",
        Op::Retry => "Retry",
        Op::Next => "Next",
        Op::Exit => "Exit",
        Op::Turn(_, _) => "Turn",
        Op::Step(_, _) => "Step",
        Op::Wait(_) => "Wait",
        Op::TestSet => "TestSet",
        Op::TaskSet(_) => "TaskSet",
        Op::Arrive(_) => "Arrive",
        Op::Here => "Here",
        Op::Still => "Still",
        Op::Aim => "Aim",
        Op::Point(_) => "Point",
        Op::Connect(_) => "Connect",
        Op::Order(_, _) => "Order",
        Op::Irq(_) => "Irq",
        Op::Shape(_, _) => "Shape",
        Op::ZoneSet(_) => "ZoneSet",
        Op::ZoneTie(_, _) => "ZoneTie",
        Op::Zone(_) => "Zone",
        Op::Say(_) => "Say",
    }
}
