ghost use Rattle.std.specs.Prelude.{◌≡◌, ◌<◌, ◌∷◌, [], codes, length, OnOk, OnErr};
ghost use Rattle.sink_lines.specs.Printed.{sunk};
ghost use Rattle.sink_lines.specs.Written.{Writes, WritesLine, in_line};

use crate::write::{write_all, write_three, write_two};
use arrayvec::{ArrayVec, CapacityError};
use outside::{Failed, Sink};

/// The buffer for the line of a refusal, in bytes: it holds each name that Linux can open.
pub(crate) const REFUSAL_BYTES: usize = 4_352;

/// Writes a line, given without its end: what is refused, its name, what comes between that and the rule's name, which
/// comes last. A line that fits the buffer is written by one call, a longer one in pieces.
pub fn write_line<E: Sink>(
    err: &mut E,
    head: &[u8],
    name: &[u8],
    between: &[u8],
    rule: &[u8],
) -> Result<(), Failed>
    ensures { WritesLine (in_line head.now name.now between.now rule.now) result (sunk E.told E.calls E.faults err.old err.new) }
{
    let mut line = ArrayVec::new();
    match gather(head, name, between, rule, &mut line) {
        Ok(()) => write_all(err, line.as_slice()),
        Err(_) => write_pieces(err, head, name, between, rule),
    }
}

/// Appends the pieces of a line and its end to an empty buffer. Fails exactly if the line does not fit.
fn gather(
    head: &[u8],
    name: &[u8],
    between: &[u8],
    rule: &[u8],
    line: &mut ArrayVec<u8, REFUSAL_BYTES>,
) -> Result<(), CapacityError>
    requires { line.old.items ≡ [] }
    ensures fits { OnOk result (line.new.items ≡ in_line head.now name.now between.now rule.now) }
    ensures long { OnErr result (REFUSAL_BYTES < length (in_line head.now name.now between.now rule.now)) }
{
    line.try_extend_from_slice(head)?;
    line.try_extend_from_slice(name)?;
    line.try_extend_from_slice(between)?;
    line.try_extend_from_slice(rule)?;
    line.try_extend_from_slice(b"\n")
}

/// Writes the pieces of a line and its end in order.
fn write_pieces<E: Sink>(
    err: &mut E,
    head: &[u8],
    name: &[u8],
    between: &[u8],
    rule: &[u8],
) -> Result<(), Failed>
    ensures { Writes (head.now ∷ name.now ∷ between.now ∷ rule.now ∷ codes "\n" ∷ []) result (sunk E.told E.calls E.faults err.old err.new) }
{
    write_two(err, head, name)?;
    write_three(err, between, rule, b"\n")
}
