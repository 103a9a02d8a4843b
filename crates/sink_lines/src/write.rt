ghost use Rattle.std.specs.Prelude.{[], ◌∷◌};
ghost use Rattle.sink_lines.specs.Printed.{sunk};
ghost use Rattle.sink_lines.specs.Written.{Writes};

use outside::{Failed, Sink};

/// Writes all bytes of a piece: one `write`, and more only if a write took only part of it.
pub fn write_all<O: Sink>(out: &mut O, piece: &[u8]) -> Result<(), Failed>
    ensures { Writes (piece.now ∷ []) result (sunk O.told O.calls O.faults out.old out.new) }
{
    let mut at = 0;
    while at < piece.len() {
        at += out.write(&piece[at..])?;
    }
    Ok(())
}

/// Writes two pieces in order.
pub(crate) fn write_two<E: Sink>(err: &mut E, first: &[u8], second: &[u8]) -> Result<(), Failed>
    ensures { Writes (first.now ∷ second.now ∷ []) result (sunk E.told E.calls E.faults err.old err.new) }
{
    write_all(err, first)?;
    write_all(err, second)
}

/// Writes three pieces in order.
pub(crate) fn write_three<E: Sink>(
    err: &mut E,
    head: &[u8],
    middle: &[u8],
    tail: &[u8],
) -> Result<(), Failed>
    ensures { Writes (head.now ∷ middle.now ∷ tail.now ∷ []) result (sunk E.told E.calls E.faults err.old err.new) }
{
    write_all(err, head)?;
    write_two(err, middle, tail)
}
