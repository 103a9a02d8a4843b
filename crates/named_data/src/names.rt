//! Names of typed trees.

ghost use Rattle.std.specs.Prelude.{Ok};
ghost use Rattle.rule_checks.specs.TypeChecks.{Gives};

use rapid_model::NameText;
use rule_checks::TypeFault;

/// The name as spelled. Fails only as out of memory, also if the name has more than 32 bytes or bytes that are not
/// printable.
pub fn name_text(text: &[u8]) -> Result<NameText, TypeFault>
    ensures { Gives (λ name. name) result (Ok text.now) }
{
    let mut name = NameText::new();
    for byte in text {
        if !name.push(*byte) {
            return Err(TypeFault::Memory);
        }
    }
    Ok(name)
}
