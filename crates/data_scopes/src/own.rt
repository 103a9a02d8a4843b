ghost use Rattle.std.specs.Prelude.{◌≡◌, Some};
ghost use Rattle.data_scopes.specs.Declarations;

use crate::meant::Meant;

/// Whether a name means what this declaration of it means: no earlier declaration in its scope has the name.
pub(crate) fn is_own(own: Meant, meant: Option<Meant>) -> bool
    ensures { result ≡ Declarations.is_own own meant }
{
    match meant {
        Some(found) => is_same(own, found),
        None => false,
    }
}

fn is_same(own: Meant, found: Meant) -> bool
    ensures { result ≡ Declarations.is_own own (Some found) }
{
    match own {
        Meant::Slot(a) => matches!(found, Meant::Slot(b) if a == b),
        Meant::Local(a) => matches!(found, Meant::Local(b) if a == b),
        Meant::Ref(a) => matches!(found, Meant::Ref(b) if a == b),
        Meant::Pers(a) => matches!(found, Meant::Pers(b) if a == b),
        Meant::Const(a) => matches!(found, Meant::Const(b) if a == b),
        Meant::Routine(a) => matches!(found, Meant::Routine(b) if a == b),
        _ => false,
    }
}
