//! Tables of names.

ghost use Rattle.std.specs.Prelude.{◌≡◌, map};
ghost use Rattle.std.specs.Str.{str_eq_ignore_ascii_case};
ghost use Rattle.rapid_builtins.specs.Names.{meant_by};

/// Whether a name has this spelling, case-insensitively.
fn is_spelled(spelling: &[u8], name: &[u8]) -> bool
    ensures { result ≡ str_eq_ignore_ascii_case spelling.now name.now }
{
    spelling.eq_ignore_ascii_case(name)
}

/// The meaning in the first row of a table with this name, case-insensitively; `None` exactly if no row has the name.
pub(crate) fn meant_by<T: Copy>(rows: &[(&[u8], T)], name: &[u8]) -> Option<T>
    ensures { result ≡ meant_by name.now (map (λ row. (row.0.now, row.1)) rows.now) }
{
    for (spelling, meaning) in rows {
        if is_spelled(spelling, name) {
            return Some(*meaning);
        }
    }
    None
}
