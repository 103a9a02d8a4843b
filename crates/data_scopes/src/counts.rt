ghost use Rattle.std.specs.Prelude.{◌≡◌};
ghost use Rattle.data_scopes.specs.Numbers.{no_counts};

/// How many of each kind are declared before: the VARs and array CONSTs of modules, the PERSs, the CONSTs that are not
/// arrays, and the routines.
#[derive(Clone, Copy)]
pub(crate) struct Counts {
    pub(crate) slots: u32,
    pub(crate) pers: u32,
    pub(crate) consts: u32,
    pub(crate) routines: u32,
}

impl Counts {
    /// Nothing is declared before.
    pub(crate) fn new() -> Counts
        ensures { result ≡ no_counts }
    {
        Counts {
            slots: 0,
            pers: 0,
            consts: 0,
            routines: 0,
        }
    }
}
