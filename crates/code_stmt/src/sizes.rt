ghost use Rattle.std.specs.Prelude.{◌≡◌, ℕ, [], ◌∷◌};
ghost use Rattle.code_stmt.specs.Sizing.{Taking, left_in};

/// The numbers of operations of statements and lists, in the order in which emission asks for them.
#[derive(Drop)]
pub(crate) struct SizesLeft {
    sizes: Vec<u32>,
    used: usize,
}

impl SizesLeft {
    /// All of these sizes are left.
    pub(crate) fn new(sizes: Vec<u32>) -> SizesLeft
        ensures { left_in result ≡ sizes.items }
    {
        SizesLeft { sizes, used: 0 }
    }

    /// The next one, or 0 after the last.
    pub(crate) fn next(&mut self) -> u32
        ensures { (size : ℕ) → Taking self.old self.new (size ∷ []) (result ≡ size) }
    {
        if self.used >= self.sizes.len() {
            return 0;
        }
        let size = self.sizes[self.used];
        self.used += 1;
        size
    }
}
