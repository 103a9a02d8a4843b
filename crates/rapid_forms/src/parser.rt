use crate::tokens::Tokens;
use std::alloc::Global;

/// What all functions of a parser share: the allocator and the tokens.
#[derive(Clone, Copy)]
pub struct Parser<'t, 'a> {
    pub alloc: Global,
    pub tokens: Tokens<'t, 'a>,
}
