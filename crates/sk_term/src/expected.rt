//! What may stand next in a program.

use crate::node::TermNode;

/// What may stand next.
#[derive(Clone, Copy, Debug, PartialEq, Eq)]
pub(crate) enum Expected {
    /// A constructor of any sort.
    Root,
    /// The `(` before the arguments.
    Open,
    /// The first argument, or `)` where there is none.
    First,
    /// The `,` before the next argument, or `)` where there is none.
    After,
    /// The next argument, after a comma.
    Next,
}

/// A term that is being read: its point, and its node so far.
#[derive(Drop)]
pub(crate) struct OpenTerm {
    pub point: usize,
    pub node: TermNode,
}
