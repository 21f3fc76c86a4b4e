//! The nodes of a program.

use sk_base::Seq;
use sk_def::ConId;

/// An entry of a node: a number, a name of the job, or the point of a subterm.
#[derive(Clone, Copy, Debug, PartialEq, Eq)]
pub enum Child {
    Number(i64),
    Name(u8),
    Point(u16),
}

/// A constructor of a program with its entries.
#[derive(Drop)]
pub struct TermNode {
    pub con: ConId,
    pub children: Seq<Child>,
}
