//! What an analysis is of.

use sk_lattice::{NumDom, Thresholds};
use sk_sort::Checked;
use sk_table::Covers;
use sk_term::Arena;
use std::alloc::Global;

/// A program of a definition, cover lines, and the thresholds of the widenings.
#[derive(Drop)]
pub(crate) struct Job<'a, D: NumDom> {
    pub(crate) alloc: Global,
    pub(crate) checked: &'a Checked,
    pub(crate) arena: &'a Arena,
    pub(crate) covers: &'a Covers<D>,
    pub(crate) marks: &'a Thresholds,
}
