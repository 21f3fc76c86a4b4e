//! What a list of constraints holds.
use crate::KeyLines;
use sk_base::Seq;
use sk_lattice::NumDom;
use sk_table::Covers;

/// A number of names, cover lines, and the lines of keys. Contracts see `Constraints` as this.
#[derive(Drop)]
pub struct ConstraintList<D: NumDom> {
    pub(crate) names: usize,
    pub(crate) covers: Covers<D>,
    pub(crate) keys: Seq<KeyLines>,
}
