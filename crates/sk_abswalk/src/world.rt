//! Worlds of the abstract reading.
use crate::env::AbsEnv;
use sk_lattice::NumDom;
use sk_sort::VarSorts;

/// What the variables of a rule stand for after some of its bones, none where nothing gets there; and their sorts.
#[derive(Drop)]
pub struct World<D: NumDom> {
    pub(crate) sorts: VarSorts,
    pub(crate) env: Option<AbsEnv<D>>,
}
