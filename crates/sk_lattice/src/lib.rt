//! What a numeric domain is, and abstract values, stores, flows and tuples over any domain.
//! The domains, the abstract filters and all that reads abstract tuples stand on it.
#![tactic(auto)]

mod cell;
mod domain;
mod flow;
mod laws;
mod merge;
mod store;
mod thresholds;
mod truth;
mod tuple;
mod value;

pub use cell::{AbsCell, CellList};
pub use domain::NumDom;
pub use flow::AbsFlow;
pub use laws::{tuple_laws, tuple_rank_laws, tuple_shape_laws};
pub use sk_value::{Arith, Compare, Refine};
pub use store::AbsStore;
pub use thresholds::Thresholds;
pub use truth::AbsBool;
pub use tuple::AbsTuple;
pub use value::AbsVal;
