//! The second reading of a definition: for each key of a program the constraints that its rule puts on the inputs and
//! outputs of its bones, and their text. The solver of constraints stands on this.
#![tactic(auto)]

mod constraint_list;
mod constraints;
mod env;
mod interp;
mod line;
mod making;
mod print;
mod start;
mod world;

pub use constraint_list::ConstraintList;
pub use constraints::Constraints;
pub use interp::GenInterp;
pub use line::{KeyLines, Line, LineList, Operand, OperandList, Part, Place, SortsList};
pub use making::generate;
pub use print::print_constraints;
pub use world::GenWorld;
