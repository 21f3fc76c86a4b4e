//! The values of the concrete reading: numbers and truth values, the states of a job's names, and tuples of flowing
//! values; and what arithmetic on whole numbers gives. The filters, the derivations and the domains stand on these.
#![tactic(auto)]

mod arith;
mod flow;
mod text;
mod tuple;
mod value;

pub use arith::{Arith, Compare, Refine, results_are_given};
pub use flow::Flow;
pub use text::{put_between, put_bytes, put_count, put_number, put_truth, put_value};
pub use tuple::Tuple;
pub use value::{Store, Value};
