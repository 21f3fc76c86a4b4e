//! Tables of triples and cover lines, and the texts of abstract tuples and of tables.
//! The abstract walk, the table checker, the analyser and the job reader stand on this.
#![tactic(auto)]

mod expected;
mod fault;
mod naming;
mod print;
mod table;
mod table_reader;
mod triple;
mod tuple;
mod tuple_reader;

pub use fault::{TableError, TableFault};
pub use print::print_table;
pub use table::read_table;
pub use triple::{Cover, Covers, Table, Triple};
pub use tuple::{read_abs_tuple, read_known_abs_tuple, take_abs_tuple};

#[cfg(test)]
mod tests;
