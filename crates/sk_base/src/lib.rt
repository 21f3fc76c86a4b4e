//! What every crate of the workbench stands on: names, places, and the files and the sink outside.
#![tactic(auto)]

mod errors;
mod files;
mod flow;
mod ident;
mod mem_files;
mod mem_sink;
mod names;
mod place;
mod seq;
mod sink;
mod stack;
mod std_files;
mod std_sink;

pub use errors::{Failed, FileFault, NamesFault, NoMemory};
pub use files::{Files, read_file};
pub use flow::FlowSort;
pub use ident::Ident;
pub use mem_files::MemFiles;
pub use mem_sink::MemSink;
pub use names::Names;
pub use place::{Place, place_of};
pub use seq::Seq;
pub use sink::{Sink, write_all};
pub use stack::Stack;
pub use std_files::StdFiles;
pub use std_sink::StdSink;

#[cfg(test)]
mod tests;
