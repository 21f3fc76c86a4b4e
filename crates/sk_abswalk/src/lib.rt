//! The abstract reading of rules over any domain: walks through a rule from abstract inputs, what a table answers to the
//! calls that they ask, accepted tables, and the proof that these are sound; and that this reading is what the analyser's
//! rounds ask for, so that the table at the first round that changes nothing is accepted, comes in time, and on finite
//! domains is the least. The table checker, the analyser and the law of constraints stand on it.
#![tactic(auto)]

mod answer;
mod branches;
mod collect;
mod collect_walk;
mod count;
mod env;
mod from_table;
mod indexed;
mod key_outputs;
mod laws;
mod round_laws;
mod steps;
mod stop;
mod verdict;
mod walk;
mod world;

pub use answer::{is_covered, table_answer};
pub use collect::Collect;
pub use collect_walk::{walk_by_key, walk_collect};
pub use count::Steps;
pub use from_table::FromTable;
pub use indexed::IndexedTable;
pub use key_outputs::KeyOutputs;
pub use laws::{
    accepted_tables_are_sound, answers_are_meets, answers_are_monotone, answers_of_tables_fit,
    bounds_do_not_matter, walker_walks, walks_agree, walks_are_monotone, walks_are_proper,
    walks_fit,
};
pub use round_laws::{analysed_tables_are_accepted, readings_are_walks, readings_ask};
pub use stop::{FromStop, Stop};
pub use verdict::{Verdict, Why, verdicts_are_right};
pub use walk::{walk_from, walk_indexed};
pub use world::World;
