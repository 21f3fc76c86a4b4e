//! How texts are spelled: laws that say what the grammars of definitions, tuples, tables and jobs mean. What is read is
//! exactly what is spelled so.
#![tactic(auto)]

mod laws;

pub use laws::{
    abs_tuples_are_read_exactly, definitions_are_read_exactly, job_texts_are_read_exactly,
    jobs_are_read_exactly, only_jobs_are_read, table_texts_are_read_exactly,
    tables_are_read_exactly, tables_are_spelled_in_full, tuples_are_read_exactly,
};
