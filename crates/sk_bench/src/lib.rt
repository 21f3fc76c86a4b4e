//! The commands of the workbench, and the call that does all that the program does. A command is a plan: which files it
//! reads, each as the ones before say, and what it then writes. The program `skel` stands on it.
#![tactic(auto)]

mod accept;
mod analyse_command;
mod check;
mod codes;
mod constrain_command;
mod cover_lines;
mod job;
mod job_calls;
mod job_command;
mod job_covers;
mod job_lines;
mod job_marks;
mod job_text;
mod kinds;
mod laws;
mod print;
mod refused;
mod run;
mod solve_command;
mod status;
mod top;
mod verdict_text;
mod verify_command;
mod words;

pub use accept::faults_are_placed;
pub use job::{Job, JobError, JobFault, Start};
pub use job_text::read_job;
pub use kinds::{Command, DomainWord};
pub use laws::solutions_are_analyses;
pub use status::Status;
pub use top::workbench;
pub use words::command;

#[cfg(test)]
mod answer_tests;
#[cfg(test)]
mod call_tests;
#[cfg(test)]
mod law_tests;
#[cfg(test)]
mod row_tests;
#[cfg(test)]
mod tests;
