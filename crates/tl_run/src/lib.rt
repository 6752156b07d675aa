//! The program but for its start: words, an input and a reply.
#![tactic(auto)]

mod check;
mod command_line;
mod decide;
mod draws;
mod flips;
mod generate;
mod page;
mod path_text;
mod readers;
mod refusals;
mod refute;
mod reply;
mod run;
mod sample;
#[cfg(test)]
mod sample_tests;
mod status;
mod summary;
#[cfg(test)]
mod summary_tests;
#[cfg(test)]
mod tests;
mod writers;

pub use command_line::run_process;
pub use run::run_quiet;
pub use status::Status;
