//! The command line of rdbg: `run` does all that the program does.
#![tactic(auto)]

mod answer;
mod command;
mod emitted;
mod form;
mod laws;
mod printed;
mod printed_funcs;
mod shown;
mod stop;
mod view;

pub use command::{Words, run};
pub use laws::{
    a_run_has_an_ending, a_run_has_one_ending, accepted_files_are_answered,
    codeview_prints_the_same,
};
pub use printed::lines;
