//! The engine behind the program `nfsbench`: it does what a command line asks for.
#![tactic(auto)]

mod draw;
mod explaining;
mod files;
mod process;
mod runs;
mod telling;
mod words;

pub use history_report::{lost_of, report_of};
pub use process::run_process;
pub use runs::judge_run;
pub use serving_commands::server_connection::{StreamEnd, serve_stream};
pub use showing_command::judging_commands::{
    judge, judge_files, judge_read, report_read, run_bundle,
};
pub use words::run_words;
