//! The grammar of the program's words as data: each command with its options and paths, and the parser that is made of them.
#![tactic(auto)]

mod parser;
mod rows;
mod table;

pub use parser::program;
