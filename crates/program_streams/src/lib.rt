//! The streams that the program reads and writes, and what is said on them: a line and an exit status.
#![tactic(auto)]

mod digits;
mod input;
mod output;
mod paths;
mod reading;
mod report;
mod telling;

pub use digits::{DigitsFault, decode_digits};
pub use input::{Input, READ_SIZE, Stream};
pub use output::{Output, Sink, write_pieces};
pub use paths::are_one_file;
pub use reading::{InputFault, READ_LIMIT, read_all};
pub use report::{Report, line_of};
pub use telling::{tell, tell_answer, tell_report, tell_want_of_memory};
