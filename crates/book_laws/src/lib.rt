//! The book of a journal server as a machine: what it may do, and what each of its states comes to. Its own certificate is at any
//! time a witness of the history that it recorded. No code runs: each law is the contract of a function that does nothing.
#![tactic(auto)]

mod alone;
mod example;
mod explained;
mod recorded;
mod served;
mod writing;

pub use alone::a_journal_alone_gives_the_tree;
pub use example::the_premises_are_met;
pub use explained::every_book_is_explained;
pub use recorded::its_records_are_its_changes;
pub use served::every_reply_is_served;
pub use writing::every_certificate_can_be_written;
