//! A search for a certificate of a history: workers try serial orders, the likeliest first.
#![tactic(auto)]

mod end;
mod searching;

pub use end::SearchEnd;
pub use search_workers::{OpenSearch, Progress, SearchGate, SearchRuntime};
pub use searching::{search, search_by_branches, search_calls};
