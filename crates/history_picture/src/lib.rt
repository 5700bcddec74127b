//! A history as a picture: a page of HTML with the calls by lanes and events, which any browser shows.
#![tactic(auto)]

mod calls;
mod drawing;
mod escaping;
mod fixed;
mod fronts;
mod gathering;
mod layout;
mod pages;
mod parts;
mod shapes;
mod show_words;
mod span;
mod standings;
mod table;
mod writing;

pub use escaping::escape;
pub use gathering::{Request, Window, picture_of};
pub use pages::Page;
pub use parts::{Bar, Mark, PICTURE_EVENTS, Picture};
pub use writing::picture_page;
