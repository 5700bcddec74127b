//! What a history file holds as lines of text, one a starting object and one an event, for whoever has to look at them.
#![tactic(auto)]

mod arguments;
mod events;
mod items;
mod lines;
mod look;
mod messages;
mod names;
mod results;
mod short;
mod start_lines;
mod text;

pub use arguments::push_arguments;
pub use events::{BegunFile, UnreadEvents};
pub use lines::EventLines;
pub use look::{Look, Marks, Selection, Sought, SoughtHandle};
pub use names::{procedure_name, status_name};
pub use results::push_result;
pub use short::{ShortHandle, short_of};
pub use text::{Line, Text};
