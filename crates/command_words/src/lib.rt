//! The grammar of the planner's command line: the words behind the program's name, as a request. The first word names a command, `--` ends
//! the options, and the other words are a day, a moment, files, a seed or a roster, whichever the command takes.
#![tactic(auto)]

mod command;
mod fault;
mod options;
mod request;
mod words;

pub use command::{Command, Making};
pub use fault::WordsFault;
pub use request::Request;
pub use words::{day_word, read_words};
