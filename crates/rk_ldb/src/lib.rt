//! The commands: `run` takes the words of one, and writes what it says of a disk's files.
#![tactic(auto)]

mod batch;
mod best;
mod check;
mod command;
mod counts;
mod drill;
mod dump;
mod edit;
mod families;
mod get;
mod items;
mod keys;
mod lines;
mod log_dump;
mod manifest_dump;
mod opening;
mod program;
mod refusal;
mod scan;
mod shown;
mod sst;
mod stop;
mod words;

pub use command::{Command, read_command};
pub use keys::KeyWord;
pub use program::{end_after_want_of_memory, run};
pub use rk_bytes::model::Status;
