//! The lines that the commands write, made in a buffer that serves for all of them.
#![tactic(auto)]

mod batch;
mod best;
mod drill;
mod edit;
mod family;
mod item;
mod key;
mod line;
mod outcome;
mod quote;
mod refusal;
mod table;
mod view;

pub use batch::batch_lines;
pub use edit::edit_lines;
pub use item::item_line;
pub use key::key_text;
pub use line::Line;
pub use outcome::Outcome;
pub use quote::quoted;
