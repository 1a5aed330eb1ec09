//! The version that a manifest's edits amount to: its units are applied one by one, each whole or not at all
//! (RocksDB's db/version_edit_handler.cc and db/version_builder.cc).
#![tactic(auto)]

mod builder;
mod copy;
mod draft;
mod families;
mod files;
mod keep;
mod kept;
mod least;
mod logs;
mod overlap;
mod place;
mod rank;
mod ranked;
mod ranking;
mod rankings;
mod restore;
mod spot;
mod stated;
mod step;
mod undo;
mod unit;

pub use builder::VersionBuilder;
pub use copy::copy_file;
pub use least::first_log;
pub use rk_bytes::model::{ApplyFault, FamilyState, FileMeta, Tracked, Version};
pub use step::meta_of;
pub use undo::{Undo, UndoErr};
pub use unit::Unit;
