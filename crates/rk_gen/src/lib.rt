//! The directory that `drill` makes and repairs: one table, and two logs, of which the first lacks its last
//! byte.
#![tactic(auto)]

mod directory;
mod logs;
mod manifest;
mod numbers;
mod table;

pub use directory::make_directory;
