//! How far the files that are whole let each family of a database come: the greatest number of a manifest's units
//! for each family at which all its files are whole, and no group of edits is broken (best-efforts opening).
#![tactic(auto)]

mod aim;
mod at_points;
mod best;
mod broken;
mod course;
mod descent;
mod files;
mod groups;
mod lists;
mod tallies;
mod tally;
mod walk;

pub use at_points::files_at_points;
pub use best::best_points;
pub use files::files_at;
pub use lists::listed;
pub use rk_bytes::model::{FileMeta, Point};

#[cfg(test)]
mod tests;
