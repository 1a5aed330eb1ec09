//! What a database's directory is opened to (RocksDB's db/version_set.cc and db/db_impl/db_impl_open.cc).
#![tactic(auto)]

mod best;
mod best_manifest;
mod bounds;
mod current;
mod directory;
mod fault;
mod kept;
mod listed;
mod loaded;
mod logs;
mod manifests;
mod open_listed;
mod opened;
mod placed;
mod ranges;
mod read;
mod run;
mod state;
mod tables;
mod tracked;
mod usable;
mod version;
mod whole;

pub use best::{Best, open_best};
pub use current::named_manifest;
pub use directory::{open_db, open_full};
pub use opened::Opened;
pub use rk_bytes::model::{Mode, OpenErr};
pub use version::{current_version, last_version};
