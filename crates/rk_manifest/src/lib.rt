//! The units of a manifest, and the last version that they amount to (RocksDB's wiki, "MANIFEST", and
//! db/version_edit_handler.cc): of a manifest that is held whole, and of one that is handed in block by
//! block.
#![tactic(auto)]

mod block;
mod error;
mod fold;
mod group;
mod last;
mod progress;
mod reading;
mod units;

pub use error::ManifestErr;
pub use fold::ManifestFold;
pub use last::last_version;
pub use rk_bytes::model::{EditWhy, ManifestFault, ManifestWhy, Which};
pub use rk_version::{Unit, Version};
pub use units::{Units, read_units};
