//! Write batches: read from the bytes of a log's record, and built.
#![tactic(auto)]

mod builder;
mod part;
mod record;
mod view;

pub use builder::BatchBuilder;
pub use record::BatchRecord;
pub use rk_bytes::model::{BatchFault, Kind, LogWhat};
pub use view::BatchView;
