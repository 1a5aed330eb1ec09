//! Which records of write-ahead logs are replayed, in four modes (RocksDB's wiki, "WAL Recovery Modes"): of
//! logs that are held whole, and of logs that are handed in block by block.
#![tactic(auto)]

mod batch;
mod block;
mod file;
mod finding;
mod logs;
mod outcome;
mod progress;
mod run;

pub use file::LogFile;
pub use logs::replay;
pub use outcome::Replayed;
pub use rk_bytes::model::{LogWhat, Mode, WalErr, WalWhy};
pub use run::ReplayRun;
