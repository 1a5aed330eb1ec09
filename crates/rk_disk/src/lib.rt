//! The disk and the output as the layers above see them, forms of both in memory, and the reading
//! of a file, whole or a piece of it.
#![tactic(auto)]

mod calm_disk;
mod disk;
mod files;
mod lying_disk;
mod mem_disk;
mod mem_sink;
mod plan;
mod read;
mod sink;

pub use calm_disk::CalmDisk;
pub use disk::{Disk, DiskErr};
pub use lying_disk::LyingDisk;
pub use mem_disk::MemDisk;
pub use mem_sink::MemSink;
pub use read::{read_file, read_part, read_piece};
pub use sink::{Sink, SinkErr};
