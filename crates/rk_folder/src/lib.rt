//! The disk and the output of the real system: a folder, and the standard output of a runtime. Neither tells
//! contracts its contents.
#![tactic(auto)]

mod folder;
mod held;
mod stdout;

pub use folder::FolderDisk;
pub use stdout::StdoutSink;
