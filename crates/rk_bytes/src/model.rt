//! The definitions of RocksDB's formats. They stand in `specs/Model`, over plain lists and numbers;
//! here are the types that they share with the code. Laws of them are in the crate `rk_laws`.

mod batch;
mod block;
mod command;
mod edit;
mod key;
mod log;
mod manifest;
mod name;
mod number;
mod open;
mod salvage;
mod status;
mod table;
mod view;
mod wal;

pub use batch::BatchFault;
pub use block::{BlockFault, Handle, IndexEntry, IndexFault, Property, RangeDel, RangeFault};
pub use command::{How, SstPart};
pub use edit::{EditFault, Seqs};
pub use key::{KeyFault, Kind, Record};
pub use log::{EndKind, GapWhy};
pub use manifest::{
    ApplyFault, EditWhy, FamilyState, FileMeta, ManifestFault, ManifestWhy, Tracked, Version, Which,
};
pub use name::{CurrentFault, FileName};
pub use number::NumFault;
pub use open::OpenErr;
pub use salvage::{FamilyName, Kept, Moved, Report, SurveyErr};
pub use status::Status;
pub use table::{Footer, FooterFault, SumKind, TableRef, TableWhat, TableWhy, TrailerFault};
pub use view::{Cut, FamilyLine, Point, Tomb};
pub use wal::{LogWhat, Mode, WalErr, WalWhy};
