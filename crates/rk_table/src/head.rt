//! The blocks of a table beside its data blocks. Each leads from one stage to the next.
ghost use Rattle.std.specs.Prelude.{◌≡◌, ℕ, ◌+◌, ◌^◌, ◌<◌, ◌≤◌, List, IfOk, IfErr, codes};
ghost use Rattle.rk_bytes.specs.Model.BlockEntries.{with_fault, index_entries};
ghost use Rattle.rk_bytes.specs.Model.TableStatus.{index_status, range_status, range_list, reader_of};
ghost use Rattle.rk_table.specs.Told.{Tells};
ghost use Rattle.rk_table.specs.Stages.{left_of, after_metaindex, after_properties};
ghost use Rattle.rk_table.specs.Steps.{meta_named, properties_told, stopped_at, Continues, IsSound, AreBelowTop, steps_left};

use crate::fault::{block_fault, damaged};
use crate::properties::tested;
use crate::stage::Stage;
use crate::{Handle, IndexEntry, Property, RangeDel, Status, TableWhy, WalkErr};
use rk_bytes::Seq;
use rk_bytes::model::{Footer, IndexFault, RangeFault};
use rk_meta::{PropFault, read_index, read_properties, read_ranges};
use std::alloc::Global;

/// The meta block of properties.
const PROPERTIES: &[u8] = b"rocksdb.properties";

/// The meta block of range deletions.
const RANGE_DELETIONS: &[u8] = b"rocksdb.range_del";

/// Where the reading goes on after an error: at its end with this fault or, where memory ran out, at the
/// stage as it was.
pub(crate) fn stopped(error: WalkErr, stage: Stage) -> Result<Stage, Stage>
    ensures { result ≡ stopped_at error stage }
{
    match error {
        WalkErr::Damaged { why, place } => Ok(Stage::Ended(Status::Damaged { why, place })),
        WalkErr::Unsupported(what) => Ok(Stage::Ended(Status::Unsupported(what))),
        WalkErr::Memory => Err(stage),
    }
}

/// The stage after the metaindex's block.
pub(crate) fn after_metaindex(alloc: Global, footer: Footer, block: &[u8]) -> Result<Stage, Stage>
    ensures ok { IfOk result (Continues (Stage.Metaindex footer) block.now) }
    ensures sound { IfOk result IsSound }
    ensures lower { IfOk result (λ next. steps_left next < 2 ^ 64 + 3) }
    ensures err { IfErr result (λ stage. stage ≡ Stage.Metaindex footer) }
{
    match index_in(alloc, footer.metaindex.offset, false, block) {
        Ok(metas) => Ok(with_metas(alloc, footer, metas.as_slice())),
        Err(error) => stopped(error, Stage::Metaindex { footer }),
    }
}

/// The stage after the block of properties.
pub(crate) fn after_properties(
    alloc: Global,
    footer: Footer,
    at: Handle,
    ranges_at: Option<Handle>,
    block: &[u8],
) -> Result<Stage, Stage>
    ensures ok { IfOk result (Continues (Stage.Properties footer at ranges_at) block.now) }
    ensures sound { IfOk result IsSound }
    ensures lower { IfOk result (λ next. steps_left next < 2 ^ 64 + 2) }
    ensures err { IfErr result (λ stage. stage ≡ Stage.Properties footer at ranges_at) }
{
    match properties_in(alloc, at.offset, block) {
        Ok(properties) => Ok(with_properties(alloc, footer, properties, ranges_at)),
        Err(error) => {
            let stage = Stage::Properties {
                footer,
                at,
                ranges_at,
            };
            stopped(error, stage)
        }
    }
}

/// The stage after the block of range deletions.
pub(crate) fn after_ranges(
    alloc: Global,
    footer: Footer,
    properties: Seq<Property>,
    at: Handle,
    block: &[u8],
) -> Result<Stage, Stage>
    ensures ok { IfOk result (Continues (Stage.Ranges footer properties at) block.now) }
    ensures sound { IfOk result IsSound }
    ensures lower { IfOk result (λ next. steps_left next < 2 ^ 64 + 1) }
    ensures err { IfErr result (λ stage. stage ≡ Stage.Ranges footer properties at) }
{
    match ranges_in(alloc, at.offset, block) {
        Ok(ranges) => Ok(Stage::Index {
            footer,
            properties,
            ranges,
        }),
        Err(error) => {
            let stage = Stage::Ranges {
                footer,
                properties,
                at,
            };
            stopped(error, stage)
        }
    }
}

/// The stage that the entries of a metaindex lead to.
fn with_metas(alloc: Global, footer: Footer, metas: &[IndexEntry]) -> Stage
    ensures left { (table : List ℕ) → left_of result table ≡ after_metaindex (reader_of table footer) footer (meta_named (codes "rocksdb.properties") metas.now) (meta_named (codes "rocksdb.range_del") metas.now) }
    ensures sound { IsSound result }
    ensures lower { steps_left result ≤ 2 ^ 64 + 2 }
{
    let ranges_at = handle_named(RANGE_DELETIONS, metas);
    match handle_named(PROPERTIES, metas) {
        Some(at) => Stage::Properties {
            footer,
            at,
            ranges_at,
        },
        None => with_properties(alloc, footer, Seq::new(alloc), ranges_at),
    }
}

/// The stage where the properties are known.
fn with_properties(
    alloc: Global,
    footer: Footer,
    properties: Seq<Property>,
    ranges_at: Option<Handle>,
) -> Stage
    ensures left { (table : List ℕ) → left_of result table ≡ after_properties (reader_of table footer) footer ranges_at properties }
    ensures sound { IsSound result }
    ensures lower { steps_left result ≤ 2 ^ 64 + 1 }
{
    match ranges_at {
        Some(at) => Stage::Ranges {
            footer,
            properties,
            at,
        },
        None => Stage::Index {
            footer,
            properties,
            ranges: Seq::new(alloc),
        },
    }
}

/// The first handle under this name in a metaindex.
fn handle_named(name: &[u8], metas: &[IndexEntry]) -> Option<Handle>
    ensures { result ≡ meta_named name.now metas.now }
{
    for meta in metas {
        if meta.separator.as_slice() == name {
            return Some(meta.block);
        }
    }
    None
}

/// The entries of the index block at this place.
pub(crate) fn index_in(
    alloc: Global,
    place: u64,
    delta: bool,
    block: &[u8],
) -> Result<Seq<IndexEntry>, WalkErr>
    ensures { Tells result (with_fault (index_status place) (index_entries delta block.now)) }
{
    match read_index(alloc, block, delta) {
        Ok(index) => Ok(index),
        Err(IndexFault::Block(fault)) => Err(block_fault(place, fault)),
        Err(IndexFault::BadHandle) => Err(damaged(TableWhy::BadHandle, place)),
        Err(IndexFault::Memory) => Err(WalkErr::Memory),
    }
}

/// The properties in the block at this place, of a table that is supported.
fn properties_in(alloc: Global, place: u64, block: &[u8]) -> Result<Seq<Property>, WalkErr>
    ensures { Tells result (properties_told place block.now) }
{
    match read_properties(alloc, block) {
        Ok(properties) => tested(place, properties),
        Err(PropFault::Block(fault)) => Err(block_fault(place, fault)),
        Err(PropFault::Memory) => Err(WalkErr::Memory),
    }
}

/// The range deletions in the block at this place.
fn ranges_in(alloc: Global, place: u64, block: &[u8]) -> Result<Seq<RangeDel>, WalkErr>
    ensures told { Tells result (with_fault (range_status place) (range_list block.now)) }
    ensures top { IfOk result AreBelowTop }
{
    match read_ranges(alloc, block) {
        Ok(ranges) => Ok(ranges),
        Err(RangeFault::Block(fault)) => Err(block_fault(place, fault)),
        Err(RangeFault::BadKey) => Err(damaged(TableWhy::BadKey, place)),
        Err(RangeFault::Memory) => Err(WalkErr::Memory),
    }
}
