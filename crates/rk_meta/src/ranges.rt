ghost use Rattle.std.specs.Prelude.{◌≡◌, ◌⊎◌, [], Err};
ghost use Rattle.rk_bytes.specs.Model.BlockEntries.{collected};
ghost use Rattle.rk_bytes.specs.Model.TableStatus.{range_list};
ghost use Rattle.rk_meta.specs.Walk.{range_in, entry_with};

use crate::walk::next_value;
use crate::{RangeDel, RangeFault};
use rk_block::{BlockView, Entries, KeyBuf};
use rk_bytes::{Bytes, Seq};
use rk_ikey::{Kind, parse_key};
use std::alloc::Global;

/// Reads a block of range deletions, in its order. A fault of the block comes before `BadKey`, which is a
/// key that isn't the internal key of a range deletion. `Memory` comes only where memory runs out.
pub fn read_ranges(alloc: Global, block: &[u8]) -> Result<Seq<RangeDel>, RangeFault>
    ensures { (result ≡ range_list block.now) ⊎ (result ≡ Err RangeFault.Memory) }
{
    match BlockView::read(block) {
        Ok(view) => ranges_in(alloc, view.entries()),
        Err(fault) => Err(RangeFault::Block(fault)),
    }
}

/// The range deletions that the entries are, or the first fault.
fn ranges_in(alloc: Global, mut entries: Entries<'_>) -> Result<Seq<RangeDel>, RangeFault>
    requires { entries.key ≡ [] }
    ensures { (result ≡ collected range_in entries.entry.left) ⊎ (result ≡ Err RangeFault.Memory) }
{
    let mut key = KeyBuf::new(alloc);
    let mut ranges = Seq::new(alloc);
    loop {
        match next_value(&mut entries, &mut key) {
            Ok(Some(value)) => {
                let range = range_of(alloc, key.as_slice(), value)?;
                let Ok(()) = ranges.push(range) else {
                    return Err(RangeFault::Memory);
                };
            }
            Ok(None) => return Ok(ranges),
            Err(_) => return Err(RangeFault::Memory),
        }
    }
}

/// The range deletion of an entry, whose key is the start's internal key and whose value is the end.
fn range_of(alloc: Global, key: &[u8], end: &[u8]) -> Result<RangeDel, RangeFault>
    ensures { (result ≡ range_in (entry_with key.now end.now)) ⊎ (result ≡ Err RangeFault.Memory) }
{
    let Ok(parsed) = parse_key(key) else {
        return Err(RangeFault::BadKey);
    };
    if parsed.kind != Kind::RangeDeletion {
        return Err(RangeFault::BadKey);
    }
    let (Ok(start), Ok(end)) = (
        Bytes::copy_of(alloc, parsed.user),
        Bytes::copy_of(alloc, end),
    ) else {
        return Err(RangeFault::Memory);
    };
    Ok(RangeDel {
        start,
        end,
        sequence: parsed.sequence,
    })
}
