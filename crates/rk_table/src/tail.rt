//! The end of a table's file, where its footer stands.
ghost use Rattle.std.specs.Prelude.{◌≡◌, ◌+◌, ◌-◌, ◌^◌, ◌<◌, ◌≤◌, ℕ, List, Some, Err, IsSome, min, length, drop};
ghost use Rattle.rk_bytes.specs.Model.TableFooter.{footer_len, magic_of};
ghost use Rattle.rk_bytes.specs.Model.TableStatus.{TableFault, table_status};
ghost use Rattle.rk_table.specs.Told.{known, fault_of};
ghost use Rattle.rk_table.specs.Stages.{left_of};
ghost use Rattle.rk_table.specs.Steps.{IsSound, steps_left};

use crate::fault::footer_fault;
use crate::stage::Stage;
use crate::{Status, TableWhy, WalkErr};
use rk_bytes::model::Footer;
use rk_meta::read_footer;

/// The length of the longest footer in bytes.
pub(crate) const MOST_FOOTER_LEN: u64 = 53;

/// The length of a legacy footer in bytes.
const LEGACY_LEN: u64 = 48;

/// The magic number of a newer footer.
const NEWER_MAGIC: u64 = 0x88e241b785f4cff7;

/// How many bytes the magic number has.
const MAGIC_LEN: usize = 8;

/// The stage after the last bytes of a file of this length, of which as many as the longest footer has are
/// asked for. Fewer are no footer.
pub(crate) fn after_tail(file_len: u64, bytes: &[u8]) -> Stage
    requires { length bytes.now ≤ min 53 file_len }
    ensures ok { (table : List ℕ) → length table ≡ file_len → drop (length table - min 53 file_len) table ≡ bytes.now → left_of result table ≡ known (table_status table) }
    ensures short { length bytes.now < min 53 file_len → result ≡ Stage.Ended (Status.Damaged TableWhy.FooterShort 0) }
    ensures sound { IsSound result }
    ensures lower { steps_left result ≤ 2 ^ 64 + 3 }
{
    let wanted = file_len.min(MOST_FOOTER_LEN);
    if (bytes.len() as u64) < wanted {
        return Stage::Ended(Status::Damaged {
            why: TableWhy::FooterShort,
            place: 0,
        });
    }
    match read_footer(bytes) {
        Ok(footer) => Stage::Metaindex {
            footer: Footer {
                start: file_len - wanted + footer.start,
                ..footer
            },
        },
        Err(fault) => ended(footer_fault(footer_place(file_len, bytes), fault)),
    }
}

/// The end of the reading, at this fault.
pub(crate) fn ended(error: WalkErr) -> Stage
    requires { IsSome (fault_of error) }
    ensures left { (table : List ℕ) (fault : TableFault) → fault_of error ≡ Some fault → left_of result table ≡ Err fault }
    ensures sound { IsSound result }
    ensures lower { steps_left result ≡ 0 }
{
    match error {
        WalkErr::Damaged { why, place } => Stage::Ended(Status::Damaged { why, place }),
        WalkErr::Unsupported(what) => Stage::Ended(Status::Unsupported(what)),
        WalkErr::Memory => unreachable!(),
    }
}

/// The place of a file's footer, by its last bytes, which are as many as the longest footer has or all.
/// 0 where the file is shorter.
fn footer_place(file_len: u64, bytes: &[u8]) -> u64
    requires { length bytes.now ≡ min 53 file_len }
    ensures { result ≡ file_len - footer_len bytes.now }
{
    if bytes.len() < MAGIC_LEN {
        return 0;
    }
    if magic_of(bytes) == NEWER_MAGIC {
        file_len.saturating_sub(MOST_FOOTER_LEN)
    } else {
        file_len.saturating_sub(LEGACY_LEN)
    }
}

/// The magic number, which the last bytes spell.
fn magic_of(bytes: &[u8]) -> u64
    requires { MAGIC_LEN ≤ length bytes.now }
    ensures { result ≡ magic_of bytes.now }
{
    let magic = &bytes[bytes.len() - MAGIC_LEN..];
    u64::from_le_bytes([
        magic[0], magic[1], magic[2], magic[3], magic[4], magic[5], magic[6], magic[7],
    ])
}
