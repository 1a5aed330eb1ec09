//! Blocks of a table as they stand in its file, their handles, and the footer.
ghost use Rattle.std.specs.Prelude.{◌≡◌, ◌≤◌, ◌++◌, length, replicate, IfOk, OnOk};
ghost use Rattle.rk_bytes.specs.Model.Writers.{handle_bytes, footer_bytes};
ghost use Rattle.rk_tablew.specs.Parts.{Puts, PutsAny, padded_handles, footer_with};

use rk_bytes::model::{Handle, SumKind};
use rk_bytes::{Bytes, Memory, put_fixed32, put_fixed64, put_varint64};
use rk_sum::block_sum;
use std::alloc::Global;

/// How many bytes the handles have in a footer.
const HANDLES_LEN: usize = 40;

/// The bytes behind the handles in a footer.
const ZEROS: [u8; HANDLES_LEN] = [0; HANDLES_LEN];

/// The kind of checksum in a footer: CRC32C.
const CRC32C: u8 = 1;

/// The version in a footer.
const VERSION: u32 = 2;

/// The number with which a footer ends.
const MAGIC: u64 = 0x88E2_41B7_85F4_CFF7;

/// Puts a block at the end, with its type byte and its checksum, and gives its handle.
pub(crate) fn put_block(out: &mut Bytes, block: &[u8]) -> Result<Handle, Memory>
    ensures { IfOk result (λ handle. Puts out.old block.now handle out.new) }
{
    let offset = out.as_slice().len() as u64;
    out.append_both(block, &[0])?;
    put_fixed32(out, block_sum(SumKind::Crc32c, block, 0))?;
    Ok(Handle {
        offset,
        size: block.len() as u64,
    })
}

/// Puts the block at the end, if there is one.
pub(crate) fn put_any(out: &mut Bytes, block: &Option<Bytes>) -> Result<Option<Handle>, Memory>
    ensures { IfOk result (λ handle. PutsAny out.old block.now handle out.new) }
{
    match block {
        None => Ok(None),
        Some(block) => Ok(Some(put_block(out, block.as_slice())?)),
    }
}

/// Puts a handle at the end.
fn put_handle(out: &mut Bytes, handle: Handle) -> Result<(), Memory>
    ensures { OnOk result (out.new ≡ out.old ++ handle_bytes handle) }
{
    put_varint64(out, handle.offset)?;
    put_varint64(out, handle.size)
}

/// A handle, written.
pub(crate) fn handle_bytes(alloc: Global, handle: Handle) -> Result<Bytes, Memory>
    ensures bytes { IfOk result (λ bytes. bytes ≡ handle_bytes handle) }
    ensures short { IfOk result (λ bytes. length bytes ≤ 20) }
{
    let mut bytes = Bytes::new(alloc);
    put_handle(&mut bytes, handle)?;
    Ok(bytes)
}

/// The two handles of a footer, written.
fn both_handles(alloc: Global, metaindex: Handle, index: Handle) -> Result<Bytes, Memory>
    ensures bytes { IfOk result (λ bytes. bytes ≡ handle_bytes metaindex ++ handle_bytes index) }
    ensures short { IfOk result (λ bytes. length bytes ≤ HANDLES_LEN) }
{
    let mut bytes = handle_bytes(alloc, metaindex)?;
    let index = handle_bytes(alloc, index)?;
    bytes.append(index.as_slice())?;
    Ok(bytes)
}

/// So many zeros.
fn zeros(len: usize) -> &'static [u8]
    requires { len ≤ HANDLES_LEN }
    ensures { result.now ≡ replicate len 0 }
{
    &ZEROS[..len]
}

/// Puts the kind of checksum at the end, the handles and the zeros behind them.
fn put_padded(out: &mut Bytes, handles: &[u8]) -> Result<(), Memory>
    requires { length handles.now ≤ HANDLES_LEN }
    ensures { OnOk result (out.new ≡ out.old ++ padded_handles handles.now) }
{
    out.append_both(&[CRC32C], handles)?;
    out.append(zeros(HANDLES_LEN - handles.len()))
}

/// Puts the end of a footer with these handles at the end.
fn put_with_handles(out: &mut Bytes, handles: &[u8]) -> Result<(), Memory>
    requires { length handles.now ≤ HANDLES_LEN }
    ensures { OnOk result (out.new ≡ out.old ++ footer_with handles.now) }
{
    put_padded(out, handles)?;
    put_fixed32(out, VERSION)?;
    put_fixed64(out, MAGIC)
}

/// Puts the footer at the end: the kind of checksum, the two handles and zeros behind them, the version
/// and the magic number.
pub(crate) fn put_footer(
    out: &mut Bytes,
    alloc: Global,
    metaindex: Handle,
    index: Handle,
) -> Result<(), Memory>
    ensures { OnOk result (out.new ≡ out.old ++ footer_bytes metaindex index) }
{
    let handles = both_handles(alloc, metaindex, index)?;
    put_with_handles(out, handles.as_slice())
}
