//! The blocks of a log's file.
ghost use Rattle.std.specs.Prelude.{◌≡◌, ◌<◌, ◌≤◌, ◌++◌, length, drop};
ghost use Rattle.rk_bytes.specs.Model.LogMarks.{block_len};
ghost use Rattle.rk_log.specs.Blocks.{block_says};

use crate::header::{self, HEADER_LEN};

/// The length of a block of a log file, in bytes.
pub const BLOCK_LEN: usize = 32_768;

/// What the block's first header says of the file: whether it is recycled. The last block says that it
/// isn't, if it has no header.
pub(crate) fn says(block: &[u8], last: bool) -> Option<bool>
    ensures { result ≡ block_says block.now last }
{
    if block.len() < HEADER_LEN || header::is_zero_header(block) {
        return if last { Some(false) } else { None };
    }
    Some(header::is_recyclable(block[6]))
}

/// The bytes of a block behind so many of them.
pub(crate) fn behind(block: &[u8], at: usize) -> &[u8]
    ensures { result.now ≡ drop at block.now }
{
    let at = at.min(block.len());
    &block[at..]
}

/// The first block of the bytes, which is shorter where they end, and what follows it.
pub(crate) fn cut_block(bytes: &[u8]) -> (&[u8], &[u8])
    ensures whole { result.0.now ++ result.1.now ≡ bytes.now }
    ensures within { length result.0.now ≤ BLOCK_LEN }
    ensures full { 0 < length result.1.now → length result.0.now ≡ BLOCK_LEN }
{
    let end = bytes.len().min(BLOCK_LEN);
    bytes.split_at(end)
}
