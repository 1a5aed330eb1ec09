//! Why a number, or a part of bytes, doesn't read.

/// Why a number or a part doesn't read.
#[derive(Clone, Copy, Debug, PartialEq, Eq)]
pub enum NumFault {
    /// The bytes end before the value is complete.
    Cut,
    /// A varint isn't ended within its greatest length, or doesn't fit its width.
    TooLarge,
}
