//! What is left out of a log, and how its reading ends.
use std::fmt;

/// Why a piece of a log is left out.
#[derive(Clone, Copy, Debug, PartialEq, Eq)]
pub enum GapWhy {
    /// The stored checksum isn't the fragment's. The rest of the block is left out with it.
    Checksum,
    /// The fragment passes the end of a full block. The rest of the block is left out with it.
    Length,
    /// The fragment's type isn't known.
    UnknownType,
    /// A middle or last fragment with no first one.
    MissingStart,
    /// A first fragment with no last one.
    MissingEnd,
    /// A recyclable fragment in a log of legacy ones.
    Mixed,
}

impl fmt::Display for GapWhy {
    ghost use Rattle.std.specs.Prelude.{Some};
    ghost use Rattle.rk_bytes.specs.Model.Lines.{why_word};

    ghost output = { λ why. Some (why_word why) };

    fn fmt<W: fmt::Write>(&self, f: &mut fmt::Formatter<W>) -> fmt::Result {
        match self {
            GapWhy::Checksum => write!(f, "Checksum"),
            GapWhy::Length => write!(f, "Length"),
            GapWhy::UnknownType => write!(f, "UnknownType"),
            GapWhy::MissingStart => write!(f, "MissingStart"),
            GapWhy::MissingEnd => write!(f, "MissingEnd"),
            GapWhy::Mixed => write!(f, "Mixed"),
        }
    }
}

/// Why the reading of a log ends.
#[derive(Clone, Copy, Debug, PartialEq, Eq)]
pub enum EndKind {
    /// At the file's end, with no record cut off.
    Clean,
    /// Within a record that the file's end cuts off.
    Torn,
    /// Where an earlier life of a recycled file begins.
    Stale,
    /// At a record of a type that isn't supported.
    Unsupported(u8),
}

impl fmt::Display for EndKind {
    ghost use Rattle.std.specs.Prelude.{Some};
    ghost use Rattle.rk_bytes.specs.Model.Lines.{kind_words};

    ghost output = { λ kind. Some (kind_words kind) };

    fn fmt<W: fmt::Write>(&self, f: &mut fmt::Formatter<W>) -> fmt::Result {
        match self {
            EndKind::Clean => write!(f, "Clean"),
            EndKind::Torn => write!(f, "Torn"),
            EndKind::Stale => write!(f, "Stale"),
            EndKind::Unsupported(kind) => write!(f, "Unsupported {kind}"),
        }
    }
}
