//! How the program ends.
ghost use Rattle.std.specs.Prelude.{◌≡◌};
ghost use Rattle.rk_bytes.specs.Model.Output.{exit_status};

/// How the program ended. The exit status is the variant's place in this list.
#[derive(Clone, Copy, Debug, PartialEq, Eq)]
pub enum Status {
    /// The whole output was taken.
    Done,
    /// One line said why there is no other.
    Refused,
    /// The words are in the grammar of no command that the program has.
    Usage,
    /// A call of the disk failed.
    DiskFault,
    /// A call of the output failed.
    SinkFault,
    /// Memory ran out.
    Memory,
    /// The key that was asked for isn't there.
    NotFound,
}

impl Status {
    /// The exit status of a program that ends so.
    pub fn exit_status(self) -> u8
        ensures { result ≡ exit_status self }
    {
        self as u8
    }
}
