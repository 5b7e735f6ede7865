//! How a run ends.

ghost use Rattle.std.specs.Prelude.{◌≡◌};
ghost use Rattle.owl_command.specs.Status.{number_of};

/// How a run ends.
#[derive(Clone, Copy, Debug, PartialEq, Eq)]
pub enum Status {
    /// It is done, or the answer is yes.
    Done,
    /// The answer is no.
    No,
    /// The words have no command.
    Words,
    /// A document can't be read.
    Document,
    /// The target can't say an axiom.
    Target,
    /// A limit was passed.
    Limit,
    /// A document could not be read to its end.
    ReadFailed,
    /// The output could not be written whole.
    WriteFailed,
    /// Memory ran out.
    Memory,
}

impl Status {
    /// The exit status of the program.
    pub fn number(self) -> u8
        ensures { result ≡ number_of self }
    {
        match self {
            Status::Done => 0,
            Status::No => 1,
            Status::Words => 2,
            Status::Document => 3,
            Status::Target => 4,
            Status::Limit => 5,
            Status::ReadFailed => 6,
            Status::WriteFailed => 7,
            Status::Memory => 8,
        }
    }
}
