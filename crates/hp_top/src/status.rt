//! How a run ends.

ghost use Rattle.std.specs.Prelude.{◌≡◌};
ghost use Rattle.hp_top.specs.Status.{code_of};

/// How a run ends.
#[derive(Clone, Copy, Debug, PartialEq, Eq)]
pub enum Status {
    /// The script was accepted, and its answers are written.
    Done,
    /// The script was refused, and the line of its refusal is written.
    ScriptRefused,
    /// A read has failed.
    ReadFault,
    /// A write has failed.
    WriteFault,
    /// The script has more than the most bytes.
    TooLong,
    /// The words of the command line are none that are known.
    WordsRefused,
    /// Memory was out.
    OutOfMemory,
}

impl Status {
    /// The exit status of the program: 0 to 6, in the order of the variants.
    pub fn code(self) -> u8
        ensures { result ≡ code_of self }
    {
        self as u8
    }
}
