//! How a run of the program ends.
ghost use Rattle.std.specs.Prelude.{◌≡◌};
ghost use Rattle.cct_bench.specs.Status.{code_of};

/// How the program ended, with its exit status and the last line that it wrote.
#[derive(Clone, Copy, Debug, PartialEq, Eq)]
pub enum Status {
    /// 0: the script was read to its end. No last line.
    Done,
    /// 1: a line of the script was refused: `refused LINE KIND`.
    ScriptRefused,
    /// 2: the words of the command line aren't in the grammar: `words`.
    WordsRefused,
    /// 3: reading the script failed: `readfault`.
    ReadFault,
    /// 4: writing the transcript failed. What was written is a front of it.
    WriteFault,
    /// 5: a call of the disk failed, in a put or in a power cut: `diskfault`. Whether the record
    /// that was being put is on the disk is open.
    DiskFault,
    /// 6: a byte of the disk isn't 0, which is reported by the first such place: `notblank PLACE`.
    NotBlank,
    /// 7: the disk has another length than 2,097,152 bytes: `disksize LENGTH`.
    DiskSize,
    /// 8: there was no memory for the run. Nothing was written.
    OutOfMemory,
    /// 9: after a power cut the disk isn't the one that it was: it has no journal
    /// (`journal alien`), one with a record that can't be read or doesn't follow those before it
    /// (`journal bad INDEX`), or other records than those that were put (`journal lost FOUND PUT`).
    JournalLost,
    /// 10: the journal wasn't brought forward, and nothing was written on it: it is one of today
    /// (`upgrade current`), it leaves no half free (`upgrade room USED`), or an epoch runs
    /// (`upgrade epoch A`).
    NotUpgraded,
}

impl Status {
    /// The exit status of the program.
    pub fn code(self) -> u8
        ensures { result ≡ code_of self }
    {
        match self {
            Status::Done => 0,
            Status::ScriptRefused => 1,
            Status::WordsRefused => 2,
            Status::ReadFault => 3,
            Status::WriteFault => 4,
            Status::DiskFault => 5,
            Status::NotBlank => 6,
            Status::DiskSize => 7,
            Status::OutOfMemory => 8,
            Status::JournalLost => 9,
            Status::NotUpgraded => 10,
        }
    }
}
