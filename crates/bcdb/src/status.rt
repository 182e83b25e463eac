//! How the program ends.

ghost use Rattle.std.specs.Prelude.{◌≡◌};
ghost use Rattle.std.specs.Process.{exit_status};
ghost use Rattle.bcdb.specs.Numbers.{number_of_status};

use std::process::ExitCode;

/// The status with which the program ends.
#[derive(Clone, Copy, PartialEq, Eq)]
pub enum Status {
    /// All input was read to its end, and the answer is written.
    Done = 0,
    /// The words are not in the language of the command line.
    Usage = 2,
    /// A file could not be read.
    ReadFault = 3,
    /// The application is too long, outside its grammar or not well typed.
    AppRefused = 4,
    /// The block file stops at a fault, before its end.
    ChainRefused = 5,
    /// A file of what arrives, or of a client, is outside its grammar.
    ArrivalRefused = 6,
    /// The output could not be written.
    WriteFault = 7,
    /// Memory ran out.
    NoMemory = 8,
    /// The query is not in its grammar, or asks for what there is not.
    QueryRefused = 9,
    /// The schedule has a bad line, or ends before all blocks are sealed.
    ScheduleRefused = 10,
    /// What the clients submit needs more blocks than a block file may have.
    OrderRefused = 11,
    /// The digest file of a peer is too long or outside its grammar.
    DigestRefused = 12,
    /// The proof file is too long or outside its grammar.
    ProofRefused = 13,
}

/// What the process ends with: the number of the status.
pub fn exit_code(status: Status) -> ExitCode
    ensures { exit_status result ≡ number_of_status status }
{
    ExitCode::from(status as u8)
}
