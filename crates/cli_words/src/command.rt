//! The commands of the program.

ghost use Rattle.std.specs.Prelude.{◌≡◌, Option};
ghost use Rattle.cli_words.specs.Table.{command_in, command_of, command_word};

/// A command, by its word.
#[derive(Clone, Copy, PartialEq, Eq)]
pub enum Command {
    /// `run`: runs the blocks of a file on an application.
    Run,
    /// `simulate`: runs them as a schedule says.
    Simulate,
    /// `provenance`: answers a query about the versions that they made.
    Provenance,
    /// `seal`: writes them as a chain.
    Seal,
    /// `load`: runs blocks that are generated from a number.
    Load,
    /// `order`: puts what clients submit at once into blocks.
    Order,
    /// `checkpoint`: writes the digest, or the head of the writes, of each block.
    Checkpoint,
    /// `compare`: compares the digests of peers.
    Compare,
    /// `prove`: proves a write of a block.
    Prove,
    /// `verify`: verifies such a proof by a head.
    Verify,
    /// `query`: answers a query of the tables as they were after a block.
    Query,
}

/// All commands.
pub const COMMANDS: [Command; 11] = [
    Command::Run,
    Command::Simulate,
    Command::Provenance,
    Command::Seal,
    Command::Load,
    Command::Order,
    Command::Checkpoint,
    Command::Compare,
    Command::Prove,
    Command::Verify,
    Command::Query,
];

impl Command {
    /// Its word.
    pub fn word(self) -> &'static str
        ensures { result.now ≡ command_word self }
    {
        match self {
            Command::Run => "run",
            Command::Simulate => "simulate",
            Command::Provenance => "provenance",
            Command::Seal => "seal",
            Command::Load => "load",
            Command::Order => "order",
            Command::Checkpoint => "checkpoint",
            Command::Compare => "compare",
            Command::Prove => "prove",
            Command::Verify => "verify",
            Command::Query => "query",
        }
    }
}

// The first of some commands that a word names.
fn command_in(commands: &[Command], word: &str) -> Option<Command>
    ensures { result ≡ command_in commands.now word.now }
{
    for command in commands {
        if command.word() == word {
            return Some(*command);
        }
    }
    None
}

/// The command that a word names.
pub fn command_of(word: &str) -> Option<Command>
    ensures { result ≡ command_of word.now }
{
    command_in(&COMMANDS, word)
}
