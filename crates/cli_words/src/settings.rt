//! What the command line asks for.

use crate::flags::Flags;
use crate::word::Word;
use rel_base::NoMemory;

/// What the program is to do.
#[derive(Drop)]
pub enum Settings {
    /// Runs the blocks of a file on the application of another, on one node or several.
    Run {
        /// The name of the application's file.
        app: Word,
        /// The name of the file of blocks.
        blocks: Word,
        /// The prefix of the names of the files of what arrives, if there are any.
        arrivals: Option<Word>,
        /// How many nodes run the blocks, 1 to 8.
        nodes: u32,
        /// How many executors each node has, at most 16.
        executors: u32,
        /// The form of the report, and what it shows besides.
        flags: Flags,
    },
    /// Runs the blocks of a file on the application of another, as a schedule says.
    Simulate {
        /// The name of the application's file.
        app: Word,
        /// The name of the file of blocks.
        blocks: Word,
        /// The name of the schedule's file.
        schedule: Word,
        /// The prefix of the name of the file of what arrives, if there is one.
        arrivals: Option<Word>,
        /// What the report shows besides.
        flags: Flags,
    },
    /// Answers a query about the versions that the blocks of a file make on an application.
    Provenance {
        /// The name of the application's file.
        app: Word,
        /// The name of the file of blocks.
        blocks: Word,
        /// The text of the query.
        query: Word,
    },
    /// Writes the blocks of a file as a chain.
    Seal {
        /// The name of the file of blocks.
        blocks: Word,
    },
    /// Runs blocks that are generated from a number.
    Load {
        /// The number.
        number: u64,
    },
    /// Puts what clients submit at once into blocks.
    Order {
        /// The prefix of the names of the clients' files.
        clients: Word,
        /// How many clients there are, 1 to 8.
        count: u32,
        /// How many transactions a block has at most, 1 to 1,024.
        most: u32,
    },
    /// Writes the digest of each block of a file, or the head of its writes.
    Checkpoint {
        /// The name of the application's file.
        app: Word,
        /// The name of the file of blocks.
        blocks: Word,
        /// Whether heads are written.
        heads: bool,
    },
    /// Compares the digests of peers.
    Compare {
        /// The prefix of the names of the peers' digest files.
        files: Word,
        /// How many peers there are, 1 to 8.
        count: u32,
    },
    /// Proves a write of a block of a file.
    Prove {
        /// The name of the application's file.
        app: Word,
        /// The name of the file of blocks.
        blocks: Word,
        /// The number of the block, from 1.
        block: u64,
        /// The number of the write among those of the block, from 1.
        write: u64,
    },
    /// Verifies a proof by the head of the writes of a block.
    Verify {
        /// The name of the proof's file.
        proof: Word,
        /// The head.
        head: [u8; 32],
    },
    /// Answers a query of the tables as they were after a block of a file.
    Query {
        /// The name of the application's file.
        app: Word,
        /// The name of the file of blocks.
        blocks: Word,
        /// The number of the block, or 0 for the tables before the first.
        height: u64,
        /// The text of the query.
        text: Word,
    },
}

/// Why there are no settings.
#[derive(Clone, Copy, PartialEq, Eq)]
pub enum WordsFault {
    /// Memory ran out.
    NoMemory,
    /// The words are not in the language of the command line.
    Usage,
}

impl From<NoMemory> for WordsFault {
    ghost use Rattle.std.specs.Prelude.{◌≡◌};
    ghost use Rattle.cli_words.specs.declared.settings.WordsFault.TheVariants as fault;

    ghost from_gives = { λ _ e. e ≡ fault.NoMemory };

    fn from(_error: NoMemory) -> WordsFault {
        WordsFault::NoMemory
    }
}
