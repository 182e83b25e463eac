//! Where the lines of a block file stand.

ghost use Rattle.std.specs.Prelude.{◌≡◌};
ghost use Rattle.chain_file.specs.Following.{kind_of};

use crate::form::{FileForm, FileKind};
use proc_syntax::{Block, Tx};
use rel_base::List;

/// Where a line stands in a file.
#[derive(Drop)]
pub enum Section {
    /// At the start, where the header stands.
    Start,
    /// Between blocks, so many of which ended, the last with this time.
    Between {
        form: FileForm,
        count: u64,
        time: u64,
    },
    /// In the block that follows so many, which has this time, and these transactions so far.
    Within {
        form: FileForm,
        count: u64,
        time: u64,
        txs: List<Tx>,
    },
}

impl Section {
    /// The kind of the file; before the header a chain, which it may become.
    pub fn kind(&self) -> FileKind
        ensures { result ≡ kind_of self.now }
    {
        match self {
            Section::Start => FileKind::Chain,
            Section::Between { form, .. } | Section::Within { form, .. } => form.kind,
        }
    }
}

/// What a line leaves: where the next one stands, and the block that it ended.
#[derive(Drop)]
pub struct Taken {
    pub place: Section,
    pub ended: Option<Block>,
}
