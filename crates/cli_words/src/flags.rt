//! The flags of a report.

ghost use Rattle.std.specs.Prelude.{◌≡◌};
ghost use Rattle.cli_words.specs.Language.{no_flags};

/// The form of a report, and what it shows of each block besides the outcomes of its transactions. A flag is on exactly where its option was given.
#[derive(Clone, Copy, PartialEq, Eq)]
pub struct Flags {
    /// `--orders`: the positions of the committed transactions in their serial order.
    pub orders: bool,
    /// `--digests`: the digest of the block's result.
    pub digests: bool,
    /// `--json`: the report is one line of JSON.
    pub json: bool,
    /// `--trace`: after the report, what the actors of the node did.
    pub trace: bool,
}

impl Flags {
    /// No flag is on.
    pub fn none() -> Flags
        ensures { result ≡ no_flags }
    {
        Flags {
            orders: false,
            digests: false,
            json: false,
            trace: false,
        }
    }
}
