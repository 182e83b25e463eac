//! The options of the command line: what each takes, and which commands have it.

ghost use Rattle.std.specs.Prelude.{◌≡◌, Option};
ghost use Rattle.cli_words.specs.Table.{is_same, option_in, option_of, takes_of, use_of, word_of};

use crate::command::Command;

/// An option, by its word.
#[derive(Clone, Copy, PartialEq, Eq)]
pub enum CommandOption {
    /// `--app`, the application's file.
    App,
    /// `--blocks`, the file of blocks.
    Blocks,
    /// `--schedule`, the file of a schedule.
    Schedule,
    /// `--arrivals`, the files of what arrives, by the prefix of their names.
    Arrivals,
    /// `--query`, a query about versions.
    Query,
    /// `--number`, from which blocks are generated.
    Number,
    /// `--clients`, the files of clients, by the prefix of their names.
    Clients,
    /// `--count`, how many clients or peers there are.
    Count,
    /// `--most`, how many transactions a block may have.
    Most,
    /// `--files`, the digest files of peers, by the prefix of their names.
    Files,
    /// `--block`, the number of a block.
    Block,
    /// `--write`, the number of a write of a block.
    Write,
    /// `--proof`, the file of a proof.
    Proof,
    /// `--head`, the head of the writes of a block.
    Head,
    /// `--height`, the number of the block after which the tables are asked for, or 0.
    Height,
    /// `--text`, the text of a query of the tables.
    Text,
    /// `--nodes`, how many nodes run the blocks.
    Nodes,
    /// `--executors`, how many executors each node has.
    Executors,
    /// `--orders`: the report shows the serial orders.
    Orders,
    /// `--digests`: the report shows the digests.
    Digests,
    /// `--heads`: the heads of writes stand in place of digests.
    Heads,
    /// `--json`: the report is written as JSON.
    Json,
    /// `--trace`: the journals follow the report.
    Trace,
}

/// All options.
pub const OPTIONS: [CommandOption; 23] = [
    CommandOption::App,
    CommandOption::Blocks,
    CommandOption::Schedule,
    CommandOption::Arrivals,
    CommandOption::Query,
    CommandOption::Number,
    CommandOption::Clients,
    CommandOption::Count,
    CommandOption::Most,
    CommandOption::Files,
    CommandOption::Block,
    CommandOption::Write,
    CommandOption::Proof,
    CommandOption::Head,
    CommandOption::Height,
    CommandOption::Text,
    CommandOption::Nodes,
    CommandOption::Executors,
    CommandOption::Orders,
    CommandOption::Digests,
    CommandOption::Heads,
    CommandOption::Json,
    CommandOption::Trace,
];

/// What follows the word of an option.
#[derive(Clone, Copy, PartialEq, Eq)]
pub enum Takes {
    /// Nothing.
    Nothing,
    /// A text, as the name of a file.
    Text,
    /// A number in canonical decimal.
    Number {
        /// The least that is taken.
        least: u64,
        /// The most that is taken.
        most: u64,
    },
    /// A hash as 64 lower-case hexadecimal digits.
    Hash,
}

/// How often a command takes an option.
#[derive(Clone, Copy, PartialEq, Eq)]
pub enum Use {
    /// Never.
    No,
    /// At most once.
    May,
    /// Once.
    Must,
}

// A number from the least to the most.
fn numbers(least: u64, most: u64) -> Takes
    ensures { result ≡ Takes.Number least most }
{
    Takes::Number { least, most }
}

impl CommandOption {
    // Its word, and what it takes.
    fn row(self) -> (&'static str, Takes)
        ensures word { result.0.now ≡ word_of self }
        ensures takes { result.1 ≡ takes_of self }
    {
        match self {
            CommandOption::App => ("--app", Takes::Text),
            CommandOption::Blocks => ("--blocks", Takes::Text),
            CommandOption::Schedule => ("--schedule", Takes::Text),
            CommandOption::Arrivals => ("--arrivals", Takes::Text),
            CommandOption::Query => ("--query", Takes::Text),
            CommandOption::Number => ("--number", numbers(0, u64::MAX)),
            CommandOption::Clients => ("--clients", Takes::Text),
            CommandOption::Count => ("--count", numbers(1, 8)),
            CommandOption::Most => ("--most", numbers(1, 1024)),
            CommandOption::Files => ("--files", Takes::Text),
            CommandOption::Block => ("--block", numbers(0, u64::MAX)),
            CommandOption::Write => ("--write", numbers(0, u64::MAX)),
            CommandOption::Proof => ("--proof", Takes::Text),
            CommandOption::Head => ("--head", Takes::Hash),
            CommandOption::Height => ("--height", numbers(0, u64::MAX)),
            CommandOption::Text => ("--text", Takes::Text),
            CommandOption::Nodes => ("--nodes", numbers(1, 8)),
            CommandOption::Executors => ("--executors", numbers(0, 16)),
            CommandOption::Orders => ("--orders", Takes::Nothing),
            CommandOption::Digests => ("--digests", Takes::Nothing),
            CommandOption::Heads => ("--heads", Takes::Nothing),
            CommandOption::Json => ("--json", Takes::Nothing),
            CommandOption::Trace => ("--trace", Takes::Nothing),
        }
    }

    /// Its word.
    pub fn word(self) -> &'static str
        ensures { result.now ≡ word_of self }
    {
        self.row().0
    }

    /// Whether this is the option.
    pub fn is(self, other: CommandOption) -> bool
        ensures { result ≡ is_same self other }
    {
        self.word() == other.word()
    }

    /// What it takes.
    pub fn takes(self) -> Takes
        ensures { result ≡ takes_of self }
    {
        self.row().1
    }
}

// How often `run` takes an option.
fn use_in_run(option: CommandOption) -> Use
    ensures { result ≡ use_of Command.Run option }
{
    match option {
        CommandOption::App | CommandOption::Blocks => Use::Must,
        CommandOption::Arrivals | CommandOption::Nodes | CommandOption::Executors => Use::May,
        CommandOption::Orders | CommandOption::Digests => Use::May,
        CommandOption::Json | CommandOption::Trace => Use::May,
        _ => Use::No,
    }
}

// How often `simulate` takes an option.
fn use_in_simulate(option: CommandOption) -> Use
    ensures { result ≡ use_of Command.Simulate option }
{
    match option {
        CommandOption::App | CommandOption::Blocks | CommandOption::Schedule => Use::Must,
        CommandOption::Arrivals | CommandOption::Orders | CommandOption::Digests => Use::May,
        CommandOption::Json | CommandOption::Trace => Use::May,
        _ => Use::No,
    }
}

// How often `provenance` takes an option.
fn use_in_provenance(option: CommandOption) -> Use
    ensures { result ≡ use_of Command.Provenance option }
{
    match option {
        CommandOption::App | CommandOption::Blocks | CommandOption::Query => Use::Must,
        _ => Use::No,
    }
}

// How often `seal` takes an option.
fn use_in_seal(option: CommandOption) -> Use
    ensures { result ≡ use_of Command.Seal option }
{
    match option {
        CommandOption::Blocks => Use::Must,
        _ => Use::No,
    }
}

// How often `load` takes an option.
fn use_in_load(option: CommandOption) -> Use
    ensures { result ≡ use_of Command.Load option }
{
    match option {
        CommandOption::Number => Use::Must,
        _ => Use::No,
    }
}

// How often `order` takes an option.
fn use_in_order(option: CommandOption) -> Use
    ensures { result ≡ use_of Command.Order option }
{
    match option {
        CommandOption::Clients | CommandOption::Count | CommandOption::Most => Use::Must,
        _ => Use::No,
    }
}

// How often `checkpoint` takes an option.
fn use_in_checkpoint(option: CommandOption) -> Use
    ensures { result ≡ use_of Command.Checkpoint option }
{
    match option {
        CommandOption::App | CommandOption::Blocks => Use::Must,
        CommandOption::Heads => Use::May,
        _ => Use::No,
    }
}

// How often `compare` takes an option.
fn use_in_compare(option: CommandOption) -> Use
    ensures { result ≡ use_of Command.Compare option }
{
    match option {
        CommandOption::Files | CommandOption::Count => Use::Must,
        _ => Use::No,
    }
}

// How often `prove` takes an option.
fn use_in_prove(option: CommandOption) -> Use
    ensures { result ≡ use_of Command.Prove option }
{
    match option {
        CommandOption::App | CommandOption::Blocks => Use::Must,
        CommandOption::Block | CommandOption::Write => Use::Must,
        _ => Use::No,
    }
}

// How often `verify` takes an option.
fn use_in_verify(option: CommandOption) -> Use
    ensures { result ≡ use_of Command.Verify option }
{
    match option {
        CommandOption::Proof | CommandOption::Head => Use::Must,
        _ => Use::No,
    }
}

// How often `query` takes an option.
fn use_in_query(option: CommandOption) -> Use
    ensures { result ≡ use_of Command.Query option }
{
    match option {
        CommandOption::App | CommandOption::Blocks => Use::Must,
        CommandOption::Height | CommandOption::Text => Use::Must,
        _ => Use::No,
    }
}

/// How often a command takes an option.
pub fn use_of(command: Command, option: CommandOption) -> Use
    ensures { result ≡ use_of command option }
{
    match command {
        Command::Run => use_in_run(option),
        Command::Simulate => use_in_simulate(option),
        Command::Provenance => use_in_provenance(option),
        Command::Seal => use_in_seal(option),
        Command::Load => use_in_load(option),
        Command::Order => use_in_order(option),
        Command::Checkpoint => use_in_checkpoint(option),
        Command::Compare => use_in_compare(option),
        Command::Prove => use_in_prove(option),
        Command::Verify => use_in_verify(option),
        Command::Query => use_in_query(option),
    }
}

// The first of some options that a word names.
fn option_in(options: &[CommandOption], word: &str) -> Option<CommandOption>
    ensures { result ≡ option_in options.now word.now }
{
    for option in options {
        if option.word() == word {
            return Some(*option);
        }
    }
    None
}

/// The option that a word names.
pub fn option_of(word: &str) -> Option<CommandOption>
    ensures { result ≡ option_of word.now }
{
    option_in(&OPTIONS, word)
}
