//! From words to settings.

ghost use Rattle.std.specs.Prelude.{◌≡◌, ◌↔◌, IfOk, IsErrOf, Option, Some, None, length};
ghost use Rattle.cli_words.specs.Language.{AreWithin, are_taken, first, flags_of, given, is_allowed, is_given, is_line, made, hash_or_zeros, number_or, settings_of, settled, text_or_none, texts};

use crate::command::{Command, command_of};
use crate::flags::Flags;
use crate::given::{count, find, is_read};
use crate::options::{CommandOption, OPTIONS, Use, use_of};
use crate::settings::{Settings, WordsFault};
use crate::value::whole_number;
use crate::word::Word;
use hex_digits::read_hash;
use rel_base::NoMemory;
use std::alloc::Global;

// Whether an option may be given so often.
fn is_allowed(how: Use, times: usize) -> bool
    ensures { result ≡ is_allowed how times }
{
    match how {
        Use::No => times == 0,
        Use::May => times <= 1,
        Use::Must => times == 1,
    }
}

// Whether a command takes each of some options as often as the words give it.
fn are_taken(command: Command, options: &[CommandOption], words: &[&str]) -> bool
    ensures { result ≡ are_taken command options.now (given (texts words.now)) }
{
    for option in options {
        if !is_allowed(use_of(command, *option), count(words, *option)) {
            return false;
        }
    }
    true
}

// Whether a command takes each option so.
fn is_line(command: Command, words: &[&str]) -> bool
    ensures { result ≡ is_line command (given (texts words.now)) }
{
    are_taken(command, &OPTIONS, words)
}

// The value of an option that the words give.
fn text_of(alloc: Global, words: &[&str], option: CommandOption) -> Result<Word, NoMemory>
    ensures { IfOk result (λ made. made ≡ text_or_none (given (texts words.now) option)) }
{
    Word::new(alloc, find(words, option).unwrap_or(""))
}

// The number that the words give an option, or else this one.
fn number_or(other: u64, words: &[&str], option: CommandOption) -> u64
    ensures { result ≡ number_or other (given (texts words.now) option) }
{
    match find(words, option) {
        None => other,
        Some(value) => whole_number(value).unwrap_or(other),
    }
}

// How many nodes the words ask for.
#[tactic(auto, using(crate::proofs::Ranges::few_nodes))]
fn nodes_of(words: &[&str]) -> u32
    ensures { result ≡ number_or 1 (given (texts words.now) CommandOption.Nodes) }
{
    number_or(1, words, CommandOption::Nodes) as u32
}

// How many executors the words ask for.
#[tactic(auto, using(crate::proofs::Ranges::few_executors))]
fn executors_of(words: &[&str]) -> u32
    ensures { result ≡ number_or 2 (given (texts words.now) CommandOption.Executors) }
{
    number_or(2, words, CommandOption::Executors) as u32
}

// How many clients or peers the words name.
#[tactic(auto, using(crate::proofs::Ranges::few_clients))]
fn count_of(words: &[&str]) -> u32
    ensures { result ≡ number_or 1 (given (texts words.now) CommandOption.Count) }
{
    number_or(1, words, CommandOption::Count) as u32
}

// How many transactions the words allow a block.
#[tactic(auto, using(crate::proofs::Ranges::few_in_a_block))]
fn most_of(words: &[&str]) -> u32
    ensures { result ≡ number_or 1 (given (texts words.now) CommandOption.Most) }
{
    number_or(1, words, CommandOption::Most) as u32
}

// The hash that the words give an option, or else zeros.
fn hash_of(words: &[&str], option: CommandOption) -> [u8; 32]
    ensures { result ≡ hash_or_zeros (given (texts words.now) option) }
{
    match find(words, option) {
        None => [0; 32],
        Some(digits) => read_hash(digits.as_bytes()).unwrap_or([0; 32]),
    }
}

// The value of an option, if the words give it.
fn text_if_given(
    alloc: Global,
    words: &[&str],
    option: CommandOption,
) -> Result<Option<Word>, NoMemory>
    ensures { IfOk result (λ made. made ≡ first (given (texts words.now) option)) }
{
    match find(words, option) {
        None => Ok(None),
        Some(text) => Ok(Some(Word::new(alloc, text)?)),
    }
}

// Whether the words give an option.
fn is_given(words: &[&str], option: CommandOption) -> bool
    ensures { result ≡ is_given (given (texts words.now) option) }
{
    find(words, option).is_some()
}

// The flags that the words give.
fn flags_of(words: &[&str]) -> Flags
    ensures { result ≡ flags_of (given (texts words.now)) }
{
    Flags {
        orders: is_given(words, CommandOption::Orders),
        digests: is_given(words, CommandOption::Digests),
        json: is_given(words, CommandOption::Json),
        trace: is_given(words, CommandOption::Trace),
    }
}

fn to_run(alloc: Global, words: &[&str]) -> Result<Settings, NoMemory>
    ensures { IfOk result (λ settings. settings ≡ made Command.Run (given (texts words.now))) }
{
    Ok(Settings::Run {
        app: text_of(alloc, words, CommandOption::App)?,
        blocks: text_of(alloc, words, CommandOption::Blocks)?,
        arrivals: text_if_given(alloc, words, CommandOption::Arrivals)?,
        nodes: nodes_of(words),
        executors: executors_of(words),
        flags: flags_of(words),
    })
}

fn to_simulate(alloc: Global, words: &[&str]) -> Result<Settings, NoMemory>
    ensures { IfOk result (λ settings. settings ≡ made Command.Simulate (given (texts words.now))) }
{
    Ok(Settings::Simulate {
        app: text_of(alloc, words, CommandOption::App)?,
        blocks: text_of(alloc, words, CommandOption::Blocks)?,
        schedule: text_of(alloc, words, CommandOption::Schedule)?,
        arrivals: text_if_given(alloc, words, CommandOption::Arrivals)?,
        flags: flags_of(words),
    })
}

fn to_provenance(alloc: Global, words: &[&str]) -> Result<Settings, NoMemory>
    ensures { IfOk result (λ settings. settings ≡ made Command.Provenance (given (texts words.now))) }
{
    Ok(Settings::Provenance {
        app: text_of(alloc, words, CommandOption::App)?,
        blocks: text_of(alloc, words, CommandOption::Blocks)?,
        query: text_of(alloc, words, CommandOption::Query)?,
    })
}

fn to_seal(alloc: Global, words: &[&str]) -> Result<Settings, NoMemory>
    ensures { IfOk result (λ settings. settings ≡ made Command.Seal (given (texts words.now))) }
{
    Ok(Settings::Seal {
        blocks: text_of(alloc, words, CommandOption::Blocks)?,
    })
}

fn to_order(alloc: Global, words: &[&str]) -> Result<Settings, NoMemory>
    ensures { IfOk result (λ settings. settings ≡ made Command.Order (given (texts words.now))) }
{
    Ok(Settings::Order {
        clients: text_of(alloc, words, CommandOption::Clients)?,
        count: count_of(words),
        most: most_of(words),
    })
}

fn to_checkpoint(alloc: Global, words: &[&str]) -> Result<Settings, NoMemory>
    ensures { IfOk result (λ settings. settings ≡ made Command.Checkpoint (given (texts words.now))) }
{
    Ok(Settings::Checkpoint {
        app: text_of(alloc, words, CommandOption::App)?,
        blocks: text_of(alloc, words, CommandOption::Blocks)?,
        heads: is_given(words, CommandOption::Heads),
    })
}

fn to_compare(alloc: Global, words: &[&str]) -> Result<Settings, NoMemory>
    ensures { IfOk result (λ settings. settings ≡ made Command.Compare (given (texts words.now))) }
{
    Ok(Settings::Compare {
        files: text_of(alloc, words, CommandOption::Files)?,
        count: count_of(words),
    })
}

fn to_prove(alloc: Global, words: &[&str]) -> Result<Settings, NoMemory>
    ensures { IfOk result (λ settings. settings ≡ made Command.Prove (given (texts words.now))) }
{
    Ok(Settings::Prove {
        app: text_of(alloc, words, CommandOption::App)?,
        blocks: text_of(alloc, words, CommandOption::Blocks)?,
        block: number_or(0, words, CommandOption::Block),
        write: number_or(0, words, CommandOption::Write),
    })
}

fn to_verify(alloc: Global, words: &[&str]) -> Result<Settings, NoMemory>
    ensures { IfOk result (λ settings. settings ≡ made Command.Verify (given (texts words.now))) }
{
    Ok(Settings::Verify {
        proof: text_of(alloc, words, CommandOption::Proof)?,
        head: hash_of(words, CommandOption::Head),
    })
}

fn to_query(alloc: Global, words: &[&str]) -> Result<Settings, NoMemory>
    ensures { IfOk result (λ settings. settings ≡ made Command.Query (given (texts words.now))) }
{
    Ok(Settings::Query {
        app: text_of(alloc, words, CommandOption::App)?,
        blocks: text_of(alloc, words, CommandOption::Blocks)?,
        height: number_or(0, words, CommandOption::Height),
        text: text_of(alloc, words, CommandOption::Text)?,
    })
}

// The settings of a command by what the words give its options.
fn to_settings(alloc: Global, command: Command, words: &[&str]) -> Result<Settings, NoMemory>
    ensures { IfOk result (λ settings. settings ≡ made command (given (texts words.now))) }
{
    match command {
        Command::Run => to_run(alloc, words),
        Command::Simulate => to_simulate(alloc, words),
        Command::Provenance => to_provenance(alloc, words),
        Command::Seal => to_seal(alloc, words),
        Command::Load => Ok(Settings::Load {
            number: number_or(0, words, CommandOption::Number),
        }),
        Command::Order => to_order(alloc, words),
        Command::Checkpoint => to_checkpoint(alloc, words),
        Command::Compare => to_compare(alloc, words),
        Command::Prove => to_prove(alloc, words),
        Command::Verify => to_verify(alloc, words),
        Command::Query => to_query(alloc, words),
    }
}

// What a command and the words after it come to.
fn settle(alloc: Global, command: Command, words: &[&str]) -> Result<Settings, WordsFault>
    ensures ok { IfOk result (λ settings. settled (Some command) (texts words.now) ≡ Some settings) }
    ensures usage { IsErrOf result WordsFault.Usage ↔ (settled (Some command) (texts words.now) ≡ None) }
{
    if !is_read(words) || !is_line(command, words) {
        return Err(WordsFault::Usage);
    }
    let settings = to_settings(alloc, command, words)?;
    Ok(settings)
}

/// Reads the words after the program's name. The fault `Usage` comes exactly where the words are not in the language of
/// the command line; so a run that is asked for has 1 to 8 nodes, and at most 16 executors a node, an order has 1 to 8 clients and 1 to
/// 1,024 transactions a block, and a comparison has 1 to 8 peers.
pub fn read_words(alloc: Global, words: &[&str]) -> Result<Settings, WordsFault>
    ensures ok { IfOk result (λ settings. settings_of (texts words.now) ≡ Some settings) }
    ensures within { IfOk result AreWithin }
    ensures usage { IsErrOf result WordsFault.Usage ↔ (settings_of (texts words.now) ≡ None) }
{
    let Some((word, options)) = words.split_first() else {
        return Err(WordsFault::Usage);
    };
    match command_of(word) {
        Some(command) => settle(alloc, command, options),
        None => Err(WordsFault::Usage),
    }
}
