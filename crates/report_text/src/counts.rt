//! Summaries: how many transactions of a node's blocks came to what.

ghost use Rattle.std.specs.Prelude.{◌≡◌, ◌++◌, OnOk, IfOk, codes, flat_map, map};
ghost use Rattle.std.specs.List.{count_by};
ghost use Rattle.std.specs.Option.{option_copied};
ghost use Rattle.node_model.specs.Kinds.{is_same, kind_of};
ghost use Rattle.report_text.specs.Summary.{count_line, counts_text, kinds_in, last_digest_line, number_line, summary_text};

use crate::block::push_digest_line;
use crate::text::Text;
use node_model::{KeptResult, OutcomeKind, Told};
use rel_base::{List, NoMemory};
use std::alloc::Global;

/// All kinds, in the order of a summary.
const KINDS: [OutcomeKind; 10] = [
    OutcomeKind::Committed,
    OutcomeKind::DuplicateId,
    OutcomeKind::FutureHeight,
    OutcomeKind::UnknownProcedure,
    OutcomeKind::BadArguments,
    OutcomeKind::Stale,
    OutcomeKind::Phantom,
    OutcomeKind::Fault,
    OutcomeKind::WriteConflict,
    OutcomeKind::Danger,
];

/// Adds the kinds of outcomes to others.
fn add_kinds(kinds: &mut Vec<OutcomeKind>, outcomes: &[Told]) -> Result<(), NoMemory>
    ensures { OnOk result (kinds.new.items ≡ kinds.old.items ++ map (λ told. kind_of told.outcome) outcomes.now) }
{
    for told in outcomes {
        kinds.push(told.outcome.kind())?;
    }
    Ok(())
}

/// The kinds of all outcomes of blocks, in their order.
fn kinds_in(alloc: Global, blocks: &[KeptResult]) -> Result<Vec<OutcomeKind>, NoMemory>
    ensures { IfOk result (λ kinds. kinds.items ≡ kinds_in blocks.now) }
{
    let mut kinds = Vec::new(alloc);
    for block in blocks {
        add_kinds(&mut kinds, block.outcomes().as_slice())?;
    }
    Ok(kinds)
}

/// How many of some kinds are a given one.
fn count_of(kinds: &[OutcomeKind], kind: OutcomeKind) -> usize
    ensures { result ≡ count_by (is_same kind) kinds.now }
{
    let mut count = 0;
    for found in kinds {
        if kind.is(*found) {
            count += 1;
        }
    }
    count
}

/// A word, a space and a number.
fn push_number_line(out: &mut Text, word: &str, number: u64) -> Result<(), NoMemory>
    ensures { OnOk result (out.new ≡ out.old ++ number_line word.now number) }
{
    out.push(word)?;
    out.push(" ")?;
    out.push_number(number)?;
    out.push("\n")
}

/// Of each of the listed kinds, how many there are.
fn push_counts(
    out: &mut Text,
    kinds: &[OutcomeKind],
    listed: &[OutcomeKind],
) -> Result<(), NoMemory>
    ensures { OnOk result (out.new ≡ out.old ++ flat_map (count_line kinds.now) listed.now) }
{
    for kind in listed {
        let count = count_of(kinds, *kind);
        push_number_line(out, kind.word(), count as u64)?;
    }
    Ok(())
}

/// Of each kind, how many there are.
#[tactic(auto, unfolding(crate::specs::Summary::counts_text))]
fn push_all_counts(out: &mut Text, kinds: &[OutcomeKind]) -> Result<(), NoMemory>
    ensures { OnOk result (out.new ≡ out.old ++ counts_text kinds.now) }
{
    push_counts(out, kinds, &KINDS)
}

/// The number of a load, and how many blocks it has.
fn push_head(out: &mut Text, number: u64, blocks: usize) -> Result<(), NoMemory>
    ensures { OnOk result (out.new ≡ out.old ++ (number_line (codes "load") number ++ number_line (codes "blocks") blocks)) }
{
    push_number_line(out, "load", number)?;
    push_number_line(out, "blocks", blocks as u64)
}

/// The digest of a block, if there is one.
fn push_last_digest(out: &mut Text, block: Option<&KeptResult>) -> Result<(), NoMemory>
    ensures { OnOk result (out.new ≡ out.old ++ last_digest_line (option_copied block.entry)) }
{
    match block {
        None => Ok(()),
        Some(block) => push_digest_line(out, block),
    }
}

/// The digest of a block, if there is one, and the last line.
fn push_tail(out: &mut Text, block: Option<&KeptResult>) -> Result<(), NoMemory>
    ensures { OnOk result (out.new ≡ out.old ++ (last_digest_line (option_copied block.entry) ++ codes "done\n")) }
{
    push_last_digest(out, block)?;
    out.push("done\n")
}

/// The summary of the load of a number, by the results of its blocks: the number, how many blocks there are, how many of their
/// transactions committed and how many were aborted for each kind of cause, the digest of the last block, and `done`. The only error is
/// out of memory.
pub fn summary(alloc: Global, number: u64, blocks: &List<KeptResult>) -> Result<List<u8>, NoMemory>
    ensures { IfOk result (λ bytes. bytes ≡ summary_text number blocks.now) }
{
    let kinds = kinds_in(alloc, blocks.as_slice())?;
    let mut out = Text::new(alloc);
    push_head(&mut out, number, blocks.len())?;
    push_all_counts(&mut out, &kinds)?;
    push_tail(&mut out, blocks.last())?;
    Ok(List::from_vec(out.into_bytes()))
}
