//! The lines of journals.

ghost use Rattle.std.specs.Prelude.{◌≡◌, ◌++◌, ◌+◌, OnOk, codes, decimal, flat_map, List, ℕ};
ghost use Rattle.report_text.specs.Journal.{event_text};
ghost use Rattle.report_text.specs.Report.{entry_line, journal_line, journal_lines, numbered, shown_if};

use crate::look::Look;
use crate::text::Text;
use node_model::{Entry, Event, NodeResult};
use proc_syntax::Tx;
use rel_base::NoMemory;

/// The word of a change, and a number after it.
fn push_numbered(out: &mut Text, word: &str, number: u64) -> Result<(), NoMemory>
    ensures { OnOk result (out.new ≡ out.old ++ (word.now ++ decimal number)) }
{
    out.push(word)?;
    out.push_number(number)
}

/// A transaction that got the job of a number.
fn push_arrive(out: &mut Text, job: u64, tx: &Tx) -> Result<(), NoMemory>
    ensures { OnOk result (out.new ≡ out.old ++ (codes "arrive " ++ decimal job ++ codes " " ++ tx.now.id)) }
{
    push_numbered(out, "arrive ", job)?;
    out.push(" ")?;
    out.push(tx.id.as_str())
}

/// A change.
fn push_event(out: &mut Text, event: &Event) -> Result<(), NoMemory>
    ensures { OnOk result (out.new ≡ out.old ++ event_text event.now) }
{
    match event {
        Event::Arrive { job, tx } => push_arrive(out, *job, tx),
        Event::Claim { job } => push_numbered(out, "claim ", *job),
        Event::Read { job } => push_numbered(out, "read ", *job),
        Event::Finish { job } => push_numbered(out, "finish ", *job),
        Event::Release { job } => push_numbered(out, "release ", *job),
        Event::Deliver { block } => push_numbered(out, "deliver ", block.number),
        Event::Commit { pos } => push_numbered(out, "commit ", u64::from(*pos)),
        Event::Seal { number } => push_numbered(out, "seal ", *number),
    }
}

/// An entry: its actor, and what it did.
fn push_entry(out: &mut Text, entry: &Entry) -> Result<(), NoMemory>
    ensures { OnOk result (out.new ≡ out.old ++ entry_line entry.now) }
{
    out.push_number(u64::from(entry.actor))?;
    out.push(" ")?;
    push_event(out, &entry.event)?;
    out.push("\n")
}

/// Entries, in order.
fn push_entries(out: &mut Text, entries: &[Entry]) -> Result<(), NoMemory>
    ensures { OnOk result (out.new ≡ out.old ++ flat_map entry_line entries.now) }
{
    for entry in entries {
        push_entry(out, entry)?;
    }
    Ok(())
}

/// The line that begins a journal.
fn push_journal_line(out: &mut Text, number: usize) -> Result<(), NoMemory>
    ensures { OnOk result (out.new ≡ out.old ++ journal_line number) }
{
    out.push("journal ")?;
    out.push_number(number as u64)?;
    out.push("\n")
}

/// The journal of a node.
fn push_journal(out: &mut Text, number: usize, node: &NodeResult) -> Result<(), NoMemory>
    ensures { OnOk result (out.new ≡ out.old ++ journal_lines number node.now) }
{
    push_journal_line(out, number)?;
    push_entries(out, node.journal.as_slice())
}

/// The journals of nodes, numbered from 1.
fn push_all(out: &mut Text, nodes: &[NodeResult]) -> Result<(), NoMemory>
    ensures { OnOk result (out.new ≡ out.old ++ numbered journal_lines 1 nodes.now) }
{
    for (before, node) in nodes.iter().enumerate() {
        push_journal(out, before + 1, node)?;
    }
    Ok(())
}

/// The journals of nodes, if they are asked for.
pub fn push_journals(out: &mut Text, look: &Look, nodes: &[NodeResult]) -> Result<(), NoMemory>
    ensures { OnOk result (out.new ≡ out.old ++ shown_if look.now.trace (numbered journal_lines 1 nodes.now)) }
{
    if look.trace {
        push_all(out, nodes)
    } else {
        Ok(())
    }
}
