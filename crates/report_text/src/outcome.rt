//! The texts of outcomes.

ghost use Rattle.std.specs.Prelude.{◌≡◌, ◌++◌, OnOk, [], codes, cond};
ghost use Rattle.node_model.specs.Kinds.{is_same};
ghost use Rattle.node_model.specs.declared.kind.OutcomeKind.TheVariants.{Committed};
ghost use Rattle.report_text.specs.Outcome.{clash_text, danger_positions, danger_text, details_text, fault_reason, fault_text, key_text, late_text, name_of, outcome_text, path_text, positions_text, table_name, verdict_text, write_text};

use crate::text::Text;
use crate::value::push_values;
use node_model::{Clash, Danger, Late, Outcome, OutcomeKind, fault_mark};
use proc_syntax::Fault;
use rel_base::{Key, List, NoMemory, TableDef};

/// The name of the table of a number.
pub fn table_name(tables: &[TableDef], table: u32) -> &str
    ensures { result.now ≡ table_name tables.now table }
{
    match tables.get(table as usize) {
        Some(def) => def.name.as_str(),
        None => "",
    }
}

/// The same, written at the end.
pub fn push_table_name(out: &mut Text, tables: &[TableDef], table: u32) -> Result<(), NoMemory>
    ensures { OnOk result (out.new ≡ out.old ++ table_name tables.now table) }
{
    out.push(table_name(tables, table))
}

/// A key of a table: the table's name and the key's values.
fn push_key(out: &mut Text, tables: &[TableDef], table: u32, key: &Key) -> Result<(), NoMemory>
    ensures { OnOk result (out.new ≡ out.old ++ key_text tables.now table key.now) }
{
    push_table_name(out, tables, table)?;
    push_values(out, key.as_slice())
}

/// A write in a block: the position of its transaction, its table and its key.
fn push_write(
    out: &mut Text,
    tables: &[TableDef],
    pos: u32,
    table: u32,
    key: &Key,
) -> Result<(), NoMemory>
    ensures { OnOk result (out.new ≡ out.old ++ write_text tables.now pos table key.now) }
{
    out.push_number(u64::from(pos))?;
    out.push(" ")?;
    push_key(out, tables, table, key)
}

/// A late read, and the write that hit it.
fn push_late(out: &mut Text, tables: &[TableDef], late: &Late) -> Result<(), NoMemory>
    ensures { OnOk result (out.new ≡ out.old ++ late_text tables.now late.now) }
{
    out.push(" ")?;
    out.push_number(u64::from(late.read))?;
    out.push(" by ")?;
    out.push_number(late.place.block)?;
    out.push(" ")?;
    push_write(out, tables, late.place.pos, late.table, &late.key)
}

/// Two writes of one key.
fn push_clash(out: &mut Text, tables: &[TableDef], clash: &Clash) -> Result<(), NoMemory>
    ensures { OnOk result (out.new ≡ out.old ++ clash_text tables.now clash.now) }
{
    out.push(" with ")?;
    push_write(out, tables, clash.with, clash.table, &clash.key)
}

/// The text of a statement `fail`, which no other fault has, after a space.
fn push_reason(out: &mut Text, fault: &Fault) -> Result<(), NoMemory>
    ensures { OnOk result (out.new ≡ out.old ++ fault_reason fault.now) }
{
    match fault {
        Fault::Failed(text) => {
            out.push(" ")?;
            out.push_quoted(text)
        }
        _ => Ok(()),
    }
}

/// Why a run ended without its writes, after a space.
fn push_fault(out: &mut Text, fault: &Fault) -> Result<(), NoMemory>
    ensures { OnOk result (out.new ≡ out.old ++ fault_text fault.now) }
{
    let (word, _) = fault_mark(fault);
    out.push(" ")?;
    out.push(word)?;
    push_reason(out, fault)
}

/// Two positions, each after a space.
fn push_positions(out: &mut Text, first: u32, second: u32) -> Result<(), NoMemory>
    ensures { OnOk result (out.new ≡ out.old ++ positions_text first second) }
{
    out.push(" ")?;
    out.push_number(u64::from(first))?;
    out.push(" ")?;
    out.push_number(u64::from(second))
}

/// The positions on a path, each after a space.
fn push_path(out: &mut Text, path: &[u32]) -> Result<(), NoMemory>
    ensures { OnOk result (out.new ≡ out.old ++ path_text path.now) }
{
    for pos in path {
        out.push(" ")?;
        out.push_number(u64::from(*pos))?;
    }
    Ok(())
}

/// The same of a list.
fn push_cycle(out: &mut Text, path: &List<u32>) -> Result<(), NoMemory>
    ensures { OnOk result (out.new ≡ out.old ++ path_text path.now) }
{
    push_path(out, path.as_slice())
}

/// The positions of a danger in the order in which they are found, of a cycle those on its path.
fn push_danger_positions(out: &mut Text, danger: &Danger) -> Result<(), NoMemory>
    ensures { OnOk result (out.new ≡ out.old ++ danger_positions danger.now) }
{
    match danger {
        Danger::One { z, x } => push_positions(out, *z, *x),
        Danger::Two { y, z } => push_positions(out, *y, *z),
        Danger::Cycle { path } => push_cycle(out, path),
    }
}

/// A danger after a space.
fn push_danger(out: &mut Text, danger: &Danger) -> Result<(), NoMemory>
    ensures { OnOk result (out.new ≡ out.old ++ danger_text danger.now) }
{
    let (word, _) = danger.mark();
    out.push(" ")?;
    out.push(word)?;
    push_danger_positions(out, danger)
}

/// What an outcome names.
fn push_details(out: &mut Text, tables: &[TableDef], outcome: &Outcome) -> Result<(), NoMemory>
    ensures { OnOk result (out.new ≡ out.old ++ details_text tables.now outcome.now) }
{
    match outcome {
        Outcome::Late(late) => push_late(out, tables, late.get()),
        Outcome::Fault(fault) => push_fault(out, fault.get()),
        Outcome::WriteConflict(clash) => push_clash(out, tables, clash.get()),
        Outcome::Danger(danger) => push_danger(out, danger.get()),
        _ => Ok(()),
    }
}

/// The word `aborted`, unless a transaction committed.
fn aborted_word(kind: OutcomeKind) -> &'static str
    ensures { result.now ≡ cond (is_same kind Committed) [] (codes "aborted ") }
{
    if kind.is(OutcomeKind::Committed) {
        ""
    } else {
        "aborted "
    }
}

/// The word of a kind, after `aborted` unless it is `committed`.
fn push_verdict(out: &mut Text, kind: OutcomeKind) -> Result<(), NoMemory>
    ensures { OnOk result (out.new ≡ out.old ++ verdict_text kind) }
{
    out.push(aborted_word(kind))?;
    out.push(kind.word())
}

/// An outcome.
pub fn push_outcome(out: &mut Text, tables: &[TableDef], outcome: &Outcome) -> Result<(), NoMemory>
    ensures { OnOk result (out.new ≡ out.old ++ outcome_text tables.now outcome.now) }
{
    push_verdict(out, outcome.kind())?;
    push_details(out, tables, outcome)
}
