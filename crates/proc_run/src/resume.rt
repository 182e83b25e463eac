//! What is done with the rows of a read.

ghost use Rattle.std.specs.Prelude.{◌≡◌, ◌<◌, [], ◌∷◌, List, Option, ℕ, Err, IfOk, OnOk, OnErr, true, false, slice_get, vec_len, vec_capacity};
ghost use Rattle.std.specs.Option.{option_copied, option_to_list};
ghost use Rattle.rel_base.specs.OwnWrites.{first_row};
ghost use Rattle.rel_base.specs.Tables.{Tables};
ghost use Rattle.rel_base.specs.declared.access.Read.{Read as Asked};
ghost use Rattle.rel_base.specs.declared.access.Read.TheVariants.{Point};
ghost use Rattle.rel_base.specs.declared.access.Seen.{Seen as SeenRow};
ghost use Rattle.rel_base.specs.declared.schema.TableDef.{TableDef as Def};
ghost use Rattle.rel_base.specs.declared.value.Value.{Value as Cell};
ghost use Rattle.row_sets.specs.Overlay.{own_of};
ghost use Rattle.proc_syntax.specs.Steps.{asked, wrote, insert_at, update_at, delete_at, held_or, with_some, then_do};
ghost use Rattle.proc_eval.specs.Gives.{Gives};
ghost use Rattle.proc_eval.specs.declared.halt.Halt.TheVariants as halt;
ghost use Rattle.proc_code.specs.Coded.{do_all, hold};
ghost use Rattle.proc_code.specs.declared.tree.Action.{Action as Act};
ghost use Rattle.proc_run.specs.declared.path.Branch.TheVariants.{First, Second};
ghost use Rattle.proc_run.specs.Changed.{changed_at};
ghost use Rattle.proc_run.specs.Path.{part_of, block_of, frames_of};
ghost use Rattle.proc_run.specs.Remains.{state, seen_in, StandInOrder, at_key, answered, run_frames, Ends, Comes, KeepsFound};

use crate::asked::Got;
use crate::path::{Branch, Holder, Spot};
use crate::plan::{Pending, find_table};
use crate::state::Run;
use crate::turn::{push_block, push_rows};
use crate::variables::hold;
use proc_eval::Halt;
use proc_eval::change::changed;
use proc_syntax::{Fault, Stop};
use rel_base::{Key, List, NoMemory, Read, Row, Seen, TableDef, Twin, Value};
use row_sets::Overlay;
use row_sets::merge::first_of;
use std::alloc::Global;

/// The rows that the transaction sees at a read that got rows of the tables, which stand in the order of their keys.
fn seen_rows(
    alloc: Global,
    tables: &List<TableDef>,
    own: &Overlay,
    made: &Got,
) -> Result<List<Row>, NoMemory>
    requires { StandInOrder tables.now made.now.read made.now.rows }
    ensures { IfOk result (λ rows. rows ≡ seen_in tables.now made.now.read (own_of own.now) made.now.rows) }
{
    match tables.get(made.read.table() as usize) {
        None => Ok(List::new(alloc)),
        Some(def) => own.merge(alloc, def, &made.read, &made.rows),
    }
}

/// The row that the transaction sees at a key whose point read got rows of the tables.
fn seen_at<'a>(
    tables: &List<TableDef>,
    own: &'a Overlay,
    table: u32,
    key: &Key,
    rows: &'a [Seen],
) -> Option<&'a Row>
    ensures { option_to_list (option_copied result) ≡ seen_in tables.now (Point table key.now) (own_of own.now) rows.now }
{
    match tables.get(table as usize) {
        None => None,
        Some(_) => own.look(table, key, first_of(rows)),
    }
}

/// Whether the transaction sees a row at a key whose point read got rows of the tables.
fn has_row(tables: &List<TableDef>, own: &Overlay, table: u32, key: &Key, rows: &[Seen]) -> bool
    ensures some { result ≡ true → (row : List Cell) × (seen_in tables.now (Point table key.now) (own_of own.now) rows.now ≡ row ∷ []) }
    ensures none { result ≡ false → seen_in tables.now (Point table key.now) (own_of own.now) rows.now ≡ [] }
{
    match seen_at(tables, own, table, key, rows) {
        None => false,
        Some(_) => true,
    }
}

/// The row that the transaction sees at a key, with columns set.
fn row_changed(
    alloc: Global,
    tables: &List<TableDef>,
    own: &Overlay,
    table: u32,
    key: &Key,
    rows: &[Seen],
    changes: &[(usize, Value)],
) -> Result<Row, Halt>
    ensures { Gives result (changed_at tables.now table key.now changes.now (seen_in tables.now (Point table key.now) (own_of own.now) rows.now)) }
{
    let def = find_table(tables, table)?;
    match seen_at(tables, own, table, key, rows) {
        None => Err(Halt::Stop(Stop::Fault(Fault::NoRow))),
        Some(old) => changed(alloc, def, key, old, changes),
    }
}

/// A copy of a row that may be there.
fn copy_of(alloc: Global, row: Option<&Row>) -> Result<Option<Row>, NoMemory>
    ensures { IfOk result (λ copy. copy ≡ option_copied row.entry) }
{
    match row {
        None => Ok(None),
        Some(row) => Ok(Some(row.copy(alloc)?)),
    }
}

/// The first row that the transaction sees at a read that got rows of the tables, which stand in the order of their keys.
fn first_seen(
    alloc: Global,
    tables: &List<TableDef>,
    own: &Overlay,
    made: &Got,
) -> Result<Option<Row>, NoMemory>
    requires { StandInOrder tables.now made.now.read made.now.rows }
    ensures { IfOk result (λ row. row ≡ slice_get (seen_in tables.now made.now.read (own_of own.now) made.now.rows) 0) }
{
    match &made.read {
        Read::Point { table, key } => {
            copy_of(
                alloc,
                seen_at(tables, own, *table, key, made.rows.as_slice()),
            )
        }
        Read::Span { .. } => {
            let rows = seen_rows(alloc, tables, own, made)?;
            copy_of(alloc, rows.first())
        }
    }
}

/// The first row that was read.
fn first_row(alloc: Global, seens: &[Seen]) -> Result<Option<Row>, NoMemory>
    ensures { IfOk result (λ row. row ≡ first_row seens.now) }
{
    match seens.first() {
        None => Ok(None),
        Some(seen) => Ok(Some(seen.row.copy(alloc)?)),
    }
}

/// Leaves a row at a key, or none. The rows are those that the point read of the key got of the tables.
fn leave(
    alloc: Global,
    table: u32,
    key: &Key,
    rows: &[Seen],
    after: Option<Row>,
    run: &mut Run,
) -> Result<(), NoMemory>
    ensures wrote { OnOk result (state run.new ≡ wrote (state run.old) table key.now after) }
    ensures found { KeepsFound (Point table key.now) rows.now run.old.own run.new.own }
    ensures made { run.new.made ≡ run.old.made }
    ensures steps { run.new.steps ≡ run.old.steps }
    ensures err { OnErr result (run.new ≡ run.old) }
{
    let before = first_row(alloc, rows)?;
    let key = key.copy(alloc)?;
    run.own.put(table, key, before, after)
}

/// Puts a new row where its key has none.
fn put_new(
    alloc: Global,
    tables: &List<TableDef>,
    made: &Got,
    row: &Row,
    run: &mut Run,
) -> Result<(), Halt>
    ensures ends { Ends result (asked (state run.new) made.now.read made.now.rows)
        (at_key made.now.read (λ table key. insert_at table key row.now (seen_in tables.now made.now.read (own_of run.old.own) made.now.rows)) (asked (state run.old) made.now.read made.now.rows)) }
    ensures found { KeepsFound made.now.read made.now.rows run.old.own run.new.own }
    ensures made { run.new.made ≡ run.old.made }
    ensures steps { run.new.steps ≡ run.old.steps }
    ensures err { result ≡ Err halt.NoMemory → run.new ≡ run.old }
{
    let Read::Point { table, key } = &made.read else {
        return Err(Halt::Stop(Stop::IllTyped));
    };
    let rows = made.rows.as_slice();
    if has_row(tables, &run.own, *table, key, rows) {
        return Err(Halt::Stop(Stop::Fault(Fault::DuplicateKey)));
    }
    let row = row.copy(alloc)?;
    leave(alloc, *table, key, rows, Some(row), run)?;
    Ok(())
}

/// Changes the row of a key.
fn put_changed(
    alloc: Global,
    tables: &List<TableDef>,
    made: &Got,
    changes: &[(usize, Value)],
    run: &mut Run,
) -> Result<(), Halt>
    ensures ends { Ends result (asked (state run.new) made.now.read made.now.rows)
        (at_key made.now.read (λ table key state. with_some (slice_get tables.now table) state (λ def. update_at def table key changes.now (seen_in tables.now made.now.read (own_of run.old.own) made.now.rows) state)) (asked (state run.old) made.now.read made.now.rows)) }
    ensures found { KeepsFound made.now.read made.now.rows run.old.own run.new.own }
    ensures made { run.new.made ≡ run.old.made }
    ensures steps { run.new.steps ≡ run.old.steps }
    ensures err { result ≡ Err halt.NoMemory → run.new ≡ run.old }
{
    let Read::Point { table, key } = &made.read else {
        return Err(Halt::Stop(Stop::IllTyped));
    };
    let rows = made.rows.as_slice();
    let row = row_changed(alloc, tables, &run.own, *table, key, rows, changes)?;
    leave(alloc, *table, key, rows, Some(row), run)?;
    Ok(())
}

/// Deletes the row of a key.
fn put_none(alloc: Global, tables: &List<TableDef>, made: &Got, run: &mut Run) -> Result<(), Halt>
    ensures ends { Ends result (asked (state run.new) made.now.read made.now.rows)
        (at_key made.now.read (λ table key. delete_at table key (seen_in tables.now made.now.read (own_of run.old.own) made.now.rows)) (asked (state run.old) made.now.read made.now.rows)) }
    ensures found { KeepsFound made.now.read made.now.rows run.old.own run.new.own }
    ensures made { run.new.made ≡ run.old.made }
    ensures steps { run.new.steps ≡ run.old.steps }
    ensures err { result ≡ Err halt.NoMemory → run.new ≡ run.old }
{
    let Read::Point { table, key } = &made.read else {
        return Err(Halt::Stop(Stop::IllTyped));
    };
    let rows = made.rows.as_slice();
    if !has_row(tables, &run.own, *table, key, rows) {
        return Err(Halt::Stop(Stop::Fault(Fault::NoRow)));
    }
    leave(alloc, *table, key, rows, None, run)?;
    Ok(())
}

/// Enters one block of a `get` where its key has a row, which the variable then holds, and the other where it has none.
fn enter(spots: &mut Vec<Spot>, run: &mut Run, holder: Holder, row: Option<Row>)
    requires { vec_len spots.old < vec_capacity spots.old }
    ensures goes { (tables : List Def) (columns : List (List (Option ℕ))) (S : Tables) (root : List Act) (read : Asked) (rows : List SeenRow) (seen : List (List Cell)) → row ≡ slice_get seen 0 → run_frames tables columns S (frames_of root spots.new.items) (asked (state run.new) read rows)
        ≡ then_do (held_or (hold holder.slot holder.table) (do_all tables columns S (part_of (block_of root spots.old.items) holder.at First)) (do_all tables columns S (part_of (block_of root spots.old.items) holder.at Second)) seen (asked (state run.old) read rows)) (run_frames tables columns S (frames_of root spots.old.items)) }
    ensures own { run.new.own ≡ run.old.own }
    ensures made { run.new.made ≡ run.old.made }
    ensures steps { run.new.steps ≡ run.old.steps }
{
    match row {
        None => push_block(spots, holder.at, Branch::Second, 0),
        Some(row) => {
            hold(&mut run.environment.slots, holder, row);
            push_block(spots, holder.at, Branch::First, 0);
        }
    }
}

/// The rows that a read of the statement of a number got of the tables, and what is done with them.
#[derive(Clone, Copy)]
pub struct AnsweredRead<'a> {
    pub at: usize,
    pub made: &'a Got,
    pub pending: &'a Pending,
}

/// Goes on with the rows that a read got of the tables. There is room for a spot. Where memory is wanting, all is as before.
pub fn resume(
    alloc: Global,
    tables: &List<TableDef>,
    spots: &mut Vec<Spot>,
    run: &mut Run,
    answer: &AnsweredRead<'_>,
) -> Result<(), Halt>
    requires room { vec_len spots.old < vec_capacity spots.old }
    requires order { StandInOrder tables.now answer.now.made.now.read answer.now.made.now.rows }
    ensures comes { (columns : List (List (Option ℕ))) (S : Tables) (root : List Act) → Comes result (run_frames tables.now columns S (frames_of root spots.new.items) (asked (state run.new) answer.now.made.now.read answer.now.made.now.rows))
        (asked (state run.new) answer.now.made.now.read answer.now.made.now.rows)
        (then_do (answered tables.now columns S (part_of (block_of root spots.old.items) answer.now.at First) (part_of (block_of root spots.old.items) answer.now.at Second) answer.now.made.now.read answer.now.pending.now answer.now.made.now.rows (state run.old)) (run_frames tables.now columns S (frames_of root spots.old.items))) }
    ensures found { KeepsFound answer.now.made.now.read answer.now.made.now.rows run.old.own run.new.own }
    ensures made { run.new.made ≡ run.old.made }
    ensures steps { run.new.steps ≡ run.old.steps }
    ensures err { result ≡ Err halt.NoMemory → (spots.new.items ≡ spots.old.items) × (run.new ≡ run.old) }
{
    let AnsweredRead { at, made, pending } = *answer;
    let table = made.read.table();
    match pending {
        Pending::Insert { row } => put_new(alloc, tables, made, row, run),
        Pending::Update { changes } => put_changed(alloc, tables, made, changes.as_slice(), run),
        Pending::Delete => put_none(alloc, tables, made, run),
        Pending::Get { slot } => {
            let slot = *slot;
            let row = first_seen(alloc, tables, &run.own, made)?;
            enter(spots, run, Holder { at, slot, table }, row);
            Ok(())
        }
        Pending::For { slot } => {
            let slot = *slot;
            let seen = seen_rows(alloc, tables, &run.own, made)?;
            push_rows(spots, Holder { at, slot, table }, seen, 0);
            Ok(())
        }
    }
}
