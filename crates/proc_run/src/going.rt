//! How a run stands from one read to the next.

ghost use Rattle.std.specs.Prelude.{◌≡◌, ◌+◌, ◌<◌, ◌≤◌, [], ◌++◌, List, Option, ℕ, ℤ, None, IfOk, OnOk, OnErr, IfSome, IfNone, true, false, vec_len, vec_capacity};
ghost use Rattle.rel_base.specs.Tables.{Tables};
ghost use Rattle.rel_base.specs.declared.schema.TableDef.{TableDef as Def};
ghost use Rattle.row_sets.specs.Overlay.{AreFound, own_of};
ghost use Rattle.proc_syntax.specs.declared.call.Tx.{Tx as Call};
ghost use Rattle.proc_syntax.specs.Declaring.{tables_of};
ghost use Rattle.proc_syntax.specs.Run.{ran};
ghost use Rattle.proc_code.specs.declared.slots.Environment.{Environment};
ghost use Rattle.proc_code.specs.declared.tree.Action.{Action as Act};
ghost use Rattle.proc_run.specs.declared.path.Spot.{Spot as PathStep};
ghost use Rattle.proc_run.specs.Remains.{state, remains, waits, has_rows, PhaseFits};
ghost use Rattle.proc_run.specs.MachineView.{Agrees, GivenInOrder, IsResumed, IsSound, given_of, held_of, read_of, want_of};
ghost use Rattle.proc_syntax.specs.Limits.{most_steps};

use crate::path::{Program, Spot, body_at};
use crate::resume::{AnsweredRead, resume};
use crate::state::{Phase, Run, Want};
use crate::turn::advance;
use proc_check::Checked;
use proc_eval::Halt;
use proc_syntax::{Ending, Ran};
use rel_base::{List, Made, NoMemory, TableDef, Twin};
use row_sets::Overlay;
use std::alloc::Global;

/// Puts the read that was answered last on the list, which has room for it.
#[inline(always)]
pub fn keep(made: &mut Vec<Made>, phase: Phase)
    requires { vec_len made.old + held_of phase ≤ vec_capacity made.old }
    ensures items { made.new.items ≡ made.old.items ++ given_of phase }
    ensures len { vec_len made.new ≤ vec_len made.old + held_of phase }
    ensures capacity { vec_capacity made.old ≤ vec_capacity made.new }
{
    match phase {
        Phase::Answered { asked, .. } => match made.push(asked.into_made()) {
            Ok(()) => (),
            Err(_) => unreachable!(),
        },
        _ => (),
    }
}

/// Where a run stands once the rows of the read that was answered last are used, where there is one.
fn resumed(
    alloc: Global,
    tables: &List<TableDef>,
    spots: &mut Vec<Spot>,
    run: &mut Run,
    phase: &Phase,
) -> Result<Option<Phase>, NoMemory>
    requires room { vec_len spots.old < vec_capacity spots.old }
    requires order { GivenInOrder tables.now phase.now }
    ensures some { IfOk result (λ next. IfSome next (λ next. IsResumed tables.now phase.now spots.old.items (state run.old) next spots.new.items (state run.new))) }
    ensures none { IfOk result (λ next. IfNone next ((given_of phase.now ≡ []) × (spots.new.items ≡ spots.old.items) × (run.new ≡ run.old))) }
    ensures found { (declared : List Def) (S : Tables) → Agrees declared S (given_of phase.now) → AreFound declared S run.old.own → AreFound declared S run.new.own }
    ensures made { run.new.made ≡ run.old.made }
    ensures steps { run.new.steps ≡ run.old.steps }
    ensures err { OnErr result ((spots.new.items ≡ spots.old.items) × (run.new ≡ run.old)) }
{
    let Phase::Answered { at, asked } = phase else {
        return Ok(None);
    };
    let asked = asked.get();
    let answer = AnsweredRead {
        at: *at,
        made: &asked.made,
        pending: &asked.pending,
    };
    match resume(alloc, tables, spots, run, &answer) {
        Ok(()) => Ok(Some(Phase::Running)),
        Err(Halt::Stop(why)) => Ok(Some(Phase::Stopped(why))),
        Err(Halt::NoMemory) => Err(NoMemory),
    }
}

/// Uses the rows of the read that was answered last, where there is one. Where memory is wanting, all is as before.
pub fn settle(
    alloc: Global,
    tables: &List<TableDef>,
    spots: &mut Vec<Spot>,
    run: &mut Run,
    phase: &mut Phase,
) -> Result<(), NoMemory>
    requires room { vec_len spots.old < vec_capacity spots.old }
    requires order { GivenInOrder tables.now phase.old }
    requires list { vec_len run.old.made + 2 ≤ vec_capacity run.old.made }
    ensures remains { (columns : List (List (Option ℕ))) (S : Tables) (root : List Act) → remains tables.now columns S root phase.new spots.new.items (state run.new) ≡ remains tables.now columns S root phase.old spots.old.items (state run.old) }
    ensures found { (declared : List Def) (S : Tables) → Agrees declared S (given_of phase.old) → AreFound declared S run.old.own → AreFound declared S run.new.own }
    ensures fed { run.new.made.items ++ given_of phase.new ≡ run.old.made.items ++ given_of phase.old }
    ensures steps { run.new.steps ≡ run.old.steps }
    ensures list { vec_len run.new.made + 1 ≤ vec_capacity run.new.made }
    ensures fits { PhaseFits tables.now phase.old → PhaseFits tables.now phase.new }
    ensures settled { OnOk result (has_rows phase.new ≡ false) }
    ensures order { GivenInOrder tables.now phase.new }
{
    match resumed(alloc, tables, spots, run, phase)? {
        None => Ok(()),
        Some(next) => {
            let before = std::mem::replace(phase, next);
            keep(&mut run.made, before);
            Ok(())
        }
    }
}

/// A run stands in another way from now on.
#[inline(always)]
pub fn stand(phase: &mut Phase, next: Phase)
    ensures { phase.new ≡ next }
{
    *phase = next;
}

/// Goes on to the next read or to the end, where the run is at neither. Where memory is wanting, what remains of it is as before.
pub fn go_on(
    alloc: Global,
    program: &Program<'_>,
    spots: &mut Vec<Spot>,
    run: &mut Run,
    phase: &mut Phase,
) -> Result<(), NoMemory>
    requires settled { has_rows phase.old ≡ false }
    requires steps { run.old.steps ≤ most_steps }
    requires list { vec_len run.old.made + 1 ≤ vec_capacity run.old.made }
    requires fits { PhaseFits program.now.tables.now phase.old }
    ensures remains { (S : Tables) → remains program.now.tables.now program.now.columns.now S program.now.root.now phase.new spots.new.items (state run.new) ≡ remains program.now.tables.now program.now.columns.now S program.now.root.now phase.old spots.old.items (state run.old) }
    ensures own { run.new.own ≡ run.old.own }
    ensures made { run.new.made ≡ run.old.made }
    ensures steps { run.new.steps ≤ most_steps }
    ensures fits { PhaseFits program.now.tables.now phase.new }
    ensures waits { OnOk result (waits phase.new ≡ true) }
    ensures settled { has_rows phase.new ≡ false }
    ensures list { vec_len run.new.made + held_of phase.new ≤ vec_capacity run.new.made }
{
    match phase {
        Phase::Running => {
            let next = advance(alloc, program, spots, run)?;
            stand(phase, next);
            Ok(())
        }
        _ => Ok(()),
    }
}

/// Runs a call of an application to its next read or to its end, from where it stands. Where memory is wanting, what remains of the
/// run is as before.
#[inline(always)]
pub fn go_to_read(
    alloc: Global,
    app: &Checked,
    number: usize,
    spots: &mut Vec<Spot>,
    run: &mut Run,
    phase: &mut Phase,
) -> Result<(), NoMemory>
    requires steps { run.old.steps ≤ most_steps }
    requires fits { PhaseFits (tables_of app.now.app) phase.old }
    requires order { GivenInOrder (tables_of app.now.app) phase.old }
    ensures sound { (tx : Call) (time : ℤ) → IsSound app.now.app tx time number phase.old spots.old.items run.old false → IsSound app.now.app tx time number phase.new spots.new.items run.new false }
    ensures fed { run.new.made.items ++ given_of phase.new ≡ run.old.made.items ++ given_of phase.old }
    ensures waits { OnOk result (waits phase.new ≡ true) }
{
    run.made.reserve(2)?;
    spots.reserve(1)?;
    let tables = app.tables();
    let code = app.code();
    settle(alloc, tables, spots, run, phase)?;
    let program = Program {
        tables,
        columns: &code.columns,
        root: body_at(code, number),
    };
    go_on(alloc, &program, spots, run, phase)
}

/// What a run needs that is at a read or at its end.
pub fn wanted(alloc: Global, phase: &Phase) -> Result<Want, NoMemory>
    ensures { IfOk result (λ want. want ≡ want_of phase.now) }
{
    match phase {
        Phase::Ask { asked, .. } => Ok(Want::Rows(asked.get().made.read.copy(alloc)?)),
        _ => Ok(Want::Ended),
    }
}

/// What a run gave that is at its end.
pub fn gives(alloc: Global, phase: Phase, own: Overlay, made: Vec<Made>) -> Ran
    requires ended { waits phase ≡ true }
    requires nothing { read_of phase ≡ None }
    ensures { (tables : List Def) (columns : List (List (Option ℕ))) (S : Tables) (root : List Act) (spots : List PathStep) (environment : Environment) (steps : ℕ) → AreFound tables S own
        → result ≡ ran tables S (remains tables columns S root phase spots (record { environment = environment; own = own_of own; made = made.items; steps = steps })) }
{
    match phase {
        Phase::Good => Ran {
            reads: List::from_vec(made),
            writes: own.net(),
            ending: Ending::Good,
        },
        Phase::Stopped(stop) => Ran {
            reads: List::from_vec(made),
            writes: List::new(alloc),
            ending: Ending::of(stop),
        },
        _ => unreachable!(),
    }
}
