//! The run of a call on tables.

ghost use Rattle.std.specs.Prelude.{◌≡◌, IfOk, List, slice_get};
ghost use Rattle.std.specs.List.{find};
ghost use Rattle.std.specs.Option.{option_copied};
ghost use Rattle.std.specs.Str.{bytes_eq};
ghost use Rattle.rel_base.specs.Among.{TablesFit};
ghost use Rattle.rel_base.specs.Tables.{Tables};
ghost use Rattle.rel_base.specs.declared.schema.TableDef.{TableDef as Def};
ghost use Rattle.row_sets.specs.Overlay.{AreFound};
ghost use Rattle.proc_syntax.specs.Declaring.{tables_of};
ghost use Rattle.proc_syntax.specs.Run.{no_run, ran, run};
ghost use Rattle.proc_code.specs.Coded.{Progress as Goes, begin, code_named, do_all};
ghost use Rattle.direct_run.specs.Runs.{state_of};
ghost use Rattle.direct_run.specs.Steps.{Ends};

use crate::beginning::begin;
use crate::looking::Ground;
use crate::snapshot::Snapshot;
use crate::state::Run;
use proc_check::Checked;
use proc_code::calls::{accepts, number_of};
use proc_code::{AppCode, ProcCode};
use proc_eval::Halt;
use proc_syntax::{Ending, Ran, Tx};
use rel_base::{List, Name, NoMemory};
use std::alloc::Global;
use std::sync::Arc;

/// The first procedure of a name.
fn procedure_of<'a>(code: &'a AppCode, name: &Name) -> Option<&'a ProcCode>
    ensures { option_copied result ≡ code_named code.now name.now }
{
    let number = number_of(code.procs.as_slice(), name)?;
    code.procs.get(number)
}

/// A run that does not begin.
fn no_run(alloc: Global) -> Ran
    ensures { result ≡ no_run }
{
    Ran {
        reads: List::new(alloc),
        writes: List::new(alloc),
        ending: Ending::IllTyped,
    }
}

/// What a run gives that has come to its end, or has stopped.
fn gives(alloc: Global, run: Run<'_>, ended: Result<(), Halt>) -> Result<Ran, NoMemory>
    ensures { IfOk result (λ r. (declared : List Def) (tables : Tables) (meant : Goes) → AreFound declared tables run.entry.own → Ends ended (state_of run.entry) meant → r ≡ ran declared tables meant) }
{
    let Run {
        own,
        made,
        scope: _,
        steps: _,
    } = run;
    match ended {
        Ok(()) => Ok(Ran {
            reads: List::from_vec(made),
            writes: own.net(),
            ending: Ending::Good,
        }),
        Err(Halt::NoMemory) => Err(NoMemory),
        Err(Halt::Stop(why)) => Ok(Ran {
            reads: List::from_vec(made),
            writes: List::new(alloc),
            ending: Ending::of(why),
        }),
    }
}

/// The run of a procedure that takes its arguments.
fn run_procedure<S: Snapshot>(
    ground: &Ground<'_, S>,
    procedure: &ProcCode,
    tx: &Tx,
    time: i64,
) -> Result<Ran, NoMemory>
    requires declared { S.declared ground.now.source.now ≡ ground.now.tables.now }
    requires fit { TablesFit ground.now.tables.now (S.tables ground.now.source.now) }
    ensures { IfOk result (λ r. r ≡ ran ground.now.tables.now (S.tables ground.now.source.now) (do_all ground.now.tables.now ground.now.columns.now (S.tables ground.now.source.now) procedure.now.body (begin procedure.now tx.now.args time))) }
{
    let mut run = begin(ground.alloc, procedure, tx.args.as_slice(), time)?;
    let ended = ground.perform_all(&mut run, procedure.body.as_slice());
    gives(ground.alloc, run, ended)
}

/// The run of a call on tables whose rows fit.
pub fn run_directly<S: Snapshot>(
    alloc: Global,
    app: &Arc<Checked>,
    tx: &Tx,
    time: i64,
    source: &S,
) -> Result<Ran, NoMemory>
    requires declared { S.declared source.now ≡ tables_of app.now.value.app }
    requires fit { TablesFit (tables_of app.now.value.app) (S.tables source.now) }
    ensures { IfOk result (λ r. r ≡ run app.now.value.app tx.now time (S.tables source.now)) }
{
    let code = app.code();
    let Some(procedure) = procedure_of(code, &tx.procedure) else {
        return Ok(no_run(alloc));
    };
    if !accepts(procedure.params.as_slice(), tx.args.as_slice()) {
        return Ok(no_run(alloc));
    }
    let ground = Ground {
        alloc,
        tables: app.tables(),
        columns: &code.columns,
        source,
    };
    run_procedure(&ground, procedure, tx, time)
}
