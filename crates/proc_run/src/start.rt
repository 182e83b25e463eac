//! Calls before their first step.

ghost use Rattle.std.specs.Prelude.{◌≡◌, [], List, Option, None, IfOk, OnOk, map, replicate, slice_get};
ghost use Rattle.std.specs.List.{find};
ghost use Rattle.std.specs.Option.{option_and_then};
ghost use Rattle.std.specs.Str.{bytes_eq};
ghost use Rattle.rel_base.specs.Tables.{Tables};
ghost use Rattle.rel_base.specs.declared.schema.TableDef.{TableDef as Def};
ghost use Rattle.row_sets.specs.Overlay.{AreFound};
ghost use Rattle.proc_syntax.specs.Values.{have_kinds};
ghost use Rattle.proc_syntax.specs.declared.run.Stop.TheVariants as stop;
ghost use Rattle.proc_code.specs.Coded.{begin, given};
ghost use Rattle.proc_run.specs.declared.state.Phase.TheVariants as phase;
ghost use Rattle.proc_run.specs.Remains.{state};
ghost use Rattle.proc_run.specs.MachineView.{IsBegun};

use crate::state::{Phase, Run};
use crate::variables::put;
use proc_code::calls::{accepts, number_of};
use proc_code::slots::Environment;
use proc_code::{AppCode, Param, ProcCode};
use proc_syntax::{Binding, Stop, Tx};
use rel_base::{List, Name, NoMemory, Twin, Value};
use row_sets::Overlay;
use std::alloc::Global;

/// Room for the four reads of a call that changes two rows, and for the two that are reserved before the next.
const READS: usize = 6;

/// A call before its first step: the number of its procedure, how the run stands, and what it has.
#[derive(Drop)]
pub struct BegunCall {
    pub number: usize,
    pub phase: Phase,
    pub run: Run,
}

/// Variables that stand for nothing yet.
fn no_bindings(alloc: Global, slots: usize) -> Result<List<Option<Binding>>, NoMemory>
    ensures { IfOk result (λ list. list ≡ replicate slots None) }
{
    let mut list = Vec::with_capacity(alloc, slots)?;
    for _i in 0..slots {
        list.push(None)?;
    }
    Ok(List::from_vec(list))
}

/// The parameters stand for the arguments from now on.
fn give(
    alloc: Global,
    slots: &mut List<Option<Binding>>,
    params: &[Param],
    values: &[Value],
) -> Result<(), NoMemory>
    ensures { OnOk result (slots.new ≡ given slots.old params.now values.now) }
{
    match (params.split_first(), values.split_first()) {
        (Some((param, params)), Some((value, values))) => {
            let value = value.copy(alloc)?;
            put(slots, param.slot, Binding::Plain(value));
            give(alloc, slots, params, values)
        }
        _ => Ok(()),
    }
}

/// What a run has at its begin.
fn begin(alloc: Global, procedure: &ProcCode, values: &[Value], now: i64) -> Result<Run, NoMemory>
    ensures state { IfOk result (λ run. state run ≡ begin procedure.now values.now now) }
    ensures steps { IfOk result (λ run. run.steps ≡ 0) }
    ensures made { IfOk result (λ run. run.made.items ≡ []) }
    ensures found { IfOk result (λ run. (declared : List Def) (tables : Tables) → AreFound declared tables run.own) }
{
    let mut slots = no_bindings(alloc, procedure.slots)?;
    give(alloc, &mut slots, procedure.params.as_slice(), values)?;
    Ok(Run {
        environment: Environment { slots, time: now },
        own: Overlay::new(alloc),
        made: Vec::with_capacity(alloc, READS)?,
        steps: 0,
    })
}

/// A call that can not begin. Its run has no read, and is ill typed.
fn no_call(alloc: Global, now: i64) -> BegunCall
    ensures stopped { result.phase ≡ phase.Stopped stop.IllTyped }
    ensures made { result.run.made.items ≡ [] }
    ensures steps { result.run.steps ≡ 0 }
    ensures found { (declared : List Def) (tables : Tables) → AreFound declared tables result.run.own }
{
    BegunCall {
        number: 0,
        phase: Phase::Stopped(Stop::IllTyped),
        run: Run {
            environment: Environment {
                slots: List::new(alloc),
                time: now,
            },
            own: Overlay::new(alloc),
            made: Vec::new(alloc),
            steps: 0,
        },
    }
}

/// A call before its first step, at a time. A call of no procedure, or with arguments that do not fit, has stopped at once.
pub fn begin_call(alloc: Global, code: &AppCode, tx: &Tx, now: i64) -> Result<BegunCall, NoMemory>
    ensures { IfOk result (λ begun. IsBegun code.now tx.now now begun.number begun.phase begun.run) }
{
    let Some(number) = number_of(code.procs.as_slice(), &tx.procedure) else {
        return Ok(no_call(alloc, now));
    };
    let Some(procedure) = code.procs.get(number) else {
        return Ok(no_call(alloc, now));
    };
    if !accepts(procedure.params.as_slice(), tx.args.as_slice()) {
        return Ok(no_call(alloc, now));
    }
    let run = begin(alloc, procedure, tx.args.as_slice(), now)?;
    Ok(BegunCall {
        number,
        phase: Phase::Running,
        run,
    })
}
