//! A run before its first step.

ghost use Rattle.std.specs.Prelude.{◌≡◌, IfOk, List, None, OnOk, replicate};
ghost use Rattle.rel_base.specs.declared.schema.TableDef.{TableDef as Def};
ghost use Rattle.rel_base.specs.Tables.{Tables};
ghost use Rattle.row_sets.specs.Overlay.{AreFound};
ghost use Rattle.proc_code.specs.Coded.{begin, given};
ghost use Rattle.direct_run.specs.Runs.{state_of};
ghost use Rattle.direct_run.specs.Scope.{bindings_of};

use crate::scope::{Scope, Slot, put};
use crate::state::Run;
use proc_code::{Param, ProcCode};
use rel_base::{NoMemory, Twin, Value};
use row_sets::Overlay;
use std::alloc::Global;

/// Room for the four reads of a call that changes two rows.
const READS: usize = 4;

/// Variables that stand for nothing yet.
fn no_slots<'a>(alloc: Global, count: usize) -> Result<Vec<Slot<'a>>, NoMemory>
    ensures { IfOk result (λ slots. bindings_of slots.items ≡ replicate count None) }
{
    let mut slots = Vec::with_capacity(alloc, count)?;
    for _i in 0..count {
        slots.push(Slot::Nothing)?;
    }
    Ok(slots)
}

/// The parameters stand for the arguments from now on.
fn give(
    alloc: Global,
    slots: &mut Vec<Slot<'_>>,
    params: &[Param],
    values: &[Value],
) -> Result<(), NoMemory>
    ensures { OnOk result (bindings_of slots.new.items ≡ given (bindings_of slots.old.items) params.now values.now) }
{
    match (params.split_first(), values.split_first()) {
        (Some((param, params)), Some((value, values))) => {
            let value = value.copy(alloc)?;
            put(slots, param.slot, Slot::Plain(value));
            give(alloc, slots, params, values)
        }
        _ => Ok(()),
    }
}

/// What a run has at its begin.
pub fn begin<'a>(
    alloc: Global,
    procedure: &ProcCode,
    values: &[Value],
    time: i64,
) -> Result<Run<'a>, NoMemory>
    ensures state { IfOk result (λ run. state_of run ≡ begin procedure.now values.now time) }
    ensures found { IfOk result (λ run. (declared : List Def) (tables : Tables) → AreFound declared tables run.own) }
{
    let mut slots = no_slots(alloc, procedure.slots)?;
    give(alloc, &mut slots, procedure.params.as_slice(), values)?;
    Ok(Run {
        scope: Scope { slots, time },
        own: Overlay::new(alloc),
        made: Vec::with_capacity(alloc, READS)?,
        steps: 0,
    })
}
