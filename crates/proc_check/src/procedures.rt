//! The check of procedures.

ghost use Rattle.std.specs.Prelude.{◌≡◌, [], map, IfOk};
ghost use Rattle.proc_check.specs.Apps.{parameter, walk_proc};
ghost use Rattle.proc_check.specs.Gives.{Gives};
ghost use Rattle.proc_check.specs.Walk.{in_order};

use crate::blocks::check_block;
use crate::fault::CheckFault;
use crate::named::{check_all_fresh, check_fresh};
use crate::scope::{Scope, Sort, variable_of};
use proc_syntax::{ColumnText, ProcDef, TableText};
use rel_base::NoMemory;
use std::alloc::Global;

/// The number of procedures that an application may have.
pub const MOST_PROCEDURES: usize = 256;
/// The number of parameters that a procedure may have.
pub const MOST_PARAMETERS: usize = 16;

/// The parameters, each of which stands for a value of its kind.
fn scope_of(alloc: Global, params: &[ColumnText]) -> Result<Scope, NoMemory>
    ensures { IfOk result (λ scope. scope ≡ map parameter params.now) }
{
    let mut scope = Scope::new(alloc);
    for param in params {
        let variable = variable_of(alloc, &param.name, Sort::Value(param.kind))?;
        scope.enter(alloc, variable)?;
    }
    Ok(scope)
}

/// Checks a procedure, after those before it.
fn check_procedure(
    alloc: Global,
    tables: &[TableText],
    before: &[ProcDef],
    procedure: &ProcDef,
) -> Result<(), CheckFault>
    ensures { Gives result (walk_proc tables.now before.now procedure.now) }
{
    check_fresh(MOST_PROCEDURES, before, procedure)?;
    check_all_fresh(MOST_PARAMETERS, procedure.params.as_slice())?;
    let mut scope = scope_of(alloc, procedure.params.as_slice())?;
    check_block(alloc, tables, &mut scope, procedure.body.as_slice())
}

/// Checks the procedures of an application.
pub fn check_procedures(
    alloc: Global,
    tables: &[TableText],
    procedures: &[ProcDef],
) -> Result<(), CheckFault>
    ensures { Gives result (in_order (walk_proc tables.now) [] procedures.now) }
{
    for i in 0..procedures.len() {
        check_procedure(alloc, tables, &procedures[..i], &procedures[i])?;
    }
    Ok(())
}
