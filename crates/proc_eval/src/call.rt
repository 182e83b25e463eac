//! Calls of procedures.

ghost use Rattle.std.specs.Prelude.{◌≡◌, map};
ghost use Rattle.std.specs.Option.{option_copied};
ghost use Rattle.proc_syntax.specs.Values.{have_kinds};
ghost use Rattle.proc_syntax.specs.Run.{procedure_named, takes};
ghost use Rattle.proc_syntax.specs.Call.{call_fault};

use crate::fit::has_kind;
use proc_syntax::{App, CallFault, ColumnText, ProcDef, Tx};
use rel_base::{Name, Value};

/// The first procedure of a name.
pub fn procedure_named<'a>(app: &'a App, name: &Name) -> Option<&'a ProcDef>
    ensures { option_copied result ≡ procedure_named app.now name.now }
{
    for procedure in app.procs.as_slice() {
        if procedure.name.name.as_str() == name.as_str() {
            return Some(procedure);
        }
    }
    None
}

/// Whether there is one value of its kind for each parameter, in order.
pub fn fit_params(params: &[ColumnText], values: &[Value]) -> bool
    ensures { result ≡ have_kinds (map (λ param. param.kind) params.now) values.now }
{
    match (params.split_first(), values.split_first()) {
        (None, None) => true,
        (Some((param, params)), Some((value, values))) => has_kind(param.kind, value)
            && fit_params(params, values),
        _ => false,
    }
}

/// Whether a procedure takes some arguments.
pub fn takes(procedure: &ProcDef, values: &[Value]) -> bool
    ensures { result ≡ takes procedure.now values.now }
{
    fit_params(procedure.params.as_slice(), values)
}

/// Why a transaction's call can not begin: no procedure has its name, or the first one that has it does not take its arguments.
pub fn call_fault(app: &App, tx: &Tx) -> Option<CallFault>
    ensures { result ≡ call_fault app.now tx.now }
{
    match procedure_named(app, &tx.procedure) {
        None => Some(CallFault::UnknownProcedure),
        Some(procedure) => {
            if takes(procedure, tx.args.as_slice()) {
                None
            } else {
                Some(CallFault::BadArguments)
            }
        }
    }
}
