//! Calls: the procedure of a name, and whether it takes its arguments.

ghost use Rattle.std.specs.Prelude.{◌≡◌, map, slice_get};
ghost use Rattle.std.specs.List.{find};
ghost use Rattle.std.specs.Option.{option_and_then};
ghost use Rattle.std.specs.Str.{bytes_eq};
ghost use Rattle.proc_syntax.specs.Values.{have_kinds};

use crate::tree::{Param, ProcCode};
use proc_eval::fit::has_kind;
use rel_base::{Name, Value};

/// The number of the first procedure of a name.
pub fn number_of(procs: &[ProcCode], name: &Name) -> Option<usize>
    ensures { option_and_then (slice_get procs.now) result ≡ find (λ procedure. bytes_eq procedure.name name.now) procs.now }
{
    for (i, procedure) in procs.iter().enumerate() {
        if procedure.name.as_str() == name.as_str() {
            return Some(i);
        }
    }
    None
}

/// Whether there is one argument of its kind for each parameter.
pub fn accepts(params: &[Param], values: &[Value]) -> bool
    ensures { result ≡ have_kinds (map (λ param. param.kind) params.now) values.now }
{
    match (params.split_first(), values.split_first()) {
        (None, None) => true,
        (Some((param, params)), Some((value, values))) => has_kind(param.kind, value)
            && accepts(params, values),
        _ => false,
    }
}
