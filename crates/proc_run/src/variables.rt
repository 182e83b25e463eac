//! What variables stand for. A number is written over a number, and a row changes places with a row, so that little is moved and
//! nothing is let go.

ghost use Rattle.std.specs.Prelude.{◌≡◌, ◌<◌, Some, true, false, slice_set, vec_len};
ghost use Rattle.rel_base.specs.declared.value.Value.TheVariants.{Int};
ghost use Rattle.proc_syntax.specs.declared.run.Binding.TheVariants.{Plain, Held};

use crate::path::Holder;
use proc_syntax::Binding;
use rel_base::{List, Row, Value};
use std::alloc::Global;
use std::mem::{forget, replace, swap};

/// A variable stands for something from now on.
#[inline(always)]
pub fn put(slots: &mut List<Option<Binding>>, slot: usize, binding: Binding)
    ensures { slots.new ≡ slice_set slots.old slot (Some binding) }
{
    if slot < slots.len() {
        drop(slots.replace(slot, Some(binding)));
    } else {
        drop(binding);
    }
}

/// A variable holds a row of its table from now on.
pub fn hold(slots: &mut List<Option<Binding>>, holder: Holder, row: Row)
    ensures { slots.new ≡ slice_set slots.old holder.slot (Some (Held holder.table row)) }
{
    let Holder { slot, table, .. } = holder;
    put(slots, slot, Binding::Held { table, row });
}

/// The variables, to be changed in their places. What stands for them meanwhile has no memory.
fn lend(alloc: Global, slots: &mut List<Option<Binding>>) -> Vec<Option<Binding>>
    ensures { result.items ≡ slots.old }
{
    replace(slots, List::new(alloc)).into_vec()
}

/// Takes variables back that were lent. What stood for them had no memory, so nothing has to be let go.
fn take_back(slots: &mut List<Option<Binding>>, variables: Vec<Option<Binding>>)
    ensures { slots.new ≡ variables.items }
{
    forget(replace(slots, List::from_vec(variables)));
}

/// A variable is a number from now on.
fn be_number(variable: &mut Option<Binding>, number: i64)
    ensures { variable.new ≡ Some (Plain (Int number)) }
{
    match variable {
        Some(Binding::Plain(Value::Int(old))) => *old = number,
        _ => *variable = Some(Binding::Plain(Value::Int(number))),
    }
}

/// The variable of a number is a number from now on.
fn number_at(variables: &mut Vec<Option<Binding>>, slot: usize, number: i64)
    requires { slot < vec_len variables.old }
    ensures { variables.new.items ≡ slice_set variables.old.items slot (Some (Plain (Int number))) }
{
    be_number(&mut variables[slot], number);
}

/// A variable is a number from now on.
#[inline(always)]
pub fn put_number(alloc: Global, slots: &mut List<Option<Binding>>, slot: usize, number: i64)
    ensures { slots.new ≡ slice_set slots.old slot (Some (Plain (Int number))) }
{
    if slot < slots.len() {
        let mut variables = lend(alloc, slots);
        number_at(&mut variables, slot, number);
        take_back(slots, variables);
    }
}

/// A row that is held changes places with another. Whether one is held.
fn change_held(binding: &mut Binding, table: u32, row: &mut Row) -> bool
    ensures done { result ≡ true → binding.new ≡ Held table row.old }
    ensures none { result ≡ false → binding.new ≡ binding.old }
    ensures row { result ≡ false → row.new ≡ row.old }
{
    match binding {
        Binding::Plain(_) => false,
        Binding::Held {
            table: of,
            row: held,
        } => {
            *of = table;
            swap(held, row);
            true
        }
    }
}

/// The row that a variable holds changes places with another. Whether it holds one.
fn change_places(variable: &mut Option<Binding>, table: u32, row: &mut Row) -> bool
    ensures done { result ≡ true → variable.new ≡ Some (Held table row.old) }
    ensures none { result ≡ false → variable.new ≡ variable.old }
    ensures row { result ≡ false → row.new ≡ row.old }
{
    match variable {
        None => false,
        Some(binding) => change_held(binding, table, row),
    }
}

/// The same of the variable of a number.
fn change_at(variables: &mut Vec<Option<Binding>>, slot: usize, table: u32, row: &mut Row) -> bool
    requires { slot < vec_len variables.old }
    ensures done { result ≡ true → variables.new.items ≡ slice_set variables.old.items slot (Some (Held table row.old)) }
    ensures none { result ≡ false → variables.new.items ≡ variables.old.items }
    ensures row { result ≡ false → row.new ≡ row.old }
{
    change_places(&mut variables[slot], table, row)
}

/// A variable that holds a row holds another from now on, with which it changes places. Whether it was so.
#[inline(always)]
pub fn exchange(
    alloc: Global,
    slots: &mut List<Option<Binding>>,
    holder: Holder,
    row: &mut Row,
) -> bool
    ensures done { result ≡ true → slots.new ≡ slice_set slots.old holder.slot (Some (Held holder.table row.old)) }
    ensures none { result ≡ false → slots.new ≡ slots.old }
    ensures row { result ≡ false → row.new ≡ row.old }
{
    if holder.slot >= slots.len() {
        return false;
    }
    let mut variables = lend(alloc, slots);
    let done = change_at(&mut variables, holder.slot, holder.table, row);
    take_back(slots, variables);
    done
}
