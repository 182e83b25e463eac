//! What variables stand for in a run that the tables lend their rows to.

ghost use Rattle.std.specs.Prelude.{◌≡◌, Some, slice_set};
ghost use Rattle.std.specs.Option.{option_and_then, option_copied};
ghost use Rattle.rel_base.specs.declared.value.Value.TheVariants.{Int};
ghost use Rattle.proc_syntax.specs.Scope.{plain_of};
ghost use Rattle.proc_syntax.specs.declared.run.Binding.TheVariants.{Held, Plain};
ghost use Rattle.proc_code.specs.Coded.{cell_of, in_slot};
ghost use Rattle.direct_run.specs.Scope.{binding_of, bindings_of, environment_of};

use proc_code::slots::{Variables, column_at};
use rel_base::{List, Row, Value};

/// What a variable stands for: a value, or a row of a table, which the tables lend or the variable owns.
#[derive(Drop)]
pub enum Slot<'a> {
    Nothing,
    Plain(Value),
    Lent { table: u32, row: &'a Row },
    Owned { table: u32, row: Row },
}

/// What the expressions of a run are evaluated in: what each variable stands for, by its number, and the time of the run in seconds.
#[derive(Drop)]
pub struct Scope<'a> {
    pub slots: Vec<Slot<'a>>,
    pub time: i64,
}

/// The value of a row in the column of a name, where there is one.
#[inline(always)]
fn cell<'b>(
    columns: &List<List<Option<usize>>>,
    name: usize,
    table: u32,
    row: &'b Row,
) -> Option<&'b Value>
    ensures { option_copied result ≡ cell_of columns.now name (Held table row.now) }
{
    let column = column_at(columns, name, table)?;
    row.get(column)
}

/// The value of what a variable stands for, where it stands for one.
#[inline(always)]
fn plain_in<'b>(slots: &'b [Slot<'_>], slot: usize) -> Option<&'b Value>
    ensures { option_copied result ≡ option_and_then plain_of (in_slot (bindings_of slots.now) slot) }
{
    match slots.get(slot) {
        Some(Slot::Plain(value)) => Some(value),
        _ => None,
    }
}

/// The value of the row that a variable holds, in the column of a name, where there is one.
#[inline(always)]
fn field_in<'b>(
    columns: &List<List<Option<usize>>>,
    slots: &'b [Slot<'_>],
    slot: usize,
    name: usize,
) -> Option<&'b Value>
    ensures { option_copied result ≡ option_and_then (cell_of columns.now name) (in_slot (bindings_of slots.now) slot) }
{
    match slots.get(slot) {
        Some(Slot::Lent { table, row }) => cell(columns, name, *table, *row),
        Some(Slot::Owned { table, row }) => cell(columns, name, *table, row),
        _ => None,
    }
}

impl Variables for Scope<'_> {
    ghost environment = { environment_of };

    #[inline(always)]
    fn plain(&self, slot: usize) -> Option<&Value> {
        plain_in(self.slots.as_slice(), slot)
    }

    #[inline(always)]
    fn field(
        &self,
        columns: &List<List<Option<usize>>>,
        slot: usize,
        name: usize,
    ) -> Option<&Value> {
        field_in(columns, self.slots.as_slice(), slot, name)
    }

    #[inline(always)]
    fn time(&self) -> i64 {
        self.time
    }
}

/// A variable stands for something from now on.
#[inline(always)]
pub fn put<'a>(slots: &mut Vec<Slot<'a>>, slot: usize, held: Slot<'a>)
    ensures { bindings_of slots.new.items ≡ slice_set (bindings_of slots.old.items) slot (binding_of held.entry) }
{
    if slot < slots.len() {
        slots[slot] = held;
    }
}

/// A variable is a number from now on. A number is written over a number.
#[inline(always)]
fn be_number(variable: &mut Slot<'_>, number: i64)
    ensures { binding_of variable.new ≡ Some (Plain (Int number)) }
{
    match variable {
        Slot::Plain(Value::Int(old)) => *old = number,
        _ => *variable = Slot::Plain(Value::Int(number)),
    }
}

/// The variable of a number is a number from now on.
#[inline(always)]
pub fn put_number(slots: &mut Vec<Slot<'_>>, slot: usize, number: i64)
    ensures { bindings_of slots.new.items ≡ slice_set (bindings_of slots.old.items) slot (Some (Plain (Int number))) }
{
    if slot < slots.len() {
        be_number(&mut slots[slot], number);
    }
}
