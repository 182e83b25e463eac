//! What expressions are evaluated in: what variables stand for, the time, and what the rows that they hold have in a column.

ghost use Rattle.std.specs.Prelude.{◌≡◌};
ghost use Rattle.std.specs.Option.{option_and_then, option_copied};
ghost use Rattle.proc_syntax.specs.Scope.{plain_of};
ghost use Rattle.proc_code.specs.Coded.{in_slot, column_at, cell_of};
ghost use Rattle.proc_code.specs.declared.slots.Environment.{Environment as Surroundings};

use proc_syntax::Binding;
use rel_base::{List, Value};

/// What the expressions of a run are evaluated in: what each variable stands for, by its number, and the time of the run in seconds.
#[derive(Drop)]
pub struct Environment {
    pub slots: List<Option<Binding>>,
    pub time: i64,
}

/// What a variable stands for.
#[inline(always)]
pub fn in_slot<'a>(slots: &'a [Option<Binding>], slot: usize) -> Option<&'a Binding>
    ensures { option_copied result ≡ in_slot slots.now slot }
{
    match slots.get(slot) {
        Some(Some(binding)) => Some(binding),
        _ => None,
    }
}

/// The number that a column of a name, by the name's number, has in a table.
#[inline(always)]
pub fn column_at(columns: &List<List<Option<usize>>>, name: usize, table: u32) -> Option<usize>
    ensures { result ≡ column_at columns.now name table }
{
    let places = columns.get(name)?;
    let column = places.get(table as usize)?;
    *column
}

/// The value of what a variable stands for, in such a column.
#[inline(always)]
fn cell_of<'a>(
    columns: &List<List<Option<usize>>>,
    name: usize,
    binding: &'a Binding,
) -> Option<&'a Value>
    ensures { option_copied result ≡ cell_of columns.now name binding.now }
{
    match binding {
        Binding::Plain(_) => None,
        Binding::Held { table, row } => {
            let column = column_at(columns, name, *table)?;
            row.get(column)
        }
    }
}

/// The value of what a variable stands for, where it stands for one.
#[inline(always)]
pub fn plain_in<'a>(slots: &'a [Option<Binding>], slot: usize) -> Option<&'a Value>
    ensures { option_copied result ≡ option_and_then plain_of (in_slot slots.now slot) }
{
    match in_slot(slots, slot) {
        Some(Binding::Plain(value)) => Some(value),
        _ => None,
    }
}

/// The value of the row that a variable holds, in the column of a name, where there is one.
#[inline(always)]
pub fn field_in<'a>(
    columns: &List<List<Option<usize>>>,
    slots: &'a [Option<Binding>],
    slot: usize,
    name: usize,
) -> Option<&'a Value>
    ensures { option_copied result ≡ option_and_then (cell_of columns.now name) (in_slot slots.now slot) }
{
    match in_slot(slots, slot) {
        None => None,
        Some(binding) => cell_of(columns, name, binding),
    }
}

/// What expressions are evaluated in, however its variables are kept. Contracts see it as an environment.
pub trait Variables {
    ghost environment: { Self → Surroundings };

    /// The value of what a variable stands for, where it stands for one.
    fn plain(&self, slot: usize) -> Option<&Value>
        ensures { option_copied result ≡ option_and_then plain_of (in_slot (environment self.now).slots slot) };

    /// The value of the row that a variable holds, in the column of a name, where there is one.
    fn field(&self, columns: &List<List<Option<usize>>>, slot: usize, name: usize) -> Option<&Value>
        ensures { option_copied result ≡ option_and_then (cell_of columns.now name) (in_slot (environment self.now).slots slot) };

    /// The time of the run in seconds.
    fn time(&self) -> i64
        ensures { result ≡ (environment self.now).time };
}

impl Variables for Environment {
    ghost environment = { λ environment. environment };

    #[inline(always)]
    fn plain(&self, slot: usize) -> Option<&Value> {
        plain_in(self.slots.as_slice(), slot)
    }

    #[inline(always)]
    fn field(
        &self,
        columns: &List<List<Option<usize>>>,
        slot: usize,
        name: usize,
    ) -> Option<&Value> {
        field_in(columns, self.slots.as_slice(), slot, name)
    }

    #[inline(always)]
    fn time(&self) -> i64 {
        self.time
    }
}
