//! The names that are in scope, and what they stand for.

ghost use Rattle.std.specs.Prelude.{◌≡◌, ◌-◌, ◌++◌, ◌∷◌, [], length, take, List, IfOk, OnOk, OnErr};
ghost use Rattle.std.specs.BTreeMap.{IsUnchanged, get};
ghost use Rattle.std.specs.Cmp.Lexicographic.{slice_cmp};
ghost use Rattle.std.specs.Ordering.{nat_cmp};
ghost use Rattle.proc_check.specs.Places.{HasPlaces};
ghost use Rattle.proc_check.specs.Scope.{look_up, variable_of, new_name, value_kind, row_table};
ghost use Rattle.proc_check.specs.Scope.{sort_kind, sort_table};

use crate::fault::{Bad, BadKind};
use crate::named::{found, refuse};
use proc_syntax::Named;
use rel_base::{Kind, Name, NoMemory, Twin};
use std::alloc::Global;
use std::collections::BTreeMap;
use std::marker::Model;

/// What a name stands for.
#[derive(Clone, Copy, PartialEq, Eq)]
pub enum Sort {
    /// A value of a kind.
    Value(Kind),
    /// A row of the table of a number.
    Row(usize),
}

/// A name in scope.
#[derive(Drop)]
pub struct Variable {
    pub name: Name,
    pub sort: Sort,
}

/// The variable of a name.
pub fn variable_of(alloc: Global, name: &Named, sort: Sort) -> Result<Variable, NoMemory>
    ensures { IfOk result (λ made. made ≡ variable_of name.now sort) }
{
    Ok(Variable {
        name: name.name.copy(alloc)?,
        sort,
    })
}

/// The names in scope, the outermost first. An ordered map has the place of each, so that a name is looked up in a number of steps
/// that grows as the logarithm.
#[derive(Drop)]
pub struct Scope {
    variables: Vec<Variable>,
    places: BTreeMap<Name, usize>,
}

impl Model for Scope {
    ghost use Rattle.std.specs.Prelude.{List};
    ghost use Rattle.proc_check.specs.Places.{HasPlaces};
    ghost use Rattle.proc_check.specs.declared.scope.Variable.{Variable};

    ghost Value = { List Variable };

    ghost view = { λ a. a.variables.items };

    ghost invariant = { λ a. HasPlaces a.places a.variables.items };
}

/// The place that a map has for a name.
fn place_of(places: &BTreeMap<Name, usize>, name: &Name) -> Option<usize>
    ensures { result ≡ get (slice_cmp nat_cmp) places.now name.now }
{
    places.get(name).copied()
}

/// Notes the place of one more variable, unless there is one of its name before it.
fn note(
    alloc: Global,
    places: &mut BTreeMap<Name, usize>,
    variable: &Variable,
    place: usize,
) -> Result<(), NoMemory>
    ensures more { OnOk result ((before : List Variable) → length before ≡ place → HasPlaces places.old before → HasPlaces places.new (before ++ variable.now ∷ [])) }
    ensures same { OnErr result (IsUnchanged places.old places.new) }
{
    if places.contains_key(&variable.name) {
        return Ok(());
    }
    let name = variable.name.copy(alloc)?;
    places.insert(name, place)?;
    Ok(())
}

/// Forgets the place of the last variable, unless there is one of its name before it.
fn forget(places: &mut BTreeMap<Name, usize>, last: &Variable, place: usize)
    ensures { (before : List Variable) → length before ≡ place → HasPlaces places.old (before ++ last.now ∷ []) → HasPlaces places.new before }
{
    if let Some(first) = place_of(places, &last.name) {
        if first == place {
            let _ = places.remove(&last.name);
        }
    }
}

/// The kind of what must be a value.
fn sort_kind(line: u32, sort: Sort) -> Result<Kind, Bad>
    ensures { result ≡ sort_kind line sort }
{
    match sort {
        Sort::Value(kind) => Ok(kind),
        Sort::Row(_) => Err(Bad {
            line,
            kind: BadKind::WrongKind,
        }),
    }
}

/// The number of the table of what must be a row.
fn sort_table(line: u32, sort: Sort) -> Result<usize, Bad>
    ensures { result ≡ sort_table line sort }
{
    match sort {
        Sort::Value(_) => Err(Bad {
            line,
            kind: BadKind::WrongKind,
        }),
        Sort::Row(table) => Ok(table),
    }
}

impl Scope {
    /// Nothing in scope.
    pub fn new(alloc: Global) -> Scope
        ensures { result ≡ [] }
    {
        Scope {
            variables: Vec::new(alloc),
            places: BTreeMap::new(alloc),
        }
    }

    /// The number of names.
    pub fn len(&self) -> usize
        ensures { result ≡ length self.now }
    {
        self.variables.len()
    }

    /// What a name stands for, where it is in scope.
    pub fn look_up(&self, name: &Name) -> Option<Sort>
        ensures { result ≡ look_up self.now name.now }
    {
        match place_of(&self.places, name) {
            None => None,
            Some(place) => Some(self.variables[place].sort),
        }
    }

    /// Brings a name into scope.
    pub fn enter(&mut self, alloc: Global, variable: Variable) -> Result<(), NoMemory>
        ensures ok { OnOk result (self.new ≡ self.old ++ variable ∷ []) }
        ensures err { OnErr result (self.new ≡ self.old) }
    {
        // Room first, so that nothing has to be taken back where memory is wanting.
        self.variables.reserve(1)?;
        note(alloc, &mut self.places, &variable, self.variables.len())?;
        self.variables.push_reserved(variable);
        Ok(())
    }

    // Takes the innermost name out of scope.
    fn leave_last(&mut self)
        ensures { self.new ≡ take (length self.old - 1) self.old }
    {
        if let Some(last) = self.variables.pop() {
            forget(&mut self.places, &last, self.variables.len());
        }
    }

    /// Leaves the names in scope that were there first, as many as are given.
    pub fn leave(&mut self, count: usize)
        ensures { self.new ≡ take count self.old }
    {
        for _ in count..self.len() {
            self.leave_last();
        }
    }

    /// Checks a name that comes into scope, of which nothing may be in scope yet.
    pub fn new_name(&self, name: &Named) -> Result<(), Bad>
        ensures { result ≡ new_name self.now name.now }
    {
        refuse(
            self.look_up(&name.name).is_some(),
            name.line,
            BadKind::NameTwice,
        )
    }

    /// The kind of the value for which a name stands.
    pub fn value_kind(&self, name: &Named) -> Result<Kind, Bad>
        ensures { result ≡ value_kind self.now name.now }
    {
        let sort = found(self.look_up(&name.name), name.line, BadKind::UnknownName)?;
        sort_kind(name.line, sort)
    }

    /// The number of the table of whose rows a name stands for one.
    pub fn row_table(&self, name: &Named) -> Result<usize, Bad>
        ensures { result ≡ row_table self.now name.now }
    {
        let sort = found(self.look_up(&name.name), name.line, BadKind::UnknownName)?;
        sort_table(name.line, sort)
    }
}
