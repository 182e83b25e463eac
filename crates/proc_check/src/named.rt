//! Declared names.

ghost use Rattle.std.specs.Prelude.{◌≡◌, []};
ghost use Rattle.proc_syntax.specs.declared.tree.Named.{Named};
ghost use Rattle.proc_check.specs.Walk.{refuse, fresh, has_name, in_order, found};

use crate::fault::{Bad, BadKind};
use proc_syntax::{ColumnText, Named, ProcDef, TableText};
use rel_base::Name;

/// A part of an application that has a name.
pub trait HasName {
    ghost named: { Self → Named };

    /// The name, and its line.
    fn named(&self) -> &Named
        ensures { result.now ≡ named self.now };
}

impl HasName for Named {
    ghost named = { λ a. a };

    fn named(&self) -> &Named {
        self
    }
}

impl HasName for ColumnText {
    ghost named = { λ a. a.name };

    fn named(&self) -> &Named {
        &self.name
    }
}

impl HasName for TableText {
    ghost named = { λ a. a.name };

    fn named(&self) -> &Named {
        &self.name
    }
}

impl HasName for ProcDef {
    ghost named = { λ a. a.name };

    fn named(&self) -> &Named {
        &self.name
    }
}

/// The fault at a line, where there is one.
pub fn refuse(is_bad: bool, line: u32, kind: BadKind) -> Result<(), Bad>
    ensures { result ≡ refuse is_bad line kind }
{
    if is_bad {
        Err(Bad { line, kind })
    } else {
        Ok(())
    }
}

/// What was found, or else the fault at a line.
pub fn found<T: Copy>(item: Option<T>, line: u32, kind: BadKind) -> Result<T, Bad>
    ensures { result ≡ found item line kind }
{
    match item {
        Some(item) => Ok(item),
        None => Err(Bad { line, kind }),
    }
}

/// Whether one of the items has the name.
pub fn has_name<T: HasName>(items: &[T], name: &Name) -> bool
    ensures { result ≡ has_name T.named items.now name.now }
{
    for item in items {
        if item.named().name.as_str() == name.as_str() {
            return true;
        }
    }
    false
}

/// An item that is declared: not one more than there may be, and of another name than those before it.
pub fn check_fresh<T: HasName>(most: usize, before: &[T], item: &T) -> Result<(), Bad>
    ensures { result ≡ fresh T.named most before.now item.now }
{
    let named = item.named();
    refuse(before.len() >= most, named.line, BadKind::Limit)?;
    refuse(
        has_name(before, &named.name),
        named.line,
        BadKind::NameTwice,
    )
}

/// Items that are declared in their order.
pub fn check_all_fresh<T: HasName>(most: usize, items: &[T]) -> Result<(), Bad>
    ensures { result ≡ in_order (fresh T.named most) [] items.now }
{
    for i in 0..items.len() {
        check_fresh(most, &items[..i], &items[i])?;
    }
    Ok(())
}
