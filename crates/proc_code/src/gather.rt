//! The variables of a procedure.

ghost use Rattle.std.specs.Prelude.{◌≡◌, IfOk, OnOk, map};
ghost use Rattle.proc_code.specs.Numbers.{with_names, joined, bound_names, slots_of};

use crate::numbering::Numbering;
use proc_syntax::{ColumnText, ProcDef, Stmt};
use rel_base::NoMemory;
use std::alloc::Global;

/// Gives numbers to the names that the statements of a block bind.
#[cycle(gather)]
#[tactic(auto, using(crate::proofs::Numbered::with_both))]
fn gather_block(alloc: Global, stmts: &[Stmt], names: &mut Numbering) -> Result<(), NoMemory>
    ensures { OnOk result (names.new ≡ with_names names.old (joined (map bound_names stmts.now))) }
{
    for stmt in stmts {
        gather_stmt(alloc, stmt, names)?;
    }
    Ok(())
}

/// Gives numbers to the names that a statement binds.
#[cycle(gather)]
#[tactic(auto, using(crate::proofs::Numbered::with_both))]
fn gather_stmt(alloc: Global, stmt: &Stmt, names: &mut Numbering) -> Result<(), NoMemory>
    ensures { OnOk result (names.new ≡ with_names names.old (bound_names stmt.now)) }
{
    match stmt {
        Stmt::Let { name, .. } => names.add(alloc, &name.name),
        Stmt::Assign { name, .. } => names.add(alloc, &name.name),
        Stmt::If { then, other, .. } => {
            gather_block(alloc, then.as_slice(), names)?;
            match other {
                None => Ok(()),
                Some(other) => gather_block(alloc, other.as_slice(), names),
            }
        }
        Stmt::Get {
            name,
            found,
            absent,
            ..
        } => {
            names.add(alloc, &name.name)?;
            gather_block(alloc, found.as_slice(), names)?;
            gather_block(alloc, absent.as_slice(), names)
        }
        Stmt::For { name, body, .. } => {
            names.add(alloc, &name.name)?;
            gather_block(alloc, body.as_slice(), names)
        }
        Stmt::Insert { .. } => Ok(()),
        Stmt::Update { .. } => Ok(()),
        Stmt::Delete { .. } => Ok(()),
        Stmt::Fail { .. } => Ok(()),
    }
}

/// Gives numbers to the names of parameters.
fn gather_params(
    alloc: Global,
    params: &[ColumnText],
    names: &mut Numbering,
) -> Result<(), NoMemory>
    ensures { OnOk result (names.new ≡ with_names names.old (map (λ param. param.name.name) params.now)) }
{
    for param in params {
        names.add(alloc, &param.name.name)?;
    }
    Ok(())
}

/// The names of a procedure's variables.
#[tactic(auto, using(crate::proofs::Numbered::with_both))]
pub fn slots_of(alloc: Global, procedure: &ProcDef) -> Result<Numbering, NoMemory>
    ensures { IfOk result (λ names. names ≡ slots_of procedure.now) }
{
    let mut names = Numbering::new(alloc);
    gather_params(alloc, procedure.params.as_slice(), &mut names)?;
    gather_block(alloc, procedure.body.as_slice(), &mut names)?;
    Ok(names)
}
