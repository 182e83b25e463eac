//! Calls whose procedures go over rows in loops.

use proc_syntax::{Block, ProcDef, Stmt};
use rel_base::Name;

// Whether a statement of a block is a loop, or has one within.
#[cycle(loops)]
fn is_in_block(stmts: &[Stmt]) -> bool {
    for stmt in stmts {
        if is_in_stmt(stmt) {
            return true;
        }
    }
    false
}

// Whether a statement is a loop, or has one within.
#[cycle(loops)]
fn is_in_stmt(stmt: &Stmt) -> bool {
    match stmt {
        Stmt::For { .. } => true,
        Stmt::If { then, other, .. } => {
            if is_in_block(then.as_slice()) {
                return true;
            }
            match other {
                None => false,
                Some(other) => is_in_block(other.as_slice()),
            }
        }
        Stmt::Get { found, absent, .. } => {
            if is_in_block(found.as_slice()) {
                return true;
            }
            is_in_block(absent.as_slice())
        }
        _ => false,
    }
}

// Whether a call of a block names a procedure.
fn is_called_in(block: &Block, name: &Name) -> bool {
    for tx in block.txs.as_slice() {
        if tx.procedure.as_str() == name.as_str() {
            return true;
        }
    }
    false
}

// Whether a call of the blocks names a procedure.
fn is_called(blocks: &[Block], name: &Name) -> bool {
    for block in blocks {
        if is_called_in(block, name) {
            return true;
        }
    }
    false
}

/// Whether a call of the blocks names a procedure that has a loop.
///
/// It is a guess of which calls take long enough to be handed to another thread. No answer depends on it, so nothing is promised of it.
pub fn call_loops(procedures: &[ProcDef], blocks: &[Block]) -> bool {
    for procedure in procedures {
        if is_in_block(procedure.body.as_slice()) && is_called(blocks, &procedure.name.name) {
            return true;
        }
    }
    false
}
