//! Where a run stands in the blocks of a procedure: a path of numbers, so that a machine borrows nothing.

ghost use Rattle.std.specs.Prelude.{◌≡◌};
ghost use Rattle.proc_run.specs.Path.{block_of, body_at, part_of};

use proc_code::{Action, AppCode};
use rel_base::{List, Row, TableDef};

/// A block of a statement, or the block itself in which the statement stands.
#[derive(Clone, Copy, Debug, PartialEq, Eq)]
pub enum Branch {
    Whole,
    /// The block of an `if` whose test holds, that of a `get` whose key has a row, or the body of a `for`.
    First,
    /// The other block of an `if` or of a `get`.
    Second,
}

/// One step of the path. A statement is given by its number in the block of the step before.
#[derive(Drop)]
pub enum Spot {
    /// A block of a statement, with the number of the block's statement that is next.
    Block {
        at: usize,
        branch: Branch,
        next: usize,
    },
    /// A block of a statement of which nothing is left. It stands on the path because its last statement does.
    Done {
        at: usize,
        branch: Branch,
    },
    /// The rows of a `for`, with the number of the row that is next. Each row goes into a variable.
    Loop {
        at: usize,
        slot: usize,
        table: u32,
        rows: List<Row>,
        next: usize,
    },
}

/// The statements of a procedure, with the tables that are declared and the columns that are named.
#[derive(Clone, Copy)]
pub struct Program<'a> {
    pub tables: &'a List<TableDef>,
    pub columns: &'a List<List<Option<usize>>>,
    pub root: &'a [Action],
}

/// Where a run stands in a block: that of the statement of a number, and the number of its own statement that is next.
#[derive(Clone, Copy)]
pub struct Cursor {
    pub at: usize,
    pub branch: Branch,
    pub next: usize,
}

/// The statement of a number, whose variable holds a row of a table.
#[derive(Clone, Copy)]
pub struct Holder {
    pub at: usize,
    pub slot: usize,
    pub table: u32,
}

/// The rows of a `for`, with the number of the row that is next.
#[derive(Drop)]
pub struct RowsLeft {
    pub rows: List<Row>,
    pub next: usize,
}

/// The statements of a procedure, by its number.
pub fn body_at(code: &AppCode, number: usize) -> &[Action]
    ensures { result.now ≡ body_at code.now number }
{
    match code.procs.get(number) {
        None => &[],
        Some(procedure) => procedure.body.as_slice(),
    }
}

/// A block of the statement of a number.
pub fn part<'a>(block: &'a [Action], at: usize, branch: Branch) -> &'a [Action]
    ensures { result.now ≡ part_of block.now at branch }
{
    match (branch, block.get(at)) {
        (Branch::Whole, _) => block,
        (Branch::First, Some(Action::If { then, .. })) => then.as_slice(),
        (Branch::First, Some(Action::Get { found, .. })) => found.as_slice(),
        (Branch::First, Some(Action::For { body, .. })) => body.as_slice(),
        (Branch::Second, Some(Action::If { other, .. })) => other.as_slice(),
        (Branch::Second, Some(Action::Get { absent, .. })) => absent.as_slice(),
        _ => &[],
    }
}

/// The block to which a path leads.
pub fn block_at<'a>(root: &'a [Action], spots: &[Spot]) -> &'a [Action]
    ensures { result.now ≡ block_of root.now spots.now }
{
    let mut block = root;
    for spot in spots {
        block = match spot {
            Spot::Block { at, branch, .. } => part(block, *at, *branch),
            Spot::Done { at, branch } => part(block, *at, *branch),
            Spot::Loop { .. } => block,
        };
    }
    block
}
