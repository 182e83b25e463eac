//! The transactions of a load, one after another.

ghost use Rattle.std.specs.Prelude.{IfOk, OnOk, IsTrue, ◌+◌, ◌<◌, ◌^◌, ◌≡◌, ◌≤◌};
ghost use Rattle.load_gen.specs.Calling.{procedure_of};
ghost use Rattle.load_gen.specs.Drawing.{steps};
ghost use Rattle.load_gen.specs.Transactions.{block_at, draws_of, drawn_tx, height_at, id_of, load_tx, opening_tx, state_before};
ghost use Rattle.rel_base.specs.Text.{has_id_form, has_name_form};

use crate::calls::{CallKind, amount, arguments, owner};
use crate::draws::Draws;
use proc_syntax::Tx;
use rel_base::{Id, List, Name, NameFault, NoMemory, Row};
use std::alloc::Global;

/// The number of the first transaction that is drawn.
pub const FIRST_DRAWN: u64 = 65;

/// An id of the right form.
fn id_from(alloc: Global, text: &str) -> Result<Id, NoMemory>
    requires { IsTrue (has_id_form text.now) }
    ensures { IfOk result (λ made. made ≡ text.now) }
{
    match Id::new(alloc, text) {
        Ok(id) => Ok(id),
        Err(NameFault::NoMemory) => Err(NoMemory),
        Err(NameFault::Bad) => unreachable!(),
    }
}

/// `l` and a number.
fn id_of(alloc: Global, number: u64) -> Result<Id, NoMemory>
    requires { number < 2 ^ 32 }
    ensures { IfOk result (λ made. made ≡ id_of number) }
{
    let text = format!(in alloc; "l{number}")?;
    id_from(alloc, text.as_str())
}

/// A name of the right form.
fn name_from(alloc: Global, text: &str) -> Result<Name, NoMemory>
    requires { IsTrue (has_name_form text.now) }
    ensures { IfOk result (λ made. made ≡ text.now) }
{
    match Name::new(alloc, text) {
        Ok(name) => Ok(name),
        Err(NameFault::NoMemory) => Err(NoMemory),
        Err(NameFault::Bad) => unreachable!(),
    }
}

/// The transaction that makes the account of its number, of one of eight owners.
pub fn opening_tx(alloc: Global, number: u32) -> Result<Tx, NoMemory>
    ensures { IfOk result (λ made. made ≡ opening_tx number) }
{
    let name = owner(alloc, number % 8)?;
    let values = vec![in alloc; amount(number), name, amount(100)]?;
    Ok(Tx {
        id: id_of(alloc, u64::from(number))?,
        height: 0,
        procedure: name_from(alloc, "add")?,
        args: Row::new(List::from_vec(values))?,
    })
}

/// The number of the block in which a drawn transaction stands.
fn block_at(number: u64) -> u64
    requires { 65 ≤ number }
    ensures { result ≡ block_at number }
{
    (number - FIRST_DRAWN) / 50 + 2
}

/// The height of a transaction of a block: the block before, or as far back as is said, but none before the first.
fn height_at(block: u64, back: u32) -> u64
    ensures { result ≡ height_at block back }
{
    block
        .saturating_sub(1)
        .saturating_sub(u64::from(back))
        .max(1)
}

/// A transaction, by its draws.
fn drawn_tx(alloc: Global, number: u64, draws: &mut Draws) -> Result<Tx, NoMemory>
    requires from { 65 ≤ number }
    requires to { number < 2 ^ 32 }
    ensures tx { IfOk result (λ made. made ≡ drawn_tx number draws.old.state) }
    ensures moved { OnOk result (draws.new.state ≡ steps (draws_of draws.old.state) draws.old.state) }
{
    let kind = CallKind::of(draws.draw(10));
    let args = arguments(alloc, kind, draws)?;
    let back = draws.draw(3);
    Ok(Tx {
        id: id_of(alloc, number)?,
        height: height_at(block_at(number), back),
        procedure: name_from(alloc, kind.procedure())?,
        args: Row::new(args)?,
    })
}

/// The drawn transactions of the load of a number, from the first on.
#[derive(Drop)]
pub struct Drawn {
    /// The number of the load.
    pub load: u64,
    /// The number of the transaction that comes next.
    pub next: u64,
    /// The draws from there on.
    pub draws: Draws,
    ghost from: { 65 ≤ next },
    ghost in_step: { draws.state ≡ state_before load next },
}

impl Drawn {
    /// From the first drawn transaction on: the number of the load is the state at first.
    pub fn new(load: u64) -> Drawn
        ensures load { result.load ≡ load }
        ensures next { result.next ≡ 65 }
    {
        let draws = Draws { state: load };
        Drawn {
            load,
            next: FIRST_DRAWN,
            draws,
        }
    }

    /// The next transaction. Where memory is wanting, it comes again at the next call.
    pub fn next_tx(&mut self, alloc: Global) -> Result<Tx, NoMemory>
        requires { self.old.next < 2 ^ 32 }
        ensures tx { IfOk result (λ made. made ≡ load_tx self.old.load self.old.next) }
        ensures moved { OnOk result (self.new.next ≡ self.old.next + 1) }
        ensures load { self.new.load ≡ self.old.load }
    {
        let mut draws = self.draws;
        let tx = drawn_tx(alloc, self.next, &mut draws)?;
        *self = Drawn {
            load: self.load,
            next: self.next + 1,
            draws,
        };
        Ok(tx)
    }
}
