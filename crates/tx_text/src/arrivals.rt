//! The lines of arrival files.

ghost use Rattle.std.specs.Prelude.{◌≡◌, ◌≤◌, ◌∷◌, ◌++◌, OnOk};
ghost use Rattle.std.specs.Option.{option_to_list};
ghost use Rattle.tx_text.specs.Parts.{onto, parts_of};
ghost use Rattle.tx_text.specs.Listing.{ending, items_at, no_item, one_item, walk, with_items, most_lines};
ghost use Rattle.tx_text.specs.Arrivals.{arrivals_form};
ghost use Rattle.tx_text.specs.Taking.{GivesFar, GivesLine};

use crate::held::{copy_of, joined};
use crate::line::{MOST_LINE_BYTES, read_tx};
use crate::split::split_line;
use literals::LiteralFault;
use proc_syntax::Tx;
use rel_base::{List, NoMemory};
use std::alloc::Global;

/// The number of transactions that an arrival file may have.
pub const MOST_ARRIVALS: u64 = 1_000_000;

/// Why a piece of an arrival file gives no transactions.
#[derive(Clone, Copy, Debug, PartialEq, Eq)]
pub enum ArrivalFault {
    /// Memory ran out.
    NoMemory,
    /// The line of this number, from 1, is the first that has a fault.
    Bad { line: u64 },
}

impl From<NoMemory> for ArrivalFault {
    ghost use Rattle.std.specs.Prelude.{◌≡◌};
    ghost use Rattle.tx_text.specs.declared.arrivals.ArrivalFault.TheVariants as fault;

    ghost from_gives = { λ _ e. e ≡ fault.NoMemory };

    fn from(_error: NoMemory) -> ArrivalFault {
        ArrivalFault::NoMemory
    }
}

/// How far bytes go: the transactions of the lines that end in them, and the number and the bytes of the line that does not.
#[derive(Drop)]
pub struct ReadArrivals {
    pub txs: List<Tx>,
    pub line: u64,
    pub held: List<u8>,
}

/// The first line, which gives no transaction.
fn take_header(text: &[u8]) -> Result<Option<Tx>, ArrivalFault>
    ensures { GivesLine result 1 (no_item arrivals_form text.now) }
{
    if text != b"arrivals 1".as_slice() {
        return Err(ArrivalFault::Bad { line: 1 });
    }
    Ok(None)
}

/// A line after the first.
fn take_tx(alloc: Global, line: u64, text: &[u8]) -> Result<Option<Tx>, ArrivalFault>
    ensures taken { GivesLine result line (one_item arrivals_form line text.now) }
    ensures low { OnOk result (line ≤ most_lines) }
{
    if line > MOST_ARRIVALS + 1 {
        return Err(ArrivalFault::Bad { line });
    }
    match read_tx(alloc, text) {
        Ok(tx) => Ok(Some(tx)),
        Err(LiteralFault::NoMemory) => Err(ArrivalFault::NoMemory),
        Err(LiteralFault::Bad) => Err(ArrivalFault::Bad { line }),
    }
}

/// The transaction of a line, if it gives one.
fn take_line(alloc: Global, line: u64, text: &[u8]) -> Result<Option<Tx>, ArrivalFault>
    ensures taken { GivesLine result line (items_at arrivals_form line text.now) }
    ensures low { OnOk result (line ≤ most_lines) }
{
    if text.len() > MOST_LINE_BYTES {
        return Err(ArrivalFault::Bad { line });
    }
    if line == 1 {
        take_header(text)
    } else {
        take_tx(alloc, line, text)
    }
}

/// Puts a transaction, if there is one, at the end of others.
fn push_tx_if(txs: &mut List<Tx>, tx: Option<Tx>) -> Result<(), NoMemory>
    ensures { OnOk result (txs.new ≡ txs.old ++ option_to_list tx) }
{
    if let Some(tx) = tx {
        txs.push(tx)?;
    }
    Ok(())
}

/// A copy of the bytes of a line that has not ended.
fn take_rest(
    alloc: Global,
    txs: List<Tx>,
    line: u64,
    rest: &[u8],
) -> Result<ReadArrivals, ArrivalFault>
    ensures { GivesFar result (with_items txs (ending line rest.now)) }
{
    if rest.len() > MOST_LINE_BYTES {
        return Err(ArrivalFault::Bad { line });
    }
    let held = copy_of(alloc, rest)?;
    Ok(ReadArrivals { txs, line, held })
}

/// Reads lines after those of some transactions, the first by its number.
fn read_lines(
    alloc: Global,
    before: List<Tx>,
    number: u64,
    bytes: &[u8],
) -> Result<ReadArrivals, ArrivalFault>
    ensures { GivesFar result (with_items before (walk arrivals_form number (parts_of bytes.now))) }
{
    let mut txs = before;
    let mut line = number;
    let mut rest = bytes;
    while let Some((text, after)) = split_line(rest) {
        let tx = take_line(alloc, line, text)?;
        push_tx_if(&mut txs, tx)?;
        line += 1;
        rest = after;
    }
    take_rest(alloc, txs, line, rest)
}

/// Reads the end of a line that began with the bytes held, and the lines after it.
pub fn read_on(
    alloc: Global,
    line: u64,
    held: &[u8],
    end: &[u8],
    after: &[u8],
) -> Result<ReadArrivals, ArrivalFault>
    ensures { GivesFar result (walk arrivals_form line (onto held.now (end.now ∷ parts_of after.now))) }
{
    let text = joined(alloc, held, end)?;
    let tx = take_line(alloc, line, &text)?;
    let mut txs = List::new(alloc);
    push_tx_if(&mut txs, tx)?;
    read_lines(alloc, txs, line + 1, after)
}
