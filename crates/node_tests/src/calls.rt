//! An application of accounts, and blocks of calls of it.

ghost use Rattle.std.specs.Prelude.{◌≡◌, IfOk};
ghost use Rattle.serial_laws.specs.Chained.{AreNumbered};

use cluster_run::SharedBlock;
use proc_check::{Checked, check};
use proc_parse::parse;
use proc_syntax::{Block, Tx};
use rel_base::List;
use std::alloc::Global;
use std::sync::Arc;
use std::test::Fail;
use tx_text::read_tx;

const ACCOUNTS: &str = r#"
table acct (id int, owner text, bal int) key (id) index (owner);
proc add(i int, o text, b int) { insert acct (i, o, b); }
proc pay(f int, t int, n int) {
  get a from acct key (f) {
    get b from acct key (t) {
      if a.bal < n { fail "funds"; }
      update acct key (f) set bal = a.bal - n;
      update acct key (t) set bal = b.bal + n;
    } else { fail "no payee"; }
  } else { fail "no payer"; }
}
"#;

const OPENINGS: [&[u8]; 2] = [b"tx a1 0 add 1 \"ann\" 50", b"tx a2 0 add 2 \"ann\" 50"];

/// A payment, of block 2.
pub const PAYMENT: [&[u8]; 1] = [b"tx p1 1 pay 1 2 5"];

const LATER: [&[u8]; 1] = [b"tx a3 1 add 3 \"ann\" 50"];

/// The application of accounts.
pub fn accounts(alloc: Global) -> Result<Arc<Checked>, Fail> {
    let text = ACCOUNTS.as_bytes();
    if text.len() > 10_000 {
        return Err("a text that is too long".into());
    }
    Ok(Arc::new(alloc, check(alloc, parse(alloc, text)?)?)?)
}

/// The calls of some lines.
pub fn calls(alloc: Global, lines: &[&[u8]]) -> Result<List<Tx>, Fail> {
    let mut txs = List::new(alloc);
    for line in lines {
        txs.push(read_tx(alloc, line)?)?;
    }
    Ok(txs)
}

/// A block of a number.
pub fn block(number: u64, txs: List<Tx>) -> Result<Block, Fail>
    ensures { IfOk result (λ block. block.number ≡ number) }
{
    match Block::new(number, 0, txs) {
        Ok(block) => Ok(block),
        Err(_) => Err("a block that is too large".into()),
    }
}

/// A block that adds two accounts, one of a payment, and one more.
pub fn three_blocks(alloc: Global) -> Result<[SharedBlock; 3], Fail>
    ensures { IfOk result (λ blocks. AreNumbered 1 blocks) }
{
    let (openings, payment, later) = (
        calls(alloc, &OPENINGS)?,
        calls(alloc, &PAYMENT)?,
        calls(alloc, &LATER)?,
    );
    Ok([
        SharedBlock::new(alloc, &block(1, openings)?)?,
        SharedBlock::new(alloc, &block(2, payment)?)?,
        SharedBlock::new(alloc, &block(3, later)?)?,
    ])
}
