//! Chain files, written.

ghost use Rattle.std.specs.Prelude.{◌≡◌, ◌++◌, ◌∷◌, List, [], codes, decimal, IfOk, OnOk, None};
ghost use Rattle.std.specs.List.{flat_map};
ghost use Rattle.std.specs.Prelude.{ℤ};
ghost use Rattle.chain_file.specs.Headers.{chain_form, header_text};
ghost use Rattle.chain_file.specs.Text.{CanStand, block_line, block_text, first_line, time_field, tx_line};
ghost use Rattle.tx_text.specs.Parts.{line_text};
ghost use Rattle.chain_file.specs.Chain.{chain, hash_digits};
ghost use Rattle.chain_file.specs.ChainText.{chain_text};
ghost use Rattle.chain_file.specs.Sealed.{Spells};

use crate::form::ChainVersion;
use crate::hash::{NO_DIGITS, digits_of_bytes};
use literals::{push_int, push_number};
use proc_syntax::{Block, Tx};
use rel_base::{List, NoMemory};
use std::alloc::Global;
use tx_text::push_tx;

/// Writes the lines of transactions at the end.
fn push_txs(out: &mut Vec<u8>, txs: &[Tx]) -> Result<(), NoMemory>
    ensures { OnOk result (out.new.items ≡ out.old.items ++ flat_map tx_line txs.now) }
{
    for tx in txs {
        push_tx(out, tx)?;
        out.push(b'\n')?;
    }
    Ok(())
}

/// Writes the time of a block at the end, after a space, where the version has times.
fn push_time(out: &mut Vec<u8>, version: ChainVersion, time: i64) -> Result<(), NoMemory>
    ensures { OnOk result (out.new.items ≡ out.old.items ++ time_field version time) }
{
    match version {
        ChainVersion::One => Ok(()),
        ChainVersion::Two => {
            out.push(b' ')?;
            push_int(out, time)
        }
    }
}

/// Writes the first line of a block at the end, without its time.
fn push_hash(out: &mut Vec<u8>, number: u64, digits: &[u8]) -> Result<(), NoMemory>
    ensures { OnOk result (out.new.items ≡ out.old.items ++ (codes "block " ++ (decimal number ++ (32 ∷ digits.now)))) }
{
    out.extend_from_slice(b"block ")?;
    push_number(out, number)?;
    out.push(b' ')?;
    out.extend_from_slice(digits)?;
    Ok(())
}

/// Writes the first line of a block at the end.
fn push_first(
    out: &mut Vec<u8>,
    version: ChainVersion,
    digits: &[u8],
    block: &Block,
) -> Result<(), NoMemory>
    ensures { OnOk result (out.new.items ≡ out.old.items ++ line_text (block_line (chain_form version) digits.now block.now)) }
{
    push_hash(out, block.number, digits)?;
    push_time(out, version, block.time)?;
    out.push(b'\n')?;
    Ok(())
}

/// Writes the lines of a block at the end, after a block whose hash has these digits.
fn push_block(
    out: &mut Vec<u8>,
    version: ChainVersion,
    digits: &[u8],
    block: &Block,
) -> Result<(), NoMemory>
    ensures { OnOk result (out.new.items ≡ out.old.items ++ block_text (chain_form version) digits.now block.now) }
{
    push_first(out, version, digits, block)?;
    push_txs(out, block.txs.as_slice())?;
    out.extend_from_slice(b"end\n")?;
    Ok(())
}

/// Writes the lines of a block at the end, and answers the digits of its hash.
fn push_chained(
    out: &mut Vec<u8>,
    version: ChainVersion,
    digits: &[u8],
    block: &Block,
) -> Result<[u8; 64], NoMemory>
    ensures text { OnOk result (out.new.items ≡ out.old.items ++ block_text (chain_form version) digits.now block.now) }
    ensures digits { IfOk result (λ next. next ≡ hash_digits (block_text (chain_form version) digits.now block.now)) }
{
    let start = out.len();
    push_block(out, version, digits, block)?;
    let text = &out[start..];
    Ok(digits_of_bytes(text))
}

/// The header of a chain, and its newline.
fn header(version: ChainVersion) -> &'static [u8]
    ensures { result.now ≡ line_text (header_text (chain_form version)) }
{
    match version {
        ChainVersion::One => b"chain 1\n",
        ChainVersion::Two => b"chain 2\n",
    }
}

/// A chain file that is written block by block. Contracts say which blocks it `Spells`.
#[derive(Drop)]
pub struct ChainText {
    version: ChainVersion,
    text: Vec<u8>,
    /// The digits of the hash of the last block.
    digits: [u8; 64],
}

impl ChainText {
    /// The chain file of no block.
    pub fn new(alloc: Global, version: ChainVersion) -> Result<ChainText, NoMemory>
        ensures { IfOk result (λ chain. Spells chain version []) }
    {
        Ok(ChainText {
            version,
            text: Vec::from_slice(alloc, header(version))?,
            digits: NO_DIGITS,
        })
    }

    /// Writes the next block.
    fn push(&mut self, block: &Block) -> Result<(), NoMemory>
        ensures { (v : ChainVersion) (before : List Block) → Spells self.old v before → OnOk result (Spells self.new v (before ++ block.now ∷ [])) }
    {
        self.digits = push_chained(&mut self.text, self.version, &self.digits, block)?;
        Ok(())
    }

    /// Writes the next blocks.
    pub fn push_all(&mut self, blocks: &[Block]) -> Result<(), NoMemory>
        ensures { (v : ChainVersion) (before : List Block) → Spells self.old v before → OnOk result (Spells self.new v (before ++ blocks.now)) }
    {
        for block in blocks {
            self.push(block)?;
        }
        Ok(())
    }

    /// What is written.
    pub fn finish(self) -> List<u8>
        ensures { (v : ChainVersion) (blocks : List Block) → Spells self v blocks → result ≡ chain_text v blocks }
    {
        List::from_vec(self.text)
    }
}

/// The chain file of blocks, each with the hash of the one before.
///
/// Blocks that are numbered from 1, with times of the version, at most 1,000,000 and with lines of at most 4,096 bytes are read back
/// from it.
pub fn seal(
    alloc: Global,
    version: ChainVersion,
    blocks: &List<Block>,
) -> Result<List<u8>, NoMemory>
    ensures text { IfOk result (λ text. text ≡ chain_text version blocks.now) }
    ensures again { CanStand version blocks.now → IfOk result (λ text. chain text ≡ (blocks.now, None)) }
{
    let mut chain = ChainText::new(alloc, version)?;
    chain.push_all(blocks.as_slice())?;
    Ok(chain.finish())
}
