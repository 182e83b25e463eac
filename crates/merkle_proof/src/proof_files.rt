//! Proof files.

ghost use Rattle.block_digest.specs.Codable.{IsFewWrite};
ghost use Rattle.canon_code.specs.Writes.{HasWriteCode};
ghost use Rattle.hex.specs.Hex.{encode_lower};
ghost use Rattle.hex_digits.specs.Laws.{IsHash};
ghost use Rattle.merkle_proof.specs.ProofFiles.{Gives, Reads, ReadsHeader, before, between, ended, header_in, last_step, line_at, most_counted, number_in, proof_file, proof_in, step_at, step_text, steps_from, whole_write, write_in};
ghost use Rattle.rel_base.specs.Reading as reading;
ghost use Rattle.std.specs.List.{flat_map};
ghost use Rattle.std.specs.Prelude.{All, IfOk, IfSome, Ok, OnOk, codes, decimal, length, ◌++◌, ◌≡◌, ◌≤◌};
ghost use Rattle.tx_text.specs.Parts.{line_text, parts_of};

use crate::proof::Proof;
use canon_code::read_write;
use hex_digits::{read_bytes, read_hash};
use literals::read_number;
use rel_base::{List, NoMemory, Placed, ReadFault};
use std::alloc::Global;
use tx_text::field::{skip, strip};
use tx_text::split_line;

/// Why bytes are no proof file.
#[derive(Clone, Copy, Debug, PartialEq, Eq)]
pub enum ProofFault {
    /// Memory ran out.
    NoMemory,
    /// The line of this number, from 1, is the first that no proof file has there.
    Bad { line: u64 },
}

impl From<NoMemory> for ProofFault {
    ghost use Rattle.merkle_proof.specs.declared.proof_files.ProofFault.TheVariants as fault;
    ghost use Rattle.std.specs.Prelude.{◌≡◌};

    ghost from_gives = { λ _ e. e ≡ fault.NoMemory };

    fn from(_error: NoMemory) -> ProofFault {
        ProofFault::NoMemory
    }
}

/// The number of steps that a proof file may have.
pub const MOST_STEPS: usize = 32;

/// The number of the last line that may be a step.
const LAST_STEP: u64 = 36;

/// The number after a word, between two others.
fn number_in(word: &[u8], low: u32, high: u32, line: &[u8]) -> Option<u32>
    ensures { result ≡ number_in word.now low high line.now }
{
    let digits = strip(word, line)?;
    let (number, rest) = read_number(digits)?;
    if rest.is_empty() && number >= u64::from(low) && number <= u64::from(high) {
        Some(number as u32)
    } else {
        None
    }
}

/// Reads the first line.
fn read_header(bytes: &[u8]) -> Result<&[u8], ProofFault>
    ensures { ReadsHeader result (line_at 1 header_in (parts_of bytes.now)) }
{
    match split_line(bytes) {
        Some((line, rest)) if line == b"proof 1".as_slice() => Ok(rest),
        _ => Err(ProofFault::Bad { line: 1 }),
    }
}

/// Reads the line of a number that stands after a word.
fn read_numbered<'a>(
    line: u64,
    word: &[u8],
    low: u32,
    high: u32,
    bytes: &'a [u8],
) -> Result<(u32, &'a [u8]), ProofFault>
    ensures { Reads result (line_at line (number_in word.now low high) (parts_of bytes.now)) }
{
    let Some((text, rest)) = split_line(bytes) else {
        return Err(ProofFault::Bad { line });
    };
    match number_in(word, low, high, text) {
        Some(number) => Ok((number, rest)),
        None => Err(ProofFault::Bad { line }),
    }
}

/// The write whose code the bytes are.
fn whole_write(alloc: Global, code: &[u8]) -> Result<Placed, ReadFault>
    ensures { reading.Gives result (whole_write code.now) }
{
    let (write, rest) = read_write(alloc, code)?;
    if rest.is_empty() {
        Ok(write)
    } else {
        Err(ReadFault::Bad)
    }
}

/// The write of a line.
fn write_in(alloc: Global, line: &[u8]) -> Result<Placed, ReadFault>
    ensures { reading.Gives result (write_in line.now) }
{
    let digits = skip(b"write ", line)?;
    let code = read_bytes(alloc, digits)?;
    whole_write(alloc, code.as_slice())
}

/// Reads the line of the write.
fn read_write_line(alloc: Global, bytes: &[u8]) -> Result<(Placed, &[u8]), ProofFault>
    ensures line { Reads result (line_at 4 write_in (parts_of bytes.now)) }
    ensures code { IfOk result (λ read. HasWriteCode read.0) }
{
    let Some((line, rest)) = split_line(bytes) else {
        return Err(ProofFault::Bad { line: 4 });
    };
    match write_in(alloc, line) {
        Ok(write) => Ok((write, rest)),
        Err(ReadFault::NoMemory) => Err(ProofFault::NoMemory),
        Err(ReadFault::Bad) => Err(ProofFault::Bad { line: 4 }),
    }
}

/// The step of a line of a number.
fn step_at(number: u64, line: &[u8]) -> Option<[u8; 32]>
    ensures step { result ≡ step_at number line.now }
    ensures low { IfSome result (λ step. number ≤ last_step) }
{
    if number > LAST_STEP {
        return None;
    }
    let digits = strip(b"step ", line)?;
    read_hash(digits)
}

/// Reads the lines of the steps, and the last line.
fn read_steps(alloc: Global, bytes: &[u8]) -> Result<List<[u8; 32]>, ProofFault>
    ensures { Gives result (steps_from 5 (parts_of bytes.now)) }
{
    let mut steps = List::new(alloc);
    let mut number = 5_u64;
    let mut rest = bytes;
    while let Some((line, after)) = split_line(rest) {
        if line == b"end".as_slice() {
            return finish(steps, number + 1, after);
        }
        let Some(step) = step_at(number, line) else {
            return Err(ProofFault::Bad { line: number });
        };
        steps.push(step)?;
        number += 1;
        rest = after;
    }
    Err(ProofFault::Bad { line: number })
}

/// Steps, if nothing follows the last line; the number is that of the line that would stand there.
fn finish(steps: List<[u8; 32]>, number: u64, rest: &[u8]) -> Result<List<[u8; 32]>, ProofFault>
    ensures { Gives result (before steps (ended number (parts_of rest.now))) }
{
    if rest.is_empty() {
        Ok(steps)
    } else {
        Err(ProofFault::Bad { line: number })
    }
}

/// The write and the proof of a whole file: `proof 1`, `count N`, `index I`, `write HEX` with the write's code, at most 32 lines `step HEX`, and
/// `end`, each ended by a newline, where 1 <= I <= N < 2^32. `Bad` names the first line that no such file has there; a missing line counts where it
/// would stand. How many steps there are is for `verify` to judge.
pub fn read_proof(alloc: Global, bytes: &[u8]) -> Result<(Placed, Proof), ProofFault>
    ensures proof { Gives result (proof_in bytes.now) }
    ensures code { IfOk result (λ found. HasWriteCode found.0) }
    ensures few { IfOk result (λ found. IsFewWrite found.0) }
{
    let rest = read_header(bytes)?;
    let (count, rest) = read_numbered(2, b"count ", 1, u32::MAX, rest)?;
    let (index, rest) = read_numbered(3, b"index ", 1, count, rest)?;
    let (write, rest) = read_write_line(alloc, rest)?;
    let path = read_steps(alloc, rest)?;
    Ok((write, Proof { count, index, path }))
}
