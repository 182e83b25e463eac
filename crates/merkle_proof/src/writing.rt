//! Proof files, written.

ghost use Rattle.block_digest.specs.Codable.{IsFewWrite};
ghost use Rattle.canon_code.specs.Writes.{HasWriteCode, write_code};
ghost use Rattle.hex.specs.Hex.{encode_lower};
ghost use Rattle.hex_digits.specs.Laws.{IsHash};
ghost use Rattle.merkle_proof.specs.ProofFiles.{proof_file, proof_in, step_text};
ghost use Rattle.std.specs.List.{flat_map};
ghost use Rattle.std.specs.Prelude.{All, IfOk, Ok, OnOk, codes, decimal, length, ◌++◌, ◌<◌, ◌^◌, ◌≡◌, ◌≤◌};
ghost use Rattle.tx_text.specs.Parts.{line_text};

use crate::hashes::code_of;
use crate::proof::Proof;
use hex_digits::{hash_digits, push_digits};
use literals::push_number;
use rel_base::{List, NoMemory, Placed};
use std::alloc::Global;

/// Writes a word, a number and a newline at the end, or a part of them.
fn push_numbered(out: &mut Vec<u8>, word: &[u8], number: u32) -> Result<(), NoMemory>
    // What a number is: so what is written is read back.
    ensures few { number < 2 ^ 32 }
    ensures line { OnOk result (out.new.items ≡ out.old.items ++ line_text (word.now ++ decimal number)) }
{
    out.extend_from_slice(word)?;
    push_number(out, u64::from(number))?;
    out.push(b'\n')?;
    Ok(())
}

/// Writes the line of a write at the end, or a part of it.
fn push_write(alloc: Global, out: &mut Vec<u8>, write: &Placed) -> Result<(), NoMemory>
    requires { IsFewWrite write.now }
    ensures { OnOk result (out.new.items ≡ out.old.items ++ line_text (codes "write " ++ encode_lower (write_code write.now))) }
{
    let code = code_of(alloc, write)?;
    out.extend_from_slice(b"write ")?;
    push_digits(alloc, out, &code)?;
    out.push(b'\n')?;
    Ok(())
}

/// Writes the line of a step at the end, or a part of it.
fn push_step(out: &mut Vec<u8>, step: &[u8; 32]) -> Result<(), NoMemory>
    // What a step is: so what is written is read back.
    ensures sound { IsHash step.now }
    ensures line { OnOk result (out.new.items ≡ out.old.items ++ step_text step.now) }
{
    out.extend_from_slice(b"step ")?;
    out.extend_from_slice(hash_digits(step).as_slice())?;
    out.push(b'\n')?;
    Ok(())
}

/// Writes the lines of steps at the end, or a part of them.
fn push_steps(out: &mut Vec<u8>, steps: &[[u8; 32]]) -> Result<(), NoMemory>
    ensures sound { OnOk result (All IsHash steps.now) }
    ensures lines { OnOk result (out.new.items ≡ out.old.items ++ flat_map step_text steps.now) }
{
    for step in steps {
        push_step(out, step)?;
    }
    Ok(())
}

/// The file of a write and a proof.
fn file_of(alloc: Global, write: &Placed, proof: &Proof) -> Result<List<u8>, NoMemory>
    requires { IsFewWrite write.now }
    ensures file { IfOk result (λ file. file ≡ proof_file write.now proof.now) }
    ensures sound { OnOk result (All IsHash proof.now.path) }
    ensures few { OnOk result (proof.now.count < 2 ^ 32) }
{
    let mut out = Vec::from_slice(alloc, b"proof 1\n")?;
    push_numbered(&mut out, b"count ", proof.count)?;
    push_numbered(&mut out, b"index ", proof.index)?;
    push_write(alloc, &mut out, write)?;
    push_steps(&mut out, proof.path.as_slice())?;
    out.extend_from_slice(b"end\n")?;
    Ok(List::from_vec(out))
}

/// The proof file of a write and a proof of at most 32 steps. Where the write has a code and the proof an index from 1 to its count, it is read back.
/// It fails only where memory runs out.
pub fn write_proof(alloc: Global, write: &Placed, proof: &Proof) -> Result<List<u8>, NoMemory>
    requires row { IsFewWrite write.now }
    requires short { length proof.now.path ≤ 32 }
    ensures file { IfOk result (λ file. file ≡ proof_file write.now proof.now) }
    ensures back { IfOk result (λ file. HasWriteCode write.now → 1 ≤ proof.now.index → proof.now.index ≤ proof.now.count → proof_in file ≡ Ok (write.now, proof.now)) }
{
    let file = file_of(alloc, write, proof)?;
    Ok(file)
}
