//! What a verified proof shows, which the program does not ask.

ghost use Rattle.block_digest.specs.Codable.{IsFewWrite};
ghost use Rattle.canon_code.specs.Writes.{HasWriteCode};
ghost use Rattle.std.specs.Prelude.{All, IfOk, length, ◌≡◌};

use merkle_proof::{ProofFault, Verdict, explain, prove, read_proof};
use rel_base::{List, NoMemory, Placed};
use std::alloc::Global;
use std::test::Fail;

/// The proof files of three writes, as another program made them.
const FILES: [&[u8]; 3] = [
    b"proof 1\n\
        count 3\n\
        index 1\n\
        write 00000001000000000101000000000000000101030100000000000000010203616e6e010000000000000032\n\
        step 5555bab207211d0f751cba2f00496a501a6dbbd99b4260784349b2c285d9a980\n\
        step 0450f2bdfff65b877fdd055a452a6757cc8be1c8c1dc189edb05d47586b1a814\n\
        end\n",
    b"proof 1\n\
        count 3\n\
        index 2\n\
        write 00000002000000000101000000000000000202030100000000000000020203626f62010000000000000014030100000000000000020203626f6201fffffffffffffff9\n\
        step 69eb363cb602db91ef9aaded732899b70d9bf10bfddc529388e18ef94f67cab1\n\
        step 0450f2bdfff65b877fdd055a452a6757cc8be1c8c1dc189edb05d47586b1a814\n\
        end\n",
    b"proof 1\n\
        count 3\n\
        index 3\n\
        write 0000000200000001010202c3a903020202c3a90301\n\
        step dedf6827dcb63201d9ca87c65daacad29295ae92592cdc602e4506421f824fba\n\
        end\n",
];

/// The write of a proof file.
fn written(alloc: Global, file: &[u8]) -> Result<Placed, ProofFault>
    ensures code { IfOk result HasWriteCode }
    ensures few { IfOk result IsFewWrite }
{
    let (write, _) = read_proof(alloc, file)?;
    Ok(write)
}

/// The writes of some proof files.
fn writes_of(alloc: Global, files: &[&[u8]]) -> Result<List<Placed>, ProofFault>
    ensures codes { IfOk result (λ writes. All HasWriteCode writes) }
    ensures few { IfOk result (λ writes. All IsFewWrite writes) }
    ensures all { IfOk result (λ writes. length writes ≡ length files.now) }
{
    let mut writes = List::new(alloc);
    for file in files {
        let write = written(alloc, file)?;
        writes.push(write)?;
    }
    Ok(writes)
}

/// The verdict on the proof of a write, which is a member.
fn explained(alloc: Global, writes: &List<Placed>) -> Result<Verdict, NoMemory>
    requires codes { All HasWriteCode writes.now }
    requires few { All IsFewWrite writes.now }
    requires three { length writes.now ≡ 3 }
{
    let proof = prove(alloc, writes, 2)?;
    explain(alloc, writes, &writes.as_slice()[1], &proof)
}

#[test]
fn a_member_is_called_one(rt: HostRuntime) -> Result<(), Fail> {
    let alloc = rt.alloc();
    let writes = writes_of(alloc, &FILES)?;
    let verdict = explained(alloc, &writes)?;
    assert!(rt; matches!(verdict, Verdict::Member));
    Ok(())
}
