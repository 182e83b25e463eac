//! The answer to a seal.

ghost use Rattle.std.specs.Prelude.{◌≡◌, List, ℕ, Option, IfOk, IfSome, true};
ghost use Rattle.bcdb.specs.Plan.{AllowsPlan, BlocksFile, Counted, RoseAt, planned};
ghost use Rattle.bcdb.specs.Reading.{HasRead};
ghost use Rattle.bcdb.specs.Reply.{Means, is_answer};
ghost use Rattle.bcdb.specs.SealAnswer.{sealed};
ghost use Rattle.chain_file.specs.Chain.{chain};
ghost use Rattle.chain_file.specs.Headers.{version_of};
ghost use Rattle.chain_file.specs.Sealed.{Seals, SealsAs};
ghost use Rattle.edge_traits.specs.Shelf.{Files};

use crate::blocks::read_file;
use crate::fault::FilesFault;
use crate::reply::Reply;
use crate::status::Status;
use chain_file::{ChainVersion, Sealer};
use edge_traits::Shelf;
use proc_syntax::{Block, ChainFault};
use rel_base::{List, NoMemory};
use report_text::stopped_line;
use std::alloc::Global;

// The chain file of a file that ended, or where it was stopped.
fn end_seal(sealer: Sealer, stop: Option<ChainFault>) -> Result<List<u8>, ChainFault>
    ensures { (told : Option Files) (name : List ℕ) → HasRead told name (Seals sealer) stop → IfSome told (λ files. SealsAs result (version_of (files name)) (chain (files name))) }
{
    match stop {
        None => sealer.end(),
        Some(fault) => {
            drop(sealer);
            Err(fault)
        }
    }
}

// The reply to a seal: the chain file of the blocks of a file without a fault, and else where the file stopped.
fn answer_seal(alloc: Global, text: Result<List<u8>, ChainFault>) -> Result<Reply, NoMemory>
    ensures means { (version : Option ChainVersion) (blocks : List Block) (fault : Option ChainFault) → SealsAs text version (blocks, fault) → IfOk result (λ reply. Means (sealed version blocks fault) reply) }
    ensures kind { IfOk result (λ reply. is_answer reply.status ≡ true) }
{
    match text {
        Ok(bytes) => Ok(Reply {
            status: Status::Done,
            bytes,
        }),
        Err(fault) => Ok(Reply {
            status: Status::ChainRefused,
            bytes: stopped_line(alloc, &fault)?,
        }),
    }
}

/// The reply to a seal of a file.
pub fn seal_file<S: Shelf>(alloc: Global, shelf: &mut S, name: &str) -> Result<Reply, FilesFault>
    requires allowed { AllowsPlan (planned BlocksFile name.now) (S.told shelf.old) (S.may_read shelf.old) }
    ensures told { IfOk result (λ reply. IfSome (S.told shelf.old) (λ files. Means (sealed (version_of (files name.now)) (chain (files name.now)).0 (chain (files name.now)).1) reply)) }
    ensures counted { Counted result (RoseAt (planned BlocksFile name.now) (S.faults shelf.old) (S.faults shelf.new)) (S.faults shelf.old) (S.faults shelf.new) }
    ensures kind { IfOk result (λ reply. is_answer reply.status ≡ true) }
{
    let mut sealer = Sealer::new(alloc);
    match read_file(alloc, shelf, name, &mut sealer) {
        Ok(stop) => {
            let reply = answer_seal(alloc, end_seal(sealer, stop))?;
            Ok(reply)
        }
        Err(fault) => {
            drop(sealer);
            Err(fault)
        }
    }
}
