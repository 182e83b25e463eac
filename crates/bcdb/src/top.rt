//! The top call.
ghost use Rattle.std.specs.Prelude.{◌≡◌, ◌⊎◌, IfSome, None, Some, Option, List, ℕ};
ghost use Rattle.bcdb.specs.Agrees.{AnswersAsRun};
ghost use Rattle.bcdb.specs.Answer.{Ends, Writes, read_refused, usage_refused};
ghost use Rattle.bcdb.specs.InOrder.{RunsInOrder};
ghost use Rattle.bcdb.specs.Plan.{AllowsPlan, RoseAt, RoseIn, plan_of};
ghost use Rattle.bcdb.specs.ProgramAnswer.{says};
ghost use Rattle.bcdb.specs.Traced.{EndsTraced};
ghost use Rattle.bcdb.specs.Whole.{IsWhole};
ghost use Rattle.cli_words.specs.Language.{AreWithin, settings_of, texts};
ghost use Rattle.edge_traits.specs.Causes.{Rose};

use crate::commands::reply_to;
use crate::fault::FilesFault;
use crate::status::Status;
use cli_words::{Settings, WordsFault, read_words};
use cluster_run::Gate;
use edge_traits::{Shelf, Sink, write_whole};
use std::alloc::Global;
use std::sync::Wait;
use std::thread::Threads;

// Writes what is answered. A write that failed is not tried again.
#[tactic(auto, using(crate::proofs::Ends::writes_whole))]
fn deliver<W: Sink>(out: &mut W, status: Status, bytes: &[u8]) -> Status
    ensures writes { Writes (says status bytes.now) result (W.written out.old) (W.written out.new) }
    ensures status { (result ≡ Status.WriteFault) ⊎ (result ≡ status) }
    ensures write { result ≡ Status.WriteFault → (status ≡ Status.WriteFault) ⊎ Rose (W.faults out.old) (W.faults out.new) }
    ensures quiet { (result ≡ Status.WriteFault) ⊎ (W.faults out.new ≡ W.faults out.old) }
{
    match write_whole(out, bytes) {
        Ok(()) => status,
        Err(_) => Status::WriteFault,
    }
}

/// Ends without settings: words outside the language of the command line are refused, and where memory ran out before they were
/// read nothing is written.
pub fn refuse_words<W: Sink>(out: &mut W, fault: WordsFault) -> Status
    ensures usage { fault ≡ WordsFault.Usage → Writes usage_refused result (W.written out.old) (W.written out.new) }
    ensures memory { fault ≡ WordsFault.NoMemory → (result ≡ Status.NoMemory) × (W.written out.new ≡ W.written out.old) }
    ensures write { result ≡ Status.WriteFault → Rose (W.faults out.old) (W.faults out.new) }
    ensures quiet { (result ≡ Status.WriteFault) ⊎ (W.faults out.new ≡ W.faults out.old) }
{
    match fault {
        WordsFault::Usage => deliver(out, Status::Usage, b"refused usage\n"),
        WordsFault::NoMemory => Status::NoMemory,
    }
}

// Does what the settings ask for.
#[tactic(auto, using(crate::proofs::Ends::ends_traced, crate::proofs::Ends::ends_short))]
fn serve<R: Threads + Wait + Sync, S: Shelf, W: Sink, G: Gate>(
    rt: &R,
    alloc: Global,
    settings: Settings,
    shelf: &mut S,
    out: &mut W,
    gate: &G,
) -> Status
    requires within { AreWithin settings }
    requires allowed { AllowsPlan (plan_of (Some settings)) (S.told shelf.old) (S.may_read shelf.old) }
    ensures ends { IfSome (S.told shelf.old) (λ files.
        (EndsTraced (Some settings) files result (W.written out.old) (W.written out.new) × (S.faults shelf.new ≡ S.faults shelf.old))
        ⊎ (Writes read_refused result (W.written out.old) (W.written out.new)
        × RoseIn (plan_of (Some settings)) files (S.faults shelf.old) (S.faults shelf.new))) }
    ensures words { result ≡ Status.Usage → ⊥ }
    ensures read { result ≡ Status.ReadFault → RoseAt (plan_of (Some settings)) (S.faults shelf.old) (S.faults shelf.new) }
    ensures counted { (S.faults shelf.new ≡ S.faults shelf.old) ⊎ Writes read_refused result (W.written out.old) (W.written out.new) }
    ensures write { result ≡ Status.WriteFault → Rose (W.faults out.old) (W.faults out.new) }
    ensures quiet { (result ≡ Status.WriteFault) ⊎ (W.faults out.new ≡ W.faults out.old) }
{
    match reply_to(rt, alloc, settings, shelf, gate) {
        Ok(reply) => {
            let status = deliver(out, reply.status, reply.bytes.as_slice());
            drop(reply);
            status
        }
        Err(FilesFault::Failed) => deliver(out, Status::ReadFault, b"refused read\n"),
        Err(FilesFault::NoMemory) => Status::NoMemory,
    }
}

/// Does what the words ask for, over the files that they name, and writes the answer.
///
/// The answer to the words over the files of the shelf is a definition that shares no code with the program: the report of nodes that
/// each make one fold over the blocks, or of what a schedule comes to; the versions that a query selects in the fold, or its answer to
/// a query of the tables at a height; the digests of the blocks or the heads of their writes, and the proof of a write; whether a proof
/// leads to a head, and where the digests of peers part; the blocks as a chain; the summary of a load; or the refusal that comes first. So for every permitted number of nodes and of executors, whatever arrives,
/// and for every interleaving of the turns of the nodes' locks, a run reports the same results at each node: the fold of the blocks. If
/// journals are asked for, those of as many nodes follow: each is one that steps can make, delivers these blocks and comes to these
/// results. An order answers a draft in which what the clients submit is merged, and which is read back as its blocks, whatever
/// their threads do; which client comes first is left open.
///
/// Over a shelf that tells its files, either no read failed and the call ends with the status and all the bytes of that answer; or the
/// count of a named file rose in its turn, and it ends with those of a failed read. At `WriteFault` and `NoMemory` a prefix of the bytes
/// was written. Nothing is asked for but bytes of the named files, of each only once the one before it is accepted, and none of the
/// blocks or of what arrives after the first fault: that is what `allowed`, which every shelf here meets, asks of the body.
///
/// The gate can hold the executors and the processor of a node at some points, for a test; no answer depends on it.
#[tactic(auto, using(crate::proofs::Orders::told_in_order, crate::proofs::Agreeing::told_as_run, crate::proofs::Ends::ends_refused, crate::proofs::Ends::ends_short))]
pub fn bcdb<R: Threads + Wait + Sync, S: Shelf, W: Sink, G: Gate>(
    rt: &R,
    alloc: Global,
    words: &[&str],
    shelf: &mut S,
    out: &mut W,
    gate: &G,
) -> Status
    requires allowed { AllowsPlan (plan_of (settings_of (texts words.now))) (S.told shelf.old) (S.may_read shelf.old) }
    ensures ends { IfSome (S.told shelf.old) (λ files.
        (EndsTraced (settings_of (texts words.now)) files result (W.written out.old) (W.written out.new) × (S.faults shelf.new ≡ S.faults shelf.old))
        ⊎ (Writes read_refused result (W.written out.old) (W.written out.new)
        × RoseIn (plan_of (settings_of (texts words.now))) files (S.faults shelf.old) (S.faults shelf.new))) }

    // Whether or not the orders are shown, the results that are reported tell for each block an order in which its committed
    // transactions run again one by one, with the same reads, writes and tables.
    ensures replays { IfSome (S.told shelf.old) (RunsInOrder (settings_of (texts words.now))) }

    // Whatever arrives and whatever the schedule: a simulation that is not refused for these answers what a run of one node over the
    // same blocks answers, and then its journal, if that is asked for.
    ensures agrees { IfSome (S.told shelf.old) (AnswersAsRun (settings_of (texts words.now))) }

    // Where nothing is refused, the files well formed to their ends, and no call failed, the answer is whole, or memory ran out; and an answer is
    // whole only there, so that all input was read to its end.
    ensures complete { IfSome (S.told shelf.old) (λ files. IsWhole (settings_of (texts words.now)) files
        → (RoseAt (plan_of (settings_of (texts words.now))) (S.faults shelf.old) (S.faults shelf.new) → ⊥) → (Rose (W.faults out.old) (W.faults out.new) → ⊥)
        → (result ≡ Status.Done) ⊎ (result ≡ Status.NoMemory)) }
    ensures done { result ≡ Status.Done → IfSome (S.told shelf.old) (IsWhole (settings_of (texts words.now))) }

    // Over any shelf: the words alone decide on `Usage`.
    ensures refuses { settings_of (texts words.now) ≡ None → Ends usage_refused result (W.written out.old) (W.written out.new) }
    ensures usage { result ≡ Status.Usage → settings_of (texts words.now) ≡ None }

    // A failure has its cause, and each failure is reported: where a count of failed reads rose the status is `ReadFault`, and where
    // that of failed writes did it is `WriteFault`, which goes first.
    ensures read { result ≡ Status.ReadFault → RoseAt (plan_of (settings_of (texts words.now))) (S.faults shelf.old) (S.faults shelf.new) }
    ensures counted { (S.faults shelf.new ≡ S.faults shelf.old) ⊎ Writes read_refused result (W.written out.old) (W.written out.new) }
    ensures write { result ≡ Status.WriteFault → Rose (W.faults out.old) (W.faults out.new) }
    ensures quiet { (result ≡ Status.WriteFault) ⊎ (W.faults out.new ≡ W.faults out.old) }
{
    match read_words(alloc, words) {
        Ok(settings) => serve(rt, alloc, settings, shelf, out, gate),
        Err(fault) => refuse_words(out, fault),
    }
}
