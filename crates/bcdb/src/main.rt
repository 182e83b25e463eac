//! The program. `bcdb` answers the words of a command line from a shelf of files into a sink of bytes, and its contract is the claim.
//! `reply_to` does what each command asks for. It reads the files of the command in the order of one plan, each once the one before it has
//! no fault.
//!
//! Only tested: `main`, `answer`, `answer_words`, `collect_words` and `collect`, which pass the words of the process on; all that is tried
//! on the built program.
#![tactic(auto)]

pub mod application;
pub mod arrivals;
pub mod asking;
pub mod blocks;
pub mod commands;
pub mod comparing;
pub mod extract;
pub mod extracting;
pub mod fault;
pub mod folding;
pub mod given;
pub mod intake;
pub mod loading;
pub mod loops;
pub mod node_arrivals;
pub mod ordering;
pub mod peers;
pub mod plain;
pub mod querying;
pub mod refusal;
pub mod reply;
pub mod running;
pub mod schedule;
pub mod sealing;
pub mod simulating;
pub mod sources;
pub mod status;
pub mod top;
pub mod verifying;
pub mod words;

use cluster_run::NoGate;
use edge_traits::{DirShelf, StdSink};
use status::{Status, exit_code};
use std::alloc::{AllocError, Global};
use std::fs::{File, Files};
use std::io::Print;
use std::process::ExitCode;
use std::sync::Wait;
use std::thread::Threads;
use top::{bcdb, refuse_words};
use words::collect_words;

// Answers the words over real files and standard output.
#[tactic(auto, using(crate::proofs::Leaves::all_may))]
fn answer<R: Threads + Wait + Sync + Files<File = File> + Print>(
    rt: &R,
    alloc: Global,
    words: &[&str],
) -> Status {
    let mut shelf = DirShelf::new(alloc, rt);
    let mut out = StdSink::new(rt);
    bcdb(rt, alloc, words, &mut shelf, &mut out, &NoGate)
}

// The same of texts.
fn answer_words<R: Threads + Wait + Sync + Files<File = File> + Print>(
    rt: &R,
    alloc: Global,
    texts: &[String],
) -> Result<Status, AllocError> {
    let mut words = Vec::new(alloc);
    for text in texts {
        words.push(text.as_str())?;
    }
    Ok(answer(rt, alloc, &words))
}

fn main(rt: HostRuntime) -> ExitCode {
    let status = match collect_words(&rt) {
        Ok(texts) => answer_words(&rt, rt.alloc(), &texts).unwrap_or(Status::NoMemory),
        Err(fault) => refuse_words(&mut StdSink::new(&rt), fault),
    };
    exit_code(status)
}
