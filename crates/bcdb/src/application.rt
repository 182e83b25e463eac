//! The application's file.

ghost use Rattle.std.specs.Prelude.{◌≡◌, ◌≤◌, IfOk, Err, IfErr, IfSome, Ok, length};
ghost use Rattle.bcdb.specs.Accepted.{accepted, sound};
ghost use Rattle.proc_check.specs.Apps.{first_fault};
ghost use Rattle.bcdb.specs.Plan.{Counted};
ghost use Rattle.bcdb.specs.Taking.{GivesApp};
ghost use Rattle.bcdb.specs.Application.{IsRefused};
ghost use Rattle.edge_traits.specs.Causes.{AllowsFront, Keeps, Rose};

use crate::fault::FilesFault;
use crate::refusal::{Refusal, RefusalKind, TOO_LONG};
use edge_traits::{FetchFault, Shelf, read_whole};
use proc_check::{CheckFault, Checked, check};
use proc_parse::{ParseFault, parse};
use proc_syntax::App;
use rel_base::NoMemory;
use std::alloc::Global;

/// The greatest number of bytes of an application.
pub const LONGEST_APPLICATION: u64 = 1048576;

/// Why there is no application.
#[derive(Clone, Copy, PartialEq, Eq)]
pub enum AppFault {
    NoMemory,
    /// The bytes are too many, outside the grammar or not well typed.
    Refused(Refusal),
}

fn refuse(line: u32, kind: RefusalKind) -> Result<Checked, AppFault>
    ensures { result ≡ Err (AppFault.Refused (record { line = line; kind = kind })) }
{
    Err(AppFault::Refused(Refusal { line, kind }))
}

// Checks what was parsed.
fn check_parsed(alloc: Global, app: App) -> Result<Checked, AppFault>
    ensures ok { IfOk result (λ checked. sound app (first_fault app) ≡ Ok checked.app) }
    ensures refused { IfErr result (λ fault. IsRefused fault (sound app (first_fault app))) }
{
    match check(alloc, app) {
        Ok(checked) => Ok(checked),
        Err(CheckFault::Bad { line, kind }) => refuse(line, RefusalKind::Bad(kind)),
        Err(CheckFault::NoMemory) => Err(AppFault::NoMemory),
    }
}

// Reads bytes that are not too many.
fn read_short(alloc: Global, bytes: &[u8]) -> Result<Checked, AppFault>
    requires { length bytes.now ≤ 1048576 }
    ensures ok { IfOk result (λ checked. accepted bytes.now ≡ Ok checked.app) }
    ensures refused { IfErr result (λ fault. IsRefused fault (accepted bytes.now)) }
{
    match parse(alloc, bytes) {
        Ok(app) => check_parsed(alloc, app),
        Err(ParseFault::Syntax { line, .. }) => refuse(line, RefusalKind::Syntax),
        Err(ParseFault::NoMemory) => Err(AppFault::NoMemory),
    }
}

/// The application of some bytes.
pub fn read_application(alloc: Global, bytes: &[u8]) -> Result<Checked, AppFault>
    ensures ok { IfOk result (λ checked. accepted bytes.now ≡ Ok checked.app) }
    ensures refused { IfErr result (λ fault. IsRefused fault (accepted bytes.now)) }
{
    if bytes.len() as u64 > LONGEST_APPLICATION {
        return Err(AppFault::Refused(TOO_LONG));
    }
    read_short(alloc, bytes)
}

// The application of some bytes, or why they are none.
fn check_bytes(alloc: Global, bytes: &[u8]) -> Result<Result<Checked, Refusal>, NoMemory>
    ensures { IfOk result (λ read. GivesApp read (accepted bytes.now)) }
{
    match read_application(alloc, bytes) {
        Ok(checked) => Ok(Ok(checked)),
        Err(AppFault::Refused(refusal)) => Ok(Err(refusal)),
        Err(AppFault::NoMemory) => Err(NoMemory),
    }
}

/// The application of a file, or why it is refused. A read that fails is not tried again.
#[tactic(auto, using(crate::proofs::Turns::too_long_told, crate::proofs::Turns::given_told))]
pub fn fetch_application<S: Shelf>(
    alloc: Global,
    shelf: &mut S,
    name: &str,
) -> Result<Result<Checked, Refusal>, FilesFault>
    requires allowed { AllowsFront (S.may_read shelf.old) name.now 1048577 }
    ensures told { IfOk result (λ read. IfSome (S.told shelf.old) (λ files. GivesApp read (accepted (files name.now)))) }
    ensures same { S.told shelf.new ≡ S.told shelf.old }
    ensures allowed { Keeps (S.may_read shelf.old) (S.may_read shelf.new) }
    ensures counted { Counted result (Rose (S.faults shelf.old name.now) (S.faults shelf.new name.now)) (S.faults shelf.old) (S.faults shelf.new) }
{
    match read_whole(alloc, shelf, name, LONGEST_APPLICATION) {
        Ok(bytes) => {
            let read = check_bytes(alloc, bytes.as_slice())?;
            Ok(read)
        }
        Err(FetchFault::TooLong) => Ok(Err(TOO_LONG)),
        Err(FetchFault::Failed) => Err(FilesFault::Failed),
        Err(FetchFault::NoMemory) => Err(FilesFault::NoMemory),
    }
}
