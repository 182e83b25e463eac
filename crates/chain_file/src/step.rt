//! The lines of a block file, one at a time.

ghost use Rattle.std.specs.Prelude.{◌≡◌, ◌<◌, ◌^◌, ◌&&◌, ◌≤◌, length, Some, None, Ok, Err, IfOk, IfSome, cond, nat_lt};
ghost use Rattle.chain_file.specs.Onward.{GivesTold, next_tx, told_within};
ghost use Rattle.chain_file.specs.Steps.{GivesStep, add_tx, begin, end_block, fields_say, has_digits, has_form, has_hash, has_time, hash_part, header, is_hash_field, is_hex, is_next, is_number, is_number_field, HasRoomInChain, line_step, most_time, next_time, numbered, said_time, step, time_part, timed, within};
ghost use Rattle.std.specs.Char.{is_ascii_digit};
ghost use Rattle.std.specs.List.{list_all};
ghost use Rattle.tx_text.specs.Lines.{tx_of};
ghost use Rattle.proc_syntax.specs.Limits.{most_blocks, most_transactions};

use crate::block::{MOST_TIME, block_of};
use crate::form::{ChainVersion, FileForm, FileKind, form_said};
use crate::section::{Section, Taken};
use itoa::Buffer;
use literals::number::{is_canonical, number_of};
use proc_syntax::call::MOST_TRANSACTIONS;
use proc_syntax::{ChainKind, Tx};
use rel_base::{List, NoMemory};
use std::alloc::Global;
use tx_text::field::split_word;
use tx_text::{LineFault, MOST_LINE_BYTES, read_tx};

/// Why a line leaves nothing.
#[derive(Clone, Copy, PartialEq, Eq)]
pub enum StepFault {
    /// Memory ran out.
    NoMemory,
    /// The line has a fault.
    Kind(ChainKind),
}

impl From<NoMemory> for StepFault {
    ghost use Rattle.std.specs.Prelude.{◌≡◌};
    ghost use Rattle.chain_file.specs.declared.step.StepFault.TheVariants as stop;

    ghost from_gives = { λ _ e. e ≡ stop.NoMemory };

    fn from(_error: NoMemory) -> StepFault {
        StepFault::NoMemory
    }
}

/// The number of blocks that a file may have.
pub const MOST_BLOCKS: usize = 1_000_000;

/// The most digits of a block's number, and of its time.
const MOST_DIGITS: usize = 20;

/// The number of hexadecimal digits of a hash.
const HASH_DIGITS: usize = 64;

/// The first line.
fn header(line: &[u8]) -> Result<Taken, StepFault>
    ensures { GivesStep result (header line.now) }
{
    let Some(form) = form_said(line) else {
        return Err(StepFault::Kind(ChainKind::BadHeader));
    };
    Ok(Taken {
        place: Section::Between {
            form,
            count: 0,
            time: 0,
        },
        ended: None,
    })
}

/// Whether each byte is a digit.
fn are_digits(text: &[u8]) -> bool
    ensures { result ≡ list_all is_ascii_digit text.now }
{
    text.iter().all(|byte| byte.is_ascii_digit())
}

/// Whether the bytes are a number in canonical decimal, of at most 20 digits.
fn is_number(text: &[u8]) -> bool
    ensures { result ≡ is_number text.now }
{
    text.len() <= MOST_DIGITS && are_digits(text) && is_canonical(text)
}

/// Whether the byte is a hexadecimal digit in lower case.
fn is_hex(byte: u8) -> bool
    ensures { result ≡ is_hex byte }
{
    byte.is_ascii_digit() || (byte >= b'a' && byte <= b'f')
}

/// Whether each byte is a hexadecimal digit in lower case.
fn are_hex(digits: &[u8]) -> bool
    ensures { result ≡ list_all is_hex digits.now }
{
    digits.iter().all(|byte| is_hex(*byte))
}

/// Whether the bytes are a space and the digits of a hash.
fn is_hash_field(rest: &[u8]) -> bool
    ensures { result ≡ is_hash_field rest.now }
{
    match rest {
        [b' ', digits @ ..] => digits.len() == HASH_DIGITS && are_hex(digits),
        _ => false,
    }
}

/// Whether the bytes are a space and a number.
fn is_number_field(rest: &[u8]) -> bool
    ensures { result ≡ is_number_field rest.now }
{
    match rest {
        [b' ', digits @ ..] => is_number(digits),
        _ => false,
    }
}

/// The texts of the hash and of the time, of what stands after the number of a block.
#[tactic(auto, using(crate::proofs::Fields::short_hash, crate::proofs::Fields::short_time))]
fn split_fields(kind: FileKind, rest: &[u8]) -> (&[u8], &[u8])
    ensures hash { result.0.now ≡ hash_part kind rest.now }
    ensures time { result.1.now ≡ time_part kind rest.now }
{
    match kind {
        FileKind::Draft => (&[], rest),
        FileKind::Chain => match rest.split_at_checked(1 + HASH_DIGITS) {
            Some(fields) => fields,
            None => (rest, &[]),
        },
    }
}

/// Whether the hash of a block has its form.
fn has_hash(kind: FileKind, hash: &[u8]) -> bool
    ensures { result ≡ has_hash kind hash.now }
{
    match kind {
        FileKind::Draft => true,
        FileKind::Chain => is_hash_field(hash),
    }
}

/// Whether the time of a block has its form.
fn has_time(version: ChainVersion, time: &[u8]) -> bool
    ensures { result ≡ has_time version time.now }
{
    match version {
        ChainVersion::One => time.is_empty(),
        ChainVersion::Two => is_number_field(time),
    }
}

/// Whether the fields of a `block` line have their forms.
fn has_form(form: FileForm, number: &[u8], hash: &[u8], time: &[u8]) -> bool
    ensures { result ≡ has_form form number.now hash.now time.now }
{
    is_number(number) && has_hash(form.kind, hash) && has_time(form.version, time)
}

/// Whether the bytes are the number of the block that follows so many.
fn is_next(count: u64, text: &[u8]) -> bool
    ensures { result ≡ is_next count text.now }
{
    if count >= MOST_BLOCKS as u64 {
        return false;
    }
    let mut buffer = Buffer::new();
    text == buffer.format(count + 1).as_bytes()
}

/// Whether the hash has these digits.
fn has_digits(kind: FileKind, digits: &[u8], hash: &[u8]) -> bool
    ensures { result ≡ has_digits kind digits.now hash.now }
{
    match kind {
        FileKind::Draft => true,
        FileKind::Chain => hash.strip_prefix(b" ") == Some(digits),
    }
}

/// The time of a block, where it has 64 bits.
fn said_time(version: ChainVersion, time: &[u8]) -> Option<u64>
    ensures { result ≡ cond (nat_lt (said_time version time.now) (2 ^ 64)) (Some (said_time version time.now)) None }
{
    match version {
        ChainVersion::One => Some(0),
        ChainVersion::Two => number_of(time.get(1..).unwrap_or(&[])),
    }
}

/// The time of a block, where it is not below that of the block before, and an i64.
fn next_time(version: ChainVersion, before: u64, time: &[u8]) -> Option<u64>
    ensures { result ≡ next_time version before time.now }
{
    said_time(version, time).filter(|time| before <= *time && *time <= MOST_TIME)
}

/// A block that begins, by its time.
fn timed(alloc: Global, form: FileForm, count: u64, time: Option<u64>) -> Result<Taken, StepFault>
    ensures { GivesStep result (timed form count time) }
{
    let Some(time) = time else {
        return Err(StepFault::Kind(ChainKind::WrongTime));
    };
    Ok(Taken {
        place: Section::Within {
            form,
            count,
            time,
            txs: List::new(alloc),
        },
        ended: None,
    })
}

/// A `block` line, from its number on.
fn numbered(
    alloc: Global,
    form: FileForm,
    count: u64,
    before: u64,
    digits: &[u8],
    rest: &[u8],
) -> Result<Taken, StepFault>
    ensures { GivesStep result (numbered form count before digits.now rest.now) }
{
    let (number, fields) = split_word(rest);
    let (hash, time) = split_fields(form.kind, fields);
    if !has_form(form, number, hash, time) {
        return Err(StepFault::Kind(ChainKind::BadLine));
    }
    if !is_next(count, number) {
        return Err(StepFault::Kind(ChainKind::WrongNumber));
    }
    if !has_digits(form.kind, digits, hash) {
        return Err(StepFault::Kind(ChainKind::WrongPrev));
    }
    timed(alloc, form, count, next_time(form.version, before, time))
}

/// A line between blocks.
fn begin(
    alloc: Global,
    form: FileForm,
    count: u64,
    before: u64,
    digits: &[u8],
    line: &[u8],
) -> Result<Taken, StepFault>
    ensures { GivesStep result (begin form count before digits.now line.now) }
{
    match line.strip_prefix(b"block ") {
        Some(rest) => numbered(alloc, form, count, before, digits, rest),
        None => Err(StepFault::Kind(ChainKind::BadLine)),
    }
}

/// The end of a block.
fn end_block(form: FileForm, count: u64, time: u64, txs: List<Tx>) -> Result<Taken, StepFault>
    requires { (count < most_blocks) × (time ≤ most_time) }
    ensures { GivesStep result (end_block form count time txs) }
{
    let count = count + 1;
    match block_of(count, time, txs) {
        Some(block) => Ok(Taken {
            place: Section::Between { form, count, time },
            ended: Some(block),
        }),
        None => Err(StepFault::Kind(ChainKind::TooManyTx)),
    }
}

/// A line that is no end, in a block that has so many transactions before it.
fn added_tx(alloc: Global, before: usize, line: &[u8]) -> Result<Option<Tx>, StepFault>
    ensures told { GivesTold result (next_tx before (tx_of line.now)) }
    ensures few { IfOk result (λ tx. before < most_transactions) }
{
    let tx = match read_tx(alloc, line) {
        Ok(tx) => tx,
        Err(LineFault::NoMemory) => return Err(StepFault::NoMemory),
        Err(LineFault::Bad) => return Err(StepFault::Kind(ChainKind::BadLine)),
    };
    if before >= MOST_TRANSACTIONS {
        return Err(StepFault::Kind(ChainKind::TooManyTx));
    }
    Ok(Some(tx))
}

/// What a line says in a block that has so many transactions before it: one more, or nothing where it ends the block.
pub fn told_within(alloc: Global, before: usize, line: &[u8]) -> Result<Option<Tx>, StepFault>
    ensures told { GivesTold result (told_within before line.now) }
    ensures few { IfOk result (λ told. IfSome told (λ tx. before < most_transactions)) }
{
    if line.len() > MOST_LINE_BYTES {
        return Err(StepFault::Kind(ChainKind::LineTooLong));
    }
    if line == b"end".as_slice() {
        return Ok(None);
    }
    added_tx(alloc, before, line)
}

/// Another line in a block.
fn add_tx(
    alloc: Global,
    form: FileForm,
    count: u64,
    time: u64,
    mut txs: List<Tx>,
    line: &[u8],
) -> Result<Taken, StepFault>
    ensures { GivesStep result (add_tx form count time txs (tx_of line.now)) }
{
    let tx = match read_tx(alloc, line) {
        Ok(tx) => tx,
        Err(LineFault::NoMemory) => return Err(StepFault::NoMemory),
        Err(LineFault::Bad) => return Err(StepFault::Kind(ChainKind::BadLine)),
    };
    if txs.len() >= MOST_TRANSACTIONS {
        return Err(StepFault::Kind(ChainKind::TooManyTx));
    }
    txs.push(tx)?;
    Ok(Taken {
        place: Section::Within {
            form,
            count,
            time,
            txs,
        },
        ended: None,
    })
}

/// A line in a block.
fn within(
    alloc: Global,
    form: FileForm,
    count: u64,
    time: u64,
    txs: List<Tx>,
    line: &[u8],
) -> Result<Taken, StepFault>
    requires { (count < most_blocks) × (time ≤ most_time) }
    ensures { GivesStep result (within form count time txs line.now) }
{
    if line == b"end".as_slice() {
        end_block(form, count, time, txs)
    } else {
        add_tx(alloc, form, count, time, txs, line)
    }
}

/// A line of any length.
fn line_step(alloc: Global, place: Section, digits: &[u8], line: &[u8]) -> Result<Taken, StepFault>
    requires { HasRoomInChain place }
    ensures { GivesStep result (line_step place digits.now line.now) }
{
    match place {
        Section::Start => header(line),
        Section::Between { form, count, time } => begin(alloc, form, count, time, digits, line),
        Section::Within {
            form,
            count,
            time,
            txs,
        } => within(alloc, form, count, time, txs, line),
    }
}

/// A line: what it leaves, where it has no fault. The digits are those that a hash has there.
pub fn step(alloc: Global, place: Section, digits: &[u8], line: &[u8]) -> Result<Taken, StepFault>
    requires { HasRoomInChain place }
    ensures { GivesStep result (step place digits.now line.now) }
{
    if line.len() > MOST_LINE_BYTES {
        return Err(StepFault::Kind(ChainKind::LineTooLong));
    }
    line_step(alloc, place, digits, line)
}
