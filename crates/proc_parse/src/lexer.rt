//! Tokens from bytes.

ghost use Rattle.std.specs.Prelude.{◌≡◌, ◌↔◌, ◌<◌, ◌≤◌, ◌+◌, ◌-◌, ◌^◌, ◌==◌, ◌&&◌, ◌||◌, not, nat_lt, nat_eq, List, ◌++◌, length, drop, true, IfSome, IfOk, IsErrOf, false};
ghost use Rattle.std.specs.Option.{option_copied};
ghost use Rattle.std.specs.Cmp.Lexicographic.{pointwise};
ghost use Rattle.std.specs.List.{prefix_len, starts_with};
ghost use Rattle.rel_base.specs.Text.{is_lower_case, is_name_byte, has_name_form};
ghost use Rattle.literals.specs.Bytes.{bytes_at};
ghost use Rattle.literals.specs.Number.{u64_at};
ghost use Rattle.literals.specs.Text.{text_at};
ghost use Rattle.proc_parse.specs.Words.{spelling, mark};
ghost use Rattle.proc_parse.specs.Tokens.{Finds, word_in, run_len, run_lexeme, run_piece, opens_bytes, literal_piece, word_piece, int_or_bad, int_piece};
ghost use Rattle.proc_parse.specs.Tokens.{sign_in, sign_piece, is_space, is_comment, piece_at, moved, is_last, ends, put, unless_last, tokens_of};

use crate::runs::{run_len, run_lexeme};
use crate::token::{Lexeme, SIGNS, Sign, Token};
use literals::{LiteralFault, read_bytes, read_number, read_text};
use rel_base::{List, NoMemory};
use std::alloc::Global;

/// What stands at the start of some bytes.
#[derive(Drop)]
pub enum Piece {
    /// Spaces or a comment.
    Blank,
    /// The end of a line.
    Newline,
    Token(Lexeme),
}

/// A line and a column, from 1, columns in bytes.
#[derive(Clone, Copy, Debug, PartialEq, Eq)]
pub struct Position {
    pub line: u32,
    pub col: u32,
}

/// A reserved word or a name at the start.
fn run_piece(alloc: Global, bytes: &[u8]) -> Result<(Piece, &[u8]), NoMemory>
    ensures { Finds result (run_piece bytes.now) }
{
    let (run, rest) = bytes.split_at(run_len(bytes));
    let lexeme = run_lexeme(alloc, run)?;
    Ok((Piece::Token(lexeme), rest))
}

/// A byte string at the start.
fn bytes_piece(alloc: Global, bytes: &[u8]) -> Result<(Piece, &[u8]), NoMemory>
    ensures { Finds result (literal_piece Lexeme.Bytes (bytes_at bytes.now)) }
{
    match read_bytes(alloc, bytes) {
        Ok((value, rest)) => Ok((Piece::Token(Lexeme::Bytes(value)), rest)),
        Err(LiteralFault::Bad) => Ok((Piece::Token(Lexeme::Bad), &[])),
        Err(LiteralFault::NoMemory) => Err(NoMemory),
    }
}

/// A text at the start.
fn text_piece(alloc: Global, bytes: &[u8]) -> Result<(Piece, &[u8]), NoMemory>
    ensures { Finds result (literal_piece Lexeme.Text (text_at bytes.now)) }
{
    match read_text(alloc, bytes) {
        Ok((value, rest)) => Ok((Piece::Token(Lexeme::Text(value)), rest)),
        Err(LiteralFault::Bad) => Ok((Piece::Token(Lexeme::Bad), &[])),
        Err(LiteralFault::NoMemory) => Err(NoMemory),
    }
}

/// Whether a byte string begins here.
fn opens_bytes(bytes: &[u8]) -> bool
    ensures { result ≡ opens_bytes bytes.now }
{
    matches!(bytes, [b'x', b'"', ..])
}

/// What begins with a letter.
fn word_piece(alloc: Global, bytes: &[u8]) -> Result<(Piece, &[u8]), NoMemory>
    ensures { Finds result (word_piece bytes.now) }
{
    if opens_bytes(bytes) {
        bytes_piece(alloc, bytes)
    } else {
        run_piece(alloc, bytes)
    }
}

/// The number of an `int`, if it is small enough.
fn int_of(number: u64) -> Lexeme
    ensures { result ≡ int_or_bad number }
{
    if number < 1 << 63 {
        Lexeme::Int(number as i64)
    } else {
        Lexeme::Bad
    }
}

/// A number at the start.
fn int_piece(bytes: &[u8]) -> (Piece, &[u8])
    ensures { (result.0, result.1.now) ≡ int_piece (u64_at bytes.now) }
{
    match read_number(bytes) {
        Some((number, rest)) => (Piece::Token(int_of(number)), rest),
        None => (Piece::Token(Lexeme::Bad), &[]),
    }
}

/// Whether some bytes begin with a sign.
fn begins_with(bytes: &[u8], sign: Sign) -> bool
    ensures { result ≡ starts_with nat_eq bytes.now (mark sign) }
{
    bytes.starts_with(sign.mark().as_bytes())
}

/// The first of these signs that some bytes begin with.
fn sign_in(signs: &[Sign], bytes: &[u8]) -> Option<Sign>
    ensures found { result ≡ sign_in signs.now bytes.now }
    ensures begins { IfSome result (λ sign. starts_with nat_eq bytes.now (mark sign) ≡ true) }
{
    for sign in signs {
        if begins_with(bytes, *sign) {
            return Some(*sign);
        }
    }
    None
}

/// The bytes after a sign that they begin with.
fn after_sign(bytes: &[u8], sign: Sign) -> &[u8]
    requires { starts_with nat_eq bytes.now (mark sign) ≡ true }
    ensures { result.now ≡ drop (length (mark sign)) bytes.now }
{
    &bytes[sign.mark().len()..]
}

/// A sign at the start.
fn sign_piece(bytes: &[u8]) -> (Piece, &[u8])
    ensures { (result.0, result.1.now) ≡ sign_piece bytes.now }
{
    match sign_in(&SIGNS, bytes) {
        Some(sign) => (Piece::Token(Lexeme::Sign(sign)), after_sign(bytes, sign)),
        None => (Piece::Token(Lexeme::Bad), &[]),
    }
}

/// How many bytes of a comment stand at the start.
fn comment_len(bytes: &[u8]) -> usize
    ensures value { result ≡ prefix_len is_comment bytes.now }
    ensures bound { result ≤ length bytes.now }
{
    for (at, byte) in bytes.iter().enumerate() {
        if *byte >= 128 || *byte == b'\n' {
            return at;
        }
    }
    bytes.len()
}

/// What stands after the bytes of a comment.
fn after_comment(bytes: &[u8]) -> &[u8]
    ensures { result.now ≡ drop (prefix_len is_comment bytes.now) bytes.now }
{
    &bytes[comment_len(bytes)..]
}

/// What stands at the start of some bytes, and the bytes after it.
fn next_piece(alloc: Global, bytes: &[u8]) -> Result<(Piece, &[u8]), NoMemory>
    ensures { Finds result (piece_at bytes.now) }
{
    match bytes {
        [] => Ok((Piece::Token(Lexeme::End), bytes)),
        [b'\n', rest @ ..] => Ok((Piece::Newline, rest)),
        [b' ' | b'\t', rest @ ..] => Ok((Piece::Blank, rest)),
        [b'#', rest @ ..] => Ok((Piece::Blank, after_comment(rest))),
        [b'a'..=b'z', ..] => word_piece(alloc, bytes),
        [b'0'..=b'9', ..] => Ok(int_piece(bytes)),
        [b'"', ..] => text_piece(alloc, bytes),
        _ => Ok(sign_piece(bytes)),
    }
}

/// The place after a piece of so many bytes.
fn moved(piece: &Piece, len: usize, place: Position) -> Position
    requires line { place.line + len < 2 ^ 32 }
    requires col { place.col + len < 2 ^ 32 }
    requires newline { piece.now ≡ Piece.Newline → 0 < len }
    ensures { result ≡ moved piece.now len place }
{
    match piece {
        Piece::Newline => Position {
            line: place.line + 1,
            col: 1,
        },
        Piece::Blank | Piece::Token(_) => Position {
            line: place.line,
            col: place.col + len as u32,
        },
    }
}

/// Whether nothing is read after this.
fn is_last(lexeme: &Lexeme) -> bool
    ensures { result ≡ is_last lexeme.now }
{
    matches!(lexeme, Lexeme::End | Lexeme::Bad)
}

/// Puts the token of a piece at the end, and answers whether it is the last one.
fn put(
    tokens: &mut List<Token>,
    piece: Piece,
    place: Position,
    start: u32,
    end: u32,
) -> Result<bool, NoMemory>
    ensures tokens { IfOk result (λ last. (behind : List Token) → tokens.old ++ put piece place start end behind ≡ tokens.new ++ unless_last last behind) }
    ensures last { IfOk result (λ last. last ≡ ends piece) }
{
    match piece {
        Piece::Blank | Piece::Newline => Ok(false),
        Piece::Token(lexeme) => {
            let last = is_last(&lexeme);
            tokens.push(Token {
                lexeme,
                line: place.line,
                col: place.col,
                start,
                end,
            })?;
            Ok(last)
        }
    }
}

/// The tokens of a text, of which the last is the end or the first that is bad.
#[tactic(auto, using(crate::proofs::Pieces::found_most, crate::proofs::Pieces::found_less))]
pub fn tokens(alloc: Global, text: &[u8]) -> Result<List<Token>, NoMemory>
    requires { length text.now < 2 ^ 32 - 1 }
    ensures { IfOk result (λ tokens. tokens ≡ tokens_of text.now) }
{
    let mut tokens = List::new(alloc);
    let mut rest = text;
    let mut place = Position { line: 1, col: 1 };
    loop {
        let (piece, after) = next_piece(alloc, rest)?;
        let start = (text.len() - rest.len()) as u32;
        let end = (text.len() - after.len()) as u32;
        let next = moved(&piece, rest.len() - after.len(), place);
        if put(&mut tokens, piece, place, start, end)? {
            return Ok(tokens);
        }
        rest = after;
        place = next;
    }
}
