//! The tokens of a text by their places, for readers of other languages over the same tokens.

ghost use Rattle.std.specs.Prelude.{◌≡◌, ◌≤◌, IfOk, length};
ghost use Rattle.proc_parse.specs.Spans.{AreApart, Puts, Spans, spans_among, spans_of, step_of};

use crate::lexer;
use crate::token::{Lexeme, Token as Lexed};
use rel_base::{List, NoMemory};
use std::alloc::Global;

/// The form of a token.
#[derive(Clone, Copy, Debug, PartialEq, Eq)]
pub enum TokenKind {
    /// A reserved word.
    Word,
    Name,
    Int,
    Text,
    Bytes,
    Sign,
}

/// A token: its form, its line and column, which count from 1, columns in bytes, and the places from 0 of its first byte and of the
/// byte after its last one.
#[derive(Clone, Copy, Debug, PartialEq, Eq)]
pub struct Token {
    pub kind: TokenKind,
    pub line: u32,
    pub col: u32,
    pub start: u32,
    pub end: u32,
}

/// Why a text has no tokens.
#[derive(Clone, Copy, Debug, PartialEq, Eq)]
pub enum TokenFault {
    /// Memory ran out.
    NoMemory,
    /// Bytes that are no token: where the first of them stands.
    Bad { line: u32, col: u32 },
}

impl From<NoMemory> for TokenFault {
    ghost use Rattle.proc_parse.specs.declared.spans.TokenFault.TheVariants as fault;

    ghost from_gives = { λ _ e. e ≡ fault.NoMemory };

    fn from(_error: NoMemory) -> TokenFault {
        TokenFault::NoMemory
    }
}

/// What a token of the lexer adds to the tokens.
#[derive(Clone, Copy)]
pub enum Step {
    Token(TokenKind),
    End,
    Bad,
}

/// What a lexeme adds.
fn step_of(lexeme: &Lexeme) -> Step
    ensures { result ≡ step_of lexeme.now }
{
    match lexeme {
        Lexeme::Word(_) => Step::Token(TokenKind::Word),
        Lexeme::Name(_) => Step::Token(TokenKind::Name),
        Lexeme::Int(_) => Step::Token(TokenKind::Int),
        Lexeme::Text(_) => Step::Token(TokenKind::Text),
        Lexeme::Bytes(_) => Step::Token(TokenKind::Bytes),
        Lexeme::Sign(_) => Step::Token(TokenKind::Sign),
        Lexeme::Bad => Step::Bad,
        Lexeme::End => Step::End,
    }
}

/// Puts what a token of the lexer adds at the end, and answers whether it is the last one.
fn add(tokens: &mut List<Token>, lexed: &Lexed) -> Result<bool, TokenFault>
    ensures { Puts result (step_of lexed.now.lexeme) lexed.now tokens.old tokens.new }
{
    match step_of(&lexed.lexeme) {
        Step::Token(kind) => {
            tokens.push(Token {
                kind,
                line: lexed.line,
                col: lexed.col,
                start: lexed.start,
                end: lexed.end,
            })?;
            Ok(false)
        }
        Step::End => Ok(true),
        Step::Bad => Err(TokenFault::Bad {
            line: lexed.line,
            col: lexed.col,
        }),
    }
}

/// The tokens of the lexer by their places, or where the first bytes stand that are none.
fn spans_among(alloc: Global, lexed: &[Lexed]) -> Result<List<Token>, TokenFault>
    ensures { Spans result (spans_among lexed.now) }
{
    let mut tokens = List::new(alloc);
    for token in lexed {
        if add(&mut tokens, token)? {
            return Ok(tokens);
        }
    }
    Ok(tokens)
}

/// The tokens of a text, in order, each with its form, its line and column and its span, or where the first bytes stand that are none.
#[tactic(auto, using(crate::proofs::Spanned::apart_of))]
pub fn tokens(alloc: Global, text: &[u8]) -> Result<List<Token>, TokenFault>
    requires { length text.now ≤ 1048576 }
    ensures meant { Spans result (spans_of text.now) }
    // Each token takes bytes, and each begins at the end of the one before or later.
    ensures apart { IfOk result (AreApart 0) }
{
    let lexed = lexer::tokens(alloc, text)?;
    let spans = spans_among(alloc, lexed.as_slice())?;
    Ok(spans)
}
