//! Statements and blocks.

ghost use Rattle.std.specs.Prelude.{◌≡◌, ◌<◌, ◌-◌, None};
ghost use Rattle.proc_parse.specs.Words.{is_word};
ghost use Rattle.proc_parse.specs.Reading.{Gives, begins, behind, done, one};
ghost use Rattle.proc_parse.specs.Lists.{many_of};
ghost use Rattle.proc_parse.specs.Statements.{some_block, branches, if_statement, two_blocks, get_statement, some_expression, span_end, span, for_statement};
ghost use Rattle.proc_parse.specs.Statements.{head_of_word, head_of_lexeme, head_of, statement_of, no_close, block_at};

use crate::names::named_behind;
use crate::phrase::{Parsed, Phrase, Stop, ended, letting_go, past_word, sign, word};
use crate::plain_statements::{
    assignment, delete_statement, fail_statement, insert_statement, keyed, let_statement,
    update_statement,
};
use crate::token::{Lexeme, Sign, Token, Word};
use proc_syntax::{Expr, Named, Stmt};
use rel_base::{List, NoMemory};
use std::alloc::Global;

/// How deep blocks may be, that of the procedure being the first.
pub const DEEPEST_BLOCK: usize = 16;

/// What a statement begins with.
#[derive(Clone, Copy, Debug, PartialEq, Eq)]
pub enum Head {
    Let,
    If,
    Get,
    For,
    Insert,
    Update,
    Delete,
    Fail,
    /// A name, or what begins no statement.
    Name,
}

fn head_of_word(word: Word) -> Head
    ensures { result ≡ head_of_word word }
{
    match word {
        Word::Let => Head::Let,
        Word::If => Head::If,
        Word::Get => Head::Get,
        Word::For => Head::For,
        Word::Insert => Head::Insert,
        Word::Update => Head::Update,
        Word::Delete => Head::Delete,
        Word::Fail => Head::Fail,
        _ => Head::Name,
    }
}

fn head_of_lexeme(lexeme: &Lexeme) -> Head
    ensures { result ≡ head_of_lexeme lexeme.now }
{
    match lexeme {
        Lexeme::Word(word) => head_of_word(*word),
        _ => Head::Name,
    }
}

/// The statement that the tokens begin.
fn head_of(tokens: &[Token]) -> Head
    ensures { result ≡ head_of tokens.now }
{
    match tokens {
        [first, ..] => head_of_lexeme(&first.lexeme),
        [] => Head::Name,
    }
}

/// Reads a whole expression, as one that need not have come.
fn some_expression<'a>(alloc: Global, tokens: &'a [Token]) -> Parsed<'a, Option<Expr>>
    ensures { Gives result (some_expression tokens.now) }
{
    let (expr, rest) = Expr::read(alloc, tokens)?;
    Ok((Some(expr), rest))
}

/// Reads an end of a span after its word, which may be absent.
fn span_end<'a>(alloc: Global, tokens: &'a [Token], word: Word) -> Parsed<'a, Option<Expr>>
    ensures { Gives result (span_end word tokens.now) }
{
    match past_word(tokens, word) {
        Some(rest) => some_expression(alloc, rest),
        None => Ok((None, tokens)),
    }
}

/// What the rows of a `for` are chosen by: a column, and the ends between which its values lie.
type SpanParts = (Named, Option<Expr>, Option<Expr>);

/// Reads `span on COLUMN from LOW to HIGH`, of which each end may be absent.
fn span<'a>(alloc: Global, tokens: &'a [Token]) -> Parsed<'a, SpanParts>
    ensures { Gives result (span tokens.now) }
{
    let rest = word(tokens, Word::Span)?;
    let (column, rest) = named_behind(alloc, rest, Word::On)?;
    let (low, rest) = span_end(alloc, rest, Word::From)?;
    let (high, rest) = match span_end(alloc, rest, Word::To) {
        Ok(read) => read,
        Err(stop) => return Err(letting_go((column, low), stop)),
    };
    Ok(((column, low, high), rest))
}

/// Reads a block where blocks may be so deep.
#[cycle(blocks)]
#[tactic(auto, using(crate::proofs::Depth::block_less, crate::proofs::Depth::block_none))]
pub fn block<'a>(alloc: Global, depth: usize, tokens: &'a [Token]) -> Parsed<'a, List<Stmt>>
    ensures { Gives result (block_at depth tokens.now) }
{
    if depth == 0 {
        return Err(Stop::At(tokens));
    }
    let rest = sign(tokens, Sign::OpenBrace)?;
    let (body, rest) = statements(alloc, depth - 1, rest)?;
    ended(body, rest, Sign::CloseBrace)
}

/// Whether there is a token, and no brace that closes a block.
fn goes_on(tokens: &[Token]) -> bool
    ensures { result ≡ begins no_close tokens.now }
{
    match tokens {
        [first, ..] => !first.is_sign(Sign::CloseBrace),
        [] => false,
    }
}

/// Reads statements up to the brace that closes their block, where blocks in them may be so deep.
#[cycle(blocks)]
fn statements<'a>(alloc: Global, depth: usize, tokens: &'a [Token]) -> Parsed<'a, List<Stmt>>
    ensures { Gives result (many_of no_close (statement_of (block_at depth)) tokens.now) }
{
    let mut body = List::new(alloc);
    let mut rest = tokens;
    while goes_on(rest) {
        let (statement, after) = statement(alloc, depth, rest)?;
        body.push(statement)?;
        rest = after;
    }
    Ok((body, rest))
}

/// Reads a statement.
#[cycle(blocks)]
fn statement<'a>(alloc: Global, depth: usize, tokens: &'a [Token]) -> Parsed<'a, Stmt>
    ensures { Gives result (statement_of (block_at depth) tokens.now) }
{
    match head_of(tokens) {
        Head::Let => let_statement(alloc, tokens),
        Head::If => if_statement(alloc, depth, tokens),
        Head::Get => get_statement(alloc, depth, tokens),
        Head::For => for_statement(alloc, depth, tokens),
        Head::Insert => insert_statement(alloc, tokens),
        Head::Update => update_statement(alloc, tokens),
        Head::Delete => delete_statement(alloc, tokens),
        Head::Fail => fail_statement(alloc, tokens),
        Head::Name => assignment(alloc, tokens),
    }
}

/// Reads `if TEST { THEN } else { OTHER }`, of which the second block may be absent.
#[cycle(blocks)]
fn if_statement<'a>(alloc: Global, depth: usize, tokens: &'a [Token]) -> Parsed<'a, Stmt>
    ensures { Gives result (if_statement (block_at depth) tokens.now) }
{
    let rest = word(tokens, Word::If)?;
    let (test, rest) = Expr::read(alloc, rest)?;
    let ((then, other), rest) = match branches(alloc, depth, rest) {
        Ok(read) => read,
        Err(stop) => return Err(letting_go(test, stop)),
    };
    Ok((Stmt::If { test, then, other }, rest))
}

/// What is done where a test holds, and where it does not.
type Branches = (List<Stmt>, Option<List<Stmt>>);

/// Reads `{ THEN } else { OTHER }`, of which the second block may be absent.
#[cycle(blocks)]
fn branches<'a>(alloc: Global, depth: usize, tokens: &'a [Token]) -> Parsed<'a, Branches>
    ensures { Gives result (branches (block_at depth) tokens.now) }
{
    let (then, rest) = block(alloc, depth, tokens)?;
    let (other, rest) = other_block(alloc, depth, rest)?;
    Ok(((then, other), rest))
}

/// Reads `else { OTHER }`, which may be absent.
#[cycle(blocks)]
fn other_block<'a>(
    alloc: Global,
    depth: usize,
    tokens: &'a [Token],
) -> Parsed<'a, Option<List<Stmt>>>
    ensures { Gives result (behind (is_word Word.Else) (some_block (block_at depth)) (done None) tokens.now) }
{
    let Some(rest) = past_word(tokens, Word::Else) else {
        return Ok((None, tokens));
    };
    let (other, rest) = block(alloc, depth, rest)?;
    Ok((Some(other), rest))
}

/// Reads `get NAME from TABLE key (KEY) { FOUND } else { ABSENT }`.
#[cycle(blocks)]
fn get_statement<'a>(alloc: Global, depth: usize, tokens: &'a [Token]) -> Parsed<'a, Stmt>
    ensures { Gives result (get_statement (block_at depth) tokens.now) }
{
    let (name, rest) = named_behind(alloc, tokens, Word::Get)?;
    let ((table, key), rest) = keyed(alloc, rest, Word::From)?;
    let ((found, absent), rest) = match two_blocks(alloc, depth, rest) {
        Ok(read) => read,
        Err(stop) => return Err(letting_go((name, table, key), stop)),
    };
    let get = Stmt::Get {
        name,
        table,
        key,
        found,
        absent,
    };
    Ok((get, rest))
}

/// Reads `{ FOUND } else { ABSENT }`.
#[cycle(blocks)]
fn two_blocks<'a>(
    alloc: Global,
    depth: usize,
    tokens: &'a [Token],
) -> Parsed<'a, (List<Stmt>, List<Stmt>)>
    ensures { Gives result (two_blocks (block_at depth) tokens.now) }
{
    let (found, rest) = block(alloc, depth, tokens)?;
    let rest = word(rest, Word::Else)?;
    let (absent, rest) = block(alloc, depth, rest)?;
    Ok(((found, absent), rest))
}

/// Reads `for NAME in TABLE span on COLUMN from LOW to HIGH { BODY }`, of which each end may be absent.
#[cycle(blocks)]
fn for_statement<'a>(alloc: Global, depth: usize, tokens: &'a [Token]) -> Parsed<'a, Stmt>
    ensures { Gives result (for_statement (block_at depth) tokens.now) }
{
    let (name, rest) = named_behind(alloc, tokens, Word::For)?;
    let (table, rest) = named_behind(alloc, rest, Word::In)?;
    let ((column, low, high), rest) = span(alloc, rest)?;
    let (body, rest) = match block(alloc, depth, rest) {
        Ok(read) => read,
        Err(stop) => return Err(letting_go((name, table, column, low, high), stop)),
    };
    let each = Stmt::For {
        name,
        table,
        column,
        low,
        high,
        body,
    };
    Ok((each, rest))
}
