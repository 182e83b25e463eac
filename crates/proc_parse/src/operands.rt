//! What operands begin with: literals, `now`, names, columns, and what stands before another operand.

ghost use Rattle.std.specs.Prelude.{◌≡◌, IfOk};
ghost use Rattle.proc_parse.specs.Words.{is_sign, is_word};
ghost use Rattle.proc_parse.specs.Reading.{Gives, begins};
ghost use Rattle.proc_parse.specs.Expressions.{value_of, single, is_name, field_of, name_or_field, line_at};

use crate::phrase::{Parsed, Phrase, Stop, past_sign};
use crate::token::{Lexeme, Sign, Token, Word};
use proc_syntax::{Expr, Named};
use rel_base::{NoMemory, Twin, Value};
use std::alloc::Global;

/// The value that a token spells.
pub fn value_of(alloc: Global, lexeme: &Lexeme) -> Result<Option<Value>, NoMemory>
    ensures { IfOk result (λ value. value ≡ value_of lexeme.now) }
{
    match lexeme {
        Lexeme::Int(number) => Ok(Some(Value::Int(*number))),
        Lexeme::Text(text) => Ok(Some(Value::Text(text.copy(alloc)?))),
        Lexeme::Bytes(bytes) => Ok(Some(Value::Bytes(bytes.copy(alloc)?))),
        Lexeme::Word(Word::True) => Ok(Some(Value::Bool(true))),
        Lexeme::Word(Word::False) => Ok(Some(Value::Bool(false))),
        _ => Ok(None),
    }
}

/// Reads an operand of one token: a literal, or `now`.
pub fn single<'a>(alloc: Global, tokens: &'a [Token]) -> Parsed<'a, Expr>
    ensures { Gives result (single tokens.now) }
{
    let [first, rest @ ..] = tokens else {
        return Err(Stop::At(tokens));
    };
    if first.is_word(Word::Now) {
        return Ok((Expr::Now { line: first.line }, rest));
    }
    match value_of(alloc, &first.lexeme)? {
        Some(value) => Ok((
            Expr::Value {
                value,
                line: first.line,
            },
            rest,
        )),
        None => Err(Stop::At(tokens)),
    }
}

/// Reads a name, or a name and that of a column.
pub fn name_or_field<'a>(alloc: Global, tokens: &'a [Token]) -> Parsed<'a, Expr>
    ensures { Gives result (name_or_field tokens.now) }
{
    let (name, rest) = Named::read(alloc, tokens)?;
    match past_sign(rest, Sign::Dot) {
        Some(rest) => field(alloc, name, rest),
        None => Ok((Expr::Var(name), rest)),
    }
}

/// Reads the column of a row.
fn field<'a>(alloc: Global, row: Named, tokens: &'a [Token]) -> Parsed<'a, Expr>
    ensures { Gives result (field_of row tokens.now) }
{
    let (column, rest) = Named::read(alloc, tokens)?;
    Ok((Expr::Field { row, column }, rest))
}

/// Whether a name is the first token.
pub fn begins_with_name(tokens: &[Token]) -> bool
    ensures { result ≡ begins is_name tokens.now }
{
    matches!(
        tokens,
        [
            Token {
                lexeme: Lexeme::Name(_),
                ..
            },
            ..
        ]
    )
}

/// Whether a sign is the first token.
pub fn begins_with_sign(tokens: &[Token], sign: Sign) -> bool
    ensures { result ≡ begins (is_sign sign) tokens.now }
{
    match tokens {
        [first, ..] => first.is_sign(sign),
        [] => false,
    }
}

/// Reads a sign, and answers its line too.
pub fn sign_line(tokens: &[Token], sign: Sign) -> Parsed<'_, u32>
    ensures { Gives result (line_at (is_sign sign) tokens.now) }
{
    match tokens {
        [first, rest @ ..] if first.is_sign(sign) => Ok((first.line, rest)),
        _ => Err(Stop::At(tokens)),
    }
}

/// Reads a word, and answers its line too.
pub fn word_line(tokens: &[Token], word: Word) -> Parsed<'_, u32>
    ensures { Gives result (line_at (is_word word) tokens.now) }
{
    match tokens {
        [first, rest @ ..] if first.is_word(word) => Ok((first.line, rest)),
        _ => Err(Stop::At(tokens)),
    }
}
