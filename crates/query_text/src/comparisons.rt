//! Comparisons.

ghost use Rattle.std.specs.Prelude.{◌≡◌, IfOk};
ghost use Rattle.std.specs.Option.{option_map};
ghost use Rattle.proc_parse.specs.Expressions.{is_name};
ghost use Rattle.proc_parse.specs.Reading.{Gives, begins};
ghost use Rattle.proc_parse.specs.Words.{is_sign};
ghost use Rattle.query_text.specs.Grammar.{comparison, given_at, given_side, literal_side, minus, minus_side, negated_of, relation, relation_of, relation_of_sign, side};
ghost use Rattle.query_text.specs.Shorter.{shortens_comparison};

use crate::names::place_of;
use crate::tree::{ColText, ComparisonText, SideText};
use proc_parse::lexer::Position;
use proc_parse::operands::{begins_with_name, value_of};
use proc_parse::phrase::{Parsed, Phrase, Stop};
use proc_parse::{Lexeme, Sign, Token};
use query_plan::Relation;
use query_plan::tally::int_value;
use rel_base::Value;
use std::alloc::Global;

/// The relation that a sign asks for.
fn relation_of_sign(sign: Sign) -> Option<Relation>
    ensures { result ≡ relation_of_sign sign }
{
    match sign {
        Sign::Equal => Some(Relation::Equal),
        Sign::NotEqual => Some(Relation::NotEqual),
        Sign::Less => Some(Relation::Less),
        Sign::LessEqual => Some(Relation::LessOrEqual),
        Sign::Greater => Some(Relation::Greater),
        Sign::GreaterEqual => Some(Relation::GreaterOrEqual),
        _ => None,
    }
}

/// The relation that a token asks for.
fn relation_of(lexeme: &Lexeme) -> Option<Relation>
    ensures { result ≡ relation_of lexeme.now }
{
    match lexeme {
        Lexeme::Sign(sign) => relation_of_sign(*sign),
        _ => None,
    }
}

/// Reads a relation.
fn relation(tokens: &[Token]) -> Parsed<'_, Relation>
    ensures { Gives result (relation tokens.now) }
{
    let [first, rest @ ..] = tokens else {
        return Err(Stop::At(tokens));
    };
    match relation_of(&first.lexeme) {
        Some(relation) => Ok((relation, rest)),
        None => Err(Stop::At(tokens)),
    }
}

/// The value of a number after a minus sign.
fn negated_of(lexeme: &Lexeme) -> Option<Value>
    ensures { result ≡ negated_of lexeme.now }
{
    match lexeme {
        Lexeme::Int(number) => int_value(-i128::from(*number)),
        _ => None,
    }
}

/// Where a minus sign stands, if it is the first token.
fn minus(tokens: &[Token]) -> Parsed<'_, Position>
    ensures { Gives result (minus tokens.now) }
{
    match tokens {
        [first, rest @ ..] if first.is_sign(Sign::Minus) => Ok((place_of(first), rest)),
        _ => Err(Stop::At(tokens)),
    }
}

/// Reads a number after a minus sign, which stands at a place.
fn given_side(tokens: &[Token], at: Position) -> Parsed<'_, SideText>
    ensures { Gives result (given_side at tokens.now) }
{
    let [first, rest @ ..] = tokens else {
        return Err(Stop::At(tokens));
    };
    match negated_of(&first.lexeme) {
        Some(value) => Ok((SideText::Given { value, at }, rest)),
        None => Err(Stop::At(tokens)),
    }
}

/// Reads a number below 0.
fn minus_side(tokens: &[Token]) -> Parsed<'_, SideText>
    ensures { Gives result (minus_side tokens.now) }
{
    let (at, rest) = minus(tokens)?;
    given_side(rest, at)
}

/// Reads a literal.
fn literal_side<'a>(alloc: Global, tokens: &'a [Token]) -> Parsed<'a, SideText>
    ensures { Gives result (literal_side tokens.now) }
{
    let [first, rest @ ..] = tokens else {
        return Err(Stop::At(tokens));
    };
    match value_of(alloc, &first.lexeme)? {
        Some(value) => Ok((
            SideText::Given {
                value,
                at: place_of(first),
            },
            rest,
        )),
        None => Err(Stop::At(tokens)),
    }
}

/// Whether a minus sign is the first token.
fn begins_with_minus(tokens: &[Token]) -> bool
    ensures { result ≡ begins (is_sign Sign.Minus) tokens.now }
{
    match tokens {
        [first, ..] => first.is_sign(Sign::Minus),
        [] => false,
    }
}

/// Reads the right side of a comparison.
fn side<'a>(alloc: Global, tokens: &'a [Token]) -> Parsed<'a, SideText>
    ensures { Gives result (side tokens.now) }
{
    if begins_with_name(tokens) {
        let (col, rest) = ColText::read(alloc, tokens)?;
        Ok((SideText::Field(col), rest))
    } else if begins_with_minus(tokens) {
        minus_side(tokens)
    } else {
        literal_side(alloc, tokens)
    }
}

impl Phrase for ComparisonText {
    ghost rule = { comparison };

    fn read<'a>(alloc: Global, tokens: &'a [Token]) -> Parsed<'a, ComparisonText> {
        let (left, rest) = ColText::read(alloc, tokens)?;
        let (relation, rest) = relation(rest)?;
        let (right, rest) = side(alloc, rest)?;
        Ok((
            ComparisonText {
                left,
                relation,
                right,
            },
            rest,
        ))
    }

    ghost shortens = { shortens_comparison };
}
