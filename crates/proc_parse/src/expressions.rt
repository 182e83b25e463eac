//! Expressions.

ghost use Rattle.std.specs.Prelude.{◌≡◌, ◌<◌, ◌≤◌, ◌-◌, IfOk};
ghost use Rattle.proc_parse.specs.Reading.{Gives};
ghost use Rattle.proc_parse.specs.Found.{found_op};
ghost use Rattle.proc_parse.specs.Expressions.{comparison_op, op_of, op_at, chain_from, chain_after, chain_of};
ghost use Rattle.proc_parse.specs.Expressions.{inner, operand_of, atom_of, unary_of, comparison_of, negation_of, expression};
ghost use Rattle.proc_parse.specs.Shorter.{shortens_expression};

use crate::operands::{
    begins_with_name, begins_with_sign, name_or_field, sign_line, single, word_line,
};
use crate::phrase::{Parsed, Phrase, Stop, begins, letting_go, sign};
use crate::token::{Lexeme, Sign, Token, Word};
use proc_syntax::{Expr, Op};
use rel_base::{Boxed, NoMemory};
use std::alloc::Global;

/// How many of `not`, `-` and `(` may be open at one place of an expression.
const MOST_OPEN: usize = 16;

/// How many operators a chain may have.
const MOST_OPERATORS: usize = 32;

/// A chain of operands, from the one that binds least.
#[derive(Clone, Copy, Debug, PartialEq, Eq)]
pub enum Level {
    Or,
    And,
    Sum,
    Term,
}

fn comparison_op(lexeme: &Lexeme) -> Option<Op>
    ensures { result ≡ comparison_op lexeme.now }
{
    match lexeme {
        Lexeme::Sign(Sign::Equal) => Some(Op::Eq),
        Lexeme::Sign(Sign::NotEqual) => Some(Op::Ne),
        Lexeme::Sign(Sign::Less) => Some(Op::Lt),
        Lexeme::Sign(Sign::LessEqual) => Some(Op::Le),
        Lexeme::Sign(Sign::Greater) => Some(Op::Gt),
        Lexeme::Sign(Sign::GreaterEqual) => Some(Op::Ge),
        _ => None,
    }
}

/// The operator of a chain that a token is.
fn op_of(level: Level, lexeme: &Lexeme) -> Option<Op>
    ensures { result ≡ op_of level lexeme.now }
{
    match (level, lexeme) {
        (Level::Or, Lexeme::Word(Word::Or)) => Some(Op::Or),
        (Level::And, Lexeme::Word(Word::And)) => Some(Op::And),
        (Level::Sum, Lexeme::Sign(Sign::Plus)) => Some(Op::Add),
        (Level::Sum, Lexeme::Sign(Sign::Minus)) => Some(Op::Sub),
        (Level::Sum, Lexeme::Sign(Sign::Join)) => Some(Op::Join),
        (Level::Term, Lexeme::Sign(Sign::Star)) => Some(Op::Mul),
        (Level::Term, Lexeme::Sign(Sign::Slash)) => Some(Op::Div),
        (Level::Term, Lexeme::Sign(Sign::Percent)) => Some(Op::Rem),
        _ => None,
    }
}

/// The operator of a chain at the start, and what follows it.
fn chain_op(level: Level, tokens: &[Token]) -> Option<(Op, &[Token])>
    ensures { found_op result ≡ op_at (op_of level) tokens.now }
{
    let [first, rest @ ..] = tokens else {
        return None;
    };
    match op_of(level, &first.lexeme) {
        Some(op) => Some((op, rest)),
        None => None,
    }
}

/// The comparison at the start, and what follows it.
fn comparison_at(tokens: &[Token]) -> Option<(Op, &[Token])>
    ensures { found_op result ≡ op_at comparison_op tokens.now }
{
    let [first, rest @ ..] = tokens else {
        return None;
    };
    match comparison_op(&first.lexeme) {
        Some(op) => Some((op, rest)),
        None => None,
    }
}

/// Two expressions with an operator between them.
fn two(alloc: Global, op: Op, left: Expr, right: Expr) -> Result<Expr, NoMemory>
    ensures { IfOk result (λ made. made ≡ Expr.Two op left right) }
{
    let left = Boxed::new(alloc, left)?;
    let right = Boxed::new(alloc, right)?;
    Ok(Expr::Two { op, left, right })
}

/// Reads an operand without a sign before it.
#[cycle(operands)]
fn atom<'a>(alloc: Global, depth: usize, tokens: &'a [Token]) -> Parsed<'a, Expr>
    ensures { Gives result (atom_of (inner depth) tokens.now) }
{
    if begins_with_sign(tokens, Sign::Open) {
        return group(alloc, depth, tokens);
    }
    if begins_with_name(tokens) {
        return name_or_field(alloc, tokens);
    }
    single(alloc, tokens)
}

/// Reads an expression in parentheses, where so many more may be open.
#[cycle(operands)]
#[tactic(auto, using(crate::proofs::Depth::parens_less, crate::proofs::Depth::parens_none))]
fn group<'a>(alloc: Global, depth: usize, tokens: &'a [Token]) -> Parsed<'a, Expr>
    ensures { Gives result ((inner depth).parens tokens.now) }
{
    if depth == 0 {
        return Err(Stop::At(tokens));
    }
    let (line, rest) = sign_line(tokens, Sign::Open)?;
    let (inner, rest) = chain(alloc, Level::Or, depth - 1, rest)?;
    let rest = match sign(rest, Sign::Close) {
        Ok(rest) => rest,
        Err(stop) => return Err(letting_go(inner, stop)),
    };
    let inner = Boxed::new(alloc, inner)?;
    Ok((Expr::Paren { inner, line }, rest))
}

/// Reads an operand of a product.
#[cycle(operands)]
fn unary<'a>(alloc: Global, depth: usize, tokens: &'a [Token]) -> Parsed<'a, Expr>
    ensures { Gives result (unary_of (inner depth) tokens.now) }
{
    if begins_with_sign(tokens, Sign::Minus) {
        negative(alloc, depth, tokens)
    } else {
        atom(alloc, depth, tokens)
    }
}

/// Reads what begins with `-`.
#[cycle(operands)]
#[tactic(auto, using(crate::proofs::Depth::minus_less, crate::proofs::Depth::minus_none))]
fn negative<'a>(alloc: Global, depth: usize, tokens: &'a [Token]) -> Parsed<'a, Expr>
    ensures { Gives result ((inner depth).minus tokens.now) }
{
    if depth == 0 {
        return Err(Stop::At(tokens));
    }
    let (line, rest) = sign_line(tokens, Sign::Minus)?;
    let (inner, rest) = unary(alloc, depth - 1, rest)?;
    let inner = Boxed::new(alloc, inner)?;
    Ok((Expr::Neg { inner, line }, rest))
}

/// What remains of a chain: it may have so many more operators, and in its operands so many more `not`, `-` and `(` may be open.
#[derive(Clone, Copy, Debug, PartialEq, Eq)]
struct OpenChain {
    level: Level,
    depth: usize,
    most: usize,
}

/// Reads a chain of operands.
#[cycle(operands)]
fn chain<'a>(alloc: Global, level: Level, depth: usize, tokens: &'a [Token]) -> Parsed<'a, Expr>
    ensures { Gives result (chain_of (op_of level) (operand_of level (inner depth)) tokens.now) }
{
    let (left, rest) = operand(alloc, level, depth, tokens)?;
    let chain = OpenChain {
        level,
        depth,
        most: MOST_OPERATORS,
    };
    more(alloc, chain, left, rest)
}

/// Reads the rest of a chain.
#[cycle(operands)]
fn more<'a>(alloc: Global, chain: OpenChain, left: Expr, tokens: &'a [Token]) -> Parsed<'a, Expr>
    requires { chain.most ≤ 32 }
    ensures { Gives result (chain_from (op_of chain.level) (operand_of chain.level (inner chain.depth)) chain.most left tokens.now) }
{
    match chain_op(chain.level, tokens) {
        Some((op, rest)) => {
            if chain.most == 0 {
                return Err(letting_go(left, Stop::At(tokens)));
            }
            let most = chain.most - 1;
            more_after(alloc, OpenChain { most, ..chain }, left, op, rest)
        }
        None => Ok((left, tokens)),
    }
}

/// Reads the rest of a chain after an operator, which is counted already.
#[cycle(operands)]
fn more_after<'a>(
    alloc: Global,
    chain: OpenChain,
    left: Expr,
    op: Op,
    tokens: &'a [Token],
) -> Parsed<'a, Expr>
    requires { chain.most < 32 }
    ensures { Gives result (chain_after (op_of chain.level) (operand_of chain.level (inner chain.depth)) chain.most left op tokens.now) }
{
    let (right, rest) = match operand(alloc, chain.level, chain.depth, tokens) {
        Ok(read) => read,
        Err(stop) => return Err(letting_go(left, stop)),
    };
    let left = two(alloc, op, left, right)?;
    more(alloc, chain, left, rest)
}

/// Reads an operand of a chain.
#[cycle(operands)]
fn operand<'a>(alloc: Global, level: Level, depth: usize, tokens: &'a [Token]) -> Parsed<'a, Expr>
    ensures { Gives result (operand_of level (inner depth) tokens.now) }
{
    match level {
        Level::Or => chain(alloc, Level::And, depth, tokens),
        Level::And => negation(alloc, depth, tokens),
        Level::Sum => chain(alloc, Level::Term, depth, tokens),
        Level::Term => unary(alloc, depth, tokens),
    }
}

/// Reads a sum, or a comparison of two.
#[cycle(operands)]
fn comparison<'a>(alloc: Global, depth: usize, tokens: &'a [Token]) -> Parsed<'a, Expr>
    ensures { Gives result (comparison_of (inner depth) tokens.now) }
{
    let (left, rest) = chain(alloc, Level::Sum, depth, tokens)?;
    match comparison_at(rest) {
        Some((op, rest)) => {
            let (right, rest) = match chain(alloc, Level::Sum, depth, rest) {
                Ok(read) => read,
                Err(stop) => return Err(letting_go(left, stop)),
            };
            Ok((two(alloc, op, left, right)?, rest))
        }
        None => Ok((left, rest)),
    }
}

/// Reads what begins with `not`.
#[cycle(operands)]
#[tactic(auto, using(crate::proofs::Depth::nots_less, crate::proofs::Depth::nots_none))]
fn denial<'a>(alloc: Global, depth: usize, tokens: &'a [Token]) -> Parsed<'a, Expr>
    ensures { Gives result ((inner depth).nots tokens.now) }
{
    if depth == 0 {
        return Err(Stop::At(tokens));
    }
    let (line, rest) = word_line(tokens, Word::Not)?;
    let (inner, rest) = negation(alloc, depth - 1, rest)?;
    let inner = Boxed::new(alloc, inner)?;
    Ok((Expr::Not { inner, line }, rest))
}

/// Reads an operand of `and`.
#[cycle(operands)]
fn negation<'a>(alloc: Global, depth: usize, tokens: &'a [Token]) -> Parsed<'a, Expr>
    ensures { Gives result (negation_of (inner depth) tokens.now) }
{
    if begins(tokens, Word::Not) {
        denial(alloc, depth, tokens)
    } else {
        comparison(alloc, depth, tokens)
    }
}

impl Phrase for Expr {
    ghost rule = { expression };

    fn read<'a>(alloc: Global, tokens: &'a [Token]) -> Parsed<'a, Expr> {
        chain(alloc, Level::Or, MOST_OPEN, tokens)
    }

    ghost shortens = { shortens_expression };
}
