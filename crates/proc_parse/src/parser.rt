//! Applications from texts.

ghost use Rattle.std.specs.Prelude.{◌≡◌, ◌<◌, ◌-◌, ◌^◌, length, Some, None, IfOk};
ghost use Rattle.proc_parse.specs.Tokens.{tokens_of};
ghost use Rattle.proc_parse.specs.Grammar.{app_of};
ghost use Rattle.proc_parse.specs.Faults.{position_of, fault_at, IfSyntax, IsBehindViable, IsRefused};

use crate::declarations::application;
use crate::lexer::{Position, tokens};
use crate::phrase::Stop;
use crate::token::Token;
use proc_syntax::App;
use rel_base::NoMemory;
use std::alloc::Global;

/// Why there is no application.
#[derive(Clone, Copy, Debug, PartialEq, Eq)]
pub enum ParseFault {
    /// Memory ran out.
    NoMemory,
    /// The text is not in the grammar: the place of the first token that has none there, or of the end.
    Syntax { line: u32, col: u32 },
}

impl From<NoMemory> for ParseFault {
    ghost use Rattle.proc_parse.specs.declared.parser.ParseFault.TheVariants as fault;

    ghost from_gives = { λ _ e. e ≡ fault.NoMemory };

    fn from(_error: NoMemory) -> ParseFault {
        ParseFault::NoMemory
    }
}

/// The place of the first of some tokens.
pub fn position_of(tokens: &[Token]) -> Position
    ensures { result ≡ position_of tokens.now }
{
    match tokens {
        [first, ..] => Position {
            line: first.line,
            col: first.col,
        },
        [] => Position { line: 1, col: 1 },
    }
}

/// The fault of a text whose tokens from these on have no place.
fn fault_at(rest: &[Token]) -> ParseFault
    ensures { result ≡ ParseFault.Syntax (position_of rest.now).line (position_of rest.now).col }
{
    let Position { line, col } = position_of(rest);
    ParseFault::Syntax { line, col }
}

/// The application that a text is.
pub fn parse(alloc: Global, text: &[u8]) -> Result<App, ParseFault>
    requires { length text.now < 2 ^ 32 - 1 }
    // What is read is what the grammar reads.
    ensures ok { IfOk result (λ app. app_of text.now ≡ Some app) }
    // What is refused is not in the grammar.
    ensures syntax { IfSyntax result (λ _ _. app_of text.now ≡ None) }
    // The place is where the grammar stops.
    ensures place { IfSyntax result (λ line col. fault_at text.now ≡ Some (record { line = line; col = col })) }
    // A token stands at that place that no continuation of the tokens before it allows.
    ensures refused { IfSyntax result (λ line col. IsRefused (tokens_of text.now) line col) }
    // The tokens before it go on to an application, of which blocks may be one deeper: it is the first that nothing allows.
    ensures viable { IfSyntax result (λ line col. IsBehindViable (tokens_of text.now) line col) }
{
    let tokens = tokens(alloc, text)?;
    match application(alloc, tokens.as_slice()) {
        Ok((app, _)) => Ok(app),
        Err(Stop::NoMemory) => Err(ParseFault::NoMemory),
        Err(Stop::At(rest)) => Err(fault_at(rest)),
    }
}
