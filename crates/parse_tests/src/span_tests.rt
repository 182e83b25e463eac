use proc_parse::spans::{Token, TokenFault, TokenKind, tokens};
use rel_base::List;
use std::alloc::Global;
use std::test::Fail;

/// The tokens of a text by their places; no text here is long.
fn spans_in(alloc: Global, text: &str) -> Result<List<Token>, TokenFault> {
    if text.len() > 1_000 {
        return Ok(List::new(alloc));
    }
    tokens(alloc, text.as_bytes())
}

/// A token of a form at a line and a column, with its first byte and the byte after its last one.
fn token(kind: TokenKind, (line, col): (u32, u32), (start, end): (u32, u32)) -> Token {
    Token {
        kind,
        line,
        col,
        start,
        end,
    }
}

#[test]
fn tokens_stand_at_their_places(rt: HostRuntime) -> Result<(), Fail> {
    let found = spans_in(rt.alloc(), "table acct 42\n\t \"a\\\"\" x\"0f\"<=# c\n}")?;
    let wanted = [
        token(TokenKind::Word, (1, 1), (0, 5)),
        token(TokenKind::Name, (1, 7), (6, 10)),
        token(TokenKind::Int, (1, 12), (11, 13)),
        token(TokenKind::Text, (2, 3), (16, 21)),
        token(TokenKind::Bytes, (2, 9), (22, 27)),
        token(TokenKind::Sign, (2, 14), (27, 29)),
        token(TokenKind::Sign, (3, 1), (33, 34)),
    ];
    assert_eq!(rt; found.as_slice(), wanted.as_slice());
    Ok(())
}

#[test]
fn blanks_are_no_tokens(rt: HostRuntime) -> Result<(), Fail> {
    for text in ["", " \t\n", "# table"] {
        let found = spans_in(rt.alloc(), text)?;
        assert!(rt; found.is_empty(), "at {text}");
    }
    Ok(())
}

/// Where a text has its first bad token, or line 0 where it has none.
fn bad_in(alloc: Global, text: &str) -> Result<(u32, u32), Fail> {
    match spans_in(alloc, text) {
        Ok(_) => Ok((0, 0)),
        Err(TokenFault::Bad { line, col }) => Ok((line, col)),
        Err(TokenFault::NoMemory) => Err("memory ran out".into()),
    }
}

#[test]
fn bad_tokens_have_places(rt: HostRuntime) -> Result<(), Fail> {
    for (text, place) in [
        ("a ? !", (1, 3)),
        ("a\n  01 ?", (2, 3)),
        ("table\n\n \"b", (3, 2)),
        ("x\"0\"", (1, 1)),
        ("a 9223372036854775808", (1, 3)),
        ("# c\na # \u{e9}", (2, 5)),
    ] {
        assert_eq!(rt; bad_in(rt.alloc(), text)?, place, "at {text}");
    }
    Ok(())
}
