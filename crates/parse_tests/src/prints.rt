//! How applications are printed.

use proc_parse::{ParseFault, parse};
use proc_print::print;
use rel_base::List;
use std::alloc::Global;
use std::test::Fail;

/// The print of the application that some bytes are, if they are one.
fn print_of(alloc: Global, text: &[u8]) -> Result<Option<List<u8>>, ParseFault> {
    if text.len() > 100_000 {
        return Ok(None);
    }
    match parse(alloc, text) {
        Ok(app) => Ok(Some(print(alloc, &app)?)),
        Err(ParseFault::Syntax { .. }) => Ok(None),
        Err(ParseFault::NoMemory) => Err(ParseFault::NoMemory),
    }
}

#[test]
fn prints_have_lines(rt: HostRuntime) -> Result<(), Fail> {
    let alloc = rt.alloc();
    for (text, want) in [
        ("", ""),
        (
            "table acct(id int,owner text,bal int)key(id)index(owner);proc p(){}",
            "table acct (id int, owner text, bal int) key (id) index (owner);\nproc p() {\n}\n",
        ),
        (
            "proc p(f int) { if (f<1) { fail \"a\\\"\"; } else { get a from acct key (f) { update acct key (f) set bal = -(-a.bal), owner = \"x\"; } else { } } }",
            "proc p(f int) {\n  if (f < 1) {\n    fail \"a\\\"\";\n  } else {\n    get a from acct key (f) {\n      update acct key (f) set bal = -(-a.bal), owner = \"x\";\n    } else {\n    }\n  }\n}\n",
        ),
        (
            "proc p() { for r in acct span on id from 1 to 9 { delete acct key (r.id); } for r in acct span on id { } }",
            "proc p() {\n  for r in acct span on id from 1 to 9 {\n    delete acct key (r.id);\n  }\n  for r in acct span on id {\n  }\n}\n",
        ),
        (
            "proc p() { let a = not (1 = 1 or 1 != 1 and 1 <= 1); a = now - 1 * 1 / 1 % 1; a = \"\" ++ x\"00ff\"; insert t (true, false); }",
            "proc p() {\n  let a = not (1 = 1 or 1 != 1 and 1 <= 1);\n  a = now - 1 * 1 / 1 % 1;\n  a = \"\" ++ x\"00ff\";\n  insert t (true, false);\n}\n",
        ),
        (
            "proc p() { let a = (1 + 1 + 1 + 1 + 1 + 1 + 1 + 1 + 1 + 1 + 1 + 1 + 1 + 1 + 1 + 1 + 1 + 1 + 1 + 1 + 1 + 1 + 1 + 1 + 1 + 1 + 1 + 1 + 1 + 1 + 1 + 1 + 1) + 1 + 1 + 1 + 1 + 1 + 1 + 1 + 1 + 1 + 1 + 1 + 1 + 1 + 1 + 1 + 1 + 1 + 1 + 1 + 1 + 1 + 1 + 1 + 1 + 1 + 1 + 1 + 1 + 1 + 1 + 1 + 1; }",
            "proc p() {\n  let a = (1 + 1 + 1 + 1 + 1 + 1 + 1 + 1 + 1 + 1 + 1 + 1 + 1 + 1 + 1 + 1 + 1 + 1 + 1 + 1 + 1 + 1 + 1 + 1 + 1 + 1 + 1 + 1 + 1 + 1 + 1 + 1 + 1) + 1 + 1 + 1 + 1 + 1 + 1 + 1 + 1 + 1 + 1 + 1 + 1 + 1 + 1 + 1 + 1 + 1 + 1 + 1 + 1 + 1 + 1 + 1 + 1 + 1 + 1 + 1 + 1 + 1 + 1 + 1 + 1;\n}\n",
        ),
    ] {
        let printed = print_of(alloc, text.as_bytes())?;
        let is_right = match printed {
            Some(bytes) => bytes.as_slice() == want.as_bytes(),
            None => false,
        };
        assert!(rt; is_right, "at {text}");
    }
    Ok(())
}
