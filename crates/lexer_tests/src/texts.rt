use slang_tokens::{TokensEnd, read_tokens};
use slang_tree::{Fault, Place};
use std::alloc::{AllocError, Global};
use std::test::Fail;

fn line(line: u32, col: u32) -> Place {
    Place { line, col }
}

/// Texts, each with how many tokens stand in it, and with the place and the code of what ends them, 0 at the end of the text.
const ENDS: [(&str, usize, u32, u32, u8); 26] = [
    ("", 0, 1, 1, 0),
    (" // a comment\n  ", 0, 2, 3, 0),
    ("a // a comment\n  ", 2, 2, 3, 0),
    ("a &\n\n\u{3b1} ; \n b", 5, 4, 3, 0),
    ("a;;\n;b", 3, 2, 3, 0),
    ("(a\nb;c)", 5, 2, 5, 0),
    ("[a\nb]", 4, 2, 3, 0),
    ("{a\nb}", 5, 2, 3, 0),
    ("({a\nb})", 7, 2, 4, 0),
    ("a\n.b", 3, 2, 3, 0),
    ("a\n+b", 4, 2, 3, 0),
    ("a +\nb", 3, 2, 2, 0),
    ("}\nelse", 2, 2, 5, 0),
    ("if (a)\n{", 5, 2, 2, 0),
    ("while ((a))\n{", 7, 2, 2, 0),
    ("if (a)\nb", 6, 2, 2, 0),
    ("f(a)\n{", 6, 2, 2, 0),
    ("if f(a)\n{", 7, 2, 2, 0),
    ("@datatype\nclass", 3, 2, 6, 0),
    ("datatype\nclass", 3, 2, 6, 0),
    ("@ \ndatatype", 2, 2, 9, 0),
    ("a\n /* b", 2, 2, 2, 2),
    ("a\n# b", 2, 2, 1, 2),
    ("(a -> b", 5, 1, 8, 0),
    ("170141183460469231731687303715884105727", 1, 1, 40, 0),
    ("- 170141183460469231731687303715884105728", 1, 1, 3, 3),
];

/// Whether so many tokens stand in the text, and end so.
fn ends_so(
    alloc: Global,
    text: &str,
    count: usize,
    place: Place,
    code: u8,
) -> Result<bool, AllocError> {
    let tokens = read_tokens(alloc, text)?;
    let end = match tokens.end {
        TokensEnd::End(place) => Fault { code: 0, place },
        TokensEnd::Fault(fault) => fault,
    };
    Ok(tokens.list.len() == count && end == Fault { code, place })
}

#[test]
fn tokens_stand_and_end(rt: HostRuntime) -> Result<(), Fail> {
    for (text, count, row, col, code) in ENDS.iter() {
        assert!(rt;
            ends_so(rt.alloc(), text, *count, line(*row, *col), *code)?,
            "{text}"
        );
    }
    Ok(())
}

#[test]
fn tokens_nest_200_deep(rt: HostRuntime) -> Result<(), Fail> {
    let brackets = [b'('; 201];
    let minuses = [b'-'; 201];
    for all in [&brackets, &minuses] {
        let heavy = std::str::from_utf8(all).unwrap_or("");
        let light = std::str::from_utf8(&all[..200]).unwrap_or("");
        assert!(rt; ends_so(rt.alloc(), heavy, 200, line(1, 201), 5)?);
        assert!(rt; ends_so(rt.alloc(), light, 200, line(1, 201), 0)?);
    }
    Ok(())
}

#[test]
fn tokens_have_places(rt: HostRuntime) -> Result<(), Fail> {
    let tokens = read_tokens(rt.alloc(), "a &\n\n\u{3b1} ; \n b")?;
    let places = [line(1, 1), line(1, 3), line(3, 1), line(3, 3), line(4, 2)];
    assert_eq!(rt; tokens.list.len(), places.len());
    for (token, place) in tokens.list.iter().zip(places.iter()) {
        assert_eq!(rt; token.place, *place);
    }
    Ok(())
}
