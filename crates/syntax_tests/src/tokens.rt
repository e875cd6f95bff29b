//! Texts with their tokens, and texts that are refused.
use cbl_base::Place;
use comet_syntax::{FormCause, LexStop, MOST_BYTES, Token, TokenKind, lex};
use std::alloc::Global;
use std::test::Fail;

/// Adds bytes that are UTF-8.
fn push_bytes(out: &mut String, bytes: &[u8]) -> Result<(), Fail> {
    if let Ok(text) = str::from_utf8(bytes) {
        out.push_str(text)?;
    }
    Ok(())
}

/// Adds what a token is: a name or a number as it is, a string in angle quotes, a word by its name.
fn push_kind(out: &mut String, kind: &TokenKind) -> Result<(), Fail> {
    match kind {
        TokenKind::Name(name) => push_bytes(out, name.as_slice())?,
        TokenKind::Number(number) => write!(out, "{number}")?,
        TokenKind::Str(value) => {
            out.push_str("<<")?;
            push_bytes(out, value.as_slice())?;
            out.push_str(">>")?;
        }
        TokenKind::Word(word) => write!(out, "{word:?}")?,
    }
    Ok(())
}

/// What the tokens are, with spaces between them.
fn kinds(alloc: Global, tokens: &[Token]) -> Result<String, Fail> {
    let mut out = String::new(alloc);
    for token in tokens {
        if !out.is_empty() {
            out.push_str(" ")?;
        }
        push_kind(&mut out, &token.kind)?;
    }
    Ok(out)
}

/// Where the tokens stand, with spaces between them.
fn places(alloc: Global, tokens: &[Token]) -> Result<String, Fail> {
    let mut out = String::new(alloc);
    for token in tokens {
        if !out.is_empty() {
            out.push_str(" ")?;
        }
        let place = token.place;
        write!(
            out,
            "{}:{} {}-{}",
            place.line, place.col, token.start, token.end
        )?;
    }
    Ok(out)
}

static TOKENS: [(&str, &str); 47] = [
    ("", ""),
    (" \t\r\n", ""),
    // the longest at each place
    ("x<-3", "x Arrow 3"),
    ("x< -3", "x Less Minus 3"),
    ("a:=:b", "a Swap b"),
    ("a:= :b", "a Assign Colon b"),
    ("a::=b", "a Colon Assign b"),
    ("1..2", "1 DotDot 2"),
    ("1...2", "1 DotDot Dot 2"),
    ("--x", "MinusMinus x"),
    ("- -x", "Minus Minus x"),
    ("a---b", "a MinusMinus Minus b"),
    ("a+++b", "a PlusPlus Plus b"),
    ("a+=-=b", "a PlusEqual MinusEqual b"),
    ("a<=b<<c<d", "a LessEqual b LessLess c Less d"),
    ("a===b", "a EqualEqual Equal b"),
    ("!x!=y", "Exclamation x NotEqual y"),
    ("a>>=b", "a Greater GreaterEqual b"),
    ("a&&b||c", "a AndAnd b OrOr c"),
    ("a?b:c", "a Question b Colon c"),
    ("q@changes(", "q At changes LeftParenthesis"),
    (
        "){}[],;",
        "RightParenthesis LeftBrace RightBrace LeftBracket RightBracket Comma Semicolon",
    ),
    ("a*b/c%d", "a Star b Slash c Percent d"),
    // keywords and names
    (
        "forall for int intx int_ _int If",
        "ForAll For Int intx int_ _int If",
    ),
    ("selectMin selectMax select", "SelectMin SelectMax Select"),
    (
        "Solver<LS> m();",
        "Solver Less LS Greater m LeftParenthesis RightParenthesis Semicolon",
    ),
    ("setof argMin argMax", "SetOf ArgMin ArgMax"),
    // numbers
    ("007", "7"),
    ("12ab", "12 ab"),
    ("9223372036854775807", "9223372036854775807"),
    ("00009223372036854775807", "9223372036854775807"),
    // comments
    ("// c\nx", "x"),
    ("// c", ""),
    ("//\n//\n", ""),
    ("/**/x", "x"),
    ("/***/x", "x"),
    ("/* a * / */x", "x"),
    ("a/b//c\nd", "a Slash b d"),
    ("/* // */x", "x"),
    ("// /*\nx", "x"),
    ("/*\n\"*/x", "x"),
    ("// \u{e9}\nx", "x"),
    // strings
    ("\"\"", "<<>>"),
    ("\"a\\n\\t\\\"\\\\b\"", "<<a\n\t\"\\b>>"),
    ("\"//\"\"/*\"", "<<//>> <</*>>"),
    ("\"\u{e9}\r\"", "<<\u{e9}\r>>"),
    ("x\"y\"z", "x <<y>> z"),
];

#[test]
fn reads_tokens(rt: HostRuntime) -> Result<(), Fail> {
    for (text, listed) in &TOKENS {
        let Ok(tokens) = lex(rt.alloc(), text.as_bytes()) else {
            assert!(rt; false, "refused: {text}");
            continue;
        };
        let found = kinds(rt.alloc(), tokens.as_slice())?;
        assert_eq!(rt; found.as_str(), *listed, "at {text}");
    }
    Ok(())
}

/// Texts, and the place and the bytes of each token.
static PLACES: [(&str, &str); 5] = [
    ("a", "1:1 0-1"),
    ("ab := 12;", "1:1 0-2 1:4 3-5 1:7 6-8 1:9 8-9"),
    // a carriage return is a column, a tab one too
    ("a\n\r b\t\"x\"", "1:1 0-1 2:3 4-5 2:5 6-9"),
    ("\n\n//\n  x", "4:3 7-8"),
    // a comment of several lines, and bytes past ASCII
    ("/*\n\u{e9} */ y", "2:7 9-10"),
];

#[test]
fn tells_places(rt: HostRuntime) -> Result<(), Fail> {
    for (text, listed) in &PLACES {
        let Ok(tokens) = lex(rt.alloc(), text.as_bytes()) else {
            assert!(rt; false, "refused: {text}");
            continue;
        };
        let found = places(rt.alloc(), tokens.as_slice())?;
        assert_eq!(rt; found.as_str(), *listed, "at {text}");
    }
    Ok(())
}

static REFUSED: [(&[u8], u32, u32, FormCause); 31] = [
    // a comment or a string that isn't closed, at its beginning
    (b"/*/", 1, 1, FormCause::BadToken),
    (b"x /* y", 1, 3, FormCause::BadToken),
    (b"\"abc", 1, 1, FormCause::BadToken),
    (b"\n \"ab\ncd\"", 2, 2, FormCause::BadToken),
    // an unknown escape, at the opening quote
    (b"x \"a\\q\"", 1, 3, FormCause::BadToken),
    (b"\"a\\\n\"", 1, 1, FormCause::BadToken),
    (b"\"a\\", 1, 1, FormCause::BadToken),
    (b"\"a\\\"", 1, 1, FormCause::BadToken),
    // no sign
    (b"a # b", 1, 3, FormCause::BadToken),
    (b"a & b", 1, 3, FormCause::BadToken),
    (b"a | b", 1, 3, FormCause::BadToken),
    (b"a&&&b", 1, 4, FormCause::BadToken),
    (b"\\", 1, 1, FormCause::BadToken),
    (b"'a'", 1, 1, FormCause::BadToken),
    (b"\x0c", 1, 1, FormCause::BadToken),
    // a carriage return is no line
    (b"\r\n\r#", 2, 2, FormCause::BadToken),
    (b"\r#", 1, 2, FormCause::BadToken),
    // wide numbers
    (b"9223372036854775808", 1, 1, FormCause::WideNumber),
    (b"x = 99999999999999999999999;", 1, 5, FormCause::WideNumber),
    (b"0 18446744073709551616a", 1, 3, FormCause::WideNumber),
    // bytes past ASCII outside of comments and strings
    (b"x \xc3\xa9", 1, 3, FormCause::BadToken),
    // broken UTF-8, also in comments and strings
    (b"\xffx", 1, 1, FormCause::Encoding),
    (b"// \xff", 1, 4, FormCause::Encoding),
    (b"/*\n\xc3*/", 2, 1, FormCause::Encoding),
    (b"\"\xc3\"", 1, 2, FormCause::Encoding),
    (b"x \xe2\x82", 1, 3, FormCause::Encoding),
    // the least place decides
    (b"# \xff", 1, 1, FormCause::BadToken),
    (b"\"\xff\" #", 1, 2, FormCause::Encoding),
    (b"\"\xff", 1, 1, FormCause::BadToken),
    (b"/* \xff", 1, 1, FormCause::BadToken),
    (b"12345678901234567890 \xff", 1, 1, FormCause::WideNumber),
];

#[test]
fn refuses_texts_without_tokens(rt: HostRuntime) {
    for (text, line, col, cause) in &REFUSED {
        let place = Place {
            line: *line,
            col: *col,
        };
        let stop = lex(rt.alloc(), text).err();
        assert_eq!(rt;
            stop,
            Some(LexStop::Fault(place, *cause)),
            "at {line}:{col}"
        );
    }
}

#[test]
fn reads_up_to_a_mebibyte(rt: HostRuntime) -> Result<(), Fail> {
    assert_eq!(rt; MOST_BYTES, 1024 * 1024);
    let blank = vec![in rt.alloc(); b' '; MOST_BYTES]?;
    assert!(rt; matches!(lex(rt.alloc(), blank.as_slice()), Ok(tokens) if tokens.is_empty()));
    let names = vec![in rt.alloc(); b'('; MOST_BYTES]?;
    assert!(rt;
        matches!(lex(rt.alloc(), names.as_slice()), Ok(tokens) if tokens.len() == MOST_BYTES)
    );
    let too_long = Some(LexStop::Fault(Place { line: 1, col: 1 }, FormCause::TooLong));
    for byte in [b' ', b'#', 0xff] {
        let text = vec![in rt.alloc(); byte; MOST_BYTES + 1]?;
        assert_eq!(rt; lex(rt.alloc(), text.as_slice()).err(), too_long);
    }
    Ok(())
}
