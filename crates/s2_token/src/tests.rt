//! Worked lines with their tokens: what no clause says.
use crate::{Fault, Literal, Token, is_name, literal, print_tokens, tokens};
use std::alloc::{AllocError, Global};
use std::test::Fail;

fn put_piece(out: &mut Vec<u8>, kind: u8, piece: &[u8]) -> Result<(), AllocError> {
    out.push(kind)?;
    out.extend_from_slice(piece)
}

fn put_number(alloc: Global, out: &mut Vec<u8>, number: u64) -> Result<(), AllocError> {
    let digits = format!(in alloc; "{number}")?;
    put_piece(out, b'#', digits.as_bytes())
}

/// A keyword stands after `K`, a name after `N`, a number after `#`, a text after `T` and a symbol after `S`.
fn put(alloc: Global, out: &mut Vec<u8>, token: &Token) -> Result<(), AllocError> {
    match token {
        Token::Key(keyword) => put_piece(out, b'K', keyword.text()),
        Token::Name(name) => put_piece(out, b'N', name.as_slice()),
        Token::Number(number) => put_number(alloc, out, *number),
        Token::Text(text) => put_piece(out, b'T', text.as_slice()),
        Token::Sign(symbol) => put_piece(out, b'S', symbol.text()),
    }
}

fn told(alloc: Global, found: &[Token]) -> Result<Vec<u8>, AllocError> {
    let mut out = Vec::new(alloc);
    for token in found {
        put(alloc, &mut out, token)?;
    }
    Ok(out)
}

fn read(alloc: Global, line: &str) -> Result<Vec<u8>, AllocError> {
    match tokens(alloc, line.as_bytes()) {
        Ok(found) => told(alloc, found.as_slice()),
        Err(Fault::BadToken) => Vec::from_slice(alloc, b"bad"),
        Err(Fault::Memory) => Vec::from_slice(alloc, b"memory"),
    }
}

const LINES: [(&str, &str); 44] = [
    ("", ""),
    (" \t ", ""),
    (
        "1: INSERT INTO t VALUES(1,'a');",
        "#1S:KINSERTKINTONtKVALUESS(#1S,TaS)S;",
    ),
    ("1AND", "#1KAND"),
    ("9x", "#9Nx"),
    ("select\tSelect selects", "KSELECTKSELECTNselects"),
    (
        "dUpLiCaTe Null seTTle DRAFT",
        "KDUPLICATEKNULLKSETTLEKDRAFT",
    ),
    ("_x9 A_b _ by_ b y", "N_x9NA_bN_Nby_NbNy"),
    ("rollbacks tables in1", "NrollbacksNtablesNin1"),
    ("''", "T"),
    ("''''", "T'"),
    ("'it''s'", "Tit's"),
    ("'a''''b'", "Ta''b"),
    ("'a' 'b'", "TaTb"),
    ("'a''' 'b'", "Ta'Tb"),
    ("'select (1)\t--'", "Tselect (1)\t--"),
    ("'日本'", "T日本"),
    ("a<=b", "NaS<=Nb"),
    ("a< =b", "NaS<S=Nb"),
    ("a<>b", "NaS<>Nb"),
    ("a!=b", "NaS<>Nb"),
    ("<=>", "S<=S>"),
    ("><", "S>S<"),
    (">==", "S>=S="),
    ("<>=", "S<>S="),
    ("<<=", "S<S<="),
    ("=<", "S=S<"),
    ("--5", "S-S-#5"),
    ("+-5*", "S+S-#5S*"),
    ("(),;:", "S(S)S,S;S:"),
    ("0 007 10", "#0#7#10"),
    ("18446744073709551614", "#18446744073709551614"),
    ("18446744073709551615", "#18446744073709551615"),
    ("18446744073709551616", "#18446744073709551615"),
    (
        "99999999999999999999999999999999999999",
        "#18446744073709551615",
    ),
    ("9223372036854775808", "#9223372036854775808"),
    ("'abc", "bad"),
    ("'abc''", "bad"),
    ("a '", "bad"),
    ("a ! b", "bad"),
    ("a!<b", "bad"),
    ("a.b", "bad"),
    ("é", "bad"),
    ("a\r", "bad"),
];

#[test]
fn lines_have_their_tokens(rt: HostRuntime) -> Result<(), Fail> {
    let alloc = rt.alloc();
    for (line, want) in LINES {
        let found = read(alloc, line)?;
        assert_eq!(rt; found.as_slice(), want.as_bytes(), "at {line:?}");
    }
    Ok(())
}

fn put_literal(alloc: Global, out: &mut Vec<u8>, found: &Literal) -> Result<(), AllocError> {
    match found {
        Literal::Number { negative, size } => {
            if *negative {
                out.extend_from_slice(b"-")?;
            }
            put_number(alloc, out, *size)
        }
        Literal::Text(text) => put_piece(out, b'T', text.as_slice()),
    }
}

/// The literal at the front, and the tokens after it behind `|`.
fn front(alloc: Global, line: &str) -> Result<Vec<u8>, Fail> {
    let all = tokens(alloc, line.as_bytes())?;
    let mut out = Vec::new(alloc);
    let Some((found, rest)) = literal(all.as_slice())? else {
        return Ok(out);
    };
    put_literal(alloc, &mut out, &found)?;
    let after = told(alloc, rest)?;
    put_piece(&mut out, b'|', after.as_slice())?;
    Ok(out)
}

const FRONTS: [(&str, &str); 11] = [
    ("5", "#5|"),
    ("-5", "-#5|"),
    ("- 5 5", "-#5|#5"),
    ("- -5", ""),
    ("-'a'", ""),
    ("'it''s', 2", "Tit's|S,#2"),
    ("a", ""),
    ("null", ""),
    ("+5", ""),
    ("-", ""),
    ("", ""),
];

#[test]
fn literals_stand_at_the_front(rt: HostRuntime) -> Result<(), Fail> {
    let alloc = rt.alloc();
    for (line, want) in FRONTS {
        let found = front(alloc, line)?;
        assert_eq!(rt; found.as_slice(), want.as_bytes(), "at {line:?}");
    }
    Ok(())
}

const PRINTED: [(&str, &str); 9] = [
    ("", ""),
    (
        "create table T(a int,b text,unique key(a),key(b),sort key(b,a));",
        "CREATE TABLE T (a INT, b TEXT, UNIQUE KEY (a), KEY (b), SORT KEY (b, a));",
    ),
    (
        "1:insert into t values(1,- 2,'it''s'),( 3,4,'' )",
        "1: INSERT INTO t VALUES (1, -2, 'it''s'), (3, 4, '')",
    ),
    (
        "2 : select count ( * ),sum(a),Min( a ),max(a) from t where not(a=1 or b!=- 2)and c in(1,-2)",
        "2: SELECT COUNT(*), SUM(a), MIN(a), MAX(a) FROM t WHERE NOT (a = 1 OR b <> -2) AND c IN (1, -2)",
    ),
    (
        "1:update t set a=a-5,b=b- -5,c=c+-5,d=-5 where a<=-1",
        "1: UPDATE t SET a = a - 5, b = b - -5, c = c + -5, d = -5 WHERE a <= -1",
    ),
    (
        "1:select*from t where((a>=1))order by a desc,b limit 3",
        "1: SELECT * FROM t WHERE ((a >= 1)) ORDER BY a DESC, b LIMIT 3",
    ),
    ("option\tcache 064", "OPTION cache 64"),
    ("a<b>c", "a < b > c"),
    ("99999999999999999999", "18446744073709551615"),
];

fn printed(alloc: Global, line: &str) -> Result<Vec<u8>, Fail> {
    let found = tokens(alloc, line.as_bytes())?;
    let mut out = vec![in alloc; b'>']?;
    print_tokens(found.as_slice(), &mut out)?;
    Ok(out)
}

#[test]
fn tokens_are_printed(rt: HostRuntime) -> Result<(), Fail> {
    let alloc = rt.alloc();
    for (line, want) in PRINTED {
        let out = printed(alloc, line)?;
        assert_eq!(rt;
            out.as_slice().split_first(),
            Some((&b'>', want.as_bytes())),
            "at {line:?}"
        );
    }
    Ok(())
}

const NAMES: [(&str, bool); 9] = [
    ("orders", true),
    ("_", true),
    ("x9", true),
    ("Order_", true),
    ("ORDER", false),
    ("draft", false),
    ("9x", false),
    ("a-b", false),
    ("", false),
];

#[test]
fn names_are_words_but_no_keywords(rt: HostRuntime) -> Result<(), Fail> {
    for (word, want) in NAMES {
        assert_eq!(rt; is_name(word.as_bytes()), want, "at {word:?}");
    }
    Ok(())
}
