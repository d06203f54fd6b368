//! Numbers outside 64 bits, and long texts.
ghost use Rattle.std.specs.Prelude.{◌≡◌};
ghost use Rattle.std.specs.List.{list_any};
ghost use Rattle.s2_judge.specs.Kinds.{is_wide, is_wide_count, counts_of, is_wide_stmt, is_literal_range, is_long, is_literal_long};

use crate::literals::{Question, in_literals};
use s2_line::{Raw, RawOf, RawStmt, RawStmtOf};
use s2_token::Literal;

/// 2^63
const HALF: u64 = 9_223_372_036_854_775_808;

/// Whether a literal, with its sign, is a number outside 64 bits.
fn is_wide(literal: &Literal) -> bool
    ensures { result ≡ is_wide literal.now }
{
    match literal {
        Literal::Number {
            negative: true,
            size,
        } => HALF < *size,
        Literal::Number {
            negative: false,
            size,
        } => HALF <= *size,
        Literal::Text(_) => false,
    }
}

/// Whether a literal is outside 64 bits.
struct Wide;

impl Question for Wide {
    ghost answer = { is_wide };

    fn ask(literal: &Literal) -> bool {
        is_wide(literal)
    }
}

fn is_wide_count(n: u64) -> bool
    ensures { result ≡ is_wide_count n }
{
    HALF <= n
}

fn has_wide_count(stmt: &RawStmt) -> bool
    ensures { result ≡ list_any is_wide_count (counts_of stmt.now) }
{
    match stmt {
        RawStmtOf::Select {
            limit: Some(limit),
            ..
        } => is_wide_count(*limit),
        RawStmtOf::Mark(n) => is_wide_count(*n),
        RawStmtOf::After(n) => is_wide_count(*n),
        _ => false,
    }
}

fn is_wide_stmt(stmt: &RawStmt) -> bool
    ensures { result ≡ is_wide_stmt stmt.now }
{
    in_literals::<Wide>(stmt) || has_wide_count(stmt)
}

/// Whether a number of the line is outside 64 bits.
pub fn is_literal_range(line: &Raw) -> bool
    ensures { result ≡ is_literal_range line.now }
{
    match line {
        RawOf::Option { value, .. } => is_wide_count(*value),
        RawOf::Create { .. } => false,
        RawOf::Session { session, stmt } => is_wide_count(*session) || is_wide_stmt(stmt),
    }
}

fn is_long(literal: &Literal) -> bool
    ensures { result ≡ is_long literal.now }
{
    match literal {
        Literal::Number { .. } => false,
        Literal::Text(bytes) => 255 < bytes.len(),
    }
}

/// Whether a literal is a long text.
struct Long;

impl Question for Long {
    ghost answer = { is_long };

    fn ask(literal: &Literal) -> bool {
        is_long(literal)
    }
}

/// Whether a text of the line has more than 255 bytes.
pub fn is_literal_long(line: &Raw) -> bool
    ensures { result ≡ is_literal_long line.now }
{
    match line {
        RawOf::Session { stmt, .. } => in_literals::<Long>(stmt),
        _ => false,
    }
}
