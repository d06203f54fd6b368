//! `INSERT` lines, read straight from their bytes: of a line of many tuples no list of tokens is made.
ghost use Rattle.std.specs.Prelude.{◌≡◌, ◌∷◌, [], List, true, Some, IfOk};
ghost use Rattle.std.specs.Option.{IfNone, IfSome};
ghost use Rattle.s2_token.specs.declared.types.Token.{Token as AnyToken};
ghost use Rattle.s2_token.specs.Lexing.{lexed};
ghost use Rattle.s2_token.specs.Literals.{literal_words};
ghost use Rattle.s2_line.specs.Words.{Any, TupleFits, tuple_words};
ghost use Rattle.s2_script.specs.Inserts.{AreRead, Begins, Ends, IsRead, head_words};

use crate::misses::Miss;
use s2_line::{Raw, RawOf, RawStmtOf, Tuple};
use s2_token::{Bytes, Fault, Keyword, Literal, Symbol, Token, first_token};
use s2_value::Seq;
use std::alloc::Global;

/// The first token, or `None` at the end.
fn next(alloc: Global, bytes: &[u8]) -> Result<Option<(Token, &[u8])>, Miss>
    ensures begins { IfOk result (λ found. IfSome found (λ x. Begins bytes.now (x.0 ∷ []) x.1.now)) }
    ensures end { IfOk result (λ found. IfNone found (lexed bytes.now ≡ Some [])) }
{
    match first_token(alloc, bytes) {
        Ok(found) => Ok(found),
        Err(Fault::BadToken) => Err(Miss::Other),
        Err(Fault::Memory) => Err(Miss::Memory),
    }
}

fn token(alloc: Global, bytes: &[u8]) -> Result<(Token, &[u8]), Miss>
    ensures { IfOk result (λ x. Begins bytes.now (x.0 ∷ []) x.1.now) }
{
    match next(alloc, bytes)? {
        Some(found) => Ok(found),
        None => Err(Miss::Other),
    }
}

fn is_key(keyword: Keyword, token: &Token) -> bool
    ensures { result ≡ true → token.now ≡ Token.Key keyword }
{
    match token {
        Token::Key(first) => *first == keyword,
        _ => false,
    }
}

fn is_sign(symbol: Symbol, token: &Token) -> bool
    ensures { result ≡ true → token.now ≡ Token.Sign symbol }
{
    match token {
        Token::Sign(first) => *first == symbol,
        _ => false,
    }
}

fn key(alloc: Global, keyword: Keyword, bytes: &[u8]) -> Result<&[u8], Miss>
    ensures { IfOk result (λ left. Begins bytes.now (Token.Key keyword ∷ []) left.now) }
{
    let (token, left) = token(alloc, bytes)?;
    if is_key(keyword, &token) {
        Ok(left)
    } else {
        Err(Miss::Other)
    }
}

fn sign(alloc: Global, symbol: Symbol, bytes: &[u8]) -> Result<&[u8], Miss>
    ensures { IfOk result (λ left. Begins bytes.now (Token.Sign symbol ∷ []) left.now) }
{
    let (token, left) = token(alloc, bytes)?;
    if is_sign(symbol, &token) {
        Ok(left)
    } else {
        Err(Miss::Other)
    }
}

fn name(alloc: Global, bytes: &[u8]) -> Result<(Bytes, &[u8]), Miss>
    ensures { IfOk result (λ x. Begins bytes.now (Token.Name x.0 ∷ []) x.1.now) }
{
    let (token, left) = token(alloc, bytes)?;
    match token {
        Token::Name(name) => Ok((name, left)),
        _ => Err(Miss::Other),
    }
}

fn number(alloc: Global, bytes: &[u8]) -> Result<(u64, &[u8]), Miss>
    ensures { IfOk result (λ x. Begins bytes.now (Token.Number x.0 ∷ []) x.1.now) }
{
    let (token, left) = token(alloc, bytes)?;
    match token {
        Token::Number(size) => Ok((size, left)),
        _ => Err(Miss::Other),
    }
}

fn literal(alloc: Global, bytes: &[u8]) -> Result<(Literal, &[u8]), Miss>
    ensures { IfOk result (λ x. Begins bytes.now (literal_words x.0) x.1.now) }
{
    let (token, left) = token(alloc, bytes)?;
    match token {
        Token::Number(size) => {
            let number = Literal::Number {
                negative: false,
                size,
            };
            Ok((number, left))
        }
        Token::Text(text) => Ok((Literal::Text(text), left)),
        Token::Sign(Symbol::Minus) => {
            let (size, left) = number(alloc, left)?;
            let number = Literal::Number {
                negative: true,
                size,
            };
            Ok((number, left))
        }
        _ => Err(Miss::Other),
    }
}

/// The bytes after a comma, where one is the first token.
fn comma(alloc: Global, bytes: &[u8]) -> Result<Option<&[u8]>, Miss>
    ensures { IfOk result (λ found. IfSome found (λ left. Begins bytes.now (Token.Sign Symbol.Comma ∷ []) left.now)) }
{
    match next(alloc, bytes)? {
        Some(found) => {
            let (token, left) = found;
            if is_sign(Symbol::Comma, &token) {
                Ok(Some(left))
            } else {
                Ok(None)
            }
        }
        None => Ok(None),
    }
}

/// What the items of a list are.
trait Item {
    /// An item.
    type Out: Drop;

    /// How an item is written.
    ghost words: { Self.Out → List AnyToken };

    /// Which items the grammar has.
    ghost Fits: { Self.Out → Type 0 };

    /// The first item, and the bytes after it.
    fn read(alloc: Global, bytes: &[u8]) -> Result<(Self::Out, &[u8]), Miss>
        ensures begins { IfOk result (λ x. Begins bytes.now (words x.0) x.1.now) }
        ensures fits { IfOk result (λ x. Fits x.0) };
}

/// One or more items with commas between them, and the bytes after them.
fn list<I: Item>(alloc: Global, bytes: &[u8]) -> Result<(Seq<I::Out>, &[u8]), Miss>
    ensures { IfOk result (λ x. AreRead I.words I.Fits bytes.now x.0 x.1.now) }
{
    let (first, rest) = I::read(alloc, bytes)?;
    let mut items = Vec::new(alloc);
    items.push(first)?;
    let mut left = rest;
    while let Some(later) = comma(alloc, left)? {
        let (item, rest) = I::read(alloc, later)?;
        items.push(item)?;
        left = rest;
    }
    Ok((Seq::from_vec(items), left))
}

/// The items of a tuple.
struct Literals;

impl Item for Literals {
    type Out = Literal;

    ghost words = { literal_words };

    ghost Fits = { λ x. Any x };

    fn read(alloc: Global, bytes: &[u8]) -> Result<(Literal, &[u8]), Miss> {
        literal(alloc, bytes)
    }
}

fn tuple(alloc: Global, bytes: &[u8]) -> Result<(Tuple, &[u8]), Miss>
    ensures begins { IfOk result (λ x. Begins bytes.now (tuple_words x.0) x.1.now) }
    ensures fits { IfOk result (λ x. TupleFits x.0) }
{
    let inside = sign(alloc, Symbol::Open, bytes)?;
    let (literals, rest) = list::<Literals>(alloc, inside)?;
    let left = sign(alloc, Symbol::Close, rest)?;
    Ok((literals, left))
}

/// The tuples of an `INSERT`.
struct Tuples;

impl Item for Tuples {
    type Out = Tuple;

    ghost words = { tuple_words };

    ghost Fits = { TupleFits };

    fn read(alloc: Global, bytes: &[u8]) -> Result<(Tuple, &[u8]), Miss> {
        tuple(alloc, bytes)
    }
}

/// What stands before the tuples: the session, the table's name, and the bytes after `VALUES`.
fn head(alloc: Global, bytes: &[u8]) -> Result<(u64, Bytes, &[u8]), Miss>
    ensures { IfOk result (λ x. Begins bytes.now (head_words x.0 x.1) x.2.now) }
{
    let (session, at_colon) = number(alloc, bytes)?;
    let at_insert = sign(alloc, Symbol::Colon, at_colon)?;
    let at_into = key(alloc, Keyword::Insert, at_insert)?;
    let at_table = key(alloc, Keyword::Into, at_into)?;
    let (table, at_values) = name(alloc, at_table)?;
    let left = key(alloc, Keyword::Values, at_values)?;
    Ok((session, table, left))
}

/// Whether no token is left.
fn is_over(alloc: Global, bytes: &[u8]) -> Result<bool, Miss>
    ensures { IfOk result (λ over. over ≡ true → lexed bytes.now ≡ Some []) }
{
    match next(alloc, bytes)? {
        Some(_found) => Ok(false),
        None => Ok(true),
    }
}

/// Whether no token is left, or one `;`.
fn is_end(alloc: Global, bytes: &[u8]) -> Result<bool, Miss>
    ensures { IfOk result (λ end. end ≡ true → Ends bytes.now) }
{
    match next(alloc, bytes)? {
        Some(found) => {
            let (token, left) = found;
            if is_sign(Symbol::Semicolon, &token) {
                is_over(alloc, left)
            } else {
                Ok(false)
            }
        }
        None => Ok(true),
    }
}

/// The line that the bytes are, where it is an `INSERT`. Any other line may be `Other`.
pub fn insert(alloc: Global, bytes: &[u8]) -> Result<Raw, Miss>
    ensures { IfOk result (λ r. IsRead bytes.now r) }
{
    let (session, table, at_tuples) = head(alloc, bytes)?;
    let (tuples, left) = list::<Tuples>(alloc, at_tuples)?;
    let over = is_end(alloc, left)?;
    if over {
        Ok(RawOf::Session {
            session,
            stmt: RawStmtOf::Insert { table, tuples },
        })
    } else {
        Err(Miss::Other)
    }
}
