//! Names and literals printed.
ghost use Rattle.std.specs.Prelude.{◌≡◌, ◌++◌, ◌∷◌, [], OnOk, IfOk, map};
ghost use Rattle.s2_token.specs.declared.types.Token.TheVariants as token;
ghost use Rattle.s2_token.specs.Literals.{literal_words};
ghost use Rattle.s2_pred.specs.Printing.{literal_of, name_at};
ghost use Rattle.s2_line.specs.Words.{name_words, tuple_words};

use crate::lists::{Part, list};
use s2_line::Tuple;
use s2_pred::TokenList;
use s2_token::{Bytes, Literal, Symbol, Token};
use s2_value::{Col, Memory, Row, Seq, Value};
use std::alloc::Global;

/// The token of a name.
pub fn name(alloc: Global, bytes: &[u8]) -> Result<Token, Memory>
    ensures { IfOk result (λ t. t ≡ token.Name bytes.now) }
{
    Ok(Token::Name(Seq::from_vec(Vec::from_slice(alloc, bytes)?)))
}

/// The token of a column's name.
pub fn column(alloc: Global, cols: &[Col], place: u8) -> Result<Token, Memory>
    ensures { IfOk result (λ t. t ≡ token.Name (name_at cols.now place)) }
{
    match cols.get(usize::from(place)) {
        Some(col) => name(alloc, col.name.bytes()),
        None => Ok(Token::Name(Seq::new(alloc))),
    }
}

/// Adds the words of a value.
pub fn value(alloc: Global, value: &Value, tokens: &mut TokenList) -> Result<(), Memory>
    ensures { OnOk result (tokens.new ≡ tokens.old ++ literal_words (literal_of value.now)) }
{
    match value {
        Value::Int(number) => {
            if *number < 0 {
                tokens.add(Token::Sign(Symbol::Minus))?;
            }
            tokens.add(Token::Number(number.unsigned_abs()))
        }
        Value::Text(text) => {
            let bytes = Vec::from_slice(alloc, text.bytes())?;
            tokens.add(Token::Text(Seq::from_vec(bytes)))
        }
    }
}

/// The columns of a list of places.
pub struct Names;

impl Part for Names {
    type Item = u8;

    type Raw = Bytes;

    ghost raw = { name_at };

    ghost words = { name_words };

    fn print(alloc: Global, cols: &[Col], item: &u8, tokens: &mut TokenList) -> Result<(), Memory> {
        tokens.add(column(alloc, cols, *item)?)
    }
}

/// The values of a row.
pub struct Values;

impl Part for Values {
    type Item = Value;

    type Raw = Literal;

    ghost raw = { λ _ v. literal_of v };

    ghost words = { literal_words };

    fn print(
        alloc: Global,
        _cols: &[Col],
        item: &Value,
        tokens: &mut TokenList,
    ) -> Result<(), Memory> {
        value(alloc, item, tokens)
    }
}

/// The rows of an `INSERT`.
pub struct Rows;

impl Part for Rows {
    type Item = Row;

    type Raw = Tuple;

    ghost raw = { λ _ row. map literal_of row };

    ghost words = { tuple_words };

    fn print(
        alloc: Global,
        cols: &[Col],
        item: &Row,
        tokens: &mut TokenList,
    ) -> Result<(), Memory> {
        tokens.add(Token::Sign(Symbol::Open))?;
        list::<Values>(alloc, cols, item.as_slice(), tokens)?;
        tokens.add(Token::Sign(Symbol::Close))
    }
}
