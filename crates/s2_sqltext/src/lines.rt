//! The lines of a script printed.
ghost use Rattle.std.specs.Prelude.{◌≡◌, ◌++◌, OnOk, map, codes};
ghost use Rattle.std.specs.List.{flat_map};
ghost use Rattle.s2_token.specs.Printing.{tokens_text};
ghost use Rattle.s2_pred.specs.Printing.{name_at};
ghost use Rattle.s2_line.specs.declared.forms.RawOf.TheVariants as raw;
ghost use Rattle.s2_line.specs.declared.forms.KeyUse.TheVariants.{Index, Unique};
ghost use Rattle.s2_line.specs.Words.{name_words, column_words, key_words, later_words, listed, in_parentheses, use_words};
ghost use Rattle.s2_sqltext.specs.Printing.{column_line, key_line, sort_lines, key_lines, create_line, option_lines, workers_number, session_line, line_text, AreWritten, StmtIsWritten};

use crate::lists::{Part, later, list};
use crate::parts::{Names, name};
use crate::statements::stmt;
use s2_line::{KeyUse, RawColumn, RawKey};
use s2_model::{Line, Options};
use s2_pred::TokenList;
use s2_token::{Keyword, Symbol, Token, print_tokens};
use s2_value::{Col, ColList, ColType, Memory, Schema, Seq};
use std::alloc::Global;

/// Ends a line.
fn end(tokens: &TokenList, out: &mut Vec<u8>) -> Result<(), Memory>
    ensures { OnOk result (out.new.items ≡ out.old.items ++ (tokens_text tokens.now ++ codes "\n")) }
{
    print_tokens(tokens.as_slice(), out)?;
    out.push(b'\n')?;
    Ok(())
}

fn option(alloc: Global, name_of: &[u8], value: u32, out: &mut Vec<u8>) -> Result<(), Memory>
    ensures { OnOk result (out.new.items ≡ out.old.items ++ line_text (raw.Option name_of.now value)) }
{
    let mut tokens = Seq::new(alloc);
    tokens.add(Token::Key(Keyword::Option))?;
    tokens.add(name(alloc, name_of)?)?;
    tokens.add(Token::Number(u64::from(value)))?;
    end(&tokens, out)
}

fn workers_number(workers: bool) -> u32
    ensures { result ≡ workers_number workers }
{
    u32::from(workers)
}

/// Prints the five options.
pub fn options(alloc: Global, options: &Options, out: &mut Vec<u8>) -> Result<(), Memory>
    ensures { OnOk result (out.new.items ≡ out.old.items ++ flat_map line_text (option_lines options.now)) }
{
    option(alloc, b"segment_rows", options.segment_rows, out)?;
    option(alloc, b"flush_rows", options.flush_rows, out)?;
    option(alloc, b"fanout", options.fanout, out)?;
    option(alloc, b"cache", options.cache, out)?;
    option(alloc, b"workers", workers_number(options.workers), out)
}

/// The columns of a table.
struct Columns;

impl Part for Columns {
    type Item = Col;

    type Raw = RawColumn;

    ghost raw = { λ _ col. column_line col };

    ghost words = { column_words };

    fn print(
        alloc: Global,
        _cols: &[Col],
        item: &Col,
        tokens: &mut TokenList,
    ) -> Result<(), Memory> {
        tokens.add(name(alloc, item.name.bytes())?)?;
        let kind = match item.kind {
            ColType::Int => Keyword::Int,
            ColType::Text => Keyword::Text,
        };
        tokens.add(Token::Key(kind))
    }
}

/// The columns of a key in parentheses.
fn key(alloc: Global, cols: &[Col], places: &[u8], tokens: &mut TokenList) -> Result<(), Memory>
    ensures { OnOk result (tokens.new ≡ tokens.old ++ in_parentheses (listed name_words (map (name_at cols.now) places.now))) }
{
    tokens.add(Token::Sign(Symbol::Open))?;
    list::<Names>(alloc, cols, places, tokens)?;
    tokens.add(Token::Sign(Symbol::Close))
}

fn purpose(purpose: KeyUse, tokens: &mut TokenList) -> Result<(), Memory>
    ensures { OnOk result (tokens.new ≡ tokens.old ++ use_words purpose) }
{
    match purpose {
        KeyUse::Index => tokens.add(Token::Key(Keyword::Key)),
        KeyUse::Unique => {
            tokens.add(Token::Key(Keyword::Unique))?;
            tokens.add(Token::Key(Keyword::Key))
        }
        KeyUse::Sort => {
            tokens.add(Token::Key(Keyword::Sort))?;
            tokens.add(Token::Key(Keyword::Key))
        }
    }
}

/// The unique keys of a table.
struct Uniques;

impl Part for Uniques {
    type Item = ColList;

    type Raw = RawKey;

    ghost raw = { λ cols places. key_line cols Unique places };

    ghost words = { key_words };

    fn print(
        alloc: Global,
        cols: &[Col],
        item: &ColList,
        tokens: &mut TokenList,
    ) -> Result<(), Memory> {
        purpose(KeyUse::Unique, tokens)?;
        key(alloc, cols, item.as_slice(), tokens)
    }
}

/// The indexes of a table.
struct Indexes;

impl Part for Indexes {
    type Item = ColList;

    type Raw = RawKey;

    ghost raw = { λ cols places. key_line cols Index places };

    ghost words = { key_words };

    fn print(
        alloc: Global,
        cols: &[Col],
        item: &ColList,
        tokens: &mut TokenList,
    ) -> Result<(), Memory> {
        purpose(KeyUse::Index, tokens)?;
        key(alloc, cols, item.as_slice(), tokens)
    }
}

/// The sort key, if there is one.
fn sort(alloc: Global, cols: &[Col], places: &[u8], tokens: &mut TokenList) -> Result<(), Memory>
    ensures { OnOk result (tokens.new ≡ tokens.old ++ later_words key_words (sort_lines cols.now places.now)) }
{
    if places.is_empty() {
        return Ok(());
    }
    tokens.add(Token::Sign(Symbol::Comma))?;
    purpose(KeyUse::Sort, tokens)?;
    key(alloc, cols, places, tokens)
}

/// The keys of a table, each after a comma.
fn keys(alloc: Global, schema: &Schema, tokens: &mut TokenList) -> Result<(), Memory>
    ensures { OnOk result (tokens.new ≡ tokens.old ++ later_words key_words (key_lines schema.now.cols schema.now.uniques schema.now.indexes schema.now.sort)) }
{
    let cols = schema.cols.as_slice();
    later::<Uniques>(alloc, cols, schema.uniques.as_slice(), tokens)?;
    later::<Indexes>(alloc, cols, schema.indexes.as_slice(), tokens)?;
    sort(alloc, cols, schema.sort.as_slice(), tokens)
}

/// Prints CREATE TABLE.
pub fn create(alloc: Global, schema: &Schema, out: &mut Vec<u8>) -> Result<(), Memory>
    ensures { OnOk result (out.new.items ≡ out.old.items ++ line_text (create_line schema.now)) }
{
    let mut tokens = Seq::new(alloc);
    tokens.add(Token::Key(Keyword::Create))?;
    tokens.add(Token::Key(Keyword::Table))?;
    tokens.add(name(alloc, schema.table.bytes())?)?;
    tokens.add(Token::Sign(Symbol::Open))?;
    list::<Columns>(
        alloc,
        schema.cols.as_slice(),
        schema.cols.as_slice(),
        &mut tokens,
    )?;
    keys(alloc, schema, &mut tokens)?;
    tokens.add(Token::Sign(Symbol::Close))?;
    end(&tokens, out)
}

fn session(
    alloc: Global,
    table: &[u8],
    cols: &[Col],
    line: &Line,
    out: &mut Vec<u8>,
) -> Result<(), Memory>
    requires { StmtIsWritten line.now.stmt }
    ensures { OnOk result (out.new.items ≡ out.old.items ++ line_text (session_line table.now cols.now line.now)) }
{
    let mut tokens = Seq::new(alloc);
    tokens.add(Token::Number(u64::from(line.session)))?;
    tokens.add(Token::Sign(Symbol::Colon))?;
    stmt(alloc, table, cols, &line.stmt, &mut tokens)?;
    end(&tokens, out)
}

/// Prints the lines of the sessions.
pub fn sessions(
    alloc: Global,
    table: &[u8],
    cols: &[Col],
    lines: &[Line],
    out: &mut Vec<u8>,
) -> Result<(), Memory>
    requires { AreWritten lines.now }
    ensures { OnOk result (out.new.items ≡ out.old.items ++ flat_map line_text (map (session_line table.now cols.now) lines.now)) }
{
    let mut left = lines;
    while let [line, rest @ ..] = left {
        session(alloc, table, cols, line, out)?;
        left = rest;
    }
    Ok(())
}
