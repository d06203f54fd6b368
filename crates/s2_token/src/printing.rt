//! How tokens are printed.
ghost use Rattle.std.specs.Prelude.{◌≡◌, ◌++◌, false, List, Some, OnOk, OnErr, take, length};
ghost use Rattle.s2_token.specs.declared.types.Token.{Token};
ghost use Rattle.s2_token.specs.Lexing.{lexed};
ghost use Rattle.s2_token.specs.Printing.{ArePrintable, closes, gap, is_aggregate, is_joined, is_minus, is_named, is_number, later_text, opens, symbol_text, token_text, tokens_text};

use crate::{Keyword, Symbol, Token};
use itoa::Buffer;
use s2_value::{Memory, print_text};

impl Symbol {
    /// The symbol's text.
    #[tactic(auto, unfolding(crate::specs::Printing::symbol_text))]
    pub fn text(self) -> &'static [u8]
        ensures { result.now ≡ symbol_text self }
    {
        match self {
            Symbol::Open => b"(",
            Symbol::Close => b")",
            Symbol::Comma => b",",
            Symbol::Semicolon => b";",
            Symbol::Colon => b":",
            Symbol::Equal => b"=",
            Symbol::NotEqual => b"<>",
            Symbol::Less => b"<",
            Symbol::AtMost => b"<=",
            Symbol::Greater => b">",
            Symbol::AtLeast => b">=",
            Symbol::Plus => b"+",
            Symbol::Minus => b"-",
            Symbol::Star => b"*",
        }
    }
}

fn opens(token: &Token) -> bool
    ensures { result ≡ opens token.now }
{
    matches!(token, Token::Sign(Symbol::Open))
}

fn closes(token: &Token) -> bool
    ensures { result ≡ closes token.now }
{
    match token {
        Token::Sign(Symbol::Close) => true,
        Token::Sign(Symbol::Comma) => true,
        Token::Sign(Symbol::Semicolon) => true,
        Token::Sign(Symbol::Colon) => true,
        _ => false,
    }
}

fn is_aggregate(token: &Token) -> bool
    ensures { result ≡ is_aggregate token.now }
{
    match token {
        Token::Key(Keyword::Count) => true,
        Token::Key(Keyword::Sum) => true,
        Token::Key(Keyword::Min) => true,
        Token::Key(Keyword::Max) => true,
        _ => false,
    }
}

fn is_named(token: &Token) -> bool
    ensures { result ≡ is_named token.now }
{
    matches!(token, Token::Name(_))
}

fn is_minus(token: &Token) -> bool
    ensures { result ≡ is_minus token.now }
{
    matches!(token, Token::Sign(Symbol::Minus))
}

fn is_number(token: &Token) -> bool
    ensures { result ≡ is_number token.now }
{
    matches!(token, Token::Number(_))
}

fn is_joined(after_name: bool, left: &Token, right: &Token) -> bool
    ensures { result ≡ is_joined after_name left.now right.now }
{
    opens(left)
        || closes(right)
        || (is_aggregate(left) && opens(right))
        || (!after_name && is_minus(left) && is_number(right))
}

fn put(out: &mut Vec<u8>, piece: &[u8]) -> Result<(), Memory>
    ensures ok { OnOk result (out.new.items ≡ out.old.items ++ piece.now) }
    ensures kept { take (length out.old.items) out.new.items ≡ out.old.items }
{
    out.extend_from_slice(piece)
}

fn put_gap(out: &mut Vec<u8>, after_name: bool, left: &Token, right: &Token) -> Result<(), Memory>
    ensures ok { OnOk result (out.new.items ≡ out.old.items ++ gap after_name left.now right.now) }
    ensures kept { take (length out.old.items) out.new.items ≡ out.old.items }
{
    if is_joined(after_name, left, right) {
        Ok(())
    } else {
        put(out, b" ")
    }
}

#[tactic(auto, unfolding(crate::specs::Printing::token_text))]
fn put_token(out: &mut Vec<u8>, token: &Token) -> Result<(), Memory>
    ensures ok { OnOk result (out.new.items ≡ out.old.items ++ token_text token.now) }
    ensures kept { take (length out.old.items) out.new.items ≡ out.old.items }
{
    match token {
        Token::Key(keyword) => put(out, keyword.text()),
        Token::Name(name) => put(out, name.as_slice()),
        Token::Number(number) => put(out, Buffer::new().format(*number).as_bytes()),
        Token::Text(text) => print_text(text.as_slice(), out),
        Token::Sign(symbol) => put(out, symbol.text()),
    }
}

fn put_next(out: &mut Vec<u8>, after_name: bool, left: &Token, right: &Token) -> Result<(), Memory>
    ensures ok { OnOk result (out.new.items ≡ out.old.items ++ (gap after_name left.now right.now ++ token_text right.now)) }
    ensures kept { take (length out.old.items) out.new.items ≡ out.old.items }
{
    put_gap(out, after_name, left, right)?;
    put_token(out, right)
}

#[tactic(auto, using(crate::proofs::Written::one_more), unfolding(crate::specs::Printing::later_text))]
fn put_later(out: &mut Vec<u8>, first: &Token, later: &[Token]) -> Result<(), Memory>
    ensures ok { OnOk result (out.new.items ≡ out.old.items ++ later_text false first.now later.now) }
    ensures kept { take (length out.old.items) out.new.items ≡ out.old.items }
{
    let mut after_name = false;
    let mut left = first;
    let mut rest = later;
    while let [token, further @ ..] = rest {
        put_next(out, after_name, left, token)?;
        after_name = is_named(left);
        left = token;
        rest = further;
    }
    Ok(())
}

#[tactic(auto, unfolding(crate::specs::Printing::tokens_text))]
fn put_tokens(out: &mut Vec<u8>, tokens: &[Token]) -> Result<(), Memory>
    ensures ok { OnOk result (out.new.items ≡ out.old.items ++ tokens_text tokens.now) }
    ensures kept { take (length out.old.items) out.new.items ≡ out.old.items }
{
    let [first, later @ ..] = tokens else {
        return Ok(());
    };
    put_token(out, first)?;
    put_later(out, first, later)
}

/// Writes the tokens at the end of `out`: keywords in upper case, one space between two tokens, and none behind `(`, before `)`, `,`, `;` and `:`, between an aggregate and its `(`, and between a number and its sign.
/// After want of memory `out` is as it was.
pub fn print_tokens(tokens: &[Token], out: &mut Vec<u8>) -> Result<(), Memory>
    ensures ok { OnOk result (out.new.items ≡ out.old.items ++ tokens_text tokens.now) }
    ensures err { OnErr result (out.new.items ≡ out.old.items) }
{
    let start = out.len();
    let written = put_tokens(out, tokens);
    if written.is_err() {
        out.truncate(start);
    }
    written
}

/// Printed tokens are lexed as they were, where each name is a word that is no keyword.
pub fn printed_tokens_are_lexed()
    ensures { (tokens : List Token) → ArePrintable tokens → lexed (tokens_text tokens) ≡ Some tokens }
{}
