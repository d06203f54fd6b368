//! The tokens of a line's bytes.
ghost use Rattle.std.specs.Prelude.{◌≡◌, ◌≤◌, ◌<◌, ◌∷◌, ℕ, true, [], Some, min, length, take, drop, IfOk, slice_index};
ghost use Rattle.std.specs.List.{prefix_len};
ghost use Rattle.std.specs.Option.{option_map, IfNone, IfSome};
ghost use Rattle.std.specs.Result.{IsErrOf};
ghost use Rattle.std.specs.Str.Parse.{digits_value};
ghost use Rattle.s2_token.specs.Words.{is_digit, is_word_byte};
ghost use Rattle.s2_token.specs.Lexing.{is_blank, lexed, longest, most_number, number_token, pair_at, pair_symbol, quoted_at, single_symbol, symbol_at, token_at, word_token};
ghost use Rattle.s2_token.specs.Reading.{Gives};

use crate::words::{is_digit, is_word_byte, is_word_start, keyword_of};
use crate::{Bytes, Fault, Symbol, Token};
use s2_value::{Memory, Seq};
use std::alloc::Global;

fn is_blank(b: u8) -> bool
    ensures { result ≡ is_blank b }
{
    b == b' ' || b == b'\t'
}

fn blanks(bytes: &[u8]) -> usize
    ensures value { result ≡ prefix_len is_blank bytes.now }
    ensures within { result ≤ length bytes.now }
{
    for (i, b) in bytes.iter().enumerate() {
        if !is_blank(*b) {
            return i;
        }
    }
    bytes.len()
}

fn past_blanks(bytes: &[u8]) -> &[u8]
    ensures { result.now ≡ drop (prefix_len is_blank bytes.entry.now) bytes.entry.now }
{
    bytes.split_at(blanks(bytes)).1
}

fn word_len(bytes: &[u8]) -> usize
    ensures value { result ≡ prefix_len is_word_byte bytes.now }
    ensures within { result ≤ length bytes.now }
{
    for (i, b) in bytes.iter().enumerate() {
        if !is_word_byte(*b) {
            return i;
        }
    }
    bytes.len()
}

fn digits_len(bytes: &[u8]) -> usize
    ensures value { result ≡ prefix_len is_digit bytes.now }
    ensures within { result ≤ length bytes.now }
{
    for (i, b) in bytes.iter().enumerate() {
        if !is_digit(*b) {
            return i;
        }
    }
    bytes.len()
}

fn word_token(alloc: Global, word: &[u8]) -> Result<Token, Memory>
    ensures { IfOk result (λ t. t ≡ word_token word.now) }
{
    match keyword_of(word) {
        Some(keyword) => Ok(Token::Key(keyword)),
        None => Ok(Token::Name(Seq::from_vec(Vec::from_slice(alloc, word)?))),
    }
}

fn word(alloc: Global, bytes: &[u8]) -> Result<(Token, &[u8]), Fault>
    ensures { Gives (λ x. (x.0, x.1.now)) result (Some (longest is_word_byte word_token bytes.now)) }
{
    let (word, rest) = bytes.split_at(word_len(bytes));
    Ok((word_token(alloc, word)?, rest))
}

/// The number that the digits write, or the greatest of 64 bits where it is more.
fn number_of(digits: &[u8]) -> u64
    requires { (k : ℕ) → k < length digits.now → is_digit (slice_index digits.now k) ≡ true }
    ensures { result ≡ min (digits_value 10 digits.now) most_number }
{
    let mut number: u64 = 0;
    for digit in digits {
        number = number
            .saturating_mul(10)
            .saturating_add(u64::from(*digit - b'0'));
    }
    number
}

#[tactic(auto, unfolding(crate::specs::Lexing::number_token))]
fn number(bytes: &[u8]) -> (Token, &[u8])
    ensures { (result.0, result.1.now) ≡ longest is_digit number_token bytes.entry.now }
{
    let (digits, rest) = bytes.split_at(digits_len(bytes));
    (Token::Number(number_of(digits)), rest)
}

/// What stands up to the closing quote, with two quotes read as one, and the bytes after that quote.
#[tactic(auto, unfolding(crate::specs::Lexing::quoted_at))]
fn quoted(alloc: Global, bytes: &[u8]) -> Result<(Vec<u8>, &[u8]), Fault>
    ensures { Gives (λ x. (x.0.items, x.1.now)) result (quoted_at bytes.now) }
{
    let mut text = Vec::new(alloc);
    let mut rest = bytes;
    while let [byte, later @ ..] = rest {
        rest = later;
        if *byte == b'\'' {
            match later {
                [b'\'', others @ ..] => rest = others,
                _ => return Ok((text, later)),
            }
        }
        text.push(*byte)?;
    }
    Err(Fault::BadToken)
}

#[tactic(auto, unfolding(crate::specs::Lexing::pair_symbol))]
fn pair_symbol(a: u8, b: u8) -> Option<Symbol>
    ensures { result ≡ pair_symbol a b }
{
    match (a, b) {
        (b'<', b'>') => Some(Symbol::NotEqual),
        (b'!', b'=') => Some(Symbol::NotEqual),
        (b'<', b'=') => Some(Symbol::AtMost),
        (b'>', b'=') => Some(Symbol::AtLeast),
        _ => None,
    }
}

#[tactic(auto, unfolding(crate::specs::Lexing::single_symbol))]
fn single_symbol(b: u8) -> Option<Symbol>
    ensures { result ≡ single_symbol b }
{
    match b {
        b'(' => Some(Symbol::Open),
        b')' => Some(Symbol::Close),
        b',' => Some(Symbol::Comma),
        b';' => Some(Symbol::Semicolon),
        b':' => Some(Symbol::Colon),
        b'=' => Some(Symbol::Equal),
        b'<' => Some(Symbol::Less),
        b'>' => Some(Symbol::Greater),
        b'+' => Some(Symbol::Plus),
        b'-' => Some(Symbol::Minus),
        b'*' => Some(Symbol::Star),
        _ => None,
    }
}

#[tactic(auto, unfolding(crate::specs::Lexing::pair_at))]
fn pair(a: u8, later: &[u8]) -> Option<(Symbol, &[u8])>
    ensures { option_map (λ x. (x.0, x.1.now)) result ≡ pair_at a later.entry.now }
{
    let [b, rest @ ..] = later else {
        return None;
    };
    let symbol = pair_symbol(a, *b)?;
    Some((symbol, rest))
}

#[tactic(auto, unfolding(crate::specs::Lexing::symbol_at))]
fn symbol(bytes: &[u8]) -> Option<(Symbol, &[u8])>
    ensures { option_map (λ x. (x.0, x.1.now)) result ≡ symbol_at bytes.entry.now }
{
    let [a, later @ ..] = bytes else {
        return None;
    };
    match pair(*a, later) {
        Some(found) => Some(found),
        None => {
            let symbol = single_symbol(*a)?;
            Some((symbol, later))
        }
    }
}

/// The longest token at the front, and the bytes after it.
#[tactic(auto, unfolding(crate::specs::Lexing::token_at))]
fn token(alloc: Global, bytes: &[u8]) -> Result<(Token, &[u8]), Fault>
    ensures { Gives (λ x. (x.0, x.1.now)) result (token_at bytes.now) }
{
    let [first, later @ ..] = bytes else {
        return Err(Fault::BadToken);
    };
    if is_word_start(*first) {
        word(alloc, bytes)
    } else if is_digit(*first) {
        Ok(number(bytes))
    } else if *first == b'\'' {
        let (text, rest) = quoted(alloc, later)?;
        Ok((Token::Text(Seq::from_vec(text)), rest))
    } else {
        let (symbol, rest) = symbol(bytes).ok_or(Fault::BadToken)?;
        Ok((Token::Sign(symbol), rest))
    }
}

/// The tokens of a line without its end. `BadToken` is given exactly where at some place, after spaces and tabs, no token begins.
pub fn tokens(alloc: Global, line: &[u8]) -> Result<Vec<Token>, Fault>
    ensures found { IfOk result (λ ts. lexed line.now ≡ Some ts.items) }
    ensures bad { IsErrOf result Fault.BadToken → lexed line.now ≡ None }
{
    let mut tokens = Vec::new(alloc);
    let mut rest = past_blanks(line);
    while !rest.is_empty() {
        let (token, after) = token(alloc, rest)?;
        tokens.push(token)?;
        rest = past_blanks(after);
    }
    Ok(tokens)
}

/// The first token of a line, after spaces and tabs, and the bytes after it; `None` where only spaces and tabs are left. `BadToken` is given only where no token begins there.
/// The tokens of a line are its first one and then those of the bytes after it.
pub fn first_token(alloc: Global, line: &[u8]) -> Result<Option<(Token, &[u8])>, Fault>
    ensures first { IfOk result (λ found. IfSome found (λ x. lexed line.now ≡ option_map (λ later. x.0 ∷ later) (lexed x.1.now))) }
    ensures shorter { IfOk result (λ found. IfSome found (λ x. length x.1.now < length line.now)) }
    ensures none { IfOk result (λ found. IfNone found (lexed line.now ≡ Some [])) }
    ensures bad { IsErrOf result Fault.BadToken → lexed line.now ≡ None }
{
    let start = past_blanks(line);
    if start.is_empty() {
        return Ok(None);
    }
    let (token, after) = token(alloc, start)?;
    Ok(Some((token, after)))
}
