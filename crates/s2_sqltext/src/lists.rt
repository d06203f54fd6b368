//! Lists printed with commas between their items.
ghost use Rattle.std.specs.Prelude.{◌≡◌, ◌++◌, List, OnOk, map};
ghost use Rattle.s2_value.specs.declared.schemas.Col.{Col as AnyCol};
ghost use Rattle.s2_token.specs.declared.types.Token.{Token as AnyToken};
ghost use Rattle.s2_line.specs.Words.{listed, later_words};

use s2_pred::TokenList;
use s2_token::{Symbol, Token};
use s2_value::{Col, Memory};
use std::alloc::Global;

/// How the items of a list are printed over the columns of a table.
pub trait Part {
    /// An item of a script.
    type Item;

    /// The item as it is written.
    type Raw;

    /// How it is written.
    ghost raw: { List AnyCol → Self.Item → Self.Raw };

    /// Its words.
    ghost words: { Self.Raw → List AnyToken };

    /// Adds its words.
    fn print(
        alloc: Global,
        cols: &[Col],
        item: &Self::Item,
        tokens: &mut TokenList,
    ) -> Result<(), Memory>
        ensures { OnOk result (tokens.new ≡ tokens.old ++ words (raw cols.now item.now)) };
}

/// Adds the words of further items, each after a comma.
pub fn later<P: Part>(
    alloc: Global,
    cols: &[Col],
    items: &[P::Item],
    tokens: &mut TokenList,
) -> Result<(), Memory>
    ensures { OnOk result (tokens.new ≡ tokens.old ++ later_words P.words (map (P.raw cols.now) items.now)) }
{
    let mut left = items;
    while let [item, rest @ ..] = left {
        tokens.add(Token::Sign(Symbol::Comma))?;
        P::print(alloc, cols, item, tokens)?;
        left = rest;
    }
    Ok(())
}

/// Adds the words of all items, with commas between them.
pub fn list<P: Part>(
    alloc: Global,
    cols: &[Col],
    items: &[P::Item],
    tokens: &mut TokenList,
) -> Result<(), Memory>
    ensures { OnOk result (tokens.new ≡ tokens.old ++ listed P.words (map (P.raw cols.now) items.now)) }
{
    match items {
        [first, rest @ ..] => {
            P::print(alloc, cols, first, tokens)?;
            later::<P>(alloc, cols, rest, tokens)
        }
        [] => Ok(()),
    }
}
