//! Lists of one kind of item.
ghost use Rattle.std.specs.Prelude.{◌≡◌, List, Option};
ghost use Rattle.std.specs.Option.{option_copied};
ghost use Rattle.s2_token.specs.declared.types.Token.{Token as AnyToken};
ghost use Rattle.s2_line.specs.Reading.{Gives, list_at, comma_at};

use crate::fault::Fault;
use s2_token::Token;
use s2_value::Seq;
use std::alloc::Global;

/// What the items of a list are.
pub trait Rule {
    /// An item.
    type Out: Drop;

    /// What is read at the front of tokens: an item, and the tokens after it.
    ghost at: { List AnyToken → Option (Self.Out × List AnyToken) };

    /// The tokens after what stands between two items.
    ghost goes_on: { List AnyToken → Option (List AnyToken) } = { comma_at };

    /// The item at the front, and the tokens after it.
    fn read(alloc: Global, tokens: &[Token]) -> Result<(Self::Out, &[Token]), Fault>
        ensures { Gives (λ x. (x.0, x.1.now)) result (at tokens.now) };

    /// The tokens of the next item, where one follows.
    fn next(tokens: &[Token]) -> Option<&[Token]>
        ensures { option_copied result ≡ goes_on tokens.now };
}

/// One or more items, and the tokens after them.
#[tactic(auto, unfolding(crate::specs::Reading::items_at))]
pub fn list<R: Rule>(alloc: Global, tokens: &[Token]) -> Result<(Seq<R::Out>, &[Token]), Fault>
    ensures { Gives (λ x. (x.0, x.1.now)) result (list_at R.at R.goes_on tokens.now) }
{
    let mut items = Vec::new(alloc);
    let mut left = tokens;
    for _token in tokens {
        let (item, rest) = R::read(alloc, left)?;
        items.push(item)?;
        match R::next(rest) {
            Some(later) => left = later,
            None => return Ok((Seq::from_vec(items), rest)),
        }
    }
    Err(Fault::Syntax)
}
