//! Names that stand twice.
ghost use Rattle.std.specs.Prelude.{◌≡◌, ℕ, List, map};
ghost use Rattle.std.specs.List.{list_any};
ghost use Rattle.std.specs.Str.{bytes_eq};
ghost use Rattle.s2_judge.specs.Kinds.{has_repeated, is_repeated_name};

use crate::names::is_same;
use s2_line::{Raw, RawColumn, RawKey, RawOf, RawSet, RawStmtOf};
use s2_token::Bytes;

/// What has a name.
trait Named {
    /// The name.
    ghost named: { Self → List ℕ };

    /// The name.
    fn name(&self) -> &[u8]
        ensures { result.now ≡ named self.now };
}

impl Named for RawColumn {
    ghost named = { λ c. c.name };

    fn name(&self) -> &[u8] {
        self.name.as_slice()
    }
}

impl Named for RawSet {
    ghost named = { λ s. s.name };

    fn name(&self) -> &[u8] {
        self.name.as_slice()
    }
}

fn has_one_named<T: Named>(items: &[T], name: &[u8]) -> bool
    ensures { result ≡ list_any (λ item. bytes_eq (T.named item) name.now) items.now }
{
    items.iter().any(|item| is_same(item.name(), name))
}

#[tactic(auto, using(crate::proofs::Walks::list_any_map))]
fn is_among<T: Named>(items: &[T], name: &[u8]) -> bool
    ensures { result ≡ list_any (λ other. bytes_eq other name.now) (map T.named items.now) }
{
    has_one_named(items, name)
}

fn has_repeated<T: Named>(items: &[T]) -> bool
    ensures { result ≡ has_repeated (map T.named items.now) }
{
    let mut left = items;
    while let [item, rest @ ..] = left {
        if is_among(rest, item.name()) {
            return true;
        }
        left = rest;
    }
    false
}

fn is_listed(names: &[Bytes], name: &[u8]) -> bool
    ensures { result ≡ list_any (λ other. bytes_eq other name.now) names.now }
{
    names.iter().any(|other| is_same(other.as_slice(), name))
}

fn has_repeated_name(names: &[Bytes]) -> bool
    ensures { result ≡ has_repeated names.now }
{
    let mut left = names;
    while let [name, rest @ ..] = left {
        if is_listed(rest, name.as_slice()) {
            return true;
        }
        left = rest;
    }
    false
}

fn has_repeating_key(keys: &[RawKey]) -> bool
    ensures { result ≡ list_any (λ k. has_repeated k.columns) keys.now }
{
    keys.iter()
        .any(|key| has_repeated_name(key.columns.as_slice()))
}

/// Whether a column is defined twice, twice in a key, or set twice. The time is the number of names by the number of
/// different ones.
pub fn is_repeated_name(line: &Raw) -> bool
    ensures { result ≡ is_repeated_name line.now }
{
    match line {
        RawOf::Create { columns, keys, .. } => {
            has_repeated(columns.as_slice()) || has_repeating_key(keys.as_slice())
        }
        RawOf::Session {
            stmt: RawStmtOf::Update { sets, .. },
            ..
        } => has_repeated(sets.as_slice()),
        _ => false,
    }
}
