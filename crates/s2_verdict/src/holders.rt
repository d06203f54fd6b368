//! Who else holds rows and key values.
ghost use Rattle.std.specs.Prelude.{◌≡◌, IfOk};
ghost use Rattle.s2_model.specs.History.{history};
ghost use Rattle.s2_model.specs.Held.{sessions};
ghost use Rattle.s2_verdict.specs.Holders.{others_of, holder_in, value_holder_in};

use crate::keys::has_value;
use s2_model::{ChangeList, Entry};
use s2_slow::{pending, sessions, touches};
use s2_value::{Memory, Row, Value};
use std::alloc::Global;

/// The other sessions with their open writes.
pub fn others(alloc: Global, h: &[Entry], actor: u8) -> Result<Vec<(u8, ChangeList)>, Memory>
    ensures { IfOk result (λ v. v.items ≡ others_of (history h.now) actor sessions) }
{
    let mut others = Vec::new(alloc);
    let actors = sessions();
    let mut left = actors.as_slice();
    while let [other, rest @ ..] = left {
        if *other != actor {
            others.push((*other, pending(alloc, h, *other)?))?;
        }
        left = rest;
    }
    Ok(others)
}

/// The first of them that holds the row.
pub fn holder_in(others: &[(u8, ChangeList)], number: u64) -> Option<u8>
    ensures { result ≡ holder_in others.now number }
{
    let mut left = others;
    while let [other, rest @ ..] = left {
        if touches(other.1.as_slice(), number) {
            return Some(other.0);
        }
        left = rest;
    }
    None
}

/// The first of them that holds the value of the key; `rows` is the content.
pub fn value_holder_in(
    rows: &[(u64, Row)],
    others: &[(u8, ChangeList)],
    key: &[u8],
    value: &[Value],
) -> Option<u8>
    ensures { result ≡ value_holder_in rows.now others.now key.now value.now }
{
    let mut left = others;
    while let [other, rest @ ..] = left {
        if has_value(key, rows, other.1.as_slice(), value) {
            return Some(other.0);
        }
        left = rest;
    }
    None
}
