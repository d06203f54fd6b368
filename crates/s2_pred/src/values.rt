//! Names and literals as places and values.
ghost use Rattle.std.specs.Prelude.{◌≡◌, ◌≤◌, None, Some, length, IfOk, IsErrOf, IfSome};
ghost use Rattle.std.specs.Bool.{◌==◌};
ghost use Rattle.std.specs.Cmp.Lexicographic.{pointwise};
ghost use Rattle.s2_pred.specs.Meaning.{place_of, number_of, value_of, values_of};

use s2_token::Literal;
use s2_value::{Col, Memory, Seq, Txt, TxtErr, Value, ValueList};
use std::alloc::Global;

/// Why no predicate is built.
#[derive(Clone, Copy, Debug, PartialEq, Eq)]
pub enum Unbuilt {
    /// A name is no column, or a literal no value.
    Unresolved,
    /// Want of memory.
    Memory,
}

impl From<Memory> for Unbuilt {
    ghost use Rattle.std.specs.Prelude.{◌≡◌};
    ghost use Rattle.s2_pred.specs.declared.values.Unbuilt.TheVariants.{Memory};

    ghost from_gives = { λ _ fault. fault ≡ Memory };

    fn from(_failed: Memory) -> Unbuilt {
        Unbuilt::Memory
    }
}

fn is_same(a: &[u8], b: &[u8]) -> bool
    ensures { result ≡ pointwise ◌==◌ a.now b.now }
{
    a == b
}

/// The place of the first column of this name, from 0, or `None` where no column has it.
pub fn place(cols: &[Col], name: &[u8]) -> Option<u8>
    requires { length cols.now ≤ 16 }
    ensures { result ≡ place_of cols.now name.now }
{
    let mut at: u8 = 0;
    for col in cols {
        if is_same(col.name.bytes(), name) {
            return Some(at);
        }
        at += 1;
    }
    None
}

/// The number of this size, with a `-` before it where it is negative; `None` where it is outside 64 bits.
pub fn number(negative: bool, size: u64) -> Option<i64>
    ensures { result ≡ number_of negative size }
{
    if !negative {
        return if size < 1 << 63 {
            Some(size as i64)
        } else {
            None
        };
    }
    if size == 0 {
        return Some(0);
    }
    if size <= 1 << 63 {
        Some(-1 - (size - 1) as i64)
    } else {
        None
    }
}

/// The value of a literal. `Unresolved` comes exactly where it is none: a number outside 64 bits, more than 255 bytes of text, or a text that isn't UTF-8 or has a line feed.
pub fn value(alloc: Global, literal: &Literal) -> Result<Value, Unbuilt>
    ensures ok { IfOk result (λ v. value_of literal.now ≡ Some v) }
    ensures unresolved { IsErrOf result Unbuilt.Unresolved → value_of literal.now ≡ None }
{
    match literal {
        Literal::Number { negative, size } => match number(*negative, *size) {
            Some(number) => Ok(Value::Int(number)),
            None => Err(Unbuilt::Unresolved),
        },
        Literal::Text(bytes) => match Txt::new(alloc, bytes.as_slice()) {
            Ok(text) => Ok(Value::Text(text)),
            Err(TxtErr::Memory) => Err(Unbuilt::Memory),
            Err(TxtErr::TooLong) => Err(Unbuilt::Unresolved),
            Err(TxtErr::NotText) => Err(Unbuilt::Unresolved),
        },
    }
}

/// The values of literals.
pub(crate) fn values(alloc: Global, literals: &[Literal]) -> Result<ValueList, Unbuilt>
    ensures ok { IfOk result (λ vs. values_of literals.now ≡ Some vs) }
    ensures unresolved { IsErrOf result Unbuilt.Unresolved → values_of literals.now ≡ None }
{
    let mut list = Seq::new(alloc);
    let mut left = literals;
    while let [literal, rest @ ..] = left {
        list.add(value(alloc, literal)?)?;
        left = rest;
    }
    Ok(list)
}
