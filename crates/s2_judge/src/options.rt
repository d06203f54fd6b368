//! Where lines may stand, and options.
ghost use Rattle.std.specs.Prelude.{◌≡◌};
ghost use Rattle.std.specs.List.{list_any};
ghost use Rattle.std.specs.Str.{bytes_eq};
ghost use Rattle.s2_judge.specs.Kinds.{is_misplaced, is_within, is_option, is_option_value};

use crate::known::Known;
use crate::names::is_same;
use s2_line::{Raw, RawOf};
use s2_token::Bytes;

/// Whether the line stands at the wrong place.
pub fn is_misplaced(known: &Known, line: &Raw) -> bool
    ensures { result ≡ is_misplaced known.now line.now }
{
    match line {
        RawOf::Option { .. } => known.table.is_some(),
        RawOf::Create { .. } => known.table.is_some(),
        RawOf::Session { .. } => known.table.is_none(),
    }
}

/// Whether a number is within limits.
pub fn is_within(least: u64, most: u64, n: u64) -> bool
    ensures { result ≡ is_within least most n }
{
    least <= n && n <= most
}

fn is_option(name: &[u8], value: u64) -> bool
    ensures { result ≡ is_option name.now value }
{
    is_same(name, b"segment_rows") && is_within(1, 8192, value)
        || is_same(name, b"flush_rows") && is_within(1, 65536, value)
        || is_same(name, b"fanout") && is_within(2, 16, value)
        || is_same(name, b"cache") && is_within(1, 32, value)
        || is_same(name, b"workers") && is_within(0, 1, value)
}

fn is_given(name: &[u8], options: &[Bytes]) -> bool
    ensures { result ≡ list_any (λ given. bytes_eq given name.now) options.now }
{
    options.iter().any(|given| is_same(given.as_slice(), name))
}

/// Whether the line is an option that is unknown, stands for the second time, or has a value outside its limits.
pub fn is_option_value(known: &Known, line: &Raw) -> bool
    ensures { result ≡ is_option_value known.now line.now }
{
    match line {
        RawOf::Option { name, value } => {
            let name = name.as_slice();
            !is_option(name, *value) || is_given(name, known.options.as_slice())
        }
        _ => false,
    }
}
