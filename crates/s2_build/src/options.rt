//! Options.
ghost use Rattle.std.specs.Prelude.{◌≡◌, ◌<◌, ◌^◌, true};
ghost use Rattle.std.specs.Str.{bytes_eq};
ghost use Rattle.s2_value.specs.Columns.{is_between};
ghost use Rattle.s2_build.specs.Drafts.{given_of, chosen, is_chosen, with_option};

use s2_model::Options;

fn is_same(a: &[u8], b: &[u8]) -> bool
    ensures { result ≡ bytes_eq a.now b.now }
{
    a == b
}

/// The numbers that an option takes.
#[derive(Clone, Copy)]
struct Bounds {
    low: u64,
    high: u64,
}

/// The value, where it is given under the wanted name and within its limits; else what it was.
fn chosen(name: &[u8], wanted: &[u8], bounds: Bounds, value: u64, was: u32) -> u32
    requires small { bounds.high < 2 ^ 32 }
    requires within { is_between bounds.low bounds.high was ≡ true }
    ensures value { result ≡ chosen name.now wanted.now bounds.low bounds.high value was }
    ensures within { is_between bounds.low bounds.high result ≡ true }
{
    if is_same(name, wanted) && bounds.low <= value && value <= bounds.high {
        value as u32
    } else {
        was
    }
}

fn is_chosen(name: &[u8], value: u64, was: bool) -> bool
    ensures { result ≡ is_chosen name.now value was }
{
    if is_same(name, b"workers") && value <= 1 {
        value == 1
    } else {
        was
    }
}

const SEGMENT_ROWS: Bounds = Bounds { low: 1, high: 8192 };

const FLUSH_ROWS: Bounds = Bounds {
    low: 1,
    high: 65536,
};

const FANOUT: Bounds = Bounds { low: 2, high: 16 };

const CACHE: Bounds = Bounds { low: 1, high: 32 };

/// The options with one more that is given.
pub fn with_option(options: Options, name: &[u8], value: u64) -> Options
    ensures { given_of result ≡ with_option name.now value (given_of options) }
{
    let segment_rows = chosen(
        name,
        b"segment_rows",
        SEGMENT_ROWS,
        value,
        options.segment_rows,
    );
    let flush_rows = chosen(name, b"flush_rows", FLUSH_ROWS, value, options.flush_rows);
    let fanout = chosen(name, b"fanout", FANOUT, value, options.fanout);
    let cache = chosen(name, b"cache", CACHE, value, options.cache);
    let workers = is_chosen(name, value, options.workers);
    Options {
        segment_rows,
        flush_rows,
        fanout,
        cache,
        workers,
    }
}
