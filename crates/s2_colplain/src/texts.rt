//! Plain texts: where each ends, then the bytes of all.
ghost use Rattle.std.specs.Prelude.{◌≡◌, ℕ, List, ◌+◌, ◌*◌, ◌<◌, ◌≤◌, ◌-◌, ◌++◌, true, [], length, take, drop, map, slice_index_or, vec_len, vec_capacity, OnOk, OnErr, IsOk};
ghost use Rattle.std.specs.List.{sum_by, concat};
ghost use Rattle.s2_colbytes.specs.Reading.{Gives, to_the_end};
ghost use Rattle.s2_colbytes.specs.Numbers.{numbers, spelled};
ghost use Rattle.s2_value.specs.Text.{is_txt};
ghost use Rattle.s2_colplain.specs.Texts.{texts_at, are_ends, last_end, cut_at, are_texts, start_at, ends_from, plain_texts, text_of};
ghost use Rattle.byteorder.specs.Endian.{little_number};

use s2_colbytes::{ColErr, end, put, put_u32, split_front, u32_at};
use s2_value::{Memory, Txt, Value, are_text_bytes};
use std::marker::Model;

/// What has a text.
pub trait HasText {
    ghost text: { Self → List ℕ };

    /// The bytes of the text, at most 255.
    fn text_bytes(&self) -> &[u8]
        ensures bytes { result.now ≡ text self.now }
        ensures valid { is_txt (text self.now) ≡ true };
}

impl HasText for Txt {
    ghost text = { λ t. t };

    fn text_bytes(&self) -> &[u8] {
        self.bytes()
    }
}

// A number has the empty text.
impl HasText for Value {
    ghost text = { text_of };

    fn text_bytes(&self) -> &[u8] {
        match self {
            Value::Int(_) => &[],
            Value::Text(text) => text.bytes(),
        }
    }
}

/// Plain texts, read in place. In contracts it is the list of the texts, each the list of its bytes.
#[derive(Debug, Drop)]
pub struct PlainText<'a> {
    count: u32,
    ends: &'a [u8],
    bytes: &'a [u8],
}

impl<'a> Model for PlainText<'a> {
    ghost use Rattle.std.specs.Prelude.{List, ℕ};
    ghost use Rattle.s2_colplain.specs.Texts.{texts_in, AreTexts};

    ghost Value = { List (List ℕ) };

    ghost view = { λ p. texts_in p.count p.ends.now p.bytes.now };

    ghost invariant = { λ p. AreTexts p.count p.ends.now p.bytes.now };
}

// Where text `i` begins: at the end before it.
#[inline]
fn start_of(ends: &[u8], i: u32) -> u32
    requires { 4 * i ≤ length ends.now }
    ensures { result ≡ start_at i ends.now }
{
    if i == 0 {
        0
    } else {
        u32_at(ends, i as usize - 1)
    }
}

// The bytes from `start` up to `end`.
#[inline]
fn part(bytes: &[u8], start: usize, end: usize) -> &[u8]
    requires rising { start ≤ end }
    requires within { end ≤ length bytes.now }
    ensures { result.now ≡ take (end - start) (drop start bytes.now) }
{
    &bytes[start..end]
}

// The first end, and the bytes after it.
fn split_end(ends: &[u8]) -> (u32, &[u8])
    requires { 4 ≤ length ends.now }
    ensures first { result.0 ≡ little_number 4 ends.now }
    ensures later { result.1.now ≡ drop 4 ends.now }
{
    (u32_at(ends, 0), ends.split_at(4).1)
}

// Whether no end is below the one before, and none more than 255 above it.
fn are_ends(ends: &[u8], count: u32) -> bool
    requires { length ends.now ≡ 4 * count }
    ensures { result ≡ are_ends 0 (numbers 4 count ends.now) }
{
    let mut start = 0;
    let mut rest = ends;
    for _ in 0..count {
        let (end, after) = split_end(rest);
        if end < start || end - start > 255 {
            return false;
        }
        start = end;
        rest = after;
    }
    true
}

// Where the last text ends: where one more would begin.
fn last_end(ends: &[u8], count: u32) -> u32
    requires { length ends.now ≡ 4 * count }
    ensures { result ≡ last_end 0 (numbers 4 count ends.now) }
{
    start_of(ends, count)
}

// Whether no end is below the one before, and none more than 255 above it. Of what was judged before none is.
fn are_right_ends(ends: &[u8], count: u32, judged: bool) -> bool
    requires whole { length ends.now ≡ 4 * count }
    requires judged { judged ≡ true → are_ends 0 (numbers 4 count ends.now) ≡ true }
    ensures { result ≡ are_ends 0 (numbers 4 count ends.now) }
{
    if judged {
        return true;
    }
    are_ends(ends, count)
}

// Whether each text is UTF-8 without a line feed.
fn are_texts(ends: &[u8], count: u32, bytes: &[u8]) -> bool
    requires whole { length ends.now ≡ 4 * count }
    requires rising { are_ends 0 (numbers 4 count ends.now) ≡ true }
    requires last { last_end 0 (numbers 4 count ends.now) ≡ length bytes.now }
    ensures { result ≡ are_texts (cut_at 0 (numbers 4 count ends.now) bytes.now) }
{
    let mut start = 0;
    let mut rest = ends;
    let mut left = bytes;
    for _ in 0..count {
        let (end, after) = split_end(rest);
        let (text, later) = left.split_at((end - start) as usize);
        if !are_text_bytes(text) {
            return false;
        }
        start = end;
        rest = after;
        left = later;
    }
    true
}

// Whether each text is UTF-8 without a line feed. Of what was judged before each is.
fn are_right_texts(ends: &[u8], count: u32, bytes: &[u8], judged: bool) -> bool
    requires whole { length ends.now ≡ 4 * count }
    requires rising { are_ends 0 (numbers 4 count ends.now) ≡ true }
    requires last { last_end 0 (numbers 4 count ends.now) ≡ length bytes.now }
    requires judged { judged ≡ true → are_texts (cut_at 0 (numbers 4 count ends.now) bytes.now) ≡ true }
    ensures { result ≡ are_texts (cut_at 0 (numbers 4 count ends.now) bytes.now) }
{
    if judged {
        return true;
    }
    are_texts(ends, count, bytes)
}

impl<'a> PlainText<'a> {
    /// The `n` texts at the front of the bytes, and the bytes after them: `Short` of the ends, `BadLength` over all
    /// ends, `Short` of the bytes, `NotText`. Of what was judged before no end and no text is looked at again but the
    /// last end, so that takes constant time.
    #[tactic(auto, unfolding(crate::specs::Texts::texts_at))]
    pub fn read_front(
        n: u32,
        judged: bool,
        bytes: &'a [u8],
    ) -> Result<(PlainText<'a>, &'a [u8]), ColErr>
        requires { judged ≡ true → IsOk (texts_at n bytes.now) }
        ensures { Gives (λ x. (x.0, x.1.now)) result (texts_at n bytes.now) }
    {
        let (ends, rest) = split_front(bytes, 4 * u64::from(n))?;
        if !are_right_ends(ends, n, judged) {
            return Err(ColErr::BadLength);
        }
        let (body, rest) = split_front(rest, u64::from(last_end(ends, n)))?;
        if !are_right_texts(ends, n, body, judged) {
            return Err(ColErr::NotText);
        }
        Ok((
            PlainText {
                count: n,
                ends,
                bytes: body,
            },
            rest,
        ))
    }

    /// The `n` texts that all the bytes are: as `read_front`, then `Trailing`.
    pub fn read(n: u32, bytes: &'a [u8]) -> Result<PlainText<'a>, ColErr>
        ensures { Gives (λ x. x) result (to_the_end (texts_at n bytes.now)) }
    {
        let (column, rest) = PlainText::read_front(n, false, bytes)?;
        end(column, rest)
    }

    /// How many texts there are.
    pub fn len(&self) -> u32
        ensures { result ≡ length self.now }
    {
        self.count
    }

    /// The bytes of text `i`, from 0. It takes constant time.
    #[inline]
    pub fn at(&self, i: u32) -> &'a [u8]
        requires { i < length self.now }
        ensures value { result.now ≡ slice_index_or self.now i [] }
        ensures text { is_txt result.now ≡ true }
    {
        let start = start_of(self.ends, i) as usize;
        let end = u32_at(self.ends, i as usize) as usize;
        part(self.bytes, start, end)
    }
}

// How many bytes the texts have together.
fn total_len<T: HasText>(vals: &[T]) -> usize
    requires { length vals.now ≤ 8192 }
    ensures value { result ≡ sum_by (λ v. length (T.text v)) vals.now }
    ensures small { result ≤ 255 * 8192 }
{
    let mut total = 0;
    for val in vals {
        total += val.text_bytes().len();
    }
    total
}

// Puts where each text ends, for which there is room.
fn put_ends<T: HasText>(vals: &[T], out: &mut Vec<u8>)
    requires few { length vals.now ≤ 8192 }
    requires room { vec_len out.old + 4 * length vals.now ≤ vec_capacity out.old }
    ensures items { out.new.items ≡ out.old.items ++ spelled 4 (ends_from 0 (map T.text vals.now)) }
    ensures len { vec_len out.new ≡ vec_len out.old + 4 * length vals.now }
    ensures capacity { vec_capacity out.old ≤ vec_capacity out.new }
{
    let mut end = 0u32;
    for val in vals {
        end += val.text_bytes().len() as u32;
        put_u32(out, end);
    }
}

// Puts the bytes of the texts, for which there is room.
fn put_texts<T: HasText>(vals: &[T], out: &mut Vec<u8>)
    requires { vec_len out.old + sum_by (λ v. length (T.text v)) vals.now ≤ vec_capacity out.old }
    ensures { out.new.items ≡ out.old.items ++ concat (map T.text vals.now) }
{
    for val in vals {
        put(out, val.text_bytes());
    }
}

/// Puts the texts at the end of `out`, at most 8,192 of them. Want of memory leaves `out` as it was.
pub fn write_plain_text<T: HasText>(vals: &[T], out: &mut Vec<u8>) -> Result<(), Memory>
    requires { length vals.now ≤ 8192 }
    ensures ok { OnOk result (out.new.items ≡ out.old.items ++ plain_texts (map T.text vals.now)) }
    ensures err { OnErr result (out.new.items ≡ out.old.items) }
{
    out.reserve(4 * vals.len() + total_len(vals))?;
    put_ends(vals, out);
    put_texts(vals, out);
    Ok(())
}
