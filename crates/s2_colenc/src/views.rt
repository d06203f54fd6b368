//! The parts of a column block, read in place.
ghost use Rattle.std.specs.Prelude.{◌≡◌, ◌<◌, ◌≤◌, true, length, slice_index_or, IfOk, IsOk};
ghost use Rattle.s2_colbytes.specs.Reading.{Gives};
ghost use Rattle.s2_colenc.specs.Column.{entries_at, dictionary_at, runs_at, body_at, entry_values};

use crate::Form;
use s2_colbytes::{ColErr, split_u32};
use s2_colplain::{Packed, PlainInt, PlainText};
use s2_colruns::{Codes, RunLens};
use s2_value::{ColType, Memory, Txt, Value};
use std::alloc::{AllocError, Global};

/// The values of a dictionary or of runs, in the plain body of their type.
#[derive(Debug, Drop)]
pub enum Entries<'a> {
    /// Numbers.
    Ints(PlainInt<'a>),
    /// Texts.
    Texts(PlainText<'a>),
}

/// What a column block has after its tag.
#[derive(Debug, Drop)]
pub enum Body<'a> {
    /// Plain numbers.
    Ints(PlainInt<'a>),
    /// Packed numbers.
    Packed(Packed<'a>),
    /// Plain texts.
    Texts(PlainText<'a>),
    /// The distinct values, and a code for each value.
    Dictionary(Entries<'a>, Codes<'a>),
    /// How often each value stands in turn, and these values.
    Runs(RunLens<'a>, Entries<'a>),
}

/// A text's value.
pub fn text_value(alloc: Global, bytes: &[u8]) -> Result<Value, Memory>
    ensures { IfOk result (λ v. v ≡ Value.Text bytes.now) }
{
    match Txt::new(alloc, bytes) {
        Ok(text) => Ok(Value::Text(text)),
        Err(_) => Err(AllocError),
    }
}

impl<'a> Entries<'a> {
    /// The `n` values at the front of the bytes, and the bytes after them, or the first fault of their form. Of what was
    /// judged before no value is checked again.
    #[tactic(auto, unfolding(crate::specs::Column::entries_at))]
    pub fn read_front(
        kind: ColType,
        n: u32,
        judged: bool,
        bytes: &'a [u8],
    ) -> Result<(Entries<'a>, &'a [u8]), ColErr>
        requires { judged ≡ true → IsOk (entries_at kind n bytes.now) }
        ensures { Gives (λ x. (x.0, x.1.now)) result (entries_at kind n bytes.now) }
    {
        match kind {
            ColType::Int => {
                let (ints, rest) = PlainInt::read_front(n, bytes)?;
                Ok((Entries::Ints(ints), rest))
            }
            ColType::Text => {
                let (texts, rest) = PlainText::read_front(n, judged, bytes)?;
                Ok((Entries::Texts(texts), rest))
            }
        }
    }

    /// How many values there are.
    pub fn len(&self) -> u32
        ensures { result ≡ length (entry_values self.now) }
    {
        match self {
            Entries::Ints(ints) => ints.len(),
            Entries::Texts(texts) => texts.len(),
        }
    }

    /// Value `i`, from 0. It takes constant time; a text is copied.
    pub fn at(&self, alloc: Global, i: u32) -> Result<Value, Memory>
        requires { i < length (entry_values self.now) }
        ensures { IfOk result (λ v. v ≡ slice_index_or (entry_values self.now) i v) }
    {
        match self {
            Entries::Ints(ints) => Ok(Value::Int(ints.at(i))),
            Entries::Texts(texts) => text_value(alloc, texts.at(i)),
        }
    }
}

// The values of the dictionary and the codes: `Short` of the count, the values' faults, then those of the codes.
#[tactic(auto, unfolding(crate::specs::Column::dictionary_at))]
fn read_dictionary(
    kind: ColType,
    n: u32,
    judged: bool,
    bytes: &[u8],
) -> Result<(Body<'_>, &[u8]), ColErr>
    requires { judged ≡ true → IsOk (dictionary_at kind n bytes.now) }
    ensures { Gives (λ x. (x.0, x.1.now)) result (dictionary_at kind n bytes.now) }
{
    let (count, rest) = split_u32(bytes)?;
    let (dict, rest) = Entries::read_front(kind, count, judged, rest)?;
    let (codes, rest) = Codes::read_front(n, count, judged, rest)?;
    Ok((Body::Dictionary(dict, codes), rest))
}

// The runs' lengths and values: `Short` of the count, the lengths' faults, then those of the values.
#[tactic(auto, unfolding(crate::specs::Column::runs_at))]
fn read_runs(kind: ColType, n: u32, judged: bool, bytes: &[u8]) -> Result<(Body<'_>, &[u8]), ColErr>
    requires { judged ≡ true → IsOk (runs_at kind n bytes.now) }
    ensures { Gives (λ x. (x.0, x.1.now)) result (runs_at kind n bytes.now) }
{
    let (count, rest) = split_u32(bytes)?;
    let (lens, rest) = RunLens::read_front(n, count, judged, rest)?;
    let (vals, rest) = Entries::read_front(kind, count, judged, rest)?;
    Ok((Body::Runs(lens, vals), rest))
}

/// The body of the form at the front of the bytes, and the bytes after it, or the first fault. Of what was judged before
/// no value is checked again.
#[tactic(auto, unfolding(crate::specs::Column::body_at))]
pub fn read_body(
    kind: ColType,
    n: u32,
    form: Form,
    judged: bool,
    bytes: &[u8],
) -> Result<(Body<'_>, &[u8]), ColErr>
    requires { judged ≡ true → IsOk (body_at kind n form bytes.now) }
    ensures { Gives (λ x. (x.0, x.1.now)) result (body_at kind n form bytes.now) }
{
    match form {
        Form::PlainInt => {
            let (ints, rest) = PlainInt::read_front(n, bytes)?;
            Ok((Body::Ints(ints), rest))
        }
        Form::PackedInt => {
            let (ints, rest) = Packed::read_front(n, judged, bytes)?;
            Ok((Body::Packed(ints), rest))
        }
        Form::PlainText => {
            let (texts, rest) = PlainText::read_front(n, judged, bytes)?;
            Ok((Body::Texts(texts), rest))
        }
        Form::Dictionary => read_dictionary(kind, n, judged, bytes),
        Form::Runs => read_runs(kind, n, judged, bytes),
    }
}
