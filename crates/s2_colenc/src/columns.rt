//! A whole column block, read in place.
ghost use Rattle.std.specs.Prelude.{◌≡◌, ◌+◌, ◌<◌, ◌≤◌, true, length, sum, slice_index, slice_index_or, Ok, IfOk, IsOk};
ghost use Rattle.std.specs.Option.{option_copied};
ghost use Rattle.s2_colbytes.specs.Reading.{Gives};
ghost use Rattle.s2_colenc.specs.Column.{column_at, values_of, is_whole, lens_of, codes_of, entries_of, run_of, form_in};

use crate::forms::split_tag;
use crate::views::{read_body, text_value};
use crate::{Body, Entries, Form};
use s2_colbytes::{ColErr, end};
use s2_colruns::{Codes, RunLens};
use s2_value::{ColType, Memory, Value};
use std::alloc::Global;
use std::marker::Model;

/// A column block, read in place. In contracts it is what the block has after its tag; `values_of` are its values.
#[derive(Debug, Drop)]
pub struct Column<'a> {
    body: Body<'a>,
}

impl<'a> Model for Column<'a> {
    ghost use Rattle.std.specs.Prelude.{◌≡◌, true};
    ghost use Rattle.s2_colenc.specs.declared.views.Body.{Body};
    ghost use Rattle.s2_colenc.specs.Column.{is_whole};

    ghost Value = { Body };

    ghost view = { λ c. c.body };

    ghost invariant = { λ c. is_whole c.body ≡ true };
}

// What all the bytes after the tag are. Of what was judged before no value is checked again.
#[tactic(auto, unfolding(crate::specs::Column::column_at))]
fn read_whole(kind: ColType, n: u32, judged: bool, bytes: &[u8]) -> Result<Body<'_>, ColErr>
    requires { judged ≡ true → IsOk (column_at kind n bytes.now) }
    ensures { Gives (λ x. x) result (column_at kind n bytes.now) }
{
    let (form, rest) = split_tag(kind, bytes)?;
    let (body, rest) = read_body(kind, n, form, judged, rest)?;
    end(body, rest)
}

// The run in which value `i` stands.
fn run_at(lens: &RunLens<'_>, i: u32) -> u32
    requires { i < sum lens.now }
    ensures run { result ≡ run_of lens.now i }
    ensures within { result < length lens.now }
{
    let mut left = i;
    for run in 0..lens.count() {
        let len = u32::from(lens.at(run));
        if left < len {
            return run;
        }
        left -= len;
    }
    lens.count()
}

impl<'a> Column<'a> {
    /// The column of `n` values that all the bytes are: the tag's faults, those of its form, then `Trailing`. It takes no
    /// memory, and time for the bytes that are there, whatever their counts say.
    pub fn read(kind: ColType, n: u32, bytes: &'a [u8]) -> Result<Column<'a>, ColErr>
        ensures gives { Gives (λ x. x) result (column_at kind n bytes.now) }
        ensures count { IfOk result (λ x. length (values_of x) ≡ n) }
    {
        let body = read_whole(kind, n, false, bytes)?;
        Ok(Column { body })
    }

    /// The column of a block that was read before, without its checks. It takes constant time.
    pub fn again(kind: ColType, n: u32, bytes: &'a [u8]) -> Column<'a>
        requires { IsOk (column_at kind n bytes.now) }
        ensures gives { column_at kind n bytes.now ≡ Ok result }
        ensures count { length (values_of result) ≡ n }
    {
        match read_whole(kind, n, true, bytes) {
            Ok(body) => Column { body },
            Err(_) => unreachable!(),
        }
    }

    /// Value `i`, from 0. It takes constant time, in a column of runs a step for each run up to the value's; a text is
    /// copied. A scan goes by `body` and takes a run at a time.
    #[inline]
    pub fn at(&self, alloc: Global, i: u32) -> Result<Value, Memory>
        requires { i < length (values_of self.now) }
        ensures { IfOk result (λ v. v ≡ slice_index_or (values_of self.now) i v) }
    {
        match &self.body {
            Body::Ints(plain) => Ok(Value::Int(plain.at(i))),
            Body::Packed(packed) => Ok(Value::Int(packed.at(i))),
            _ => self.any_at(alloc, i),
        }
    }

    // The same, apart from the scan of numbers, which stays short.
    #[inline(never)]
    fn any_at(&self, alloc: Global, i: u32) -> Result<Value, Memory>
        requires { i < length (values_of self.now) }
        ensures { IfOk result (λ v. v ≡ slice_index_or (values_of self.now) i v) }
    {
        match &self.body {
            Body::Ints(ints) => Ok(Value::Int(ints.at(i))),
            Body::Packed(ints) => Ok(Value::Int(ints.at(i))),
            Body::Texts(texts) => text_value(alloc, texts.at(i)),
            Body::Dictionary(dict, codes) => dict.at(alloc, u32::from(codes.at(i))),
            Body::Runs(lens, vals) => vals.at(alloc, run_at(lens, i)),
        }
    }

    /// The form of the block.
    pub fn form(&self) -> Form
        ensures { result ≡ form_in self.now }
    {
        match &self.body {
            Body::Ints(_) => Form::PlainInt,
            Body::Packed(_) => Form::PackedInt,
            Body::Texts(_) => Form::PlainText,
            Body::Dictionary(_, _) => Form::Dictionary,
            Body::Runs(_, _) => Form::Runs,
        }
    }

    /// What the block has after its tag: there each code names a value, and each run has one.
    pub fn body(&self) -> &Body<'a>
        ensures same { result.now ≡ self.now }
        ensures whole { is_whole self.now ≡ true }
    {
        &self.body
    }

    /// The lengths of the runs, exactly where the tag is 4.
    pub fn runs(&self) -> Option<&RunLens<'a>>
        ensures { option_copied result ≡ lens_of self.now }
    {
        match &self.body {
            Body::Runs(lens, _) => Some(lens),
            _ => None,
        }
    }

    /// The codes, exactly where the tag is 3.
    pub fn codes(&self) -> Option<&Codes<'a>>
        ensures { option_copied result ≡ codes_of self.now }
    {
        match &self.body {
            Body::Dictionary(_, codes) => Some(codes),
            _ => None,
        }
    }

    /// The values that codes name, or those of the runs in turn, exactly where the tag is 3 or 4.
    pub fn entries(&self) -> Option<&Entries<'a>>
        ensures { option_copied result ≡ entries_of self.now }
    {
        match &self.body {
            Body::Dictionary(dict, _) => Some(dict),
            Body::Runs(_, vals) => Some(vals),
            _ => None,
        }
    }
}
