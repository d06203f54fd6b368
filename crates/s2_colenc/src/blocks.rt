//! A column is written as the shortest of its blocks.
ghost use Rattle.std.specs.Prelude.{◌≡◌, ◌+◌, ◌*◌, ◌<◌, ◌≤◌, ◌++◌, true, length, map, OnOk, IfOk};
ghost use Rattle.std.specs.List.{list_all, AllByRecursion};
ghost use Rattle.s2_value.specs.Rows.{is_of};
ghost use Rattle.s2_colruns.specs.Dictionary.{dictionary_of};
ghost use Rattle.s2_colenc.specs.Written.{place_of, body_bytes, form_bytes, may_take, IsShortest, IsBlock};
ghost use Rattle.s2_colenc.specs.Spells.{IsValue, Spells};
ghost use Rattle.s2_colenc.specs.Sizes.{plain_form, packed_block};

use crate::Form;
use crate::sizes::{choice, entries_size, packed_size, runs_size};
use crate::writing::{ints_of, tag_of, write_dictionary, write_entries, write_runs};
use s2_colplain::write_packed;
use s2_colruns::{Numbered, number_values};
use s2_value::{ColType, Memory, Value};
use std::alloc::Global;

// The values numbered: the code of each is its place in the dictionary.
fn number(alloc: Global, vals: &[Value]) -> Result<Numbered, Memory>
    requires { length vals.now ≤ 8192 }
    ensures dict { IfOk result (λ r. r.dict ≡ dictionary_of vals.now) }
    ensures codes { IfOk result (λ r. r.codes ≡ map (place_of (dictionary_of vals.now)) vals.now) }
    ensures few { IfOk result (λ r. length r.dict ≤ length vals.now) }
{
    let numbered = number_values(alloc, vals)?;
    Ok(numbered)
}

// The form of plain values.
fn plain_form(kind: ColType) -> Form
    ensures { result ≡ plain_form kind }
{
    match kind {
        ColType::Int => Form::PlainInt,
        ColType::Text => Form::PlainText,
    }
}

// How long the packed block is, where the values may be packed.
fn packed_block(alloc: Global, kind: ColType, vals: &[Value]) -> Result<Option<usize>, Memory>
    requires some { 0 < length vals.now }
    requires few { length vals.now ≤ 8192 }
    ensures { IfOk result (λ size. size ≡ packed_block kind vals.now) }
{
    match kind {
        ColType::Int => {
            let ints = ints_of(alloc, vals)?;
            Ok(packed_size(ints.as_slice()))
        }
        ColType::Text => Ok(None),
    }
}

// The form of the shortest block, and its length.
fn choose(kind: ColType, vals: &[Value], packed: Option<usize>, dict: &[Value]) -> (Form, usize)
    requires few { length vals.now ≤ 8192 }
    requires kind { list_all (is_of kind) vals.now ≡ true }
    requires packed { packed ≡ packed_block kind vals.now }
    requires dict { dict.now ≡ dictionary_of vals.now }
    requires fewer { length dict.now ≤ length vals.now }
    ensures shortest { IsShortest kind vals.now result.0 }
    ensures values { AllByRecursion IsValue vals.now }
{
    let plain = 1 + entries_size(vals);
    let dictionary = 5 + entries_size(dict) + 2 * vals.len();
    choice(
        plain_form(kind),
        plain,
        packed,
        dictionary,
        5 + runs_size(vals),
    )
}

// Puts the body of the form at the end.
fn write_body(
    form: Form,
    kind: ColType,
    vals: &[Value],
    numbered: &Numbered,
    out: &mut Vec<u8>,
) -> Result<(), Memory>
    requires some { 0 < length vals.now }
    requires few { length vals.now ≤ 8192 }
    requires dict { numbered.now.dict ≡ dictionary_of vals.now }
    requires codes { numbered.now.codes ≡ map (place_of (dictionary_of vals.now)) vals.now }
    requires fewer { length numbered.now.dict ≤ length vals.now }
    requires allowed { may_take kind vals.now form ≡ true }
    ensures { OnOk result (out.new.items ≡ out.old.items ++ body_bytes kind vals.now form) }
{
    match form {
        Form::PlainInt => write_entries(kind, vals, out),
        Form::PackedInt => {
            let ints = ints_of(*out.allocator(), vals)?;
            write_packed(ints.as_slice(), out)
        }
        Form::PlainText => write_entries(kind, vals, out),
        Form::Dictionary => write_dictionary(
            kind,
            numbered.dict.as_slice(),
            numbered.codes.as_slice(),
            out,
        ),
        Form::Runs => write_runs(kind, vals, out),
    }
}

// The block of the form.
fn write_form(
    alloc: Global,
    form: Form,
    size: usize,
    kind: ColType,
    vals: &[Value],
    numbered: &Numbered,
) -> Result<Vec<u8>, Memory>
    requires some { 0 < length vals.now }
    requires few { length vals.now ≤ 8192 }
    requires dict { numbered.now.dict ≡ dictionary_of vals.now }
    requires codes { numbered.now.codes ≡ map (place_of (dictionary_of vals.now)) vals.now }
    requires fewer { length numbered.now.dict ≤ length vals.now }
    requires allowed { may_take kind vals.now form ≡ true }
    ensures { IfOk result (λ out. out.items ≡ form_bytes kind vals.now form) }
{
    let mut out = Vec::with_capacity(alloc, size)?;
    out.push(tag_of(form))?;
    write_body(form, kind, vals, numbered, &mut out)?;
    Ok(out)
}

/// The shortest block of 1 to 8,192 values of the type, and of those that are as short the one of the least tag. The
/// length of each form is computed before anything is written, and only the chosen one is.
pub fn write_column(alloc: Global, kind: ColType, vals: &[Value]) -> Result<Vec<u8>, Memory>
    requires some { 0 < length vals.now }
    requires few { length vals.now ≤ 8192 }
    requires kind { list_all (is_of kind) vals.now ≡ true }
    ensures shortest { IfOk result (λ out. IsBlock kind vals.now out.items) }
    ensures spells { IfOk result (λ out. Spells kind vals.now out.items) }
{
    let numbered = number(alloc, vals)?;
    let packed = packed_block(alloc, kind, vals)?;
    let (form, size) = choose(kind, vals, packed, numbered.dict.as_slice());
    let out = write_form(alloc, form, size, kind, vals, &numbered)?;
    Ok(out)
}
