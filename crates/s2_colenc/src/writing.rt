//! Values are written as a column block of one form.
ghost use Rattle.std.specs.Prelude.{◌≡◌, ◌+◌, ◌*◌, ◌<◌, ◌≤◌, ◌++◌, ◌∷◌, [], true, length, map, vec_len, vec_capacity, OnOk, OnErr, IfOk};
ghost use Rattle.std.specs.List.{list_all};
ghost use Rattle.s2_colbytes.specs.Numbers.{spelled};
ghost use Rattle.byteorder.specs.Endian.{little_bytes};
ghost use Rattle.s2_value.specs.Rows.{is_of};
ghost use Rattle.s2_colplain.specs.Packed.{spread};
ghost use Rattle.s2_colenc.specs.Written.{int_of, tag_of, entry_bytes, runs_of, run_values, run_lengths, dictionary_bytes, runs_bytes, body_bytes, form_bytes};

use crate::Form;
use crate::sizes::leading;
use s2_colbytes::{put_u16, put_u32};
use s2_colplain::{write_packed, write_plain_int, write_plain_text};
use s2_value::{ColType, Duplicate, Memory, Seq, Value, ValueList};
use std::alloc::Global;

// The longest runs: their values, and how often each stands.
#[derive(Debug, Drop)]
struct RunList {
    vals: ValueList,
    lens: Seq<u16>,
}

/// The tag of a form.
pub fn tag_of(form: Form) -> u8
    ensures { result ≡ tag_of form }
{
    match form {
        Form::PlainInt => 0,
        Form::PackedInt => 1,
        Form::PlainText => 2,
        Form::Dictionary => 3,
        Form::Runs => 4,
    }
}

// The number of a value; a text has none.
fn int_of(val: &Value) -> i64
    ensures { result ≡ int_of val.now }
{
    match val {
        Value::Int(number) => *number,
        Value::Text(_) => 0,
    }
}

/// The numbers of values.
pub fn ints_of(alloc: Global, vals: &[Value]) -> Result<Vec<i64>, Memory>
    ensures { IfOk result (λ ints. ints.items ≡ map int_of vals.now) }
{
    let mut ints = Vec::with_capacity(alloc, vals.len())?;
    for val in vals {
        ints.push(int_of(val))?;
    }
    Ok(ints)
}

/// Puts the values at the end, in the plain body of their type.
pub fn write_entries(kind: ColType, vals: &[Value], out: &mut Vec<u8>) -> Result<(), Memory>
    requires { length vals.now ≤ 8192 }
    ensures { OnOk result (out.new.items ≡ out.old.items ++ entry_bytes kind vals.now) }
{
    match kind {
        ColType::Int => {
            let ints = ints_of(*out.allocator(), vals)?;
            write_plain_int(ints.as_slice(), out)
        }
        ColType::Text => write_plain_text(vals, out),
    }
}

// Puts the numbers at the end, for which there is room.
fn put_numbers(numbers: &[u16], out: &mut Vec<u8>)
    requires { vec_len out.old + 2 * length numbers.now ≤ vec_capacity out.old }
    ensures { out.new.items ≡ out.old.items ++ spelled 2 numbers.now }
{
    for number in numbers {
        put_u16(out, *number);
    }
}

// Puts the numbers at the end, in two bytes each.
fn write_numbers(numbers: &[u16], out: &mut Vec<u8>) -> Result<(), Memory>
    ensures { OnOk result (out.new.items ≡ out.old.items ++ spelled 2 numbers.now) }
{
    out.reserve(2 * numbers.len())?;
    put_numbers(numbers, out);
    Ok(())
}

// Puts how many there are at the end.
fn write_count(count: usize, out: &mut Vec<u8>) -> Result<(), Memory>
    requires { count ≤ 8192 }
    ensures { OnOk result (out.new.items ≡ out.old.items ++ little_bytes 4 count) }
{
    out.reserve(4)?;
    put_u32(out, count as u32);
    Ok(())
}

/// Puts the dictionary and the codes at the end.
pub fn write_dictionary(
    kind: ColType,
    dict: &[Value],
    codes: &[u16],
    out: &mut Vec<u8>,
) -> Result<(), Memory>
    requires { length dict.now ≤ 8192 }
    ensures { OnOk result (out.new.items ≡ out.old.items ++ (little_bytes 4 (length dict.now) ++ entry_bytes kind dict.now ++ spelled 2 codes.now)) }
{
    write_count(dict.len(), out)?;
    write_entries(kind, dict, out)?;
    write_numbers(codes, out)
}

// The longest runs of the values.
fn split_runs(alloc: Global, vals: &[Value]) -> Result<RunList, Memory>
    requires { length vals.now ≤ 8192 }
    ensures vals { IfOk result (λ r. r.vals ≡ run_values (runs_of vals.now)) }
    ensures lens { IfOk result (λ r. r.lens ≡ run_lengths (runs_of vals.now)) }
    ensures few { IfOk result (λ r. length r.vals ≤ length vals.now) }
{
    let mut heads = Seq::new(alloc);
    let mut lens = Seq::new(alloc);
    let mut left = vals;
    while let [first, later @ ..] = left {
        let more = leading(first, later);
        heads.add(first.copy()?)?;
        lens.add((more + 1) as u16)?;
        left = later.split_at(more).1;
    }
    Ok(RunList { vals: heads, lens })
}

/// Puts the longest runs at the end.
#[tactic(auto, unfolding(crate::specs::Written::runs_bytes))]
pub fn write_runs(kind: ColType, vals: &[Value], out: &mut Vec<u8>) -> Result<(), Memory>
    requires { length vals.now ≤ 8192 }
    ensures { OnOk result (out.new.items ≡ out.old.items ++ runs_bytes kind (runs_of vals.now)) }
{
    let runs = split_runs(*out.allocator(), vals)?;
    write_count(runs.vals.len(), out)?;
    write_numbers(runs.lens.as_slice(), out)?;
    write_entries(kind, runs.vals.as_slice(), out)
}
