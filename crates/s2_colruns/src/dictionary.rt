//! Values are numbered in the order of their first appearance.
ghost use Rattle.std.specs.Prelude.{◌≡◌, ◌<◌, ◌≤◌, false, length, slice_index_or, IfOk};
ghost use Rattle.s2_colruns.specs.Codes.{has_bad_code};
ghost use Rattle.s2_colruns.specs.Dictionary.{with_value, dictionary_of, decoded};

use indexmap::IndexSet;
use s2_value::{Duplicate, Memory, Seq, Value, ValueList};
use std::alloc::Global;

/// Codes of a dictionary's values.
pub type CodeList = Seq<u16>;

/// Values as a dictionary and, for each of them, its place there.
#[derive(Debug, Drop)]
pub struct Numbered {
    /// The distinct values in the order of their first appearance.
    pub dict: ValueList,
    /// The place of each value in the dictionary, from 0.
    pub codes: CodeList,
}

// The place of the value, which is put at the end unless it is there.
fn code_of(dict: &mut IndexSet<Value>, value: &Value) -> Result<usize, Memory>
    ensures dict { IfOk result (λ i. dict.new.keys ≡ with_value dict.old.keys value.now) }
    ensures within { IfOk result (λ i. i < length dict.new.keys) }
    ensures stands { IfOk result (λ i. slice_index_or dict.new.keys i value.now ≡ value.now) }
{
    if let Some(code) = dict.get_index_of(value) {
        return Ok(code);
    }
    let (code, _) = dict.insert_full(value.copy()?)?;
    Ok(code)
}

/// The distinct values of at most 8,192 in the order of their first appearance, and for each value its place among them.
pub fn number_values(alloc: Global, vals: &[Value]) -> Result<Numbered, Memory>
    requires { length vals.now ≤ 8192 }
    ensures dict { IfOk result (λ r. r.dict ≡ dictionary_of vals.now) }
    ensures codes { IfOk result (λ r. decoded r.dict r.codes ≡ vals.now) }
    ensures below { IfOk result (λ r. has_bad_code (length r.dict) r.codes ≡ false) }
{
    let mut dict = IndexSet::new(alloc);
    let mut codes = Vec::with_capacity(alloc, vals.len())?;
    for value in vals {
        let code = code_of(&mut dict, value)?;
        codes.push(code as u16)?;
    }
    let dict = dict.into_iter().collect(alloc)?;
    Ok(Numbered {
        dict: Seq::from_vec(dict),
        codes: Seq::from_vec(codes),
    })
}
