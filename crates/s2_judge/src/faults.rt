//! The first kind of fault that applies.
ghost use Rattle.std.specs.Prelude.{◌≡◌, IfOk};
ghost use Rattle.s2_judge.specs.Kinds.{fault_of};

use crate::jobs::{is_job_order, is_not_built};
use crate::kinds::Kind;
use crate::known::Known;
use crate::limits::is_limit;
use crate::names::is_unknown_name;
use crate::options::{is_misplaced, is_option_value};
use crate::ranges::{is_literal_long, is_literal_range};
use crate::repeats::is_repeated_name;
use crate::types::is_wrong_type;
use s2_line::Raw;
use s2_value::Memory;
use std::alloc::Global;

/// What is wrong with a line after lines that said what is known: the first kind that applies, or `None` where none
/// does. The time is near-linear in the line. It fails only for want of memory.
pub fn fault_of(alloc: Global, known: &Known, line: &Raw) -> Result<Option<Kind>, Memory>
    ensures { IfOk result (λ found. found ≡ fault_of known.now line.now) }
{
    if is_literal_range(line) {
        Ok(Some(Kind::LiteralRange))
    } else if is_literal_long(line) {
        Ok(Some(Kind::LiteralLong))
    } else if is_misplaced(known, line) {
        Ok(Some(Kind::Misplaced))
    } else if is_option_value(known, line) {
        Ok(Some(Kind::OptionValue))
    } else if is_limit(alloc, line)? {
        Ok(Some(Kind::Limit))
    } else if is_unknown_name(known, line) {
        Ok(Some(Kind::UnknownName))
    } else if is_repeated_name(line) {
        Ok(Some(Kind::RepeatedName))
    } else if is_wrong_type(known, line) {
        Ok(Some(Kind::WrongType))
    } else if is_job_order(known, line) {
        Ok(Some(Kind::JobOrder))
    } else if is_not_built(line) {
        Ok(Some(Kind::NotBuilt))
    } else {
        Ok(None)
    }
}
