//! Names.
ghost use Rattle.s2_line.specs.Reading.{name_at};

use crate::fault::Fault;
use crate::lists::Rule;
use crate::steps::{comma, name};
use s2_token::{Bytes, Token};
use std::alloc::Global;

/// The items of a list of names.
pub struct Names;

impl Rule for Names {
    type Out = Bytes;

    ghost at = { name_at };

    fn read(_alloc: Global, tokens: &[Token]) -> Result<(Bytes, &[Token]), Fault> {
        name(tokens)
    }

    fn next(tokens: &[Token]) -> Option<&[Token]> {
        comma(tokens)
    }
}
