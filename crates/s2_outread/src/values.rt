//! Values of rows, and of rows of answers.
ghost use Rattle.s2_outread.specs.Reading.{value_at, cell_at};

use crate::lists::Item;
use crate::stops::Stop;
use crate::tokens::{after, begins, int, number, text};
use s2_model::Cell;
use s2_value::Value;
use std::alloc::Global;

impl Item for Value {
    ghost at = { value_at };

    #[tactic(auto, unfolding(crate::specs::Reading::value_at))]
    fn read(alloc: Global, bytes: &[u8]) -> Result<(Value, &[u8]), Stop> {
        if begins(b'\'', bytes) {
            let (text, rest) = text(alloc, bytes)?;
            Ok((Value::Text(text), rest))
        } else {
            let (int, rest) = int(bytes)?;
            Ok((Value::Int(int), rest))
        }
    }
}

impl Item for Cell {
    ghost at = { cell_at };

    #[tactic(auto, unfolding(crate::specs::Reading::cell_at))]
    fn read(alloc: Global, bytes: &[u8]) -> Result<(Cell, &[u8]), Stop> {
        if let Some(rest) = after(b"NULL", bytes) {
            return Ok((Cell::Nothing, rest));
        }
        if begins(b'\'', bytes) {
            let (text, rest) = text(alloc, bytes)?;
            Ok((Cell::Text(text), rest))
        } else {
            let (number, rest) = number(bytes)?;
            Ok((Cell::Int(number), rest))
        }
    }
}
