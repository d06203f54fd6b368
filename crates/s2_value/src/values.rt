//! Values: 64-bit whole numbers and texts.
use crate::{Duplicate, Memory, Txt};

/// The type of a column.
#[derive(Clone, Copy, Debug, PartialEq, Eq)]
pub enum ColType {
    /// Whole numbers from -2^63 to 2^63-1.
    Int,
    /// Texts.
    Text,
}

/// A value of a row. Numbers are ordered by size, texts by bytes, and a number stands before a text.
#[derive(Debug, Drop)]
pub enum Value {
    /// A whole number.
    Int(i64),
    /// A text.
    Text(Txt),
}

impl Duplicate for Value {
    fn copy(&self) -> Result<Self, Memory> {
        match self {
            Value::Int(number) => Ok(Value::Int(*number)),
            Value::Text(text) => Ok(Value::Text(text.copy()?)),
        }
    }
}
