//! What keeps a log, and what is a file of rows.
ghost use Rattle.std.specs.Prelude.{◌≡◌, ◌<◌, ℕ, List, Option, IfOk, length, true, slice_index_or, []};
ghost use Rattle.std.specs.List.{list_all};
ghost use Rattle.s2_model.specs.Files.{AnySchema, AnyOptions, AnyEntry, AnyRow, offsets_of, row_numbers, rows_of_file, keys_of, rows_fit};

use s2_value::{Key, Memory, Row};

/// A value with a history: the list of its entries, the newest first, and, where it keeps them, the schema and the options of its table.
pub trait Logged {
    ghost history: { Self → List AnyEntry };

    ghost schema: { Self → Option AnySchema };

    ghost options: { Self → Option AnyOptions };

    /// How many entries the history has.
    fn front(&self) -> u64
        ensures { result ≡ length (history self.now) };
}

/// A file of rows: a schema, and a list of row numbers with rows that fit it.
pub trait RowFile {
    ghost schema: { Self → AnySchema };

    ghost content: { Self → List (ℕ × AnyRow) };

    /// How many rows there are.
    fn rows(&self) -> u32
        ensures count { result ≡ length (content self.now) }
        ensures fit { rows_fit (schema self.now) (content self.now) ≡ true };

    /// The number of the row at place `i`, from 0.
    fn rowid(&self, i: u32) -> u64
        requires { i < length (content self.now) }
        ensures { result ≡ slice_index_or (row_numbers (content self.now)) i 0 };

    /// The row at place `i`, from 0.
    fn row(&self, i: u32) -> Result<Row, Memory>
        requires { i < length (content self.now) }
        ensures { IfOk result (λ x. x ≡ slice_index_or (rows_of_file (content self.now)) i []) };

    /// The places of the rows that have this value of key `j`, rising. `j` numbers the unique keys, then the indexes, from 0.
    fn offsets(&self, j: u8, key: &Key) -> Result<Vec<u32>, Memory>
        requires { j < length (keys_of (schema self.now)) }
        ensures { IfOk result (λ v. v.items ≡ offsets_of (schema self.now) (content self.now) j key.now) };
}
