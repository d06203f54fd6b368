//! What a file spells, as theorems that callers may rest on.
ghost use Rattle.std.specs.Prelude.{◌≡◌, ℕ, List, map, Ok};
ghost use Rattle.s2_colbytes.specs.Numbers.{IsBytes};
ghost use Rattle.s2_value.specs.Schemas.{keys_of};
ghost use Rattle.s2_model.specs.Files.{AnySchema, AnyRow, rows_of_file};
ghost use Rattle.s2_segment.specs.Parts.{Parts};
ghost use Rattle.s2_segment.specs.Checks.{file_at, content_of};
ghost use Rattle.s2_segment.specs.Stats.{AreZones};
ghost use Rattle.s2_segment.specs.Spells.{Spells, ReadAs, index_of};

/// A file that spells rows is read, and as these rows.
pub fn spelled_files_are_read()
    ensures { (schema : AnySchema) (content : List (ℕ × AnyRow)) (bytes : List ℕ) → Spells schema content bytes → ReadAs schema content bytes }
{}

/// A file that is read spells the rows that it is read as.
pub fn read_files_are_spelled()
    ensures { (schema : AnySchema) (bytes : List ℕ) (parts : Parts) → IsBytes bytes → file_at schema bytes ≡ Ok parts → Spells schema (content_of parts) bytes }
{}

/// A file spells at most one list of rows.
pub fn one_file_spells_one_list()
    ensures { (schema : AnySchema) (content others : List (ℕ × AnyRow)) (bytes : List ℕ) → Spells schema content bytes → Spells schema others bytes → content ≡ others }
{}

/// The indexes of a file that is read have exactly the distinct keys of its rows, each with exactly the places of the rows that have it.
pub fn indexes_are_of_the_rows()
    ensures { (schema : AnySchema) (bytes : List ℕ) (parts : Parts) → IsBytes bytes → file_at schema bytes ≡ Ok parts → parts.indexes ≡ map (index_of (rows_of_file (content_of parts))) (keys_of schema) }
{}

/// The least and the greatest values of the columns of a file that is read are the zone values of its rows.
pub fn stats_are_of_the_rows()
    ensures { (schema : AnySchema) (bytes : List ℕ) (parts : Parts) → IsBytes bytes → file_at schema bytes ≡ Ok parts → AreZones schema parts }
{}
