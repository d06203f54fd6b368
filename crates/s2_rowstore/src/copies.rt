// A copy of the schema.
ghost use Rattle.std.specs.Prelude.{◌≡◌, IfOk};

use s2_value::{Col, Duplicate, Memory, Schema, Seq};
use std::alloc::Global;

fn copy_column(column: &Col) -> Result<Col, Memory>
    ensures { IfOk result (λ same. same ≡ column.now) }
{
    let name = column.name.copy()?;
    Ok(Col {
        name,
        kind: column.kind,
    })
}

fn copy_columns(alloc: Global, columns: &[Col]) -> Result<Vec<Col>, Memory>
    ensures { IfOk result (λ same. same.items ≡ columns.now) }
{
    let mut same = Vec::with_capacity(alloc, columns.len())?;
    for column in columns {
        same.push(copy_column(column)?)?;
    }
    Ok(same)
}

/// A copy of the schema.
pub(crate) fn copy_schema(alloc: Global, schema: &Schema) -> Result<Schema, Memory>
    ensures { IfOk result (λ same. same ≡ schema.now) }
{
    let table = schema.table.copy()?;
    let cols = Seq::from_vec(copy_columns(alloc, schema.cols.as_slice())?);
    let uniques = schema.uniques.copy()?;
    let indexes = schema.indexes.copy()?;
    let sort = schema.sort.copy()?;
    Ok(Schema {
        table,
        cols,
        uniques,
        indexes,
        sort,
    })
}
