// A store of rows of two numbers, `a` under a unique key and `b` under an index.
ghost use Rattle.std.specs.Prelude.{◌≡◌, ◌<◌, true, IfOk, length};
ghost use Rattle.s2_value.specs.Schemas.{fits, keys_of};

use anyhow::bail;
use s2_rowstore::Rowstore;
use s2_value::{
    Col, ColDefs, ColList, ColType, KeyList, Memory, Name, Row, Schema, Seq, TableRows, Value,
    are_within_limits,
};
use std::alloc::Global;

/// The store with its schema.
#[derive(Drop)]
pub(crate) struct Bed {
    schema: Schema,
    store: Rowstore,
    ghost same: { store.schema ≡ schema },
}

/// One of two writers.
#[derive(Clone, Copy)]
pub(crate) enum Writer {
    First,
    Second,
}

impl Writer {
    /// The number of the actor.
    pub(crate) fn actor(self) -> u8
        ensures { result < 17 }
    {
        match self {
            Writer::First => 1,
            Writer::Second => 2,
        }
    }
}

/// A row of two numbers.
#[derive(Clone, Copy)]
pub(crate) struct Pair {
    pub(crate) a: i64,
    pub(crate) b: i64,
}

fn column(alloc: Global, name: &[u8]) -> anyhow::Result<Col>
    requires { (0 < length name.now) × (length name.now < 33) }
{
    Ok(Col {
        name: Name::new(alloc, name)?,
        kind: ColType::Int,
    })
}

fn columns(alloc: Global) -> anyhow::Result<ColDefs> {
    let mut cols = Seq::new(alloc);
    cols.add(column(alloc, b"a")?)?;
    cols.add(column(alloc, b"b")?)?;
    Ok(cols)
}

// A list of keys: one, of this column.
fn key_over(alloc: Global, place: u8) -> anyhow::Result<KeyList> {
    let mut places = ColList::new(alloc);
    if places.push(place).is_err() {
        bail!("out of memory");
    }
    let mut keys = Seq::new(alloc);
    keys.add(places)?;
    Ok(keys)
}

fn schema(alloc: Global) -> anyhow::Result<Schema> {
    let cols = columns(alloc)?;
    let uniques = key_over(alloc, 0)?;
    let indexes = key_over(alloc, 1)?;
    let sort = ColList::new(alloc);
    if !are_within_limits(cols.len(), uniques.as_slice(), indexes.as_slice(), &sort) {
        bail!("the schema is within its limits");
    }
    Ok(Schema {
        table: Name::new(alloc, b"t")?,
        cols,
        uniques,
        indexes,
        sort,
    })
}

pub(crate) fn number(alloc: Global, n: i64) -> Result<Row, Memory> {
    let mut row = Seq::new(alloc);
    row.add(Value::Int(n))?;
    Ok(row)
}

// The pair as a row, which fits the schema.
fn row(alloc: Global, schema: &Schema, pair: Pair) -> anyhow::Result<Row>
    ensures { IfOk result (λ row. fits schema.now row ≡ true) }
{
    let mut row = Seq::new(alloc);
    row.add(Value::Int(pair.a))?;
    row.add(Value::Int(pair.b))?;
    if !schema.fits(&row) {
        bail!("the row fits the schema");
    }
    Ok(row)
}

impl Bed {
    /// An empty store.
    pub(crate) fn new(alloc: Global) -> anyhow::Result<Bed> {
        let schema = schema(alloc)?;
        let store = Rowstore::new(alloc, &schema)?;
        Ok(Bed { schema, store })
    }

    /// The writer's open write of the row: a pair, or none where the row is dropped.
    pub(crate) fn put(
        &mut self,
        alloc: Global,
        writer: Writer,
        id: u64,
        pair: Option<Pair>,
    ) -> anyhow::Result<()> {
        let change = match pair {
            Some(pair) => Some(row(alloc, &self.schema, pair)?),
            None => None,
        };
        let mut changes = Vec::new(alloc);
        changes.push((id, change))?;
        self.store.put_slots(alloc, writer.actor(), changes)?;
        Ok(())
    }

    /// The writer's open writes take effect.
    pub(crate) fn commit(&mut self, writer: Writer, time: u64) {
        self.store.commit(writer.actor(), time);
    }

    /// The writer's open writes are forgotten.
    pub(crate) fn undo(&mut self, writer: Writer) {
        self.store.undo(writer.actor());
    }

    /// Begins a version of the row.
    pub(crate) fn place(
        &mut self,
        alloc: Global,
        id: u64,
        pair: Pair,
        time: u64,
    ) -> anyhow::Result<()> {
        let row = row(alloc, &self.schema, pair)?;
        let mut rows = Vec::new(alloc);
        rows.push((id, row))?;
        self.store.place(alloc, rows, time)?;
        Ok(())
    }

    /// The row's living version ends.
    pub(crate) fn end_at(&mut self, id: u64, time: u64) {
        self.store.end_at(id, time);
    }

    /// Forgets the versions that ended at or before `h`.
    pub(crate) fn cut(&mut self, h: u64) {
        self.store.cut(h);
    }

    /// When the row's living version began.
    pub(crate) fn begun(&self, id: u64) -> Option<u64> {
        self.store.begun(id)
    }

    /// The row as the actor sees it at `r`.
    pub(crate) fn row(&self, id: u64, actor: u8, r: u64) -> Option<&Row> {
        self.store.visible_row(id, actor, r)
    }

    /// The rows as the actor sees them at `r`.
    pub(crate) fn visible(&self, alloc: Global, actor: u8, r: u64) -> anyhow::Result<TableRows> {
        Ok(self.store.visible(alloc, actor, r)?)
    }

    /// The rows as the actor sees them at `r`, lent.
    pub(crate) fn seen_rows(
        &self,
        alloc: Global,
        actor: u8,
        r: u64,
    ) -> anyhow::Result<Vec<(u64, &Row)>> {
        Ok(self.store.seen_rows(alloc, actor, r)?)
    }

    /// The rows that the writer has open writes of.
    pub(crate) fn changed(&self, alloc: Global, writer: Writer) -> anyhow::Result<Vec<u64>> {
        Ok(self.store.changed(alloc, writer.actor())?)
    }

    /// The first rows above `from` that can be taken at `r`.
    pub(crate) fn take_after(
        &self,
        alloc: Global,
        from: u64,
        r: u64,
        most: usize,
    ) -> anyhow::Result<Vec<u64>> {
        Ok(self.store.take_after(alloc, from, r, most)?)
    }

    /// The rows of which some version or open write has the number in the key: 0 for `a`, 1 for `b`.
    pub(crate) fn with_key(&self, alloc: Global, j: usize, n: i64) -> anyhow::Result<Vec<u64>> {
        if j >= self.schema.keys() {
            bail!("the schema has the key");
        }
        let key = number(alloc, n)?;
        Ok(self.store.with_key(alloc, &self.schema, j, &key)?)
    }
}
