//! The state of the engine.
use crate::journal::Journal;
use s2_model::{Entry, EntryList, Logged, Options};
use s2_rowstore::Rowstore;
use s2_uniquelock::LockTable;
use s2_value::{Memory, Schema, TableRows};
use std::alloc::Global;

/// The table, the rows with their versions and open writes, who holds them, and the history.
///
/// The public parts are changed by the crates above, each change with its entry; the log only grows, by `append`.
#[derive(Drop)]
pub struct State {
    /// The table.
    pub schema: Schema,
    /// The options of the run.
    pub options: Options,
    /// The versions of the rows, and the open writes.
    pub rows: Rowstore,
    /// Who holds which rows and unique key values.
    pub locks: LockTable,
    /// The least timestamp at which the versions still tell the content.
    pub horizon: u64,
    log: Journal,
}

/// What an actor sees at a timestamp.
#[derive(Debug, Drop)]
pub struct Snapshot {
    /// The timestamp.
    pub r: u64,
    /// The rows, by rising row number.
    pub rows: TableRows,
}

impl Logged for State {
    ghost use Rattle.std.specs.Prelude.{Some};

    ghost history = { λ s. s.log.entries };

    ghost schema = { λ s. Some s.schema };

    ghost options = { λ s. Some s.options };

    fn front(&self) -> u64 {
        self.log.len()
    }
}

impl State {
    ghost use Rattle.std.specs.Prelude.{◌≡◌, ◌≤◌, ◌<◌, ◌+◌, ◌^◌, ◌∷◌, [], IfOk, OnOk, reverse};
    ghost use Rattle.s2_model.specs.History.{next, is_running, pin_of, view};
    ghost use Rattle.s2_state.specs.Laws.{read_at};
    ghost use Rattle.s2_state.specs.States.{history_of, room_of, SameParts};
    ghost use Rattle.s2_state.specs.Good.{Good};

    /// The state of the empty history. The `Err` is want of memory.
    pub fn new(alloc: Global, schema: Schema, options: Options) -> Result<State, Memory>
        ensures good { IfOk result (λ s. Good s) }
        ensures empty { IfOk result (λ s. history_of s ≡ []) }
        ensures schema { IfOk result (λ s. s.schema ≡ schema) }
        ensures options { IfOk result (λ s. s.options ≡ options) }
    {
        let rows = Rowstore::new(alloc, &schema)?;
        Ok(State {
            schema,
            options,
            rows,
            locks: LockTable::new(alloc),
            horizon: 0,
            log: Journal::new(alloc),
        })
    }

    /// Makes room for `n` more entries. The state stays, also after want of memory, and room that there was stays too.
    pub fn reserve(&mut self, n: u32) -> Result<(), Memory>
        ensures parts { SameParts self.old self.new }
        ensures history { history_of self.new ≡ history_of self.old }
        ensures room { OnOk result (n ≤ room_of self.new) }
        ensures kept { room_of self.old ≤ room_of self.new }
    {
        self.log.reserve(n)
    }

    /// Puts an entry at the end of the history, for which there is room. It takes no memory.
    pub fn append(&mut self, entry: Entry)
        requires { 0 < room_of self.old }
        ensures parts { SameParts self.old self.new }
        ensures history { history_of self.new ≡ entry ∷ history_of self.old }
        ensures room { room_of self.old ≤ room_of self.new + 1 }
    {
        self.log.append(entry);
    }

    /// The timestamp of the actor's pin, 1 to 16, where it has a read-only transaction open.
    pub fn pin_of(&self, actor: u8) -> Option<u64>
        requires { actor < 17 }
        ensures { result ≡ pin_of (history_of self.now) actor }
    {
        self.log.pin_of(actor)
    }

    /// Whether the actor, 1 to 16, has a transaction open that writes.
    pub fn is_running(&self, actor: u8) -> bool
        requires { actor < 17 }
        ensures { result ≡ is_running (history_of self.now) actor }
    {
        self.log.is_running(actor)
    }

    /// What the actor sees at `r`, which is its pin or else the end of the history: the rows of its view. The `Err` is want of memory.
    pub fn snapshot(&self, alloc: Global, actor: u8, r: u64) -> Result<Snapshot, Memory>
        requires good { Good self.now }
        requires time { r ≡ read_at (history_of self.now) actor }
        ensures time { IfOk result (λ seen. seen.r ≡ r) }
        ensures rows { IfOk result (λ seen. seen.rows ≡ view (history_of self.now) actor) }
    {
        let rows = self.rows.visible(alloc, actor, r)?;
        Ok(Snapshot { r, rows })
    }

    /// The next free row number: one more than the greatest of any write, 1 without one.
    pub fn next_row(&self) -> u64
        requires { next (history_of self.now) < 2 ^ 64 }
        ensures { result ≡ next (history_of self.now) }
    {
        self.log.next_row()
    }

    /// The history, the oldest entry first. It takes no memory.
    pub fn into_log(self) -> EntryList
        ensures { reverse result ≡ history_of self }
    {
        self.log.into_entries()
    }
}
