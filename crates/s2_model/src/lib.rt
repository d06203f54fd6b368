//! The model of the engine: entries, statements, replies and scripts, and the definitions that say what they mean.
#![tactic(auto)]

mod conditions;
mod entries;
mod files;
mod laws;
mod outcomes;
mod predicates;
mod replies;
mod rows;
mod runs;
mod scripts;
mod statements;

pub use conditions::Condition;
pub use entries::{
    Change, ChangeList, Entry, EntryList, FlushNote, MergeNote, NewSegList, PlaceList, What,
};
pub use files::{Logged, RowFile};
pub use laws::{
    background_entries_fit, faults_stay, histories_are_placed, horizons_are_pinned,
    only_commits_change, physical_entries_change_no_row, placed_rows_are_rows, replies_go_on,
    replies_stay, reply_stays, resting_rows_are_rows, row_numbers_are_right, segments_are_files,
    sessions_join, transcripts_stay,
};
pub use outcomes::{
    MarkList, Outcome, PinList, PlacementNote, Ruling, Said, SaidList, SegNote, SegNoteList,
    Transcript, TranscriptList,
};
pub use predicates::{Op, Pred};
pub use replies::{Cell, CellList, CellTable, Refusal, Reply};
pub use rows::{after, compare_at, copy_at, matches, number_at};
pub use runs::simple_runs_are_right;
pub use s2_value::{IdList, OffsetList, SegList, TableRows, ValueList};
pub use scripts::{Line, LineList, Options, Script};
pub use statements::{
    Agg, AggList, ColPicks, Items, OrderList, RowList, Select, SetExpr, SetList, Stmt,
};
