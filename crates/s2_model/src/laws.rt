//! Laws on histories.
ghost use Rattle.s2_model.specs.BackgroundLaws.{BackgroundEntriesFit, FaultsStay};
ghost use Rattle.s2_model.specs.RepliesLaws.{ReplyStays, RepliesStay, RepliesGoOn, TranscriptsStay, SessionsJoin};
ghost use Rattle.s2_model.specs.Laws.{
  HistoriesArePlaced,
  PlacedRowsAreRows,
  RestingRowsAreRows,
  RowNumbersAreRight,
  HorizonsArePinned,
  PhysicalEntriesChangeNoRow,
  OnlyCommitsChange,
  SegmentsAreFiles,
};

/// Where each entry fits the history before it, the rows placed at a timestamp from the horizon on are together the content at that timestamp, no row number is placed twice, and each held row that there is has a living version in the row store.
pub fn histories_are_placed()
    ensures { HistoriesArePlaced }
{}

/// There each version has the content's row as long as it is visible, the row at each place is the same from its segment's base on as long as the place counts, and each row number is placed once where the content has a row of it, and else nowhere.
pub fn placed_rows_are_rows()
    ensures { PlacedRowsAreRows }
{}

/// There each row at an unmarked place of a living segment is a row of the content, as the unmarked rows of a plan's inputs are at its base.
pub fn resting_rows_are_rows()
    ensures { RestingRowsAreRows }
{}

/// There no row number is placed twice, each row number that is placed or held is at least 1 and below the next free one, no held row lies at an unmarked place of a living segment, and each held row has one holder, a session.
pub fn row_numbers_are_right()
    ensures { RowNumbersAreRight }
{}

/// There the horizon is at most the history's length and at most each open pin.
pub fn horizons_are_pinned()
    ensures { HorizonsArePinned }
{}

/// There a MOVE, FLUSH, MERGE, UPLOAD, EVICT or VACUUM changes neither the content nor the rows placed at a timestamp from the new horizon on, and the horizon never falls.
pub fn physical_entries_change_no_row()
    ensures { PhysicalEntriesChangeNoRow }
{}

/// Only a COMMIT changes the content.
pub fn only_commits_change()
    ensures { OnlyCommitsChange }
{}

/// There each segment has from one row to as many as a segment takes, its row numbers are distinct, at least 1 and below the next free one, and those of rows of the content at its base, these rows are in file order, and the segments' numbers rise up to the last that was given.
pub fn segments_are_files()
    ensures { SegmentsAreFiles }
{}

/// A background statement makes one entry at most, and that entry fits the history at which it is made, whoever may make it.
pub fn background_entries_fit()
    ensures { BackgroundEntriesFit }
{}

/// A fault of a port that a history allows at a timestamp is allowed there by each longer history too.
pub fn faults_stay()
    ensures { FaultsStay }
{}

/// A reply that is right against what a session has seen is right against each longer history, whatever marks are set besides.
pub fn reply_stays()
    ensures { ReplyStays }
{}

/// Replies that are right against what a session has seen, one after another, are right against each longer history.
pub fn replies_stay()
    ensures { RepliesStay }
{}

/// A reply that is right where a session's replies ended goes on with them.
pub fn replies_go_on()
    ensures { RepliesGoOn }
{}

/// A whole transcript that is right stays so in each longer history whose further entries are of others.
pub fn transcripts_stay()
    ensures { TranscriptsStay }
{}

/// Sessions that are each right against the part of the history that they have seen are together a legal run.
pub fn sessions_join()
    ensures { SessionsJoin }
{}
