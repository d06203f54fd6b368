//! What a run says: replies with their timestamps, transcripts, the outcome; and notes on placement.
use crate::{EntryList, Reply};
use s2_value::{IdList, Seq};

/// A reply with its timestamp and its port's fault count.
#[derive(Debug, Drop)]
pub struct Said {
    /// The timestamp at which the reply was decided: so many entries came before.
    pub r: u64,
    /// The fault count of the session's port after the statement.
    pub faults: u64,
    /// The reply.
    pub reply: Reply,
}

/// Replies in order.
pub type SaidList = Seq<Said>;

/// What one session said.
#[derive(Debug, Drop)]
pub struct Transcript {
    /// The session's number, 1 to 16.
    pub session: u8,
    /// The fault count of its port at the end.
    pub faults: u64,
    /// Its replies in order.
    pub said: SaidList,
}

/// Transcripts by rising session number.
pub type TranscriptList = Seq<Transcript>;

/// What a run gives: the whole history, the oldest entry first, and a transcript of each session with a line.
#[derive(Debug, Drop)]
pub struct Outcome {
    /// The history.
    pub history: EntryList,
    /// The transcripts.
    pub transcripts: TranscriptList,
}

/// A verdict: the reply to a statement and the entries that it makes.
#[derive(Debug, Drop)]
pub struct Ruling {
    /// The reply.
    pub reply: Reply,
    /// The entries, the oldest first.
    pub entries: EntryList,
}

/// Marks of a segment: each a time and an offset.
pub type MarkList = Seq<(u64, u32)>;

/// Open pins: each an actor and its pin's timestamp.
pub type PinList = Seq<(u8, u64)>;

/// Where the rows of one segment lie, and how it stands.
#[derive(Debug, Drop)]
pub struct SegNote {
    /// The segment's number.
    pub id: u32,
    /// Its row numbers in file order.
    pub rows: IdList,
    /// The timestamp at which its rows were read.
    pub base: u64,
    /// The timestamp of its birth.
    pub born: u64,
    /// The timestamp of its death.
    pub died: Option<u64>,
    /// Its deleted rows.
    pub marks: MarkList,
    /// Whether its file is in the blob store.
    pub stored: bool,
    /// Whether its file is here.
    pub local: bool,
}

/// Segments in the order of their numbers.
pub type SegNoteList = Seq<SegNote>;

/// The placement after a history.
#[derive(Debug, Drop)]
pub struct PlacementNote {
    /// The segments.
    pub segs: SegNoteList,
    /// The numbers of the rows in the row store.
    pub store: IdList,
    /// The timestamp before which nothing is kept.
    pub horizon: u64,
    /// The open pins.
    pub pins: PinList,
}
