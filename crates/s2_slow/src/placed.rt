//! Where rows lie, as the slow forms keep it.
use s2_value::Row;
use std::marker::Model;

/// A version in the row store.
#[derive(Debug, Drop)]
pub struct Version {
    /// The row's number.
    pub id: u64,
    /// The row.
    pub row: Row,
    /// The timestamp from which on it is visible.
    pub begin: u64,
    /// The timestamp from which on it isn't visible any more.
    pub stop: Option<u64>,
}

impl Model for Version {
    ghost use Rattle.s2_model.specs.Placement.{Version as PlacedVersion};

    ghost Value = { PlacedVersion };

    ghost view = { λ v. record { id = v.id; row = v.row; begin = v.begin; stop = v.stop } };
}

/// The place of a row in a segment.
#[derive(Debug, Drop)]
pub struct Spot {
    /// The row's number.
    pub id: u64,
    /// The timestamp from which on it doesn't count any more.
    pub mark: Option<u64>,
}

impl Model for Spot {
    ghost use Rattle.s2_model.specs.Placement.{Spot as PlacedSpot};

    ghost Value = { PlacedSpot };

    ghost view = { λ x. record { id = x.id; mark = x.mark } };
}

/// A segment.
#[derive(Debug, Drop)]
pub struct Segment {
    /// Its number.
    pub number: u32,
    /// Its places in file order.
    pub spots: Vec<Spot>,
    /// The timestamp at which its rows were read.
    pub base: u64,
    /// The timestamp of its birth.
    pub born: u64,
    /// The timestamp of its death.
    pub died: Option<u64>,
    /// Whether its file is in the blob store.
    pub stored: bool,
    /// Whether its file is here.
    pub here: bool,
}

impl Model for Segment {
    ghost use Rattle.s2_model.specs.Placement.{Segment as PlacedSegment};

    ghost Value = { PlacedSegment };

    ghost view = { λ s. record {
      number = s.number;
      spots = s.spots.items;
      base = s.base;
      born = s.born;
      died = s.died;
      stored = s.stored;
      here = s.here;
    } };
}

/// The whole placement.
#[derive(Debug, Drop)]
pub struct Placement {
    /// The versions.
    pub versions: Vec<Version>,
    /// The segments in the order of their numbers.
    pub segments: Vec<Segment>,
    /// The timestamp before which nothing is kept.
    pub horizon: u64,
}

impl Model for Placement {
    ghost use Rattle.s2_model.specs.Placement.{Placement as WholePlacement};

    ghost Value = { WholePlacement };

    ghost view = { λ p. record { versions = p.versions.items; segments = p.segments.items; horizon = p.horizon } };
}
