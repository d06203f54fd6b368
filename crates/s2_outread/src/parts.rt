//! An outcome put together from its lines, the last one first.
ghost use Rattle.std.specs.Prelude.{◌≡◌, ◌∷◌, [], OnOk, IfOk};
ghost use Rattle.s2_outread.specs.declared.forms.OutputLine.TheVariants.{Rows, Session};
ghost use Rattle.s2_outread.specs.Parts.{no_parts, parts_before, parts_of, outcome_of};

use crate::forms::OutputLine;
use s2_model::{CellList, Entry, Outcome, Reply, Said, Transcript};
use s2_value::{Memory, Seq};
use std::alloc::Global;
use std::marker::Model;

/// Items, each put in front of the others. In contracts it is the list of them.
#[derive(Debug, Drop)]
pub struct Front<T> {
    items: Vec<T>,
}

impl<T> Model for Front<T> {
    ghost use Rattle.std.specs.Prelude.{List, reverse};
    ghost use Rattle.std.specs.Coded.{coded_list};

    ghost Value = { List T };

    ghost coded = { coded_list T.code };

    ghost view = { λ f. reverse f.items.items };
}

impl<T: Drop> Front<T> {
    fn new(alloc: Global) -> Front<T>
        ensures { result ≡ [] }
    {
        Front {
            items: Vec::new(alloc),
        }
    }

    fn put(&mut self, item: T) -> Result<(), Memory>
        ensures { OnOk result (self.new ≡ item ∷ self.old) }
    {
        self.items.push(item)?;
        Ok(())
    }

    fn into_seq(self) -> Seq<T>
        ensures { result ≡ self }
    {
        let mut items = self.items;
        items.reverse();
        Seq::from_vec(items)
    }
}

/// What stands from some line on: rows and replies whose heads come before it, transcripts, and entries.
#[derive(Debug, Drop)]
pub struct Parts {
    pub rows: Front<CellList>,
    pub said: Front<Said>,
    pub transcripts: Front<Transcript>,
    pub entries: Front<Entry>,
}

impl Parts {
    fn new(alloc: Global) -> Parts
        ensures { result ≡ no_parts }
    {
        Parts {
            rows: Front::new(alloc),
            said: Front::new(alloc),
            transcripts: Front::new(alloc),
            entries: Front::new(alloc),
        }
    }

    /// Takes the rows for a reply.
    fn answer(self, alloc: Global, r: u64, faults: u64) -> Result<Parts, Memory>
        ensures { IfOk result (λ parts. parts ≡ parts_before (Rows r faults 0) self) }
    {
        let mut parts = self;
        let reply = Reply::Rows(parts.rows.into_seq());
        parts.rows = Front::new(alloc);
        parts.said.put(Said { r, faults, reply })?;
        Ok(parts)
    }

    /// Takes the replies for a session.
    fn transcript(self, alloc: Global, session: u8, faults: u64) -> Result<Parts, Memory>
        ensures { IfOk result (λ parts. parts ≡ parts_before (Session session 0 faults) self) }
    {
        let mut parts = self;
        let said = parts.said.into_seq();
        parts.said = Front::new(alloc);
        parts.transcripts.put(Transcript {
            session,
            faults,
            said,
        })?;
        Ok(parts)
    }

    /// The parts from the line before on.
    fn before(self, alloc: Global, line: OutputLine) -> Result<Parts, Memory>
        ensures { IfOk result (λ parts. parts ≡ parts_before line self) }
    {
        let mut parts = self;
        match line {
            OutputLine::Session {
                session,
                faults,
                ..
            } => parts.transcript(alloc, session, faults),
            OutputLine::Said(said) => {
                parts.said.put(said)?;
                Ok(parts)
            }
            OutputLine::Rows { r, faults, .. } => parts.answer(alloc, r, faults),
            OutputLine::Row(cells) => {
                parts.rows.put(cells)?;
                Ok(parts)
            }
            OutputLine::History(_) => Ok(parts),
            OutputLine::Entry(entry) => {
                parts.entries.put(entry)?;
                Ok(parts)
            }
            OutputLine::End => Ok(parts),
        }
    }
}

#[tactic(auto, using(crate::proofs::RunLaws::onto_last))]
fn parts_of(alloc: Global, lines: Vec<OutputLine>) -> Result<Parts, Memory>
    ensures { IfOk result (λ parts. parts ≡ parts_of lines.items) }
{
    let mut lines = lines;
    let mut parts = Parts::new(alloc);
    while let Some(line) = lines.pop() {
        parts = parts.before(alloc, line)?;
    }
    Ok(parts)
}

/// The outcome whose lines these are.
pub fn outcome_of(alloc: Global, lines: Vec<OutputLine>) -> Result<Outcome, Memory>
    ensures { IfOk result (λ run. run ≡ outcome_of (parts_of lines.items)) }
{
    let parts = parts_of(alloc, lines)?;
    Ok(Outcome {
        history: parts.entries.into_seq(),
        transcripts: parts.transcripts.into_seq(),
    })
}
