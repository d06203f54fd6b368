//! Outcomes by dice: runs of a few statements, bent at some places, and judged both ways.
ghost use Rattle.std.specs.Prelude.{◌<◌};

use crate::slowly::{ends, entry_fits, judge};
use crate::tests::{Asked, one_column, one_key, puts_of, stmt_of};
use crate::{LegalAnswer, is_built, is_whole, legal};
use s2_model::{
    Entry, Line, Options, Outcome, Refusal, Reply, Said, Script, Stmt, Transcript, What,
};
use s2_slow::pin_of;
use s2_value::{Schema, Seq};
use s2_verdict::verdict;
use std::alloc::Global;
use std::test::Fail;

/// A deterministic source of numbers.
#[derive(Drop)]
struct Dice {
    state: u64,
}

impl Dice {
    fn roll(&mut self, sides: u64) -> u64
        requires { 0 < sides }
        ensures { result < sides }
    {
        self.state = self
            .state
            .wrapping_mul(6_364_136_223_846_793_005)
            .wrapping_add(1_442_695_040_888_963_407);
        (self.state >> 33) % sides
    }

    fn place(&mut self, len: usize) -> usize
        requires { 0 < len }
        ensures { result < len }
    {
        self.roll(len as u64) as usize
    }
}

/// A run in the making: what sessions 1 to 3 asked and were told, and the history.
#[derive(Drop)]
struct Made {
    lines: Vec<Line>,
    first: Vec<Said>,
    second: Vec<Said>,
    third: Vec<Said>,
    entries: Vec<Entry>,
}

fn asked(dice: &mut Dice) -> Asked {
    match dice.roll(11) {
        0 => Asked::AddOne,
        1 => Asked::DeleteId(dice.roll(3) as i64),
        2 => Asked::All,
        3 => Asked::Begin,
        4 => Asked::ReadOnly,
        5 => Asked::Commit,
        6 => Asked::Rollback,
        _ => Asked::Insert(dice.roll(3) as i64),
    }
}

/// Where the session's next statement is read: at its pin, or after all entries.
fn time(entries: &[Entry], k: u8, stmt: &Stmt) -> u64 {
    match pin_of(entries, k) {
        Some(t) if !ends(stmt) => t as u64,
        _ => entries.len() as u64,
    }
}

/// One statement of a session more, with its answer.
fn say(
    alloc: Global,
    dice: &mut Dice,
    schema: &Schema,
    made: &mut Made,
    k: u8,
) -> Result<(), Fail> {
    let stmt = stmt_of(alloc, asked(dice))?;
    let ruling = verdict(alloc, schema, &made.entries, k, &stmt)?;
    let said = Said {
        r: time(&made.entries, k, &stmt),
        faults: 0,
        reply: ruling.reply,
    };
    match k {
        1 => made.first.push(said)?,
        2 => made.second.push(said)?,
        _ => made.third.push(said)?,
    }
    made.lines.push(Line { session: k, stmt })?;
    for entry in ruling.entries.into_vec() {
        made.entries.push(entry)?;
    }
    Ok(())
}

/// A write of one row that stays open, if it fits.
fn open(
    alloc: Global,
    dice: &mut Dice,
    schema: &Schema,
    entries: &mut Vec<Entry>,
) -> Result<(), Fail> {
    let puts = puts_of(alloc, &[(dice.roll(4), dice.roll(3) as i64)])?;
    let entry = Entry {
        actor: 2 + dice.roll(2) as u8,
        what: What::Write(puts),
    };
    if entry_fits(alloc, schema, entries, &entry)? {
        entries.push(entry)?;
    }
    Ok(())
}

fn bound(dice: &mut Dice) -> What {
    match dice.roll(5) {
        0 => What::Begin,
        1 => What::Rollback,
        2 => What::Pin,
        3 => What::Unpin,
        _ => What::Commit,
    }
}

fn bend_entries(alloc: Global, dice: &mut Dice, entries: &mut Vec<Entry>) -> Result<(), Fail> {
    if entries.is_empty() {
        return Ok(());
    }
    let i = dice.place(entries.len());
    match dice.roll(6) {
        0 => {
            let j = dice.place(entries.len());
            entries.swap(i, j);
        }
        1 => {
            entries.remove(i);
        }
        2 => entries[i].actor = dice.roll(4) as u8,
        3 => entries[i].what = bound(dice),
        4 => {
            entries[i].what = What::Write(puts_of(alloc, &[(dice.roll(5), dice.roll(3) as i64)])?);
        }
        _ => {
            let actor = dice.roll(4) as u8;
            let what = bound(dice);
            entries.insert(i, Entry { actor, what })?;
        }
    }
    Ok(())
}

fn bend_replies(dice: &mut Dice, said: &mut Vec<Said>) {
    if said.is_empty() {
        return;
    }
    let i = dice.place(said.len());
    match dice.roll(7) {
        0 => said[i].r = said[i].r.saturating_add(1),
        1 => said[i].r = said[i].r.saturating_sub(1),
        2 => said[i].faults = dice.roll(3),
        3 => said[i].reply = Reply::Refused(Refusal::Memory),
        4 => said[i].reply = Reply::Changed(dice.roll(3) as u32),
        5 => said[i].reply = Reply::Done,
        _ => {
            let j = dice.place(said.len());
            said.swap(i, j);
        }
    }
}

fn bend(alloc: Global, dice: &mut Dice, made: &mut Made) -> Result<(), Fail> {
    match dice.roll(6) {
        0 => bend_replies(dice, &mut made.first),
        1 => bend_replies(dice, &mut made.second),
        2 => bend_replies(dice, &mut made.third),
        _ => bend_entries(alloc, dice, &mut made.entries)?,
    }
    Ok(())
}

fn rolled(alloc: Global, dice: &mut Dice, schema: &Schema) -> Result<Made, Fail> {
    let mut made = Made {
        lines: Vec::new(alloc),
        first: Vec::new(alloc),
        second: Vec::new(alloc),
        third: Vec::new(alloc),
        entries: Vec::new(alloc),
    };
    for k in 1..4u8 {
        say(alloc, dice, schema, &mut made, k)?;
    }
    for _ in 0..5usize {
        if dice.roll(12) == 0 {
            open(alloc, dice, schema, &mut made.entries)?;
        }
        let k = 1 + dice.roll(3) as u8;
        say(alloc, dice, schema, &mut made, k)?;
    }
    for _ in 0..dice.roll(3) {
        bend(alloc, dice, &mut made)?;
    }
    Ok(made)
}

fn transcript(session: u8, faults: u64, said: Vec<Said>) -> Transcript {
    Transcript {
        session,
        faults,
        said: Seq::from_vec(said),
    }
}

/// What both judges answer to the next outcome.
fn both(alloc: Global, dice: &mut Dice) -> Result<(LegalAnswer, LegalAnswer), Fail> {
    let schema = if dice.roll(2) == 0 {
        one_key(alloc)?
    } else {
        one_column(alloc)?
    };
    let made = rolled(alloc, dice, &schema)?;
    let script = Script {
        options: Options::new(),
        schema,
        lines: Seq::from_vec(made.lines),
    };
    let mut transcripts = Seq::new(alloc);
    transcripts.add(transcript(1, dice.roll(2), made.first))?;
    transcripts.add(transcript(2, dice.roll(2), made.second))?;
    transcripts.add(transcript(3, dice.roll(2), made.third))?;
    let run = Outcome {
        history: Seq::from_vec(made.entries),
        transcripts,
    };
    if !is_whole(&script, &run) || !is_built(&script, &run) {
        return Err(Fail::from("shape"));
    }
    Ok((legal(alloc, &script, &run)?, judge(alloc, &script, &run)?))
}

#[test]
fn both_judges_agree(rt: HostRuntime) -> Result<(), Fail> {
    let mut dice = Dice { state: 1 };
    let mut counts = [0u32; 3];
    for round in 0..400u32 {
        let (fast, slow) = both(rt.alloc(), &mut dice)?;
        assert_eq!(rt; fast, slow, "at {round}");
        let kind = match fast {
            LegalAnswer::Legal => 0,
            LegalAnswer::Entry(_) => 1,
            LegalAnswer::Reply(_, _) => 2,
        };
        counts[kind] = counts[kind].saturating_add(1);
    }
    for count in counts {
        assert!(rt; count > 50, "{:?}", counts);
    }
    Ok(())
}
