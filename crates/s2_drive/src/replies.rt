// The replies by session.
ghost use Rattle.std.specs.Prelude.{◌≡◌, ◌<◌, ◌-◌, ◌+◌, ◌++◌, ◌∷◌, [], IfOk, OnOk, vec_len, replicate, set, slice_index_or};
ghost use Rattle.s2_drive.specs.Dealt.{spoken_from};

use s2_model::{Line, Said, SaidList, Transcript, TranscriptList};
use s2_value::{Memory, Seq};
use std::alloc::Global;

/// How many sessions there are.
const SESSIONS: usize = 16;

// How many lines each session has.
fn count_lines(lines: &[Line]) -> [usize; SESSIONS] {
    let mut counts = [0usize; SESSIONS];
    for line in lines {
        if let Some(count) = counts.get_mut(usize::from(line.session).wrapping_sub(1)) {
            *count = count.saturating_add(1);
        }
    }
    counts
}

/// No reply of any session, and room for one to each of its lines.
pub fn no_replies(alloc: Global, lines: &[Line]) -> Result<Vec<SaidList>, Memory>
    ensures items { IfOk result (λ replies. replies.items ≡ replicate 16 []) }
    ensures len { IfOk result (λ replies. vec_len replies ≡ 16) }
{
    let counts = count_lines(lines);
    let mut replies = Vec::with_capacity(alloc, SESSIONS)?;
    for i in 0..SESSIONS {
        let room = Vec::with_capacity(alloc, counts[i])?;
        replies.push(Seq::from_vec(room))?;
    }
    Ok(replies)
}

/// Adds a reply of session 1 to 16.
pub fn put(replies: &mut Vec<SaidList>, session: u8, said: Said) -> Result<(), Memory>
    requires session { 0 < session }
    requires place { session - 1 < vec_len replies.old }
    ensures len { vec_len replies.new ≡ vec_len replies.old }
    ensures put { OnOk result (replies.new.items ≡ set replies.old.items (session - 1) (slice_index_or replies.old.items (session - 1) [] ++ said ∷ [])) }
{
    replies[session as usize - 1].add(said)
}

/// Adds the transcript of a session, where it said something.
fn add_spoken(transcripts: &mut TranscriptList, session: u8, said: SaidList) -> Result<(), Memory>
    ensures { OnOk result (transcripts.new ≡ transcripts.old ++ spoken_from session (said ∷ [])) }
{
    if said.len() == 0 {
        return Ok(());
    }
    transcripts.add(Transcript {
        session,
        faults: 0,
        said,
    })
}

/// The transcripts of the sessions that said something.
pub fn transcripts(alloc: Global, replies: Vec<SaidList>) -> Result<TranscriptList, Memory>
    requires { vec_len replies < 17 }
    ensures { IfOk result (λ transcripts. transcripts ≡ spoken_from 1 replies.items) }
{
    let mut transcripts = Seq::new(alloc);
    let mut session = 1u8;
    let mut left = replies.into_iter();
    while let Some(said) = left.next() {
        add_spoken(&mut transcripts, session, said)?;
        session += 1;
    }
    Ok(transcripts)
}
