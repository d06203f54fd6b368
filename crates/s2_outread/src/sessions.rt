//! The sessions of a script.
ghost use Rattle.std.specs.Prelude.{◌≡◌, ◌<◌, ◌^◌, ◌++◌, IfOk, OnOk, length, filter};
ghost use Rattle.s2_model.specs.Held.{sessions};
ghost use Rattle.s2_model.specs.Legal.{is_of_session};
ghost use Rattle.std.specs.List.{flat_map};
ghost use Rattle.s2_outread.specs.Lines.{sessions_of};
ghost use Rattle.s2_outread.specs.Taking.{with_lines};

use s2_model::Line;
use s2_value::Memory;
use std::alloc::Global;

#[tactic(auto, unfolding(s2_model::specs::Held::sessions))]
fn numbers() -> [u8; 16]
    ensures { result ≡ sessions }
{
    [1, 2, 3, 4, 5, 6, 7, 8, 9, 10, 11, 12, 13, 14, 15, 16]
}

fn count_of(session: u8, lines: &[Line]) -> u64
    ensures { result ≡ length (filter (is_of_session session) lines.now) }
{
    let mut count: u64 = 0;
    for line in lines {
        if line.session == session {
            count += 1;
        }
    }
    count
}

fn add_session(found: &mut Vec<(u8, u64)>, session: u8, lines: &[Line]) -> Result<(), Memory>
    ensures { OnOk result (found.new.items ≡ found.old.items ++ with_lines lines.now session) }
{
    let count = count_of(session, lines);
    if count > 0 {
        found.push((session, count))?;
    }
    Ok(())
}

fn sessions_among(alloc: Global, numbers: &[u8], lines: &[Line]) -> Result<Vec<(u8, u64)>, Memory>
    ensures { IfOk result (λ found. found.items ≡ flat_map (with_lines lines.now) numbers.now) }
{
    let mut found = Vec::new(alloc);
    for session in numbers {
        add_session(&mut found, *session, lines)?;
    }
    Ok(found)
}

/// The sessions with a line, by rising number, each with how many lines it has.
#[tactic(auto, using(crate::proofs::SessionLaws::all_with_lines))]
pub fn sessions_of(alloc: Global, lines: &[Line]) -> Result<Vec<(u8, u64)>, Memory>
    ensures found { IfOk result (λ found. found.items ≡ sessions_of lines.now) }
    ensures few { length lines.now < 2 ^ 64 }
{
    sessions_among(alloc, &numbers(), lines)
}
