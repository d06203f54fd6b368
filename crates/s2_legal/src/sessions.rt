//! The first fault of a session's replies.
ghost use Rattle.std.specs.Prelude.{◌≡◌, ◌∷◌, ◌<◌, ◌≤◌, ℕ, Bool, [], IfOk, MatchOption, true, length};
ghost use Rattle.std.specs.List.{list_all};
ghost use Rattle.s2_model.specs.declared.scripts.Options.{Options};
ghost use Rattle.s2_model.specs.History.{history};
ghost use Rattle.s2_model.specs.Legal.{stmts_of};
ghost use Rattle.s2_legal.specs.Built.{is_built_stmt, are_built};
ghost use Rattle.s2_legal.specs.World.{AreTables};
ghost use Rattle.s2_legal.specs.Sessions.{IsNextLine, IsFirstWrong};

use crate::replies::{is_quiet, next_end};
use crate::world::World;
use s2_model::{Entry, Line, Said, Stmt};
use s2_value::{Memory, Schema};
use std::alloc::Global;

/// The session's next statement among the lines, with the lines after it.
fn next_line(lines: &[Line], k: u8) -> Option<(&Stmt, &[Line])>
    requires { list_all (λ l. is_built_stmt l.stmt) lines.now ≡ true }
    ensures { MatchOption result (stmts_of k lines.now ≡ []) (λ p. IsNextLine k lines.now p.0.now p.1.now) }
{
    let mut left = lines;
    while let [line, rest @ ..] = left {
        if line.session == k {
            return Some((&line.stmt, rest));
        }
        left = rest;
    }
    None
}

/// The first step of the session, counted from 1, that is wrong: a reply, or its end.
pub(crate) fn first_wrong(
    alloc: Global,
    schema: &Schema,
    lines: &[Line],
    h: &[Entry],
    k: u8,
    said: &[Said],
    faults: u64,
) -> Result<Option<u64>, Memory>
    requires tables { AreTables (history h.now) }
    requires built { are_built (history h.now) ≡ true }
    requires stmts { list_all (λ l. is_built_stmt l.stmt) lines.now ≡ true }
    requires even { length said.now ≡ length (stmts_of k lines.now) }
    ensures { IfOk result (λ o. (options : Options) (marks : ℕ → ℕ → Bool) → IsFirstWrong schema.now options marks (history h.now) k faults (stmts_of k lines.now) said.now o) }
{
    let mut world = World::new(alloc, schema)?;
    let mut floor = 0;
    let mut was = 0;
    let mut left = lines;
    for (i, next) in said.iter().enumerate() {
        let Some((stmt, rest)) = next_line(left, k) else {
            return Ok(None);
        };
        match next_end(alloc, schema, &mut world, h, floor, was, k, stmt, next)? {
            Some(end) => floor = end,
            None => return Ok(Some(i as u64 + 1)),
        }
        was = next.faults;
        left = rest;
    }
    if was > faults || !is_quiet(h, k, floor, h.len()) {
        return Ok(Some(said.len() as u64 + 1));
    }
    Ok(None)
}
