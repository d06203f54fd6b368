//! What may come next in an output.
ghost use Rattle.std.specs.Prelude.{◌≡◌};
ghost use Rattle.std.specs.Option.{option_map};
ghost use Rattle.s2_outread.specs.declared.expected.ExpectedOf.TheVariants.{Replies, Entries};
ghost use Rattle.s2_outread.specs.Expected.{told, step, begun};

use crate::forms::OutputLine;

/// What is still to come.
#[derive(Clone, Copy, Debug)]
pub enum ExpectedOf<S> {
    /// So many rows of the answer, so many replies of the session after it, then these sessions and the history.
    Replies {
        sessions: S,
        replies: u64,
        rows: u64,
    },
    /// So many entries, then the end.
    Entries(u64),
    /// Nothing.
    Nothing,
}

/// What is still to come; the sessions are each a number and a count of replies.
pub type Expected<'a> = ExpectedOf<&'a [(u8, u64)]>;

fn in_replies<'a>(
    sessions: &'a [(u8, u64)],
    replies: u64,
    rows: u64,
    line: &OutputLine,
) -> Option<Expected<'a>>
    ensures { option_map told result ≡ step (Replies sessions.entry.now replies rows) line.now }
{
    match line {
        OutputLine::Row(_) if rows > 0 => Some(Expected::Replies {
            sessions,
            replies,
            rows: rows - 1,
        }),
        OutputLine::Said(_) if rows == 0 && replies > 0 => Some(Expected::Replies {
            sessions,
            replies: replies - 1,
            rows: 0,
        }),
        OutputLine::Rows { count, .. } if rows == 0 && replies > 0 => Some(Expected::Replies {
            sessions,
            replies: replies - 1,
            rows: *count,
        }),
        OutputLine::Session { session, count, .. } if rows == 0 && replies == 0 => {
            begun(sessions, *session, *count)
        }
        OutputLine::History(count) if rows == 0 && replies == 0 && sessions.is_empty() => {
            Some(Expected::Entries(*count))
        }
        _ => None,
    }
}

/// What is to come after the line of a session.
fn begun(sessions: &[(u8, u64)], session: u8, count: u64) -> Option<Expected<'_>>
    ensures { option_map told result ≡ begun sessions.entry.now session count }
{
    let [(first, replies), later @ ..] = sessions else {
        return None;
    };
    if *first == session && *replies == count {
        Some(Expected::Replies {
            sessions: later,
            replies: count,
            rows: 0,
        })
    } else {
        None
    }
}

fn in_entries<'a>(entries: u64, line: &OutputLine) -> Option<Expected<'a>>
    ensures { option_map told result ≡ step (Entries entries) line.now }
{
    match line {
        OutputLine::Entry(_) if entries > 0 => Some(Expected::Entries(entries - 1)),
        OutputLine::End if entries == 0 => Some(Expected::Nothing),
        _ => None,
    }
}

/// What is to come after this line, where it may come next.
pub fn after<'a>(expected: Expected<'a>, line: &OutputLine) -> Option<Expected<'a>>
    ensures { option_map told result ≡ step (told expected.entry) line.now }
{
    match expected {
        Expected::Replies {
            sessions,
            replies,
            rows,
        } => in_replies(sessions, replies, rows, line),
        Expected::Entries(entries) => in_entries(entries, line),
        Expected::Nothing => None,
    }
}
