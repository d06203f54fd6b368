//! Statements.
ghost use Rattle.std.specs.Prelude.{◌≡◌, Some};
ghost use Rattle.s2_line.specs.Reading.{Gives, told_stmt, read_only_at, phase_at, stmt_at};

use crate::changes::{delete, update};
use crate::fault::Fault;
use crate::forms::{Phase, RawStmtOf};
use crate::selects::select;
use crate::steps::number;
use crate::tuples::insert;
use s2_token::{Keyword, Token};
use std::alloc::Global;

/// Whether `READ ONLY` stands there, and the tokens after it.
#[tactic(auto, unfolding(crate::specs::Reading::read_only_at))]
fn read_only(tokens: &[Token]) -> (bool, &[Token])
    ensures { Some (result.0, result.1.now) ≡ read_only_at tokens.now }
{
    match tokens {
        [
            Token::Key(Keyword::Read),
            Token::Key(Keyword::Only),
            rest @ ..,
        ] => (true, rest),
        _ => (false, tokens),
    }
}

/// `BEGIN` or `END`, if one stands there, and the tokens after it.
#[tactic(auto, unfolding(crate::specs::Reading::phase_at))]
fn phase(tokens: &[Token]) -> (Phase, &[Token])
    ensures { Some (result.0, result.1.now) ≡ phase_at tokens.now }
{
    match tokens {
        [Token::Key(Keyword::Begin), rest @ ..] => (Phase::Begin, rest),
        [Token::Key(Keyword::End), rest @ ..] => (Phase::End, rest),
        _ => (Phase::Whole, tokens),
    }
}

/// A statement at the front, and the tokens after it.
#[tactic(auto, unfolding(crate::specs::Reading::stmt_at))]
pub fn stmt(alloc: Global, tokens: &[Token]) -> Result<(RawStmtOf<&[Token]>, &[Token]), Fault>
    ensures { Gives (λ x. (told_stmt x.0, x.1.now)) result (stmt_at tokens.now) }
{
    match tokens {
        [Token::Key(Keyword::Insert), rest @ ..] => insert(alloc, rest),
        [Token::Key(Keyword::Update), rest @ ..] => update(alloc, rest),
        [Token::Key(Keyword::Delete), rest @ ..] => delete(rest),
        [Token::Key(Keyword::Select), rest @ ..] => select(alloc, rest),
        [Token::Key(Keyword::Begin), rest @ ..] => {
            let (read_only, rest) = read_only(rest);
            Ok((RawStmtOf::Begin { read_only }, rest))
        }
        [Token::Key(Keyword::Commit), rest @ ..] => Ok((RawStmtOf::Commit, rest)),
        [Token::Key(Keyword::Rollback), rest @ ..] => Ok((RawStmtOf::Rollback, rest)),
        [Token::Key(Keyword::Flush), rest @ ..] => {
            let (phase, rest) = phase(rest);
            Ok((RawStmtOf::Flush(phase), rest))
        }
        [Token::Key(Keyword::Merge), rest @ ..] => {
            let (phase, rest) = phase(rest);
            Ok((RawStmtOf::Merge(phase), rest))
        }
        [Token::Key(Keyword::Upload), rest @ ..] => Ok((RawStmtOf::Upload, rest)),
        [Token::Key(Keyword::Evict), rest @ ..] => Ok((RawStmtOf::Evict, rest)),
        [Token::Key(Keyword::Vacuum), rest @ ..] => Ok((RawStmtOf::Vacuum, rest)),
        [Token::Key(Keyword::Mark), rest @ ..] => {
            let (mark, rest) = number(rest)?;
            Ok((RawStmtOf::Mark(mark), rest))
        }
        [Token::Key(Keyword::After), rest @ ..] => {
            let (mark, rest) = number(rest)?;
            Ok((RawStmtOf::After(mark), rest))
        }
        _ => Err(Fault::Syntax),
    }
}
