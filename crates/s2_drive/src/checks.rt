//! Which lines are taken.
ghost use Rattle.std.specs.Prelude.{◌≡◌, ◌&&◌};
ghost use Rattle.std.specs.List.{list_all};
ghost use Rattle.s2_drive.specs.Runs.{is_taken, is_taken_stmt};

use s2_answer::stmt_suits;
use s2_model::{Line, Stmt};
use s2_value::Schema;

fn is_taken_stmt(schema: &Schema, stmt: &Stmt) -> bool
    ensures { result ≡ is_taken_stmt schema.now stmt.now }
{
    match stmt {
        Stmt::Begin | Stmt::BeginReadOnly => true,
        Stmt::Commit | Stmt::Rollback => true,
        _ => stmt_suits(schema, stmt),
    }
}

fn is_taken(schema: &Schema, line: &Line) -> bool
    ensures { result ≡ is_taken schema.now line.now }
{
    1 <= line.session && line.session <= 16 && is_taken_stmt(schema, &line.stmt)
}

/// Whether each line is of a session, 1 to 16, with a statement that has a verdict, and whose rows and values fit the table. It takes no memory, and goes once over the lines.
pub fn are_taken(schema: &Schema, lines: &[Line]) -> bool
    ensures { result ≡ list_all (is_taken schema.now) lines.now }
{
    for line in lines {
        if !is_taken(schema, line) {
            return false;
        }
    }
    true
}
