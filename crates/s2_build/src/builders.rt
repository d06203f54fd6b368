//! Scripts built line by line.
ghost use Rattle.std.specs.Prelude.{◌≡◌, MatchOption, None};
ghost use Rattle.std.specs.Option.{option_map};
ghost use Rattle.s2_build.specs.Each.{Gives};
ghost use Rattle.s2_build.specs.Statements.{stmt_of};
ghost use Rattle.s2_build.specs.Tables.{parts_of};
ghost use Rattle.s2_build.specs.Drafts.{drafted, draft_of, start, line_of, IsShallowLine, AreShallow, cols_of};
ghost use Rattle.s2_build.specs.Builders.{draft};

use crate::options::with_option;
use crate::statements::stmt;
use crate::tables::schema;
use s2_line::{Raw, RawOf, RawStmt};
use s2_model::{Line, LineList, Options, Script, Stmt};
use s2_pred::Unbuilt;
use s2_value::{Schema, Seq};
use std::alloc::Global;

/// What the lines so far make of a script. In contracts `draft` is what they mean.
#[derive(Debug, Drop)]
pub struct Builder {
    options: Options,
    schema: Option<Schema>,
    lines: LineList,
}

fn line(alloc: Global, schema: &Option<Schema>, session: u64, raw: RawStmt) -> Result<Line, Unbuilt>
    requires { AreShallow raw }
    ensures { Gives (λ x. x) result (line_of (cols_of (option_map parts_of schema.now)) session raw) }
{
    if session < 1 || 16 < session {
        return Err(Unbuilt::Unresolved);
    }
    let stmt = statement(alloc, schema, raw)?;
    Ok(Line {
        session: session as u8,
        stmt,
    })
}

fn statement(alloc: Global, schema: &Option<Schema>, raw: RawStmt) -> Result<Stmt, Unbuilt>
    requires { AreShallow raw }
    ensures { Gives (λ x. x) result (stmt_of (cols_of (option_map parts_of schema.now)) raw) }
{
    match schema {
        Some(schema) => within(alloc, schema, raw),
        None => stmt(alloc, &[], raw),
    }
}

fn within(alloc: Global, schema: &Schema, raw: RawStmt) -> Result<Stmt, Unbuilt>
    requires { AreShallow raw }
    ensures { Gives (λ x. x) result (stmt_of schema.now.cols raw) }
{
    stmt(alloc, schema.cols.as_slice(), raw)
}

impl Builder {
    /// What no lines make: the options that hold where none is given, no table, and no statements.
    pub fn new(alloc: Global) -> Builder
        ensures { draft result ≡ start }
    {
        Builder {
            options: Options::new(),
            schema: None,
            lines: Seq::new(alloc),
        }
    }

    /// Adds what one more line means. `Unresolved` comes exactly where it means nothing: a name is no column, a literal
    /// no value, or a number or a list outside its limits. A predicate within the limits on nesting and comparisons is
    /// asked for, since what is built is as deep as its tree. The time is near-linear in the line, whose tuples are let go
    /// as their rows are made.
    pub fn take(&mut self, alloc: Global, raw: Raw) -> Result<(), Unbuilt>
        requires { IsShallowLine raw }
        ensures { Gives (λ _. draft self.new) result (drafted (draft self.old) raw) }
    {
        match raw {
            RawOf::Option { name, value } => {
                self.options = with_option(self.options, name.as_slice(), value);
                Ok(())
            }
            RawOf::Create {
                table,
                columns,
                keys,
            } => {
                let made = schema(alloc, table.as_slice(), columns.as_slice(), keys.as_slice())?;
                self.schema = Some(made);
                Ok(())
            }
            RawOf::Session { session, stmt } => {
                let made = line(alloc, &self.schema, session, stmt)?;
                self.lines.add(made)?;
                Ok(())
            }
        }
    }

    /// The script of the lines so far, or `None` where none of them creates the table.
    pub fn finish(self) -> Option<Script>
        ensures { MatchOption result ((draft self).table ≡ None) (λ script. draft self ≡ draft_of script) }
    {
        let Builder {
            options,
            schema,
            lines,
        } = self;
        match schema {
            Some(schema) => Some(Script {
                options,
                schema,
                lines,
            }),
            None => None,
        }
    }
}
