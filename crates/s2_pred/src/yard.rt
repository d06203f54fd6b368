//! The machine that groups signs: what is open, and the postfix form of what was read.
ghost use Rattle.std.specs.Prelude.{◌≡◌, ◌++◌, None, Some, OnOk, IfOk, IsErrOf, replicate};
ghost use Rattle.s2_pred.specs.declared.types.Join.TheVariants as join;
ghost use Rattle.s2_pred.specs.Yards.{fresh, start, settled, taken, operand_taken, joiner_taken, closed, done, with_or};

use crate::stacks::Stack;
use crate::types::Sign;
use crate::{Fault, Join, Test};
use s2_value::{Memory, Seq};
use std::alloc::Global;

/// What waits for its right side inside one pair of parentheses, from the outside in: an OR, an AND, then NOTs.
#[derive(Clone, Copy, Debug)]
pub(crate) struct Level {
    pub either: bool,
    pub both: bool,
    pub nots: u64,
}

/// The reader's state. Where it wants an operand, the level's NOTs and its AND wait for it.
#[derive(Debug, Drop)]
pub(crate) struct Yard {
    pub wants: bool,
    pub level: Level,
    pub outer: Stack<Level>,
    pub joins: Seq<Join>,
    pub tests: Seq<Test>,
}

fn fresh_level() -> Level
    ensures { result ≡ fresh }
{
    Level {
        either: false,
        both: false,
        nots: 0,
    }
}

fn add_nots(joins: &mut Seq<Join>, times: u64) -> Result<(), Memory>
    ensures { OnOk result (joins.new ≡ joins.old ++ replicate times join.Not) }
{
    for _turn in 0..times {
        joins.add(Join::Not)?;
    }
    Ok(())
}

fn add_or(joins: &mut Seq<Join>, either: bool) -> Result<(), Memory>
    ensures { OnOk result (joins.new ≡ with_or either joins.old) }
{
    if either {
        joins.add(Join::Or)?;
    }
    Ok(())
}

impl Yard {
    /// The state before the first sign.
    pub fn new(alloc: Global) -> Yard
        ensures { result ≡ start }
    {
        Yard {
            wants: true,
            level: fresh_level(),
            outer: Stack::new(alloc),
            joins: Seq::new(alloc),
            tests: Seq::new(alloc),
        }
    }

    /// An operand is whole: the NOTs and the AND that waited for it take it.
    fn settle(&mut self, made: Join) -> Result<(), Memory>
        ensures { OnOk result (self.new ≡ settled self.old made) }
    {
        self.joins.add(made)?;
        add_nots(&mut self.joins, self.level.nots)?;
        if self.level.both {
            self.joins.add(Join::And)?;
        }
        self.level.both = false;
        self.level.nots = 0;
        self.wants = false;
        Ok(())
    }

    fn negate(&mut self) -> Result<(), Fault>
        ensures ok { OnOk result (operand_taken self.old Sign.Not ≡ Some self.new) }
        ensures syntax { IsErrOf result Fault.Syntax → operand_taken self.old Sign.Not ≡ None }
    {
        match self.level.nots.checked_add(1) {
            Some(nots) => {
                self.level.nots = nots;
                Ok(())
            }
            None => Err(Fault::Memory),
        }
    }

    fn open(&mut self) -> Result<(), Memory>
        ensures { OnOk result (operand_taken self.old Sign.Open ≡ Some self.new) }
    {
        self.outer.push(self.level)?;
        self.level = fresh_level();
        Ok(())
    }

    fn test(&mut self, test: Test) -> Result<(), Memory>
        ensures { OnOk result (operand_taken self.old (Sign.Test test) ≡ Some self.new) }
    {
        self.tests.add(test)?;
        self.settle(Join::Test)
    }

    fn operand(&mut self, sign: Sign) -> Result<(), Fault>
        ensures ok { OnOk result (operand_taken self.old sign ≡ Some self.new) }
        ensures syntax { IsErrOf result Fault.Syntax → operand_taken self.old sign ≡ None }
    {
        match sign {
            Sign::Test(test) => {
                self.test(test)?;
                Ok(())
            }
            Sign::Not => self.negate(),
            Sign::Open => {
                self.open()?;
                Ok(())
            }
            Sign::And => Err(Fault::Syntax),
            Sign::Or => Err(Fault::Syntax),
            Sign::Close => Err(Fault::Syntax),
        }
    }

    fn either(&mut self) -> Result<(), Memory>
        ensures { OnOk result (joiner_taken self.old Sign.Or ≡ Some self.new) }
    {
        add_or(&mut self.joins, self.level.either)?;
        self.level.either = true;
        self.wants = true;
        Ok(())
    }

    fn close(&mut self) -> Result<(), Fault>
        ensures ok { OnOk result (closed self.old self.old.outer ≡ Some self.new) }
        ensures syntax { IsErrOf result Fault.Syntax → closed self.old self.old.outer ≡ None }
    {
        match self.outer.pop() {
            Some(level) => {
                add_or(&mut self.joins, self.level.either)?;
                self.level = level;
                self.settle(Join::Paren)?;
                Ok(())
            }
            None => Err(Fault::Syntax),
        }
    }

    fn joiner(&mut self, sign: Sign) -> Result<(), Fault>
        ensures ok { OnOk result (joiner_taken self.old sign ≡ Some self.new) }
        ensures syntax { IsErrOf result Fault.Syntax → joiner_taken self.old sign ≡ None }
    {
        match sign {
            Sign::And => {
                self.level.both = true;
                self.wants = true;
                Ok(())
            }
            Sign::Or => {
                self.either()?;
                Ok(())
            }
            Sign::Close => self.close(),
            Sign::Not => Err(Fault::Syntax),
            Sign::Open => Err(Fault::Syntax),
            Sign::Test(_) => Err(Fault::Syntax),
        }
    }

    /// Takes the next sign.
    pub fn take(&mut self, sign: Sign) -> Result<(), Fault>
        ensures ok { OnOk result (taken self.old sign ≡ Some self.new) }
        ensures syntax { IsErrOf result Fault.Syntax → taken self.old sign ≡ None }
    {
        if self.wants {
            self.operand(sign)
        } else {
            self.joiner(sign)
        }
    }

    /// The postfix form and the tests, where the signs end here.
    pub fn finish(self) -> Result<(Seq<Join>, Seq<Test>), Fault>
        ensures ok { IfOk result (λ p. done self ≡ Some p) }
        ensures syntax { IsErrOf result Fault.Syntax → done self ≡ None }
    {
        let Yard {
            wants,
            level,
            mut outer,
            mut joins,
            tests,
        } = self;
        if wants {
            return Err(Fault::Syntax);
        }
        match outer.pop() {
            Some(_) => Err(Fault::Syntax),
            None => {
                add_or(&mut joins, level.either)?;
                Ok((joins, tests))
            }
        }
    }
}
