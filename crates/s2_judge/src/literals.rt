//! A question asked of each literal of a statement.
ghost use Rattle.std.specs.Prelude.{◌≡◌, Bool, flat_map};
ghost use Rattle.std.specs.List.{list_any};
ghost use Rattle.s2_token.specs.declared.types.Literal.{Literal as AnyLiteral};
ghost use Rattle.s2_judge.specs.Kinds.{test_literals, term_literals, own_literals, literals_of};

use crate::statements::tests_of;
use s2_line::{RawSet, RawStmt, RawStmtOf, RawTerm, Tuple};
use s2_pred::Test;
use s2_token::Literal;

/// A question about a literal.
pub trait Question {
    /// Its answer.
    ghost answer: { AnyLiteral → Bool };

    /// Asks it.
    fn ask(literal: &Literal) -> bool
        ensures { result ≡ answer literal.now };
}

fn in_list<Q: Question>(literals: &[Literal]) -> bool
    ensures { result ≡ list_any Q.answer literals.now }
{
    literals.iter().any(|literal| Q::ask(literal))
}

fn in_tuples<Q: Question>(tuples: &[Tuple]) -> bool
    ensures { result ≡ list_any (λ xs. list_any Q.answer xs) tuples.now }
{
    tuples.iter().any(|tuple| in_list::<Q>(tuple.as_slice()))
}

fn in_term<Q: Question>(term: &RawTerm) -> bool
    ensures { result ≡ list_any Q.answer (term_literals term.now) }
{
    match term {
        RawTerm::Literal(literal) => Q::ask(literal),
        RawTerm::Column(_) => false,
        RawTerm::Sum { negative, size, .. } => {
            let number = Literal::Number {
                negative: *negative,
                size: *size,
            };
            Q::ask(&number)
        }
    }
}

fn in_sets<Q: Question>(sets: &[RawSet]) -> bool
    ensures { result ≡ list_any (λ s. list_any Q.answer (term_literals s.term)) sets.now }
{
    sets.iter().any(|set| in_term::<Q>(&set.term))
}

fn in_test<Q: Question>(test: &Test) -> bool
    ensures { result ≡ list_any Q.answer (test_literals test.now) }
{
    match test {
        Test::Compare { literal, .. } => Q::ask(literal),
        Test::OneOf { literals, .. } => in_list::<Q>(literals.as_slice()),
    }
}

fn in_tests<Q: Question>(tests: &[Test]) -> bool
    ensures { result ≡ list_any (λ t. list_any Q.answer (test_literals t)) tests.now }
{
    tests.iter().any(|test| in_test::<Q>(test))
}

#[tactic(auto, using(crate::proofs::Walks::list_any_flat_map))]
fn in_own<Q: Question>(stmt: &RawStmt) -> bool
    ensures { result ≡ list_any Q.answer (own_literals stmt.now) }
{
    match stmt {
        RawStmtOf::Insert { tuples, .. } => in_tuples::<Q>(tuples.as_slice()),
        RawStmtOf::Update { sets, .. } => in_sets::<Q>(sets.as_slice()),
        _ => false,
    }
}

/// Whether the answer is yes for one of the statement's literals.
#[tactic(auto, using(crate::proofs::Walks::list_any_flat_map, crate::proofs::Walks::list_any_append))]
pub fn in_literals<Q: Question>(stmt: &RawStmt) -> bool
    ensures { result ≡ list_any Q.answer (literals_of stmt.now) }
{
    in_own::<Q>(stmt) || in_tests::<Q>(tests_of(stmt))
}
