//! A question asked of each column that a statement names.
ghost use Rattle.std.specs.Prelude.{◌≡◌, ℕ, Bool, List, map};
ghost use Rattle.std.specs.List.{list_any};
ghost use Rattle.s2_judge.specs.Kinds.{test_column, term_columns, set_columns, item_columns, agg_columns, own_columns, columns_of};

use crate::statements::tests_of;
use s2_line::{RawAgg, RawBy, RawItems, RawSet, RawStmt, RawStmtOf, RawTerm};
use s2_pred::Test;
use s2_token::Bytes;

/// A question about a name.
pub trait NameQuestion {
    /// Its answer.
    ghost answer: { Self → List ℕ → Bool };

    /// Asks it.
    fn ask(&self, name: &[u8]) -> bool
        ensures { result ≡ answer self.now name.now };
}

fn in_term<Q: NameQuestion>(question: &Q, term: &RawTerm) -> bool
    ensures { result ≡ list_any (Q.answer question.now) (term_columns term.now) }
{
    match term {
        RawTerm::Literal(_) => false,
        RawTerm::Column(name) => question.ask(name.as_slice()),
        RawTerm::Sum { name, .. } => question.ask(name.as_slice()),
    }
}

fn in_set<Q: NameQuestion>(question: &Q, set: &RawSet) -> bool
    ensures { result ≡ list_any (Q.answer question.now) (set_columns set.now) }
{
    question.ask(set.name.as_slice()) || in_term(question, &set.term)
}

fn in_sets<Q: NameQuestion>(question: &Q, sets: &[RawSet]) -> bool
    ensures { result ≡ list_any (λ s. list_any (Q.answer question.now) (set_columns s)) sets.now }
{
    sets.iter().any(|set| in_set(question, set))
}

/// Whether the answer is yes for one of the names.
pub fn in_names<Q: NameQuestion>(question: &Q, names: &[Bytes]) -> bool
    ensures { result ≡ list_any (Q.answer question.now) names.now }
{
    names.iter().any(|name| question.ask(name.as_slice()))
}

fn in_items<Q: NameQuestion>(question: &Q, items: &RawItems) -> bool
    ensures { result ≡ list_any (Q.answer question.now) (item_columns items.now) }
{
    match items {
        RawItems::Star => false,
        RawItems::Columns(names) => in_names(question, names.as_slice()),
    }
}

fn in_order<Q: NameQuestion>(question: &Q, order: &[RawBy]) -> bool
    ensures { result ≡ list_any (λ b. Q.answer question.now b.name) order.now }
{
    order.iter().any(|by| question.ask(by.name.as_slice()))
}

fn in_aggregate<Q: NameQuestion>(question: &Q, aggregate: &RawAgg) -> bool
    ensures { result ≡ list_any (Q.answer question.now) (agg_columns aggregate.now) }
{
    match aggregate {
        RawAgg::Count => false,
        RawAgg::Of { name, .. } => question.ask(name.as_slice()),
    }
}

fn in_aggregates<Q: NameQuestion>(question: &Q, aggregates: &[RawAgg]) -> bool
    ensures { result ≡ list_any (λ a. list_any (Q.answer question.now) (agg_columns a)) aggregates.now }
{
    aggregates
        .iter()
        .any(|aggregate| in_aggregate(question, aggregate))
}

#[tactic(auto, using(crate::proofs::Walks::list_any_flat_map, crate::proofs::Walks::list_any_append, crate::proofs::Walks::list_any_map))]
fn in_own<Q: NameQuestion>(question: &Q, stmt: &RawStmt) -> bool
    ensures { result ≡ list_any (Q.answer question.now) (own_columns stmt.now) }
{
    match stmt {
        RawStmtOf::Update { sets, .. } => in_sets(question, sets.as_slice()),
        RawStmtOf::Select { items, order, .. } => {
            in_items(question, items) || in_order(question, order.as_slice())
        }
        RawStmtOf::Aggregate { aggregates, .. } => in_aggregates(question, aggregates.as_slice()),
        _ => false,
    }
}

/// The column of a test.
pub fn column_of(test: &Test) -> &[u8]
    ensures { result.now ≡ test_column test.now }
{
    match test {
        Test::Compare { column, .. } => column.as_slice(),
        Test::OneOf { column, .. } => column.as_slice(),
    }
}

fn in_tests<Q: NameQuestion>(question: &Q, tests: &[Test]) -> bool
    ensures { result ≡ list_any (λ t. Q.answer question.now (test_column t)) tests.now }
{
    tests.iter().any(|test| question.ask(column_of(test)))
}

/// Whether the answer is yes for one of the columns that the statement names.
#[tactic(auto, using(crate::proofs::Walks::list_any_append, crate::proofs::Walks::list_any_map))]
pub fn in_columns<Q: NameQuestion>(question: &Q, stmt: &RawStmt) -> bool
    ensures { result ≡ list_any (Q.answer question.now) (columns_of stmt.now) }
{
    in_own(question, stmt) || in_tests(question, tests_of(stmt))
}
