//! Predicates printed as tokens.
ghost use Rattle.std.specs.Prelude.{◌≡◌, ◌++◌, ◌≤◌, List, Some, OnOk, IfOk, map, nat_le};
ghost use Rattle.s2_token.specs.Literals.{literal_words};
ghost use Rattle.s2_value.specs.declared.schemas.Col.{Col};
ghost use Rattle.s2_token.specs.declared.types.Token.TheVariants as token;
ghost use Rattle.s2_pred.specs.Trees.{Tree, IsGrouped, words, rank, list_words, more_words, op_symbol};
ghost use Rattle.s2_pred.specs.Measures.{nesting};
ghost use Rattle.s2_model.specs.Predicates.{Predicate, predicate_of, compared, one_of};
ghost use Rattle.s2_pred.specs.Meaning.{meaning};
ghost use Rattle.s2_pred.specs.Printing.{literal_of, name_at, printed, opening, closing, IsPrintable, IsWritten};

use s2_model::{Condition, Op, Pred};
use s2_token::{Keyword, Symbol, Token};
use s2_value::{Col, Memory, Seq, Value};
use std::alloc::Global;

/// Tokens in order.
pub type TokenList = Seq<Token>;

fn symbol(op: Op) -> Symbol
    ensures { result ≡ op_symbol op }
{
    match op {
        Op::Eq => Symbol::Equal,
        Op::Ne => Symbol::NotEqual,
        Op::Lt => Symbol::Less,
        Op::Le => Symbol::AtMost,
        Op::Gt => Symbol::Greater,
        Op::Ge => Symbol::AtLeast,
    }
}

fn name(alloc: Global, cols: &[Col], place: u8) -> Result<Token, Memory>
    ensures { IfOk result (λ t. t ≡ token.Name (name_at cols.now place)) }
{
    match cols.get(usize::from(place)) {
        Some(col) => Ok(Token::Name(Seq::from_vec(Vec::from_slice(alloc, col.name.bytes())?))),
        None => Ok(Token::Name(Seq::new(alloc))),
    }
}

fn value(alloc: Global, value: &Value, tokens: &mut TokenList) -> Result<(), Memory>
    ensures { OnOk result (tokens.new ≡ tokens.old ++ literal_words (literal_of value.now)) }
{
    match value {
        Value::Int(number) => {
            if *number < 0 {
                tokens.add(Token::Sign(Symbol::Minus))?;
            }
            tokens.add(Token::Number(number.unsigned_abs()))
        }
        Value::Text(text) => {
            let bytes = Vec::from_slice(alloc, text.bytes())?;
            tokens.add(Token::Text(Seq::from_vec(bytes)))
        }
    }
}

fn more_values(alloc: Global, values: &[Value], tokens: &mut TokenList) -> Result<(), Memory>
    ensures { OnOk result (tokens.new ≡ tokens.old ++ more_words (map literal_of values.now)) }
{
    for item in values {
        tokens.add(Token::Sign(Symbol::Comma))?;
        value(alloc, item, tokens)?;
    }
    Ok(())
}

fn values(alloc: Global, values: &[Value], tokens: &mut TokenList) -> Result<(), Memory>
    ensures { OnOk result (tokens.new ≡ tokens.old ++ list_words (map literal_of values.now)) }
{
    match values {
        [first, rest @ ..] => {
            value(alloc, first, tokens)?;
            more_values(alloc, rest, tokens)
        }
        [] => Ok(()),
    }
}

fn rank(pred: &Pred, cols: &[Col]) -> u8
    ensures { result ≡ rank (printed cols.now (predicate_of pred.now)) }
{
    match pred {
        Pred::And(..) => 1,
        Pred::Or(..) => 2,
        _ => 0,
    }
}

fn fits(pred: &Pred, cols: &[Col], most: u8) -> bool
    ensures { result ≡ nat_le (rank (printed cols.now (predicate_of pred.now))) most }
{
    rank(pred, cols) <= most
}

fn open(is_plain: bool, tokens: &mut TokenList) -> Result<(), Memory>
    ensures { OnOk result (tokens.new ≡ tokens.old ++ opening is_plain) }
{
    if !is_plain {
        tokens.add(Token::Sign(Symbol::Open))?;
    }
    Ok(())
}

fn close(is_plain: bool, tokens: &mut TokenList) -> Result<(), Memory>
    ensures { OnOk result (tokens.new ≡ tokens.old ++ closing is_plain) }
{
    if !is_plain {
        tokens.add(Token::Sign(Symbol::Close))?;
    }
    Ok(())
}

fn compared(
    alloc: Global,
    cols: &[Col],
    place: u8,
    op: Op,
    with: &Value,
    tokens: &mut TokenList,
) -> Result<(), Memory>
    ensures { OnOk result (tokens.new ≡ tokens.old ++ words (printed cols.now (compared place op with.now))) }
{
    tokens.add(name(alloc, cols, place)?)?;
    tokens.add(Token::Sign(symbol(op)))?;
    value(alloc, with, tokens)
}

fn one_of(
    alloc: Global,
    cols: &[Col],
    place: u8,
    list: &[Value],
    tokens: &mut TokenList,
) -> Result<(), Memory>
    ensures { OnOk result (tokens.new ≡ tokens.old ++ words (printed cols.now (one_of place list.now))) }
{
    tokens.add(name(alloc, cols, place)?)?;
    tokens.add(Token::Key(Keyword::In))?;
    tokens.add(Token::Sign(Symbol::Open))?;
    values(alloc, list, tokens)?;
    tokens.add(Token::Sign(Symbol::Close))?;
    Ok(())
}

fn print(alloc: Global, cols: &[Col], pred: &Pred, tokens: &mut TokenList) -> Result<(), Memory>
    requires { IsWritten (predicate_of pred.now) }
    ensures { OnOk result (tokens.new ≡ tokens.old ++ words (printed cols.now (predicate_of pred.now))) }
{
    match pred {
        Pred::All => Ok(()),
        Pred::Cmp(place, op, with) => compared(alloc, cols, *place, *op, with, tokens),
        Pred::OneOf(place, list) => one_of(alloc, cols, *place, list.as_slice(), tokens),
        Pred::And(left, right) => {
            let is_plain = fits(left, cols, 1);
            open(is_plain, tokens)?;
            print(alloc, cols, left, tokens)?;
            close(is_plain, tokens)?;
            tokens.add(Token::Key(Keyword::And))?;
            let is_plain = fits(right, cols, 0);
            open(is_plain, tokens)?;
            print(alloc, cols, right, tokens)?;
            close(is_plain, tokens)?;
            Ok(())
        }
        Pred::Or(left, right) => {
            print(alloc, cols, left, tokens)?;
            tokens.add(Token::Key(Keyword::Or))?;
            let is_plain = fits(right, cols, 1);
            open(is_plain, tokens)?;
            print(alloc, cols, right, tokens)?;
            close(is_plain, tokens)?;
            Ok(())
        }
        Pred::Not(inner) => {
            tokens.add(Token::Key(Keyword::Not))?;
            let is_plain = fits(inner, cols, 0);
            open(is_plain, tokens)?;
            print(alloc, cols, inner, tokens)?;
            close(is_plain, tokens)?;
            Ok(())
        }
    }
}

/// Adds the words of a condition, with parentheses only where the grammar would group otherwise.
pub fn print_pred(
    alloc: Global,
    cols: &[Col],
    condition: &Condition,
    tokens: &mut TokenList,
) -> Result<(), Memory>
    requires { IsWritten condition.now }
    ensures { OnOk result (tokens.new ≡ tokens.old ++ words (printed cols.now condition.now)) }
{
    print(alloc, cols, condition.pred(), tokens)
}

/// What is printed is a predicate of the grammar, means the same, and nests no deeper than any text of this meaning. What a
/// predicate of the grammar means can be printed.
pub fn printed_reads_back()
    ensures grouped { (cols : List Col) (p : Predicate) → IsPrintable cols p → IsGrouped (printed cols p) }
    ensures same { (cols : List Col) (p : Predicate) → IsPrintable cols p → meaning cols (printed cols p) ≡ Some p }
    ensures printable { (cols : List Col) (p : Predicate) (tree : Tree) → IsGrouped tree → meaning cols tree ≡ Some p → IsPrintable cols p }
    ensures no_deeper { (cols : List Col) (p : Predicate) (tree : Tree) → IsGrouped tree → meaning cols tree ≡ Some p → nesting (printed cols p) ≤ nesting tree }
{}
