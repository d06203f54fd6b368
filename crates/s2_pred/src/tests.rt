use super::*;
use s2_model::{Condition, Op, Pred};
use s2_token::{Bytes, Keyword, Symbol, Token};
use s2_value::{Col, ColType, Memory, Name, Seq, Value};
use std::alloc::Global;
use std::test::Fail;

fn bytes(alloc: Global, text: &str) -> Result<Bytes, Memory> {
    Ok(Seq::from_vec(Vec::from_slice(alloc, text.as_bytes())?))
}

fn equals(alloc: Global, tokens: &mut Vec<Token>, column: &str, number: u64) -> Result<(), Fail> {
    tokens.push(Token::Name(bytes(alloc, column)?))?;
    tokens.push(Token::Sign(Symbol::Equal))?;
    tokens.push(Token::Number(number))?;
    Ok(())
}

fn either_in_parentheses(alloc: Global) -> Result<Vec<Token>, Fail> {
    let mut tokens = Vec::new(alloc);
    tokens.push(Token::Key(Keyword::Not))?;
    tokens.push(Token::Sign(Symbol::Open))?;
    equals(alloc, &mut tokens, "a", 1)?;
    tokens.push(Token::Key(Keyword::Or))?;
    equals(alloc, &mut tokens, "b", 2)?;
    tokens.push(Token::Sign(Symbol::Close))?;
    Ok(tokens)
}

fn two_values(alloc: Global) -> Result<Vec<Token>, Fail> {
    let mut tokens = Vec::new(alloc);
    tokens.push(Token::Name(bytes(alloc, "c")?))?;
    tokens.push(Token::Key(Keyword::In))?;
    tokens.push(Token::Sign(Symbol::Open))?;
    tokens.push(Token::Text(bytes(alloc, "x")?))?;
    tokens.push(Token::Sign(Symbol::Comma))?;
    tokens.push(Token::Sign(Symbol::Minus))?;
    tokens.push(Token::Number(3))?;
    tokens.push(Token::Sign(Symbol::Close))?;
    Ok(tokens)
}

#[test]
fn nesting_counts_not_and_parentheses(rt: HostRuntime) -> Result<(), Fail> {
    let tokens = either_in_parentheses(rt.alloc())?;
    let written = pred(rt.alloc(), &tokens)?;
    assert_eq!(rt; written.nesting(rt.alloc())?, 2);
    assert_eq!(rt; written.comparisons(), 2);
    assert_eq!(rt; written.tests().len(), 2);
    Ok(())
}

#[test]
fn each_value_of_in_counts(rt: HostRuntime) -> Result<(), Fail> {
    let tokens = two_values(rt.alloc())?;
    let written = pred(rt.alloc(), &tokens)?;
    assert_eq!(rt; written.nesting(rt.alloc())?, 0);
    assert_eq!(rt; written.comparisons(), 2);
    assert_eq!(rt; written.tests().len(), 1);
    Ok(())
}

#[test]
fn an_open_parenthesis_is_no_predicate(rt: HostRuntime) -> Result<(), Fail> {
    let mut tokens = either_in_parentheses(rt.alloc())?;
    let _last = tokens.pop();
    let refused = pred(rt.alloc(), &tokens).err();
    assert_eq!(rt; refused, Some(Fault::Syntax));
    Ok(())
}

fn deep(alloc: Global, depth: usize) -> Result<Vec<Token>, Fail> {
    let mut tokens = Vec::new(alloc);
    for _ in 0..depth {
        tokens.push(Token::Key(Keyword::Not))?;
        tokens.push(Token::Sign(Symbol::Open))?;
    }
    equals(alloc, &mut tokens, "a", 1)?;
    for _ in 0..depth {
        tokens.push(Token::Sign(Symbol::Close))?;
    }
    Ok(tokens)
}

#[test]
fn a_million_deep(rt: HostRuntime) -> Result<(), Fail> {
    let tokens = deep(rt.alloc(), 500_000)?;
    let written = pred(rt.alloc(), &tokens)?;
    assert_eq!(rt; written.nesting(rt.alloc())?, 1_000_000);
    Ok(())
}

fn number_columns(alloc: Global) -> Result<Vec<Col>, Fail> {
    let mut cols = Vec::new(alloc);
    cols.push(Col {
        name: Name::new(alloc, b"a")?,
        kind: ColType::Int,
    })?;
    cols.push(Col {
        name: Name::new(alloc, b"b")?,
        kind: ColType::Int,
    })?;
    Ok(cols)
}

#[test]
fn builds_with_places(rt: HostRuntime) -> Result<(), Fail> {
    let tokens = either_in_parentheses(rt.alloc())?;
    let cols = number_columns(rt.alloc())?;
    let written = pred(rt.alloc(), &tokens)?;
    assert!(rt; cols.len() <= 16);
    assert!(rt; written.nesting(rt.alloc())? <= 16);
    assert!(rt; written.comparisons() <= 64);
    let built = written.build(rt.alloc(), &cols)?;
    assert!(rt; matches!(built.pred(), Pred::Not(_)));
    Ok(())
}

#[test]
fn prints_a_negative_number(rt: HostRuntime) -> Result<(), Fail> {
    let cols = number_columns(rt.alloc())?;
    let mut printed = Seq::new(rt.alloc());
    let shown = Condition::new(rt.alloc(), Pred::Cmp(1, Op::Le, Value::Int(-5)))?;
    print_pred(rt.alloc(), &cols, &shown, &mut printed)?;
    assert_eq!(rt; printed.len(), 4);
    Ok(())
}
