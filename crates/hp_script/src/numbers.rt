//! Single tokens, numbers and lists of numbers.
//!
//! Each function here and in the modules beside it reads from the front of the tokens, and answers what it read with the tokens after it.

ghost use Rattle.std.specs.Prelude.{◌≡◌, ◌<◌, ◌≤◌, length, IfOk};
ghost use Rattle.hp_script.specs.Reading.{Gives, Reads, ReadsBy, LeavesFewer, starts, is_symbol, is_int, number_at, word_at, symbol_at, int_at, ints_at, list_at, optional_list_at, with_front};

use crate::fault::Fault;
use crate::name::{Name, Row};
use crate::token::Token;
use std::alloc::Global;

/// Whether the first token is that symbol.
pub fn begins(tokens: &[Token], symbol: u8) -> bool
    ensures { result ≡ starts (is_symbol symbol) tokens.now }
{
    match tokens {
        [Token::Symbol(first), ..] => *first == symbol,
        _ => false,
    }
}

/// That symbol.
pub fn symbol(tokens: &[Token], symbol: u8) -> Result<&[Token], Fault>
    ensures given { Gives (λ rest. (tt, rest.now)) result (symbol_at symbol tokens.now) }
    ensures shorter { IfOk result (λ rest. length rest.now < length tokens.now) }
{
    match tokens {
        [Token::Symbol(first), rest @ ..] if *first == symbol => Ok(rest),
        _ => Err(Fault::At(tokens.len())),
    }
}

/// A number.
pub fn number(tokens: &[Token]) -> Result<(u64, &[Token]), Fault>
    ensures given { Reads result (number_at tokens.now) }
    ensures shorter { LeavesFewer result tokens.now }
    ensures short { IfOk result (λ x. x.0 < 10000000000) }
{
    match tokens {
        [Token::Number(first), rest @ ..] => Ok((first.value(), rest)),
        _ => Err(Fault::At(tokens.len())),
    }
}

/// A word, as a name.
pub fn word(alloc: Global, tokens: &[Token]) -> Result<(Name, &[Token]), Fault>
    ensures given { Reads result (word_at tokens.now) }
{
    match tokens {
        [Token::Word(first), rest @ ..] => {
            let name = first.copy(alloc)?;
            Ok((name, rest))
        }
        _ => Err(Fault::At(tokens.len())),
    }
}

/// A number, or `-` and a number.
pub fn int(tokens: &[Token]) -> Result<(i64, &[Token]), Fault>
    ensures given { Reads result (int_at tokens.now) }
    ensures shorter { LeavesFewer result tokens.now }
{
    if begins(tokens, b'-') {
        let rest = symbol(tokens, b'-')?;
        let (n, rest) = number(rest)?;
        Ok((-(n as i64), rest))
    } else {
        let (n, rest) = number(tokens)?;
        Ok((n as i64, rest))
    }
}

/// Whether the first token is a number or `-`.
fn starts_int(tokens: &[Token]) -> bool
    ensures { result ≡ starts is_int tokens.now }
{
    match tokens {
        [Token::Number(_), ..] => true,
        [Token::Symbol(first), ..] => *first == b'-',
        _ => false,
    }
}

/// The numbers before, and those that follow.
pub fn ints(mut numbers: Vec<i64>, tokens: &[Token]) -> Result<(Vec<i64>, &[Token]), Fault>
    ensures given { ReadsBy (λ v. v.items) result (with_front numbers.items (ints_at tokens.now)) }
    ensures no_longer { IfOk result (λ x. length x.1.now ≤ length tokens.now) }
{
    let mut rest = tokens;
    'more: while starts_int(rest) {
        let (n, after) = int(rest)?;
        numbers.push(n)?;
        rest = after;
    }
    Ok((numbers, rest))
}

/// A list of numbers in brackets.
pub fn list(alloc: Global, tokens: &[Token]) -> Result<(Row, &[Token]), Fault>
    ensures given { Reads result (list_at tokens.now) }
{
    let rest = symbol(tokens, b'[')?;
    let (numbers, rest) = ints(Vec::new(alloc), rest)?;
    let rest = symbol(rest, b']')?;
    Ok((Row::new(numbers), rest))
}

/// A list of numbers in brackets, where a bracket follows.
pub fn optional_list(alloc: Global, tokens: &[Token]) -> Result<(Option<Row>, &[Token]), Fault>
    ensures given { Reads result (optional_list_at tokens.now) }
{
    if begins(tokens, b'[') {
        let (row, rest) = list(alloc, tokens)?;
        Ok((Some(row), rest))
    } else {
        Ok((None, tokens))
    }
}
