//! Rows of numbers, and edges.

ghost use Rattle.std.specs.Prelude.{◌≡◌, ◌<◌, length, IfOk};
ghost use Rattle.hp_script.specs.Reading.{Reads, ReadsBy, LeavesFewer, starts, is_number, row_at, later_row_at, later_rows_at, some_rows_at, rows_at, edge_at, more_edges_at, edges_at, with_front};

use crate::fault::Fault;
use crate::name::Row;
use crate::numbers::{begins, int, ints, number, symbol};
use crate::token::Token;
use hp_algebra::List;
use std::alloc::Global;

/// A row: one number or more.
fn row(alloc: Global, tokens: &[Token]) -> Result<(Row, &[Token]), Fault>
    ensures given { Reads result (row_at tokens.now) }
    ensures shorter { LeavesFewer result tokens.now }
{
    let (n, rest) = int(tokens)?;
    let mut numbers = Vec::new(alloc);
    numbers.push(n)?;
    let (numbers, rest) = ints(numbers, rest)?;
    Ok((Row::new(numbers), rest))
}

/// `,` and a row.
fn later_row(alloc: Global, tokens: &[Token]) -> Result<(Row, &[Token]), Fault>
    ensures given { Reads result (later_row_at tokens.now) }
    ensures shorter { LeavesFewer result tokens.now }
{
    let rest = symbol(tokens, b',')?;
    row(alloc, rest)
}

/// The rows before, and those that follow behind `,`.
fn later_rows(
    alloc: Global,
    mut rows: Vec<Row>,
    tokens: &[Token],
) -> Result<(Vec<Row>, &[Token]), Fault>
    ensures given { ReadsBy (λ v. v.items) result (with_front rows.items (later_rows_at tokens.now)) }
{
    let mut rest = tokens;
    'more: while begins(rest, b',') {
        let (row, after) = later_row(alloc, rest)?;
        rows.push(row)?;
        rest = after;
    }
    Ok((rows, rest))
}

/// One row or more with commas between them, and the closing bracket.
fn some_rows(alloc: Global, tokens: &[Token]) -> Result<(List<Row>, &[Token]), Fault>
    ensures given { Reads result (some_rows_at tokens.now) }
{
    let (first, rest) = row(alloc, tokens)?;
    let mut rows = Vec::new(alloc);
    rows.push(first)?;
    let (rows, rest) = later_rows(alloc, rows, rest)?;
    let rest = symbol(rest, b']')?;
    Ok((List::of(rows), rest))
}

/// Rows in brackets, with commas between them.
pub fn rows(alloc: Global, tokens: &[Token]) -> Result<(List<Row>, &[Token]), Fault>
    ensures given { Reads result (rows_at tokens.now) }
{
    let rest = symbol(tokens, b'[')?;
    if begins(rest, b']') {
        let rest = symbol(rest, b']')?;
        Ok((List::of(Vec::new(alloc)), rest))
    } else {
        some_rows(alloc, rest)
    }
}

/// Whether the first token is a number.
fn starts_number(tokens: &[Token]) -> bool
    ensures { result ≡ starts is_number tokens.now }
{
    match tokens {
        [Token::Number(_), ..] => true,
        _ => false,
    }
}

/// An edge: two numbers with `-` between them.
fn edge(tokens: &[Token]) -> Result<((u64, u64), &[Token]), Fault>
    ensures given { Reads result (edge_at tokens.now) }
    ensures shorter { LeavesFewer result tokens.now }
{
    let (from, rest) = number(tokens)?;
    let rest = symbol(rest, b'-')?;
    let (to, rest) = number(rest)?;
    Ok(((from, to), rest))
}

/// The edges before, and those that follow.
#[tactic(auto, using(crate::proofs::Loop::goes_on))]
fn more_edges(
    mut edges: Vec<(u64, u64)>,
    tokens: &[Token],
) -> Result<(Vec<(u64, u64)>, &[Token]), Fault>
    ensures given { ReadsBy (λ v. v.items) result (with_front edges.items (more_edges_at tokens.now)) }
{
    let mut rest = tokens;
    'more: while starts_number(rest) {
        let (edge, after) = edge(rest)?;
        edges.push(edge)?;
        rest = after;
    }
    Ok((edges, rest))
}

/// Edges in brackets, each as two numbers with `-` between them.
pub fn edges(alloc: Global, tokens: &[Token]) -> Result<(List<(u64, u64)>, &[Token]), Fault>
    ensures given { Reads result (edges_at tokens.now) }
{
    let rest = symbol(tokens, b'[')?;
    let (edges, rest) = more_edges(Vec::new(alloc), rest)?;
    let rest = symbol(rest, b']')?;
    Ok((List::of(edges), rest))
}
