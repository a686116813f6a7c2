//! The command that the tokens of a line spell.

ghost use Rattle.std.specs.Prelude.{◌≡◌, IfOk, IfErr};
ghost use Rattle.hp_script.specs.Grammar.{Spells};
ghost use Rattle.hp_script.specs.Reading.{Gives, Reads, question_at, rest_at, command_at, StopsWith};

use crate::builds::build;
use crate::command::{Command, Question};
use crate::expressions::expression;
use crate::fault::Fault;
use crate::numbers::{list, number, optional_list, symbol, word};
use crate::token::Token;
use crate::words::{Keyword, Limit, Topic, first_word, limit_word};
use std::alloc::Global;

/// What follows the name in a question of that topic.
fn question(alloc: Global, topic: Topic, tokens: &[Token]) -> Result<(Question, &[Token]), Fault>
    ensures given { Reads result (question_at topic tokens.now) }
{
    match topic {
        Topic::Hyperplanes => Ok((Question::Hyperplanes, tokens)),
        Topic::Point => Ok((Question::Point, tokens)),
        Topic::Rank => Ok((Question::Rank, tokens)),
        Topic::Flats => Ok((Question::Flats, tokens)),
        Topic::Poincare => Ok((Question::Poincare, tokens)),
        Topic::Characteristic => Ok((Question::Characteristic, tokens)),
        Topic::Triple => {
            let (n, rest) = number(tokens)?;
            Ok((Question::Triple(n), rest))
        }
        Topic::Circuits => Ok((Question::Circuits, tokens)),
        Topic::Nbc => Ok((Question::Nbc, tokens)),
        Topic::Normal => {
            let (products, rest) = expression(alloc, tokens)?;
            Ok((Question::Normal(products), rest))
        }
        Topic::Aomoto => {
            let (row, rest) = list(alloc, tokens)?;
            Ok((Question::Aomoto(row), rest))
        }
        Topic::Gb => {
            let (row, rest) = optional_list(alloc, tokens)?;
            Ok((Question::Gb(row), rest))
        }
        Topic::Der => {
            let (row, rest) = optional_list(alloc, tokens)?;
            Ok((Question::Der(row), rest))
        }
        Topic::Resolve => {
            let (row, rest) = optional_list(alloc, tokens)?;
            Ok((Question::Resolve(row), rest))
        }
        Topic::Free => {
            let (row, rest) = optional_list(alloc, tokens)?;
            Ok((Question::Free(row), rest))
        }
    }
}

/// What follows the word that a command begins with.
fn rest_of(alloc: Global, keyword: Keyword, tokens: &[Token]) -> Result<(Command, &[Token]), Fault>
    ensures given { Reads result (rest_at keyword tokens.now) }
{
    match keyword {
        Keyword::Field => {
            let (n, rest) = number(tokens)?;
            Ok((Command::Field(n), rest))
        }
        Keyword::Let => {
            let (name, rest) = word(alloc, tokens)?;
            let rest = symbol(rest, b'=')?;
            let (build, rest) = build(alloc, rest)?;
            Ok((Command::Let(name, build), rest))
        }
        Keyword::Limit => {
            let (limit, rest) = limit_word(tokens)?;
            let (n, rest) = number(rest)?;
            match limit {
                Limit::Pairs => Ok((Command::LimitPairs(n), rest)),
                Limit::Degree => Ok((Command::LimitDegree(n), rest)),
            }
        }
        Keyword::Ask(topic) => {
            let (name, rest) = word(alloc, tokens)?;
            let (question, rest) = question(alloc, topic, rest)?;
            Ok((Command::Ask(name, question), rest))
        }
    }
}

/// The command of all the tokens. It is refused at the first token that is left behind a command.
fn read(alloc: Global, tokens: &[Token]) -> Result<Command, Fault>
    ensures given { Gives (λ c. c) result (command_at tokens.now) }
{
    let (keyword, rest) = first_word(tokens)?;
    let (command, rest) = rest_of(alloc, keyword, rest)?;
    if rest.is_empty() {
        Ok(command)
    } else {
        Err(Fault::At(rest.len()))
    }
}

/// The command that the tokens spell, or where they stop being one.
pub fn spelled(alloc: Global, tokens: &[Token]) -> Result<Command, Fault>
    ensures found { IfOk result (λ c. Spells tokens.now c) }
    ensures stopped { IfErr result (λ e. StopsWith tokens.now e) }
{
    read(alloc, tokens)
}
