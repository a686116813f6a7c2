//! The words that commands, builds and limits begin with.

ghost use Rattle.std.specs.Prelude.{◌≡◌};
ghost use Rattle.hp_script.specs.Reading.{Reads, named, topics, leads, shapes, limits, keyword_of, keyword_in, word_of, token_at};

use crate::fault::Fault;
use crate::token::Token;

/// The word of a question.
#[derive(Clone, Copy, Drop)]
pub enum Topic {
    Hyperplanes,
    Point,
    Rank,
    Flats,
    Poincare,
    Characteristic,
    Triple,
    Circuits,
    Nbc,
    Normal,
    Aomoto,
    Gb,
    Der,
    Resolve,
    Free,
}

/// The word that a command begins with.
#[derive(Clone, Copy, Drop)]
pub enum Keyword {
    Field,
    Let,
    Limit,
    Ask(Topic),
}

/// The word that a build begins with.
#[derive(Clone, Copy, Drop)]
pub enum Shape {
    Forms,
    Cone,
    TypeA,
    TypeB,
    TypeD,
    Boolean,
    Graphic,
    Delete,
    Restrict,
}

/// The word that says which limit.
#[derive(Clone, Copy, Drop)]
pub enum Limit {
    Pairs,
    Degree,
}

/// The topic that the word names.
fn topic_of(word: &[u8]) -> Option<Topic>
    ensures { result ≡ named topics word.now }
{
    if word == b"hyperplanes".as_slice() {
        Some(Topic::Hyperplanes)
    } else if word == b"point".as_slice() {
        Some(Topic::Point)
    } else if word == b"rank".as_slice() {
        Some(Topic::Rank)
    } else if word == b"flats".as_slice() {
        Some(Topic::Flats)
    } else if word == b"poincare".as_slice() {
        Some(Topic::Poincare)
    } else if word == b"characteristic".as_slice() {
        Some(Topic::Characteristic)
    } else if word == b"triple".as_slice() {
        Some(Topic::Triple)
    } else if word == b"circuits".as_slice() {
        Some(Topic::Circuits)
    } else if word == b"nbc".as_slice() {
        Some(Topic::Nbc)
    } else if word == b"normal".as_slice() {
        Some(Topic::Normal)
    } else if word == b"aomoto".as_slice() {
        Some(Topic::Aomoto)
    } else if word == b"gb".as_slice() {
        Some(Topic::Gb)
    } else if word == b"der".as_slice() {
        Some(Topic::Der)
    } else if word == b"resolve".as_slice() {
        Some(Topic::Resolve)
    } else if word == b"free".as_slice() {
        Some(Topic::Free)
    } else {
        None
    }
}

/// The beginning of a command that the word names, where it is no question.
fn lead_of(word: &[u8]) -> Option<Keyword>
    ensures { result ≡ named leads word.now }
{
    if word == b"field".as_slice() {
        Some(Keyword::Field)
    } else if word == b"let".as_slice() {
        Some(Keyword::Let)
    } else if word == b"limit".as_slice() {
        Some(Keyword::Limit)
    } else {
        None
    }
}

/// The beginning of a command that the word names.
fn keyword_of(word: &[u8]) -> Option<Keyword>
    ensures { result ≡ keyword_of word.now }
{
    match lead_of(word) {
        Some(keyword) => Some(keyword),
        None => match topic_of(word) {
            Some(topic) => Some(Keyword::Ask(topic)),
            None => None,
        },
    }
}

/// The word of a command.
pub fn first_word(tokens: &[Token]) -> Result<(Keyword, &[Token]), Fault>
    ensures given { Reads result (token_at keyword_in tokens.now) }
{
    match tokens {
        [Token::Word(first), rest @ ..] => match keyword_of(first.bytes()) {
            Some(keyword) => Ok((keyword, rest)),
            None => Err(Fault::At(tokens.len())),
        },
        _ => Err(Fault::At(tokens.len())),
    }
}

/// The shape that the word names.
fn shape_of(word: &[u8]) -> Option<Shape>
    ensures { result ≡ named shapes word.now }
{
    if word == b"forms".as_slice() {
        Some(Shape::Forms)
    } else if word == b"cone".as_slice() {
        Some(Shape::Cone)
    } else if word == b"typeA".as_slice() {
        Some(Shape::TypeA)
    } else if word == b"typeB".as_slice() {
        Some(Shape::TypeB)
    } else if word == b"typeD".as_slice() {
        Some(Shape::TypeD)
    } else if word == b"boolean".as_slice() {
        Some(Shape::Boolean)
    } else if word == b"graphic".as_slice() {
        Some(Shape::Graphic)
    } else if word == b"delete".as_slice() {
        Some(Shape::Delete)
    } else if word == b"restrict".as_slice() {
        Some(Shape::Restrict)
    } else {
        None
    }
}

/// The word of a build.
pub fn shape_word(tokens: &[Token]) -> Result<(Shape, &[Token]), Fault>
    ensures given { Reads result (token_at (word_of shapes) tokens.now) }
{
    match tokens {
        [Token::Word(first), rest @ ..] => match shape_of(first.bytes()) {
            Some(shape) => Ok((shape, rest)),
            None => Err(Fault::At(tokens.len())),
        },
        _ => Err(Fault::At(tokens.len())),
    }
}

/// The limit that the word names.
fn limit_of(word: &[u8]) -> Option<Limit>
    ensures { result ≡ named limits word.now }
{
    if word == b"pairs".as_slice() {
        Some(Limit::Pairs)
    } else if word == b"degree".as_slice() {
        Some(Limit::Degree)
    } else {
        None
    }
}

/// The word that says which limit.
pub fn limit_word(tokens: &[Token]) -> Result<(Limit, &[Token]), Fault>
    ensures given { Reads result (token_at (word_of limits) tokens.now) }
{
    match tokens {
        [Token::Word(first), rest @ ..] => match limit_of(first.bytes()) {
            Some(limit) => Ok((limit, rest)),
            None => Err(Fault::At(tokens.len())),
        },
        _ => Err(Fault::At(tokens.len())),
    }
}
