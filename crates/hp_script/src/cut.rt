//! Cuts a line into tokens.

ghost use Rattle.std.specs.Prelude.{◌≡◌, ◌≤◌, ◌<◌, ◌+◌, length, drop, true, IfOk, List, ℕ};
ghost use Rattle.std.specs.List.{list_all, take_while};
ghost use Rattle.hp_script.specs.Tokens.{is_digit, is_letter, goes_on_word, is_blank, is_mark, digits_token};
ghost use Rattle.hp_script.specs.Cut.{is_more, starts_blank, text_at, IsText, token_in, IsCut};

use crate::digits::{is_digit, number_of};
use crate::name::Name;
use crate::script::MAX_BYTES;
use crate::token::{Number, Token};
use hp_algebra::NoMem;
use std::alloc::Global;

/// The columns of a token's first byte, and of the place after its last one.
#[derive(Clone, Copy, Drop)]
pub struct Place {
    pub first: u32,
    pub after: u32,
}

/// Whether the byte is A to Z or a to z.
fn is_letter(b: u8) -> bool
    ensures { result ≡ is_letter b }
{
    (65 <= b && b <= 90) || (97 <= b && b <= 122)
}

/// Whether a word goes on with the byte: a letter, a digit or `_`.
fn goes_on_word(b: u8) -> bool
    ensures { result ≡ goes_on_word b }
{
    is_letter(b) || is_digit(b) || b == b'_'
}

/// Whether the byte is a space, a tab or a carriage return.
fn is_blank(b: u8) -> bool
    ensures { result ≡ is_blank b }
{
    b == b' ' || b == b'\t' || b == b'\r'
}

/// Whether the byte is one of `[`, `]`, `,`, `=`, `+`, `-`, `*`.
fn is_mark(b: u8) -> bool
    ensures { result ≡ is_mark b }
{
    b == b'[' || b == b']' || b == b',' || b == b'=' || b == b'+' || b == b'-' || b == b'*'
}

/// Whether there is a byte ahead that is not in a comment.
fn is_more(bytes: &[u8]) -> bool
    ensures { result ≡ is_more bytes.now }
{
    match bytes {
        [] => false,
        [b, ..] => *b != b'#',
    }
}

/// Whether the first byte is a blank.
fn starts_blank(bytes: &[u8]) -> bool
    ensures { result ≡ starts_blank bytes.now }
{
    match bytes {
        [] => false,
        [b, ..] => is_blank(*b),
    }
}

/// The bytes behind the first, if there is one.
fn after_first(bytes: &[u8]) -> &[u8]
    ensures { result.now ≡ drop 1 bytes.now }
{
    match bytes {
        [] => bytes,
        [_, rest @ ..] => rest,
    }
}

/// How many bytes at the front go on a word.
fn word_len(bytes: &[u8]) -> usize
    ensures value { result ≡ length (take_while goes_on_word bytes.now) }
    ensures within { result ≤ length bytes.now }
{
    bytes.iter().take_while(|c| goes_on_word(**c)).count()
}

/// How many bytes at the front are digits.
fn digits_len(bytes: &[u8]) -> usize
    ensures value { result ≡ length (take_while is_digit bytes.now) }
    ensures within { result ≤ length bytes.now }
{
    bytes.iter().take_while(|c| is_digit(**c)).count()
}

/// How many bytes the first token has, where the bytes begin with one.
fn text_len(bytes: &[u8]) -> usize
    ensures value { result ≡ length (text_at bytes.now) }
    ensures within { result ≤ length bytes.now }
{
    match bytes {
        [] => 0,
        [b, rest @ ..] => {
            if is_letter(*b) {
                1 + word_len(rest)
            } else if is_digit(*b) {
                1 + digits_len(rest)
            } else {
                1
            }
        }
    }
}

/// The token of a run of digits. One of more than ten fits no place.
fn digits_token(digits: &[u8]) -> Token
    requires { list_all is_digit digits.now ≡ true }
    ensures { result ≡ digits_token digits.now }
{
    if digits.len() <= 10 {
        Token::Number(Number::new(number_of(digits)))
    } else {
        Token::Misfit
    }
}

/// The bytes as a name.
fn name_of(alloc: Global, text: &[u8]) -> Result<Name, NoMem>
    ensures { IfOk result (λ n. n ≡ text.now) }
{
    Ok(Name::new(Vec::from_slice(alloc, text)?))
}

/// The token with that text, by its first byte.
fn token_of(alloc: Global, text: &[u8]) -> Result<Token, NoMem>
    requires { IsText text.now }
    ensures { IfOk result (λ t. t ≡ token_in text.now) }
{
    match text {
        [] => Ok(Token::Misfit),
        [b, ..] => {
            if is_letter(*b) {
                Ok(Token::Word(name_of(alloc, text)?))
            } else if is_digit(*b) {
                Ok(digits_token(text))
            } else if is_mark(*b) {
                Ok(Token::Symbol(*b))
            } else {
                Ok(Token::Misfit)
            }
        }
    }
}

/// The tokens of a line, and their places.
pub fn cut(alloc: Global, line: &[u8]) -> Result<(Vec<Token>, Vec<Place>), NoMem>
    requires { length line.now ≤ MAX_BYTES }
    ensures { IfOk result (λ x. IsCut line.now x.0.items x.1.items) }
{
    let mut tokens = Vec::new(alloc);
    let mut places = Vec::new(alloc);
    let mut rest = line;
    let mut column: u32 = 1;
    'byte: while is_more(rest) {
        if starts_blank(rest) {
            rest = after_first(rest);
            column += 1;
        } else {
            let len = text_len(rest);
            let (text, behind) = rest.split_at(len);
            let after = column + len as u32;
            tokens.push(token_of(alloc, text)?)?;
            places.push(Place {
                first: column,
                after,
            })?;
            rest = behind;
            column = after;
        }
    }
    Ok((tokens, places))
}
