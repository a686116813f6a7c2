//! What a `let` builds.

ghost use Rattle.std.specs.Prelude.{◌≡◌};
ghost use Rattle.hp_script.specs.Reading.{Reads, shape_rest_at, build_at};

use crate::command::Build;
use crate::fault::Fault;
use crate::numbers::{number, word};
use crate::rows::{edges, rows};
use crate::token::Token;
use crate::words::{Shape, shape_word};
use std::alloc::Global;

/// What follows the word of a build of that shape: numbers, rows, edges or a name.
fn shape_rest(alloc: Global, shape: Shape, tokens: &[Token]) -> Result<(Build, &[Token]), Fault>
    ensures given { Reads result (shape_rest_at shape tokens.now) }
{
    match shape {
        Shape::Forms => {
            let (n, rest) = number(tokens)?;
            let (rows, rest) = rows(alloc, rest)?;
            Ok((Build::Forms(n, rows), rest))
        }
        Shape::Cone => {
            let (n, rest) = number(tokens)?;
            let (rows, rest) = rows(alloc, rest)?;
            Ok((Build::Cone(n, rows), rest))
        }
        Shape::TypeA => {
            let (n, rest) = number(tokens)?;
            Ok((Build::TypeA(n), rest))
        }
        Shape::TypeB => {
            let (n, rest) = number(tokens)?;
            Ok((Build::TypeB(n), rest))
        }
        Shape::TypeD => {
            let (n, rest) = number(tokens)?;
            Ok((Build::TypeD(n), rest))
        }
        Shape::Boolean => {
            let (n, rest) = number(tokens)?;
            Ok((Build::Boolean(n), rest))
        }
        Shape::Graphic => {
            let (n, rest) = number(tokens)?;
            let (edges, rest) = edges(alloc, rest)?;
            Ok((Build::Graphic(n, edges), rest))
        }
        Shape::Delete => {
            let (name, rest) = word(alloc, tokens)?;
            let (n, rest) = number(rest)?;
            Ok((Build::Delete(name, n), rest))
        }
        Shape::Restrict => {
            let (name, rest) = word(alloc, tokens)?;
            let (n, rest) = number(rest)?;
            Ok((Build::Restrict(name, n), rest))
        }
    }
}

/// A build.
pub fn build(alloc: Global, tokens: &[Token]) -> Result<(Build, &[Token]), Fault>
    ensures given { Reads result (build_at tokens.now) }
{
    let (shape, rest) = shape_word(tokens)?;
    shape_rest(alloc, shape, rest)
}
