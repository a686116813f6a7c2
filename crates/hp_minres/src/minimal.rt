//! Minimal resolutions.

ghost use Rattle.std.specs.Prelude.{◌≡◌, IfOk};
ghost use Rattle.std.specs.List.Sorted.{IsNonDecreasing};
ghost use Rattle.hp_resolution.specs.Resolutions.{IsMinimalResolution, row_degrees};
ghost use Rattle.hp_minres.specs.Minimised.{HasKeptRows, IsZeroFirst};

use crate::finish::finished;
use crate::reduce::reduce;
use crate::start::started;
use hp_algebra::{Field, NoMem};
use hp_resolution::{Frame, MinRes};
use std::alloc::Global;

/// A minimal resolution of those rows of the frame's first map that the rows before them don't generate: they are the rows
/// of its first map, in order. The rows of the frame's first map are in order of degree, and one of them is not zero.
///
/// Errors: `NoMem` where memory is out.
pub fn minimise<F: Field>(alloc: Global, frame: &Frame<F>) -> Result<MinRes<F>, NoMem>
    requires order { IsNonDecreasing (row_degrees frame.now 0) }
    requires nonzero { ¬ (IsZeroFirst F.ring frame.now) }
    ensures minimal { IfOk result (λ r. IsMinimalResolution F.ring r) }
    ensures rows { IfOk result (λ r. HasKeptRows F.ring frame.now r) }
{
    let width = frame.complex().map(0).cols();
    let (mut maps, mut degrees) = started(alloc, frame)?;
    reduce(alloc, &mut maps, &mut degrees)?;
    finished(alloc, width, maps, degrees)
}
