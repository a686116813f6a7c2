//! Exact frames.

ghost use Rattle.std.specs.Prelude.{◌≡◌};
ghost use Rattle.hp_resolution.specs.Resolutions.{Resolution, IsFrame};

use hp_algebra::{Field, List};
use hp_complex::Complex;
use hp_poly::Poly;
use std::marker::Model;

/// A resolution of the rows of its first map: an exact complex of homogeneous maps, with a degree for each row, none above
/// `MAX_DEGREE`. Where the first map has l columns, only the variables x_1, .., x_l occur.
#[derive(Drop)]
pub struct Frame<F: Field> {
    complex: Complex<Poly<F>>,
    degrees: Vec<List<u32>>,
}

impl<F: Field> Model for Frame<F> {
    ghost use Rattle.hp_resolution.specs.Resolutions.{Resolution, IsFrame};

    ghost Value = { Resolution F };

    ghost view = { λ f. record { maps = f.complex; degrees = f.degrees.items } };

    ghost invariant = { λ f. IsFrame F.ring (record { maps = f.complex; degrees = f.degrees.items }) };
}

impl<F: Field> Frame<F> {
    /// The frame with these maps and these degrees of their rows. Takes no memory.
    pub fn new(complex: Complex<Poly<F>>, degrees: Vec<List<u32>>) -> Frame<F>
        requires { IsFrame F.ring (record { maps = complex; degrees = degrees.items }) }
        ensures { result ≡ record { maps = complex; degrees = degrees.items } }
    {
        Frame { complex, degrees }
    }

    /// The maps.
    pub fn complex(&self) -> &Complex<Poly<F>>
        ensures value { result.now ≡ self.now.maps }
        ensures of { IsFrame F.ring self.now }
    {
        &self.complex
    }

    /// For each map the degrees of its rows.
    pub fn degrees(&self) -> &[List<u32>]
        ensures value { result.now ≡ self.now.degrees }
        ensures of { IsFrame F.ring self.now }
    {
        self.degrees.as_slice()
    }
}
