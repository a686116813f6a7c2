//! Gradings, and reduced Gröbner bases.

ghost use Rattle.std.specs.Prelude.{◌≡◌};
ghost use Rattle.hp_module.specs.ReducedBases.{Basis as BasisOf, IsBasis};

use crate::vector::ModVec;
use hp_algebra::{Field, List};
use std::marker::Model;

/// The degrees of the components: a term of component c has the degree of its monomial and `shifts[c - 1]` together.
#[derive(Drop)]
pub struct Grading {
    pub shifts: List<u32>,
}

/// The reduced Gröbner basis, in the elimination order with this split, of the submodule that its members generate.
///
/// The members are homogeneous with all shifts 0, and listed by degree, then by lead from the greatest. Each is monic,
/// each least lead is that of one of them, and no other term of a member is a multiple of a lead.
#[derive(Drop)]
pub struct Basis<F: Field> {
    split: usize,
    width: usize,
    members: Vec<ModVec<F>>,
}

impl<F: Field> Model for Basis<F> {
    ghost use Rattle.hp_module.specs.ReducedBases.{Basis, IsBasis};

    ghost Value = { Basis F };

    ghost view = { λ b. record { split = b.split; width = b.width; members = b.members.items } };

    ghost invariant = { λ b. IsBasis F.ring (record { split = b.split; width = b.width; members = b.members.items }) };
}

impl<F: Field> Basis<F> {
    /// The basis with these members. Takes no memory.
    pub fn new(split: usize, width: usize, members: Vec<ModVec<F>>) -> Basis<F>
        requires { IsBasis F.ring (record { split = split; width = width; members = members.items }) }
        ensures { result ≡ record { split = split; width = width; members = members.items } }
    {
        Basis {
            split,
            width,
            members,
        }
    }

    /// The split of the order.
    pub fn split(&self) -> usize
        ensures value { result ≡ self.now.split }
        ensures of { IsBasis F.ring self.now }
    {
        self.split
    }

    /// How many components the members have.
    pub fn width(&self) -> usize
        ensures value { result ≡ self.now.width }
        ensures of { IsBasis F.ring self.now }
    {
        self.width
    }

    /// The members in order.
    pub fn members(&self) -> &[ModVec<F>]
        ensures value { result.now ≡ self.now.members }
        ensures of { IsBasis F.ring self.now }
    {
        self.members.as_slice()
    }
}
