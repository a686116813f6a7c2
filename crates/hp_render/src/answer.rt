//! What a question may be answered.

use hp_algebra::List;
use hp_mono::Mono;
use hp_sets::{Flat, HSet};

/// The word of a question.
#[derive(Clone, Copy, Debug, PartialEq, Eq)]
pub enum AskWord {
    Hyperplanes,
    Point,
    Rank,
    Flats,
    Poincare,
    Characteristic,
    Triple,
    Circuits,
    Nbc,
    Normal,
    Aomoto,
    Gb,
    Der,
    Resolve,
    Free,
}

/// What there is too much of.
#[derive(Clone, Copy, Debug, PartialEq, Eq)]
pub enum LimitKind {
    Flats,
    Circuits,
    Nbc,
    Aomoto,
    Pairs,
    Degree,
}

/// An answer about an arrangement over the field `K`.
#[derive(Drop)]
pub enum Answer<K> {
    /// The dimension, and the coefficients of each form.
    Hyperplanes {
        dim: u32,
        forms: List<List<K>>,
    },
    /// The coordinates of a point.
    Point(List<K>),
    /// The rank of all hyperplanes.
    Rank(u32),
    /// Flats with their ranks.
    Flats(List<Flat>),
    /// The coefficients of the Poincaré polynomial, from degree 0.
    Poincare(List<i64>),
    /// The coefficients of the characteristic polynomial, from degree 0.
    Characteristic(List<i64>),
    /// The coefficients of the Poincaré polynomials of an arrangement, of its deletion and of its restriction.
    Triple {
        whole: List<i64>,
        deleted: List<i64>,
        restricted: List<i64>,
    },
    /// Sets of hyperplanes: the circuits.
    Circuits(List<HSet>),
    /// Sets of hyperplanes: those that contain no broken circuit.
    Nbc(List<HSet>),
    /// An element of the exterior algebra: its terms in the order in which sets are listed.
    Normal(List<(HSet, K)>),
    /// Dimensions of cohomology, from degree 0.
    Aomoto(List<u32>),
    /// Vectors of polynomials, each entry by its terms from the greatest: the reduced Gröbner basis of derivations.
    Gb(List<List<List<(Mono, K)>>>),
    /// The same of minimal generators of derivations.
    Der(List<List<List<(Mono, K)>>>),
    /// The maps of a minimal resolution of derivations: for each its Betti numbers, from degree 0, and its rows with their
    /// degrees, each entry by its terms.
    Resolve(List<(List<usize>, List<(u32, List<List<(Mono, K)>>)>)>),
    /// A homogeneous basis of derivations with the degrees of its members, the least point off the hyperplanes, and by rows
    /// the inverse of the matrix of the basis's values there.
    Free {
        basis: List<(u32, List<List<(Mono, K)>>)>,
        point: List<K>,
        inverse: List<List<K>>,
    },
    /// There is no such basis: so many minimal generators of derivations.
    NotFree(usize),
    /// The question that was asked met this limit.
    Limit {
        asked: AskWord,
        kind: LimitKind,
    },
}
