//! A flat with its rank.

use crate::HSet;

/// A flat of an arrangement: its rank, and the numbers of the hyperplanes that contain it.
#[derive(Clone, Copy, Debug, PartialEq, Eq, PartialOrd, Ord)]
pub struct Flat {
    pub rank: u32,
    pub set: HSet,
}
