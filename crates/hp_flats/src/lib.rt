//! Closures and ranks of sets of hyperplanes, the rank of an arrangement, and all its flats.
#![tactic(auto)]

mod closing;
mod covers;
mod levels;
mod listing;
mod stop;
mod values;

pub use closing::{closure, rank, total_rank};
pub use levels::{Covered, flats_with_covers};
pub use listing::flats;
pub use stop::{FlatStop, MOST_FLATS};
