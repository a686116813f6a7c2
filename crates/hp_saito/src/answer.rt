//! What is known of freeness.

use hp_algebra::{Field, List};
use hp_linear::Matrix;
use hp_module::ModVec;

/// Whether an arrangement with multiplicities is free.
#[derive(Drop)]
pub enum FreeAnswer<K: Field> {
    /// It is: a homogeneous basis of its logarithmic derivations, the degrees of the members, the least point off the
    /// hyperplanes, and the inverse of the matrix whose rows are the basis's values there.
    Free {
        basis: List<ModVec<K>>,
        degrees: List<u32>,
        point: List<K>,
        inverse: Matrix<K>,
    },
    /// It isn't: so many minimal generators, more than the dimension.
    NotFree {
        generators: usize,
    },
}
