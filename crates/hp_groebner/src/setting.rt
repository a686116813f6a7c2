//! What a run of the algorithm needs beside the generators.

use crate::limits::Limits;
use hp_module::{ElimOrder, Grading};

/// The order, the shifts, which are all 0, and the limits.
#[derive(Drop)]
pub(crate) struct Setting {
    pub order: ElimOrder,
    pub grading: Grading,
    pub limits: Limits,
}
