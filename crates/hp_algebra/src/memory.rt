//! The one error of calls that can fail for want of memory alone.

use std::alloc::{AllocError, AllocFailed};
use thiserror::Error;

/// Memory is out.
#[derive(Clone, Copy, Debug, PartialEq, Eq, Error)]
#[error("out of memory")]
pub struct NoMem;

impl From<AllocError> for NoMem {
    fn from(_refusal: AllocError) -> NoMem {
        NoMem
    }
}

impl<T: Drop> From<AllocFailed<T>> for NoMem {
    fn from(_refusal: AllocFailed<T>) -> NoMem {
        NoMem
    }
}
