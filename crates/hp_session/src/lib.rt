//! The session of a script: the field, the limits, the named arrangements, and what each command does.
#![tactic(auto)]

mod answering;
mod building;
mod central;
mod derivations;
mod expressions;
mod graded;
mod limits;
mod multiplicities;
mod names;
mod prelude;
mod resolutions;
mod session;
mod stop;
mod which;

pub use prelude::{Before, Prelude};
pub use session::{Session, Step};
pub use which::Which;
