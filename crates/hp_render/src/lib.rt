//! The texts of answers and refusals.
#![tactic(auto)]

mod answer;
mod answer_text;
mod exterior_text;
mod flat_text;
mod freeness_text;
mod limit_text;
mod numbers;
mod polynomial_text;
mod refusal;
mod refusal_text;
mod resolution_text;
mod set_text;
mod vector_text;

pub use answer::{Answer, AskWord, LimitKind};
pub use answer_text::render;
pub use refusal::Refusal;
pub use refusal_text::render_refusal;
