//! The levels of a frame.

use crate::order::SchreyerOrder;
use hp_algebra::Field;
use hp_module::{Grading, ModVec};
use hp_mono::Term;
use std::marker::Model;

/// A Gröbner basis with its leads, in a free module with an order and degrees of the components. The leads have only the
/// variables x_1, .., x_left.
#[derive(Drop)]
pub(crate) struct Level<F: Field> {
    pub(crate) order: SchreyerOrder,
    pub(crate) left: usize,
    pub(crate) grading: Grading,
    pub(crate) members: Vec<ModVec<F>>,
    pub(crate) leads: Vec<Term>,
}

impl<F: Field> Model for Level<F> {
    ghost use Rattle.hp_syzygy.specs.FrameLevels.{Level};

    ghost Value = { Level F };

    ghost view = { λ v. record { chain = v.order; left = v.left; degrees = v.grading.shifts; members = v.members.items; leads = v.leads.items } };
}
