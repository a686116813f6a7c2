//! The order of the monomials of a component.

ghost use Rattle.std.specs.Prelude.{◌≤◌};
ghost use Rattle.hp_mono.specs.Monomials.{IsMonomial, product};
ghost use Rattle.hp_poly.specs.PolySetting.{HaveProduct};
ghost use Rattle.hp_module.specs.FallingTerms.{component_order};
ghost use Rattle.hp_module.specs.ComponentLaws.{component-basis, component-keeps};

use hp_mono::{Mono, Term, TermOrder};
use hp_sums::{Basis, OrderedProducts};
use std::cmp::Ordering;

/// The monomials of a component, the greatest term first.
#[derive(Drop)]
pub(crate) struct InComponent<'o, O: TermOrder> {
    pub(crate) order: &'o O,
    pub(crate) comp: usize,
}

impl<'o, O: TermOrder> Basis<Mono> for InComponent<'o, O> {
    ghost IsValue = { λ b. O.IsValue b.order.now × (1 ≤ b.comp) × (b.comp ≤ O.components b.order.now) };

    ghost IsKey = { IsMonomial };

    ghost order = { λ b. component_order (O.order b.order.now) b.comp };

    fn key(&self, k: &Mono) {
        let _degree = k.degree();
    }

    fn cmp(&self, a: &Mono, b: &Mono) -> Ordering {
        let _first = a.degree();
        let _second = b.degree();
        let left = Term {
            mono: *b,
            comp: self.comp,
        };
        let right = Term {
            mono: *a,
            comp: self.comp,
        };
        self.order.cmp(&left, &right)
    }

    fn same(&self, a: &Mono, b: &Mono) -> bool {
        a == b
    }

    ghost ordered = { λ b v. component-basis (O.components b.order.now) (O.order b.order.now) (O.lawful b.order.now v.0) b.comp v.1 v.2 };
}

impl<'o, O: TermOrder> OrderedProducts<Mono> for InComponent<'o, O> {
    ghost Fits = { HaveProduct };

    ghost product = { product };

    fn product(&self, m: &Mono, k: &Mono) -> Mono {
        m.product(k)
    }

    ghost keeps = { λ b v m. component-keeps (O.components b.order.now) (O.order b.order.now) (O.lawful b.order.now v.0) b.comp v.1 v.2 m };
}
