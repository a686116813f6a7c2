//! The elimination order.

ghost use Rattle.std.specs.Prelude.{◌≡◌};
ghost use Rattle.hp_module.specs.ElimOrders.{block, elimination_order};
ghost use Rattle.hp_module.specs.EliminationLaws.{elimination-is_order};

use hp_mono::{Term, TermOrder};
use std::cmp::Ordering;

/// The order in which components up to `split` are above the rest. Within a block the greater monomial in grevlex is
/// greater; for equal monomials the smaller component is greater.
#[derive(Clone, Copy, Debug, PartialEq, Eq)]
pub struct ElimOrder {
    pub split: usize,
    pub width: usize,
}

impl TermOrder for ElimOrder {
    ghost IsValue = { λ o. Unit {0} };

    ghost components = { λ o. o.width };

    ghost order = { λ o. elimination_order o.split };

    fn width(&self) -> usize {
        self.width
    }

    fn cmp(&self, a: &Term, b: &Term) -> Ordering {
        let within = a.mono.grevlex(&b.mono).then(b.comp.cmp(&a.comp));
        block_of(self.split, b.comp)
            .cmp(&block_of(self.split, a.comp))
            .then(within)
    }

    ghost lawful = { λ o v. elimination-is_order o.split o.width };
}

/// The block of a component: 0 up to the split, and 1 above it.
fn block_of(split: usize, comp: usize) -> u8
    ensures { result ≡ block split comp }
{
    if comp <= split { 0 } else { 1 }
}
