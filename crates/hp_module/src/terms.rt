//! Lists of terms of one component, which lose terms at the front and win terms at the end.

ghost use Rattle.std.specs.Prelude.{◌≡◌, ◌≢◌, ◌++◌, [], ◌∷◌, IfOk, drop};

use hp_algebra::{Field, NoMem};
use hp_mono::Mono;
use std::alloc::Global;
use std::marker::Model;
use std::mem;

/// A list of terms. Terms before the start are gone.
#[derive(Drop)]
pub(crate) struct Terms<F: Field> {
    terms: Vec<(Mono, F)>,
    start: usize,
}

impl<F: Field> Model for Terms<F> {
    ghost use Rattle.std.specs.Prelude.{drop, length, ◌≤◌};
    ghost use Rattle.hp_poly.specs.Polynomials.{Poly};

    ghost Value = { Poly F };

    ghost view = { λ t. drop t.start t.terms.items };

    ghost invariant = { λ t. t.start ≤ length t.terms.items };
}

impl<F: Field> Terms<F> {
    /// No term.
    pub(crate) fn new(alloc: Global) -> Terms<F>
        ensures { result ≡ [] }
    {
        Terms::of(Vec::new(alloc))
    }

    /// The list of these terms.
    pub(crate) fn of(terms: Vec<(Mono, F)>) -> Terms<F>
        ensures { result ≡ terms.items }
    {
        Terms { terms, start: 0 }
    }

    /// The terms in order.
    pub(crate) fn as_slice(&self) -> &[(Mono, F)]
        ensures { result.now ≡ self.now }
    {
        &self.terms.as_slice()[self.start..]
    }

    /// Takes the terms of a list, which gets those that it had itself, also the ones that are gone.
    pub(crate) fn exchange(&mut self, terms: &mut Vec<(Mono, F)>)
        ensures { self.new ≡ terms.old.items }
    {
        mem::swap(&mut self.terms, terms);
        self.start = 0;
    }

    /// Loses the first term.
    pub(crate) fn drop_first(&mut self)
        requires { self.old ≢ [] }
        ensures { self.new ≡ drop 1 self.old }
    {
        self.start += 1;
    }

    /// Wins a term at the end.
    pub(crate) fn push(&mut self, mono: Mono, c: F) -> Result<(), NoMem>
        ensures { IfOk result (λ _. self.new ≡ self.old ++ (mono, c) ∷ []) }
    {
        self.terms.push((mono, c))?;
        Ok(())
    }
}
