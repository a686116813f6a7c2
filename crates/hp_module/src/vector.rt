//! Vectors of polynomials, which are a module over the ring of polynomials.

ghost use Rattle.std.specs.Prelude.{◌≡◌, ◌↔◌, ℕ, ◌+◌, ◌-◌, ◌≤◌, List, [], ◌++◌, All, Contains, IfSome, IfOk, IsNone, IsTrue, MatchOption, length, slice_index_or};
ghost use Rattle.std.specs.declared.cmp.Ordering.TheVariants.{Greater};
ghost use Rattle.hp_mono.specs.declared.term.Term.{Term as TermOf};
ghost use Rattle.hp_algebra.specs.Ring.{greatest_weight_of};
ghost use Rattle.hp_mono.specs.Monomials.{IsMonomial, degree, max_degree};
ghost use Rattle.hp_mono.specs.TermOrders.{IsTermWithin};
ghost use Rattle.hp_poly.specs.Polynomials.{IsPoly, poly_ring, term_poly};
ghost use Rattle.hp_module.specs.Vectors.{IsVector, vector_scale, zero_vector};
ghost use Rattle.hp_module.specs.FreeModules.{IsGraded, IsHomogeneousBy, term_degree, terms};
ghost use Rattle.hp_module.specs.Leads.{IsGreatestTerm};
ghost use Rattle.hp_module.specs.LeadSearch.{IsGreatestOf, component_terms};
ghost use Rattle.hp_module.specs.RowModules.{row_module, rows_are_module, rows_are_weighted};
ghost use Rattle.hp_poly.specs.PolyRing.{poly_is_ring};
ghost use Rattle.hp_poly.specs.Degrees.{poly_weights};

use crate::basis::Grading;
use hp_algebra::{Field, List, Module, NoMem, Ring, greatest_weight};
use hp_mono::{Mono, Term, TermOrder};
use hp_poly::Poly;
use std::alloc::Global;
use std::cmp::Ordering;
use std::marker::Model;

/// A vector of polynomials, seen as the list of its entries.
#[derive(Drop)]
pub struct ModVec<F: Field> {
    entries: Vec<Poly<F>>,
}

impl<F: Field> Model for ModVec<F> {
    ghost use Rattle.std.specs.Prelude.{All};
    ghost use Rattle.hp_poly.specs.Polynomials.{IsPoly};
    ghost use Rattle.hp_module.specs.Vectors.{Vector};

    ghost Value = { Vector F };

    ghost view = { λ v. v.entries.items };

    ghost invariant = { λ v. All (IsPoly F.ring) v.entries.items };
}

impl<F: Field> ModVec<F> {
    /// The vector with these entries. Takes no memory.
    pub fn new(entries: Vec<Poly<F>>) -> ModVec<F>
        ensures value { result ≡ entries.items }
        ensures vector { IsVector F.ring (length entries.items) result }
    {
        let _weight = greatest_weight(entries.as_slice());
        ModVec { entries }
    }

    /// How many entries it has.
    pub fn width(&self) -> usize
        ensures value { result ≡ length self.now }
        ensures of { IsVector F.ring result self.now }
    {
        self.entries.len()
    }

    /// Entry `c`, counted from 1.
    pub fn entry(&self, c: usize) -> &Poly<F>
        requires counted { 1 ≤ c }
        requires within { c ≤ length self.now }
        ensures value { result.now ≡ slice_index_or self.now (c - 1) [] }
        ensures of { IsVector F.ring (length self.now) self.now }
    {
        &self.entries[c - 1]
    }

    /// The entries in order.
    pub fn entries(&self) -> &[Poly<F>]
        ensures value { result.now ≡ self.now }
        ensures of { IsVector F.ring (length self.now) self.now }
    {
        self.entries.as_slice()
    }

    /// Whether every entry is zero.
    pub fn is_zero(&self) -> bool
        ensures { IsTrue result ↔ (self.now ≡ zero_vector F.ring (length self.now)) }
    {
        let entries = self.entries();
        for k in 0..entries.len() {
            if !entries[k].is_zero() {
                return false;
            }
        }
        true
    }

    /// A copy of the entries, as a row of a matrix.
    ///
    /// Errors: `NoMem` where memory is out.
    pub fn row(&self, alloc: Global) -> Result<List<Poly<F>>, NoMem>
        ensures { IfOk result (λ r. r ≡ self.now) }
    {
        let entries = self.entries();
        let mut row = Vec::new(alloc);
        for k in 0..entries.len() {
            row.push(entries[k].copy(alloc)?)?;
        }
        Ok(List::of(row))
    }

    /// A second one.
    ///
    /// Errors: `NoMem` where memory is out.
    pub fn copy(&self, alloc: Global) -> Result<ModVec<F>, NoMem>
        ensures { IfOk result (λ r. r ≡ self.now) }
    {
        Ok(ModVec::new(self.row(alloc)?.into_vec()))
    }

    /// The vector times c times a monomial. Its degrees and that of the monomial together are at most `MAX_DEGREE`.
    ///
    /// Errors: `NoMem` where memory is out.
    pub fn times_term(&self, alloc: Global, c: F, m: Mono) -> Result<ModVec<F>, NoMem>
        requires { degree m + greatest_weight_of (poly_ring F.ring) self.now ≤ max_degree }
        ensures value { IfOk result (λ r. r ≡ vector_scale F.ring (term_poly F.ring c m) self.now) }
        ensures width { IfOk result (λ r. length r ≡ length self.now) }
    {
        let mut terms = Vec::new(alloc);
        terms.push((m, c))?;
        let factor = Poly::from_terms(alloc, terms)?;
        self.m_scale(alloc, &factor)
    }

    /// The greatest term with its coefficient, and none exactly of zero.
    pub fn lead<O: TermOrder>(&self, order: &O) -> Option<(Term, F)>
        requires { O.components order.now ≡ length self.now }
        ensures some { IfSome result (λ l. IsGreatestTerm (O.order order.now) self.now l.0 l.1) }
        ensures none { IsNone result ↔ (self.now ≡ zero_vector F.ring (length self.now)) }
    {
        let _width = order.width();
        let entries = self.entries();
        let mut lead = None;
        for k in (0..entries.len()).rev() {
            lead = greatest(order, lead, k + 1, entries[k].terms());
        }
        lead
    }

    /// Whether all terms have one degree, as they have in zero. A term's degree is that of its monomial and the shift
    /// of its component together.
    pub fn is_homogeneous(&self, grading: &Grading) -> bool
        requires { length grading.now.shifts ≡ length self.now }
        ensures { IsTrue result ↔ IsHomogeneousBy grading.now.shifts self.now }
    {
        let entries = self.entries();
        let shifts = grading.shifts.as_slice();
        match degree_of_first(entries, shifts) {
            None => true,
            Some(degree) => have_degree(entries, shifts, degree),
        }
    }
}

/// The degree of a term of the vector with these entries, and none where there is no term.
fn degree_of_first<F: Field>(entries: &[Poly<F>], shifts: &[u32]) -> Option<u64>
    requires { length shifts.now ≡ length entries.now }
    ensures { MatchOption result (terms entries.now ≡ []) (λ d. (t : TermOf × F) × Contains (terms entries.now) t × (term_degree shifts.now t.0 ≡ d)) }
{
    let mut degree = None;
    for k in (0..entries.len()).rev() {
        if let Some((t, _others)) = entries[k].terms().split_first() {
            degree = Some(u64::from(t.0.degree()) + u64::from(shifts[k]));
        }
    }
    degree
}

/// Whether all terms of the vector with these entries have this degree.
fn have_degree<F: Field>(entries: &[Poly<F>], shifts: &[u32], degree: u64) -> bool
    requires { length shifts.now ≡ length entries.now }
    ensures { IsTrue result ↔ IsGraded shifts.now degree entries.now }
{
    for k in 0..entries.len() {
        if !have_total(entries[k].terms(), shifts[k], degree) {
            return false;
        }
    }
    true
}

/// Whether the degree of each monomial and the shift together are this number.
fn have_total<F: Field>(terms: &[(Mono, F)], shift: u32, total: u64) -> bool
    ensures { IsTrue result ↔ All (λ t. degree t.0 + shift ≡ total) terms.now }
{
    terms
        .iter()
        .all(|t| u64::from(t.0.degree()) + u64::from(shift) == total)
}

/// The greatest of these terms of a component and of the terms that stand after them, of which the greatest is given.
fn greatest<F: Field, O: TermOrder>(
    order: &O,
    later: Option<(Term, F)>,
    comp: usize,
    terms: &[(Mono, F)],
) -> Option<(Term, F)>
    requires counted { 1 ≤ comp }
    requires within { comp ≤ O.components order.now }
    requires later { IfSome later (λ l. IsTermWithin (O.components order.now) l.0) }
    requires monomials { All (λ t. IsMonomial t.0) terms.now }
    ensures within { IfSome result (λ l. IsTermWithin (O.components order.now) l.0) }
    ensures greatest { (xs : List (TermOf × F)) → All (λ t. IsTermWithin (O.components order.now) t.0) xs → IsGreatestOf (O.order order.now) xs later → IsGreatestOf (O.order order.now) (component_terms comp terms.now ++ xs) result }
{
    let _width = order.width();
    let mut lead = later;
    for k in (0..terms.len()).rev() {
        let term = terms[k];
        let t = Term { mono: term.0, comp };
        if is_above(order, &t, &lead) {
            lead = Some((t, term.1));
        }
    }
    lead
}

/// Whether the term is above the other, as it is where there is none.
pub(crate) fn is_above<F: Field, O: TermOrder>(
    order: &O,
    t: &Term,
    other: &Option<(Term, F)>,
) -> bool
    requires counted { 1 ≤ t.now.comp }
    requires within { t.now.comp ≤ O.components order.now }
    requires other { IfSome other.now (λ l. IsTermWithin (O.components order.now) l.0) }
    ensures { MatchOption other.now (IsTrue result) (λ l. IsTrue result ↔ (O.order order.now t.now l.0 ≡ Greater)) }
{
    match other {
        None => true,
        Some((s, _)) => order.cmp(t, s) == Ordering::Greater,
    }
}

impl<F: Field> Module<Poly<F>> for ModVec<F> {
    ghost vectors = { row_module (poly_ring F.ring) };

    fn m_zero(alloc: Global, width: usize) -> Result<Self, NoMem> {
        let mut zeros = Vec::new(alloc);
        for _ in 0..width {
            zeros.push(Poly::zero(alloc)?)?;
        }
        Ok(ModVec::new(zeros))
    }

    fn m_add(&self, alloc: Global, other: &Self) -> Result<Self, NoMem> {
        let left = self.entries();
        let right = other.entries();
        let mut sums = Vec::new(alloc);
        for k in 0..left.len() {
            sums.push(left[k].add(alloc, &right[k])?)?;
        }
        Ok(ModVec::new(sums))
    }

    fn m_scale(&self, alloc: Global, by: &Poly<F>) -> Result<Self, NoMem> {
        let _scalar = by.terms();
        let entries = self.entries();
        let mut multiples = Vec::new(alloc);
        for k in 0..entries.len() {
            multiples.push(by.mul(alloc, &entries[k])?)?;
        }
        Ok(ModVec::new(multiples))
    }

    fn m_equal(&self, other: &Self) -> bool {
        let left = self.entries();
        let right = other.entries();
        if left.len() != right.len() {
            return false;
        }
        for k in 0..left.len() {
            if !left[k].equal(&right[k]) {
                return false;
            }
        }
        true
    }

    ghost module_laws = { rows_are_module (poly_is_ring F.ring_laws F.commutes) };

    ghost module_weights = { rows_are_weighted (poly_is_ring F.ring_laws F.commutes) (poly_weights F.ring_laws F.commutes) };
}
