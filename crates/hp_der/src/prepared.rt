//! A basis with its leads, prepared for division, and the constants that the divisions of its critical pairs give.

ghost use Rattle.std.specs.Prelude.{◌≡◌, ◌≢◌, ◌↔◌, ◌≤◌, ◌<◌, ℕ, [], All, IfOk, IsTrue, length, replicate, slice_index_or};
ghost use Rattle.hp_mono.specs.Monomials.{degree, lcm};
ghost use Rattle.hp_module.specs.Vectors.{IsVector, zero_vector};
ghost use Rattle.hp_module.specs.Leads.{IsGreatestTerm, no_term};
ghost use Rattle.hp_module.specs.CriticalPairs.{pair_vector as pair_vector_of};
ghost use Rattle.hp_module.specs.ElimOrders.{elimination_order};
ghost use Rattle.hp_module.specs.FallingTerms.{AreDivisors, with_leads};
ghost use Rattle.hp_graded.specs.RelationConstants.{IsDegreeRange, IsPairOf, IsPairRow, constant_row as constant_row_of, degree_at, falling};
ghost use Rattle.hp_graded.proofs.BasisMembers.{basis_module};
ghost use Rattle.hp_der.specs.BasisSettings.{ArePivotsOf, HaveDegrees, IsPrepared, led_by};
ghost use Rattle.hp_der.specs.CoveringPairs.{AreCoveringPairs};

use hp_algebra::{Field, List, Module, NoMem};
use hp_linear::GrowingForm;
use hp_module::{Basis, Divisors, ElimOrder, Grading, ModVec};
use hp_mono::{Mono, Term};
use hp_poly::Poly;
use std::alloc::Global;
use std::marker::Model;

/// A basis with its leads, prepared for division.
#[derive(Drop)]
pub(crate) struct Prepared<F: Field> {
    leads: Vec<Term>,
    divisors: Divisors<F>,
    grading: Grading,
}

impl<F: Field> Model for Prepared<F> {
    ghost use Rattle.hp_der.specs.BasisSettings.{Prepared};

    ghost Value = { Prepared F };

    ghost view = { λ p. record { leads = p.leads.items; divisors = p.divisors; shifts = p.grading.shifts } };
}

/// The lead of a vector that isn't zero.
fn lead_of<F: Field>(order: &ElimOrder, v: &ModVec<F>) -> Term
    requires width { length v.now ≡ order.now.width }
    requires nonzero { v.now ≢ zero_vector F.ring order.now.width }
    ensures { (c : F) × IsGreatestTerm (elimination_order order.now.split) v.now result c }
{
    match v.lead(order) {
        Some((lead, _first)) => lead,
        None => Term {
            mono: Mono::one(),
            comp: 1,
        },
    }
}

/// The leads of vectors that aren't zero.
fn leads_of<F: Field>(
    alloc: Global,
    order: &ElimOrder,
    members: &[ModVec<F>],
) -> Result<Vec<Term>, NoMem>
    requires widths { All (λ v. length v ≡ order.now.width) members.now }
    requires nonzero { All (λ v. v ≢ zero_vector F.ring order.now.width) members.now }
    ensures many { IfOk result (λ r. length r.items ≡ length members.now) }
    ensures leads { IfOk result (λ r. (i : ℕ) → i < length members.now → (c : F) × IsGreatestTerm (elimination_order order.now.split) (slice_index_or members.now i []) (slice_index_or r.items i no_term) c) }
{
    let mut leads = Vec::new(alloc);
    for k in 0..members.len() {
        leads.push(lead_of(order, &members[k]))?;
    }
    Ok(leads)
}

/// Vectors that aren't zero, to divide by.
fn divisors_of<F: Field>(
    alloc: Global,
    order: &ElimOrder,
    members: &[ModVec<F>],
) -> Result<Divisors<F>, NoMem>
    requires widths { All (λ v. length v ≡ order.now.width) members.now }
    requires nonzero { All (λ v. v ≢ zero_vector F.ring order.now.width) members.now }
    ensures lawful { IfOk result (λ d. AreDivisors F.ring (elimination_order order.now.split) order.now.width d) }
    ensures members { IfOk result (λ d. (with_leads F.ring d).members ≡ members.now) }
{
    let mut divisors = Divisors::new(alloc, order.width)?;
    for k in 0..members.len() {
        divisors.push(alloc, order, &members[k])?;
    }
    Ok(divisors)
}

/// All shifts 0.
fn no_shifts(alloc: Global, width: usize) -> Result<Grading, NoMem>
    ensures { IfOk result (λ g. g.shifts ≡ replicate width 0) }
{
    let mut shifts = Vec::new(alloc);
    for _ in 0..width {
        shifts.push(0)?;
    }
    Ok(Grading {
        shifts: List::of(shifts),
    })
}

/// The constants of these polynomials from the one before `stop` down to `start`.
fn constant_row<F: Field>(
    alloc: Global,
    quotients: &[Poly<F>],
    start: usize,
    stop: usize,
) -> Result<Vec<F>, NoMem>
    requires order { start ≤ stop }
    requires within { stop ≤ length quotients.now }
    requires vector { IsVector F.ring (length quotients.now) quotients.now }
    ensures { IfOk result (λ r. r.items ≡ constant_row_of F.ring (falling start stop) quotients.now) }
{
    let one = Mono::one();
    let mut row = Vec::new(alloc);
    for c in 0..stop - start {
        row.push(quotients[stop - (c + 1)].coeff(&one))?;
    }
    Ok(row)
}

impl<F: Field> Prepared<F> {
    /// The basis, prepared.
    ///
    /// Errors: `NoMem` where memory is out.
    pub(crate) fn new(alloc: Global, basis: &Basis<F>) -> Result<Prepared<F>, NoMem>
        requires { HaveDegrees F.ring basis.now.members }
        ensures { IfOk result (IsPrepared F.ring F.inverse basis.now) }
    {
        let order = ElimOrder {
            split: basis.split(),
            width: basis.width(),
        };
        let members = basis.members();
        let leads = leads_of(alloc, &order, members)?;
        let divisors = divisors_of(alloc, &order, members)?;
        let grading = no_shifts(alloc, order.width)?;
        Ok(Prepared {
            leads,
            divisors,
            grading,
        })
    }

    /// The leads of the members.
    pub(crate) fn leads(&self) -> &[Term]
        ensures { result.now ≡ self.now.leads }
    {
        self.leads.as_slice()
    }

    /// Whether members j and i have leads of one component with an lcm of degree d.
    fn is_pair(&self, basis: &Basis<F>, d: u32, j: usize, i: usize) -> bool
        requires prepared { IsPrepared F.ring F.inverse basis.now self.now }
        requires earlier { j < i }
        requires within { i < length basis.now.members }
        ensures { IsTrue result ↔ IsPairOf (led_by basis.now self.now.leads) d j i }
    {
        let first = self.leads[j];
        let second = self.leads[i];
        first.comp == second.comp && first.mono.lcm(&second.mono).degree() == d
    }

    /// The vector of the pair of members j and i.
    fn pair_vector(
        &self,
        alloc: Global,
        basis: &Basis<F>,
        j: usize,
        i: usize,
    ) -> Result<ModVec<F>, NoMem>
        requires prepared { IsPrepared F.ring F.inverse basis.now self.now }
        requires first { j < length basis.now.members }
        requires second { i < length basis.now.members }
        ensures { IfOk result (λ v. v ≡ pair_vector_of F.ring (led_by basis.now self.now.leads) j i F.ring.one F.ring.one) }
    {
        let members = basis.members();
        let up = self.leads[i].mono.cofactor(&self.leads[j].mono);
        let down = self.leads[j].mono.cofactor(&self.leads[i].mono);
        let first = members[i].times_term(alloc, F::unit(), up)?;
        let second = members[j].times_term(alloc, F::unit().negate(), down)?;
        first.m_add(alloc, &second)
    }

    /// The constants, at the members of a range, of a division of the vector of the pair.
    fn pair_row(
        &self,
        alloc: Global,
        basis: &Basis<F>,
        start: usize,
        stop: usize,
        j: usize,
        i: usize,
    ) -> Result<Vec<F>, NoMem>
        requires prepared { IsPrepared F.ring F.inverse basis.now self.now }
        requires range { IsDegreeRange (led_by basis.now self.now.leads) start stop }
        requires pair { IsPairOf (led_by basis.now self.now.leads) (degree_at (led_by basis.now self.now.leads) start) j i }
        ensures { IfOk result (λ r. IsPairRow (basis_module F.ring F.inverse basis.now) (led_by basis.now self.now.leads) start stop j i r.items) }
    {
        let order = ElimOrder {
            split: basis.split(),
            width: basis.width(),
        };
        let v = self.pair_vector(alloc, basis, j, i)?;
        let (quotients, _rest) = self.divisors.divide(alloc, &order, &self.grading, &v)?;
        constant_row(alloc, quotients.as_slice(), start, stop)
    }

    /// The numbers of the columns of the members of a range that the members before them generate, counted from the
    /// last member on. The pairs cover all pairs. Their rows are read until each column has a pivot.
    ///
    /// Errors: `NoMem` where memory is out.
    pub(crate) fn pivots(
        &self,
        alloc: Global,
        basis: &Basis<F>,
        start: usize,
        stop: usize,
        pairs: &[(usize, usize)],
    ) -> Result<Vec<usize>, NoMem>
        requires prepared { IsPrepared F.ring F.inverse basis.now self.now }
        requires range { IsDegreeRange (led_by basis.now self.now.leads) start stop }
        requires pairs { AreCoveringPairs self.now.leads (length basis.now.members) pairs.now }
        ensures { IfOk result (λ r. ArePivotsOf F.ring basis.now start stop r.items) }
    {
        let d = self.leads[start].mono.degree();
        let mut form = GrowingForm::new(alloc, stop - start);
        for k in 0..pairs.len() {
            if form.is_full() {
                let pivots = form.pivots(alloc)?;
                return Ok(pivots);
            }
            let (j, i) = pairs[k];
            if self.is_pair(basis, d, j, i) {
                let row = self.pair_row(alloc, basis, start, stop, j, i)?;
                form = form.with_row(row)?;
            }
        }
        let pivots = form.pivots(alloc)?;
        Ok(pivots)
    }
}
