//! Vectors to divide by.

ghost use Rattle.std.specs.Prelude.{◌≡◌, ◌≤◌, ◌<◌, ◌++◌, ℕ, [], ◌∷◌, All, IfOk, MatchOption, length, set};
ghost use Rattle.hp_sums.specs.FiniteSums.{HasValues};
ghost use Rattle.hp_mono.specs.Monomials.{max_degree};
ghost use Rattle.hp_mono.specs.TermOrders.{IsTermWithin, times};
ghost use Rattle.hp_module.specs.Vectors.{Vector, zero_vector};
ghost use Rattle.hp_module.specs.FreeModules.{IsGraded, term_degree};
ghost use Rattle.hp_module.specs.Leads.{AreLed, IsGreatestTerm, lead_at, member_at};
ghost use Rattle.hp_module.specs.Divisions.{HasNoDivisor, IsDivided, IsSubtracted, IsTaken};
ghost use Rattle.hp_module.specs.FallingTerms.{AreDivisors, AreFalling, free_module, no_divisors, vector_of, with_leads, with_member};

use crate::basis::Grading;
use crate::parts::{lead_of, no_terms, parts_of, polynomials};
use crate::steps::{add_multiple, move_lead};
use crate::terms::Terms;
use crate::vector::ModVec;
use hp_algebra::{Field, NoMem};
use hp_mono::{Mono, Term, TermOrder};
use hp_poly::Poly;
use std::alloc::Global;
use std::marker::Model;

/// A vector to divide by: its lead, the inverse of the lead's coefficient, and its terms for each component.
#[derive(Drop)]
pub(crate) struct Divisor<F: Field> {
    lead: Term,
    inverse: F,
    parts: Vec<Terms<F>>,
}

impl<F: Field> Model for Divisor<F> {
    ghost use Rattle.hp_module.specs.FallingTerms.{Divisor};

    ghost Value = { Divisor F };

    ghost view = { λ d. record { lead = d.lead; inverse = d.inverse; parts = d.parts.items } };
}

/// Leads in one component: the monomials, each with the place of its vector.
#[derive(Drop)]
pub(crate) struct Listed {
    leads: Vec<(Mono, usize)>,
}

impl Model for Listed {
    ghost use Rattle.std.specs.Prelude.{ℕ, List};
    ghost use Rattle.hp_mono.specs.Monomials.{Monomial};

    ghost Value = { List (Monomial × ℕ) };

    ghost view = { λ l. l.leads.items };
}

impl Listed {
    /// No lead.
    fn new(alloc: Global) -> Listed
        ensures { result ≡ [] }
    {
        Listed {
            leads: Vec::new(alloc),
        }
    }

    /// The leads in order.
    fn as_slice(&self) -> &[(Mono, usize)]
        ensures { result.now ≡ self.now }
    {
        self.leads.as_slice()
    }

    /// Adds a lead.
    fn push(&mut self, mono: Mono, place: usize) -> Result<(), NoMem>
        ensures { IfOk result (λ _. self.new ≡ self.old ++ (mono, place) ∷ []) }
    {
        self.leads.push((mono, place))?;
        Ok(())
    }
}

/// Vectors to divide by. Their leads are listed by component, each with the place of its vector.
#[derive(Drop)]
pub struct Divisors<F: Field> {
    members: Vec<Divisor<F>>,
    listed: Vec<Listed>,
}

impl<F: Field> Model for Divisors<F> {
    ghost use Rattle.hp_module.specs.FallingTerms.{Divisors};

    ghost Value = { Divisors F };

    ghost view = { λ d. record { members = d.members.items; listed = d.listed.items } };
}

impl<F: Field> Divisors<F> {
    /// None yet, for vectors of this width.
    ///
    /// Errors: `NoMem` where memory is out.
    pub fn new(alloc: Global, width: usize) -> Result<Divisors<F>, NoMem>
        ensures { IfOk result (λ r. r ≡ no_divisors width) }
    {
        let mut listed = Vec::new(alloc);
        for _ in 0..width {
            listed.push(Listed::new(alloc))?;
        }
        Ok(Divisors {
            members: Vec::new(alloc),
            listed,
        })
    }

    /// Adds a vector, which isn't zero.
    ///
    /// Errors: `NoMem` where memory is out.
    pub fn push<O: TermOrder>(
        &mut self,
        alloc: Global,
        order: &O,
        v: &ModVec<F>,
    ) -> Result<(), NoMem>
        requires divisors { AreDivisors F.ring (O.order order.now) (O.components order.now) self.old }
        requires width { O.components order.now ≡ length v.now }
        requires nonzero { ¬ (v.now ≡ zero_vector F.ring (length v.now)) }
        ensures divisors { IfOk result (λ _. AreDivisors F.ring (O.order order.now) (O.components order.now) self.new) }
        ensures members { IfOk result (λ _. (with_leads F.ring self.new).members ≡ (with_leads F.ring self.old).members ++ v.now ∷ []) }
    {
        let _width = order.width();
        let parts = parts_of(alloc, order, v)?;
        match lead_of(order, parts.as_slice()) {
            None => Ok(()),
            Some((lead, first)) => match first.inv() {
                None => Ok(()),
                Some(inverse) => {
                    self.keep(Divisor {
                        lead,
                        inverse,
                        parts,
                    })?;
                    Ok(())
                }
            },
        }
    }

    /// Adds a member, and lists its lead.
    fn keep(&mut self, member: Divisor<F>) -> Result<(), NoMem>
        requires counted { 1 ≤ member.lead.comp }
        requires within { member.lead.comp ≤ length self.old.listed }
        ensures { IfOk result (λ _. self.new ≡ with_member self.old member) }
    {
        let lead = member.lead;
        let entry = lead.comp - 1;
        let place = self.members.len();
        self.members.push(member)?;
        self.listed[entry].push(lead.mono, place)?;
        Ok(())
    }

    /// Puts a vector with the same greatest term in the place of a member.
    ///
    /// Errors: `NoMem` where memory is out.
    pub fn replace<O: TermOrder>(
        &mut self,
        alloc: Global,
        order: &O,
        place: usize,
        v: &ModVec<F>,
    ) -> Result<(), NoMem>
        requires divisors { AreDivisors F.ring (O.order order.now) (O.components order.now) self.old }
        requires width { O.components order.now ≡ length v.now }
        requires place { place < length self.old.members }
        requires same_lead { (c : F) × IsGreatestTerm (O.order order.now) (member_at (with_leads F.ring self.old) place) (lead_at (with_leads F.ring self.old) place) c × IsGreatestTerm (O.order order.now) v.now (lead_at (with_leads F.ring self.old) place) c }
        ensures divisors { IfOk result (λ _. AreDivisors F.ring (O.order order.now) (O.components order.now) self.new) }
        ensures members { IfOk result (λ _. (with_leads F.ring self.new).members ≡ set (with_leads F.ring self.old).members place v.now) }
        ensures leads { IfOk result (λ _. (with_leads F.ring self.new).leads ≡ (with_leads F.ring self.old).leads) }
    {
        let _width = order.width();
        let parts = parts_of(alloc, order, v)?;
        let lead = self.members[place].lead;
        let inverse = self.members[place].inverse;
        self.members[place] = Divisor {
            lead,
            inverse,
            parts,
        };
        Ok(())
    }

    /// The place of a member whose lead divides the term, and the quotient.
    fn divisor<O: TermOrder>(&self, order: &O, t: &Term) -> Option<(usize, Mono)>
        requires divisors { AreDivisors F.ring (O.order order.now) (O.components order.now) self.now }
        requires within { IsTermWithin (O.components order.now) t.now }
        ensures { MatchOption result (HasNoDivisor (with_leads F.ring self.now) t.now) (λ r. (r.0 < length self.now.members) × (times r.1 (lead_at (with_leads F.ring self.now) r.0) ≡ t.now)) }
    {
        let _width = order.width();
        let listed = self.listed[t.comp - 1].as_slice();
        for k in 0..listed.len() {
            if let Some(quotient) = t.mono.quotient(&listed[k].0) {
                return Some((listed[k].1, quotient));
            }
        }
        None
    }

    /// Takes a multiple of a member, whose lead is that of what is left, from what is left, and
    /// adds it to the quotients.
    fn subtract<O: TermOrder>(
        &self,
        order: &O,
        grading: &Grading,
        place: usize,
        quotient: &Mono,
        c: F,
        rest: &mut Vec<Terms<F>>,
        quotients: &mut Vec<Terms<F>>,
        buffer: &mut Vec<(Mono, F)>,
    ) -> Result<(), NoMem>
        requires divisors { AreDivisors F.ring (O.order order.now) (O.components order.now) self.now }
        requires led { AreLed (free_module F.ring F.inverse (O.components order.now) grading.now.shifts (O.order order.now)) (with_leads F.ring self.now) }
        requires place { place < length self.now.members }
        requires rest { AreFalling F.ring (O.order order.now) (O.components order.now) rest.old.items }
        requires values { All (HasValues F.ring) quotients.old.items }
        requires long { length quotients.old.items ≡ length self.now.members }
        requires lead { IsGreatestTerm (O.order order.now) (vector_of F.ring rest.old.items) (times quotient.now (lead_at (with_leads F.ring self.now) place)) c }
        requires degree { term_degree grading.now.shifts (times quotient.now (lead_at (with_leads F.ring self.now) place)) ≤ max_degree }
        ensures falling { IfOk result (λ _. AreFalling F.ring (O.order order.now) (O.components order.now) rest.new.items) }
        ensures values { IfOk result (λ _. All (HasValues F.ring) quotients.new.items) }
        ensures subtracted { IfOk result (λ _. IsSubtracted (free_module F.ring F.inverse (O.components order.now) grading.now.shifts (O.order order.now)) (with_leads F.ring self.now) place (times quotient.now (lead_at (with_leads F.ring self.now) place)) (vector_of F.ring rest.old.items) (vector_of F.ring quotients.old.items) (vector_of F.ring rest.new.items) (vector_of F.ring quotients.new.items)) }
    {
        let _shifts = grading.shifts.as_slice();
        let _width = order.width();
        let mono = *quotient;
        let _degree = mono.degree();
        let member = &self.members[place];
        let factor = c.times(member.inverse);
        let negative = factor.negate();
        let parts = member.parts.as_slice();
        add_multiple(order, rest, negative, mono, parts, buffer)?;
        quotients[place].push(mono, factor)?;
        Ok(())
    }

    /// Takes a multiple of a member, whose lead is that of what is left, from what is left.
    fn take<O: TermOrder>(
        &self,
        order: &O,
        grading: &Grading,
        place: usize,
        quotient: &Mono,
        c: F,
        rest: &mut Vec<Terms<F>>,
        buffer: &mut Vec<(Mono, F)>,
    ) -> Result<(), NoMem>
        requires divisors { AreDivisors F.ring (O.order order.now) (O.components order.now) self.now }
        requires led { AreLed (free_module F.ring F.inverse (O.components order.now) grading.now.shifts (O.order order.now)) (with_leads F.ring self.now) }
        requires place { place < length self.now.members }
        requires rest { AreFalling F.ring (O.order order.now) (O.components order.now) rest.old.items }
        requires lead { IsGreatestTerm (O.order order.now) (vector_of F.ring rest.old.items) (times quotient.now (lead_at (with_leads F.ring self.now) place)) c }
        requires degree { term_degree grading.now.shifts (times quotient.now (lead_at (with_leads F.ring self.now) place)) ≤ max_degree }
        ensures falling { IfOk result (λ _. AreFalling F.ring (O.order order.now) (O.components order.now) rest.new.items) }
        ensures taken { IfOk result (λ _. IsTaken (free_module F.ring F.inverse (O.components order.now) grading.now.shifts (O.order order.now)) (with_leads F.ring self.now) place (times quotient.now (lead_at (with_leads F.ring self.now) place)) (vector_of F.ring rest.old.items) (vector_of F.ring rest.new.items)) }
    {
        let _shifts = grading.shifts.as_slice();
        let _width = order.width();
        let mono = *quotient;
        let _degree = mono.degree();
        let member = &self.members[place];
        let factor = c.times(member.inverse);
        let negative = factor.negate();
        let parts = member.parts.as_slice();
        add_multiple(order, rest, negative, mono, parts, buffer)?;
        Ok(())
    }

    /// The quotients and the remainder of a division, of a homogeneous vector by homogeneous ones.
    ///
    /// Errors: `NoMem` where memory is out.
    pub fn divide<O: TermOrder>(
        &self,
        alloc: Global,
        order: &O,
        grading: &Grading,
        v: &ModVec<F>,
    ) -> Result<(Vec<Poly<F>>, ModVec<F>), NoMem>
        requires divisors { AreDivisors F.ring (O.order order.now) (O.components order.now) self.now }
        requires led { AreLed (free_module F.ring F.inverse (O.components order.now) grading.now.shifts (O.order order.now)) (with_leads F.ring self.now) }
        requires width { O.components order.now ≡ length v.now }
        requires homogeneous { (d : ℕ) × (d ≤ max_degree) × IsGraded grading.now.shifts d v.now }
        ensures { IfOk result (λ r. IsDivided (free_module F.ring F.inverse (O.components order.now) grading.now.shifts (O.order order.now)) v.now (with_leads F.ring self.now) r.0.items r.1) }
    {
        let _width = order.width();
        let width = v.width();
        let mut rest = parts_of(alloc, order, v)?;
        let members = self.members.as_slice();
        let mut quotients = no_terms(alloc, members.len())?;
        let mut out = no_terms(alloc, width)?;
        let mut buffer = Vec::new(alloc);
        'steps: while let Some((t, c)) = lead_of(order, rest.as_slice()) {
            match self.divisor(order, &t) {
                Some(found) => {
                    let place = found.0;
                    let quotient = found.1;
                    self.subtract(
                        order,
                        grading,
                        place,
                        &quotient,
                        c,
                        &mut rest,
                        &mut quotients,
                        &mut buffer,
                    )?
                }
                None => move_lead(&t, c, &mut rest, &mut out)?,
            }
        }
        let remainder = polynomials(alloc, out.as_slice())?;
        let quotients = polynomials(alloc, quotients.as_slice())?;
        Ok((quotients, ModVec::new(remainder)))
    }

    /// The remainder of a division, of a homogeneous vector by homogeneous ones. The quotients are not kept.
    ///
    /// Errors: `NoMem` where memory is out.
    pub fn remainder<O: TermOrder>(
        &self,
        alloc: Global,
        order: &O,
        grading: &Grading,
        v: &ModVec<F>,
    ) -> Result<ModVec<F>, NoMem>
        requires divisors { AreDivisors F.ring (O.order order.now) (O.components order.now) self.now }
        requires led { AreLed (free_module F.ring F.inverse (O.components order.now) grading.now.shifts (O.order order.now)) (with_leads F.ring self.now) }
        requires width { O.components order.now ≡ length v.now }
        requires homogeneous { (d : ℕ) × (d ≤ max_degree) × IsGraded grading.now.shifts d v.now }
        ensures { IfOk result (λ r. (qs : Vector F) × IsDivided (free_module F.ring F.inverse (O.components order.now) grading.now.shifts (O.order order.now)) v.now (with_leads F.ring self.now) qs r) }
    {
        let _width = order.width();
        let width = v.width();
        let mut rest = parts_of(alloc, order, v)?;
        let mut out = no_terms(alloc, width)?;
        let mut buffer = Vec::new(alloc);
        'steps: while let Some((t, c)) = lead_of(order, rest.as_slice()) {
            match self.divisor(order, &t) {
                Some(found) => {
                    let place = found.0;
                    let quotient = found.1;
                    self.take(order, grading, place, &quotient, c, &mut rest, &mut buffer)?
                }
                None => move_lead(&t, c, &mut rest, &mut out)?,
            }
        }
        let remainder = polynomials(alloc, out.as_slice())?;
        Ok(ModVec::new(remainder))
    }
}
