//! The members so far, and the division by them.

ghost use Rattle.std.specs.Prelude.{◌≡◌, ◌≢◌, ◌≤◌, ℕ, ◌+◌, ◌<◌, IfErr, IfOk, length};
ghost use Rattle.hp_algebra.specs.Ring.{greatest_weight_of};
ghost use Rattle.hp_mono.specs.Monomials.{degree, max_degree};
ghost use Rattle.hp_poly.specs.Polynomials.{constant, poly_ring};
ghost use Rattle.hp_module.specs.Vectors.{Vector, vector_scale};
ghost use Rattle.hp_module.specs.Divisions.{IsDivided};
ghost use Rattle.hp_module.specs.FreeModules.{HasDegree, IsIn};
ghost use Rattle.hp_module.specs.Leads.{IsGreatestTerm};
ghost use Rattle.hp_module.specs.ElimOrders.{elimination_order};
ghost use Rattle.hp_module.specs.CriticalPairs.{pair_vector};
ghost use Rattle.hp_groebner.specs.BasisEnds.{IsTailReduced};
ghost use Rattle.hp_groebner.specs.LimitRules.{most_degree};
ghost use Rattle.hp_groebner.specs.PairQueues.{IsPair, pair_degree};
ghost use Rattle.hp_groebner.specs.Runs.{IsJob, IsOver, IsPushed, IsReduced, IsReplaced, IsRun, held, job, module_of};

use crate::limits::Stop;
use crate::queue::Queue;
use crate::setting::Setting;
use hp_algebra::{Field, Module, NoMem};
use hp_module::{Divisors, ModVec};
use hp_mono::{Mono, Term};
use std::alloc::Global;
use std::marker::Model;

/// The vector divided by a number that isn't zero.
///
/// Errors: `NoMem` where memory is out.
fn monic<F: Field>(alloc: Global, v: &ModVec<F>, c: F) -> Result<ModVec<F>, NoMem>
    requires nonzero { c ≢ F.ring.zero }
    requires weight { greatest_weight_of (poly_ring F.ring) v.now ≤ max_degree }
    ensures { IfOk result (λ r. r ≡ vector_scale F.ring (constant F.ring (F.inverse c)) v.now) }
{
    match c.inv() {
        None => v.copy(alloc),
        Some(inverse) => v.times_term(alloc, inverse, Mono::one()),
    }
}

/// The members so far, as vectors and to divide by, and the critical pairs of their leads.
#[derive(Drop)]
pub(crate) struct State<F: Field> {
    divisors: Divisors<F>,
    members: Vec<ModVec<F>>,
    queue: Queue,
}

impl<F: Field> Model for State<F> {
    ghost use Rattle.hp_groebner.specs.Runs.{State};

    ghost Value = { State F };

    ghost view = { λ s. record { divisors = s.divisors; members = s.members.items; queue = s.queue } };
}

impl<F: Field> State<F> {
    /// No member yet.
    ///
    /// Errors: `NoMem` where memory is out.
    pub(crate) fn new(
        alloc: Global,
        setting: &Setting,
        gens: &[ModVec<F>],
    ) -> Result<State<F>, NoMem>
        requires { IsJob (job F.ring F.inverse setting.now gens.now) }
        ensures { IfOk result (λ s. IsRun (job F.ring F.inverse setting.now gens.now) s 0 0 0 0) }
    {
        let divisors = Divisors::new(alloc, setting.order.width)?;
        let queue = Queue::new(alloc, &setting.limits)?;
        Ok(State {
            divisors,
            members: Vec::new(alloc),
            queue,
        })
    }

    /// The members in order.
    pub(crate) fn members(&self) -> &[ModVec<F>]
        ensures { result.now ≡ self.now.members }
    {
        self.members.as_slice()
    }

    /// The critical pairs of the leads.
    pub(crate) fn queue(&self) -> &Queue
        ensures { result.now ≡ self.now.queue }
    {
        &self.queue
    }

    /// The members to divide by.
    pub(crate) fn divisors(&self) -> &Divisors<F>
        ensures { result.now ≡ self.now.divisors }
    {
        &self.divisors
    }

    /// The difference of the multiples of two members that have the least common multiple of their leads as lead.
    ///
    /// Errors: `NoMem` where memory is out.
    pub(crate) fn pair(
        &self,
        alloc: Global,
        setting: &Setting,
        gens: &[ModVec<F>],
        d: u32,
        earlier: usize,
        later: usize,
    ) -> Result<ModVec<F>, NoMem>
        requires run { (g : ℕ) × (p : ℕ) × IsRun (job F.ring F.inverse setting.now gens.now) self.now d g p (d + 1) }
        requires degree { d ≤ most_degree }
        requires pair { IsPair self.now.queue.leads earlier later }
        requires lcm { pair_degree self.now.queue.leads earlier later ≡ d }
        ensures { IfOk result (λ v. v ≡ pair_vector F.ring (held self.now) earlier later F.ring.one F.ring.one) }
    {
        let leads = self.queue.leads();
        let up = leads[later].mono.cofactor(&leads[earlier].mono);
        let down = leads[earlier].mono.cofactor(&leads[later].mono);
        let first = self.members[later].times_term(alloc, F::unit(), up)?;
        let second = self.members[earlier].times_term(alloc, F::unit().negate(), down)?;
        first.m_add(alloc, &second)
    }

    /// Adds a monic homogeneous vector with this lead, which no lead of a member divides.
    ///
    /// Errors: `NoMem` where memory is out.
    fn push(
        &mut self,
        alloc: Global,
        setting: &Setting,
        gens: &[ModVec<F>],
        d: u32,
        v: ModVec<F>,
        t: Term,
    ) -> Result<(), NoMem>
        requires run { (g : ℕ) × (p : ℕ) × IsRun (job F.ring F.inverse setting.now gens.now) self.old d g p (d + 1) }
        requires degree { d ≤ most_degree }
        requires vector { IsIn (module_of (job F.ring F.inverse setting.now gens.now)) v }
        requires lead { IsGreatestTerm (elimination_order setting.now.order.split) v t F.ring.one }
        requires homogeneous { HasDegree (module_of (job F.ring F.inverse setting.now gens.now)) d v }
        ensures { IfOk result (λ _. IsPushed (job F.ring F.inverse setting.now gens.now) self.old v t self.new) }
    {
        self.divisors.push(alloc, &setting.order, &v)?;
        self.queue.push(alloc, &setting.limits, t)?;
        self.members.push(v)?;
        Ok(())
    }

    /// Puts a member with a reduced tail in its place.
    ///
    /// Errors: `NoMem` where memory is out.
    pub(crate) fn replace(
        &mut self,
        alloc: Global,
        setting: &Setting,
        gens: &[ModVec<F>],
        place: usize,
        v: ModVec<F>,
    ) -> Result<(), NoMem>
        requires run { (d : ℕ) × (g : ℕ) × (p : ℕ) × (top : ℕ) × IsRun (job F.ring F.inverse setting.now gens.now) self.old d g p top }
        requires within { place < length self.old.members }
        requires reduced { IsTailReduced (job F.ring F.inverse setting.now gens.now) self.old place v }
        ensures { IfOk result (λ _. IsReplaced (job F.ring F.inverse setting.now gens.now) self.old place v self.new) }
    {
        self.divisors.replace(alloc, &setting.order, place, &v)?;
        self.members[place] = v;
        Ok(())
    }

    /// What is left of a homogeneous vector of degree d when it is divided by the members.
    ///
    /// Errors: `NoMem` where memory is out.
    fn remainder(
        &self,
        alloc: Global,
        setting: &Setting,
        gens: &[ModVec<F>],
        d: u32,
        v: &ModVec<F>,
    ) -> Result<ModVec<F>, NoMem>
        requires run { (g : ℕ) × (p : ℕ) × IsRun (job F.ring F.inverse setting.now gens.now) self.now d g p (d + 1) }
        requires degree { d ≤ most_degree }
        requires vector { IsIn (module_of (job F.ring F.inverse setting.now gens.now)) v.now }
        requires homogeneous { HasDegree (module_of (job F.ring F.inverse setting.now gens.now)) d v.now }
        ensures { IfOk result (λ r. (qs : Vector F) × IsDivided (module_of (job F.ring F.inverse setting.now gens.now)) v.now (held self.now) qs r) }
    {
        self.divisors
            .remainder(alloc, &setting.order, &setting.grading, v)
    }

    /// Divides a homogeneous vector of degree d by the members. What is left of it, made monic, becomes a member.
    ///
    /// Errors: `Pairs` where then the critical pairs of the leads are more than the limit; `Memory` where memory is out.
    pub(crate) fn reduce(
        &mut self,
        alloc: Global,
        setting: &Setting,
        gens: &[ModVec<F>],
        d: u32,
        v: &ModVec<F>,
    ) -> Result<(), Stop>
        requires run { (g : ℕ) × (p : ℕ) × IsRun (job F.ring F.inverse setting.now gens.now) self.old d g p (d + 1) }
        requires degree { d ≤ most_degree }
        requires vector { IsIn (module_of (job F.ring F.inverse setting.now gens.now)) v.now }
        requires homogeneous { HasDegree (module_of (job F.ring F.inverse setting.now gens.now)) d v.now }
        ensures reduced { IfOk result (λ _. IsReduced (job F.ring F.inverse setting.now gens.now) v.now self.old self.new × (self.new.queue.pairs ≤ setting.now.limits.pairs)) }
        ensures stop { IfErr result (IsOver (job F.ring F.inverse setting.now gens.now) v.now self.old self.new) }
    {
        let rest = self.remainder(alloc, setting, gens, d, v)?;
        if let Some((t, c)) = rest.lead(&setting.order) {
            let member = monic(alloc, &rest, c)?;
            self.push(alloc, setting, gens, d, member, t)?;
            if self.queue.pairs() > setting.limits.pairs as usize {
                return Err(Stop::Pairs);
            }
        }
        Ok(())
    }
}
