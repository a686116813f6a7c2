//! A central arrangement of hyperplanes: a dimension and a list of linear forms.

ghost use Rattle.std.specs.Prelude.{◌≡◌, ◌↔◌, ◌⊎◌, ◌+◌, ◌-◌, ◌≤◌, ◌<◌, ◌^◌, [], IfOk, IfErr, OnOk, IsTrue, None, Some, All, length, map};
ghost use Rattle.hp_arr.specs.Arrangement.{IsArrangement, max_dim, form, value, IsLeastPointOff, HasLeastPointOff};
ghost use Rattle.hp_algebra.specs.Rows.{IsRow};
ghost use Rattle.hp_arr.specs.FormFaults.{form_fault};
ghost use Rattle.hp_arr.specs.Operations.{deletion, restriction, cone};

use crate::fault::ArrFault;
use crate::fault_search::find_fault;
use crate::point_search::next_coordinate;
use crate::restriction::restricted_forms;
use crate::rows::{cone_forms, copies, lists_of};
use hp_algebra::{FiniteField, List, NoMem, form_value};
use std::alloc::Global;
use std::marker::Model;

/// A central arrangement over the field `K`: a dimension from 1 to `MAX_DIM`, and at most `MAX_FORMS` linear forms, fewer
/// than the field has elements, of which none is zero and none a multiple of another. Hyperplane H_i is the set of
/// the points where form i is zero, with i from 1.
#[derive(Drop)]
pub struct Arr<K: FiniteField> {
    dim: u32,
    forms: Vec<List<K>>,
}

impl<K: FiniteField> Model for Arr<K> {
    ghost use Rattle.hp_arr.specs.Arrangement.{Arrangement, IsArrangement};

    ghost Value = { Arrangement K };

    ghost view = { λ a. record { dim = a.dim; forms = a.forms.items } };

    ghost invariant = { λ a. IsArrangement K.ring K.numbers (record { dim = a.dim; forms = a.forms.items }) };
}

impl<K: FiniteField> Arr<K> {
    /// The arrangement in `l` variables of these forms, which each have `l` coefficients.
    ///
    /// Errors, the first that holds: `ZeroForm(i)` with the least i; `Repeated(i, j)` for i < j with the least j and
    /// then the least i; `TooMany(n)` for more than `MAX_FORMS` forms or no fewer than the field has elements. `Memory`
    /// may come in place of any answer.
    pub fn new(alloc: Global, l: u32, rows: Vec<Vec<K>>) -> Result<Arr<K>, ArrFault>
        requires low { 1 ≤ l }
        requires high { l ≤ max_dim }
        requires widths { All (λ row. length row.items ≡ l) rows.items }
        requires count { length rows.items < 2 ^ 32 - 1 }
        ensures ok { IfOk result (λ a. a ≡ record { dim = l; forms = map (λ row. row.items) rows.items }) }
        ensures lawful { IfOk result (IsArrangement K.ring K.numbers) }

        // The forms have no fault at Ok, and any error but Memory is their fault.
        ensures faultless { let forms = map (λ row. row.items) rows.items in
            OnOk result (form_fault K.ring K.numbers forms ≡ None) }
        ensures fault { let forms = map (λ row. row.items) rows.items in
            IfErr result (λ e. (e ≡ ArrFault.Memory) ⊎ (form_fault K.ring K.numbers forms ≡ Some e)) }
    {
        Arr::of_lists(alloc, l, lists_of(alloc, rows)?)
    }

    /// The same of lists.
    fn of_lists(alloc: Global, l: u32, forms: Vec<List<K>>) -> Result<Arr<K>, ArrFault>
        requires low { 1 ≤ l }
        requires high { l ≤ max_dim }
        requires widths { All (λ form. length form ≡ l) forms.items }
        requires count { length forms.items < 2 ^ 32 }
        ensures ok { IfOk result (λ a. a ≡ record { dim = l; forms = forms.items }) }
        ensures lawful { IfOk result (IsArrangement K.ring K.numbers) }
        ensures faultless { OnOk result (form_fault K.ring K.numbers forms.items ≡ None) }
        ensures fault { IfErr result (λ e. (e ≡ ArrFault.Memory) ⊎ (form_fault K.ring K.numbers forms.items ≡ Some e)) }
    {
        if let Some(fault) = find_fault(alloc, &forms)? {
            return Err(fault);
        }
        Ok(Arr::of_lawful(l, forms))
    }

    /// The arrangement in `l` variables of these forms, which are known to be lawful. It looks for no fault and takes
    /// no memory.
    pub fn of_lawful(l: u32, forms: Vec<List<K>>) -> Arr<K>
        requires { IsArrangement K.ring K.numbers (record { dim = l; forms = forms.items }) }
        ensures value { result ≡ record { dim = l; forms = forms.items } }
        ensures lawful { IsArrangement K.ring K.numbers result }
    {
        Arr { dim: l, forms }
    }

    /// The dimension.
    pub fn dim(&self) -> u32
        ensures value { result ≡ self.now.dim }
        ensures lawful { IsArrangement K.ring K.numbers self.now }
    {
        self.dim
    }

    /// How many hyperplanes there are.
    pub fn len(&self) -> u32
        ensures value { result ≡ length self.now.forms }
        ensures lawful { IsArrangement K.ring K.numbers self.now }
    {
        self.forms.len() as u32
    }

    /// Whether there is no hyperplane.
    pub fn is_empty(&self) -> bool
        ensures { IsTrue result ↔ (self.now.forms ≡ []) }
    {
        self.forms.is_empty()
    }

    /// The coefficients of form `i`, with `i` from 1.
    pub fn form(&self, i: u32) -> &[K]
        requires low { 1 ≤ i }
        requires high { i ≤ length self.now.forms }
        ensures coefficients { result.now ≡ form self.now i }
        ensures row { IsRow K.ring self.now.dim result.now }
    {
        self.forms[i as usize - 1].as_slice()
    }

    /// The value of form `i` at the point, with `i` from 1.
    pub fn value(&self, i: u32, point: &[K]) -> K
        requires low { 1 ≤ i }
        requires high { i ≤ length self.now.forms }
        requires width { length point.now ≡ self.now.dim }
        ensures point { IsRow K.ring self.now.dim point.now }
        ensures value { result ≡ value K.ring self.now i point.now }
        ensures answer { K.ring.IsValue result }
    {
        form_value(self.form(i), point)
    }

    /// The arrangement without form `i`, with `i` from 1.
    ///
    /// Errors: `NoMem` where memory is out.
    pub fn delete(&self, alloc: Global, i: u32) -> Result<Arr<K>, NoMem>
        requires low { 1 ≤ i }
        requires high { i ≤ length self.now.forms }
        ensures value { IfOk result (λ a. a ≡ deletion self.now i) }
        ensures lawful { IfOk result (IsArrangement K.ring K.numbers) }
    {
        let mut forms = copies(alloc, &self.forms)?;
        forms.remove(i as usize - 1);
        Ok(Arr::of_lawful(self.dim(), forms))
    }

    /// The restriction to hyperplane `i`, with `i` from 1: the other hyperplanes cut with it. Form `i` is solved for its
    /// last variable with a nonzero coefficient, and this is put into the other forms; each form is scaled so that its
    /// first nonzero coefficient is 1, and of equal forms the first is kept.
    ///
    /// Errors: `NoMem` where memory is out.
    pub fn restrict(&self, alloc: Global, i: u32) -> Result<Arr<K>, NoMem>
        requires low { 1 ≤ i }
        requires high { i ≤ length self.now.forms }
        requires dim { 2 ≤ self.now.dim }
        ensures value { IfOk result (λ a. a ≡ restriction K.ring K.inverse self.now i) }
        ensures lawful { IfOk result (IsArrangement K.ring K.numbers) }
    {
        let dim = self.dim() - 1;
        let others = self.delete(alloc, i)?;
        let forms = restricted_forms(alloc, self.form(i), &others.forms)?;
        Ok(Arr::of_lawful(dim, forms))
    }

    /// The cone over the affine hyperplanes of these rows, which each have `l` coefficients and the constant: the
    /// arrangement in `l + 1` variables of the rows and of the last coordinate.
    ///
    /// Errors: those of `new` for these forms.
    pub fn cone(alloc: Global, l: u32, rows: Vec<Vec<K>>) -> Result<Arr<K>, ArrFault>
        requires high { l < max_dim }
        requires widths { All (λ row. length row.items ≡ l + 1) rows.items }
        requires count { length rows.items < 2 ^ 32 - 1 }
        ensures ok { IfOk result (λ a. a ≡ cone K.ring l (map (λ row. row.items) rows.items)) }
        ensures lawful { IfOk result (IsArrangement K.ring K.numbers) }

        // The forms have no fault at Ok, and any error but Memory is their fault.
        ensures faultless { let forms = (cone K.ring l (map (λ row. row.items) rows.items)).forms in
            OnOk result (form_fault K.ring K.numbers forms ≡ None) }
        ensures fault { let forms = (cone K.ring l (map (λ row. row.items) rows.items)).forms in
            IfErr result (λ e. (e ≡ ArrFault.Memory) ⊎ (form_fault K.ring K.numbers forms ≡ Some e)) }
    {
        Arr::of_lists(alloc, l + 1, cone_forms(alloc, l, rows)?)
    }

    /// The lexicographically least point that lies in no hyperplane, where values go by their places.
    ///
    /// Coordinate by coordinate, with at most n + 1 trials for each. There is such a point, whether or not memory is out.
    ///
    /// Errors: `NoMem` where memory is out.
    pub fn least_point_off(&self, alloc: Global) -> Result<Vec<K>, NoMem>
        ensures least { IfOk result (λ x. IsLeastPointOff K.ring K.numbers self.now x.items) }
        ensures exists { HasLeastPointOff K.ring K.numbers self.now }
    {
        let mut point = Vec::new(alloc);
        for _ in 0..self.dim {
            let next = next_coordinate(&self.forms, &point);
            point.push(next)?;
        }
        Ok(point)
    }
}
