//! An arrangement of affine hyperplanes: a dimension and a list of rows with constants.

ghost use Rattle.std.specs.Prelude.{◌≡◌, ◌⊎◌, ◌+◌, ◌-◌, ◌≤◌, ◌<◌, ◌^◌, ◌++◌, [], ◌∷◌, IfOk, IfErr, OnOk, IfNone, IfSome, IsTrue, None, Some, Bool, true, false, All, length, map, take};
ghost use Rattle.hp_lists.specs.Lists.{list_all};
ghost use Rattle.hp_algebra.specs.Rows.{IsRow, entry};
ghost use Rattle.hp_arr.specs.Arrangement.{IsArrangement, max_dim, form, IsAffineArrangement, value, is_central, linear_part, with_constants, IsLeastPointOff, HasLeastPointOff};
ghost use Rattle.hp_arr.specs.FormFaults.{affine_fault};
ghost use Rattle.hp_arr.specs.Operations.{restriction, deletion};
ghost use Rattle.hp_arr.specs.PointSearch.{constant_first};

use crate::arrangement::Arr;
use crate::fault::ArrFault;
use crate::point_search::next_coordinate;
use crate::restricted_rows::push_if_meets;
use crate::restriction::{last_entry, restricted_form};
use crate::row_faults::find_row_fault;
use crate::rows::{copies, lists_of};
use hp_algebra::{Field, FiniteField, List, NoMem, form_value};
use std::alloc::Global;
use std::marker::Model;

/// An affine arrangement over the field `K`: a dimension from 1 to `MAX_DIM`, and at most `MAX_FORMS` rows, fewer than
/// the field has elements. A row has the coefficients of a linear form, which are not all zero, and the constant behind
/// them; none is a multiple of another. Hyperplane H_i is the set of the points where row i is zero, with i from 1.
#[derive(Drop)]
pub struct Aff<K: FiniteField> {
    dim: u32,
    rows: Vec<List<K>>,
}

impl<K: FiniteField> Model for Aff<K> {
    ghost use Rattle.hp_arr.specs.Arrangement.{Arrangement, IsAffineArrangement};

    ghost Value = { Arrangement K };

    ghost view = { λ a. record { dim = a.dim; forms = a.rows.items } };

    ghost invariant = { λ a. IsAffineArrangement K.ring K.numbers (record { dim = a.dim; forms = a.rows.items }) };
}

impl<K: FiniteField> Aff<K> {
    /// The arrangement in `l` variables of these rows, which each have `l` coefficients and the constant.
    ///
    /// Errors, the first that holds: `ZeroForm(i)` with the least i, where the coefficients of row i are all zero;
    /// `Repeated(i, j)` for i < j with the least j and then the least i, where the rows are proportional, the constants
    /// included; `TooMany(n)` for more than `MAX_FORMS` rows or no fewer than the field has elements. `Memory` may come in
    /// place of any answer.
    pub fn new(alloc: Global, l: u32, rows: Vec<Vec<K>>) -> Result<Aff<K>, ArrFault>
        requires low { 1 ≤ l }
        requires high { l ≤ max_dim }
        requires widths { All (λ row. length row.items ≡ l + 1) rows.items }
        requires count { length rows.items < 2 ^ 32 - 1 }
        ensures ok { IfOk result (λ a. a ≡ record { dim = l; forms = map (λ row. row.items) rows.items }) }
        ensures lawful { IfOk result (IsAffineArrangement K.ring K.numbers) }

        // The rows have no fault at Ok, and any error but Memory is their fault.
        ensures faultless { let forms = map (λ row. row.items) rows.items in
            OnOk result (affine_fault K.ring K.numbers l forms ≡ None) }
        ensures fault { let forms = map (λ row. row.items) rows.items in
            IfErr result (λ e. (e ≡ ArrFault.Memory) ⊎ (affine_fault K.ring K.numbers l forms ≡ Some e)) }
    {
        Aff::of_lists(alloc, l, lists_of(alloc, rows)?)
    }

    /// The same of lists.
    fn of_lists(alloc: Global, l: u32, rows: Vec<List<K>>) -> Result<Aff<K>, ArrFault>
        requires low { 1 ≤ l }
        requires high { l ≤ max_dim }
        requires widths { All (λ row. length row ≡ l + 1) rows.items }
        requires count { length rows.items < 2 ^ 32 }
        ensures ok { IfOk result (λ a. a ≡ record { dim = l; forms = rows.items }) }
        ensures lawful { IfOk result (IsAffineArrangement K.ring K.numbers) }
        ensures faultless { OnOk result (affine_fault K.ring K.numbers l rows.items ≡ None) }
        ensures fault { IfErr result (λ e. (e ≡ ArrFault.Memory) ⊎ (affine_fault K.ring K.numbers l rows.items ≡ Some e)) }
    {
        if let Some(fault) = find_row_fault(alloc, l, &rows)? {
            return Err(fault);
        }
        Ok(Aff::of_lawful(l, rows))
    }

    /// The arrangement in `l` variables of these rows, which are known to be lawful.
    pub fn of_lawful(l: u32, rows: Vec<List<K>>) -> Aff<K>
        requires { IsAffineArrangement K.ring K.numbers (record { dim = l; forms = rows.items }) }
        ensures value { result ≡ record { dim = l; forms = rows.items } }
        ensures lawful { IsAffineArrangement K.ring K.numbers result }
    {
        Aff { dim: l, rows }
    }

    /// The same forms with constants zero.
    ///
    /// Errors: `NoMem` where memory is out.
    pub fn of(alloc: Global, arr: &Arr<K>) -> Result<Aff<K>, NoMem>
        ensures value { IfOk result (λ a. a ≡ with_constants K.ring arr.now) }
        ensures lawful { IfOk result (IsAffineArrangement K.ring K.numbers) }
    {
        let dim = arr.dim();
        let mut rows = Vec::new(alloc);
        for i in 0..arr.len() {
            rows.push(with_zero(alloc, arr.form(i + 1))?)?;
        }
        Ok(Aff::of_lawful(dim, rows))
    }

    /// The dimension.
    pub fn dim(&self) -> u32
        ensures value { result ≡ self.now.dim }
        ensures lawful { IsAffineArrangement K.ring K.numbers self.now }
    {
        self.dim
    }

    /// How many hyperplanes there are.
    pub fn len(&self) -> u32
        ensures value { result ≡ length self.now.forms }
        ensures lawful { IsAffineArrangement K.ring K.numbers self.now }
    {
        self.rows.len() as u32
    }

    /// The coefficients of row `i`, and its constant behind them, with `i` from 1.
    pub fn row(&self, i: u32) -> &[K]
        requires low { 1 ≤ i }
        requires high { i ≤ length self.now.forms }
        ensures entries { result.now ≡ form self.now i }
        ensures row { IsRow K.ring (self.now.dim + 1) result.now }
    {
        self.rows[i as usize - 1].as_slice()
    }

    /// The value of row `i` at the point, with `i` from 1: that of its linear form, plus its constant.
    pub fn value(&self, i: u32, point: &[K]) -> K
        requires low { 1 ≤ i }
        requires high { i ≤ length self.now.forms }
        requires width { length point.now ≡ self.now.dim }
        ensures point { IsRow K.ring self.now.dim point.now }
        ensures value { result ≡ value K.ring self.now i point.now }
        ensures answer { K.ring.IsValue result }
    {
        let row = self.row(i);
        let dim = point.len();
        form_value(&row[..dim], point).plus(row[dim])
    }

    /// The arrangement of the forms where every constant is zero, and else none.
    ///
    /// Errors: `NoMem` where memory is out.
    pub fn central(&self, alloc: Global) -> Result<Option<Arr<K>>, NoMem>
        ensures none { IfOk result (λ a. IfNone a (is_central K.ring self.now ≡ false)) }
        ensures some { IfOk result (λ a. IfSome a (λ b. (is_central K.ring self.now ≡ true) × (b ≡ linear_part K.ring self.now))) }
        ensures lawful { IfOk result (λ a. IfSome a (λ b. IsArrangement K.ring K.numbers b)) }
    {
        if !self.is_central() {
            return Ok(None);
        }
        let dim = self.dim();
        let mut forms = Vec::new(alloc);
        for i in 0..self.len() {
            forms.push(front(alloc, self.row(i + 1), dim as usize)?)?;
        }
        Ok(Some(Arr::of_lawful(dim, forms)))
    }

    /// The arrangement without row `i`, with `i` from 1.
    ///
    /// Errors: `NoMem` where memory is out.
    pub fn delete(&self, alloc: Global, i: u32) -> Result<Aff<K>, NoMem>
        requires low { 1 ≤ i }
        requires high { i ≤ length self.now.forms }
        ensures value { IfOk result (λ a. a ≡ deletion self.now i) }
        ensures lawful { IfOk result (IsAffineArrangement K.ring K.numbers) }
    {
        let mut rows = copies(alloc, &self.rows)?;
        rows.remove(i as usize - 1);
        Ok(Aff::of_lawful(self.dim(), rows))
    }

    /// The restriction to hyperplane `i`, with `i` from 1: the other hyperplanes cut with it. Row `i` is solved for its
    /// last variable with a nonzero coefficient, and this is put into the other rows. A row whose other coefficients are
    /// all zero then is dropped: its hyperplane does not meet this one. Each other row is scaled so that its first nonzero
    /// coefficient is 1, and of equal rows the first is kept.
    ///
    /// Errors: `NoMem` where memory is out.
    pub fn restrict(&self, alloc: Global, i: u32) -> Result<Aff<K>, NoMem>
        requires low { 1 ≤ i }
        requires high { i ≤ length self.now.forms }
        requires dim { 2 ≤ self.now.dim }
        ensures value { IfOk result (λ a. a ≡ restriction K.ring K.inverse self.now i) }
        ensures lawful { IfOk result (IsAffineArrangement K.ring K.numbers) }
    {
        let dim = self.dim() - 1;
        let others = self.delete(alloc, i)?;
        let rows = self.restricted_rows(alloc, i, &others.rows)?;
        Ok(Aff::of_lawful(dim, rows))
    }

    /// The rows of the restriction to hyperplane `i`, of the other rows.
    ///
    /// Each row is compared with all that are kept, since an arrangement has at most `MAX_FORMS`.
    fn restricted_rows(
        &self,
        alloc: Global,
        i: u32,
        others: &[List<K>],
    ) -> Result<Vec<List<K>>, NoMem>
        requires low { 1 ≤ i }
        requires high { i ≤ length self.now.forms }
        requires others { others.now ≡ (deletion self.now i).forms }
        ensures { IfOk result (λ kept. kept.items ≡ (restriction K.ring K.inverse self.now i).forms) }
    {
        let dim = self.dim() as usize;
        let row = self.row(i);
        let (place, inverse) = last_entry(&row[..dim]);
        let mut kept = Vec::new(alloc);
        for other in others {
            let cut = restricted_form(alloc, row, place, inverse, other.as_slice())?;
            push_if_meets(&mut kept, cut, dim - 1)?;
        }
        Ok(kept)
    }

    /// The lexicographically least point that lies in no hyperplane, where values go by their places.
    ///
    /// It is found coordinate by coordinate, with at most n + 1 trials for each, behind a 1 that stands for the constants'
    /// coordinate. There is such a point, whether or not memory is out.
    ///
    /// Errors: `NoMem` where memory is out.
    pub fn least_point_off(&self, alloc: Global) -> Result<Vec<K>, NoMem>
        ensures least { IfOk result (λ x. IsLeastPointOff K.ring K.numbers self.now x.items) }
        ensures exists { HasLeastPointOff K.ring K.numbers self.now }
    {
        let dim = self.dim();
        let turned = self.turned(alloc)?;
        let mut point = Vec::new(alloc);
        point.push(K::unit())?;
        for _ in 0..dim {
            let next = next_coordinate(&turned, &point);
            point.push(next)?;
        }
        point.remove(0);
        Ok(point)
    }

    /// The rows with the constant in front.
    fn turned(&self, alloc: Global) -> Result<Vec<List<K>>, NoMem>
        ensures { IfOk result (λ turned. turned.items ≡ map (constant_first K.ring self.now.dim) self.now.forms) }
    {
        let dim = self.dim() as usize;
        let mut turned = Vec::new(alloc);
        for i in 0..self.len() {
            turned.push(with_constant_first(alloc, self.row(i + 1), dim)?)?;
        }
        Ok(turned)
    }

    /// Whether every constant is zero.
    pub fn is_central(&self) -> bool
        ensures { result ≡ is_central K.ring self.now }
    {
        are_zero_at(&self.rows, self.dim as usize)
    }
}

/// Whether each row is zero at this place, counted from 0.
fn are_zero_at<K: Field>(rows: &[List<K>], place: usize) -> bool
    requires { All (λ row. place < length row) rows.now }
    ensures { result ≡ list_all (λ row. K.ring.is_zero (entry K.ring row place)) rows.now }
{
    for row in rows {
        if !row.as_slice()[place].is_nil() {
            return false;
        }
    }
    true
}

/// The form with a constant zero behind it.
fn with_zero<K: Field>(alloc: Global, form: &[K]) -> Result<List<K>, NoMem>
    ensures { IfOk result (λ row. row ≡ form.now ++ K.ring.zero ∷ []) }
{
    let mut row = Vec::from_slice(alloc, form)?;
    row.push(K::nil())?;
    Ok(List::of(row))
}

/// The first entries of the row.
fn front<K: Field>(alloc: Global, row: &[K], count: usize) -> Result<List<K>, NoMem>
    requires { count ≤ length row.now }
    ensures { IfOk result (λ front. front ≡ take count row.now) }
{
    Ok(List::of(Vec::from_slice(alloc, &row[..count])?))
}

/// The row with its constant, which stands behind `dim` coefficients, in front.
fn with_constant_first<K: Field>(alloc: Global, row: &[K], dim: usize) -> Result<List<K>, NoMem>
    requires { dim < length row.now }
    ensures { IfOk result (λ turned. turned ≡ constant_first K.ring dim row.now) }
{
    let mut turned = Vec::new(alloc);
    turned.push(row[dim])?;
    turned.extend_from_slice(&row[..dim])?;
    Ok(List::of(turned))
}
