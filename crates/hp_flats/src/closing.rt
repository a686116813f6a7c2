//! The closure and the rank of a set of hyperplanes, by a basis of the common points of the cone over them; and
//! the rank of the arrangement, which is that of the linear forms.

ghost use Rattle.std.specs.Prelude.{◌≡◌, ◌+◌, ◌*◌, ◌^◌, ◌<◌, ◌≤◌, IfOk, IfNone, IfSome, if◌then◌else◌, true, false, All, filter, length, map, slice_index_or};
ghost use Rattle.hp_lists.specs.Lists.{list_all};
ghost use Rattle.hp_algebra.specs.Ring.{dot_of};
ghost use Rattle.hp_algebra.specs.Rows.{entry};
ghost use Rattle.hp_arr.specs.Arrangement.{form, indices, IsAffineArrangement, linear_part};
ghost use Rattle.hp_arr.specs.Flats.{has_point, closure, cut, rank, total_rank};
ghost use Rattle.hp_arr.specs.Operations.{cone};
ghost use Rattle.hp_flats.specs.Matrices.{forms_matrix};
ghost use Rattle.hp_linear.specs.Matrices.{IsKernelMember};
ghost use Rattle.hp_linear.specs.Spaces.{IsBasisOf};
ghost use Rattle.hp_sets.specs.Sets.{IsSetWithin, with_member};

use hp_algebra::{Field, FiniteField, NoMem, form_value};
use hp_arr::Aff;
use hp_linear::Matrix;
use hp_sets::HSet;
use std::alloc::Global;

/// The closure of a set of hyperplanes with a common point: all hyperplanes that contain the intersection of those of
/// the set. None exactly where they have no common point.
///
/// Errors: `NoMem` where memory is out.
pub fn closure<K: FiniteField>(alloc: Global, aff: &Aff<K>, s: HSet) -> Result<Option<HSet>, NoMem>
    requires { IsSetWithin (length aff.now.forms) s }
    ensures none { IfOk result (λ f. IfNone f (has_point K.ring K.numbers aff.now s ≡ false)) }
    ensures some { IfOk result (λ f. IfSome f (λ g. (has_point K.ring K.numbers aff.now s ≡ true) × (g ≡ closure K.ring K.numbers aff.now s))) }
    ensures set { IfOk result (λ f. IfSome f (IsSetWithin (length aff.now.forms))) }
{
    let basis = cut_basis(alloc, aff, s)?;
    if are_at_infinity(&basis, aff.dim()) {
        return Ok(None);
    }
    Ok(Some(containing(aff, &basis)))
}

/// The rank of a set of hyperplanes with a common point: the codimension of their intersection. None exactly where they
/// have no common point.
///
/// Errors: `NoMem` where memory is out.
pub fn rank<K: FiniteField>(alloc: Global, aff: &Aff<K>, s: HSet) -> Result<Option<u32>, NoMem>
    requires { IsSetWithin (length aff.now.forms) s }
    ensures none { IfOk result (λ r. IfNone r (has_point K.ring K.numbers aff.now s ≡ false)) }
    ensures some { IfOk result (λ r. IfSome r (λ k. (has_point K.ring K.numbers aff.now s ≡ true) × (k ≡ rank K.ring K.numbers aff.now s))) }
    ensures points { IfOk result (λ r. IfSome r (λ k. length (cut K.ring K.numbers aff.now s) * K.numbers.order ^ k ≡ K.numbers.order ^ aff.now.dim)) }
{
    let basis = cut_basis(alloc, aff, s)?;
    let dim = aff.dim();
    if are_at_infinity(&basis, dim) {
        return Ok(None);
    }
    Ok(Some(dim + 1 - basis.len() as u32))
}

/// The rank of the arrangement: the greatest rank of a flat, which is the rank of the linear forms.
///
/// Errors: `NoMem` where memory is out.
pub fn total_rank<K: FiniteField>(alloc: Global, aff: &Aff<K>) -> Result<u32, NoMem>
    ensures { IfOk result (λ r. r ≡ total_rank K.ring K.numbers aff.now) }
{
    let basis = directions(alloc, aff)?;
    Ok(aff.dim() - basis.len() as u32)
}

/// A basis of the space of the points at which all linear forms are zero.
fn directions<K: FiniteField>(alloc: Global, aff: &Aff<K>) -> Result<Vec<Vec<K>>, NoMem>
    ensures { IfOk result (λ basis. length basis.items + total_rank K.ring K.numbers aff.now ≡ aff.now.dim) }
{
    let dim = aff.dim() as usize;
    let forms = linear_forms(alloc, aff)?;
    Matrix::new(dim, forms).kernel(alloc)
}

/// The linear forms of the rows.
fn linear_forms<K: FiniteField>(alloc: Global, aff: &Aff<K>) -> Result<Vec<Vec<K>>, NoMem>
    ensures value { IfOk result (λ forms. map (λ form. form.items) forms.items ≡ (linear_part K.ring aff.now).forms) }
    ensures widths { IfOk result (λ forms. All (λ form. length form.items ≡ aff.now.dim) forms.items) }
{
    let dim = aff.dim() as usize;
    let mut forms = Vec::new(alloc);
    for j in 0..aff.len() {
        forms.push(Vec::from_slice(alloc, &aff.row(j + 1)[..dim])?)?;
    }
    Ok(forms)
}

/// A basis of the space of the points of the cone that lie in all hyperplanes of the set.
fn cut_basis<K: FiniteField>(alloc: Global, aff: &Aff<K>, s: HSet) -> Result<Vec<Vec<K>>, NoMem>
    requires { IsSetWithin (length aff.now.forms) s }
    ensures basis { let coned = cone K.ring aff.now.dim aff.now.forms in
        IfOk result (λ basis. IsBasisOf K.ring (aff.now.dim + 1) (IsKernelMember K.ring (forms_matrix coned s)) (map (λ x. x.items) basis.items)) }
    ensures lawful { IsAffineArrangement K.ring K.numbers aff.now }
    ensures nullity { let coned = cone K.ring aff.now.dim aff.now.forms in
        IfOk result (λ basis. length basis.items + rank K.ring K.numbers coned s ≡ aff.now.dim + 1) }
{
    let width = aff.dim() as usize + 1;
    let rows = rows_of(alloc, aff, s)?;
    Matrix::new(width, rows).kernel(alloc)
}

/// The rows of the hyperplanes of the set.
fn rows_of<K: FiniteField>(alloc: Global, aff: &Aff<K>, s: HSet) -> Result<Vec<Vec<K>>, NoMem>
    requires { IsSetWithin (length aff.now.forms) s }
    ensures value { IfOk result (λ rows. map (λ row. row.items) rows.items ≡ map (form aff.now) s) }
    ensures widths { IfOk result (λ rows. All (λ row. length row.items ≡ aff.now.dim + 1) rows.items) }
{
    let mut rows = Vec::new(alloc);
    for k in 0..s.len() {
        rows.push(Vec::from_slice(alloc, aff.row(member(s, k)))?)?;
    }
    Ok(rows)
}

/// The member with exactly `k` smaller members.
fn member(s: HSet, k: u32) -> u32
    requires { k < length s }
    ensures { result ≡ slice_index_or s k 0 }
{
    match s.nth(k) {
        Some(i) => i,
        None => unreachable!(),
    }
}

/// Whether all of these points of the cone have their last coordinate, which stands at `dim`, zero.
fn are_at_infinity<K: Field>(points: &[Vec<K>], dim: u32) -> bool
    requires { All (λ x. length x.items ≡ dim + 1) points.now }
    ensures { result ≡ list_all (λ x. K.ring.is_zero (entry K.ring x.items dim)) points.now }
{
    for point in points {
        if !point[dim as usize].is_nil() {
            return false;
        }
    }
    true
}

/// The hyperplanes whose rows are zero at all of these points of the cone.
fn containing<K: FiniteField>(aff: &Aff<K>, points: &[Vec<K>]) -> HSet
    requires { All (λ x. length x.items ≡ aff.now.dim + 1) points.now }
    ensures value { result ≡ filter (λ j. list_all (λ x. K.ring.is_zero (dot_of K.ring (form aff.now j) x.items)) points.now) (indices aff.now) }
    ensures set { IsSetWithin (length aff.now.forms) result }
{
    let mut found = HSet::empty();
    for j in 1..aff.len() + 1 {
        found = with_if(found, j, contains_all(aff, j, points));
    }
    found
}

/// The set with `j` where the test holds.
pub fn with_if(set: HSet, j: u32, test: bool) -> HSet
    requires low { 1 ≤ j }
    requires high { j ≤ 64 }
    ensures { result ≡ (if test then with_member set j else set) }
{
    if test { set.with(j) } else { set }
}

/// Whether row `j` is zero at all of these points of the cone.
fn contains_all<K: FiniteField>(aff: &Aff<K>, j: u32, points: &[Vec<K>]) -> bool
    requires low { 1 ≤ j }
    requires high { j ≤ length aff.now.forms }
    requires widths { All (λ x. length x.items ≡ aff.now.dim + 1) points.now }
    ensures { result ≡ list_all (λ x. K.ring.is_zero (dot_of K.ring (form aff.now j) x.items)) points.now }
{
    for point in points {
        if !form_value(aff.row(j), point).is_nil() {
            return false;
        }
    }
    true
}
