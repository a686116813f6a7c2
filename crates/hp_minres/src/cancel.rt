//! Cancelling one unit entry.

ghost use Rattle.std.specs.Prelude.{◌≡◌, ◌≢◌, ◌+◌, ◌<◌, ◌≤◌, ℕ, zero, suc, All, IfOk, List as ListOf, [], ◌∷◌, length, map, remove, set, slice_index_or};
ghost use Rattle.hp_mono.specs.Monomials.{max_degree, one};
ghost use Rattle.hp_poly.specs.Polynomials.{IsPoly, poly_degree, poly_neg, poly_plus, poly_times};
ghost use Rattle.hp_minres.specs.Reductions.{IsGradedExact, cancelled_degrees, cancelled_maps, eliminated_rows, inverse_constant, level_degree, level_map, minus_multiple, pivot_row, rows_at};

use hp_algebra::{Field, NoMem, Ring, greatest_weight};
use hp_lists::List;
use hp_mono::Mono;
use hp_poly::Poly;
use std::alloc::Global;
use std::mem;

/// The rows without row `c`.
fn cut_row<F: Field>(alloc: Global, maps: &mut Vec<List<List<Poly<F>>>>, k: usize, c: usize)
    requires map { k < length maps.old.items }
    requires row { c < length (rows_at maps.old.items k) }
    ensures { maps.new.items ≡ set maps.old.items k (remove (rows_at maps.old.items k) c) }
{
    let mut rows = mem::replace(&mut maps[k], List::of(Vec::new(alloc))).into_vec();
    let _row = rows.remove(c);
    maps[k] = List::of(rows);
}

/// The degrees without the one at `c`.
fn cut_degree(alloc: Global, degrees: &mut Vec<List<u32>>, k: usize, c: usize)
    requires map { k < length degrees.old.items }
    requires row { c < length (slice_index_or degrees.old.items k []) }
    ensures { degrees.new.items ≡ set degrees.old.items k (remove (slice_index_or degrees.old.items k []) c) }
{
    let mut row = mem::replace(&mut degrees[k], List::of(Vec::new(alloc))).into_vec();
    let _degree = row.remove(c);
    degrees[k] = List::of(row);
}

/// The rows without column `r`.
///
/// Errors: `NoMem` where memory is out.
fn without_column<F: Field>(
    alloc: Global,
    rows: List<List<Poly<F>>>,
    r: usize,
) -> Result<List<List<Poly<F>>>, NoMem>
    requires { All (λ row. r < length row) rows }
    ensures { IfOk result (λ s. s ≡ map (λ row. remove row r) rows) }
{
    let mut cut = Vec::new(alloc);
    for row in rows.into_vec() {
        let mut entries = row.into_vec();
        let _entry = entries.remove(r);
        cut.push(List::of(entries))?;
    }
    Ok(List::of(cut))
}

/// Cuts column `r` off map `k`, if there is one.
///
/// Errors: `NoMem` where memory is out.
fn cut_column<F: Field>(
    alloc: Global,
    maps: &mut Vec<List<List<Poly<F>>>>,
    k: usize,
    r: usize,
) -> Result<(), NoMem>
    requires { All (λ row. r < length row) (rows_at maps.old.items k) }
    ensures { IfOk result (λ _. maps.new.items ≡ set maps.old.items k (map (λ row. remove row r) (rows_at maps.old.items k))) }
{
    if k < maps.len() {
        let rows = mem::replace(&mut maps[k], List::of(Vec::new(alloc)));
        maps[k] = without_column(alloc, rows, r)?;
    }
    Ok(())
}

/// The inverse of a constant, and zero of zero.
///
/// Errors: `NoMem` where memory is out.
fn inverse_of<F: Field>(alloc: Global, unit: &Poly<F>) -> Result<Poly<F>, NoMem>
    ensures value { IfOk result (λ r. r ≡ inverse_constant F.ring F.inverse unit.now) }
    ensures of { IsPoly F.ring unit.now }
{
    let _terms = unit.terms();
    let mut terms = Vec::new(alloc);
    if let Some((_m, x)) = unit.term(0) {
        if let Some(y) = x.inv() {
            terms.push((Mono::one(), y))?;
        }
    }
    Poly::from_terms(alloc, terms)
}

/// The row without column `c`, divided by its entry there, a constant other than zero.
///
/// Errors: `NoMem` where memory is out.
fn divided_row<F: Field>(alloc: Global, row: List<Poly<F>>, c: usize) -> Result<Vec<Poly<F>>, NoMem>
    requires column { c < length row }
    ensures { IfOk result (λ r. r.items ≡ pivot_row F.ring F.inverse row c) }
{
    let mut entries = row.into_vec();
    let unit = entries.remove(c);
    let inverse = inverse_of(alloc, &unit)?;
    let mut divided = Vec::new(alloc);
    for k in 0..entries.len() {
        let _degree = entries[k].degree();
        divided.push(inverse.mul(alloc, &entries[k])?)?;
    }
    Ok(divided)
}

/// y - x z.
///
/// Errors: `NoMem` where memory is out.
fn minus_product<F: Field>(
    alloc: Global,
    y: &Poly<F>,
    x: &Poly<F>,
    z: &Poly<F>,
) -> Result<Poly<F>, NoMem>
    requires { poly_degree F.ring x.now + poly_degree F.ring z.now ≤ max_degree }
    ensures { IfOk result (λ r. r ≡ poly_plus F.ring y.now (poly_neg F.ring (poly_times F.ring x.now z.now))) }
{
    let product = x.mul(alloc, z)?;
    let turned = product.neg(alloc)?;
    y.add(alloc, &turned)
}

/// The row less the multiple of another by its entry in column `c`, without that column. A row with zero there is not touched.
///
/// Errors: `NoMem` where memory is out.
fn eliminated_row<F: Field>(
    alloc: Global,
    row: List<Poly<F>>,
    c: usize,
    others: &[Poly<F>],
) -> Result<List<Poly<F>>, NoMem>
    requires column { c < length row }
    requires lengths { length others.now + 1 ≡ length row }
    requires degrees { All (λ z. poly_degree F.ring (slice_index_or row c []) + poly_degree F.ring z ≤ max_degree) others.now }
    ensures { IfOk result (λ r. r ≡ minus_multiple F.ring (slice_index_or row c []) (remove row c) others.now) }
{
    let mut entries = row.into_vec();
    let x = entries.remove(c);
    let _weight = greatest_weight(entries.as_slice());
    let _weight = greatest_weight(others);
    if x.is_zero() {
        return Ok(List::of(entries));
    }
    for j in 0..others.len() {
        if !others[j].is_zero() {
            let sum = minus_product(alloc, &entries[j], &x, &others[j])?;
            entries[j] = sum;
        }
    }
    Ok(List::of(entries))
}

/// The rows without row `r` and column `c` after one step of elimination.
///
/// Errors: `NoMem` where memory is out.
fn eliminated<F: Field>(
    alloc: Global,
    rows: List<List<Poly<F>>>,
    r: usize,
    c: usize,
) -> Result<List<List<Poly<F>>>, NoMem>
    requires row { r < length rows }
    requires columns { All (λ row. c < length row) rows }
    requires lengths { All (λ row. length (pivot_row F.ring F.inverse (slice_index_or rows r []) c) + 1 ≡ length row) rows }
    requires degrees { All (λ row. All (λ z. poly_degree F.ring (slice_index_or row c []) + poly_degree F.ring z ≤ max_degree) (pivot_row F.ring F.inverse (slice_index_or rows r []) c)) rows }
    ensures { IfOk result (λ s. s ≡ eliminated_rows F.ring F.inverse rows r c) }
{
    let mut rows = rows.into_vec();
    let pivot = rows.remove(r);
    let others = divided_row(alloc, pivot, c)?;
    let mut left = Vec::new(alloc);
    for row in rows {
        left.push(eliminated_row(alloc, row, c, &others)?)?;
    }
    Ok(List::of(left))
}

/// Cancels the unit in row `r` and column `c` of map h + 1.
///
/// Errors: `NoMem` where memory is out.
pub(crate) fn cancel<F: Field>(
    alloc: Global,
    maps: &mut Vec<List<List<Poly<F>>>>,
    degrees: &mut Vec<List<u32>>,
    h: usize,
    r: usize,
    c: usize,
) -> Result<(), NoMem>
    requires complex { (width : ℕ) × IsGradedExact F.ring width maps.old.items degrees.old.items }
    requires row { r < length (rows_at maps.old.items (suc h)) }
    requires column { c < length (rows_at maps.old.items h) }
    requires degree { level_degree degrees.old.items (suc h) c ≡ level_degree degrees.old.items (suc (suc h)) r }
    requires entry { level_map F.ring maps.old.items (suc h) r c ≢ [] }
    ensures maps { IfOk result (λ _. maps.new.items ≡ cancelled_maps F.ring F.inverse maps.old.items h r c) }
    ensures degrees { IfOk result (λ _. degrees.new.items ≡ cancelled_degrees degrees.old.items h r c) }
{
    cut_row(alloc, maps, h, c);
    let rows = mem::replace(&mut maps[h + 1], List::of(Vec::new(alloc)));
    maps[h + 1] = eliminated(alloc, rows, r, c)?;
    cut_column(alloc, maps, h + 2, r)?;
    cut_degree(alloc, degrees, h, c);
    cut_degree(alloc, degrees, h + 1, r);
    Ok(())
}
