//! The rows of the maps of a resolution, in the order of their degrees.

ghost use Rattle.std.specs.Prelude.{◌≡◌, ◌<◌, All, IfOk, OnOk, [], ◌∷◌, length, map, slice_index_or};
ghost use Rattle.hp_lists.specs.Lists.{below};
ghost use Rattle.std.specs.List.Sorted.{IsNonDecreasing};
ghost use Rattle.hp_complex.specs.Complexes.{map_at};
ghost use Rattle.hp_resolution.specs.Resolutions.{IsFrame, row_degrees};
ghost use Rattle.hp_minres.specs.Reductions.{AreOrders, IsGradedExact, in_orders, rows_at};

use crate::order::{degree_order, degrees_in_order, places};
use hp_algebra::{Field, NoMem};
use hp_complex::Mat;
use hp_lists::List;
use hp_poly::Poly;
use hp_resolution::Frame;
use std::alloc::Global;

/// Copies of the entries of a row at these columns.
///
/// Errors: `NoMem` where memory is out.
fn entries_in_order<F: Field>(
    alloc: Global,
    row: &[Poly<F>],
    columns: &[usize],
) -> Result<List<Poly<F>>, NoMem>
    requires { All (λ j. j < length row.now) columns.now }
    ensures { IfOk result (λ r. r ≡ map (λ j. slice_index_or row.now j []) columns.now) }
{
    let mut entries = Vec::new(alloc);
    for j in columns {
        entries.push(row[*j].copy(alloc)?)?;
    }
    Ok(List::of(entries))
}

/// Copies of these rows, each at these columns.
///
/// Errors: `NoMem` where memory is out.
fn rows_in_order<F: Field>(
    alloc: Global,
    m: &Mat<Poly<F>>,
    rows: &[usize],
    columns: &[usize],
) -> Result<List<List<Poly<F>>>, NoMem>
    requires rows { All (λ i. i < length m.now.rows) rows.now }
    requires columns { All (λ j. j < m.now.cols) columns.now }
    ensures { IfOk result (λ r. r ≡ in_orders m.now.rows rows.now columns.now) }
{
    let mut sorted = Vec::new(alloc);
    for k in 0..rows.len() {
        let old = m.row(rows[k]);
        let row = entries_in_order(alloc, old, columns)?;
        sorted.push(row)?;
    }
    Ok(List::of(sorted))
}

/// The order of the columns of the first map, alone in a list.
///
/// Errors: `NoMem` where memory is out.
fn first_order(alloc: Global, columns: usize) -> Result<Vec<List<usize>>, NoMem>
    ensures { IfOk result (λ r. r.items ≡ below columns ∷ []) }
{
    let order = places(alloc, columns)?;
    let mut orders = Vec::new(alloc);
    orders.push(List::of(order))?;
    Ok(orders)
}

/// An order of the rows of each map in which the degrees do not fall, behind the order of the columns of the first map.
/// The columns and the rows of the first map keep their order.
///
/// Errors: `NoMem` where memory is out.
fn orders<F: Field>(alloc: Global, frame: &Frame<F>) -> Result<Vec<List<usize>>, NoMem>
    requires { IsNonDecreasing (row_degrees frame.now 0) }
    ensures of { OnOk result (IsFrame F.ring frame.now) }
    ensures orders { IfOk result (λ r. AreOrders frame.now r.items) }
{
    let complex = frame.complex();
    let all = frame.degrees();
    let columns = complex.map(0).cols();
    let mut orders = first_order(alloc, columns)?;
    for k in 0..all.len() {
        let row = all[k].as_slice();
        let order = degree_order(alloc, row, k == 0)?;
        orders.push(order)?;
    }
    Ok(orders)
}

/// The rows of the maps with their degrees. Those of the first map keep their order; those of the later ones are put in the
/// order of their degrees, and with them the columns of the next map.
///
/// Errors: `NoMem` where memory is out.
pub(crate) fn started<F: Field>(
    alloc: Global,
    frame: &Frame<F>,
) -> Result<(Vec<List<List<Poly<F>>>>, Vec<List<u32>>), NoMem>
    requires { IsNonDecreasing (row_degrees frame.now 0) }
    ensures complex { IfOk result (λ r. IsGradedExact F.ring (map_at frame.now.maps 0).cols r.0.items r.1.items) }
    ensures first { IfOk result (λ r. rows_at r.0.items 0 ≡ (map_at frame.now.maps 0).rows) }
{
    let complex = frame.complex();
    let all = frame.degrees();
    let orders = orders(alloc, frame)?;
    let mut maps = Vec::new(alloc);
    let mut sorted = Vec::new(alloc);
    for k in 0..all.len() {
        let map = complex.map(k);
        let row = all[k].as_slice();
        let order = orders[k + 1].as_slice();
        let columns = orders[k].as_slice();
        let rows = rows_in_order(alloc, map, order, columns)?;
        let degrees = degrees_in_order(alloc, row, order)?;
        maps.push(rows)?;
        sorted.push(degrees)?;
    }
    Ok((maps, sorted))
}
