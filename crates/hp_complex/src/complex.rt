//! Complexes.

ghost use Rattle.std.specs.Prelude.{◌≡◌, ◌↔◌, ◌<◌, IfOk, IsTrue, All, length};
ghost use Rattle.hp_linear.specs.Matrices.{IsMatrix};
ghost use Rattle.hp_complex.specs.Complexes.{map_at, AreComposable, AreMaps, HasProductsWithin, IsZeroProduct, IsComplex, IsExact, ComposesWithin};

use crate::matrix::Mat;
use hp_algebra::{NoMem, Ring};
use std::alloc::Global;
use std::marker::Model;

/// A list of maps between free modules. Each map but the first has as many columns as the map before it has rows: the
/// columns of a map belong to the rows of the map before it.
#[derive(Drop)]
pub struct Complex<R: Ring> {
    maps: Vec<Mat<R>>,
}

impl<R: Ring> Model for Complex<R> {
    ghost use Rattle.std.specs.Prelude.{List};
    ghost use Rattle.hp_linear.specs.Matrices.{Matrix};
    ghost use Rattle.hp_complex.specs.Complexes.{AreMaps};

    ghost Value = { List (Matrix R) };

    ghost view = { λ complex. complex.maps.items };

    ghost invariant = { λ complex. AreMaps R.ring complex.maps.items };
}

impl<R: Ring> Complex<R> {
    /// The complex of these maps. Takes no memory.
    pub fn new(maps: Vec<Mat<R>>) -> Complex<R>
        requires { AreComposable maps.items }
        ensures value { result ≡ maps.items }
        ensures maps { AreMaps R.ring result }
    {
        look_at(&maps);
        Complex { maps }
    }

    /// How many maps there are.
    pub fn len(&self) -> usize
        ensures value { result ≡ length self.now }
        ensures maps { AreMaps R.ring self.now }
    {
        self.maps.len()
    }

    /// Map `k`, counted from 0.
    pub fn map(&self, k: usize) -> &Mat<R>
        requires { k < length self.now }
        ensures value { result.now ≡ map_at self.now k }
        ensures maps { AreMaps R.ring self.now }
    {
        &self.maps[k]
    }

    /// Whether each map times the one before it is zero.
    ///
    /// Errors: `NoMem` where memory is out.
    pub fn compose_is_zero(&self, alloc: Global) -> Result<bool, NoMem>
        requires { ComposesWithin R.ring R.MOST self.now }
        ensures value { IfOk result (λ r. IsTrue r ↔ IsComplex R.ring self.now) }
        ensures exact { IfOk result (λ r. IsExact R.ring self.now → IsTrue r) }
    {
        products_are_zero(alloc, &self.maps)
    }
}

/// Looks at each map, so that all are known to be matrices over the ring.
fn look_at<R: Ring>(maps: &[Mat<R>])
    ensures { All (IsMatrix R.ring) maps.now }
{
    for map in maps {
        let _cols = map.cols();
    }
}

/// Whether each map times the one before it is zero.
fn products_are_zero<R: Ring>(alloc: Global, maps: &[Mat<R>]) -> Result<bool, NoMem>
    requires composable { AreComposable maps.now }
    requires weights { ComposesWithin R.ring R.MOST maps.now }
    ensures { IfOk result (λ r. IsTrue r ↔ IsComplex R.ring maps.now) }
{
    for k in 1..maps.len() {
        if !product_is_zero(alloc, &maps[k], &maps[k - 1])? {
            return Ok(false);
        }
    }
    Ok(true)
}

/// Whether n times m is zero.
fn product_is_zero<R: Ring>(alloc: Global, n: &Mat<R>, m: &Mat<R>) -> Result<bool, NoMem>
    requires widths { n.now.cols ≡ length m.now.rows }
    requires weights { All (HasProductsWithin R.ring R.MOST m.now) n.now.rows }
    ensures { IfOk result (λ r. IsTrue r ↔ IsZeroProduct R.ring n.now m.now) }
{
    for k in 0..n.rows() {
        if !m.sends_to_zero(alloc, n.row(k))? {
            return Ok(false);
        }
    }
    Ok(true)
}
