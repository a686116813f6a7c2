//! What a `let` builds.

ghost use Rattle.std.specs.Prelude.{◌≡◌, ◌+◌, ◌==◌, ◌<◌, ◌≤◌, ◌||◌, not, true, false, None, IfOk, IfErr, OnOk, All, map, length};
ghost use Rattle.hp_algebra.specs.Ring.{integer};
ghost use Rattle.hp_arr.specs.FormFaults.{form_fault};
ghost use Rattle.hp_arr.specs.Operations.{cone, deletion, restriction};
ghost use Rattle.hp_render.specs.declared.refusal.Refusal.TheVariants.{Dimension};
ghost use Rattle.hp_script.specs.Lists.{BuildIsShort, IsShort};
ghost use Rattle.hp_session.specs.Building.{built, rows_of, is_dimension, has_wrong_length, range_refusal, rows_refusal, source_refusal};
ghost use Rattle.hp_session.specs.Refused.{where_true, line_refusal, index_refusal};
ghost use Rattle.hp_session.specs.State.{lookup};
ghost use Rattle.hp_session.specs.Stops.{StopsBy, refusal_in_order, build_refusal, let_refusal};

use crate::session::Session;
use crate::stop::Stop;
use hp_algebra::{FiniteField, NoMem};
use hp_arr::{Arr, MAX_DIM};
use hp_build::{boolean, graphic, type_a, type_b, type_d};
use hp_render::Refusal;
use hp_script::{Build, Name, Row};
use std::alloc::Global;

/// The arrangement of a `let`.
pub fn arrangement<K: FiniteField>(
    alloc: Global,
    session: &Session<K>,
    name: &Name,
    build: &Build,
) -> Result<Arr<K>, Stop>
    requires { BuildIsShort build.now }
    ensures accepted { OnOk result (let_refusal K.ring K.inverse K.numbers session.now name.now build.now ≡ None) }
    ensures free { OnOk result (lookup session.now.names name.now ≡ None) }
    ensures value { IfOk result (λ arr. arr ≡ built K.ring K.inverse session.now build.now) }
    ensures stop { IfErr result (StopsBy (let_refusal K.ring K.inverse K.numbers session.now name.now build.now)) }
{
    require_source(alloc, session, build)?;
    session.require_free(alloc, name)?;
    made(alloc, session, build)
}

/// Refuses what is built where it is cut out of what has no name.
fn require_source<K: FiniteField>(
    alloc: Global,
    session: &Session<K>,
    build: &Build,
) -> Result<(), Stop>
    ensures known { OnOk result (source_refusal session.now build.now ≡ None) }
    ensures stop { IfErr result (StopsBy (source_refusal session.now build.now)) }
{
    if let Build::Delete(name, _) | Build::Restrict(name, _) = build {
        session.known(alloc, name)?;
    }
    Ok(())
}

/// What is built.
fn made<K: FiniteField>(alloc: Global, session: &Session<K>, build: &Build) -> Result<Arr<K>, Stop>
    requires short { BuildIsShort build.now }
    requires known { source_refusal session.now build.now ≡ None }
    ensures accepted { OnOk result (build_refusal K.ring K.inverse K.numbers session.now build.now ≡ None) }
    ensures value { IfOk result (λ arr. arr ≡ built K.ring K.inverse session.now build.now) }
    ensures stop { IfErr result (StopsBy (build_refusal K.ring K.inverse K.numbers session.now build.now)) }
{
    match build {
        Build::Forms(l, rows) => of_forms(alloc, *l, rows.as_slice()),
        Build::TypeA(r) => Ok(type_a(alloc, below_dimension(*r)?)?),
        Build::TypeB(r) => Ok(type_b(alloc, dimension(*r)?)?),
        Build::TypeD(r) => Ok(type_d(alloc, dimension(*r)?)?),
        Build::Boolean(r) => Ok(boolean(alloc, dimension(*r)?)?),
        Build::Graphic(v, edges) => Ok(graphic(alloc, dimension(*v)?, edges.as_slice())?),
        Build::Cone(l, rows) => cone_over(alloc, *l, rows.as_slice()),
        Build::Delete(name, i) => deleted(alloc, session.known(alloc, name)?, *i),
        Build::Restrict(name, i) => restricted(alloc, session.known(alloc, name)?, *i),
    }
}

/// The arrangement of these rows in l variables.
fn of_forms<K: FiniteField>(alloc: Global, l: u64, rows: &[Row]) -> Result<Arr<K>, Stop>
    requires { IsShort rows.now }
    ensures accepted { let dimension = rows_refusal l rows.now in
        OnOk result (refusal_in_order dimension None None (form_fault K.ring K.numbers (rows_of K.ring rows.now)) ≡ None) }
    ensures value { IfOk result (λ arr. arr ≡ record { dim = l; forms = rows_of K.ring rows.now }) }
    ensures stop { let dimension = rows_refusal l rows.now in
        IfErr result (StopsBy (refusal_in_order dimension None None (form_fault K.ring K.numbers (rows_of K.ring rows.now)))) }
{
    let dim = dimension(l)?;
    Ok(Arr::new(alloc, dim, forms_of(alloc, l, rows)?)?)
}

/// The cone over the affine hyperplanes of these rows in l variables.
fn cone_over<K: FiniteField>(alloc: Global, l: u64, rows: &[Row]) -> Result<Arr<K>, Stop>
    requires { IsShort rows.now }
    ensures accepted { let dimension = rows_refusal (l + 1) rows.now in
        OnOk result (refusal_in_order dimension None None (form_fault K.ring K.numbers (cone K.ring l (rows_of K.ring rows.now)).forms) ≡ None) }
    ensures value { IfOk result (λ arr. arr ≡ cone K.ring l (rows_of K.ring rows.now)) }
    ensures stop { let dimension = rows_refusal (l + 1) rows.now in
        IfErr result (StopsBy (refusal_in_order dimension None None (form_fault K.ring K.numbers (cone K.ring l (rows_of K.ring rows.now)).forms))) }
{
    let below = below_dimension(l)?;
    Ok(Arr::cone(alloc, below, forms_of(alloc, l + 1, rows)?)?)
}

/// The arrangement without the hyperplane of this number.
fn deleted<K: FiniteField>(alloc: Global, arr: &Arr<K>, i: u64) -> Result<Arr<K>, Stop>
    ensures accepted { OnOk result (refusal_in_order None (index_refusal arr.now i) None None ≡ None) }
    ensures value { IfOk result (λ cut. cut ≡ deletion arr.now i) }
    ensures stop { IfErr result (StopsBy (refusal_in_order None (index_refusal arr.now i) None None)) }
{
    let i = index(arr, i)?;
    Ok(arr.delete(alloc, i)?)
}

/// The restriction to the hyperplane of this number.
fn restricted<K: FiniteField>(alloc: Global, arr: &Arr<K>, i: u64) -> Result<Arr<K>, Stop>
    ensures accepted { OnOk result (refusal_in_order (line_refusal arr.now) (index_refusal arr.now i) None None ≡ None) }
    ensures value { IfOk result (λ cut. cut ≡ restriction K.ring K.inverse arr.now i) }
    ensures stop { IfErr result (StopsBy (refusal_in_order (line_refusal arr.now) (index_refusal arr.now i) None None)) }
{
    if arr.dim() == 1 {
        return Err(Stop::Refused(Refusal::Dimension));
    }
    let i = index(arr, i)?;
    Ok(arr.restrict(alloc, i)?)
}

/// The number as that of a hyperplane.
pub(crate) fn index<K: FiniteField>(arr: &Arr<K>, i: u64) -> Result<u32, Stop>
    ensures accepted { OnOk result (index_refusal arr.now i ≡ None) }
    ensures low { IfOk result (λ index. 1 ≤ index) }
    ensures high { IfOk result (λ index. index ≤ length arr.now.forms) }
    ensures value { IfOk result (λ index. index ≡ i) }
    ensures stop { IfErr result (StopsBy (index_refusal arr.now i)) }
{
    if 1 <= i && i <= arr.len() as u64 {
        return Ok(i as u32);
    }
    Err(Stop::Refused(Refusal::BadIndex(i)))
}

/// The number as the dimension of an arrangement.
fn dimension(l: u64) -> Result<u32, Stop>
    ensures accepted { OnOk result (is_dimension l ≡ true) }
    ensures low { IfOk result (λ dim. 1 ≤ dim) }
    ensures high { IfOk result (λ dim. dim ≤ MAX_DIM) }
    ensures value { IfOk result (λ dim. dim ≡ l) }
    ensures stop { IfErr result (StopsBy (range_refusal l)) }
{
    if 1 <= l && l <= MAX_DIM as u64 {
        return Ok(l as u32);
    }
    Err(Stop::Refused(Refusal::Dimension))
}

/// The number as one below the dimension of an arrangement.
fn below_dimension(l: u64) -> Result<u32, Stop>
    ensures accepted { OnOk result (is_dimension (l + 1) ≡ true) }
    ensures high { IfOk result (λ below. below < MAX_DIM) }
    ensures value { IfOk result (λ below. below ≡ l) }
    ensures stop { IfErr result (StopsBy (range_refusal (l + 1))) }
{
    if l < MAX_DIM as u64 {
        return Ok(l as u32);
    }
    Err(Stop::Refused(Refusal::Dimension))
}

/// The rows as forms of that many coefficients, refused where some row has not as many numbers.
fn forms_of<K: FiniteField>(alloc: Global, width: u64, rows: &[Row]) -> Result<Vec<Vec<K>>, Stop>
    ensures accepted { OnOk result (has_wrong_length width rows.now ≡ false) }
    ensures value { IfOk result (λ forms. map (λ form. form.items) forms.items ≡ rows_of K.ring rows.now) }
    ensures widths { IfOk result (λ forms. All (λ form. length form.items ≡ width) forms.items) }
    ensures stop { IfErr result (StopsBy (where_true (has_wrong_length width rows.now) Dimension)) }
{
    if has_wrong_length(width, rows) {
        return Err(Stop::Refused(Refusal::Dimension));
    }
    Ok(rows_in_field(alloc, rows)?)
}

/// Whether some row has not as many numbers.
fn has_wrong_length(width: u64, rows: &[Row]) -> bool
    ensures { result ≡ has_wrong_length width rows.now }
{
    rows.iter().any(|row| row.numbers().len() as u64 != width)
}

/// The rows with their integers taken into the field.
fn rows_in_field<K: FiniteField>(alloc: Global, rows: &[Row]) -> Result<Vec<Vec<K>>, NoMem>
    ensures { IfOk result (λ forms. map (λ form. form.items) forms.items ≡ rows_of K.ring rows.now) }
{
    let mut forms = Vec::with_capacity(alloc, rows.len())?;
    for row in rows {
        forms.push(elements_of(alloc, row.numbers())?)?;
    }
    Ok(forms)
}

/// The integers taken into the field.
pub(crate) fn elements_of<K: FiniteField>(alloc: Global, integers: &[i64]) -> Result<Vec<K>, NoMem>
    ensures { IfOk result (λ elements. elements.items ≡ map (integer K.ring) integers.now) }
{
    let mut elements = Vec::with_capacity(alloc, integers.len())?;
    for v in integers {
        elements.push(K::from_i64(*v))?;
    }
    Ok(elements)
}
