//! The arrangements of root systems and of coordinates.

ghost use Rattle.std.specs.Prelude.{◌≡◌, ◌<◌, ◌≤◌, IfOk, IfErr, OnOk, None};
ghost use Rattle.hp_arr.specs.Arrangement.{IsArrangement, max_dim};
ghost use Rattle.hp_arr.specs.FormFaults.{form_fault};
ghost use Rattle.hp_build.specs.Families.{type_a, type_b, type_d, boolean};
ghost use Rattle.hp_build.specs.Faults.{IsBuildFault};

use crate::built::built;
use crate::fault::BuildFault;
use crate::rows::{braid_forms, coordinates, coordinates_and_pairs, pair_forms};
use hp_algebra::FiniteField;
use hp_arr::Arr;
use std::alloc::Global;

/// The braid arrangement of rank `r`: in `r + 1` variables the forms x_i - x_j for i < j, in lexicographic order of pairs.
///
/// Errors: `TooMany(n)` for more than `MAX_FORMS` forms or no fewer than the field has elements; `Memory` where memory
/// is out.
pub fn type_a<K: FiniteField>(alloc: Global, r: u32) -> Result<Arr<K>, BuildFault>
    requires { r < max_dim }
    ensures value { IfOk result (λ a. a ≡ type_a K.ring r) }
    ensures lawful { IfOk result (IsArrangement K.ring K.numbers) }
    ensures faultless { OnOk result (form_fault K.ring K.numbers (type_a K.ring r).forms ≡ None) }
    ensures fault { IfErr result (IsBuildFault K.numbers (type_a K.ring r)) }
{
    let l = r + 1;
    let forms = braid_forms(alloc, l)?;
    built(l, forms)
}

/// The arrangement of the root system B_r: x_1 to x_r, and then for each pair i < j in lexicographic order x_i - x_j and x_i + x_j.
///
/// Errors: `TooMany(n)` for more than `MAX_FORMS` forms or no fewer than the field has elements; `Memory` where memory
/// is out.
#[tactic(auto, using(crate::proofs::FamilyForms::few_type_b))]
pub fn type_b<K: FiniteField>(alloc: Global, r: u32) -> Result<Arr<K>, BuildFault>
    requires low { 1 ≤ r }
    requires high { r ≤ max_dim }
    ensures value { IfOk result (λ a. a ≡ type_b K.ring r) }
    ensures lawful { IfOk result (IsArrangement K.ring K.numbers) }
    ensures faultless { OnOk result (form_fault K.ring K.numbers (type_b K.ring r).forms ≡ None) }
    ensures fault { IfErr result (IsBuildFault K.numbers (type_b K.ring r)) }
{
    let forms = coordinates_and_pairs(alloc, r)?;
    built(r, forms)
}

/// The arrangement of the root system D_r: for each pair i < j in lexicographic order x_i - x_j and x_i + x_j.
///
/// Errors: `TooMany(n)` for more than `MAX_FORMS` forms or no fewer than the field has elements; `Memory` where memory
/// is out.
#[tactic(auto, using(crate::proofs::FamilyForms::few_type_d))]
pub fn type_d<K: FiniteField>(alloc: Global, r: u32) -> Result<Arr<K>, BuildFault>
    requires low { 1 ≤ r }
    requires high { r ≤ max_dim }
    ensures value { IfOk result (λ a. a ≡ type_d K.ring r) }
    ensures lawful { IfOk result (IsArrangement K.ring K.numbers) }
    ensures faultless { OnOk result (form_fault K.ring K.numbers (type_d K.ring r).forms ≡ None) }
    ensures fault { IfErr result (IsBuildFault K.numbers (type_d K.ring r)) }
{
    let forms = pair_forms(alloc, r)?;
    built(r, forms)
}

/// The coordinate hyperplanes in `r` variables: x_1 to x_r.
///
/// Errors: `TooMany(n)` for more than `MAX_FORMS` forms or no fewer than the field has elements; `Memory` where memory
/// is out.
#[tactic(auto, using(crate::proofs::FamilyForms::few_boolean))]
pub fn boolean<K: FiniteField>(alloc: Global, r: u32) -> Result<Arr<K>, BuildFault>
    requires low { 1 ≤ r }
    requires high { r ≤ max_dim }
    ensures value { IfOk result (λ a. a ≡ boolean K.ring r) }
    ensures lawful { IfOk result (IsArrangement K.ring K.numbers) }
    ensures faultless { OnOk result (form_fault K.ring K.numbers (boolean K.ring r).forms ≡ None) }
    ensures fault { IfErr result (IsBuildFault K.numbers (boolean K.ring r)) }
{
    let forms = coordinates(alloc, r)?;
    built(r, forms)
}
