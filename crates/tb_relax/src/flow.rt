// The part of the flux's energy that sees one face, as a parabola in the change of its flow.
ghost use Rattle.std.specs.Prelude.{◌≡◌, ◌+◌, ◌*◌, ◌-◌, ◌^◌, ◌<◌, ◌≤◌, pos, negsuc, ◌+ℤ◌, ◌*ℤ◌, ◌≤ℤ◌, ◌<ℤ◌, unsigned_abs};
ghost use Rattle.tb_places.specs.Places.{second, third};
ghost use Rattle.tb_weighted.specs.Flows.{over_flows};
ghost use Rattle.tb_weighted.specs.Forms.{before, behind};
ghost use Rattle.tb_weighted.specs.Limits.{IsFlux};
ghost use Rattle.tb_relax.specs.Tables.{IsTable, flux_forms, flow_rate_of_cells, flow_rate_of_faces, flow_slope_of_cells, flow_slope_of_faces, flow_on, source_of, table_counts};

use crate::pull::{Pull, both};
use crate::table::{FaceWeight, Table};
use tb_grid::AxisName;

const NONE: Pull = Pull { rate: 0, slope: 0 };

/// What one unit of flow is worth at a surface whose environment is at 1.
const SOURCE: i128 = 1_055_531_162_664_960;

// What a weight times a sum of flows gives.
#[inline(always)]
fn pull_of(weight: u64, flow: i64) -> Pull
    requires flow { unsigned_abs flow ≤ 2 ^ 42 }
    ensures rate { result.rate ≡ pos weight }
    ensures slope { result.slope ≡ pos weight *ℤ flow }
    ensures rate_small { (pos 0 ≤ℤ result.rate) × (result.rate <ℤ pos (2 ^ 64)) }
    ensures slope_small { unsigned_abs result.slope ≤ 2 ^ 106 }
{
    Pull {
        rate: i128::from(weight),
        slope: product(weight, flow),
    }
}

#[inline(always)]
fn product(weight: u64, flow: i64) -> i128
    requires { unsigned_abs flow ≤ 2 ^ 42 }
    ensures value { result ≡ pos weight *ℤ flow }
    ensures small { unsigned_abs result ≤ 2 ^ 106 }
{
    i128::from(weight) * i128::from(flow)
}

#[inline(always)]
fn twice_and(x: i64, y: i64) -> i64
    requires x { unsigned_abs x ≤ 10 ^ 12 }
    requires y { unsigned_abs y ≤ 10 ^ 12 }
    ensures value { result ≡ pos 2 *ℤ x +ℤ y }
    ensures size { unsigned_abs result ≤ 2 ^ 42 }
{
    2 * x + y
}

#[inline(always)]
fn twice(x: i128) -> i128
    requires { unsigned_abs x ≤ 2 ^ 106 }
    ensures value { result ≡ pos 2 *ℤ x }
    ensures size { unsigned_abs result ≤ 2 ^ 107 }
{
    2 * x
}

#[inline(always)]
fn plus(x: i128, y: i128) -> i128
    requires x { unsigned_abs x ≤ 2 ^ 107 }
    requires y { unsigned_abs y ≤ 2 ^ 60 }
    ensures value { result ≡ x +ℤ y }
    ensures size { unsigned_abs result ≤ 2 ^ 108 }
{
    x + y
}

// What a face takes from the loss for each unit of flow.
#[inline(always)]
fn source(face: FaceWeight) -> i128
    ensures value { result ≡ source_of face }
    ensures size { unsigned_abs result ≤ 2 ^ 60 }
{
    if face.inside {
        if face.low_is_air { -SOURCE } else { SOURCE }
    } else {
        0
    }
}

impl Table<'_> {
    // What the face itself gives.
    #[inline(always)]
    fn flow_at(&self, here: i64, axis: AxisName, i: u32, j: u32, k: u32) -> Pull
        requires table { IsTable self.now }
        requires along { i ≤ table_counts self.now axis }
        requires second { j < table_counts self.now (second axis) }
        requires third { k < table_counts self.now (third axis) }
        requires here { unsigned_abs here ≤ 10 ^ 12 }
        ensures rate { result.rate ≡ (flux_forms self.now).face axis i j k }
        ensures slope { result.slope ≡ pos 2 *ℤ ((flux_forms self.now).face axis i j k *ℤ here) +ℤ (flux_forms self.now).source axis i j k }
        ensures rate_small { (pos 0 ≤ℤ result.rate) × (result.rate <ℤ pos (2 ^ 64)) }
        ensures slope_small { unsigned_abs result.slope ≤ 2 ^ 108 }
    {
        let face = self.face(axis, i, j, k);
        let pull = pull_of(face.flux, here);
        Pull {
            rate: pull.rate,
            slope: plus(twice(pull.slope), source(face)),
        }
    }

    // What the cell below the face gives.
    #[inline(always)]
    fn flow_below(&self, flows: &[i64], here: i64, axis: AxisName, i: u32, j: u32, k: u32) -> Pull
        requires table { IsTable self.now }
        requires flux { IsFlux (table_counts self.now) flows.now }
        requires along { i ≤ table_counts self.now axis }
        requires second { j < table_counts self.now (second axis) }
        requires third { k < table_counts self.now (third axis) }
        requires here { here ≡ flow_on (table_counts self.now) flows.now axis i j k }
        requires here_size { unsigned_abs here ≤ 10 ^ 12 }
        ensures rate { result.rate ≡ before (λ h. flow_rate_of_cells self.now axis i j k h j k) i }
        ensures slope { result.slope ≡ before (λ h. flow_slope_of_cells self.now flows.now axis i j k h j k) i }
        ensures rate_small { (pos 0 ≤ℤ result.rate) × (result.rate <ℤ pos (2 ^ 64)) }
        ensures slope_small { unsigned_abs result.slope ≤ 2 ^ 106 }
    {
        if i == 0 {
            NONE
        } else {
            pull_of(
                self.cell_flux(axis, i - 1, j, k),
                twice_and(here, self.flow(flows, axis, i - 1, j, k)),
            )
        }
    }

    // What the cell above the face gives.
    #[inline(always)]
    fn flow_above(&self, flows: &[i64], here: i64, axis: AxisName, i: u32, j: u32, k: u32) -> Pull
        requires table { IsTable self.now }
        requires flux { IsFlux (table_counts self.now) flows.now }
        requires along { i ≤ table_counts self.now axis }
        requires second { j < table_counts self.now (second axis) }
        requires third { k < table_counts self.now (third axis) }
        requires here { here ≡ flow_on (table_counts self.now) flows.now axis i j k }
        requires here_size { unsigned_abs here ≤ 10 ^ 12 }
        ensures rate { result.rate ≡ behind (λ h. flow_rate_of_cells self.now axis i j k h j k) (table_counts self.now axis) i }
        ensures slope { result.slope ≡ behind (λ h. flow_slope_of_cells self.now flows.now axis i j k h j k) (table_counts self.now axis) i }
        ensures rate_small { (pos 0 ≤ℤ result.rate) × (result.rate <ℤ pos (2 ^ 64)) }
        ensures slope_small { unsigned_abs result.slope ≤ 2 ^ 106 }
    {
        if i < self.counts.along(axis) {
            pull_of(
                self.cell_flux(axis, i, j, k),
                twice_and(here, self.flow(flows, axis, i + 1, j, k)),
            )
        } else {
            NONE
        }
    }

    /// The flux's energy along an axis as a parabola in the change of the flow through a face.
    #[inline(always)]
    pub fn face_pull(&self, flows: &[i64], axis: AxisName, i: u32, j: u32, k: u32) -> Pull
        requires table { IsTable self.now }
        requires flux { IsFlux (table_counts self.now) flows.now }
        requires along { i ≤ table_counts self.now axis }
        requires second { j < table_counts self.now (second axis) }
        requires third { k < table_counts self.now (third axis) }
        ensures rate { result.rate ≡ over_flows (flux_forms self.now) axis (flow_rate_of_cells self.now axis i j k) (flow_rate_of_faces self.now axis i j k) }
        ensures slope { result.slope ≡ over_flows (flux_forms self.now) axis (flow_slope_of_cells self.now flows.now axis i j k) (flow_slope_of_faces self.now flows.now axis i j k) }
        ensures rate_small { (pos 0 ≤ℤ result.rate) × (result.rate <ℤ pos (2 ^ 66)) }
        ensures slope_small { unsigned_abs result.slope ≤ 2 ^ 109 }
    {
        let here = self.flow(flows, axis, i, j, k);
        let below = self.flow_below(flows, here, axis, i, j, k);
        let above = self.flow_above(flows, here, axis, i, j, k);
        let at = self.flow_at(here, axis, i, j, k);
        let beside = both(below, above);
        both(beside, at)
    }
}
