// The part of the field's energy that sees one node, as a parabola in the change of its value.
ghost use Rattle.std.specs.Prelude.{◌≡◌, ◌≢◌, ◌+◌, ◌-◌, ◌*◌, ◌^◌, ◌<◌, ◌≤◌, pos, ◌+ℤ◌, ◌-ℤ◌, ◌*ℤ◌, ◌≤ℤ◌, ◌<ℤ◌, unsigned_abs};
ghost use Rattle.tb_places.specs.Places.{IsNode, second, third};
ghost use Rattle.tb_weighted.specs.Forms.{before, behind, only_at, stencil, Beside, cell_part, cell_slope, face_rate, face_slope, line_near, layer_near, axis_near, over_axis, form_rate, form_slope};
ghost use Rattle.tb_weighted.specs.Forms.{values_of};
ghost use Rattle.tb_weighted.specs.Limits.{IsField};
ghost use Rattle.tb_relax.specs.Tables.{IsTable, field_forms, rate_of_cells, rate_of_faces, slope_of_cells, slope_of_faces, table_counts, value_on};

use crate::table::Table;
use tb_grid::{AxisName, Place, other_axes};

/// A parabola `rate * t² + slope * t`.
#[derive(Clone, Copy)]
pub struct Pull {
    pub rate: i128,
    pub slope: i128,
}

/// A line of nodes, and an interval that it bounds with the interval's other line.
#[derive(Clone, Copy)]
pub struct Side {
    pub own: u32,
    pub interval: u32,
    pub other: u32,
}

const NONE: Pull = Pull { rate: 0, slope: 0 };

// The sum of two parabolas.
#[inline(always)]
pub(crate) fn both(x: Pull, y: Pull) -> Pull
    requires x_rate { unsigned_abs x.rate ≤ 2 ^ 80 }
    requires y_rate { unsigned_abs y.rate ≤ 2 ^ 80 }
    requires x_slope { unsigned_abs x.slope ≤ 2 ^ 110 }
    requires y_slope { unsigned_abs y.slope ≤ 2 ^ 110 }
    ensures rate { result.rate ≡ x.rate +ℤ y.rate }
    ensures slope { result.slope ≡ x.slope +ℤ y.slope }
{
    Pull {
        rate: sum(x.rate, y.rate),
        slope: sum(x.slope, y.slope),
    }
}

#[inline(always)]
fn sum(x: i128, y: i128) -> i128
    requires x { unsigned_abs x ≤ 2 ^ 110 }
    requires y { unsigned_abs y ≤ 2 ^ 110 }
    ensures { result ≡ x +ℤ y }
{
    x + y
}

// What a weight times a difference gives.
#[inline(always)]
fn pull_of(weight: u128, difference: i64) -> Pull
    requires weight { weight < 2 ^ 71 }
    requires difference { unsigned_abs difference ≤ 2 ^ 32 }
    ensures rate { result.rate ≡ pos 4 *ℤ pos weight }
    ensures slope { result.slope ≡ pos weight *ℤ difference }
    ensures rate_small { (pos 0 ≤ℤ result.rate) × (result.rate <ℤ pos (2 ^ 73)) }
    ensures slope_small { unsigned_abs result.slope ≤ 2 ^ 103 }
{
    let weight = weight as i128;
    Pull {
        rate: 4 * weight,
        slope: product(weight, difference),
    }
}

#[inline(always)]
fn product(weight: i128, difference: i64) -> i128
    requires least { pos 0 ≤ℤ weight }
    requires weight { weight <ℤ pos (2 ^ 71) }
    requires difference { unsigned_abs difference ≤ 2 ^ 32 }
    ensures value { result ≡ weight *ℤ difference }
    ensures small { unsigned_abs result ≤ 2 ^ 103 }
{
    weight * i128::from(difference)
}

// Four values, weighted by 8, 4, 4 and 2.
#[inline(always)]
fn weigh(own: i64, second: i64, third: i64, both: i64) -> i64
    requires own { (pos 0 ≤ℤ own) × (own ≤ℤ pos (10 ^ 8)) }
    requires second { (pos 0 ≤ℤ second) × (second ≤ℤ pos (10 ^ 8)) }
    requires third { (pos 0 ≤ℤ third) × (third ≤ℤ pos (10 ^ 8)) }
    requires both { (pos 0 ≤ℤ both) × (both ≤ℤ pos (10 ^ 8)) }
    ensures value { result ≡ pos 8 *ℤ own +ℤ pos 4 *ℤ second +ℤ pos 4 *ℤ third +ℤ pos 2 *ℤ both }
    ensures least { pos 0 ≤ℤ result }
    ensures most { result ≤ℤ pos (18 * 10 ^ 8) }
{
    2 * twice_and(twice_and(own, second), twice_and(third, both))
}

#[inline(always)]
fn twice_and(x: i64, y: i64) -> i64
    requires x { (pos 0 ≤ℤ x) × (x ≤ℤ pos (10 ^ 9)) }
    requires y { (pos 0 ≤ℤ y) × (y ≤ℤ pos (10 ^ 9)) }
    ensures { result ≡ pos 2 *ℤ x +ℤ y }
{
    2 * x + y
}

impl Table<'_> {
    // The values round a node's line, weighted.
    #[inline(always)]
    fn stencil(&self, values: &[i64], axis: AxisName, i: u32, q: Side, r: Side) -> i64
        requires field { IsField (table_counts self.now) values.now }
        requires along { i ≤ table_counts self.now axis }
        requires second { (q.own ≤ table_counts self.now (second axis)) × (q.other ≤ table_counts self.now (second axis)) }
        requires third { (r.own ≤ table_counts self.now (third axis)) × (r.other ≤ table_counts self.now (third axis)) }
        ensures value { result ≡ stencil (value_on (table_counts self.now) values.now axis) i q.own r.own q.other r.other }
        ensures least { pos 0 ≤ℤ result }
        ensures most { result ≤ℤ pos (18 * 10 ^ 8) }
    {
        weigh(
            self.value(values, axis, i, q.own, r.own),
            self.value(values, axis, i, q.other, r.own),
            self.value(values, axis, i, q.own, r.other),
            self.value(values, axis, i, q.other, r.other),
        )
    }

    // What the face of a line of cells at the node's line gives.
    #[inline(always)]
    fn pull_at(&self, here: i64, axis: AxisName, i: u32, q: Side, r: Side) -> Pull
        requires table { IsTable self.now }
        requires along { i ≤ table_counts self.now axis }
        requires second { q.interval < table_counts self.now (second axis) }
        requires third { r.interval < table_counts self.now (third axis) }
        requires here_least { pos 0 ≤ℤ here }
        requires here_most { here ≤ℤ pos (18 * 10 ^ 8) }
        ensures rate { result.rate ≡ pos 4 *ℤ (field_forms self.now).face axis i q.interval r.interval }
        ensures slope { result.slope ≡ (field_forms self.now).face axis i q.interval r.interval
            *ℤ (here -ℤ pos 18 *ℤ (field_forms self.now).level axis i q.interval r.interval) }
        ensures rate_small { (pos 0 ≤ℤ result.rate) × (result.rate <ℤ pos (2 ^ 73)) }
        ensures slope_small { unsigned_abs result.slope ≤ 2 ^ 103 }
    {
        let face = self.face(axis, i, q.interval, r.interval);
        if face.inside {
            pull_of(face.field, here - 1_800_000_000)
        } else {
            pull_of(face.field, here)
        }
    }

    // What the cell below the node's line gives.
    #[inline(always)]
    fn pull_below(
        &self,
        values: &[i64],
        here: i64,
        axis: AxisName,
        i: u32,
        q: Side,
        r: Side,
    ) -> Pull
        requires table { IsTable self.now }
        requires field { IsField (table_counts self.now) values.now }
        requires along { i ≤ table_counts self.now axis }
        requires second { (q.own ≤ table_counts self.now (second axis)) × (q.other ≤ table_counts self.now (second axis)) × (q.interval < table_counts self.now (second axis)) }
        requires third { (r.own ≤ table_counts self.now (third axis)) × (r.other ≤ table_counts self.now (third axis)) × (r.interval < table_counts self.now (third axis)) }
        requires here_least { pos 0 ≤ℤ here }
        requires here_most { here ≤ℤ pos (18 * 10 ^ 8) }
        requires here { here ≡ stencil (value_on (table_counts self.now) values.now axis) i q.own r.own q.other r.other }
        requires second_side { Beside q.own q.interval q.other }
        requires third_side { Beside r.own r.interval r.other }
        ensures rate { result.rate ≡ before (λ h. cell_part ((field_forms self.now).cell axis) (only_at i q.own r.own) h q.interval r.interval) i }
        ensures slope { result.slope ≡ before (λ h. cell_slope ((field_forms self.now).cell axis) (value_on (table_counts self.now) values.now axis) (only_at i q.own r.own) h q.interval r.interval) i }
        ensures rate_small { (pos 0 ≤ℤ result.rate) × (result.rate <ℤ pos (2 ^ 73)) }
        ensures slope_small { unsigned_abs result.slope ≤ 2 ^ 103 }
    {
        if i == 0 {
            Pull { rate: 0, slope: 0 }
        } else {
            pull_of(
                self.cell_weight(axis, i - 1, q.interval, r.interval),
                here - self.stencil(values, axis, i - 1, q, r),
            )
        }
    }

    // What the cell above the node's line gives.
    #[inline(always)]
    fn pull_above(
        &self,
        values: &[i64],
        here: i64,
        axis: AxisName,
        i: u32,
        q: Side,
        r: Side,
    ) -> Pull
        requires table { IsTable self.now }
        requires field { IsField (table_counts self.now) values.now }
        requires along { i ≤ table_counts self.now axis }
        requires second { (q.own ≤ table_counts self.now (second axis)) × (q.other ≤ table_counts self.now (second axis)) × (q.interval < table_counts self.now (second axis)) }
        requires third { (r.own ≤ table_counts self.now (third axis)) × (r.other ≤ table_counts self.now (third axis)) × (r.interval < table_counts self.now (third axis)) }
        requires here_least { pos 0 ≤ℤ here }
        requires here_most { here ≤ℤ pos (18 * 10 ^ 8) }
        requires here { here ≡ stencil (value_on (table_counts self.now) values.now axis) i q.own r.own q.other r.other }
        requires second_side { Beside q.own q.interval q.other }
        requires third_side { Beside r.own r.interval r.other }
        ensures rate { result.rate ≡ behind (λ h. cell_part ((field_forms self.now).cell axis) (only_at i q.own r.own) h q.interval r.interval) (table_counts self.now axis) i }
        ensures slope { result.slope ≡ behind (λ h. cell_slope ((field_forms self.now).cell axis) (value_on (table_counts self.now) values.now axis) (only_at i q.own r.own) h q.interval r.interval) (table_counts self.now axis) i }
        ensures rate_small { (pos 0 ≤ℤ result.rate) × (result.rate <ℤ pos (2 ^ 73)) }
        ensures slope_small { unsigned_abs result.slope ≤ 2 ^ 103 }
    {
        if i < self.counts.along(axis) {
            pull_of(
                self.cell_weight(axis, i, q.interval, r.interval),
                here - self.stencil(values, axis, i + 1, q, r),
            )
        } else {
            Pull { rate: 0, slope: 0 }
        }
    }

    // What a line of cells beside a node gives.
    #[inline(always)]
    fn line_pull(&self, values: &[i64], axis: AxisName, i: u32, q: Side, r: Side) -> Pull
        requires table { IsTable self.now }
        requires field { IsField (table_counts self.now) values.now }
        requires along { i ≤ table_counts self.now axis }
        requires second { (q.own ≤ table_counts self.now (second axis)) × (q.other ≤ table_counts self.now (second axis)) × (q.interval < table_counts self.now (second axis)) }
        requires third { (r.own ≤ table_counts self.now (third axis)) × (r.other ≤ table_counts self.now (third axis)) × (r.interval < table_counts self.now (third axis)) }
        requires second_side { Beside q.own q.interval q.other }
        requires third_side { Beside r.own r.interval r.other }
        ensures rate { result.rate ≡ line_near (table_counts self.now axis) (rate_of_cells self.now axis i q.own r.own) (rate_of_faces self.now axis i q.own r.own) i q.interval r.interval }
        ensures slope { result.slope ≡ line_near (table_counts self.now axis) (slope_of_cells self.now values.now axis i q.own r.own) (slope_of_faces self.now values.now axis i q.own r.own) i q.interval r.interval }
        ensures rate_small { (pos 0 ≤ℤ result.rate) × (result.rate <ℤ pos (2 ^ 75)) }
        ensures slope_small { unsigned_abs result.slope ≤ 2 ^ 105 }
    {
        let here = self.stencil(values, axis, i, q, r);
        let below = self.pull_below(values, here, axis, i, q, r);
        let above = self.pull_above(values, here, axis, i, q, r);
        let at = self.pull_at(here, axis, i, q, r);
        let beside = both(below, above);
        both(beside, at)
    }

    // What the line of cells below a node on the second axis gives, and what that above it gives.
    #[inline(always)]
    fn line_below(&self, values: &[i64], axis: AxisName, i: u32, j: u32, r: Side) -> Pull
        requires table { IsTable self.now }
        requires field { IsField (table_counts self.now) values.now }
        requires along { i ≤ table_counts self.now axis }
        requires second { j ≤ table_counts self.now (second axis) }
        requires third { (r.own ≤ table_counts self.now (third axis)) × (r.other ≤ table_counts self.now (third axis)) × (r.interval < table_counts self.now (third axis)) }
        requires third_side { Beside r.own r.interval r.other }
        ensures rate { result.rate ≡ before (λ h. line_near (table_counts self.now axis) (rate_of_cells self.now axis i j r.own) (rate_of_faces self.now axis i j r.own) i h r.interval) j }
        ensures slope { result.slope ≡ before (λ h. line_near (table_counts self.now axis) (slope_of_cells self.now values.now axis i j r.own) (slope_of_faces self.now values.now axis i j r.own) i h r.interval) j }
        ensures rate_small { (pos 0 ≤ℤ result.rate) × (result.rate <ℤ pos (2 ^ 75)) }
        ensures slope_small { unsigned_abs result.slope ≤ 2 ^ 105 }
    {
        if j == 0 {
            NONE
        } else {
            let q = Side {
                own: j,
                interval: j - 1,
                other: j - 1,
            };
            self.line_pull(values, axis, i, q, r)
        }
    }

    #[inline(always)]
    fn line_above(&self, values: &[i64], axis: AxisName, i: u32, j: u32, r: Side) -> Pull
        requires table { IsTable self.now }
        requires field { IsField (table_counts self.now) values.now }
        requires along { i ≤ table_counts self.now axis }
        requires second { j ≤ table_counts self.now (second axis) }
        requires third { (r.own ≤ table_counts self.now (third axis)) × (r.other ≤ table_counts self.now (third axis)) × (r.interval < table_counts self.now (third axis)) }
        requires third_side { Beside r.own r.interval r.other }
        ensures rate { result.rate ≡ behind (λ h. line_near (table_counts self.now axis) (rate_of_cells self.now axis i j r.own) (rate_of_faces self.now axis i j r.own) i h r.interval) (table_counts self.now (second axis)) j }
        ensures slope { result.slope ≡ behind (λ h. line_near (table_counts self.now axis) (slope_of_cells self.now values.now axis i j r.own) (slope_of_faces self.now values.now axis i j r.own) i h r.interval) (table_counts self.now (second axis)) j }
        ensures rate_small { (pos 0 ≤ℤ result.rate) × (result.rate <ℤ pos (2 ^ 75)) }
        ensures slope_small { unsigned_abs result.slope ≤ 2 ^ 105 }
    {
        let (second, _) = other_axes(axis);
        if j < self.counts.along(second) {
            let q = Side {
                own: j,
                interval: j,
                other: j + 1,
            };
            self.line_pull(values, axis, i, q, r)
        } else {
            NONE
        }
    }

    // What a layer of lines of cells beside a node gives.
    #[inline(always)]
    fn layer_pull(&self, values: &[i64], axis: AxisName, i: u32, j: u32, r: Side) -> Pull
        requires table { IsTable self.now }
        requires field { IsField (table_counts self.now) values.now }
        requires along { i ≤ table_counts self.now axis }
        requires second { j ≤ table_counts self.now (second axis) }
        requires third { (r.own ≤ table_counts self.now (third axis)) × (r.other ≤ table_counts self.now (third axis)) × (r.interval < table_counts self.now (third axis)) }
        requires third_side { Beside r.own r.interval r.other }
        ensures rate { result.rate ≡ layer_near (table_counts self.now axis) (table_counts self.now (second axis)) (rate_of_cells self.now axis i j r.own) (rate_of_faces self.now axis i j r.own) i j r.interval }
        ensures slope { result.slope ≡ layer_near (table_counts self.now axis) (table_counts self.now (second axis)) (slope_of_cells self.now values.now axis i j r.own) (slope_of_faces self.now values.now axis i j r.own) i j r.interval }
        ensures rate_small { (pos 0 ≤ℤ result.rate) × (result.rate <ℤ pos (2 ^ 76)) }
        ensures slope_small { unsigned_abs result.slope ≤ 2 ^ 106 }
    {
        let below = self.line_below(values, axis, i, j, r);
        let above = self.line_above(values, axis, i, j, r);
        both(below, above)
    }

    // What the layer below a node on the third axis gives, and what that above it gives.
    #[inline(always)]
    fn layer_below(&self, values: &[i64], axis: AxisName, i: u32, j: u32, k: u32) -> Pull
        requires table { IsTable self.now }
        requires field { IsField (table_counts self.now) values.now }
        requires along { i ≤ table_counts self.now axis }
        requires second { j ≤ table_counts self.now (second axis) }
        requires third { k ≤ table_counts self.now (third axis) }
        ensures rate { result.rate ≡ before (λ h. layer_near (table_counts self.now axis) (table_counts self.now (second axis)) (rate_of_cells self.now axis i j k) (rate_of_faces self.now axis i j k) i j h) k }
        ensures slope { result.slope ≡ before (λ h. layer_near (table_counts self.now axis) (table_counts self.now (second axis)) (slope_of_cells self.now values.now axis i j k) (slope_of_faces self.now values.now axis i j k) i j h) k }
        ensures rate_small { (pos 0 ≤ℤ result.rate) × (result.rate <ℤ pos (2 ^ 76)) }
        ensures slope_small { unsigned_abs result.slope ≤ 2 ^ 106 }
    {
        if k == 0 {
            NONE
        } else {
            let r = Side {
                own: k,
                interval: k - 1,
                other: k - 1,
            };
            self.layer_pull(values, axis, i, j, r)
        }
    }

    #[inline(always)]
    fn layer_above(&self, values: &[i64], axis: AxisName, i: u32, j: u32, k: u32) -> Pull
        requires table { IsTable self.now }
        requires field { IsField (table_counts self.now) values.now }
        requires along { i ≤ table_counts self.now axis }
        requires second { j ≤ table_counts self.now (second axis) }
        requires third { k ≤ table_counts self.now (third axis) }
        ensures rate { result.rate ≡ behind (λ h. layer_near (table_counts self.now axis) (table_counts self.now (second axis)) (rate_of_cells self.now axis i j k) (rate_of_faces self.now axis i j k) i j h) (table_counts self.now (third axis)) k }
        ensures slope { result.slope ≡ behind (λ h. layer_near (table_counts self.now axis) (table_counts self.now (second axis)) (slope_of_cells self.now values.now axis i j k) (slope_of_faces self.now values.now axis i j k) i j h) (table_counts self.now (third axis)) k }
        ensures rate_small { (pos 0 ≤ℤ result.rate) × (result.rate <ℤ pos (2 ^ 76)) }
        ensures slope_small { unsigned_abs result.slope ≤ 2 ^ 106 }
    {
        let (_, third) = other_axes(axis);
        if k < self.counts.along(third) {
            let r = Side {
                own: k,
                interval: k,
                other: k + 1,
            };
            self.layer_pull(values, axis, i, j, r)
        } else {
            NONE
        }
    }

    // What the cells and faces along an axis give that touch the node at the line `i` of the axis and the lines `j`
    // and `k` of the others.
    #[inline(always)]
    fn axis_pull(&self, values: &[i64], axis: AxisName, i: u32, j: u32, k: u32) -> Pull
        requires table { IsTable self.now }
        requires field { IsField (table_counts self.now) values.now }
        requires along { i ≤ table_counts self.now axis }
        requires second { j ≤ table_counts self.now (second axis) }
        requires third { k ≤ table_counts self.now (third axis) }
        ensures rate { result.rate ≡ over_axis (field_forms self.now) axis (rate_of_cells self.now axis i j k) (rate_of_faces self.now axis i j k) }
        ensures slope { result.slope ≡ over_axis (field_forms self.now) axis (slope_of_cells self.now values.now axis i j k) (slope_of_faces self.now values.now axis i j k) }
        ensures rate_small { (pos 0 ≤ℤ result.rate) × (result.rate <ℤ pos (2 ^ 77)) }
        ensures slope_small { unsigned_abs result.slope ≤ 2 ^ 107 }
    {
        let below = self.layer_below(values, axis, i, j, k);
        let above = self.layer_above(values, axis, i, j, k);
        both(below, above)
    }

    /// The field's energy as a parabola in the change of the value at a node.
    pub fn node_pull(&self, values: &[i64], node: Place) -> Pull
        requires table { IsTable self.now }
        requires field { IsField (table_counts self.now) values.now }
        requires node { IsNode (table_counts self.now) node }
        ensures rate { result.rate ≡ form_rate (field_forms self.now) (only_at node.i node.j node.k) }
        ensures slope { result.slope ≡ form_slope (field_forms self.now) (values_of (table_counts self.now) values.now) (only_at node.i node.j node.k) }
        ensures rate_small { (pos 0 ≤ℤ result.rate) × (result.rate <ℤ pos (2 ^ 79)) }
        ensures slope_small { unsigned_abs result.slope ≤ 2 ^ 109 }
    {
        let Place { i, j, k } = node;
        let x = self.axis_pull(values, AxisName::X, i, j, k);
        let y = self.axis_pull(values, AxisName::Y, j, i, k);
        let z = self.axis_pull(values, AxisName::Z, k, i, j);
        let across = both(x, y);
        both(across, z)
    }
}
