// What one face, and the way through one cell, give to the move of a cycle.
ghost use Rattle.std.specs.Prelude.{◌≡◌, ◌↔◌, ◌⊎◌, ◌+◌, ◌*◌, ◌-◌, ◌^◌, ◌<◌, ◌≤◌, ℤ, pos, negsuc, neg_ℤ, ◌+ℤ◌, ◌-ℤ◌, ◌*ℤ◌, ◌≤ℤ◌, ◌<ℤ◌, unsigned_abs};
ghost use Rattle.tb_places.specs.Along.{index_along};
ghost use Rattle.tb_places.specs.Places.{IsCell, IsFace, face_number, second, third};
ghost use Rattle.tb_outlets.specs.Balancing.{flow};
ghost use Rattle.tb_outlets.specs.Cycles.{opposite as turned_side, out};
ghost use Rattle.tb_outlets.specs.Sides.{axis_of, number_on, place_on};
ghost use Rattle.tb_weighted.specs.Limits.{InFlow, IsFlux};
ghost use Rattle.tb_relax.specs.Joining.{Within};
ghost use Rattle.tb_relax.specs.Sites.{IsSite};
ghost use Rattle.tb_relax.specs.Tables.{IsTable, flow_on, rate_through, slope_through, table_counts};
ghost use Rattle.tb_cycle_moves.specs.Reaches.{IsBounded, IsMet, IsRateOn, most_rate, most_slope, passing, rate_at, slope_at, weight_at};

use tb_grid::{AxisName, FacePlace, Place, other_axes};
use tb_outlets::Side;
use tb_relax::{Pull, Reach, Site, Table};

const MOST: i64 = 1_000_000_000_000;

// The indexes of a place along an axis and along the two others.
#[inline(always)]
fn seen_along(axis: AxisName, place: Place) -> Site
    ensures axis { result.axis ≡ axis }
    ensures i { result.i ≡ index_along axis place }
    ensures j { result.j ≡ index_along (second axis) place }
    ensures k { result.k ≡ index_along (third axis) place }
{
    let (second, third) = other_axes(axis);
    Site::across(
        axis,
        place.along(axis),
        place.along(second),
        place.along(third),
    )
}

// What a face gives that 1 passes in the direction of its axis.
#[inline(always)]
fn forth(table: &Table<'_>, flows: &[i64], at: Site) -> Reach
    requires table { IsTable table.now }
    requires flux { IsFlux (table_counts table.now) flows.now }
    requires site { IsSite (table_counts table.now) at }
    ensures rate { result.pull.rate ≡ rate_through table.now at.axis at.i at.j at.k }
    ensures slope { result.pull.slope ≡ slope_through table.now flows.now at.axis at.i at.j at.k }
    ensures low { result.low ≡ negsuc (10 ^ 12 - 1) -ℤ flow_on (table_counts table.now) flows.now at.axis at.i at.j at.k }
    ensures high { result.high ≡ pos (10 ^ 12) -ℤ flow_on (table_counts table.now) flows.now at.axis at.i at.j at.k }
    ensures here { unsigned_abs (flow_on (table_counts table.now) flows.now at.axis at.i at.j at.k) ≤ 10 ^ 12 }
    ensures rate_small { (pos 0 ≤ℤ result.pull.rate) × (result.pull.rate <ℤ pos (2 ^ 66)) }
    ensures slope_small { unsigned_abs result.pull.slope ≤ most_slope }
{
    let Site { axis, i, j, k } = at;
    let here = table.flow(flows, axis, i, j, k);
    Reach {
        pull: table.face_pull(flows, axis, i, j, k),
        low: -MOST - here,
        high: MOST - here,
    }
}

// The same passed the other way.
#[inline(always)]
fn turned(reach: Reach) -> Reach
    requires slope { unsigned_abs reach.pull.slope ≤ most_slope }
    requires low { unsigned_abs reach.low ≤ 2 * 10 ^ 12 }
    requires high { unsigned_abs reach.high ≤ 2 * 10 ^ 12 }
    ensures rate { result.pull.rate ≡ reach.pull.rate }
    ensures slope { result.pull.slope ≡ neg_ℤ reach.pull.slope }
    ensures low { result.low ≡ neg_ℤ reach.high }
    ensures high { result.high ≡ neg_ℤ reach.low }
{
    Reach {
        pull: Pull {
            rate: reach.pull.rate,
            slope: -reach.pull.slope,
        },
        low: -reach.high,
        high: -reach.low,
    }
}

// The face across an axis at a place, passed in the direction of the axis.
#[inline(always)]
fn face_forth(table: &Table<'_>, flows: &[i64], face: FacePlace) -> Reach
    requires table { IsTable table.now }
    requires flux { IsFlux (table_counts table.now) flows.now }
    requires face { IsFace (table_counts table.now) face.axis face.place }
    ensures rate { result.pull.rate ≡ rate_at table.now face.axis face.place }
    ensures slope { result.pull.slope ≡ slope_at table.now flows.now face.axis face.place }
    ensures low { result.low ≡ negsuc (10 ^ 12 - 1) -ℤ flow flows.now (face_number (table_counts table.now) face.axis face.place) }
    ensures high { result.high ≡ pos (10 ^ 12) -ℤ flow flows.now (face_number (table_counts table.now) face.axis face.place) }
    ensures here { unsigned_abs (flow flows.now (face_number (table_counts table.now) face.axis face.place)) ≤ 10 ^ 12 }
    ensures rate_small { (pos 0 ≤ℤ result.pull.rate) × (result.pull.rate <ℤ pos (2 ^ 66)) }
    ensures slope_small { unsigned_abs result.pull.slope ≤ most_slope }
{
    forth(table, flows, seen_along(face.axis, face.place))
}

// The face across an axis at a place, passed forth along the axis or back.
#[inline(always)]
pub(crate) fn face_reach(table: &Table<'_>, flows: &[i64], face: FacePlace, forth: bool) -> Reach
    requires table { IsTable table.now }
    requires flux { IsFlux (table_counts table.now) flows.now }
    requires face { IsFace (table_counts table.now) face.axis face.place }
    ensures rate { result.pull.rate ≡ rate_at table.now face.axis face.place }
    ensures slope { result.pull.slope ≡ passing forth *ℤ slope_at table.now flows.now face.axis face.place }
    ensures within { (t : ℤ) → Within result t ↔ InFlow (flow flows.now (face_number (table_counts table.now) face.axis face.place) +ℤ t *ℤ passing forth) }
    ensures bounded { IsBounded result (2 ^ 66) most_slope }
{
    let reach = face_forth(table, flows, face);
    if forth { reach } else { turned(reach) }
}

// The higher of the lower ends of two ranges.
#[inline(always)]
fn higher(x: Reach, y: Reach) -> i64
    ensures x { x.low ≤ℤ result }
    ensures y { y.low ≤ℤ result }
    ensures one { (result ≡ x.low) ⊎ (result ≡ y.low) }
{
    if x.low < y.low { y.low } else { x.low }
}

// The lower of their upper ends.
#[inline(always)]
fn lower(x: Reach, y: Reach) -> i64
    ensures x { result ≤ℤ x.high }
    ensures y { result ≤ℤ y.high }
    ensures one { (result ≡ x.high) ⊎ (result ≡ y.high) }
{
    if x.high < y.high { x.high } else { y.high }
}

#[inline(always)]
fn sum(x: i128, y: i128) -> i128
    requires x { unsigned_abs x ≤ 2 ^ 18 * most_slope }
    requires y { unsigned_abs y ≤ most_slope }
    ensures { result ≡ x +ℤ y }
{
    x + y
}

// The sum of two parabolas.
#[inline(always)]
fn both(x: Pull, y: Pull) -> Pull
    requires x_rate { unsigned_abs x.rate ≤ 2 ^ 18 * most_slope }
    requires y_rate { unsigned_abs y.rate ≤ most_slope }
    requires x_slope { unsigned_abs x.slope ≤ 2 ^ 18 * most_slope }
    requires y_slope { unsigned_abs y.slope ≤ most_slope }
    ensures rate { result.rate ≡ x.rate +ℤ y.rate }
    ensures slope { result.slope ≡ x.slope +ℤ y.slope }
{
    Pull {
        rate: sum(x.rate, y.rate),
        slope: sum(x.slope, y.slope),
    }
}

// What many faces give with what one more gives: the sum of the parabolas, within both ranges.
#[inline(always)]
pub(crate) fn joined(x: Reach, y: Reach) -> Reach
    requires x { IsBounded x (2 ^ 18 * most_rate) (2 ^ 18 * most_slope) }
    requires y { IsBounded y most_rate most_slope }
    ensures rate { result.pull.rate ≡ x.pull.rate +ℤ y.pull.rate }
    ensures slope { result.pull.slope ≡ x.pull.slope +ℤ y.pull.slope }
    ensures under { result.low ≤ℤ pos 0 }
    ensures over { pos 0 ≤ℤ result.high }
    ensures low_far { negsuc (4 * 10 ^ 12 - 1) ≤ℤ result.low }
    ensures high_far { result.high ≤ℤ pos (4 * 10 ^ 12) }
    ensures within { (t : ℤ) → Within result t ↔ (Within x t × Within y t) }
{
    Reach {
        pull: both(x.pull, y.pull),
        low: higher(x, y),
        high: lower(x, y),
    }
}

// The side across from a side of a cell.
pub(crate) fn opposite(side: Side) -> Side
    ensures { result ≡ turned_side side }
{
    match side {
        Side::Low(axis) => Side::High(axis),
        Side::High(axis) => Side::Low(axis),
    }
}

// The weight of a cell along an axis.
#[inline(always)]
fn weight(table: &Table<'_>, cell: Place, axis: AxisName) -> i128
    requires table { IsTable table.now }
    requires cell { IsCell (table_counts table.now) cell }
    ensures value { result ≡ weight_at table.now axis cell }
    ensures least { pos 0 ≤ℤ result }
    ensures most { result ≤ℤ pos (2 ^ 64) }
{
    let at = seen_along(axis, cell);
    i128::from(table.cell_flux(axis, at.i, at.j, at.k))
}

// What the way through a cell adds, from the side where 1 enters it to that where 1 leaves it.
#[inline(always)]
fn met(table: &Table<'_>, cell: Place, entered: Side, left: Side) -> i128
    requires table { IsTable table.now }
    requires cell { IsCell (table_counts table.now) cell }
    ensures met { IsMet entered left (weight_at table.now (axis_of left) cell) result }
    ensures least { pos 0 ≤ℤ result }
    ensures most { result ≤ℤ pos (2 ^ 64) }
{
    if entered != opposite(left) {
        return 0;
    }
    match left {
        Side::Low(axis) | Side::High(axis) => weight(table, cell, axis),
    }
}

// The face on a side of the cell at a place, where 1 leaves the cell.
#[inline(always)]
pub(crate) fn side_reach(table: &Table<'_>, flows: &[i64], cell: Place, side: Side) -> Reach
    requires table { IsTable table.now }
    requires flux { IsFlux (table_counts table.now) flows.now }
    requires cell { IsCell (table_counts table.now) cell }
    ensures rate { result.pull.rate ≡ rate_at table.now (axis_of side) (place_on side cell) }
    ensures slope { result.pull.slope ≡ out side *ℤ slope_at table.now flows.now (axis_of side) (place_on side cell) }
    ensures within { (t : ℤ) → Within result t ↔ InFlow (flow flows.now (number_on (table_counts table.now) side cell) +ℤ t *ℤ out side) }
    ensures bounded { IsBounded result (2 ^ 66) most_slope }
{
    match side {
        Side::Low(axis) => face_reach(table, flows, FacePlace { axis, place: cell }, false),
        Side::High(axis) => {
            let place = cell.next(axis);
            face_reach(table, flows, FacePlace { axis, place }, true)
        }
    }
}

#[inline(always)]
fn with_more(reach: Reach, more: i128) -> Reach
    requires reach { IsBounded reach (2 ^ 66) most_slope }
    requires least { pos 0 ≤ℤ more }
    requires most { more ≤ℤ pos (2 ^ 64) }
    ensures rate { result.pull.rate ≡ reach.pull.rate +ℤ more }
    ensures slope { result.pull.slope ≡ reach.pull.slope }
    ensures low { result.low ≡ reach.low }
    ensures high { result.high ≡ reach.high }
    ensures bounded { IsBounded result most_rate most_slope }
{
    Reach {
        pull: Pull {
            rate: reach.pull.rate + more,
            slope: reach.pull.slope,
        },
        low: reach.low,
        high: reach.high,
    }
}

// The same with what the way through the cell adds, which 1 enters on another side.
pub(crate) fn cell_reach(
    table: &Table<'_>,
    flows: &[i64],
    cell: Place,
    entered: Side,
    left: Side,
) -> Reach
    requires table { IsTable table.now }
    requires flux { IsFlux (table_counts table.now) flows.now }
    requires cell { IsCell (table_counts table.now) cell }
    ensures rate { IsRateOn table.now cell entered left result.pull.rate }
    ensures slope { result.pull.slope ≡ out left *ℤ slope_at table.now flows.now (axis_of left) (place_on left cell) }
    ensures within { (t : ℤ) → Within result t ↔ InFlow (flow flows.now (number_on (table_counts table.now) left cell) +ℤ t *ℤ out left) }
    ensures bounded { IsBounded result most_rate most_slope }
{
    let face = side_reach(table, flows, cell, left);
    with_more(face, met(table, cell, entered, left))
}

// The face on a side of the cell at a place, where 1 enters the cell.
pub(crate) fn entry_reach(table: &Table<'_>, flows: &[i64], cell: Place, side: Side) -> Reach
    requires table { IsTable table.now }
    requires flux { IsFlux (table_counts table.now) flows.now }
    requires cell { IsCell (table_counts table.now) cell }
    ensures rate { result.pull.rate ≡ rate_at table.now (axis_of side) (place_on side cell) }
    ensures slope { result.pull.slope ≡ neg_ℤ (out side) *ℤ slope_at table.now flows.now (axis_of side) (place_on side cell) }
    ensures within { (t : ℤ) → Within result t ↔ InFlow (flow flows.now (number_on (table_counts table.now) side cell) +ℤ t *ℤ neg_ℤ (out side)) }
    ensures bounded { IsBounded result most_rate most_slope }
{
    match side {
        Side::Low(axis) => face_reach(table, flows, FacePlace { axis, place: cell }, true),
        Side::High(axis) => {
            let place = cell.next(axis);
            face_reach(table, flows, FacePlace { axis, place }, false)
        }
    }
}
