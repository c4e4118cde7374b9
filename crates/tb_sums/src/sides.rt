// The sides of a solid cell.
ghost use Rattle.std.specs.Prelude.{◌≡◌, ◌*◌, ◌^◌, ◌≤◌, IfSome, pos};
ghost use Rattle.tb_model.specs.Values.{case_of};
ghost use Rattle.tb_field.specs.Fields.{IsTemperature};
ghost use Rattle.tb_sums.specs.Corners.{HasTemperatures};
ghost use Rattle.tb_rows.specs.Filled.{IsFilled};
ghost use Rattle.tb_sums.specs.Sides.{level_of, side_up, sides_x_up, sides_y_up, sides_z_up};

use crate::cell::{Corners, Cuboid, surface_energy};
use crate::interval::Interval;
use tb_geometry::Occupant;

// The temperature of an environment.
#[inline]
fn boundary(mask: u8, environment: u8) -> i64
    ensures value { result ≡ level_of mask environment }
    ensures level { IsTemperature result }
{
    if is_inside(mask, environment) {
        100_000_000
    } else {
        0
    }
}

// The energy of a side of a solid cell, at which its corners have these temperatures.
#[inline]
fn side(
    mask: u8,
    beside: Option<Occupant>,
    b: Interval,
    c: Interval,
    t00: i64,
    t10: i64,
    t01: i64,
    t11: i64,
) -> u128
    requires filled { IfSome beside IsFilled }
    requires at_00 { IsTemperature t00 }
    requires at_10 { IsTemperature t10 }
    requires at_01 { IsTemperature t01 }
    requires at_11 { IsTemperature t11 }
    ensures value { pos result ≡ side_up mask beside b.width c.width t00 t10 t01 t11 }
    ensures most { result ≤ 25 * 10 ^ 21 }
{
    match beside {
        Some(Occupant::Air { environment, rs }) => surface_energy(
            rs,
            b,
            c,
            boundary(mask, environment),
            t00,
            t10,
            t01,
            t11,
        ),
        Some(Occupant::Solid { .. }) => 0,
        None => 0,
    }
}

/// The energy of the two sides of a solid cell across an axis, with what lies beside the low one and the high one.
#[inline]
pub fn sides_x(
    mask: u8,
    low: Option<Occupant>,
    high: Option<Occupant>,
    at: Cuboid,
    t: Corners,
) -> u128
    requires low { IfSome low IsFilled }
    requires high { IfSome high IsFilled }
    requires temperatures { HasTemperatures t }
    ensures value { pos result ≡ sides_x_up mask low high at.y.width at.z.width t }
    ensures most { result ≤ 50 * 10 ^ 21 }
{
    side(mask, low, at.y, at.z, t.t000, t.t010, t.t001, t.t011)
        + side(mask, high, at.y, at.z, t.t100, t.t110, t.t101, t.t111)
}

/// The energy of the two sides of a solid cell across an axis, with what lies beside the low one and the high one.
#[inline]
pub fn sides_y(
    mask: u8,
    low: Option<Occupant>,
    high: Option<Occupant>,
    at: Cuboid,
    t: Corners,
) -> u128
    requires low { IfSome low IsFilled }
    requires high { IfSome high IsFilled }
    requires temperatures { HasTemperatures t }
    ensures value { pos result ≡ sides_y_up mask low high at.x.width at.z.width t }
    ensures most { result ≤ 50 * 10 ^ 21 }
{
    side(mask, low, at.x, at.z, t.t000, t.t100, t.t001, t.t101)
        + side(mask, high, at.x, at.z, t.t010, t.t110, t.t011, t.t111)
}

/// The energy of the two sides of a solid cell across an axis, with what lies beside the low one and the high one.
#[inline]
pub fn sides_z(
    mask: u8,
    low: Option<Occupant>,
    high: Option<Occupant>,
    at: Cuboid,
    t: Corners,
) -> u128
    requires low { IfSome low IsFilled }
    requires high { IfSome high IsFilled }
    requires temperatures { HasTemperatures t }
    ensures value { pos result ≡ sides_z_up mask low high at.x.width at.y.width t }
    ensures most { result ≤ 50 * 10 ^ 21 }
{
    side(mask, low, at.x, at.y, t.t000, t.t100, t.t010, t.t110)
        + side(mask, high, at.x, at.y, t.t001, t.t101, t.t011, t.t111)
}

// Whether an environment is in a case.
#[inline]
pub fn is_inside(mask: u8, environment: u8) -> bool
    ensures { result ≡ case_of mask environment }
{
    environment < 8 && (mask >> environment) % 2 == 1
}
