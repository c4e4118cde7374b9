// The energy of a solid cell, and of a surface.
ghost use Rattle.std.specs.Prelude.{◌≡◌, ◌+◌, ◌*◌, ◌^◌, ◌<◌, ◌≤◌, [], ◌∷◌, pos, ◌+ℤ◌, ◌-ℤ◌, ◌≤ℤ◌, unsigned_abs};
ghost use Rattle.tb_math.specs.Ceiling.{ceiling};
ghost use Rattle.tb_terms.specs.Limits.{IsConductivity, IsDifference, IsResistance};
ghost use Rattle.tb_terms.specs.Terms.{field_face_term};
ghost use Rattle.tb_field.specs.Fields.{IsTemperature};
ghost use Rattle.tb_sums.specs.Corners.{HasTemperatures, energy_of, face_at, face_across, solid_up};

use crate::interval::Interval;
use crate::modes::spreads_of;
use crate::terms::term_up;
use tb_rows::{Divisor, quotient_up};
use tb_terms::FieldFace;

/// The node values at the corners of a cell: x first, then y, then z.
#[derive(Clone, Copy, Debug)]
pub struct Corners {
    pub t000: i64,
    pub t100: i64,
    pub t010: i64,
    pub t110: i64,
    pub t001: i64,
    pub t101: i64,
    pub t011: i64,
    pub t111: i64,
}

/// A cell: its intervals along x, y and z.
#[derive(Clone, Copy)]
pub struct Cuboid {
    pub x: Interval,
    pub y: Interval,
    pub z: Interval,
}

/// Four differences, at the corners (0,0), (1,0), (0,1) and (1,1) of a cross-section.
#[derive(Clone, Copy)]
pub struct Differences {
    pub d00: i64,
    pub d10: i64,
    pub d01: i64,
    pub d11: i64,
    pub ghost small_00: { unsigned_abs d00 ≤ 10 ^ 8 },
    pub ghost small_10: { unsigned_abs d10 ≤ 10 ^ 8 },
    pub ghost small_01: { unsigned_abs d01 ≤ 10 ^ 8 },
    pub ghost small_11: { unsigned_abs d11 ≤ 10 ^ 8 },
}

#[inline]
fn rise(low: i64, high: i64) -> i64
    requires low { IsTemperature low }
    requires high { IsTemperature high }
    ensures value { result ≡ high -ℤ low }
    ensures size { unsigned_abs result ≤ 10 ^ 8 }
{
    high - low
}

// The energy of a cell along an axis, with its width a and the spread of its differences there.
#[inline]
fn axis_energy(lambda: u32, a: Interval, b: Interval, c: Interval, spread: u64) -> u128
    requires conductivity { IsConductivity lambda }
    requires spread { spread ≤ 36 * 10 ^ 16 }
    ensures value { pos result ≡ ceiling (energy_of lambda a.width b.width c.width spread) }
    ensures most { result ≤ 125 * 10 ^ 23 }
{
    let section = u64::from(b.width) * u64::from(c.width);
    quotient_up(
        u128::from(u64::from(lambda) * section) * u128::from(spread),
        a.energy,
    )
}

// The energy of a surface between a cell's corners and air of a level.
#[inline]
fn face_energy(rs: u32, b: Interval, c: Interval, d: Differences) -> u128
    requires { IsResistance rs }
    ensures value { pos result ≡ ceiling (field_face_term (face_at rs b.width c.width d.d00 d.d10 d.d01 d.d11)) }
    ensures most { result ≤ 25 * 10 ^ 21 }
{
    let term = FieldFace {
        rs,
        b: b.width,
        c: c.width,
        t: [d.d00, d.d10, d.d01, d.d11],
    };
    term_up(&term, Divisor::new(3_600_000 * u64::from(rs)))
}

/// The energy of a solid cell, its three axes together.
#[inline]
pub fn solid_energy(lambda: u32, at: Cuboid, t: Corners) -> u128
    requires conductivity { IsConductivity lambda }
    requires temperatures { HasTemperatures t }
    ensures value { pos result ≡ solid_up lambda at.x.width at.y.width at.z.width t }
    ensures most { result ≤ 375 * 10 ^ 23 }
{
    let spreads = spreads_of(t);
    axis_energy(lambda, at.x, at.y, at.z, spreads.x)
        + axis_energy(lambda, at.y, at.x, at.z, spreads.y)
        + axis_energy(lambda, at.z, at.x, at.y, spreads.z)
}

/// The energy of a surface whose corners have these temperatures, at air of a level.
pub fn surface_energy(
    rs: u32,
    b: Interval,
    c: Interval,
    level: i64,
    t00: i64,
    t10: i64,
    t01: i64,
    t11: i64,
) -> u128
    requires resistance { IsResistance rs }
    requires level { IsTemperature level }
    requires at_00 { IsTemperature t00 }
    requires at_10 { IsTemperature t10 }
    requires at_01 { IsTemperature t01 }
    requires at_11 { IsTemperature t11 }
    ensures value { pos result ≡ ceiling (field_face_term (face_across rs b.width c.width level t00 t10 t01 t11)) }
    ensures most { result ≤ 25 * 10 ^ 21 }
{
    let d = Differences {
        d00: rise(level, t00),
        d10: rise(level, t10),
        d01: rise(level, t01),
        d11: rise(level, t11),
    };
    face_energy(rs, b, c, d)
}
