// The spreads of a cell along its three axes.
ghost use Rattle.std.specs.Prelude.{◌≡◌, ◌+◌, ◌*◌, ◌^◌, ◌<◌, ◌≤◌, pos, ◌+ℤ◌, ◌-ℤ◌, ◌*ℤ◌, unsigned_abs};
ghost use Rattle.tb_math.specs.Rational.{int};
ghost use Rattle.tb_terms.specs.Spread.{corner_spread};
ghost use Rattle.tb_sums.specs.Corners.{HasTemperatures, rises_x, rises_y, rises_z};

use crate::cell::Corners;

/// The spreads of the differences of a cell's corner values along x, y and z.
#[derive(Clone, Copy)]
pub struct Spreads {
    pub x: u64,
    pub y: u64,
    pub z: u64,
}

// The values at the corners of a face across x: y first, then z.
#[derive(Clone, Copy)]
struct FaceCorners {
    t00: i64,
    t10: i64,
    t01: i64,
    t11: i64,
    ghost small_00: { unsigned_abs t00 ≤ 10 ^ 8 },
    ghost small_10: { unsigned_abs t10 ≤ 10 ^ 8 },
    ghost small_01: { unsigned_abs t01 ≤ 10 ^ 8 },
    ghost small_11: { unsigned_abs t11 ≤ 10 ^ 8 },
}

// Their sum, and their differences along y, along z and along both.
#[derive(Clone, Copy)]
struct FaceModes {
    sum: i64,
    y: i64,
    z: i64,
    both: i64,
    ghost small_sum: { unsigned_abs sum ≤ 4 * 10 ^ 8 },
    ghost small_y: { unsigned_abs y ≤ 4 * 10 ^ 8 },
    ghost small_z: { unsigned_abs z ≤ 4 * 10 ^ 8 },
    ghost small_both: { unsigned_abs both ≤ 4 * 10 ^ 8 },
}

// Numbers of the faces at the low and the high end of a cell along x.
#[derive(Clone, Copy)]
struct Ends {
    low: i64,
    high: i64,
    ghost small_low: { unsigned_abs low ≤ 4 * 10 ^ 8 },
    ghost small_high: { unsigned_abs high ≤ 4 * 10 ^ 8 },
}

#[inline]
fn face_modes(t: FaceCorners) -> FaceModes
    ensures sum { result.sum ≡ t.t00 +ℤ t.t10 +ℤ (t.t01 +ℤ t.t11) }
    ensures y { result.y ≡ (t.t10 -ℤ t.t00) +ℤ (t.t11 -ℤ t.t01) }
    ensures z { result.z ≡ (t.t01 +ℤ t.t11) -ℤ (t.t00 +ℤ t.t10) }
    ensures both { result.both ≡ (t.t11 -ℤ t.t01) -ℤ (t.t10 -ℤ t.t00) }
{
    let (sum_low, sum_high) = (t.t00 + t.t10, t.t01 + t.t11);
    let (rise_low, rise_high) = (t.t10 - t.t00, t.t11 - t.t01);
    FaceModes {
        sum: sum_low + sum_high,
        y: rise_low + rise_high,
        z: sum_high - sum_low,
        both: rise_high - rise_low,
    }
}

#[inline]
fn square(x: i64) -> u64
    requires { unsigned_abs x ≤ 8 * 10 ^ 8 }
    ensures value { pos result ≡ x *ℤ x }
    ensures size { result ≤ 64 * 10 ^ 16 }
{
    let size = x.unsigned_abs();
    size * size
}

#[inline]
fn sum_squared(ends: Ends) -> u64
    ensures value { pos result ≡ (ends.high +ℤ ends.low) *ℤ (ends.high +ℤ ends.low) }
    ensures size { result ≤ 64 * 10 ^ 16 }
{
    square(ends.high + ends.low)
}

#[inline]
fn difference_squared(ends: Ends) -> u64
    ensures value { pos result ≡ (ends.high -ℤ ends.low) *ℤ (ends.high -ℤ ends.low) }
    ensures size { result ≤ 64 * 10 ^ 16 }
{
    square(ends.high - ends.low)
}

// The spread of four differences, from the squares of their sum, of their differences along each of the two axes
// across, and of that along both.
#[inline]
fn spread(sum: u64, along_b: u64, along_c: u64, along_both: u64) -> u64
    requires sum { sum ≤ 64 * 10 ^ 16 }
    requires along_b { along_b ≤ 64 * 10 ^ 16 }
    requires along_c { along_c ≤ 64 * 10 ^ 16 }
    requires along_both { along_both ≤ 64 * 10 ^ 16 }
    ensures at_most { 4 * result ≤ 9 * sum + 3 * (along_b + along_c) + along_both }
    ensures above { 9 * sum + 3 * (along_b + along_c) + along_both < 4 * result + 4 }
{
    (9 * sum + 3 * (along_b + along_c) + along_both) / 4
}

/// The spreads of a cell. Sums and differences along each axis, seven of them squared, serve all three.
#[inline]
pub fn spreads_of(t: Corners) -> Spreads
    requires { HasTemperatures t }
    ensures x { int (pos result.x) ≡ corner_spread (rises_x t) }
    ensures y { int (pos result.y) ≡ corner_spread (rises_y t) }
    ensures z { int (pos result.z) ≡ corner_spread (rises_z t) }
    ensures x_size { result.x ≤ 36 * 10 ^ 16 }
    ensures y_size { result.y ≤ 36 * 10 ^ 16 }
    ensures z_size { result.z ≤ 36 * 10 ^ 16 }
{
    let low = face_modes(FaceCorners {
        t00: t.t000,
        t10: t.t010,
        t01: t.t001,
        t11: t.t011,
    });
    let high = face_modes(FaceCorners {
        t00: t.t100,
        t10: t.t110,
        t01: t.t101,
        t11: t.t111,
    });
    let x = difference_squared(Ends {
        low: low.sum,
        high: high.sum,
    });
    let y = sum_squared(Ends {
        low: low.y,
        high: high.y,
    });
    let z = sum_squared(Ends {
        low: low.z,
        high: high.z,
    });
    let xy = difference_squared(Ends {
        low: low.y,
        high: high.y,
    });
    let xz = difference_squared(Ends {
        low: low.z,
        high: high.z,
    });
    let yz = sum_squared(Ends {
        low: low.both,
        high: high.both,
    });
    let xyz = difference_squared(Ends {
        low: low.both,
        high: high.both,
    });
    Spreads {
        x: spread(x, xy, xz, xyz),
        y: spread(y, xy, yz, xyz),
        z: spread(z, xz, yz, xyz),
    }
}
