//! Rows of a table: the weights that cells of one conductivity and one size have in common, and surfaces of one
//! resistance, size and environment.
ghost use Rattle.std.specs.Prelude.{◌≡◌, ◌*◌, ◌≤◌, true, false, pos};
ghost use Rattle.tb_math.specs.Rational.{int};
ghost use Rattle.tb_terms.specs.Limits.{IsConductivity, IsResistance, IsWidth};
ghost use Rattle.tb_weighted.specs.Weighted.{field_weight, surface_field_weight, flux_weight, surface_flux_weight};
ghost use Rattle.tb_tables.specs.Weights.{IsArea};

use crate::weights;
use tb_relax::{CellWeights, FaceWeight};

// The area of a cross-section, in 10⁻⁸ m².
#[inline]
fn area(b: u32, c: u32) -> u64
    requires b { IsWidth b }
    requires c { IsWidth c }
    ensures area { result ≡ b * c }
    ensures fits { IsArea result }
{
    u64::from(b) * u64::from(c)
}

/// The row of a solid cell, `x`, `y` and `z` wide.
pub fn solid(lambda: u32, x: u32, y: u32, z: u32) -> CellWeights
    requires lambda { IsConductivity lambda }
    requires x { IsWidth x }
    requires y { IsWidth y }
    requires z { IsWidth z }
    ensures x { pos result.x ≡ field_weight (int (pos lambda)) (int (pos x)) (int (pos (y * z))) }
    ensures y { pos result.y ≡ field_weight (int (pos lambda)) (int (pos y)) (int (pos (x * z))) }
    ensures z { pos result.z ≡ field_weight (int (pos lambda)) (int (pos z)) (int (pos (x * y))) }
    ensures flux_x { pos result.flux_x ≡ flux_weight (int (pos lambda)) (int (pos x)) (int (pos (y * z))) }
    ensures flux_y { pos result.flux_y ≡ flux_weight (int (pos lambda)) (int (pos y)) (int (pos (x * z))) }
    ensures flux_z { pos result.flux_z ≡ flux_weight (int (pos lambda)) (int (pos z)) (int (pos (x * y))) }
{
    let across_x = area(y, z);
    let across_y = area(x, z);
    let across_z = area(x, y);
    CellWeights {
        x: weights::field(lambda, x, across_x),
        y: weights::field(lambda, y, across_y),
        z: weights::field(lambda, z, across_z),
        flux_x: weights::flux(lambda, x, across_x),
        flux_y: weights::flux(lambda, y, across_y),
        flux_z: weights::flux(lambda, z, across_z),
    }
}

/// The row of a surface `b` by `c` wide, of an environment that is `inside` the case or not.
pub fn surface(rs: u32, b: u32, c: u32, inside: bool, low_is_air: bool) -> FaceWeight
    requires rs { IsResistance rs }
    requires b { IsWidth b }
    requires c { IsWidth c }
    ensures field { pos result.field ≡ surface_field_weight rs (int (pos (b * c))) }
    ensures flux { pos result.flux ≡ surface_flux_weight rs (int (pos (b * c))) }
    ensures inside { result.inside ≡ inside }
    ensures low_is_air { result.low_is_air ≡ low_is_air }
    ensures counts { result.counts ≡ true }
{
    let section = area(b, c);
    FaceWeight {
        field: weights::surface_field(rs, section),
        flux: weights::surface_flux(rs, section),
        inside,
        low_is_air,
        counts: true,
    }
}

/// The row of air.
pub fn air() -> CellWeights
    ensures x { result.x ≡ 0 }
    ensures y { result.y ≡ 0 }
    ensures z { result.z ≡ 0 }
    ensures flux_x { result.flux_x ≡ 0 }
    ensures flux_y { result.flux_y ≡ 0 }
    ensures flux_z { result.flux_z ≡ 0 }
{
    CellWeights {
        x: 0,
        y: 0,
        z: 0,
        flux_x: 0,
        flux_y: 0,
        flux_z: 0,
    }
}

/// The row of a face that is no surface: one that counts, or one that doesn't.
pub fn no_surface(counts: bool) -> FaceWeight
    ensures field { result.field ≡ 0 }
    ensures flux { result.flux ≡ 0 }
    ensures inside { result.inside ≡ false }
    ensures counts { result.counts ≡ counts }
{
    FaceWeight {
        field: 0,
        flux: 0,
        inside: false,
        low_is_air: false,
        counts,
    }
}
