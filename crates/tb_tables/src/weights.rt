//! The weights of a cell and of a surface in the energies of a field and of a flux.
ghost use Rattle.std.specs.Prelude.{◌≡◌, ◌*◌, ◌^◌, ◌<◌, ◌≤◌, ◌/◌, pos, if◌then◌else◌, nat_eq};
ghost use Rattle.tb_math.specs.Rational.{int};
ghost use Rattle.tb_weighted.specs.Weighted.{field_weight, surface_field_weight, flux_weight, surface_flux_weight};
ghost use Rattle.tb_tables.specs.Weights.{IsArea, rounded_weight};
ghost use Rattle.tb_terms.specs.Limits.{IsConductivity, IsResistance, IsWidth};

// A quotient rounded down, at least 1.
#[inline]
fn rounded(n: u128, d: u128) -> u128
    requires { 0 < d }
    ensures value { result ≡ rounded_weight n d }
    ensures most { 1 ≤ n → result ≤ n }
{
    let quotient = n / d;
    if quotient == 0 { 1 } else { quotient }
}

/// The weight of a cell in a field's energy along an axis: `lambda * area * 2^10 / width`. The conductivity is in
/// 10⁻⁴ W/(m·K), the width in 0.1 mm, the area of the cross-section in 10⁻⁸ m².
pub fn field(lambda: u32, width: u32, area: u64) -> u128
    requires lambda { IsConductivity lambda }
    requires width { IsWidth width }
    requires area { IsArea area }
    ensures weight { pos result ≡ field_weight (int (pos lambda)) (int (pos width)) (int (pos area)) }
    ensures small { result < 2 ^ 71 }
{
    rounded(
        u128::from(lambda) * u128::from(area) * 1_024,
        u128::from(width),
    )
}

/// The weight of a surface in a field's energy: `area * 10^4 * 2^10 / rs`, with the resistance in 10⁻⁴ m²K/W.
pub fn surface_field(rs: u32, area: u64) -> u128
    requires rs { IsResistance rs }
    requires area { IsArea area }
    ensures weight { pos result ≡ surface_field_weight rs (int (pos area)) }
    ensures small { result < 2 ^ 71 }
{
    rounded(u128::from(area) * 10_240_000, u128::from(rs))
}

/// The weight of a cell in a flux's energy along an axis: `width * 2^44 / (area * lambda)`.
pub fn flux(lambda: u32, width: u32, area: u64) -> u64
    requires lambda { IsConductivity lambda }
    requires width { IsWidth width }
    requires area { IsArea area }
    ensures { pos result ≡ flux_weight (int (pos lambda)) (int (pos width)) (int (pos area)) }
{
    rounded(
        u128::from(width) * 17_592_186_044_416,
        u128::from(area) * u128::from(lambda),
    ) as u64
}

/// The weight of a surface in a flux's energy: `3 * rs * 2^44 / (area * 10^4)`.
pub fn surface_flux(rs: u32, area: u64) -> u64
    requires rs { IsResistance rs }
    requires area { IsArea area }
    ensures { pos result ≡ surface_flux_weight rs (int (pos area)) }
{
    rounded(
        3 * u128::from(rs) * 17_592_186_044_416,
        u128::from(area) * 10_000,
    ) as u64
}
