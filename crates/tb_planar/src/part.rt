// The transmittance of a part.
ghost use Rattle.std.specs.Prelude.{◌≡◌, ◌^◌, ◌*◌, ◌<◌, ◌≤◌, ◌≢◌, ◌↔◌, ℕ, Some, IfOk, IsErr, Ok, length, pos, ◌≤ℤ◌, position, slice_get};
ghost use Rattle.tb_detail.specs.Limits.{InLimits};
ghost use Rattle.tb_detail.specs.declared.Detail.{Detail};
ghost use Rattle.tb_detail.specs.declared.Part.{Part};
ghost use Rattle.tb_math.specs.Rational.{◌≤ℚ◌};
ghost use Rattle.tb_planar.specs.Bounds.{IsResistance, IsTransmittance, IsWithin};
ghost use Rattle.tb_planar.specs.Parts.{HasLayer, HasPart, HasSections};
ghost use Rattle.tb_planar.specs.Printed.{HoldsError, HoldsResistance, HoldsTransmittance, IsRange, IsRatioAbove, answer, is_ratio_above, layer_across, layer_in_section, lower_limit, mean_transmittance, relative_error, section_resistance, section_transmittance, surfaces, upper_limit};
ghost use Rattle.tb_planar.specs.Sections.{sections};
ghost use Rattle.tb_planar.specs.Transmittance as exact;

use crate::bounds::Bounds;
use crate::sections::{conductivity, total_area, weighted_conductivity};
use crate::{PlanarU, RatioAbove, URange};
use tb_detail::{Detail, Layer, Part};
use tb_numbers::{Rounding, Up};

// Resistances are counted in 10⁻¹⁶ m²K/W. That of a surface is given in 10⁻⁴ m²K/W.
const SURFACE_UNIT: i128 = 1_000_000_000_000;

const LAYER_UNIT: i128 = 10_000_000_000_000_000;

// The relative error is counted in 10⁻⁴.
const ERROR_UNIT: i128 = 10_000;

fn surfaces(detail: &Detail, part: &Part) -> Bounds
    requires { HasPart detail.now part.now }
    ensures value { result ≡ surfaces part.now }
    ensures at_least { pos (2 * 10 ^ 12) ≤ℤ result.low }
    ensures at_most { result.high ≤ℤ pos (2 * 10 ^ 17) }
{
    Bounds::exactly((i128::from(part.rsi) + i128::from(part.rse)) * SURFACE_UNIT)
}

// ---- each section by itself

fn layer_in_section(detail: &Detail, layer: &Layer, section: usize) -> Bounds
    requires layer { HasLayer detail.now (length layer.now.materials) layer.now }
    requires section { section < length layer.now.materials }
    ensures value { result ≡ layer_in_section detail.now layer.now section }
    ensures size { IsWithin (5 * 10 ^ 21) result }
{
    let lambda = conductivity(detail, layer, section);
    Bounds::quotient(i128::from(layer.thickness) * LAYER_UNIT, i128::from(lambda))
}

fn section_resistance(detail: &Detail, part: &Part, section: usize) -> Bounds
    requires part { HasPart detail.now part.now }
    requires section { section < sections part.now }
    ensures value { result ≡ section_resistance detail.now part.now section }
    ensures size { IsResistance result }
{
    let mut sum = surfaces(detail, part);
    for layer in part.layers.items() {
        sum = sum.plus(layer_in_section(detail, layer, section));
    }
    sum
}

fn section_transmittance(detail: &Detail, part: &Part, section: usize) -> Bounds
    requires part { HasPart detail.now part.now }
    requires section { section < sections part.now }
    ensures value { result ≡ section_transmittance detail.now part.now section }
    ensures size { IsTransmittance result }
{
    section_resistance(detail, part, section).transmittance()
}

fn mean_transmittance(detail: &Detail, part: &Part) -> Bounds
    requires { HasPart detail.now part.now }
    ensures value { result ≡ mean_transmittance detail.now part.now }
    ensures size { IsTransmittance result }
{
    let mut sum = Bounds::exactly(0);
    for (section, area) in part.areas.items().iter().enumerate() {
        sum = sum.plus(section_transmittance(detail, part, section).times(*area));
    }
    sum.divided(total_area(part))
}

fn upper_limit(detail: &Detail, part: &Part) -> Bounds
    requires { HasPart detail.now part.now }
    ensures value { result ≡ upper_limit detail.now part.now }
    ensures size { IsResistance result }
    ensures encloses { HoldsResistance result (exact.upper_limit detail.now part.now) }
{
    mean_transmittance(detail, part).resistance()
}

// ---- the sections of each layer side by side

fn layer_across(detail: &Detail, part: &Part, layer: &Layer) -> Bounds
    requires part { HasSections part.now }
    requires layer { HasLayer detail.now (sections part.now) layer.now }
    ensures value { result ≡ layer_across detail.now part.now layer.now }
    ensures size { IsWithin (5 * 10 ^ 21) result }
{
    let area = i128::from(total_area(part));
    let conductivity = i128::from(weighted_conductivity(detail, part, layer));
    Bounds::quotient(
        i128::from(layer.thickness) * area * LAYER_UNIT,
        conductivity,
    )
}

fn lower_limit(detail: &Detail, part: &Part) -> Bounds
    requires { HasPart detail.now part.now }
    ensures value { result ≡ lower_limit detail.now part.now }
    ensures size { IsResistance result }
    ensures encloses { HoldsResistance result (exact.lower_limit detail.now part.now) }
{
    let mut sum = surfaces(detail, part);
    for layer in part.layers.items() {
        sum = sum.plus(layer_across(detail, part, layer));
    }
    sum
}

// ---- a part

fn of_one_section(detail: &Detail, part: &Part) -> PlanarU
    requires part { HasPart detail.now part.now }
    requires one { sections part.now ≡ 1 }
    ensures answer { Ok result ≡ answer detail.now part.now }
    ensures encloses { HoldsTransmittance result.u (exact.transmittance detail.now part.now) }
    ensures error { HoldsError result.error (exact.relative_error detail.now part.now) }
    ensures size { IsRange result.u }
{
    let u = section_transmittance(detail, part, 0);
    PlanarU {
        u: URange {
            lo: u.low,
            hi: u.high,
        },
        error: 0,
    }
}

fn relative_error(upper: Bounds, lower: Bounds) -> i128
    requires upper { IsResistance upper }
    requires lower { IsResistance lower }
    ensures { result ≡ relative_error upper lower }
{
    Up::div(ERROR_UNIT * (upper.high - lower.low), upper.low + lower.low)
}

fn of_several_sections(detail: &Detail, part: &Part) -> Result<PlanarU, RatioAbove>
    requires part { HasPart detail.now part.now }
    requires several { sections part.now ≢ 1 }
    ensures answer { result ≡ answer detail.now part.now }
    ensures encloses { IfOk result (λ printed. HoldsTransmittance printed.u (exact.transmittance detail.now part.now)) }
    ensures error { IfOk result (λ printed. HoldsError printed.error (exact.relative_error detail.now part.now)) }
    ensures size { IfOk result (λ printed. IsRange printed.u) }
{
    let upper = upper_limit(detail, part);
    let lower = lower_limit(detail, part);
    if 2 * upper.low > 3 * lower.high {
        return Err(RatioAbove);
    }
    let u = upper.mean_transmittance(lower);
    Ok(PlanarU {
        u: URange {
            lo: u.low,
            hi: u.high,
        },
        error: relative_error(upper, lower),
    })
}

fn of_part(detail: &Detail, part: &Part) -> Result<PlanarU, RatioAbove>
    requires { HasPart detail.now part.now }
    ensures answer { result ≡ answer detail.now part.now }
    ensures encloses { IfOk result (λ printed. HoldsTransmittance printed.u (exact.transmittance detail.now part.now)) }
    ensures error { IfOk result (λ printed. HoldsError printed.error (exact.relative_error detail.now part.now)) }
    ensures size { IfOk result (λ printed. IsRange printed.u) }
{
    if part.areas.items().len() == 1 {
        Ok(of_one_section(detail, part))
    } else {
        of_several_sections(detail, part)
    }
}

/// What is printed of the part in a place of a detail, or that the ratio of the limits of its resistance is
/// above 1.5. A part of one section is never refused.
///
/// The transmittance U of ISO 6946:2017, a rational number, lies between both printed ends, and the greatest relative error of
/// the method, half the difference of the limits over their mean, isn't above the printed one.
pub fn planar(detail: &Detail, part: u16) -> Result<PlanarU, RatioAbove>
    requires limits { InLimits detail.now }
    requires known { part < length detail.now.parts }
    ensures answer { (p : Part) → slice_get detail.now.parts part ≡ Some p → result ≡ answer detail.now p }
    ensures encloses { (p : Part) → slice_get detail.now.parts part ≡ Some p
        → IfOk result (λ printed. HoldsTransmittance printed.u (exact.transmittance detail.now p)) }
    ensures error { (p : Part) → slice_get detail.now.parts part ≡ Some p
        → IfOk result (λ printed. HoldsError printed.error (exact.relative_error detail.now p)) }
    ensures refused { (p : Part) → slice_get detail.now.parts part ≡ Some p → IsErr result ↔ IsRatioAbove detail.now p }
    ensures size { IfOk result (λ printed. IsRange printed.u) }
{
    of_part(detail, &detail.parts.items()[usize::from(part)])
}

/// The lower limit of a part's resistance isn't above the upper one.
pub fn limits_are_ordered()
    ensures { (d : Detail) (p : Part) → HasPart d p → exact.lower_limit d p ≤ℚ exact.upper_limit d p }
{}

/// The first part of a detail that `planar` refuses.
pub fn first_ratio_above(detail: &Detail) -> Option<u16>
    requires { InLimits detail.now }
    ensures { result ≡ position (is_ratio_above detail.now) detail.now.parts }
{
    for (place, part) in detail.parts.items().iter().enumerate() {
        if of_part(detail, part).is_err() {
            return Some(place as u16);
        }
    }
    None
}
