// The sections of a part: their areas, and the conductivities of a layer.
ghost use Rattle.std.specs.Prelude.{◌≡◌, ◌*◌, ◌^◌, ◌<◌, ◌≤◌, length};
ghost use Rattle.tb_planar.specs.Parts.{HasLayer, HasSections};
ghost use Rattle.tb_planar.specs.Sections.{conductivity, sections, total_area, weighted_conductivity};

use tb_detail::{Detail, Layer, Part};

/// The conductivity of a layer within a section, in 10⁻⁴ W/(m·K).
pub(crate) fn conductivity(detail: &Detail, layer: &Layer, section: usize) -> u32
    requires layer { HasLayer detail.now (length layer.now.materials) layer.now }
    requires section { section < length layer.now.materials }
    ensures value { result ≡ conductivity detail.now layer.now section }
    ensures positive { 0 < result }
    ensures at_most { result ≤ 5 * 10 ^ 6 }
{
    let place = layer.materials.items()[section];
    detail.materials.items()[usize::from(place)].lambda
}

/// The area of all sections.
pub(crate) fn total_area(part: &Part) -> u32
    requires { HasSections part.now }
    ensures value { result ≡ total_area part.now }
    ensures positive { 0 < result }
    ensures at_most { result ≤ 4 * 10 ^ 6 }
{
    let mut total = 0;
    for area in part.areas.items() {
        total += *area;
    }
    total
}

// The conductivity of a section, times its area.
fn weighted(area: u32, conductivity: u32) -> u64
    requires area { (0 < area) × (area ≤ 10 ^ 6) }
    requires conductivity { (0 < conductivity) × (conductivity ≤ 5 * 10 ^ 6) }
    ensures value { result ≡ area * conductivity }
    ensures at_least { area ≤ result }
    ensures at_most { result ≤ 5 * 10 ^ 12 }
{
    u64::from(area) * u64::from(conductivity)
}

/// The conductivities of a layer's sections, each times the section's area.
pub(crate) fn weighted_conductivity(detail: &Detail, part: &Part, layer: &Layer) -> u64
    requires part { HasSections part.now }
    requires layer { HasLayer detail.now (sections part.now) layer.now }
    ensures value { result ≡ weighted_conductivity detail.now part.now layer.now }
    ensures at_least { total_area part.now ≤ result }
    ensures at_most { result ≤ 2 * 10 ^ 13 }
{
    let mut total = 0;
    for (section, area) in part.areas.items().iter().enumerate() {
        total += weighted(*area, conductivity(detail, layer, section));
    }
    total
}
