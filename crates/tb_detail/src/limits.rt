// The greatest numbers and counts, and which details are within limits.
ghost use Rattle.std.specs.Prelude.{◌≡◌, ◌↔◌, ◌<◌, ◌≤◌, IsTrue, All};
ghost use Rattle.tb_detail.specs.Limits.{AreAllNamed, AreFew, BoxInLimits, ChiInLimits, ContentInLimits, InLimits, IsExtent, IsPair, LayerInLimits, LineInLimits, LinesInLimits, PartInLimits, PsiInLimits, SpanInLimits, SuitsDimension, TermInLimits, TermsInLimits, name_count};
ghost use Rattle.tb_detail.specs.Quantities.{IsInRange};

use crate::names::are_named;
use crate::quantity::Quantity;
use crate::{
    ChiItem, Content, Detail, Items, Layer, LineTerm, Material, Part, PlanarTerm, PsiItem,
    SpaceBox, Span,
};

/// The greatest coordinate, length and thickness, in 0.1 mm: 50 m.
pub const MOST_LENGTH: u32 = 500_000;

/// The greatest thermal conductivity, in 10⁻⁴ W/(m·K).
pub const MOST_CONDUCTIVITY: u32 = 5_000_000;

/// The greatest surface resistance, in 10⁻⁴ m²K/W.
pub const MOST_RESISTANCE: u32 = 100_000;

/// The greatest area of a section, as a weight.
pub const MOST_SECTION: u32 = 1_000_000;

/// The greatest area of a term, in 10⁻⁴ m²: one hectare.
pub const MOST_AREA: u32 = 100_000_000;

/// The greatest absolute value of a given ψ, in 10⁻⁶ W/(m·K).
pub const MOST_PSI: u64 = 1_000_000_000;

/// The upper z coordinate of every box in dimension 2, in 0.1 mm: one metre.
pub const FLAT_HEIGHT: u32 = 10_000;

/// The greatest number of environments of a detail.
pub const MOST_ENVIRONMENTS: usize = 4;

/// The greatest number of boxes of a detail.
pub const MOST_BOXES: usize = 512;

/// The greatest number of names of a detail, over environments, materials, parts, Ψ and χ.
pub const MOST_NAMES: usize = 256;

/// The greatest number of sections of a part.
pub const MOST_SECTIONS: usize = 4;

/// The greatest number of layers of a part.
pub const MOST_LAYERS: usize = 16;

/// The greatest number of terms of each kind of a Ψ or a χ.
pub const MOST_TERMS: usize = 16;

/// The greatest number of bytes of a name.
pub const MOST_NAME_BYTES: usize = 32;

/// The limits as numbers. The definitions of limits name the constants above, so without this a changed constant would
/// change what they say.
pub fn limits_are_stated()
    ensures numbers { (MOST_LENGTH ≡ 500000) × (MOST_CONDUCTIVITY ≡ 5000000) × (MOST_RESISTANCE ≡ 100000)
        × (MOST_SECTION ≡ 1000000) × (MOST_AREA ≡ 100000000) × (MOST_PSI ≡ 1000000000) × (FLAT_HEIGHT ≡ 10000) }
    ensures counts { (MOST_ENVIRONMENTS ≡ 4) × (MOST_BOXES ≡ 512) × (MOST_NAMES ≡ 256) × (MOST_SECTIONS ≡ 4)
        × (MOST_LAYERS ≡ 16) × (MOST_TERMS ≡ 16) × (MOST_NAME_BYTES ≡ 32) }
{}

// ---- the dimension, names and counts

fn suits_dimension(detail: &Detail) -> bool
    ensures { IsTrue result ↔ SuitsDimension detail.now }
{
    match detail.dimension {
        2 => detail.chis.items.is_empty(),
        3 => detail.psis.items.is_empty(),
        _ => false,
    }
}

fn are_all_named(detail: &Detail) -> bool
    ensures { IsTrue result ↔ AreAllNamed detail.now }
{
    are_named(&detail.environments.items)
        && are_named(&detail.materials.items)
        && are_named(&detail.parts.items)
        && are_named(&detail.psis.items)
        && are_named(&detail.chis.items)
}

// The number of names is capped, since lists of any length have to be judged.
fn are_few_names(detail: &Detail) -> bool
    ensures { IsTrue result ↔ (name_count detail.now ≤ MOST_NAMES) }
{
    let names = detail
        .environments
        .items
        .len()
        .saturating_add(detail.materials.items.len())
        .saturating_add(detail.parts.items.len())
        .saturating_add(detail.psis.items.len())
        .saturating_add(detail.chis.items.len());
    names <= MOST_NAMES
}

fn are_few(detail: &Detail) -> bool
    ensures { IsTrue result ↔ AreFew detail.now }
{
    detail.environments.items.len() <= MOST_ENVIRONMENTS
        && detail.boxes.items.len() <= MOST_BOXES
        && are_few_names(detail)
}

// ---- materials and boxes

fn are_conductivities(materials: &Items<Material>) -> bool
    ensures { IsTrue result
        ↔ All (λ material. IsInRange Quantity.Conductivity material.lambda) materials.now }
{
    materials.items.iter().all(|material| Quantity::Conductivity.is_in_range(material.lambda))
}

fn is_extent(low: u32, high: u32) -> bool
    ensures { IsTrue result ↔ IsExtent low high }
{
    low < high && Quantity::Length.is_in_range(high)
}

fn is_span(dimension: u8, span: &Span) -> bool
    ensures { IsTrue result ↔ SpanInLimits dimension span.now }
{
    is_extent(span.x0, span.x1)
        && is_extent(span.y0, span.y1)
        && is_extent(span.z0, span.z1)
        && (dimension != 2 || span.z0 == 0 && span.z1 == FLAT_HEIGHT)
}

fn is_content(detail: &Detail, content: Content) -> bool
    ensures { IsTrue result ↔ ContentInLimits detail.now content }
{
    match content {
        Content::Solid { material } => usize::from(material) < detail.materials.items.len(),
        Content::Air { environment, rs } => {
            usize::from(environment) < detail.environments.items.len()
                && Quantity::Resistance.is_in_range(rs)
        }
    }
}

fn is_box(detail: &Detail, space: &SpaceBox) -> bool
    ensures { IsTrue result ↔ BoxInLimits detail.now space.now }
{
    is_content(detail, space.content) && is_span(detail.dimension, &space.span)
}

fn are_boxes(detail: &Detail) -> bool
    ensures { IsTrue result ↔ All (BoxInLimits detail.now) detail.now.boxes }
{
    detail.boxes.items.iter().all(|space| is_box(detail, space))
}

// ---- parts

// Whether each is the place of an item of a list of this length.
fn are_places(places: &Items<u16>, length: usize) -> bool
    ensures { IsTrue result ↔ All (λ place. place < length) places.now }
{
    places
        .items
        .iter()
        .all(|place| usize::from(*place) < length)
}

fn is_layer(detail: &Detail, sections: usize, layer: &Layer) -> bool
    ensures { IsTrue result ↔ LayerInLimits detail.now sections layer.now }
{
    Quantity::Thickness.is_in_range(layer.thickness)
        && layer.materials.items.len() == sections
        && are_places(&layer.materials, detail.materials.items.len())
}

fn are_layers(detail: &Detail, sections: usize, layers: &Items<Layer>) -> bool
    ensures { IsTrue result ↔ All (LayerInLimits detail.now sections) layers.now }
{
    layers
        .items
        .iter()
        .all(|layer| is_layer(detail, sections, layer))
}

fn are_areas(areas: &Items<u32>) -> bool
    ensures { IsTrue result ↔ All (IsInRange Quantity.Section) areas.now }
{
    areas
        .items
        .iter()
        .all(|area| Quantity::Section.is_in_range(*area))
}

fn is_part(detail: &Detail, part: &Part) -> bool
    ensures { IsTrue result ↔ PartInLimits detail.now part.now }
{
    let sections = part.areas.items.len();
    let layers = part.layers.items.len();
    Quantity::Resistance.is_in_range(part.rsi)
        && Quantity::Resistance.is_in_range(part.rse)
        && (1 <= sections && sections <= MOST_SECTIONS)
        && are_areas(&part.areas)
        && (1 <= layers && layers <= MOST_LAYERS)
        && are_layers(detail, sections, &part.layers)
}

fn are_parts(detail: &Detail) -> bool
    ensures { IsTrue result ↔ All (PartInLimits detail.now) detail.now.parts }
{
    detail.parts.items.iter().all(|part| is_part(detail, part))
}

// ---- transmittances

fn is_pair(detail: &Detail, first: u8, second: u8) -> bool
    ensures { IsTrue result ↔ IsPair detail.now first second }
{
    let environments = detail.environments.items.len();
    usize::from(first) < environments && usize::from(second) < environments && first != second
}

fn is_term(detail: &Detail, quantity: Quantity, term: PlanarTerm) -> bool
    ensures { IsTrue result ↔ TermInLimits detail.now quantity term }
{
    usize::from(term.part) < detail.parts.items.len() && quantity.is_in_range(term.amount)
}

fn are_terms(detail: &Detail, quantity: Quantity, terms: &Items<PlanarTerm>) -> bool
    ensures { IsTrue result ↔ TermsInLimits detail.now quantity terms.now }
{
    terms.items.len() <= MOST_TERMS
        && terms
            .items
            .iter()
            .all(|term| is_term(detail, quantity, *term))
}

fn is_line(line: LineTerm) -> bool
    ensures { IsTrue result ↔ LineInLimits line }
{
    line.psi_lo.unsigned_abs() <= MOST_PSI
        && line.psi_hi.unsigned_abs() <= MOST_PSI
        && line.psi_lo <= line.psi_hi
        && Quantity::Length.is_in_range(line.length)
}

fn are_lines(lines: &Items<LineTerm>) -> bool
    ensures { IsTrue result ↔ LinesInLimits lines.now }
{
    lines.items.len() <= MOST_TERMS && lines.items.iter().all(|line| is_line(*line))
}

fn is_psi(detail: &Detail, psi: &PsiItem) -> bool
    ensures { IsTrue result ↔ PsiInLimits detail.now psi.now }
{
    is_pair(detail, psi.first, psi.second) && are_terms(detail, Quantity::Length, &psi.lengths)
}

fn are_psis(detail: &Detail) -> bool
    ensures { IsTrue result ↔ All (PsiInLimits detail.now) detail.now.psis }
{
    detail.psis.items.iter().all(|psi| is_psi(detail, psi))
}

fn is_chi(detail: &Detail, chi: &ChiItem) -> bool
    ensures { IsTrue result ↔ ChiInLimits detail.now chi.now }
{
    is_pair(detail, chi.first, chi.second)
        && are_terms(detail, Quantity::Area, &chi.areas)
        && are_lines(&chi.lines)
}

fn are_chis(detail: &Detail) -> bool
    ensures { IsTrue result ↔ All (ChiInLimits detail.now) detail.now.chis }
{
    detail.chis.items.iter().all(|chi| is_chi(detail, chi))
}

// ---- a detail

impl Detail {
    /// Whether all numbers, counts, names and places are within limits. It takes no memory.
    ///
    /// The dimension is 2, and then there is no χ and every box has z from 0 to 10,000, or it is 3, and
    /// then there is no Ψ. Each number is in the range of its quantity, each upper coordinate is above its
    /// lower one, and no upper ψ is below its lower one. Each place is one of an item of its list. Names
    /// have the form of a name and are distinct within their kind. No list is longer than the constants
    /// of this crate say. Each part has an area and a layer, and each layer a material for each area. The
    /// two environments of a transmittance differ.
    pub fn in_limits(&self) -> bool
        ensures { IsTrue result ↔ InLimits self.now }
    {
        suits_dimension(self)
            && are_few(self)
            && are_all_named(self)
            && are_conductivities(&self.materials)
            && are_boxes(self)
            && are_parts(self)
            && are_psis(self)
            && are_chis(self)
    }
}
