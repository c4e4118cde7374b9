//! The types of a detail: a body of boxes with materials and environments, and the planar parts and
//! transmittances that are computed for it.
//!
//! | quantity | unit |
//! |---|---|
//! | coordinate, length, thickness | 0.1 mm |
//! | thermal conductivity λ | 10⁻⁴ W/(m·K) |
//! | surface resistance Rs, Rsi, Rse | 10⁻⁴ m²K/W |
//! | area of a term | 10⁻⁴ m² |
//! | given ψ | 10⁻⁶ W/(m·K) |
//!
//! A thing is named by its place in its list, counted from 0.
//!
//! The types hold any numbers. `specs/Limits.antt` says which details are within limits, and
//! `Detail::in_limits` tells.
#![tactic(auto)]

ghost use Rattle.std.specs.Prelude.{◌≡◌, nat_eq};
ghost use Rattle.std.specs.Cmp.{partial_equiv_from_equiv};
ghost use Rattle.std.specs.Cmp.Lexicographic.{lists_per, nat_list_eq_equiv, pointwise};

mod limits;
mod names;
mod quantity;
#[cfg(test)]
mod tests;

pub use limits::{
    FLAT_HEIGHT, MOST_AREA, MOST_BOXES, MOST_CONDUCTIVITY, MOST_ENVIRONMENTS, MOST_LAYERS,
    MOST_LENGTH, MOST_NAME_BYTES, MOST_NAMES, MOST_PSI, MOST_RESISTANCE, MOST_SECTION,
    MOST_SECTIONS, MOST_TERMS, limits_are_stated,
};
pub use names::is_name;
pub use quantity::Quantity;
use std::marker::Model;

/// A list inside a public type. Contracts see it as the list of its items.
#[derive(Clone, Debug, Drop)]
pub struct Items<T> {
    pub items: Vec<T>,
}

impl<T> Model for Items<T> {
    ghost use Rattle.std.specs.Prelude.{List};
    ghost use Rattle.std.specs.Coded.{coded_list};

    ghost Value = { List T };

    ghost coded = { coded_list T.code };

    ghost view = { λ it. it.items.items };
}

impl<T: PartialEq> PartialEq for Items<T> {
    ghost eq = { λ a b. pointwise T.eq a b };

    ghost laws = { lists_per T.laws };

    fn eq(&self, other: &Items<T>) -> bool {
        self.items == other.items
    }
}

impl<T> Items<T> {
    /// The items.
    pub fn items(&self) -> &[T]
        ensures { result.now ≡ self.now }
    {
        &self.items
    }
}

/// The name of a thing. Contracts see it as the list of its bytes.
#[derive(Clone, Debug, Drop)]
pub struct Name {
    pub bytes: Vec<u8>,
}

impl Model for Name {
    ghost use Rattle.std.specs.Prelude.{List, ℕ};

    ghost Value = { List ℕ };

    ghost view = { λ n. n.bytes.items };
}

impl PartialEq for Name {
    ghost eq = { λ a b. pointwise nat_eq a b };

    ghost laws = { partial_equiv_from_equiv nat_list_eq_equiv };

    fn eq(&self, other: &Name) -> bool {
        self.bytes == other.bytes
    }
}

impl Name {
    /// The bytes.
    pub fn bytes(&self) -> &[u8]
        ensures { result.now ≡ self.now }
    {
        &self.bytes
    }
}

/// A material with its thermal conductivity.
#[derive(Clone, Debug, Drop, PartialEq)]
pub struct Material {
    pub name: Name,
    pub lambda: u32,
}

/// An environment, to which heat flows at the surfaces of its air boxes.
#[derive(Clone, Debug, Drop, PartialEq)]
pub struct Environment {
    pub name: Name,
}

/// The extent of a box: from the lower up to the upper coordinate on each axis.
#[derive(Clone, Copy, Debug, PartialEq, Eq)]
pub struct Span {
    pub x0: u32,
    pub x1: u32,
    pub y0: u32,
    pub y1: u32,
    pub z0: u32,
    pub z1: u32,
}

/// What a box is filled with: a material, or the air of an environment with the resistance of the
/// surfaces that it touches.
#[derive(Clone, Copy, Debug, PartialEq, Eq)]
pub enum Content {
    Solid { material: u16 },
    Air { environment: u8, rs: u32 },
}

/// A box of a body.
#[derive(Clone, Copy, Debug, PartialEq, Eq)]
pub struct SpaceBox {
    pub content: Content,
    pub span: Span,
}

/// A layer of a planar part, with one material for each section.
#[derive(Clone, Debug, Drop, PartialEq)]
pub struct Layer {
    pub thickness: u32,
    pub materials: Items<u16>,
}

/// A planar part: its two surface resistances, the areas of its sections as weights, and its layers
/// from one surface to the other.
#[derive(Clone, Debug, Drop, PartialEq)]
pub struct Part {
    pub name: Name,
    pub rsi: u32,
    pub rse: u32,
    pub areas: Items<u32>,
    pub layers: Items<Layer>,
}

/// A term U·l or U·A of a transmittance: a part and a length or an area.
#[derive(Clone, Copy, Debug, PartialEq, Eq)]
pub struct PlanarTerm {
    pub part: u16,
    pub amount: u32,
}

/// A term Ψ·l of a point transmittance: a given ψ between two ends, and a length.
#[derive(Clone, Copy, Debug, PartialEq, Eq)]
pub struct LineTerm {
    pub psi_lo: i64,
    pub psi_hi: i64,
    pub length: u32,
}

/// A linear transmittance Ψ for a pair of environments, with the terms that it takes off.
#[derive(Clone, Debug, Drop, PartialEq)]
pub struct PsiItem {
    pub name: Name,
    pub first: u8,
    pub second: u8,
    pub lengths: Items<PlanarTerm>,
}

/// A point transmittance χ for a pair of environments, with the terms that it takes off.
#[derive(Clone, Debug, Drop, PartialEq)]
pub struct ChiItem {
    pub name: Name,
    pub first: u8,
    pub second: u8,
    pub areas: Items<PlanarTerm>,
    pub lines: Items<LineTerm>,
}

/// A detail of dimension 2 or 3. In dimension 2 every box reaches from z = 0 to `FLAT_HEIGHT`, one metre.
#[derive(Clone, Debug, Drop, PartialEq)]
pub struct Detail {
    pub dimension: u8,
    pub environments: Items<Environment>,
    pub materials: Items<Material>,
    pub boxes: Items<SpaceBox>,
    pub parts: Items<Part>,
    pub psis: Items<PsiItem>,
    pub chis: Items<ChiItem>,
}
