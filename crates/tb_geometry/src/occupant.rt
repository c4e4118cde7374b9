// What fills the boxes of a body.
ghost use Rattle.std.specs.Prelude.{◌≡◌, All, IfOk, map};
ghost use Rattle.tb_geometry.specs.Bodies.{HasMaterial, occupant_of};

use std::alloc::{AllocError, Global};
use tb_detail::{Content, Material, SpaceBox};

/// What fills a box, and so its cells: a solid with its thermal conductivity in 10⁻⁴ W/(m·K), or the air of an
/// environment, counted from 0, with the resistance of its surfaces in 10⁻⁴ m²K/W.
#[derive(Clone, Copy, Debug, PartialEq, Eq)]
pub enum Occupant {
    Solid { lambda: u32 },
    Air { environment: u8, rs: u32 },
}

// What fills a box.
fn filling(materials: &[Material], b: &SpaceBox) -> Occupant
    requires { HasMaterial materials.now b.now.content }
    ensures { result ≡ occupant_of materials.now b.now }
{
    match b.content {
        Content::Solid { material } => Occupant::Solid {
            lambda: materials[material as usize].lambda,
        },
        Content::Air { environment, rs } => Occupant::Air { environment, rs },
    }
}

/// What fills each box.
pub fn occupants(
    alloc: Global,
    materials: &[Material],
    boxes: &[SpaceBox],
) -> Result<Vec<Occupant>, AllocError>
    requires { All (λ b. HasMaterial materials.now b.content) boxes.now }
    ensures { IfOk result (λ all. all.items ≡ map (occupant_of materials.now) boxes.now) }
{
    boxes.iter().map(|b| filling(materials, b)).collect(alloc)
}
