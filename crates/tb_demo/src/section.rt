// A section through storeys with balcony slabs.
ghost use Rattle.std.specs.Prelude.{◌≡◌, ◌≤◌, ◌<◌, ◌*◌, ◌+◌, ◌^◌, ◌++◌, ◌∷◌, [], IfOk, OnOk};
ghost use Rattle.tb_detail.specs.Limits.{InLimits};
ghost use Rattle.tb_geometry.specs.Faults.{IsAccepted};
ghost use Rattle.tb_demo.specs.Level.{HasLevelCells};
ghost use Rattle.tb_demo.specs.Section.{environments, flat_box, materials, section, slab, storey, storeys, wall};

use crate::memory::NoMemory;
use std::alloc::{AllocError, Global};
use tb_detail::{Content, Detail, Environment, FLAT_HEIGHT, Items, Material, Name, SpaceBox, Span};

/// How high a storey is, in 0.1 mm.
const STOREY_HEIGHT: u32 = 30_000;

const AIR_INSIDE: Content = Content::Air {
    environment: 0,
    rs: 1_300,
};

const AIR_OUTSIDE: Content = Content::Air {
    environment: 1,
    rs: 400,
};

const MASONRY: Content = Content::Solid { material: 0 };

const INSULATION: Content = Content::Solid { material: 1 };

const CONCRETE: Content = Content::Solid { material: 2 };

/// A vertical section through 1 to 16 storeys 3 m high. Each has a wall of 200 mm masonry and 100 mm insulation, and at
/// mid-height a concrete slab of 200 mm that passes through the wall and carries a balcony outside.
///
/// # Errors
/// `NoMemory` may come at any time.
pub fn demo_detail(alloc: Global, storeys: u8) -> Result<Detail, NoMemory>
    requires some { 1 ≤ storeys }
    requires few { storeys ≤ 16 }
    ensures detail { IfOk result (λ d. d ≡ section storeys) }
    // it is within limits and has no fault of a body
    ensures limits { IfOk result InLimits }
    ensures accepted { IfOk result IsAccepted }
    // its level grid, each interval cut twice towards its ends, has 20 by 12 cells a storey
    ensures level { IfOk result (λ d. HasLevelCells d (240 * storeys)) }
{
    let mut environments = Vec::new(alloc);
    push_environments(alloc, &mut environments)?;
    let mut materials = Vec::new(alloc);
    push_materials(alloc, &mut materials)?;
    let mut boxes = Vec::new(alloc);
    push_storeys(&mut boxes, storeys)?;
    Ok(Detail {
        dimension: 2,
        environments: Items {
            items: environments,
        },
        materials: Items { items: materials },
        boxes: Items { items: boxes },
        parts: Items {
            items: Vec::new(alloc),
        },
        psis: Items {
            items: Vec::new(alloc),
        },
        chis: Items {
            items: Vec::new(alloc),
        },
    })
}

// Adds the environments.
fn push_environments(alloc: Global, list: &mut Vec<Environment>) -> Result<(), AllocError>
    ensures { OnOk result (list.new.items ≡ list.old.items ++ environments) }
{
    list.push(Environment {
        name: name(alloc, "inside")?,
    })?;
    list.push(Environment {
        name: name(alloc, "outside")?,
    })?;
    Ok(())
}

// Adds the materials.
fn push_materials(alloc: Global, list: &mut Vec<Material>) -> Result<(), AllocError>
    ensures { OnOk result (list.new.items ≡ list.old.items ++ materials) }
{
    list.push(material(alloc, "masonry", 8_000)?)?;
    list.push(material(alloc, "insulation", 400)?)?;
    list.push(material(alloc, "concrete", 23_000)?)?;
    Ok(())
}

// A material of this name and conductivity.
fn material(alloc: Global, text: &str, lambda: u32) -> Result<Material, AllocError>
    ensures { IfOk result (λ m. m ≡ record { name = text.now; lambda = lambda }) }
{
    Ok(Material {
        name: name(alloc, text)?,
        lambda,
    })
}

fn name(alloc: Global, text: &str) -> Result<Name, AllocError>
    ensures { IfOk result (λ n. n ≡ text.now) }
{
    Ok(Name {
        bytes: Vec::from_slice(alloc, text.as_bytes())?,
    })
}

// Adds the boxes of so many storeys, from the ground up.
fn push_storeys(boxes: &mut Vec<SpaceBox>, count: u8) -> Result<(), AllocError>
    requires { boxes.old.items ≡ [] }
    ensures { OnOk result (boxes.new.items ≡ storeys count) }
{
    for number in 0..count {
        push_storey(boxes, STOREY_HEIGHT * u32::from(number))?;
    }
    Ok(())
}

// Adds the boxes of the storey at this height.
fn push_storey(boxes: &mut Vec<SpaceBox>, y: u32) -> Result<(), AllocError>
    requires { y ≤ 10000000 }
    ensures { OnOk result (boxes.new.items ≡ boxes.old.items ++ storey y) }
{
    boxes.extend_from_slice(wall(y, y + 14_000).as_slice())?;
    boxes.extend_from_slice(slab(y + 14_000, y + 16_000).as_slice())?;
    boxes.extend_from_slice(wall(y + 16_000, y + STOREY_HEIGHT).as_slice())
}

// The wall from one height up to another, with the air on its two sides.
fn wall(y0: u32, y1: u32) -> [SpaceBox; 4]
    ensures { result ≡ wall y0 y1 }
{
    [
        flat_box(AIR_INSIDE, 0, 10_000, y0, y1),
        flat_box(MASONRY, 10_000, 12_000, y0, y1),
        flat_box(INSULATION, 12_000, 13_000, y0, y1),
        flat_box(AIR_OUTSIDE, 13_000, 24_000, y0, y1),
    ]
}

// The slab from one height up to another, with the air at the end of the balcony.
fn slab(y0: u32, y1: u32) -> [SpaceBox; 2]
    ensures { result ≡ slab y0 y1 }
{
    [
        flat_box(CONCRETE, 0, 23_000, y0, y1),
        flat_box(AIR_OUTSIDE, 23_000, 24_000, y0, y1),
    ]
}

// A box of the section, one metre deep.
fn flat_box(content: Content, x0: u32, x1: u32, y0: u32, y1: u32) -> SpaceBox
    ensures { result ≡ flat_box content x0 x1 y0 y1 }
{
    SpaceBox {
        content,
        span: Span {
            x0,
            x1,
            y0,
            y1,
            z0: 0,
            z1: FLAT_HEIGHT,
        },
    }
}
