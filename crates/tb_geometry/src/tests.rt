// Bodies with and without a fault. The answers were worked out by hand from the coordinates.
use super::*;
use std::alloc::{AllocError, Global};
use std::process::Abort;
use std::test::Fail;
use tb_detail::{Content, Detail, Environment, Items, Material, Name, SpaceBox, Span};

fn name(alloc: Global, letter: u8) -> Result<Name, AllocError> {
    Ok(Name {
        bytes: [letter].to_vec(alloc)?,
    })
}

// A detail with one material and environments `a`, `b` and so on.
pub(crate) fn detail(
    alloc: Global,
    environments: u8,
    boxes: &[SpaceBox],
) -> Result<Detail, AllocError> {
    let mut materials = Vec::new(alloc);
    materials.push(Material {
        name: name(alloc, b'm')?,
        lambda: 10_000,
    })?;
    let mut names = Vec::new(alloc);
    for n in 0..environments {
        names.push(Environment {
            name: name(alloc, b'a' + n % 26)?,
        })?;
    }
    Ok(Detail {
        dimension: 3,
        environments: Items { items: names },
        materials: Items { items: materials },
        boxes: Items {
            items: boxes.to_vec(alloc)?,
        },
        parts: Items {
            items: Vec::new(alloc),
        },
        psis: Items {
            items: Vec::new(alloc),
        },
        chis: Items {
            items: Vec::new(alloc),
        },
    })
}

pub(crate) const SOLID: Content = Content::Solid { material: 0 };

pub(crate) const INSIDE: Content = Content::Air {
    environment: 0,
    rs: 1300,
};

pub(crate) const OUTSIDE: Content = Content::Air {
    environment: 1,
    rs: 400,
};

fn space(content: Content, x: (u32, u32), y: (u32, u32), z: (u32, u32)) -> SpaceBox {
    SpaceBox {
        content,
        span: Span {
            x0: x.0,
            x1: x.1,
            y0: y.0,
            y1: y.1,
            z0: z.0,
            z1: z.1,
        },
    }
}

// A part of a wall that is 1 m high and 1 m long, across its whole face.
pub(crate) fn slab(content: Content, low: u32, high: u32) -> SpaceBox {
    space(content, (low, high), (0, 10_000), (0, 10_000))
}

// The number of base cells of a body, or its fault.
fn expect(
    rt: &impl Abort,
    alloc: Global,
    environments: u8,
    boxes: &[SpaceBox],
    want: Result<u32, BodyFault>,
) -> Result<(), AllocError> {
    let detail = detail(alloc, environments, boxes)?;
    assert!(rt; detail.in_limits());
    match Body::new(alloc, &detail) {
        Ok(body) => {
            assert_eq!(rt; Ok(body.base().cells()), want);
            assert_eq!(rt; body.environments(), environments);
        }
        Err(refusal) => assert_eq!(rt; Err(refusal), want.map_err(BodyRefusal::Fault)),
    }
    Ok(())
}

#[test]
fn walls(rt: HostRuntime) -> Result<(), Fail> {
    let alloc = rt.alloc();
    let wall = slab(SOLID, 1, 2001);
    let inside = slab(INSIDE, 0, 1);
    let outside = slab(OUTSIDE, 2001, 2002);
    expect(&rt, alloc, 2, &[wall, inside, outside], Ok(3))?;
    let one = Err(BodyFault::TooFewEnvironments);
    expect(&rt, alloc, 1, &[inside], one)?;
    let no_solid = Err(BodyFault::NoSolid);
    expect(&rt, alloc, 2, &[inside, inside], no_solid)?;
    let thick = slab(INSIDE, 0, 2);
    let overlap = Err(BodyFault::Overlap(1, 2));
    expect(&rt, alloc, 2, &[wall, thick, outside], overlap)?;
    let both = slab(INSIDE, 2000, 2002);
    let first = Err(BodyFault::Overlap(1, 3));
    expect(&rt, alloc, 2, &[wall, outside, both], first)?;
    let isolated = Err(BodyFault::Isolated { x: 1, y: 0, z: 0 });
    expect(&rt, alloc, 2, &[wall], isolated)?;
    Ok(())
}

// A wall in three pieces that leave one edge of 0.1 mm free.
#[test]
fn a_gap(rt: HostRuntime) -> Result<(), Fail> {
    let alloc = rt.alloc();
    let boxes = [
        space(SOLID, (1, 2001), (0, 10_000), (0, 9_999)),
        space(SOLID, (1, 2001), (0, 9_999), (9_999, 10_000)),
        space(SOLID, (1, 2000), (9_999, 10_000), (9_999, 10_000)),
        slab(INSIDE, 0, 1),
        slab(OUTSIDE, 2001, 2002),
    ];
    let fault = BodyFault::Uncovered {
        x: 2000,
        y: 9_999,
        z: 9_999,
    };
    expect(&rt, alloc, 2, &boxes, Err(fault))?;
    Ok(())
}

// 64 cubes of 1 mm along a diagonal, the first two of them air.
fn diagonal(alloc: Global) -> Result<Vec<SpaceBox>, AllocError> {
    let mut boxes = Vec::new(alloc);
    for n in 0..64u32 {
        let content = match n {
            0 => INSIDE,
            1 => OUTSIDE,
            _ => SOLID,
        };
        let side = (10 * n, 10 * n + 10);
        boxes.push(space(content, side, side, side))?;
    }
    Ok(boxes)
}

// A block of 64³ base cells: strips along y in its lowest layer, along x in the next, and a layer of air at the top.
fn block(alloc: Global) -> Result<Vec<SpaceBox>, AllocError> {
    let all = (0, 640);
    let mut boxes = Vec::new(alloc);
    for n in 0..64u32 {
        let strip = (10 * n, 10 * n + 10);
        boxes.push(space(SOLID, strip, all, (0, 10)))?;
        boxes.push(space(SOLID, all, strip, (10, 20)))?;
        if n >= 2 {
            let content = if n < 63 { SOLID } else { INSIDE };
            boxes.push(space(content, all, all, strip))?;
        }
    }
    Ok(boxes)
}

#[test]
fn the_largest_base_grid(rt: HostRuntime) -> Result<(), Fail> {
    let alloc = rt.alloc();
    let boxes = block(alloc)?;
    expect(&rt, alloc, 2, boxes.as_slice(), Ok(262_144))?;
    let mut boxes = diagonal(alloc)?;
    let second_cell = BodyFault::Uncovered { x: 10, y: 0, z: 0 };
    expect(&rt, alloc, 2, boxes.as_slice(), Err(second_cell))?;
    boxes.push(space(SOLID, (640, 650), (630, 640), (630, 640)))?;
    let too_many = BodyFault::TooManyCells(266_240);
    expect(&rt, alloc, 2, boxes.as_slice(), Err(too_many))?;
    Ok(())
}
