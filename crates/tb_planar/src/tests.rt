// Expected values were worked out by hand from ISO 6946:2017: the whole numbers by unbounded arithmetic, in
// decimals beside each.
use crate::{PlanarU, RatioAbove, URange, first_ratio_above, planar};
use std::alloc::{AllocError, Global};
use std::test::Fail;
use tb_detail::{Detail, Items, Layer, Material, Name, Part};

const OUTSIDE: (u32, u32) = (1_300, 400);

fn copies<T: Copy>(alloc: Global, from: &[T]) -> Result<Items<T>, AllocError> {
    Ok(Items {
        items: from.to_vec(alloc)?,
    })
}

fn none<T>(alloc: Global) -> Items<T> {
    Items {
        items: Vec::new(alloc),
    }
}

fn name_of(alloc: Global, letter: u8) -> Result<Name, AllocError> {
    Ok(Name {
        bytes: [letter].as_slice().to_vec(alloc)?,
    })
}

// Materials a, b, .. with these conductivities.
fn materials(alloc: Global, lambdas: &[u32]) -> Result<Items<Material>, AllocError> {
    let mut items = Vec::new(alloc);
    for (place, lambda) in lambdas.iter().enumerate() {
        items.push(Material {
            name: name_of(alloc, b'a' + (place % 26) as u8)?,
            lambda: *lambda,
        })?;
    }
    Ok(Items { items })
}

// Layers by their thickness and the materials of two sections, or of the first alone.
fn layers(
    alloc: Global,
    sections: usize,
    from: &[(u32, [u16; 2])],
) -> Result<Items<Layer>, AllocError> {
    let mut items = Vec::new(alloc);
    for (thickness, materials) in from {
        let each = if sections == 1 {
            copies(alloc, &materials[..1])?
        } else {
            copies(alloc, materials.as_slice())?
        };
        items.push(Layer {
            thickness: *thickness,
            materials: each,
        })?;
    }
    Ok(Items { items })
}

fn part(
    alloc: Global,
    letter: u8,
    surfaces: (u32, u32),
    areas: &[u32],
    from: &[(u32, [u16; 2])],
) -> Result<Part, AllocError> {
    Ok(Part {
        name: name_of(alloc, letter)?,
        rsi: surfaces.0,
        rse: surfaces.1,
        areas: copies(alloc, areas)?,
        layers: layers(alloc, areas.len(), from)?,
    })
}

fn detail_of(alloc: Global, lambdas: &[u32], parts: Items<Part>) -> Result<Detail, AllocError> {
    Ok(Detail {
        dimension: 3,
        environments: none(alloc),
        materials: materials(alloc, lambdas)?,
        boxes: none(alloc),
        parts,
        psis: none(alloc),
        chis: none(alloc),
    })
}

fn answer(detail: &Detail, part: u16) -> Option<Result<PlanarU, RatioAbove>> {
    if detail.in_limits() && usize::from(part) < detail.parts.items().len() {
        Some(planar(detail, part))
    } else {
        None
    }
}

fn first_above(detail: &Detail) -> Option<Option<u16>> {
    if detail.in_limits() {
        Some(first_ratio_above(detail))
    } else {
        None
    }
}

fn printed(lo: i128, hi: i128, error: i128) -> Result<PlanarU, RatioAbove> {
    Ok(PlanarU {
        u: URange { lo, hi },
        error,
    })
}

// What is answered of a detail with this part alone.
fn alone(
    alloc: Global,
    lambdas: &[u32],
    surfaces: (u32, u32),
    areas: &[u32],
    from: &[(u32, [u16; 2])],
) -> Result<Option<Result<PlanarU, RatioAbove>>, AllocError> {
    let mut items = Vec::new(alloc);
    items.push(part(alloc, b'p', surfaces, areas, from)?)?;
    let detail = detail_of(alloc, lambdas, Items { items })?;
    Ok(answer(&detail, 0))
}

#[test]
fn parts_of_the_examples(rt: HostRuntime) -> Result<(), Fail> {
    let alloc = rt.alloc();
    let two = |first: u32, second: u32| [(first, [0, 0]), (second, [1, 1])];
    // A balcony's wall: 0.17 + 0.175 / 0.8 + 0.14 / 0.035 = 4.38875, U = 0.227855.
    let u = alone(alloc, &[8_000, 350], OUTSIDE, &[1], &two(1_750, 1_400))?;
    assert_eq!(rt; u, Some(printed(227855311876958, 227855311876959, 0)));
    // A cellar's wall: 0.17 + 0.24 / 0.5 + 0.12 / 0.035 = 4.078571, U = 0.245184.
    let u = alone(alloc, &[5_000, 350], OUTSIDE, &[1], &two(2_400, 1_200))?;
    assert_eq!(rt; u, Some(printed(245183887915936, 245183887915937, 0)));
    // Its floor: 0.34 + 0.18 / 2.3 + 0.08 / 0.035 = 2.703975, U = 0.369826.
    let u = alone(
        alloc,
        &[23_000, 350],
        (1_700, 1_700),
        &[1],
        &two(1_800, 800),
    )?;
    assert_eq!(rt; u, Some(printed(369825883217714, 369825883217715, 0)));
    // The wall of a corner and of a reveal: 0.17 + 0.24 / 0.5 + 0.14 / 0.035 = 4.65, U = 0.215054.
    let u = alone(alloc, &[5_000, 350], OUTSIDE, &[1], &two(2_400, 1_400))?;
    assert_eq!(rt; u, Some(printed(215053763440860, 215053763440861, 0)));
    // A frame: 0.17 + 0.08 / 0.13 = 0.785385, U = 1.273262.
    let u = alone(alloc, &[1_300], OUTSIDE, &[1], &[(800, [0, 0])])?;
    assert_eq!(rt; u, Some(printed(1273261508325171, 1273261508325172, 0)));
    // A panel: 0.17 + 0.036 / 0.035 = 1.198571, U = 0.834327.
    let u = alone(alloc, &[350], OUTSIDE, &[1], &[(360, [0, 0])])?;
    assert_eq!(rt; u, Some(printed(834326579261025, 834326579261026, 0)));
    Ok(())
}

#[test]
fn parts_at_the_limits(rt: HostRuntime) -> Result<(), Fail> {
    let alloc = rt.alloc();
    // 0.0002 + 0.0001 / 500 = 0.0002002, U = 4995.004995.
    let u = alone(alloc, &[5_000_000], (1, 1), &[7], &[(1, [0, 0])])?;
    assert_eq!(rt;
        u,
        Some(printed(4995004995004995004, 4995004995004995005, 0))
    );
    // 20 + 16 * 50 / 0.0001 = 8000020, U = 0.000000125.
    let u = alone(
        alloc,
        &[1],
        (100_000, 100_000),
        &[7],
        &[(500_000, [0, 0]); 16],
    )?;
    assert_eq!(rt; u, Some(printed(124999687, 124999688, 0)));
    Ok(())
}

// Between plaster of 12.5 mm and a board of 12 mm timber with 15 in 100 of the area and wool. The sections have
// 0.17 + 0.05 + 1 + 0.1 = 1.32 and 0.17 + 0.05 + 4 + 0.1 = 4.32; 1 / R' = 0.15 / 1.32 + 0.85 / 4.32, R' = 3.221695;
// R'' = 0.32 + 0.14 / (0.15 * 0.14 + 0.85 * 0.035) = 3.078621; U = 2 / 6.300316 = 0.317444, and the error is
// 0.143074 / 6.300316 = 0.0228.
#[test]
fn a_timber_wall(rt: HostRuntime) -> Result<(), Fail> {
    let layers = [(125, [0, 0]), (1_400, [1, 2]), (120, [3, 3])];
    let u = alone(
        rt.alloc(),
        &[2_500, 1_400, 350, 1_200],
        OUTSIDE,
        &[3, 17],
        &layers,
    )?;
    assert_eq!(rt; u, Some(printed(317444414759402, 317444414759404, 228)));
    Ok(())
}

// A wall of 0.17 + 0.2 / 1, and two equal sections of 70 mm whose conductivities are given: what is answered of
// both, and the first that is refused.
fn beside(
    alloc: Global,
    first: u32,
    second: u32,
) -> Result<(Option<Result<PlanarU, RatioAbove>>, Option<Option<u16>>), AllocError> {
    let mut items = Vec::new(alloc);
    items.push(part(alloc, b'p', OUTSIDE, &[1], &[(2_000, [2, 2])])?)?;
    items.push(part(alloc, b'q', (1_100, 400), &[1, 1], &[(700, [0, 1])])?)?;
    let detail = detail_of(alloc, &[first, second, 10_000], Items { items })?;
    Ok((answer(&detail, 1), first_above(&detail)))
}

// The sections have 0.17 and 0.85, so R' = 0.85 / 3 and R'' = 0.15 + 0.07 / 1.8 = 1.7 / 9: the ratio is 1.5.
// U = 2 / 0.472222 = 4.235294, and the error is 0.094444 / 0.472222 = 0.2. Below 0.1 W/(m K) the ratio is above.
#[test]
fn the_ratio_of_the_limits(rt: HostRuntime) -> Result<(), Fail> {
    let (u, first) = beside(rt.alloc(), 35_000, 1_000)?;
    assert_eq!(rt; u, Some(printed(4235294117647058, 4235294117647061, 2001)));
    assert_eq!(rt; first, Some(None));
    let (u, first) = beside(rt.alloc(), 35_000, 999)?;
    assert_eq!(rt; u, Some(Err(RatioAbove)));
    assert_eq!(rt; first, Some(Some(1)));
    Ok(())
}
