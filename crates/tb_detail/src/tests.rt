// Each condition at its limit and one past it, in a detail that is within limits otherwise. Expected
// answers were worked out by hand from the limits.
use crate::{
    ChiItem, Content, Detail, Environment, Items, Layer, LineTerm, Material, Name, Part,
    PlanarTerm, PsiItem, SpaceBox, Span, is_name,
};
use std::alloc::{AllocError, Global};
use std::test::Fail;

const SPAN: Span = Span {
    x0: 1,
    x1: 2,
    y0: 0,
    y1: 500_000,
    z0: 0,
    z1: 10_000,
};

fn copies<T: Copy>(alloc: Global, item: T, count: u32) -> Result<Items<T>, AllocError> {
    let mut items = Vec::new(alloc);
    for _ in 0..count {
        items.push(item)?;
    }
    Ok(Items { items })
}

fn name_of(alloc: Global, text: &[u8]) -> Result<Name, AllocError> {
    Ok(Name {
        bytes: text.to_vec(alloc)?,
    })
}

// Environments or materials that are told apart, with names of two letters.
fn environments(alloc: Global, count: u32) -> Result<Items<Environment>, AllocError> {
    let mut items = Vec::new(alloc);
    for n in 0..count {
        items.push(Environment {
            name: name_of(alloc, &letters(n))?,
        })?;
    }
    Ok(Items { items })
}

fn materials(alloc: Global, count: u32, lambda: u32) -> Result<Items<Material>, AllocError> {
    let mut items = Vec::new(alloc);
    for n in 0..count {
        items.push(Material {
            name: name_of(alloc, &letters(n))?,
            lambda,
        })?;
    }
    Ok(Items { items })
}

fn letters(n: u32) -> [u8; 2] {
    [b'a' + (n / 26 % 26) as u8, b'a' + (n % 26) as u8]
}

fn layers(
    alloc: Global,
    count: u32,
    sections: u32,
    thickness: u32,
    material: u16,
) -> Result<Items<Layer>, AllocError> {
    let mut items = Vec::new(alloc);
    for _ in 0..count {
        items.push(Layer {
            thickness,
            materials: copies(alloc, material, sections)?,
        })?;
    }
    Ok(Items { items })
}

fn parts(alloc: Global) -> Result<Items<Part>, AllocError> {
    let mut items = Vec::new(alloc);
    items.push(Part {
        name: name_of(alloc, b"p")?,
        rsi: 1,
        rse: 1,
        areas: copies(alloc, 1, 2)?,
        layers: layers(alloc, 1, 2, 1, 0)?,
    })?;
    Ok(Items { items })
}

fn psis(alloc: Global, count: u32) -> Result<Items<PsiItem>, AllocError> {
    let mut items = Vec::new(alloc);
    for _ in 0..count {
        items.push(PsiItem {
            name: name_of(alloc, b"s")?,
            first: 0,
            second: 1,
            lengths: copies(alloc, term(0, 0), 1)?,
        })?;
    }
    Ok(Items { items })
}

fn chis(alloc: Global, count: u32) -> Result<Items<ChiItem>, AllocError> {
    let mut items = Vec::new(alloc);
    for _ in 0..count {
        items.push(ChiItem {
            name: name_of(alloc, b"c")?,
            first: 0,
            second: 1,
            areas: copies(alloc, term(0, 0), 1)?,
            lines: copies(alloc, line(0, 0, 0), 1)?,
        })?;
    }
    Ok(Items { items })
}

// A detail of this dimension within limits, with a thing of each kind that it may have.
fn detail_of(alloc: Global, dimension: u8) -> Result<Detail, AllocError> {
    let flat = dimension == 2;
    Ok(Detail {
        dimension,
        environments: environments(alloc, 2)?,
        materials: materials(alloc, 1, 1)?,
        boxes: copies(alloc, air(0, 1), 1)?,
        parts: parts(alloc)?,
        psis: psis(alloc, if flat { 1 } else { 0 })?,
        chis: chis(alloc, if flat { 0 } else { 1 })?,
    })
}

// What is changed: a number, or how many there are of something.
#[derive(Clone, Copy, Debug)]
enum Place {
    Dimension,
    Environments,
    Materials,
    Conductivity,
    Boxes,
    Solid,
    Air,
    AirResistance,
    UpperX,
    LowerZ,
    UpperZ,
    Rsi,
    Rse,
    Sections,
    Section,
    Layers,
    Thickness,
    LayerMaterials,
    LayerMaterial,
    First,
    Second,
    Terms,
    TermPart,
    TermAmount,
    Lines,
    LowerPsi,
    UpperPsi,
    LineLength,
}

// A small number of the table.
fn small(n: u32) -> u8 {
    (n % 256) as u8
}

fn air(environment: u32, rs: u32) -> SpaceBox {
    SpaceBox {
        content: Content::Air {
            environment: small(environment),
            rs,
        },
        span: SPAN,
    }
}

fn solid(material: u32, x1: u32, z0: u32, z1: u32) -> SpaceBox {
    SpaceBox {
        content: Content::Solid {
            material: u16::from(small(material)),
        },
        span: Span { x1, z0, z1, ..SPAN },
    }
}

fn change_part(alloc: Global, part: &mut Part, place: Place, n: u32) -> Result<(), AllocError> {
    match place {
        Place::Rsi => part.rsi = n,
        Place::Rse => part.rse = n,
        Place::Sections => {
            part.areas = copies(alloc, 1, n)?;
            part.layers = layers(alloc, 1, n, 1, 0)?;
        }
        Place::Section => part.areas = copies(alloc, n, 2)?,
        Place::Layers => part.layers = layers(alloc, n, 2, 1, 0)?,
        Place::Thickness => part.layers = layers(alloc, 1, 2, n, 0)?,
        Place::LayerMaterials => part.layers = layers(alloc, 1, n, 1, 0)?,
        Place::LayerMaterial => part.layers = layers(alloc, 1, 2, 1, u16::from(small(n)))?,
        _ => {}
    }
    Ok(())
}

fn term(part: u32, amount: u32) -> PlanarTerm {
    PlanarTerm {
        part: u16::from(small(part)),
        amount,
    }
}

fn line(psi_lo: u32, psi_hi: u32, length: u32) -> LineTerm {
    LineTerm {
        psi_lo: -i64::from(psi_lo),
        psi_hi: -i64::from(psi_hi),
        length,
    }
}

fn change_psi(alloc: Global, psi: &mut PsiItem, place: Place, n: u32) -> Result<(), AllocError> {
    match place {
        Place::First => psi.first = small(n),
        Place::Second => psi.second = small(n),
        Place::Terms => psi.lengths = copies(alloc, term(0, 0), n)?,
        Place::TermPart => psi.lengths = copies(alloc, term(n, 0), 1)?,
        Place::TermAmount => psi.lengths = copies(alloc, term(0, n), 1)?,
        _ => {}
    }
    Ok(())
}

fn change_chi(alloc: Global, chi: &mut ChiItem, place: Place, n: u32) -> Result<(), AllocError> {
    match place {
        Place::First => chi.first = small(n),
        Place::Second => chi.second = small(n),
        Place::Terms => chi.areas = copies(alloc, term(0, 0), n)?,
        Place::TermPart => chi.areas = copies(alloc, term(n, 0), 1)?,
        Place::TermAmount => chi.areas = copies(alloc, term(0, n), 1)?,
        Place::Lines => chi.lines = copies(alloc, line(0, 0, 0), n)?,
        Place::LowerPsi => chi.lines = copies(alloc, line(n, 0, 0), 1)?,
        Place::UpperPsi => chi.lines = copies(alloc, line(5, n, 0), 1)?,
        Place::LineLength => chi.lines = copies(alloc, line(0, 0, n), 1)?,
        _ => {}
    }
    Ok(())
}

fn change(alloc: Global, detail: &mut Detail, place: Place, n: u32) -> Result<(), AllocError> {
    match place {
        Place::Dimension => detail.dimension = small(n),
        Place::Environments => detail.environments = environments(alloc, n)?,
        Place::Materials => detail.materials = materials(alloc, n, 1)?,
        Place::Conductivity => detail.materials = materials(alloc, 1, n)?,
        Place::Boxes => detail.boxes = copies(alloc, air(0, 1), n)?,
        Place::Solid => detail.boxes = copies(alloc, solid(n, 2, 0, 10_000), 1)?,
        Place::Air => detail.boxes = copies(alloc, air(n, 1), 1)?,
        Place::AirResistance => detail.boxes = copies(alloc, air(0, n), 1)?,
        Place::UpperX => detail.boxes = copies(alloc, solid(0, n, 0, 10_000), 1)?,
        Place::LowerZ => detail.boxes = copies(alloc, solid(0, 2, n, 10_000), 1)?,
        Place::UpperZ => detail.boxes = copies(alloc, solid(0, 2, 0, n), 1)?,
        _ => {
            if let Some(part) = detail.parts.items.first_mut() {
                change_part(alloc, part, place, n)?;
            }
            if let Some(psi) = detail.psis.items.first_mut() {
                change_psi(alloc, psi, place, n)?;
            }
            if let Some(chi) = detail.chis.items.first_mut() {
                change_chi(alloc, chi, place, n)?;
            }
        }
    }
    Ok(())
}

// A dimension, a place, and a number that is just within limits there and one that is just outside.
const LIMITS: [(u8, Place, u32, u32); 45] = [
    (2, Place::Dimension, 2, 3),
    (3, Place::Dimension, 3, 2),
    (3, Place::Dimension, 3, 4),
    (2, Place::Environments, 4, 5),
    (2, Place::Materials, 252, 253),
    (2, Place::Conductivity, 1, 0),
    (2, Place::Conductivity, 5_000_000, 5_000_001),
    (2, Place::Boxes, 512, 513),
    (2, Place::Solid, 0, 1),
    (2, Place::Air, 1, 2),
    (2, Place::AirResistance, 1, 0),
    (2, Place::AirResistance, 100_000, 100_001),
    (2, Place::UpperX, 2, 1),
    (2, Place::UpperX, 500_000, 500_001),
    (2, Place::LowerZ, 0, 1),
    (2, Place::UpperZ, 10_000, 9_999),
    (3, Place::LowerZ, 9_999, 10_000),
    (3, Place::UpperZ, 500_000, 500_001),
    (2, Place::Rsi, 1, 0),
    (2, Place::Rse, 100_000, 100_001),
    (2, Place::Sections, 1, 0),
    (2, Place::Sections, 4, 5),
    (2, Place::Section, 1, 0),
    (2, Place::Section, 1_000_000, 1_000_001),
    (2, Place::Layers, 1, 0),
    (2, Place::Layers, 16, 17),
    (2, Place::Thickness, 1, 0),
    (2, Place::Thickness, 500_000, 500_001),
    (2, Place::LayerMaterials, 2, 1),
    (2, Place::LayerMaterials, 2, 3),
    (2, Place::LayerMaterial, 0, 1),
    (2, Place::First, 0, 1),
    (3, Place::First, 0, 2),
    (3, Place::Second, 1, 0),
    (2, Place::Second, 1, 2),
    (2, Place::Terms, 16, 17),
    (3, Place::Terms, 16, 17),
    (2, Place::TermPart, 0, 1),
    (3, Place::TermPart, 0, 1),
    (2, Place::TermAmount, 500_000, 500_001),
    (3, Place::TermAmount, 100_000_000, 100_000_001),
    (3, Place::Lines, 16, 17),
    (3, Place::LowerPsi, 1_000_000_000, 1_000_000_001),
    (3, Place::UpperPsi, 5, 6),
    (3, Place::LineLength, 500_000, 500_001),
];

#[test]
fn limits(rt: HostRuntime) -> Result<(), Fail> {
    for (dimension, place, within, outside) in LIMITS {
        let mut detail = detail_of(rt.alloc(), dimension)?;
        assert!(rt; detail.in_limits());
        change(rt.alloc(), &mut detail, place, within)?;
        assert!(rt; detail.in_limits(), "{place:?} {within}");
        change(rt.alloc(), &mut detail, place, outside)?;
        assert!(rt; !detail.in_limits(), "{place:?} {outside}");
    }
    Ok(())
}

#[test]
fn names(rt: HostRuntime) -> Result<(), Fail> {
    for (text, is_one) in [
        ("a", true),
        ("Zz09 _-.", true),
        ("aaaaaaaaaabbbbbbbbbbccccccccccdd", true),
        ("aaaaaaaaaabbbbbbbbbbccccccccccddd", false),
        ("", false),
        ("a,b", false),
        ("ä", false),
    ] {
        assert_eq!(rt; is_name(text.as_bytes()), is_one, "{text}");
    }
    let mut detail = detail_of(rt.alloc(), 2)?;
    for (text, is_one) in [(b"x".as_slice(), true), (b"ab", false), (b"", false)] {
        if let Some(first) = detail.environments.items.first_mut() {
            first.name = name_of(rt.alloc(), text)?;
        }
        assert_eq!(rt; detail.in_limits(), is_one);
    }
    Ok(())
}
