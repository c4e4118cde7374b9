// The two ends of fields and fluxes on bodies. The ends were computed by a separate program with exact fractions, cell by
// cell and face by face, from the formulas of the terms.
ghost use Rattle.std.specs.Prelude.{◌≤◌, length};

use crate::bodies::{CORNER, WALL, body};
use crate::grids::axis;
use crate::walls::{STRAIGHT, halved};
use std::alloc::Global;
use std::test::Fail;
use tb_duality::gap;
use tb_field::Field;
use tb_flux::Flux;
use tb_geometry::{Body, Case};
use tb_grid::{FaceId, Grid};
use tb_sums::{PastLimit, lower_end, upper_end};

// The wall with its surface resistances exchanged.
const TURNED: &[u8] =
    b"detail,1,3\nenv,inside\nenv,outside\nmat,wall,1\nsolid,wall,0.1,200.1,0,1000,0,1000\n\
air,inside,0.04,0,0.1,0,1000,0,1000\nair,outside,0.13,200.1,200.2,0,1000,0,1000\n";

// The field that falls in straight lines, on the wall and on the wall with a line in its middle.
const FALLING: [i64; 16] = [
    0, 64864865, 10810811, 0, 0, 64864865, 10810811, 0, 0, 64864865, 10810811, 0, 0, 64864865,
    10810811, 0,
];

const FALLING_IN_TWO: [i64; 20] = [
    0, 64864865, 37837838, 10810811, 0, 0, 64864865, 37837838, 10810811, 0, 0, 64864865, 37837838,
    10810811, 0, 0, 64864865, 37837838, 10810811, 0,
];

// Node n has the value 7919·(n+3)·(n+5).
const UNEVEN: [i64; 32] = [
    118785, 190056, 277165, 380112, 498897, 633520, 783981, 950280, 1132417, 1330392, 1544205,
    1773856, 2019345, 2280672, 2557837, 2850840, 3159681, 3484360, 3824877, 4181232, 4553425,
    4941456, 5345325, 5765032, 6200577, 6651960, 7119181, 7602240, 8101137, 8615872, 9146445,
    9692856,
];

// Eight cells of two materials, three environments, and two materials one above the other.
const CUBE: &[u8] =
    b"detail,1,3\nenv,inside\nenv,outside\nenv,cellar\nmat,stone,2\nmat,wool,0.04\nsolid,stone,0,3,0,7,0,4\n\
solid,wool,3,8,0,2,0,4\nair,inside,0.13,3,8,2,7,0,4\nair,outside,0.04,0,3,0,7,4,9\nsolid,stone,3,8,0,2,4,9\n\
air,cellar,0.17,3,8,2,7,4,9\n";

// Node n of the cube has the value 5077·(n+2)·(n+7).
const CUBE_FIELD: [i64; 27] = [
    71078, 121848, 182772, 253850, 335082, 426468, 528008, 639702, 761550, 893552, 1035708,
    1188018, 1350482, 1523100, 1705872, 1898798, 2101878, 2315112, 2538500, 2772042, 3015738,
    3269588, 3533592, 3807750, 4092062, 4386528, 4691148,
];

// Face f of the cube has the flow 1000003·((7919·(f+3)·(f+5) mod 200003) - 100000).
const CUBE_FLUX: [i64; 36] = [
    18785056355,
    90056270168,
    -22838068514,
    80109240327,
    -1109003327,
    -66489199467,
    83972251916,
    50268150804,
    32402097206,
    30374091122,
    44184132552,
    73832221496,
    -80685242055,
    -19361058083,
    57801173403,
    -49202147606,
    59636178908,
    -15691047073,
    -75180225540,
    81172243516,
    53359160077,
    41384124152,
    45247135741,
    64948194844,
    -99516298548,
    -48139144417,
    19076057228,
    -97874293622,
    1017003051,
    -84257252771,
    46310138930,
    -7288021864,
    -45048135144,
    -66970200910,
    -73054219162,
    -63300189900,
];

// A strip of foam 50 m long, of 26 and of 27 layers of 0.1 mm by 0.1 mm.
const STRIP: &[u8] =
    b"detail,1,3\nenv,inside\nenv,outside\nmat,foam,0.0001\nsolid,foam,0.1,49999.9,0,2.6,0,0.1\n\
air,inside,0.13,0,0.1,0,2.6,0,0.1\nair,outside,0.04,49999.9,50000,0,2.6,0,0.1\n";

const LONGER_STRIP: &[u8] =
    b"detail,1,3\nenv,inside\nenv,outside\nmat,foam,0.0001\nsolid,foam,0.1,49999.9,0,2.7,0,0.1\n\
air,inside,0.13,0,0.1,0,2.7,0,0.1\nair,outside,0.04,49999.9,50000,0,2.7,0,0.1\n";

const LAYERS: [u32; 28] = [
    0, 1, 2, 3, 4, 5, 6, 7, 8, 9, 10, 11, 12, 13, 14, 15, 16, 17, 18, 19, 20, 21, 22, 23, 24, 25,
    26, 27,
];

// The straight flux on the wall with a line in its middle, and the strongest straight one.
const STRAIGHT_IN_TWO: [i64; 21] = [
    0, 0, 0, 0, 0, 2702702702, 2702702702, 2702702702, 0, 0, 0, 0, 0, 0, 0, 0, 0, 0, 0, 0, 0,
];

const STRONGEST: [i64; 16] = [
    0,
    0,
    0,
    0,
    1000000000000,
    1000000000000,
    0,
    0,
    0,
    0,
    0,
    0,
    0,
    0,
    0,
    0,
];

fn field(alloc: Global, values: &[i64]) -> Result<Field, Fail> {
    Ok(Field::from_values(Vec::from_slice(alloc, values)?))
}

fn flux(alloc: Global, values: &[i64]) -> Result<Flux, Fail> {
    Ok(Flux::from_values(Vec::from_slice(alloc, values)?))
}

// The upper end of a field, if it is one on a grid that carries the body.
fn upper(body: &Body, grid: &Grid, field: &Field, mask: u8) -> Option<i128> {
    if !body.carries(grid) {
        return None;
    }
    if !field.fits(grid) {
        return None;
    }
    if !field.is_within_limits() {
        return None;
    }
    Some(upper_end(body, grid, field, Case { mask }))
}

// The lower end of a flux, if it is one on a grid that carries the body.
fn lower(body: &Body, grid: &Grid, flux: &Flux, mask: u8) -> Option<Result<i128, PastLimit>> {
    if !body.carries(grid) {
        return None;
    }
    if !flux.fits(grid) {
        return None;
    }
    if !flux.is_within_limits() {
        return None;
    }
    Some(lower_end(body, grid, flux, Case { mask }))
}

// What lies between the ends of a field and of a flux, each on a grid of its own, if they are such.
fn between(
    body: &Body,
    field_grid: &Grid,
    field: &Field,
    flux_grid: &Grid,
    flux: &Flux,
) -> Option<Result<i128, PastLimit>> {
    if !body.carries(field_grid) || !body.carries(flux_grid) {
        return None;
    }
    if !field.fits(field_grid) || !field.is_within_limits() {
        return None;
    }
    if !flux.fits(flux_grid) || !flux.is_within_limits() {
        return None;
    }
    Some(gap(body, field_grid, field, flux_grid, flux, Case { mask: 1 }))
}

// The grid of a strip with these lines across y.
fn strip_grid(alloc: Global, layers: &[u32]) -> Result<Grid, Fail>
    requires { length layers.now ≤ 100 }
{
    let x = axis(alloc, &[0, 1, 499_999, 500_000])?;
    let y = axis(alloc, layers)?;
    let z = axis(alloc, &[0, 1])?;
    match Grid::new(x, y, z) {
        Ok(grid) => Ok(grid),
        Err(_) => Err(Fail::from("no grid")),
    }
}

fn strengthen(flux: &mut Flux, face: u32) {
    if (face as usize) < flux.values().len() {
        flux.set(FaceId(face), 1_000_000_000_000);
    }
}

// The strongest straight flux through each layer of a strip.
fn strip_flux(alloc: Global, grid: &Grid, layers: u32) -> Result<Flux, Fail>
    requires { layers ≤ 27 }
{
    let mut flux = Flux::zero(alloc, grid)?;
    for j in 0..layers {
        strengthen(&mut flux, 3 * layers + 4 * j + 1);
        strengthen(&mut flux, 3 * layers + 4 * j + 2);
    }
    Ok(flux)
}

#[test]
fn upper_ends_of_a_wall(rt: HostRuntime) -> Result<(), Fail> {
    let wall = body(rt.alloc(), WALL)?;
    let cold = field(rt.alloc(), &[0; 16])?;
    assert!(rt; upper(&wall, wall.base(), &cold, 1) == Some(7692307692307693));
    let falling = field(rt.alloc(), &FALLING)?;
    assert!(rt; upper(&wall, wall.base(), &falling, 1) == Some(2702702702702704));
    Ok(())
}

#[test]
fn upper_end_of_a_halved_wall(rt: HostRuntime) -> Result<(), Fail> {
    let wall = body(rt.alloc(), WALL)?;
    let grid = halved(rt.alloc())?;
    let falling = field(rt.alloc(), &FALLING_IN_TWO)?;
    assert!(rt; upper(&wall, &grid, &falling, 1) == Some(2702702702702704));
    Ok(())
}

#[test]
fn upper_end_of_a_turned_wall(rt: HostRuntime) -> Result<(), Fail> {
    let wall = body(rt.alloc(), TURNED)?;
    let falling = field(rt.alloc(), &FALLING)?;
    assert!(rt; upper(&wall, wall.base(), &falling, 1) == Some(4637017451340115));
    Ok(())
}

#[test]
fn upper_ends_of_a_corner(rt: HostRuntime) -> Result<(), Fail> {
    let corner = body(rt.alloc(), CORNER)?;
    let uneven = field(rt.alloc(), &UNEVEN)?;
    assert!(rt; upper(&corner, corner.base(), &uneven, 0) == Some(2397959356609));
    assert!(rt; upper(&corner, corner.base(), &uneven, 1) == Some(113478206587379));
    assert!(rt; upper(&corner, corner.base(), &uneven, 2) == Some(432723567356610));
    assert!(rt; upper(&corner, corner.base(), &uneven, 3) == Some(543803814587380));
    Ok(())
}

#[test]
fn lower_ends_of_a_wall(rt: HostRuntime) -> Result<(), Fail> {
    let wall = body(rt.alloc(), WALL)?;
    let still = flux(rt.alloc(), &[0; 16])?;
    assert!(rt; lower(&wall, wall.base(), &still, 1) == Some(Ok(0)));
    let straight = flux(rt.alloc(), &STRAIGHT)?;
    assert!(rt; lower(&wall, wall.base(), &straight, 1) == Some(Ok(2702702702702700)));
    assert!(rt; lower(&wall, wall.base(), &straight, 2) == Some(Ok(-8108108105297300)));
    assert!(rt; lower(&wall, wall.base(), &straight, 3) == Some(Ok(-2702702701297300)));
    Ok(())
}

#[test]
fn lower_ends_of_other_walls(rt: HostRuntime) -> Result<(), Fail> {
    let turned = body(rt.alloc(), TURNED)?;
    let straight = flux(rt.alloc(), &STRAIGHT)?;
    assert!(rt; lower(&turned, turned.base(), &straight, 1) == Some(Ok(2702702702702700)));
    let strongest = flux(rt.alloc(), &STRONGEST)?;
    assert!(rt; lower(&turned, turned.base(), &strongest, 1) == Some(Ok(-368000000000000000000)));
    Ok(())
}

#[test]
fn lower_end_of_a_halved_wall(rt: HostRuntime) -> Result<(), Fail> {
    let wall = body(rt.alloc(), WALL)?;
    let grid = halved(rt.alloc())?;
    let straight = flux(rt.alloc(), &STRAIGHT_IN_TWO)?;
    assert!(rt; lower(&wall, &grid, &straight, 1) == Some(Ok(2702702702702699)));
    Ok(())
}

#[test]
fn lower_end_of_a_strip(rt: HostRuntime) -> Result<(), Fail> {
    let strip = body(rt.alloc(), STRIP)?;
    let grid = strip_grid(rt.alloc(), &LAYERS[..27])?;
    let flux = strip_flux(rt.alloc(), &grid, 26)?;
    assert!(rt; lower(&strip, &grid, &flux, 1) == Some(Ok(-1299995241999999948000000000000000000)));
    Ok(())
}

#[test]
fn losses_have_a_limit(rt: HostRuntime) -> Result<(), Fail> {
    let strip = body(rt.alloc(), LONGER_STRIP)?;
    let grid = strip_grid(rt.alloc(), &LAYERS)?;
    let flux = strip_flux(rt.alloc(), &grid, 27)?;
    assert!(rt; lower(&strip, &grid, &flux, 1) == Some(Err(PastLimit)));
    Ok(())
}

#[test]
fn upper_ends_of_a_cube(rt: HostRuntime) -> Result<(), Fail> {
    let cube = body(rt.alloc(), CUBE)?;
    let uneven = field(rt.alloc(), &CUBE_FIELD)?;
    assert!(rt; upper(&cube, cube.base(), &uneven, 0) == Some(4769801137));
    assert!(rt; upper(&cube, cube.base(), &uneven, 1) == Some(305854198060));
    assert!(rt; upper(&cube, cube.base(), &uneven, 2) == Some(752197883387));
    assert!(rt; upper(&cube, cube.base(), &uneven, 4) == Some(144056334960));
    assert!(rt; upper(&cube, cube.base(), &uneven, 6) == Some(891484417210));
    Ok(())
}

#[test]
fn lower_ends_of_a_cube(rt: HostRuntime) -> Result<(), Fail> {
    let cube = body(rt.alloc(), CUBE)?;
    let uneven = flux(rt.alloc(), &CUBE_FLUX)?;
    assert!(rt; lower(&cube, cube.base(), &uneven, 0) == Some(Ok(-163748464300269888545777)));
    assert!(rt; lower(&cube, cube.base(), &uneven, 1) == Some(Ok(-163748490382348134545777)));
    assert!(rt; lower(&cube, cube.base(), &uneven, 2) == Some(Ok(-163748350443928320545777)));
    assert!(rt; lower(&cube, cube.base(), &uneven, 4) == Some(Ok(-163748295785764346545777)));
    assert!(rt; lower(&cube, cube.base(), &uneven, 6) == Some(Ok(-163748181929422778545777)));
    Ok(())
}

#[test]
fn gaps_on_two_grids(rt: HostRuntime) -> Result<(), Fail> {
    let wall = body(rt.alloc(), WALL)?;
    let grid = halved(rt.alloc())?;
    let falling = field(rt.alloc(), &FALLING)?;
    let straight = flux(rt.alloc(), &STRAIGHT_IN_TWO)?;
    let base = wall.base();
    assert!(rt; between(&wall, base, &falling, &grid, &straight) == Some(Ok(5)));
    Ok(())
}
