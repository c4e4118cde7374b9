// Faults of fluxes on a wall, worked out by hand.
use crate::bodies::{WALL, body};
use crate::grids::axis;
use std::alloc::Global;
use std::test::Fail;
use tb_flux::Flux;
use tb_geometry::Body;
use tb_grid::{CellId, FaceId, Grid};

// Fluxes through the wall: straight, one with heat through two adiabatic faces, and one that loses 1 nW in the first of
// two halves and gains it in the second.
pub(crate) const STRAIGHT: [i64; 16] = [
    0, 0, 0, 0, 2702702702, 2702702702, 0, 0, 0, 0, 0, 0, 0, 0, 0, 0,
];

const LEAKING: [i64; 16] = [
    0, 0, 0, 0, 2702702702, 2702702702, 0, 0, 5, 0, 0, 5, 0, 0, 0, 0,
];

const UNBALANCED: [i64; 21] = [
    0, 0, 0, 0, 0, 2702702702, 2702702703, 2702702702, 0, 0, 0, 0, 0, 0, 0, 0, 0, 0, 0, 0, 0,
];

// The wall's grid with a line in its middle.
pub(crate) fn halved(alloc: Global) -> Result<Grid, Fail> {
    let x = axis(alloc, &[0, 1, 1_001, 2_001, 2_002])?;
    let y = axis(alloc, &[0, 10_000])?;
    let z = axis(alloc, &[0, 10_000])?;
    match Grid::new(x, y, z) {
        Ok(grid) => Ok(grid),
        Err(_) => Err(Fail::from("no grid")),
    }
}

// Whether these are the first faults of a flux on a grid that carries the body.
fn has_faults(
    body: &Body,
    grid: &Grid,
    flux: &Flux,
    outer: Option<FaceId>,
    unbalanced: Option<(CellId, i128)>,
) -> bool {
    if !body.carries(grid) {
        return false;
    }
    if !flux.fits(grid) {
        return false;
    }
    flux.first_outer(body, grid) == outer && flux.first_unbalanced(body, grid) == unbalanced
}

#[test]
fn faults_of_fluxes_on_a_wall(rt: HostRuntime) -> Result<(), Fail> {
    let wall = body(rt.alloc(), WALL)?;
    let straight = Flux::from_values(Vec::from_slice(rt.alloc(), &STRAIGHT)?);
    assert!(rt; has_faults(&wall, wall.base(), &straight, None, None));
    let leaking = Flux::from_values(Vec::from_slice(rt.alloc(), &LEAKING)?);
    assert!(rt; has_faults(&wall, wall.base(), &leaking, Some(FaceId(8)), None));
    Ok(())
}

#[test]
fn each_cell_is_balanced_by_itself(rt: HostRuntime) -> Result<(), Fail> {
    let wall = body(rt.alloc(), WALL)?;
    let grid = halved(rt.alloc())?;
    let flux = Flux::from_values(Vec::from_slice(rt.alloc(), &UNBALANCED)?);
    assert!(rt; has_faults(&wall, &grid, &flux, None, Some((CellId(1), 1))));
    Ok(())
}
