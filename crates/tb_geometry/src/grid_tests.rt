// A wall on its base grid and on a finer one. The kinds were worked out by hand: a row of faces along x goes from
// the inner air through the wall to the outer air.
use super::*;
use crate::tests::{INSIDE, OUTSIDE, SOLID, detail, slab};
use std::alloc::Global;
use std::process::Abort;
use std::test::Fail;
use tb_grid::{Axis, AxisName, CellId, FaceId, Grid};

const WARM: Occupant = Occupant::Air {
    environment: 0,
    rs: 1300,
};

const COLD: Occupant = Occupant::Air {
    environment: 1,
    rs: 400,
};

const WALL: Occupant = Occupant::Solid { lambda: 10_000 };

const WARM_SIDE: FaceKind = FaceKind::Surface {
    environment: 0,
    rs: 1300,
    low_is_air: true,
};

const COLD_SIDE: FaceKind = FaceKind::Surface {
    environment: 1,
    rs: 400,
    low_is_air: false,
};

const IDLE: FaceKind = FaceKind::Idle;

const SHUT: FaceKind = FaceKind::Shut;

const INNER: FaceKind = FaceKind::Inner;

fn wall(rt: &impl Abort, alloc: Global) -> Result<Body, Fail> {
    let boxes = [
        slab(SOLID, 1, 2001),
        slab(INSIDE, 0, 1),
        slab(OUTSIDE, 2001, 2002),
    ];
    let detail = detail(alloc, 2, &boxes)?;
    assert!(rt; detail.in_limits());
    Ok(Body::new(alloc, &detail)?)
}

fn grid(rt: &impl Abort, alloc: Global, x: &[u32], y: &[u32]) -> Result<Grid, Fail> {
    assert!(rt; x.len() < 6 && y.len() < 6);
    let x = Axis::new(x.to_vec(alloc)?)?;
    let y = Axis::new(y.to_vec(alloc)?)?;
    let z = Axis::new([0, 10_000].to_vec(alloc)?)?;
    Ok(Grid::new(x, y, z)?)
}

fn expect(rt: &impl Abort, body: &Body, grid: &Grid, occupants: &[Occupant], kinds: &[FaceKind]) {
    assert!(rt; body.carries(grid));
    assert_eq!(rt; occupants.len(), grid.cells() as usize);
    for n in 0..grid.cells() {
        assert_eq!(rt;
            body.occupant(grid, CellId(n)),
            occupants[n as usize],
            "{n}"
        );
    }
    assert_eq!(rt; kinds.len(), grid.faces() as usize);
    for n in 0..grid.faces() {
        assert_eq!(rt; body.kind(grid, FaceId(n)), kinds[n as usize], "{n}");
    }
}

#[test]
fn base_cells(rt: HostRuntime) -> Result<(), Fail> {
    let body = wall(&rt, rt.alloc())?;
    let kinds = [
        // across z, below
        IDLE, SHUT, IDLE, // across x
        IDLE, WARM_SIDE, COLD_SIDE, IDLE, // across y
        IDLE, SHUT, IDLE, //
        IDLE, SHUT, IDLE, // across z, above
        IDLE, SHUT, IDLE,
    ];
    expect(&rt, &body, body.base(), &[WARM, WALL, COLD], &kinds);
    Ok(())
}

#[test]
fn finer_cells(rt: HostRuntime) -> Result<(), Fail> {
    let alloc = rt.alloc();
    let body = wall(&rt, alloc)?;
    let finer = grid(&rt, alloc, &[0, 1, 1001, 2001, 2002], &[0, 2500, 10_000])?;
    let occupants = [WARM, WALL, WALL, COLD, WARM, WALL, WALL, COLD];
    let kinds = [
        // across z, below
        IDLE, SHUT, SHUT, IDLE, //
        IDLE, SHUT, SHUT, IDLE, // across x
        IDLE, WARM_SIDE, INNER, COLD_SIDE, IDLE, //
        IDLE, WARM_SIDE, INNER, COLD_SIDE, IDLE, // across y
        IDLE, SHUT, SHUT, IDLE, //
        IDLE, INNER, INNER, IDLE, //
        IDLE, SHUT, SHUT, IDLE, // across z, above
        IDLE, SHUT, SHUT, IDLE, //
        IDLE, SHUT, SHUT, IDLE,
    ];
    expect(&rt, &body, &finer, &occupants, &kinds);
    Ok(())
}

#[test]
fn grids_that_carry_the_wall(rt: HostRuntime) -> Result<(), Fail> {
    let alloc = rt.alloc();
    let body = wall(&rt, alloc)?;
    for (x, missing, carries) in [
        ([0, 1, 2001, 2002].as_slice(), None, true),
        ([0, 1, 2, 2001, 2002].as_slice(), None, true),
        ([0, 1, 2001, 2002, 2003].as_slice(), None, false),
        ([0, 2000, 2002].as_slice(), Some(1), false),
        ([0, 1, 2001].as_slice(), Some(2002), false),
    ] {
        let grid = grid(&rt, alloc, x, &[0, 10_000])?;
        assert_eq!(rt;
            body.first_missing(grid.axis(AxisName::X), AxisName::X),
            missing,
            "{x:?}"
        );
        assert_eq!(rt; body.carries(&grid), carries, "{x:?}");
    }
    Ok(())
}
