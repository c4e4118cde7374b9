// A cell that isn't solid is drawn `.`, a solid one `#`: along x first, then along y, then along z. The cells of a grid
// hang together, so one is isolated only where all are solid.
ghost use Rattle.std.specs.Prelude.{◌≡◌, ◌<◌, IfOk, vec_len};

use super::*;
use std::process::Abort;
use std::test::Fail;
use tb_grid::Axis;

// The lines 0, 1, 2 and so on.
fn first_lines(alloc: Global, count: u32) -> Result<Vec<u32>, AllocError>
    ensures { IfOk result (λ lines. vec_len lines ≡ count) }
{
    (0..count).collect(alloc)
}

// A grid with so many lines along x, y and z.
fn grid_of(alloc: Global, x: u32, y: u32, z: u32) -> Result<Grid, Fail> {
    let x = Axis::new(first_lines(alloc, x)?)?;
    let y = Axis::new(first_lines(alloc, y)?)?;
    let z = Axis::new(first_lines(alloc, z)?)?;
    Ok(Grid::new(x, y, z)?)
}

fn isolated(
    rt: &impl Abort,
    alloc: Global,
    grid: &Grid,
    solid: &[bool],
) -> Result<Option<CellId>, Fail> {
    assert!(rt; solid.len() == grid.cells() as usize);
    Ok(first_isolated(alloc, grid, solid)?)
}

#[test]
fn drawings(rt: HostRuntime) -> Result<(), Fail> {
    let alloc = rt.alloc();
    for (lines, drawing, want) in [
        ((2, 2, 2), ".", None),
        ((2, 2, 2), "#", Some(CellId(0))),
        ((3, 3, 3), "########", Some(CellId(0))),
        ((3, 3, 3), "#######.", None),
        ((4, 4, 4), ".............#.............", None),
        ((4, 4, 4), "##########################.", None),
        ((5, 4, 2), "####...#####", None),
        ((3, 3, 2), "#..#", None),
    ] {
        let grid = grid_of(alloc, lines.0, lines.1, lines.2)?;
        let solid: Vec<bool> = drawing.bytes().map(|byte| byte == b'#').collect(alloc)?;
        assert_eq!(rt;
            isolated(&rt, alloc, &grid, solid.as_slice())?,
            want,
            "{drawing}"
        );
    }
    Ok(())
}

// How many cells are reached in a cube of 64 · 64 · 64 cells that are all solid but for the last one.
#[test]
fn a_large_block(rt: HostRuntime) -> Result<(), Fail> {
    let alloc = rt.alloc();
    let grid = grid_of(alloc, 65, 65, 65)?;
    let mut solid = vec![in alloc; true; 262_144]?;
    assert_eq!(rt;
        isolated(&rt, alloc, &grid, solid.as_slice())?,
        Some(CellId(0))
    );
    solid[262_143] = false;
    assert!(rt; solid.len() == grid.cells() as usize);
    let reached = reached(alloc, &grid, solid.as_slice())?;
    assert_eq!(rt;
        reached.iter().filter(|is_reached| **is_reached).count(),
        262_143
    );
    Ok(())
}
