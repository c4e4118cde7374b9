// Expected values were worked out by hand, from the index orders as formulas.
ghost use Rattle.std.specs.Prelude.{◌≡◌, IfOk, vec_len};

use super::*;
use std::alloc::{AllocError, Global};
use std::process::Abort;
use std::test::Fail;

// The lines 0, 1, 2 and so on.
fn first_lines(alloc: Global, count: u32) -> Result<Vec<u32>, AllocError>
    ensures { IfOk result (λ lines. vec_len lines ≡ count) }
{
    (0..count).collect(alloc)
}

#[test]
fn lines_of_an_axis(rt: HostRuntime) -> Result<(), Fail> {
    let alloc = rt.alloc();
    for (lines, want) in [
        ([].as_slice(), Some(LinesFault::TooFew)),
        ([7].as_slice(), Some(LinesFault::TooFew)),
        ([0, 1, 2001].as_slice(), None),
        ([3, 3].as_slice(), Some(LinesFault::NotRising(1))),
        ([0, 1, 5, 4, 3].as_slice(), Some(LinesFault::NotRising(3))),
    ] {
        assert!(rt; lines.len() < 6);
        assert_eq!(rt; Axis::new(lines.to_vec(alloc)?).err(), want, "{lines:?}");
    }
    assert_eq!(rt; Axis::new(first_lines(alloc, 1024)?).err(), None);
    assert_eq!(rt;
        Axis::new(first_lines(alloc, 1025)?).err(),
        Some(LinesFault::TooManyLines(1025))
    );
    Ok(())
}

#[test]
fn lines_through_coordinates(rt: HostRuntime) -> Result<(), Fail> {
    let coordinates = [2001, 0, 1, 2001, 1, 2000].to_vec(rt.alloc())?;
    let lines = lines_through(coordinates);
    assert_eq!(rt; lines.as_slice(), [0, 1, 2000, 2001].as_slice());
    assert!(rt; lines.len() < 5);
    let axis = Axis::new(lines)?;
    for (x, line, interval) in [
        (0, Some(0), Some(0)),
        (1, Some(1), Some(1)),
        (1999, None, Some(1)),
        (2000, Some(2), Some(2)),
        (2001, Some(3), None),
        (2002, None, None),
    ] {
        assert_eq!(rt; axis.line_at(x), line, "{x}");
        assert_eq!(rt; axis.interval_of(x), interval, "{x}");
    }
    Ok(())
}

fn cube(alloc: Global, x: u32, y: u32, z: u32) -> Result<Option<TooManyCells>, Fail> {
    let x = Axis::new(first_lines(alloc, x)?)?;
    let y = Axis::new(first_lines(alloc, y)?)?;
    let z = Axis::new(first_lines(alloc, z)?)?;
    Ok(Grid::new(x, y, z).err())
}

#[test]
fn cells_of_a_grid(rt: HostRuntime) -> Result<(), Fail> {
    let alloc = rt.alloc();
    assert_eq!(rt; cube(alloc, 65, 65, 65)?, None);
    assert_eq!(rt; cube(alloc, 66, 65, 65)?, Some(TooManyCells(266_240)));
    assert_eq!(rt;
        cube(alloc, 637, 925, 925)?,
        Some(TooManyCells(543_001_536))
    );
    Ok(())
}

// Two cells along x, three along y and four along z.
fn small_grid(alloc: Global) -> Result<Grid, Fail> {
    let x = Axis::new([0, 10, 30].to_vec(alloc)?)?;
    let y = Axis::new([0, 5, 6, 8].to_vec(alloc)?)?;
    let z = Axis::new([0, 1, 2, 3, 7].to_vec(alloc)?)?;
    Ok(Grid::new(x, y, z)?)
}

// The width, the area, and the two faces of a cell.
fn across<D: Direction>(rt: &impl Abort, grid: &Grid, cell: CellId) -> (u32, u64, u32, u32) {
    assert!(rt; cell.0 < grid.cells());
    (
        D::width(grid, cell),
        D::area(grid, cell),
        D::low_face(grid, cell).0,
        D::high_face(grid, cell).0,
    )
}

fn ends<D: Direction>(rt: &impl Abort, grid: &Grid, cell: CellId, corner: u8) -> (u32, u32) {
    assert!(rt; cell.0 < grid.cells());
    assert!(rt; corner < 4);
    let (low, high) = D::ends(grid, cell, corner);
    (low.0, high.0)
}

#[test]
fn numbers_of_a_grid(rt: HostRuntime) -> Result<(), Fail> {
    let grid = small_grid(rt.alloc())?;
    assert_eq!(rt; (grid.cells(), grid.nodes(), grid.faces()), (24, 60, 98));
    assert_eq!(rt;
        (
            grid.edges(AxisName::X),
            grid.edges(AxisName::Y),
            grid.edges(AxisName::Z)
        ),
        (40, 45, 48)
    );
    assert_eq!(rt; grid.axis(AxisName::Y).lines(), [0, 5, 6, 8].as_slice());
    assert!(rt; grid.clone()? == grid);
    Ok(())
}

#[test]
fn a_cell_along_each_axis(rt: HostRuntime) -> Result<(), Fail> {
    let grid = small_grid(rt.alloc())?;
    let last = CellId(23);
    assert_eq!(rt; across::<X>(&rt, &grid, last), (20, 8, 82, 83));
    assert_eq!(rt; across::<Y>(&rt, &grid, last), (2, 80, 89, 91));
    assert_eq!(rt; across::<Z>(&rt, &grid, last), (4, 40, 74, 97));
    assert_eq!(rt;
        (
            ends::<X>(&rt, &grid, last, 1),
            ends::<X>(&rt, &grid, last, 2)
        ),
        ((46, 47), (55, 56))
    );
    assert_eq!(rt;
        (
            ends::<Y>(&rt, &grid, last, 1),
            ends::<Y>(&rt, &grid, last, 2)
        ),
        ((44, 47), (55, 58))
    );
    assert_eq!(rt;
        (
            ends::<Z>(&rt, &grid, last, 1),
            ends::<Z>(&rt, &grid, last, 2)
        ),
        ((44, 56), (46, 58))
    );
    Ok(())
}
