// Expected lines were made from the set of cut points by another program.
ghost use Rattle.std.specs.Prelude.{IfOk};
ghost use Rattle.tb_grid.specs.Levels.{IsWithinReach};

use super::*;
use std::alloc::Global;
use std::process::Abort;
use std::test::Fail;

// The level grid of base lines.
fn level(
    rt: &impl Abort,
    alloc: Global,
    base: &[u32],
    grade: u8,
    halve: u8,
) -> Result<Result<Axis, GridFault>, Fail> {
    assert!(rt; base.len() < 2000);
    assert!(rt; halve <= 6);
    let axis = Axis::new(base.to_vec(alloc)?)?;
    let lines = axis.lines();
    assert!(rt; lines[lines.len() - 1] <= 500_000);
    Ok(graded(alloc, &axis, grade, halve))
}

#[test]
fn lines_of_a_level_grid(rt: HostRuntime) -> Result<(), Fail> {
    let alloc = rt.alloc();
    for (last, grade, halve, want) in [
        (10, 0, 0, [3, 10].as_slice()),
        (10, 1, 0, [3, 6, 10].as_slice()),
        (10, 2, 0, [3, 4, 6, 9, 10].as_slice()),
        (10, 2, 1, [3, 4, 5, 6, 7, 9, 10].as_slice()),
        (10, 0, 2, [3, 4, 6, 8, 10].as_slice()),
        (13, 3, 0, [3, 4, 5, 8, 11, 12, 13].as_slice()),
        (4, 12, 6, [3, 4].as_slice()),
    ] {
        let axis = level(&rt, alloc, &[3, last], grade, halve)??;
        assert_eq!(rt; axis.lines(), want);
    }
    Ok(())
}

#[test]
fn a_corner_of_two_walls(rt: HostRuntime) -> Result<(), Fail> {
    let alloc = rt.alloc();
    let corner = [0, 1, 1001, 3001, 13001].as_slice();
    let base = base_grid(&rt, alloc, corner, corner)?;
    for (grade, halve, dimension, want) in [
        (4, 1, 2, (49, 49, 1)),
        (2, 0, 3, (13, 13, 4)),
        (0, 0, 3, (4, 4, 1)),
    ] {
        let grading = Grading {
            grade,
            halve,
            dimension,
        };
        assert!(rt; grading.halve <= 6);
        let counts = level_grid(alloc, &base, grading)?.counts();
        assert_eq!(rt; (counts.x, counts.y, counts.z), want);
    }
    Ok(())
}

#[test]
fn lines_are_counted_beyond_the_most(rt: HostRuntime) -> Result<(), Fail> {
    let alloc = rt.alloc();
    let wall = level(&rt, alloc, &[0, 1, 2001, 2002], 12, 6)??;
    assert_eq!(rt; wall.lines().len(), 637);
    let corner = level(&rt, alloc, &[0, 1, 1001, 3001, 13001], 12, 6)?;
    assert_eq!(rt; corner.err(), Some(GridFault::TooManyLines(2066)));
    let narrow = (0..1024).collect::<Vec<u32>>(alloc)?;
    let same = level(&rt, alloc, narrow.as_slice(), 0, 6)??;
    assert_eq!(rt; same.lines(), narrow.as_slice());
    let even = (0..600).map(|n: u32| n * 2).collect::<Vec<u32>>(alloc)?;
    let halved = level(&rt, alloc, even.as_slice(), 0, 1)?;
    assert_eq!(rt; halved.err(), Some(GridFault::TooManyLines(1199)));
    Ok(())
}

// The base grid with these lines along x and y, one metre high.
fn base_grid(rt: &impl Abort, alloc: Global, x: &[u32], y: &[u32]) -> Result<Grid, Fail>
    ensures { IfOk result IsWithinReach }
{
    assert!(rt; x.len() < 10);
    assert!(rt; y.len() < 10);
    let x = Axis::new(x.to_vec(alloc)?)?;
    let y = Axis::new(y.to_vec(alloc)?)?;
    let z = Axis::new([0, 10_000].to_vec(alloc)?)?;
    assert!(rt; x.lines()[x.lines().len() - 1] <= 500_000);
    assert!(rt; y.lines()[y.lines().len() - 1] <= 500_000);
    assert!(rt; z.lines()[z.lines().len() - 1] <= 500_000);
    Ok(Grid::new(x, y, z)?)
}

#[test]
fn level_grids_that_are_too_large(rt: HostRuntime) -> Result<(), Fail> {
    let alloc = rt.alloc();
    let wall = [0, 1, 2001, 2002].as_slice();
    let corner = [0, 1, 1001, 3001, 13001].as_slice();
    let one = [0, 10_000].as_slice();
    for (x, y, dimension, want) in [
        (wall, one, 3, GridTooLarge::Cells(543_001_536)),
        (wall, one, 2, GridTooLarge::Cells(587_664)),
        (corner, corner, 2, GridTooLarge::Lines(AxisName::X, 2066)),
        (wall, corner, 3, GridTooLarge::Lines(AxisName::Y, 2066)),
    ] {
        let base = base_grid(&rt, alloc, x, y)?;
        let grading = Grading {
            grade: 12,
            halve: 6,
            dimension,
        };
        let fault = level_grid(alloc, &base, grading).err();
        assert_eq!(rt; fault, Some(LevelFault::TooLarge(want)));
    }
    Ok(())
}
