// A grid of two cells side by side, with values worked out by hand.
use super::*;
use std::alloc::Global;
use std::test::Fail;
use tb_grid::{Axis, CellId, Grid, NodeId, X, Y};

// From node to node along x, then along y, then along z.
const VALUES: [i64; 12] = [0, 100, 200, 10, 110, 250, 1, 101, 301, 11, 111, 411];

fn two_cells(alloc: Global) -> Result<Grid, Fail> {
    let x = Axis::new([0, 1, 3].to_vec(alloc)?)?;
    let y = Axis::new([0, 2].to_vec(alloc)?)?;
    let z = Axis::new([0, 5].to_vec(alloc)?)?;
    Ok(Grid::new(x, y, z)?)
}

#[test]
fn a_field_begins_at_zero(rt: HostRuntime) -> Result<(), Fail> {
    let alloc = rt.alloc();
    let grid = two_cells(alloc)?;
    let mut field = Field::zero(alloc, &grid)?;
    assert_eq!(rt; field.values(), [0; 12].as_slice());
    assert!(rt; field.fits(&grid));
    assert_eq!(rt; field.values().len(), 12);
    field.set(NodeId(4), 7);
    assert_eq!(rt;
        field.values(),
        [0, 0, 0, 0, 7, 0, 0, 0, 0, 0, 0, 0].as_slice()
    );
    assert_eq!(rt; field.values().len(), 12);
    assert_eq!(rt; field.get(NodeId(4)), 7);
    Ok(())
}

#[test]
fn differences_stand_in_the_order_of_corners(rt: HostRuntime) -> Result<(), Fail> {
    let alloc = rt.alloc();
    let grid = two_cells(alloc)?;
    let field = Field::from_values(VALUES.to_vec(alloc)?);
    assert!(rt; field.fits(&grid));
    assert!(rt; field.is_within_limits());
    assert_eq!(rt; grid.cells(), 2);
    assert_eq!(rt;
        field.differences::<X>(&grid, CellId(1)),
        [100, 140, 200, 300]
    );
    assert_eq!(rt; field.differences::<Y>(&grid, CellId(1)), [10, 50, 10, 110]);
    Ok(())
}

#[test]
fn fields_have_limits(rt: HostRuntime) -> Result<(), Fail> {
    let alloc = rt.alloc();
    let grid = two_cells(alloc)?;
    let most = Field::from_values([0, MOST_NODE_VALUE].to_vec(alloc)?);
    let above = Field::from_values([0, 100_000_001].to_vec(alloc)?);
    let below = Field::from_values([-1].to_vec(alloc)?);
    assert!(rt; most.is_within_limits() && !above.is_within_limits() && !below.is_within_limits());
    assert!(rt; !most.fits(&grid));
    Ok(())
}
