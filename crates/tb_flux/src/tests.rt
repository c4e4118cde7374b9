// A grid of one cell. What a flux says of a body is tested where bodies are read from texts.
use super::*;
use std::test::Fail;
use tb_grid::{Axis, FaceId, Grid};

#[test]
fn a_flux_begins_at_zero(rt: HostRuntime) -> Result<(), Fail> {
    let alloc = rt.alloc();
    let x = Axis::new([0, 1].to_vec(alloc)?)?;
    let y = Axis::new([0, 2].to_vec(alloc)?)?;
    let z = Axis::new([0, 5].to_vec(alloc)?)?;
    let grid = Grid::new(x, y, z)?;
    let mut flux = Flux::zero(alloc, &grid)?;
    assert!(rt; flux.fits(&grid));
    assert_eq!(rt; flux.values(), [0; 6].as_slice());
    assert_eq!(rt; flux.values().len(), 6);
    flux.set(FaceId(4), -7);
    assert_eq!(rt; flux.values(), [0, 0, 0, 0, -7, 0].as_slice());
    Ok(())
}
