ghost use Rattle.std.specs.Prelude.{◌≡◌, ◌≤◌};

use super::*;
use std::alloc::Global;
use std::test::Fail;
use tb_geometry::Body;

// How many cells the level grid of a demo has.
fn cells(alloc: Global, storeys: u8) -> Result<u32, Fail>
    requires some { 1 ≤ storeys }
    requires few { storeys ≤ 16 }
{
    let detail = demo_detail(alloc, storeys).map_err(|_| "no detail")?;
    let body = Body::new(alloc, &detail).map_err(|_| "no body")?;
    let grid = demo_level(alloc, storeys, &body).map_err(|_| "no grid")?;
    Ok(grid.cells())
}

#[test]
fn level_grids_of_demos(rt: HostRuntime) -> Result<(), Fail> {
    assert_eq!(rt; cells(rt.alloc(), 1)?, 240);
    assert_eq!(rt; cells(rt.alloc(), 16)?, 3840);
    Ok(())
}
