// Whether each solid part of a body has a surface.
ghost use Rattle.std.specs.Prelude.{◌≡◌, ◌<◌, All, IfOk, length};
ghost use Rattle.tb_geometry.specs.Base.{base_axes};
ghost use Rattle.tb_geometry.specs.Bodies.{HasHolders, solid_flags};
ghost use Rattle.tb_geometry.specs.Cubes.{AreApart};
ghost use Rattle.tb_geometry.specs.Outcomes.{Links};

use crate::base::low_corner;
use crate::boxes::is_solid;
use crate::fault::{BodyFault, BodyRefusal};
use std::alloc::{AllocError, Global};
use tb_detail::{Detail, SpaceBox};
use tb_grid::Grid;
use tb_walk::first_isolated;

// Which base cells are solid, in the order of cell numbers.
fn solid_cells(alloc: Global, boxes: &[SpaceBox], holders: &[u16]) -> Result<Vec<bool>, AllocError>
    requires { All (λ n. n < length boxes.now) holders.now }
    ensures { IfOk result (λ solid. solid.items ≡ solid_flags boxes.now holders.now) }
{
    holders
        .iter()
        .map(|holder| is_solid(&boxes[usize::from(*holder)]))
        .collect(alloc)
}

/// Whether from each solid base cell a way through solid cells leads to a surface.
///
/// # Errors
/// `Isolated` at the first cell from which none does.
pub fn linked(
    alloc: Global,
    detail: &Detail,
    base: &Grid,
    holders: &[u16],
) -> Result<(), BodyRefusal>
    requires base { base.now ≡ base_axes detail.now.boxes }
    requires apart { AreApart detail.now.boxes }
    requires holders { HasHolders detail.now.boxes holders.now }
    ensures { Links detail.now result }
{
    let solid = solid_cells(alloc, detail.boxes.items(), holders)?;
    let found = first_isolated(alloc, base, solid.as_slice())?;
    match found {
        Some(cell) => {
            let (x, y, z) = low_corner(base, cell);
            Err(BodyRefusal::Fault(BodyFault::Isolated { x, y, z }))
        }
        None => Ok(()),
    }
}
