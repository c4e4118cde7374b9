//! Walks over the cells of a grid: which cells reach an opening through cells of a set that share faces.
//!
//! The set, here called solid, is told by a flag a cell, in the order of the numbers of cells. A cell of the set has
//! an opening where it shares a face with a cell of the grid that isn't in the set. Where the flags mark the solid
//! cells of a mesh without empty cells, the openings are the surfaces, and a cell that reaches none is isolated:
//! `specs/Isolated.antt` says so of a mesh, and [`laws`] that the two agree.
//!
//! A walk looks at each face of a cell twice at the most. It keeps a flag for each cell, and a list of cells whose
//! neighbours are still to be looked at.
#![tactic(auto)]

pub mod laws;
mod neighbours;
mod spreading;
#[cfg(test)]
mod tests;

ghost use Rattle.std.specs.Prelude.{◌≡◌, ◌<◌, length, IfOk, IfSome, MatchOption};
ghost use Rattle.tb_places.specs.Inverse.{cell_place};
ghost use Rattle.tb_places.specs.Places.{cell_count};
ghost use Rattle.tb_grid.specs.Grid.{counts_of};
ghost use Rattle.tb_walk.specs.Marks.{AllReachOpenings, AreReached, IsFirstWithoutOpening};

pub use neighbours::PlacedCell;
use std::alloc::{AllocError, Global};
use tb_grid::{CellId, Grid};

/// For each cell, in the order of numbers, whether it is a solid cell that reaches an opening.
///
/// # Errors
/// Memory ran out.
pub fn reached(alloc: Global, grid: &Grid, solid: &[bool]) -> Result<Vec<bool>, AllocError>
    requires { length solid.now ≡ cell_count (counts_of grid.now) }
    ensures { IfOk result (λ reached. AreReached (counts_of grid.now) solid.now reached.items) }
{
    let counts = grid.counts();
    let mut flags = vec![in alloc; false; solid.len()]?;
    let mut work = Vec::new(alloc);
    let reached = flags.as_mut_slice();
    spreading::begin(counts, solid, reached, &mut work)?;
    spreading::spread_all(counts, solid, reached, work)?;
    Ok(flags)
}

/// The solid cell of the least number that reaches no opening, if there is one.
///
/// # Errors
/// Memory ran out.
pub fn first_isolated(
    alloc: Global,
    grid: &Grid,
    solid: &[bool],
) -> Result<Option<CellId>, AllocError>
    requires { length solid.now ≡ cell_count (counts_of grid.now) }
    ensures within { IfOk result (λ found. IfSome found (λ cell. cell.0 < cell_count (counts_of grid.now))) }
    ensures first { IfOk result (λ found. MatchOption found (AllReachOpenings (counts_of grid.now) solid.now)
        (λ cell. IsFirstWithoutOpening (counts_of grid.now) solid.now (cell_place (counts_of grid.now) cell.0))) }
{
    let flags = reached(alloc, grid, solid)?;
    let reached = flags.as_slice();
    for number in 0..grid.cells() {
        if solid[number as usize] && !reached[number as usize] {
            return Ok(Some(CellId(number)));
        }
    }
    Ok(None)
}
