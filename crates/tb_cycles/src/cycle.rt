// The cycles of surface faces.
ghost use Rattle.std.specs.Prelude.{◌≡◌, ◌↔◌, IsTrue, ◌+◌, ◌*◌, ◌<◌, ◌≤◌, ◌^◌, ℕ, List, ℤ, length, MatchOption, unsigned_abs, ◌-ℤ◌, ◌*ℤ◌};
ghost use Rattle.tb_places.specs.Places.{IsCell, cell_count, face_count};
ghost use Rattle.tb_grid.specs.Views.{along_axes};
ghost use Rattle.tb_model.specs.Mesh.{Mesh};
ghost use Rattle.tb_walk.specs.Isolated.{MarkSolids};
ghost use Rattle.tb_outlets.specs.Balancing.{side_at};
ghost use Rattle.tb_outlets.specs.Cycles.{out};
ghost use Rattle.tb_outlets.specs.Outlets.{AreOutlets};
ghost use Rattle.tb_outlets.specs.Repair.{IsCycle};
ghost use Rattle.tb_outlets.specs.Searching.{distance_at};
ghost use Rattle.tb_outlets.specs.Sides.{face_of};
ghost use Rattle.tb_cycles.specs.Entries.{HasCycle, IsEntry};
ghost use Rattle.tb_cycles.specs.Ways.{LeadOut, LeadOutOn, most_pull, sum_over};

use crate::pulls::FacePull;
use crate::way::{pull_out, pull_outward};
use tb_grid::{CellCounts, CellId, FaceId};
use tb_outlets::{Mark, Side, surface_cell};

/// Where a cycle enters the body: the solid cell at its face, and on which side of the cell the face is.
#[derive(Clone, Copy, Debug)]
pub struct CycleEntry {
    pub cell: CellId,
    pub side: Side,
}

/// Where the cycle of a face enters, if the face has one: if it is a surface face and not a root. The flags tell which
/// cells are solid, and the sides where their outlets are.
pub fn cycle_entry(
    counts: CellCounts,
    solid: &[bool],
    sides: &[Side],
    face: FaceId,
) -> Option<CycleEntry>
    requires face { face.0 < face_count (along_axes counts) }
    requires solid { length solid.now ≡ cell_count (along_axes counts) }
    requires sides { length sides.now ≡ cell_count (along_axes counts) }
    ensures { (m : Mesh) → along_axes counts ≡ m.cells → MarkSolids m.cells m solid.now → AreOutlets m (side_at sides.now)
        → MatchOption result (¬ HasCycle m face.0) (λ entry. IsEntry m face.0 entry.cell.0 entry.side) }
{
    let Some((cell, side)) = surface_cell(counts, solid, face) else {
        return None;
    };
    if is_outlet(sides, cell, side) {
        return None;
    }
    Some(CycleEntry { cell, side })
}

// Whether the outlet of a cell is on a side of it.
fn is_outlet(sides: &[Side], cell: CellId, side: Side) -> bool
    requires { cell.0 < length sides.now }
    ensures { IsTrue result ↔ (side_at sides.now cell.0 ≡ side) }
{
    sides[cell.0 as usize] == side
}

// A sum less one number.
fn minus(total: i128, less: i128) -> i128
    requires total { unsigned_abs total ≤ 2 ^ 18 * most_pull }
    requires less { unsigned_abs less ≤ most_pull }
    ensures value { result ≡ total -ℤ less }
    ensures size { unsigned_abs result ≤ 2 ^ 18 * most_pull + most_pull }
{
    total - less
}

// What is told of the face where a cycle enters, where 1 leaves the cell there.
fn pull_of_entry<P: FacePull>(counts: CellCounts, pulls: &P, entry: CycleEntry) -> i128
    requires fits { P.fits (along_axes counts) pulls.now }
    requires entry { entry.cell.0 < cell_count (along_axes counts) }
    ensures value { result ≡ out entry.side *ℤ P.pulls pulls.now (face_of (along_axes counts) entry.cell.0 entry.side) }
    ensures size { unsigned_abs result ≤ most_pull }
{
    pull_out(counts, pulls, counts.cell_place(entry.cell), entry.side)
}

/// The sum over all faces of what is told of a face times the flow of a cycle through it: the slope of an energy along
/// the cycle, where each face's slope is told. It walks along the outlets once.
pub fn cycle_pull<P: FacePull>(
    counts: CellCounts,
    marks: &[Mark],
    sides: &[Side],
    pulls: &P,
    entry: CycleEntry,
) -> i128
    requires fits { P.fits (along_axes counts) pulls.now }
    requires leads { LeadOutOn (along_axes counts) marks.now sides.now }
    requires entry { 0 < distance_at marks.now entry.cell.0 }
    ensures value { (m : Mesh) → along_axes counts ≡ m.cells → LeadOut m marks.now sides.now → (f : ℕ) (flows : List ℤ)
        → IsEntry m f entry.cell.0 entry.side → IsCycle m entry.cell.0 entry.side flows
        → result ≡ sum_over m.cells flows (P.pulls pulls.now) }
    ensures size { unsigned_abs result ≤ 2 ^ 18 * most_pull + most_pull }
{
    minus(
        pull_outward(counts, marks, sides, pulls, entry.cell),
        pull_of_entry(counts, pulls, entry),
    )
}
