// The walk along outlets.
ghost use Rattle.std.specs.Prelude.{◌≡◌, ◌+◌, ◌*◌, ◌<◌, ◌≤◌, ◌^◌, ℕ, List, ℤ, length, MatchOption, unsigned_abs, ◌+ℤ◌, ◌*ℤ◌};
ghost use Rattle.tb_places.specs.Places.{IsCell, cell_count};
ghost use Rattle.tb_grid.specs.Views.{along_axes};
ghost use Rattle.tb_model.specs.Mesh.{Mesh};
ghost use Rattle.tb_outlets.specs.Balancing.{side_at};
ghost use Rattle.tb_outlets.specs.Cycles.{IsOutward, out};
ghost use Rattle.tb_outlets.specs.Outlets.{IsSolidAt};
ghost use Rattle.tb_outlets.specs.Searching.{distance_at};
ghost use Rattle.tb_outlets.specs.Sides.{face_of, number_on};
ghost use Rattle.tb_cycles.specs.Ways.{IsLast, IsNext, LeadOut, LeadOutOn, most_pull, way_sum};

use crate::pulls::FacePull;
use tb_grid::{CellCounts, CellId, FacePlace, Place};
use tb_outlets::{Mark, Side};
use tb_walk::PlacedCell;

// The cell beyond the outlet of a cell, but of the root's cell.
pub(crate) fn next_outward(
    counts: CellCounts,
    marks: &[Mark],
    sides: &[Side],
    cell: CellId,
) -> Option<CellId>
    requires cell { cell.0 < cell_count (along_axes counts) }
    requires marks { length marks.now ≡ cell_count (along_axes counts) }
    requires sides { length sides.now ≡ cell_count (along_axes counts) }
    ensures { MatchOption result (IsLast (along_axes counts) marks.now sides.now cell.0)
        (λ next. IsNext (along_axes counts) marks.now sides.now cell.0 next.0) }
{
    if marks[cell.0 as usize].distance <= 1 {
        return None;
    }
    let placed = PlacedCell::new(counts, cell);
    match sides[cell.0 as usize] {
        Side::Low(axis) => placed.before(axis),
        Side::High(axis) => placed.after(axis),
    }
}

// What is told of the face on a side of the cell at a place, where 1 leaves the cell there.
pub(crate) fn pull_out<P: FacePull>(counts: CellCounts, pulls: &P, cell: Place, side: Side) -> i128
    requires fits { P.fits (along_axes counts) pulls.now }
    requires cell { IsCell (along_axes counts) cell }
    ensures value { result ≡ out side *ℤ P.pulls pulls.now (number_on (along_axes counts) side cell) }
    ensures size { unsigned_abs result ≤ most_pull }
{
    match side {
        Side::Low(axis) => -pulls.pull(counts, FacePlace { axis, place: cell }),
        Side::High(axis) => {
            let place = cell.next(axis);
            pulls.pull(counts, FacePlace { axis, place })
        }
    }
}

// A sum and one number more.
fn plus(total: i128, more: i128) -> i128
    requires total { unsigned_abs total ≤ 2 ^ 18 * most_pull }
    requires more { unsigned_abs more ≤ most_pull }
    ensures value { result ≡ total +ℤ more }
    ensures size { unsigned_abs result ≤ unsigned_abs total + most_pull }
{
    total + more
}

// What is told of the outlet of a cell, where 1 leaves the cell there.
fn pull_of_outlet<P: FacePull>(counts: CellCounts, sides: &[Side], pulls: &P, cell: CellId) -> i128
    requires fits { P.fits (along_axes counts) pulls.now }
    requires cell { cell.0 < cell_count (along_axes counts) }
    requires sides { length sides.now ≡ cell_count (along_axes counts) }
    ensures value { let side = side_at sides.now cell.0 in
        result ≡ out side *ℤ P.pulls pulls.now (face_of (along_axes counts) cell.0 side) }
    ensures size { unsigned_abs result ≤ most_pull }
{
    pull_out(
        counts,
        pulls,
        counts.cell_place(cell),
        sides[cell.0 as usize],
    )
}

// The sum over the outlets on the way from a cell to the root, where 1 leaves each cell.
pub(crate) fn pull_outward<P: FacePull>(
    counts: CellCounts,
    marks: &[Mark],
    sides: &[Side],
    pulls: &P,
    start: CellId,
) -> i128
    requires fits { P.fits (along_axes counts) pulls.now }
    requires leads { LeadOutOn (along_axes counts) marks.now sides.now }
    requires start { 0 < distance_at marks.now start.0 }
    ensures value { (m : Mesh) → along_axes counts ≡ m.cells → LeadOut m marks.now sides.now → (es : List ℕ)
        → IsOutward (face_of m.cells) (IsSolidAt m) (side_at sides.now) start.0 es
        → result ≡ way_sum (face_of m.cells) (side_at sides.now) (P.pulls pulls.now) start.0 es }
    ensures size { unsigned_abs result ≤ 2 ^ 18 * most_pull }
{
    let mut cell = start;
    let mut total = 0;
    while let Some(next) = next_outward(counts, marks, sides, cell) {
        total = plus(total, pull_of_outlet(counts, sides, pulls, cell));
        cell = next;
    }
    plus(total, pull_of_outlet(counts, sides, pulls, cell))
}
