// Adding a multiple of a cycle to a flux.
ghost use Rattle.std.specs.Prelude.{◌≡◌, ◌+◌, ◌*◌, ◌<◌, ◌≤◌, ◌^◌, ℕ, List, ℤ, length, slice_set, unsigned_abs, neg_ℤ, ◌+ℤ◌, ◌-ℤ◌, ◌*ℤ◌};
ghost use Rattle.tb_places.specs.Places.{IsCell, cell_count, face_count};
ghost use Rattle.tb_grid.specs.Views.{along_axes};
ghost use Rattle.tb_model.specs.Mesh.{Mesh};
ghost use Rattle.tb_outlets.specs.Balancing.{IsWithinLimits, flow, side_at};
ghost use Rattle.tb_outlets.specs.Cycles.{out};
ghost use Rattle.tb_outlets.specs.Repair.{IsCycle};
ghost use Rattle.tb_outlets.specs.Searching.{distance_at};
ghost use Rattle.tb_outlets.specs.Sides.{face_of, number_on};
ghost use Rattle.tb_cycles.specs.Entries.{IsEntry, IsStart, entering_flow};
ghost use Rattle.tb_cycles.specs.Ways.{LeadOut};

use crate::cycle::CycleEntry;
use crate::way::next_outward;
use tb_grid::{CellCounts, CellId, FaceId, Place};
use tb_outlets::{Mark, Side};

// The face on a side of the cell at a place.
fn face_on(counts: CellCounts, cell: Place, side: Side) -> FaceId
    requires { IsCell (along_axes counts) cell }
    ensures face { result.0 ≡ number_on (along_axes counts) side cell }
    ensures within { result.0 < face_count (along_axes counts) }
{
    match side {
        Side::Low(axis) => counts.low_face(axis, cell),
        Side::High(axis) => counts.high_face(axis, cell),
    }
}

// A flow through the face on a side of a cell, where so much more leaves the cell there.
fn leaving_more(flow: i64, side: Side, more: i64) -> i64
    requires flow { unsigned_abs flow ≤ 10 ^ 12 }
    requires more { unsigned_abs more ≤ 2 * 10 ^ 12 }
    ensures { result ≡ flow +ℤ out side *ℤ more }
{
    match side {
        Side::Low(_) => flow - more,
        Side::High(_) => flow + more,
    }
}

// Lets so much more leave a cell through the face on a side of it.
fn put(counts: CellCounts, flows: &mut [i64], cell: CellId, side: Side, more: i64)
    requires cell { cell.0 < cell_count (along_axes counts) }
    requires whole { length flows.old ≡ face_count (along_axes counts) }
    requires flow { unsigned_abs (flow flows.old (face_of (along_axes counts) cell.0 side)) ≤ 10 ^ 12 }
    requires more { unsigned_abs more ≤ 2 * 10 ^ 12 }
    ensures { let face = face_of (along_axes counts) cell.0 side in
        flows.new ≡ slice_set flows.old face (flow flows.old face +ℤ out side *ℤ more) }
{
    let face = face_on(counts, counts.cell_place(cell), side);
    let at = face.0 as usize;
    flows[at] = leaving_more(flows[at], side, more);
}

// Lets so much more leave each cell on the way from that where a cycle enters to the root.
fn put_outward(
    counts: CellCounts,
    marks: &[Mark],
    sides: &[Side],
    flows: &mut [i64],
    entry: CycleEntry,
    more: i64,
)
    requires start { IsStart (along_axes counts) marks.now sides.now entry.cell.0 entry.side }
    requires whole { length flows.old ≡ face_count (along_axes counts) }
    requires limits { (d : ℕ) → 0 < distance_at marks.now d
        → unsigned_abs (flow flows.old (face_of (along_axes counts) d (side_at sides.now d))) ≤ 10 ^ 12 }
    requires more { unsigned_abs more ≤ 2 * 10 ^ 12 }
    ensures whole { length flows.new ≡ face_count (along_axes counts) }
    ensures put { (m : Mesh) → along_axes counts ≡ m.cells → LeadOut m marks.now sides.now → (f : ℕ) (z : List ℤ)
        → IsEntry m f entry.cell.0 entry.side → IsCycle m entry.cell.0 entry.side z → (g : ℕ)
        → flow flows.new g +ℤ more *ℤ flow (entering_flow m entry.cell.0 entry.side) g ≡ flow flows.old g +ℤ more *ℤ flow z g }
{
    let mut cell = entry.cell;
    while let Some(next) = next_outward(counts, marks, sides, cell) {
        put(counts, flows, cell, sides[cell.0 as usize], more);
        cell = next;
    }
    put(counts, flows, cell, sides[cell.0 as usize], more);
}

// The same the other way.
fn turned(more: i64) -> i64
    requires { unsigned_abs more ≤ 2 * 10 ^ 12 }
    ensures value { result ≡ neg_ℤ more }
    ensures size { unsigned_abs result ≤ 2 * 10 ^ 12 }
{
    -more
}

/// Adds a multiple of a cycle to a flux, by one walk along the outlets. It takes no memory.
pub fn add_cycle(
    counts: CellCounts,
    marks: &[Mark],
    sides: &[Side],
    flows: &mut [i64],
    entry: CycleEntry,
    multiple: i64,
)
    requires start { IsStart (along_axes counts) marks.now sides.now entry.cell.0 entry.side }
    requires whole { length flows.old ≡ face_count (along_axes counts) }
    requires limits { IsWithinLimits flows.old }
    requires multiple { unsigned_abs multiple ≤ 2 * 10 ^ 12 }
    ensures whole { length flows.new ≡ face_count (along_axes counts) }
    ensures added { (m : Mesh) → along_axes counts ≡ m.cells → LeadOut m marks.now sides.now → (f : ℕ) (z : List ℤ)
        → IsEntry m f entry.cell.0 entry.side → IsCycle m entry.cell.0 entry.side z → (g : ℕ)
        → flow flows.new g ≡ flow flows.old g +ℤ multiple *ℤ flow z g }
{
    put(counts, flows, entry.cell, entry.side, turned(multiple));
    put_outward(counts, marks, sides, flows, entry, multiple);
}
