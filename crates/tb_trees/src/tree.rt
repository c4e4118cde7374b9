// The outlet tree of a body on a grid.
ghost use Rattle.std.specs.Prelude.{◌≡◌, ◌↔◌, ◌+◌, ◌*◌, ◌<◌, ◌≤◌, ◌^◌, ℕ, List, ℤ, IfOk, IsTrue, MatchOption, length, unsigned_abs, ◌+ℤ◌, ◌*ℤ◌};
ghost use Rattle.tb_detail.specs.Limits.{InLimits};
ghost use Rattle.tb_grid.specs.Grid.{counts_of};
ghost use Rattle.tb_geometry.specs.Faults.{IsAccepted};
ghost use Rattle.tb_geometry.specs.Grids.{CarriesBody};
ghost use Rattle.tb_trees.specs.Bodies.{KeepsTree};

use crate::flags::{passable_faces, solid_cells};
use crate::memory::NoMemory;
use crate::ways::Ways;
use std::alloc::{AllocError, Global};
use std::marker::Model;
use std::snapshot::Snapshot;
use tb_cycles::{CycleEntry, FacePull, add_cycle, cycle_entry, cycle_pull};
use tb_geometry::Body;
use tb_grid::{CellCounts, CellId, FaceId, Grid};
use tb_outlets::{Tree, plant, repair_along};

// A body is within limits and without a fault.
fn judged(body: &Body)
    ensures limits { InLimits body.now }
    ensures accepted { IsAccepted body.now }
{
    body.base();
}

// The tree, of each face whether heat may pass it, and of each cell whether it is solid.
fn grown(
    alloc: Global,
    body: &Body,
    grid: &Grid,
) -> Result<(Tree, Vec<bool>, Vec<bool>), AllocError>
    requires { CarriesBody grid.now body.now }
    ensures { IfOk result (λ made. KeepsTree (record { body = body.now; grid = grid.now }) (counts_of grid.now)
        made.0.marks.items made.0.sides.items made.0.order.items made.1.items made.2.items) }
{
    judged(body);
    let solid = solid_cells(alloc, body, grid)?;
    let tree = plant(alloc, grid.counts(), solid.as_slice())?;
    let passable = passable_faces(alloc, grid.counts(), solid.as_slice())?;
    Ok((tree, passable, solid))
}

/// The outlet tree of a body on a grid: distances and outlets of its solid cells, and the order in which a repair
/// balances them. Contracts see the body and the grid.
#[derive(Drop)]
pub struct OutletTree {
    body: Snapshot<Body>,
    grid: Snapshot<Grid>,
    counts: CellCounts,
    tree: Tree,
    passable: Vec<bool>,
    solid: Vec<bool>,
}

impl Model for OutletTree {
    ghost use Rattle.tb_grid.specs.Views.{along_axes};
    ghost use Rattle.tb_trees.specs.Bodies.{BodyOnGrid, KeepsTree};

    ghost Value = { BodyOnGrid };

    ghost view = { λ t. record { body = t.body.value; grid = t.grid.value } };

    ghost invariant = { λ t. KeepsTree (record { body = t.body.value; grid = t.grid.value }) (along_axes t.counts)
        t.tree.marks.items t.tree.sides.items t.tree.order.items t.passable.items t.solid.items };
}

impl OutletTree {
    ghost use Rattle.tb_places.specs.Places.{cell_count, face_count};
    ghost use Rattle.tb_outlets.specs.Balancing.{IsWithinLimits, flow};
    ghost use Rattle.tb_outlets.specs.Outlets.{IsSolidAt};
    ghost use Rattle.tb_outlets.specs.Repair.{IsCycle, IsOneRepairedFlux, IsRepairAnswer, IsRepaired};
    ghost use Rattle.tb_cycles.specs.Ways.{LeadOut, most_pull, sum_over};
    ghost use Rattle.tb_outlets.specs.Trees.{IsDistanceAt, IsOutletNumber};
    ghost use Rattle.tb_cycles.specs.Entries.{HasCycle, IsEntry};
    ghost use Rattle.tb_trees.specs.Bodies.{mesh_of};

    /// The tree of a body on a grid that carries it. It takes all memory that repairs and cycles need.
    ///
    /// # Errors
    /// Memory ran out.
    pub fn new(alloc: Global, body: &Body, grid: &Grid) -> Result<OutletTree, NoMemory>
        requires { CarriesBody grid.now body.now }
        ensures { IfOk result (λ tree. tree ≡ record { body = body.now; grid = grid.now }) }
    {
        let (tree, passable, solid) = grown(alloc, body, grid)?;
        Ok(OutletTree {
            body: Snapshot::of(body),
            grid: Snapshot::of(grid),
            counts: grid.counts(),
            tree,
            passable,
            solid,
        })
    }

    /// The distances and outlets of all cells, for whatever walks along outlets.
    pub fn ways(&self) -> Ways<'_>
        ensures { LeadOut (mesh_of self.now) result.marks.now result.sides.now }
    {
        Ways {
            marks: self.tree.marks.as_slice(),
            sides: self.tree.sides.as_slice(),
        }
    }

    /// The number of the grid's faces.
    pub fn faces(&self) -> u32
        ensures { result ≡ face_count (counts_of self.now.grid) }
    {
        self.counts.faces()
    }

    /// The distance of a cell from the root of its linked set: 1 of the root's cell, 0 of an air cell.
    pub fn distance(&self, cell: CellId) -> u32
        requires { cell.0 < cell_count (counts_of self.now.grid) }
        ensures { IsDistanceAt (mesh_of self.now) cell.0 result }
    {
        self.tree.distance(cell)
    }

    /// The outlet of a cell: a face on one of its sides. An air cell has none.
    pub fn outlet(&self, cell: CellId) -> Option<FaceId>
        requires { cell.0 < cell_count (counts_of self.now.grid) }
        ensures { MatchOption result (¬ IsSolidAt (mesh_of self.now) cell.0) (λ face. IsOutletNumber (mesh_of self.now) cell.0 face.0) }
    {
        self.tree.outlet(self.counts, cell)
    }

    /// The one balanced flux that agrees with the given one on all inner and surface faces that aren't outlets, and is 0
    /// on the others, where it is within the limits: its values then stand in `values`. Elsewhere the answer is false. It
    /// takes no memory.
    pub fn repair_values(&self, given: &[i64], values: &mut [i64]) -> bool
        requires given { length given.now ≡ face_count (counts_of self.now.grid) }
        requires values { length values.old ≡ face_count (counts_of self.now.grid) }
        requires limits { IsWithinLimits given.now }
        ensures repaired { IsRepairAnswer (mesh_of self.now) given.now result values.new }
        ensures one { (v w : List ℤ) → IsRepaired (mesh_of self.now) given.now v → IsRepaired (mesh_of self.now) given.now w → v ≡ w }
        ensures one_flux { IsOneRepairedFlux (mesh_of self.now) given.now }
    {
        repair_along(
            self.counts,
            &self.tree,
            self.passable.as_slice(),
            given,
            values,
        )
    }

    /// Where the cycle of a face enters, if the face has one: if it is a surface face and not a root.
    pub fn cycle_entry(&self, face: FaceId) -> Option<CycleEntry>
        requires { face.0 < face_count (counts_of self.now.grid) }
        ensures { MatchOption result (¬ HasCycle (mesh_of self.now) face.0) (λ entry. IsEntry (mesh_of self.now) face.0 entry.cell.0 entry.side) }
    {
        cycle_entry(
            self.counts,
            self.solid.as_slice(),
            self.tree.sides.as_slice(),
            face,
        )
    }

    /// Whether a face has a cycle: whether it is a surface face and not a root.
    pub fn has_cycle(&self, face: FaceId) -> bool
        requires { face.0 < face_count (counts_of self.now.grid) }
        ensures { IsTrue result ↔ HasCycle (mesh_of self.now) face.0 }
    {
        self.cycle_entry(face).is_some()
    }

    /// The sum over all faces of what is told of a face times the flow of a cycle through it, by one walk along the
    /// outlets. It takes no memory.
    pub fn cycle_pull<P: FacePull>(&self, pulls: &P, entry: CycleEntry) -> i128
        requires fits { P.fits (counts_of self.now.grid) pulls.now }
        requires entry { (f : ℕ) × IsEntry (mesh_of self.now) f entry.cell.0 entry.side }
        ensures value { (f : ℕ) (flows : List ℤ) → IsEntry (mesh_of self.now) f entry.cell.0 entry.side
            → IsCycle (mesh_of self.now) entry.cell.0 entry.side flows
            → result ≡ sum_over (mesh_of self.now).cells flows (P.pulls pulls.now) }
        ensures size { unsigned_abs result ≤ 2 ^ 18 * most_pull + most_pull }
    {
        cycle_pull(
            self.counts,
            self.tree.marks.as_slice(),
            self.tree.sides.as_slice(),
            pulls,
            entry,
        )
    }

    /// Adds a multiple of a cycle to a flux, by one walk along the outlets. It takes no memory.
    pub fn add_cycle(&self, flows: &mut [i64], entry: CycleEntry, multiple: i64)
        requires entry { (f : ℕ) × IsEntry (mesh_of self.now) f entry.cell.0 entry.side }
        requires whole { length flows.old ≡ face_count (counts_of self.now.grid) }
        requires limits { IsWithinLimits flows.old }
        requires multiple { unsigned_abs multiple ≤ 2 * 10 ^ 12 }
        ensures whole { length flows.new ≡ face_count (counts_of self.now.grid) }
        ensures added { (f : ℕ) (cycle : List ℤ) → IsEntry (mesh_of self.now) f entry.cell.0 entry.side
            → IsCycle (mesh_of self.now) entry.cell.0 entry.side cycle → (g : ℕ)
            → flow flows.new g ≡ flow flows.old g +ℤ multiple *ℤ flow cycle g }
    {
        add_cycle(
            self.counts,
            self.tree.marks.as_slice(),
            self.tree.sides.as_slice(),
            flows,
            entry,
            multiple,
        );
    }
}
