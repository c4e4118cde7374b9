//! The table of a grid's cells.
ghost use Rattle.std.specs.Prelude.{◌≡◌, ◌+◌, ◌^◌, ◌<◌, [], IfOk, OnOk, IsTrue, length, slice_index_or};
ghost use Rattle.tb_places.specs.Inverse.{cell_place};
ghost use Rattle.tb_places.specs.Places.{cell_count};
ghost use Rattle.tb_detail.specs.Limits.{InLimits};
ghost use Rattle.tb_grid.specs.Grid.{counts_of};
ghost use Rattle.tb_geometry.specs.Grids.{CarriesBody, mesh_on};
ghost use Rattle.tb_relax.specs.declared.table.CellWeights.{CellWeights};
ghost use Rattle.tb_tables.specs.declared.sorts.CellSort.{CellSort};
ghost use Rattle.tb_tables.specs.MeshRows.{IsCellRow};
ghost use Rattle.tb_tables.specs.Sharing.{AreRows, AreSorted, IsPlaced};
ghost use Rattle.tb_tables.specs.Sorts.{HasSort, IsWithin};

use crate::cells::cell_sort;
use crate::sorts::{CellSort, cell_row, same_cells};
use indexmap::IndexSet;
use std::alloc::{AllocError, Global};
use tb_geometry::Body;
use tb_grid::{CellId, Grid};
use tb_relax::CellWeights;

/// The rows that cells share, and the number of its row for each cell.
#[derive(Debug, Drop)]
pub struct CellTable {
    pub rows: Vec<CellWeights>,
    pub numbers: Vec<u32>,
}

// The sorts of the rows of a table in the making: in the order of the rows, and as a set, which tells the number of a row.
#[derive(Drop)]
struct KnownCells {
    sorts: Vec<CellSort>,
    set: IndexSet<CellSort>,
}

impl KnownCells {
    fn new(alloc: Global) -> KnownCells
        ensures { result.sorts.items ≡ [] }
    {
        KnownCells {
            sorts: Vec::new(alloc),
            set: IndexSet::new(alloc),
        }
    }
}

// Whether the row with a number is there and is of this sort.
#[inline]
fn is_sort(sorts: &[CellSort], number: usize, sort: CellSort) -> bool
    ensures there { IsTrue result → number < length sorts.now }
    ensures same { IsTrue result → (none : CellSort) → slice_index_or sorts.now number none ≡ sort }
{
    number < sorts.len() && same_cells(sorts[number], sort)
}

impl CellTable {
    // Without a cell, and with room for so many.
    fn with_room(alloc: Global, cells: u32) -> Result<CellTable, AllocError>
        ensures { IfOk result (λ table. (table.rows.items ≡ []) × (table.numbers.items ≡ [])) }
    {
        let numbers = Vec::with_capacity(alloc, cells as usize)?;
        let rows = Vec::new(alloc);
        Ok(CellTable { rows, numbers })
    }

    // A further row, of this sort.
    fn push(&mut self, known: &mut KnownCells, sort: CellSort) -> Result<u32, AllocError>
        requires few { length self.old.rows.items < 2 ^ 32 }
        requires within { IsWithin sort }
        requires sorted { AreSorted CellWeights CellSort HasSort self.old.rows.items known.old.sorts.items }
        ensures numbers { OnOk result (self.new.numbers.items ≡ self.old.numbers.items) }
        ensures sorted { OnOk result (AreSorted CellWeights CellSort HasSort self.new.rows.items known.new.sorts.items) }
        ensures placed { IfOk result (IsPlaced CellWeights (HasSort sort) self.old.rows.items self.new.rows.items) }
    {
        let number = self.rows.len() as u32;
        self.rows.push(cell_row(sort))?;
        known.sorts.push(sort)?;
        Ok(number)
    }

    // The number of the row of a sort: `like` where it is the same, or that of a row that is known, or of a new one.
    fn place(
        &mut self,
        known: &mut KnownCells,
        like: u32,
        sort: CellSort,
    ) -> Result<u32, AllocError>
        requires few { length self.old.rows.items < 2 ^ 32 }
        requires within { IsWithin sort }
        requires sorted { AreSorted CellWeights CellSort HasSort self.old.rows.items known.old.sorts.items }
        ensures numbers { OnOk result (self.new.numbers.items ≡ self.old.numbers.items) }
        ensures sorted { OnOk result (AreSorted CellWeights CellSort HasSort self.new.rows.items known.new.sorts.items) }
        ensures placed { IfOk result (IsPlaced CellWeights (HasSort sort) self.old.rows.items self.new.rows.items) }
    {
        if is_sort(known.sorts.as_slice(), like as usize, sort) {
            return Ok(like);
        }
        let seen = known.set.insert_full(sort)?;
        if is_sort(known.sorts.as_slice(), seen.0, sort) {
            return Ok(seen.0 as u32);
        }
        self.push(known, sort)
    }

    // Adds the next cell, whose row may be that with the number `like`.
    fn add(
        &mut self,
        known: &mut KnownCells,
        body: &Body,
        grid: &Grid,
        cell: CellId,
        like: u32,
    ) -> Result<u32, AllocError>
        requires limits { InLimits body.now }
        requires carries { CarriesBody grid.now body.now }
        requires cell { cell.0 < cell_count (counts_of grid.now) }
        requires so_far { AreRows CellWeights (λ c. IsCellRow (mesh_on body.now grid.now) (cell_place (counts_of grid.now) c)) cell.0 self.old.rows.items self.old.numbers.items }
        requires sorted { AreSorted CellWeights CellSort HasSort self.old.rows.items known.old.sorts.items }
        ensures sorted { OnOk result (AreSorted CellWeights CellSort HasSort self.new.rows.items known.new.sorts.items) }
        ensures next { OnOk result (AreRows CellWeights (λ c. IsCellRow (mesh_on body.now grid.now) (cell_place (counts_of grid.now) c)) (cell.0 + 1) self.new.rows.items self.new.numbers.items) }
    {
        let sort = cell_sort(body, grid, cell);
        let number = self.place(known, like, sort)?;
        self.numbers.push(number)?;
        Ok(number)
    }

    // Adds all cells in order.
    fn fill(&mut self, known: &mut KnownCells, body: &Body, grid: &Grid) -> Result<(), AllocError>
        requires limits { InLimits body.now }
        requires carries { CarriesBody grid.now body.now }
        requires no_rows { self.old.rows.items ≡ [] }
        requires no_sorts { known.old.sorts.items ≡ [] }
        requires no_numbers { self.old.numbers.items ≡ [] }
        ensures all { OnOk result (AreRows CellWeights (λ c. IsCellRow (mesh_on body.now grid.now) (cell_place (counts_of grid.now) c)) (cell_count (counts_of grid.now)) self.new.rows.items self.new.numbers.items) }
    {
        let mut like = 0;
        for cell in 0..grid.cells() {
            like = self.add(known, body, grid, CellId(cell), like)?;
        }
        Ok(())
    }

    /// The rows of all cells of a grid in the order in which they are first wanted, each shared by all cells of its sort.
    ///
    /// # Errors
    /// Memory ran out.
    pub fn new(alloc: Global, body: &Body, grid: &Grid) -> Result<CellTable, AllocError>
        requires limits { InLimits body.now }
        requires carries { CarriesBody grid.now body.now }
        ensures { IfOk result (λ table. AreRows CellWeights (λ c. IsCellRow (mesh_on body.now grid.now) (cell_place (counts_of grid.now) c)) (cell_count (counts_of grid.now)) table.rows.items table.numbers.items) }
    {
        let mut table = CellTable::with_room(alloc, grid.cells())?;
        let mut known = KnownCells::new(alloc);
        table.fill(&mut known, body, grid)?;
        drop(known);
        table.rows.shrink_to_fit();
        Ok(table)
    }
}
