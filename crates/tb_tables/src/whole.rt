//! The whole table of a body's weights, with the memory that it takes.
ghost use Rattle.std.specs.Prelude.{◌≡◌, IfOk};
ghost use Rattle.tb_detail.specs.Limits.{InLimits};
ghost use Rattle.tb_model.specs.Energy.{Case as InCase};
ghost use Rattle.tb_model.specs.Mesh.{Mesh};
ghost use Rattle.tb_model.specs.Values.{case_of};
ghost use Rattle.tb_geometry.specs.Grids.{CarriesBody, mesh_on};
ghost use Rattle.tb_relax.specs.Passes.{IsTableOf};
ghost use Rattle.tb_relax.specs.Tables.{IsTable, table_counts};
ghost use Rattle.tb_tables.specs.Whole.{AreTablesOf};

use crate::cell_table::CellTable;
use crate::face_table::FaceTable;
use std::alloc::Global;
use tb_field::NoMemory;
use tb_geometry::{Body, Case};
use tb_grid::{CellCounts, Grid};
use tb_relax::Table;

/// The weights of all cells and faces of a grid.
#[derive(Debug, Drop)]
pub struct Tables {
    pub counts: CellCounts,
    pub cells: CellTable,
    pub faces: FaceTable,
}

impl Tables {
    /// The weights of a body on a grid that carries it, in a case. All cells of one sort share a row, and so do faces. What
    /// is known of sorts while the rows are made is let go, and no table has spare places.
    ///
    /// # Errors
    /// Memory ran out.
    pub fn new(alloc: Global, body: &Body, grid: &Grid, case: Case) -> Result<Tables, NoMemory>
        requires limits { InLimits body.now }
        requires carries { CarriesBody grid.now body.now }
        ensures { IfOk result (AreTablesOf (mesh_on body.now grid.now) (case_of case.mask)) }
    {
        let cells = CellTable::new(alloc, body, grid)?;
        let faces = FaceTable::new(alloc, body, grid, case)?;
        Ok(Tables {
            counts: grid.counts(),
            cells,
            faces,
        })
    }

    /// The table, on which moves are made. It takes no memory.
    pub fn table(&self) -> Table<'_>
        ensures sound { (m : Mesh) (inside : InCase) → AreTablesOf m inside self.now → IsTable result }
        ensures counts { (m : Mesh) (inside : InCase) → AreTablesOf m inside self.now → table_counts result ≡ m.cells }
        ensures of_mesh { (m : Mesh) (inside : InCase) → AreTablesOf m inside self.now → IsTableOf m inside result }
    {
        Table {
            counts: self.counts,
            cell_rows: self.cells.rows.as_slice(),
            cells: self.cells.numbers.as_slice(),
            face_rows: self.faces.rows.as_slice(),
            faces: self.faces.numbers.as_slice(),
        }
    }
}
