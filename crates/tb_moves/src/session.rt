// A session of the solver.
ghost use Rattle.std.specs.Prelude.{◌≡◌, ◌<◌, IfOk, MatchOption};
ghost use Rattle.tb_places.specs.Places.{cell_count};
ghost use Rattle.tb_grid.specs.Grid.{counts_of};
ghost use Rattle.tb_geometry.specs.Grids.{CarriesBody, mesh_on};

use crate::setting::Setting;
use std::alloc::Global;
use std::marker::Model;
use tb_field::{Field, NoMemory};
use tb_flux::Flux;
use tb_geometry::{Body, Case};
use tb_grid::{CellId, FaceId, Grid};
use tb_trees::OutletTree;

/// A session: a body on a grid in a case, with a present field and a present flux. Contracts see these five.
///
/// The ends of the field and of the flux are kept once they are known, until a move or an offer changes the half that
/// they belong to. A session takes less than 100 bytes for each cell of a large grid. Of a grid with many layers they are
/// about 66: 8 for a node value, 24 for three flows, 16 for the numbers of the rows of weights of a cell and three faces, and
/// 18 for its outlet. Of one with a single layer of cells, which has two nodes and four faces for each, they are 87. The
/// rows come on top, 80 bytes for one of a cell and 32 for one of a face: all cells of one conductivity and one size share
/// one, and so do all surfaces of one resistance, size and side.
#[derive(Drop)]
pub struct Session<'a> {
    pub(crate) setting: Setting<'a>,
    pub(crate) field: Field,
    pub(crate) flux: Flux,
    pub(crate) upper: Option<i128>,
    pub(crate) lower: Option<i128>,
}

impl<'a> Model for Session<'a> {
    ghost use Rattle.tb_moves.specs.Sessions.{Session};
    ghost use Rattle.tb_moves.specs.Keeping.{KeepsSession};

    ghost Value = { Session };

    ghost view = { λ s. record { body = s.setting.body; grid = s.setting.grid; case = s.setting.case; field = s.field; flux = s.flux } };

    ghost invariant = { λ s. KeepsSession (record { body = s.setting.body; grid = s.setting.grid; case = s.setting.case; field = s.field; flux = s.flux }) s.upper s.lower };
}

impl<'a> Session<'a> {
    ghost use Rattle.tb_outlets.specs.Outlets.{IsSolidAt};
    ghost use Rattle.tb_outlets.specs.Trees.{IsDistanceAt, IsOutletNumber};
    ghost use Rattle.tb_moves.specs.Moves.{zero_state};
    ghost use Rattle.tb_moves.specs.Sessions.{IsKept, mesh_of};

    /// A session on a grid that carries a body, with the zero field and the zero flux. It takes all memory.
    ///
    /// # Errors
    /// Memory ran out.
    pub fn new(
        alloc: Global,
        body: &'a Body,
        grid: &'a Grid,
        case: Case,
    ) -> Result<Session<'a>, NoMemory>
        requires { CarriesBody grid.now body.now }
        ensures { let start = zero_state (mesh_on body.now grid.now) in
            IfOk result (λ s. s ≡ record { body = body.now; grid = grid.now; case = case; field = start.field; flux = start.flux }) }
    {
        let setting = Setting::new(alloc, body, grid, case)?;
        setting.keeps();
        let field = Field::zero(alloc, grid)?;
        let flux = Flux::zero(alloc, grid)?;
        Ok(Session {
            setting,
            field,
            flux,
            upper: None,
            lower: None,
        })
    }

    /// What every session keeps.
    pub fn keeps(&self)
        ensures { IsKept self.now }
    {
        let _ = &self.setting;
    }

    /// The present field.
    pub fn field(&self) -> &Field
        ensures { result.now ≡ self.now.field }
    {
        &self.field
    }

    /// The present flux.
    pub fn flux(&self) -> &Flux
        ensures { result.now ≡ self.now.flux }
    {
        &self.flux
    }

    /// The body.
    pub fn body(&self) -> &'a Body
        ensures { result.now ≡ self.now.body }
    {
        self.setting.body()
    }

    /// The grid.
    pub fn grid(&self) -> &'a Grid
        ensures { result.now ≡ self.now.grid }
    {
        self.setting.grid()
    }

    /// The case.
    pub fn case(&self) -> Case
        ensures { result ≡ self.now.case }
    {
        self.setting.case()
    }

    /// The outlet tree of the body on the grid, along which fluxes are repaired.
    pub fn tree(&self) -> &OutletTree
        ensures { result.now ≡ record { body = self.now.body; grid = self.now.grid } }
    {
        self.setting.tree()
    }

    /// The distance of a cell from the root of its linked set: 1 of the root's cell, 0 of an air cell.
    pub fn distance(&self, cell: CellId) -> u32
        requires { cell.0 < cell_count (counts_of self.now.grid) }
        ensures { IsDistanceAt (mesh_of self.now) cell.0 result }
    {
        self.tree().distance(cell)
    }

    /// The outlet of a cell: a face on one of its sides. An air cell has none.
    pub fn outlet(&self, cell: CellId) -> Option<FaceId>
        requires { cell.0 < cell_count (counts_of self.now.grid) }
        ensures { MatchOption result (¬ IsSolidAt (mesh_of self.now) cell.0) (λ face. IsOutletNumber (mesh_of self.now) cell.0 face.0) }
    {
        self.tree().outlet(cell)
    }

    /// The present field and flux.
    pub fn into_parts(self) -> (Field, Flux)
        ensures field { result.0 ≡ self.entry.field }
        ensures flux { result.1 ≡ self.entry.flux }
    {
        (self.field, self.flux)
    }
}
