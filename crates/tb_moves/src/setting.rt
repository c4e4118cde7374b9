// Where the moves of a session are made.
ghost use Rattle.std.specs.Prelude.{◌≡◌, ◌≢◌, ◌↔◌, ◌<◌, ◌≤◌, ◌^◌, IfOk, IsFalse, IsTrue, List, ℤ, pos, ◌≤ℤ◌, unsigned_abs};
ghost use Rattle.tb_places.specs.declared.Place.{Place};
ghost use Rattle.tb_places.specs.Inverse.{edge_place};
ghost use Rattle.tb_places.specs.Places.{edge_count, face_count, node_count, node_number};
ghost use Rattle.tb_geometry.specs.Grids.{CarriesBody};
ghost use Rattle.tb_weighted.specs.Limits.{IsField, IsFlux};
ghost use Rattle.tb_weighted.specs.Moves.{IsInnerEdge, IsLoopMove, IsNodeMove, IsPass, IsSettled, Move, loop_moves, nodes};
ghost use Rattle.tb_weighted.specs.Sequences.{AreMade};

use crate::edges::is_inner;
use std::alloc::Global;
use std::marker::Model;
use tb_field::{Field, NoMemory};
use tb_flux::Flux;
use tb_geometry::{Body, Case};
use tb_grid::{AxisName, CellCounts, EdgeId, FaceId, Grid, NodeId, Place};
use tb_relax::Table;
use tb_tables::whole::Tables;
use tb_trees::OutletTree;

/// A body on a grid that carries it, in a case, with the weights of its cells and faces and its outlets.
#[derive(Drop)]
pub(crate) struct Setting<'a> {
    pub(crate) body: &'a Body,
    pub(crate) grid: &'a Grid,
    pub(crate) case: Case,
    pub(crate) tables: Tables,
    pub(crate) tree: OutletTree,
}

impl<'a> Model for Setting<'a> {
    ghost use Rattle.tb_moves.specs.Settings.{KeepsSetting, Setting};

    ghost Value = { Setting };

    ghost view = { λ s. record { body = s.body.now; grid = s.grid.now; case = s.case } };

    ghost invariant = { λ s. KeepsSetting (record { body = s.body.now; grid = s.grid.now; case = s.case }) s.tables s.tree };
}

// The outlet tree of a body on a grid.
fn planted(alloc: Global, body: &Body, grid: &Grid) -> Result<OutletTree, NoMemory>
    requires { CarriesBody grid.now body.now }
    ensures { IfOk result (λ tree. tree ≡ record { body = body.now; grid = grid.now }) }
{
    match OutletTree::new(alloc, body, grid) {
        Ok(tree) => Ok(tree),
        Err(_) => Err(NoMemory),
    }
}

impl<'a> Setting<'a> {
    ghost use Rattle.tb_detail.specs.Limits.{InLimits};
    ghost use Rattle.tb_grid.specs.Grid.{IsGrid};
    ghost use Rattle.tb_geometry.specs.Faults.{IsAccepted};
    ghost use Rattle.tb_relax.specs.Passes.{IsTableOf};
    ghost use Rattle.tb_relax.specs.Tables.{IsTable, table_counts};
    ghost use Rattle.tb_grid.specs.Views.{along_axes};
    ghost use Rattle.tb_cycles.specs.Entries.{HasCycle};
    ghost use Rattle.tb_moves.specs.FluxPasses.{IsFluxMove};
    ghost use Rattle.tb_moves.specs.Settings.{case_in, mesh_in};

    /// A body on a grid that carries it, in a case. It takes all memory.
    ///
    /// # Errors
    /// Memory ran out.
    pub fn new(
        alloc: Global,
        body: &'a Body,
        grid: &'a Grid,
        case: Case,
    ) -> Result<Setting<'a>, NoMemory>
        requires { CarriesBody grid.now body.now }
        ensures { IfOk result (λ s. s ≡ record { body = body.now; grid = grid.now; case = case }) }
    {
        body.base();
        grid.counts();
        let tables = Tables::new(alloc, body, grid, case)?;
        let tree = planted(alloc, body, grid)?;
        Ok(Setting {
            body,
            grid,
            case,
            tables,
            tree,
        })
    }

    /// What is known of the body and the grid.
    pub fn keeps(&self)
        ensures limits { InLimits self.now.body }
        ensures accepted { IsAccepted self.now.body }
        ensures grid { IsGrid self.now.grid }
        ensures carries { CarriesBody self.now.grid self.now.body }
    {
        let _ = &self.tables;
    }

    /// The body.
    pub fn body(&self) -> &'a Body
        ensures { result.now ≡ self.now.body }
    {
        self.body
    }

    /// The grid.
    pub fn grid(&self) -> &'a Grid
        ensures { result.now ≡ self.now.grid }
    {
        self.grid
    }

    /// The case.
    pub fn case(&self) -> Case
        ensures { result ≡ self.now.case }
    {
        self.case
    }

    /// The outlet tree of the body on the grid.
    pub fn tree(&self) -> &OutletTree
        ensures { result.now ≡ record { body = self.now.body; grid = self.now.grid } }
    {
        &self.tree
    }

    // How many cells there are along each axis.
    fn counts(&self) -> CellCounts
        ensures { along_axes result ≡ (mesh_in self.now).cells }
    {
        self.tables.counts
    }

    /// Whether the grid has a node.
    pub fn has_node(&self, node: NodeId) -> bool
        ensures { IsTrue result ↔ (node.0 < node_count (mesh_in self.now).cells) }
    {
        node.0 < self.counts().nodes()
    }

    /// Whether the grid has an edge, and it is inside the hull.
    pub fn has_loop(&self, edge: EdgeId) -> bool
        ensures { let n = (mesh_in self.now).cells in
            IsTrue result ↔ ((edge.1 < edge_count n edge.0) × IsInnerEdge n edge.0 (edge_place n edge.0 edge.1)) }
    {
        is_inner(self.counts(), edge)
    }

    /// The place of an edge.
    pub fn edge_place(&self, edge: EdgeId) -> Place
        requires { edge.1 < edge_count (mesh_in self.now).cells edge.0 }
        ensures { result ≡ edge_place (mesh_in self.now).cells edge.0 edge.1 }
    {
        self.counts().edge_place(edge)
    }

    /// Whether the grid has a face, and it is a surface face and not a root.
    pub fn has_cycle(&self, face: FaceId) -> bool
        ensures { let m = mesh_in self.now in IsTrue result ↔ ((face.0 < face_count m.cells) × HasCycle m face.0) }
    {
        face.0 < self.counts().faces() && self.tree.has_cycle(face)
    }

    // The weights of all cells and faces.
    pub fn table(&self) -> Table<'_>
        ensures sound { IsTable result }
        ensures counts { table_counts result ≡ (mesh_in self.now).cells }
        ensures of_mesh { IsTableOf (mesh_in self.now) (case_in self.now) result }
    {
        self.tables.table()
    }

    /// Moves the value of a node, and says whether it changed.
    pub fn relax_node(&self, values: &mut [i64], node: NodeId) -> bool
        requires field { IsField (mesh_in self.now).cells values.old }
        requires node { node.0 < node_count (mesh_in self.now).cells }
        ensures moved { IsNodeMove (mesh_in self.now) (case_in self.now) node.0 values.old values.new }
        ensures told { IsTrue result ↔ (values.new ≢ values.old) }
        ensures kept { IsField (mesh_in self.now).cells values.new }
    {
        let table = self.table();
        table.relax_node(values, table.counts.node_place(node))
    }

    /// Moves the loop of an edge inside the hull, and says whether the flux changed.
    pub fn relax_loop(&self, flows: &mut [i64], axis: AxisName, edge: Place) -> bool
        requires flux { IsFlux (mesh_in self.now).cells flows.old }
        requires edge { IsInnerEdge (mesh_in self.now).cells axis edge }
        ensures moved { IsLoopMove (mesh_in self.now) (case_in self.now) axis edge flows.old flows.new }
        ensures told { IsTrue result ↔ (flows.new ≢ flows.old) }
        ensures kept { IsFlux (mesh_in self.now).cells flows.new }
    {
        self.table().relax_loop(flows, axis, edge)
    }

    /// The moves of all nodes in order.
    pub fn relax_nodes(&self, values: &mut [i64]) -> bool
        requires field { IsField (mesh_in self.now).cells values.old }
        ensures moved { let m = mesh_in self.now in let inside = case_in self.now in
            AreMade (List ℤ) Place (λ p. IsNodeMove m inside (node_number m.cells p)) (nodes m.cells) values.old values.new result }
        ensures kept { IsField (mesh_in self.now).cells values.new }
    {
        self.table().relax_nodes(values)
    }

    /// The moves of the loops of all edges inside the hull in order.
    pub fn relax_loops(&self, flows: &mut [i64]) -> bool
        requires flux { IsFlux (mesh_in self.now).cells flows.old }
        ensures moved { let m = mesh_in self.now in let inside = case_in self.now in
            AreMade (List ℤ) Move (IsFluxMove m inside) (loop_moves m.cells) flows.old flows.new result }
        ensures kept { IsFlux (mesh_in self.now).cells flows.new }
    {
        self.table().relax_loops(flows)
    }

    /// Whether no move of a node or a loop changes a field and a flux.
    pub fn is_settled(&self, values: &[i64], flows: &[i64]) -> bool
        requires field { IsField (mesh_in self.now).cells values.now }
        requires flux { IsFlux (mesh_in self.now).cells flows.now }
        ensures { IsTrue result ↔ IsSettled (mesh_in self.now) (case_in self.now) (record { field = values.now; flux = flows.now }) }
    {
        self.table().is_settled(values, flows)
    }
}
