// Moves of the two halves of a state, the field and the flux.
ghost use Rattle.std.specs.Prelude.{◌≡◌, ◌≢◌, ◌↔◌, ◌<◌, IsTrue, List, ℤ};
ghost use Rattle.tb_places.specs.declared.Place.{Place};
ghost use Rattle.tb_places.specs.Inverse.{edge_place};
ghost use Rattle.tb_places.specs.Places.{edge_count, node_count, node_number};
ghost use Rattle.tb_weighted.specs.Limits.{IsField, IsFlux};
ghost use Rattle.tb_weighted.specs.Moves.{IsInnerEdge, IsLoopMove, IsNodeMove, Move, loop_moves, nodes};
ghost use Rattle.tb_weighted.specs.Sequences.{AreMade};
ghost use Rattle.tb_moves.specs.FluxPasses.{IsFluxMove};
ghost use Rattle.tb_moves.specs.Settings.{case_in, mesh_in};

use crate::setting::Setting;
use tb_field::Field;
use tb_flux::Flux;
use tb_grid::{EdgeId, NodeId};

impl Setting<'_> {
    /// Moves the value of a node, and says whether it changed.
    pub fn move_node(&self, field: &mut Field, node: NodeId) -> bool
        requires field { IsField (mesh_in self.now).cells field.old }
        requires node { node.0 < node_count (mesh_in self.now).cells }
        ensures moved { IsNodeMove (mesh_in self.now) (case_in self.now) node.0 field.old field.new }
        ensures told { IsTrue result ↔ (field.new ≢ field.old) }
        ensures kept { IsField (mesh_in self.now).cells field.new }
    {
        self.relax_node(field.values_mut(), node)
    }

    /// The moves of all nodes in order. Says whether one of them changed the field.
    pub fn move_nodes(&self, field: &mut Field) -> bool
        requires { IsField (mesh_in self.now).cells field.old }
        ensures moved { let m = mesh_in self.now in let inside = case_in self.now in
            AreMade (List ℤ) Place (λ p. IsNodeMove m inside (node_number m.cells p)) (nodes m.cells) field.old field.new result }
        ensures kept { IsField (mesh_in self.now).cells field.new }
    {
        self.relax_nodes(field.values_mut())
    }

    /// Moves the loop of an edge inside the hull, and says whether the flux changed.
    pub fn move_loop(&self, flux: &mut Flux, edge: EdgeId) -> bool
        requires flux { IsFlux (mesh_in self.now).cells flux.old }
        requires edge { edge.1 < edge_count (mesh_in self.now).cells edge.0 }
        requires inner { let n = (mesh_in self.now).cells in IsInnerEdge n edge.0 (edge_place n edge.0 edge.1) }
        ensures moved { let m = mesh_in self.now in IsLoopMove m (case_in self.now) edge.0 (edge_place m.cells edge.0 edge.1) flux.old flux.new }
        ensures told { IsTrue result ↔ (flux.new ≢ flux.old) }
        ensures kept { IsFlux (mesh_in self.now).cells flux.new }
    {
        let place = self.edge_place(edge);
        self.relax_loop(flux.values_mut(), edge.0, place)
    }

    /// The moves of the loops of all edges inside the hull in order. Says whether one of them changed the flux.
    pub fn move_loops(&self, flux: &mut Flux) -> bool
        requires { IsFlux (mesh_in self.now).cells flux.old }
        ensures moved { let m = mesh_in self.now in let inside = case_in self.now in
            AreMade (List ℤ) Move (IsFluxMove m inside) (loop_moves m.cells) flux.old flux.new result }
        ensures kept { IsFlux (mesh_in self.now).cells flux.new }
    {
        self.relax_loops(flux.values_mut())
    }
}
