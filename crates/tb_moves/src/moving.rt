// The moves of a session.
ghost use Rattle.std.specs.Prelude.{◌≡◌, ◌≢◌, ◌↔◌, ◌<◌, ◌||◌, All, IsFalse, IsTrue, List, ℤ, None};
ghost use Rattle.tb_places.specs.declared.Place.{Place};
ghost use Rattle.tb_places.specs.Inverse.{edge_place};
ghost use Rattle.tb_places.specs.Places.{edge_count, face_count, node_count, node_number};
ghost use Rattle.tb_weighted.specs.Moves.{IsInnerEdge, IsLoopMove, IsNodeMove, loop_moves, nodes};
ghost use Rattle.tb_weighted.specs.Moves as weighted;
ghost use Rattle.tb_weighted.specs.Sequences.{AreMade};
ghost use Rattle.tb_cycles.specs.Entries.{HasCycle};
ghost use Rattle.tb_cycles.specs.Moves.{IsCycleMove};
ghost use Rattle.tb_cycle_moves.specs.Turns.{AreCycleTurns};
ghost use Rattle.tb_moves.specs.Moves.{AreMoves, HasMove, IsMove, IsPlainPass, IsSettled};
ghost use Rattle.tb_geometry.specs.Faults.{IsAccepted};
ghost use Rattle.tb_geometry.specs.Grids.{CarriesBody};
ghost use Rattle.tb_costs.specs.Admissible.{IsAdmissible};
ghost use Rattle.tb_moves.specs.FluxPasses.{IsFluxMove};
ghost use Rattle.tb_moves.specs.Leaving.{RaisesNothing};
ghost use Rattle.tb_moves.specs.Sessions.{AreAlike, inside_of, mesh_of, state_of, with_field, with_flux};

use crate::moves::Move;
use crate::session::Session;
use tb_grid::{EdgeId, FaceId, NodeId};

// An end that was kept, unless what it is an end of has changed.
fn unless(changed: bool, end: Option<i128>) -> Option<i128>
    ensures changed { IsTrue changed → result ≡ None }
    ensures same { IsFalse changed → result ≡ end }
{
    if changed { None } else { end }
}

// Whether one of two holds.
fn either(x: bool, y: bool) -> bool
    ensures { result ≡ (x || y) }
{
    x || y
}

impl Session<'_> {
    /// Whether there is such a move.
    pub fn has(&self, wanted: Move) -> bool
        ensures { IsTrue result ↔ HasMove (mesh_of self.now) wanted }
    {
        match wanted {
            Move::Node(node) => self.setting.has_node(node),
            Move::Loop(edge) => self.setting.has_loop(edge),
            Move::Cycle(face) => self.setting.has_cycle(face),
        }
    }

    // Moves the value of a node, and says whether it changed.
    fn apply_node(&mut self, node: NodeId) -> bool
        requires { node.0 < node_count (mesh_of self.old).cells }
        ensures moved { IsNodeMove (mesh_of self.old) (inside_of self.old) node.0 self.old.field self.new.field }
        ensures told { IsTrue result ↔ (self.new.field ≢ self.old.field) }
        ensures rest { self.new ≡ with_field self.old self.new.field }
    {
        let changed = self.setting.move_node(&mut self.field, node);
        self.upper = unless(changed, self.upper);
        changed
    }

    // Moves the loop of an edge inside the hull, and says whether the flux changed.
    fn apply_loop(&mut self, edge: EdgeId) -> bool
        requires edge { edge.1 < edge_count (mesh_of self.old).cells edge.0 }
        requires inner { let n = (mesh_of self.old).cells in IsInnerEdge n edge.0 (edge_place n edge.0 edge.1) }
        ensures moved { let m = mesh_of self.old in IsLoopMove m (inside_of self.old) edge.0 (edge_place m.cells edge.0 edge.1) self.old.flux self.new.flux }
        ensures told { IsTrue result ↔ (self.new.flux ≢ self.old.flux) }
        ensures rest { self.new ≡ with_flux self.old self.new.flux }
    {
        let changed = self.setting.move_loop(&mut self.flux, edge);
        self.lower = unless(changed, self.lower);
        changed
    }

    // Moves the cycle of a face, and says whether the flux changed.
    fn apply_cycle(&mut self, face: FaceId) -> bool
        requires face { face.0 < face_count (mesh_of self.old).cells }
        requires cycle { HasCycle (mesh_of self.old) face.0 }
        ensures moved { IsCycleMove (mesh_of self.old) (inside_of self.old) face.0 self.old.flux self.new.flux }
        ensures told { IsTrue result ↔ (self.new.flux ≢ self.old.flux) }
        ensures rest { self.new ≡ with_flux self.old self.new.flux }
    {
        let changed = self.setting.move_cycle(&mut self.flux, face);
        self.lower = unless(changed, self.lower);
        changed
    }

    // Makes a move, and says whether the state changed.
    fn make(&mut self, wanted: Move) -> bool
        requires { HasMove (mesh_of self.old) wanted }
        ensures moved { IsMove (mesh_of self.old) (inside_of self.old) wanted (state_of self.old) (state_of self.new) }
        ensures told { IsTrue result ↔ (self.new ≢ self.old) }
        ensures stays { IsFalse result → self.new ≡ self.old }
        ensures alike { AreAlike self.old self.new }
    {
        match wanted {
            Move::Node(node) => self.apply_node(node),
            Move::Loop(edge) => self.apply_loop(edge),
            Move::Cycle(face) => self.apply_cycle(face),
        }
    }

    // Its state is admissible.
    fn keeps_state(&self)
        ensures accepted { IsAccepted self.now.body }
        ensures carries { CarriesBody self.now.grid self.now.body }
        ensures state { IsAdmissible (mesh_of self.now) (inside_of self.now) (state_of self.now) }
    {
        let _ = &self.setting;
    }

    /// Makes a move, and says whether the state changed.
    pub fn apply(&mut self, wanted: Move) -> bool
        requires { HasMove (mesh_of self.old) wanted }
        ensures moved { IsMove (mesh_of self.old) (inside_of self.old) wanted (state_of self.old) (state_of self.new) }
        ensures leaves { RaisesNothing (mesh_of self.old) (inside_of self.old) (state_of self.old) (state_of self.new) }
        ensures told { IsTrue result ↔ (self.new ≢ self.old) }
        ensures stays { IsFalse result → self.new ≡ self.old }
        ensures alike { AreAlike self.old self.new }
    {
        self.keeps_state();
        self.make(wanted)
    }

    /// Makes the moves of a list in their order, and says whether one of them changed the state.
    pub fn apply_all(&mut self, moves: &[Move]) -> bool
        requires { All (HasMove (mesh_of self.old)) moves.now }
        ensures moved { AreMoves (mesh_of self.old) (inside_of self.old) moves.now (state_of self.old) (state_of self.new) result }
        ensures leaves { RaisesNothing (mesh_of self.old) (inside_of self.old) (state_of self.old) (state_of self.new) }
        ensures stays { IsFalse result → self.new ≡ self.old }
        ensures alike { AreAlike self.old self.new }
    {
        self.keeps_state();
        let mut changed = false;
        for i in 0..moves.len() {
            let wanted = moves[i];
            if self.apply(wanted) {
                changed = true;
            }
        }
        changed
    }

    // The moves of all nodes in order.
    fn pass_nodes(&mut self) -> bool
        ensures moved { let m = mesh_of self.old in let inside = inside_of self.old in
            AreMade (List ℤ) Place (λ p. IsNodeMove m inside (node_number m.cells p)) (nodes m.cells) self.old.field self.new.field result }
        ensures rest { self.new ≡ with_field self.old self.new.field }
    {
        let changed = self.setting.move_nodes(&mut self.field);
        self.upper = unless(changed, self.upper);
        changed
    }

    // The moves of all loops in order.
    fn pass_loops(&mut self) -> bool
        ensures moved { let m = mesh_of self.old in let inside = inside_of self.old in
            AreMade (List ℤ) weighted.Move (IsFluxMove m inside) (loop_moves m.cells) self.old.flux self.new.flux result }
        ensures rest { self.new ≡ with_flux self.old self.new.flux }
    {
        let changed = self.setting.move_loops(&mut self.flux);
        self.lower = unless(changed, self.lower);
        changed
    }

    // The moves of all cycles in order.
    fn pass_cycles(&mut self) -> bool
        ensures moved { AreCycleTurns (mesh_of self.old) (inside_of self.old) self.old.flux self.new.flux result }
        ensures rest { self.new ≡ with_flux self.old self.new.flux }
    {
        let changed = self.setting.move_cycles(&mut self.flux);
        self.lower = unless(changed, self.lower);
        changed
    }

    /// A plain pass: the moves of all nodes, of all loops and of all cycles in order. Says whether one changed the state.
    pub fn pass(&mut self) -> bool
        ensures moved { IsPlainPass (mesh_of self.old) (inside_of self.old) (state_of self.old) (state_of self.new) result }
        ensures leaves { RaisesNothing (mesh_of self.old) (inside_of self.old) (state_of self.old) (state_of self.new) }
        ensures stays { IsFalse result → self.new ≡ self.old }
        ensures alike { AreAlike self.old self.new }
    {
        self.keeps_state();
        let nodes = self.pass_nodes();
        let loops = self.pass_loops();
        let cycles = self.pass_cycles();
        either(either(nodes, loops), cycles)
    }

    /// Whether no move changes the state. It writes nothing, and stops at the first that would.
    pub fn settled(&self) -> bool
        ensures { IsTrue result ↔ IsSettled (mesh_of self.now) (inside_of self.now) (state_of self.now) }
    {
        if !self
            .setting
            .is_settled(self.field.values(), self.flux.values())
        {
            return false;
        }
        self.setting.cycles_stay(self.flux.values())
    }
}
