// Moves of cycles of a flux.
ghost use Rattle.std.specs.Prelude.{◌≢◌, ◌↔◌, ◌<◌, IsTrue};
ghost use Rattle.tb_places.specs.Places.{face_count};
ghost use Rattle.tb_weighted.specs.Limits.{IsFlux};
ghost use Rattle.tb_cycles.specs.Entries.{HasCycle};
ghost use Rattle.tb_cycles.specs.Moves.{IsCycleMove};
ghost use Rattle.tb_cycle_moves.specs.Turns.{AreCycleTurns, IsCycleTurn};
ghost use Rattle.tb_moves.specs.Moves.{CyclesStay};
ghost use Rattle.tb_moves.specs.Settings.{case_in, mesh_in};

use crate::setting::Setting;
use tb_cycle_moves::{relax_cycles, relax_face, some_cycle_moves};
use tb_flux::Flux;
use tb_grid::FaceId;

impl Setting<'_> {
    // The move of the cycle of a face, if it has one. Says whether the flux changed.
    fn turn_cycle(&self, flows: &mut [i64], face: FaceId) -> bool
        requires flux { IsFlux (mesh_in self.now).cells flows.old }
        requires face { face.0 < face_count (mesh_in self.now).cells }
        ensures moved { IsCycleTurn (mesh_in self.now) (case_in self.now) face.0 flows.old flows.new }
        ensures told { IsTrue result ↔ (flows.new ≢ flows.old) }
        ensures kept { IsFlux (mesh_in self.now).cells flows.new }
    {
        let table = self.table();
        relax_face(&self.tree, &table, flows, face)
    }

    // The moves of the cycles of all faces, in the order of the faces.
    fn turn_cycles(&self, flows: &mut [i64]) -> bool
        requires flux { IsFlux (mesh_in self.now).cells flows.old }
        ensures moved { AreCycleTurns (mesh_in self.now) (case_in self.now) flows.old flows.new result }
        ensures kept { IsFlux (mesh_in self.now).cells flows.new }
    {
        let table = self.table();
        relax_cycles(&self.tree, &table, flows)
    }

    /// Whether the moves of all cycles leave a flux as it is.
    pub fn cycles_stay(&self, flows: &[i64]) -> bool
        requires flux { IsFlux (mesh_in self.now).cells flows.now }
        ensures { IsTrue result ↔ CyclesStay (mesh_in self.now) (case_in self.now) flows.now }
    {
        self.tree.ways();
        let table = self.table();
        !some_cycle_moves(&self.tree, &table, flows)
    }

    /// Moves the cycle of a face, and says whether the flux changed.
    pub fn move_cycle(&self, flux: &mut Flux, face: FaceId) -> bool
        requires flux { IsFlux (mesh_in self.now).cells flux.old }
        requires face { face.0 < face_count (mesh_in self.now).cells }
        requires cycle { HasCycle (mesh_in self.now) face.0 }
        ensures moved { IsCycleMove (mesh_in self.now) (case_in self.now) face.0 flux.old flux.new }
        ensures told { IsTrue result ↔ (flux.new ≢ flux.old) }
        ensures kept { IsFlux (mesh_in self.now).cells flux.new }
    {
        self.turn_cycle(flux.values_mut(), face)
    }

    /// The moves of all cycles in order. Says whether one of them changed the flux.
    pub fn move_cycles(&self, flux: &mut Flux) -> bool
        requires { IsFlux (mesh_in self.now).cells flux.old }
        ensures moved { AreCycleTurns (mesh_in self.now) (case_in self.now) flux.old flux.new result }
        ensures kept { IsFlux (mesh_in self.now).cells flux.new }
    {
        self.turn_cycles(flux.values_mut())
    }
}
