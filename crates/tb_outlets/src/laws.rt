//! The laws of outlets.
//!
//! Each law is the contract of a function that does nothing; the lemma behind a clause is in `proofs/`.
ghost use Rattle.std.specs.Prelude.{◌≡◌, ◌≢◌, ◌⊎◌, ℕ, ◌<◌, List, Contains, length, reverse, Bool, ℤ, pos};
ghost use Rattle.tb_places.specs.declared.Place.{Place};
ghost use Rattle.tb_places.specs.Inverse.{cell_place};
ghost use Rattle.tb_places.specs.declared.AxisName.{AxisName};
ghost use Rattle.tb_places.specs.Places.{IsFace, face_count};
ghost use Rattle.tb_grid.specs.declared.ids.CellId.{CellId};
ghost use Rattle.tb_model.specs.Energy.{Flux};
ghost use Rattle.tb_model.specs.Mesh.{Mesh};
ghost use Rattle.tb_model.specs.Values.{flux_of};
ghost use Rattle.tb_walk.specs.Isolated.{IsSolidCell, IsSurface, MarkSolids, NoneIsolated};
ghost use Rattle.tb_outlets.specs.declared.marks.Mark.{Mark};
ghost use Rattle.tb_outlets.specs.declared.side.Side.{Side};
ghost use Rattle.tb_outlets.specs.Balancing.{IsOrder, balance_all, flow};
ghost use Rattle.tb_outlets.specs.Cycles.{IsOutward, out};
ghost use Rattle.tb_outlets.specs.Outlets.{AreDistances, AreOutlets, IsDistance, IsOutletOf, IsSolidAt};
ghost use Rattle.tb_outlets.specs.Repair.{IsCleared, IsCycle, IsRepaired, IsRepairedFlux, ListsSolids, flow_at};
ghost use Rattle.tb_outlets.specs.Searching.{IsSearch, distance_at};
ghost use Rattle.tb_outlets.specs.Sides.{face_of, kind_on};

/// A solid cell has one distance and one outlet at the most.
pub fn distances_and_outlets_are_one()
    ensures distance { (m : Mesh) (p : Place) (d e : ℕ) → IsDistance m p d → IsDistance m p e → d ≡ e }
    ensures outlet { (m : Mesh) (p : Place) (s t : Side) → IsSolidCell m p → IsOutletOf m p s → IsOutletOf m p t → s ≡ t }
{}

/// There is one repair at the most, and balancing the cells of an order makes one.
pub fn repair_is_one()
    ensures one { (m : Mesh) (given v w : List ℤ) (outlet : ℕ → Side) (distance : ℕ → ℕ) → AreOutlets m outlet → AreDistances m distance
        → IsRepaired m given v → IsRepaired m given w → v ≡ w }
    ensures made { (m : Mesh) (given start : List ℤ) (outlet : ℕ → Side) (order : List CellId) → AreOutlets m outlet → ListsSolids m order
        → IsOrder (face_of m.cells) outlet order → IsCleared m given start
        → IsRepaired m given (balance_all (face_of m.cells) outlet start order) }
{}

/// Among all fluxes of rational values there is one repaired flux at the most, and the repair of whole values is it.
pub fn repaired_flux_is_one()
    ensures one { (m : Mesh) (given q r : Flux) (outlet : ℕ → Side) (distance : ℕ → ℕ) → AreOutlets m outlet
        → AreDistances m distance → IsRepairedFlux m given q → IsRepairedFlux m given r
        → (a : AxisName) (p : Place) → IsFace m.cells a p → flow_at q a p ≡ flow_at r a p }
    ensures whole { (m : Mesh) (given values : List ℤ) → IsRepaired m given values
        → IsRepairedFlux m (flux_of m.cells given) (flux_of m.cells values) }
{}

/// The cycle of a Surface face that isn't a root: it is one, there is a way of outlets, and along it the cycle carries 1
/// out of each cell; elsewhere nothing flows.
pub fn cycle_is_one()
    ensures one { (m : Mesh) (outlet : ℕ → Side) (distance : ℕ → ℕ) (c : ℕ) (s : Side) (v w : List ℤ) → AreOutlets m outlet → AreDistances m distance
        → IsCycle m c s v → IsCycle m c s w → v ≡ w }
    ensures way { (m : Mesh) (outlet : ℕ → Side) (distance : ℕ → ℕ) (c : ℕ) → AreOutlets m outlet → AreDistances m distance → IsSolidAt m c
        → (es : List ℕ) × IsOutward (face_of m.cells) (IsSolidAt m) outlet c es }
    ensures values { (m : Mesh) (outlet : ℕ → Side) (distance : ℕ → ℕ) (c : ℕ) (s : Side) (es : List ℕ) → AreOutlets m outlet → AreDistances m distance
        → IsSolidAt m c → IsSurface (kind_on m s (cell_place m.cells c)) → s ≢ outlet c → IsOutward (face_of m.cells) (IsSolidAt m) outlet c es
        → (v : List ℤ) × IsCycle m c s v
        × (flow v (face_of m.cells c (outlet c)) ≡ out (outlet c))
        × ((d : ℕ) → Contains es d → flow v (face_of m.cells d (outlet d)) ≡ out (outlet d))
        × ((f : ℕ) → f ≢ face_of m.cells c s → f ≢ face_of m.cells c (outlet c) → ((d : ℕ) → Contains es d → f ≢ face_of m.cells d (outlet d))
        → flow v f ≡ pos 0) }
{}

/// Where the search is done, the marks are the distances, and the cells found, last first, can be balanced in turn.
pub fn search_finds()
    ensures distances { (m : Mesh) (flags : List Bool) (marks : List Mark) (order : List CellId) → MarkSolids m.cells m flags → NoneIsolated m
        → IsSearch m.cells flags (face_count m.cells) (length order) marks order → AreDistances m (distance_at marks) }
    ensures all { (m : Mesh) (flags : List Bool) (marks : List Mark) (order : List CellId) → MarkSolids m.cells m flags → NoneIsolated m
        → IsSearch m.cells flags (face_count m.cells) (length order) marks order → ListsSolids m (reverse order) }
    ensures order { (m : Mesh) (flags : List Bool) (marks : List Mark) (order : List CellId) (outlet : ℕ → Side) → MarkSolids m.cells m flags → NoneIsolated m
        → IsSearch m.cells flags (face_count m.cells) (length order) marks order → AreOutlets m outlet
        → IsOrder (face_of m.cells) outlet (reverse order) }
{}
