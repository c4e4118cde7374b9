//! The laws of moves: each is the contract of a function that does nothing.
ghost use Rattle.std.specs.Prelude.{◌≡◌, ℕ, ℤ, Bool, List, pos, ◌≤ℤ◌};
ghost use Rattle.tb_places.specs.declared.AxisName.{AxisName};
ghost use Rattle.tb_places.specs.declared.Place.{Place};
ghost use Rattle.tb_places.specs.Places.{IsFace, place_at};
ghost use Rattle.tb_model.specs.Mesh.{Mesh, kind_at};
ghost use Rattle.tb_model.specs.Energy.{Case};
ghost use Rattle.tb_model.specs.Values.{field_of};
ghost use Rattle.tb_weighted.specs.Forms.{Forms, form_energy};
ghost use Rattle.tb_weighted.specs.Least.{IsNearestLeast, parabola};
ghost use Rattle.tb_weighted.specs.FlowMoves.{IsFlowMove, IsFlowMoveBy, counts_as, loop_where};
ghost use Rattle.tb_weighted.specs.Limits.{InField, IsFlux};
ghost use Rattle.tb_weighted.specs.Moves.{Flows, IsLoopMove, IsNodeMove, value_at, whole_flux};
ghost use Rattle.tb_weighted.specs.Flows.{FlowForms, flow_energy, flows_of};
ghost use Rattle.tb_weighted.specs.OnMesh.{IsFormOf, IsFlowFormOf};
ghost use Rattle.tb_weighted.specs.Forms.{IsFormMove, values_of};
ghost use Rattle.tb_weighted.specs.Weighted.{weighted_field, weighted_flux};

/// A form with the weights of a mesh has the weighted energy of each field on the mesh, and its moves are the moves
/// of nodes.
pub fn forms_are_energies()
    ensures energy { (m : Mesh) (inside : Case) (f : Forms) (values : List ℤ) → IsFormOf m inside f
        → form_energy f (values_of f.cells values) ≡ weighted_field m inside (field_of m.cells values) }
    ensures moves { (m : Mesh) (inside : Case) (f : Forms) (node : ℕ) (old new : List ℤ) → IsFormOf m inside f
        → IsFormMove f node old new → IsNodeMove m inside node old new }
{}

/// Of a parabola that opens upwards there is one nearest least place.
pub fn one_nearest_least()
    ensures { (a b lo hi p x y : ℤ) → pos 0 ≤ℤ a → lo ≤ℤ p → p ≤ℤ hi → IsNearestLeast (parabola a b) lo hi p x
        → IsNearestLeast (parabola a b) lo hi p y → x ≡ y }
{}

/// The same of a flux: a form of flows with the weights of a mesh has the weighted energy of each whole flux, and its
/// moves round an edge, where the faces count that aren't idle, are the moves of loops.
pub fn flow_forms_are_energies()
    ensures energy { (m : Mesh) (inside : Case) (f : FlowForms) (q : Flows) → IsFlowFormOf m inside f
        → flow_energy f q ≡ weighted_flux m inside (whole_flux q) }
    ensures moves { (m : Mesh) (inside : Case) (f : FlowForms) (counts : AxisName → ℕ → ℕ → ℕ → Bool) (axis : AxisName) (e : Place) (old new : List ℤ)
        → IsFlowFormOf m inside f → ((a : AxisName) (i j k : ℕ) → IsFace m.cells a (place_at i j k) → counts a i j k ≡ counts_as (kind_at m a (place_at i j k)))
        → IsFlowMove f (loop_where counts axis e) old new → IsLoopMove m inside axis e old new }
{}

/// A move of a flux keeps the limits, and it is by a multiple other than 0 where it changes the flux.
pub fn flow_moves_keep()
    ensures limits { (f : FlowForms) (change : Flows) (t : ℤ) (old new : List ℤ) → IsFlowMoveBy f change t old new → IsFlux f.cells old → IsFlux f.cells new }
    ensures changes { (f : FlowForms) (change : Flows) (t : ℤ) (old new : List ℤ) → IsFlowMoveBy f change t old new → IsFlux f.cells old → new ≡ old → t ≡ pos 0 }
{}

/// A move raises no weighted energy: that of a node not the field's, that of a loop not the flux's.
pub fn moves_raise_nothing()
    ensures node { (m : Mesh) (inside : Case) (node : ℕ) (old new : List ℤ) → IsNodeMove m inside node old new → InField (value_at old node)
        → weighted_field m inside (field_of m.cells new) ≤ℤ weighted_field m inside (field_of m.cells old) }
    ensures edge { (m : Mesh) (inside : Case) (axis : AxisName) (e : Place) (old new : List ℤ) → IsLoopMove m inside axis e old new → IsFlux m.cells old
        → weighted_flux m inside (whole_flux (flows_of m.cells new)) ≤ℤ weighted_flux m inside (whole_flux (flows_of m.cells old)) }
{}
