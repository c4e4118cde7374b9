//! The laws of balance.
//!
//! Each law is the contract of a function that does nothing; the lemma behind a clause is in `proofs/`.

ghost use Rattle.std.specs.Prelude.{◌≡◌, ◌↔◌, ℕ, List, ℤ, pos, slice_index_or};
ghost use Rattle.tb_math.specs.Rational.{int};
ghost use Rattle.tb_places.specs.declared.AxisName.{AxisName};
ghost use Rattle.tb_places.specs.declared.Place.{Place};
ghost use Rattle.tb_places.specs.Places.{face_number};
ghost use Rattle.tb_grid.specs.Grid.{Axes, counts_of};
ghost use Rattle.tb_model.specs.Energy.{Flux, IsBalanced};
ghost use Rattle.tb_model.specs.Mesh.{Mesh};
ghost use Rattle.tb_flux.specs.Fluxes.{KeepsHeat, ShutsOff, flux_on};

/// The flux that values stand for has through each face the flow of the face's number.
pub fn fluxes_have_their_values()
    ensures { (g : Axes) (values : List ℤ) (a : AxisName) (p : Place)
        → flux_on g values a p.i p.j p.k ≡ int (slice_index_or values (face_number (counts_of g) a p) (pos 0)) }
{}

/// A flux is balanced exactly where nothing passes an adiabatic face and nothing is lost in a solid cell, place by
/// place.
pub fn balance_has_two_parts()
    ensures { (m : Mesh) (q : Flux) → IsBalanced m q ↔ (ShutsOff m q × KeepsHeat m q) }
{}
