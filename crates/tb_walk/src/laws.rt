//! The laws of walks.
//!
//! Each law is the contract of a function that does nothing; the lemma behind a clause is in `proofs/`,
//! where crates above cite it.

ghost use Rattle.std.specs.Prelude.{◌≡◌, ◌↔◌, ℕ, List, Bool, Some};
ghost use Rattle.tb_places.specs.declared.Place.{Place};
ghost use Rattle.tb_places.specs.Places.{Counts, IsCell, place_at};
ghost use Rattle.tb_detail.specs.declared.Content.TheVariants.{Air};
ghost use Rattle.tb_model.specs.Faults.{IsSolid};
ghost use Rattle.tb_model.specs.Mesh.{Mesh};
ghost use Rattle.tb_walk.specs.Marks.{AllReachOpenings, HasOpening, IsFirstWithoutOpening, IsMarked, IsWithoutOpening};
ghost use Rattle.tb_walk.specs.Isolated.{HasSurface, IsFilled, IsFirstIsolated, IsIsolated, IsSolidCell, MarkSolids, NoneIsolated};

/// Where flags mark the solid cells of a mesh without empty cells, the openings of the marked cells are the surfaces
/// of the solid cells.
pub fn openings_are_surfaces()
    ensures opening { (n : Counts) (m : Mesh) (flags : List Bool) (p : Place) → MarkSolids n m flags → IsSolidCell m p
        → HasOpening n flags p ↔ HasSurface m p }
    ensures none { (n : Counts) (m : Mesh) (flags : List Bool) → MarkSolids n m flags
        → AllReachOpenings n flags ↔ NoneIsolated m }
    ensures first { (n : Counts) (m : Mesh) (flags : List Bool) (p : Place) → MarkSolids n m flags
        → IsFirstWithoutOpening n flags p ↔ IsFirstIsolated m p }
{}

/// The cells of a grid hang together. So where a marked cell reaches no opening, all cells are marked; where a solid
/// cell of a mesh without empty cells reaches no surface, there is no air, and the first such cell is that at the low
/// corner.
pub fn enclosed_cells_fill_the_grid()
    ensures marked { (n : Counts) (flags : List Bool) (p q : Place) → IsWithoutOpening n flags p
        → IsCell n q → IsMarked n flags q }
    ensures solid { (m : Mesh) (p q : Place) → IsFilled m → IsIsolated m p
        → IsCell m.cells q → IsSolid m q }
    ensures first { (m : Mesh) (p : Place) → IsFilled m → IsFirstIsolated m p → p ≡ place_at 0 0 0 }
{}

/// One air cell leads every solid part to a surface: in a mesh without empty cells that has one, no solid is isolated.
pub fn air_is_reached_from_everywhere()
    ensures { (m : Mesh) (q : Place) (environment rs : ℕ) → IsFilled m → IsCell m.cells q
        → m.occupant q.i q.j q.k ≡ Some (Air environment rs) → NoneIsolated m }
{}
