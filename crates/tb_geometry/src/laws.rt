//! The laws of bodies.
//!
//! Each law is the contract of a function that does nothing; the lemma behind a clause is in `proofs/`, where
//! crates above cite it.

ghost use Rattle.std.specs.Prelude.{◌≡◌, ◌⊎◌, ◌↔◌, ◌≤◌, ℕ, List, Result, Contains, ◌+◌, ◌-◌, ◌^◌, ◌<◌, not};
ghost use Rattle.std.specs.List.{sum_by};
ghost use Rattle.tb_places.specs.declared.AxisName.{AxisName};
ghost use Rattle.tb_places.specs.declared.Place.{Place};
ghost use Rattle.tb_places.specs.Places.{IsCell};
ghost use Rattle.tb_detail.specs.declared.Detail.{Detail};
ghost use Rattle.tb_detail.specs.declared.SpaceBox.{SpaceBox};
ghost use Rattle.tb_detail.specs.Limits.{InLimits};
ghost use Rattle.tb_grid.specs.Axis.{AreLinesThrough};
ghost use Rattle.tb_grid.specs.Grid.{Axes, counts_of};
ghost use Rattle.tb_geometry.specs.declared.fault.BodyFault.{BodyFault};
ghost use Rattle.tb_geometry.specs.declared.fault.BodyRefusal.{BodyRefusal};
ghost use Rattle.tb_geometry.specs.declared.fault.BodyRefusal.TheVariants.{Fault, NoMemory};
ghost use Rattle.tb_geometry.specs.Base.{HasCube, IsBaseCell, IsFilledBy, base_axes, base_lines, base_mesh, coordinates};
ghost use Rattle.tb_geometry.specs.Cubes.{AreApart, HoldsCube, IsInHull, IsCovered};
ghost use Rattle.tb_geometry.specs.Cases.{is_case};
ghost use Rattle.tb_geometry.specs.Volumes.{IsHull, box_volume, volume};
ghost use Rattle.tb_geometry.specs.Faults.{Answers, HasFault, IsAccepted};
ghost use Rattle.tb_geometry.specs.Grids.{CarriesBody, IsInBox};

/// The base lines of an axis are the lines through all coordinates of boxes, and no other list is.
pub fn base_lines_are_the_coordinates()
    ensures through { (a : AxisName) (boxes : List SpaceBox) → AreLinesThrough (coordinates a boxes) (base_lines a boxes) }
    ensures unique { (a : AxisName) (boxes : List SpaceBox) (lines : List ℕ) → AreLinesThrough (coordinates a boxes) lines
        → lines ≡ base_lines a boxes }
{}

/// A box holds all cubes of a base cell or none.
pub fn boxes_hold_base_cells_whole()
    ensures { (boxes : List SpaceBox) (b : SpaceBox) (p : Place) (x y z u v w : ℕ) → Contains boxes b
        → HasCube boxes p x y z → HasCube boxes p u v w → HoldsCube b x y z → HoldsCube b u v w }
{}

/// The base cells divide the hull: each cube of the hull is in one of them, and no other cube is.
pub fn base_cells_divide_the_hull()
    ensures in_one { (boxes : List SpaceBox) (x y z : ℕ) → IsInHull boxes x y z → (p : Place) × HasCube boxes p x y z }
    ensures apart { (boxes : List SpaceBox) (p q : Place) (x y z : ℕ) → HasCube boxes p x y z → HasCube boxes q x y z
        → p ≡ q }
    ensures inside { (d : Detail) (p : Place) (x y z : ℕ) → InLimits d → HasCube d.boxes p x y z
        → IsInHull d.boxes x y z }
{}

/// Where no two boxes share a cube, a base cell is filled with what fills the box that holds one of its cubes. In an
/// accepted body there is such a box for each base cell.
pub fn base_cells_are_filled_as_their_cubes()
    ensures accepted { (d : Detail) (p : Place) → InLimits d → IsAccepted d → IsBaseCell d.boxes p → IsFilledBy d p }
    ensures filled { (d : Detail) (b : SpaceBox) (p : Place) (x y z : ℕ) → AreApart d.boxes → Contains d.boxes b
        → HasCube d.boxes p x y z → HoldsCube b x y z → (base_mesh d).occupant p.i p.j p.k ≡ Some b.content }
{}

/// A detail within limits has one fault at most, and none where it is accepted. So it has one answer, except for
/// want of memory.
pub fn there_is_one_answer()
    ensures one_fault { (d : Detail) (fault other : BodyFault) → InLimits d → HasFault d fault → HasFault d other
        → fault ≡ other }
    ensures none_if_accepted { (d : Detail) (fault : BodyFault) → InLimits d → IsAccepted d → ¬ HasFault d fault }
    ensures accepted { (d : Detail) (result : Result Detail BodyRefusal) → InLimits d → IsAccepted d → Answers d result
        → (result ≡ Ok d) ⊎ (result ≡ Err NoMemory) }
    ensures refused { (d : Detail) (fault : BodyFault) (result : Result Detail BodyRefusal) → InLimits d → HasFault d fault
        → Answers d result → (result ≡ Err (Fault fault)) ⊎ (result ≡ Err NoMemory) }
{}

/// The base grid carries the body: it is a refinement of it.
pub fn the_base_grid_carries_the_body()
    ensures { (d : Detail) → InLimits d → CarriesBody (base_axes d.boxes) d }
{}

/// Each cell of a grid that carries an accepted body lies in one box, which fills it.
pub fn cells_lie_in_boxes()
    ensures { (d : Detail) (g : Axes) (p : Place) → IsAccepted d → CarriesBody g d → IsCell (counts_of g) p
        → IsInBox d g p }
{}

/// Each list of boxes has a hull.
pub fn boxes_have_a_hull()
    ensures { (boxes : List SpaceBox) → (lo hi : AxisName → ℕ) × IsHull boxes lo hi }
{}

/// The volumes of boxes that share no cube add up to the volume of their hull at the most, and to all of it
/// exactly where the boxes cover the hull.
pub fn volumes_tell_covers()
    ensures at_most { (boxes : List SpaceBox) (lo hi : AxisName → ℕ) → IsHull boxes lo hi → AreApart boxes
        → sum_by box_volume boxes ≤ volume lo hi }
    ensures exactly { (boxes : List SpaceBox) (lo hi : AxisName → ℕ) → IsHull boxes lo hi → AreApart boxes
        → (IsCovered boxes ↔ sum_by box_volume boxes ≡ volume lo hi) }
{}

/// Of each set of environments and the set of all others, just one is a case, where neither is empty.
pub fn each_set_is_a_case_or_faces_one()
    ensures { (environments mask : ℕ) → 2 ≤ environments → environments ≤ 4 → 0 < mask → mask + 1 < 2 ^ environments
        → is_case environments mask ≡ not (is_case environments (2 ^ environments - 1 - mask)) }
{}
