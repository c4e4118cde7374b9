//! The laws of lines and of directions.
//!
//! Each law is the contract of a function that does nothing; the lemma behind a clause is in `proofs/`,
//! where crates above cite it. What the calls of a [`Direction`](crate::Direction) answer is said in the
//! words of these laws, so they hold of the answers, along x, y and z.

ghost use Rattle.std.specs.Prelude.{◌≡◌, ◌+◌, ◌*◌, ◌<◌, ℕ, List};
ghost use Rattle.tb_places.specs.declared.AxisName.{AxisName};
ghost use Rattle.tb_places.specs.Along.{cell_stride, face_stride, node_stride};
ghost use Rattle.tb_places.specs.declared.Place.{Place};
ghost use Rattle.tb_places.specs.Inverse.{cell_place};
ghost use Rattle.tb_places.specs.Places.{Counts, IsEdge, cell_count, node_count, second, third};
ghost use Rattle.tb_grid.specs.Axis.{AreLinesThrough};
ghost use Rattle.tb_grid.specs.Direction.{IsEdgeOf, area_of, edge_of, high_end_of, high_face_of, low_end_of, low_face_of, width_of};
ghost use Rattle.tb_places.specs.Along.{ahead, index_along};
ghost use Rattle.tb_grid.specs.Grid.{Axes};

/// There is one list of lines through coordinates.
pub fn lines_are_unique()
    ensures { (coordinates lines others : List ℕ) → AreLinesThrough coordinates lines → AreLinesThrough coordinates others
        → lines ≡ others }
{}

/// A cell's high face across an axis is the low face of the next cell along it. Cells, and the faces across an
/// axis, follow one another along it at an even stride.
pub fn next_cells_share_a_face()
    ensures next_cell { (n : Counts) (a : AxisName) (c : ℕ) → c < cell_count n → index_along a (cell_place n c) + 1 < n a
        → c + cell_stride n a < cell_count n }
    ensures next_place { (n : Counts) (a : AxisName) (c : ℕ) → c < cell_count n → index_along a (cell_place n c) + 1 < n a
        → cell_place n (c + cell_stride n a) ≡ ahead a 1 (cell_place n c) }
    ensures shared { (n : Counts) (a : AxisName) (c : ℕ) → c < cell_count n → index_along a (cell_place n c) + 1 < n a
        → high_face_of n a c ≡ low_face_of n a (c + cell_stride n a) }
    ensures stride { (n : Counts) (a : AxisName) (c : ℕ) → high_face_of n a c ≡ low_face_of n a c + face_stride n a a }
{}

/// The four corners of a cell are its four edges along an axis, each once, and each goes from the lower node to
/// the higher.
pub fn corners_are_the_edges_of_a_cell()
    ensures edges { (n : Counts) (a : AxisName) (c corner : ℕ) → c < cell_count n → corner < 4
        → IsEdge n a (edge_of n a c corner) }
    ensures of_the_cell { (n : Counts) (a : AxisName) (c corner : ℕ) → corner < 4
        → IsEdgeOf a (cell_place n c) (edge_of n a c corner) }
    ensures all { (n : Counts) (a : AxisName) (c : ℕ) (e : Place) → IsEdgeOf a (cell_place n c) e
        → (corner : ℕ) × (corner < 4) × (edge_of n a c corner ≡ e) }
    ensures apart { (n : Counts) (a : AxisName) (c corner other : ℕ)
        → edge_of n a c corner ≡ edge_of n a c other → corner ≡ other }
    ensures low_end { (n : Counts) (a : AxisName) (c corner : ℕ) → c < cell_count n → corner < 4
        → low_end_of n a c corner < node_count n }
    ensures high_end { (n : Counts) (a : AxisName) (c corner : ℕ) → c < cell_count n → corner < 4
        → high_end_of n a c corner < node_count n }
    ensures rising { (n : Counts) (a : AxisName) (c corner : ℕ)
        → high_end_of n a c corner ≡ low_end_of n a c corner + node_stride n a }
{}

/// The volume of a cell is its width times its cross-section, along each axis the same.
pub fn volumes_agree()
    ensures { (g : Axes) (a b : AxisName) (p : Place) → width_of g a p * area_of g a p ≡ width_of g b p * area_of g b p }
{}
