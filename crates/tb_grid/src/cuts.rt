//! What a cut of an axis does to numbers.
//!
//! Interval `p` of the axis `a` is cut in two, in a grid with the counts `n`. Along the axis the cells behind `p` move by
//! one place, and a cell at `p` becomes the cells at `p` and `p + 1`. The nodes and the faces across the axis above `p`
//! move by one place, and a new plane of them stands at `p + 1`. Faces and edges along the axis move as cells do.
//!
//! Each law is the contract of a function that does nothing, as in [`laws`](crate::laws).

ghost use Rattle.std.specs.Prelude.{◌≡◌, ◌≢◌, ◌⊎◌, ◌+◌, ◌<◌, ℕ};
ghost use Rattle.tb_places.specs.declared.AxisName.{AxisName};
ghost use Rattle.tb_places.specs.Along.{cell_stride};
ghost use Rattle.tb_places.specs.Cuts.{cut_counts, in_both, moved};
ghost use Rattle.tb_places.specs.Inverse.{cell_place, node_place, face_place, edge_place};
ghost use Rattle.tb_places.specs.Places.{Counts, cell_count, node_count, face_count, edge_count};
ghost use Rattle.tb_grid.specs.Cuts.{moved_place, moved_cell, moved_node, moved_face, moved_edge};
ghost use Rattle.tb_places.specs.Along.{ahead, index_along};
ghost use Rattle.tb_grid.specs.Direction.{low_face_of, high_face_of};

/// What is listed along an axis stands where its index has moved to, and the interval that is cut has it twice.
pub fn lists_move_at_a_cut()
    ensures moved { (p i : ℕ) (f : ℕ → ℕ) → in_both p f (moved p i) ≡ f i }
    ensures second { (p : ℕ) (f : ℕ → ℕ) → in_both p f (p + 1) ≡ f p }
{}

/// Each cell moves to a place of its own, and those that are cut have a second part one place further. There are no
/// other cells.
pub fn cells_move_at_a_cut()
    ensures within { (a : AxisName) (p : ℕ) (n : Counts) (c : ℕ) → c < cell_count n
        → moved_cell a p n c < cell_count (cut_counts a n) }
    ensures place { (a : AxisName) (p : ℕ) (n : Counts) (c : ℕ) → c < cell_count n
        → cell_place (cut_counts a n) (moved_cell a p n c) ≡ moved_place a p (cell_place n c) }
    ensures apart { (a : AxisName) (p : ℕ) (n : Counts) (c d : ℕ) → c < cell_count n → d < cell_count n
        → moved_cell a p n c ≡ moved_cell a p n d → c ≡ d }
    ensures second_part { (a : AxisName) (p : ℕ) (n : Counts) (c : ℕ) → c < cell_count n → index_along a (cell_place n c) ≡ p
        → cell_place (cut_counts a n) (moved_cell a p n c + cell_stride (cut_counts a n) a) ≡ ahead a 1 (cell_place n c) }
    ensures all { (a : AxisName) (p : ℕ) (n : Counts) (d : ℕ) → p < n a → d < cell_count (cut_counts a n)
        → (index_along a (cell_place (cut_counts a n) d) ≡ p + 1) ⊎ ((c : ℕ) × (c < cell_count n) × (moved_cell a p n c ≡ d)) }
{}

/// Each node moves to a place of its own, and the others are those of the new plane.
pub fn nodes_move_at_a_cut()
    ensures within { (a : AxisName) (p : ℕ) (n : Counts) (m : ℕ) → m < node_count n
        → moved_node a p n m < node_count (cut_counts a n) }
    ensures place { (a : AxisName) (p : ℕ) (n : Counts) (m : ℕ) → m < node_count n
        → node_place (cut_counts a n) (moved_node a p n m) ≡ moved_place a p (node_place n m) }
    ensures apart { (a : AxisName) (p : ℕ) (n : Counts) (m d : ℕ) → m < node_count n → d < node_count n
        → moved_node a p n m ≡ moved_node a p n d → m ≡ d }
    ensures all { (a : AxisName) (p : ℕ) (n : Counts) (d : ℕ) → p < n a → d < node_count (cut_counts a n)
        → (index_along a (node_place (cut_counts a n) d) ≡ p + 1) ⊎ ((m : ℕ) × (m < node_count n) × (moved_node a p n m ≡ d)) }
{}

/// Each face keeps its axis and moves to a place of its own. The others are those of the new plane, across the axis of
/// the cut, and the second parts of faces along it.
pub fn faces_move_at_a_cut()
    ensures within { (a : AxisName) (p : ℕ) (n : Counts) (f : ℕ) → f < face_count n
        → moved_face a p n f < face_count (cut_counts a n) }
    ensures place { (a : AxisName) (p : ℕ) (n : Counts) (f : ℕ) → f < face_count n
        → face_place (cut_counts a n) (moved_face a p n f)
        ≡ record { axis = (face_place n f).axis; place = moved_place a p (face_place n f).place } }
    ensures apart { (a : AxisName) (p : ℕ) (n : Counts) (f d : ℕ) → f < face_count n → d < face_count n
        → moved_face a p n f ≡ moved_face a p n d → f ≡ d }
    ensures all { (a : AxisName) (p : ℕ) (n : Counts) (d : ℕ) → p < n a → d < face_count (cut_counts a n)
        → (index_along a (face_place (cut_counts a n) d).place ≡ p + 1) ⊎ ((f : ℕ) × (f < face_count n) × (moved_face a p n f ≡ d)) }
{}

/// Each edge moves to a place of its own. The others are those of the new plane and the second parts of edges along the
/// axis of the cut.
pub fn edges_move_at_a_cut()
    ensures within { (a : AxisName) (p : ℕ) (n : Counts) (b : AxisName) (e : ℕ) → e < edge_count n b
        → moved_edge a p n b e < edge_count (cut_counts a n) b }
    ensures place { (a : AxisName) (p : ℕ) (n : Counts) (b : AxisName) (e : ℕ) → e < edge_count n b
        → edge_place (cut_counts a n) b (moved_edge a p n b e) ≡ moved_place a p (edge_place n b e) }
    ensures apart { (a : AxisName) (p : ℕ) (n : Counts) (b : AxisName) (e d : ℕ) → e < edge_count n b → d < edge_count n b
        → moved_edge a p n b e ≡ moved_edge a p n b d → e ≡ d }
    ensures all { (a : AxisName) (p : ℕ) (n : Counts) (b : AxisName) (d : ℕ) → p < n a → d < edge_count (cut_counts a n) b
        → (index_along a (edge_place (cut_counts a n) b d) ≡ p + 1)
        ⊎ ((e : ℕ) × (e < edge_count n b) × (moved_edge a p n b e ≡ d)) }
{}

/// A cell's faces move with it. Of a cell that is cut, the first part has the low face across the axis and the second
/// part the high one, and a new face lies between the two.
pub fn faces_move_with_their_cells()
    ensures low_face { (a : AxisName) (p : ℕ) (n : Counts) (b : AxisName) (c : ℕ) → c < cell_count n
        → low_face_of (cut_counts a n) b (moved_cell a p n c) ≡ moved_face a p n (low_face_of n b c) }
    ensures high_face_along { (a : AxisName) (p : ℕ) (n : Counts) (b : AxisName) (c : ℕ) → c < cell_count n → b ≢ a
        → high_face_of (cut_counts a n) b (moved_cell a p n c) ≡ moved_face a p n (high_face_of n b c) }
    ensures high_face_across { (a : AxisName) (p : ℕ) (n : Counts) (c : ℕ) → c < cell_count n → index_along a (cell_place n c) ≢ p
        → high_face_of (cut_counts a n) a (moved_cell a p n c) ≡ moved_face a p n (high_face_of n a c) }
    ensures second_part { (a : AxisName) (p : ℕ) (n : Counts) (c : ℕ) → c < cell_count n → index_along a (cell_place n c) ≡ p
        → high_face_of (cut_counts a n) a (moved_cell a p n c + cell_stride (cut_counts a n) a) ≡ moved_face a p n (high_face_of n a c) }
    ensures between { (a : AxisName) (p : ℕ) (n : Counts) (c : ℕ) → c < cell_count n → index_along a (cell_place n c) ≡ p
        → high_face_of (cut_counts a n) a (moved_cell a p n c)
        ≡ low_face_of (cut_counts a n) a (moved_cell a p n c + cell_stride (cut_counts a n) a) }
{}
