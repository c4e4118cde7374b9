//! The laws of places and numbers.
//!
//! Each law is the contract of a function that does nothing; the lemma behind a clause is in `proofs/`,
//! where crates above cite it. The counts range over all grids, also those that lack cells, unless a
//! clause asks for a cell along each axis.

ghost use Rattle.std.specs.Prelude.{◌≡◌, ◌↔◌, ◌+◌, ◌*◌, ◌<◌, ◌≤◌, ℕ};
ghost use Rattle.tb_places.specs.declared.AxisName.{AxisName};
ghost use Rattle.tb_places.specs.declared.AxisName.TheVariants.{X, Y, Z};
ghost use Rattle.tb_places.specs.declared.FacePlace.{FacePlace};
ghost use Rattle.tb_places.specs.declared.Place.{Place};
ghost use Rattle.tb_places.specs.Along.{ahead, index_along, place_along, cell_stride, node_stride, face_stride, edge_stride};
ghost use Rattle.tb_places.specs.Inverse.{cell_place, node_place, face_place, edge_place};
ghost use Rattle.tb_places.specs.Places.{Counts, along, place_at, second, third};
ghost use Rattle.tb_places.specs.Places.{IsCell, cell_count, cell_number};
ghost use Rattle.tb_places.specs.Places.{IsNode, node_count, node_number};
ghost use Rattle.tb_places.specs.Places.{IsFace, faces_a_layer, face_count, face_number};
ghost use Rattle.tb_places.specs.Places.{IsEdge, edge_count, edge_number};

/// The cells are numbered from 0 up to their count: each cell has a number of its own, and each number a cell.
pub fn cells_are_numbered()
    ensures below { (n : Counts) (p : Place) → IsCell n p → cell_number n p < cell_count n }
    ensures apart { (n : Counts) (p q : Place) → IsCell n p → IsCell n q → cell_number n p ≡ cell_number n q → p ≡ q }
    ensures place_of_number { (n : Counts) (p : Place) → IsCell n p → cell_place n (cell_number n p) ≡ p }
    ensures number_of_place { (n : Counts) (c : ℕ) → cell_number n (cell_place n c) ≡ c }
    ensures within { (n : Counts) (c : ℕ) → c < cell_count n → IsCell n (cell_place n c) }
{}

/// The nodes are numbered from 0 up to their count: each node has a number of its own, and each number a node.
pub fn nodes_are_numbered()
    ensures below { (n : Counts) (p : Place) → IsNode n p → node_number n p < node_count n }
    ensures apart { (n : Counts) (p q : Place) → IsNode n p → IsNode n q → node_number n p ≡ node_number n q → p ≡ q }
    ensures place_of_number { (n : Counts) (p : Place) → IsNode n p → node_place n (node_number n p) ≡ p }
    ensures number_of_place { (n : Counts) (m : ℕ) → node_number n (node_place n m) ≡ m }
    ensures within { (n : Counts) (m : ℕ) → m < node_count n → IsNode n (node_place n m) }
{}

/// The faces of the three axes together are numbered from 0 up to their count: each face has a number of its
/// own, and each number a face.
pub fn faces_are_numbered()
    ensures below { (n : Counts) (a : AxisName) (p : Place) → IsFace n a p → face_number n a p < face_count n }
    ensures apart { (n : Counts) (a b : AxisName) (p q : Place) → IsFace n a p → IsFace n b q
        → face_number n a p ≡ face_number n b q → (a ≡ b) × (p ≡ q) }
    ensures place_of_number { (n : Counts) (f : FacePlace) → IsFace n f.axis f.place
        → face_place n (face_number n f.axis f.place) ≡ f }
    ensures number_of_place { (n : Counts) (f : ℕ) → f < face_count n
        → let t = face_place n f in face_number n t.axis t.place ≡ f }
    ensures within { (n : Counts) (f : ℕ) → f < face_count n → let t = face_place n f in IsFace n t.axis t.place }
{}

/// The edges along each axis are numbered from 0 up to their count: each such edge has a number of its own,
/// and each number an edge.
pub fn edges_are_numbered()
    ensures below { (n : Counts) (a : AxisName) (p : Place) → IsEdge n a p → edge_number n a p < edge_count n a }
    ensures apart { (n : Counts) (a : AxisName) (p q : Place) → IsEdge n a p → IsEdge n a q
        → edge_number n a p ≡ edge_number n a q → p ≡ q }
    ensures place_of_number { (n : Counts) (a : AxisName) (p : Place) → IsEdge n a p
        → edge_place n a (edge_number n a p) ≡ p }
    ensures number_of_place { (n : Counts) (a : AxisName) (e : ℕ) → edge_number n a (edge_place n a e) ≡ e }
    ensures within { (n : Counts) (a : AxisName) (e : ℕ) → e < edge_count n a → IsEdge n a (edge_place n a e) }
{}

/// The number of the next cell, node, face or edge along an axis is one stride further. So the high face of a
/// cell is the low face of the next cell, and its number is the low face's and a stride. Steps of cells and of
/// nodes add up: the corners of all cells lie at the same distances from their first.
pub fn numbers_step_along_an_axis()
    ensures cells { (n : Counts) (a : AxisName) (p : Place)
        → cell_number n (ahead a 1 p) ≡ cell_number n p + cell_stride n a }
    ensures nodes { (n : Counts) (a : AxisName) (p : Place)
        → node_number n (ahead a 1 p) ≡ node_number n p + node_stride n a }
    ensures faces { (n : Counts) (a b : AxisName) (p : Place)
        → face_number n a (ahead b 1 p) ≡ face_number n a p + face_stride n a b }
    ensures edges { (n : Counts) (a b : AxisName) (p : Place)
        → edge_number n a (ahead b 1 p) ≡ edge_number n a p + edge_stride n a b }
    ensures cells_at_once { (n : Counts) (p q : Place)
        → cell_number n (place_at (p.i + q.i) (p.j + q.j) (p.k + q.k)) ≡ cell_number n p + cell_number n q }
    ensures nodes_at_once { (n : Counts) (p q : Place)
        → node_number n (place_at (p.i + q.i) (p.j + q.j) (p.k + q.k)) ≡ node_number n p + node_number n q }
{}

/// What a place is, said once for all three axes: the index along the axis first, and the other two in order.
pub fn places_stand_along_an_axis()
    ensures numbers { (a : AxisName) (f : ℕ → ℕ → ℕ → ℕ) (i j k : ℕ)
        → let p = place_along a i j k in along a f i j k ≡ f p.i p.j p.k }
    ensures index { (a : AxisName) (i j k : ℕ) → index_along a (place_along a i j k) ≡ i }
    ensures second_index { (a : AxisName) (i j k : ℕ) → index_along (second a) (place_along a i j k) ≡ j }
    ensures third_index { (a : AxisName) (i j k : ℕ) → index_along (third a) (place_along a i j k) ≡ k }
    ensures every { (a : AxisName) (p : Place)
        → place_along a (index_along a p) (index_along (second a) p) (index_along (third a) p) ≡ p }
    ensures further { (a : AxisName) (by i j k : ℕ) → ahead a by (place_along a i j k) ≡ place_along a (i + by) j k }
    ensures cells { (n : Counts) (a : AxisName) (i j k : ℕ)
        → IsCell n (place_along a i j k) ↔ ((i < n a) × (j < n (second a)) × (k < n (third a))) }
    ensures nodes { (n : Counts) (a : AxisName) (i j k : ℕ)
        → IsNode n (place_along a i j k) ↔ ((i ≤ n a) × (j ≤ n (second a)) × (k ≤ n (third a))) }
    ensures faces { (n : Counts) (a : AxisName) (i j k : ℕ)
        → IsFace n a (place_along a i j k) ↔ ((i ≤ n a) × (j < n (second a)) × (k < n (third a))) }
    ensures edges { (n : Counts) (a : AxisName) (i j k : ℕ)
        → IsEdge n a (place_along a i j k) ↔ ((i < n a) × (j ≤ n (second a)) × (k ≤ n (third a))) }
    ensures second_faces { (n : Counts) (a : AxisName) (i j k : ℕ)
        → IsFace n (second a) (place_along a i j k) ↔ ((i < n a) × (j ≤ n (second a)) × (k < n (third a))) }
    ensures third_faces { (n : Counts) (a : AxisName) (i j k : ℕ)
        → IsFace n (third a) (place_along a i j k) ↔ ((i < n a) × (j < n (second a)) × (k ≤ n (third a))) }
{}

/// A cell has a low and a high face across each axis, four edges along each axis and eight corners, and an
/// edge has two ends. A face lies between the cell below it and the cell above it, as far as the grid goes.
pub fn places_meet()
    ensures low_face { (n : Counts) (a : AxisName) (p : Place) → IsCell n p → IsFace n a p }
    ensures high_face { (n : Counts) (a : AxisName) (p : Place) → IsCell n p → IsFace n a (ahead a 1 p) }
    ensures cell_above { (n : Counts) (a : AxisName) (p : Place) → IsFace n a p → index_along a p < n a → IsCell n p }
    ensures cell_below { (n : Counts) (a : AxisName) (p : Place) → IsFace n a (ahead a 1 p) → IsCell n p }
    ensures corners { (n : Counts) (p : Place) (x y z : ℕ) → IsCell n p → x ≤ 1 → y ≤ 1 → z ≤ 1
        → IsNode n (place_at (p.i + x) (p.j + y) (p.k + z)) }
    ensures edges { (n : Counts) (a : AxisName) (p : Place) (q r : ℕ) → IsCell n p → q ≤ 1 → r ≤ 1
        → IsEdge n a (ahead (second a) q (ahead (third a) r p)) }
    ensures ends { (n : Counts) (a : AxisName) (p : Place) (by : ℕ) → IsEdge n a p → by ≤ 1 → IsNode n (ahead a by p) }
{}

/// Four cells and four faces stand round an edge that is inside the hull: one whose two lines, `j + 1` and
/// `k + 1` of the two other axes, are neither the first nor the last.
pub fn inner_edges_are_surrounded()
    ensures cells { (n : Counts) (a : AxisName) (i j k q r : ℕ)
        → i < n a → j + 1 < n (second a) → k + 1 < n (third a) → q ≤ 1 → r ≤ 1
        → IsCell n (place_along a i (j + q) (k + r)) }
    ensures second_faces { (n : Counts) (a : AxisName) (i j k r : ℕ)
        → i < n a → j + 1 < n (second a) → k + 1 < n (third a) → r ≤ 1
        → IsFace n (second a) (place_along a i (j + 1) (k + r)) }
    ensures third_faces { (n : Counts) (a : AxisName) (i j k q : ℕ)
        → i < n a → j + 1 < n (second a) → k + 1 < n (third a) → q ≤ 1
        → IsFace n (third a) (place_along a i (j + q) (k + 1)) }
{}

/// In a grid with a cell along each axis the counts are small multiples of the number of cells. So where there
/// are at most 262,144 cells, there are at most 2,097,152 nodes and 1,572,864 faces.
pub fn counts_are_bounded()
    ensures lengths { (n : Counts) (a : AxisName) → ((b : AxisName) → 0 < n b) → n a ≤ cell_count n }
    ensures nodes { (n : Counts) → ((a : AxisName) → 0 < n a) → node_count n ≤ 8 * cell_count n }
    ensures faces { (n : Counts) → ((a : AxisName) → 0 < n a) → face_count n ≤ 6 * cell_count n }
    ensures edges { (n : Counts) (a : AxisName) → ((b : AxisName) → 0 < n b) → edge_count n a ≤ 4 * cell_count n }
    ensures layers { (n : Counts) → 0 < n Z → faces_a_layer n ≤ face_count n }
{}

/// The counts agree with one another: the faces are those across x, y and z, and nodes and faces together are
/// one more than edges and cells, as Euler's formula says of a box.
pub fn counts_agree()
    ensures faces { (n : Counts)
        → face_count n
        ≡ (n X + 1) * (n Y * n Z) + n X * ((n Y + 1) * n Z) + n X * (n Y * (n Z + 1)) }
    ensures euler { (n : Counts)
        → node_count n + face_count n
        ≡ edge_count n X + edge_count n Y + edge_count n Z + cell_count n + 1 }
{}

/// A list in index order is written row after row: where the numbers of one row, layer or axis end, those of
/// the next begin, and the last ends at the count. In a layer of faces the x-faces follow the z-faces, and the
/// y-faces the x-faces.
pub fn numbers_run_on()
    ensures cell_rows { (n : Counts) (j k : ℕ) → cell_number n (place_at (n X) j k) ≡ cell_number n (place_at 0 (j + 1) k) }
    ensures cell_layers { (n : Counts) (k : ℕ) → cell_number n (place_at 0 (n Y) k) ≡ cell_number n (place_at 0 0 (k + 1)) }
    ensures cell_end { (n : Counts) → cell_number n (place_at 0 0 (n Z)) ≡ cell_count n }
    ensures node_rows { (n : Counts) (j k : ℕ) → node_number n (place_at (n X + 1) j k) ≡ node_number n (place_at 0 (j + 1) k) }
    ensures node_layers { (n : Counts) (k : ℕ) → node_number n (place_at 0 (n Y + 1) k) ≡ node_number n (place_at 0 0 (k + 1)) }
    ensures node_end { (n : Counts) → node_number n (place_at 0 0 (n Z + 1)) ≡ node_count n }
    ensures z_face_rows { (n : Counts) (j k : ℕ) → face_number n Z (place_at (n X) j k) ≡ face_number n Z (place_at 0 (j + 1) k) }
    ensures x_face_rows { (n : Counts) (j k : ℕ) → face_number n X (place_at (n X + 1) j k) ≡ face_number n X (place_at 0 (j + 1) k) }
    ensures y_face_rows { (n : Counts) (j k : ℕ) → face_number n Y (place_at (n X) j k) ≡ face_number n Y (place_at 0 (j + 1) k) }
    ensures z_faces_end { (n : Counts) (k : ℕ) → face_number n Z (place_at 0 (n Y) k) ≡ face_number n X (place_at 0 0 k) }
    ensures x_faces_end { (n : Counts) (k : ℕ) → face_number n X (place_at 0 (n Y) k) ≡ face_number n Y (place_at 0 0 k) }
    ensures y_faces_end { (n : Counts) (k : ℕ) → face_number n Y (place_at 0 (n Y + 1) k) ≡ face_number n Z (place_at 0 0 (k + 1)) }
    ensures face_end { (n : Counts) → face_number n Z (place_at 0 (n Y) (n Z)) ≡ face_count n }
    ensures x_edge_rows { (n : Counts) (j k : ℕ) → edge_number n X (place_at (n X) j k) ≡ edge_number n X (place_at 0 (j + 1) k) }
    ensures y_edge_rows { (n : Counts) (j k : ℕ) → edge_number n Y (place_at (n X + 1) j k) ≡ edge_number n Y (place_at 0 (j + 1) k) }
    ensures z_edge_rows { (n : Counts) (j k : ℕ) → edge_number n Z (place_at (n X + 1) j k) ≡ edge_number n Z (place_at 0 (j + 1) k) }
    ensures x_edge_layers { (n : Counts) (k : ℕ) → edge_number n X (place_at 0 (n Y + 1) k) ≡ edge_number n X (place_at 0 0 (k + 1)) }
    ensures y_edge_layers { (n : Counts) (k : ℕ) → edge_number n Y (place_at 0 (n Y) k) ≡ edge_number n Y (place_at 0 0 (k + 1)) }
    ensures z_edge_layers { (n : Counts) (k : ℕ) → edge_number n Z (place_at 0 (n Y + 1) k) ≡ edge_number n Z (place_at 0 0 (k + 1)) }
    ensures x_edge_end { (n : Counts) → edge_number n X (place_at 0 0 (n Z + 1)) ≡ edge_count n X }
    ensures y_edge_end { (n : Counts) → edge_number n Y (place_at 0 0 (n Z + 1)) ≡ edge_count n Y }
    ensures z_edge_end { (n : Counts) → edge_number n Z (place_at 0 0 (n Z)) ≡ edge_count n Z }
{}
