// What the order of a sum has no part in.
ghost use Rattle.std.specs.Prelude.{◌≡◌, pos, ◌+ℤ◌};
ghost use Rattle.tb_math.specs.Ceiling.{ceiling};
ghost use Rattle.tb_model.specs.Mesh.{Mesh};
ghost use Rattle.tb_model.specs.Energy.{Terms, rounded_up};
ghost use Rattle.tb_rows.specs.Cells.{cells_sum};

/// The sum of the rounded terms of a mesh, axis by axis, is one over its cells in the order of their numbers: at each
/// solid cell its three terms, and those of the surfaces at its six sides.
pub fn sums_go_by_cells()
    ensures { (m : Mesh) (t : Terms) → rounded_up m t ≡ cells_sum (pos 0) ◌+ℤ◌ ceiling m t }
{}
