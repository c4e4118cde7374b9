//! The laws of fields.
//!
//! Each law is the contract of a function that does nothing; the lemma behind a clause is in `proofs/`, where crates
//! above cite it.

ghost use Rattle.std.specs.Prelude.{◌≡◌, ℕ, suc, ◌+◌, ◌/◌, ◌%◌, List, ℤ, pos, slice_index_or};
ghost use Rattle.tb_math.specs.Rational.{int, ◌-ℚ◌};
ghost use Rattle.tb_places.specs.declared.AxisName.{AxisName};
ghost use Rattle.tb_places.specs.declared.Place.{Place};
ghost use Rattle.tb_places.specs.Along.{index_along};
ghost use Rattle.tb_places.specs.Inverse.{cell_place};
ghost use Rattle.tb_places.specs.Places.{along, node_number, second, third};
ghost use Rattle.tb_grid.specs.Grid.{Axes, counts_of};
ghost use Rattle.tb_field.specs.Fields.{difference_at, field_on};

/// The field that values stand for has at each node the value of the node's number.
pub fn fields_have_their_values()
    ensures { (g : Axes) (values : List ℤ) (p : Place)
        → field_on g values p.i p.j p.k ≡ int (slice_index_or values (node_number (counts_of g) p) (pos 0)) }
{}

/// The difference at a corner of a cell is what the field rises along the axis, from the cell's low side to its high
/// side, at the two indexes of the corner on the other axes.
pub fn differences_rise_along_their_axis()
    ensures { (g : Axes) (values : List ℤ) (a : AxisName) (c corner : ℕ)
        → let p = cell_place (counts_of g) c in
        let q = index_along (second a) p + corner % 2 in
        let r = index_along (third a) p + corner / 2 in
        int (difference_at (counts_of g) a values c corner)
        ≡ along a (field_on g values) (suc (index_along a p)) q r -ℚ along a (field_on g values) (index_along a p) q r }
{}
