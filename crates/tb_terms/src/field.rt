// The terms of a temperature field's energy.
ghost use Rattle.std.specs.Prelude.{◌≡◌, ℕ, ◌*◌, ◌^◌, ◌≤◌, All, pos, ◌+ℤ◌, ◌*ℤ◌, unsigned_abs};
ghost use Rattle.tb_math.specs.Rational.{int};
ghost use Rattle.tb_terms.specs.Limits.{IsDifference};
ghost use Rattle.tb_terms.specs.Spread.{corner_spread};

use crate::functional::{Functional, section};

/// The term of one axis of a solid cell: λ · bc/a · M/36, with the spread M of the differences.
///
/// The spread of four corner values is 36 times the mean square of the bilinear function that has
/// them. In the units of the fields the term is λ·b·c·M over 36·a·10⁹.
#[derive(Clone, Copy, Debug, PartialEq, Eq)]
pub struct FieldCell {
    /// The conductivity along the axis, in 10⁻⁴ W/(m·K).
    pub lambda: u32,
    /// The width along the axis, in 0.1 mm.
    pub a: u32,
    /// The first width across the axis, in 0.1 mm.
    pub b: u32,
    /// The second width across the axis, in 0.1 mm.
    pub c: u32,
    /// The differences of the node values along the axis, in 10⁻⁸ of the temperature difference: at
    /// the corners (0,0), (1,0), (0,1), (1,1) of the cross-section, the earlier axis first.
    pub d: [i64; 4],
}

/// The term of a surface face: bc/Rs · M/36, with the spread M of the differences.
///
/// In the units of the fields it is b·c·M over 36·Rs·10⁵.
#[derive(Clone, Copy, Debug, PartialEq, Eq)]
pub struct FieldFace {
    /// The surface resistance, in 10⁻⁴ m²K/W.
    pub rs: u32,
    /// The first width of the face, in 0.1 mm.
    pub b: u32,
    /// The second width of the face, in 0.1 mm.
    pub c: u32,
    /// The node values less that of the environment, in 10⁻⁸ of the temperature difference: at the
    /// corners (0,0), (1,0), (0,1), (1,1) of the face, the earlier axis first.
    pub t: [i64; 4],
}

impl Functional for FieldCell {
    ghost use Rattle.tb_terms.specs.Terms.{FitsFieldCell, field_cell_term, cell_of_field};
    ghost use Rattle.std.specs.Prelude.{refl};
    ghost use Rattle.tb_terms.specs.CutLaws.{field_cell_parts};
    ghost use Rattle.tb_terms.specs.Quantities.{Cell, Corners, energy_of_cell, CellCut, field_cell_part};

    ghost Fits = { FitsFieldCell };

    ghost term = { field_cell_term };

    ghost divisor = { λ x. 36 * 10 ^ 9 * x.a };

    ghost greatest = { 125 * 10 ^ 23 };

    ghost Quantities = { Cell Corners };

    ghost quantities = { cell_of_field };

    ghost value_of = { energy_of_cell };

    ghost Cut = { CellCut };

    ghost part_of = { field_cell_part };

    ghost valued = { λ x. refl };

    ghost parts_add_up = { field_cell_parts };

    fn numerator(&self) -> i128 {
        let conductance = u64::from(self.lambda) * section(self.b, self.c);
        i128::from(conductance) * i128::from(spread_of(&self.d))
    }

    fn denominator(&self) -> i128 {
        i128::from(36_000_000_000 * u64::from(self.a))
    }
}

impl Functional for FieldFace {
    ghost use Rattle.tb_terms.specs.Terms.{FitsFieldFace, field_face_term, face_of_field};
    ghost use Rattle.std.specs.Prelude.{refl};
    ghost use Rattle.tb_terms.specs.CutLaws.{field_face_parts};
    ghost use Rattle.tb_terms.specs.Quantities.{Face, Corners, energy_of_face, FaceCut, field_face_part};

    ghost Fits = { FitsFieldFace };

    ghost term = { field_face_term };

    ghost divisor = { λ x. 36 * 10 ^ 5 * x.rs };

    ghost greatest = { 25 * 10 ^ 21 };

    ghost Quantities = { Face Corners };

    ghost quantities = { face_of_field };

    ghost value_of = { energy_of_face };

    ghost Cut = { FaceCut };

    ghost part_of = { field_face_part };

    ghost valued = { λ x. refl };

    ghost parts_add_up = { field_face_parts };

    fn numerator(&self) -> i128 {
        i128::from(section(self.b, self.c)) * i128::from(spread_of(&self.t))
    }

    fn denominator(&self) -> i128 {
        i128::from(3_600_000 * u64::from(self.rs))
    }
}

// The spread of four corner values, by Simpson's rule in both directions, which is exact for the
// square of a bilinear function. A sum of two values stands for twice the value midway.
fn spread_of(d: &[i64; 4]) -> u64
    requires { All IsDifference d.now }
    ensures value { int (pos result) ≡ corner_spread d.now }
    ensures size { result ≤ 144 * 10 ^ 16 }
{
    let [d00, d10, d01, d11] = *d;
    edge_spread(d00, d10) + edge_spread(d01, d11) + edge_spread(d00 + d01, d10 + d11)
}

// Six times the mean square of the linear function with these end values, by Simpson's rule.
fn edge_spread(x: i64, y: i64) -> u64
    requires x_size { unsigned_abs x ≤ 2 * 10 ^ 8 }
    requires y_size { unsigned_abs y ≤ 2 * 10 ^ 8 }
    ensures value { pos result ≡ x *ℤ x +ℤ y *ℤ y +ℤ (x +ℤ y) *ℤ (x +ℤ y) }
    ensures size { result ≤ 48 * 10 ^ 16 }
{
    square(x) + square(y) + square(x + y)
}

fn square(x: i64) -> u64
    requires { unsigned_abs x ≤ 4 * 10 ^ 8 }
    ensures value { pos result ≡ x *ℤ x }
    ensures size { result ≤ 16 * 10 ^ 16 }
{
    let size = x.unsigned_abs();
    size * size
}
