// The terms of a heat flux's loss.
ghost use Rattle.std.specs.Prelude.{◌≡◌, ℕ, ◌*◌, ◌^◌, ◌≤◌, pos, ◌+ℤ◌, ◌*ℤ◌, ◌≤ℤ◌, unsigned_abs};
ghost use Rattle.tb_terms.specs.Limits.{IsFlow};

use crate::functional::{Functional, section};

/// The term of one axis of a solid cell: a/(bc·λ) · (F0² + F0·F1 + F1²)/3, with the flows F0 and F1
/// through its low and its high face.
///
/// In the units of the fields it is a·(F0² + F0·F1 + F1²)·10⁵ over 3·λ·b·c.
#[derive(Clone, Copy, Debug, PartialEq, Eq)]
pub struct FluxCell {
    /// The conductivity along the axis, in 10⁻⁴ W/(m·K).
    pub lambda: u32,
    /// The width along the axis, in 0.1 mm.
    pub a: u32,
    /// The first width across the axis, in 0.1 mm.
    pub b: u32,
    /// The second width across the axis, in 0.1 mm.
    pub c: u32,
    /// The flow through the low face across the axis, in nW per unit difference.
    pub low: i64,
    /// The flow through the high face across the axis, in nW per unit difference.
    pub high: i64,
}

/// The term of a surface face: Rs/bc · F², with the flow F through it.
///
/// In the units of the fields it is 10·Rs·F² over b·c.
#[derive(Clone, Copy, Debug, PartialEq, Eq)]
pub struct FluxFace {
    /// The surface resistance, in 10⁻⁴ m²K/W.
    pub rs: u32,
    /// The first width of the face, in 0.1 mm.
    pub b: u32,
    /// The second width of the face, in 0.1 mm.
    pub c: u32,
    /// The flow through the face, in nW per unit difference.
    pub flow: i64,
}

impl Functional for FluxCell {
    ghost use Rattle.tb_terms.specs.Terms.{FitsFluxCell, flux_cell_term, cell_of_flux};
    ghost use Rattle.std.specs.Prelude.{refl};
    ghost use Rattle.tb_terms.specs.CutLaws.{flux_cell_parts};
    ghost use Rattle.tb_terms.specs.Quantities.{Cell, Ends, loss_of_cell, CellCut, flux_cell_part};

    ghost Fits = { FitsFluxCell };

    ghost term = { flux_cell_term };

    ghost divisor = { λ x. 3 * (x.lambda * (x.b * x.c)) };

    ghost greatest = { 5 * 10 ^ 34 };

    ghost Quantities = { Cell Ends };

    ghost quantities = { cell_of_flux };

    ghost value_of = { loss_of_cell };

    ghost Cut = { CellCut };

    ghost part_of = { flux_cell_part };

    ghost valued = { λ x. refl };

    ghost parts_add_up = { flux_cell_parts };

    fn numerator(&self) -> i128 {
        i128::from(100_000 * u64::from(self.a)) * passage_of(self.low, self.high)
    }

    fn denominator(&self) -> i128 {
        i128::from(3 * (u64::from(self.lambda) * section(self.b, self.c)))
    }
}

impl Functional for FluxFace {
    ghost use Rattle.tb_terms.specs.Terms.{FitsFluxFace, flux_face_term, face_of_flux};
    ghost use Rattle.std.specs.Prelude.{refl};
    ghost use Rattle.tb_math.specs.Rational.{ℚ};
    ghost use Rattle.tb_terms.specs.CutLaws.{flux_face_parts};
    ghost use Rattle.tb_terms.specs.Quantities.{Face, loss_of_face, FaceCut, flux_face_part};

    ghost Fits = { FitsFluxFace };

    ghost term = { flux_face_term };

    ghost divisor = { λ x. x.b * x.c };

    ghost greatest = { 10 ^ 30 };

    ghost Quantities = { Face ℚ };

    ghost quantities = { face_of_flux };

    ghost value_of = { loss_of_face };

    ghost Cut = { FaceCut };

    ghost part_of = { flux_face_part };

    ghost valued = { λ x. refl };

    ghost parts_add_up = { flux_face_parts };

    fn numerator(&self) -> i128 {
        i128::from(10 * u64::from(self.rs)) * product(self.flow, self.flow)
    }

    fn denominator(&self) -> i128 {
        i128::from(section(self.b, self.c))
    }
}

// Three times the mean square of a flow that is linear between these end values.
fn passage_of(low: i64, high: i64) -> i128
    requires low_size { IsFlow low }
    requires high_size { IsFlow high }
    ensures value { result ≡ low *ℤ low +ℤ low *ℤ high +ℤ high *ℤ high }
    ensures not_negative { pos 0 ≤ℤ result }
    ensures size { result ≤ℤ pos (3 * 10 ^ 24) }
{
    product(low, low) + product(low, high) + product(high, high)
}

fn product(x: i64, y: i64) -> i128
    requires x_size { IsFlow x }
    requires y_size { IsFlow y }
    ensures value { result ≡ x *ℤ y }
    ensures size { unsigned_abs result ≤ 10 ^ 24 }
{
    i128::from(x) * i128::from(y)
}
