// A row of cells along x, with the flows through its faces.
ghost use Rattle.std.specs.Prelude.{◌≡◌, ◌<◌, ◌^◌, length, slice_index_or, unsigned_abs, pos, ◌+ℤ◌, ◌-ℤ◌};

/// The flows through the faces of a row of cells, at the low and the high side of each.
#[derive(Clone, Copy)]
pub struct CellRow<'a> {
    pub cells: u32,
    pub low_x: &'a [i64],
    pub high_x: &'a [i64],
    pub low_y: &'a [i64],
    pub high_y: &'a [i64],
    pub low_z: &'a [i64],
    pub high_z: &'a [i64],
    pub ghost count_low_x: { length low_x.now ≡ cells },
    pub ghost count_high_x: { length high_x.now ≡ cells },
    pub ghost count_low_y: { length low_y.now ≡ cells },
    pub ghost count_high_y: { length high_y.now ≡ cells },
    pub ghost count_low_z: { length low_z.now ≡ cells },
    pub ghost count_high_z: { length high_z.now ≡ cells },
}

impl CellRow<'_> {
    ghost use Rattle.tb_flux.specs.Rows.{leaving_in};

    /// What leaves a cell of the row through its six faces.
    #[inline]
    pub fn leaving(&self, i: u32) -> i128
        requires { i < self.now.cells }
        ensures { result ≡ leaving_in self.now i }
    {
        let i = i as usize;
        total(
            leaving_along(self.low_x, self.high_x, i),
            leaving_along(self.low_y, self.high_y, i),
            leaving_along(self.low_z, self.high_z, i),
        )
    }
}

#[inline]
fn total(x: i128, y: i128, z: i128) -> i128
    requires x { unsigned_abs x < 2 ^ 64 }
    requires y { unsigned_abs y < 2 ^ 64 }
    requires z { unsigned_abs z < 2 ^ 64 }
    ensures { result ≡ x +ℤ y +ℤ z }
{
    x + y + z
}

// What leaves a cell through its two faces across an axis.
#[inline]
fn leaving_along(low: &[i64], high: &[i64], i: usize) -> i128
    requires low { i < length low.now }
    requires high { i < length high.now }
    ensures value { result ≡ slice_index_or high.now i (pos 0) -ℤ slice_index_or low.now i (pos 0) }
    ensures size { unsigned_abs result < 2 ^ 64 }
{
    i128::from(high[i]) - i128::from(low[i])
}
