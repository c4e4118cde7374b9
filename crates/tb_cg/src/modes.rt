// The modes of a cell: sums and differences of its nodes' values along the axes. The energy of a trilinear field in the cell is a
// sum of squares of them, so that it takes one product a mode.
ghost use Rattle.std.specs.Prelude.{◌^◌, ◌≤◌, unsigned_abs};

use tb_gradients::Entry;

/// The modes of a layer of four nodes: the sum of their values, and the differences along x, along y and along both.
#[derive(Clone, Copy)]
pub struct LayerModes {
    sum: i64,
    x: i64,
    y: i64,
    xy: i64,
    ghost sum_small: { unsigned_abs sum ≤ 2 ^ 55 },
    ghost x_small: { unsigned_abs x ≤ 2 ^ 55 },
    ghost y_small: { unsigned_abs y ≤ 2 ^ 55 },
    ghost xy_small: { unsigned_abs xy ≤ 2 ^ 55 },
}

// The sum and the difference of two nodes' values.
#[derive(Clone, Copy)]
struct EdgeModes {
    sum: i64,
    difference: i64,
    ghost sum_small: { unsigned_abs sum ≤ 2 ^ 54 },
    ghost difference_small: { unsigned_abs difference ≤ 2 ^ 54 },
}

impl EdgeModes {
    #[inline(always)]
    fn new(low: Entry, high: Entry) -> EdgeModes {
        EdgeModes {
            sum: high.value() + low.value(),
            difference: high.value() - low.value(),
        }
    }
}

impl LayerModes {
    /// The modes of four values: of the lower and the upper node along x, first at the lower place along y.
    #[inline(always)]
    pub fn new(t00: Entry, t10: Entry, t01: Entry, t11: Entry) -> LayerModes {
        let low = EdgeModes::new(t00, t10);
        let high = EdgeModes::new(t01, t11);
        LayerModes {
            sum: high.sum + low.sum,
            x: high.difference + low.difference,
            y: high.sum - low.sum,
            xy: high.difference - low.difference,
        }
    }
}

/// The modes of a cell, each by the axes along which it is a difference; along the others it is a sum. The sum of all values
/// has no energy, and isn't among them.
#[derive(Clone, Copy)]
pub struct CellModes {
    pub x: i64,
    pub y: i64,
    pub z: i64,
    pub xy: i64,
    pub xz: i64,
    pub yz: i64,
    pub xyz: i64,
    pub ghost x_small: { unsigned_abs x ≤ 2 ^ 56 },
    pub ghost y_small: { unsigned_abs y ≤ 2 ^ 56 },
    pub ghost z_small: { unsigned_abs z ≤ 2 ^ 56 },
    pub ghost xy_small: { unsigned_abs xy ≤ 2 ^ 56 },
    pub ghost xz_small: { unsigned_abs xz ≤ 2 ^ 56 },
    pub ghost yz_small: { unsigned_abs yz ≤ 2 ^ 56 },
    pub ghost xyz_small: { unsigned_abs xyz ≤ 2 ^ 56 },
}

// The sum of a mode of a cell's two layers.
#[inline(always)]
fn sum(high: i64, low: i64) -> i64
    requires high { unsigned_abs high ≤ 2 ^ 55 }
    requires low { unsigned_abs low ≤ 2 ^ 55 }
    ensures { unsigned_abs result ≤ 2 ^ 56 }
{
    high + low
}

// The difference of a mode of a cell's two layers.
#[inline(always)]
fn difference(high: i64, low: i64) -> i64
    requires high { unsigned_abs high ≤ 2 ^ 55 }
    requires low { unsigned_abs low ≤ 2 ^ 55 }
    ensures { unsigned_abs result ≤ 2 ^ 56 }
{
    high - low
}

impl CellModes {
    /// The modes of a cell with these two layers of nodes along z.
    #[inline(always)]
    pub fn new(low: LayerModes, high: LayerModes) -> CellModes {
        CellModes {
            x: sum(high.x, low.x),
            y: sum(high.y, low.y),
            z: difference(high.sum, low.sum),
            xy: sum(high.xy, low.xy),
            xz: difference(high.x, low.x),
            yz: difference(high.y, low.y),
            xyz: difference(high.xy, low.xy),
        }
    }
}

/// The derivative of a cell's energy by half of each mode's value.
#[derive(Clone, Copy)]
pub struct CellForces {
    pub x: i64,
    pub y: i64,
    pub z: i64,
    pub xy: i64,
    pub xz: i64,
    pub yz: i64,
    pub xyz: i64,
    pub ghost x_small: { unsigned_abs x ≤ 2 ^ 58 },
    pub ghost y_small: { unsigned_abs y ≤ 2 ^ 58 },
    pub ghost z_small: { unsigned_abs z ≤ 2 ^ 58 },
    pub ghost xy_small: { unsigned_abs xy ≤ 2 ^ 58 },
    pub ghost xz_small: { unsigned_abs xz ≤ 2 ^ 58 },
    pub ghost yz_small: { unsigned_abs yz ≤ 2 ^ 58 },
    pub ghost xyz_small: { unsigned_abs xyz ≤ 2 ^ 58 },
}

/// The derivative by the modes of one layer of a cell's nodes.
#[derive(Clone, Copy)]
pub struct LayerForces {
    sum: i64,
    x: i64,
    y: i64,
    xy: i64,
    ghost sum_small: { unsigned_abs sum ≤ 2 ^ 59 },
    ghost x_small: { unsigned_abs x ≤ 2 ^ 59 },
    ghost y_small: { unsigned_abs y ≤ 2 ^ 59 },
    ghost xy_small: { unsigned_abs xy ≤ 2 ^ 59 },
}

impl CellForces {
    /// By the modes of the lower layer along z.
    #[inline(always)]
    pub fn low(self) -> LayerForces {
        LayerForces {
            sum: -self.z,
            x: self.x - self.xz,
            y: self.y - self.yz,
            xy: self.xy - self.xyz,
        }
    }

    /// By the modes of the upper layer along z.
    #[inline(always)]
    pub fn high(self) -> LayerForces {
        LayerForces {
            sum: self.z,
            x: self.x + self.xz,
            y: self.y + self.yz,
            xy: self.xy + self.xyz,
        }
    }
}

/// The derivative by the modes of two nodes along x.
#[derive(Clone, Copy)]
pub struct EdgeForces {
    sum: i64,
    difference: i64,
    ghost sum_small: { unsigned_abs sum ≤ 2 ^ 60 },
    ghost difference_small: { unsigned_abs difference ≤ 2 ^ 60 },
}

impl LayerForces {
    /// By the modes of the two nodes at the lower place along y.
    #[inline(always)]
    pub fn low(self) -> EdgeForces {
        EdgeForces {
            sum: self.sum - self.y,
            difference: self.x - self.xy,
        }
    }

    /// By the modes of the two nodes at the upper place along y.
    #[inline(always)]
    pub fn high(self) -> EdgeForces {
        EdgeForces {
            sum: self.sum + self.y,
            difference: self.x + self.xy,
        }
    }
}

impl EdgeForces {
    /// By the value of the lower node.
    #[inline(always)]
    pub fn low(self) -> i64
        ensures { unsigned_abs result ≤ 2 ^ 61 }
    {
        self.sum - self.difference
    }

    /// By the value of the upper node.
    #[inline(always)]
    pub fn high(self) -> i64
        ensures { unsigned_abs result ≤ 2 ^ 61 }
    {
        self.sum + self.difference
    }
}
