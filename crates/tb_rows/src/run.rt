// The cells of a row that lie in one base interval along x.
ghost use Rattle.std.specs.Prelude.{◌≡◌, ◌+◌, ◌^◌, ◌<◌, ◌↔◌, IfSome, IsTrue};
ghost use Rattle.std.proofs.Props.{props};
ghost use Rattle.tb_terms.specs.Limits.{IsConductivity};
ghost use Rattle.tb_rows.specs.Filled.{IsAir, IsFilled};

use tb_geometry::Occupant;

/// What lies beside the cells of a row that lie in one base interval along x: beside the first and the last one along x,
/// and beside each along y and z.
#[derive(Clone, Copy)]
pub struct Beside {
    pub low_x: Option<Occupant>,
    pub high_x: Option<Occupant>,
    pub low_y: Option<Occupant>,
    pub high_y: Option<Occupant>,
    pub low_z: Option<Occupant>,
    pub high_z: Option<Occupant>,
}

/// A run: the cells `from..to` of a row, all of a solid of this conductivity, in 10⁻⁴ W/(m·K), with what lies beside its
/// first cell and its last one along x, and beside each along y and z.
#[derive(Clone, Copy)]
pub struct Run {
    pub lambda: u32,
    pub from: u32,
    pub to: u32,
    pub low_x: Option<Occupant>,
    pub high_x: Option<Occupant>,
    pub low_y: Option<Occupant>,
    pub high_y: Option<Occupant>,
    pub low_z: Option<Occupant>,
    pub high_z: Option<Occupant>,
    pub ghost conductivity: { IsConductivity lambda },
    pub ghost filled_low_x: { IfSome low_x IsFilled } by { Prim.hlevel props },
    pub ghost filled_high_x: { IfSome high_x IsFilled } by { Prim.hlevel props },
    pub ghost filled_low_y: { IfSome low_y IsFilled } by { Prim.hlevel props },
    pub ghost filled_high_y: { IfSome high_y IsFilled } by { Prim.hlevel props },
    pub ghost filled_low_z: { IfSome low_z IsFilled } by { Prim.hlevel props },
    pub ghost filled_high_z: { IfSome high_z IsFilled } by { Prim.hlevel props },
}

// Whether air lies beside a cell.
#[inline]
fn is_air(beside: Option<Occupant>) -> bool
    ensures { IsTrue result ↔ IsAir beside }
{
    match beside {
        Some(Occupant::Air { .. }) => true,
        Some(Occupant::Solid { .. }) => false,
        None => false,
    }
}

impl Run {
    ghost use Rattle.std.specs.Prelude.{Some};
    ghost use Rattle.tb_geometry.specs.declared.occupant.Occupant.TheVariants.{Solid};
    ghost use Rattle.tb_rows.specs.Runs.{IsClosed, high_at, low_at};

    // What fills its cells.
    #[inline]
    fn own(&self) -> Option<Occupant>
        ensures value { result ≡ Some (Solid self.now.lambda) }
        ensures filled { IfSome result IsFilled }
    {
        Some(Occupant::Solid {
            lambda: self.lambda,
        })
    }

    /// Whether no air lies beside its cells along y and z.
    pub fn is_closed(&self) -> bool
        ensures { IsTrue result ↔ IsClosed self.now }
    {
        !is_air(self.low_y) && !is_air(self.high_y) && !is_air(self.low_z) && !is_air(self.high_z)
    }

    /// What lies beside a cell along x, on its low side.
    #[inline]
    pub fn low_at(&self, i: u32) -> Option<Occupant>
        ensures value { result ≡ low_at self.now i }
        ensures filled { IfSome result IsFilled }
    {
        if i == self.from {
            self.low_x
        } else {
            self.own()
        }
    }

    /// What lies beside a cell along x, on its high side.
    #[inline]
    pub fn high_at(&self, i: u32) -> Option<Occupant>
        requires { i + 1 < 2 ^ 32 }
        ensures value { result ≡ high_at self.now i }
        ensures filled { IfSome result IsFilled }
    {
        if i + 1 == self.to {
            self.high_x
        } else {
            self.own()
        }
    }
}
