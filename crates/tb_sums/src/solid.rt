// The loss of a solid cell.
ghost use Rattle.std.specs.Prelude.{◌≡◌, ◌*◌, ◌^◌, ◌≤◌, pos};
ghost use Rattle.tb_math.specs.Ceiling.{ceiling};
ghost use Rattle.tb_terms.specs.Limits.{IsConductivity, IsWidth};
ghost use Rattle.tb_terms.specs.Terms.{flux_cell_term};
ghost use Rattle.tb_sums.specs.Losses.{HasFlows, HaveFlows, loss_cell, solid_loss_up};

use crate::terms::term_up;
use crate::width::Width;
use tb_rows::Divisor;
use tb_terms::FluxCell;

/// The flows through the low and the high face of a cell across an axis.
#[derive(Clone, Copy, Debug)]
pub struct Through {
    pub low: i64,
    pub high: i64,
}

/// The flows through the six faces of a cell, those across each axis together.
#[derive(Clone, Copy, Debug)]
pub struct CellFlows {
    pub x: Through,
    pub y: Through,
    pub z: Through,
}

/// A solid cell: its conductivity and widths, and what the divisors of its losses along x, y and z are made of. Three times
/// the conductivity and a width, or the cross-section of x, serve all cells of a run.
#[derive(Clone, Copy)]
pub struct SolidCell {
    pub lambda: u32,
    pub x: Width,
    pub y: u32,
    pub z: u32,
    triple_y: Divisor,
    triple_z: Divisor,
    along_x: Divisor,
    pub ghost conductivity: { IsConductivity lambda },
    pub ghost fits_y: { IsWidth y },
    pub ghost fits_z: { IsWidth z },
    pub ghost by_y: { triple_y.divisor ≡ 3 * (lambda * y) },
    pub ghost by_z: { triple_z.divisor ≡ 3 * (lambda * z) },
    pub ghost by_section_x: { along_x.divisor ≡ 3 * (lambda * (y * z)) },
}

// Three times a conductivity and a width.
#[inline]
fn with_width(triple: Divisor, lambda: u32, width: Width) -> Divisor
    requires conductivity { IsConductivity lambda }
    requires triple { triple.divisor ≡ 3 * lambda }
    ensures { result.divisor ≡ 3 * (lambda * width.width) }
{
    triple.times(width.divisor)
}

// Three times a conductivity and a cross-section.
#[inline]
fn with_section(triple: Divisor, lambda: u32, b: u32, c: Width) -> Divisor
    requires conductivity { IsConductivity lambda }
    requires width { IsWidth b }
    requires triple { triple.divisor ≡ 3 * (lambda * b) }
    ensures { result.divisor ≡ 3 * (lambda * (b * c.width)) }
{
    triple.times(c.divisor)
}

impl SolidCell {
    /// A cell.
    pub fn new(lambda: u32, x: Width, y: Width, z: Width) -> SolidCell
        requires { IsConductivity lambda }
        ensures lambda { result.lambda ≡ lambda }
        ensures x { result.x ≡ x }
        ensures y { result.y ≡ y.width }
        ensures z { result.z ≡ z.width }
    {
        let triple = Divisor::new(3 * u64::from(lambda));
        let triple_y = with_width(triple, lambda, y);
        SolidCell {
            lambda,
            x,
            y: y.width,
            z: z.width,
            triple_y,
            triple_z: with_width(triple, lambda, z),
            along_x: with_section(triple_y, lambda, y.width, z),
        }
    }

    /// The cell of another width along x beside it.
    #[inline]
    pub fn of_width(self, x: Width) -> SolidCell
        ensures lambda { result.lambda ≡ self.lambda }
        ensures x { result.x ≡ x }
        ensures y { result.y ≡ self.y }
        ensures z { result.z ≡ self.z }
    {
        SolidCell {
            lambda: self.lambda,
            x,
            y: self.y,
            z: self.z,
            triple_y: self.triple_y,
            triple_z: self.triple_z,
            along_x: self.along_x,
        }
    }

    /// Its loss, along the three axes together.
    #[inline]
    pub fn loss(self, flows: CellFlows) -> u128
        requires { HaveFlows flows }
        ensures value { pos result ≡ solid_loss_up self.lambda self.x.width self.y self.z flows }
        ensures most { result ≤ 15 * 10 ^ 34 }
    {
        self.loss_along_x(flows) + self.loss_along_y(flows) + self.loss_along_z(flows)
    }

    #[inline]
    fn loss_along_x(self, flows: CellFlows) -> u128
        requires { HaveFlows flows }
        ensures value { pos result ≡ ceiling (flux_cell_term (loss_cell self.lambda self.x.width self.y self.z flows.x)) }
        ensures most { result ≤ 5 * 10 ^ 34 }
    {
        let Self {
            lambda,
            x,
            y,
            z,
            ..
        } = self;
        axis_loss(lambda, x.width, y, z, self.along_x, flows.x)
    }

    #[inline]
    fn loss_along_y(self, flows: CellFlows) -> u128
        requires { HaveFlows flows }
        ensures value { pos result ≡ ceiling (flux_cell_term (loss_cell self.lambda self.y self.x.width self.z flows.y)) }
        ensures most { result ≤ 5 * 10 ^ 34 }
    {
        let Self {
            lambda,
            x,
            y,
            z,
            ..
        } = self;
        let by = with_section(self.triple_z, lambda, z, x);
        axis_loss(lambda, y, x.width, z, by, flows.y)
    }

    #[inline]
    fn loss_along_z(self, flows: CellFlows) -> u128
        requires { HaveFlows flows }
        ensures value { pos result ≡ ceiling (flux_cell_term (loss_cell self.lambda self.z self.x.width self.y flows.z)) }
        ensures most { result ≤ 5 * 10 ^ 34 }
    {
        let Self {
            lambda,
            x,
            y,
            z,
            ..
        } = self;
        let by = with_section(self.triple_y, lambda, y, x);
        axis_loss(lambda, z, x.width, y, by, flows.z)
    }
}

// The loss of a cell along an axis, with its width a and the flows through its faces there.
#[inline]
fn axis_loss(lambda: u32, a: u32, b: u32, c: u32, by: Divisor, flows: Through) -> u128
    requires conductivity { IsConductivity lambda }
    requires a { IsWidth a }
    requires b { IsWidth b }
    requires c { IsWidth c }
    requires by { by.divisor ≡ 3 * (lambda * (b * c)) }
    requires flows { HasFlows flows }
    ensures value { pos result ≡ ceiling (flux_cell_term (loss_cell lambda a b c flows)) }
    ensures most { result ≤ 5 * 10 ^ 34 }
{
    let term = FluxCell {
        lambda,
        a,
        b,
        c,
        low: flows.low,
        high: flows.high,
    };
    term_up(&term, by)
}
