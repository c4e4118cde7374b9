// A row of cells along x, with the flows through its faces.
ghost use Rattle.std.specs.Prelude.{◌≡◌, ◌+◌, ◌-◌, ◌*◌, ◌^◌, ◌<◌, ◌≤◌, length, pos, ◌+ℤ◌, unsigned_abs};
ghost use Rattle.tb_flux.specs.Fluxes.{AreFlows};
ghost use Rattle.tb_rows.specs.Widths.{AreWidths};
ghost use Rattle.tb_sums.specs.FlowRows.{flows_at};
ghost use Rattle.tb_sums.specs.Losses.{HaveFlows};

use crate::solid::{CellFlows, SolidCell, Through};
use crate::surfaces::{entering, sides_loss};
use crate::width::Width;
use tb_rows::Run;

/// The flows through the faces of a row of cells: across x at each line, and across y and z at the low and the high side
/// of each cell.
#[derive(Clone, Copy)]
pub struct FlowRows<'a> {
    pub x: &'a [i64],
    pub low_y: &'a [i64],
    pub high_y: &'a [i64],
    pub low_z: &'a [i64],
    pub high_z: &'a [i64],
}

/// A row of cells: the lines across x, the inverses of the widths between them, its widths along y and z, and the flows
/// through its faces. In the mask bit e is set where environment e is in the case.
#[derive(Clone, Copy)]
pub struct FlowRow<'a> {
    pub lines: &'a [u32],
    pub inverses: &'a [u64],
    pub y: Width,
    pub z: Width,
    pub flows: FlowRows<'a>,
    pub mask: u8,
    pub ghost widths: { AreWidths lines.now },
    pub ghost along_x: { length flows.x.now ≡ length lines.now },
    pub ghost at_low_y: { length flows.low_y.now + 1 ≡ length lines.now },
    pub ghost at_high_y: { length flows.high_y.now + 1 ≡ length lines.now },
    pub ghost at_low_z: { length flows.low_z.now + 1 ≡ length lines.now },
    pub ghost at_high_z: { length flows.high_z.now + 1 ≡ length lines.now },
    pub ghost flows_x: { AreFlows flows.x.now },
    pub ghost flows_low_y: { AreFlows flows.low_y.now },
    pub ghost flows_high_y: { AreFlows flows.high_y.now },
    pub ghost flows_low_z: { AreFlows flows.low_z.now },
    pub ghost flows_high_z: { AreFlows flows.high_z.now },
    pub ghost few: { length lines.now ≤ 1024 },
    pub ghost room: { length lines.now ≤ length inverses.now + 1 },
}

impl FlowRow<'_> {
    ghost use Rattle.std.specs.Prelude.{slice_index};
    ghost use Rattle.tb_rows.specs.Runs.{IsClosed};
    ghost use Rattle.tb_sums.specs.LossSums.{entered_at, inside_loss, inside_loss_at, run_entered, run_loss, sides_loss, sides_loss_at};

    #[inline]
    fn width(&self, i: usize) -> Width
        requires { i + 1 < length self.now.lines.now }
        ensures { result.width ≡ slice_index self.now.lines.now (i + 1) - slice_index self.now.lines.now i }
    {
        Width::with_inverse(self.lines[i + 1] - self.lines[i], self.inverses[i])
    }

    #[inline]
    fn flows_at(&self, i: usize) -> CellFlows
        requires { i + 1 < length self.now.lines.now }
        ensures exact { result ≡ flows_at self.now.flows i }
        ensures flows { HaveFlows result }
    {
        let q = self.flows;
        CellFlows {
            x: Through {
                low: q.x[i],
                high: q.x[i + 1],
            },
            y: Through {
                low: q.low_y[i],
                high: q.high_y[i],
            },
            z: Through {
                low: q.low_z[i],
                high: q.high_z[i],
            },
        }
    }

    // The loss inside a cell.
    #[inline]
    fn inside(&self, i: u32, cell: SolidCell) -> u128
        requires within { i + 1 < length self.now.lines.now }
        requires x { cell.x.width ≡ slice_index self.now.lines.now (i + 1) - slice_index self.now.lines.now i }
        requires y { cell.y ≡ self.now.y.width }
        requires z { cell.z ≡ self.now.z.width }
        ensures value { pos result ≡ inside_loss_at self.now cell.lambda i }
        ensures most { result ≤ 15 * 10 ^ 34 }
    {
        cell.loss(self.flows_at(i as usize))
    }

    // The loss inside the cells of a run. Its loop asks for nothing but the terms.
    fn inside_all(&self, run: &Run) -> u128
        requires from { run.now.from < run.now.to }
        requires to { run.now.to < length self.now.lines.now }
        ensures value { pos result ≡ inside_loss self.now run.now (run.now.to - run.now.from) }
        ensures most { result ≤ (run.now.to - run.now.from) * (15 * 10 ^ 34) }
    {
        let first = self.width(run.from as usize);
        let mut cell = SolidCell::new(run.lambda, first, self.y, self.z);
        let mut total = 0u128;
        for n in 0..run.to - run.from {
            let i = run.from + n;
            cell = cell.of_width(self.width(i as usize));
            total += self.inside(i, cell);
        }
        total
    }

    // The loss of the surfaces at the sides of a cell of a run.
    fn sides(&self, run: &Run, i: u32) -> u128
        requires { i + 1 < length self.now.lines.now }
        ensures value { pos result ≡ sides_loss_at self.now run.now i }
        ensures most { result ≤ 6 * 10 ^ 30 }
    {
        let q = self.flows_at(i as usize);
        let x = self.width(i as usize).width;
        let (y, z) = (self.y.width, self.z.width);
        let at_x = sides_loss(run.low_at(i), run.high_at(i), y, z, q.x);
        let at_y = sides_loss(run.low_y, run.high_y, x, z, q.y);
        let at_z = sides_loss(run.low_z, run.high_z, x, y, q.z);
        at_x + (at_y + at_z)
    }

    // Of a run with no air along y and z: only its ends have surfaces.
    fn sides_at_ends(&self, run: &Run) -> u128
        requires from { run.now.from < run.now.to }
        requires to { run.now.to < length self.now.lines.now }
        requires closed { IsClosed run.now }
        ensures value { pos result ≡ sides_loss self.now run.now (run.now.to - run.now.from) }
        ensures most { result ≤ (run.now.to - run.now.from) * (6 * 10 ^ 30) }
    {
        let first = self.sides(run, run.from);
        let last = run.to - 1;
        if run.from == last {
            return first;
        }
        first + self.sides(run, last)
    }

    // The loss of the surfaces at the sides of the cells of a run.
    fn sides_all(&self, run: &Run) -> u128
        requires from { run.now.from < run.now.to }
        requires to { run.now.to < length self.now.lines.now }
        ensures value { pos result ≡ sides_loss self.now run.now (run.now.to - run.now.from) }
        ensures most { result ≤ (run.now.to - run.now.from) * (6 * 10 ^ 30) }
    {
        if run.is_closed() {
            return self.sides_at_ends(run);
        }
        let mut total = 0u128;
        for n in 0..run.to - run.from {
            total += self.sides(run, run.from + n);
        }
        total
    }

    /// The loss of a run of solid cells, with that of their surfaces.
    pub fn loss(&self, run: &Run) -> u128
        requires from { run.now.from < run.now.to }
        requires to { run.now.to < length self.now.lines.now }
        ensures value { pos result ≡ run_loss self.now run.now (run.now.to - run.now.from) }
        ensures most { result ≤ (run.now.to - run.now.from) * (15 * 10 ^ 34 + 6 * 10 ^ 30) }
    {
        self.inside_all(run) + self.sides_all(run)
    }

    // What enters a cell of a run through its sides from the environments of the case.
    fn cell_entering(&self, run: &Run, i: u32) -> i128
        requires { i + 1 < length self.now.lines.now }
        ensures value { result ≡ entered_at self.now run.now i }
        ensures size { unsigned_abs result ≤ 6 * 10 ^ 12 }
    {
        let q = self.flows_at(i as usize);
        let x = entering(self.mask, run.low_at(i), run.high_at(i), q.x);
        let y = entering(self.mask, run.low_y, run.high_y, q.y);
        let z = entering(self.mask, run.low_z, run.high_z, q.z);
        three(x, y, z)
    }

    // Of a run with no air along y and z: only through its ends does anything enter.
    fn entering_at_ends(&self, run: &Run) -> i128
        requires from { run.now.from < run.now.to }
        requires to { run.now.to < length self.now.lines.now }
        requires closed { IsClosed run.now }
        ensures value { result ≡ run_entered self.now run.now (run.now.to - run.now.from) }
        ensures size { unsigned_abs result ≤ (run.now.to - run.now.from) * (6 * 10 ^ 12) }
    {
        let first = self.cell_entering(run, run.from);
        let last = run.to - 1;
        if run.from == last {
            return first;
        }
        two(first, self.cell_entering(run, last))
    }

    /// What enters a run of solid cells through their sides from the environments of the case.
    pub fn entering(&self, run: &Run) -> i128
        requires from { run.now.from < run.now.to }
        requires to { run.now.to < length self.now.lines.now }
        ensures value { result ≡ run_entered self.now run.now (run.now.to - run.now.from) }
        ensures size { unsigned_abs result ≤ (run.now.to - run.now.from) * (6 * 10 ^ 12) }
    {
        if run.is_closed() {
            return self.entering_at_ends(run);
        }
        let mut total = 0i128;
        for n in 0..run.to - run.from {
            total += self.cell_entering(run, run.from + n);
        }
        total
    }
}

#[inline]
fn two(x: i128, y: i128) -> i128
    requires x { unsigned_abs x ≤ 6 * 10 ^ 12 }
    requires y { unsigned_abs y ≤ 6 * 10 ^ 12 }
    ensures value { result ≡ x +ℤ y }
    ensures size { unsigned_abs result ≤ 2 * (6 * 10 ^ 12) }
{
    x + y
}

#[inline]
fn three(x: i128, y: i128, z: i128) -> i128
    requires x { unsigned_abs x ≤ 2 * 10 ^ 12 }
    requires y { unsigned_abs y ≤ 2 * 10 ^ 12 }
    requires z { unsigned_abs z ≤ 2 * 10 ^ 12 }
    ensures value { result ≡ x +ℤ (y +ℤ z) }
    ensures size { unsigned_abs result ≤ 6 * 10 ^ 12 }
{
    x + (y + z)
}
