// A row of cells along x, with the temperatures around it.
ghost use Rattle.std.specs.Prelude.{◌≡◌, ◌+◌, ◌-◌, ◌*◌, ◌^◌, ◌<◌, ◌≤◌, ◌==◌, length, pos};
ghost use Rattle.tb_field.specs.Fields.{AreTemperatures};
ghost use Rattle.tb_rows.specs.Widths.{AreWidths};
ghost use Rattle.tb_sums.specs.Corners.{HasTemperatures};
ghost use Rattle.tb_sums.specs.NodeRows.{corners_at};

use crate::cell::{Corners, Cuboid, solid_energy};
use crate::interval::Interval;
use crate::sides::{sides_x, sides_y, sides_z};
use tb_rows::Run;

/// The node values of a row of cells: along its four lines of nodes, the low y first, then the low z.
#[derive(Clone, Copy)]
pub struct NodeRows<'a> {
    pub t00: &'a [i64],
    pub t10: &'a [i64],
    pub t01: &'a [i64],
    pub t11: &'a [i64],
}

/// A row of cells: the lines across x, the inverses of the divisors between them, its intervals along y and z, and the
/// temperatures at its nodes. In the mask bit e is set where environment e is in the case.
#[derive(Clone, Copy)]
pub struct Row<'a> {
    pub lines: &'a [u32],
    pub inverses: &'a [u64],
    pub y: Interval,
    pub z: Interval,
    pub nodes: NodeRows<'a>,
    pub mask: u8,
    pub ghost widths: { AreWidths lines.now },
    pub ghost t00: { length nodes.t00.now ≡ length lines.now },
    pub ghost t10: { length nodes.t10.now ≡ length lines.now },
    pub ghost t01: { length nodes.t01.now ≡ length lines.now },
    pub ghost t11: { length nodes.t11.now ≡ length lines.now },
    pub ghost warm_00: { AreTemperatures nodes.t00.now },
    pub ghost warm_10: { AreTemperatures nodes.t10.now },
    pub ghost warm_01: { AreTemperatures nodes.t01.now },
    pub ghost warm_11: { AreTemperatures nodes.t11.now },
    pub ghost few: { length lines.now ≤ 1024 },
    pub ghost room: { length lines.now ≤ length inverses.now + 1 },
}

impl Row<'_> {
    ghost use Rattle.std.specs.Prelude.{slice_index};
    ghost use Rattle.tb_rows.specs.Runs.{IsClosed};
    ghost use Rattle.tb_terms.specs.Limits.{IsConductivity};
    ghost use Rattle.tb_sums.specs.RunSums.{inside_at, inside_up, run_up, sides_at, sides_up};

    #[inline]
    fn interval(&self, i: usize) -> Interval
        requires { i + 1 < length self.now.lines.now }
        ensures { result.width ≡ slice_index self.now.lines.now (i + 1) - slice_index self.now.lines.now i }
    {
        Interval::with_inverse(self.lines[i + 1] - self.lines[i], self.inverses[i])
    }

    #[inline]
    fn corners(&self, i: usize) -> Corners
        requires { i + 1 < length self.now.lines.now }
        ensures exact { result ≡ corners_at self.now.nodes i }
        ensures temperatures { HasTemperatures result }
    {
        let n = self.nodes;
        Corners {
            t000: n.t00[i],
            t100: n.t00[i + 1],
            t010: n.t10[i],
            t110: n.t10[i + 1],
            t001: n.t01[i],
            t101: n.t01[i + 1],
            t011: n.t11[i],
            t111: n.t11[i + 1],
        }
    }

    // The energy inside a solid cell.
    #[inline]
    fn inside(&self, lambda: u32, i: usize) -> u128
        requires conductivity { IsConductivity lambda }
        requires within { i + 1 < length self.now.lines.now }
        ensures value { pos result ≡ inside_at self.now lambda i }
        ensures most { result ≤ 375 * 10 ^ 23 }
    {
        let at = Cuboid {
            x: self.interval(i),
            y: self.y,
            z: self.z,
        };
        solid_energy(lambda, at, self.corners(i))
    }

    // The energy inside the cells of a run. Its loop asks for nothing but the terms.
    fn inside_all(&self, run: &Run) -> u128
        requires from { run.now.from < run.now.to }
        requires to { run.now.to < length self.now.lines.now }
        ensures value { pos result ≡ inside_up self.now run.now (run.now.to - run.now.from) }
        ensures most { result ≤ (run.now.to - run.now.from) * (375 * 10 ^ 23) }
    {
        let mut total = 0u128;
        for n in 0..run.to - run.from {
            total += self.inside(run.lambda, (run.from + n) as usize);
        }
        total
    }

    // The energy of the surfaces at the sides of a cell of a run.
    fn sides(&self, run: &Run, i: u32) -> u128
        requires { i + 1 < length self.now.lines.now }
        ensures value { pos result ≡ sides_at self.now run.now i }
        ensures most { result ≤ 15 * 10 ^ 22 }
    {
        let t = self.corners(i as usize);
        let at = Cuboid {
            x: self.interval(i as usize),
            y: self.y,
            z: self.z,
        };
        let x = sides_x(self.mask, run.low_at(i), run.high_at(i), at, t);
        let y = sides_y(self.mask, run.low_y, run.high_y, at, t);
        let z = sides_z(self.mask, run.low_z, run.high_z, at, t);
        x + (y + z)
    }

    // Of a run with no air along y and z: only its ends have surfaces.
    fn sides_at_ends(&self, run: &Run) -> u128
        requires from { run.now.from < run.now.to }
        requires to { run.now.to < length self.now.lines.now }
        requires closed { IsClosed run.now }
        ensures value { pos result ≡ sides_up self.now run.now (run.now.to - run.now.from) }
        ensures most { result ≤ (run.now.to - run.now.from) * (15 * 10 ^ 22) }
    {
        let first = self.sides(run, run.from);
        let last = run.to - 1;
        if run.from == last {
            return first;
        }
        first + self.sides(run, last)
    }

    // The energy of the surfaces at the sides of the cells of a run.
    fn sides_all(&self, run: &Run) -> u128
        requires from { run.now.from < run.now.to }
        requires to { run.now.to < length self.now.lines.now }
        ensures value { pos result ≡ sides_up self.now run.now (run.now.to - run.now.from) }
        ensures most { result ≤ (run.now.to - run.now.from) * (15 * 10 ^ 22) }
    {
        if run.is_closed() {
            return self.sides_at_ends(run);
        }
        let mut total = 0u128;
        for n in 0..run.to - run.from {
            total += self.sides(run, run.from + n);
        }
        total
    }

    /// The energy of a run of solid cells, with their surfaces.
    pub fn run(&self, run: &Run) -> u128
        requires from { run.now.from < run.now.to }
        requires to { run.now.to < length self.now.lines.now }
        ensures value { pos result ≡ run_up self.now run.now (run.now.to - run.now.from) }
        ensures most { result ≤ (run.now.to - run.now.from) * 10 ^ 26 }
    {
        self.inside_all(run) + self.sides_all(run)
    }
}
