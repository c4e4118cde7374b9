// The energy of a field on a grid that carries a body, row by row.
ghost use Rattle.std.specs.Prelude.{◌≡◌, ◌+◌, ◌-◌, ◌*◌, ◌^◌, ◌<◌, ◌≤◌, pos, slice_index};
ghost use Rattle.tb_places.specs.declared.AxisName.TheVariants.{X, Y, Z};
ghost use Rattle.tb_grid.specs.Axis.{IsLineAt};
ghost use Rattle.tb_grid.specs.Grid.{counts_of};
ghost use Rattle.tb_geometry.specs.Base.{base_counts, base_lines};
ghost use Rattle.tb_rows.specs.Rows.{IsAround, mesh_under};
ghost use Rattle.tb_rows.specs.Sums.{cells_from, cells_up, layers_up, rows_up};

use crate::interval::Interval;
use crate::row::{NodeRows, Row};
use tb_geometry::Case;
use tb_grid::{AxisName, Place};
use tb_rows::{Around, Rows};

/// A field on a grid that carries a body, and a case: one temperature for each node, in 10⁻⁸ of the difference. With it
/// come inverses of the divisors along x.
#[derive(Clone, Copy)]
pub struct BodyField<'a> {
    pub rows: Rows<'a>,
    pub temperatures: &'a [i64],
    pub case: Case,
    pub inverses: &'a [u64],
}

impl<'a> BodyField<'a> {
    ghost use Rattle.tb_sums.specs.BodyFields.{AreNodeRows, IsBodyField, IsNodeRow, IsRowOf, terms_under};

    // The temperatures along a line of nodes.
    fn node_row(&self, j: u32, k: u32) -> &'a [i64]
        requires fits { IsBodyField self.now }
        requires row { j ≤ counts_of self.now.rows.grid.now Y }
        requires layer { k ≤ counts_of self.now.rows.grid.now Z }
        ensures row { IsNodeRow self.now j k result.now }
    {
        let counts = self.rows.grid.counts();
        let last = counts.node_number(Place { i: counts.x, j, k });
        let end = last.0 as usize + 1;
        &self.temperatures[end - counts.x as usize - 1..end]
    }

    fn node_rows(&self, j: u32, k: u32) -> NodeRows<'a>
        requires fits { IsBodyField self.now }
        requires row { j < counts_of self.now.rows.grid.now Y }
        requires layer { k < counts_of self.now.rows.grid.now Z }
        ensures rows { AreNodeRows self.now j k result }
    {
        NodeRows {
            t00: self.node_row(j, k),
            t10: self.node_row(j + 1, k),
            t01: self.node_row(j, k + 1),
            t11: self.node_row(j + 1, k + 1),
        }
    }

    fn row_at(&self, j: u32, k: u32) -> Row<'a>
        requires fits { IsBodyField self.now }
        requires row { j < counts_of self.now.rows.grid.now Y }
        requires layer { k < counts_of self.now.rows.grid.now Z }
        ensures { IsRowOf self.now j k result }
    {
        Row {
            lines: self.rows.grid.axis(AxisName::X).lines(),
            inverses: self.inverses,
            y: Interval::new(self.rows.width(AxisName::Y, j)),
            z: Interval::new(self.rows.width(AxisName::Z, k)),
            nodes: self.node_rows(j, k),
            mask: self.case.mask,
        }
    }

    // What the cells of a row add that lie in a base interval along x, from one base line up to the next.
    fn run(&self, row: &Row, around: &Around, b: u32, from: u32, to: u32) -> u128
        requires fits { IsBodyField self.now }
        requires row { IsRowOf self.now around.now.j around.now.k row.now }
        requires around { IsAround self.now.rows around.now.j around.now.k around.now }
        requires within { (around.now.j < counts_of self.now.rows.grid.now Y) × (around.now.k < counts_of self.now.rows.grid.now Z) }
        requires base { b < base_counts self.now.rows.body.now.boxes X }
        requires from { IsLineAt self.now.rows.grid.now.x (slice_index (base_lines X self.now.rows.body.now.boxes) b) from }
        requires to { IsLineAt self.now.rows.grid.now.x (slice_index (base_lines X self.now.rows.body.now.boxes) (b + 1)) to }
        ensures up { from < to }
        ensures value { pos result ≡ cells_from (mesh_under self.now.rows) (terms_under self.now) around.now.j around.now.k from (to - from) }
        ensures most { result ≤ (to - from) * 10 ^ 26 }
    {
        match self.rows.run_at(around, b, from, to) {
            Some(cells) => row.run(&cells),
            None => 0,
        }
    }

    // What a row of cells adds.
    fn row(&self, j: u32, k: u32) -> u128
        requires fits { IsBodyField self.now }
        requires row { j < counts_of self.now.rows.grid.now Y }
        requires layer { k < counts_of self.now.rows.grid.now Z }
        ensures value { pos result ≡ cells_up (mesh_under self.now.rows) (terms_under self.now) j k (counts_of self.now.rows.grid.now X) }
        ensures most { result ≤ 1023 * 10 ^ 26 }
    {
        let row = self.row_at(j, k);
        let around = self.rows.around(j, k);
        let mut total = 0u128;
        let intervals = self.rows.base_intervals();
        let mut from = self.rows.base_line(0);
        for b in 0..intervals {
            let to = self.rows.base_line(b + 1);
            total += self.run(&row, &around, b, from, to);
            from = to;
        }
        total
    }

    // What a layer of cells adds.
    fn layer(&self, k: u32) -> u128
        requires fits { IsBodyField self.now }
        requires layer { k < counts_of self.now.rows.grid.now Z }
        ensures value { pos result ≡ rows_up (mesh_under self.now.rows) (terms_under self.now) k (counts_of self.now.rows.grid.now Y) }
        ensures most { result ≤ 1023 * (1023 * 10 ^ 26) }
    {
        let mut total = 0u128;
        for j in 0..self.rows.grid.axis(AxisName::Y).intervals() {
            total += self.row(j, k);
        }
        total
    }

    /// The energy, each of its terms rounded up.
    pub fn energy(&self) -> u128
        requires fits { IsBodyField self.now }
        ensures value { pos result ≡ layers_up (mesh_under self.now.rows) (terms_under self.now) (counts_of self.now.rows.grid.now Z) }
        ensures most { result ≤ 1023 * (1023 * (1023 * 10 ^ 26)) }
    {
        let mut total = 0u128;
        for k in 0..self.rows.grid.axis(AxisName::Z).intervals() {
            total += self.layer(k);
        }
        total
    }
}
