// The loss of a flux on a grid that carries a body, and what enters the body, row by row.
ghost use Rattle.std.specs.Prelude.{◌≡◌, ◌+◌, ◌-◌, ◌*◌, ◌^◌, ◌<◌, ◌≤◌, IfOk, OnErr, pos, ◌<ℤ◌, unsigned_abs, slice_index};
ghost use Rattle.tb_places.specs.declared.AxisName.TheVariants.{X, Y, Z};
ghost use Rattle.tb_grid.specs.Axis.{IsLineAt};
ghost use Rattle.tb_grid.specs.Grid.{counts_of};
ghost use Rattle.tb_geometry.specs.Base.{base_counts, base_lines};
ghost use Rattle.tb_model.specs.Energy.{rounded_up};
ghost use Rattle.tb_rows.specs.Rows.{IsAround, mesh_under};
ghost use Rattle.tb_rows.specs.Sums.{cells_from, cells_up, rows_up};

use crate::flow_row::FlowRow;
use crate::flux::BodyFlux;
use tb_grid::AxisName;
use tb_numbers::PastLimit;
use tb_rows::Around;

// The greatest loss that has an end.
const MOST_LOSS: u128 = 1 << 120;

/// What cells add to the two parts of a lower end: what they lose, each term rounded up, in fW/K, and what enters them
/// from the environments of the case, in nW per unit difference.
#[derive(Clone, Copy, Debug)]
pub struct Sums {
    pub loss: u128,
    pub entering: i128,
}

impl BodyFlux<'_> {
    ghost use Rattle.tb_sums.specs.BodyFluxes.{IsBodyFlux, IsRowOfFlows, entering_under, loss_under};

    // The cells of a row that lie in a base interval along x, from one base line up to the next.
    fn run(&self, row: &FlowRow, around: &Around, b: u32, from: u32, to: u32) -> Sums
        requires fits { IsBodyFlux self.now }
        requires row { IsRowOfFlows self.now around.now.j around.now.k row.now }
        requires around { IsAround self.now.rows around.now.j around.now.k around.now }
        requires within { (around.now.j < counts_of self.now.rows.grid.now Y) × (around.now.k < counts_of self.now.rows.grid.now Z) }
        requires base { b < base_counts self.now.rows.body.now.boxes X }
        requires from { IsLineAt self.now.rows.grid.now.x (slice_index (base_lines X self.now.rows.body.now.boxes) b) from }
        requires to { IsLineAt self.now.rows.grid.now.x (slice_index (base_lines X self.now.rows.body.now.boxes) (b + 1)) to }
        ensures up { from < to }
        ensures loss { pos result.loss ≡ cells_from (mesh_under self.now.rows) (loss_under self.now) around.now.j around.now.k from (to - from) }
        ensures most { result.loss ≤ (to - from) * (15 * 10 ^ 34 + 6 * 10 ^ 30) }
        ensures entering { result.entering ≡ cells_from (mesh_under self.now.rows) (entering_under self.now) around.now.j around.now.k from (to - from) }
        ensures size { unsigned_abs result.entering ≤ (to - from) * (6 * 10 ^ 12) }
    {
        match self.rows.run_at(around, b, from, to) {
            Some(cells) => Sums {
                loss: row.loss(&cells),
                entering: row.entering(&cells),
            },
            None => Sums {
                loss: 0,
                entering: 0,
            },
        }
    }

    // A row of cells.
    fn row(&self, j: u32, k: u32) -> Sums
        requires fits { IsBodyFlux self.now }
        requires row { j < counts_of self.now.rows.grid.now Y }
        requires layer { k < counts_of self.now.rows.grid.now Z }
        ensures loss { pos result.loss ≡ cells_up (mesh_under self.now.rows) (loss_under self.now) j k (counts_of self.now.rows.grid.now X) }
        ensures most { result.loss ≤ 1023 * (15 * 10 ^ 34 + 6 * 10 ^ 30) }
        ensures entering { result.entering ≡ cells_up (mesh_under self.now.rows) (entering_under self.now) j k (counts_of self.now.rows.grid.now X) }
        ensures size { unsigned_abs result.entering ≤ 1023 * (6 * 10 ^ 12) }
    {
        let row = self.row_at(j, k);
        let around = self.rows.around(j, k);
        let mut loss = 0u128;
        let mut entering = 0i128;
        let intervals = self.rows.base_intervals();
        let mut from = self.rows.base_line(0);
        for b in 0..intervals {
            let to = self.rows.base_line(b + 1);
            let cells = self.run(&row, &around, b, from, to);
            loss += cells.loss;
            entering += cells.entering;
            from = to;
        }
        Sums { loss, entering }
    }

    // A layer of cells. A row's loss is below 2^128 - 2^120, so the limit is tested once a row.
    fn layer(&self, k: u32) -> Result<Sums, PastLimit>
        requires fits { IsBodyFlux self.now }
        requires layer { k < counts_of self.now.rows.grid.now Z }
        ensures loss { IfOk result (λ sums. pos sums.loss ≡
            rows_up (mesh_under self.now.rows) (loss_under self.now) k (counts_of self.now.rows.grid.now Y)) }
        ensures within { IfOk result (λ sums. sums.loss ≤ 2 ^ 120) }
        ensures entering { IfOk result (λ sums. sums.entering ≡
            rows_up (mesh_under self.now.rows) (entering_under self.now) k (counts_of self.now.rows.grid.now Y)) }
        ensures size { IfOk result (λ sums. unsigned_abs sums.entering ≤ 1023 * (1023 * (6 * 10 ^ 12))) }
        ensures past_limit { OnErr result (pos (2 ^ 120) <ℤ
            rows_up (mesh_under self.now.rows) (loss_under self.now) k (counts_of self.now.rows.grid.now Y)) }
    {
        let mut loss = 0u128;
        let mut entering = 0i128;
        for j in 0..self.rows.grid.axis(AxisName::Y).intervals() {
            let row = self.row(j, k);
            loss += row.loss;
            entering += row.entering;
            if loss > MOST_LOSS {
                return Err(PastLimit);
            }
        }
        Ok(Sums { loss, entering })
    }

    /// All cells, where their loss isn't above 2^120.
    pub fn sums(&self) -> Result<Sums, PastLimit>
        requires fits { IsBodyFlux self.now }
        ensures loss { IfOk result (λ sums. pos sums.loss ≡ rounded_up (mesh_under self.now.rows) (loss_under self.now)) }
        ensures within { IfOk result (λ sums. sums.loss ≤ 2 ^ 120) }
        ensures entering { IfOk result (λ sums. sums.entering ≡ rounded_up (mesh_under self.now.rows) (entering_under self.now)) }
        ensures size { IfOk result (λ sums. unsigned_abs sums.entering ≤ 1023 * (1023 * (1023 * (6 * 10 ^ 12)))) }
        ensures past_limit { OnErr result (pos (2 ^ 120) <ℤ rounded_up (mesh_under self.now.rows) (loss_under self.now)) }
    {
        let mut loss = 0u128;
        let mut entering = 0i128;
        for k in 0..self.rows.grid.axis(AxisName::Z).intervals() {
            let layer = self.layer(k)?;
            loss += layer.loss;
            entering += layer.entering;
            if loss > MOST_LOSS {
                return Err(PastLimit);
            }
        }
        Ok(Sums { loss, entering })
    }
}
