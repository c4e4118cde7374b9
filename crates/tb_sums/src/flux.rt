// A flux on a grid that carries a body, and the flows along its rows.
ghost use Rattle.std.specs.Prelude.{◌+◌, ◌<◌, ◌≤◌};
ghost use Rattle.tb_places.specs.declared.AxisName.TheVariants.{X, Y, Z};
ghost use Rattle.tb_grid.specs.Grid.{counts_of};

use crate::flow_row::{FlowRow, FlowRows};
use crate::width::Width;
use tb_geometry::Case;
use tb_grid::{AxisName, Place};
use tb_rows::Rows;

/// A flux on a grid that carries a body, and a case: one flow for each face, in nW per unit difference. With it come
/// inverses of the widths along x.
#[derive(Clone, Copy)]
pub struct BodyFlux<'a> {
    pub rows: Rows<'a>,
    pub flows: &'a [i64],
    pub case: Case,
    pub inverses: &'a [u64],
}

impl<'a> BodyFlux<'a> {
    ghost use Rattle.tb_sums.specs.BodyFluxes.{AreFlowRows, IsBodyFlux, IsFlowRow, IsRowOfFlows};

    // The flows across x at each line of a row.
    fn flows_x(&self, j: u32, k: u32) -> &'a [i64]
        requires fits { IsBodyFlux self.now }
        requires row { j < counts_of self.now.rows.grid.now Y }
        requires layer { k < counts_of self.now.rows.grid.now Z }
        ensures { IsFlowRow self.now X j k (counts_of self.now.rows.grid.now X + 1) result.now }
    {
        let counts = self.rows.grid.counts();
        let last = counts.face_number(AxisName::X, Place { i: counts.x, j, k });
        let end = last.0 as usize + 1;
        &self.flows[end - counts.x as usize - 1..end]
    }

    // The flows across y through the low sides of a row of cells, or the high sides of the row before it.
    fn flows_y(&self, j: u32, k: u32) -> &'a [i64]
        requires fits { IsBodyFlux self.now }
        requires row { j ≤ counts_of self.now.rows.grid.now Y }
        requires layer { k < counts_of self.now.rows.grid.now Z }
        ensures { IsFlowRow self.now Y j k (counts_of self.now.rows.grid.now X) result.now }
    {
        let counts = self.rows.grid.counts();
        let i = counts.x - 1;
        let last = counts.face_number(AxisName::Y, Place { i, j, k });
        let end = last.0 as usize + 1;
        &self.flows[end - counts.x as usize..end]
    }

    // The flows across z through the low sides of a row of cells, or the high sides of the row below it.
    fn flows_z(&self, j: u32, k: u32) -> &'a [i64]
        requires fits { IsBodyFlux self.now }
        requires row { j < counts_of self.now.rows.grid.now Y }
        requires layer { k ≤ counts_of self.now.rows.grid.now Z }
        ensures { IsFlowRow self.now Z j k (counts_of self.now.rows.grid.now X) result.now }
    {
        let counts = self.rows.grid.counts();
        let i = counts.x - 1;
        let last = counts.face_number(AxisName::Z, Place { i, j, k });
        let end = last.0 as usize + 1;
        &self.flows[end - counts.x as usize..end]
    }

    fn flow_rows(&self, j: u32, k: u32) -> FlowRows<'a>
        requires fits { IsBodyFlux self.now }
        requires row { j < counts_of self.now.rows.grid.now Y }
        requires layer { k < counts_of self.now.rows.grid.now Z }
        ensures rows { AreFlowRows self.now j k result }
    {
        FlowRows {
            x: self.flows_x(j, k),
            low_y: self.flows_y(j, k),
            high_y: self.flows_y(j + 1, k),
            low_z: self.flows_z(j, k),
            high_z: self.flows_z(j, k + 1),
        }
    }

    /// A row of cells, with the flows through its faces.
    pub fn row_at(&self, j: u32, k: u32) -> FlowRow<'a>
        requires fits { IsBodyFlux self.now }
        requires row { j < counts_of self.now.rows.grid.now Y }
        requires layer { k < counts_of self.now.rows.grid.now Z }
        ensures { IsRowOfFlows self.now j k result }
    {
        FlowRow {
            lines: self.rows.grid.axis(AxisName::X).lines(),
            inverses: self.inverses,
            y: Width::new(self.rows.width(AxisName::Y, j)),
            z: Width::new(self.rows.width(AxisName::Z, k)),
            flows: self.flow_rows(j, k),
            mask: self.case.mask,
        }
    }
}
