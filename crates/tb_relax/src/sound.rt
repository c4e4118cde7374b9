// What a table and a field must keep, tested.
ghost use Rattle.std.specs.Prelude.{◌<◌, ◌↔◌, All, IsTrue};
ghost use Rattle.tb_weighted.specs.Limits.{InField, InFlow, IsField, IsFlux};
ghost use Rattle.tb_relax.specs.Tables.{IsTable, table_counts};

use crate::table::Table;

impl Table<'_> {
    /// Whether each cell and each face has a row.
    pub fn is_sound(&self) -> bool
        ensures { IsTrue result ↔ IsTable self.now }
    {
        self.cells.len() == self.counts.cells() as usize
            && self.faces.len() == self.counts.faces() as usize
            && all_below(self.cells, self.cell_rows.len())
            && all_below(self.faces, self.face_rows.len())
    }

    /// Whether values are those of a field: one for each node, from 0 to 1.
    pub fn fits(&self, values: &[i64]) -> bool
        ensures { IsTrue result ↔ IsField (table_counts self.now) values.now }
    {
        values.len() == self.counts.nodes() as usize && all_in_field(values)
    }

    /// Whether flows are those of a flux: one for each face, within the limits.
    pub fn holds(&self, flows: &[i64]) -> bool
        ensures { IsTrue result ↔ IsFlux (table_counts self.now) flows.now }
    {
        flows.len() == self.counts.faces() as usize && all_in_flow(flows)
    }
}

fn all_below(numbers: &[u32], limit: usize) -> bool
    ensures { IsTrue result ↔ All (λ r. r < limit) numbers.now }
{
    numbers.iter().all(|r| (*r as usize) < limit)
}

fn all_in_field(values: &[i64]) -> bool
    ensures { IsTrue result ↔ All InField values.now }
{
    values.iter().all(|v| *v >= 0 && *v <= 100_000_000)
}

fn all_in_flow(flows: &[i64]) -> bool
    ensures { IsTrue result ↔ All InFlow flows.now }
{
    flows
        .iter()
        .all(|v| *v >= -1_000_000_000_000 && *v <= 1_000_000_000_000)
}
