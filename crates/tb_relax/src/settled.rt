// Whether a field and a flux are settled.
ghost use Rattle.std.specs.Prelude.{◌↔◌, IsTrue};
ghost use Rattle.tb_model.specs.Energy.{Case};
ghost use Rattle.tb_model.specs.Mesh.{Mesh};
ghost use Rattle.tb_weighted.specs.Limits.{IsField, IsFlux};
ghost use Rattle.tb_weighted.specs.Moves.{IsSettled};
ghost use Rattle.tb_relax.specs.Passes.{IsTableOf};
ghost use Rattle.tb_relax.specs.Tables.{IsTable, table_counts};

use crate::table::Table;

impl Table<'_> {
    /// Whether no move of a plain pass changes a field and a flux. It writes nothing, and stops at the first that would.
    /// On the table of a mesh it says whether the state is settled on the mesh.
    pub fn is_settled(&self, values: &[i64], flows: &[i64]) -> bool
        requires table { IsTable self.now }
        requires field { IsField (table_counts self.now) values.now }
        requires flux { IsFlux (table_counts self.now) flows.now }
        ensures { (m : Mesh) (inside : Case) → IsTableOf m inside self.now
            → IsTrue result ↔ IsSettled m inside (record { field = values.now; flux = flows.now }) }
    {
        if self.some_node_moves(values) {
            return false;
        }
        !self.some_loop_moves(flows)
    }
}
