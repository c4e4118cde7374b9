// One pass over a grid.
ghost use Rattle.tb_model.specs.Energy.{Case};
ghost use Rattle.tb_model.specs.Mesh.{Mesh};
ghost use Rattle.tb_weighted.specs.Limits.{IsField, IsFlux};
ghost use Rattle.tb_weighted.specs.Moves.{IsPass};
ghost use Rattle.tb_relax.specs.Passes.{IsTableOf};
ghost use Rattle.tb_relax.specs.Tables.{IsTable, table_counts};

use crate::table::Table;

impl Table<'_> {
    /// A plain pass on a field and a flux: the moves of all nodes, then those of all loops, each in order. Says whether
    /// one of them changed a value. On the table of a mesh it is the pass of the mesh.
    pub fn pass(&self, values: &mut [i64], flows: &mut [i64]) -> bool
        requires table { IsTable self.now }
        requires field { IsField (table_counts self.now) values.old }
        requires flux { IsFlux (table_counts self.now) flows.old }
        ensures moved { (m : Mesh) (inside : Case) → IsTableOf m inside self.now
            → IsPass m inside (record { field = values.old; flux = flows.old }) (record { field = values.new; flux = flows.new }) result }
        ensures field { IsField (table_counts self.now) values.new }
        ensures flux { IsFlux (table_counts self.now) flows.new }
    {
        let nodes = self.relax_nodes(values);
        let loops = self.relax_loops(flows);
        nodes || loops
    }
}
