//! What the code may use of tables: the contract of a function that does nothing.
ghost use Rattle.std.specs.Prelude.{◌≡◌};
ghost use Rattle.tb_model.specs.Energy.{Case};
ghost use Rattle.tb_model.specs.Mesh.{Mesh};
ghost use Rattle.tb_relax.specs.declared.table.Table.{Table};
ghost use Rattle.tb_relax.specs.Passes.{IsTableOf};
ghost use Rattle.tb_relax.specs.Tables.{IsTable, table_counts};
ghost use Rattle.tb_tables.specs.Filled.{HasRowsOf};

/// A table whose cells and faces have the rows of a mesh is the table of that mesh, so that moves on it are the mesh's.
pub fn rows_make_tables()
    ensures { (m : Mesh) (inside : Case) (t : Table) → IsTable t → table_counts t ≡ m.cells → HasRowsOf m inside (table_counts t) t → IsTableOf m inside t }
{}
