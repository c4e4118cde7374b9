//! The laws of bodies on grids.
//!
//! Each law is the contract of a function that does nothing; the lemma behind a clause is in `proofs/`.

ghost use Rattle.tb_detail.specs.declared.Detail.{Detail};
ghost use Rattle.tb_detail.specs.Limits.{InLimits};
ghost use Rattle.tb_grid.specs.Grid.{Axes};
ghost use Rattle.tb_walk.specs.Isolated.{NoneIsolated};
ghost use Rattle.tb_geometry.specs.Faults.{IsAccepted};
ghost use Rattle.tb_geometry.specs.Grids.{CarriesBody, mesh_on};

/// On every grid that carries an accepted body a way leads from each solid cell through solid cells to a surface.
pub fn no_solid_is_isolated()
    ensures { (d : Detail) (g : Axes) → InLimits d → IsAccepted d → CarriesBody g d → NoneIsolated (mesh_on d g) }
{}
