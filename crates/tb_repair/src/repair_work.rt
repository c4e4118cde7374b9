// A repair, and what it works on.
ghost use Rattle.std.specs.Prelude.{◌≡◌, ◌<◌, IfOk, length, replicate, pos};
ghost use Rattle.tb_places.specs.Places.{face_count};
ghost use Rattle.tb_grid.specs.Grid.{counts_of};
ghost use Rattle.tb_flux.specs.Fluxes.{AreFlows, FitsFaces};
ghost use Rattle.tb_outlets.specs.Balancing.{IsWithinLimits};
ghost use Rattle.tb_outlets.specs.Repair.{IsRepairAnswer};
ghost use Rattle.tb_trees.specs.Bodies.{mesh_of};
ghost use Rattle.tb_repair.specs.Works.{Repairs, zero_flux};

use std::alloc::Global;
use std::marker::Model;
use std::snapshot::Snapshot;
use tb_flux::Flux;
use tb_trees::{NoMemory, OutletTree};

/// What a repair works on: it holds the repaired flux of a body on a grid. Contracts see the body on the grid and the
/// flux.
#[derive(Drop)]
pub struct RepairWork {
    site: Snapshot<OutletTree>,
    flux: Flux,
}

impl Model for RepairWork {
    ghost use Rattle.tb_flux.specs.Fluxes.{FitsFaces};
    ghost use Rattle.tb_grid.specs.Grid.{counts_of};
    ghost use Rattle.tb_repair.specs.Works.{Work};

    ghost Value = { Work };

    ghost view = { λ w. record { site = w.site.value; flux = w.flux } };

    ghost invariant = { λ w. FitsFaces (counts_of w.site.value.grid) w.flux };
}

impl RepairWork {
    /// What repairs along an outlet tree work on, with the zero flux.
    ///
    /// # Errors
    /// Memory ran out.
    pub fn new(alloc: Global, tree: &OutletTree) -> Result<RepairWork, NoMemory>
        ensures { IfOk result (λ work. work ≡ record { site = tree.now; flux = zero_flux tree.now }) }
    {
        let values = vec![in alloc; 0; tree.faces() as usize]?;
        Ok(RepairWork {
            site: Snapshot::of(tree),
            flux: Flux::from_values(values),
        })
    }

    /// The repaired flux: of the last repair, if it answered true. After false, and before the first, it is the zero flux.
    pub fn repaired(&self) -> &Flux
        ensures { result.now ≡ self.now.flux }
    {
        &self.flux
    }
}

// The repaired flows, or 0 through each face where they aren't within the limits.
fn repaired_or_zero(tree: &OutletTree, given: &[i64], values: &mut [i64]) -> bool
    requires given { length given.now ≡ face_count (counts_of tree.now.grid) }
    requires values { length values.old ≡ face_count (counts_of tree.now.grid) }
    requires limits { IsWithinLimits given.now }
    ensures { Repairs tree.now given.now result values.new }
{
    let is_within = tree.repair_values(given, values);
    if !is_within {
        values.fill(0);
    }
    is_within
}

// The same of a flux.
fn repaired_flux(tree: &OutletTree, given: &Flux, flux: &mut Flux) -> bool
    requires given { FitsFaces (counts_of tree.now.grid) given.now }
    requires flux { FitsFaces (counts_of tree.now.grid) flux.old }
    requires limits { AreFlows given.now }
    ensures repairs { Repairs tree.now given.now result flux.new }
    ensures fits { FitsFaces (counts_of tree.now.grid) flux.new }
{
    repaired_or_zero(tree, given.values(), flux.values_mut())
}

/// Finds the one balanced flux that agrees with the given one on all inner and surface faces that aren't outlets, and is 0
/// on the other faces but the outlets. True exactly where it is within the limits: the work then holds it. Else the work
/// holds the zero flux. It takes no memory.
pub fn repair(tree: &OutletTree, given: &Flux, work: &mut RepairWork) -> bool
    requires made { work.old.site ≡ tree.now }
    requires fits { FitsFaces (counts_of tree.now.grid) given.now }
    requires limits { AreFlows given.now }
    ensures repairs { Repairs tree.now given.now result work.new.flux }
    ensures site { work.new.site ≡ work.old.site }
{
    repaired_flux(tree, given, &mut work.flux)
}
