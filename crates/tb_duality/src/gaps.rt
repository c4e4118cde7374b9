// The gap between the two ends of an interval.
ghost use Rattle.std.specs.Prelude.{◌≡◌, ◌↔◌, ◌^◌, IfOk, IsErr, pos, ◌-ℤ◌, ◌<ℤ◌, ◌≤ℤ◌};
ghost use Rattle.tb_field.specs.Fields.{AreTemperatures, FitsNodes, field_on};
ghost use Rattle.tb_flux.specs.Fluxes.{AreFlows, FitsFaces, flux_on};
ghost use Rattle.tb_geometry.specs.Grids.{CarriesBody, mesh_on};
ghost use Rattle.tb_grid.specs.Grid.{counts_of};
ghost use Rattle.tb_model.specs.Energy.{IsBalanced, flux_terms, lower_end, rounded_up, upper_end};
ghost use Rattle.tb_model.specs.Values.{case_of};

use tb_field::Field;
use tb_flux::Flux;
use tb_geometry::{Body, Case};
use tb_grid::Grid;
use tb_sums::{PastLimit, lower_end, upper_end};

/// The upper end of a field less the lower end of a flux, in fW/K, each on a grid of its own that carries the body. It is
/// never negative where the flux is balanced. It takes no memory.
///
/// # Errors
/// `PastLimit` exactly where the rounded loss of the flux is above 2^120.
pub fn gap(
    body: &Body,
    field_grid: &Grid,
    field: &Field,
    flux_grid: &Grid,
    flux: &Flux,
    case: Case,
) -> Result<i128, PastLimit>
    requires field_carries { CarriesBody field_grid.now body.now }
    requires field_fits { FitsNodes (counts_of field_grid.now) field.now }
    requires field_limits { AreTemperatures field.now }
    requires flux_carries { CarriesBody flux_grid.now body.now }
    requires flux_fits { FitsFaces (counts_of flux_grid.now) flux.now }
    requires flux_limits { AreFlows flux.now }
    ensures value { IfOk result (λ gap. gap ≡
        upper_end (mesh_on body.now field_grid.now) (case_of case.mask) (field_on field_grid.now field.now)
        -ℤ lower_end (mesh_on body.now flux_grid.now) (case_of case.mask) (flux_on flux_grid.now flux.now)) }
    ensures not_negative { IsBalanced (mesh_on body.now flux_grid.now) (flux_on flux_grid.now flux.now)
        → IfOk result (λ gap. pos 0 ≤ℤ gap) }
    ensures past_limit { let m = mesh_on body.now flux_grid.now in
        IsErr result ↔ (pos (2 ^ 120) <ℤ rounded_up m (flux_terms m (flux_on flux_grid.now flux.now))) }
{
    let _base = body.base();
    let hi = upper_end(body, field_grid, field, case);
    let lo = lower_end(body, flux_grid, flux, case)?;
    Ok(hi - lo)
}
