// The two ends of an interval.
ghost use Rattle.std.specs.Prelude.{◌≡◌, ◌↔◌, ◌*◌, ◌^◌, ◌≤◌, IfOk, IsErr, pos, ◌-ℤ◌, ◌*ℤ◌, ◌<ℤ◌, unsigned_abs};
ghost use Rattle.tb_grid.specs.Grid.{counts_of};
ghost use Rattle.tb_geometry.specs.Grids.{CarriesBody, mesh_on};
ghost use Rattle.tb_model.specs.Energy.{flux_terms, lower_end, rounded_up, upper_end};
ghost use Rattle.tb_model.specs.Values.{case_of};
ghost use Rattle.tb_field.specs.Fields.{AreTemperatures, FitsNodes, field_on};
ghost use Rattle.tb_flux.specs.Fluxes.{AreFlows, FitsFaces, flux_on};

use crate::energy::BodyField;
use crate::flux::BodyFlux;
use crate::interval::ENERGIES;
use crate::inverses::{MOST_INTERVALS, put_inverses};
use tb_field::Field;
use tb_flux::Flux;
use tb_geometry::{Body, Case};
use tb_grid::{AxisName, Grid};
use tb_numbers::PastLimit;
use tb_rows::Rows;

/// The upper end of an interval, in fW/K: the energy of a temperature field on a grid that carries a body, each of its
/// terms rounded up. It takes no memory, and no sum is too large.
pub fn upper_end(body: &Body, grid: &Grid, field: &Field, case: Case) -> i128
    requires carries { CarriesBody grid.now body.now }
    requires fits { FitsNodes (counts_of grid.now) field.now }
    requires limits { AreTemperatures field.now }
    ensures value { result ≡ upper_end (mesh_on body.now grid.now) (case_of case.mask) (field_on grid.now field.now) }
    ensures size { unsigned_abs result ≤ 2 ^ 120 }
{
    let rows = Rows::new(body, grid);
    let mut inverses = [0; MOST_INTERVALS];
    put_inverses(ENERGIES, grid.axis(AxisName::X).lines(), &mut inverses);
    let field = BodyField {
        rows,
        temperatures: field.values(),
        case,
        inverses: inverses.as_slice(),
    };
    field.energy() as i128
}

/// The lower end of an interval, in fW/K: the source of a heat flux on a grid that carries a body, less its loss, each
/// term of the loss rounded up. It takes no memory. The flux need not be balanced; only the lower end of a balanced flux
/// is below the heat flow.
///
/// # Errors
/// `PastLimit` exactly where the rounded loss is above 2^120.
pub fn lower_end(body: &Body, grid: &Grid, flux: &Flux, case: Case) -> Result<i128, PastLimit>
    requires carries { CarriesBody grid.now body.now }
    requires fits { FitsFaces (counts_of grid.now) flux.now }
    requires limits { AreFlows flux.now }
    ensures value { IfOk result (λ end. end ≡ lower_end (mesh_on body.now grid.now) (case_of case.mask) (flux_on grid.now flux.now)) }
    ensures size { IfOk result (λ end. unsigned_abs end ≤ 2 ^ 121) }
    ensures past_limit { let m = mesh_on body.now grid.now in
        IsErr result ↔ (pos (2 ^ 120) <ℤ rounded_up m (flux_terms m (flux_on grid.now flux.now))) }
{
    let rows = Rows::new(body, grid);
    let mut inverses = [0; MOST_INTERVALS];
    put_inverses(1, grid.axis(AxisName::X).lines(), &mut inverses);
    let flux = BodyFlux {
        rows,
        flows: flux.values(),
        case,
        inverses: inverses.as_slice(),
    };
    let sums = flux.sums()?;
    Ok(source_less(sums.entering, sums.loss))
}

// The source, which is twice the flow that enters times the temperature 1, less a loss.
fn source_less(entering: i128, loss: u128) -> i128
    requires entering { unsigned_abs entering ≤ 10 ^ 22 }
    requires loss { loss ≤ 2 ^ 120 }
    ensures value { result ≡ pos (2 * 10 ^ 6) *ℤ entering -ℤ pos loss }
    ensures size { unsigned_abs result ≤ 2 ^ 121 }
{
    2_000_000 * entering - loss as i128
}
