// The ends of fields and fluxes.
ghost use Rattle.std.specs.Prelude.{◌≡◌, ◌^◌, ◌≤◌, IfSome, MatchOption, pos, ◌≤ℤ◌, ◌<ℤ◌, unsigned_abs};
ghost use Rattle.tb_grid.specs.Grid.{counts_of};
ghost use Rattle.tb_model.specs.Energy.{flux_terms, lower_end, rounded_up, upper_end};
ghost use Rattle.tb_field.specs.Fields.{AreTemperatures, FitsNodes, field_on};
ghost use Rattle.tb_flux.specs.Fluxes.{AreFlows, FitsFaces, flux_on};
ghost use Rattle.tb_moves.specs.Sessions.{IsHigherThan};
ghost use Rattle.tb_moves.specs.Settings.{case_in, mesh_in};

use crate::setting::Setting;
use tb_field::Field;
use tb_flux::Flux;

impl Setting<'_> {
    /// The upper end of a field, in fW/K.
    pub fn upper_end(&self, field: &Field) -> i128
        requires fits { FitsNodes (counts_of self.now.grid) field.now }
        requires limits { AreTemperatures field.now }
        ensures value { result ≡ upper_end (mesh_in self.now) (case_in self.now) (field_on self.now.grid field.now) }
        ensures size { unsigned_abs result ≤ 2 ^ 120 }
    {
        tb_sums::upper_end(self.body, self.grid, field, self.case)
    }

    /// The lower end of a flux whose loss is within the limit, in fW/K.
    pub fn sure_lower_end(&self, flux: &Flux) -> i128
        requires fits { FitsFaces (counts_of self.now.grid) flux.now }
        requires limits { AreFlows flux.now }
        requires within { let m = mesh_in self.now in rounded_up m (flux_terms m (flux_on self.now.grid flux.now)) ≤ℤ pos (2 ^ 120) }
        ensures value { result ≡ lower_end (mesh_in self.now) (case_in self.now) (flux_on self.now.grid flux.now) }
        ensures size { unsigned_abs result ≤ 2 ^ 121 }
    {
        match tb_sums::lower_end(self.body, self.grid, flux, self.case) {
            Ok(end) => end,
            Err(_) => unreachable!(),
        }
    }

    /// The lower end of a flux, if the flux is balanced and the end is within the limit, at least 0 and higher than another.
    pub fn higher_end(&self, flux: &Flux, other: i128) -> Option<i128>
        requires fits { FitsFaces (counts_of self.now.grid) flux.now }
        requires limits { AreFlows flux.now }
        ensures higher { MatchOption result (¬ IsHigherThan self.now.body self.now.grid self.now.case other flux.now) (λ end. IsHigherThan self.now.body self.now.grid self.now.case other flux.now) }
        ensures value { IfSome result (λ end. end ≡ lower_end (mesh_in self.now) (case_in self.now) (flux_on self.now.grid flux.now)) }
        ensures size { IfSome result (λ end. unsigned_abs end ≤ 2 ^ 121) }
    {
        if !flux.is_balanced(self.body, self.grid) {
            return None;
        }
        match tb_sums::lower_end(self.body, self.grid, flux, self.case) {
            Ok(end) => higher(end, other),
            Err(_) => None,
        }
    }
}

// An end that is at least 0 and higher than another.
fn higher(end: i128, other: i128) -> Option<i128>
    ensures higher { MatchOption result (¬ ((pos 0 ≤ℤ end) × (other <ℤ end))) (λ same. (pos 0 ≤ℤ end) × (other <ℤ end)) }
    ensures value { IfSome result (λ same. same ≡ end) }
{
    if end < 0 || end <= other {
        return None;
    }
    Some(end)
}
