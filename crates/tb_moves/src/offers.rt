// The ends of a session, what is offered to it, and what it makes of candidates.
ghost use Rattle.std.specs.Prelude.{◌≡◌, ◌↔◌, ◌^◌, ◌≤◌, IsFalse, IsTrue, length, pos, ◌≤ℤ◌, ◌<ℤ◌, unsigned_abs};
ghost use Rattle.tb_grid.specs.Grid.{counts_of};
ghost use Rattle.tb_model.specs.Energy.{IsBalanced, flux_terms, rounded_up};
ghost use Rattle.tb_field.specs.Fields.{AreTemperatures, FitsNodes};
ghost use Rattle.tb_flux.specs.Fluxes.{AreFlows, FitsFaces, flux_on};
ghost use Rattle.tb_moves.specs.Keeping.{IsKeptEnd};
ghost use Rattle.tb_moves.specs.Moves.{IsRelaxedField};
ghost use Rattle.tb_moves.specs.FluxPasses.{IsRelaxedFlux};
ghost use Rattle.tb_moves.specs.Sessions.{IsHigher, IsLower, inside_of, lower_of, mesh_of, upper_of, with_field, with_flux};

use crate::session::Session;
use tb_field::Field;
use tb_flux::Flux;
use tb_terms::Interval;

impl Session<'_> {
    // The upper end of the present field.
    fn upper_end(&self) -> i128
        ensures value { result ≡ upper_of self.now self.now.field }
        ensures size { unsigned_abs result ≤ 2 ^ 120 }
    {
        match self.upper {
            Some(end) => end,
            None => self.setting.upper_end(&self.field),
        }
    }

    // The lower end of the present flux.
    fn lower_end(&self) -> i128
        ensures value { result ≡ lower_of self.now self.now.flux }
        ensures size { unsigned_abs result ≤ 2 ^ 121 }
    {
        match self.lower {
            Some(end) => end,
            None => self.setting.sure_lower_end(&self.flux),
        }
    }

    /// The two ends of the present field and flux, in fW/K.
    pub fn interval(&self) -> Interval
        ensures lower { result.lo ≡ lower_of self.now self.now.flux }
        ensures upper { result.hi ≡ upper_of self.now self.now.field }
        ensures loss { rounded_up (mesh_of self.now) (flux_terms (mesh_of self.now) (flux_on self.now.grid self.now.flux)) ≤ℤ pos (2 ^ 120) }
        ensures lower_size { unsigned_abs result.lo ≤ 2 ^ 121 }
        ensures upper_size { unsigned_abs result.hi ≤ 2 ^ 120 }
    {
        let _ = &self.setting;
        let lo = self.lower_end();
        let hi = self.upper_end();
        Interval { lo, hi }
    }

    /// Takes a field in place of the present one, exactly where its upper end is lower.
    pub fn offer_field(&mut self, candidate: &Field) -> bool
        requires fits { FitsNodes (counts_of self.old.grid) candidate.now }
        requires limits { AreTemperatures candidate.now }
        ensures better { IsTrue result ↔ IsLower self.old candidate.now }
        ensures taken { IsTrue result → self.new ≡ with_field self.old candidate.now }
        ensures left { IsFalse result → self.new ≡ self.old }
    {
        let present = self.upper_end();
        self.upper = Some(present);
        let end = self.setting.upper_end(candidate);
        if !is_lower(end, present) {
            return false;
        }
        copy_field(&mut self.field, candidate);
        self.upper = Some(end);
        true
    }

    /// Takes a flux in place of the present one, exactly where it is balanced and its lower end is within the limit, at
    /// least 0 and higher.
    pub fn offer_flux(&mut self, candidate: &Flux) -> bool
        requires fits { FitsFaces (counts_of self.old.grid) candidate.now }
        requires limits { AreFlows candidate.now }
        ensures better { IsTrue result ↔ IsHigher self.old candidate.now }
        ensures taken { IsTrue result → self.new ≡ with_flux self.old candidate.now }
        ensures left { IsFalse result → self.new ≡ self.old }
    {
        let present = self.lower_end();
        self.lower = Some(present);
        let Some(end) = self.setting.higher_end(candidate, present) else {
            return false;
        };
        copy_flux(&mut self.flux, candidate);
        self.lower = Some(end);
        true
    }

    /// Makes the nodes' part of a plain pass on a field.
    pub fn relax_field(&self, candidate: &mut Field)
        requires fits { FitsNodes (counts_of self.now.grid) candidate.old }
        requires limits { AreTemperatures candidate.old }
        ensures relaxed { IsRelaxedField (mesh_of self.now) (inside_of self.now) candidate.old candidate.new }
        ensures fits { FitsNodes (counts_of self.now.grid) candidate.new }
        ensures limits { AreTemperatures candidate.new }
    {
        self.setting.move_nodes(candidate);
    }

    /// Makes the loops' and cycles' part of a plain pass on a balanced flux.
    pub fn relax_flux(&self, candidate: &mut Flux)
        requires fits { FitsFaces (counts_of self.now.grid) candidate.old }
        requires limits { AreFlows candidate.old }
        requires balanced { IsBalanced (mesh_of self.now) (flux_on self.now.grid candidate.old) }
        ensures relaxed { IsRelaxedFlux (mesh_of self.now) (inside_of self.now) candidate.old candidate.new }
        ensures fits { FitsFaces (counts_of self.now.grid) candidate.new }
        ensures limits { AreFlows candidate.new }
        ensures balanced { IsBalanced (mesh_of self.now) (flux_on self.now.grid candidate.new) }
    {
        self.setting.move_loops(candidate);
        self.setting.move_cycles(candidate);
    }
}

// Whether an end is lower than another.
fn is_lower(end: i128, other: i128) -> bool
    ensures { IsTrue result ↔ (end <ℤ other) }
{
    end < other
}

// Copies the values of a field of the same grid.
fn copy_field(field: &mut Field, from: &Field)
    requires { length field.old ≡ length from.now }
    ensures { field.new ≡ from.now }
{
    copy(field.values_mut(), from.values());
}

// Copies the flows of a flux of the same grid.
fn copy_flux(flux: &mut Flux, from: &Flux)
    requires { length flux.old ≡ length from.now }
    ensures { flux.new ≡ from.now }
{
    copy(flux.values_mut(), from.values());
}

fn copy(values: &mut [i64], from: &[i64])
    requires { length values.old ≡ length from.now }
    ensures { values.new ≡ from.now }
{
    values.copy_from_slice(from);
}
