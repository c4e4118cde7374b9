// Rounds on the flux.
ghost use Rattle.std.specs.Prelude.{◌≡◌, ◌^◌, ◌≤ℤ◌, length, pos};
ghost use Rattle.tb_grid.specs.Grid.{counts_of};
ghost use Rattle.tb_model.specs.Energy.{IsBalanced, flux_terms, rounded_up};
ghost use Rattle.tb_flux.specs.Fluxes.{AreFlows, FitsFaces, flux_on};
ghost use Rattle.tb_moves.specs.FluxPasses.{IsRelaxedFlux};
ghost use Rattle.tb_moves.specs.Sessions.{inside_of, lower_of, mesh_of};
ghost use Rattle.tb_rounds.specs.Rounds.{IsFluxRound, site_of};
ghost use Rattle.tb_rounds.specs.Offers.{IsFluxOffer};

use crate::work::{CgWork, Step};
use tb_candidates::Candidates;
use tb_flux::Flux;
use tb_moves::Session;
use tb_repair::{RepairWork, repair};

// Offers a flux.
fn offer(session: &mut Session, flux: &Flux) -> bool
    requires fits { FitsFaces (counts_of session.old.grid) flux.now }
    requires limits { AreFlows flux.now }
    ensures { IsFluxOffer session.old result session.new }
{
    session.offer_flux(flux)
}

// Writes the flux of the cells' temperatures beside a present flux.
fn solve(candidates: &mut Candidates, present: &Flux, flux: &mut Flux) -> bool
    ensures limits { AreFlows flux.new }
    ensures length { length flux.new ≡ length flux.old }
{
    candidates.write_flux(present.values(), flux.values_mut())
}

// Repairs it, and offers it.
fn offer_repaired(
    candidates: &mut Candidates,
    session: &mut Session,
    flux: &mut Flux,
    work: &mut RepairWork,
) -> bool
    requires made { work.old.site ≡ site_of session.old }
    requires fits { FitsFaces (counts_of session.old.grid) flux.old }
    ensures offer { IsFluxOffer session.old result session.new }
    ensures fits { FitsFaces (counts_of session.old.grid) flux.new }
    ensures site { work.new.site ≡ work.old.site }
{
    if !solve(candidates, session.flux(), flux) {
        return false;
    }
    if !repair(session.tree(), flux, work) {
        return false;
    }
    offer(session, work.repaired())
}

// The same, where there are any candidates.
fn offer_candidate(
    candidates: &mut Option<Candidates>,
    session: &mut Session,
    flux: &mut Flux,
    work: &mut RepairWork,
) -> bool
    requires made { work.old.site ≡ site_of session.old }
    requires fits { FitsFaces (counts_of session.old.grid) flux.old }
    ensures offer { IsFluxOffer session.old result session.new }
    ensures fits { FitsFaces (counts_of session.old.grid) flux.new }
    ensures site { work.new.site ≡ work.old.site }
{
    match candidates {
        Some(candidates) => offer_repaired(candidates, session, flux, work),
        None => false,
    }
}

// The same, unless the last one wasn't taken.
fn offer_again(session: &mut Session, work: &mut CgWork) -> bool
    requires made { work.old ≡ site_of session.old }
    ensures offer { IsFluxOffer session.old result session.new }
    ensures work { work.new ≡ work.old }
{
    if work.is_flux_found {
        return false;
    }
    let is_taken = offer_candidate(
        &mut work.candidates,
        session,
        &mut work.flux,
        &mut work.repair,
    );
    work.is_flux_found = !is_taken;
    is_taken
}

// Copies a flux.
fn copy(from: &Flux, to: &mut Flux)
    requires { length to.old ≡ length from.now }
    ensures { to.new ≡ from.now }
{
    to.values_mut().copy_from_slice(from.values());
}

// The present flux after the moves of all loops and cycles.
fn relax(session: &Session, flux: &mut Flux)
    requires { FitsFaces (counts_of session.now.grid) flux.old }
    ensures relaxed { IsRelaxedFlux (mesh_of session.now) (inside_of session.now) session.now.flux flux.new }
    ensures fits { FitsFaces (counts_of session.now.grid) flux.new }
    ensures limits { AreFlows flux.new }
    ensures balanced { IsBalanced (mesh_of session.now) (flux_on session.now.grid flux.new) }
    ensures loss { pos 0 ≤ℤ lower_of session.now flux.new
        → rounded_up (mesh_of session.now) (flux_terms (mesh_of session.now) (flux_on session.now.grid flux.new)) ≤ℤ pos (2 ^ 120) }
{
    session.keeps();
    let _counts = session.grid().counts();
    copy(session.flux(), flux);
    session.relax_flux(flux);
}

// Offers it.
fn offer_relaxed(session: &mut Session, flux: &mut Flux) -> Step
    requires { FitsFaces (counts_of session.old.grid) flux.old }
    ensures round { IsFluxRound session.old result session.new }
    ensures fits { FitsFaces (counts_of session.old.grid) flux.new }
{
    relax(session, flux);
    if session.offer_flux(flux) {
        return Step::Lowered;
    }
    Step::NoGain
}

/// Solves for the flux of the temperatures in the middles of the cells, beside the present flux, repairs it and offers it to
/// the session. Where the session doesn't take it, or didn't take one before, it offers the present flux after the moves of
/// all loops and cycles. It takes no memory.
pub fn flux_round(session: &mut Session, work: &mut CgWork) -> Step
    requires made { work.old ≡ site_of session.old }
    ensures round { IsFluxRound session.old result session.new }
    ensures work { work.new ≡ work.old }
{
    if offer_again(session, work) {
        return Step::Lowered;
    }
    offer_relaxed(session, &mut work.flux)
}
