// Rounds on the field.
ghost use Rattle.std.specs.Prelude.{◌≡◌, length};
ghost use Rattle.tb_grid.specs.Grid.{counts_of};
ghost use Rattle.tb_field.specs.Fields.{AreTemperatures, FitsNodes};
ghost use Rattle.tb_moves.specs.Moves.{IsRelaxedField};
ghost use Rattle.tb_moves.specs.Sessions.{inside_of, mesh_of};
ghost use Rattle.tb_rounds.specs.Rounds.{IsFieldRound, site_of};
ghost use Rattle.tb_rounds.specs.Offers.{IsFieldOffer};

use crate::work::{CgWork, Step};
use tb_candidates::Candidates;
use tb_field::Field;
use tb_moves::Session;

// Offers a field.
fn offer(session: &mut Session, field: &Field) -> bool
    requires fits { FitsNodes (counts_of session.old.grid) field.now }
    requires limits { AreTemperatures field.now }
    ensures { IsFieldOffer session.old result session.new }
{
    session.offer_field(field)
}

// Offers the field of the cells' temperatures, if it wasn't offered since they were found.
fn offer_start(candidates: &mut Candidates, session: &mut Session, field: &mut Field) -> bool
    requires { FitsNodes (counts_of session.old.grid) field.old }
    ensures offer { IsFieldOffer session.old result session.new }
    ensures fits { FitsNodes (counts_of session.old.grid) field.new }
{
    if !candidates.has_start() {
        return false;
    }
    if !candidates.write_start(field.values_mut()) {
        return false;
    }
    offer(session, field)
}

// Writes the field that a descent comes to: one that goes on, or that begins at the present field.
fn descend(candidates: &mut Candidates, present: &Field, field: &mut Field) -> bool
    ensures limits { AreTemperatures field.new }
    ensures length { length field.new ≡ length field.old }
{
    if !candidates.is_descending() {
        candidates.begin(present.values());
    }
    candidates.descend(field.values_mut())
}

// Offers that field. Where it isn't taken, the descent ends.
fn offer_descent(candidates: &mut Candidates, session: &mut Session, field: &mut Field) -> bool
    requires { FitsNodes (counts_of session.old.grid) field.old }
    ensures offer { IsFieldOffer session.old result session.new }
    ensures fits { FitsNodes (counts_of session.old.grid) field.new }
{
    if !descend(candidates, session.field(), field) {
        return false;
    }
    let is_taken = offer(session, field);
    if !is_taken {
        candidates.end();
    }
    is_taken
}

// Offers candidates until one is taken.
fn offer_either(candidates: &mut Candidates, session: &mut Session, field: &mut Field) -> bool
    requires { FitsNodes (counts_of session.old.grid) field.old }
    ensures offer { IsFieldOffer session.old result session.new }
    ensures fits { FitsNodes (counts_of session.old.grid) field.new }
{
    if offer_start(candidates, session, field) {
        return true;
    }
    offer_descent(candidates, session, field)
}

// The same, where there are any.
fn offer_candidate(
    candidates: &mut Option<Candidates>,
    session: &mut Session,
    field: &mut Field,
) -> bool
    requires { FitsNodes (counts_of session.old.grid) field.old }
    ensures offer { IsFieldOffer session.old result session.new }
    ensures fits { FitsNodes (counts_of session.old.grid) field.new }
{
    match candidates {
        Some(candidates) => offer_either(candidates, session, field),
        None => false,
    }
}

// Copies a field.
fn copy(from: &Field, to: &mut Field)
    requires { length to.old ≡ length from.now }
    ensures { to.new ≡ from.now }
{
    to.values_mut().copy_from_slice(from.values());
}

// The present field after the moves of all nodes.
fn relax(session: &Session, field: &mut Field)
    requires { FitsNodes (counts_of session.now.grid) field.old }
    ensures relaxed { IsRelaxedField (mesh_of session.now) (inside_of session.now) session.now.field field.new }
    ensures fits { FitsNodes (counts_of session.now.grid) field.new }
    ensures limits { AreTemperatures field.new }
{
    session.keeps();
    copy(session.field(), field);
    session.relax_field(field);
}

// Offers it.
fn offer_relaxed(session: &mut Session, field: &mut Field) -> Step
    requires { FitsNodes (counts_of session.old.grid) field.old }
    ensures round { IsFieldRound session.old result session.new }
    ensures fits { FitsNodes (counts_of session.old.grid) field.new }
{
    relax(session, field);
    if session.offer_field(field) {
        return Step::Lowered;
    }
    Step::NoGain
}

/// Makes a step of conjugate gradients down the exact energy of fields, and offers the session the field that it comes to.
/// Where the session doesn't take it, it offers the present field after the moves of all nodes. It takes no memory.
pub fn field_round(session: &mut Session, work: &mut CgWork) -> Step
    requires made { work.old ≡ site_of session.old }
    ensures round { IsFieldRound session.old result session.new }
    ensures work { work.new ≡ work.old }
{
    if offer_candidate(&mut work.candidates, session, &mut work.field) {
        return Step::Lowered;
    }
    offer_relaxed(session, &mut work.field)
}
