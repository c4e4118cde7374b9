// How wide an interval is, and the verdict of a state.
ghost use Rattle.std.specs.Prelude.{◌≡◌, ◌↔◌, ◌^◌, ◌≤◌, ◌<ℤ◌, IsTrue, unsigned_abs};
ghost use Rattle.tb_driver.specs.Candidates.{IsCandidate};
ghost use Rattle.tb_driver.specs.Solved.{AreSmall, IsReached, IsVerdict, state_of, width_of};
ghost use Rattle.tb_moves.specs.Moves.{IsSettled};
ghost use Rattle.tb_moves.specs.Sessions as sessions;

use crate::solved::Solved;
use tb_case_records::Verdict;
use tb_moves::Session;
use tb_terms::Interval;

/// How wide an interval is, in fW/K.
pub fn width_of(interval: Interval) -> i128
    requires { AreSmall interval }
    ensures width { result ≡ width_of interval }
    ensures size { unsigned_abs result ≤ 2 ^ 122 }
{
    interval.hi - interval.lo
}

/// Whether an interval is at most so wide, in µW/K.
pub fn is_reached(interval: Interval, width: u64) -> bool
    requires ends { AreSmall interval }
    requires width { width ≤ 10 ^ 9 }
    ensures { IsTrue result ↔ IsReached width interval }
{
    width_of(interval) <= i128::from(width * 1_000_000_000)
}

/// Whether an interval is narrower than another.
pub fn is_narrower(interval: Interval, other: Interval) -> bool
    requires ends { AreSmall interval }
    requires other_ends { AreSmall other }
    ensures { IsTrue result ↔ (width_of interval <ℤ width_of other) }
{
    width_of(interval) < width_of(other)
}

// The verdict of the present state, whose interval this is.
fn verdict_of(session: &Session, interval: Interval, width: u64) -> Verdict
    requires ends { AreSmall interval }
    requires width { width ≤ 10 ^ 9 }
    ensures { let s = session.now in
        IsVerdict result (IsReached width interval) (IsSettled (sessions.mesh_of s) (sessions.inside_of s) (sessions.state_of s)) }
{
    if is_reached(interval, width) {
        return Verdict::Done;
    }
    if session.settled() {
        Verdict::GridLimit
    } else {
        Verdict::SweepsSpent
    }
}

/// The present state with its interval and its verdict.
pub fn judged(session: Session, width: u64) -> Solved
    requires { width ≤ 10 ^ 9 }
    ensures candidate { let s = session.entry in IsCandidate s.body s.grid s.case.mask width result }
    ensures state { state_of result ≡ sessions.state_of session.entry }
{
    session.keeps();
    let interval = session.interval();
    let verdict = verdict_of(&session, interval, width);
    let (field, flux) = session.into_parts();
    Solved {
        field,
        flux,
        interval,
        verdict,
    }
}
