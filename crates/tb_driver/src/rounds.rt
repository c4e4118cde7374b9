// Conjugate-gradient rounds.
ghost use Rattle.std.specs.Prelude.{◌≡◌, ◌^◌, ◌≤◌, pos, ◌≤ℤ◌, IfOk, unsigned_abs};
ghost use Rattle.tb_moves.specs.Sessions.{AreAlike};
ghost use Rattle.tb_rounds.specs.Rounds.{site_of};
ghost use Rattle.tb_driver.specs.Solved.{AreSmall};

use crate::judge::{is_reached, width_of};
use std::alloc::Global;
use tb_field::NoMemory;
use tb_moves::Session;
use tb_rounds::{CgWork, field_round, flux_round};

// A search makes at most 2,000 rounds: 125 series of 16.
const MOST_SERIES: u32 = 125;

const SERIES: u32 = 16;

// A series is worth another one where it gained at least this part of the width that is left.
const LEAST_PART: i128 = 1_024;

// A round on the flux costs about as much as so many on the field, and one more for so many steps of its solution.
const FLUX_COST: i128 = 3;

const STEPS_OF_A_COST: i128 = 3;

// What a round on the flux leaves for the next one is about this part of what it gained.
const FLUX_LEFT: i128 = 4;

// What the next round of each kind promises for the cost of one on the field, in fW/K: what the last one on the field gained, and
// what the last one on the flux left, by its cost. It is 0 where such a round gains no more, or too little. What wasn't tried yet
// promises most.
#[derive(Clone, Copy)]
struct Promises {
    field: i128,
    flux: i128,
}

// How wide the present interval is, in fW/K.
fn present_width(session: &Session) -> i128
    ensures { unsigned_abs result ≤ 2 ^ 122 }
{
    width_of(session.interval())
}

// What was gained, if anything was.
fn gain(before: i128, after: i128) -> i128
    requires before { unsigned_abs before ≤ 2 ^ 122 }
    requires after { unsigned_abs after ≤ 2 ^ 122 }
{
    before - after
}

// What a round on the flux costs, in rounds on the field, if the last one's solution took so many steps.
fn flux_cost(steps: u32) -> i128
    ensures { pos 1 ≤ℤ result }
{
    FLUX_COST + i128::from(steps) / STEPS_OF_A_COST
}

// What the next round on the flux promises for the cost of one on the field. One that costs more than a series isn't worth its time,
// and promises nothing, where that is less than what each round of a series has to gain. Others are made anyway: they bring
// the state to where no move changes it.
fn flux_promise(before: i128, after: i128, steps: u32) -> i128
    requires before { unsigned_abs before ≤ 2 ^ 122 }
    requires after { unsigned_abs after ≤ 2 ^ 122 }
{
    let series = i128::from(SERIES);
    let cost = flux_cost(steps);
    let promise = gain(before, after) / FLUX_LEFT / cost;
    if cost > series && promise < after / LEAST_PART / series {
        0
    } else {
        promise
    }
}

// Makes a round of the kind that promises more.
fn make_round(session: &mut Session, work: &mut CgWork, promises: &mut Promises)
    requires made { work.old ≡ site_of session.old }
    ensures alike { AreAlike session.old session.new }
    ensures work { work.new ≡ work.old }
{
    let before = present_width(session);
    if promises.flux >= promises.field {
        flux_round(session, work);
        promises.flux = flux_promise(before, present_width(session), work.flux_steps());
    } else {
        field_round(session, work);
        promises.field = gain(before, present_width(session));
    }
}

// Whether no round is wanted: whether the interval is narrow enough, or no kind of round gains any more.
fn is_over(session: &Session, promises: Promises, width: u64) -> bool
    requires { width ≤ 10 ^ 9 }
{
    is_reached(session.interval(), width) || (promises.field <= 0 && promises.flux <= 0)
}

// Makes a series of rounds, and says whether another is worth it: whether the interval is still too wide, and the series
// gained at least a 1,024th of the width that is left.
fn make_series(
    session: &mut Session,
    work: &mut CgWork,
    promises: &mut Promises,
    width: u64,
) -> bool
    requires made { work.old ≡ site_of session.old }
    requires width { width ≤ 10 ^ 9 }
    ensures alike { AreAlike session.old session.new }
    ensures work { work.new ≡ work.old }
{
    let before = present_width(session);
    for _round in 0..SERIES {
        if is_over(session, *promises, width) {
            return false;
        }
        make_round(session, work, promises);
    }
    let after = present_width(session);
    gain(before, after) >= after / LEAST_PART
}

// Makes series until none is worth it.
fn make_all(session: &mut Session, work: &mut CgWork, width: u64)
    requires made { work.old ≡ site_of session.old }
    requires width { width ≤ 10 ^ 9 }
    ensures { AreAlike session.old session.new }
{
    let mut promises = Promises {
        field: i128::MAX,
        flux: i128::MAX,
    };
    for _series in 0..MOST_SERIES {
        if !make_series(session, work, &mut promises, width) {
            return;
        }
    }
}

/// Makes rounds, at most 2,000, until the interval is at most so wide, in µW/K, or neither kind gains, or the last 16 gained
/// less than a 1,024th of the width that is left.
///
/// # Errors
/// Memory ran out.
pub fn make_rounds(alloc: Global, session: &mut Session, width: u64) -> Result<(), NoMemory>
    requires { width ≤ 10 ^ 9 }
    ensures { AreAlike session.old session.new }
{
    let mut work = CgWork::new(alloc, session)?;
    make_all(session, &mut work, width);
    drop(work);
    Ok(())
}
