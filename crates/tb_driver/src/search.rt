// The search for a narrow interval.
ghost use Rattle.std.specs.Prelude.{◌^◌, ◌≤◌, IfOk};
ghost use Rattle.tb_geometry.specs.Grids.{CarriesBody};
ghost use Rattle.tb_driver.specs.Candidates.{IsCandidate, IsPlainOne};
ghost use Rattle.tb_driver.specs.Solved.{AreInLimits, IsSolution};

use crate::choice::narrower;
use crate::judge::judged;
use crate::passes::{make_plain, narrow};
use crate::rounds::make_rounds;
use crate::solved::Solved;
use std::alloc::Global;
use tb_case_records::Verdict;
use tb_field::NoMemory;
use tb_geometry::{Body, Case};
use tb_grid::Grid;
use tb_moves::Session;

/// Searches for an interval of a case at most so wide, in µW/K: by rounds, then by at most so many plain passes. Where that
/// fails, the plain state after so many passes is made too, and the narrower of the two is the answer. Its verdict is `Done`
/// exactly where the interval is as narrow as was wanted; else `GridLimit` exactly where no move changes the state, and
/// `SweepsSpent` exactly where one does.
///
/// # Errors
/// Memory ran out.
pub fn solve(
    alloc: Global,
    body: &Body,
    grid: &Grid,
    case: Case,
    width: u64,
    sweeps: u32,
) -> Result<Solved, NoMemory>
    requires carries { CarriesBody grid.now body.now }
    requires width { width ≤ 10 ^ 9 }
    ensures solution { IfOk result (IsSolution body.now grid.now case.mask width sweeps) }
    ensures limits { IfOk result (AreInLimits body.now grid.now) }
{
    let found = searched(alloc, body, grid, case, width, sweeps)?;
    if found.verdict == Verdict::Done {
        return Ok(found);
    }
    match plain(alloc, body, grid, case, width, sweeps) {
        Ok(plain) => Ok(narrower(found, plain)),
        Err(NoMemory) => {
            drop(found);
            Err(NoMemory)
        }
    }
}

// The state after rounds and passes.
fn searched(
    alloc: Global,
    body: &Body,
    grid: &Grid,
    case: Case,
    width: u64,
    sweeps: u32,
) -> Result<Solved, NoMemory>
    requires carries { CarriesBody grid.now body.now }
    requires width { width ≤ 10 ^ 9 }
    ensures { IfOk result (IsCandidate body.now grid.now case.mask width) }
{
    let mut session = Session::new(alloc, body, grid, case)?;
    make_rounds(alloc, &mut session, width)?;
    narrow(&mut session, width, sweeps);
    Ok(judged(session, width))
}

// The plain state after so many passes.
fn plain(
    alloc: Global,
    body: &Body,
    grid: &Grid,
    case: Case,
    width: u64,
    sweeps: u32,
) -> Result<Solved, NoMemory>
    requires carries { CarriesBody grid.now body.now }
    requires width { width ≤ 10 ^ 9 }
    ensures candidate { IfOk result (IsCandidate body.now grid.now case.mask width) }
    ensures plain { IfOk result (IsPlainOne body.now grid.now case.mask sweeps) }
{
    let mut session = Session::new(alloc, body, grid, case)?;
    make_plain(&mut session, sweeps);
    Ok(judged(session, width))
}
