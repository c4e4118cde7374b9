// What a case is judged by, once its records were read.
ghost use Rattle.std.specs.Prelude.{◌≡◌, ◌↔◌, ◌^◌, ◌<◌, ◌≤◌, ◌-ℤ◌, ◌≤ℤ◌, ◌*◌, IsTrue, pos, unsigned_abs};
ghost use Rattle.tb_grid.specs.Grid.{counts_of};
ghost use Rattle.tb_geometry.specs.Grids.{CarriesBody};
ghost use Rattle.tb_field.specs.Fields.{AreTemperatures, FitsNodes};
ghost use Rattle.tb_flux.specs.Fluxes.{AreFlows, FitsFaces};
ghost use Rattle.tb_case_records.specs.declared.ends.Verdict.{Verdict};
ghost use Rattle.tb_checker.specs.Contents.{IsJudgeable, IsJudgedRightly, IsNarrow};
ghost use Rattle.tb_checker.specs.Faults.{OfCase, OfClaims, OfEnds};

use crate::fault::CheckFault;
use tb_bundle::{CaseProof, Verdict};
use tb_geometry::Body;
use tb_sums::{lower_end, upper_end};
use tb_terms::Interval;

fn is_same(claimed: Interval, found: Interval) -> bool
    ensures { IsTrue result ↔ (claimed ≡ found) }
{
    claimed == found
}

// Whether an interval is at most so wide, in µW/K.
fn is_narrow(interval: Interval, width: u64) -> bool
    requires low { unsigned_abs interval.lo < 10 ^ 38 }
    requires high { unsigned_abs interval.hi < 10 ^ 38 }
    requires width { width ≤ 10 ^ 9 }
    ensures { IsTrue result ↔ ((interval.hi -ℤ interval.lo) ≤ℤ pos (width * 10 ^ 9)) }
{
    interval.hi - i128::from(width * 1_000_000_000) <= interval.lo
}

// Whether the verdict says whether the interval is as narrow as was wanted.
fn is_judged_rightly(proof: &CaseProof) -> bool
    requires low { unsigned_abs proof.now.interval.lo < 10 ^ 38 }
    requires high { unsigned_abs proof.now.interval.hi < 10 ^ 38 }
    requires width { proof.now.width ≤ 10 ^ 9 }
    ensures { IsTrue result ↔ IsJudgedRightly proof.now }
{
    (proof.verdict == Verdict::Done) == is_narrow(proof.interval, proof.width)
}

// What the claims of a case are at fault in, where these are the ends of its field and its flux.
fn judge_claims(number: u8, proof: &CaseProof, found: Interval) -> Option<CheckFault>
    requires low { unsigned_abs proof.now.interval.lo < 10 ^ 38 }
    requires high { unsigned_abs proof.now.interval.hi < 10 ^ 38 }
    requires width { proof.now.width ≤ 10 ^ 9 }
    ensures { OfClaims number proof.now found result }
{
    if !is_same(proof.interval, found) {
        return Some(CheckFault::IntervalDiffers(number, proof.interval, found));
    }
    if !is_judged_rightly(proof) {
        return Some(CheckFault::VerdictDiffers(number));
    }
    None
}

// What the ends of a case are at fault in.
fn judge_ends(body: &Body, number: u8, proof: &CaseProof) -> Option<CheckFault>
    requires { IsJudgeable body.now proof.now }
    ensures { OfEnds body.now number proof.now result }
{
    let Ok(lo) = lower_end(body, &proof.grid, &proof.flux, proof.case) else {
        return Some(CheckFault::SumPastLimit(number));
    };
    let hi = upper_end(body, &proof.grid, &proof.field, proof.case);
    judge_claims(number, proof, Interval { lo, hi })
}

/// The first fault of what a case says, where its records have none.
pub fn judge(body: &Body, number: u8, proof: &CaseProof) -> Option<CheckFault>
    requires { IsJudgeable body.now proof.now }
    ensures { OfCase body.now number proof.now result }
{
    if let Some(face) = proof.flux.first_outer(body, &proof.grid) {
        return Some(CheckFault::OuterFlux(number, face));
    }
    if let Some((cell, sum)) = proof.flux.first_unbalanced(body, &proof.grid) {
        return Some(CheckFault::Unbalanced(number, cell, sum));
    }
    judge_ends(body, number, proof)
}
