// The cases of a body, one after the other.
ghost use Rattle.std.specs.Prelude.{◌≡◌, ◌^◌, ◌≤◌, IfOk};
ghost use Rattle.tb_places.specs.declared.AxisName.TheVariants as axis;
ghost use Rattle.tb_detail.specs.Limits.{InLimits};
ghost use Rattle.tb_grid.specs.Grid.{IsGrid};
ghost use Rattle.tb_geometry.specs.Base.{base_lines};
ghost use Rattle.tb_geometry.specs.Faults.{IsAccepted};
ghost use Rattle.tb_geometry.specs.Grids.{CarriesBody};
ghost use Rattle.tb_case_records.specs.Limits.{IsOnBase};
ghost use Rattle.tb_checker.specs.Contents.{AreCertified};
ghost use Rattle.tb_solving.specs.Certified.{AreRightCases, IsRightCase, case_with};
ghost use Rattle.tb_solving.specs.Solved.{AreSolved};

use std::alloc::Global;
use tb_bundle::{CaseProof, masks_of};
use tb_driver::{NoMemory, Solved, solve};
use tb_geometry::{Body, Case, cases};
use tb_grid::Grid;

/// What a search is to reach, and how far it may go.
#[derive(Clone, Copy, Debug, PartialEq, Eq)]
pub struct Target {
    /// How wide an interval may be, in µW/K.
    pub width: u64,
    /// How many plain passes a case may take on each of two states.
    pub sweeps: u32,
}

// What is known of a grid that carries a body.
fn look_at(body: &Body, grid: &Grid)
    requires { CarriesBody grid.now body.now }
    ensures limits { InLimits body.now }
    ensures accepted { IsAccepted body.now }
    ensures grid { IsGrid grid.now }
    ensures on_x { IsOnBase (base_lines axis.X body.now.boxes) grid.now.x }
    ensures on_y { IsOnBase (base_lines axis.Y body.now.boxes) grid.now.y }
    ensures on_z { IsOnBase (base_lines axis.Z body.now.boxes) grid.now.z }
{
    let base = body.base();
    let _base_cells = base.cells();
    let _cells = grid.cells();
}

// A copy of a grid.
fn copy_of(grid: &Grid) -> Result<Grid, NoMemory>
    ensures { IfOk result (λ copy. copy ≡ grid.now) }
{
    match grid.clone() {
        Ok(copy) => Ok(copy),
        Err(_) => Err(NoMemory),
    }
}

// The case of a set of environments.
fn solve_case(
    alloc: Global,
    body: &Body,
    grid: &Grid,
    target: Target,
    mask: u8,
) -> Result<CaseProof, NoMemory>
    requires carries { CarriesBody grid.now body.now }
    requires width { target.width ≤ 10 ^ 9 }
    ensures { IfOk result (IsRightCase body.now grid.now target mask) }
{
    look_at(body, grid);
    let copy = copy_of(grid)?;
    match solve(
        alloc,
        body,
        grid,
        Case { mask },
        target.width,
        target.sweeps,
    ) {
        Ok(found) => Ok(case_with(mask, copy, target.width, found)),
        Err(NoMemory) => {
            drop(copy);
            Err(NoMemory)
        }
    }
}

// What a search found, as a case of a bundle.
fn case_with(mask: u8, grid: Grid, width: u64, found: Solved) -> CaseProof
    ensures { result ≡ case_with mask grid width found }
{
    CaseProof {
        case: Case { mask },
        grid,
        field: found.field,
        flux: found.flux,
        interval: found.interval,
        verdict: found.verdict,
        width,
    }
}

// The cases of these sets of environments, one after the other.
fn solve_sets(
    alloc: Global,
    body: &Body,
    grid: &Grid,
    target: Target,
    masks: &[u8],
) -> Result<Vec<CaseProof>, NoMemory>
    requires carries { CarriesBody grid.now body.now }
    requires width { target.width ≤ 10 ^ 9 }
    ensures { IfOk result (λ proofs. AreRightCases body.now grid.now target masks.now proofs.items) }
{
    let mut proofs = Vec::new(alloc);
    for mask in masks {
        match solve_case(alloc, body, grid, target, *mask) {
            Ok(proof) => {
                let Ok(_) = proofs.push(proof) else {
                    return Err(NoMemory);
                };
            }
            Err(NoMemory) => return Err(NoMemory),
        }
    }
    Ok(proofs)
}

/// All cases of a body in order, each searched on this grid. With the detail of the body they are a certified bundle.
///
/// # Errors
/// Memory ran out.
pub fn solve_cases(
    alloc: Global,
    body: &Body,
    grid: &Grid,
    target: Target,
) -> Result<Vec<CaseProof>, NoMemory>
    requires carries { CarriesBody grid.now body.now }
    requires width { target.width ≤ 10 ^ 9 }
    ensures solved { IfOk result (λ proofs. AreSolved body.now grid.now target proofs.items) }
    ensures certified { IfOk result (λ proofs. AreCertified (record { detail = body.now; cases = proofs.items })) }
{
    look_at(body, grid);
    let count = body.environments();
    let list = cases(count);
    solve_sets(alloc, body, grid, target, masks_of(&list, count))
}
