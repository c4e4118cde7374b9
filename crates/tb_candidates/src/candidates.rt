// Candidates, and what the solver works on.
ghost use Rattle.tb_field.specs.Fields.{AreTemperatures};
ghost use Rattle.tb_flux.specs.Fluxes.{AreFlows};
ghost use Rattle.tb_terms.specs.Limits.{IsFlow};
ghost use Rattle.tb_geometry.specs.Grids.{CarriesBody};

use crate::table::CellTable;
use std::alloc::{AllocError, Global};
use tb_cg::{
    Form, Held, MOST_FLOW, Points, begin_at, couple_cells, face_flows, scale_of_links, start_field,
    write_found,
};
use tb_geometry::{Body, Case};
use tb_gradients::{Entry, Matrix, Outcome, SOLUTION_EXPONENT, Solver};
use tb_grid::Grid;

// What the matrix and the solver hold.
#[derive(Clone, Copy, Debug, PartialEq, Eq)]
enum Stage {
    New,
    // The cells' system and its solution, whose field wasn't written yet.
    Cells,
    // A descent of a field, after so many steps.
    Descent { steps: u32 },
    // Nothing that a call could go on from.
    Ended,
}

// The share of the dropped fill that the diagonal of the cells' incomplete factor takes, in 1,024ths, and that of the
// nodes' factor.
const CELL_SHARE: u16 = 1_022;

const NODE_SHARE: u16 = 1_016;

// The most steps of a solution of the cells' system.
const MOST_STEPS: u32 = 3_000;

// How accurate a solution is, in bits, and one that goes on from another. What is left of the residual is carried along the
// outlets.
const ACCURACY: u8 = 16;

const FURTHER_ACCURACY: u8 = 12;

// After how many steps a descent that left the range of temperatures ends.
const STEPS_OUT_OF_RANGE: u32 = 7;

// A flow from a present one to a better one and 3/8 farther: the lumped loss, which a step has in mind, is up to thrice the
// exact one, so that the best step is up to thrice as long. It is mostly 1.3 to 1.4 times as long.
fn beyond(present: i64, better: i64) -> i64
    ensures { IsFlow result }
{
    let step = better.saturating_sub(present).saturating_mul(11) / 8;
    present.saturating_add(step).clamp(-MOST_FLOW, MOST_FLOW)
}

// Goes beyond, from a present flux to a better one.
fn go_beyond(present: &[i64], flows: &mut [i64])
    ensures { AreFlows flows.old → AreFlows flows.new }
{
    for i in 0..flows.len() {
        if i < present.len() {
            flows[i] = beyond(present[i], flows[i]);
        }
    }
}

// Keeps what was found.
fn keep(found: &[Entry], kept: &mut [Entry]) {
    for i in 0..kept.len() {
        if i < found.len() {
            kept[i] = found[i];
        }
    }
}

/// Candidates for a body on a grid in a case, with all the memory that they need but for the lists of the candidates.
#[derive(Drop)]
pub struct Candidates {
    table: CellTable,
    points: Points,
    form: Form,
    matrix: Matrix,
    solver: Solver,
    // Of the couplings of the cells' system.
    scale: i32,
    stage: Stage,
    // The cells' temperatures by the last solution of their system, at their places: zeros before the first.
    temperatures: Vec<Entry>,
    is_solved: bool,
    // Of the last solution.
    steps: u32,
}

impl Candidates {
    /// The candidates of a body on a grid that carries it, in a case: none where the grid has too many nodes.
    ///
    /// # Errors
    /// Memory ran out.
    pub fn new(
        alloc: Global,
        body: &Body,
        grid: &Grid,
        case: Case,
    ) -> Result<Option<Candidates>, AllocError>
        requires { CarriesBody grid.now body.now }
    {
        let table = CellTable::new(alloc, body, grid, case)?;
        let Some(points) = Points::new(grid.counts()) else {
            return Ok(None);
        };
        let form = Form::new(alloc, table.cells(), points)?;
        let scale = scale_of_links(table.cells());
        Ok(Some(Candidates {
            table,
            points,
            form,
            matrix: Matrix::new(alloc, points.layout)?,
            solver: Solver::new(alloc, points.layout)?,
            scale,
            stage: Stage::New,
            temperatures: vec![in alloc; Entry::ZERO; points.layout.places()]?,
            is_solved: false,
            steps: 0,
        }))
    }

    // Takes off the residual what the last solution of the cells' system gives of it.
    fn resume(&mut self) -> Option<()> {
        self.solver.clear_solution(SOLUTION_EXPONENT);
        for at in 0..self.temperatures.len() {
            self.solver.set_solution(at, self.temperatures[at])?;
        }
        self.solver.resume(&self.matrix)
    }

    // Adds the last solution to what it lacked.
    fn add_last(&mut self) -> Option<()> {
        for at in 0..self.temperatures.len() {
            self.solver.add_solution(at, self.temperatures[at])?;
        }
        Some(())
    }

    // Solves the cells' system, once it is coupled, from the last solution if there is one.
    fn solve_coupled(&mut self) -> Option<Outcome> {
        self.matrix.sum_up()?;
        if !self.is_solved {
            self.matrix.factorize(CELL_SHARE);
            return Some(self.solver.solve(&self.matrix, MOST_STEPS, ACCURACY));
        }
        self.resume()?;
        self.matrix.factorize(CELL_SHARE);
        let outcome = self
            .solver
            .solve(&self.matrix, MOST_STEPS, FURTHER_ACCURACY);
        self.add_last()?;
        Some(outcome)
    }

    // Makes the cells' system beside a present flux and solves it, from the last solution if there is one.
    fn solve(&mut self, present: &[i64]) -> Option<()> {
        self.stage = Stage::Ended;
        couple_cells(
            self.table.cells(),
            self.points,
            self.scale,
            present,
            &mut self.matrix,
            &mut self.solver,
        )?;
        let outcome = self.solve_coupled()?;
        keep(self.solver.solution(), self.temperatures.as_mut_slice());
        self.is_solved = true;
        self.steps = outcome.steps;
        self.stage = Stage::Cells;
        Some(())
    }

    /// How many steps the last solution of the cells' system took: what the last flux cost.
    pub fn steps(&self) -> u32 {
        self.steps
    }

    /// Writes the flux of the cells' temperatures beside a present flux, which it should better: flows in the index order of
    /// faces, in nW per unit difference, balanced but for the rounding. One after another, which the present flux then should
    /// be, starts from its temperatures and goes beyond, since it is half a step. False where a number didn't fit.
    pub fn write_flux(&mut self, present: &[i64], flows: &mut [i64]) -> bool
        ensures { AreFlows flows.new }
    {
        flows.fill(0);
        let goes_on = self.is_solved;
        if self.solve(present).is_none() {
            return false;
        }
        face_flows(
            self.table.cells(),
            self.points,
            self.solver.solution(),
            self.scale,
            present,
            flows,
        );
        if goes_on {
            go_beyond(present, flows);
        }
        true
    }

    /// Whether [`write_start`](Candidates::write_start) has a field to give that it didn't give yet: before any other call,
    /// and after [`write_flux`](Candidates::write_flux).
    pub fn has_start(&self) -> bool {
        self.stage == Stage::New || self.stage == Stage::Cells
    }

    /// Writes the field that the cells' temperatures give: node temperatures in the index order of nodes, in 10⁻⁸ of the
    /// difference. The system is solved for it unless [`write_flux`](Candidates::write_flux) did that before. False where a
    /// number didn't fit.
    pub fn write_start(&mut self, field: &mut [i64]) -> bool
        ensures { AreTemperatures field.new }
    {
        field.fill(0);
        if !self.is_solved && self.solve(&[]).is_none() {
            return false;
        }
        start_field(
            self.table.cells(),
            self.points,
            self.temperatures.as_slice(),
            field,
        );
        self.stage = Stage::Ended;
        true
    }

    // Begins a descent at a field. Nodes at 0 or at 1 that it would take out of the range are held.
    fn try_begin(&mut self, field: &[i64]) -> Option<()> {
        self.stage = Stage::Ended;
        begin_at(
            &self.form,
            self.table.cells().counts,
            field,
            &mut self.solver,
        )?;
        let held = Held {
            temperatures: self.solver.solution(),
            descent: self.solver.residual(),
        };
        self.form.couple_nodes(held, &mut self.matrix)?;
        self.matrix.finish(NODE_SHARE)?;
        self.stage = Stage::Descent { steps: 0 };
        Some(())
    }

    /// Begins a descent at a field. False where a number didn't fit.
    pub fn begin(&mut self, field: &[i64]) -> bool {
        self.try_begin(field).is_some()
    }

    /// Whether a descent has begun that no other call ended.
    pub fn is_descending(&self) -> bool {
        matches!(self.stage, Stage::Descent { .. })
    }

    /// Ends the descent, so that the next one begins anew.
    pub fn end(&mut self) {
        self.stage = Stage::Ended;
    }

    // Makes a step of a descent.
    fn step(&mut self) -> Option<u32> {
        let Stage::Descent { steps } = self.stage else {
            return None;
        };
        self.stage = Stage::Ended;
        self.solver.step(&self.form, &self.matrix, i32::MIN)?;
        Some(steps.saturating_add(1))
    }

    /// Makes a step of a descent, and writes the field that it leads to. A descent that left the range of temperatures ends
    /// after some steps: it should begin anew at the best field so far, where nodes are held in the range. False, with a
    /// field of zeros, where no descent has begun or a number didn't fit.
    pub fn descend(&mut self, field: &mut [i64]) -> bool
        ensures { AreTemperatures field.new }
    {
        field.fill(0);
        let Some(steps) = self.step() else {
            return false;
        };
        let counts = self.table.cells().counts;
        let is_cut = write_found(self.points, counts, self.solver.solution(), field);
        if !is_cut || steps < STEPS_OUT_OF_RANGE {
            self.stage = Stage::Descent { steps };
        }
        true
    }
}
