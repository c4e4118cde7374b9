// What rounds work on.
ghost use Rattle.std.specs.Prelude.{◌≡◌, IfOk};
ghost use Rattle.tb_grid.specs.Grid.{counts_of};

use std::alloc::Global;
use std::marker::Model;
use tb_candidates::Candidates;
use tb_field::{Field, NoMemory};
use tb_flux::Flux;
use tb_moves::Session;
use tb_repair::RepairWork;

/// What a round led to.
#[derive(Clone, Copy, Debug, PartialEq, Eq)]
pub enum Step {
    /// The end of the round's kind is better: the upper end is lower, or the lower end is higher.
    Lowered,
    /// The session is unchanged.
    NoGain,
}

/// What rounds work on, with all the memory that they need. Contracts see the body and the grid that it was made for.
#[derive(Drop)]
pub struct CgWork {
    // None where the grid has too many nodes for the solver.
    pub(crate) candidates: Option<Candidates>,
    pub(crate) repair: RepairWork,
    pub(crate) field: Field,
    pub(crate) flux: Flux,
    // Whether the last flux from the cells' temperatures was no gain.
    pub(crate) is_flux_found: bool,
}

impl Model for CgWork {
    ghost use Rattle.tb_trees.specs.Bodies.{BodyOnGrid};
    ghost use Rattle.tb_rounds.specs.Rounds.{Fits};

    ghost Value = { BodyOnGrid };

    ghost view = { λ w. w.repair.site };

    ghost invariant = { λ w. Fits w.repair.site w.field w.flux };
}

impl CgWork {
    ghost use Rattle.tb_rounds.specs.Rounds.{site_of};

    /// What rounds of sessions with the same body and grid work on. It takes all memory.
    ///
    /// # Errors
    /// Memory ran out.
    pub fn new(alloc: Global, session: &Session) -> Result<CgWork, NoMemory>
        ensures { IfOk result (λ work. work ≡ site_of session.now) }
    {
        session.keeps();
        let candidates = Candidates::new(alloc, session.body(), session.grid(), session.case())?;
        let Ok(repair) = RepairWork::new(alloc, session.tree()) else {
            return Err(NoMemory);
        };
        Ok(CgWork {
            candidates,
            repair,
            field: Field::zero(alloc, session.grid())?,
            flux: Flux::zero(alloc, session.grid())?,
            is_flux_found: false,
        })
    }

    /// How many steps the last solution for a flux took: 0 where a round on the flux solves for none any more.
    pub fn flux_steps(&self) -> u32 {
        if self.is_flux_found {
            return 0;
        }
        match &self.candidates {
            Some(candidates) => candidates.steps(),
            None => 0,
        }
    }
}
