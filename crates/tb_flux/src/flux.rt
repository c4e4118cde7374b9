// A heat flux.
ghost use Rattle.std.specs.Prelude.{◌≡◌, ◌↔◌, ◌<◌, IfOk, IsTrue, length, pos, replicate, slice_index_or, slice_set};
ghost use Rattle.tb_places.specs.Places.{face_count};
ghost use Rattle.tb_grid.specs.Grid.{counts_of};
ghost use Rattle.tb_flux.specs.Fluxes.{AreFlows, FitsFaces};

use std::alloc::Global;
use std::marker::Model;
use tb_field::NoMemory;
use tb_grid::{FaceId, Grid};

/// The greatest flow through a face, in either direction: 1 kW per unit difference, in nW.
pub const MOST_FACE_VALUE: u64 = 1_000_000_000_000;

/// A heat flux: one flow for each face of a grid, in the index order of faces, in nW per unit of the temperature
/// difference, positive in the direction of the face's axis. Contracts see the list of its flows.
#[derive(Debug, Drop)]
pub struct Flux {
    values: Vec<i64>,
}

impl Model for Flux {
    ghost use Rattle.std.specs.Prelude.{List, ℤ};

    ghost Value = { List ℤ };

    ghost view = { λ flux. flux.values.items };
}

impl PartialEq for Flux {
    ghost use Rattle.std.specs.Cmp.{partial_equiv_from_equiv};
    ghost use Rattle.std.specs.Cmp.Lexicographic.{lists_per, pointwise};
    ghost use Rattle.std.specs.Ordering.{int_eq};
    ghost use Rattle.std.proofs.lemmas.Cmp.{int_eq_equiv};

    ghost eq = { λ a b. pointwise int_eq a b };

    ghost laws = { lists_per (partial_equiv_from_equiv int_eq_equiv) };

    fn eq(&self, other: &Flux) -> bool {
        self.values == other.values
    }
}

impl Flux {
    ghost use Rattle.std.specs.Borrow.{sem};
    ghost use Rattle.tb_flux.specs.Lending.{LendsFlows};

    /// The flux that is 0 at each face of a grid.
    ///
    /// # Errors
    /// Memory ran out.
    pub fn zero(alloc: Global, grid: &Grid) -> Result<Flux, NoMemory>
        ensures { IfOk result (λ flux. flux ≡ replicate (face_count (counts_of grid.now)) (pos 0)) }
    {
        let values = vec![in alloc; 0; grid.faces() as usize]?;
        Ok(Flux { values })
    }

    /// The flux with these flows, in the index order of faces. It takes no memory.
    pub fn from_values(values: Vec<i64>) -> Flux
        ensures { result ≡ values.items }
    {
        Flux { values }
    }

    /// The flows, in the index order of faces.
    pub fn values(&self) -> &[i64]
        ensures { result.now ≡ self.now }
    {
        self.values.as_slice()
    }

    /// The flows, in the index order of faces, to be changed.
    pub fn values_mut(&mut self) -> &mut [i64]
        ensures* lends { sem 𝓛 (LendsFlows self.entry result) }
        ensures value { result.now ≡ self.old }
    {
        self.values.as_mut_slice()
    }

    /// The flow through a face.
    pub fn get(&self, face: FaceId) -> i64
        requires { face.0 < length self.now }
        ensures { result ≡ slice_index_or self.now face.0 (pos 0) }
    {
        self.values()[face.0 as usize]
    }

    /// Changes the flow through a face, and no other.
    pub fn set(&mut self, face: FaceId, value: i64)
        requires { face.0 < length self.old }
        ensures { self.new ≡ slice_set self.old face.0 value }
    {
        let values = self.values.as_mut_slice();
        values[face.0 as usize] = value;
    }

    /// Whether there is one flow for each face of a grid.
    pub fn fits(&self, grid: &Grid) -> bool
        ensures { IsTrue result ↔ FitsFaces (counts_of grid.now) self.now }
    {
        self.values().len() == grid.faces() as usize
    }

    /// Whether no flow is greater than [`MOST_FACE_VALUE`], in either direction.
    pub fn is_within_limits(&self) -> bool
        ensures { IsTrue result ↔ AreFlows self.now }
    {
        are_flows(self.values())
    }
}

// Whether each of some values is one of a face.
fn are_flows(values: &[i64]) -> bool
    ensures { IsTrue result ↔ AreFlows values.now }
{
    values.iter().all(|v| v.unsigned_abs() <= MOST_FACE_VALUE)
}
