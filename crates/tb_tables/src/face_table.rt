//! The table of a grid's faces.
ghost use Rattle.std.specs.Prelude.{◌≡◌, ◌+◌, ◌^◌, ◌<◌, [], IfOk, OnOk, IsTrue, length, slice_index_or};
ghost use Rattle.tb_places.specs.Inverse.{face_place};
ghost use Rattle.tb_places.specs.Places.{face_count};
ghost use Rattle.tb_detail.specs.Limits.{InLimits};
ghost use Rattle.tb_grid.specs.Grid.{counts_of};
ghost use Rattle.tb_model.specs.Values.{case_of};
ghost use Rattle.tb_geometry.specs.Grids.{CarriesBody, mesh_on};
ghost use Rattle.tb_relax.specs.declared.table.FaceWeight.{FaceWeight};
ghost use Rattle.tb_tables.specs.declared.sorts.FaceSort.{FaceSort};
ghost use Rattle.tb_tables.specs.MeshRows.{IsFaceRow};
ghost use Rattle.tb_tables.specs.Sharing.{AreRows, AreSorted, IsPlaced};
ghost use Rattle.tb_tables.specs.Sorts.{HasFaceSort, IsFaceWithin};

use crate::faces::face_sort;
use crate::sorts::{FaceSort, face_row, same_faces};
use indexmap::IndexSet;
use std::alloc::{AllocError, Global};
use tb_geometry::{Body, Case};
use tb_grid::{FaceId, Grid};
use tb_relax::FaceWeight;

/// The rows that faces share, and the number of its row for each face.
#[derive(Debug, Drop)]
pub struct FaceTable {
    pub rows: Vec<FaceWeight>,
    pub numbers: Vec<u32>,
}

// The sorts of the rows of a table in the making: in the order of the rows, and as a set, which tells the number of a row.
#[derive(Drop)]
struct KnownFaces {
    sorts: Vec<FaceSort>,
    set: IndexSet<FaceSort>,
}

impl KnownFaces {
    fn new(alloc: Global) -> KnownFaces
        ensures { result.sorts.items ≡ [] }
    {
        KnownFaces {
            sorts: Vec::new(alloc),
            set: IndexSet::new(alloc),
        }
    }
}

// Whether the row with a number is there and is of this sort.
#[inline]
fn is_sort(sorts: &[FaceSort], number: usize, sort: FaceSort) -> bool
    ensures there { IsTrue result → number < length sorts.now }
    ensures same { IsTrue result → (none : FaceSort) → slice_index_or sorts.now number none ≡ sort }
{
    number < sorts.len() && same_faces(sorts[number], sort)
}

impl FaceTable {
    // Without a face, and with room for so many.
    fn with_room(alloc: Global, faces: u32) -> Result<FaceTable, AllocError>
        ensures { IfOk result (λ table. (table.rows.items ≡ []) × (table.numbers.items ≡ [])) }
    {
        let numbers = Vec::with_capacity(alloc, faces as usize)?;
        let rows = Vec::new(alloc);
        Ok(FaceTable { rows, numbers })
    }

    // A further row, of this sort.
    fn push(&mut self, known: &mut KnownFaces, sort: FaceSort) -> Result<u32, AllocError>
        requires few { length self.old.rows.items < 2 ^ 32 }
        requires within { IsFaceWithin sort }
        requires sorted { AreSorted FaceWeight FaceSort HasFaceSort self.old.rows.items known.old.sorts.items }
        ensures numbers { OnOk result (self.new.numbers.items ≡ self.old.numbers.items) }
        ensures sorted { OnOk result (AreSorted FaceWeight FaceSort HasFaceSort self.new.rows.items known.new.sorts.items) }
        ensures placed { IfOk result (IsPlaced FaceWeight (HasFaceSort sort) self.old.rows.items self.new.rows.items) }
    {
        let number = self.rows.len() as u32;
        self.rows.push(face_row(sort))?;
        known.sorts.push(sort)?;
        Ok(number)
    }

    // The number of the row of a sort: `like` where it is the same, or that of a row that is known, or of a new one.
    fn place(
        &mut self,
        known: &mut KnownFaces,
        like: u32,
        sort: FaceSort,
    ) -> Result<u32, AllocError>
        requires few { length self.old.rows.items < 2 ^ 32 }
        requires within { IsFaceWithin sort }
        requires sorted { AreSorted FaceWeight FaceSort HasFaceSort self.old.rows.items known.old.sorts.items }
        ensures numbers { OnOk result (self.new.numbers.items ≡ self.old.numbers.items) }
        ensures sorted { OnOk result (AreSorted FaceWeight FaceSort HasFaceSort self.new.rows.items known.new.sorts.items) }
        ensures placed { IfOk result (IsPlaced FaceWeight (HasFaceSort sort) self.old.rows.items self.new.rows.items) }
    {
        if is_sort(known.sorts.as_slice(), like as usize, sort) {
            return Ok(like);
        }
        let seen = known.set.insert_full(sort)?;
        if is_sort(known.sorts.as_slice(), seen.0, sort) {
            return Ok(seen.0 as u32);
        }
        self.push(known, sort)
    }

    // Adds the next face, whose row may be that with the number `like`.
    fn add(
        &mut self,
        known: &mut KnownFaces,
        body: &Body,
        grid: &Grid,
        face: FaceId,
        case: Case,
        like: u32,
    ) -> Result<u32, AllocError>
        requires limits { InLimits body.now }
        requires carries { CarriesBody grid.now body.now }
        requires face { face.0 < face_count (counts_of grid.now) }
        requires so_far { AreRows FaceWeight (λ f. IsFaceRow (mesh_on body.now grid.now) (case_of case.mask) (face_place (counts_of grid.now) f)) face.0 self.old.rows.items self.old.numbers.items }
        requires sorted { AreSorted FaceWeight FaceSort HasFaceSort self.old.rows.items known.old.sorts.items }
        ensures sorted { OnOk result (AreSorted FaceWeight FaceSort HasFaceSort self.new.rows.items known.new.sorts.items) }
        ensures next { OnOk result (AreRows FaceWeight (λ f. IsFaceRow (mesh_on body.now grid.now) (case_of case.mask) (face_place (counts_of grid.now) f)) (face.0 + 1) self.new.rows.items self.new.numbers.items) }
    {
        let sort = face_sort(body, grid, face, case);
        let number = self.place(known, like, sort)?;
        self.numbers.push(number)?;
        Ok(number)
    }

    // Adds all faces in order.
    fn fill(
        &mut self,
        known: &mut KnownFaces,
        body: &Body,
        grid: &Grid,
        case: Case,
    ) -> Result<(), AllocError>
        requires limits { InLimits body.now }
        requires carries { CarriesBody grid.now body.now }
        requires no_rows { self.old.rows.items ≡ [] }
        requires no_sorts { known.old.sorts.items ≡ [] }
        requires no_numbers { self.old.numbers.items ≡ [] }
        ensures all { OnOk result (AreRows FaceWeight (λ f. IsFaceRow (mesh_on body.now grid.now) (case_of case.mask) (face_place (counts_of grid.now) f)) (face_count (counts_of grid.now)) self.new.rows.items self.new.numbers.items) }
    {
        let mut like = 0;
        for face in 0..grid.faces() {
            like = self.add(known, body, grid, FaceId(face), case, like)?;
        }
        Ok(())
    }

    /// The rows of all faces of a grid in a case, in the order in which they are first wanted, each shared by all faces of its
    /// sort.
    ///
    /// # Errors
    /// Memory ran out.
    pub fn new(alloc: Global, body: &Body, grid: &Grid, case: Case) -> Result<FaceTable, AllocError>
        requires limits { InLimits body.now }
        requires carries { CarriesBody grid.now body.now }
        ensures { IfOk result (λ table. AreRows FaceWeight (λ f. IsFaceRow (mesh_on body.now grid.now) (case_of case.mask) (face_place (counts_of grid.now) f)) (face_count (counts_of grid.now)) table.rows.items table.numbers.items) }
    {
        let mut table = FaceTable::with_room(alloc, grid.faces())?;
        let mut known = KnownFaces::new(alloc);
        table.fill(&mut known, body, grid, case)?;
        drop(known);
        table.rows.shrink_to_fit();
        Ok(table)
    }
}
