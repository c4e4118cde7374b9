// Where heat passes an adiabatic face.
//
// A face can be adiabatic only on the hull of its grid: where the body fills each cell, two cells lie at an inner face.
// So only the faces on the hull are asked, in the order of their numbers: in a layer of cells the z-faces at its lower
// line, if that is the first, then both ends of each row of x-faces, then the first and the last row of y-faces.
ghost use Rattle.std.specs.Prelude.{◌↔◌, ◌+◌, ◌<◌, ◌≤◌, ℕ, IsTrue, MatchOption};
ghost use Rattle.tb_places.specs.declared.AxisName.TheVariants.{X, Y, Z};
ghost use Rattle.tb_places.specs.Inverse.{face_place};
ghost use Rattle.tb_places.specs.Places.{face_count, face_number, place_at};
ghost use Rattle.tb_grid.specs.Grid.{counts_of};
ghost use Rattle.tb_model.specs.Faults.{IsFirstOuter};
ghost use Rattle.tb_geometry.specs.Grids.{CarriesBody, mesh_on};
ghost use Rattle.tb_flux.specs.Fluxes.{FitsFaces, IsPassed, IsShut, ShutsOff, flux_on};
ghost use Rattle.tb_flux.specs.Walks.{FindsOuter, IsInner, IsTightBelow};

use crate::balance::is_nothing;
use crate::flux::Flux;
use tb_geometry::{Body, FaceKind};
use tb_grid::{AxisName, FaceId, Grid, Place};

impl Flux {
    /// The adiabatic face of the least number through which heat passes, if there is one: a face on the hull at a solid
    /// cell. It takes no memory, and looks at no face that isn't on the hull.
    pub fn first_outer(&self, body: &Body, grid: &Grid) -> Option<FaceId>
        requires carries { CarriesBody grid.now body.now }
        requires fits { FitsFaces (counts_of grid.now) self.now }
        ensures { let m = mesh_on body.now grid.now in let q = flux_on grid.now self.now in
            MatchOption result (ShutsOff m q) (λ face. IsFirstOuter m q face.0) }
    {
        let counts = grid.counts();
        for k in 0..counts.z {
            if let Some(face) = self.outer_in_layer(body, grid, k) {
                return Some(face);
            }
        }
        self.outer_across_z(body, grid, counts.z)
    }

    // The first such face from one z-line up to the next, where there is none before.
    fn outer_in_layer(&self, body: &Body, grid: &Grid, k: u32) -> Option<FaceId>
        requires carries { CarriesBody grid.now body.now }
        requires fits { FitsFaces (counts_of grid.now) self.now }
        requires layer { k < counts_of grid.now Z }
        requires before { let n = counts_of grid.now in
            IsTightBelow body.now grid.now self.now (face_number n Z (place_at 0 0 k)) }
        ensures { let n = counts_of grid.now in
            FindsOuter body.now grid.now self.now (face_number n Z (place_at 0 0 (k + 1))) result }
    {
        if let Some(face) = self.outer_across_z(body, grid, k) {
            return Some(face);
        }
        if let Some(face) = self.outer_across_x(body, grid, k) {
            return Some(face);
        }
        self.outer_across_y(body, grid, k)
    }

    // The first such face among those across z at a line.
    fn outer_across_z(&self, body: &Body, grid: &Grid, k: u32) -> Option<FaceId>
        requires carries { CarriesBody grid.now body.now }
        requires fits { FitsFaces (counts_of grid.now) self.now }
        requires line { k ≤ counts_of grid.now Z }
        requires before { let n = counts_of grid.now in
            IsTightBelow body.now grid.now self.now (face_number n Z (place_at 0 0 k)) }
        ensures { let n = counts_of grid.now in
            FindsOuter body.now grid.now self.now (face_number n Z (place_at 0 (n Y) k)) result }
    {
        let _base = body.base();
        let counts = grid.counts();
        if k > 0 && k < counts.z {
            return None;
        }
        let from = counts.face_number(AxisName::Z, Place { i: 0, j: 0, k }).0;
        self.outer_among(body, grid, from, from + counts.x * counts.y)
    }

    // The first such face among those across x in a layer.
    fn outer_across_x(&self, body: &Body, grid: &Grid, k: u32) -> Option<FaceId>
        requires carries { CarriesBody grid.now body.now }
        requires fits { FitsFaces (counts_of grid.now) self.now }
        requires layer { k < counts_of grid.now Z }
        requires before { let n = counts_of grid.now in
            IsTightBelow body.now grid.now self.now (face_number n X (place_at 0 0 k)) }
        ensures { let n = counts_of grid.now in
            FindsOuter body.now grid.now self.now (face_number n X (place_at 0 (n Y) k)) result }
    {
        let counts = grid.counts();
        for j in 0..counts.y {
            let from = counts.face_number(AxisName::X, Place { i: 0, j, k }).0;
            if let Some(face) = self.outer_at_ends(body, grid, from, 1, from + (counts.x + 1)) {
                return Some(face);
            }
        }
        None
    }

    // The first such face among those across y in a layer.
    fn outer_across_y(&self, body: &Body, grid: &Grid, k: u32) -> Option<FaceId>
        requires carries { CarriesBody grid.now body.now }
        requires fits { FitsFaces (counts_of grid.now) self.now }
        requires layer { k < counts_of grid.now Z }
        requires before { let n = counts_of grid.now in
            IsTightBelow body.now grid.now self.now (face_number n Y (place_at 0 0 k)) }
        ensures { let n = counts_of grid.now in
            FindsOuter body.now grid.now self.now (face_number n Y (place_at 0 (n Y + 1) k)) result }
    {
        let counts = grid.counts();
        let from = counts.face_number(AxisName::Y, Place { i: 0, j: 0, k }).0;
        self.outer_at_ends(body, grid, from, counts.x, from + counts.x * (counts.y + 1))
    }

    // The first such face among those of the numbers `from..to`, of which only the first few and the last few are on
    // the hull.
    fn outer_at_ends(
        &self,
        body: &Body,
        grid: &Grid,
        from: u32,
        few: u32,
        to: u32,
    ) -> Option<FaceId>
        requires carries { CarriesBody grid.now body.now }
        requires fits { FitsFaces (counts_of grid.now) self.now }
        requires few { from + (few + few) ≤ to }
        requires within { to ≤ face_count (counts_of grid.now) }
        requires inner { (f : ℕ) → from + few ≤ f → f + few < to → IsInner (counts_of grid.now) f }
        requires before { IsTightBelow body.now grid.now self.now from }
        ensures { FindsOuter body.now grid.now self.now to result }
    {
        let _base = body.base();
        if let Some(face) = self.outer_among(body, grid, from, from + few) {
            return Some(face);
        }
        self.outer_among(body, grid, to - few, to)
    }

    // The first such face among those of the numbers `from..to`.
    fn outer_among(&self, body: &Body, grid: &Grid, from: u32, to: u32) -> Option<FaceId>
        requires carries { CarriesBody grid.now body.now }
        requires fits { FitsFaces (counts_of grid.now) self.now }
        requires up { from ≤ to }
        requires within { to ≤ face_count (counts_of grid.now) }
        requires before { IsTightBelow body.now grid.now self.now from }
        ensures { FindsOuter body.now grid.now self.now to result }
    {
        for number in from..to {
            if self.is_passed(body, grid, FaceId(number)) {
                return Some(FaceId(number));
            }
        }
        None
    }

    // Whether a face is adiabatic and heat passes it. The body is asked only where there is a flow.
    fn is_passed(&self, body: &Body, grid: &Grid, face: FaceId) -> bool
        requires carries { CarriesBody grid.now body.now }
        requires fits { FitsFaces (counts_of grid.now) self.now }
        requires face { face.0 < face_count (counts_of grid.now) }
        ensures { IsTrue result ↔ IsPassed (mesh_on body.now grid.now) (counts_of grid.now) self.now face.0 }
    {
        !is_nothing(i128::from(self.get(face))) && is_shut(body, grid, face)
    }
}

// Whether a face is adiabatic.
fn is_shut(body: &Body, grid: &Grid, face: FaceId) -> bool
    requires carries { CarriesBody grid.now body.now }
    requires face { face.0 < face_count (counts_of grid.now) }
    ensures { IsTrue result ↔ IsShut (mesh_on body.now grid.now) (face_place (counts_of grid.now) face.0) }
{
    body.kind(grid, face) == FaceKind::Shut
}
