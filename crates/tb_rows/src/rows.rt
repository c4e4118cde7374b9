// The rows of cells of a grid that carries a body, and what the body says of them.
ghost use Rattle.std.specs.Prelude.{◌≡◌, ◌+◌, ◌-◌, ◌<◌, ◌≤◌, ℕ, Contains, None, Some, IfSome, MatchOption, length, slice_index};
ghost use Rattle.tb_places.specs.declared.AxisName.{AxisName};
ghost use Rattle.tb_places.specs.declared.AxisName.TheVariants.{X, Y, Z};
ghost use Rattle.tb_places.specs.declared.Place.{Place};
ghost use Rattle.tb_places.specs.Places.{IsCell, place_at};
ghost use Rattle.tb_grid.specs.Axis.{IsBetweenEnds, IsIntervalOf, IsLineAt, interval_width};
ghost use Rattle.tb_grid.specs.Grid.{IsGrid, counts_of, lines_of};
ghost use Rattle.tb_terms.specs.Limits.{IsWidth};
ghost use Rattle.tb_geometry.specs.Base.{base_axes, base_counts, base_lines};
ghost use Rattle.tb_geometry.specs.Grids.{CarriesBody, LiesInBaseCell, occupant_at};
ghost use Rattle.tb_geometry.specs.declared.occupant.Occupant.TheVariants.{Solid};
ghost use Rattle.tb_rows.specs.Around.{IsBaseAbove, IsBaseBelow, LiesIn};

use crate::run::{Beside, Run};
use tb_geometry::{Body, Occupant};
use tb_grid::{Axis, AxisName, Grid, Place};

/// The rows of cells of a grid that carries a body.
#[derive(Clone, Copy)]
pub struct Rows<'a> {
    pub body: &'a Body,
    pub grid: &'a Grid,
}

/// A row of cells, and the base intervals of the rows at it and beside it.
#[derive(Clone, Copy)]
pub struct Around {
    pub j: u32,
    pub k: u32,
    pub base_j: u32,
    pub low_j: Option<u32>,
    pub high_j: Option<u32>,
    pub base_k: u32,
    pub low_k: Option<u32>,
    pub high_k: Option<u32>,
}

impl<'a> Rows<'a> {
    ghost use Rattle.tb_rows.specs.Rows.{AreRows, HasNoSolid, IsAround, IsBeside, IsRunOf, IsWholeRun};

    /// The rows of a grid.
    pub fn new(body: &'a Body, grid: &'a Grid) -> Rows<'a>
        requires { CarriesBody grid.now body.now }
        ensures body { result.body.now ≡ body.now }
        ensures grid { result.grid.now ≡ grid.now }
        ensures rows { AreRows result }
    {
        let _base = body.base();
        let _counts = grid.counts();
        Rows { body, grid }
    }

    /// The width of the cells at an index along an axis, in 0.1 mm.
    pub fn width(&self, axis: AxisName, i: u32) -> u32
        requires rows { AreRows self.now }
        requires within { i < counts_of self.now.grid.now axis }
        ensures value { result ≡ interval_width (lines_of self.now.grid.now axis) i }
        ensures fits { IsWidth result }
    {
        self.grid.axis(axis).width(i)
    }

    // The base interval in which the cells at an index along an axis lie.
    fn base_of(&self, axis: AxisName, i: u32) -> u32
        requires rows { AreRows self.now }
        requires within { i < counts_of self.now.grid.now axis }
        ensures lies { LiesIn self.now.body.now self.now.grid.now axis i result }
    {
        base_interval(self.body.base().axis(axis), self.grid.axis(axis), i)
    }

    // The base interval below a line of an axis, and above it, where there are cells.
    fn base_below(&self, axis: AxisName, i: u32) -> Option<u32>
        requires rows { AreRows self.now }
        requires within { i ≤ counts_of self.now.grid.now axis }
        ensures { IsBaseBelow self.now.body.now self.now.grid.now axis i result }
    {
        if i == 0 {
            return None;
        }
        Some(self.base_of(axis, i - 1))
    }

    fn base_above(&self, axis: AxisName, i: u32) -> Option<u32>
        requires rows { AreRows self.now }
        requires within { i ≤ counts_of self.now.grid.now axis }
        ensures { IsBaseAbove self.now.body.now self.now.grid.now axis i result }
    {
        if i == self.grid.axis(axis).intervals() {
            return None;
        }
        Some(self.base_of(axis, i))
    }

    /// How many base intervals there are along x.
    pub fn base_intervals(&self) -> u32
        ensures count { result ≡ base_counts self.now.body.now.boxes X }
        ensures grid { IsGrid (base_axes self.now.body.now.boxes) }
    {
        self.body.base().axis(AxisName::X).intervals()
    }

    /// The index along x of a base line.
    pub fn base_line(&self, b: u32) -> u32
        requires rows { AreRows self.now }
        requires within { b < length (base_lines X self.now.body.now.boxes) }
        ensures { IsLineAt (lines_of self.now.grid.now X) (slice_index (base_lines X self.now.body.now.boxes) b) result }
    {
        line_index(
            self.grid.axis(AxisName::X),
            self.body.base().axis(AxisName::X).lines()[b as usize],
        )
    }

    // What fills the cells in these base intervals, where there are all three.
    fn filling(&self, x: Option<u32>, y: Option<u32>, z: Option<u32>) -> Option<Occupant>
        requires on_x { IfSome x (λ i. i < base_counts self.now.body.now.boxes X) }
        requires on_y { IfSome y (λ j. j < base_counts self.now.body.now.boxes Y) }
        requires on_z { IfSome z (λ k. k < base_counts self.now.body.now.boxes Z) }
        ensures none_x { x ≡ None → result ≡ None }
        ensures none_y { y ≡ None → result ≡ None }
        ensures none_z { z ≡ None → result ≡ None }
        ensures fills { let d = self.now.body.now in let g = self.now.grid.now in
            (i j k : ℕ) (p : Place) → x ≡ Some i → y ≡ Some j → z ≡ Some k → CarriesBody g d → IsCell (counts_of g) p
            → LiesInBaseCell d.boxes g p (place_at i j k) → result ≡ occupant_at d g p }
    {
        match (x, y, z) {
            (Some(i), Some(j), Some(k)) => Some(self.body.filling(Place { i, j, k })),
            _ => None,
        }
    }

    /// The base intervals at a row and beside it.
    pub fn around(&self, j: u32, k: u32) -> Around
        requires rows { AreRows self.now }
        requires row { j < counts_of self.now.grid.now Y }
        requires layer { k < counts_of self.now.grid.now Z }
        ensures { IsAround self.now j k result }
    {
        Around {
            j,
            k,
            base_j: self.base_of(AxisName::Y, j),
            low_j: self.base_below(AxisName::Y, j),
            high_j: self.base_above(AxisName::Y, j + 1),
            base_k: self.base_of(AxisName::Z, k),
            low_k: self.base_below(AxisName::Z, k),
            high_k: self.base_above(AxisName::Z, k + 1),
        }
    }

    /// The run of the cells of a row that lie in a base interval along x, from one base line up to the next: none where
    /// no cell of them is solid.
    pub fn run_at(&self, around: &Around, b: u32, from: u32, to: u32) -> Option<Run>
        requires rows { AreRows self.now }
        requires around { IsAround self.now around.now.j around.now.k around.now }
        requires within { (around.now.j < counts_of self.now.grid.now Y) × (around.now.k < counts_of self.now.grid.now Z) }
        requires base { b < base_counts self.now.body.now.boxes X }
        requires from { IsLineAt self.now.grid.now.x (slice_index (base_lines X self.now.body.now.boxes) b) from }
        requires to { IsLineAt self.now.grid.now.x (slice_index (base_lines X self.now.body.now.boxes) (b + 1)) to }
        ensures up { from < to }
        ensures run { let j = around.now.j in let k = around.now.k in
            MatchOption result (HasNoSolid self.now j k from to) (IsWholeRun self.now j k from to) }
    {
        let at = self.body.filling(Place {
            i: b,
            j: around.base_j,
            k: around.base_k,
        });
        match at {
            Occupant::Solid { lambda } => Some(self.solid_run(around, lambda, b, from, to)),
            Occupant::Air { .. } => None,
        }
    }

    // The run of solid cells in a base interval, with what lies beside them.
    fn solid_run(&self, around: &Around, lambda: u32, b: u32, from: u32, to: u32) -> Run
        requires rows { AreRows self.now }
        requires around { IsAround self.now around.now.j around.now.k around.now }
        requires within { (around.now.j < counts_of self.now.grid.now Y) × (around.now.k < counts_of self.now.grid.now Z) }
        requires up { from < to }
        requires end { to ≤ counts_of self.now.grid.now X }
        requires base { b < base_counts self.now.body.now.boxes X }
        requires lies { (i : ℕ) → from ≤ i → i < to → LiesIn self.now.body.now self.now.grid.now X i b }
        requires own { (i : ℕ) → from ≤ i → i < to →
            Some (Solid lambda) ≡ occupant_at self.now.body.now self.now.grid.now (place_at i around.now.j around.now.k) }
        ensures { IsWholeRun self.now around.now.j around.now.k from to result }
    {
        let beside = self.beside(around, b, from, to);
        Run {
            lambda,
            from,
            to,
            low_x: beside.low_x,
            high_x: beside.high_x,
            low_y: beside.low_y,
            high_y: beside.high_y,
            low_z: beside.low_z,
            high_z: beside.high_z,
        }
    }

    // What lies beside the cells of a row that lie in a base interval.
    fn beside(&self, around: &Around, b: u32, from: u32, to: u32) -> Beside
        requires rows { AreRows self.now }
        requires around { IsAround self.now around.now.j around.now.k around.now }
        requires within { (around.now.j < counts_of self.now.grid.now Y) × (around.now.k < counts_of self.now.grid.now Z) }
        requires up { from < to }
        requires end { to ≤ counts_of self.now.grid.now X }
        requires base { b < base_counts self.now.body.now.boxes X }
        requires lies { (i : ℕ) → from ≤ i → i < to → LiesIn self.now.body.now self.now.grid.now X i b }
        ensures { IsBeside self.now around.now.j around.now.k from to result }
    {
        let Around { base_j, base_k, .. } = *around;
        Beside {
            low_x: self.filling(
                self.base_below(AxisName::X, from),
                Some(base_j),
                Some(base_k),
            ),
            high_x: self.filling(self.base_above(AxisName::X, to), Some(base_j), Some(base_k)),
            low_y: self.filling(Some(b), around.low_j, Some(base_k)),
            high_y: self.filling(Some(b), around.high_j, Some(base_k)),
            low_z: self.filling(Some(b), Some(base_j), around.low_k),
            high_z: self.filling(Some(b), Some(base_j), around.high_k),
        }
    }
}

// The interval of an axis of the base grid in which a line of another axis lies.
fn base_interval(base: &Axis, axis: &Axis, i: u32) -> u32
    requires line { i < length axis.now }
    requires between { IsBetweenEnds base.now (slice_index axis.now i) }
    ensures { IsIntervalOf base.now (slice_index axis.now i) result }
{
    match base.interval_of(axis.lines()[i as usize]) {
        Some(interval) => interval,
        None => unreachable!(),
    }
}

// The index of the line at a coordinate.
fn line_index(axis: &Axis, x: u32) -> u32
    requires { Contains axis.now x }
    ensures { IsLineAt axis.now x result }
{
    match axis.line_at(x) {
        Some(i) => i,
        None => unreachable!(),
    }
}
