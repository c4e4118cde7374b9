// A field in the solver: where a descent begins, and where it came.
ghost use Rattle.std.specs.Prelude.{All};
ghost use Rattle.tb_cg.specs.Limits.{IsTemperature};

use crate::form::Form;
use crate::points::Points;
use tb_gradients::{Entry, Operator, Solver};
use tb_grid::{AxisName, CellCounts, NodeId, Place};

/// The temperature 1, in 10⁻⁸ of the difference.
pub const MOST_TEMPERATURE: i64 = 100_000_000;

/// The exponent of a field in the solver: entries are temperatures in 10⁻⁸ of the difference, times 2⁻²⁰.
pub const FIELD_EXPONENT: i32 = -20;

const FIELD_BITS: u32 = 20;

/// The temperature 1 in the solver's units.
pub const WARM: i64 = MOST_TEMPERATURE << 20;

/// The derivative of the energy of a field, whose warm environments are at 1, in the solver's units.
#[derive(Clone, Copy)]
pub struct Derivative<'a> {
    pub form: &'a Form,
}

// A temperature, in the solver's units.
fn entry(temperature: i64) -> Entry {
    Entry::new(i128::from(temperature) << FIELD_BITS).unwrap_or(Entry::ZERO)
}

impl Operator for Derivative<'_> {
    fn multiply(&self, p: &[Entry], shift: u8, q: &mut [Entry]) -> Option<i64> {
        self.form.derivative(p, entry(MOST_TEMPERATURE), shift, q)
    }
}

/// Begins a descent at a field: node temperatures in the index order of nodes, in 10⁻⁸ of the difference. None where a
/// number doesn't fit, or the solver has another layout than the form.
pub fn begin_at(form: &Form, counts: CellCounts, field: &[i64], solver: &mut Solver) -> Option<()> {
    solver.clear_solution(FIELD_EXPONENT);
    for number in 0..counts.nodes() {
        let at = form.points.at(counts.node_place(NodeId(number)));
        let temperature = field.get(number as usize).copied()?;
        solver.set_solution(at, entry(temperature))?;
    }
    solver.descend(&Derivative { form })
}

// A temperature from the solver's units: rounded, from 0 to 10⁸.
fn rounded(found: Entry) -> i64
    ensures { IsTemperature result }
{
    let half = 1i64 << (FIELD_BITS - 1);
    (found.value().saturating_add(half) >> FIELD_BITS).clamp(0, MOST_TEMPERATURE)
}

// Sets a temperature where there is one.
fn set(field: &mut [i64], node: usize, found: Entry)
    ensures { All IsTemperature field.old → All IsTemperature field.new }
{
    if node < field.len() {
        field[node] = rounded(found);
    }
}

// Whether what was found is out of the range.
fn is_out(found: Entry) -> bool {
    found.value() < 0 || found.value() > WARM
}

// Makes a row of a field of what was found: the row begins at this node, and at this place.
fn write_row(
    points: Points,
    counts: CellCounts,
    found: &[Entry],
    place: usize,
    node: usize,
    field: &mut [i64],
) -> bool
    ensures { All IsTemperature field.old → All IsTemperature field.new }
{
    let stride = points.stride(AxisName::X).places;
    let mut at = place;
    let mut is_cut = false;
    for i in 0..nodes_of(counts.x) {
        let value = found.get(at).copied().unwrap_or(Entry::ZERO);
        set(field, node.saturating_add(i), value);
        is_cut |= is_out(value);
        at = at.saturating_add(stride);
    }
    is_cut
}

// Makes a layer of a field, which begins at this node.
fn write_layer(
    points: Points,
    counts: CellCounts,
    found: &[Entry],
    k: u32,
    first: usize,
    field: &mut [i64],
) -> bool
    ensures { All IsTemperature field.old → All IsTemperature field.new }
{
    let mut node = first;
    let mut is_cut = false;
    for j in 0..counts.y.saturating_add(1) {
        let place = points.at(Place { i: 0, j, k });
        is_cut |= write_row(points, counts, found, place, node, field);
        node = node.saturating_add(nodes_of(counts.x));
    }
    is_cut
}

// How many nodes stand along an axis with so many cells.
fn nodes_of(cells: u32) -> usize {
    (cells as usize).saturating_add(1)
}

/// Makes a field of what a descent found: the temperatures are rounded, and from 0 to 10⁸. Tells whether some of them were
/// out of that range.
pub fn write_found(points: Points, counts: CellCounts, found: &[Entry], field: &mut [i64]) -> bool
    ensures { All IsTemperature field.old → All IsTemperature field.new }
{
    let layer = nodes_of(counts.x).saturating_mul(nodes_of(counts.y));
    let mut node = 0;
    let mut is_cut = false;
    for k in 0..counts.z.saturating_add(1) {
        is_cut |= write_layer(points, counts, found, k, node, field);
        node = node.saturating_add(layer);
    }
    is_cut
}
