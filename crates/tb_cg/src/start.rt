// The field that a solution of the cells' system begins with.
ghost use Rattle.std.specs.Prelude.{All};
ghost use Rattle.tb_cg.specs.Limits.{IsTemperature};

use crate::cells::{CellAxis, Cells, Filling};
use crate::field::MOST_TEMPERATURE;
use crate::points::Points;
use tb_gradients::Entry;
use tb_grid::{AxisName, NodeId, Place};

// A mean so far: the sum of weights times temperatures, those times 2⁻³⁰, and the sum of the weights.
#[derive(Clone, Copy)]
struct Mean {
    sum: i128,
    weights: i128,
}

impl Mean {
    // The mean with one temperature more, which is times 2⁻⁵⁰.
    fn with(self, weight: u128, temperature: i64) -> Mean {
        let weight = i128::try_from(weight).unwrap_or(i128::MAX);
        Mean {
            sum: self
                .sum
                .saturating_add(weight.saturating_mul(i128::from(temperature >> 20))),
            weights: self.weights.saturating_add(weight),
        }
    }

    // The mean in 10⁻⁸ of the difference, from 0 to 10⁸; 0 where there is no weight.
    fn value(self) -> i64
        ensures { IsTemperature result }
    {
        if self.weights <= 0 {
            return 0;
        }
        let mean = self.sum / self.weights;
        let scaled = mean.saturating_mul(i128::from(MOST_TEMPERATURE)) >> 30;
        i64::try_from(scaled)
            .unwrap_or(0)
            .clamp(0, MOST_TEMPERATURE)
    }
}

// What lies before and after a node along an axis: the widths of the cells, 1 where there is none, and the intervals of the
// coarser grid that hold them.
#[derive(Clone, Copy)]
struct Sides {
    before: u64,
    after: u64,
    base_before: Option<u32>,
    base_after: Option<u32>,
}

// The width of a cell, 1 where there is none.
fn width_at(line: CellAxis, at: usize) -> u64 {
    match line.widths.get(at) {
        Some(width) => u64::from(*width),
        None => 1,
    }
}

fn sides_of(line: CellAxis, node: u32) -> Sides {
    let after = node as usize;
    let (before, base_before) = match after.checked_sub(1) {
        Some(cell) => (width_at(line, cell), line.bases.get(cell).copied()),
        None => (1, None),
    };
    Sides {
        before,
        after: width_at(line, after),
        base_before,
        base_after: line.bases.get(after).copied(),
    }
}

// How many parts a weight has, so that the quotients of surfaces keep their digits.
const PARTS: u128 = 1024;

// What fills the two cells before and after a node along x, beside it along y and z.
#[derive(Clone, Copy)]
struct Pair {
    before: Option<Filling>,
    after: Option<Filling>,
}

fn pair_at(cells: Cells, x: Sides, j: Option<u32>, k: Option<u32>) -> Pair {
    Pair {
        before: cells.filling_of(x.base_before, j, k),
        after: cells.filling_of(x.base_after, j, k),
    }
}

// The product of two widths.
fn area(first: u64, second: u64) -> u128 {
    u128::from(first) * u128::from(second)
}

// The mean with a cell at a node, whose conductivity over its volume, times the widths of all cells at the node, is its
// weight: `width` and `across` are those of the cells on the other sides.
fn with_cell(
    temperatures: &[Entry],
    at: usize,
    filling: Option<Filling>,
    width: u64,
    across: u128,
    mean: Mean,
) -> Mean {
    let Some(Filling::Solid { lambda }) = filling else {
        return mean;
    };
    let temperature = temperatures.get(at).map_or(0, |entry| entry.value());
    let weight = (PARTS * u128::from(lambda)).saturating_mul(across);
    mean.with(weight.saturating_mul(u128::from(width)), temperature)
}

// The mean with the surface between two cells along an axis at a node, where there is one: it weighs 1/(2 Rs) over its area,
// times the widths of all cells at the node, `along` of these two and `across` of those on the other sides.
fn with_surface(
    low: Option<Filling>,
    high: Option<Filling>,
    along: u128,
    across: u128,
    mean: Mean,
) -> Mean {
    let (rs, is_warm) = match (low, high) {
        (Some(Filling::Solid { .. }), Some(Filling::Air { rs, is_warm })) => (rs, is_warm),
        (Some(Filling::Air { rs, is_warm }), Some(Filling::Solid { .. })) => (rs, is_warm),
        _ => return mean,
    };
    let weight = along.saturating_mul(across).saturating_mul(5_000 * PARTS);
    let weight = weight.checked_div(u128::from(rs)).unwrap_or(0);
    mean.with(weight, if is_warm { 1 << 50 } else { 0 })
}

// The mean with the two cells of a pair and the surface between them. The widths of the cells on its other sides along y and
// z are `y` and `z`, and `at` is the place of the cell after the node.
fn with_pair(
    temperatures: &[Entry],
    at: usize,
    row: usize,
    pair: Pair,
    x: Sides,
    across: u128,
    mean: Mean,
) -> Mean {
    let before = at.saturating_sub(row);
    let mean = with_cell(temperatures, before, pair.before, x.after, across, mean);
    let mean = with_cell(temperatures, at, pair.after, x.before, across, mean);
    with_surface(
        pair.before,
        pair.after,
        area(x.before, x.after),
        across,
        mean,
    )
}

// The mean with the surfaces between two pairs that follow one another along an axis. The width of the cells on the other
// side along the third axis is `third`.
fn with_surfaces(low: Pair, high: Pair, along: Sides, x: Sides, third: u64, mean: Mean) -> Mean {
    let along = area(along.before, along.after);
    let mean = with_surface(low.before, high.before, along, area(x.after, third), mean);
    with_surface(low.after, high.after, along, area(x.before, third), mean)
}

// The temperature of a node: the mean of the cells and the environments that touch it.
fn node_temperature(cells: Cells, points: Points, temperatures: &[Entry], node: Place) -> i64
    ensures { IsTemperature result }
{
    let x = sides_of(cells.x, node.i);
    let y = sides_of(cells.y, node.j);
    let z = sides_of(cells.z, node.k);
    let lowest = pair_at(cells, x, y.base_before, z.base_before);
    let second = pair_at(cells, x, y.base_after, z.base_before);
    let third = pair_at(cells, x, y.base_before, z.base_after);
    let highest = pair_at(cells, x, y.base_after, z.base_after);
    let row = points.stride(AxisName::X).places;
    let above = points.at(node);
    let below = above.saturating_sub(points.stride(AxisName::Z).places);
    let to_y = points.stride(AxisName::Y).places;
    let mean = Mean { sum: 0, weights: 0 };
    let beside = below.saturating_sub(to_y);
    let mean = with_pair(
        temperatures,
        beside,
        row,
        lowest,
        x,
        area(y.after, z.after),
        mean,
    );
    let mean = with_pair(
        temperatures,
        below,
        row,
        second,
        x,
        area(y.before, z.after),
        mean,
    );
    let beside = above.saturating_sub(to_y);
    let mean = with_pair(
        temperatures,
        beside,
        row,
        third,
        x,
        area(y.after, z.before),
        mean,
    );
    let mean = with_pair(
        temperatures,
        above,
        row,
        highest,
        x,
        area(y.before, z.before),
        mean,
    );
    let mean = with_surfaces(lowest, second, y, x, z.after, mean);
    let mean = with_surfaces(third, highest, y, x, z.before, mean);
    let mean = with_surfaces(lowest, third, z, x, y.after, mean);
    let mean = with_surfaces(second, highest, z, x, y.before, mean);
    mean.value()
}

// Sets a value where there is one.
fn set(values: &mut [i64], at: usize, value: i64)
    requires { IsTemperature value }
    ensures { All IsTemperature values.old → All IsTemperature values.new }
{
    if at < values.len() {
        values[at] = value;
    }
}

// Sets a value so many places above another one, where the grid is flat.
fn set_above(values: &mut [i64], at: usize, above: usize, is_flat: bool, value: i64)
    requires { IsTemperature value }
    ensures { All IsTemperature values.old → All IsTemperature values.new }
{
    if is_flat {
        set(values, at.saturating_add(above), value);
    }
}

/// The temperatures of the nodes, in the index order of nodes, in 10⁻⁸ of the difference, from 0 to 10⁸, from those in the
/// middles of the cells: at each node the mean of the cells that touch it, weighed by λ/(a·b·c), and of the environments,
/// weighed by 1/(2·Rs·b·c). The nodes on both sides of a single layer of cells are the same. Temperatures of cells are times 2⁻⁵⁰, at the places of the cells.
pub fn start_field(cells: Cells, points: Points, temperatures: &[Entry], field: &mut [i64])
    ensures { All IsTemperature field.old → All IsTemperature field.new }
{
    let nodes = cells.counts.nodes();
    let is_flat = cells.counts.z == 1;
    let found = if is_flat { nodes / 2 } else { nodes };
    for number in 0..found {
        let node = cells.counts.node_place(NodeId(number));
        let value = node_temperature(cells, points, temperatures, node);
        set(field, number as usize, value);
        set_above(field, number as usize, found as usize, is_flat, value);
    }
}
