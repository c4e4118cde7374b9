// A plane wall, whose temperatures and flows are known.
ghost use Rattle.std.specs.Prelude.{◌≤◌, length};

use super::*;
use std::alloc::{AllocError, Global};
use std::process::Abort;
use std::test::Fail;
use tb_gradients::{End, Entry, Matrix, Solver};
use tb_grid::{Axis, Grid, Place};

// Ten cells in a row, 20 mm wide each and 1 m by 1 m across: air at 1, eight of a solid with 0.8 W/(m·K), air at 0.
const WALL: [Filling; 10] = [
    Filling::Air {
        rs: 1_300,
        is_warm: true,
    },
    Filling::Solid { lambda: 8_000 },
    Filling::Solid { lambda: 8_000 },
    Filling::Solid { lambda: 8_000 },
    Filling::Solid { lambda: 8_000 },
    Filling::Solid { lambda: 8_000 },
    Filling::Solid { lambda: 8_000 },
    Filling::Solid { lambda: 8_000 },
    Filling::Solid { lambda: 8_000 },
    Filling::Air {
        rs: 400,
        is_warm: false,
    },
];

const WIDTHS: [u32; 10] = [200; 10];

const ACROSS: CellAxis = CellAxis {
    widths: &[10_000],
    bases: &[0],
};

const LINES: [u32; 11] = [0, 200, 400, 600, 800, 1000, 1200, 1400, 1600, 1800, 2000];

fn axis(alloc: Global, lines: &[u32]) -> Result<Axis, Fail>
    requires { length lines.now ≤ 11 }
{
    Ok(Axis::new(lines.to_vec(alloc)?)?)
}

fn wall(alloc: Global) -> Result<Grid, Fail> {
    let x = axis(alloc, LINES.as_slice())?;
    let y = axis(alloc, [0, 10_000].as_slice())?;
    let z = axis(alloc, [0, 10_000].as_slice())?;
    Ok(Grid::new(x, y, z)?)
}

fn cells_of(grid: &Grid) -> Cells<'static> {
    Cells {
        counts: grid.counts(),
        x: CellAxis {
            widths: &WIDTHS,
            bases: &[0, 1, 2, 3, 4, 5, 6, 7, 8, 9],
        },
        y: ACROSS,
        z: ACROSS,
        base: grid.counts(),
        fillings: &WALL,
    }
}

// The flows of the cells' temperatures, where they are found.
fn solve_flows(
    cells: Cells,
    points: Points,
    matrix: &mut Matrix,
    solver: &mut Solver,
    flows: &mut [i64],
) -> Option<End> {
    let scale = scale_of_links(cells);
    couple_cells(cells, points, scale, &[], matrix, solver)?;
    matrix.finish(1_022)?;
    let outcome = solver.solve(matrix, 100, 30);
    face_flows(cells, points, solver.solution(), scale, &[], flows);
    Some(outcome.end)
}

fn flows_of(alloc: Global, cells: Cells) -> Result<Vec<i64>, AllocError> {
    let mut flows = vec![in alloc; 0i64; cells.counts.faces() as usize]?;
    if let Some(points) = Points::new(cells.counts) {
        let mut matrix = Matrix::new(alloc, points.layout)?;
        let mut solver = Solver::new(alloc, points.layout)?;
        let _end = solve_flows(
            cells,
            points,
            &mut matrix,
            &mut solver,
            flows.as_mut_slice(),
        );
    }
    Ok(flows)
}

// Of resistances of 0.13, 8 times 0.025 and 0.04 in a row, 1/0.37 W flows through 1 m².
#[test]
fn the_flows_of_a_plane_wall_are_one(rt: HostRuntime) -> Result<(), Fail> {
    let grid = wall(rt.alloc())?;
    let flows = flows_of(rt.alloc(), cells_of(&grid))?;
    let flows = flows.as_slice();
    // The faces across x come after the ten across z.
    for i in 1..10usize {
        let flow = flows.get(10 + i).copied().unwrap_or(0);
        assert!(rt; flow.abs_diff(2_702_702_703) < 3, "{i}: {flow}");
    }
    assert_eq!(rt; flows.get(10), Some(&0));
    assert_eq!(rt; flows.get(20), Some(&0));
    Ok(())
}

// The temperatures of the nodes in 10⁻⁸, from the inner surface to the outer one: 1 less 0.13 and then 0.025 more each, of
// 0.37.
const TEMPERATURES: [i64; 9] = [
    64_864_865, 58_108_108, 51_351_351, 44_594_595, 37_837_838, 31_081_081, 24_324_324, 17_567_568,
    10_810_811,
];

// Whether the nodes of the wall have their temperatures.
fn is_linear(field: &[i64]) -> bool {
    field.len() == 44
        && (0..9usize).all(|i| field[i + 1].abs_diff(TEMPERATURES[i]) < 3)
        && (0..9usize).all(|i| field[i + 34].abs_diff(TEMPERATURES[i]) < 3)
}

// Thirty steps down the energy, from the field.
fn descend(
    cells: Cells,
    form: &Form,
    matrix: &mut Matrix,
    solver: &mut Solver,
    field: &mut [i64],
) -> Option<()> {
    begin_at(form, cells.counts, field, solver)?;
    let free = Held {
        temperatures: &[],
        descent: &[],
    };
    form.couple_nodes(free, matrix)?;
    matrix.finish(1_004)?;
    for _ in 0..30 {
        let _bits = solver.step(form, matrix, i32::MIN)?;
    }
    let _is_cut = write_found(form.points, cells.counts, solver.solution(), field);
    Some(())
}

fn field_of(alloc: Global, cells: Cells) -> Result<Vec<i64>, AllocError> {
    let mut field = vec![in alloc; 0i64; cells.counts.nodes() as usize]?;
    if let Some(points) = Points::new(cells.counts) {
        let form = Form::new(alloc, cells, points)?;
        let mut matrix = Matrix::new(alloc, points.layout)?;
        let mut solver = Solver::new(alloc, points.layout)?;
        let _done = descend(cells, &form, &mut matrix, &mut solver, field.as_mut_slice());
    }
    Ok(field)
}

#[test]
fn the_field_of_a_plane_wall_is_linear(rt: HostRuntime) -> Result<(), Fail> {
    let grid = wall(rt.alloc())?;
    let field = field_of(rt.alloc(), cells_of(&grid))?;
    assert!(rt; is_linear(field.as_slice()));
    Ok(())
}

// The temperatures in the middles of the cells: 0.0125 beyond their first lines.
fn fill(points: Points, temperatures: &mut [Entry]) {
    for i in 1..9u32 {
        let at = points.at(Place { i, j: 0, k: 0 });
        let below = i128::from(i) * 50 + 235;
        let value = (1i128 << 50) - below * (1i128 << 50) / 740;
        if at < temperatures.len() {
            temperatures[at] = Entry::new(value).unwrap_or(Entry::ZERO);
        }
    }
}

fn start_of(alloc: Global, cells: Cells) -> Result<Vec<i64>, AllocError> {
    let mut field = vec![in alloc; 0i64; cells.counts.nodes() as usize]?;
    if let Some(points) = Points::new(cells.counts) {
        let mut temperatures = vec![in alloc; Entry::ZERO; points.layout.places()]?;
        fill(points, temperatures.as_mut_slice());
        start_field(cells, points, temperatures.as_slice(), field.as_mut_slice());
    }
    Ok(field)
}

// Where the cells' temperatures are those of the wall, the field that begins with them is its field.
#[test]
fn a_field_starts_at_the_means_of_the_cells(rt: HostRuntime) -> Result<(), Fail> {
    let grid = wall(rt.alloc())?;
    let field = start_of(rt.alloc(), cells_of(&grid))?;
    assert!(rt; is_linear(field.as_slice()));
    Ok(())
}

const BLOCK: [Filling; 8] = [Filling::Solid { lambda: 10_000 }; 8];

// Cells of 100 by 200 by 400 mm, two along each axis, whose weights along x, y and z are as 16 to 4 to 1.
fn block(alloc: Global) -> Result<Grid, Fail> {
    let x = axis(alloc, [0, 1_000, 2_000].as_slice())?;
    let y = axis(alloc, [0, 2_000, 4_000].as_slice())?;
    let z = axis(alloc, [0, 4_000, 8_000].as_slice())?;
    Ok(Grid::new(x, y, z)?)
}

fn cells_of_block(grid: &Grid) -> Cells<'static> {
    Cells {
        counts: grid.counts(),
        x: CellAxis {
            widths: &[1_000, 1_000],
            bases: &[0, 1],
        },
        y: CellAxis {
            widths: &[2_000, 2_000],
            bases: &[0, 1],
        },
        z: CellAxis {
            widths: &[4_000, 4_000],
            bases: &[0, 1],
        },
        base: grid.counts(),
        fillings: &BLOCK,
    }
}

// The corners of the last cell, along x first.
const CORNERS: [Place; 8] = [
    Place { i: 1, j: 1, k: 1 },
    Place { i: 2, j: 1, k: 1 },
    Place { i: 1, j: 2, k: 1 },
    Place { i: 2, j: 2, k: 1 },
    Place { i: 1, j: 1, k: 2 },
    Place { i: 2, j: 1, k: 2 },
    Place { i: 1, j: 2, k: 2 },
    Place { i: 2, j: 2, k: 2 },
];

// By hand, where the last corner alone is warm: along each axis an edge counts 4, those beside it 2, the one across 1.
const FORCES: [i64; 8] = [-21, 6, -30, 36, -39, 18, -54, 84];

// The derivative of the block's energy where its last corner alone is warm, at the corners of the last cell.
fn derivative_of(alloc: Global, cells: Cells) -> Result<Vec<i64>, AllocError> {
    let mut forces = Vec::new(alloc);
    if let Some(points) = Points::new(cells.counts) {
        let form = Form::new(alloc, cells, points)?;
        let mut p = vec![in alloc; Entry::ZERO; points.layout.places()]?;
        let mut q = vec![in alloc; Entry::ZERO; points.layout.places()]?;
        let last = points.at(Place { i: 2, j: 2, k: 2 });
        if last < p.len() {
            p[last] = Entry::new(1i128 << 50).unwrap_or(Entry::ZERO);
        }
        let made = form.derivative(p.as_slice(), Entry::ZERO, 58, q.as_mut_slice());
        if made.is_some() {
            for corner in CORNERS {
                let found = q.as_slice().get(points.at(corner)).copied();
                forces.push(found.unwrap_or(Entry::ZERO).value())?;
            }
        }
    }
    Ok(forces)
}

#[test]
fn each_corner_of_a_cell_has_its_force(rt: HostRuntime) -> Result<(), Fail> {
    let grid = block(rt.alloc())?;
    let forces = derivative_of(rt.alloc(), cells_of_block(&grid))?;
    let forces = forces.as_slice();
    let last = forces.get(7).copied().unwrap_or(0);
    assert!(rt; last > 1 << 40, "{last}");
    for i in 0..8usize {
        let found = forces.get(i).copied().unwrap_or(0);
        let wanted = i128::from(last) * i128::from(FORCES[i]) / 84;
        assert!(rt;
            (i128::from(found) - wanted).unsigned_abs() < 1 << 10,
            "{i}: {found} for {wanted}"
        );
    }
    Ok(())
}
