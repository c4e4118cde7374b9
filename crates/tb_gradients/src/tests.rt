// Systems whose solutions are known.
use super::*;
use std::alloc::{AllocError, Global};
use std::process::Abort;
use std::test::Fail;

const ONE: i64 = 1 << 50;

fn coupling(value: i64) -> Coupling {
    Coupling::new(value).unwrap_or(Coupling::ZERO)
}

fn entry(value: i64) -> Entry {
    Entry::new(i128::from(value)).unwrap_or(Entry::ZERO)
}

// A wall of eight cells in a row, between surroundings at 1 before the first cell and at 0 after the last.
fn couple_wall(wall: &mut Matrix) -> Option<()> {
    let first = wall.layout.first();
    for at in first + 1..first + 8 {
        wall.couple(at, Neighbour::BeforeOnX, coupling(ONE))?;
    }
    wall.couple(first, Neighbour::Surroundings, coupling(2 * ONE))?;
    wall.couple(first + 7, Neighbour::Surroundings, coupling(2 * ONE))?;
    wall.finish(1_022)
}

// The temperature in the middle of a cell falls by an eighth from cell to cell.
#[test]
fn the_temperature_of_a_plane_wall_is_linear(rt: HostRuntime) -> Result<(), Fail> {
    let layout = Layout::new(8, 1, 1);
    assert!(rt; layout.is_some());
    let Some(layout) = layout else {
        return Ok(());
    };
    let mut wall = Matrix::new(rt.alloc(), layout)?;
    let mut solver = Solver::new(rt.alloc(), layout)?;
    let coupled = couple_wall(&mut wall);
    assert_eq!(rt; coupled, Some(()));
    solver.clear_residual(0);
    let added = solver.add_residual(layout.first(), entry(2 * ONE));
    assert_eq!(rt; added, Some(()));
    let outcome = solver.solve(&wall, 20, 30);
    assert_eq!(rt; outcome.end, End::Converged);
    for cell in 0..8usize {
        let want = ONE / 16 * (15 - 2 * cell as i64);
        let found = solver
            .solution()
            .get(layout.first() + cell)
            .map_or(0, |x| x.value());
        assert!(rt;
            found.abs_diff(want) < 1 << 25,
            "{cell}: {found} for {want}"
        );
    }
    Ok(())
}

// A block of 6 · 5 · 4 points, of two kinds in turns of two, and surroundings beside its first and its last layer.
fn couple_block(block: &mut Matrix) -> Option<()> {
    let layout = block.layout;
    let first = layout.first();
    for at in first..layout.last() {
        let (i, j, k) = ((at - first) % 6, (at - first) / 6 % 5, (at - first) / 30);
        let strength = coupling(if (i / 2 + j / 2 + k / 2) % 2 == 0 {
            ONE
        } else {
            ONE >> 10
        });
        if i > 0 {
            block.couple(at, Neighbour::BeforeOnX, strength)?;
        }
        if j > 0 {
            block.couple(at, Neighbour::BeforeOnY, strength)?;
        }
        if k > 0 {
            block.couple(at, Neighbour::BeforeOnZ, strength)?;
        }
        if k == 0 || k == 3 {
            block.couple(at, Neighbour::Surroundings, coupling(ONE >> 3))?;
        }
    }
    block.sum_up()
}

// The greatest entry of what the solution leaves of a right-hand side of `value` at each point of the first layer.
fn greatest_rest(matrix: &Matrix, solution: &[Entry], image: &mut [Entry], value: i64) -> u64 {
    let layout = matrix.layout;
    if matrix.multiply(solution, 50, image).is_none() {
        return u64::MAX;
    }
    let mut greatest = 0u64;
    for at in layout.first()..layout.last() {
        let wanted = if at - layout.first() < 30 { value } else { 0 };
        let found = image.get(at).map_or(0, |x| x.value());
        greatest = greatest.max(found.abs_diff(wanted));
    }
    greatest
}

#[test]
fn the_residual_of_a_block_of_two_materials_is_small(rt: HostRuntime) -> Result<(), Fail> {
    let layout = Layout::new(6, 5, 4);
    assert!(rt; layout.is_some());
    let Some(layout) = layout else {
        return Ok(());
    };
    let mut block = Matrix::new(rt.alloc(), layout)?;
    let mut solver = Solver::new(rt.alloc(), layout)?;
    let mut image = vec![in rt.alloc(); Entry::ZERO; layout.places()]?;
    let coupled = couple_block(&mut block);
    assert_eq!(rt; coupled, Some(()));
    block.factorize(1_022);
    solver.clear_residual(0);
    for at in layout.first()..layout.first() + 30 {
        let added = solver.add_residual(at, entry(ONE >> 3));
        assert_eq!(rt; added, Some(()));
    }
    let outcome = solver.solve(&block, 60, 20);
    assert_eq!(rt; outcome.end, End::Converged);
    assert!(rt; outcome.steps < 30, "{}", outcome.steps);
    block.clear();
    let coupled = couple_block(&mut block);
    assert_eq!(rt; coupled, Some(()));
    let rest = greatest_rest(&block, solver.solution(), image.as_mut_slice(), ONE >> 3);
    assert!(rt; rest < 1 << 30, "{rest}");
    Ok(())
}
