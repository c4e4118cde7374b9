// Moves of cycles from zero on the table of a body's weights, on a wall of one solid cell and on a corner. The flows were
// computed by a separate program, from the energy at three multiples of each cycle.
ghost use Rattle.std.specs.Prelude.{◌≡◌};
ghost use Rattle.tb_grid.specs.Grid.{counts_of};
ghost use Rattle.tb_relax.specs.Tables.{table_counts};

use std::alloc::Global;
use std::test::Fail;
use tb_body_tests::{CORNER, WALL, body};
use tb_cycle_moves::{relax_cycles, some_cycle_moves};
use tb_geometry::{Body, Case};
use tb_relax::Table;
use tb_tables::whole::Tables;
use tb_trees::OutletTree;

// The corner's flows after one move of each cycle.
const AFTER_ONE: [i64; 42] = [
    0,
    0,
    0,
    0,
    0,
    0,
    0,
    0,
    0,
    0,
    0,
    0,
    0,
    0,
    -31_114_178,
    -19_958_001,
    0,
    0,
    0,
    -19_666_760,
    0,
    0,
    0,
    0,
    0,
    -8_510_583,
    -5_845_409,
    0,
    -19_666_760,
    -25_803_410,
    0,
    0,
    0,
    0,
    0,
    0,
    0,
    0,
    0,
    0,
    0,
    0,
];

// The moves of all cycles, if these are the flows of a flux: whether one changed them, and whether one still would.
fn turned(tree: &OutletTree, table: &Table, flows: &mut [i64]) -> Option<(bool, bool)>
    requires { table_counts table.now ≡ counts_of tree.now.grid }
{
    if !table.is_sound() || !table.holds(flows) {
        return None;
    }
    let changed = relax_cycles(tree, table, flows);
    let moves = some_cycle_moves(tree, table, flows);
    Some((changed, moves))
}

// The flows after the moves of all cycles from zero, whether they changed, and whether one still would.
fn relaxed(alloc: Global, body: &Body) -> Result<Option<(Vec<i64>, bool, bool)>, Fail> {
    let grid = body.base();
    if !body.carries(grid) {
        return Ok(None);
    }
    let tree = OutletTree::new(alloc, body, grid)?;
    let Ok(tables) = Tables::new(alloc, body, grid, Case { mask: 1 }) else {
        return Err(Fail::from("no memory"));
    };
    let table = tables.table();
    let mut flows = vec![in alloc; 0; tree.faces() as usize]?;
    let Some((changed, moves)) = turned(&tree, &table, flows.as_mut_slice()) else {
        return Ok(None);
    };
    Ok(Some((flows, changed, moves)))
}

// The one cycle of the wall, which enters at face 5.
#[test]
fn cycle_of_a_wall(rt: HostRuntime) -> Result<(), Fail> {
    let wall = body(rt.alloc(), WALL)?;
    let Some((flows, changed, moves)) = relaxed(rt.alloc(), &wall)? else {
        return Err(Fail::from("no moves"));
    };
    assert_eq!(rt; (changed, moves), (true, false));
    assert_eq!(rt;
        flows.as_slice(),
        [
            0,
            0,
            0,
            0,
            2_702_734_053,
            2_702_734_053,
            0,
            0,
            0,
            0,
            0,
            0,
            0,
            0,
            0,
            0
        ]
        .as_slice()
    );
    Ok(())
}

// The five cycles of the corner, each in its turn.
#[test]
fn cycles_of_a_corner_in_turn(rt: HostRuntime) -> Result<(), Fail> {
    let corner = body(rt.alloc(), CORNER)?;
    let Some((flows, changed, moves)) = relaxed(rt.alloc(), &corner)? else {
        return Err(Fail::from("no moves"));
    };
    assert_eq!(rt; (changed, moves), (true, true));
    assert_eq!(rt; flows.as_slice(), AFTER_ONE.as_slice());
    Ok(())
}
