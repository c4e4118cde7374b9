// Plain passes on a wall of one solid cell from zero, on the table of its weights. The upper end after each pass, and after
// how many nothing moves, were computed by a separate program.
use std::alloc::Global;
use std::test::Fail;
use tb_body_tests::{WALL, body};
use tb_field::Field;
use tb_geometry::{Body, Case};
use tb_relax::Table;
use tb_sums::upper_end;
use tb_tables::whole::Tables;

// A field and a flux at the 16 nodes and faces of the wall.
#[derive(Clone, Copy)]
struct State {
    values: [i64; 16],
    flows: [i64; 16],
}

// The state after one plain pass, and whether a move changed it.
fn passed(table: &Table, state: State) -> Option<(State, bool)> {
    let mut values = state.values;
    let mut flows = state.flows;
    if !table.is_sound() || !table.fits(&values) || !table.holds(&flows) {
        return None;
    }
    let moved = table.pass(&mut values, &mut flows);
    Some((State { values, flows }, moved))
}

fn is_settled(table: &Table, state: State) -> bool {
    table.is_sound()
        && table.fits(&state.values)
        && table.holds(&state.flows)
        && table.is_settled(&state.values, &state.flows)
}

// The state after passes from zero, and how many of them changed it.
fn after(table: &Table, passes: u32) -> Option<(State, u32)> {
    let mut state = State {
        values: [0; 16],
        flows: [0; 16],
    };
    let mut changes: u32 = 0;
    for _pass in 0..passes {
        let (next, moved) = passed(table, state)?;
        state = next;
        changes = changes.saturating_add(u32::from(moved));
    }
    Some((state, changes))
}

// What passes on the wall lead to: the upper end, how many changed the state, and whether nothing moves any more.
fn reached(alloc: Global, wall: &Body, passes: u32) -> Result<Option<(i128, u32, bool)>, Fail> {
    let grid = wall.base();
    if !wall.carries(grid) {
        return Ok(None);
    }
    let Ok(tables) = Tables::new(alloc, wall, grid, Case { mask: 1 }) else {
        return Err(Fail::from("no memory"));
    };
    let table = tables.table();
    let Some((state, changes)) = after(&table, passes) else {
        return Ok(None);
    };
    let field = Field::from_values(Vec::from_slice(alloc, &state.values)?);
    if !field.fits(grid) || !field.is_within_limits() {
        return Ok(None);
    }
    let upper = upper_end(wall, grid, &field, Case { mask: 1 });
    Ok(Some((upper, changes, is_settled(&table, state))))
}

#[test]
fn passes_settle_on_a_wall(rt: HostRuntime) -> Result<(), Fail> {
    let wall = body(rt.alloc(), WALL)?;
    assert_eq!(rt;
        reached(rt.alloc(), &wall, 40)?,
        Some((2_702_702_702_702_706, 29, true))
    );
    Ok(())
}
