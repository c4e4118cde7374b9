// Sessions on a wall, on a strip and on a corner. What single moves lead to was worked out by hand from the weights, and the
// ends of plain states were computed by a separate program.
ghost use Rattle.std.specs.Prelude.{◌≡◌, ◌≤◌, IfOk, length};
ghost use Rattle.tb_grid.specs.Grid.{counts_of};
ghost use Rattle.tb_geometry.specs.Grids.{CarriesBody};
ghost use Rattle.tb_flux.specs.Fluxes.{AreFlows, FitsFaces};

use std::alloc::Global;
use std::test::Fail;
use tb_body_tests::{WALL, body};
use tb_flux::Flux;
use tb_geometry::{Body, Case};
use tb_grid::{FaceId, Grading, Grid, NodeId};
use tb_moves::{Move, Session};
use tb_repair::{RepairWork, repair};
use tb_rounds::{CgWork, Step, flux_round};
use tb_text::read_detail;

// A strip of a wall, 0.1 mm high, whose inside comes last on its axis.
const STRIP: &[u8] =
    b"detail,1,2\nenv,inside\nenv,outside\nmat,wall,1\nsolid,wall,0.1,200.1,0,0.1\n\
air,outside,0.04,0,0.1,0,0.1\nair,inside,0.13,200.1,200.2,0,0.1\n";

// The outer corner of a wall of masonry with insulation on its outside.
const CORNER: &[u8] = b"detail,1,2\nenv,inside\nenv,outside\nmat,masonry,0.6\nmat,insulation,0.04\n\
air,outside,0.04,0,0.1,0,1300.1\nair,outside,0.04,0.1,1300.1,0,0.1\n\
solid,insulation,0.1,100.1,0.1,1300.1\nsolid,insulation,100.1,1300.1,0.1,100.1\n\
solid,masonry,100.1,300.1,100.1,1300.1\nsolid,masonry,300.1,1300.1,100.1,300.1\n\
air,inside,0.13,300.1,1300.1,300.1,1300.1\n";

// A session of the first environment.
fn session<'a>(alloc: Global, body: &'a Body, grid: &'a Grid) -> Result<Session<'a>, Fail>
    requires { CarriesBody grid.now body.now }
    ensures { IfOk result (λ s. s.grid ≡ grid.now) }
{
    match Session::new(alloc, body, grid, Case { mask: 1 }) {
        Ok(session) => Ok(session),
        Err(_) => Err(Fail::from("no memory")),
    }
}

// The two ends after plain passes from zero, and whether nothing moves any more.
fn plain(
    alloc: Global,
    body: &Body,
    grid: &Grid,
    passes: u32,
) -> Result<Option<(i128, i128, bool)>, Fail> {
    if !body.carries(grid) {
        return Ok(None);
    }
    let mut session = session(alloc, body, grid)?;
    for _pass in 0..passes {
        session.pass();
    }
    let interval = session.interval();
    Ok(Some((interval.lo, interval.hi, session.settled())))
}

// The same on the level grid of a body of this dimension.
fn plain_on_level(
    alloc: Global,
    body: &Body,
    grading: Grading,
    passes: u32,
) -> Result<Option<(i128, i128, bool)>, Fail>
    requires halve { grading.halve ≤ 6 }
    requires dimension { grading.dimension ≡ body.now.dimension }
{
    match body.level_grid(alloc, grading) {
        Ok(grid) => plain(alloc, body, &grid, passes),
        Err(_) => Err(Fail::from("no grid")),
    }
}

// The same of a detail.
fn plain_of(
    alloc: Global,
    text: &[u8],
    grade: u8,
    halve: u8,
    passes: u32,
) -> Result<Option<(i128, i128, bool)>, Fail>
    requires text { length text.now ≤ 1000 }
    requires halve { halve ≤ 6 }
{
    let Ok(detail) = read_detail(alloc, text) else {
        return Err(Fail::from("no detail"));
    };
    let grading = Grading {
        dimension: detail.dimension,
        grade,
        halve,
    };
    match Body::new(alloc, &detail) {
        Ok(body) => plain_on_level(alloc, &body, grading, passes),
        Err(_) => Err(Fail::from("no body")),
    }
}

#[test]
fn plain_states(rt: HostRuntime) -> Result<(), Fail> {
    let alloc = rt.alloc();
    assert!(rt; plain_of(alloc, WALL, 0, 0, 0)? == Some((0, 7_692_307_692_307_693, false)));
    assert!(rt;
        plain_of(alloc, WALL, 0, 0, 29)?
            == Some((2_702_702_702_339_050, 2_702_702_702_702_706, true))
    );
    assert!(rt;
        plain_of(alloc, STRIP, 0, 6, 1)? == Some((270_270_270_262, 769_124_552_229, false))
    );
    assert!(rt;
        plain_of(alloc, CORNER, 4, 1, 1)?
            == Some((5_864_062_832_989, 13_825_558_503_752_728, false))
    );
    assert!(rt;
        plain_of(alloc, CORNER, 4, 1, 200)?
            == Some((329_433_003_783_135, 1_122_923_549_162_355, false))
    );
    Ok(())
}

// What a move leads to on the wall from zero: whether there is one, whether it changed the state, and the values at nodes
// 1 and 2 and the flows through faces 4 and 5.
fn moved(alloc: Global, wanted: Move) -> Result<Option<(bool, bool, [i64; 4])>, Fail> {
    let wall = body(alloc, WALL)?;
    moved_on(alloc, &wall, wanted)
}

// The same on its body.
fn moved_on(
    alloc: Global,
    wall: &Body,
    wanted: Move,
) -> Result<Option<(bool, bool, [i64; 4])>, Fail> {
    let grid = wall.base();
    if !wall.carries(grid) {
        return Ok(None);
    }
    let mut session = session(alloc, wall, grid)?;
    let has = session.has(wanted);
    let changed = has && session.apply(wanted);
    let values = session.field().values();
    let flows = session.flux().values();
    let told = [
        values.get(1).copied().unwrap_or(-1),
        values.get(2).copied().unwrap_or(-1),
        flows.get(4).copied().unwrap_or(-1),
        flows.get(5).copied().unwrap_or(-1),
    ];
    Ok(Some((has, changed, told)))
}

// At node 1 the least lies above the limit. Face 4 is the root, at which no cycle enters.
#[test]
fn single_moves_on_a_wall(rt: HostRuntime) -> Result<(), Fail> {
    let alloc = rt.alloc();
    assert!(rt; moved(alloc, Move::Node(NodeId(1)))? == Some((true, true, [100_000_000, 0, 0, 0])));
    assert!(rt; moved(alloc, Move::Node(NodeId(16)))? == Some((false, false, [0, 0, 0, 0])));
    assert!(rt;
        moved(alloc, Move::Cycle(FaceId(5)))?
            == Some((true, true, [0, 0, 2_702_734_053, 2_702_734_053]))
    );
    assert!(rt; moved(alloc, Move::Cycle(FaceId(4)))? == Some((false, false, [0, 0, 0, 0])));
    Ok(())
}

// The flows through faces 4 and 5 of the one balanced flux that has 7 at face 5.
fn repaired(alloc: Global, session: &Session, given: &Flux) -> Result<(bool, i64, i64), Fail>
    requires fits { FitsFaces (counts_of session.now.grid) given.now }
    requires limits { AreFlows given.now }
{
    let Ok(mut work) = RepairWork::new(alloc, session.tree()) else {
        return Err(Fail::from("no memory"));
    };
    let is_repaired = repair(session.tree(), given, &mut work);
    let flows = work.repaired().values();
    let root = flows.get(4).copied().unwrap_or(-1);
    let entry = flows.get(5).copied().unwrap_or(-1);
    Ok((is_repaired, root, entry))
}

// The same on the wall.
fn repaired_on(alloc: Global, wall: &Body) -> Result<Option<(bool, i64, i64)>, Fail> {
    let grid = wall.base();
    if !wall.carries(grid) {
        return Ok(None);
    }
    let given = Flux::from_values(Vec::from_slice(
        alloc,
        &[0, 0, 0, 0, 0, 7, 0, 0, 0, 0, 0, 0, 0, 0, 0, 0],
    )?);
    if !given.fits(grid) || !given.is_within_limits() {
        return Ok(None);
    }
    let session = session(alloc, wall, grid)?;
    Ok(Some(repaired(alloc, &session, &given)?))
}

// What a first round on the flux of the wall says.
fn first_round(alloc: Global, wall: &Body) -> Result<Option<Step>, Fail> {
    let grid = wall.base();
    if !wall.carries(grid) {
        return Ok(None);
    }
    let mut session = session(alloc, wall, grid)?;
    let Ok(mut work) = CgWork::new(alloc, &session) else {
        return Err(Fail::from("no memory"));
    };
    Ok(Some(flux_round(&mut session, &mut work)))
}

#[test]
fn a_repair_and_a_round_on_a_wall(rt: HostRuntime) -> Result<(), Fail> {
    let wall = body(rt.alloc(), WALL)?;
    assert!(rt; repaired_on(rt.alloc(), &wall)? == Some((true, 7, 7)));
    assert!(rt; first_round(rt.alloc(), &wall)? == Some(Step::Lowered));
    Ok(())
}
