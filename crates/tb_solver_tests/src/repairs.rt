// Repaired fluxes on a wall and on a corner, and the cycles of a corner. The flows and sums were computed by separate
// programs, which solve the equations of balance for the flows through all outlets at once, in exact fractions.
ghost use Rattle.std.specs.Prelude.{◌≡◌, ◌<◌, ◌≤◌, ◌*◌, ◌^◌, length, pos, unsigned_abs};
ghost use Rattle.tb_places.specs.Places.{face_count};
ghost use Rattle.tb_grid.specs.Grid.{counts_of};
ghost use Rattle.tb_outlets.specs.Balancing.{IsWithinLimits};

use std::alloc::Global;
use std::test::Fail;
use tb_body_tests::{CORNER, WALL, body};
use tb_cycles::FacePull;
use tb_flux::Flux;
use tb_geometry::Body;
use tb_grid::{CellCounts, FaceId, FacePlace, Grid};
use tb_repair::{RepairWork, repair};
use tb_trees::OutletTree;

// The flows of the corner: what its root at face 14 and its outlets at 15 and 28 are given counts for nothing.
const GIVEN: [i64; 42] = [
    -987, 929, 844, 759, 674, 589, 504, 419, 334, 249, 164, 79, -6, -91, -176, -261, -346, -431,
    -516, -601, -686, -771, -856, -941, 975, 890, 805, 720, 635, 550, 465, 380, 295, 210, 125, 40,
    -45, -130, -215, -300, -385, -470,
];

const REPAIRED: [i64; 42] = [
    0, 0, 0, 0, 0, 0, 0, 0, 0, 0, 0, 0, 0, 0, -1230, -255, 0, 0, -516, -601, 0, 0, 0, 0, 0, 890,
    805, 0, -85, 550, 0, 0, 0, 0, 0, 0, 0, 0, 0, 0, 0, 0,
];

// What the repair of these flows gives on a grid that carries the body: whether it is within the limits, and its flows.
fn repaired(
    alloc: Global,
    body: &Body,
    grid: &Grid,
    given: &[i64],
) -> Result<(bool, Vec<i64>), Fail> {
    if !body.carries(grid) {
        return Err(Fail::from("not carried"));
    }
    let given = Flux::from_values(Vec::from_slice(alloc, given)?);
    if !given.fits(grid) || !given.is_within_limits() {
        return Err(Fail::from("no flux"));
    }
    let tree = OutletTree::new(alloc, body, grid)?;
    let mut work = RepairWork::new(alloc, &tree)?;
    let is_within = repair(&tree, &given, &mut work);
    let flows = Vec::from_slice(alloc, work.repaired().values())?;
    Ok((is_within, flows))
}

#[test]
fn repair_of_a_wall(rt: HostRuntime) -> Result<(), Fail> {
    let wall = body(rt.alloc(), WALL)?;
    let (is_within, flows) = repaired(rt.alloc(), &wall, wall.base(), &[7; 16])?;
    assert!(rt; is_within);
    assert_eq!(rt;
        flows.as_slice(),
        [0, 0, 0, 0, 7, 7, 0, 0, 0, 0, 0, 0, 0, 0, 0, 0].as_slice()
    );
    Ok(())
}

#[test]
fn repair_of_a_corner(rt: HostRuntime) -> Result<(), Fail> {
    let corner = body(rt.alloc(), CORNER)?;
    let (is_within, flows) = repaired(rt.alloc(), &corner, corner.base(), &GIVEN)?;
    assert!(rt; is_within);
    assert_eq!(rt; flows.as_slice(), REPAIRED.as_slice());
    Ok(())
}

// Flows at the limit leave three times the limit for the root.
#[test]
fn repair_past_the_limit(rt: HostRuntime) -> Result<(), Fail> {
    let corner = body(rt.alloc(), CORNER)?;
    let mut given = [1_000_000_000_000; 42];
    given[19] = -1_000_000_000_000;
    let (is_within, flows) = repaired(rt.alloc(), &corner, corner.base(), &given)?;
    assert!(rt; !is_within);
    assert_eq!(rt; flows.as_slice(), [0; 42].as_slice());
    Ok(())
}

// The faces that have a cycle, on a grid that carries the body.
fn cycle_faces(alloc: Global, body: &Body, grid: &Grid) -> Result<Vec<u32>, Fail> {
    if !body.carries(grid) {
        return Err(Fail::from("not carried"));
    }
    let tree = OutletTree::new(alloc, body, grid)?;
    let mut faces = Vec::new(alloc);
    for number in 0..tree.faces() {
        if tree.has_cycle(FaceId(number)) {
            faces.push(number)?;
        }
    }
    Ok(faces)
}

// All surfaces but the root, face 14.
#[test]
fn cycles_of_a_corner(rt: HostRuntime) -> Result<(), Fail> {
    let corner = body(rt.alloc(), CORNER)?;
    let faces = cycle_faces(rt.alloc(), &corner, corner.base())?;
    assert_eq!(rt; faces.as_slice(), [18, 19, 25, 26, 29].as_slice());
    Ok(())
}

// Tells the number of each face.
struct FaceNumbers;

impl FacePull for FaceNumbers {
    ghost pulls = { λ _ face. pos face };

    ghost fits = { λ _ _. Unit {0} };

    fn pull(&self, counts: CellCounts, face: FacePlace) -> i128 {
        i128::from(counts.face_number(face.axis, face.place).0)
    }
}

// The sum of the numbers of faces over each cycle, on a grid that carries the body.
fn cycle_sums(alloc: Global, body: &Body, grid: &Grid) -> Result<Vec<i128>, Fail> {
    if !body.carries(grid) {
        return Err(Fail::from("not carried"));
    }
    let tree = OutletTree::new(alloc, body, grid)?;
    let mut sums = Vec::new(alloc);
    for number in 0..tree.faces() {
        if let Some(entry) = tree.cycle_entry(FaceId(number)) {
            sums.push(tree.cycle_pull(&FaceNumbers, entry))?;
        }
    }
    Ok(sums)
}

#[test]
fn sums_over_cycles_of_a_corner(rt: HostRuntime) -> Result<(), Fail> {
    let corner = body(rt.alloc(), CORNER)?;
    let sums = cycle_sums(rt.alloc(), &corner, corner.base())?;
    assert_eq!(rt; sums.as_slice(), [-24, -61, 11, -3, -58].as_slice());
    Ok(())
}

// Adds a multiple of the cycle of a face, if it has one.
fn with_cycle(tree: &OutletTree, flows: &mut [i64], face: FaceId, multiple: i64)
    requires face { face.0 < face_count (counts_of tree.now.grid) }
    requires whole { length flows.old ≡ face_count (counts_of tree.now.grid) }
    requires limits { IsWithinLimits flows.old }
    requires multiple { unsigned_abs multiple ≤ 2 * 10 ^ 12 }
    ensures { length flows.new ≡ length flows.old }
{
    if let Some(entry) = tree.cycle_entry(face) {
        tree.add_cycle(flows, entry, multiple);
    }
}

// The faces whose flows differ from those given of the corner, with their flows.
fn changes(alloc: Global, flows: &[i64]) -> Result<Vec<(usize, i64)>, Fail> {
    let mut changes = Vec::new(alloc);
    for (number, flow) in flows.iter().enumerate() {
        if GIVEN.get(number) != Some(flow) {
            changes.push((number, *flow))?;
        }
    }
    Ok(changes)
}

// What changes in the flows of the corner by a multiple of the cycle of a face.
fn changes_by_cycle(
    alloc: Global,
    body: &Body,
    grid: &Grid,
    face: FaceId,
    multiple: i64,
) -> Result<Vec<(usize, i64)>, Fail>
    requires { unsigned_abs multiple ≤ 1000 }
{
    if !body.carries(grid) || face.0 >= grid.faces() {
        return Err(Fail::from("no face of a grid that carries the body"));
    }
    let mut flux = Flux::from_values(Vec::from_slice(alloc, &GIVEN)?);
    if !flux.fits(grid) || !flux.is_within_limits() {
        return Err(Fail::from("no flux"));
    }
    let tree = OutletTree::new(alloc, body, grid)?;
    with_cycle(&tree, flux.values_mut(), face, multiple);
    changes(alloc, flux.values())
}

// Whether a multiple of the cycle of a face changes just these flows of the corner.
fn is_changed(
    alloc: Global,
    face: FaceId,
    multiple: i64,
    wanted: &[(usize, i64)],
) -> Result<bool, Fail>
    requires { unsigned_abs multiple ≤ 1000 }
{
    let corner = body(alloc, CORNER)?;
    let changed = changes_by_cycle(alloc, &corner, corner.base(), face, multiple)?;
    Ok(changed.as_slice() == wanted)
}

// The cycle of face 29 leads over the outlet at 15 to the root at 14, that of 19 over the outlet at 28. Face 14 has none.
#[test]
fn cycles_that_are_added(rt: HostRuntime) -> Result<(), Fail> {
    let alloc = rt.alloc();
    assert!(rt; is_changed(alloc, FaceId(29), 7, &[(14, -183), (15, -268), (29, 543)])?);
    assert!(rt;
        is_changed(
            alloc,
            FaceId(19),
            -1000,
            &[(14, 824), (19, 399), (28, 1635)]
        )?
    );
    assert!(rt; is_changed(alloc, FaceId(14), 7, &[])?);
    Ok(())
}
