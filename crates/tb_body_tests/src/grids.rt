// A body on a grid with lines between its base lines, compared with a plain reading: the boxes are looked through for
// the one that holds the middle of a cell, and a face is of the kind that what lies on its two sides gives.
ghost use Rattle.std.specs.Prelude.{◌<◌, ◌≤◌, IfOk, length};
ghost use Rattle.tb_places.specs.Places.{cell_count, face_count};
ghost use Rattle.tb_detail.specs.Limits.{InLimits};
ghost use Rattle.tb_grid.specs.Grid.{counts_of};
ghost use Rattle.tb_geometry.specs.Grids.{CarriesBody};

use crate::bodies::body_of;
use std::alloc::Global;
use std::test::Fail;
use tb_detail::{Content, Detail, Material, SpaceBox};
use tb_geometry::{Body, Occupant};
use tb_grid::{Axis, AxisName, CellId, FaceId, FacePlace, Grid, Place};
use tb_model::FaceKind;
use tb_text::read_detail;

// A wall with a post in it, between the outside and two rooms, one above the other.
const WALL: &[u8] = b"detail,1,3\nenv,outside\nenv,room\nenv,cellar\nmat,brick,0.5\nmat,post,0.13\n\
solid,brick,10,30,0,40,0,20\nsolid,post,30,40,0,40,0,20\nsolid,brick,40,60,0,40,0,20\n\
air,outside,0.04,0,10,0,40,0,20\nair,room,0.13,60,70,0,30,0,20\nair,cellar,0.17,60,70,30,40,0,20\n";

// All base lines with others between them.
const X: [u32; 12] = [0, 50, 100, 150, 299, 300, 355, 400, 401, 600, 650, 700];

const Y: [u32; 5] = [0, 1, 300, 399, 400];

const Z: [u32; 3] = [0, 77, 200];

pub(crate) fn axis(alloc: Global, lines: &[u32]) -> Result<Axis, Fail>
    requires { length lines.now ≤ 100 }
{
    match Axis::new(Vec::from_slice(alloc, lines)?) {
        Ok(axis) => Ok(axis),
        Err(_) => Err(Fail::from("no axis")),
    }
}

// Twice the middle between the lines n and n + 1, nothing past the last one.
fn twice_middle(lines: &[u32], n: u32) -> Option<u64> {
    let n = n as usize;
    if n < lines.len() && n + 1 < lines.len() {
        Some(u64::from(lines[n]) + u64::from(lines[n + 1]))
    } else {
        None
    }
}

// Whether a middle, of which twice is given, lies between two coordinates.
fn is_between(low: u32, high: u32, twice: u64) -> bool {
    2 * u64::from(low) < twice && twice < 2 * u64::from(high)
}

fn occupant_of(materials: &[Material], content: Content) -> Option<Occupant> {
    match content {
        Content::Solid { material } => match materials.get(usize::from(material)) {
            Some(material) => Some(Occupant::Solid {
                lambda: material.lambda,
            }),
            None => None,
        },
        Content::Air { environment, rs } => Some(Occupant::Air { environment, rs }),
    }
}

// What the box holds that a point lies in, of whose coordinates twice is given.
fn occupant_around(detail: &Detail, x: u64, y: u64, z: u64) -> Option<Occupant> {
    for b in detail.boxes.items.as_slice() {
        if is_between(b.span.x0, b.span.x1, x)
            && is_between(b.span.y0, b.span.y1, y)
            && is_between(b.span.z0, b.span.z1, z)
        {
            return occupant_of(detail.materials.items.as_slice(), b.content);
        }
    }
    None
}

// What fills the cell at a place of the finer grid, nothing where there is no cell.
fn occupant_at(detail: &Detail, place: Place) -> Option<Occupant> {
    let x = twice_middle(&X, place.i)?;
    let y = twice_middle(&Y, place.j)?;
    let z = twice_middle(&Z, place.k)?;
    occupant_around(detail, x, y, z)
}

fn one_less(n: u32) -> Option<u32> {
    if n == 0 { None } else { Some(n - 1) }
}

// The place one step down an axis.
fn place_below(axis: AxisName, place: Place) -> Option<Place> {
    let Place { i, j, k } = place;
    match axis {
        AxisName::X => Some(Place {
            i: one_less(i)?,
            j,
            k,
        }),
        AxisName::Y => Some(Place {
            i,
            j: one_less(j)?,
            k,
        }),
        AxisName::Z => Some(Place {
            i,
            j,
            k: one_less(k)?,
        }),
    }
}

fn surface(air: Occupant, low_is_air: bool) -> FaceKind {
    match air {
        Occupant::Air { environment, rs } => FaceKind::Surface {
            environment,
            rs,
            low_is_air,
        },
        Occupant::Solid { .. } => FaceKind::Inner,
    }
}

// The kind of a face, from what lies on its two sides.
fn kind_between(below: Option<Occupant>, above: Option<Occupant>) -> FaceKind {
    match (below, above) {
        (Some(Occupant::Solid { .. }), Some(high)) => surface(high, false),
        (Some(low), Some(Occupant::Solid { .. })) => surface(low, true),
        (Some(Occupant::Solid { .. }), None) => FaceKind::Shut,
        (None, Some(Occupant::Solid { .. })) => FaceKind::Shut,
        _ => FaceKind::Idle,
    }
}

// The kind of a face of the finer grid.
fn kind_at(detail: &Detail, face: FacePlace) -> FaceKind {
    let below = match place_below(face.axis, face.place) {
        Some(place) => occupant_at(detail, place),
        None => None,
    };
    kind_between(below, occupant_at(detail, face.place))
}

fn are_same_cells(body: &Body, grid: &Grid, detail: &Detail) -> bool
    requires carries { CarriesBody grid.now body.now }
{
    for number in 0..grid.cells() {
        let cell = CellId(number);
        let plain = occupant_at(detail, grid.counts().cell_place(cell));
        if plain != Some(body.occupant(grid, cell)) {
            return false;
        }
    }
    true
}

fn are_same_faces(body: &Body, grid: &Grid, detail: &Detail) -> bool
    requires carries { CarriesBody grid.now body.now }
{
    for number in 0..grid.faces() {
        let face = FaceId(number);
        if kind_at(detail, grid.counts().face_place(face)) != body.kind(grid, face) {
            return false;
        }
    }
    true
}

fn finer_grid(alloc: Global) -> Result<Grid, Fail> {
    match Grid::new(axis(alloc, &X)?, axis(alloc, &Y)?, axis(alloc, &Z)?) {
        Ok(grid) => Ok(grid),
        Err(_) => Err(Fail::from("no grid")),
    }
}

fn wall(alloc: Global) -> Result<Detail, Fail>
    ensures { IfOk result InLimits }
{
    match read_detail(alloc, WALL) {
        Ok(detail) => Ok(detail),
        Err(_) => Err(Fail::from("no detail")),
    }
}

// Whether the body on the finer grid is what the plain reading of its detail gives, in each cell and at each face.
fn see_the_same(body: &Body, grid: &Grid, detail: &Detail) -> bool {
    if !body.carries(grid) {
        return false;
    }
    are_same_cells(body, grid, detail) && are_same_faces(body, grid, detail)
}

#[test]
fn a_finer_grid_shows_the_same_body(rt: HostRuntime) -> Result<(), Fail> {
    let grid = finer_grid(rt.alloc())?;
    assert!(rt; grid.cells() == 88 && grid.faces() == 338);
    let detail = wall(rt.alloc())?;
    let body = body_of(rt.alloc(), &detail)?;
    assert!(rt; see_the_same(&body, &grid, &detail));
    Ok(())
}
