// What `solve` makes of details, and what `check` says of its bundles. The flux of the wall is the whole number nearest to the
// least of its weighted energy, worked out by hand; the other numbers follow from resistances, or are those of a grid.
use crate::commands::told;
use std::alloc::{AllocError, Global};
use std::test::Fail;
use tb_numbers::parse_whole;

// A wall of 1 m by 1 m by 200 mm with λ 1 W/(m·K).
const WALL: &str = "detail,1,3\nenv,inside\nenv,outside\nmat,wall,1\n\
solid,wall,0.1,200.1,0,1000,0,1000\n\
air,inside,0.13,0,0.1,0,1000,0,1000\nair,outside,0.04,200.1,200.2,0,1000,0,1000\n";

// A strip of such a wall, 0.1 mm high, whose inside comes last on its axis: a plain pass from zero warms its last nodes alone.
const STRIP: &str = "detail,1,2\nenv,inside\nenv,outside\nmat,wall,1\nsolid,wall,0.1,200.1,0,0.1\n\
air,outside,0.04,0,0.1,0,0.1\nair,inside,0.13,200.1,200.2,0,0.1\n";

// The outer corner of a wall of masonry with insulation on its outside.
const CORNER: &str = "detail,1,2\nenv,inside\nenv,outside\nmat,masonry,0.6\nmat,insulation,0.04\n\
air,outside,0.04,0,0.1,0,1300.1\nair,outside,0.04,0.1,1300.1,0,0.1\n\
solid,insulation,0.1,100.1,0.1,1300.1\nsolid,insulation,100.1,1300.1,0.1,100.1\n\
solid,masonry,100.1,300.1,100.1,1300.1\nsolid,masonry,300.1,1300.1,100.1,300.1\n\
air,inside,0.13,300.1,1300.1,300.1,1300.1\n\
part,wall,0.13,0.04\nlayer,wall,200,masonry\nlayer,wall,100,insulation\n\
psi,corner,inside,outside\nlength,corner,wall,1300\nlength,corner,wall,1300\n";

// A wall between a room and the outside, and a stair that no solid touches.
const STAIR: &str = "detail,1,3\nenv,room\nenv,stair\nenv,outside\nmat,wall,1\n\
solid,wall,0.1,200.1,0,1000,0,1000\nair,room,0.13,0,0.1,0,1000,0,1000\n\
air,outside,0.04,200.1,200.2,0,1000,0,1000\nair,stair,0.13,200.2,200.3,0,1000,0,1000\n";

// What stands behind the first place of these bytes in a text; nothing where they don't stand in it.
pub(crate) fn behind<'a>(text: &'a [u8], part: &[u8]) -> &'a [u8] {
    for start in 0..text.len() {
        let rest = text.get(start..).unwrap_or(b"");
        if rest.starts_with(part) {
            return rest.get(part.len()..).unwrap_or(b"");
        }
    }
    b""
}

// The bytes before the first of this kind.
pub(crate) fn before(text: &[u8], end: u8) -> &[u8] {
    for (place, byte) in text.iter().enumerate() {
        if *byte == end {
            return text.get(..place).unwrap_or(b"");
        }
    }
    text
}

// The status of a run of `solve`, a space and the bundle.
fn solved(alloc: Global, words: &str, detail: &str) -> Result<Vec<u8>, AllocError> {
    let detail = Vec::from_slice(alloc, detail.as_bytes())?;
    told(alloc, words, detail, 1_000_000)
}

// What a command tells of a bundle that a run of `solve` told.
fn read_by(alloc: Global, words: &str, found: &[u8]) -> Result<Vec<u8>, AllocError> {
    let bundle = Vec::from_slice(alloc, found.get(2..).unwrap_or(b""))?;
    told(alloc, words, bundle, 1000)
}

// What `check` tells of it.
fn checked(alloc: Global, found: &[u8]) -> Result<Vec<u8>, AllocError> {
    read_by(alloc, "check", found)
}

// The two ends of the first interval of a bundle.
fn ends(found: &[u8]) -> Option<(i128, i128)> {
    let line = before(behind(found, b"\ninterval,"), b'\n');
    let lo = parse_whole(before(line, b','))?;
    let hi = parse_whole(behind(line, b","))?;
    Some((lo, hi))
}

// Whether a bundle of one case is accepted with the interval that stands in it.
fn is_accepted(alloc: Global, found: &[u8]) -> Result<bool, AllocError> {
    let mut wanted = Vec::from_slice(alloc, b"0 accepted,inside,")?;
    wanted.extend_from_slice(before(behind(found, b"\ninterval,"), b'\n'))?;
    wanted.extend_from_slice(b"\nend\n")?;
    Ok(checked(alloc, found)?.as_slice() == wanted.as_slice())
}

// Whether these lines stand in a text, one behind the other.
pub(crate) fn has_lines(text: &[u8], lines: &str) -> bool {
    let mut rest = text;
    for line in lines.lines() {
        rest = behind(rest, line.as_bytes());
        if !rest.starts_with(b"\n") {
            return false;
        }
    }
    true
}

// How many cells an axis has in the first grid of a bundle.
fn cells_along(found: &[u8], axis: &[u8]) -> usize {
    let lines = before(behind(found, axis), b'\n');
    lines.iter().filter(|byte| **byte == b',').count()
}

fn has_cells(found: &[u8], x: usize, y: usize, z: usize) -> bool {
    cells_along(found, b"\nx,") == x
        && cells_along(found, b"\ny,") == y
        && cells_along(found, b"\nz,") == z
}

// Whether the first interval of a bundle has no more than this width.
fn is_no_wider(found: &[u8], most: i128) -> bool {
    match ends(found) {
        Some((lo, hi)) => lo <= hi && hi.saturating_sub(lo) <= most,
        None => false,
    }
}

// Whether the first intervals of two bundles have a number in common.
fn do_meet(found: &[u8], other: &[u8]) -> bool {
    match (ends(found), ends(other)) {
        (Some((lo, hi)), Some((other_lo, other_hi))) => lo <= other_hi && other_lo <= hi,
        _ => false,
    }
}

#[test]
fn a_wall_that_misses_its_width_is_settled(rt: HostRuntime) -> Result<(), Fail> {
    let alloc = rt.alloc();
    let found = solved(alloc, "solve --width 0 --grade 0 --halve 0", WALL)?;
    assert!(rt; found.starts_with(b"6 bundle,1\n"));
    let lines =
        "case,inside\nx,0,0.1,200.1,200.2\ny,0,1000\nz,0,1000\nfx,0,2702734053,2702734053,0\nverdict,grid,0\nend";
    assert!(rt; has_lines(found.as_slice(), lines));
    let (lo, hi) = ends(found.as_slice()).ok_or("no interval")?;
    assert!(rt; lo == 2_702_702_702_339_050);
    assert!(rt; hi >= 2_702_702_702_702_703 && hi <= 2_702_702_702_702_706);
    assert!(rt; is_accepted(alloc, found.as_slice())?);
    Ok(())
}

// Its heat flow is 10⁻⁴/0.37 W/(m·K).
#[test]
fn a_strip_wants_more_than_a_plain_pass(rt: HostRuntime) -> Result<(), Fail> {
    let alloc = rt.alloc();
    let words = "solve --grade 0 --halve 6 --width 10 --sweeps 1";
    let found = solved(alloc, words, STRIP)?;
    assert!(rt; found.starts_with(b"0 bundle,1\n"));
    assert!(rt; has_lines(found.as_slice(), "verdict,done,10\nend"));
    let (lo, hi) = ends(found.as_slice()).ok_or("no interval")?;
    assert!(rt;
        lo <= 270_270_270_270 && hi >= 270_270_270_271 && hi.saturating_sub(lo) <= 10_000_000_000
    );
    assert!(rt; is_accepted(alloc, found.as_slice())?);
    Ok(())
}

// Two grids tell intervals of the same heat flow. Between its base lines an axis has 0.1 mm, which stay whole, and three
// intervals of 16 pieces. The wall has 0.17 + 0.2/0.6 + 0.1/0.04 = 3.003333 m²K/W, so U = 0.3329634.
#[test]
fn a_corner_on_two_grids(rt: HostRuntime) -> Result<(), Fail> {
    let alloc = rt.alloc();
    let found = solved(alloc, "solve --width 100000", CORNER)?;
    assert!(rt; found.starts_with(b"0 bundle,1\n"));
    assert!(rt; is_accepted(alloc, found.as_slice())?);
    assert!(rt; is_no_wider(found.as_slice(), 100_000_000_000_000));
    assert!(rt; has_cells(found.as_slice(), 49, 49, 1));
    let report = read_by(alloc, "report", found.as_slice())?;
    assert!(rt; report.starts_with(b"0 report,1\ncase,inside,0."));
    assert!(rt; has_lines(report.as_slice(), "U,wall,0.332963,0.332964"));
    let coarse = solved(alloc, "solve --halve 0", CORNER)?;
    assert!(rt; do_meet(found.as_slice(), coarse.as_slice()));
    Ok(())
}

// What goes from the room goes to the outside, and nothing to the stair.
#[test]
fn three_environments_are_three_cases(rt: HostRuntime) -> Result<(), Fail> {
    let alloc = rt.alloc();
    let found = solved(alloc, "solve --grade 0", STAIR)?;
    assert!(rt; found.starts_with(b"0 bundle,1\n"));
    let lines =
        "case,room\nverdict,done,10000\ncase,stair\ninterval,0,0\nverdict,done,10000\ncase,outside\nverdict,done,10000\nend";
    assert!(rt; has_lines(found.as_slice(), lines));
    let accepted = checked(alloc, found.as_slice())?;
    assert!(rt; accepted.starts_with(b"0 accepted,room,"));
    assert!(rt; has_lines(accepted.as_slice(), "accepted,stair,0,0"));
    assert!(rt; accepted.ends_with(b"\nend\n"));
    Ok(())
}
