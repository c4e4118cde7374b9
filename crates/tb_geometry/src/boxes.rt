// The boxes of a detail, and the first two that overlap.
ghost use Rattle.std.specs.Prelude.{◌≡◌, MatchOption, position};
ghost use Rattle.std.specs.List.{list_any};
ghost use Rattle.tb_geometry.specs.Bodies.{AreBoxes};
ghost use Rattle.tb_geometry.specs.Cubes.{AreApart, IsFirstOverlap};
ghost use Rattle.tb_geometry.specs.Boxes.{is_solid, meet, meet_along};
ghost use Rattle.tb_model.specs.Refinement.{high, low};

use tb_detail::{Content, SpaceBox};
use tb_grid::AxisName;

/// Whether a box is filled with a material.
pub fn is_solid(b: &SpaceBox) -> bool
    ensures { result ≡ is_solid b.now.content }
{
    match b.content {
        Content::Solid { .. } => true,
        Content::Air { .. } => false,
    }
}

/// Whether there is a solid box.
pub fn has_solid(boxes: &[SpaceBox]) -> bool
    ensures { result ≡ list_any (λ b. is_solid b.content) boxes.now }
{
    boxes.iter().any(|b| is_solid(b))
}

/// The lower coordinate of a box on an axis.
pub fn low(axis: AxisName, b: &SpaceBox) -> u32
    ensures { result ≡ low axis b.now }
{
    match axis {
        AxisName::X => b.span.x0,
        AxisName::Y => b.span.y0,
        AxisName::Z => b.span.z0,
    }
}

/// The upper coordinate of a box on an axis.
pub fn high(axis: AxisName, b: &SpaceBox) -> u32
    ensures { result ≡ high axis b.now }
{
    match axis {
        AxisName::X => b.span.x1,
        AxisName::Y => b.span.y1,
        AxisName::Z => b.span.z1,
    }
}

// Whether each of two boxes begins on an axis before the other ends.
fn meet_along(axis: AxisName, b: &SpaceBox, c: &SpaceBox) -> bool
    ensures { result ≡ meet_along axis b.now c.now }
{
    low(axis, b) < high(axis, c) && low(axis, c) < high(axis, b)
}

// Whether two boxes share a cube. Boxes that touch share none.
fn meet(b: &SpaceBox, c: &SpaceBox) -> bool
    ensures { result ≡ meet b.now c.now }
{
    meet_along(AxisName::X, b, c) && meet_along(AxisName::Y, b, c) && meet_along(AxisName::Z, b, c)
}

// The place of the first box that shares a cube with this one.
fn first_meeting(first: &SpaceBox, others: &[SpaceBox]) -> Option<usize>
    ensures { result ≡ position (meet first.now) others.now }
{
    others.iter().position(|other| meet(first, other))
}

/// The first two boxes that share a cube, counted from 1: by the number of the earlier box, then of the later.
pub fn first_overlap(boxes: &[SpaceBox]) -> Option<(u32, u32)>
    requires { AreBoxes boxes.now }
    ensures { MatchOption result (AreApart boxes.now) (λ pair. IsFirstOverlap boxes.now pair.0 pair.1) }
{
    for i in 0..boxes.len() {
        if let Some(n) = first_meeting(&boxes[i], &boxes[i + 1..]) {
            return Some((i as u32 + 1, (i + n) as u32 + 2));
        }
    }
    None
}
