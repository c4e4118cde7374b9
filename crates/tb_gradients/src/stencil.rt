// Matrices that couple each point of a box with its six neighbours, as slices.
ghost use Rattle.std.specs.Prelude.{◌≡◌, ◌^◌, ◌<◌, ◌≤◌, ◌+◌, length, unsigned_abs, IsTrue};
ghost use Rattle.tb_gradients.specs.Layouts.{places_of};

use crate::entry::{Coupling, Entry};
use crate::layout::Layout;
use crate::root::Root;

/// Coupled points that follow one another in a list, from the place `first` to before `last`.
#[derive(Clone, Copy, Debug, PartialEq, Eq)]
pub struct Span {
    pub first: u32,
    pub last: u32,
}

/// The couplings of each point with the one before it along each axis, the sum of all of a point's couplings, the
/// reciprocal roots of the incomplete factor's pivots, and the spans of coupled points.
#[derive(Clone, Copy)]
pub struct Stencil<'a> {
    pub layout: Layout,
    pub spans: &'a [Span],
    pub x: &'a [Coupling],
    pub y: &'a [Coupling],
    pub z: &'a [Coupling],
    pub sums: &'a [Coupling],
    pub roots: &'a [Root],
    pub ghost whole_x: { length x.now ≡ places_of layout },
    pub ghost whole_y: { length y.now ≡ places_of layout },
    pub ghost whole_z: { length z.now ≡ places_of layout },
    pub ghost whole_sums: { length sums.now ≡ places_of layout },
    pub ghost whole_roots: { length roots.now ≡ places_of layout },
}

/// Whether the points of a span are points of the layout.
#[inline(always)]
pub fn is_within(layout: Layout, span: Span) -> bool
    ensures after { IsTrue result → layout.layer ≤ span.first }
    ensures before { IsTrue result → span.last ≤ layout.layer + layout.points }
{
    layout.first() <= span.first as usize && span.last as usize <= layout.last()
}

/// What two of a point's neighbours add to it.
#[inline(always)]
pub fn pair(before: Coupling, first: Entry, after: Coupling, second: Entry) -> i128
    ensures { unsigned_abs result ≤ 2 ^ 112 }
{
    before.times(first) + after.times(second)
}

// A row of the matrix times a vector.
#[inline(always)]
fn row_product(stencil: Stencil, p: &[Entry], at: usize) -> i128
    requires after { stencil.layout.layer ≤ at }
    requires before { at < stencil.layout.layer + stencil.layout.points }
    requires p { length p.now ≡ places_of stencil.layout }
{
    let Stencil {
        layout,
        x,
        y,
        z,
        sums,
        ..
    } = stencil;
    let row = layout.row();
    let layer = layout.layer();
    let along_x = pair(x[at], p[at - 1], x[at + 1], p[at + 1]);
    let along_y = pair(y[at], p[at - row], y[at + row], p[at + row]);
    let along_z = pair(z[at], p[at - layer], z[at + layer], p[at + layer]);
    sums[at].times(p[at]) - (along_x + along_y + along_z)
}

// A span of the matrix times a vector, over `2^shift`, and its greatest magnitude.
fn multiply_span(
    stencil: Stencil,
    span: Span,
    p: &[Entry],
    shift: u8,
    q: &mut [Entry],
) -> Option<i64>
    requires after { stencil.layout.layer ≤ span.first }
    requires before { span.last ≤ stencil.layout.layer + stencil.layout.points }
    requires p { length p.now ≡ places_of stencil.layout }
    requires q { length q.old ≡ places_of stencil.layout }
{
    let mut magnitude = 0;
    for at in span.first as usize..span.last as usize {
        let entry = Entry::new(row_product(stencil, p, at) >> (shift & 63))?;
        magnitude |= entry.magnitude();
        q[at] = entry;
    }
    Some(magnitude)
}

/// The matrix times a vector, over `2^shift` for a shift below 64, and its greatest magnitude. None where an entry doesn't
/// fit.
pub fn multiply(stencil: Stencil, p: &[Entry], shift: u8, q: &mut [Entry]) -> Option<i64>
    requires p { length p.now ≡ places_of stencil.layout }
    requires q { length q.old ≡ places_of stencil.layout }
{
    let mut magnitude = 0;
    for span in stencil.spans {
        let span = *span;
        if !is_within(stencil.layout, span) {
            return None;
        }
        magnitude |= multiply_span(stencil, span, p, shift, q)?;
    }
    Some(magnitude)
}
