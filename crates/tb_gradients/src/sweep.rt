// Sweeps over the scaled incomplete factor: (I - L)(I - Lᵀ), where L holds each point's couplings with the three before it,
// times both roots.
ghost use Rattle.std.specs.Prelude.{◌≡◌, ◌^◌, ◌<◌, ◌≤◌, ◌+◌, length, unsigned_abs};
ghost use Rattle.tb_gradients.specs.Layouts.{places_of};

use crate::entry::Entry;
use crate::stencil::{Span, Stencil, is_within, pair};

// A word and a sum of scaled couplings times entries. None where it doesn't fit an entry.
#[inline(always)]
fn with_sum(word: i64, sum: i128) -> Option<Entry>
    requires { unsigned_abs sum ≤ 2 ^ 114 }
{
    Entry::new(i128::from(word) + (sum >> 40))
}

// The first half over a span, from its first point to its last.
fn forward_span(stencil: Stencil, span: Span, s: &mut [Entry]) -> Option<i64>
    requires after { stencil.layout.layer ≤ span.first }
    requires before { span.last ≤ stencil.layout.layer + stencil.layout.points }
    requires s { length s.old ≡ places_of stencil.layout }
{
    let Stencil {
        layout,
        x,
        y,
        z,
        ..
    } = stencil;
    let row = layout.row();
    let layer = layout.layer();
    let mut magnitude = 0;
    for at in span.first as usize..span.last as usize {
        let sum = z[at].times(s[at - layer]) + y[at].times(s[at - row]) + x[at].times(s[at - 1]);
        let entry = with_sum(s[at].value(), sum)?;
        magnitude |= entry.magnitude();
        s[at] = entry;
    }
    Some(magnitude)
}

/// Divides by I - L in place, from the first point to the last, and gives the greatest magnitude. None where an entry
/// doesn't fit.
pub fn forward(stencil: Stencil, s: &mut [Entry]) -> Option<i64>
    requires s { length s.old ≡ places_of stencil.layout }
{
    let mut magnitude = 0;
    for span in stencil.spans {
        let span = *span;
        if !is_within(stencil.layout, span) {
            return None;
        }
        magnitude |= forward_span(stencil, span, s)?;
    }
    Some(magnitude)
}

// The second half over a span, from its last point to its first, and the greatest magnitude.
fn backward_span(stencil: Stencil, span: Span, p: &[Entry], t: &mut [Entry]) -> Option<i64>
    requires after { stencil.layout.layer ≤ span.first }
    requires before { span.last ≤ stencil.layout.layer + stencil.layout.points }
    requires p { length p.now ≡ places_of stencil.layout }
    requires t { length t.old ≡ places_of stencil.layout }
{
    let Stencil {
        layout,
        x,
        y,
        z,
        ..
    } = stencil;
    let row = layout.row();
    let layer = layout.layer();
    let mut magnitude = 0;
    for at in (span.first as usize..span.last as usize).rev() {
        let sum = z[at + layer].times(t[at + layer])
            + y[at + row].times(t[at + row])
            + x[at + 1].times(t[at + 1]);
        let entry = with_sum(p[at].value(), sum)?;
        magnitude |= entry.magnitude();
        t[at] = entry;
    }
    Some(magnitude)
}

/// Divides `p` by I - Lᵀ, from the last point to the first, into `t`, and gives the greatest magnitude. None where an entry
/// doesn't fit.
pub fn backward(stencil: Stencil, p: &[Entry], t: &mut [Entry]) -> Option<i64>
    requires p { length p.now ≡ places_of stencil.layout }
    requires t { length t.old ≡ places_of stencil.layout }
{
    let mut magnitude = 0;
    for span in stencil.spans.iter().rev() {
        let span = *span;
        if !is_within(stencil.layout, span) {
            return None;
        }
        magnitude |= backward_span(stencil, span, p, t)?;
    }
    Some(magnitude)
}

// The pass over a span, from its first point to its last.
fn pass_span(
    stencil: Stencil,
    span: Span,
    p: &[Entry],
    t: &mut [Entry],
    u: &mut [Entry],
) -> Option<i64>
    requires after { stencil.layout.layer ≤ span.first }
    requires before { span.last ≤ stencil.layout.layer + stencil.layout.points }
    requires p { length p.now ≡ places_of stencil.layout }
    requires t { length t.old ≡ places_of stencil.layout }
    requires u { length u.old ≡ places_of stencil.layout }
{
    let Stencil {
        layout,
        x,
        y,
        z,
        sums,
        ..
    } = stencil;
    let row = layout.row();
    let layer = layout.layer();
    let mut magnitude = 0;
    for at in span.first as usize..span.last as usize {
        let own = pair(sums[at], t[at], z[at], u[at - layer]);
        let before = pair(y[at], u[at - row], x[at], u[at - 1]);
        let twice = t[at].value() + t[at].value();
        let rest = with_sum(p[at].value() - twice, own + before)?;
        let entry = Entry::in_word(rest.value() + t[at].value())?;
        magnitude |= entry.magnitude();
        u[at] = rest;
        t[at] = entry;
    }
    Some(magnitude)
}

/// Makes of `t`, which is `p` divided by I - Lᵀ, the product of the scaled matrix with it divided by I - L: with S the scaled
/// sums, `t + u` for `u` = p - 2t + St divided by I - L (Eisenstat 1981). Gives the greatest magnitude; None where an entry
/// doesn't fit.
pub fn pass(stencil: Stencil, p: &[Entry], t: &mut [Entry], u: &mut [Entry]) -> Option<i64>
    requires p { length p.now ≡ places_of stencil.layout }
    requires t { length t.old ≡ places_of stencil.layout }
    requires u { length u.old ≡ places_of stencil.layout }
{
    let mut magnitude = 0;
    for span in stencil.spans {
        let span = *span;
        if !is_within(stencil.layout, span) {
            return None;
        }
        magnitude |= pass_span(stencil, span, p, t, u)?;
    }
    Some(magnitude)
}

// The products over a span.
fn scale_span(stencil: Stencil, span: Span, v: &[Entry], shift: u8, s: &mut [Entry]) -> Option<i64>
    requires before { span.last ≤ stencil.layout.layer + stencil.layout.points }
    requires v { length v.now ≡ places_of stencil.layout }
    requires s { length s.old ≡ places_of stencil.layout }
{
    let mut magnitude = 0;
    for at in span.first as usize..span.last as usize {
        let entry = Entry::new(stencil.roots[at].times(v[at]) >> (shift & 127))?;
        magnitude |= entry.magnitude();
        s[at] = entry;
    }
    Some(magnitude)
}

/// The product of the roots with `v`, over `2^shift`, and its greatest magnitude. None where an entry doesn't fit.
pub fn scale_by_roots(stencil: Stencil, v: &[Entry], shift: u8, s: &mut [Entry]) -> Option<i64>
    requires v { length v.now ≡ places_of stencil.layout }
    requires s { length s.old ≡ places_of stencil.layout }
{
    let mut magnitude = 0;
    for span in stencil.spans {
        let span = *span;
        if !is_within(stencil.layout, span) {
            return None;
        }
        magnitude |= scale_span(stencil, span, v, shift, s)?;
    }
    Some(magnitude)
}
