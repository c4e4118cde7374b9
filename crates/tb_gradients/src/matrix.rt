// Matrices with their incomplete factors, in memory that is taken once.
ghost use Rattle.std.specs.Prelude.{◌≡◌, ◌^◌, ◌<◌, ◌≤◌, ◌+◌, length, vec_len, IfOk};
ghost use Rattle.tb_gradients.specs.Layouts.{places_of};

use crate::entry::Coupling;
use crate::factor::{Couplings, factorize, scale};
use crate::layout::Layout;
use crate::root::Root;
use crate::stencil::{Span, Stencil};
use std::alloc::{AllocError, Global};

/// What a point is coupled with: the point before it along x (one place before), y (one row) or z (one layer), or its
/// surroundings. Which axis of a body is x is the caller's choice.
#[derive(Clone, Copy, Debug, PartialEq, Eq)]
pub enum Neighbour {
    BeforeOnX,
    BeforeOnY,
    BeforeOnZ,
    Surroundings,
}

/// A matrix that couples each point of a box with its six neighbours, and then its incomplete factor. A row has the negative
/// coupling for each neighbour, and on the diagonal the sum of the couplings, those with the surroundings too. The factor
/// takes the place of the matrix: each row and column is multiplied by the reciprocal root of its pivot, so that the factor has
/// ones on its diagonal and the entries of the matrix beside it.
#[derive(Drop)]
pub struct Matrix {
    pub layout: Layout,
    spans: Vec<Span>,
    span_count: usize,
    x: Vec<Coupling>,
    y: Vec<Coupling>,
    z: Vec<Coupling>,
    // The couplings with the surroundings, and after `sum_up` the sums of all.
    sums: Vec<Coupling>,
    roots: Vec<Root>,
    taken: Vec<i64>,
    // Whether the couplings and the sums are multiplied by the roots.
    is_factor: bool,
    ghost whole_x: { vec_len x ≡ places_of layout },
    ghost whole_y: { vec_len y ≡ places_of layout },
    ghost whole_z: { vec_len z ≡ places_of layout },
    ghost whole_sums: { vec_len sums ≡ places_of layout },
    ghost whole_roots: { vec_len roots ≡ places_of layout },
    ghost whole_taken: { vec_len taken ≡ layout.layer + 1 },
    ghost counted: { span_count ≤ vec_len spans },
}

// The sum of a point's couplings.
fn sum_at(
    layout: Layout,
    x: &[Coupling],
    y: &[Coupling],
    z: &[Coupling],
    surroundings: Coupling,
    at: usize,
) -> Option<Coupling>
    requires after { layout.layer ≤ at }
    requires before { at < layout.layer + layout.points }
    requires x { length x.now ≡ places_of layout }
    requires y { length y.now ≡ places_of layout }
    requires z { length z.now ≡ places_of layout }
{
    let before = x[at].value() + y[at].value() + z[at].value();
    let after = x[at + 1].value() + y[at + layout.row()].value() + z[at + layout.layer()].value();
    Coupling::new(
        before
            .checked_add(after)?
            .checked_add(surroundings.value())?,
    )
}

// Adds a point's couplings with its neighbours to those with its surroundings. None where a sum doesn't fit.
fn sum_up(
    layout: Layout,
    x: &[Coupling],
    y: &[Coupling],
    z: &[Coupling],
    sums: &mut [Coupling],
) -> Option<()>
    requires x { length x.now ≡ places_of layout }
    requires y { length y.now ≡ places_of layout }
    requires z { length z.now ≡ places_of layout }
    requires sums { length sums.old ≡ places_of layout }
{
    for at in layout.first()..layout.last() {
        sums[at] = sum_at(layout, x, y, z, sums[at], at)?;
    }
    Some(())
}

// Lists the spans of coupled points, and counts them. Once the list is full, its last span goes on over points that
// aren't coupled, which changes no product and no sweep.
fn find_spans(layout: Layout, sums: &[Coupling], spans: &mut [Span]) -> usize
    requires { length sums.now ≡ places_of layout }
    ensures { result ≤ length spans.old }
{
    let mut count = 0;
    let mut is_inside = false;
    for at in layout.first()..layout.last() {
        let is_coupled = sums[at].value() > 0;
        if is_coupled {
            count = lengthen(spans, count, is_inside, at as u32);
        }
        is_inside = is_coupled;
    }
    count
}

// Takes a point into the last of so many spans, or into a new one after them.
fn lengthen(spans: &mut [Span], count: usize, is_inside: bool, at: u32) -> usize
    requires at { at < 2 ^ 31 }
    requires counted { count ≤ length spans.old }
    ensures { result ≤ length spans.old }
{
    if !is_inside && count < spans.len() {
        spans[count] = Span {
            first: at,
            last: at + 1,
        };
        return count + 1;
    }
    if count > 0 {
        spans[count - 1].last = at + 1;
    }
    count
}

// Adds a coupling to that of a point. None where there is no such point, or the sum doesn't fit.
fn add_to(couplings: &mut [Coupling], at: usize, coupling: Coupling) -> Option<()> {
    if at >= couplings.len() {
        return None;
    }
    couplings[at] = Coupling::new(couplings[at].value() + coupling.value())?;
    Some(())
}

impl Matrix {
    /// A matrix without couplings. It has all the memory that it will need.
    ///
    /// # Errors
    /// Memory ran out.
    pub fn new(alloc: Global, layout: Layout) -> Result<Matrix, AllocError>
        ensures { IfOk result (λ m. m.layout ≡ layout) }
    {
        let places = layout.places();
        let none = Span { first: 0, last: 0 };
        Ok(Matrix {
            layout,
            spans: vec![in alloc; none; places / 8 + 1]?,
            span_count: 0,
            x: vec![in alloc; Coupling::ZERO; places]?,
            y: vec![in alloc; Coupling::ZERO; places]?,
            z: vec![in alloc; Coupling::ZERO; places]?,
            sums: vec![in alloc; Coupling::ZERO; places]?,
            roots: vec![in alloc; Root::ZERO; places]?,
            taken: vec![in alloc; 0i64; layout.layer() + 1]?,
            is_factor: false,
        })
    }

    /// Takes all couplings away.
    pub fn clear(&mut self)
        ensures { self.new.layout ≡ self.old.layout }
    {
        self.x.as_mut_slice().fill(Coupling::ZERO);
        self.y.as_mut_slice().fill(Coupling::ZERO);
        self.z.as_mut_slice().fill(Coupling::ZERO);
        self.sums.as_mut_slice().fill(Coupling::ZERO);
        self.span_count = 0;
        self.is_factor = false;
    }

    /// Adds to the coupling of the point at a place with a neighbour. None, and nothing changes, where there is no such
    /// place or the sum is too large.
    pub fn couple(&mut self, at: usize, neighbour: Neighbour, coupling: Coupling) -> Option<()>
        ensures { self.new.layout ≡ self.old.layout }
    {
        match neighbour {
            Neighbour::BeforeOnX => add_to(self.x.as_mut_slice(), at, coupling),
            Neighbour::BeforeOnY => add_to(self.y.as_mut_slice(), at, coupling),
            Neighbour::BeforeOnZ => add_to(self.z.as_mut_slice(), at, coupling),
            Neighbour::Surroundings => add_to(self.sums.as_mut_slice(), at, coupling),
        }
    }

    /// Sums up the couplings, once all of them are there: the matrix then multiplies. None where a sum is too large.
    pub fn sum_up(&mut self) -> Option<()>
        ensures { self.new.layout ≡ self.old.layout }
    {
        let layout = self.layout;
        let x = self.x.as_slice();
        let y = self.y.as_slice();
        let z = self.z.as_slice();
        sum_up(layout, x, y, z, self.sums.as_mut_slice())?;
        self.span_count = find_spans(layout, self.sums.as_slice(), self.spans.as_mut_slice());
        Some(())
    }

    /// Makes of a matrix that is summed up its incomplete factor, by which a solver divides. The matrix then multiplies no
    /// more. The share of the dropped fill that goes onto the diagonal is in 1,024ths.
    pub fn factorize(&mut self, share: u16)
        ensures { self.new.layout ≡ self.old.layout }
    {
        let layout = self.layout;
        let couplings = Couplings {
            layout,
            x: self.x.as_slice(),
            y: self.y.as_slice(),
            z: self.z.as_slice(),
            sums: self.sums.as_slice(),
            share,
        };
        factorize(
            couplings,
            self.taken.as_mut_slice(),
            self.roots.as_mut_slice(),
        );
        let roots = self.roots.as_slice();
        scale(layout, self.x.as_mut_slice(), roots, 1);
        scale(layout, self.y.as_mut_slice(), roots, layout.row());
        scale(layout, self.z.as_mut_slice(), roots, layout.layer());
        scale(layout, self.sums.as_mut_slice(), roots, 0);
        self.is_factor = true;
    }

    /// Sums up the couplings and factorizes the matrix. None where a sum is too large.
    pub fn finish(&mut self, share: u16) -> Option<()>
        ensures { self.new.layout ≡ self.old.layout }
    {
        self.sum_up()?;
        self.factorize(share);
        Some(())
    }

    /// Whether the matrix is factorized.
    pub(crate) fn is_factor(&self) -> bool {
        self.is_factor
    }

    pub(crate) fn stencil(&self) -> Stencil<'_>
        ensures { result.layout ≡ self.now.layout }
    {
        Stencil {
            layout: self.layout,
            spans: &self.spans.as_slice()[..self.span_count],
            x: self.x.as_slice(),
            y: self.y.as_slice(),
            z: self.z.as_slice(),
            sums: self.sums.as_slice(),
            roots: self.roots.as_slice(),
        }
    }
}
