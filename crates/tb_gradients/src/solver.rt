// Conjugate gradients, preconditioned by an incomplete factor.
ghost use Rattle.std.specs.Prelude.{◌≡◌, ◌^◌, ◌<◌, ◌≤◌, ◌+◌, length, vec_len, IfOk};
ghost use Rattle.tb_gradients.specs.Layouts.{places_of};

use crate::dyadic::{Dyadic, bit_length};
use crate::entry::Entry;
use crate::layout::Layout;
use crate::matrix::Matrix;
use crate::root::ROOT_BITS;
use crate::stencil::{Stencil, multiply};
use crate::sweep::{backward, forward, pass, scale_by_roots};
use crate::vector::Vector;
use std::alloc::{AllocError, Global};

/// What takes a vector to another: a symmetric, positive matrix, or the derivative of an energy.
pub trait Operator {
    /// Makes `q` what it makes of `p`, over `2^shift`, and gives a number with as many bits as the greatest entry. None
    /// where an entry doesn't fit, or the lists have other lengths.
    fn multiply(&self, p: &[Entry], shift: u8, q: &mut [Entry]) -> Option<i64>;
}

impl Operator for Matrix {
    fn multiply(&self, p: &[Entry], shift: u8, q: &mut [Entry]) -> Option<i64> {
        let places = self.layout.places();
        if p.len() != places || q.len() != places || shift > 63 || self.is_factor() {
            return None;
        }
        multiply(self.stencil(), p, shift, q)
    }
}

/// Why a solution ended.
#[derive(Clone, Copy, Debug, PartialEq, Eq)]
pub enum End {
    /// The residual is small enough.
    Converged,
    /// The limit of the steps was reached.
    Limit,
    /// A number didn't fit, or the matrix isn't positive.
    PastRange,
}

/// How many steps were made, and why they ended.
#[derive(Clone, Copy, Debug, PartialEq, Eq)]
pub struct Outcome {
    pub steps: u32,
    pub end: End,
}

/// The exponent of a solution.
pub const SOLUTION_EXPONENT: i32 = -50;

// One bit less than the vectors of a descent are given, and than those of a system between the halves of a factor: a division by
// a half makes entries greater.
const BITS: i32 = 51;

const SPLIT_BITS: i32 = 44;

// A division is made anew where it has fewer bits than this.
const LEAST_BITS: i32 = 34;

// By how much less, in bits, a division that doesn't fit is tried next.
const RETREAT: i32 = 12;

// The exponents at which results fitted last: of the divisions by the first half and by the whole factor, and of the products
// of the matrix.
#[derive(Clone, Copy, Debug)]
struct Exponents {
    half: i32,
    whole: i32,
    image: i32,
}

// Multiplies a vector by the roots, at an exponent. None where an entry doesn't fit.
fn scale(stencil: Stencil, v: &Vector, exponent: i32, s: &mut Vector) -> Option<()>
    requires v { vec_len v.now.entries ≡ places_of stencil.layout }
    requires s { vec_len s.old.entries ≡ places_of stencil.layout }
    ensures { vec_len s.new.entries ≡ vec_len s.old.entries }
{
    let shift = exponent
        .saturating_sub(v.exponent)
        .saturating_add(ROOT_BITS);
    let shift = u8::try_from(shift).ok()?;
    if shift > 127 {
        return None;
    }
    s.magnitude = scale_by_roots(
        stencil,
        v.entries.as_slice(),
        shift,
        s.entries.as_mut_slice(),
    )?;
    s.exponent = exponent;
    Some(())
}

// An exponent for a next try, after one whose greatest entry has so many bits. None where there is no need for one.
fn lower(exponent: i32, bits: i32) -> Option<i32> {
    if bits >= LEAST_BITS {
        return None;
    }
    Some(exponent.saturating_sub(50i32.saturating_sub(bits)))
}

// Multiplies a vector by the roots, near an exponent.
fn scale_near(stencil: Stencil, v: &Vector, exponent: i32, s: &mut Vector) -> Option<()>
    requires v { vec_len v.now.entries ≡ places_of stencil.layout }
    requires s { vec_len s.old.entries ≡ places_of stencil.layout }
    ensures { vec_len s.new.entries ≡ vec_len s.old.entries }
{
    let least = v.exponent.saturating_sub(ROOT_BITS);
    let mut exponent = exponent.max(least);
    for _ in 0..10 {
        if scale(stencil, v, exponent, s).is_none() {
            exponent = exponent.saturating_add(RETREAT);
            continue;
        }
        match lower(exponent, s.bits()) {
            Some(lower) if exponent > least => exponent = lower.max(least),
            _ => return Some(()),
        }
    }
    None
}

// Multiplies a vector by the roots and divides it by the first half of the factor, near an exponent.
fn divide_half(stencil: Stencil, v: &Vector, exponent: i32, s: &mut Vector) -> Option<()>
    requires v { vec_len v.now.entries ≡ places_of stencil.layout }
    requires s { vec_len s.old.entries ≡ places_of stencil.layout }
    ensures { vec_len s.new.entries ≡ vec_len s.old.entries }
{
    let least = v.exponent.saturating_sub(ROOT_BITS);
    let mut exponent = exponent.max(least);
    for _ in 0..10 {
        let made = match scale(stencil, v, exponent, s) {
            Some(()) => forward(stencil, s.entries.as_mut_slice()),
            None => None,
        };
        let Some(magnitude) = made else {
            exponent = exponent.saturating_add(RETREAT);
            continue;
        };
        s.magnitude = magnitude;
        match lower(exponent, s.bits()) {
            Some(lower) if exponent > least => exponent = lower.max(least),
            _ => return Some(()),
        }
    }
    None
}

// Divides a vector by the second half of the factor, with its exponent. None where an entry doesn't fit.
fn divide_rest(stencil: Stencil, p: &Vector, t: &mut Vector) -> Option<()>
    requires p { vec_len p.now.entries ≡ places_of stencil.layout }
    requires t { vec_len t.old.entries ≡ places_of stencil.layout }
    ensures { vec_len t.new.entries ≡ vec_len t.old.entries }
{
    t.magnitude = backward(stencil, p.entries.as_slice(), t.entries.as_mut_slice())?;
    t.exponent = p.exponent;
    Some(())
}

// Divides a vector by the second half of the factor. Where an entry doesn't fit, the vector is halved before.
fn divide_shortened(stencil: Stencil, p: &mut Vector, t: &mut Vector) -> Option<()>
    requires p { vec_len p.old.entries ≡ places_of stencil.layout }
    requires t { vec_len t.old.entries ≡ places_of stencil.layout }
    ensures p { vec_len p.new.entries ≡ vec_len p.old.entries }
    ensures t { vec_len t.new.entries ≡ vec_len t.old.entries }
{
    for _ in 0..10 {
        if divide_rest(stencil, p, t).is_some() {
            return Some(());
        }
        let exponent = p.exponent.saturating_add(4);
        p.raise(exponent)?;
    }
    None
}

// Divides the residual by the factor, beside a vector for what is between its halves, and gives the exponents for the next
// time.
fn precondition(
    stencil: Stencil,
    r: &Vector,
    between: &mut Vector,
    s: &mut Vector,
    exponents: Exponents,
) -> Option<Exponents>
    requires r { vec_len r.now.entries ≡ places_of stencil.layout }
    requires between { vec_len between.old.entries ≡ places_of stencil.layout }
    requires s { vec_len s.old.entries ≡ places_of stencil.layout }
    ensures between { vec_len between.new.entries ≡ vec_len between.old.entries }
    ensures s { vec_len s.new.entries ≡ vec_len s.old.entries }
{
    divide_half(stencil, r, exponents.half, s)?;
    let half = s.settled();
    divide_shortened(stencil, s, between)?;
    scale_near(stencil, between, exponents.whole, s)?;
    Some(Exponents {
        half,
        whole: s.settled(),
        image: exponents.image,
    })
}

// Multiplies a vector by the matrix of the system, near an exponent.
fn apply<A: Operator>(operator: &A, p: &Vector, exponent: i32, q: &mut Vector) -> Option<()>
    ensures { vec_len q.new.entries ≡ vec_len q.old.entries }
{
    let mut exponent = exponent;
    for _ in 0..10 {
        exponent = exponent.max(p.exponent);
        let shift = u8::try_from(exponent.saturating_sub(p.exponent)).ok()?;
        let made = operator.multiply(p.entries.as_slice(), shift, q.entries.as_mut_slice());
        let Some(magnitude) = made else {
            exponent = exponent.saturating_add(8);
            continue;
        };
        let bits = bit_length(i128::from(magnitude));
        if bits >= 40 || exponent == p.exponent {
            q.exponent = exponent;
            q.magnitude = magnitude;
            return Some(());
        }
        exponent = exponent.saturating_sub(50i32.saturating_sub(bits));
    }
    None
}

// Multiplies a vector by a system's matrix between the halves of its factor, beside a vector for what a division needs. None where
// an entry doesn't fit.
fn multiply_split(stencil: Stencil, p: &Vector, q: &mut Vector, beside: &mut Vector) -> Option<()>
    requires p { vec_len p.now.entries ≡ places_of stencil.layout }
    requires q { vec_len q.old.entries ≡ places_of stencil.layout }
    requires beside { vec_len beside.old.entries ≡ places_of stencil.layout }
    ensures q { vec_len q.new.entries ≡ vec_len q.old.entries }
    ensures beside { vec_len beside.new.entries ≡ vec_len beside.old.entries }
{
    divide_rest(stencil, p, q)?;
    q.magnitude = pass(
        stencil,
        p.entries.as_slice(),
        q.entries.as_mut_slice(),
        beside.entries.as_mut_slice(),
    )?;
    Some(())
}

/// The vectors of a solution: of conjugate gradients, preconditioned by the incomplete factor of a matrix.
#[derive(Drop)]
pub struct Solver {
    pub layout: Layout,
    solution: Vector,
    residual: Vector,
    correction: Vector,
    direction: Vector,
    image: Vector,
    // The square of the last step's preconditioned residual: zero before the first step.
    size: Dyadic,
    exponents: Exponents,
    ghost whole_solution: { vec_len solution.entries ≡ places_of layout },
    ghost whole_residual: { vec_len residual.entries ≡ places_of layout },
    ghost whole_correction: { vec_len correction.entries ≡ places_of layout },
    ghost whole_direction: { vec_len direction.entries ≡ places_of layout },
    ghost whole_image: { vec_len image.entries ≡ places_of layout },
}

impl Solver {
    /// A solver with a solution and a residual of zeros. It has all the memory that it will need.
    ///
    /// # Errors
    /// Memory ran out.
    pub fn new(alloc: Global, layout: Layout) -> Result<Solver, AllocError>
        ensures { IfOk result (λ s. s.layout ≡ layout) }
    {
        let places = layout.places();
        Ok(Solver {
            layout,
            solution: Vector::new(alloc, places)?,
            residual: Vector::new(alloc, places)?,
            correction: Vector::new(alloc, places)?,
            direction: Vector::new(alloc, places)?,
            image: Vector::new(alloc, places)?,
            size: Dyadic::ZERO,
            exponents: Exponents {
                half: 0,
                whole: 0,
                image: 0,
            },
        })
    }

    /// Makes the residual zero, with an exponent for the entries that will be set.
    pub fn clear_residual(&mut self, exponent: i32)
        ensures { self.new.layout ≡ self.old.layout }
    {
        self.residual.clear(exponent);
    }

    /// Adds to the residual at a place. None, and nothing changes, where there is no such place or the sum doesn't fit.
    pub fn add_residual(&mut self, at: usize, entry: Entry) -> Option<()>
        ensures { self.new.layout ≡ self.old.layout }
    {
        self.residual.add(at, entry)
    }

    /// The solution: each entry times `2^-50` after [`solve`](Solver::solve), and else as it was set.
    pub fn solution(&self) -> &[Entry]
        ensures { length result.now ≡ places_of self.now.layout }
    {
        self.solution.entries()
    }

    /// The residual: the way of steepest descent, times a power of two.
    pub fn residual(&self) -> &[Entry]
        ensures { length result.now ≡ places_of self.now.layout }
    {
        self.residual.entries()
    }

    // Begins anew: the next search direction will have no regard for the last one.
    fn restart(&mut self)
        ensures { self.new.layout ≡ self.old.layout }
    {
        self.correction.clear(self.residual.exponent);
        self.image.clear(self.residual.exponent);
        self.size = Dyadic::ZERO;
        self.exponents = Exponents {
            half: self.residual.exponent,
            whole: self.residual.exponent,
            image: self.residual.exponent,
        };
    }

    /// Makes the solution zero, with an exponent for the entries that will be set.
    pub fn clear_solution(&mut self, exponent: i32)
        ensures { self.new.layout ≡ self.old.layout }
    {
        self.solution.clear(exponent);
    }

    /// Sets the solution at a place. None, and nothing changes, where there is no such place.
    pub fn set_solution(&mut self, at: usize, entry: Entry) -> Option<()>
        ensures { self.new.layout ≡ self.old.layout }
    {
        self.solution.set(at, entry)
    }

    /// Adds to the solution at a place. None, and nothing changes, where there is no such place or the sum doesn't fit.
    pub fn add_solution(&mut self, at: usize, entry: Entry) -> Option<()>
        ensures { self.new.layout ≡ self.old.layout }
    {
        self.solution.add(at, entry)
    }

    /// Begins a descent at the solution: the residual becomes the negative derivative of an energy there. None where a
    /// number doesn't fit.
    pub fn descend<A: Operator>(&mut self, derivative: &A) -> Option<()>
        ensures { self.new.layout ≡ self.old.layout }
    {
        let exponent = self.solution.exponent;
        self.image.clear(exponent);
        apply(derivative, &self.solution, exponent, &mut self.image)?;
        self.residual.copy_negative(&self.image)?;
        self.restart();
        Some(())
    }

    /// Takes off the residual what the solution gives of it, so that a next solution is what this one lacks. A matrix must
    /// not be factorized yet. None where a number doesn't fit.
    pub fn resume<A: Operator>(&mut self, operator: &A) -> Option<()>
        ensures { self.new.layout ≡ self.old.layout }
    {
        let exponent = self.residual.exponent;
        self.image.clear(exponent);
        apply(operator, &self.solution, exponent, &mut self.image)?;
        self.residual.reduce(Dyadic::ONE, &self.image, BITS)?;
        self.restart();
        Some(())
    }

    // Finds the next search direction of a descent: the correction and so much of the last one that the two are conjugate.
    fn turn(&mut self, size: Dyadic) -> Option<()>
        ensures { self.new.layout ≡ self.old.layout }
    {
        if self.size.value > 0 {
            let ratio = size.over(self.size)?;
            self.direction.renew(ratio, &mut self.correction, BITS)?;
        } else {
            self.direction.copy(&self.correction);
        }
        self.size = size;
        Some(())
    }

    // Goes along the search direction to where the residual has no part along it.
    fn advance<A: Operator>(&mut self, operator: &A) -> Option<()>
        ensures { self.new.layout ≡ self.old.layout }
    {
        let exponent = self.exponents.image;
        apply(operator, &self.direction, exponent, &mut self.image)?;
        self.exponents.image = self.image.settled();
        let curvature = self.direction.dot(&self.image);
        let length = self.residual.dot(&self.direction).over(curvature)?;
        self.solution.add_multiple(length, &self.direction)?;
        self.residual.reduce(length, &self.image, BITS)
    }

    /// Makes a step of a descent, unless the square of the preconditioned residual has at most `least` bits before the point, and
    /// gives how many it had before. None where a number doesn't fit, the matrix of the operator isn't positive, or the preconditioner
    /// isn't factorized or has another layout.
    pub fn step<A: Operator>(
        &mut self,
        operator: &A,
        preconditioner: &Matrix,
        least: i32,
    ) -> Option<i32>
        ensures { self.new.layout ≡ self.old.layout }
    {
        if !preconditioner.is_factor() || preconditioner.layout.places() != self.layout.places() {
            return None;
        }
        if self.residual.magnitude == 0 {
            return Some(i32::MIN);
        }
        self.residual.settle()?;
        let exponents = self.exponents;
        self.exponents = precondition(
            preconditioner.stencil(),
            &self.residual,
            &mut self.image,
            &mut self.correction,
            exponents,
        )?;
        let size = self.residual.dot(&self.correction);
        if size.value <= 0 {
            return if size.value == 0 {
                Some(i32::MIN)
            } else {
                None
            };
        }
        let bits = size.logarithm();
        if bits > least {
            self.turn(size)?;
            self.advance(operator)?;
        }
        Some(bits)
    }

    // Takes the system between the halves of the factor: its residual is the first half's quotient, its solution zero.
    fn enter(&mut self, stencil: Stencil) -> Option<()>
        requires { places_of stencil.layout ≡ places_of self.old.layout }
        ensures { self.new.layout ≡ self.old.layout }
    {
        self.residual.settle()?;
        self.restart();
        let exponent = self.residual.exponent;
        divide_half(stencil, &self.residual, exponent, &mut self.correction)?;
        self.residual.copy(&self.correction);
        self.residual.shorten(SPLIT_BITS)?;
        self.solution.clear(self.residual.exponent);
        Some(())
    }

    // Finds the next search direction between the halves.
    fn turn_split(&mut self, size: Dyadic) -> Option<()>
        ensures { self.new.layout ≡ self.old.layout }
    {
        if self.size.value > 0 {
            let ratio = size.over(self.size)?;
            self.direction.renew(ratio, &mut self.residual, SPLIT_BITS)?;
        } else {
            self.direction.copy(&self.residual);
        }
        self.size = size;
        Some(())
    }

    // Multiplies the search direction by the system's matrix between the halves. Where an entry doesn't fit, the direction is
    // halved before.
    fn apply_split(&mut self, stencil: Stencil) -> Option<()>
        requires { places_of stencil.layout ≡ places_of self.old.layout }
        ensures { self.new.layout ≡ self.old.layout }
    {
        for _ in 0..10 {
            if multiply_split(
                stencil,
                &self.direction,
                &mut self.image,
                &mut self.correction,
            )
            .is_some()
            {
                return Some(());
            }
            let exponent = self.direction.exponent.saturating_add(4);
            self.direction.raise(exponent)?;
        }
        None
    }

    // Makes a step between the halves, unless the square of the residual has at most `least` bits before the point, and gives
    // how many it had before.
    fn step_split(&mut self, stencil: Stencil, least: i32) -> Option<i32>
        requires { places_of stencil.layout ≡ places_of self.old.layout }
        ensures { self.new.layout ≡ self.old.layout }
    {
        let size = self.residual.dot(&self.residual);
        if size.value == 0 {
            return Some(i32::MIN);
        }
        let bits = size.logarithm();
        if bits > least {
            self.turn_split(size)?;
            self.apply_split(stencil)?;
            let curvature = self.direction.dot(&self.image);
            let length = size.over(curvature)?;
            self.solution
                .reduce(length.negative(), &self.direction, BITS)?;
            self.residual.reduce(length, &self.image, SPLIT_BITS)?;
        }
        Some(bits)
    }

    // Makes steps between the halves until the residual is `2^-accuracy` of the first, or a limit of steps is reached.
    fn go_on(&mut self, stencil: Stencil, limit: u32, accuracy: u8) -> Outcome
        requires { places_of stencil.layout ≡ places_of self.old.layout }
        ensures { self.new.layout ≡ self.old.layout }
    {
        let mut least = i32::MIN;
        for steps in 0..limit {
            let Some(bits) = self.step_split(stencil, least) else {
                return Outcome {
                    steps,
                    end: End::PastRange,
                };
            };
            if bits <= least {
                return Outcome {
                    steps,
                    end: End::Converged,
                };
            }
            if steps == 0 {
                least = bits
                    .saturating_sub(2 * i32::from(accuracy))
                    .saturating_sub(1);
            }
        }
        Outcome {
            steps: limit,
            end: End::Limit,
        }
    }

    // Takes the solution between the halves to that of the system. None where a number doesn't fit.
    fn leave(&mut self, stencil: Stencil) -> Option<()>
        requires { places_of stencil.layout ≡ places_of self.old.layout }
        ensures { self.new.layout ≡ self.old.layout }
    {
        divide_shortened(stencil, &mut self.solution, &mut self.image)?;
        scale(stencil, &self.image, SOLUTION_EXPONENT, &mut self.solution)
    }

    /// Solves for the residual, with a matrix that is factorized, until what is left of it is `2^-accuracy` of the first or a
    /// limit of steps is reached. The residual isn't kept. Where a number doesn't fit, or the matrix isn't factorized or has
    /// another layout, the solution is that of the steps before, or zero.
    pub fn solve(&mut self, matrix: &Matrix, limit: u32, accuracy: u8) -> Outcome
        ensures { self.new.layout ≡ self.old.layout }
    {
        let none = Outcome {
            steps: 0,
            end: End::PastRange,
        };
        if !matrix.is_factor() || matrix.layout.places() != self.layout.places() {
            self.clear_solution(SOLUTION_EXPONENT);
            return none;
        }
        let stencil = matrix.stencil();
        if self.enter(stencil).is_none() {
            self.clear_solution(SOLUTION_EXPONENT);
            return none;
        }
        let outcome = self.go_on(stencil, limit, accuracy);
        if self.leave(stencil).is_none() {
            self.clear_solution(SOLUTION_EXPONENT);
            return Outcome {
                steps: outcome.steps,
                end: End::PastRange,
            };
        }
        outcome
    }
}
