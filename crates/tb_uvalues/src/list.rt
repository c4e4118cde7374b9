// The U-values of a detail.
ghost use Rattle.std.specs.Prelude.{◌≡◌, ◌↔◌, ℕ, ◌<◌, Err, IfOk, IfSome, IsErr, MatchOption, Ok, length};
ghost use Rattle.tb_detail.specs.declared.Part.{Part};
ghost use Rattle.tb_detail.specs.Limits.{InLimits};
ghost use Rattle.tb_outside.specs.Buffers.{Gathers};
ghost use Rattle.tb_planar.specs.Printed.{IsRatioAbove, answer};
ghost use Rattle.tb_uvalues.specs.Answers.{Answers, HasUValue, HaveUValues, IsFirstRefused, IsPartAt};
ghost use Rattle.tb_uvalues.specs.Texts.{line_of, lines, list_text};

use crate::fault::{UValueFault, UValueRefusal};
use crate::line::put_line;
use std::alloc::{AllocError, Global};
use std::marker::Model;
use tb_detail::{Detail, Name};
use tb_outside::{OutputBuffer, Sink, Text};
use tb_planar::{PlanarU, RatioAbove, planar};

/// The U-values of all parts of a detail, none of which is refused. Contracts see it as the detail.
#[derive(Debug, Drop)]
pub struct UValues {
    detail: Detail,
}

impl Model for UValues {
    ghost use Rattle.tb_detail.specs.declared.Detail.{Detail};

    ghost Value = { Detail };

    ghost view = { λ u. u.detail };

    ghost use Rattle.tb_detail.specs.Limits.{InLimits};
    ghost use Rattle.tb_uvalues.specs.Answers.{HaveUValues};

    ghost invariant = { λ u. InLimits u.detail × HaveUValues u.detail };
}

// What is printed of the part in this place, or that it is refused.
fn value_at(detail: &Detail, place: usize) -> Result<PlanarU, RatioAbove>
    requires limits { InLimits detail.now }
    requires known { place < length detail.now.parts }
    ensures answer { (p : Part) → IsPartAt detail.now place p → result ≡ answer detail.now p }
    ensures printed { (p : Part) → IsPartAt detail.now place p → IfOk result (λ value. HasUValue detail.now p) }
    ensures refused { (p : Part) → IsPartAt detail.now place p → IsErr result ↔ IsRatioAbove detail.now p }
{
    planar(detail, place as u16)
}

// The place of the first part that is refused.
fn first_refused(detail: &Detail) -> Option<usize>
    requires { InLimits detail.now }
    ensures first { MatchOption result (HaveUValues detail.now) (IsFirstRefused detail.now) }
    ensures known { IfSome result (λ place. place < length detail.now.parts) }
{
    for place in 0..detail.parts.items().len() {
        if value_at(detail, place).is_err() {
            return Some(place);
        }
    }
    None
}

// The refusal of a detail for the part in this place.
fn refusal_at(alloc: Global, detail: &Detail, place: usize) -> UValueRefusal
    requires first { IsFirstRefused detail.now place }
    requires known { place < length detail.now.parts }
    ensures { Answers detail.now (Err result) }
{
    match copy_of(alloc, &detail.parts.items()[place].name) {
        Ok(part) => UValueRefusal::Fault(UValueFault { part }),
        Err(_) => UValueRefusal::NoMemory,
    }
}

fn copy_of(alloc: Global, name: &Name) -> Result<Name, AllocError>
    ensures { IfOk result (λ copy. copy ≡ name.now) }
{
    let bytes = Vec::from_slice(alloc, name.bytes())?;
    Ok(Name { bytes })
}

impl UValues {
    /// The U-values of a detail's parts.
    ///
    /// # Errors
    /// `Fault` exactly where the ratio of the limits of a part's resistance is certainly above 1.5, with the first such
    /// part. `NoMemory` may come in its place.
    pub fn new(alloc: Global, detail: Detail) -> Result<UValues, UValueRefusal>
        requires { InLimits detail }
        ensures { Answers detail result }
    {
        match first_refused(&detail) {
            None => Ok(UValues { detail }),
            Some(place) => {
                let refusal = refusal_at(alloc, &detail, place);
                drop(detail);
                Err(refusal)
            }
        }
    }

    /// Their detail.
    pub fn detail(&self) -> &Detail
        ensures detail { result.now ≡ self.now }
        ensures limits { InLimits self.now }
        ensures values { HaveUValues self.now }
    {
        &self.detail
    }
}

// ---- their text

// The value that is printed of the part in this place.
fn printed_at(detail: &Detail, place: usize) -> PlanarU
    requires limits { InLimits detail.now }
    requires values { HaveUValues detail.now }
    requires known { place < length detail.now.parts }
    ensures { (p : Part) → IsPartAt detail.now place p → answer detail.now p ≡ Ok result }
{
    match value_at(detail, place) {
        Ok(value) => value,
        Err(RatioAbove) => unreachable!(),
    }
}

// Puts a line for each part.
fn put_lines<K: Sink>(buffer: &mut OutputBuffer, sink: &mut K, detail: &Detail)
    requires limits { InLimits detail.now }
    requires values { HaveUValues detail.now }
    ensures { Gathers K.holds K.faults sink.old sink.new buffer.old (lines detail.now) buffer.new }
{
    for (place, part) in detail.parts.items().iter().enumerate() {
        put_line(buffer, sink, part, printed_at(detail, place));
    }
}

/// A line for each part, and `end`.
impl Text for UValues {
    ghost text = { list_text };

    fn put<K: Sink>(&self, buffer: &mut OutputBuffer, sink: &mut K) {
        put_lines(buffer, sink, self.detail());
        buffer.put(sink, b"end\n");
    }
}
