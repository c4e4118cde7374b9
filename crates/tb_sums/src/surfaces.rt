// The sides of a solid cell, of a flux.
ghost use Rattle.std.specs.Prelude.{◌≡◌, ◌*◌, ◌^◌, ◌≤◌, IfSome, pos, unsigned_abs};
ghost use Rattle.tb_math.specs.Ceiling.{ceiling};
ghost use Rattle.tb_terms.specs.Limits.{IsFlow, IsResistance, IsWidth};
ghost use Rattle.tb_terms.specs.Terms.{flux_face_term};
ghost use Rattle.tb_rows.specs.Filled.{IsFilled};
ghost use Rattle.tb_sums.specs.Losses.{HasFlows, entered, loss_face, side_loss_up, sides_entered, sides_loss_up};

use crate::sides::is_inside;
use crate::solid::Through;
use crate::terms::term_up;
use tb_geometry::Occupant;
use tb_rows::Divisor;
use tb_terms::FluxFace;

// The area of a face.
#[inline]
fn area(b: u32, c: u32) -> Divisor
    requires b { IsWidth b }
    requires c { IsWidth c }
    ensures { result.divisor ≡ b * c }
{
    Divisor::new(u64::from(b) * u64::from(c))
}

// The loss of a surface with the flow through it.
fn surface_loss(rs: u32, b: u32, c: u32, flow: i64) -> u128
    requires resistance { IsResistance rs }
    requires b { IsWidth b }
    requires c { IsWidth c }
    requires flow { IsFlow flow }
    ensures value { pos result ≡ ceiling (flux_face_term (loss_face rs b c flow)) }
    ensures most { result ≤ 10 ^ 30 }
{
    let term = FluxFace { rs, b, c, flow };
    term_up(&term, area(b, c))
}

// The loss of a side of a solid cell, with what lies beside it and the flow through it.
#[inline]
fn side_loss(beside: Option<Occupant>, b: u32, c: u32, flow: i64) -> u128
    requires filled { IfSome beside IsFilled }
    requires b { IsWidth b }
    requires c { IsWidth c }
    requires flow { IsFlow flow }
    ensures value { pos result ≡ side_loss_up beside b c flow }
    ensures most { result ≤ 10 ^ 30 }
{
    match beside {
        Some(Occupant::Air { rs, .. }) => surface_loss(rs, b, c, flow),
        Some(Occupant::Solid { .. }) => 0,
        None => 0,
    }
}

/// The loss of the two sides of a solid cell across an axis, with what lies beside the low one and the high one and the
/// flows through them.
#[inline]
pub fn sides_loss(
    low: Option<Occupant>,
    high: Option<Occupant>,
    b: u32,
    c: u32,
    flows: Through,
) -> u128
    requires low { IfSome low IsFilled }
    requires high { IfSome high IsFilled }
    requires b { IsWidth b }
    requires c { IsWidth c }
    requires flows { HasFlows flows }
    ensures value { pos result ≡ sides_loss_up low high b c flows }
    ensures most { result ≤ 2 * 10 ^ 30 }
{
    side_loss(low, b, c, flows.low) + side_loss(high, b, c, flows.high)
}

// The flow through a side of a solid cell, where it is a surface to an environment of the case.
#[inline]
fn surface_flow(mask: u8, beside: Option<Occupant>, flow: i64) -> i64
    requires { IsFlow flow }
    ensures value { result ≡ entered mask beside flow }
    ensures size { unsigned_abs result ≤ 10 ^ 12 }
{
    match beside {
        Some(Occupant::Air { environment, .. }) => {
            if is_inside(mask, environment) {
                flow
            } else {
                0
            }
        }
        Some(Occupant::Solid { .. }) => 0,
        None => 0,
    }
}

/// What enters a solid cell through its two sides across an axis from the environments of the case.
#[inline]
pub fn entering(mask: u8, low: Option<Occupant>, high: Option<Occupant>, flows: Through) -> i128
    requires { HasFlows flows }
    ensures value { result ≡ sides_entered mask low high flows }
    ensures size { unsigned_abs result ≤ 2 * 10 ^ 12 }
{
    i128::from(surface_flow(mask, low, flows.low))
        - i128::from(surface_flow(mask, high, flows.high))
}
