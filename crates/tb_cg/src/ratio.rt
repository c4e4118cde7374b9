// Conductances as quotients, and their scaled values.
use tb_gradients::Coupling;

/// A conductance in 10⁻⁸ W/K: `over / under`.
#[derive(Clone, Copy, Debug)]
pub struct Ratio {
    pub over: u128,
    pub under: u128,
}

/// The greatest scaled conductance: 2⁵⁴.
const MOST_SCALED: i64 = 1 << 54;

const SCALED_BITS: i32 = 54;

impl Ratio {
    /// From the middle of a solid to the middle of another, through an area in 10⁻⁸ m²: their half widths in a row.
    pub fn between(area: u128, low: u64, first: u32, high: u64, second: u32) -> Ratio {
        let (first, second) = (u128::from(first), u128::from(second));
        let low = u128::from(low) * second;
        let high = u128::from(high) * first;
        Ratio {
            over: area.saturating_mul(first * second).saturating_mul(2),
            under: low.saturating_add(high),
        }
    }

    /// From the middle of a solid through a surface: half its width and the surface's resistance in a row.
    pub fn through_surface(area: u128, width: u64, lambda: u32, rs: u32) -> Ratio {
        let lambda = u128::from(lambda).saturating_mul(2);
        Ratio {
            over: area.saturating_mul(lambda).saturating_mul(10_000),
            under: u128::from(width)
                .saturating_mul(10_000)
                .saturating_add(lambda.saturating_mul(u128::from(rs))),
        }
    }

    /// Through a surface alone.
    pub fn film(area: u128, rs: u32) -> Ratio {
        Ratio {
            over: area.saturating_mul(10_000),
            under: u128::from(rs),
        }
    }

    /// Through the whole of a cell.
    pub fn across(area: u128, width: u64, lambda: u32) -> Ratio {
        Ratio {
            over: area.saturating_mul(u128::from(lambda)),
            under: u128::from(width),
        }
    }

    /// A number of bits that the value has at the most.
    pub fn bits(self) -> i32 {
        let over = i32::try_from(self.over.leading_zeros()).unwrap_or(0);
        let under = i32::try_from(self.under.leading_zeros()).unwrap_or(0);
        under.saturating_sub(over).saturating_add(1)
    }

    /// The value times `2^scale`, at least 1 and at most 2⁵⁴.
    pub fn scaled(self, scale: i32) -> Coupling {
        let room = self.over.leading_zeros().min(127);
        let up = u32::try_from(scale).unwrap_or(0).min(room);
        let down = u32::try_from(scale.saturating_neg()).unwrap_or(0).min(127);
        let quotient = (self.over << up).checked_div(self.under).unwrap_or(0) >> down;
        let value = i64::try_from(quotient)
            .unwrap_or(MOST_SCALED)
            .clamp(1, MOST_SCALED);
        Coupling::new(value).unwrap_or(Coupling::ZERO)
    }
}

/// The scale at which conductances of at most so many bits have 54.
pub fn scale_for(bits: i32) -> i32 {
    SCALED_BITS.saturating_sub(bits)
}
