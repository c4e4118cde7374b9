// What a loop's change does at one of its faces, and at its four.

use crate::pull::Pull;

/// A parabola in the change, and how far the change may go. A face that doesn't count is left out.
#[derive(Clone, Copy)]
pub struct Part {
    pub pull: Pull,
    pub low: i64,
    pub high: i64,
    pub here: i64,
    pub counts: bool,
}

/// Of two faces across one axis, which a loop passes forth and back, and of two across another.
#[derive(Clone, Copy)]
pub struct Parts {
    pub first: Part,
    pub first_back: Part,
    pub second: Part,
    pub second_back: Part,
}
