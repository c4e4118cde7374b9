//! The physics of a thermal bridge, from which everything else in this repository is judged.
//!
//! There is no program here: the definitions are in `specs/`, and this file has their data types.
#![tactic(auto)]

/// What a face between two cells is: between two solids, at the surface of an air box, on the hull at a
/// solid (adiabatic), or of no account.
#[derive(Clone, Copy, Debug, PartialEq, Eq)]
pub enum FaceKind {
    Inner,
    Surface {
        environment: u8,
        rs: u32,
        low_is_air: bool,
    },
    Shut,
    Idle,
}
