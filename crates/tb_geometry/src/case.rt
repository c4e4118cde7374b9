// The cases of a body.
ghost use Rattle.std.specs.Prelude.{◌≡◌, ◌-◌, ◌≤◌, ◌++◌, length, replicate};
ghost use Rattle.tb_geometry.specs.Cases.{case_masks};

/// A case: the environments that are at 1, while the others are at 0. Bit e of the mask is set where
/// environment e, counted from 0, is among them.
#[derive(Clone, Copy, Debug, PartialEq, Eq)]
pub struct Case {
    pub mask: u8,
}

/// The masks of the cases of a body in their order. The rest of the seven are 0.
#[derive(Clone, Copy, Debug, PartialEq, Eq)]
pub struct CaseList {
    pub count: u8,
    pub masks: [u8; 7],
}

/// The cases of a body with 2 to 4 environments: each environment alone, of two the first alone, and of four
/// also the first together with each other one.
///
/// The heat flow of a case is also that of the environments that aren't in it, so no other set needs a case.
pub fn cases(environments: u8) -> CaseList
    requires { (2 ≤ environments) × (environments ≤ 4) }
    ensures count { result.count ≡ length (case_masks environments) }
    ensures masks { result.masks ≡ case_masks environments ++ replicate (7 - result.count) 0 }
{
    match environments {
        2 => CaseList {
            count: 1,
            masks: [1, 0, 0, 0, 0, 0, 0],
        },
        3 => CaseList {
            count: 3,
            masks: [1, 2, 4, 0, 0, 0, 0],
        },
        _ => CaseList {
            count: 7,
            masks: [1, 2, 4, 8, 3, 5, 9],
        },
    }
}
