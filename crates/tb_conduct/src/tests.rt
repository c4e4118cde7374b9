// Pairs worked out by hand.
use crate::pair;
use std::test::Fail;
use tb_terms::Interval;

const NOTHING: Interval = Interval { lo: 0, hi: 0 };

const WALL: Interval = Interval {
    lo: 2_702_702_702_702_700,
    hi: 2_702_702_702_702_704,
};

// Of two environments the pair is the one case.
#[test]
fn two_environments_have_one_case(rt: HostRuntime) -> Result<(), Fail> {
    assert_eq!(rt; pair(&[WALL], 2, 0, 1), WALL);
    Ok(())
}

// A room and the outside on the two sides of a wall, and a stair without a surface between them.
#[test]
fn a_stair_without_a_surface_is_coupled_to_nothing(rt: HostRuntime) -> Result<(), Fail> {
    let cases = [WALL, NOTHING, WALL];
    assert_eq!(rt; pair(&cases, 3, 0, 1), Interval { lo: -2, hi: 2 });
    assert_eq!(rt; pair(&cases, 3, 0, 2), WALL);
    assert_eq!(rt; pair(&cases, 3, 1, 2), Interval { lo: -2, hi: 2 });
    Ok(())
}

// Of four environments {1,2}, {1,3} and {2,3} are the others of {0,3}, {0,2} and {0,1}. Halves are rounded outwards.
#[test]
fn four_environments_have_six_pairs(rt: HostRuntime) -> Result<(), Fail> {
    let cases = [
        Interval { lo: 10, hi: 11 },
        Interval { lo: 20, hi: 21 },
        Interval { lo: 30, hi: 31 },
        Interval { lo: 40, hi: 41 },
        Interval { lo: 5, hi: 6 },
        Interval { lo: 7, hi: 8 },
        Interval { lo: 9, hi: 10 },
    ];
    assert_eq!(rt; pair(&cases, 4, 0, 1), Interval { lo: 12, hi: 14 });
    assert_eq!(rt; pair(&cases, 4, 0, 2), Interval { lo: 16, hi: 18 });
    assert_eq!(rt; pair(&cases, 4, 0, 3), Interval { lo: 20, hi: 22 });
    assert_eq!(rt; pair(&cases, 4, 1, 2), Interval { lo: 20, hi: 22 });
    assert_eq!(rt; pair(&cases, 4, 1, 3), Interval { lo: 26, hi: 28 });
    assert_eq!(rt; pair(&cases, 4, 2, 3), Interval { lo: 32, hi: 34 });
    Ok(())
}
