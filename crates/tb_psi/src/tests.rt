// Values worked out by hand, from a wall of 1/0.37 W/(m²·K).
use crate::{chi, psi};
use std::test::Fail;
use tb_detail::LineTerm;
use tb_planar::URange;
use tb_terms::Interval;

const WALL: URange = URange {
    lo: 2_702_702_702_702_702,
    hi: 2_702_702_702_702_703,
};

const PAIR: Interval = Interval {
    lo: 2_702_702_702_702_700,
    hi: 2_702_702_702_702_704,
};

// A length of 1 m takes U itself away; one of 1.2 m takes 3243243243243242.4 to 3243243243243243.6.
#[test]
fn lengths_take_their_walls_away(rt: HostRuntime) -> Result<(), Fail> {
    let short = psi(PAIR, &[(WALL, 10_000)]);
    assert_eq!(rt; short, Interval { lo: -3, hi: 2 });
    let long = psi(PAIR, &[(WALL, 12_000)]);
    assert_eq!(rt; long.lo, -540_540_540_540_544);
    assert_eq!(rt; long.hi, -540_540_540_540_538);
    Ok(())
}

// An area of 1 m², and 1 m of a ψ between 0.05 and 0.06 W/(m·K).
#[test]
fn areas_and_lines_are_taken_away(rt: HostRuntime) -> Result<(), Fail> {
    let line = LineTerm {
        psi_lo: 50_000,
        psi_hi: 60_000,
        length: 10_000,
    };
    let corner = chi(PAIR, &[(WALL, 10_000)], &[line]);
    assert_eq!(rt; corner.lo, -60_000_000_000_003);
    assert_eq!(rt; corner.hi, -49_999_999_999_998);
    Ok(())
}
