// The terms of a wall with λ 1 W/(m·K), 0.2 m thick and 1 m² large, between surfaces of 0.13 and
// 0.04 m²K/W: for its linear field (rounded up 1460920376917458, 949598239590943, 292184086194303)
// and its straight flux (1460920379079621, 949598246401754, 292184075815925). Then terms of unlike
// values, and the greatest terms.
use crate::{FieldCell, FieldFace, FluxCell, FluxFace, Functional};
use std::process::Abort;

fn expect<T: Functional>(rt: &impl Abort, term: &T, numerator: i128, denominator: i128)
    requires { T.Fits term.now }
{
    assert_eq!(rt; term.numerator(), numerator);
    assert_eq!(rt; term.denominator(), denominator);
}

#[test]
fn cells_of_a_field(rt: HostRuntime) {
    let cell = FieldCell {
        lambda: 10_000,
        a: 2_000,
        b: 10_000,
        c: 10_000,
        d: [-54_054_054; 4],
    };
    expect(&rt, &cell, 105186267138056976000000000000, 72000000000000);
    let cell = FieldCell {
        lambda: 400,
        a: 50,
        b: 30,
        c: 70,
        d: [10_000_000, -20_000_000, 30_000_000, 50_000_000],
    };
    expect(&rt, &cell, 14952000000000000000000, 1800000000000);
    let cell = FieldCell {
        lambda: 5_000_000,
        a: 1,
        b: 500_000,
        c: 500_000,
        d: [100_000_000; 4],
    };
    expect(
        &rt,
        &cell,
        450000000000000000000000000000000000,
        36000000000,
    );
}

#[test]
fn faces_of_a_field(rt: HostRuntime) {
    let face = FieldFace {
        rs: 1_300,
        b: 10_000,
        c: 10_000,
        t: [-35_135_135; 4],
    };
    expect(&rt, &face, 4444119761285610000000000, 4680000000);
    let face = FieldFace {
        rs: 400,
        b: 10_000,
        c: 10_000,
        t: [10_810_811; 4],
    };
    expect(&rt, &face, 420745084119795600000000, 1440000000);
    let face = FieldFace {
        rs: 1_700,
        b: 30,
        c: 70,
        t: [10_000_000, -20_000_000, 30_000_000, 50_000_000],
    };
    expect(&rt, &face, 37380000000000000000, 6120000000);
    let face = FieldFace {
        rs: 1,
        b: 500_000,
        c: 500_000,
        t: [-100_000_000; 4],
    };
    expect(&rt, &face, 90000000000000000000000000000, 3600000);
}

#[test]
fn cells_of_a_flux(rt: HostRuntime) {
    let cell = FluxCell {
        lambda: 10_000,
        a: 2_000,
        b: 10_000,
        c: 10_000,
        low: 2_702_702_702,
        high: 2_702_702_702,
    };
    expect(&rt, &cell, 4382761137238860482400000000, 3000000000000);
    let cell = FluxCell {
        lambda: 400,
        a: 50,
        b: 30,
        c: 70,
        low: -3_000_000,
        high: 5_000_000,
    };
    expect(&rt, &cell, 95000000000000000000, 2520000);
    let cell = FluxCell {
        lambda: 1,
        a: 500_000,
        b: 1,
        c: 1,
        low: 1_000_000_000_000,
        high: 1_000_000_000_000,
    };
    expect(&rt, &cell, 150000000000000000000000000000000000, 3);
}

#[test]
fn faces_of_a_flux(rt: HostRuntime) {
    let face = FluxFace {
        rs: 1_300,
        b: 10_000,
        c: 10_000,
        flow: 2_702_702_702,
    };
    expect(&rt, &face, 94959824640175310452000, 100000000);
    let face = FluxFace {
        rs: 400,
        b: 10_000,
        c: 10_000,
        flow: 2_702_702_702,
    };
    expect(&rt, &face, 29218407581592403216000, 100000000);
    let face = FluxFace {
        rs: 1_700,
        b: 30,
        c: 70,
        flow: -3_000_000,
    };
    expect(&rt, &face, 153000000000000000, 2100);
    let face = FluxFace {
        rs: 100_000,
        b: 1,
        c: 1,
        flow: -1_000_000_000_000,
    };
    expect(&rt, &face, 1000000000000000000000000000000, 1);
}
