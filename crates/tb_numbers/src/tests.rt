// Expected values were worked out by hand, or by arithmetic with unbounded integers.
ghost use Rattle.std.specs.Prelude.{◌≡◌, pos, ◌<ℤ◌};
ghost use Rattle.tb_numbers.specs.Quotients.{ceiling, floor};

use super::*;

const BAD: NumberFault = NumberFault::BadNumber;

const OUT: NumberFault = NumberFault::OutOfRange;

#[test]
fn decimals(rt: HostRuntime) {
    for (text, want) in [
        ("0.04", Ok(400)),
        ("0.0400", Ok(400)),
        ("500", Ok(5_000_000)),
        ("499.9999", Ok(4_999_999)),
        (
            "00000000000000000000000000000000000000000000000001.5",
            Ok(15_000),
        ),
        ("500.0001", Err(OUT)),
        ("0", Err(OUT)),
        ("340282366920938463463374607431768211456.0001", Err(OUT)),
        (
            "99999999999999999999999999999999999999999999999999",
            Err(OUT),
        ),
        ("0.00001", Err(BAD)),
        ("", Err(BAD)),
        (".5", Err(BAD)),
        ("5.", Err(BAD)),
        ("-", Err(BAD)),
        ("-1", Err(BAD)),
        ("+1", Err(BAD)),
        ("1e3", Err(BAD)),
        ("1..2", Err(BAD)),
        (" 1", Err(BAD)),
        ("1/2", Err(BAD)),
        ("1:", Err(BAD)),
        ("½", Err(BAD)),
    ] {
        assert_eq!(rt;
            parse_decimal(text.as_bytes(), 4, 1, 5_000_000),
            want,
            "{text}"
        );
    }
}

#[test]
fn decimals_at_the_limits(rt: HostRuntime) {
    assert_eq!(rt; parse_decimal(b"7", 0, 1, 7), Ok(7));
    assert_eq!(rt; parse_decimal(b"7.", 0, 1, 7), Err(BAD));
    assert_eq!(rt; parse_decimal(b"7.0", 0, 1, 7), Err(BAD));
    assert_eq!(rt; parse_decimal(b"0000000000000007", 0, 1, 7), Ok(7));
    assert_eq!(rt; parse_decimal(b"00000000000000007", 0, 1, 7), Ok(7));
    let most = 1_000_000_000_000_000;
    assert_eq!(rt; parse_decimal(b"10000000", 8, 0, most), Ok(most));
    assert_eq!(rt; parse_decimal(b"10000000.00000001", 8, 0, most), Err(OUT));
    assert_eq!(rt; parse_decimal(b"0.00000001", 8, 0, most), Ok(1));
}

#[test]
fn signed_decimals(rt: HostRuntime) {
    for (text, want) in [
        ("-0.000005", Ok(-5)),
        ("-0", Ok(0)),
        ("1000", Ok(1_000_000_000)),
        ("-1000", Ok(-1_000_000_000)),
        ("-1000.000001", Err(OUT)),
        (
            "-99999999999999999999999999999999999999999999999999",
            Err(OUT),
        ),
        ("", Err(BAD)),
        ("-", Err(BAD)),
        ("--1", Err(BAD)),
        ("+1", Err(BAD)),
        ("-0.0000001", Err(BAD)),
    ] {
        assert_eq!(rt;
            parse_signed(text.as_bytes(), 6, 1_000_000_000),
            want,
            "{text}"
        );
    }
}

#[test]
fn whole_numbers(rt: HostRuntime) {
    let most = 99_999_999_999_999_999_999_999_999_999_999_999_999;
    for (text, want) in [
        ("-0", Some(0)),
        ("007", Some(7)),
        ("-2702702702", Some(-2_702_702_702)),
        ("99999999999999999999999999999999999999", Some(most)),
        ("-99999999999999999999999999999999999999", Some(-most)),
        ("00000000000000000000000000000000000001", Some(1)),
        ("000000000000000000000000000000000000001", None),
        ("", None),
        ("-", None),
        ("--1", None),
        ("+1", None),
        ("1.0", None),
        ("1e3", None),
    ] {
        assert_eq!(rt; parse_whole(text.as_bytes()), want, "{text}");
    }
}

#[test]
fn texts(rt: HostRuntime) {
    for (value, places, want) in [
        (0, 0, "0"),
        (0, 6, "0.000000"),
        (-5, 6, "-0.000005"),
        (-5, 0, "-5"),
        (1_234_567, 6, "1.234567"),
        (-1_000_000, 6, "-1.000000"),
        (10, 1, "1.0"),
        (1, 18, "0.000000000000000001"),
        (2_702_702_702_702_706, 9, "2702702.702702706"),
        (i128::MAX, 0, "170141183460469231731687303715884105727"),
        (i128::MIN, 0, "-170141183460469231731687303715884105728"),
        (i128::MIN, 18, "-170141183460469231731.687303715884105728"),
    ] {
        assert!(rt; places <= 18);
        assert_eq!(rt; fixed(value, places).as_bytes(), want.as_bytes(), "{want}");
    }
}

#[test]
fn short_texts(rt: HostRuntime) {
    for (value, places, want) in [
        (2_001, 1, "200.1"),
        (2_000, 1, "200"),
        (5_000, 4, "0.5"),
        (0, 4, "0"),
        (7, 0, "7"),
        (100_000_001, 8, "1.00000001"),
        (u64::MAX, 8, "184467440737.09551615"),
    ] {
        assert!(rt; places <= 8);
        assert_eq!(rt;
            decimal(value, places).as_bytes(),
            want.as_bytes(),
            "{want}"
        );
    }
    for (value, places, want) in [
        (-1_500, 3, "-1.5"),
        (40, 2, "0.4"),
        (i64::MIN, 0, "-9223372036854775808"),
    ] {
        assert!(rt; places <= 8);
        assert_eq!(rt;
            signed_decimal(value, places).as_bytes(),
            want.as_bytes(),
            "{want}"
        );
    }
}

#[test]
fn quotients(rt: HostRuntime) {
    let half = 85_070_591_730_234_615_865_843_651_857_942_052_863;
    for (n, d, up, down) in [
        (6, 3, 2, 2),
        (7, 3, 3, 2),
        (-6, 3, -2, -2),
        (-7, 3, -2, -3),
        (1, i128::MAX, 1, 0),
        (-1, i128::MAX, 0, -1),
        (i128::MAX, 1, i128::MAX, i128::MAX),
        (i128::MAX, 2, half + 1, half),
        (i128::MAX, i128::MAX, 1, 1),
        (i128::MIN, 1, i128::MIN, i128::MIN),
        (i128::MIN, 2, -half - 1, -half - 1),
        (i128::MIN, i128::MAX, -1, -2),
    ] {
        assert!(rt; d > 0);
        assert_eq!(rt; Up::div(n, d), up, "{n} / {d}");
        assert_eq!(rt; Down::div(n, d), down, "{n} / {d}");
    }
}

// A caller learns which rounding it has.
fn ends(n: i128, d: i128) -> (i128, i128)
    requires { pos 0 <ℤ d }
    ensures low { result.0 ≡ floor n d }
    ensures high { result.1 ≡ ceiling n d }
{
    (Down::div(n, d), Up::div(n, d))
}

#[test]
fn sums(rt: HostRuntime) {
    assert_eq!(rt; ends(7, 2), (3, 4));
    let mut low: Sum<Down> = Sum::new();
    assert_eq!(rt; low.total(), 0);
    assert_eq!(rt; low.add_term(7, 2), Ok(()));
    assert_eq!(rt; low.add_term(1, 2), Ok(()));
    assert_eq!(rt; low.total(), 3);
    let limit = 1 << 120;
    let mut high: Sum<Up> = Sum::new();
    assert_eq!(rt; high.add_term(limit - 1, 1), Ok(()));
    assert_eq!(rt; high.add_term(3, 2), Err(PastLimit));
    assert_eq!(rt; high.add_term(i128::MAX, 1), Err(PastLimit));
    assert_eq!(rt; high.total(), limit - 1);
    assert_eq!(rt; high.add_term(1, 2), Ok(()));
    assert_eq!(rt; high.add_term(0, 2), Ok(()));
    assert_eq!(rt; high.add_term(1, 2), Err(PastLimit));
    assert_eq!(rt; high.total(), limit);
}
