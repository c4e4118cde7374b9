// Inverses of the widths along x, made once an end.
ghost use Rattle.std.specs.Prelude.{◌≡◌, ◌+◌, ◌*◌, ◌^◌, ◌<◌, ◌≤◌, length};
ghost use Rattle.tb_rows.specs.Widths.{AreWidths};

use tb_rows::Divisor;

/// The most intervals that an axis of a grid has.
pub const MOST_INTERVALS: usize = 1023;

/// Puts the inverses of a multiple of each width between lines at the front of a list.
pub fn put_inverses(multiple: u64, lines: &[u32], inverses: &mut [u64])
    requires multiple { (0 < multiple) × (multiple ≤ 36 * 10 ^ 9) }
    requires widths { AreWidths lines.now }
    requires room { length lines.now ≤ length inverses.old + 1 }
    ensures { length inverses.new ≡ length inverses.old }
{
    for i in 1..lines.len() {
        let width = lines[i] - lines[i - 1];
        inverses[i - 1] = Divisor::new(multiple * u64::from(width)).inverse();
    }
}
