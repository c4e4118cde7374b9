// The ends of an interval as they are printed.
ghost use Rattle.tb_outside.specs.Buffers.{Gathers};
ghost use Rattle.tb_report.specs.Ends.{ends_text};

use tb_numbers::{Down, Rounding, Up, fixed};
use tb_outside::{OutputBuffer, Sink};
use tb_terms::Interval;

// So many fW/K are 10⁻⁶ W/K, the last place that is printed.
const LAST_PLACE: i128 = 1_000_000_000;

/// Puts both ends, each behind a comma: the lower one rounded down, the upper one up.
pub(crate) fn put_ends<K: Sink>(buffer: &mut OutputBuffer, sink: &mut K, value: Interval)
    ensures { Gathers K.holds K.faults sink.old sink.new buffer.old (ends_text value) buffer.new }
{
    let lo = fixed(Down::div(value.lo, LAST_PLACE), 6);
    let hi = fixed(Up::div(value.hi, LAST_PLACE), 6);
    buffer.put_pieces(sink, &[b",", lo.as_bytes(), b",", hi.as_bytes()]);
}
