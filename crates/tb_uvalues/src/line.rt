// The line of a part.
ghost use Rattle.tb_detail.specs.declared.Part.{Part};
ghost use Rattle.tb_outside.specs.Buffers.{Gathers};
ghost use Rattle.tb_uvalues.specs.Texts.{line};

use tb_detail::Part;
use tb_numbers::{Down, Rounding, Up, fixed};
use tb_outside::{OutputBuffer, Sink};
use tb_planar::PlanarU;

// So many fW/(m²·K) are 10⁻⁶ W/(m²·K), the last place that is printed.
const LAST_PLACE: i128 = 1_000_000_000;

/// Puts the name of a part, both ends of its transmittance in W/(m²·K), and how much it may be wrong by the method.
pub(crate) fn put_line<K: Sink>(
    buffer: &mut OutputBuffer,
    sink: &mut K,
    part: &Part,
    value: PlanarU,
)
    ensures { Gathers K.holds K.faults sink.old sink.new buffer.old (line part.now value) buffer.new }
{
    let lo = fixed(Down::div(value.u.lo, LAST_PLACE), 6);
    let hi = fixed(Up::div(value.u.hi, LAST_PLACE), 6);
    let error = fixed(value.error, 4);
    buffer.put_pieces(
        sink,
        &[
            b"U,",
            part.name.bytes(),
            b",",
            lo.as_bytes(),
            b",",
            hi.as_bytes(),
            b",",
            error.as_bytes(),
            b"\n",
        ],
    );
}
