// The whole detail.
ghost use Rattle.std.specs.Prelude.{◌≡◌, ℕ, Ok};
ghost use Rattle.tb_outside.specs.Buffers.{Gathers};
ghost use Rattle.tb_outside.specs.Faults.{TellsFaults};
ghost use Rattle.tb_outside.specs.Outside.{Writes};
ghost use Rattle.tb_records.specs.Records.{records_of};
ghost use Rattle.tb_detail.specs.Limits.{InLimits};
ghost use Rattle.tb_reading.specs.Reading.{detail_reading, numbered};
ghost use Rattle.tb_canonical.specs.Canonical.{canonical_text};

use crate::fields::dimension_text;
use crate::laws::canonical_reads_back;
use crate::record::put_record;
use crate::things::put_each;
use tb_detail::Detail;
use tb_outside::{OutputBuffer, Sink, SinkFault};

/// Puts the canonical text of a detail into a buffer, as a part of a larger text.
pub fn put_detail<K: Sink>(buffer: &mut OutputBuffer, sink: &mut K, detail: &Detail)
    requires { InLimits detail.now }
    ensures { Gathers K.holds K.faults sink.old sink.new buffer.old (canonical_text detail.now) buffer.new }
{
    put_record(
        buffer,
        sink,
        b"detail",
        &[b"1", dimension_text(detail.dimension)],
    );
    put_each(buffer, sink, detail, b"", detail.environments.items());
    put_each(buffer, sink, detail, b"", detail.materials.items());
    put_each(buffer, sink, detail, b"", detail.boxes.items());
    put_each(buffer, sink, detail, b"", detail.parts.items());
    put_each(buffer, sink, detail, b"", detail.psis.items());
    put_each(buffer, sink, detail, b"", detail.chis.items());
}

/// Writes the canonical text of a detail. It takes no memory. Where the sink fails, a front of the text was
/// written. The text reads back as the same detail, without a fault.
pub fn write_detail<K: Sink>(detail: &Detail, sink: &mut K) -> Result<(), SinkFault>
    requires { InLimits detail.now }
    ensures writes { Writes (K.holds sink.old) (K.holds sink.new) (canonical_text detail.now) result }
    ensures faults { TellsFaults (K.faults sink.old) (K.faults sink.new) result }
    ensures reads_back { (number first : ℕ)
        → detail_reading number (numbered first (records_of (canonical_text detail.now))) ≡ Ok detail.now }
{
    canonical_reads_back();
    let mut buffer = OutputBuffer::new();
    put_detail(&mut buffer, sink, detail);
    buffer.flush(sink)
}
