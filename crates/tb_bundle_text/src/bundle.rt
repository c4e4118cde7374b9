// A whole bundle.
ghost use Rattle.std.specs.Prelude.{◌≡◌, All, Ok};
ghost use Rattle.std.specs.List.{flat_map};
ghost use Rattle.tb_outside.specs.Buffers.{Gathers};
ghost use Rattle.tb_outside.specs.Faults.{TellsFaults};
ghost use Rattle.tb_outside.specs.Outside.{Writes};
ghost use Rattle.tb_records.specs.Plain.{records_text};
ghost use Rattle.tb_records.specs.Records.{records_of};
ghost use Rattle.tb_bundle.specs.Bundles.{bundle_reading};
ghost use Rattle.tb_bundle.specs.Limits.{BundleInLimits};
ghost use Rattle.tb_bundle_text.specs.Canonical.{bundle_text, case_rows};
ghost use Rattle.tb_bundle_text.specs.Writing.{HasAllValues};

use crate::case::put_case;
use crate::laws::written_bundles_read_back;
use tb_bundle::Bundle;
use tb_canonical::{put_detail, put_record};
use tb_case_records::CaseProof;
use tb_detail::Environment;
use tb_outside::{OutputBuffer, Sink, SinkFault, Text, write_text};

// Puts the records of cases, one behind the other.
fn put_cases<K: Sink>(
    buffer: &mut OutputBuffer,
    sink: &mut K,
    environments: &[Environment],
    cases: &[CaseProof],
)
    requires { All HasAllValues cases.now }
    ensures { Gathers K.holds K.faults sink.old sink.new buffer.old
        (flat_map (λ case. records_text (case_rows environments.now case)) cases.now) buffer.new }
{
    for case in cases {
        put_case(buffer, sink, environments, case);
    }
}

/// Puts the canonical text of a bundle into a buffer, as a part of a larger text.
pub fn put_bundle<K: Sink>(buffer: &mut OutputBuffer, sink: &mut K, bundle: &Bundle)
    requires { BundleInLimits bundle.now }
    ensures { Gathers K.holds K.faults sink.old sink.new buffer.old (bundle_text bundle.now) buffer.new }
{
    put_record(buffer, sink, b"bundle", &[b"1"]);
    put_detail(buffer, sink, &bundle.detail);
    put_cases(
        buffer,
        sink,
        bundle.detail.environments.items(),
        bundle.cases.items(),
    );
    put_record(buffer, sink, b"end", &[]);
}

/// The canonical text of a bundle within limits.
#[derive(Clone, Copy)]
pub struct BundleText<'a> {
    pub bundle: &'a Bundle,
}

impl Text for BundleText<'_> {
    ghost text = { λ t. bundle_text t.bundle.now };

    ghost has_text = { λ t. BundleInLimits t.bundle.now };

    fn put<K: Sink>(&self, buffer: &mut OutputBuffer, sink: &mut K) {
        put_bundle(buffer, sink, self.bundle);
    }
}

/// Writes the canonical text of a bundle within the limits of the format. It takes no memory. Where the sink fails, a
/// front of the text was written. The text reads back as the same bundle, without a fault.
pub fn write_bundle<K: Sink>(bundle: &Bundle, sink: &mut K) -> Result<(), SinkFault>
    requires { BundleInLimits bundle.now }
    ensures writes { Writes (K.holds sink.old) (K.holds sink.new) (bundle_text bundle.now) result }
    ensures faults { TellsFaults (K.faults sink.old) (K.faults sink.new) result }
    ensures reads_back { bundle_reading (records_of (bundle_text bundle.now)) ≡ Ok bundle.now }
{
    written_bundles_read_back();
    write_text(&BundleText { bundle }, sink)
}
