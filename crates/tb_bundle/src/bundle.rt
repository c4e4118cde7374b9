// A whole bundle.
ghost use Rattle.std.specs.Prelude.{◌≡◌, ◌∷◌, ◌<◌, ◌≤◌, [], IfOk, MatchResult, None, length};
ghost use Rattle.csv.specs.Records.{fields_of};
ghost use Rattle.tb_detail.specs.Limits.{InLimits};
ghost use Rattle.tb_outside.specs.Limits.{most_input_bytes};
ghost use Rattle.tb_records.specs.Records.{records_of};
ghost use Rattle.tb_case_records.specs.Ahead.{IsOnePast};
ghost use Rattle.tb_case_records.specs.Table.{Refuses};
ghost use Rattle.tb_bundle.specs.Bodies.{IsBody, body_fault};
ghost use Rattle.tb_bundle.specs.Bundles.{Reads, bundle_reading, head_fault, reading_ahead};
ghost use Rattle.tb_bundle.specs.Limits.{BundleInLimits};

use crate::body::{Body, read_body};
use crate::detail::read_detail_part;
use std::alloc::Global;
use tb_case_records::{BundleFault, BundleRefusal, CaseProof, RecordReader, is_exactly};
use tb_detail::{Detail, Items};
use tb_geometry::base_lines;
use tb_places::AxisName;
use tb_reading::read_details_are_in_limits;
use tb_records::NoMemory;

/// A detail, and what is claimed and proved of each of its cases, in order.
#[derive(Debug, Drop, PartialEq)]
pub struct Bundle {
    pub detail: Detail,
    pub cases: Items<CaseProof>,
}

/// The first record is the head of a bundle.
pub fn take_head(reader: &mut RecordReader) -> Result<(), BundleRefusal>
    ensures { MatchResult result
        (λ u. (head_fault reader.old.ahead ≡ None) × IsOnePast reader.old reader.new)
        (λ e. Refuses (head_fault reader.old.ahead) e) }
{
    let Some((number, row)) = reader.current() else {
        return Err(BundleRefusal::Fault(BundleFault::NotFormat(1)));
    };
    if !is_exactly(&[b"bundle".as_slice(), b"1".as_slice()], row) {
        return Err(BundleRefusal::Fault(BundleFault::NotFormat(number)));
    }
    match reader.advance() {
        Ok(()) => Ok(()),
        Err(NoMemory) => Err(BundleRefusal::NoMemory),
    }
}

// The cases of a detail.
fn read_proofs(
    reader: &mut RecordReader,
    alloc: Global,
    detail: &Detail,
) -> Result<Vec<CaseProof>, BundleRefusal>
    requires { InLimits detail.now }
    ensures { MatchResult result
        (λ proofs. IsBody detail.now reader.old.ahead proofs.items)
        (λ e. Refuses (body_fault detail.now reader.old.ahead) e) }
{
    let Ok(x) = base_lines(alloc, AxisName::X, detail.boxes.items()) else {
        return Err(BundleRefusal::NoMemory);
    };
    let Ok(y) = base_lines(alloc, AxisName::Y, detail.boxes.items()) else {
        return Err(BundleRefusal::NoMemory);
    };
    let Ok(z) = base_lines(alloc, AxisName::Z, detail.boxes.items()) else {
        return Err(BundleRefusal::NoMemory);
    };
    let body = Body {
        detail,
        x: &x,
        y: &y,
        z: &z,
    };
    read_body(reader, alloc, body)
}

// The bundle of the records ahead.
fn read_ahead(reader: &mut RecordReader, alloc: Global) -> Result<Bundle, BundleRefusal>
    ensures bundle { Reads result (reading_ahead reader.old) }
    ensures within { IfOk result BundleInLimits }
{
    read_details_are_in_limits();
    if let Err(refusal) = take_head(reader) {
        return Err(refusal);
    }
    let detail = match read_detail_part(reader, alloc) {
        Ok(detail) => detail,
        Err(refusal) => return Err(refusal),
    };
    match read_proofs(reader, alloc, &detail) {
        Ok(proofs) => Ok(Bundle {
            detail,
            cases: Items { items: proofs },
        }),
        Err(refusal) => {
            drop(detail);
            Err(refusal)
        }
    }
}

/// The bundle of a text of at most 256 MiB. It is within the limits of the format; the faults of its detail as a body
/// aren't looked for, and no case is judged.
///
/// `Fault` with the first fault of its records.
pub fn read_bundle(alloc: Global, bytes: &[u8]) -> Result<Bundle, BundleRefusal>
    requires { length bytes.now ≤ most_input_bytes }
    ensures bundle { Reads result (bundle_reading (records_of bytes.now)) }
    ensures within { IfOk result BundleInLimits }
{
    let Ok(mut reader) = RecordReader::new(alloc, bytes) else {
        return Err(BundleRefusal::NoMemory);
    };
    read_ahead(&mut reader, alloc)
}
