// The check of a bundle: each case is judged as soon as it was read.
ghost use Rattle.std.specs.Prelude.{◌≡◌, ◌<◌, ◌≤◌, IfOk, MatchResult, Ok, Option, length};
ghost use Rattle.tb_detail.specs.Limits.{InLimits};
ghost use Rattle.tb_outside.specs.Limits.{most_input_bytes};
ghost use Rattle.tb_records.specs.Records.{records_of};
ghost use Rattle.tb_case_records.specs.declared.fault.BundleFault.{BundleFault};
ghost use Rattle.tb_case_records.specs.Table.{Refuses};
ghost use Rattle.tb_bundle.specs.Bodies.{HasBaseLines, case_form, case_forms_from};
ghost use Rattle.tb_checker.specs.Contents.{AreCertified};
ghost use Rattle.tb_checker.specs.Faults.{Answers, AnswersAhead, AreFaultless, Finds, IsFaultless, IsFaultlessBody, IsFaultlessDetail, OfBody, OfCases, OfDetail, OfOne, Records};

use crate::checked::Checked;
use crate::fault::{CheckFault, CheckRefusal};
use crate::judge::judge;
use std::alloc::Global;
use tb_bundle::{
    Body as Lines, Bundle, BundleRefusal, CaseProof, masks_of, read_detail_part, read_one,
    take_end, take_head,
};
use tb_case_records::RecordReader;
use tb_detail::{Detail, Items};
use tb_geometry::{Body, BodyRefusal, cases};
use tb_places::AxisName;
use tb_reading::read_details_are_in_limits;

// The refusal of a bundle whose records were refused.
fn refusal_of(refusal: BundleRefusal) -> CheckRefusal
    ensures { (o : Option BundleFault) → Refuses o refusal → Finds (Records o) result }
{
    match refusal {
        BundleRefusal::Fault(fault) => CheckRefusal::Fault(CheckFault::Bundle(fault)),
        BundleRefusal::NoMemory => CheckRefusal::NoMemory,
    }
}

// The next case, once it was judged.
fn read_judged(
    reader: &mut RecordReader,
    alloc: Global,
    lines: Lines,
    body: &Body,
    number: u8,
    mask: u8,
) -> Result<CaseProof, CheckRefusal>
    requires bases { HasBaseLines lines }
    requires same { body.now ≡ lines.detail.now }
    requires limits { InLimits body.now }
    ensures { let f = case_form body.entry.now number mask in
        MatchResult result (λ proof. IsFaultless body.entry.now f reader.old reader.new proof)
        (λ e. Finds (OfOne body.entry.now f reader.old.ahead) e) }
{
    let proof = match read_one(reader, alloc, lines, number, mask) {
        Ok(proof) => proof,
        Err(refusal) => return Err(refusal_of(refusal)),
    };
    match judge(body, number, &proof) {
        None => Ok(proof),
        Some(fault) => {
            drop(proof);
            Err(CheckRefusal::Fault(fault))
        }
    }
}

// Cases with these sets of environments, each judged before the next is read.
fn read_judged_cases(
    reader: &mut RecordReader,
    alloc: Global,
    lines: Lines,
    body: &Body,
    masks: &[u8],
) -> Result<Vec<CaseProof>, CheckRefusal>
    requires bases { HasBaseLines lines }
    requires same { body.now ≡ lines.detail.now }
    requires limits { InLimits body.now }
    requires few { length masks.now ≤ 7 }
    ensures { let d = body.entry.now in let forms = case_forms_from d 1 masks.now in
        MatchResult result (λ proofs. AreFaultless d forms reader.old reader.new proofs.items)
        (λ e. Finds (OfCases d forms reader.old.ahead) e) }
{
    let mut proofs = Vec::new(alloc);
    for (at, mask) in masks.iter().enumerate() {
        match read_judged(reader, alloc, lines, body, at as u8 + 1, *mask) {
            Ok(proof) => {
                let Ok(_) = proofs.push(proof) else {
                    return Err(CheckRefusal::NoMemory);
                };
            }
            Err(refusal) => return Err(refusal),
        }
    }
    Ok(proofs)
}

// The records behind a detail whose body is accepted: its cases, and the end.
fn read_judged_body(
    reader: &mut RecordReader,
    alloc: Global,
    detail: &Detail,
    body: &Body,
) -> Result<Vec<CaseProof>, CheckRefusal>
    requires { body.now ≡ detail.now }
    ensures { let d = body.entry.now in
        MatchResult result (λ proofs. IsFaultlessBody d reader.old.ahead proofs.items) (λ e. Finds (OfBody d reader.old.ahead) e) }
{
    let base = body.base();
    let lines = Lines {
        detail,
        x: base.axis(AxisName::X).lines(),
        y: base.axis(AxisName::Y).lines(),
        z: base.axis(AxisName::Z).lines(),
    };
    let count = body.environments();
    let list = cases(count);
    let proofs = match read_judged_cases(reader, alloc, lines, body, masks_of(&list, count)) {
        Ok(proofs) => proofs,
        Err(refusal) => return Err(refusal),
    };
    match take_end(reader) {
        Ok(()) => Ok(proofs),
        Err(refusal) => {
            drop(proofs);
            Err(refusal_of(refusal))
        }
    }
}

// The body of a detail, and the records behind it.
fn read_judged_detail(
    reader: &mut RecordReader,
    alloc: Global,
    detail: &Detail,
) -> Result<Vec<CaseProof>, CheckRefusal>
    requires { InLimits detail.now }
    ensures { let d = detail.now in
        MatchResult result (λ proofs. IsFaultlessDetail d reader.old.ahead proofs.items) (λ e. Finds (OfDetail reader.old.ahead (Ok d)) e) }
{
    let body = match Body::new(alloc, detail) {
        Ok(body) => body,
        Err(BodyRefusal::Fault(fault)) => return Err(CheckRefusal::Fault(CheckFault::Body(fault))),
        Err(BodyRefusal::NoMemory) => return Err(CheckRefusal::NoMemory),
    };
    let proofs = read_judged_body(reader, alloc, detail, &body);
    drop(body);
    proofs
}

// The bundle of the records ahead.
fn check_ahead(reader: &mut RecordReader, alloc: Global) -> Result<Checked, CheckRefusal>
    ensures { AnswersAhead reader.old result }
{
    read_details_are_in_limits();
    if let Err(refusal) = take_head(reader) {
        return Err(refusal_of(refusal));
    }
    let detail = match read_detail_part(reader, alloc) {
        Ok(detail) => detail,
        Err(refusal) => return Err(refusal_of(refusal)),
    };
    match read_judged_detail(reader, alloc, &detail) {
        Ok(proofs) => Ok(Checked::new(Bundle {
            detail,
            cases: Items { items: proofs },
        })),
        Err(refusal) => {
            drop(detail);
            Err(refusal)
        }
    }
}

/// Checks a bundle of at most 256 MiB: its detail is a body, and of each of its cases the flux is balanced, the interval
/// is that of the field and the flux, and the verdict says whether that is narrow enough. The text is read once, and each
/// case is judged as soon as it was read.
///
/// # Errors
/// `Fault` with its first fault: of its head, of its detail, of that as a body, of its cases in order, each by its records
/// and then by what they say, of the end. `NoMemory` may come at any time.
pub fn check(alloc: Global, bytes: &[u8]) -> Result<Checked, CheckRefusal>
    requires { length bytes.now ≤ most_input_bytes }
    ensures answers { Answers (records_of bytes.now) result }
    ensures certified { IfOk result AreCertified }
{
    let Ok(mut reader) = RecordReader::new(alloc, bytes) else {
        return Err(CheckRefusal::NoMemory);
    };
    check_ahead(&mut reader, alloc)
}
