// The records behind the detail of a bundle.
ghost use Rattle.std.specs.Prelude.{◌≡◌, ◌∷◌, ◌++◌, [], None, ◌<◌, ◌≤◌, IfOk, MatchResult, codes, length, map, ◌-◌, replicate};
ghost use Rattle.tb_geometry.specs.Cases.{case_masks};
ghost use Rattle.tb_case_records.specs.Table.{IsPast, Never, Refuses, Stops};
ghost use Rattle.tb_bundle.specs.Bodies.{AreCases, HasBaseLines, IsBody, body_fault, case_forms, case_forms_from, case_form, cases_of, cases_table, end_fault, end_table, extra_fault, names_of_set};
ghost use Rattle.tb_case_records.specs.Cases.{ReadsCase};

use std::alloc::Global;
use tb_case_records::{
    BundleFault, BundleRefusal, CaseProof, CaseShape, RecordReader, read_case, take_words,
};
use tb_detail::Detail;
use tb_geometry::{Case, CaseList, cases};
use tb_records::NoMemory;

/// A detail and the base lines of its boxes.
#[derive(Clone, Copy)]
pub struct Body<'a> {
    pub detail: &'a Detail,
    pub x: &'a [u32],
    pub y: &'a [u32],
    pub z: &'a [u32],
}

// The fields of the first record of the case of this set.
fn case_words<'a>(alloc: Global, detail: &'a Detail, mask: u8) -> Result<Vec<&'a [u8]>, NoMemory>
    ensures { IfOk result (λ words. map (λ word. word.now) words.items ≡ codes "case" ∷ names_of_set mask detail.entry.now.environments) }
{
    let mut words: Vec<&'a [u8]> = Vec::new(alloc);
    let Ok(_) = words.push(b"case") else {
        return Err(NoMemory);
    };
    let mut left = mask;
    for environment in detail.environments.items() {
        if left % 2 == 1 {
            let Ok(_) = words.push(environment.name.bytes()) else {
                return Err(NoMemory);
            };
        }
        left /= 2;
    }
    Ok(words)
}

/// The next records are those of the case of this number and this set of environments.
pub fn read_one(
    reader: &mut RecordReader,
    alloc: Global,
    body: Body,
    number: u8,
    mask: u8,
) -> Result<CaseProof, BundleRefusal>
    requires bases { HasBaseLines body }
    ensures { ReadsCase (case_form body.entry.detail.now number mask) reader.old reader.new result }
{
    let Ok(words) = case_words(alloc, body.detail, mask) else {
        return Err(BundleRefusal::NoMemory);
    };
    let shape = CaseShape {
        number,
        case: Case { mask },
        words: &words,
        x: body.x,
        y: body.y,
        z: body.z,
    };
    read_case(reader, alloc, shape)
}

/// The next records are those of cases with these sets of environments.
pub fn read_cases(
    reader: &mut RecordReader,
    alloc: Global,
    body: Body,
    masks: &[u8],
) -> Result<Vec<CaseProof>, BundleRefusal>
    requires bases { HasBaseLines body }
    requires few { length masks.now ≤ 7 }
    ensures { let forms = case_forms_from body.entry.detail.now 1 masks.now in
        MatchResult result (λ cases. AreCases forms reader.old reader.new cases.items) (λ e. Stops (cases_table forms reader.old.ahead) reader.old e) }
{
    let mut proofs = Vec::new(alloc);
    for (at, mask) in masks.iter().enumerate() {
        match read_one(reader, alloc, body, at as u8 + 1, *mask) {
            Ok(proof) => {
                let Ok(_) = proofs.push(proof) else {
                    return Err(BundleRefusal::NoMemory);
                };
            }
            Err(refusal) => return Err(refusal),
        }
    }
    Ok(proofs)
}

/// The sets of environments of the cases.
pub fn masks_of(list: &CaseList, environments: u8) -> &[u8]
    requires count { list.now.count ≡ length (case_masks environments) }
    requires masks { list.now.masks ≡ case_masks environments ++ replicate (7 - list.now.count) 0 }
    ensures masks { result.now ≡ case_masks environments }
    ensures few { length result.now ≤ 7 }
{
    &list.masks[..usize::from(list.count)]
}

// Nothing stands behind the end.
fn nothing_more(reader: &RecordReader) -> Result<(), BundleRefusal>
    ensures { MatchResult result (λ u. extra_fault reader.now.ahead ≡ None) (λ e. Refuses (extra_fault reader.now.ahead) e) }
{
    match reader.current() {
        None => Ok(()),
        Some((number, _)) => Err(BundleRefusal::Fault(BundleFault::Shape(number))),
    }
}

// Cases with these sets of environments, and the end behind them.
fn read_to_end(
    reader: &mut RecordReader,
    alloc: Global,
    body: Body,
    masks: &[u8],
) -> Result<Vec<CaseProof>, BundleRefusal>
    requires bases { HasBaseLines body }
    requires few { length masks.now ≤ 7 }
    ensures { let forms = case_forms_from body.entry.detail.now 1 masks.now in
        let table = cases_table forms reader.old.ahead ++ end_table in
        MatchResult result (λ proofs. IsPast table reader.old reader.new × (proofs.items ≡ cases_of forms reader.old.ahead)) (λ e. Stops table reader.old e) }
{
    let proofs = match read_cases(reader, alloc, body, masks) {
        Ok(proofs) => proofs,
        Err(refusal) => return Err(refusal),
    };
    match take_words(reader, &[b"end"]) {
        Ok(()) => Ok(proofs),
        Err(refusal) => Err(refusal),
    }
}

/// The next record is the end, and nothing stands behind it.
pub fn take_end(reader: &mut RecordReader) -> Result<(), BundleRefusal>
    ensures { MatchResult result (λ u. end_fault reader.old.ahead ≡ None) (λ e. Refuses (end_fault reader.old.ahead) e) }
{
    match take_words(reader, &[b"end"]) {
        Ok(()) => nothing_more(reader),
        Err(refusal) => Err(refusal),
    }
}

// No record is right in a detail with fewer than two environments.
fn no_case(reader: &RecordReader) -> BundleRefusal
    ensures { Stops (Never ∷ []) reader.now result }
{
    match reader.current() {
        None => BundleRefusal::Fault(BundleFault::NoEnd),
        Some((number, _)) => BundleRefusal::Fault(BundleFault::Shape(number)),
    }
}

/// The records behind the detail: its cases in order, and the end.
pub fn read_body(
    reader: &mut RecordReader,
    alloc: Global,
    body: Body,
) -> Result<Vec<CaseProof>, BundleRefusal>
    requires bases { HasBaseLines body }
    requires environments { length body.detail.now.environments ≤ 4 }
    ensures { let d = body.entry.detail.now in
        MatchResult result (λ proofs. IsBody d reader.old.ahead proofs.items) (λ e. Refuses (body_fault d reader.old.ahead) e) }
{
    let count = body.detail.environments.items().len();
    if count < 2 {
        return Err(no_case(reader));
    }
    let list = cases(count as u8);
    let proofs = match read_to_end(reader, alloc, body, masks_of(&list, count as u8)) {
        Ok(proofs) => proofs,
        Err(refusal) => return Err(refusal),
    };
    match nothing_more(reader) {
        Ok(()) => Ok(proofs),
        Err(refusal) => Err(refusal),
    }
}
