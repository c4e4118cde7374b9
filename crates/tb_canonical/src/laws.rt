//! The canonical text reads back.
ghost use Rattle.std.specs.Prelude.{◌≡◌, ℕ, Ok, true};
ghost use Rattle.std.specs.List.{list_all};
ghost use Rattle.tb_records.specs.Plain.{is_plain_record};
ghost use Rattle.tb_records.specs.Records.{records_of};
ghost use Rattle.tb_detail.specs.Limits.{InLimits};
ghost use Rattle.tb_detail.specs.declared.Detail.{Detail};
ghost use Rattle.tb_reading.specs.Reading.{detail_reading, numbered};
ghost use Rattle.tb_canonical.specs.Canonical.{canonical_rows, canonical_text};

/// The canonical records of a detail are plain, so they are the records of its canonical text; and they read as this
/// detail, without a fault.
///
/// The number of the first record, and the one that is given to a detail without records, don't matter, so they read
/// so inside a larger text too.
pub fn canonical_reads_back()
    ensures plain { (detail : Detail) → InLimits detail
        → list_all is_plain_record (canonical_rows detail) ≡ true }
    ensures text { (detail : Detail) → InLimits detail
        → records_of (canonical_text detail) ≡ canonical_rows detail }
    ensures records { (number first : ℕ) (detail : Detail) → InLimits detail
        → detail_reading number (numbered first (canonical_rows detail)) ≡ Ok detail }
    ensures whole { (number first : ℕ) (detail : Detail) → InLimits detail
        → detail_reading number (numbered first (records_of (canonical_text detail))) ≡ Ok detail }
{}
