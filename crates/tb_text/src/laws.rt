//! What joins reading and writing.
ghost use Rattle.std.specs.Prelude.{◌≡◌, ℕ, List, Ok};
ghost use Rattle.tb_detail.specs.Limits.{InLimits};
ghost use Rattle.tb_detail.specs.declared.Detail.{Detail};
ghost use Rattle.tb_records.specs.Records.{records_of};
ghost use Rattle.tb_reading.specs.Reading.{detail_reading, numbered};
ghost use Rattle.tb_canonical.specs.Canonical.{canonical_text};

use tb_canonical::canonical_reads_back;
use tb_reading::read_details_are_in_limits;

/// The canonical text of a detail within limits reads as this detail: nothing is lost in writing.
pub fn written_details_read_back()
    ensures { (detail : Detail) → InLimits detail
        → detail_reading 1 (numbered 1 (records_of (canonical_text detail))) ≡ Ok detail }
{
    canonical_reads_back();
}

/// A detail that was read from any text, in whatever order and form its records stood there, can be written, and its
/// canonical text reads as the same detail.
pub fn read_details_are_written()
    ensures limits { (bytes : List ℕ) (detail : Detail)
        → detail_reading 1 (numbered 1 (records_of bytes)) ≡ Ok detail → InLimits detail }
    ensures same { (bytes : List ℕ) (detail : Detail)
        → detail_reading 1 (numbered 1 (records_of bytes)) ≡ Ok detail
        → detail_reading 1 (numbered 1 (records_of (canonical_text detail))) ≡ Ok detail }
{
    canonical_reads_back();
    read_details_are_in_limits();
}
