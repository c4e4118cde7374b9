// Laws of the reading of numbered records.
ghost use Rattle.std.specs.Prelude.{◌≡◌, ◌++◌, ℕ, List, None, Some, Ok, Err};
ghost use Rattle.tb_detail.specs.Limits.{InLimits};
ghost use Rattle.tb_detail.specs.declared.Detail.{Detail};
ghost use Rattle.tb_reading.specs.Details.{head_of};
ghost use Rattle.tb_reading.specs.Reading.{Numbered, detail_reading, first_record_fault, rows_of, whole_fault};
ghost use Rattle.tb_reading.specs.Records.{Row};
ghost use Rattle.tb_reading.specs.declared.fault.DetailFault.{DetailFault};
ghost use Rattle.tb_reading.specs.declared.fault.DetailKind.TheVariants.{NotFormat};

/// The number that a caller gives to the fault of a detail with no record but remarks counts only there.
pub fn number_of_no_record()
    ensures none { (number : ℕ) (given : List Numbered) → head_of (rows_of given) ≡ None
        → first_record_fault given ≡ None
        → detail_reading number given ≡ Err (whole_fault NotFormat number) }
    ensures some { (number other : ℕ) (given : List Numbered) (head : Row) → head_of (rows_of given) ≡ Some head
        → detail_reading number given ≡ detail_reading other given }
{}

/// The first fault of records is the first fault of any list that goes on from them.
pub fn refusals_stay()
    ensures stays { (given more : List Numbered) (fault : DetailFault) → first_record_fault given ≡ Some fault
        → first_record_fault (given ++ more) ≡ Some fault }
    ensures refused { (number : ℕ) (given : List Numbered) (fault : DetailFault)
        → first_record_fault given ≡ Some fault → detail_reading number given ≡ Err fault }
{}

/// A detail that was read is within limits.
pub fn read_details_are_in_limits()
    ensures { (number : ℕ) (given : List Numbered) (detail : Detail) → detail_reading number given ≡ Ok detail
        → InLimits detail }
{}
