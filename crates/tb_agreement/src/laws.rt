//! Laws of bundles that are checked and written.
ghost use Rattle.std.specs.Prelude.{◌≡◌, ◌⊎◌, ◌↔◌, List, Result, Some, None, Ok, Err};
ghost use Rattle.tb_records.specs.Records.{records_of};
ghost use Rattle.tb_reading.specs.Records.{Row};
ghost use Rattle.tb_bundle.specs.declared.bundle.Bundle.{Bundle};
ghost use Rattle.tb_bundle.specs.Bundles.{bundle_reading};
ghost use Rattle.tb_bundle_text.specs.Canonical.{bundle_text};
ghost use Rattle.tb_checker.specs.declared.fault.CheckFault.{CheckFault};
ghost use Rattle.tb_checker.specs.declared.fault.CheckRefusal.{CheckRefusal};
ghost use Rattle.tb_checker.specs.declared.fault.CheckRefusal.TheVariants.{Fault, NoMemory};
ghost use Rattle.tb_checker.specs.Contents.{AreCertified};
ghost use Rattle.tb_checker.specs.Faults.{Answers, FirstFault};

/// Records have no fault exactly where they read as a certified bundle.
pub fn faultless_records_are_certified_bundles()
    ensures { (rows : List Row) → FirstFault rows None ↔ ((bundle : Bundle) × (bundle_reading rows ≡ Ok bundle) × AreCertified bundle) }
{}

/// Records have one first fault at most, and none where they have no fault. So the checker has one answer, except for
/// want of memory.
pub fn first_faults_are_one()
    ensures one { (rows : List Row) (fault other : CheckFault) → FirstFault rows (Some fault) → FirstFault rows (Some other)
        → fault ≡ other }
    ensures none { (rows : List Row) (fault : CheckFault) → FirstFault rows None → ¬ FirstFault rows (Some fault) }
    ensures refused { (rows : List Row) (fault : CheckFault) (result : Result Bundle CheckRefusal) → FirstFault rows (Some fault)
        → Answers rows result → (result ≡ Err (Fault fault)) ⊎ (result ≡ Err NoMemory) }
{}

/// The canonical text of a certified bundle has no fault, and reads as this bundle. So what the checker accepted is
/// accepted again once it is written, except for want of memory. That the text is no longer than an input may be isn't
/// said.
pub fn checked_bundles_are_written_without_fault()
    ensures faultless { (bundle : Bundle) → AreCertified bundle → FirstFault (records_of (bundle_text bundle)) None }
    ensures same { (bundle : Bundle) → AreCertified bundle → bundle_reading (records_of (bundle_text bundle)) ≡ Ok bundle }
    ensures accepted { (bundle : Bundle) (result : Result Bundle CheckRefusal) → AreCertified bundle
        → Answers (records_of (bundle_text bundle)) result → (result ≡ Ok bundle) ⊎ (result ≡ Err NoMemory) }
{}
