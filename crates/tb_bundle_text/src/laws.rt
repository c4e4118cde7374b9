//! What is written reads back: rows of values, the lines of an axis, the records of cases, a whole bundle.
ghost use Rattle.std.specs.Prelude.{◌≡◌, ◌++◌, ◌*◌, ◌-◌, ◌≤◌, ℕ, ℤ, List, None, Ok, drop, length, true};
ghost use Rattle.std.specs.List.{flat_map, list_all};
ghost use Rattle.tb_places.specs.declared.AxisName.{AxisName};
ghost use Rattle.tb_detail.specs.declared.Detail.{Detail};
ghost use Rattle.tb_detail.specs.Limits.{InLimits};
ghost use Rattle.tb_grid.specs.Axis.{IsAxis};
ghost use Rattle.tb_grid.specs.Grid.{most_cells};
ghost use Rattle.tb_records.specs.Plain.{is_plain_record};
ghost use Rattle.tb_records.specs.Records.{records_of};
ghost use Rattle.tb_reading.specs.Reading.{Numbered, numbered};
ghost use Rattle.tb_case_records.specs.declared.case.CaseProof.{CaseProof};
ghost use Rattle.tb_case_records.specs.Ahead.{row_numbers};
ghost use Rattle.tb_case_records.specs.Limits.{AreValuesOf, IsFaceValue, IsNodeValue, IsOnBase};
ghost use Rattle.tb_case_records.specs.Rows.{face_reading, node_reading, numbers};
ghost use Rattle.tb_case_records.specs.Table.{axis_fault, face_rows, first_fault, last_of, line_reading, node_rows};
ghost use Rattle.tb_bundle.specs.declared.bundle.Bundle.{Bundle};
ghost use Rattle.tb_bundle.specs.Bodies.{case_forms, cases_of, cases_table};
ghost use Rattle.tb_bundle.specs.Bundles.{bundle_reading};
ghost use Rattle.tb_bundle.specs.Limits.{BundleInLimits, CasesInLimits};
ghost use Rattle.tb_bundle_text.specs.Canonical.{axis_row, bundle_rows, bundle_text, case_rows, value_rows, values_in};

/// The rows of a field and of a flux have no fault, and their numbers are the values, whatever stands behind them.
pub fn written_values_read_back()
    ensures nodes { (x y z : ℕ) (values : List ℤ) (number : ℕ) (more : List Numbered) → let rows = node_rows x y z in
        AreValuesOf IsNodeValue (values_in rows) values
        → first_fault rows (numbered number (value_rows rows values) ++ more) ≡ None }
    ensures node_values { (x y z : ℕ) (values : List ℤ) (number : ℕ) (more : List Numbered) → let rows = node_rows x y z in
        AreValuesOf IsNodeValue (values_in rows) values
        → row_numbers node_reading (length rows) (numbered number (value_rows rows values) ++ more) ≡ values }
    ensures faces { (x y z : ℕ) (values : List ℤ) (number : ℕ) (more : List Numbered) → let rows = face_rows x y z in
        AreValuesOf IsFaceValue (values_in rows) values
        → first_fault rows (numbered number (value_rows rows values) ++ more) ≡ None }
    ensures face_values { (x y z : ℕ) (values : List ℤ) (number : ℕ) (more : List Numbered) → let rows = face_rows x y z in
        AreValuesOf IsFaceValue (values_in rows) values
        → row_numbers face_reading (length rows) (numbered number (value_rows rows values) ++ more) ≡ values }
{}

/// The record of the lines of an axis has no fault where they carry the base lines, and its lines are those.
pub fn written_axes_read_back()
    ensures faultless { (case : ℕ) (axis : AxisName) (base : List ℕ) (cells : ℕ) (lines : List ℕ)
        → IsAxis lines → IsOnBase base lines → last_of base ≤ 500000 → cells * (length lines - 1) ≤ most_cells
        → axis_fault case axis base cells (axis_row axis lines) ≡ None }
    ensures lines { (axis : AxisName) (base lines : List ℕ) → IsAxis lines → IsOnBase base lines → last_of base ≤ 500000
        → numbers line_reading (drop 1 (axis_row axis lines)) ≡ lines }
{}

/// The records of the cases of a detail have no fault, and say these cases, whatever stands behind them.
pub fn written_cases_read_back()
    ensures faultless { (d : Detail) (cases : List CaseProof) (number : ℕ) (more : List Numbered)
        → InLimits d → CasesInLimits (case_forms d) cases
        → let given = numbered number (flat_map (case_rows d.environments) cases) ++ more in
        first_fault (cases_table (case_forms d) given) given ≡ None }
    ensures cases { (d : Detail) (cases : List CaseProof) (number : ℕ) (more : List Numbered)
        → InLimits d → CasesInLimits (case_forms d) cases
        → cases_of (case_forms d) (numbered number (flat_map (case_rows d.environments) cases) ++ more) ≡ cases }
{}

/// The canonical records of a bundle within limits are plain, so they are the records of its canonical text; and they
/// read as this bundle, without a fault.
pub fn written_bundles_read_back()
    ensures plain { (bundle : Bundle) → BundleInLimits bundle → list_all is_plain_record (bundle_rows bundle) ≡ true }
    ensures text { (bundle : Bundle) → BundleInLimits bundle → records_of (bundle_text bundle) ≡ bundle_rows bundle }
    ensures records { (bundle : Bundle) → BundleInLimits bundle → bundle_reading (bundle_rows bundle) ≡ Ok bundle }
    ensures whole { (bundle : Bundle) → BundleInLimits bundle → bundle_reading (records_of (bundle_text bundle)) ≡ Ok bundle }
{}

/// A bundle that was read from any text can be written, and its canonical text reads as the same bundle.
pub fn read_bundles_are_written()
    ensures limits { (bytes : List ℕ) (bundle : Bundle) → bundle_reading (records_of bytes) ≡ Ok bundle → BundleInLimits bundle }
    ensures same { (bytes : List ℕ) (bundle : Bundle) → bundle_reading (records_of bytes) ≡ Ok bundle
        → bundle_reading (records_of (bundle_text bundle)) ≡ Ok bundle }
{}
