//! Laws of the records of bytes, for callers that count records, speak of a first field, or write records.
ghost use Rattle.std.specs.Prelude.{◌≡◌, ◌<◌, ◌≤◌, ◌∷◌, ℕ, List, All, IsSome, length, true, false};
ghost use Rattle.std.specs.List.{list_all};
ghost use Rattle.csv.specs.Records.{field_at};
ghost use Rattle.tb_records.specs.Plain.{begins_with_mark, is_plain_record, records_text};
ghost use Rattle.tb_records.specs.Records.{records_of};

/// There are no more records than bytes.
pub fn records_are_few()
    ensures { (bytes : List ℕ) → length (records_of bytes) ≤ length bytes }
{}

/// Each record has a first field.
pub fn records_have_a_field()
    ensures { (bytes : List ℕ) → All (λ row. IsSome (field_at row 0)) (records_of bytes) }
{}

/// Plain records read back from their text. A byte order mark at its start would be dropped, so there is none.
pub fn plain_records_read_back()
    ensures { (rows : List (List (List ℕ)))
        → list_all is_plain_record rows ≡ true
        → begins_with_mark (records_text rows) ≡ false
        → records_of (records_text rows) ≡ rows }
{}

/// A text whose first record begins with an ASCII character doesn't begin with a byte order mark.
pub fn ascii_is_no_mark()
    ensures { (first : ℕ) (word : List ℕ) (fields : List (List ℕ)) (rows : List (List (List ℕ))) → first < 128
        → begins_with_mark (records_text (((first ∷ word) ∷ fields) ∷ rows)) ≡ false }
{}
