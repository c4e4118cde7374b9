// A record of given fields.
ghost use Rattle.std.specs.Prelude.{◌≡◌, ◌∷◌, [], map};
ghost use Rattle.csv.specs.Records.{fields_of};
ghost use Rattle.tb_case_records.specs.Table.{Exactly, Taken, same_fields};

use crate::fault::{BundleFault, BundleRefusal, RecordFault};
use crate::reader::RecordReader;
use tb_records::{ByteRecord, NoMemory};

/// Whether a record has these fields.
pub fn is_exactly(words: &[&[u8]], row: &ByteRecord) -> bool
    ensures { result ≡ same_fields (map (λ word. word.now) words.now) (fields_of row.now) }
{
    if row.len() != words.len() {
        return false;
    }
    for (at, word) in words.iter().enumerate() {
        match row.get(at) {
            Some(text) if *word == text => {}
            _ => return false,
        }
    }
    true
}

/// The next record has these fields.
pub fn take_words(reader: &mut RecordReader, words: &[&[u8]]) -> Result<(), BundleRefusal>
    ensures { Taken (Exactly (map (λ word. word.now) words.now) ∷ []) reader.old reader.new result }
{
    let Some((number, row)) = reader.current() else {
        return Err(BundleRefusal::Fault(BundleFault::NoEnd));
    };
    if !is_exactly(words, row) {
        return Err(BundleRefusal::Fault(RecordFault::Shape.placed(number)));
    }
    match reader.advance() {
        Ok(()) => Ok(()),
        Err(NoMemory) => Err(BundleRefusal::NoMemory),
    }
}
