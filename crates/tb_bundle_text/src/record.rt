// Records of a word and numbers.
ghost use Rattle.std.specs.Prelude.{◌≡◌, ◌∷◌, List, ℕ, map};
ghost use Rattle.tb_outside.specs.Buffers.{Gathers};
ghost use Rattle.tb_records.specs.Plain.{record_text};
ghost use Rattle.tb_bundle_text.specs.Canonical.{line_text, value_text};

use tb_numbers::{NumberText, decimal, signed_decimal};
use tb_outside::{OutputBuffer, Sink};

/// A number that is written as a field of a record.
pub trait WrittenNumber {
    // Its text.
    ghost text: { Self → List ℕ };

    fn text(&self) -> NumberText
        ensures { result ≡ text self.now };
}

/// A line, in 0.1 mm.
impl WrittenNumber for u32 {
    ghost text = { line_text };

    fn text(&self) -> NumberText {
        decimal(u64::from(*self), 1)
    }
}

/// A value at a node or at a face.
impl WrittenNumber for i64 {
    ghost text = { value_text };

    fn text(&self) -> NumberText {
        signed_decimal(*self, 0)
    }
}

/// Puts the record of a word and numbers.
pub fn put_numbers<T: WrittenNumber, K: Sink>(
    buffer: &mut OutputBuffer,
    sink: &mut K,
    word: &[u8],
    numbers: &[T],
)
    ensures { Gathers K.holds K.faults sink.old sink.new buffer.old
        (record_text (word.now ∷ map T.text numbers.now)) buffer.new }
{
    buffer.put(sink, word);
    for number in numbers {
        let text = number.text();
        buffer.put_pieces(sink, &[b",", text.as_bytes()]);
    }
    buffer.put(sink, b"\n");
}
