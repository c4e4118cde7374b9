// A part that is refused.
ghost use Rattle.tb_uvalues.specs.Texts.{fault_text};

use tb_detail::Name;
use tb_outside::{OutputBuffer, Sink, Text};

/// The part of this name is the first of its detail whose upper limit of the resistance is certainly above 1.5 times
/// the lower one.
#[derive(Debug, Drop)]
pub struct UValueFault {
    pub part: Name,
}

/// Why there are no U-values.
#[derive(Debug, Drop)]
pub enum UValueRefusal {
    Fault(UValueFault),
    /// Memory ran out.
    NoMemory,
}

/// One line: `refused`, what is wrong, and the part.
impl Text for UValueFault {
    ghost text = { fault_text };

    fn put<K: Sink>(&self, buffer: &mut OutputBuffer, sink: &mut K) {
        buffer.put_pieces(
            sink,
            &[b"refused,RatioAbove,part ", self.part.bytes(), b"\n"],
        );
    }
}
