// Faults of the detail format.

use thiserror::Error;

/// What is wrong with a record, or with the whole detail.
#[derive(Clone, Copy, Debug, PartialEq, Eq)]
pub enum DetailKind {
    /// There is no record but remarks, or the first that isn't one isn't `detail,1,2` or `detail,1,3`.
    NotFormat,
    /// The first field is the word of no kind of record.
    UnknownKind,
    /// Records of this kind stand only in a detail of the other dimension.
    WrongDimension,
    /// Records of this kind have another number of fields.
    FieldCount,
    /// A name hasn't 1 to 32 bytes, each an ASCII letter, a digit, a space, `_`, `-` or `.`.
    BadName,
    /// The name is there already in its kind.
    NameTwice,
    /// No such name was declared before in its kind.
    UnknownName,
    /// The second environment of a pair is the first.
    SamePair,
    /// The field isn't a number with the places of its quantity.
    BadNumber,
    /// The number is outside the range of its quantity.
    OutOfRange,
    /// An upper coordinate isn't above its lower one, or an upper ψ is below its lower one.
    Reversed,
    /// There is one environment, box, name, layer or term too many.
    TooMany,
    /// A part of the whole detail has no layer.
    EmptyPart,
}

/// The first fault of a detail: the number of its record, its field counted from 1, or 0 where the
/// fault is of the record as a whole, and what it is.
#[derive(Clone, Copy, Debug, PartialEq, Eq)]
pub struct DetailFault {
    pub number: u32,
    pub field: u32,
    pub kind: DetailKind,
}

/// Why a detail wasn't read.
#[derive(Clone, Copy, Debug, PartialEq, Eq, Error)]
pub enum DetailRefusal {
    #[error("the detail is at fault")]
    Fault(DetailFault),
    #[error("memory ran out")]
    NoMemory,
}

// The place of a fault within its record, and what it is.
#[derive(Clone, Copy)]
pub struct FieldFault {
    pub field: u32,
    pub kind: DetailKind,
}
