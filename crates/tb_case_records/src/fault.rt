// Faults of the bundle format.
ghost use Rattle.std.specs.Prelude.{◌≡◌};
ghost use Rattle.tb_case_records.specs.Faults.{placed};

use tb_places::AxisName;
use tb_reading::DetailFault;
use thiserror::Error;

/// A field of a record, both counted from 1.
#[derive(Clone, Copy, Debug, PartialEq, Eq)]
pub struct RecordPlace {
    pub number: u32,
    pub field: u32,
}

/// A fault of the records of a bundle. Records are counted from 1, remarks too.
#[derive(Clone, Copy, Debug, PartialEq, Eq)]
pub enum BundleFault {
    /// The record of this number, the first that isn't a remark, isn't `bundle,1`; 1 where there is none.
    NotFormat(u32),
    /// The first fault of the detail.
    Detail(DetailFault),
    /// The bundle ends where a record is awaited.
    NoEnd,
    /// The record of this number isn't of the awaited kind and form.
    Shape(u32),
    /// A value hasn't the form of a number.
    BadNumber(RecordPlace),
    /// A value is outside its range.
    ValueOutOfRange(RecordPlace),
    /// A line isn't above the one before it.
    NotRising(RecordPlace),
    /// A line is outside the hull of the boxes.
    LineOutside(RecordPlace),
    /// In the record of this number an axis has more than 1,024 lines, or the grid more than 262,144 cells.
    GridTooLarge(u32),
    /// In the case of this number the axis lacks a base line: the least one, in 0.1 mm.
    LineMissing(u8, AxisName, u32),
}

/// Why a bundle wasn't read.
#[derive(Clone, Copy, Debug, PartialEq, Eq, Error)]
pub enum BundleRefusal {
    #[error("the bundle is at fault")]
    Fault(BundleFault),
    #[error("memory ran out")]
    NoMemory,
}

/// A fault within a record, with its field.
#[derive(Clone, Copy, Debug, PartialEq, Eq)]
pub enum RecordFault {
    Shape,
    BadNumber(u32),
    OutOfRange(u32),
    NotRising(u32),
    LineOutside(u32),
    GridTooLarge,
    LineMissing(u8, AxisName, u32),
}

impl RecordFault {
    /// The fault of the bundle, in the record of this number.
    pub fn placed(self, number: u32) -> BundleFault
        ensures { result ≡ placed number self }
    {
        match self {
            RecordFault::Shape => BundleFault::Shape(number),
            RecordFault::BadNumber(field) => BundleFault::BadNumber(RecordPlace { number, field }),
            RecordFault::OutOfRange(field) => {
                BundleFault::ValueOutOfRange(RecordPlace { number, field })
            }
            RecordFault::NotRising(field) => BundleFault::NotRising(RecordPlace { number, field }),
            RecordFault::LineOutside(field) => {
                BundleFault::LineOutside(RecordPlace { number, field })
            }
            RecordFault::GridTooLarge => BundleFault::GridTooLarge(number),
            RecordFault::LineMissing(case, axis, line) => BundleFault::LineMissing(
                case, axis, line,
            ),
        }
    }
}
