// The values of a field and of a flux.
ghost use Rattle.std.specs.Prelude.{◌≡◌, ◌+◌, ◌*◌, ◌++◌, ◌≤◌, ◌<◌, ◌^◌, OnOk, length};
ghost use Rattle.tb_grid.specs.Axis.{most_lines};
ghost use Rattle.tb_case_records.specs.Ahead.{row_numbers};
ghost use Rattle.tb_case_records.specs.Rows.{face_reading, node_reading};
ghost use Rattle.tb_case_records.specs.Table.{Taken, face_rows, layer_rows, node_rows};

use crate::fault::BundleRefusal;
use crate::reader::RecordReader;
use crate::rows::{RowKind, take_rows};
use tb_places::AxisName;

/// The node rows of a grid of so many cells along x, y and z.
pub fn take_nodes(
    reader: &mut RecordReader,
    x: u32,
    y: u32,
    z: u32,
    values: &mut Vec<i64>,
) -> Result<(), BundleRefusal>
    requires few { (x < most_lines) × (y < most_lines) × (z < most_lines) }
    ensures taken { Taken (node_rows x y z) reader.old reader.new result }
    ensures read { OnOk result (values.new.items ≡ values.old.items ++ row_numbers node_reading (length (node_rows x y z)) reader.old.ahead) }
{
    take_rows(reader, RowKind::Nodes, x + 1, (y + 1) * (z + 1), values)
}

// The face rows of a layer.
fn take_layer(
    reader: &mut RecordReader,
    x: u32,
    y: u32,
    values: &mut Vec<i64>,
) -> Result<(), BundleRefusal>
    requires few { (x < most_lines) × (y < most_lines) }
    ensures taken { Taken (layer_rows x y) reader.old reader.new result }
    ensures read { OnOk result (values.new.items ≡ values.old.items ++ row_numbers face_reading (length (layer_rows x y)) reader.old.ahead) }
{
    if let Err(refusal) = take_rows(reader, RowKind::Faces(AxisName::Z), x, y, values) {
        return Err(refusal);
    }
    if let Err(refusal) = take_rows(reader, RowKind::Faces(AxisName::X), x + 1, y, values) {
        return Err(refusal);
    }
    take_rows(reader, RowKind::Faces(AxisName::Y), x, y + 1, values)
}

/// The face rows of a grid of so many cells along x, y and z.
pub fn take_faces(
    reader: &mut RecordReader,
    x: u32,
    y: u32,
    z: u32,
    values: &mut Vec<i64>,
) -> Result<(), BundleRefusal>
    requires few { (x < most_lines) × (y < most_lines) }
    ensures taken { Taken (face_rows x y z) reader.old reader.new result }
    ensures read { OnOk result (values.new.items ≡ values.old.items ++ row_numbers face_reading (length (face_rows x y z)) reader.old.ahead) }
{
    for layer in 0..z {
        if let Err(refusal) = take_layer(reader, x, y, values) {
            return Err(refusal);
        }
    }
    take_rows(reader, RowKind::Faces(AxisName::Z), x, y, values)
}
