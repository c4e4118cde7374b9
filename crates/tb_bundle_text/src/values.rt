// The rows of values of a grid.
ghost use Rattle.std.specs.Prelude.{◌<◌, ◌≤◌, length, replicate};
ghost use Rattle.std.specs.List.{repeat};
ghost use Rattle.tb_outside.specs.Buffers.{Gathers};
ghost use Rattle.tb_records.specs.Plain.{records_text};
ghost use Rattle.tb_grid.specs.Axis.{most_lines};
ghost use Rattle.tb_case_records.specs.Table.{Values, face_rows, layer_rows, node_rows};
ghost use Rattle.tb_bundle_text.specs.Canonical.{value_rows, values_in};
ghost use Rattle.tb_bundle_text.specs.Writing.{Puts};

use crate::record::put_numbers;
use tb_case_records::{RowKind, word_of};
use tb_grid::CellCounts;
use tb_outside::{OutputBuffer, Sink};
use tb_places::AxisName;

// Puts so many rows of so many values each, and answers the values behind them.
fn put_rows<'a, K: Sink>(
    buffer: &mut OutputBuffer,
    sink: &mut K,
    kind: RowKind,
    count: u32,
    rows: u32,
    values: &'a [i64],
) -> &'a [i64]
    requires { values_in (replicate rows (Values kind count)) ≤ length values.now }
    ensures { Puts K.holds K.faults sink.old sink.new buffer.old buffer.new (replicate rows (Values kind count)) values.entry.now result.now }
{
    let mut left = values;
    for at in 0..rows {
        let (row, rest) = left.split_at(count as usize);
        put_numbers(buffer, sink, word_of(kind), row);
        left = rest;
    }
    left
}

// Puts the face rows of a layer: across z at its low end, across x and across y.
fn put_layer<'a, K: Sink>(
    buffer: &mut OutputBuffer,
    sink: &mut K,
    x: u32,
    y: u32,
    values: &'a [i64],
) -> &'a [i64]
    requires few { (x < most_lines) × (y < most_lines) }
    requires enough { values_in (layer_rows x y) ≤ length values.now }
    ensures { Puts K.holds K.faults sink.old sink.new buffer.old buffer.new (layer_rows x y) values.entry.now result.now }
{
    let left = put_rows(buffer, sink, RowKind::Faces(AxisName::Z), x, y, values);
    let left = put_rows(buffer, sink, RowKind::Faces(AxisName::X), x + 1, y, left);
    put_rows(buffer, sink, RowKind::Faces(AxisName::Y), x, y + 1, left)
}

// Puts the face rows of all layers.
fn put_layers<'a, K: Sink>(
    buffer: &mut OutputBuffer,
    sink: &mut K,
    counts: CellCounts,
    values: &'a [i64],
) -> &'a [i64]
    requires few { (counts.x < most_lines) × (counts.y < most_lines) }
    requires enough { values_in (repeat counts.z (layer_rows counts.x counts.y)) ≤ length values.now }
    ensures { Puts K.holds K.faults sink.old sink.new buffer.old buffer.new (repeat counts.z (layer_rows counts.x counts.y)) values.entry.now result.now }
{
    let mut left = values;
    for layer in 0..counts.z {
        left = put_layer(buffer, sink, counts.x, counts.y, left);
    }
    left
}

/// Puts the rows of a field on a grid of so many cells along each axis.
pub fn put_field<K: Sink>(
    buffer: &mut OutputBuffer,
    sink: &mut K,
    counts: CellCounts,
    values: &[i64],
)
    requires few { (counts.x < most_lines) × ((counts.y < most_lines) × (counts.z < most_lines)) }
    requires enough { values_in (node_rows counts.x counts.y counts.z) ≤ length values.now }
    ensures { Gathers K.holds K.faults sink.old sink.new buffer.old
        (records_text (value_rows (node_rows counts.x counts.y counts.z) values.now)) buffer.new }
{
    let rows = (counts.y + 1) * (counts.z + 1);
    put_rows(buffer, sink, RowKind::Nodes, counts.x + 1, rows, values);
}

/// Puts the rows of a flux on a grid of so many cells along each axis, in the order of the numbers of faces.
pub fn put_flux<K: Sink>(
    buffer: &mut OutputBuffer,
    sink: &mut K,
    counts: CellCounts,
    values: &[i64],
)
    requires few { (counts.x < most_lines) × ((counts.y < most_lines) × (counts.z < most_lines)) }
    requires enough { values_in (face_rows counts.x counts.y counts.z) ≤ length values.now }
    ensures { Gathers K.holds K.faults sink.old sink.new buffer.old
        (records_text (value_rows (face_rows counts.x counts.y counts.z) values.now)) buffer.new }
{
    let left = put_layers(buffer, sink, counts, values);
    put_rows(
        buffer,
        sink,
        RowKind::Faces(AxisName::Z),
        counts.x,
        counts.y,
        left,
    );
}
