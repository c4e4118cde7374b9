// The things of a detail, each as the records that tell it.
ghost use Rattle.std.specs.Prelude.{◌≡◌, ◌==◌, ◌-◌, ◌<◌, ◌≤◌, All, List, ℕ, length, take, if◌then◌else◌};
ghost use Rattle.std.specs.List.{flat_map};
ghost use Rattle.tb_outside.specs.Buffers.{Gathers};
ghost use Rattle.tb_records.specs.Plain.{record_text, records_text};
ghost use Rattle.tb_detail.specs.declared.Detail.{Detail};
ghost use Rattle.tb_detail.specs.Limits.{BoxInLimits, ChiInLimits, InLimits, LayerInLimits, PartInLimits, PsiInLimits, TermInLimits};
ghost use Rattle.tb_reading.specs.Kinds.{fields};
ghost use Rattle.tb_canonical.specs.Canonical.{box_row, chi_rows, content_row, environment_row, layer_row, layer_values, line_row, material_row, names_in, part_rows, part_values, psi_rows, term_row};

use crate::fields::place;
use crate::record::put_row;
use tb_detail::{
    ChiItem, Content, Detail, Environment, Layer, LineTerm, Material, Part, PlanarTerm, PsiItem,
    SpaceBox, Span,
};
use tb_outside::{OutputBuffer, Sink};
use tb_reading::{FieldValue, RecordKind, Values};

/// A thing of a detail that is written as records, behind the item that it belongs to.
pub trait Written {
    // The text of its records, behind the item of this name.
    ghost text: { Detail → List ℕ → Self → List ℕ };

    // What keeps it within the limits of the detail.
    ghost fits: { Detail → Self → Type 0 };

    /// Puts its records.
    fn put<K: Sink>(&self, buffer: &mut OutputBuffer, sink: &mut K, detail: &Detail, item: &[u8])
        requires limits { InLimits detail.now }
        requires fits { fits detail.now self.now }
        ensures { Gathers K.holds K.faults sink.old sink.new buffer.old (text detail.now item.now self.now) buffer.new };
}

/// Puts the records of each of some things, one behind the other.
pub fn put_each<T: Written, K: Sink>(
    buffer: &mut OutputBuffer,
    sink: &mut K,
    detail: &Detail,
    item: &[u8],
    things: &[T],
)
    requires limits { InLimits detail.now }
    requires fit { All (T.fits detail.now) things.now }
    ensures { Gathers K.holds K.faults sink.old sink.new buffer.old
        (flat_map (T.text detail.now item.now) things.now) buffer.new }
{
    for thing in things {
        thing.put(buffer, sink, detail, item);
    }
}

// ---- environments and materials

impl Written for Environment {
    ghost text = { λ d item e. record_text (environment_row (names_in d) e) };

    ghost fits = { λ d e. Unit {0} };

    fn put<K: Sink>(&self, buffer: &mut OutputBuffer, sink: &mut K, detail: &Detail, _item: &[u8]) {
        let name = self.name.bytes();
        let values = [FieldValue::Nothing];
        put_row(buffer, sink, detail, RecordKind::Environment, name, &values);
    }
}

impl Written for Material {
    ghost text = { λ d item m. record_text (material_row (names_in d) m) };

    ghost fits = { λ d m. Unit {0} };

    fn put<K: Sink>(&self, buffer: &mut OutputBuffer, sink: &mut K, detail: &Detail, _item: &[u8]) {
        let name = self.name.bytes();
        let values = [FieldValue::Nothing, FieldValue::Number(self.lambda)];
        put_row(buffer, sink, detail, RecordKind::Material, name, &values);
    }
}

// ---- boxes

// The values of a box, without the last two in dimension 2: the coordinates of z.
fn in_dimension(dimension: u8, values: &[FieldValue]) -> &[FieldValue]
    requires { 2 ≤ length values.now }
    ensures values { result.now
        ≡ (if dimension == 2 then take (length values.now - 2) values.now else values.now) }
    ensures few { length result.now ≤ length values.now }
{
    if dimension == 2 {
        &values[..values.len() - 2]
    } else {
        values
    }
}

fn put_solid<K: Sink>(
    buffer: &mut OutputBuffer,
    sink: &mut K,
    detail: &Detail,
    material: u16,
    s: Span,
)
    requires { material < 256 }
    ensures { Gathers K.holds K.faults sink.old sink.new buffer.old
        (record_text (content_row (names_in detail.now) detail.now.dimension (Content.Solid material) s))
        buffer.new }
{
    let values = [
        place(material),
        FieldValue::Number(s.x0),
        FieldValue::Number(s.x1),
        FieldValue::Number(s.y0),
        FieldValue::Number(s.y1),
        FieldValue::Number(s.z0),
        FieldValue::Number(s.z1),
    ];
    let values = in_dimension(detail.dimension, &values);
    put_row(buffer, sink, detail, RecordKind::Solid, b"", values);
}

fn put_air<K: Sink>(
    buffer: &mut OutputBuffer,
    sink: &mut K,
    detail: &Detail,
    environment: u8,
    rs: u32,
    s: Span,
)
    ensures { Gathers K.holds K.faults sink.old sink.new buffer.old
        (record_text (content_row (names_in detail.now) detail.now.dimension (Content.Air environment rs) s))
        buffer.new }
{
    let values = [
        FieldValue::Place(environment),
        FieldValue::Number(rs),
        FieldValue::Number(s.x0),
        FieldValue::Number(s.x1),
        FieldValue::Number(s.y0),
        FieldValue::Number(s.y1),
        FieldValue::Number(s.z0),
        FieldValue::Number(s.z1),
    ];
    let values = in_dimension(detail.dimension, &values);
    put_row(buffer, sink, detail, RecordKind::Air, b"", values);
}

impl Written for SpaceBox {
    ghost text = { λ d item b. record_text (box_row (names_in d) d.dimension b) };

    ghost fits = { BoxInLimits };

    fn put<K: Sink>(&self, buffer: &mut OutputBuffer, sink: &mut K, detail: &Detail, _item: &[u8]) {
        match self.content {
            Content::Solid { material } => put_solid(buffer, sink, detail, material, self.span),
            Content::Air { environment, rs } => {
                put_air(buffer, sink, detail, environment, rs, self.span)
            }
        }
    }
}

// ---- parts

fn layer_values(layer: &Layer) -> Values
    requires few { length layer.now.materials ≤ 4 }
    requires known { All (λ place. place < 256) layer.now.materials }
    ensures { result ≡ layer_values layer.now }
{
    let mut values = Values::new();
    values.push(FieldValue::Nothing);
    values.push(FieldValue::Number(layer.thickness));
    for material in layer.materials.items() {
        values.push(place(*material));
    }
    values
}

impl Written for Layer {
    ghost text = { λ d item l. record_text (layer_row (names_in d) item l) };

    ghost fits = { λ d l. (length l.materials ≤ 4) × All (λ place. place < length d.materials) l.materials };

    fn put<K: Sink>(&self, buffer: &mut OutputBuffer, sink: &mut K, detail: &Detail, item: &[u8]) {
        let values = layer_values(self);
        put_row(
            buffer,
            sink,
            detail,
            RecordKind::Layer,
            item,
            values.as_slice(),
        );
    }
}

fn part_values(part: &Part) -> Values
    requires { length part.now.areas ≤ 4 }
    ensures { result ≡ part_values part.now }
{
    let mut values = Values::new();
    values.push(FieldValue::Nothing);
    values.push(FieldValue::Number(part.rsi));
    values.push(FieldValue::Number(part.rse));
    for area in part.areas.items() {
        values.push(FieldValue::Number(*area));
    }
    values
}

impl Written for Part {
    ghost text = { λ d item p. records_text (part_rows (names_in d) p) };

    ghost fits = { PartInLimits };

    fn put<K: Sink>(&self, buffer: &mut OutputBuffer, sink: &mut K, detail: &Detail, _item: &[u8]) {
        let name = self.name.bytes();
        let values = part_values(self);
        put_row(
            buffer,
            sink,
            detail,
            RecordKind::Part,
            name,
            values.as_slice(),
        );
        put_each(buffer, sink, detail, name, self.layers.items());
    }
}

// ---- Ψ and χ

// The terms of the item of this name, as records of this kind.
fn put_terms<K: Sink>(
    buffer: &mut OutputBuffer,
    sink: &mut K,
    detail: &Detail,
    kind: RecordKind,
    item: &[u8],
    terms: &[PlanarTerm],
)
    requires fields { length (fields kind) ≡ 4 }
    requires limits { All (λ term. term.part < 256) terms.now }
    ensures { Gathers K.holds K.faults sink.old sink.new buffer.old
        (flat_map (λ term. record_text (term_row (names_in detail.now) kind item.now term)) terms.now)
        buffer.new }
{
    for term in terms {
        let values = [
            FieldValue::Nothing,
            place(term.part),
            FieldValue::Number(term.amount),
        ];
        put_row(buffer, sink, detail, kind, item, &values);
    }
}

impl Written for LineTerm {
    ghost text = { λ d item l. record_text (line_row (names_in d) item l) };

    ghost fits = { λ d l. Unit {0} };

    fn put<K: Sink>(&self, buffer: &mut OutputBuffer, sink: &mut K, detail: &Detail, item: &[u8]) {
        let values = [
            FieldValue::Nothing,
            FieldValue::Signed(self.psi_lo),
            FieldValue::Signed(self.psi_hi),
            FieldValue::Number(self.length),
        ];
        put_row(buffer, sink, detail, RecordKind::Line, item, &values);
    }
}

impl Written for PsiItem {
    ghost text = { λ d item p. records_text (psi_rows (names_in d) p) };

    ghost fits = { PsiInLimits };

    fn put<K: Sink>(&self, buffer: &mut OutputBuffer, sink: &mut K, detail: &Detail, _item: &[u8]) {
        let name = self.name.bytes();
        let values = [
            FieldValue::Nothing,
            FieldValue::Place(self.first),
            FieldValue::Place(self.second),
        ];
        put_row(buffer, sink, detail, RecordKind::Psi, name, &values);
        put_terms(
            buffer,
            sink,
            detail,
            RecordKind::Length,
            name,
            self.lengths.items(),
        );
    }
}

impl Written for ChiItem {
    ghost text = { λ d item c. records_text (chi_rows (names_in d) c) };

    ghost fits = { ChiInLimits };

    fn put<K: Sink>(&self, buffer: &mut OutputBuffer, sink: &mut K, detail: &Detail, _item: &[u8]) {
        let name = self.name.bytes();
        let values = [
            FieldValue::Nothing,
            FieldValue::Place(self.first),
            FieldValue::Place(self.second),
        ];
        put_row(buffer, sink, detail, RecordKind::Chi, name, &values);
        put_terms(
            buffer,
            sink,
            detail,
            RecordKind::Area,
            name,
            self.areas.items(),
        );
        put_each(buffer, sink, detail, name, self.lines.items());
    }
}
