// A detail that is built record by record.
ghost use Rattle.std.specs.Prelude.{◌≡◌, [], List, Ok, OnOk, Some};
ghost use Rattle.csv.specs.Records.{fields_of};
ghost use Rattle.tb_reading.specs.Drafts.{Holds, IsNewName, Takes, changed_at, entry_of, more_area, more_layer, more_length, more_line, reading_behind, with_declared, with_entry, with_if, with_said};
ghost use Rattle.tb_reading.specs.Details.{same_kind};
ghost use Rattle.tb_reading.specs.Kinds.{declares};
ghost use Rattle.tb_reading.specs.NameLists.{names_in};
ghost use Rattle.tb_reading.specs.Reading.{Numbered};
ghost use Rattle.tb_reading.specs.Records.{text_at};

use crate::fault::FieldFault;
use crate::items::{
    air_of, chi_of, environment_of, layer_of, line_term_of, material_of, no_items, part_of,
    planar_term_of, psi_of, put, solid_of,
};
use crate::kinds::RecordKind;
use crate::names::Names;
use crate::records::{Said, field, read_record};
use crate::values::Values;
use std::alloc::Global;
use tb_detail::{ChiItem, Detail, Items, Layer, LineTerm, Part, PlanarTerm, PsiItem};
use tb_records::{ByteRecord, NoMemory};

/// The names and the detail of the records so far, and the numbers of the records that declare parts.
#[derive(Drop)]
pub struct Draft {
    pub names: Names,
    pub detail: Detail,
    pub part_numbers: Items<u32>,
}

/// Why a record wasn't taken in.
#[derive(Clone, Copy)]
pub enum Stop {
    Fault(FieldFault),
    NoMemory,
}

// An item of a list, to which things belong.
trait Owner<X> {
    // The item with one more thing.
    ghost with: { X → Self → Self };

    // Adds a thing to the item.
    fn add(&mut self, thing: X) -> Result<(), NoMemory>
        ensures { OnOk result (self.new ≡ with thing self.old) };
}

impl Owner<Layer> for Part {
    ghost with = { more_layer };

    fn add(&mut self, layer: Layer) -> Result<(), NoMemory> {
        put(&mut self.layers, layer)
    }
}

impl Owner<PlanarTerm> for PsiItem {
    ghost with = { more_length };

    fn add(&mut self, term: PlanarTerm) -> Result<(), NoMemory> {
        put(&mut self.lengths, term)
    }
}

impl Owner<PlanarTerm> for ChiItem {
    ghost with = { more_area };

    fn add(&mut self, term: PlanarTerm) -> Result<(), NoMemory> {
        put(&mut self.areas, term)
    }
}

impl Owner<LineTerm> for ChiItem {
    ghost with = { more_line };

    fn add(&mut self, term: LineTerm) -> Result<(), NoMemory> {
        put(&mut self.lines, term)
    }
}

// Adds a thing to the item at a place. A place past the list changes nothing.
fn add_to<T: Owner<X>, X: Drop>(items: &mut Items<T>, place: u8, thing: X) -> Result<(), NoMemory>
    ensures { OnOk result (items.new ≡ changed_at place (T.with thing) items.old) }
{
    let place = usize::from(place);
    if place >= items.items.len() {
        return Ok(());
    }
    let item = &mut items.items[place];
    item.add(thing)
}

// Adds to a detail what a record says.
fn add_entry(
    detail: &mut Detail,
    alloc: Global,
    kind: RecordKind,
    row: &ByteRecord,
    values: &Values,
) -> Result<(), NoMemory>
    ensures { OnOk result
        (detail.new ≡ with_entry (entry_of kind values.now (fields_of row.now)) detail.old) }
{
    let owner = values.at(1).place();
    match kind {
        RecordKind::Environment => put(&mut detail.environments, environment_of(alloc, row)?),
        RecordKind::Material => put(&mut detail.materials, material_of(alloc, row, values)?),
        RecordKind::Solid => put(&mut detail.boxes, solid_of(values)),
        RecordKind::Air => put(&mut detail.boxes, air_of(values)),
        RecordKind::Part => put(&mut detail.parts, part_of(alloc, row, values)?),
        RecordKind::Layer => add_to(&mut detail.parts, owner, layer_of(alloc, values)?),
        RecordKind::Psi => put(&mut detail.psis, psi_of(alloc, row, values)?),
        RecordKind::Length => add_to(&mut detail.psis, owner, planar_term_of(values)),
        RecordKind::Chi => put(&mut detail.chis, chi_of(alloc, row, values)?),
        RecordKind::Area => add_to(&mut detail.chis, owner, planar_term_of(values)),
        RecordKind::Line => add_to(&mut detail.chis, owner, line_term_of(values)),
    }
}

// Adds the name that a record declares, if it declares one.
fn add_name(names: &mut Names, kind: RecordKind, row: &ByteRecord) -> Result<(), NoMemory>
    requires { IsNewName (names_in names.old) (declares kind) (text_at (fields_of row.now) 1) }
    ensures { OnOk result
        (names.new ≡ with_declared (declares kind) (text_at (fields_of row.now) 1) names.old) }
{
    match kind.declares() {
        Some(declared) => names.add(declared, field(row, 1)),
        None => Ok(()),
    }
}

// Adds the number of a record that declares a part.
fn add_number(numbers: &mut Items<u32>, kind: RecordKind, number: u32) -> Result<(), NoMemory>
    ensures { OnOk result
        (numbers.new ≡ with_if (same_kind RecordKind.Part (Some kind)) number numbers.old) }
{
    match kind {
        RecordKind::Part => put(numbers, number),
        _ => Ok(()),
    }
}

impl Draft {
    /// A draft of no records.
    pub fn new(alloc: Global) -> Draft
        ensures { Holds result [] }
    {
        Draft {
            names: Names::new(alloc),
            detail: Detail {
                dimension: 0,
                environments: no_items(alloc),
                materials: no_items(alloc),
                boxes: no_items(alloc),
                parts: no_items(alloc),
                psis: no_items(alloc),
                chis: no_items(alloc),
            },
            part_numbers: no_items(alloc),
        }
    }

    // Adds what a record says.
    fn add(
        &mut self,
        alloc: Global,
        said: Said,
        number: u32,
        row: &ByteRecord,
    ) -> Result<(), NoMemory>
        requires { reading_behind self.old (fields_of row.now) ≡ Ok said }
        ensures { OnOk result (self.new ≡ with_said said number (fields_of row.now) self.old) }
    {
        match said {
            Said::Remark => Ok(()),
            Said::Head(dimension) => {
                self.detail.dimension = dimension;
                Ok(())
            }
            Said::Record(kind, values) => {
                add_name(&mut self.names, kind, row)?;
                add_entry(&mut self.detail, alloc, kind, row, &values)?;
                add_number(&mut self.part_numbers, kind, number)
            }
        }
    }

    fn read(&self, row: &ByteRecord) -> Result<Said, FieldFault>
        ensures { result ≡ reading_behind self.now (fields_of row.now) }
    {
        read_record(&self.names, &self.detail, row)
    }

    /// Takes in the next record, which has this number.
    pub fn take(&mut self, alloc: Global, number: u32, row: &ByteRecord) -> Result<(), Stop>
        ensures { (given : List Numbered) → Holds self.old given
            → Takes result given number (fields_of row.now) self.new }
    {
        match self.read(row) {
            Ok(said) => match self.add(alloc, said, number, row) {
                Ok(()) => Ok(()),
                Err(NoMemory) => Err(Stop::NoMemory),
            },
            Err(fault) => Err(Stop::Fault(fault)),
        }
    }

    /// The detail, without the names and the numbers.
    pub fn into_detail(self) -> Detail
        ensures { result ≡ self.detail }
    {
        self.detail
    }
}
