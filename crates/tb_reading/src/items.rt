// The things of a detail, from the values of a record's fields.
ghost use Rattle.std.specs.Prelude.{◌≡◌, ◌<◌, IfOk, OnOk, [], ◌∷◌, ◌++◌, Some, drop, map};
ghost use Rattle.csv.specs.Records.{fields_of};
ghost use Rattle.tb_reading.specs.Details.{areas_from, box_as, chi_of, environment_of, layer_of, line_term_of, material_of, part_of, planar_term_of, psi_of, span_at};
ghost use Rattle.tb_reading.specs.Drafts.{entry_of};
ghost use Rattle.tb_reading.specs.Records.{number_in, place_in, text_at};

use crate::kinds::RecordKind;
use crate::records::field;
use crate::values::{FieldValue, Values};
use std::alloc::Global;
use tb_detail::{
    ChiItem, Content, Environment, FLAT_HEIGHT, Items, Layer, LineTerm, Material, Name, Part,
    PlanarTerm, PsiItem, SpaceBox, Span,
};
use tb_records::{ByteRecord, NoMemory};

pub fn no_items<T>(alloc: Global) -> Items<T>
    ensures { result ≡ [] }
{
    Items {
        items: Vec::new(alloc),
    }
}

pub fn put<T: Drop>(list: &mut Items<T>, value: T) -> Result<(), NoMemory>
    ensures { OnOk result (list.new ≡ list.old ++ value ∷ []) }
{
    let Ok(_) = list.items.push(value) else {
        return Err(NoMemory);
    };
    Ok(())
}

fn name_of(alloc: Global, row: &ByteRecord) -> Result<Name, NoMemory>
    ensures { IfOk result (λ n. n ≡ text_at (fields_of row.now) 1) }
{
    let Ok(bytes) = field(row, 1).to_vec(alloc) else {
        return Err(NoMemory);
    };
    Ok(Name { bytes })
}

// Six coordinates from a place on.
fn span_at(values: &Values, at: usize) -> Span
    requires { at < 9 }
    ensures { result ≡ span_at values.now at }
{
    Span {
        x0: values.at(at).number(),
        x1: values.at(at + 1).number(),
        y0: values.at(at + 2).number(),
        y1: values.at(at + 3).number(),
        z0: values.number_or(at + 4, 0),
        z1: values.number_or(at + 5, FLAT_HEIGHT),
    }
}

pub fn solid_of(values: &Values) -> SpaceBox
    ensures { result ≡ box_as (Some RecordKind.Solid) values.now }
{
    SpaceBox {
        content: Content::Solid {
            material: u16::from(values.at(1).place()),
        },
        span: span_at(values, 2),
    }
}

pub fn air_of(values: &Values) -> SpaceBox
    ensures { result ≡ box_as (Some RecordKind.Air) values.now }
{
    SpaceBox {
        content: Content::Air {
            environment: values.at(1).place(),
            rs: values.at(2).number(),
        },
        span: span_at(values, 3),
    }
}

fn numbers_from(alloc: Global, values: &[FieldValue]) -> Result<Items<u32>, NoMemory>
    ensures { IfOk result (λ numbers. numbers ≡ map number_in values.now) }
{
    let mut numbers = no_items(alloc);
    for value in values {
        put(&mut numbers, value.number())?;
    }
    Ok(numbers)
}

// The areas of a part's sections: one of area 1 where none is given.
fn areas_from(alloc: Global, values: &[FieldValue]) -> Result<Items<u32>, NoMemory>
    ensures { IfOk result (λ areas. areas ≡ areas_from values.now) }
{
    if values.is_empty() {
        let mut one = no_items(alloc);
        put(&mut one, 1)?;
        return Ok(one);
    }
    numbers_from(alloc, values)
}

pub fn part_of(alloc: Global, row: &ByteRecord, values: &Values) -> Result<Part, NoMemory>
    ensures { IfOk result
        (λ part. part ≡ part_of (entry_of RecordKind.Part values.now (fields_of row.now))) }
{
    let name = name_of(alloc, row)?;
    let areas = areas_from(alloc, values.from(4))?;
    Ok(Part {
        name,
        rsi: values.at(2).number(),
        rse: values.at(3).number(),
        areas,
        layers: no_items(alloc),
    })
}

fn materials_from(alloc: Global, values: &[FieldValue]) -> Result<Items<u16>, NoMemory>
    ensures { IfOk result (λ places. places ≡ map place_in values.now) }
{
    let mut places = no_items(alloc);
    for value in values {
        put(&mut places, u16::from(value.place()))?;
    }
    Ok(places)
}

pub fn layer_of(alloc: Global, values: &Values) -> Result<Layer, NoMemory>
    ensures { IfOk result (λ layer. layer ≡ layer_of (entry_of RecordKind.Layer values.now [])) }
{
    let materials = materials_from(alloc, values.from(3))?;
    Ok(Layer {
        thickness: values.at(2).number(),
        materials,
    })
}

pub fn environment_of(alloc: Global, row: &ByteRecord) -> Result<Environment, NoMemory>
    ensures { IfOk result (λ e. e ≡ record { name = text_at (fields_of row.now) 1 }) }
{
    let name = name_of(alloc, row)?;
    Ok(Environment { name })
}

pub fn material_of(alloc: Global, row: &ByteRecord, values: &Values) -> Result<Material, NoMemory>
    ensures { IfOk result
        (λ m. m ≡ material_of (entry_of RecordKind.Material values.now (fields_of row.now))) }
{
    let name = name_of(alloc, row)?;
    Ok(Material {
        name,
        lambda: values.at(2).number(),
    })
}

pub fn psi_of(alloc: Global, row: &ByteRecord, values: &Values) -> Result<PsiItem, NoMemory>
    ensures { IfOk result (λ p. p ≡ psi_of (entry_of RecordKind.Psi values.now (fields_of row.now))) }
{
    let name = name_of(alloc, row)?;
    Ok(PsiItem {
        name,
        first: values.at(2).place(),
        second: values.at(3).place(),
        lengths: no_items(alloc),
    })
}

pub fn chi_of(alloc: Global, row: &ByteRecord, values: &Values) -> Result<ChiItem, NoMemory>
    ensures { IfOk result (λ c. c ≡ chi_of (entry_of RecordKind.Chi values.now (fields_of row.now))) }
{
    let name = name_of(alloc, row)?;
    Ok(ChiItem {
        name,
        first: values.at(2).place(),
        second: values.at(3).place(),
        areas: no_items(alloc),
        lines: no_items(alloc),
    })
}

pub fn planar_term_of(values: &Values) -> PlanarTerm
    ensures { result ≡ planar_term_of (entry_of RecordKind.Length values.now []) }
{
    PlanarTerm {
        part: u16::from(values.at(2).place()),
        amount: values.at(3).number(),
    }
}

pub fn line_term_of(values: &Values) -> LineTerm
    ensures { result ≡ line_term_of (entry_of RecordKind.Line values.now []) }
{
    LineTerm {
        psi_lo: values.at(2).signed(),
        psi_hi: values.at(3).signed(),
        length: values.at(4).number(),
    }
}
