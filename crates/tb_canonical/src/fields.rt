// Fields of records: names at places, and numbers. The bytes of a name and the items of a list come by a
// call, since their views meet only there.
ghost use Rattle.std.specs.Prelude.{◌≡◌, ◌<◌};
ghost use Rattle.tb_canonical.specs.Canonical.{dimension_text, name_at, names_in, number, psi_number};
ghost use Rattle.tb_reading.specs.declared.values.FieldValue.TheVariants.{Place};

use tb_detail::{Detail, Quantity};
use tb_numbers::{NumberText, decimal, signed_decimal};
use tb_reading::{FieldValue, NameKind, places};

/// The name at a place, empty where there is none.
pub fn name_at(detail: &Detail, kind: NameKind, place: u8) -> &[u8]
    ensures { result.now ≡ name_at (names_in detail.now kind) place }
{
    let place = usize::from(place);
    match kind {
        NameKind::Environment => match detail.environments.items().get(place) {
            Some(environment) => environment.name.bytes(),
            None => b"",
        },
        NameKind::Material => match detail.materials.items().get(place) {
            Some(material) => material.name.bytes(),
            None => b"",
        },
        NameKind::Part => match detail.parts.items().get(place) {
            Some(part) => part.name.bytes(),
            None => b"",
        },
        NameKind::Psi => match detail.psis.items().get(place) {
            Some(psi) => psi.name.bytes(),
            None => b"",
        },
        NameKind::Chi => match detail.chis.items().get(place) {
            Some(chi) => chi.name.bytes(),
            None => b"",
        },
    }
}

/// A place among at most 256 names, as the value of a field.
pub fn place(place: u16) -> FieldValue
    requires { place < 256 }
    ensures { result ≡ Place place }
{
    FieldValue::Place(place as u8)
}

/// The text of a number of a quantity.
pub fn number(quantity: Quantity, value: u32) -> NumberText
    ensures { result ≡ number quantity value }
{
    decimal(u64::from(value), places(quantity))
}

/// The text of a given ψ.
pub fn psi_number(value: i64) -> NumberText
    ensures { result ≡ psi_number value }
{
    signed_decimal(value, 6)
}

/// The text of a dimension, 2 or 3.
pub fn dimension_text(dimension: u8) -> &'static [u8]
    ensures { result.now ≡ dimension_text dimension }
{
    if dimension == 2 { b"2" } else { b"3" }
}
