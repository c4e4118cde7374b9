// The values of a record's fields.
ghost use Rattle.std.specs.Prelude.{◌≡◌, ◌<◌, [], ◌∷◌, ◌++◌, drop, length};
ghost use Rattle.tb_reading.specs.Details.{number_or};
ghost use Rattle.tb_reading.specs.Records.{is_place, number_in, place_in, signed_in, value_at};

use std::marker::Model;

/// What a field says.
#[derive(Clone, Copy)]
pub enum FieldValue {
    /// A word or a new name.
    Nothing,
    /// The place of a name in its list.
    Place(u8),
    /// A number, in the unit of its quantity.
    Number(u32),
    /// A ψ, in 10⁻⁶ W/(m·K).
    Signed(i64),
}

impl FieldValue {
    pub fn is_place(self, place: u8) -> bool
        ensures { result ≡ is_place place self }
    {
        match self {
            FieldValue::Place(other) => other == place,
            _ => false,
        }
    }

    pub fn place(self) -> u8
        ensures { result ≡ place_in self }
    {
        match self {
            FieldValue::Place(place) => place,
            _ => 0,
        }
    }

    pub fn number(self) -> u32
        ensures { result ≡ number_in self }
    {
        match self {
            FieldValue::Number(number) => number,
            _ => 0,
        }
    }

    pub fn signed(self) -> i64
        ensures { result ≡ signed_in self }
    {
        match self {
            FieldValue::Signed(signed) => signed,
            _ => 0,
        }
    }
}

/// The values of the fields of a record, at most 9. Contracts see their list.
#[derive(Drop)]
pub struct Values {
    items: [FieldValue; 9],
    len: usize,
}

impl Model for Values {
    ghost use Rattle.std.specs.Prelude.{List, ◌≤◌, take};
    ghost use Rattle.tb_reading.specs.declared.values.FieldValue.{FieldValue};

    ghost Value = { List FieldValue };

    ghost view = { λ v. take v.len v.items };

    ghost invariant = { λ v. v.len ≤ 9 };
}

impl Values {
    pub fn new() -> Values
        ensures { result ≡ [] }
    {
        Values {
            items: [FieldValue::Nothing; 9],
            len: 0,
        }
    }

    pub fn push(&mut self, value: FieldValue)
        requires { length self.old < 9 }
        ensures { self.new ≡ self.old ++ value ∷ [] }
    {
        self.items[self.len] = value;
        self.len += 1;
    }

    /// The values in their order.
    pub fn as_slice(&self) -> &[FieldValue]
        ensures { result.now ≡ self.now }
    {
        &self.items[..self.len]
    }

    /// The value of the field at this place, nothing where there is no such field.
    pub fn at(&self, place: usize) -> FieldValue
        ensures { result ≡ value_at self.now place }
    {
        match self.as_slice().get(place) {
            Some(value) => *value,
            None => FieldValue::Nothing,
        }
    }

    /// The number of the field at this place, or this one where there is no such field.
    pub fn number_or(&self, place: usize, number: u32) -> u32
        ensures { result ≡ number_or number self.now place }
    {
        match self.as_slice().get(place) {
            Some(value) => value.number(),
            None => number,
        }
    }

    /// The values from this field on.
    pub fn from(&self, place: usize) -> &[FieldValue]
        ensures { result.now ≡ drop place self.now }
    {
        let values = self.as_slice();
        if place < values.len() {
            &values[place..]
        } else {
            &[]
        }
    }
}
