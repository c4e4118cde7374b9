// What each kind of record is: its word, its fields in order, how many there are, and the dimensions
// in which it stands.
ghost use Rattle.std.specs.Prelude.{◌≡◌, ◌≤◌, length};
ghost use Rattle.tb_reading.specs.Kinds.{all_kinds, declares, field_count, fields, is_allowed, places, word};

use tb_detail::Quantity;

/// A kind of record, behind the head of the detail.
#[derive(Clone, Copy)]
pub enum RecordKind {
    Environment,
    Material,
    Solid,
    Air,
    Part,
    Layer,
    Psi,
    Length,
    Chi,
    Area,
    Line,
}

/// A kind of name. Names are distinct within their kind.
#[derive(Clone, Copy)]
pub enum NameKind {
    Environment,
    Material,
    Part,
    Psi,
    Chi,
}

/// How many fields a record has.
#[derive(Clone, Copy)]
pub enum FieldCount {
    /// So many.
    Exactly(usize),
    /// So many in dimension 2, and so many in dimension 3.
    ByDimension(usize, usize),
    /// At least the first, and at most the second.
    Between(usize, usize),
    /// One for each section of the part that the record belongs to, behind three others.
    OnePerSection,
}

/// What a field is, and what it is compared with.
#[derive(Clone, Copy)]
pub enum FieldRule {
    /// The word of the kind.
    Word,
    /// A new name.
    Declares(NameKind),
    /// The name of the item that the record belongs to, which was declared before.
    BelongsTo(NameKind),
    /// A name that was declared before.
    Uses(NameKind),
    /// A name that was declared before, and isn't that of the field before.
    UsesOther(NameKind),
    /// A number.
    Reads(Quantity),
    /// A number above that of the field before.
    ReadsAbove(Quantity),
    /// A ψ, in 10⁻⁶ W/(m·K).
    ReadsPsi,
    /// A ψ that isn't below that of the field before.
    ReadsPsiFrom,
}

const ALL: [RecordKind; 11] = [
    RecordKind::Environment,
    RecordKind::Material,
    RecordKind::Solid,
    RecordKind::Air,
    RecordKind::Part,
    RecordKind::Layer,
    RecordKind::Psi,
    RecordKind::Length,
    RecordKind::Chi,
    RecordKind::Area,
    RecordKind::Line,
];

impl RecordKind {
    /// The first field of such a record.
    pub fn word(self) -> &'static [u8]
        ensures { result.now ≡ word self }
    {
        match self {
            RecordKind::Environment => b"env",
            RecordKind::Material => b"mat",
            RecordKind::Solid => b"solid",
            RecordKind::Air => b"air",
            RecordKind::Part => b"part",
            RecordKind::Layer => b"layer",
            RecordKind::Psi => b"psi",
            RecordKind::Length => b"length",
            RecordKind::Chi => b"chi",
            RecordKind::Area => b"area",
            RecordKind::Line => b"line",
        }
    }

    /// All kinds.
    pub fn all() -> &'static [RecordKind]
        ensures { result.now ≡ all_kinds }
    {
        &ALL
    }

    /// The fields of such a record, as many as it may have.
    pub fn fields(self) -> &'static [FieldRule]
        ensures fields { result.now ≡ fields self }
        ensures few { length result.now ≤ 9 }
    {
        match self {
            RecordKind::Environment => &ENVIRONMENT,
            RecordKind::Material => &MATERIAL,
            RecordKind::Solid => &SOLID,
            RecordKind::Air => &AIR,
            RecordKind::Part => &PART,
            RecordKind::Layer => &LAYER,
            RecordKind::Psi => &PSI,
            RecordKind::Length => &LENGTH,
            RecordKind::Chi => &CHI,
            RecordKind::Area => &AREA,
            RecordKind::Line => &LINE,
        }
    }

    /// How many fields such a record has.
    pub fn field_count(self) -> FieldCount
        ensures { result ≡ field_count self }
    {
        match self {
            RecordKind::Environment => FieldCount::Exactly(2),
            RecordKind::Material => FieldCount::Exactly(3),
            RecordKind::Solid => FieldCount::ByDimension(6, 8),
            RecordKind::Air => FieldCount::ByDimension(7, 9),
            RecordKind::Part => FieldCount::Between(4, 8),
            RecordKind::Layer => FieldCount::OnePerSection,
            RecordKind::Psi => FieldCount::Exactly(4),
            RecordKind::Length => FieldCount::Exactly(4),
            RecordKind::Chi => FieldCount::Exactly(4),
            RecordKind::Area => FieldCount::Exactly(4),
            RecordKind::Line => FieldCount::Exactly(5),
        }
    }

    /// The kind of the name that such a record declares.
    pub fn declares(self) -> Option<NameKind>
        ensures { result ≡ declares self }
    {
        match self {
            RecordKind::Environment => Some(NameKind::Environment),
            RecordKind::Material => Some(NameKind::Material),
            RecordKind::Part => Some(NameKind::Part),
            RecordKind::Psi => Some(NameKind::Psi),
            RecordKind::Chi => Some(NameKind::Chi),
            _ => None,
        }
    }

    /// Whether such a record may stand in a detail of this dimension.
    pub fn is_allowed(self, dimension: u8) -> bool
        ensures { result ≡ is_allowed dimension self }
    {
        match self {
            RecordKind::Psi | RecordKind::Length => dimension == 2,
            RecordKind::Chi | RecordKind::Area | RecordKind::Line => dimension == 3,
            _ => true,
        }
    }
}

const ENVIRONMENT: [FieldRule; 2] = [FieldRule::Word, FieldRule::Declares(NameKind::Environment)];

const MATERIAL: [FieldRule; 3] = [
    FieldRule::Word,
    FieldRule::Declares(NameKind::Material),
    FieldRule::Reads(Quantity::Conductivity),
];

const SOLID: [FieldRule; 8] = [
    FieldRule::Word,
    FieldRule::Uses(NameKind::Material),
    FieldRule::Reads(Quantity::Length),
    FieldRule::ReadsAbove(Quantity::Length),
    FieldRule::Reads(Quantity::Length),
    FieldRule::ReadsAbove(Quantity::Length),
    FieldRule::Reads(Quantity::Length),
    FieldRule::ReadsAbove(Quantity::Length),
];

const AIR: [FieldRule; 9] = [
    FieldRule::Word,
    FieldRule::Uses(NameKind::Environment),
    FieldRule::Reads(Quantity::Resistance),
    FieldRule::Reads(Quantity::Length),
    FieldRule::ReadsAbove(Quantity::Length),
    FieldRule::Reads(Quantity::Length),
    FieldRule::ReadsAbove(Quantity::Length),
    FieldRule::Reads(Quantity::Length),
    FieldRule::ReadsAbove(Quantity::Length),
];

const PART: [FieldRule; 8] = [
    FieldRule::Word,
    FieldRule::Declares(NameKind::Part),
    FieldRule::Reads(Quantity::Resistance),
    FieldRule::Reads(Quantity::Resistance),
    FieldRule::Reads(Quantity::Section),
    FieldRule::Reads(Quantity::Section),
    FieldRule::Reads(Quantity::Section),
    FieldRule::Reads(Quantity::Section),
];

const LAYER: [FieldRule; 7] = [
    FieldRule::Word,
    FieldRule::BelongsTo(NameKind::Part),
    FieldRule::Reads(Quantity::Thickness),
    FieldRule::Uses(NameKind::Material),
    FieldRule::Uses(NameKind::Material),
    FieldRule::Uses(NameKind::Material),
    FieldRule::Uses(NameKind::Material),
];

const PSI: [FieldRule; 4] = [
    FieldRule::Word,
    FieldRule::Declares(NameKind::Psi),
    FieldRule::Uses(NameKind::Environment),
    FieldRule::UsesOther(NameKind::Environment),
];

const LENGTH: [FieldRule; 4] = [
    FieldRule::Word,
    FieldRule::BelongsTo(NameKind::Psi),
    FieldRule::Uses(NameKind::Part),
    FieldRule::Reads(Quantity::Length),
];

const CHI: [FieldRule; 4] = [
    FieldRule::Word,
    FieldRule::Declares(NameKind::Chi),
    FieldRule::Uses(NameKind::Environment),
    FieldRule::UsesOther(NameKind::Environment),
];

const AREA: [FieldRule; 4] = [
    FieldRule::Word,
    FieldRule::BelongsTo(NameKind::Chi),
    FieldRule::Uses(NameKind::Part),
    FieldRule::Reads(Quantity::Area),
];

const LINE: [FieldRule; 5] = [
    FieldRule::Word,
    FieldRule::BelongsTo(NameKind::Chi),
    FieldRule::ReadsPsi,
    FieldRule::ReadsPsiFrom,
    FieldRule::Reads(Quantity::Length),
];

/// The decimal places of a number of a quantity, and so its unit.
pub fn places(quantity: Quantity) -> u8
    ensures places { result ≡ places quantity }
    ensures few { result ≤ 8 }
{
    match quantity {
        Quantity::Length | Quantity::Thickness => 1,
        Quantity::Conductivity | Quantity::Resistance | Quantity::Area => 4,
        Quantity::Section => 0,
    }
}
