#![tactic(auto)]
// The kinds of document 01, where a type byte and a field stand, the faults that stop, and the limits. What they mean, as numbers and values of
// document 01, specs/ says.
ghost use Rattle.std.specs.Prelude.{◌≡◌};
ghost use Rattle.format.specs.Kinds.{id, known, flags, kind_at, is_bare};
ghost use Rattle.format.specs.Mask.{stop_value};
ghost use Rattle.format.specs.Payload.{class_of};
ghost use Rattle.format.specs.declared.Stop.TheVariants.{Early};

use number::Cut;

// The greatest depth, and the greatest length of a payload or a write list ("Limits").
pub const DEPTH: u32 = 32;

pub const LENGTH: usize = 65536;

// The kinds of a field ("Kinds and payloads").
#[derive(Clone, Copy)]
pub enum Kind {
    Null,
    Object,
    UniformObject,
    Array,
    UniformArray,
    Binary,
    String,
    IntegerPositive,
    IntegerNegative,
    Float32,
    Float64,
    False,
    True,
    ObjectAttachment,
    BinaryAttachment,
    Hash,
    Uuid,
    DateTime,
    TimeSpan,
    ObjectId,
    CustomById,
    CustomByName,
}

// Where a type byte stands: before the top field, a field of an object or an item of an array, or shared by all the fields
// of a uniform object or all the items of a uniform array.
#[derive(Clone, Copy)]
pub enum Mark {
    OfTop,
    OfField,
    OfItem,
    SharedByFields,
    SharedByItems,
}

// How a field stands: the top field; a field of an object; an item of an array; a field of a uniform object, an item of a uniform
// array, of the kind that is shared there.
#[derive(Clone, Copy)]
pub enum Form {
    Top,
    Field,
    Item,
    SharedField(Kind),
    SharedItem(Kind),
}

// The stopping faults ("The mask").
#[derive(Clone, Copy)]
pub enum Stop {
    // Bytes end early, a size does not fit, a counted item is missing, bytes are left; a place or a step that lies outside.
    Early,
    // Unknown ID, or other flag bits than the place asks; a place of no kind.
    Unknown,
    // A field at depth 33; a place at depth 0 or past 32.
    TooDeep,
    // Input over 65,536 bytes.
    TooLong,
    // 03 with no field; 05 with count 0 or with items of 01, 0C or 0D.
    BadUniform,
}

// Where a number is cut off, bytes end early.
impl From<Cut> for Stop {
    ghost from_gives = { λ _ stop. stop ≡ Early };

    fn from(_cut: Cut) -> Stop {
        Stop::Early
    }
}

// The faults that do not stop ("The mask"). Bytes after the top field are what is left in the end.
#[derive(Clone, Copy)]
pub enum Flaw {
    // Two equal names in one object.
    Twin,
    // An empty name.
    Blank,
    // A VarUInt that is not minimal.
    Long,
    // A 09 whose M is too great.
    Low,
    // A Float64 that Float32 holds.
    Wide,
    // Text that is not UTF-8.
    NotUtf8,
    // A container that has to be uniform.
    NotUniform,
}

// What a payload is made of.
#[derive(Clone, Copy)]
pub enum Class {
    Fixed(usize),
    Text,
    Positive,
    Negative,
    Wide,
    Behind(Inner),
}

// What stands behind a size.
#[derive(Clone, Copy)]
pub enum Inner {
    Bytes,
    ById,
    ByName,
    Fields,
    SharedFields,
    Items,
    SharedItems,
}

// Functions and no `From`: a kind, a mark, a fault have several numbers, and a function's name says which.

// The kind with an ID, if there is one.
pub fn known_of(b: u8) -> Option<Kind>
    ensures { result ≡ known b }
{
    match b {
        0x01 => Some(Kind::Null),
        0x02 => Some(Kind::Object),
        0x03 => Some(Kind::UniformObject),
        0x04 => Some(Kind::Array),
        0x05 => Some(Kind::UniformArray),
        0x06 => Some(Kind::Binary),
        0x07 => Some(Kind::String),
        0x08 => Some(Kind::IntegerPositive),
        0x09 => Some(Kind::IntegerNegative),
        0x0a => Some(Kind::Float32),
        0x0b => Some(Kind::Float64),
        0x0c => Some(Kind::False),
        0x0d => Some(Kind::True),
        0x0e => Some(Kind::ObjectAttachment),
        0x0f => Some(Kind::BinaryAttachment),
        0x10 => Some(Kind::Hash),
        0x11 => Some(Kind::Uuid),
        0x12 => Some(Kind::DateTime),
        0x13 => Some(Kind::TimeSpan),
        0x14 => Some(Kind::ObjectId),
        0x1e => Some(Kind::CustomById),
        0x1f => Some(Kind::CustomByName),
        _ => None,
    }
}

// What a type byte has above its ID.
pub fn flags_of(mark: Mark) -> u8
    ensures { result ≡ flags mark }
{
    match mark {
        Mark::OfTop => 0,
        Mark::OfField => 0xc0,
        Mark::OfItem => 0x40,
        Mark::SharedByFields => 0x80,
        Mark::SharedByItems => 0,
    }
}

// The kind of a type byte.
pub fn kind_at(mark: Mark, b: u8) -> Option<Kind>
    ensures { result ≡ kind_at mark b }
{
    known_of(b.checked_sub(flags_of(mark))?)
}

pub fn id_of(kind: Kind) -> u8
    ensures { result ≡ id kind }
{
    match kind {
        Kind::Null => 0x01,
        Kind::Object => 0x02,
        Kind::UniformObject => 0x03,
        Kind::Array => 0x04,
        Kind::UniformArray => 0x05,
        Kind::Binary => 0x06,
        Kind::String => 0x07,
        Kind::IntegerPositive => 0x08,
        Kind::IntegerNegative => 0x09,
        Kind::Float32 => 0x0a,
        Kind::Float64 => 0x0b,
        Kind::False => 0x0c,
        Kind::True => 0x0d,
        Kind::ObjectAttachment => 0x0e,
        Kind::BinaryAttachment => 0x0f,
        Kind::Hash => 0x10,
        Kind::Uuid => 0x11,
        Kind::DateTime => 0x12,
        Kind::TimeSpan => 0x13,
        Kind::ObjectId => 0x14,
        Kind::CustomById => 0x1e,
        Kind::CustomByName => 0x1f,
    }
}

// Whether a kind is 01, 0C or 0D.
pub fn is_bare(kind: Kind) -> bool
    ensures { result ≡ is_bare kind }
{
    let n = id_of(kind);
    (n == 0x01) | (n == 0x0c) | (n == 0x0d)
}

// The number of a fault that stops ("The mask").
pub fn stop_value(stop: Stop) -> u32
    ensures { result ≡ stop_value stop }
{
    match stop {
        Stop::Early => 1,
        Stop::Unknown => 2,
        Stop::TooDeep => 4,
        Stop::TooLong => 8,
        Stop::BadUniform => 2048,
    }
}

// The table: what each payload is made of.
pub fn class_of(kind: Kind) -> Class
    ensures { result ≡ class_of kind }
{
    match kind {
        Kind::Null => Class::Fixed(0),
        Kind::Object => Class::Behind(Inner::Fields),
        Kind::UniformObject => Class::Behind(Inner::SharedFields),
        Kind::Array => Class::Behind(Inner::Items),
        Kind::UniformArray => Class::Behind(Inner::SharedItems),
        Kind::Binary => Class::Behind(Inner::Bytes),
        Kind::String => Class::Text,
        Kind::IntegerPositive => Class::Positive,
        Kind::IntegerNegative => Class::Negative,
        Kind::Float32 => Class::Fixed(4),
        Kind::Float64 => Class::Wide,
        Kind::False => Class::Fixed(0),
        Kind::True => Class::Fixed(0),
        Kind::ObjectAttachment => Class::Fixed(20),
        Kind::BinaryAttachment => Class::Fixed(20),
        Kind::Hash => Class::Fixed(20),
        Kind::Uuid => Class::Fixed(16),
        Kind::DateTime => Class::Fixed(8),
        Kind::TimeSpan => Class::Fixed(8),
        Kind::ObjectId => Class::Fixed(12),
        Kind::CustomById => Class::Behind(Inner::ById),
        Kind::CustomByName => Class::Behind(Inner::ByName),
    }
}
