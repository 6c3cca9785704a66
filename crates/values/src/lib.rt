#![tactic(auto)]
// The values that a place holds ("Places, views and values").
ghost use Rattle.std.specs.Prelude.{◌≡◌};
ghost use Rattle.places.specs.Places.{check};
ghost use Rattle.places.specs.Values.{double_of, double, signed_of, signed, unsigned, ticks};
ghost use Rattle.places.specs.Values as sorts;
ghost use Rattle.values.specs.Code.{integer_of, value_in, value_of};

use format::Stop;
use open::Opened;
use places::{Place, PlaceError, ValueError};

// What a place holds, to a call on values: the M of an integer, a float by its 64 bits, ticks.
#[derive(Clone, Copy)]
pub enum Value {
    Positive(u64),
    Negative(u64),
    Real(u64),
    Time(i64),
}

// What a leaf with this ID holds, if it is a value.
#[tactic(auto, using(crate::proofs::ValueLaws::leaf_laws))]
fn value_in(part: &[u8], id: u8) -> Option<Value>
    ensures { result ≡ value_in id part.now }
{
    match id {
        0x08 => Some(Value::Positive(number::read(part).ok()?.value)),
        0x09 => Some(Value::Negative(number::read(part).ok()?.value)),
        0x0a => Some(Value::Real(float::widen(number::read32(part)?))),
        0x0b => Some(Value::Real(number::read64(part)?)),
        0x12 | 0x13 => Some(Value::Time(number::ticks(number::read64(part)?))),
        _ => None,
    }
}

#[tactic(auto, using(crate::proofs::ValueLaws::place_laws))]
fn value_at(payload: &[u8], place: Place) -> Result<Option<Value>, Stop>
    ensures { result ≡ value_of (check payload.now place) }
{
    let start = place.start;
    let end = place.end;
    let opened = open::open_place(payload, place)?;
    match opened {
        Opened::Leaf => Ok(value_in(&payload[start..end], place.kind)),
        _ => Ok(None),
    }
}

// The integer of this M and sign.
#[tactic(auto, using(crate::proofs::IntegerLaws::signed_laws))]
fn signed_of(negative: bool, m: u64) -> Result<i64, ValueError>
    ensures { result ≡ signed_of (sorts.whole (integer_of negative m)) }
{
    if negative {
        return number::minus_plus_one(m).ok_or(ValueError::OutOfRange);
    }
    i64::try_from(m).ok().ok_or(ValueError::OutOfRange)
}

#[tactic(auto, using(crate::proofs::IntegerLaws::double_laws))]
fn double_of(negative: bool, m: u64) -> Result<u64, ValueError>
    ensures { result ≡ double_of (sorts.whole (integer_of negative m)) }
{
    let z = signed_of(negative, m)?;
    float::of_integer(z).ok_or(ValueError::OutOfRange)
}

// A number as a double, exact or refused, by its 64 bits.
#[tactic(auto, using(crate::proofs::ValueLaws::double_laws))]
pub fn double(payload: &[u8], place: Place) -> Result<u64, ValueError>
    ensures { result ≡ double payload.now place }
{
    let Some(value) = value_at(payload, place)? else {
        return Err(ValueError::WrongKind);
    };
    match value {
        Value::Positive(m) => double_of(false, m),
        Value::Negative(m) => double_of(true, m),
        Value::Real(bits) => Ok(bits),
        Value::Time(_) => Err(ValueError::WrongKind),
    }
}

// An integer as a signed number of 64 bits.
#[tactic(auto, using(crate::proofs::ValueLaws::signed_laws))]
pub fn signed(payload: &[u8], place: Place) -> Result<i64, ValueError>
    ensures { result ≡ signed payload.now place }
{
    let Some(value) = value_at(payload, place)? else {
        return Err(ValueError::WrongKind);
    };
    match value {
        Value::Positive(m) => signed_of(false, m),
        Value::Negative(m) => signed_of(true, m),
        Value::Real(_) | Value::Time(_) => Err(ValueError::WrongKind),
    }
}

// An integer as an unsigned number of 64 bits.
#[tactic(auto, using(crate::proofs::ValueLaws::unsigned_laws))]
pub fn unsigned(payload: &[u8], place: Place) -> Result<u64, ValueError>
    ensures { result ≡ unsigned payload.now place }
{
    let Some(value) = value_at(payload, place)? else {
        return Err(ValueError::WrongKind);
    };
    match value {
        Value::Positive(m) => Ok(m),
        Value::Negative(_) => Err(ValueError::OutOfRange),
        Value::Real(_) | Value::Time(_) => Err(ValueError::WrongKind),
    }
}

// The ticks of a date or a span of time.
#[tactic(auto, using(crate::proofs::ValueLaws::ticks_laws))]
pub fn ticks(payload: &[u8], place: Place) -> Result<i64, PlaceError>
    ensures { result ≡ ticks payload.now place }
{
    let Some(Value::Time(ticks)) = value_at(payload, place)? else {
        return Err(PlaceError::WrongKind);
    };
    Ok(ticks)
}
