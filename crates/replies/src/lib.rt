#![tactic(auto)]
// What the calls for C and Rust answer, in numbers: a truth as 1 or 0, and an answer that is a number as the number of its case, where the lent
// numbers then start with the case's values.
ghost use Rattle.std.specs.Prelude.{◌≡◌};
ghost use Rattle.replies.specs.Number.{truth, afterwards};
ghost use Rattle.replies.specs.Reply.{told, place_code, value_code, values_reply, varuint_reply, number_reply, signed_reply, ticks_reply};

use number::{Cut, VarUInt};
use places::{PlaceError, ValueError};

// Fewer numbers are lent than the call may answer.
pub const TOO_FEW: u32 = 12;

pub const NO_MORE: u32 = 3;

pub const NOT_THERE: u32 = 5;

pub const WRONG_KIND: u32 = 6;

pub const OUT_OF_RANGE: u32 = 7;

pub fn number_of(t: bool) -> u32
    ensures { result ≡ truth t }
{
    u32::from(t)
}

// Why a call on a place has no answer.
pub fn place_code(error: PlaceError) -> u32
    ensures { result ≡ place_code error }
{
    match error {
        PlaceError::WrongKind => WRONG_KIND,
        PlaceError::Fault(stop) => format::stop_value(stop),
    }
}

// Why a place gives no number of the kind asked.
fn value_code(error: ValueError) -> u32
    ensures { result ≡ value_code error }
{
    match error {
        ValueError::OutOfRange => OUT_OF_RANGE,
        ValueError::WrongKind => WRONG_KIND,
        ValueError::Fault(stop) => format::stop_value(stop),
    }
}

// Values are told by 0, and stand then at the front of the lent numbers; and what is refused by its number. As many are asked for as may be told.
pub fn told<const N: usize>(answer: Result<[u64; N], u32>, held: &mut [u64]) -> u32
    ensures { afterwards result held.new ≡ told N (values_reply answer.entry) held.old }
{
    if held.len() < N {
        return TOO_FEW;
    }
    match answer {
        Ok(values) => {
            held[..N].copy_from_slice(&values);
            0
        }
        Err(code) => code,
    }
}

// A whole VarUInt is told by its value, the bytes it takes, and 1 if it is minimal; a cut one by how many bytes are missing.
pub fn varuint(answer: Result<VarUInt, Cut>, held: &mut [u64]) -> u32
    ensures { afterwards result held.new ≡ told 3 (varuint_reply answer) held.old }
{
    if held.len() < 3 {
        return TOO_FEW;
    }
    match answer {
        Ok(number) => {
            held[0] = number.value;
            held[1] = number.length as u64;
            held[2] = u64::from(number.minimal);
            0
        }
        Err(cut) => {
            held[0] = cut.missing as u64;
            1
        }
    }
}

// An unsigned number, or the bits of a double.
pub fn number(answer: Result<u64, ValueError>, held: &mut [u64]) -> u32
    ensures { afterwards result held.new ≡ told 1 (number_reply answer) held.old }
{
    match answer {
        Ok(number) => told(Ok([number]), held),
        Err(error) => told::<1>(Err(value_code(error)), held),
    }
}

// A signed number is told in two's complement.
pub fn signed(answer: Result<i64, ValueError>, held: &mut [u64]) -> u32
    ensures { afterwards result held.new ≡ told 1 (signed_reply answer) held.old }
{
    number(answer.map(|z| z.cast_unsigned()), held)
}

// Ticks are told in two's complement.
pub fn ticks(answer: Result<i64, PlaceError>, held: &mut [u64]) -> u32
    ensures { afterwards result held.new ≡ told 1 (ticks_reply answer) held.old }
{
    match answer {
        Ok(ticks) => told(Ok([ticks.cast_unsigned()]), held),
        Err(error) => told::<1>(Err(place_code(error)), held),
    }
}
