#![tactic(auto)]
// The values of places, in numbers: 0, where the lent numbers then start with the value; the number of the fault met; or 6 for a wrong kind, 7 for out of
// range; 12, before all else, for too few numbers lent. After any but 0 the lent numbers are as before.
// C lends a place as its four numbers, so the calls take these and no struct.
ghost use Rattle.std.specs.Prelude.{◌≡◌};
ghost use Rattle.places.specs.Values.{double, signed, unsigned, ticks};
ghost use Rattle.replies.specs.Number.{afterwards};
ghost use Rattle.replies.specs.Reply.{told, number_reply, signed_reply, ticks_reply};
ghost use Rattle.place_replies.specs.PlaceReply.{place_of};

use places::Place;

// A number as a double: its 64 bits.
pub fn double(
    payload: &[u8],
    kind: u8,
    start: usize,
    end: usize,
    depth: u32,
    answer: &mut [u64],
) -> u32
    ensures { afterwards result answer.new
        ≡ told 1 (number_reply (double payload.now (place_of kind start end depth))) answer.old }
{
    replies::number(
        values::double(payload, Place::of(kind, start, end, depth)),
        answer,
    )
}

// An integer as a signed number, in two's complement.
pub fn signed(
    payload: &[u8],
    kind: u8,
    start: usize,
    end: usize,
    depth: u32,
    answer: &mut [u64],
) -> u32
    ensures { afterwards result answer.new
        ≡ told 1 (signed_reply (signed payload.now (place_of kind start end depth))) answer.old }
{
    replies::signed(
        values::signed(payload, Place::of(kind, start, end, depth)),
        answer,
    )
}

// An integer as an unsigned number.
pub fn unsigned(
    payload: &[u8],
    kind: u8,
    start: usize,
    end: usize,
    depth: u32,
    answer: &mut [u64],
) -> u32
    ensures { afterwards result answer.new
        ≡ told 1 (number_reply (unsigned payload.now (place_of kind start end depth))) answer.old }
{
    replies::number(
        values::unsigned(payload, Place::of(kind, start, end, depth)),
        answer,
    )
}

// The ticks of a date or a span of time, in two's complement.
pub fn ticks(
    payload: &[u8],
    kind: u8,
    start: usize,
    end: usize,
    depth: u32,
    answer: &mut [u64],
) -> u32
    ensures { afterwards result answer.new
        ≡ told 1 (ticks_reply (ticks payload.now (place_of kind start end depth))) answer.old }
{
    replies::ticks(
        values::ticks(payload, Place::of(kind, start, end, depth)),
        answer,
    )
}
