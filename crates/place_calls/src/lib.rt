#![tactic(auto)]
// The calls on places, in numbers: 0, where the lent numbers then start with what is asked for; the number of the fault met; or 3 for no more, 5 for not
// there, 6 for a wrong kind; 12, before all else, for too few numbers lent. After any but 0 the lent numbers are as before.
// C lends a place as its four numbers and the last one as two, so the calls take these and no struct.
ghost use Rattle.std.specs.Prelude.{◌≡◌};
ghost use Rattle.places.specs.Places.{checked, top, step, part, lookup};
ghost use Rattle.replies.specs.Number.{afterwards};
ghost use Rattle.replies.specs.Reply.{told};
ghost use Rattle.place_replies.specs.PlaceReply.{place_of, after_of, checked_reply, top_reply, step_reply, part_reply, found_reply};

use place_replies::after_of;
use places::Place;

// The check of a place: 0 if it is good.
pub fn check(payload: &[u8], kind: u8, start: usize, end: usize, depth: u32) -> u32
    ensures { result ≡ (checked_reply (checked payload.now (place_of kind start end depth))).code }
{
    place_replies::checked(open::checked(payload, Place::of(kind, start, end, depth)))
}

// The top place: its kind, start, end and depth.
pub fn top(payload: &[u8], answer: &mut [u64]) -> u32
    ensures { afterwards result answer.new ≡ told 4 (top_reply (top payload.now)) answer.old }
{
    place_replies::top(Place::top(payload), answer)
}

// A step: the field's kind, start, end and depth, and where its name begins, which ends where the payload starts: the first field with some 0, else the one
// behind the end last.
pub fn step(
    payload: &[u8],
    kind: u8,
    start: usize,
    end: usize,
    depth: u32,
    some: u32,
    last: usize,
    answer: &mut [u64],
) -> u32
    ensures { afterwards result answer.new
        ≡ told 5 (step_reply (step payload.now (place_of kind start end depth) (after_of some last))) answer.old }
{
    place_replies::step(
        read::step(
            payload,
            Place::of(kind, start, end, depth),
            after_of(some, last),
        ),
        answer,
    )
}

// Where a place's view begins and ends.
pub fn view(
    payload: &[u8],
    kind: u8,
    start: usize,
    end: usize,
    depth: u32,
    answer: &mut [u64],
) -> u32
    ensures { afterwards result answer.new
        ≡ told 2 (part_reply (part payload.now (place_of kind start end depth))) answer.old }
{
    place_replies::part(
        views::part(payload, Place::of(kind, start, end, depth)),
        answer,
    )
}

// The first field of an object whose name is byte-equal to this one: its kind, start, end and depth.
pub fn lookup<'a>(
    payload: &'a [u8],
    kind: u8,
    start: usize,
    end: usize,
    depth: u32,
    name: &'a [u8],
    answer: &mut [u64],
) -> u32
    ensures { afterwards result answer.new
        ≡ told 4 (found_reply (lookup payload.now (place_of kind start end depth) name.now)) answer.old }
{
    place_replies::found(
        read::lookup(payload, Place::of(kind, start, end, depth), name),
        answer,
    )
}
