#![tactic(auto)]
// What the calls for C and Rust are handed and answer of places, in numbers: a place as its four numbers, and an answer as the number of its case,
// where the lent numbers then start with the case's values.
ghost use Rattle.std.specs.Prelude.{◌≡◌};
ghost use Rattle.replies.specs.Number.{afterwards};
ghost use Rattle.replies.specs.Reply.{told};
ghost use Rattle.place_replies.specs.PlaceReply.{place_numbers, after_of, checked_reply, top_reply, step_reply, part_reply, found_reply};

use format::Stop;
use places::{Field, Part, Place, PlaceError};

// Of the last place only the end counts.
#[tactic(auto, using(crate::proofs::AfterLaws::after_laws))]
pub fn after_of(some: u32, last: usize) -> Option<Place>
    ensures { result ≡ after_of some last }
{
    if some == 0 {
        return None;
    }
    Some(Place::of(0, 0, last, 0))
}

fn numbers_of(place: Place) -> [u64; 4]
    ensures { result ≡ place_numbers place }
{
    [
        place.kind as u64,
        place.start as u64,
        place.end as u64,
        place.depth as u64,
    ]
}

pub fn checked(answer: Result<(), Stop>) -> u32
    ensures { result ≡ (checked_reply answer).code }
{
    match answer {
        Ok(()) => 0,
        Err(stop) => format::stop_value(stop),
    }
}

pub fn top(answer: Result<Place, Stop>, held: &mut [u64]) -> u32
    ensures { afterwards result held.new ≡ told 4 (top_reply answer) held.old }
{
    match answer {
        Ok(place) => replies::told(Ok(numbers_of(place)), held),
        Err(stop) => replies::told::<4>(Err(format::stop_value(stop)), held),
    }
}

// A field is told by its place and where its name begins.
pub fn step(answer: Result<Option<Field>, PlaceError>, held: &mut [u64]) -> u32
    ensures { afterwards result held.new ≡ told 5 (step_reply answer) held.old }
{
    match answer {
        Ok(Some(field)) => {
            let [kind, start, end, depth] = numbers_of(field.place);
            replies::told(Ok([kind, start, end, depth, field.name as u64]), held)
        }
        Ok(None) => replies::told::<5>(Err(replies::NO_MORE), held),
        Err(error) => replies::told::<5>(Err(replies::place_code(error)), held),
    }
}

pub fn part(answer: Result<Part, Stop>, held: &mut [u64]) -> u32
    ensures { afterwards result held.new ≡ told 2 (part_reply answer) held.old }
{
    match answer {
        Ok(part) => replies::told(Ok([part.begin as u64, part.end as u64]), held),
        Err(stop) => replies::told::<2>(Err(format::stop_value(stop)), held),
    }
}

pub fn found(answer: Result<Option<Place>, PlaceError>, held: &mut [u64]) -> u32
    ensures { afterwards result held.new ≡ told 4 (found_reply answer) held.old }
{
    match answer {
        Ok(Some(place)) => replies::told(Ok(numbers_of(place)), held),
        Ok(None) => replies::told::<4>(Err(replies::NOT_THERE), held),
        Err(error) => replies::told::<4>(Err(replies::place_code(error)), held),
    }
}
