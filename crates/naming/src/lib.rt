#![tactic(auto)]
// The names of an object of the write list. They are noted while its frames are read, and at its end the first frame is told whose name it has already
// ("The write list"). Positions are the list's, and one behind its end counts as its end.
ghost use Rattle.std.specs.Prelude.{◌≡◌};
ghost use Rattle.notes.specs.Notes.{noting};
ghost use Rattle.naming.specs.Names.{noted_by, room_for, ending, ended_by};

use frames::{Refusal, Refused};
use notes::Notes;
use select::Source;
use settle::Measured;

// The name of a frame of the object whose frames begin at `at`: it stands from one position to another behind that.
pub fn note(
    list: &[u8],
    at: usize,
    table: &mut [u64],
    notes: Notes,
    begin: usize,
    end: usize,
) -> Notes
    ensures { noting result table.new ≡ noted_by list.now at table.old notes begin end }
{
    let part = &list[at.min(list.len())..];
    let name = entries::entry(part, begin.saturating_sub(at), end.saturating_sub(at));
    notes::add(part, table, notes, name)
}

// How many numbers of a table are lent for the names of frames that begin before `reach`: one for each byte, which is more than there are names; and the
// notes.
#[tactic(auto, using(crate::proofs::RoomLaws::room_is))]
fn room_for(numbers: usize, held: usize, reach: usize) -> usize
    ensures { result ≡ room_for numbers held reach }
{
    numbers.min(held.max(reach))
}

// What the object comes to, once the names of its frames were noted that begin less than `reach` behind the first: refused for a name, or what was
// measured, which is not refused before the last of these frames. With `reach` 0 there was no frame. `left` levels are left.
#[tactic(auto, using(crate::proofs::NameReturns::ended_empty))]
pub fn ended(
    list: &[u8],
    at: usize,
    table: &mut [u64],
    notes: Notes,
    reach: usize,
    left: u32,
    measured: Result<Measured, Refused>,
) -> Result<Measured, Refused>
    ensures { ending result table.new ≡ ended_by left list.now at table.old notes reach measured }
{
    if reach == 0 {
        return measured;
    }
    let from = at.min(list.len());
    let part = &list[from..];
    let room = room_for(table.len(), notes::held(notes), reach);
    let source = Source::Frames(left, reach - 1);
    let twin = notes::first_twin(part, source, &mut table[..room], notes);
    if twin < 16777216 {
        let place = used::place_of(part, left, twin);
        return Err(Refusal::NameUsed.at(from + place));
    }
    measured
}
