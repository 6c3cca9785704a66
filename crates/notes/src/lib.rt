#![tactic(auto)]
// Names noted while an object is read: the few of a small object all, in a table; of many only that they ascend, and the last. What comes of them at the
// object's end is where the first name begins that stands a second time.
ghost use Rattle.std.specs.Prelude.{◌≡◌, [], ◌∷◌, ◌++◌, take};
ghost use Rattle.notes.specs.Notes.{rises, held_in, risen, noting, added, told};

use select::Source;

// Few: so many entries stand in front of the table, and they are all. Rising: each name came before the next, and this is the last. Many: nothing is known.
#[derive(Clone, Copy)]
pub enum Notes {
    Few(usize),
    Rising(u64),
    Many,
}

// How many numbers in front of the table are notes.
pub fn held(notes: Notes) -> usize
    ensures { result ≡ held_in notes }
{
    match notes {
        Notes::Few(n) => n,
        Notes::Rising(_) | Notes::Many => 0,
    }
}

// The first n entries of the table ascend, and x comes behind them. Looked at from the end, since most that do not ascend end so.
#[tactic(auto, using(crate::proofs::NoteReturns::rise_laws))]
fn rise(part: &[u8], table: &[u64], n: usize, x: u64) -> bool
    ensures { result ≡ rises part.now (take n table.now ++ (x ∷ [])) }
{
    let mut next = x;
    for i in (0..entries::lesser(n, table.len())).rev() {
        let last = table[i];
        if !compare::ascends(part, last, next) {
            return false;
        }
        next = last;
    }
    true
}

// What is known with x behind names that ascend, or do not.
#[tactic(auto, using(crate::proofs::NoteReturns::risen_laws))]
fn risen(ascend: bool, x: u64) -> Notes
    ensures { result ≡ risen ascend x }
{
    if ascend {
        Notes::Rising(x)
    } else {
        Notes::Many
    }
}

// One name more.
#[tactic(auto, using(crate::proofs::NoteReturns::add_laws))]
pub fn add(part: &[u8], table: &mut [u64], notes: Notes, x: u64) -> Notes
    ensures { noting result table.new ≡ added part.now table.old notes x }
{
    match notes {
        Notes::Few(n) => {
            if n < entries::lesser(16, table.len()) {
                table[n] = x;
                return Notes::Few(n + 1);
            }
            risen(rise(part, table, n, x), x)
        }
        Notes::Rising(last) => risen(compare::ascends(part, last, x), x),
        Notes::Many => Notes::Many,
    }
}

// All names were met: where the first begins that stands a second time; 16777216 if every name stands once.
#[tactic(auto, using(crate::proofs::NoteReturns::told_laws))]
pub fn first_twin(part: &[u8], source: Source, table: &mut [u64], notes: Notes) -> usize
    ensures { record { answer = result; table = table.new } ≡ told source part.now table.old notes }
{
    match notes {
        Notes::Few(n) => pairs::first_twin(part, table, n),
        Notes::Rising(_) => 16777216,
        Notes::Many => select::first_twin(part, source, table),
    }
}
