#![tactic(auto)]
// Entries of one name, and the first of some entries that has the name of one before it.
ghost use Rattle.std.specs.Prelude.{◌≡◌, take};
ghost use Rattle.entries.specs.Least.{is_first, least};
ghost use Rattle.pairs.specs.Code.{least_with, least_past};

// The first begins before the second, and has its name.
pub fn is_first(part: &[u8], x: u64, y: u64) -> bool
    ensures { result ≡ is_first part.now x y }
{
    entries::begin_of(x) < entries::begin_of(y) && compare::compare(part, x, y).is_eq()
}

// Where the first twin begins so far, with these two: most are told apart by their keys.
fn with(part: &[u8], x: u64, y: u64, least: usize) -> usize
    ensures { result ≡ least_with part.now x y least }
{
    if x / 16777216 != y / 16777216 {
        return least;
    }
    if is_first(part, x, y) {
        return entries::lesser(entries::begin_of(y), least);
    }
    if is_first(part, y, x) {
        return entries::lesser(entries::begin_of(x), least);
    }
    least
}

// The same with an entry and each of those before it.
fn past<'a>(part: &'a [u8], before: &'a [u64], y: u64, least: usize) -> usize
    ensures { result ≡ least_past part.now before.now y least }
{
    let mut least_so_far = least;
    for x in before {
        least_so_far = with(part, *x, y, least_so_far);
    }
    least_so_far
}

// Where the first begins of the first n entries that has the name of one that begins before it; 16777216 if none has. They are compared in pairs.
// (A number and no Option, here and above: it is the least of no places, so that what finds the least goes on from it.)
pub fn first_twin<'a>(part: &'a [u8], table: &'a [u64], n: usize) -> usize
    ensures { result ≡ least part.now (take n table.now) }
{
    let all = &table[..n.min(table.len())];
    let mut least = 16777216;
    for (i, y) in all.iter().enumerate() {
        least = past(part, &all[..i], *y, least);
    }
    least
}
