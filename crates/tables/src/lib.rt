#![tactic(auto)]
// What is asked of all entries of a table: whether their names stand in the part, and where the second of them begins.
ghost use Rattle.std.specs.Prelude.{◌≡◌};
ghost use Rattle.tables.specs.Fit.{fits, all_fit};
ghost use Rattle.tables.specs.Second.{smallest, second};

// The least beginning from a bound on; 16777216 if there is none.
fn smallest(table: &[u64], bound: usize) -> usize
    ensures { result ≡ smallest bound table.now }
{
    table
        .iter()
        .map(|x| entries::begin_of(*x))
        .filter(|begin| bound <= *begin)
        .fold(16777216, |found, begin| entries::lesser(begin, found))
}

// The least beginning but one, which of entries of one name is the first twin; 16777216 if there is none.
pub fn second(table: &[u64]) -> usize
    ensures { result ≡ second table.now }
{
    let first = smallest(table, 0);
    smallest(table, first + 1)
}

// ---- entries that fit

fn is_fit(part: &[u8], x: u64) -> bool
    ensures { result ≡ fits part.now x }
{
    entries::begin_of(x) + entries::length_of(x) <= part.len()
}

// The names of all entries stand in the part.
pub fn are_fit<'a>(part: &'a [u8], table: &'a [u64]) -> bool
    ensures { result ≡ all_fit part.now table.now }
{
    table.iter().all(|x| is_fit(part, *x))
}
