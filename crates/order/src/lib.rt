#![tactic(auto)]
// The entries of a table, put in the order of their names, up to the first that has the name of one before it.
ghost use Rattle.std.specs.Prelude.{◌≡◌, ◌*◌, ◌≤◌, ◌<◌, length, Some};
ghost use Rattle.order.specs.Arranged.{arranged, afterwards};
ghost use Rattle.order.specs.Passes.{Holds, Halves, Copies, Merges, Joins, Sorts, Tells, Keeps, Seconds, least_next};

// How many entries are kept, and where the first begins that is not, since an entry before it has its name.
#[derive(Clone, Copy, Debug, PartialEq, Eq)]
pub struct Arranged {
    pub count: usize,
    pub least: usize,
}

// The entry of the second half is next: there is one, and it stands before that of the first.
fn is_second<'a>(part: &'a [u8], table: &'a [u64], x: u64, at: usize, n: usize) -> bool
    requires { n ≤ length table.now }
    ensures { Seconds part.now table.now x at n result }
{
    at < n && !compare::is_upto(part, x, table[at])
}

// Two sorted runs become one, from the front: m entries that stand in the room, and those from m to n.
fn merge(part: &[u8], table: &mut [u64], m: usize, n: usize, room: usize)
    requires { Halves table.old m n room }
    ensures { Merges part.now m n room table.old table.new }
{
    let mut i = 0;
    let mut j = 0;
    // No `for`: a turn goes on in one run or in the other.
    while i < m {
        let x = table[room + i];
        if is_second(part, table, x, m + j, n) {
            table[i + j] = table[m + j];
            j += 1;
        } else {
            table[i + j] = x;
            i += 1;
        }
    }
}

// Two sorted runs that stand one behind the other, up to m and up to n, become one. Often they are in order already.
fn join(part: &[u8], table: &mut [u64], m: usize, n: usize, room: usize)
    requires { (0 < m) × (m < n) × Holds table.old n room }
    ensures { Joins part.now m n room table.old table.new }
{
    if compare::is_upto(part, table[m - 1], table[m]) {
        return;
    }
    table.copy_within(..m, room);
    merge(part, table, m, n, room);
}

// The first n entries are put in order, by halves.
fn sort(part: &[u8], table: &mut [u64], n: usize, room: usize)
    requires { Holds table.old n room }
    ensures { Sorts part.now n room table.old table.new }
{
    if n < 2 {
        return;
    }
    let m = n / 2;
    sort(part, table, m, room);
    sort(part, &mut table[m..], n - m, room - m);
    join(part, table, m, n, room);
}

// The least beginning, if the second of two neighbours is a twin of the first.
fn next_least(part: &[u8], x: u64, y: u64, least: usize) -> usize
    ensures { result ≡ least_next part.now x y least }
{
    if pairs::is_first(part, x, y) {
        return entries::lesser(entries::begin_of(y), least);
    }
    least
}

// Where the first of the sorted entries begins that has the name of one before it: entries of one name are neighbours.
fn first_twin<'a>(part: &'a [u8], table: &'a [u64], n: usize) -> usize
    requires { n ≤ length table.now }
    ensures { Tells part.now table.now n result }
{
    let mut least = 16777216;
    for pair in table[..n].windows(2) {
        least = next_least(part, pair[0], pair[1], least);
    }
    least
}

// The entries that begin before a place, moved to the front. Each is put where the next kept one goes: no branch goes by an entry.
fn keep(table: &mut [u64], n: usize, least: usize) -> usize
    requires { n ≤ length table.old }
    ensures { Keeps least n result table.old table.new }
{
    let mut k = 0;
    for i in 0..n {
        let x = table[i];
        table[k] = x;
        k += usize::from(entries::begin_of(x) < least);
    }
    k
}

// A table of n entries and as much room is arranged.
fn settle(part: &[u8], table: &mut [u64], n: usize) -> Arranged
    requires { length table.old ≡ 2 * n }
    ensures { afterwards (Some result) table.new ≡ arranged part.now table.old n }
{
    sort(part, table, n, n);
    let least = first_twin(part, table, n);
    let count = keep(table, n, least);
    table[count..].fill(0);
    Arranged { count, least }
}

// The first n entries of a table, with as much room behind them, are put in order, up to the first that has the name of one before it. None: there is less.
pub fn arrange(part: &[u8], table: &mut [u64], n: usize) -> Option<Arranged>
    ensures { afterwards result table.new ≡ arranged part.now table.old n }
{
    if table.len() / 2 < n {
        return None;
    }
    Some(settle(part, &mut table[..2 * n], n))
}
