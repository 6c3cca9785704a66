#![tactic(auto)]
// Names of a part as the numbers of a table: each is one number.
ghost use Rattle.std.specs.Prelude.{◌≡◌, ◌≤◌, ◌<◌, length, replicate};
ghost use Rattle.entries.specs.Entry.{begin_in, length_in, half_at, mark_of, entry_of};
ghost use Rattle.entries.specs.Least.{lesser};

// ---- an entry

// The lower half of the k-th byte before the end of a name; 0 if the name is shorter.
fn half(part: &[u8], begin: usize, end: usize, k: usize) -> u64
    requires { (begin ≤ end) × (end ≤ length part.now) × (1 ≤ k) }
    ensures { (result ≡ half_at part.now begin end k) × (result < 16) }
{
    if end - begin < k {
        return 0;
    }
    (part[end - k] % 16) as u64
}

// The mark of a name. Most names have four bytes: then nothing is asked of each.
fn mark(part: &[u8], begin: usize, end: usize) -> u64
    requires { (begin ≤ end) × (end ≤ length part.now) }
    ensures { (result ≡ mark_of part.now begin end) × (result < 65536) }
{
    if 4 <= end - begin {
        let fourth = (part[end - 4] % 16) as u64;
        let third = (part[end - 3] % 16) as u64;
        let second = (part[end - 2] % 16) as u64;
        let last = (part[end - 1] % 16) as u64;
        return fourth * 4096 + third * 256 + second * 16 + last;
    }
    let third = half(part, begin, end, 3);
    let second = half(part, begin, end, 2);
    let last = half(part, begin, end, 1);
    third * 256 + second * 16 + last
}

// The entry of the name that stands from one place to another.
pub fn entry(part: &[u8], begin: usize, end: usize) -> u64
    ensures { result ≡ entry_of part.now begin end }
{
    if end < begin || part.len() < end || 16777216 <= part.len() {
        return 0;
    }
    let upper = mark(part, begin, end) * 16777216 + (end - begin) as u64;
    upper * 16777216 + begin as u64
}

// Where the name of an entry begins.
pub fn begin_of(x: u64) -> usize
    ensures { result ≡ begin_in x }
{
    (x % 16777216) as usize
}

// How long it is.
pub fn length_of(x: u64) -> usize
    ensures { result ≡ length_in x }
{
    (x / 16777216 % 16777216) as usize
}

// ---- numbers

pub fn lesser(a: usize, b: usize) -> usize
    ensures { result ≡ lesser a b }
{
    a.min(b)
}

// ---- a table

// All zero.
pub fn clear(table: &mut [u64])
    ensures { table.new ≡ replicate (length table.old) 0 }
{
    table.fill(0);
}
