#![tactic(auto)]
// A container, by the ID that its fields share: 0 if it has none, 255 if their IDs differ. `named` says whether it is an object. And the number that
// stands for a container between the writer's passes.
ghost use Rattle.std.specs.Prelude.{◌≡◌, ◌≤◌, length, set, get_or};
ghost use Rattle.format.specs.Kinds.{flags};
ghost use Rattle.frames.specs.Container.{container_id, type_mark, shared_mark, count_part, size_by, packed, size_in, width_in, shared_in, uniform_in};
ghost use Rattle.container.specs.Numbers.{cleared};

use format::Mark;

// A work number between the passes is the size, the width of the count below it, and the shared ID below that: what each of the two upper ones is scaled by.
const SIZE: u32 = 256;

const WIDTH: u32 = 32;

pub fn container_id(named: bool, uniform: bool) -> u8
    ensures { result ≡ container_id named uniform }
{
    match (named, uniform) {
        (true, false) => 2,
        (true, true) => 3,
        (false, false) => 4,
        (false, true) => 5,
    }
}

// What stands above the ID in the type byte of a field or an item.
pub fn type_flags(named: bool) -> u8
    ensures { result ≡ flags (type_mark named) }
{
    let mark = if named { Mark::OfField } else { Mark::OfItem };
    format::flags_of(mark)
}

// What stands above the ID in the shared byte.
pub fn shared_flags(named: bool) -> u8
    ensures { result ≡ flags (shared_mark named) }
{
    let mark = if named {
        Mark::SharedByFields
    } else {
        Mark::SharedByItems
    };
    format::flags_of(mark)
}

// The width of the count: an object has none.
fn count_width(named: bool, count: u32) -> usize
    ensures { (result ≡ length (count_part named count)) × (result ≤ 9) }
{
    if named {
        0
    } else {
        encode::length(u64::from(count))
    }
}

// The size: the count, the shared byte or the type bytes, and what else the fields have, which is `sum`.
pub fn size_of(named: bool, shared: u8, count: u32, sum: u32) -> usize
    ensures { result ≡ size_by named shared count sum }
{
    let types = if run::is_uniform(named, shared) {
        1
    } else {
        count as usize
    };
    count_width(named, count) + types + sum as usize
}

// What the first pass leaves to the second: the size, the width of the count, and the shared ID, which is 0 if the container is not uniform.
pub fn pack(named: bool, shared: u8, count: u32, size: u32) -> usize
    ensures { result ≡ packed named shared count size }
{
    let id = if run::is_uniform(named, shared) {
        shared
    } else {
        0
    };
    size as usize * SIZE as usize + count_width(named, count) * WIDTH as usize + usize::from(id)
}

pub fn size_in(x: u32) -> u32
    ensures { result ≡ size_in x }
{
    x / SIZE
}

pub fn width_in(x: u32) -> u32
    ensures { result ≡ width_in x }
{
    x % SIZE / WIDTH
}

pub fn shared_in(x: u32) -> u8
    ensures { result ≡ shared_in x }
{
    (x % WIDTH) as u8
}

pub fn is_uniform_in(x: u32) -> bool
    ensures { result ≡ uniform_in x }
{
    0 < x % WIDTH
}

// ---- the work numbers that are lent

// A container whose number is not lent is only counted.
pub fn store(work: &mut [u32], k: usize, x: u32)
    ensures { work.new ≡ set work.old k x }
{
    // Not `get_mut`: of a slice whose element it lent, a proof knows no more than the length.
    if k < work.len() {
        work[k] = x;
    }
}

// The number of a container, or 0 where none is lent.
pub fn number_at(work: &[u32], k: usize) -> u32
    ensures { result ≡ get_or work.now k 0 }
{
    work.get(k).copied().unwrap_or(0)
}

// All zero, as a refusal leaves the work numbers.
pub fn clear(work: &mut [u32])
    ensures { work.new ≡ cleared work.old }
{
    work.fill(0);
}
