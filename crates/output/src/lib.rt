#![tactic(auto)]
// Bytes of a write list copied into the output, and what the second pass asks again of a frame: a Float64's bits and the ID as encoded.
ghost use Rattle.std.specs.Prelude.{◌≡◌};
ghost use Rattle.output.specs.Copied.{copied};
ghost use Rattle.output.specs.Encoded.{bits_at, final_id};

// The bytes of the list from `from` up to `end`, copied to a place of the output; nothing, where they do not stand in the list or have no room there.
pub fn copy(list: &[u8], from: usize, end: usize, out: &mut [u8], to: usize)
    ensures { out.new ≡ copied list.now from end out.old to }
{
    if let Some(bytes) = list.get(from..end) {
        if to <= out.len() && bytes.len() <= out.len() - to {
            // Not `copy_from_slice`: the compiler makes a call of `memmove` of it, which the archives would need from outside.
            for (i, &byte) in bytes.iter().enumerate() {
                out[to + i] = byte;
            }
        }
    }
}

// The eight bytes from a position on as a number, big-endian; 0 where there are fewer.
pub fn bits_at(list: &[u8], at: usize) -> u64
    ensures { result ≡ bits_at list.now at }
{
    list.get(at..).map_or(0, frame::bits_of)
}

// The ID as encoded of a whole frame whose payload starts here: b is its kind, the list's byte, which the first pass has checked, and x what that left in its
// work number if it is a container.
pub fn final_id(list: &[u8], b: u8, start: usize, x: u32) -> u8
    ensures { result ≡ final_id list.now b start x }
{
    match b {
        2 | 4 => container::container_id(b == 2, container::is_uniform_in(x)),
        11 if float::float32_holds(bits_at(list, start)) => 10,
        _ => b,
    }
}
