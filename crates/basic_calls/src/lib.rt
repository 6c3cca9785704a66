#![tactic(auto)]
// The calls on parts of a payload and on floats, in numbers. What is asked is answered as 1 if it is so, and as 0 if not.
ghost use Rattle.std.specs.Prelude.{◌≡◌};
ghost use Rattle.text.specs.Equal.{equal};
ghost use Rattle.text.specs.Utf8.{is_text};
ghost use Rattle.float.specs.Rule.{holds};
ghost use Rattle.replies.specs.Number.{truth, afterwards};
ghost use Rattle.replies.specs.Reply.{varuint};

use replies::number_of;

// 0: a whole VarUInt stands at the front, and `answer` starts with its value, the bytes it takes, and 1 if it is minimal. 1: it is cut off, and `answer`
// starts with how many bytes are missing. 12: fewer than three numbers are lent. Numbers that the answer does not name are as before.
pub fn varuint(part: &[u8], answer: &mut [u64]) -> u32
    ensures { afterwards result answer.new ≡ varuint part.now answer.old }
{
    replies::varuint(number::read(part), answer)
}

// The part is UTF-8.
pub fn is_text(part: &[u8]) -> u32
    ensures { result ≡ truth (is_text part.now) }
{
    number_of(text::is_text(part))
}

// The parts are equal, byte by byte.
pub fn are_equal<'a>(a: &'a [u8], b: &'a [u8]) -> u32
    ensures { result ≡ truth (equal a.now b.now) }
{
    number_of(text::are_equal(a, b))
}

// Float32 holds the Float64 of these bits.
pub fn float32_holds(bits: u64) -> u32
    ensures { result ≡ truth (holds bits) }
{
    number_of(float::float32_holds(bits))
}
