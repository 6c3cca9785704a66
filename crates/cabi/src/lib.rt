#![tactic(auto)]
// The calls that `cabi_c` exports for C and Rust (include/ajuqvane.h). A truth is answered as 1 or 0. The calls on places answer 0, where the lent
// numbers then start with what is asked for; the number of the fault met; or 3 for no more, 5 for not there, 6 for a wrong kind, 7 for out of range,
// 12 for too few numbers lent.
// C lends a place as its four numbers, so the calls take these and no struct.
ghost use Rattle.std.specs.Prelude.{◌≡◌};
ghost use Rattle.text.specs.Equal.{equal};
ghost use Rattle.text.specs.Utf8.{is_text};
ghost use Rattle.float.specs.Rule.{holds};
ghost use Rattle.float.specs.Width.{widen};
ghost use Rattle.format.specs.Mask.{mask};
ghost use Rattle.validate.specs.Asked.{mask_with};
ghost use Rattle.places.specs.Places.{checked, top, step, part, lookup};
ghost use Rattle.places.specs.Values.{double, signed, unsigned, ticks};
ghost use Rattle.replies.specs.Number.{truth, afterwards};
ghost use Rattle.replies.specs.Reply.{told, varuint, number_reply, signed_reply, ticks_reply};
ghost use Rattle.place_replies.specs.PlaceReply.{place_of, after_of, checked_reply, top_reply, step_reply, part_reply, found_reply};
ghost use Rattle.sending.specs.Sent.{sent};

// 0: a whole VarUInt stands at the front, and `answer` starts with its value, the bytes it takes, and 1 if it is minimal. 1: it is cut off, and `answer`
// starts with how many bytes are missing.
pub fn ajuqvane_varuint(part: &[u8], answer: &mut [u64]) -> u32
    ensures { afterwards result answer.new ≡ varuint part.now answer.old }
{
    basic_calls::varuint(part, answer)
}

// The part is text.
pub fn ajuqvane_is_text(part: &[u8]) -> u32
    ensures { result ≡ truth (is_text part.now) }
{
    basic_calls::is_text(part)
}

// The parts are equal, byte by byte.
pub fn ajuqvane_are_equal<'a>(a: &'a [u8], b: &'a [u8]) -> u32
    ensures { result ≡ truth (equal a.now b.now) }
{
    basic_calls::are_equal(a, b)
}

// Float32 holds the Float64 of these bits.
pub fn ajuqvane_float32_holds(bits: u64) -> u32
    ensures { result ≡ truth (holds bits) }
{
    basic_calls::float32_holds(bits)
}

// The bits of the Float64 that a Float32 of these bits widens to.
pub fn ajuqvane_widen(bits: u32) -> u64
    ensures { result ≡ widen bits }
{
    float::widen(bits)
}

// The mask.
pub fn ajuqvane_validate(modes: u32, payload: &[u8]) -> u32
    ensures { result ≡ mask modes payload.now }
{
    validate::validate(modes, payload)
}

// The mask, with a table that is lent; it holds zeros afterwards.
pub fn ajuqvane_validate_with(modes: u32, payload: &[u8], table: &mut [u64]) -> u32
    ensures { record { answer = result; table = table.new } ≡ mask_with modes payload.now table.old }
{
    validate::validate_with(modes, payload, table)
}

// The check of a place.
pub fn ajuqvane_check(payload: &[u8], kind: u8, start: usize, end: usize, depth: u32) -> u32
    ensures { result ≡ (checked_reply (checked payload.now (place_of kind start end depth))).code }
{
    place_calls::check(payload, kind, start, end, depth)
}

// The top place: its kind, start, end and depth.
pub fn ajuqvane_top(payload: &[u8], answer: &mut [u64]) -> u32
    ensures { afterwards result answer.new ≡ told 4 (top_reply (top payload.now)) answer.old }
{
    place_calls::top(payload, answer)
}

// A step: the field's kind, start, end and depth, and where its name begins: the first field with some 0, else the one behind the end last.
pub fn ajuqvane_step(
    payload: &[u8],
    kind: u8,
    start: usize,
    end: usize,
    depth: u32,
    some: u32,
    last: usize,
    answer: &mut [u64],
) -> u32
    ensures { afterwards result answer.new
        ≡ told 5 (step_reply (step payload.now (place_of kind start end depth) (after_of some last))) answer.old }
{
    place_calls::step(payload, kind, start, end, depth, some, last, answer)
}

// Where a place's view begins and ends.
pub fn ajuqvane_view(
    payload: &[u8],
    kind: u8,
    start: usize,
    end: usize,
    depth: u32,
    answer: &mut [u64],
) -> u32
    ensures { afterwards result answer.new
        ≡ told 2 (part_reply (part payload.now (place_of kind start end depth))) answer.old }
{
    place_calls::view(payload, kind, start, end, depth, answer)
}

// The first field of an object whose name is byte-equal to this one: its kind, start, end and depth.
pub fn ajuqvane_lookup<'a>(
    payload: &'a [u8],
    kind: u8,
    start: usize,
    end: usize,
    depth: u32,
    name: &'a [u8],
    answer: &mut [u64],
) -> u32
    ensures { afterwards result answer.new
        ≡ told 4 (found_reply (lookup payload.now (place_of kind start end depth) name.now)) answer.old }
{
    place_calls::lookup(payload, kind, start, end, depth, name, answer)
}

// A number as a double: its 64 bits.
pub fn ajuqvane_double(
    payload: &[u8],
    kind: u8,
    start: usize,
    end: usize,
    depth: u32,
    answer: &mut [u64],
) -> u32
    ensures { afterwards result answer.new
        ≡ told 1 (number_reply (double payload.now (place_of kind start end depth))) answer.old }
{
    value_calls::double(payload, kind, start, end, depth, answer)
}

// An integer as a signed number, in two's complement.
pub fn ajuqvane_signed(
    payload: &[u8],
    kind: u8,
    start: usize,
    end: usize,
    depth: u32,
    answer: &mut [u64],
) -> u32
    ensures { afterwards result answer.new
        ≡ told 1 (signed_reply (signed payload.now (place_of kind start end depth))) answer.old }
{
    value_calls::signed(payload, kind, start, end, depth, answer)
}

// An integer as an unsigned number.
pub fn ajuqvane_unsigned(
    payload: &[u8],
    kind: u8,
    start: usize,
    end: usize,
    depth: u32,
    answer: &mut [u64],
) -> u32
    ensures { afterwards result answer.new
        ≡ told 1 (number_reply (unsigned payload.now (place_of kind start end depth))) answer.old }
{
    value_calls::unsigned(payload, kind, start, end, depth, answer)
}

// The ticks of a date or a span of time, in two's complement.
pub fn ajuqvane_ticks(
    payload: &[u8],
    kind: u8,
    start: usize,
    end: usize,
    depth: u32,
    answer: &mut [u64],
) -> u32
    ensures { afterwards result answer.new
        ≡ told 1 (ticks_reply (ticks payload.now (place_of kind start end depth))) answer.old }
{
    value_calls::ticks(payload, kind, start, end, depth, answer)
}

// The writer. 0: the answer is the encoding's length. 1 to 11: refused, and the answer is the place. With no number lent it is refused too.
pub fn ajuqvane_write(list: &[u8], out: &mut [u8], work: &mut [u32], answer: &mut [u64]) -> u32
    ensures { record { code = result; held = answer.new; output = out.new; work = work.new }
        ≡ sent list.now out.old work.old answer.old }
{
    sending::send(list, out, work, answer)
}
