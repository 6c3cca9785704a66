#![tactic(auto)]
// Runs the examples of Spec 2.7 both ways, and the floats of document 01. The stored output is written from the documents.
const STDOUT_FILENO: i32 = 1;

fn print_bytes(part: &[u8]) {
    for b in part {
        io::print_hex(STDOUT_FILENO, u64::from(*b), 2);
    }
}

// A value, and its minimal form, which is put into `out`.
fn put(v: u64, out: &mut [u8]) {
    io::write_all(STDOUT_FILENO, b"put ");
    io::print_hex(STDOUT_FILENO, v, 1);
    io::write_all(STDOUT_FILENO, b": ");
    match encode::put(v, out, 0) {
        Some(n) => {
            print_bytes(&out[..n]);
        }
        None => {
            io::write_all(STDOUT_FILENO, b"no room");
        }
    }
    io::write_all(STDOUT_FILENO, b"\n");
}

fn print_minimal(minimal: bool) {
    if minimal {
        io::write_all(STDOUT_FILENO, b" minimal");
    } else {
        io::write_all(STDOUT_FILENO, b" not minimal");
    }
}

// A part, and the value at its front, how many bytes it takes, and whether that is minimal; or how many bytes are missing.
fn read(part: &[u8]) {
    io::write_all(STDOUT_FILENO, b"read ");
    print_bytes(part);
    io::write_all(STDOUT_FILENO, b": ");
    match number::read(part) {
        Err(cut) => {
            io::write_all(STDOUT_FILENO, b"cut, missing ");
            io::print_decimal(STDOUT_FILENO, cut.missing as u64);
        }
        Ok(number) => {
            io::print_hex(STDOUT_FILENO, number.value, 1);
            io::write_all(STDOUT_FILENO, b" of ");
            io::print_decimal(STDOUT_FILENO, number.length as u64);
            print_minimal(number.minimal);
        }
    }
    io::write_all(STDOUT_FILENO, b"\n");
}

fn both(v: u64, part: &[u8]) {
    let mut out = [0u8; 9];
    put(v, &mut out);
    read(part);
}

fn held(bits: u64) {
    io::write_all(STDOUT_FILENO, b"float32 holds ");
    io::print_hex(STDOUT_FILENO, bits, 16);
    if float::float32_holds(bits) {
        io::write_all(STDOUT_FILENO, b": yes\n");
    } else {
        io::write_all(STDOUT_FILENO, b": no\n");
    }
}

fn widen(bits: u32) {
    io::write_all(STDOUT_FILENO, b"widen ");
    io::print_hex(STDOUT_FILENO, bits as u64, 8);
    io::write_all(STDOUT_FILENO, b": ");
    io::print_hex(STDOUT_FILENO, float::widen(bits), 16);
    io::write_all(STDOUT_FILENO, b"\n");
}

fn spec_numbers() {
    both(0x01, b"\x01");
    both(0x7f, b"\x7f");
    both(0x80, b"\x80\x80");
    both(0x123, b"\x81\x23");
    both(0x1234, b"\x92\x34");
    both(0x12345, b"\xc1\x23\x45");
    both(0x123456, b"\xd2\x34\x56");
    both(0x1234567, b"\xe1\x23\x45\x67");
    both(0x12345678, b"\xf0\x12\x34\x56\x78");
    both(0x123456789abcdef0, b"\xff\x12\x34\x56\x78\x9a\xbc\xde\xf0");
}

// A number that is not minimal, and one that is cut off.
fn other_numbers() {
    read(b"\x80\x05");
    read(b"\x81");
}

fn floats() {
    held(0x3ff0000000000000);
    held(0x36a0000000000000);
    held(0x3690000000000000);
    held(0x7ff8000000000000);
    widen(0x3f800000);
    widen(0x80000000);
    widen(0x00000001);
    widen(0x7f800000);
    widen(0x7fc00000);
    widen(0xffc00000);
    widen(0x7f800001);
}

fn main() {
    spec_numbers();
    other_numbers();
    floats();
}
