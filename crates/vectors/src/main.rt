#![tactic(auto)]
// Runs the payloads that document 01 lists ("Payloads beside their masks"), in its order. Of the nested case, document 02 has another spelling (M-102): it is
// run first, and then that of 01, which is refused. The stored output is written from the documents.

const STDOUT_FILENO: i32 = 1;

const NONE: u32 = 0;

const WITHOUT_PADDING: u32 = 3;

const STRICT: u32 = 7;

fn print_bytes(part: &[u8]) {
    for b in part {
        io::print_hex(STDOUT_FILENO, u64::from(*b), 2);
    }
}

// A payload, the modes that are asked, and the mask.
fn run(modes: u32, payload: &[u8]) {
    io::write_all(STDOUT_FILENO, b"payload ");
    print_bytes(payload);
    io::write_all(STDOUT_FILENO, b" modes ");
    io::print_decimal(STDOUT_FILENO, modes as u64);
    io::write_all(STDOUT_FILENO, b": ");
    io::print_decimal(STDOUT_FILENO, validate::validate(modes, payload) as u64);
    io::write_all(STDOUT_FILENO, b"\n");
}

fn containers() {
    run(STRICT, b"");
    run(STRICT, b"\x15");
    run(STRICT, b"\x42\x00");
    run(STRICT, b"\x02\x00");
    run(STRICT, b"\x04\x01\x00");
    run(STRICT, b"\x09\x29");
    run(STRICT, b"\x05\x05\x03\x08\x01\x02\x03");
    run(STRICT, b"\x05\x06\x03\x08\x01\x02\x03");
    run(STRICT, b"\x02\x12\xc7\x04name\x05Alice\xc8\x03age\x1e");
    run(STRICT, b"\x02\x17\xc7\x04name\x05Alice\xc8\x03age\x1e");
    run(STRICT, b"\x02\x0c\xc2\x05inner\x04\xc8\x01x\x0a");
    run(NONE, b"\x02\x0c\xc2\x05inner\x04\xc8\x01x\x0a");
    run(STRICT, b"\x03\x0c\x83\x05inner\x04\x88\x01x\x0a");
    run(STRICT, b"\x03\x0c\x03\x05inner\x04\x08\x01x\x0a");
    run(STRICT, b"\x04\x03\x02\x4c\x4c");
    run(STRICT, b"\x05\x02\x02\x0c");
}

fn numbers() {
    run(STRICT, b"\x08\x80\x05");
    run(STRICT, b"\x08\x05\x00");
    run(WITHOUT_PADDING, b"\x08\x05\x00");
    run(STRICT, b"\x09\xff\x7f\xff\xff\xff\xff\xff\xff\xff");
    run(STRICT, b"\x09\xff\x80\x00\x00\x00\x00\x00\x00\x00");
    run(STRICT, b"\x0b\x3f\xf0\x00\x00\x00\x00\x00\x00");
    run(STRICT, b"\x0b\x36\xa0\x00\x00\x00\x00\x00\x00");
    run(STRICT, b"\x0b\x36\x90\x00\x00\x00\x00\x00\x00");
    run(STRICT, b"\x0b\x7f\xf8\x00\x00\x00\x00\x00\x00");
}

fn names() {
    run(STRICT, b"\x07\x01\xc3");
    run(STRICT, b"\x02\x07\xc1\x01a\xc8\x01a\x05");
    run(STRICT, b"\x02\x07\xc1\x00\xc8\x01a\x80\x05");
}

fn main() {
    containers();
    numbers();
    names();
}
