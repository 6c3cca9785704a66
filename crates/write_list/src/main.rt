#![tactic(auto)]
// The program of document 01 that writes a list, as `rt` runs it: with no exit status. It is the crate `program`, which programs/write_list.c
// makes a program with one.
fn main(rt: HostRuntime) {
    program::ajuqvane_write_list(rt.stdin(), rt.stdout(), rt.stderr());
}
