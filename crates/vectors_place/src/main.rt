// Runs the examples of a cell's place in a list (F-3) on the compiled call. Each line names a list and the number sought, and prints what the call gave:
// the place, from 1, or none, and how many numbers were read. The file `stdout` has these lines, to be read beside the request.
#![tactic(auto)]

const RISING: [u8; 6] = [0, 3, 0, 5, 0, 9];

const UNSORTED: [u8; 6] = [0, 9, 0, 3, 0, 5];

// Printed by the calls of `io`: formats would need the runtime in each function, or a writer of this program's own.
fn say(name: &[u8], list: &[u8], cell: u32) {
    // what stands there before the call does not matter
    let mut read = 77;
    let p = place_search::place(list, cell, &mut read);
    io::write_all(1, name);
    if p == 0 {
        io::write_all(1, b": none, read ");
    } else {
        io::write_all(1, b": place ");
        io::print_decimal(1, p);
        io::write_all(1, b", read ");
    }
    io::print_decimal(1, read as u64);
    io::write_all(1, b"\n");
}

fn present() {
    say(b"3 5 9, sought 3", &RISING, 3);
    say(b"3 5 9, sought 5", &RISING, 5);
    say(b"3 5 9, sought 9", &RISING, 9);
}

fn absent() {
    say(b"3 5 9, sought 1", &RISING, 1);
    say(b"3 5 9, sought 4", &RISING, 4);
    say(b"3 5 9, sought 10", &RISING, 10);
    say(b"3 5 9, sought 65541, which is 2^16 + 5", &RISING, 65541);
    say(b"3 5 9, sought 70000", &RISING, 70000);
}

fn other_lists() {
    say(b"9 3 5, which does not rise, sought 5", &UNSORTED, 5);
    say(b"no numbers, sought 0", b"", 0);
    say(b"3 5 and half a word, sought 5", b"\x00\x03\x00\x05\x00", 5);
    say(b"3 5 and half a word, sought 6", b"\x00\x03\x00\x05\x00", 6);
}

fn main() {
    present();
    absent();
    other_lists();
}
