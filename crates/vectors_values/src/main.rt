// Prints values by each function of `vectors_print` that prints one, and by a function of its own. Words and depths stand with their high byte first.
#![tactic(auto)]

use layout::Refusal;
use vectors_print::{print, print_byte, print_depth, print_point, print_word, say_all};

fn main() {
    say_all(
        "words, 1 and the greatest",
        Ok(2),
        b"\x00\x01\xff\xff",
        print_word,
    );
    say_all(
        "depths, 1, a gap and -100",
        Ok(3),
        b"\x00\x00\x00\x01\x80\x00\x00\x00\xff\xff\xff\x9c",
        print_depth,
    );
    say_all("bytes", Ok(3), b"\x00\x0a\xff", print_byte);
    say_all(
        "points 7 and 9",
        Ok(2),
        b"\x00\x07\x00\x00\x00\x64\x00\x09\x80\x00\x00\x00",
        print_point,
    );
    say_all("a word, and past the end", Ok(2), b"\x00\x05", print_word);
    say_all("the places of three values", Ok(3), b"", |_out, i| print(i));
    say_all("no values", Ok(0), b"\x00\x05", print_word);
    say_all("no message", Err(Refusal::Message), b"\x00\x05", print_word);
}
