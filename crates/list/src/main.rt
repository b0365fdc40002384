// The list program: reads a mesh, a byte P, the owners, a byte stencil length and the stencil from standard input, and prints the lists of the
// parts, the number of the refusal, or that the input is too long. The text is that of `list_input`; here stand only reading and printing.
#![tactic(auto)]

ghost use Rattle.std.specs.Prelude.{◌≤◌, length};
ghost use Rattle.list_input.specs.Pieces.{text_room};

use list_input::list_text;

// Prints the text of an input, by way of a buffer with room for any.
fn print_list(input: &[u8], out: &mut [u8])
    requires { text_room ≤ length out.old }
{
    let t = list_text(input, out);
    io::write_all(1, &out[..t]);
}

fn main() {
    // one byte more than an input may have
    let mut buffer = [0u8; 65537];
    let n = io::read_full(0, &mut buffer);
    let mut out = [0u8; 700000];
    print_list(&buffer[..n], &mut out);
}
