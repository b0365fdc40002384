// Reads a mesh from standard input and says how many cells it has, or the number of its refusal. No accepted mesh is longer than 52,012 bytes.
#![tactic(auto)]

fn main() {
    let mut buffer = [0u8; 65536];
    let n = io::read_full(0, &mut buffer);
    let answer = mesh_valid::check_mesh(&buffer[..n]);
    // printed by the calls of `io`: formats would need the runtime, or a writer of this program's own, for two lines
    match answer {
        Ok(cells) => {
            io::write_all(1, b"cells ");
            io::print_decimal(1, cells as u64);
        }
        Err(refusal) => {
            io::write_all(1, b"refused ");
            io::print_decimal(1, u64::from(u32::from(refusal)));
        }
    }
    io::write_all(1, b"\n");
}
