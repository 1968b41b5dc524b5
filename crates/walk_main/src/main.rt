// Walks on the solid of the tape in the file `solid.tape`, from the start and in the direction on standard input, and prints
// one line: number, vertex, height, moves.
#![tactic(auto)]

fn main(rt: HostRuntime) -> Result<(), run::Fault<'static>> {
    run::walk_input(&rt, b"solid.tape")
}
