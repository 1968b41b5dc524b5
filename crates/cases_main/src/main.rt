// Runs the stored cases: each line of standard input is one.
#![tactic(auto)]

use std::io;

// Room for their text.
const TEXT: usize = 400000;

fn main(rt: HostRuntime) -> io::Result<()> {
    let mut text = [0u8; TEXT];
    let len = streams::read_all(&mut rt.reader(), &mut text)?;
    cases::run(&mut io::writer(&rt), &text[..len])
}
