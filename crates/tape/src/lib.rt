// The tape: its little-endian numbers, and the kinds of its records.
#![tactic(auto)]

ghost use Rattle.std.specs.Prelude.{◌≡◌, ◌+◌, ◌<◌, length};
ghost use Rattle.std.proofs.lemmas.List.Edits.{sets};
ghost use Rattle.tape.specs.Little.{bytes_of, unsigned_at, signed_at, bits, PutsSigned};

// A record that stands whole in a tape: a point's, that of a facet with as many corners, or the end's.
#[derive(Clone, Copy)]
pub enum Record {
    Point,
    Facet(usize),
    End,
}

// The unsigned number whose two bytes stand at i.
#[tactic(auto, unfolding(crate::specs::Little::number_at))]
pub fn unsigned_at(tape: &[u8], i: usize) -> u16
    requires { i + 1 < length tape.now }
    ensures { result ≡ unsigned_at tape.now i }
{
    u16::from_le_bytes([tape[i], tape[i + 1]])
}

// The signed number whose two bytes stand at i.
#[tactic(auto, unfolding(crate::specs::Little::signed))]
pub fn signed_at(tape: &[u8], i: usize) -> i32
    requires { i + 1 < length tape.now }
    ensures { result ≡ signed_at tape.now i }
{
    i32::from(unsigned_at(tape, i).cast_signed())
}

// The two bytes of an unsigned number, stored at i.
#[tactic(auto, unfolding(crate::specs::Little::bytes_of))]
pub fn put_unsigned(buffer: &mut [u8], i: usize, n: u16)
    requires { i + 1 < length buffer.old }
    ensures { buffer.new ≡ sets buffer.old i (bytes_of 2 n) }
{
    buffer[i..i + 2].copy_from_slice(&n.to_le_bytes());
}

// The two bytes of a signed number, stored at i.
#[tactic(auto, unfolding(crate::specs::Little::bits))]
pub fn put_signed(buffer: &mut [u8], i: usize, x: i32)
    requires { PutsSigned buffer.old i x }
    ensures { buffer.new ≡ sets buffer.old i (bytes_of 2 (bits x)) }
{
    put_unsigned(buffer, i, (x as i16).cast_unsigned());
}
