// The tape's records, each written at the beginning of the unwritten rest of a buffer.
#![tactic(auto)]

ghost use Rattle.std.specs.Prelude.{◌≡◌, [], ◌∷◌, ◌+◌, ◌*◌, ◌≤◌, ◌<◌, length};
ghost use Rattle.std.proofs.lemmas.List.Edits.{sets};
ghost use Rattle.tables.specs.Tables.{most_sides};
ghost use Rattle.whole.specs.Over.{over};
ghost use Rattle.tape.specs.Records.{point, facet, bytes, packed, framed};
ghost use Rattle.records.specs.Records.{PutsPoint};

// A point's record, at the beginning of the unwritten rest.
pub fn put_point(rest: &mut [u8], x: i32, y: i32, z: i32)
    requires { PutsPoint rest.old x y z }
    ensures { rest.new ≡ over (bytes (point x y z)) rest.old }
{
    rest[0] = 1;
    tape::put_signed(rest, 1, x);
    tape::put_signed(rest, 3, y);
    tape::put_signed(rest, 5, z);
}

// The numbers of a body, stored from 1 on.
fn put_body(rest: &mut [u8], numbers: &[u16])
    requires { 1 + 2 * length numbers.now ≤ length rest.old }
    ensures { rest.new ≡ sets rest.old 1 (packed numbers.now) }
{
    for (k, number) in numbers.iter().enumerate() {
        tape::put_unsigned(rest, 1 + 2 * k, *number);
    }
}

// A facet's record.
pub fn put_facet(rest: &mut [u8], corners: &[u16])
    requires { (length corners.now ≤ most_sides) × (1 + 2 * length corners.now ≤ length rest.old) }
    ensures { rest.new ≡ over (bytes (facet corners.now)) rest.old }
{
    rest[0] = corners.len() as u8;
    put_body(rest, corners);
}

// A record of two counts.
pub fn put_counts(rest: &mut [u8], kind: u8, v: u16, f: u16)
    requires { 5 ≤ length rest.old }
    ensures { rest.new ≡ over (framed kind (v ∷ f ∷ [])) rest.old }
{
    rest[0] = kind;
    tape::put_unsigned(rest, 1, v);
    tape::put_unsigned(rest, 3, f);
}
