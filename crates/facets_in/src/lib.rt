// The corners and begins of a tape's records, stored into the lent tables.
#![tactic(auto)]

ghost use Rattle.std.specs.Prelude.{◌≡◌, ◌+◌, ◌*◌, ◌≤◌, length, take};
ghost use Rattle.std.proofs.lemmas.List.Edits.{sets};
ghost use Rattle.whole.specs.Over.{over};
ghost use Rattle.tape.specs.Reading.{numbers_at, corners_at, begins_at};
ghost use Rattle.facets_in.specs.Filling.{Fillable};

// The numbers of a facet's body, which starts at i, gathered in a tray.
fn gather(tray: &mut [u16], tape: &[u8], i: usize, n: usize)
    requires { (n ≤ length tray.old) × (i + 2 * n ≤ length tape.now) }
    ensures { tray.new ≡ over (numbers_at tape.now i n) tray.old }
{
    for k in 0..n {
        tray[k] = tape::unsigned_at(tape, i + 2 * k);
    }
}

// The first n numbers of a tray, stored from c on: by `copy_from_slice` a tape takes a third more instructions.
fn store(corners: &mut [u16], c: usize, tray: &[u16], n: usize)
    requires { (n ≤ length tray.now) × (c + n ≤ length corners.old) }
    ensures { corners.new ≡ sets corners.old c (take n tray.now) }
{
    for k in 0..n {
        corners[c + k] = tray[k];
    }
}

// The corners and the begins of n facets' records from `from` on.
pub fn fill_facets(tape: &[u8], from: usize, corners: &mut [u16], begins: &mut [u16], n: usize)
    requires { Fillable tape.now from n corners.old begins.old }
    ensures corners { corners.new ≡ over (corners_at tape.now from n) corners.old }
    ensures begins { begins.new ≡ over (begins_at tape.now from (n + 1)) begins.old }
{
    let mut tray = [0u16; tables::MOST_SIDES];
    let mut at = from;
    let mut c = 0;
    for f in 0..n {
        let sides = usize::from(tape[at]);
        begins[f] = c as u16;
        gather(&mut tray, tape, at + 1, sides);
        store(corners, c, &tray, sides);
        at += 1 + 2 * sides;
        c += sides;
    }
    begins[n] = c as u16;
}
