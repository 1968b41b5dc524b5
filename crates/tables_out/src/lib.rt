// The records of all points and of all facets of the lent tables, written over the beginning of a buffer.
#![tactic(auto)]

ghost use Rattle.std.specs.Prelude.{◌≡◌};
ghost use Rattle.whole.specs.Over.{over};
ghost use Rattle.tables_out.specs.Records.{all_points, PutsPoints, all_facets, PutsFacets};

// The records of all points, each at the beginning of the rest that the one before it left.
pub fn put_points(buffer: &mut [u8], points: &[i32])
    requires { PutsPoints points.now buffer.old }
    ensures { buffer.new ≡ over (all_points points.now) buffer.old }
{
    for v in 0..points.len() / 3 {
        let x = points::coord(points, v, 0);
        let y = points::coord(points, v, 1);
        let z = points::coord(points, v, 2);
        records::put_point(&mut buffer[7 * v..], x, y, z);
    }
}

// The records of all facets, likewise.
pub fn put_facets(buffer: &mut [u8], corners: &[u16], begins: &[u16])
    requires { PutsFacets corners.now begins.now buffer.old }
    ensures { buffer.new ≡ over (all_facets corners.now begins.now) buffer.old }
{
    let mut at = 0;
    for f in 0..begins.len() - 1 {
        let part = tables::part(corners, begins, f);
        records::put_facet(&mut buffer[at..], part);
        at += 1 + 2 * part.len();
    }
}
