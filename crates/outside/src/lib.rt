// Number 12, OUTSIDE: by the look at the neighbours where that finds nothing, else by the scan.
#![tactic(auto)]

ghost use Rattle.std.specs.Prelude.{◌≡◌};
ghost use Rattle.tables.specs.Search.{place_of};
ghost use Rattle.scan.specs.Rules.{outside};
ghost use Rattle.outside.specs.Scannable.{Scannable};

use index::Index;
use tables::Place;

// Up to so many vertices the scan is no longer than the look at the neighbours, and it reads the points in order.
const MOST_SCANNED: usize = 24;

// Number 12, OUTSIDE: its first place. Where no neighbour is outside none is, so many vertices are scanned only where one is.
#[tactic(auto, using(crate::specs::Scannable::passed_over))]
pub fn outside(points: &[i32], corners: &[u16], begins: &[u16], index: &Index) -> Option<Place>
    requires { Scannable points.now corners.now begins.now index.now.edges index.now.heads }
    ensures { result ≡ place_of (outside points.now corners.now begins.now) }
{
    if MOST_SCANNED < points.len() / 3 && !near::near(points, corners, begins, index) {
        return None;
    }
    scan::scan(points, corners, begins)
}
