// Document 02, L12: one spelling for a ring of corners.
#![tactic(auto, unfolding(crate::specs::Corner::before, crate::specs::Corner::plain_number))]

ghost use Rattle.std.specs.Prelude.{◌≡◌, map, ◌≤◌, ◌++◌, length, take, drop};
ghost use Rattle.rings.specs.Spelling.{least_at, onward, spelled};
ghost use Rattle.rings.specs.Corner.{before, plain_number, plain, written, held};

use types::Point2;

// The corners of a ring in place, since there is no heap; unused places are zero.
#[derive(Clone, Copy)]
pub struct Corners {
    pub verts: [Point2; 16],
    pub len: usize,
}

// Less north, then less east.
fn is_before(p: Point2, q: Point2) -> bool
    ensures { result ≡ before p q }
{
    p.n < q.n || (p.n == q.n && p.e < q.e)
}

// Every −0 as 0.
pub fn plain_number(x: f32) -> f32
    ensures { result ≡ plain_number x }
{
    if x == 0.0 { 0.0 } else { x }
}

fn plain(p: Point2) -> Point2
    ensures { result ≡ plain p }
{
    Point2 {
        n: plain_number(p.n),
        e: plain_number(p.e),
    }
}

fn make_plain(ring: &mut [Point2])
    ensures { ring.new ≡ map plain ring.old }
{
    for p in ring.iter_mut() {
        *p = plain(*p);
    }
}

// The place of the least corner, from the last back to the first.
fn least_at(ring: &[Point2]) -> usize
    ensures place { result ≡ least_at before ring.now }
    ensures within { result ≤ length ring.now }
{
    let mut k = ring.len().saturating_sub(1);
    for i in (0..k).rev() {
        if !is_before(ring[k], ring[i]) {
            k = i;
        }
    }
    k
}

// From the first corner on, going first to the lesser of its two neighbours, the second and the last.
fn go_onward(ring: &mut [Point2])
    ensures { ring.new ≡ onward before ring.old }
{
    let n = ring.len();
    if n < 3 {
        return;
    }
    if is_before(ring[n - 1], ring[1]) {
        ring[1..].reverse();
    }
}

// The corners from the place k on, and then those before it. By three reversals: `rotate_left` of std would ask the C host for memmove.
fn start_at(ring: &mut [Point2], k: usize)
    requires { k ≤ length ring.old }
    ensures { ring.new ≡ drop k ring.old ++ take k ring.old }
{
    ring[..k].reverse();
    ring[k..].reverse();
    ring.reverse();
}

// The one spelling of a ring.
fn spell(ring: &mut [Point2])
    ensures { ring.new ≡ spelled before ring.old }
{
    let least = least_at(ring);
    start_at(ring, least);
    go_onward(ring);
}

// Corners in their one spelling; of more than sixteen, the first.
pub fn write_ring(pts: &[Point2]) -> Corners
    ensures { result ≡ held (written (take 16 pts.now)) }
{
    let len = corners::capped(pts.len());
    let mut verts = [Point2 { n: 0.0, e: 0.0 }; 16];
    let ring = &mut verts[..len];
    ring.copy_from_slice(&pts[..len]);
    make_plain(ring);
    spell(ring);
    Corners { verts, len }
}
