// The Rust's geometry.rs: the fence's polygon and altitudes, and the distance. The rules of the corners are in `corners`.
#![tactic(auto, unfolding(crate::specs::Distance::vertex, crate::specs::Distance::contains, crate::specs::Distance::side_length, crate::specs::Distance::edge_signed_distance_by, crate::specs::Polygon::polygon_new, crate::specs::Polygon::geofence_new, corners::specs::Acceptance::judged))]

ghost use Rattle.std.specs.Prelude.{◌≡◌, false, ◌<◌, ◌≤◌, length, take, eqb};
ghost use Rattle.geometry.specs.Polygon.{normalize_ccw, held_polygon, polygon_new, geofence_new};
ghost use Rattle.geometry.specs.Distance.{ring_of, vertex, side_length, side_lengths, edge_signed_distance_by, nearer_side, nearest, nearest_by, signed_distance, contains};

use corners::FenceError;
use types::Point2;

// The corners in place, since there is no heap; `corners` lends them as a slice.
#[derive(Clone, Copy)]
pub struct ConvexPolygon {
    pub verts: [Point2; 16],
    pub len: usize,
}

#[derive(Clone, Copy)]
pub struct Geofence {
    pub poly: ConvexPolygon,
    pub max_alt_m: f32,
    pub min_alt_m: f32,
}

// The length of each side, from the first corner's on; 0 in the unused places.
#[derive(Clone, Copy)]
pub struct SideLengths {
    pub m: [f32; 16],
}

// The least distance from a fence's sides, and the number of the side that gave it; 255 where none did.
#[derive(Clone, Copy)]
pub struct FenceDistance {
    pub m: f32,
    pub side: u8,
}

// At most sixteen corners as they are held. By a loop: with `copy_from_slice` of std the static library of leaves_c would ask its host for memset.
fn normalize_ccw(pts: &[Point2], ccw: bool) -> ConvexPolygon
    requires { length pts.now ≤ 16 }
    ensures { result ≡ normalize_ccw ccw pts.now }
{
    let n = pts.len();
    let mut verts = [Point2 { n: 0.0, e: 0.0 }; 16];
    for i in 0..n {
        let at = if ccw { i } else { n - 1 - i };
        verts[i] = pts[at];
    }
    ConvexPolygon { verts, len: n }
}

pub fn side_length(a: Point2, b: Point2) -> f32
    ensures { result ≡ side_length (a, b) }
{
    let ab_n = b.n - a.n;
    let ab_e = b.e - a.e;
    float32::sqrtf(ab_n * ab_n + ab_e * ab_e)
}

// The distance from a side whose length is known.
pub fn edge_signed_distance(a: Point2, b: Point2, len: f32, p: Point2) -> f32
    ensures { result ≡ edge_signed_distance_by p ((a, b), len) }
{
    if len < 1e-6 {
        return -1.0;
    }
    let ab_n = b.n - a.n;
    let ab_e = b.e - a.e;
    let ap_n = p.n - a.n;
    let ap_e = p.e - a.e;
    let cross = ab_n * ap_e - ab_e * ap_n;
    cross / len
}

// The nearer of an answer and a side with its distance; at equality the answer stays, and a NaN is never nearer.
fn nearer_side(near: FenceDistance, side: usize, sd: f32) -> FenceDistance
    requires { side < 256 }
    ensures { result ≡ nearer_side near side sd }
{
    if sd < near.m {
        FenceDistance {
            m: sd,
            side: side as u8,
        }
    } else {
        near
    }
}

impl ConvexPolygon {
    // The Rust's constructor.
    pub fn new(pts: &[Point2]) -> Result<ConvexPolygon, FenceError>
        ensures { result ≡ polygon_new false (length pts.now) pts.now }
    {
        ConvexPolygon::new_by(pts, false)
    }

    // The same, with the rule of kind 8 where `once_round` asks it.
    pub fn new_by(pts: &[Point2], once_round: bool) -> Result<ConvexPolygon, FenceError>
        ensures { result ≡ polygon_new once_round (length pts.now) pts.now }
    {
        let area = corners::judge(pts, once_round)?;
        Ok(normalize_ccw(pts, area > 0.0))
    }

    // Corners as they are held, where they were judged before; of more than sixteen, the first.
    pub fn held(pts: &[Point2]) -> ConvexPolygon
        ensures { result ≡ held_polygon (take 16 pts.now) }
    {
        let pts = &pts[..corners::capped(pts.len())];
        normalize_ccw(pts, corners::area(pts) > 0.0)
    }

    // The corners that are held.
    pub fn corners(&self) -> &[Point2]
        ensures { result.now ≡ ring_of self.now }
    {
        &self.verts[..corners::capped(self.len)]
    }

    pub fn len(&self) -> usize
        ensures { result ≡ self.now.len }
    {
        self.len
    }

    pub fn is_empty(&self) -> bool
        ensures { result ≡ eqb self.now.len 0 }
    {
        self.len == 0
    }

    // None where the Rust panics.
    pub fn vertex(&self, i: usize) -> Option<Point2>
        ensures { result ≡ vertex self.now i }
    {
        self.verts.get(i).copied()
    }

    pub fn contains(&self, p: Point2) -> bool
        ensures { result ≡ contains (ring_of self.now) p }
    {
        self.signed_distance(p) >= 0.0
    }

    // The least distance inward from a side: at least 0 inside, the sides included.
    pub fn signed_distance(&self, p: Point2) -> f32
        ensures { result ≡ signed_distance (ring_of self.now) p }
    {
        self.nearest(p).m
    }

    // The same with the side that gives it.
    pub fn nearest(&self, p: Point2) -> FenceDistance
        ensures { result ≡ nearest (ring_of self.now) p }
    {
        self.nearest_by(&self.side_lengths(), p)
    }

    // The same by lengths that are given. Each corner is handed on to the next side; the last side ends at the first corner.
    pub fn nearest_by(&self, lengths: &SideLengths, p: Point2) -> FenceDistance
        ensures { result ≡ nearest_by (ring_of self.now) lengths.now.m p }
    {
        let none = FenceDistance { m: -1.0, side: 255 };
        let [first, rest @ ..] = self.corners() else {
            return none;
        };
        if rest.len() < 2 {
            return none;
        }
        let mut near = FenceDistance {
            m: float32::infinity(),
            side: 255,
        };
        let mut a = *first;
        for (i, b) in rest.iter().enumerate() {
            near = nearer_side(near, i, edge_signed_distance(a, *b, lengths.m[i], p));
            a = *b;
        }
        let i = rest.len();
        nearer_side(near, i, edge_signed_distance(a, *first, lengths.m[i], p))
    }

    pub fn side_lengths(&self) -> SideLengths
        ensures { result ≡ side_lengths (ring_of self.now) }
    {
        let mut m = [0.0; 16];
        let [first, rest @ ..] = self.corners() else {
            return SideLengths { m };
        };
        let mut a = *first;
        for (i, b) in rest.iter().enumerate() {
            m[i] = side_length(a, *b);
            a = *b;
        }
        m[rest.len()] = side_length(a, *first);
        SideLengths { m }
    }
}

impl Geofence {
    pub fn new(poly: ConvexPolygon, min_alt_m: f32, max_alt_m: f32) -> Result<Geofence, FenceError>
        ensures { result ≡ geofence_new poly min_alt_m max_alt_m }
    {
        let finite = float32::is_finite(min_alt_m) & float32::is_finite(max_alt_m);
        corners::fault_if(!finite | (min_alt_m >= max_alt_m), FenceError::BadAltitudes)?;
        Ok(Geofence {
            poly,
            max_alt_m,
            min_alt_m,
        })
    }
}
