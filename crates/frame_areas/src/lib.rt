// Kinds 7 and 13: keep-out areas in their frames, judged, and the clearance from them. Areas stay bytes, since the host holds bytes.
#![tactic(auto)]

ghost use Rattle.std.specs.Prelude.{true, ◌≡◌, length, drop};
ghost use Rattle.std.specs.Float.Ieee.{lt, le, neg};
ghost use Rattle.std.specs.Iterator.{YieldsFirstBy, item_count};
ghost use Rattle.float32.specs.Binary32.{zero_f};
ghost use Rattle.geometry.specs.Polygon.{zero_point, polygon_new};
ghost use Rattle.geometry.specs.Distance.{ring_of, edge_signed_distance, signed_distance};
ghost use Rattle.wire.specs.Fields.{u8_at};
ghost use Rattle.areas.specs.Held.{area_fault, read};
ghost use Rattle.areas.specs.Calls.{code};
ghost use Rattle.areas.specs.Clearance.{nearer};
ghost use Rattle.frame_areas.specs.declared.AreaError.{AreaError};
ghost use Rattle.frame_areas.specs.AreaFrame.{area_error_number, area_number, corners_sent, area_rules, distance_at, area_of, body_size, check_area_frame};
ghost use Rattle.frame_areas.specs.AreasFrame.{bodies, held_in, counts_fit, areas_fault, clearance_at};

use corners::FenceError;
use geometry::{ConvexPolygon, FenceDistance};
use types::Point2;
use wire::FrameError;

// What is wrong with an area, or with a frame of areas.
#[derive(Clone, Copy)]
pub enum AreaError {
    Frame(FrameError),
    Corners(FenceError),
    NinthArea,
    AreaNumber,
    HomeInArea,
}

impl AreaError {
    // The number of the refusal: what a C host is answered.
    pub fn number(self) -> u16
        ensures { result ≡ area_error_number self }
    {
        match self {
            AreaError::Frame(e) => e.number(),
            AreaError::Corners(e) => e.number(),
            AreaError::NinthArea => 30,
            AreaError::AreaNumber => 31,
            AreaError::HomeInArea => 32,
        }
    }
}

impl From<FrameError> for AreaError {
    ghost from_gives = { λ e r. r ≡ AreaError.Frame e };

    fn from(e: FrameError) -> AreaError {
        AreaError::Frame(e)
    }
}

impl From<FenceError> for AreaError {
    ghost from_gives = { λ e r. r ≡ AreaError.Corners e };

    fn from(e: FenceError) -> AreaError {
        AreaError::Corners(e)
    }
}

// ---- one area

// How many bytes a body has, by the corner count at its second byte.
pub fn body_size(body: &[u8]) -> usize
    ensures { result ≡ body_size body.now }
{
    2 + 8 * usize::from(wire::u8_at(body, 1))
}

// Whether a kind 7's head is accepted.
pub fn check_area_frame(s: &[u8]) -> Result<(), FrameError>
    ensures { result ≡ check_area_frame s.now }
{
    let count = wire::u8_at(s, 5);
    wire::check_frame(s, 7, 4 + 8 * u16::from(count))
}

// The polygon of a body: a slice of as many bytes as its count says, since areas stay bytes. A count above sixteen is refused before any corner is read.
fn check_polygon(body: &[u8]) -> Result<ConvexPolygon, FenceError>
    requires { length body.now ≡ body_size body.now }
    ensures { result ≡ polygon_new true (u8_at body.now 1) (corners_sent (drop 1 body.now)) }
{
    let n = usize::from(wire::u8_at(body, 1));
    if n > 16 {
        return Err(FenceError::TooManyVertices);
    }
    let corners = frame_fence::corners_at(body, 2, n);
    ConvexPolygon::new_by(&corners[..n], true)
}

// Whether home is on the side from a to b, or outward of it.
fn home_not_within(a: Point2, b: Point2) -> bool
    ensures { result ≡ le (edge_signed_distance zero_point (a, b)) zero_f }
{
    let home = Point2 { n: 0.0, e: 0.0 };
    let len = geometry::side_length(a, b);
    geometry::edge_signed_distance(a, b, len, home) <= 0.0
}

// Stops at the first side that home is not within, so later sides take no root.
fn home_inside(poly: &ConvexPolygon) -> bool
    ensures { result ≡ lt zero_f (signed_distance (ring_of poly.now) zero_point) }
{
    let [first, rest @ ..] = poly.corners() else {
        return false;
    };
    if rest.len() < 2 {
        return false;
    }
    let mut a = *first;
    for b in rest {
        if home_not_within(a, *b) {
            return false;
        }
        a = *b;
    }
    !home_not_within(a, *first)
}

// An area: its polygon, its number, its place among eight, home.
pub fn check_body(body: &[u8], wrong_number: bool, n: usize) -> Result<(), AreaError>
    requires { length body.now ≡ body_size body.now }
    ensures { area_number result ≡ area_fault area_rules wrong_number n (area_of body.now) }
{
    let poly = check_polygon(body)?;
    if wrong_number {
        return Err(AreaError::AreaNumber);
    }
    if n >= 8 {
        return Err(AreaError::NinthArea);
    }
    if home_inside(&poly) {
        return Err(AreaError::HomeInArea);
    }
    Ok(())
}

// An accepted area's signed distance at a point.
fn area_distance(body: &[u8], p: Point2) -> f32
    requires { length body.now ≡ body_size body.now }
    ensures { result ≡ distance_at p (area_of body.now) }
{
    let n = corners::capped(usize::from(wire::u8_at(body, 1)));
    let corners = frame_fence::corners_at(body, 2, n);
    ConvexPolygon::held(&corners[..n]).signed_distance(p)
}

// ---- the areas of a frame

// The bodies that are left of a frame: as many as are counted, as far as they are whole.
#[derive(Clone, Copy)]
pub struct Bodies<'a> {
    left: u8,
    rest: &'a [u8],
}

impl<'a> Bodies<'a> {
    // The bodies of a frame; without its count byte it has none.
    pub fn new(s: &'a [u8]) -> Bodies<'a>
        ensures { bodies result.left result.rest.now ≡ held_in s.now }
    {
        let from = s.len().min(5);
        Bodies {
            left: wire::u8_at(s, 4),
            rest: &s[from..],
        }
    }
}

impl<'a> Iterator for Bodies<'a> {
    type Item = &'a [u8];

    ghost next_gives = { YieldsFirstBy (λ b. area_of b.now) (λ s. bodies s.left s.rest.now) };

    ghost remaining = { item_count (λ s. bodies s.left s.rest.now) };

    fn next(&mut self) -> Option<&'a [u8]> {
        if self.left == 0 {
            return None;
        }
        let (body, rest) = self.rest.split_at_checked(body_size(self.rest))?;
        self.left -= 1;
        self.rest = rest;
        Some(body)
    }
}

// Whether the frame has a count byte, and as many bodies behind it, and no more.
#[tactic(auto, using(crate::proofs::Walk::bytes_first))]
fn counts_fit(s: &[u8]) -> bool
    ensures { result ≡ counts_fit s.now }
{
    let mut n: usize = 0;
    let mut bytes: usize = 5;
    for body in Bodies::new(s) {
        n += 1;
        bytes += body.len();
    }
    n == usize::from(wire::u8_at(s, 4)) && bytes == s.len()
}

// The bodies, one by one. Each number has to be above the one before.
#[tactic(auto, using(crate::proofs::Walk::whole_first))]
fn check_bodies(s: &[u8]) -> Result<(), AreaError>
    ensures { area_number result ≡ code (read area_rules (held_in s.now)) }
{
    let mut before: u8 = 0;
    for (n, body) in Bodies::new(s).enumerate() {
        let number = wire::u8_at(body, 0);
        check_body(body, number <= before, n)?;
        before = number;
    }
    Ok(())
}

// The areas that a step is handed; no byte at all is no area.
pub fn check_areas(s: &[u8]) -> Result<(), AreaError>
    ensures { area_number result ≡ areas_fault s.now }
{
    if s.is_empty() {
        return Ok(());
    }
    wire::check_frame(s, 13, wire::u16_at(s, 0))?;
    if !counts_fit(s) {
        return Err(AreaError::Frame(FrameError::WrongLength));
    }
    check_bodies(s)
}

// ---- clearance

// The nearer of what there was and an area with its signed distance; at equality what there was stays.
fn nearer_area(near: FenceDistance, sd: f32) -> FenceDistance
    ensures { result ≡ nearer near (neg sd) }
{
    let m = -sd;
    if m < near.m {
        FenceDistance { m, side: 254 }
    } else {
        near
    }
}

// The clearance at a point, from the fence's distance there and the areas held.
#[tactic(auto, using(crate::proofs::Walk::whole_first), unfolding(crate::specs::AreasFrame::clearance_at, areas::specs::Clearance::clearance))]
pub fn clearance(s: &[u8], fence: FenceDistance, p: Point2) -> FenceDistance
    ensures { result ≡ clearance_at s.now fence p }
{
    let mut near = fence;
    for body in Bodies::new(s) {
        near = nearer_area(near, area_distance(body, p));
    }
    near
}
