// Which corners a fence or an area may have: the rules of the Rust's geometry.rs, and the rule of kind 8.
#![tactic(auto, unfolding(crate::specs::Acceptance::corner_fault, crate::specs::Acceptance::same_point, crate::specs::Acceptance::cross2, crate::specs::Acceptance::area_term, crate::specs::Acceptance::polygon_area, crate::specs::Acceptance::mixed_turns, crate::specs::Acceptance::polygon_tests, crate::specs::Acceptance::judged, crate::specs::OnceRound::north_sign, crate::specs::Round::round_of))]

ghost use Rattle.std.specs.Prelude.{◌≡◌, min, ◌+◌, ◌^◌, ◌<◌, ◌∷◌};
ghost use Rattle.std.specs.List.{list_any};
ghost use Rattle.std.specs.Option.{ForSome};
ghost use Rattle.corners.specs.Ring.{tails};
ghost use Rattle.corners.specs.Round.{checked_round, with_turn, within};
ghost use Rattle.corners.specs.Acceptance.{fence_error_number, fault_if, corner_fault, same_point, recurs, flat_turn, cross2, area_term, polygon_area, judged};
ghost use Rattle.corners.specs.OnceRound.{north_sign, differ, join, sign_changes};

use types::Point2;

#[derive(Clone, Copy, PartialEq, Eq)]
pub enum FenceError {
    TooFewVertices = 10,
    TooManyVertices = 11,
    NonFinite = 12,
    OutOfEnvelope = 13,
    DuplicateVertex = 14,
    CollinearEdge = 15,
    NotConvex = 16,
    AreaTooSmall = 17,
    BadAltitudes = 18,
    // not the Rust's: the rule of kind 8
    NotOnceRound = 33,
}

impl FenceError {
    // The number of the refusal: what a C host is answered.
    pub fn number(self) -> u16
        ensures { result ≡ fence_error_number self }
    {
        self as u16
    }
}

pub fn fault_if(test: bool, e: FenceError) -> Result<(), FenceError>
    ensures { result ≡ fault_if test e }
{
    if test { Err(e) } else { Ok(()) }
}

// What one way round a polygon's corners tells: whether a turn is flat, goes left, goes right; the area.
#[derive(Clone, Copy)]
struct Round {
    flat: bool,
    pos: bool,
    neg: bool,
    area: f32,
}

impl Round {
    fn with_turn(self, a: Point2, b: Point2, c: Point2) -> Round
        ensures { result ≡ with_turn self (a, (b, c)) }
    {
        let x = cross2(a, b, c);
        Round {
            flat: self.flat | flat_turn(a, b, c),
            pos: self.pos | (x > 0.0),
            neg: self.neg | (x < 0.0),
            area: self.area + area_term(a, b),
        }
    }
}

// The way that a side goes.
#[derive(Clone, Copy, PartialEq, Eq)]
enum Heading {
    North,
    South,
}

// The headings so far, at least one: the first, the last, and how often they changed.
#[derive(Clone, Copy)]
struct Headings {
    first: Heading,
    last: Heading,
    changes: usize,
}

// A count, at most that of the array's places.
pub fn capped(n: usize) -> usize
    ensures { result ≡ min n 16 }
{
    if n < 16 { n } else { 16 }
}

// A NaN is in no interval.
fn within(x: f32) -> bool
    ensures { result ≡ within x }
{
    (x <= 10_000.0) & (x >= -10_000.0)
}

fn corner_fault(p: Point2) -> Result<(), FenceError>
    ensures { result ≡ corner_fault p }
{
    if within(p.n) & within(p.e) {
        return Ok(());
    }
    if float32::is_finite(p.n) & float32::is_finite(p.e) {
        Err(FenceError::OutOfEnvelope)
    } else {
        Err(FenceError::NonFinite)
    }
}

// As floats: −0 equals 0, and a NaN equals nothing.
fn same_point(p: Point2, q: Point2) -> bool
    ensures { result ≡ same_point p q }
{
    p.n == q.n && p.e == q.e
}

fn recurs(p: Point2, after: &[Point2]) -> bool
    ensures { result ≡ recurs (p, after.now) }
{
    after.iter().any(|q| same_point(p, *q))
}

// No index is counted: the corners that are left shrink by a slice pattern.
fn has_duplicate(pts: &[Point2]) -> bool
    ensures { result ≡ list_any recurs (tails pts.now) }
{
    let mut left = pts;
    while let [p, after @ ..] = left {
        if recurs(*p, after) {
            return true;
        }
        left = after;
    }
    false
}

// The size of a turn goes by its two sides; its sign, in cross2, by the first corner.
fn flat_turn(a: Point2, b: Point2, c: Point2) -> bool
    ensures { result ≡ flat_turn (a, (b, c)) }
{
    let ab_n = b.n - a.n;
    let ab_e = b.e - a.e;
    let bc_n = c.n - b.n;
    let bc_e = c.e - b.e;
    let x = ab_n * bc_e - ab_e * bc_n;
    (x < 1e-4) & (x > -1e-4)
}

fn cross2(o: Point2, a: Point2, b: Point2) -> f32
    ensures { result ≡ cross2 (o, (a, b)) }
{
    (a.n - o.n) * (b.e - o.e) - (a.e - o.e) * (b.n - o.n)
}

fn area_term(a: Point2, b: Point2) -> f32
    ensures { result ≡ area_term (a, b) }
{
    a.n * b.e - b.n * a.e
}

// All that one way round the corners tells, from the first two on: each corner is handed on from turn to turn.
fn go_round(first: Point2, second: Point2, rest: &[Point2]) -> Result<Round, FenceError>
    ensures { result ≡ checked_round (first ∷ second ∷ rest.now) }
{
    corner_fault(first)?;
    corner_fault(second)?;
    let mut r = Round {
        flat: false,
        pos: false,
        neg: false,
        area: 0.0,
    };
    let mut a = first;
    let mut b = second;
    for c in rest {
        corner_fault(*c)?;
        r = r.with_turn(a, b, *c);
        a = b;
        b = *c;
    }
    let whole = r.with_turn(a, b, first).with_turn(b, first, second);
    Ok(Round {
        area: whole.area * 0.5,
        ..whole
    })
}

// The area that corners enclose, by itself: above 0 where they go counter-clockwise.
#[tactic(auto, using(crate::proofs::Around::no_area))]
pub fn area(pts: &[Point2]) -> f32
    ensures { result ≡ polygon_area pts.now }
{
    let [first, rest @ ..] = pts else {
        return 0.0;
    };
    let mut sum: f32 = 0.0;
    let mut a = *first;
    for b in rest {
        sum += area_term(a, *b);
        a = *b;
    }
    (sum + area_term(a, *first)) * 0.5
}

// None for a side that goes neither north nor south.
fn north_sign(a: Point2, b: Point2) -> Option<Heading>
    ensures { result ≡ north_sign (a, b) }
{
    if a.n < b.n {
        return Some(Heading::North);
    }
    if b.n < a.n {
        Some(Heading::South)
    } else {
        None
    }
}

fn differ(a: Heading, b: Heading) -> usize
    ensures { result ≡ differ a b }
{
    usize::from(a != b)
}

// One more side.
fn joined(seen: Option<Headings>, g: Option<Heading>) -> Option<Headings>
    requires { ForSome seen (λ s. s.changes + 1 < 2 ^ 64) }
    ensures { result ≡ join seen g }
{
    match (seen, g) {
        (_, None) => seen,
        (None, Some(g)) => Some(Headings {
            first: g,
            last: g,
            changes: 0,
        }),
        (Some(s), Some(g)) => Some(Headings {
            first: s.first,
            last: g,
            changes: s.changes + differ(s.last, g),
        }),
    }
}

// How often the heading changes, going round the sides.
#[tactic(auto, using(crate::proofs::Around::no_changes))]
fn sign_changes(pts: &[Point2]) -> usize
    ensures { result ≡ sign_changes pts.now }
{
    let [first, rest @ ..] = pts else {
        return 0;
    };
    let mut seen = None;
    let mut a = *first;
    for b in rest {
        seen = joined(seen, north_sign(a, *b));
        a = *b;
    }
    match joined(seen, north_sign(a, *first)) {
        None => 0,
        Some(s) => s.changes + differ(s.last, s.first),
    }
}

// The area of accepted corners, or their first error; `once_round` asks the rule of kind 8 too.
pub fn judge(pts: &[Point2], once_round: bool) -> Result<f32, FenceError>
    ensures { result ≡ judged once_round pts.now }
{
    fault_if(pts.len() < 3, FenceError::TooFewVertices)?;
    fault_if(pts.len() > 16, FenceError::TooManyVertices)?;
    let [first, second, rest @ ..] = pts else {
        return Err(FenceError::TooFewVertices);
    };
    let round = go_round(*first, *second, rest)?;
    fault_if(has_duplicate(pts), FenceError::DuplicateVertex)?;
    fault_if(round.flat, FenceError::CollinearEdge)?;
    fault_if(round.pos & round.neg, FenceError::NotConvex)?;
    fault_if(
        once_round && sign_changes(pts) > 2,
        FenceError::NotOnceRound,
    )?;
    fault_if(float32::fabsf(round.area) < 100.0, FenceError::AreaTooSmall)?;
    Ok(round.area)
}
