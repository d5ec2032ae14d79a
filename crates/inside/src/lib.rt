// Document 02, L9: an inside test that stops at the first side with a negative distance, for one point and for a row of them.
#![tactic(auto, unfolding(crate::specs::Call::inside_call, frame_fence::specs::FenceFrame::point_at))]

ghost use Rattle.std.specs.Prelude.{◌≡◌, ◌++◌, ◌+◌, ◌-◌, ◌*◌, ◌/◌, ◌≤◌, map, length, replicate};
ghost use Rattle.std.proofs.lemmas.List.Edits.{sets};
ghost use Rattle.corners.specs.Ring.{sides};
ghost use Rattle.geometry.specs.Distance.{ring_of};
ghost use Rattle.wire.specs.Frame.{frame_number};
ghost use Rattle.frame_fence.specs.FenceFrame.{point_at};
ghost use Rattle.inside.specs.Inside.{inside, side_of, no_side, is_negative, inside_by, answer};
ghost use Rattle.inside.specs.Call.{answer_bytes, answers, judged, inside_error_number, inside_number, inside_call};

use corners::FenceError;
use geometry::ConvexPolygon;
use types::Point2;
use wire::FrameError;

// Why no point is judged: a frame, a row of points or an output of the wrong length, or a fence that the rules decline.
#[derive(Clone, Copy)]
pub enum InsideError {
    Frame(FrameError),
    Fence(FenceError),
}

impl InsideError {
    // The number of the refusal: what a C host is answered.
    pub fn number(self) -> u16
        ensures { result ≡ inside_error_number self }
    {
        match self {
            InsideError::Frame(e) => e.number(),
            InsideError::Fence(e) => e.number(),
        }
    }
}

impl From<FrameError> for InsideError {
    ghost use Rattle.inside.specs.declared.InsideError.{InsideError};

    ghost from_gives = { λ e r. r ≡ InsideError.Frame e };

    fn from(e: FrameError) -> InsideError {
        InsideError::Frame(e)
    }
}

impl From<FenceError> for InsideError {
    ghost use Rattle.inside.specs.declared.InsideError.{InsideError};

    ghost from_gives = { λ e r. r ≡ InsideError.Fence e };

    fn from(e: FenceError) -> InsideError {
        InsideError::Fence(e)
    }
}

// Whether a point is inside, and how many sides were read.
#[derive(Clone, Copy)]
pub struct Inside {
    pub yes: bool,
    pub read: u8,
}

// A side: its first corner, the way from there to the next, and its length.
#[derive(Clone, Copy)]
struct Side {
    from: Point2,
    north: f32,
    east: f32,
    len: f32,
}

impl Side {
    fn new(a: Point2, b: Point2) -> Side
        ensures { result ≡ side_of (a, b) }
    {
        Side {
            from: a,
            north: b.n - a.n,
            east: b.e - a.e,
            len: geometry::side_length(a, b),
        }
    }

    // Whether `geometry::edge_signed_distance` of a side that is not below 1e-6 is negative.
    #[tactic(auto, unfolding(crate::specs::Inside::is_negative))]
    fn is_negative(&self, p: Point2) -> bool
        ensures { result ≡ is_negative p self.now }
    {
        let ap_n = p.n - self.from.n;
        let ap_e = p.e - self.from.e;
        let cross = self.north * ap_e - self.east * ap_n;
        cross / self.len < 0.0
    }
}

// The sides of a polygon; unused places hold none.
fn sides_of(poly: ConvexPolygon) -> [Side; 16]
    ensures { result ≡ map side_of (sides (ring_of poly)) ++ replicate (16 - length (ring_of poly)) no_side }
{
    let zero = Point2 { n: 0.0, e: 0.0 };
    let mut sides = [Side {
        from: zero,
        north: 0.0,
        east: 0.0,
        len: 0.0,
    }; 16];
    let [first, rest @ ..] = poly.corners() else {
        return sides;
    };
    let mut a = *first;
    for (i, b) in rest.iter().enumerate() {
        sides[i] = Side::new(a, *b);
        a = *b;
    }
    sides[rest.len()] = Side::new(a, *first);
    sides
}

// What is worked out once for all points: the sides before the first below 1e-6, and the answer where the distance from none of
// them is negative.
#[derive(Clone, Copy)]
struct Sides<'a> {
    long: &'a [Side],
    otherwise: Inside,
}

impl<'a> Sides<'a> {
    fn new(sides: &'a [Side]) -> Sides<'a>
        requires { length sides.now ≤ 16 }
        ensures value { (p : Point2) → answer result p ≡ inside_by sides.now p }
        ensures few { length result.long.now ≤ 16 }
    {
        if sides.len() < 3 {
            return Sides {
                long: &sides[..0],
                otherwise: Inside {
                    yes: false,
                    read: 0,
                },
            };
        }
        match sides.iter().position(|s| s.len < 1e-6) {
            Some(i) => Sides {
                long: &sides[..i],
                otherwise: Inside {
                    yes: false,
                    read: (i + 1) as u8,
                },
            },
            None => Sides {
                long: sides,
                otherwise: Inside {
                    yes: true,
                    read: sides.len() as u8,
                },
            },
        }
    }

    fn answer(&self, p: Point2) -> Inside
        requires { length self.now.long.now ≤ 16 }
        ensures { result ≡ answer self.now p }
    {
        match self.long.iter().position(|s| s.is_negative(p)) {
            Some(j) => Inside {
                yes: false,
                read: (j + 1) as u8,
            },
            None => self.otherwise,
        }
    }

    // The answers to a row of points, eight bytes each.
    #[tactic(auto, unfolding(crate::specs::Call::answers))]
    fn put_answers(&self, points: &[u8], output: &mut [u8])
        requires few { length self.now.long.now ≤ 16 }
        requires room { 2 * (length points.now / 8) ≤ length output.old }
        ensures { output.new ≡ sets output.old 0 (answers (answer self.now) points.now (length points.now / 8)) }
    {
        let (chunks, _) = points.as_chunks::<8>();
        for (k, chunk) in chunks.iter().enumerate() {
            put_answer(output, 2 * k, self.answer(point_of(chunk)));
        }
    }
}

fn point_of(s: &[u8; 8]) -> Point2
    ensures { result ≡ point_at s.now 0 }
{
    Point2 {
        n: wire::f32_at(s, 0),
        e: wire::f32_at(s, 4),
    }
}

#[tactic(auto, unfolding(wire::specs::Fields::le_flag, wire::specs::Fields::le8))]
fn put_answer(s: &mut [u8], at: usize, r: Inside)
    requires { at + 2 ≤ length s.old }
    ensures { s.new ≡ sets s.old at (answer_bytes r) }
{
    s[at] = u8::from(r.yes);
    s[at + 1] = r.read;
}

// Points, then output.
#[tactic(auto, unfolding(crate::specs::Call::judged))]
fn judge(poly: &ConvexPolygon, points: &[u8], output: &mut [u8]) -> Result<(), FrameError>
    ensures value { frame_number result ≡ (judged (inside (ring_of poly.now)) points.now output.old).number }
    ensures output_after { output.new ≡ (judged (inside (ring_of poly.now)) points.now output.old).output }
{
    if points.len() % 8 != 0 {
        return Err(FrameError::WrongLength);
    }
    if output.len() < 2 * (points.len() / 8) {
        return Err(FrameError::NoRoom);
    }
    let sides = sides_of(*poly);
    let n = poly.corners().len();
    Sides::new(&sides[..n]).put_answers(points, output);
    Ok(())
}

// Fence frame, fence rules, points, output.
pub fn inside_call(fence: &[u8], points: &[u8], output: &mut [u8]) -> Result<(), InsideError>
    ensures value { inside_number result ≡ (inside_call fence.now points.now output.old).number }
    ensures output_after { output.new ≡ (inside_call fence.now points.now output.old).output }
{
    let read = frame_fence::read_fence(fence)?;
    let fence = frame_fence::fence_of(&read)?;
    judge(&fence.poly, points, output)?;
    Ok(())
}
