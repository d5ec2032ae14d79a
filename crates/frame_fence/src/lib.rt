// Kinds 2 and 8: a fence in its frame, read as it was sent and written; and the fence rules applied to what was read.
#![tactic(auto, unfolding(crate::specs::FenceFrame::asks_once_round, crate::specs::FenceFrame::corners_sent, crate::specs::FenceFrame::read_fence, crate::specs::FenceFrame::fence_rules, crate::specs::FenceFrame::fence_of))]

ghost use Rattle.std.specs.Prelude.{◌≡◌, ◌+◌, ◌*◌, ◌<◌, ◌≤◌, min, length, take};
ghost use Rattle.std.specs.Result.{IfOk};
ghost use Rattle.std.proofs.lemmas.List.Edits.{sets};
ghost use Rattle.wire.specs.Fields.{u8_at};
ghost use Rattle.wire.specs.Cell.{bytes_of};
ghost use Rattle.frame_fence.specs.FenceFrame.{fence_kind, point_at, corners_at, corner_array, asks_once_round, check_fence, read_fence, fence_of};
ghost use Rattle.frame_fence.specs.FenceFrame.{point_cells, corner_cells, write_error_number, frame_of, check_write, fence_written};

use corners::FenceError;
use geometry::{ConvexPolygon, Geofence};
use types::Point2;
use wire::FrameError;

// A fence as sent, its first sixteen corners at most, in place, since there is no heap. `once_round` is that of kind 8: it is
// data of the frame, and no choice of a caller.
#[derive(Clone, Copy)]
pub struct FenceRead {
    pub once_round: bool,
    pub count: u8,
    pub min_alt_m: f32,
    pub max_alt_m: f32,
    pub corners: [Point2; 16],
}

// Why a fence's frame is not written: a count above sixteen, or no room.
#[derive(Clone, Copy)]
pub enum WriteError {
    Fence(FenceError),
    Frame(FrameError),
}

impl WriteError {
    // The number of the refusal: what a C host is answered.
    pub fn number(self) -> u16
        ensures { result ≡ write_error_number self }
    {
        match self {
            WriteError::Fence(e) => e.number(),
            WriteError::Frame(e) => e.number(),
        }
    }
}

impl From<FenceError> for WriteError {
    ghost use Rattle.frame_fence.specs.declared.WriteError.{WriteError};

    ghost from_gives = { λ e r. r ≡ WriteError.Fence e };

    fn from(e: FenceError) -> WriteError {
        WriteError::Fence(e)
    }
}

impl From<FrameError> for WriteError {
    ghost use Rattle.frame_fence.specs.declared.WriteError.{WriteError};

    ghost from_gives = { λ e r. r ≡ WriteError.Frame e };

    fn from(e: FrameError) -> WriteError {
        WriteError::Frame(e)
    }
}

// A part of eight bytes: its length is known, so that no read of it is tested.
fn point_at(s: &[u8], at: usize) -> Point2
    requires { at + 8 ≤ length s.now }
    ensures { result ≡ point_at s.now at }
{
    let end = at + 8;
    let part = &s[at..end];
    Point2 {
        n: wire::f32_at(part, 0),
        e: wire::f32_at(part, 4),
    }
}

// n corners from a place on, which the slice has.
pub fn corners_at(s: &[u8], at: usize, n: usize) -> [Point2; 16]
    requires { (n ≤ 16) × (at + 8 * n ≤ length s.now) }
    ensures { result ≡ corner_array (corners_at s.now at n) }
{
    let mut corners = [Point2 { n: 0.0, e: 0.0 }; 16];
    for i in 0..n {
        corners[i] = point_at(s, at + 8 * i);
    }
    corners
}

fn capped(n: u8) -> usize
    ensures { result ≡ min n 16 }
{
    usize::from(n).min(16)
}

// A kind 8 asks one rule more of the corners than a kind 2.
fn fence_kind(once_round: bool) -> u16
    ensures { result ≡ fence_kind once_round }
{
    if once_round { 8 } else { 2 }
}

fn asks_once_round(s: &[u8]) -> bool
    ensures { result ≡ asks_once_round s.now }
{
    wire::u16_at(s, 2) == 8
}

// The length of kind and body that a count of corners makes due.
fn length_due(count: u8) -> u16
    ensures { result ≡ 11 + 8 * count }
{
    11 + 8 * u16::from(count)
}

#[tactic(auto, unfolding(crate::specs::FenceFrame::check_fence))]
fn check_fence(s: &[u8]) -> Result<(), FrameError>
    ensures value { result ≡ check_fence s.now }
    ensures len { IfOk result (λ _. length s.now ≡ 13 + 8 * u8_at s.now 4) }
{
    wire::check_frame(
        s,
        fence_kind(asks_once_round(s)),
        length_due(wire::u8_at(s, 4)),
    )
}

// The fence of a whole frame of kind 2 or 8, before the fence rules.
pub fn read_fence(s: &[u8]) -> Result<FenceRead, FrameError>
    ensures { result ≡ read_fence s.now }
{
    check_fence(s)?;
    let count = wire::u8_at(s, 4);
    Ok(FenceRead {
        once_round: asks_once_round(s),
        count,
        min_alt_m: wire::f32_at(s, 5),
        max_alt_m: wire::f32_at(s, 9),
        corners: corners_at(s, 13, capped(count)),
    })
}

// The fence rules: the polygon's, then the altitudes'. A count above sixteen is refused by the first.
#[tactic(auto, using(crate::proofs::Rules::new_many), unfolding(crate::specs::FenceFrame::fence_rules, crate::specs::FenceFrame::fence_of))]
pub fn fence_of(r: &FenceRead) -> Result<Geofence, FenceError>
    ensures { result ≡ fence_of r.now }
{
    let n = usize::from(r.count);
    if n > 16 {
        return Err(FenceError::TooManyVertices);
    }
    let poly = ConvexPolygon::new_by(&r.corners[..n], r.once_round)?;
    Geofence::new(poly, r.min_alt_m, r.max_alt_m)
}

fn put_point(s: &mut [u8], at: usize, p: Point2)
    requires { at < 65536 }
    ensures { s.new ≡ sets s.old at (bytes_of (point_cells p)) }
{
    wire::put_f32(s, at, p.n);
    wire::put_f32(s, at + 4, p.e);
}

fn put_corners(s: &mut [u8], n: usize, corners: &[Point2; 16])
    requires { n ≤ 16 }
    ensures { s.new ≡ sets s.old 13 (bytes_of (corner_cells (take n corners.now))) }
{
    for i in 0..n {
        put_point(s, 13 + 8 * i, corners[i]);
    }
}

fn put_fence(s: &mut [u8], r: &FenceRead)
    requires { r.now.count ≤ 16 }
    ensures { s.new ≡ sets s.old 0 (frame_of r.now) }
{
    wire::put_head(s, fence_kind(r.once_round), length_due(r.count));
    wire::put_u8(s, 4, r.count);
    wire::put_f32(s, 5, r.min_alt_m);
    wire::put_f32(s, 9, r.max_alt_m);
    put_corners(s, usize::from(r.count), &r.corners);
}

// The frame, of kind 8 where `once_round`, of the first `count` corners in the first 13 + 8 × count bytes. Where a count is above sixteen or the slice has
// fewer bytes nothing is written.
pub fn write_fence(s: &mut [u8], r: &FenceRead) -> Result<(), WriteError>
    ensures { (result ≡ check_write r.now.count (frame_of r.now) s.old) × (s.new ≡ fence_written r.now.count (frame_of r.now) s.old) }
{
    if r.count > 16 {
        return Err(WriteError::Fence(FenceError::TooManyVertices));
    }
    if s.len() < 13 + 8 * usize::from(r.count) {
        return Err(WriteError::Frame(FrameError::NoRoom));
    }
    put_fence(s, r);
    Ok(())
}
