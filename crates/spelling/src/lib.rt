// Document 02, L12: an accepted fence of kind 8 written in one form.
#![tactic(auto, unfolding(crate::specs::Spell::check_head, crate::specs::Spell::judged_again, crate::specs::Spell::spelled, crate::specs::Spell::spelled_fence, crate::specs::Spell::spell_number, crate::specs::Spell::spell_output))]

ghost use Rattle.std.specs.Prelude.{◌≡◌, ◌+◌, ◌*◌};
ghost use Rattle.frame_fence.specs.FenceFrame.{fence_of};
ghost use Rattle.spelling.specs.Spell.{check_head, verdict, in_form, spelled_fence, spell_error_number, result_number, spell_number, spell_output};

use corners::FenceError;
use frame_fence::{FenceRead, WriteError};
use geometry::{ConvexPolygon, Geofence};
use types::Point2;
use wire::FrameError;

// Why no fence is spelled.
#[derive(Clone, Copy)]
pub enum SpellError {
    Frame(FrameError),
    Fence(FenceError),
    // the fence rules decline the one form: its area is summed, and its turns are taken, in another order
    OneFormDeclined,
}

impl SpellError {
    // The number of the refusal: what a C host is answered.
    pub fn number(self) -> u16
        ensures { result ≡ spell_error_number self }
    {
        match self {
            SpellError::Frame(e) => e.number(),
            SpellError::Fence(e) => e.number(),
            SpellError::OneFormDeclined => 39,
        }
    }
}

impl From<FrameError> for SpellError {
    ghost use Rattle.spelling.specs.declared.SpellError.{SpellError};

    ghost from_gives = { λ e r. r ≡ SpellError.Frame e };

    fn from(e: FrameError) -> SpellError {
        SpellError::Frame(e)
    }
}

impl From<FenceError> for SpellError {
    ghost use Rattle.spelling.specs.declared.SpellError.{SpellError};

    ghost from_gives = { λ e r. r ≡ SpellError.Fence e };

    fn from(e: FenceError) -> SpellError {
        SpellError::Fence(e)
    }
}

impl From<WriteError> for SpellError {
    ghost use Rattle.spelling.specs.Spell.{not_written};

    ghost from_gives = { λ e r. r ≡ not_written e };

    fn from(e: WriteError) -> SpellError {
        match e {
            WriteError::Frame(e) => SpellError::Frame(e),
            WriteError::Fence(e) => SpellError::Fence(e),
        }
    }
}

// A kind 8 is due.
fn check_head(s: &[u8]) -> Result<(), FrameError>
    ensures { result ≡ check_head s.now }
{
    wire::check_frame(s, 8, 11 + 8 * u16::from(wire::u8_at(s, 4)))
}

// What the fence rules answer. No polygon is held: a step's own call of `fence_of` stays the only one, which the compiler then draws in.
#[tactic(auto, using(crate::proofs::Verdict::many))]
fn rules(r: &FenceRead) -> Result<(), FenceError>
    ensures { result ≡ verdict (fence_of r.now) }
{
    let n = usize::from(r.count);
    if n > 16 {
        return Err(FenceError::TooManyVertices);
    }
    corners::judge(&r.corners[..n], r.once_round)?;
    let none = ConvexPolygon {
        verts: [Point2 { n: 0.0, e: 0.0 }; 16],
        len: 0,
    };
    Geofence::new(none, r.min_alt_m, r.max_alt_m)?;
    Ok(())
}

// The one form of a fence, before the rules.
fn in_form(r: FenceRead) -> FenceRead
    ensures { result ≡ in_form r }
{
    let n = corners::capped(usize::from(r.count));
    let ring = rings::write_ring(&r.corners[..n]);
    let corners = ring.verts;
    FenceRead {
        once_round: true,
        min_alt_m: rings::plain_number(r.min_alt_m),
        max_alt_m: rings::plain_number(r.max_alt_m),
        corners,
        ..r
    }
}

// The fence of a frame in the one form.
pub fn spelled_fence(s: &[u8]) -> Result<FenceRead, SpellError>
    ensures { result ≡ spelled_fence s.now }
{
    check_head(s)?;
    let read = frame_fence::read_fence(s)?;
    rules(&read)?;
    let form = in_form(read);
    if rules(&form).is_err() {
        return Err(SpellError::OneFormDeclined);
    }
    Ok(form)
}

// The frame in the one form, in the first bytes of out; where it is refused nothing is written.
pub fn spell_fence(fence: &[u8], out: &mut [u8]) -> Result<(), SpellError>
    ensures value { result_number result ≡ spell_number fence.now out.old }
    ensures out_after { out.new ≡ spell_output fence.now out.old }
{
    let form = spelled_fence(fence)?;
    frame_fence::write_fence(out, &form)?;
    Ok(())
}
