// Kind 6: a Decision with the side of the fence that gave its distance, in a frame of 96 bytes. It is kind 4's frame with one byte put in.
#![tactic(auto, unfolding(crate::specs::SideFrame::read_side))]

ghost use Rattle.std.specs.Prelude.{◌≡◌, length};
ghost use Rattle.std.proofs.lemmas.List.Edits.{sets};
ghost use Rattle.wire.specs.Fields.{le8, le_flag};
ghost use Rattle.wire.specs.Frame.{frame_head, check_room, frame_written};
ghost use Rattle.frame_side.specs.SideFrame.{without_side, side_frame, read_side};

use types::Decision;
use wire::FrameError;

// A Decision and the side of the fence that gave its distance.
#[derive(Clone, Copy)]
pub struct SideDecision {
    pub decision: Decision,
    pub side: u8,
}

// Makes the frame of kind 4 at the start of s one of kind 6. What stood in the side's place, and now stands behind it, is `eligible`.
pub fn put_side(s: &mut [u8], side: u8, eligible: bool)
    ensures { s.new ≡ sets (sets (sets s.old 0 (frame_head 6 94)) 94 (le8 side)) 95 (le_flag eligible) }
{
    wire::put_head(s, 6, 94);
    wire::put_u8(s, 94, side);
    wire::put_flag(s, 95, eligible);
}

// The frame in the first 96 bytes; nothing written where the slice has fewer.
pub fn write_side(s: &mut [u8], d: Decision, side: u8) -> Result<(), FrameError>
    ensures { (result ≡ check_room (side_frame d side) s.old) × (s.new ≡ frame_written (side_frame d side) s.old) }
{
    if s.len() < 96 {
        return Err(FrameError::NoRoom);
    }
    frame_decision::put_decision(s, d);
    put_side(s, side, d.disarm_eligible);
    Ok(())
}

// The frame of kind 4 that is left of one of kind 6 without its side.
fn without_side(s: &[u8]) -> [u8; 95]
    requires { length s.now ≡ 96 }
    ensures { result ≡ without_side s.now }
{
    let mut b = [0u8; 95];
    slices::copy(&s[0..94], &mut b);
    wire::put_head(&mut b, 4, 93);
    wire::put_u8(&mut b, 94, s[95]);
    b
}

// The Decision of a whole frame and its side; any byte may stand for the side.
pub fn read_side(s: &[u8]) -> Result<SideDecision, FrameError>
    ensures { result ≡ read_side s.now }
{
    wire::check_frame(s, 6, 94)?;
    let decision = frame_decision::read_decision(&without_side(s))?;
    Ok(SideDecision {
        decision,
        side: wire::u8_at(s, 94),
    })
}
