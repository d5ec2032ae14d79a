// Kind 255: the number of a refusal in its frame, read and written.
#![tactic(auto, unfolding(crate::specs::RefusalFrame::read_refusal))]

ghost use Rattle.std.specs.Prelude.{◌≡◌};
ghost use Rattle.std.proofs.lemmas.List.Edits.{sets};
ghost use Rattle.wire.specs.Frame.{check_room, frame_written};
ghost use Rattle.frame_refusal.specs.RefusalFrame.{read_refusal, refusal_frame};

use wire::FrameError;

// The number that a frame holds.
pub fn read_refusal(s: &[u8]) -> Result<u16, FrameError>
    ensures { result ≡ read_refusal s.now }
{
    wire::check_frame(s, 255, 4)?;
    Ok(wire::u16_at(s, 4))
}

fn put_refusal(s: &mut [u8], number: u16)
    ensures { s.new ≡ sets s.old 0 (refusal_frame number) }
{
    wire::put_head(s, 255, 4);
    wire::put_u16(s, 4, number);
}

// The frame in the first 6 bytes; nothing written where the slice has fewer.
pub fn write_refusal(s: &mut [u8], number: u16) -> Result<(), FrameError>
    ensures { (result ≡ check_room (refusal_frame number) s.old) × (s.new ≡ frame_written (refusal_frame number) s.old) }
{
    if s.len() < 6 {
        return Err(FrameError::NoRoom);
    }
    put_refusal(s, number);
    Ok(())
}
