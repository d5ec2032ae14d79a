// A fence that is written and read again is the same: the round trip as code.
#![tactic(auto)]

ghost use Rattle.std.specs.Prelude.{◌≡◌, Ok, Err, cond, ltb, take};
ghost use Rattle.frame_fence.specs.FenceFrame.{fence_sent};

use corners::FenceError;
use frame_fence::{FenceRead, WriteError};

pub fn written_and_read(r: FenceRead) -> Result<FenceRead, WriteError>
    ensures { result ≡ cond (ltb 16 r.count) (Err (WriteError.Fence FenceError.TooManyVertices)) (Ok (fence_sent r.once_round r.count r.min_alt_m r.max_alt_m (take r.count r.corners))) }
{
    if r.count > 16 {
        return Err(WriteError::Fence(FenceError::TooManyVertices));
    }
    let mut b = [0u8; 141];
    frame_fence::write_fence(&mut b, &r)?;
    let n = 13 + 8 * usize::from(r.count);
    Ok(frame_fence::read_fence(&b[..n])?)
}
