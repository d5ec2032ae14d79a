// The kind 3 frames of two radios merged into one, under a flight's configuration.
#![tactic(auto, unfolding(crate::specs::Call::merge_read, crate::specs::Call::merge_accepted))]

ghost use Rattle.std.specs.Prelude.{◌≡◌};
ghost use Rattle.merge_frames.specs.Call.{merge_error_number, merge_number, merge_accepted};

use wire::FrameError;

// Why two frames are not merged.
#[derive(Clone, Copy)]
pub enum MergeError {
    Frame(FrameError),
    ClocksDiffer,
}

impl MergeError {
    // The number of the refusal: what a C host is answered.
    pub fn number(self) -> u16
        ensures { result ≡ merge_error_number self }
    {
        match self {
            MergeError::Frame(e) => e.number(),
            MergeError::ClocksDiffer => 38,
        }
    }
}

impl From<FrameError> for MergeError {
    ghost use Rattle.merge_frames.specs.declared.MergeError.{MergeError};

    ghost from_gives = { λ e r. r ≡ MergeError.Frame e };

    fn from(e: FrameError) -> MergeError {
        MergeError::Frame(e)
    }
}

// The merged frame in the first 106 bytes of output, or the refusal with nothing written. Configuration and fence were accepted before. They are not
// read again here: only as long as the step alone calls their readers does the compiler put these into the step.
pub fn merge_accepted(
    config: &[u8],
    first: &[u8],
    second: &[u8],
    output: &mut [u8],
) -> Result<(), MergeError>
    ensures value { merge_number result ≡ (merge_accepted config.now first.now second.now output.old).number }
    ensures output_after { output.new ≡ (merge_accepted config.now first.now second.now output.old).output }
{
    let a = telemetry_reader::read_telemetry(first)?;
    let b = telemetry_reader::read_telemetry(second)?;
    if a.now_ms != b.now_ms {
        return Err(MergeError::ClocksDiffer);
    }
    let merged = merge::merge_telemetry(a, b, wire::f32_at(config, 5));
    frame_telemetry::write_telemetry(output, merged)?;
    Ok(())
}
