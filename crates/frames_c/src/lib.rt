// A frame read and its value written anew, for C, to test and to time the frames.
#![tactic(auto)]

ghost use Rattle.std.specs.Prelude.{false, ◌≡◌};
ghost use Rattle.frame_config.specs.ConfigFrame.{read_config};
ghost use Rattle.frame_decision.specs.DecisionFrame.{read_decision};
ghost use Rattle.frame_fence.specs.FenceFrame.{read_fence};
ghost use Rattle.frame_refusal.specs.RefusalFrame.{read_refusal};
ghost use Rattle.frame_state.specs.StateFrame.{read_state};
ghost use Rattle.frame_telemetry.specs.TelemetryFrame.{read_telemetry};
ghost use Rattle.frames_c.specs.Again.{config_again, fence_again, telemetry_again, decision_again, state_again, refusal_again};

use wire::number_of;

#[unsafe(no_mangle)]
pub extern "C" fn config_again(frame: &[u8], to: &mut [u8]) -> u32
    ensures value { result ≡ (config_again (read_config frame.now) to.old).number }
    ensures to_after { to.new ≡ (config_again (read_config frame.now) to.old).slice }
{
    match frame_config::read_config(frame) {
        Ok(c) => number_of(frame_config::write_config(to, c)),
        Err(e) => u32::from(e.number()),
    }
}

// The fence as sent, before the fence rules.
#[unsafe(no_mangle)]
pub extern "C" fn fence_again(frame: &[u8], to: &mut [u8]) -> u32
    ensures value { result ≡ (fence_again (read_fence frame.now) to.old).number }
    ensures to_after { to.new ≡ (fence_again (read_fence frame.now) to.old).slice }
{
    match frame_fence::read_fence(frame) {
        Ok(sent) => match frame_fence::write_fence(to, &sent) {
            Ok(()) => 0,
            Err(e) => u32::from(e.number()),
        },
        Err(e) => u32::from(e.number()),
    }
}

#[unsafe(no_mangle)]
pub extern "C" fn telemetry_again(frame: &[u8], to: &mut [u8]) -> u32
    ensures value { result ≡ (telemetry_again (read_telemetry frame.now) to.old).number }
    ensures to_after { to.new ≡ (telemetry_again (read_telemetry frame.now) to.old).slice }
{
    match frame_telemetry::read_telemetry(frame) {
        Ok(t) => number_of(frame_telemetry::write_telemetry(to, t)),
        Err(e) => u32::from(e.number()),
    }
}

#[unsafe(no_mangle)]
pub extern "C" fn decision_again(frame: &[u8], to: &mut [u8]) -> u32
    ensures value { result ≡ (decision_again (read_decision frame.now) to.old).number }
    ensures to_after { to.new ≡ (decision_again (read_decision frame.now) to.old).slice }
{
    match frame_decision::read_decision(frame) {
        Ok(d) => number_of(frame_decision::write_decision(to, d)),
        Err(e) => u32::from(e.number()),
    }
}

#[unsafe(no_mangle)]
pub extern "C" fn state_again(frame: &[u8], to: &mut [u8]) -> u32
    ensures value { result ≡ (state_again (read_state false frame.now) to.old).number }
    ensures to_after { to.new ≡ (state_again (read_state false frame.now) to.old).slice }
{
    match frame_state::read_state(frame, false) {
        Ok(x) => number_of(frame_state::write_state(to, false, x)),
        Err(e) => u32::from(e.number()),
    }
}

#[unsafe(no_mangle)]
pub extern "C" fn refusal_again(frame: &[u8], to: &mut [u8]) -> u32
    ensures value { result ≡ (refusal_again (read_refusal frame.now) to.old).number }
    ensures to_after { to.new ≡ (refusal_again (read_refusal frame.now) to.old).slice }
{
    match frame_refusal::read_refusal(frame) {
        Ok(n) => number_of(frame_refusal::write_refusal(to, n)),
        Err(e) => u32::from(e.number()),
    }
}
