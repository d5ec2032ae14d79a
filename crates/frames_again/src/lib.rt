// The frames of what a step leaves, written and read again: the very state, and the very Decision.
#![tactic(auto)]

ghost use Rattle.std.specs.Prelude.{true, ◌≡◌, Ok};
ghost use Rattle.supervisor.specs.Rules.{Rules, RaisedFits};
ghost use Rattle.supervisor.specs.Settings.{base_settings, fence_site, fed_at};
ghost use Rattle.supervisor.specs.Step.{step};
ghost use Rattle.frame_state.specs.StateFrame.{read_state, state_frame};

use config::Config;
use geometry::Geofence;
use supervisor::Supervisor;
use types::{Decision, Telemetry};
use wire::FrameError;

// A state's frame as the reader answers it: the very state, where it obeys the frame's rules and the kind holds what is raised.
pub fn state_again(x: Supervisor, keeps: bool) -> Result<Supervisor, FrameError>
    ensures accepted_again { Rules x → RaisedFits keeps x → result ≡ Ok x }
    ensures read_again { result ≡ read_state keeps (state_frame keeps x) }
{
    let mut bytes = [0u8; 194];
    let frame = &mut bytes[..frame_state::state_size(keeps)];
    frame_state::write_state(frame, keeps, x)?;
    frame_state::read_state(frame, keeps)
}

// A Decision's frame: the very Decision.
pub fn decision_again(d: Decision) -> Result<Decision, FrameError>
    ensures { result ≡ Ok d }
{
    let mut frame = [0u8; 95];
    frame_decision::write_decision(&mut frame, d)?;
    frame_decision::read_decision(&frame)
}

// The state and the Decision of a step. The very state, where the step began from one that obeys the rules and the frame's kind
// holds what the configuration keeps raised and what was raised before: a kind 12 holds all of it.
pub fn stepped_again(
    x: &Supervisor,
    cfg: &Config,
    fence: &Geofence,
    raw: &Telemetry,
    keeps: bool,
) -> (Result<Supervisor, FrameError>, Result<Decision, FrameError>)
    ensures state_accepted { (cfg.now.keeps_raised ≡ true → keeps ≡ true) → Rules x.now → RaisedFits keeps x.now → result.0 ≡ Ok (step (base_settings cfg.now) x.now (fed_at (fence_site fence.now) raw.now)).supervisor }
    ensures state_read { result.0 ≡ read_state keeps (state_frame keeps (step (base_settings cfg.now) x.now (fed_at (fence_site fence.now) raw.now)).supervisor) }
    ensures decision { result.1 ≡ Ok (step (base_settings cfg.now) x.now (fed_at (fence_site fence.now) raw.now)).decision }
{
    let y = x.step(cfg, fence, raw);
    (state_again(y.supervisor, keeps), decision_again(y.decision))
}
