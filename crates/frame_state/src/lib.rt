// Kind 5: the supervisor's state, without configuration and fence, in its frame of 186 bytes, read and written. Kind 12, of a flight
// that keeps raised requests, has eight bytes more: `keeps` says which it is.
#![tactic(auto, unfolding(crate::specs::StateFrame::timer_at, crate::specs::StateFrame::triggers_at, crate::specs::StateFrame::arbiter_at, crate::specs::StateFrame::state_at, crate::specs::StateFrame::state_valid, crate::specs::StateFrame::raised_at, crate::specs::StateFrame::raised_read, crate::specs::StateFrame::raised_valid, crate::specs::StateFrame::read_state, options::specs::Options::option_u32_at, options::specs::Position::option_position_at, options::specs::Position::position_at))]

ghost use Rattle.std.specs.Prelude.{◌≡◌, ◌+◌, ◌<◌, ◌≤◌, length};
ghost use Rattle.std.specs.Result.{IfOk};
ghost use Rattle.std.proofs.lemmas.List.Edits.{sets};
ghost use Rattle.supervisor.specs.Rules.{finite_vec, finite_stored};
ghost use Rattle.supervisor.specs.Step.{fresh_supervisor};
ghost use Rattle.wire.specs.Frame.{check_frame, check_room, frame_written};
ghost use Rattle.wire.specs.Laid.{laid, Blank};
ghost use Rattle.options.specs.Options.{valid_option};
ghost use Rattle.options.specs.Position.{option_position_at};
ghost use Rattle.frame_state.specs.StateFrame.{state_kind, state_length, raised_at, raised_read, raised_valid, le_raised, le_kept, timer_at, triggers_at, arbiter_at, state_at, timers_valid, state_valid, read_state, le_timer, le_links, le_fence, le_battery, le_input, le_triggers, le_arbiter, state_frame};

use arbiter::ArbiterState;
use disarm::DisarmGate;
use supervisor::Supervisor;
use timers::Timer;
use triggers::{Raised, TriggerState};
use types::{PositionSample, Vec3};
use validate::GlitchState;
use wire::FrameError;

// `keeps` is what the configuration says at run time, so here and below it is a parameter and no type.
fn state_kind(keeps: bool) -> u16
    ensures { result ≡ state_kind keeps }
{
    if keeps { 12 } else { 5 }
}

// The bytes of kind and body.
fn state_length(keeps: bool) -> u16
    ensures { result ≡ state_length keeps }
{
    if keeps { 192 } else { 184 }
}

// The bytes of the whole frame.
pub fn state_size(keeps: bool) -> usize
    ensures { result ≡ 2 + state_length keeps }
{
    if keeps { 194 } else { 186 }
}

// The number is read before its flag: a choice between two values takes no branch.
fn timer_at(s: &[u8], at: usize) -> Timer
    requires { at < 65536 }
    ensures { result ≡ timer_at s.now at }
{
    let n = wire::u32_at(s, at + 1);
    Timer {
        since_ms: wire::flag_at(s, at).then_some(n),
    }
}

fn triggers_at(s: &[u8], raised: Raised) -> TriggerState
    ensures { result ≡ triggers_at s.now raised }
{
    TriggerState {
        battery_critical_latched: wire::flag_at(s, 4),
        energy_infeasible_latched: wire::flag_at(s, 5),
        gcs_clear_timer: timer_at(s, 6),
        rc_clear_timer: timer_at(s, 11),
        gps_deg_set: timer_at(s, 16),
        gps_deg_clear: timer_at(s, 21),
        gps_lost_set: timer_at(s, 26),
        gps_lost_clear: timer_at(s, 31),
        ekf_set: timer_at(s, 36),
        ekf_clear: timer_at(s, 41),
        fence_breach_set: timer_at(s, 46),
        fence_breach_clear: timer_at(s, 51),
        alt_max_set: timer_at(s, 56),
        alt_max_clear: timer_at(s, 61),
        alt_min_set: timer_at(s, 66),
        alt_min_clear: timer_at(s, 71),
        stale_bat_clear: timer_at(s, 76),
        bat_warn_set: timer_at(s, 81),
        bat_warn_clear: timer_at(s, 86),
        bat_low_set: timer_at(s, 91),
        bat_low_clear: timer_at(s, 96),
        bat_crit_set: timer_at(s, 101),
        energy_marg_set: timer_at(s, 106),
        energy_marg_clear: timer_at(s, 111),
        energy_infeas_set: timer_at(s, 116),
        invalid_clear: timer_at(s, 121),
        invalid_active: wire::flag_at(s, 126),
        rc_lost_set: timer_at(s, 127),
        gcs_stage: wire::u8_at(s, 132),
        raised: raised,
    }
}

fn arbiter_at(s: &[u8]) -> ArbiterState
    ensures { result ≡ arbiter_at s.now }
{
    ArbiterState {
        prev_output: options::action_at(s, 133),
        prev_reason: options::reason_at(s, 134),
        recovery_since_ms: options::option_at(s, 135),
    }
}

fn state_at(s: &[u8], stored: Option<PositionSample>, raised: Raised) -> Supervisor
    requires { stored ≡ option_position_at s.now 145 }
    ensures { result ≡ state_at s.now raised }
{
    Supervisor {
        triggers: triggers_at(s, raised),
        arbiter: arbiter_at(s),
        disarm: DisarmGate {
            hold_since_ms: options::option_at(s, 140),
        },
        glitch: GlitchState {
            last_accepted: stored,
            reject_streak: wire::u8_at(s, 174),
        },
        last_now: options::option_at(s, 175),
        epoch_start: wire::u32_at(s, 180),
        backwards_streak: wire::u8_at(s, 184),
        initialized: wire::flag_at(s, 185),
    }
}

// Whether a timer whose bytes are all within the slice is a byte 0 with four bytes 0 after it, or a byte 1.
fn timer_valid(s: &[u8], at: usize) -> bool
    requires { at + 5 ≤ length s.now }
    ensures { result ≡ valid_option s.now at 4 }
{
    let f = s[at];
    if f == 0 {
        wire::quad(s[at + 1], s[at + 2], s[at + 3], s[at + 4]) == 0
    } else {
        f == 1
    }
}

// The 24 timers that stand one after the other.
#[tactic(auto, unfolding(crate::specs::StateFrame::timers_valid))]
fn timers_valid(s: &[u8]) -> bool
    requires { 186 ≤ length s.now }
    ensures { result ≡ timers_valid s.now 24 }
{
    for i in 0..24 {
        if !timer_valid(s, 6 + 5 * i) {
            return false;
        }
    }
    true
}

fn finite_vec(v: Vec3) -> bool
    ensures { result ≡ finite_vec v }
{
    float32::is_finite(v.n) & float32::is_finite(v.e) & float32::is_finite(v.d)
}

fn finite_stored(o: Option<PositionSample>) -> bool
    ensures { result ≡ finite_stored o }
{
    o.is_none_or(|p| finite_vec(p.pos) & finite_vec(p.vel))
}

// No test is made after one that fails.
fn state_valid(s: &[u8], stored: Option<PositionSample>) -> bool
    requires in_bounds { 186 ≤ length s.now }
    requires stored_value { stored ≡ option_position_at s.now 145 }
    ensures { result ≡ state_valid s.now }
{
    let valid = timers_valid(s)
        && wire::byte_below(s, 4, 2)
        && wire::byte_below(s, 5, 2)
        && wire::byte_below(s, 126, 2)
        && timer_valid(s, 127)
        && wire::byte_below(s, 132, 4)
        && wire::byte_below(s, 133, 5)
        && wire::byte_below(s, 134, 19)
        && timer_valid(s, 135)
        && timer_valid(s, 140)
        && options::option_valid(s, 145, 28)
        && finite_stored(stored)
        && timer_valid(s, 175)
        && wire::byte_below(s, 184, 3);
    valid & wire::byte_below(s, 185, 2)
}

fn raised_at(s: &[u8]) -> Raised
    ensures { result ≡ raised_at s.now }
{
    Raised {
        gps_degraded: wire::flag_at(s, 186),
        gps_lost: wire::flag_at(s, 187),
        ekf_unhealthy: wire::flag_at(s, 188),
        fence_breach: wire::flag_at(s, 189),
        altitude_min: wire::flag_at(s, 190),
        battery_warn: wire::flag_at(s, 191),
        battery_low: wire::flag_at(s, 192),
        energy_rtl_marginal: wire::flag_at(s, 193),
    }
}

fn raised_read(s: &[u8], keeps: bool) -> Raised
    ensures { result ≡ raised_read keeps s.now }
{
    if keeps { raised_at(s) } else { Raised::none() }
}

fn raised_valid(s: &[u8], keeps: bool) -> bool
    ensures { result ≡ raised_valid keeps s.now }
{
    if keeps {
        wire::byte_below(s, 186, 2)
            & wire::byte_below(s, 187, 2)
            & wire::byte_below(s, 188, 2)
            & wire::byte_below(s, 189, 2)
            & wire::byte_below(s, 190, 2)
            & wire::byte_below(s, 191, 2)
            & wire::byte_below(s, 192, 2)
            & wire::byte_below(s, 193, 2)
    } else {
        true
    }
}

// The head. The bytes that both kinds have are counted beside it: then the compiler tests no field for its place.
#[tactic(auto, using(crate::proofs::Size::least))]
fn check_head(s: &[u8], keeps: bool) -> Result<(), FrameError>
    ensures value { result ≡ check_frame (state_kind keeps) (state_length keeps) s.now }
    ensures len { IfOk result (λ _. 186 ≤ length s.now) }
{
    wire::check_frame(s, state_kind(keeps), state_length(keeps))?;
    if s.len() < 186 {
        return Err(FrameError::WrongLength);
    }
    Ok(())
}

// The state of a whole frame.
pub fn read_state(s: &[u8], keeps: bool) -> Result<Supervisor, FrameError>
    ensures { result ≡ read_state keeps s.now }
{
    check_head(s, keeps)?;
    let stored = options::option_at(s, 145);
    let valid = state_valid(s, stored);
    let bools = raised_valid(s, keeps);
    if valid & bools {
        Ok(state_at(s, stored, raised_read(s, keeps)))
    } else {
        Err(FrameError::OutOfRange)
    }
}

// Over bytes of 0, only a timer that runs is written.
fn put_timer(s: &mut [u8], at: usize, t: Timer)
    requires { at < 65536 }
    ensures { s.new ≡ laid s.old at (le_timer t) }
{
    if let Some(n) = t.since_ms {
        wire::put_u8(s, at, 1);
        wire::put_u32(s, at + 1, n);
    }
}

fn put_links(s: &mut [u8], t: TriggerState)
    requires { Blank s.old 4 42 }
    ensures { s.new ≡ sets s.old 4 (le_links t) }
{
    wire::put_flag(s, 4, t.battery_critical_latched);
    wire::put_flag(s, 5, t.energy_infeasible_latched);
    put_timer(s, 6, t.gcs_clear_timer);
    put_timer(s, 11, t.rc_clear_timer);
    put_timer(s, 16, t.gps_deg_set);
    put_timer(s, 21, t.gps_deg_clear);
    put_timer(s, 26, t.gps_lost_set);
    put_timer(s, 31, t.gps_lost_clear);
    put_timer(s, 36, t.ekf_set);
    put_timer(s, 41, t.ekf_clear);
}

fn put_fence(s: &mut [u8], t: TriggerState)
    requires { Blank s.old 46 30 }
    ensures { s.new ≡ sets s.old 46 (le_fence t) }
{
    put_timer(s, 46, t.fence_breach_set);
    put_timer(s, 51, t.fence_breach_clear);
    put_timer(s, 56, t.alt_max_set);
    put_timer(s, 61, t.alt_max_clear);
    put_timer(s, 66, t.alt_min_set);
    put_timer(s, 71, t.alt_min_clear);
}

fn put_battery(s: &mut [u8], t: TriggerState)
    requires { Blank s.old 76 45 }
    ensures { s.new ≡ sets s.old 76 (le_battery t) }
{
    put_timer(s, 76, t.stale_bat_clear);
    put_timer(s, 81, t.bat_warn_set);
    put_timer(s, 86, t.bat_warn_clear);
    put_timer(s, 91, t.bat_low_set);
    put_timer(s, 96, t.bat_low_clear);
    put_timer(s, 101, t.bat_crit_set);
    put_timer(s, 106, t.energy_marg_set);
    put_timer(s, 111, t.energy_marg_clear);
    put_timer(s, 116, t.energy_infeas_set);
}

fn put_input(s: &mut [u8], t: TriggerState)
    requires { Blank s.old 121 12 }
    ensures { s.new ≡ sets s.old 121 (le_input t) }
{
    put_timer(s, 121, t.invalid_clear);
    wire::put_flag(s, 126, t.invalid_active);
    put_timer(s, 127, t.rc_lost_set);
    wire::put_u8(s, 132, t.gcs_stage);
}

fn put_triggers(s: &mut [u8], t: TriggerState)
    requires { Blank s.old 4 129 }
    ensures { s.new ≡ sets s.old 4 (le_triggers t) }
{
    put_links(s, t);
    put_fence(s, t);
    put_battery(s, t);
    put_input(s, t);
}

fn put_arbiter(s: &mut [u8], a: ArbiterState)
    ensures { s.new ≡ sets s.old 133 (le_arbiter a) }
{
    options::put_action(s, 133, a.prev_output);
    options::put_reason(s, 134, a.prev_reason);
    options::put_option(s, 135, a.recovery_since_ms);
}

fn put_raised(s: &mut [u8], r: Raised)
    ensures { s.new ≡ sets s.old 186 (le_raised r) }
{
    wire::put_flag(s, 186, r.gps_degraded);
    wire::put_flag(s, 187, r.gps_lost);
    wire::put_flag(s, 188, r.ekf_unhealthy);
    wire::put_flag(s, 189, r.fence_breach);
    wire::put_flag(s, 190, r.altitude_min);
    wire::put_flag(s, 191, r.battery_warn);
    wire::put_flag(s, 192, r.battery_low);
    wire::put_flag(s, 193, r.energy_rtl_marginal);
}

fn put_kept(s: &mut [u8], keeps: bool, r: Raised)
    ensures { s.new ≡ sets s.old 186 (le_kept keeps r) }
{
    if keeps {
        put_raised(s, r);
    }
}

fn put_state(s: &mut [u8], keeps: bool, x: Supervisor)
    ensures { s.new ≡ sets s.old 0 (state_frame keeps x) }
{
    wire::put_head(s, state_kind(keeps), state_length(keeps));
    wire::put_zeros(s, 4, 129);
    put_triggers(s, x.triggers);
    put_arbiter(s, x.arbiter);
    options::put_option(s, 140, x.disarm.hold_since_ms);
    options::put_option(s, 145, x.glitch.last_accepted);
    wire::put_u8(s, 174, x.glitch.reject_streak);
    options::put_option(s, 175, x.last_now);
    wire::put_u32(s, 180, x.epoch_start);
    wire::put_u8(s, 184, x.backwards_streak);
    wire::put_flag(s, 185, x.initialized);
    put_kept(s, keeps, x.triggers.raised);
}

// The frame in the first bytes; nothing written where the slice has fewer.
pub fn write_state(s: &mut [u8], keeps: bool, x: Supervisor) -> Result<(), FrameError>
    ensures { (result ≡ check_room (state_frame keeps x) s.old) × (s.new ≡ frame_written (state_frame keeps x) s.old) }
{
    if s.len() < 186 {
        return Err(FrameError::NoRoom);
    }
    if s.len() < state_size(keeps) {
        return Err(FrameError::NoRoom);
    }
    put_state(s, keeps, x);
    Ok(())
}

// The same for a fresh state, whose body is zero bytes alone. A second caller of `write_state` in the entries would keep it out
// of the step's own code.
pub fn write_fresh(s: &mut [u8], keeps: bool) -> Result<(), FrameError>
    ensures { (result ≡ check_room (state_frame keeps fresh_supervisor) s.old) × (s.new ≡ frame_written (state_frame keeps fresh_supervisor) s.old) }
{
    let size = state_size(keeps);
    if s.len() < size {
        return Err(FrameError::NoRoom);
    }
    wire::put_head(s, state_kind(keeps), state_length(keeps));
    wire::put_zeros(s, 4, size - 4);
    Ok(())
}
