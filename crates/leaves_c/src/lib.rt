// The leaves that no entry of `failsafe` hands out, for C: tests/replay holds them to the Rust's stored answers. Values of more
// than a number or two come and go in their frames.
#![tactic(auto)]

ghost use Rattle.std.specs.Bool.{then_some};
ghost use Rattle.std.specs.Prelude.{false, ◌≡◌, take};
ghost use Rattle.wire.specs.Frame.{check_room, room_fault, frame_written};
ghost use Rattle.time.specs.Time.{wrapping, age, fresh};
ghost use Rattle.types.specs.Numbers.{landed_of_number, rank, action_of_rank, index, reason_of_index};
ghost use Rattle.types.specs.ActiveSet.{requested_action};
ghost use Rattle.types.specs.Vec3.{alt_m, horizontal_dist_home};
ghost use Rattle.geometry.specs.Polygon.{held_polygon, polygon_new};
ghost use Rattle.geometry.specs.Distance.{ring_of, signed_distance, contains};
ghost use Rattle.disarm.specs.Disarm.{closed, evaluate};
ghost use Rattle.config.specs.Default.{default_config, default_fence};
ghost use Rattle.frame_config.specs.ConfigFrame.{read_config, config_frame};
ghost use Rattle.frame_fence.specs.FenceFrame.{read_fence, fence_number};
ghost use Rattle.frame_decision.specs.DecisionFrame.{read_decision};
ghost use Rattle.leaves_c.specs.Leaves.{age_or, active_of, index_or, priority_or, rank_or, reason_or, action_or, vec3, point2, places_of, corners_of, places_frame, held_call, filed_call, cleared_call, energy_call, estimate_frame, since_or, gate_of, stamped, landed_or};

use config::Config;
use corners::FenceError;
use disarm::{DisarmGate, Evaluated};
use frame_fence::FenceRead;
use geometry::{ConvexPolygon, Geofence};
use types::{
    Action, ActiveSet, Decision, EnergyEstimate, LandedState, Point2, Reason, Request, Stamped,
    UnknownNumber, Vec3,
};
use wire::{FrameError, number_of};

#[unsafe(no_mangle)]
pub extern "C" fn leaf_age(now: u32, then: u32) -> u32
    ensures { result ≡ age_or (age wrapping now then) }
{
    time::age_ms(now, then).unwrap_or(u32::MAX)
}

#[unsafe(no_mangle)]
pub extern "C" fn leaf_fresh(now: u32, stamp: u32, limit: u32) -> bool
    ensures { result ≡ fresh wrapping now stamp limit }
{
    time::is_fresh(now, stamp, limit)
}

// A slot past the last is no reason's.
fn reason_at(i: usize) -> Result<Reason, UnknownNumber>
    ensures { result ≡ reason_of_index i }
{
    Reason::from_index(i).ok_or(UnknownNumber)
}

#[unsafe(no_mangle)]
pub extern "C" fn leaf_reason_index(i: usize) -> usize
    ensures { result ≡ index_or (reason_of_index i) }
{
    reason_at(i).map_or(19, |r| r.index())
}

#[unsafe(no_mangle)]
pub extern "C" fn leaf_reason_priority(i: usize) -> u8
    ensures { result ≡ priority_or (reason_of_index i) }
{
    reason_at(i).map_or(0, |r| r.display_priority())
}

#[unsafe(no_mangle)]
pub extern "C" fn leaf_action_rank(n: u8) -> u8
    ensures { result ≡ rank_or (action_of_rank n) }
{
    Action::try_from(n).map_or(5, |a| a.rank())
}

// What the requests of a kind 4 frame ask for; of a frame that is refused, nothing.
fn requested(frame: &[u8]) -> Request
    ensures { result ≡ requested_action (active_of (read_decision frame.now)).reqs }
{
    frame_decision::read_decision(frame)
        .map_or(ActiveSet::new(), |d| d.active)
        .requested_action()
}

#[unsafe(no_mangle)]
pub extern "C" fn leaf_requested_rank(frame: &[u8]) -> u8
    ensures { result ≡ rank (requested_action (active_of (read_decision frame.now)).reqs).action }
{
    requested(frame).action.rank()
}

#[unsafe(no_mangle)]
pub extern "C" fn leaf_requested_reason(frame: &[u8]) -> usize
    ensures { result ≡ index (requested_action (active_of (read_decision frame.now)).reqs).reason }
{
    requested(frame).reason.index()
}

fn reason_of(i: usize) -> Reason
    ensures { result ≡ reason_or (reason_of_index i) }
{
    reason_at(i).unwrap_or(Reason::None)
}

fn action_of(n: u8) -> Action
    ensures { result ≡ action_or (action_of_rank n) }
{
    Action::try_from(n).unwrap_or(Action::Nominal)
}

// A request filed among those of a kind 4 frame, which is written anew.
#[unsafe(no_mangle)]
pub extern "C" fn leaf_filed(frame: &[u8], reason: usize, action: u8, to: &mut [u8]) -> u32
    ensures value { result ≡ (filed_call (read_decision frame.now) (reason_or (reason_of_index reason)) (action_or (action_of_rank action)) to.old).number }
    ensures to_after { to.new ≡ (filed_call (read_decision frame.now) (reason_or (reason_of_index reason)) (action_or (action_of_rank action)) to.old).slice }
{
    match frame_decision::read_decision(frame) {
        Ok(d) => {
            let active = d.active.set(reason_of(reason), action_of(action));
            number_of(frame_decision::write_decision(to, Decision { active, ..d }))
        }
        Err(e) => u32::from(e.number()),
    }
}

// The same with a reason's request cleared.
#[unsafe(no_mangle)]
pub extern "C" fn leaf_cleared(frame: &[u8], reason: usize, to: &mut [u8]) -> u32
    ensures value { result ≡ (cleared_call (read_decision frame.now) (reason_or (reason_of_index reason)) to.old).number }
    ensures to_after { to.new ≡ (cleared_call (read_decision frame.now) (reason_or (reason_of_index reason)) to.old).slice }
{
    match frame_decision::read_decision(frame) {
        Ok(d) => {
            let active = d.active.clear(reason_of(reason));
            number_of(frame_decision::write_decision(to, Decision { active, ..d }))
        }
        Err(e) => u32::from(e.number()),
    }
}

#[unsafe(no_mangle)]
pub extern "C" fn leaf_altitude(n: f32, e: f32, d: f32) -> f32
    ensures { result ≡ alt_m (vec3 n e d) }
{
    Vec3 { n, e, d }.alt_m()
}

#[unsafe(no_mangle)]
pub extern "C" fn leaf_home_distance(n: f32, e: f32, d: f32) -> f32
    ensures { result ≡ horizontal_dist_home (vec3 n e d) }
{
    Vec3 { n, e, d }.horizontal_dist_home()
}

// The places of a fence's frame.
fn places(frame: &[u8]) -> [Point2; 16]
    ensures { result ≡ places_of (read_fence frame.now) }
{
    match frame_fence::read_fence(frame) {
        Ok(r) => r.corners,
        Err(_) => [Point2 { n: 0.0, e: 0.0 }; 16],
    }
}

// The Rust's constructor on the corners of a fence's frame, with any count: one above 255 is in no frame.
#[tactic(auto, using(frame_fence::proofs::Rules::new_many))]
#[unsafe(no_mangle)]
pub extern "C" fn leaf_polygon(frame: &[u8], count: usize) -> u16
    ensures { result ≡ fence_number (polygon_new false count (take count (places_of (read_fence frame.now)))) }
{
    if count > 16 {
        return FenceError::TooManyVertices.number();
    }
    match ConvexPolygon::new(&places(frame)[..count]) {
        Ok(_) => 0,
        Err(e) => e.number(),
    }
}

// The polygon of a fence's frame as it is held, whatever the rules say of it.
fn held(frame: &[u8]) -> ConvexPolygon
    ensures { result ≡ held_polygon (corners_of (read_fence frame.now)) }
{
    match frame_fence::read_fence(frame) {
        Ok(r) => ConvexPolygon::held(&r.corners[..usize::from(r.count).min(16)]),
        Err(_) => ConvexPolygon::held(&[]),
    }
}

#[unsafe(no_mangle)]
pub extern "C" fn leaf_fence_len(frame: &[u8]) -> usize
    ensures { result ≡ (held_polygon (corners_of (read_fence frame.now))).len }
{
    held(frame).len()
}

#[unsafe(no_mangle)]
pub extern "C" fn leaf_fence_distance(frame: &[u8], n: f32, e: f32) -> f32
    ensures { result ≡ signed_distance (ring_of (held_polygon (corners_of (read_fence frame.now)))) (point2 n e) }
{
    held(frame).signed_distance(Point2 { n, e })
}

#[unsafe(no_mangle)]
pub extern "C" fn leaf_fence_contains(frame: &[u8], n: f32, e: f32) -> bool
    ensures { result ≡ contains (ring_of (held_polygon (corners_of (read_fence frame.now)))) (point2 n e) }
{
    held(frame).contains(Point2 { n, e })
}

// All sixteen places of a fence's polygon, the unused ones too, as a frame of sixteen corners.
#[tactic(auto, using(crate::proofs::Sixteen::places_number), unfolding(frame_fence::specs::FenceFrame::fence_written))]
fn write_places(fence: &Geofence, to: &mut [u8]) -> u32
    ensures { (result ≡ room_fault (places_frame fence.now) to.old) × (to.new ≡ frame_written (places_frame fence.now) to.old) }
{
    let places = FenceRead {
        once_round: false,
        count: 16,
        min_alt_m: fence.min_alt_m,
        max_alt_m: fence.max_alt_m,
        corners: fence.poly.verts,
    };
    match frame_fence::write_fence(to, &places) {
        Ok(()) => 0,
        Err(e) => u32::from(e.number()),
    }
}

#[unsafe(no_mangle)]
pub extern "C" fn leaf_fence_held(frame: &[u8], to: &mut [u8]) -> u32
    ensures value { result ≡ (held_call (read_fence frame.now) to.old).number }
    ensures to_after { to.new ≡ (held_call (read_fence frame.now) to.old).slice }
{
    match frame_fence::read_fence(frame) {
        Ok(r) => match frame_fence::fence_of(&r) {
            Ok(fence) => write_places(&fence, to),
            Err(e) => u32::from(e.number()),
        },
        Err(e) => u32::from(e.number()),
    }
}

#[unsafe(no_mangle)]
pub extern "C" fn leaf_default_fence(to: &mut [u8]) -> u32
    ensures value { result ≡ room_fault (places_frame default_fence) to.old }
    ensures to_after { to.new ≡ frame_written (places_frame default_fence) to.old }
{
    write_places(&config::default_fence(), to)
}

#[unsafe(no_mangle)]
pub extern "C" fn leaf_default_fence_len() -> usize
    ensures { result ≡ default_fence.poly.len }
{
    config::default_fence().poly.len()
}

#[unsafe(no_mangle)]
pub extern "C" fn leaf_default_config(to: &mut [u8]) -> u32
    ensures value { result ≡ room_fault (config_frame default_config) to.old }
    ensures to_after { to.new ≡ frame_written (config_frame default_config) to.old }
{
    number_of(frame_config::write_config(to, Config::default()))
}

// An estimate in the frame of a Decision that has nothing else.
fn write_estimate(energy: EnergyEstimate, to: &mut [u8]) -> Result<(), FrameError>
    ensures { (result ≡ check_room (estimate_frame energy) to.old) × (to.new ≡ frame_written (estimate_frame energy) to.old) }
{
    let d = Decision {
        action: Action::Nominal,
        reason: Reason::None,
        requested: Action::Nominal,
        active: ActiveSet::new(),
        position_valid: false,
        clock_fault: false,
        energy,
        fence_dist_m: None,
        disarm_eligible: false,
    };
    frame_decision::write_decision(to, d)
}

#[unsafe(no_mangle)]
pub extern "C" fn leaf_energy(
    config: &[u8],
    n: f32,
    e: f32,
    d: f32,
    known: bool,
    remaining: f32,
    to: &mut [u8],
) -> u32
    ensures value { result ≡ (energy_call (read_config config.now) (vec3 n e d) (then_some known remaining) to.old).number }
    ensures to_after { to.new ≡ (energy_call (read_config config.now) (vec3 n e d) (then_some known remaining) to.old).slice }
{
    match frame_config::read_config(config) {
        Ok(cfg) => {
            let estimate = energy::rtl_energy(cfg, Vec3 { n, e, d }, known.then_some(remaining));
            number_of(write_estimate(estimate, to))
        }
        Err(refusal) => u32::from(refusal.number()),
    }
}

fn gate_of(held: bool, since: u32) -> DisarmGate
    ensures { result ≡ gate_of held since }
{
    DisarmGate {
        hold_since_ms: held.then_some(since),
    }
}

fn since_left(gate: DisarmGate) -> u64
    ensures { result ≡ since_or gate.hold_since_ms }
{
    gate.hold_since_ms.map_or(4294967296, u64::from)
}

fn stamped<T: Copy>(present: bool, t_ms: u32, value: T) -> Option<Stamped<T>>
    ensures { result ≡ stamped present t_ms value }
{
    present.then_some(Stamped { t_ms, value })
}

fn landed_of(n: u8) -> LandedState
    ensures { result ≡ landed_or (landed_of_number n) }
{
    LandedState::try_from(n).unwrap_or(LandedState::Undefined)
}

// A gate that is lent to `evaluate`, with what it answers.
fn evaluated(
    held: bool,
    since: u32,
    now_ms: u32,
    armed_known: bool,
    armed_ms: u32,
    armed: bool,
    landed_known: bool,
    landed_ms: u32,
    landed: u8,
    status_fresh_ms: u32,
    disarm_hold_ms: u32,
    requested: u8,
    clock_fault: bool,
) -> Evaluated
    ensures { result ≡ evaluate wrapping (gate_of held since) now_ms (stamped armed_known armed_ms armed) (stamped landed_known landed_ms (landed_or (landed_of_number landed))) status_fresh_ms disarm_hold_ms (action_or (action_of_rank requested)) clock_fault }
{
    disarm::evaluate_lent(
        gate_of(held, since),
        now_ms,
        stamped(armed_known, armed_ms, armed),
        stamped(landed_known, landed_ms, landed_of(landed)),
        status_fresh_ms,
        disarm_hold_ms,
        action_of(requested),
        clock_fault,
    )
}

#[unsafe(no_mangle)]
pub extern "C" fn leaf_gate_eligible(
    held: bool,
    since: u32,
    now_ms: u32,
    armed_known: bool,
    armed_ms: u32,
    armed: bool,
    landed_known: bool,
    landed_ms: u32,
    landed: u8,
    status_fresh_ms: u32,
    disarm_hold_ms: u32,
    requested: u8,
    clock_fault: bool,
) -> bool
    ensures { result ≡ (evaluate wrapping (gate_of held since) now_ms (stamped armed_known armed_ms armed) (stamped landed_known landed_ms (landed_or (landed_of_number landed))) status_fresh_ms disarm_hold_ms (action_or (action_of_rank requested)) clock_fault).eligible }
{
    evaluated(
        held,
        since,
        now_ms,
        armed_known,
        armed_ms,
        armed,
        landed_known,
        landed_ms,
        landed,
        status_fresh_ms,
        disarm_hold_ms,
        requested,
        clock_fault,
    )
    .eligible
}

// The start of the hold in the gate that is left.
#[unsafe(no_mangle)]
pub extern "C" fn leaf_gate_since(
    held: bool,
    since: u32,
    now_ms: u32,
    armed_known: bool,
    armed_ms: u32,
    armed: bool,
    landed_known: bool,
    landed_ms: u32,
    landed: u8,
    status_fresh_ms: u32,
    disarm_hold_ms: u32,
    requested: u8,
    clock_fault: bool,
) -> u64
    ensures { result ≡ since_or (evaluate wrapping (gate_of held since) now_ms (stamped armed_known armed_ms armed) (stamped landed_known landed_ms (landed_or (landed_of_number landed))) status_fresh_ms disarm_hold_ms (action_or (action_of_rank requested)) clock_fault).gate.hold_since_ms }
{
    let e = evaluated(
        held,
        since,
        now_ms,
        armed_known,
        armed_ms,
        armed,
        landed_known,
        landed_ms,
        landed,
        status_fresh_ms,
        disarm_hold_ms,
        requested,
        clock_fault,
    );
    since_left(e.gate)
}

// The same of a gate that is lent to `reset`.
#[unsafe(no_mangle)]
pub extern "C" fn leaf_gate_reset(held: bool, since: u32) -> u64
    ensures { result ≡ since_or closed.hold_since_ms }
{
    since_left(disarm::reset_lent(gate_of(held, since)))
}
