// The Rust's lib.rs: one step of the supervisor. Configuration and fence come with each call.
#![tactic(auto, unfolding(crate::specs::Step::fresh_supervisor, crate::specs::Step::supervisor_new, crate::specs::Step::sense, crate::specs::Step::disarmed_decision, crate::specs::Step::disarmed, crate::specs::Step::decision_of, crate::specs::Step::flown, crate::specs::Step::step))]

ghost use Rattle.std.specs.Prelude.{◌≡◌};
ghost use Rattle.geometry.specs.Distance.{ring_of, nearest_by};
ghost use Rattle.frame_areas.specs.AreasFrame.{clearance_at};
ghost use Rattle.supervisor.specs.Settings.{base_settings, fence_site, fence_site_by, with_areas, fed_at};
ghost use Rattle.supervisor.specs.Step.{fresh_supervisor, supervisor_new, place_of, valid_place, margin_at, energy_at, dist_of, side_of, sense, disarmed_decision, disarmed, decision_of, flown, glitch_after, triggers_after, arbiter_after, step};

use arbiter::ArbiterState;
use clock::ClockStep;
use config::{Config, ConfigError};
use disarm::DisarmGate;
use geometry::{ConvexPolygon, Geofence, SideLengths};
use triggers::{Place, TriggerState};
use types::{
    Action, ActiveSet, Decision, EnergyEstimate, Point2, PositionSample, Reason, Request,
    Telemetry, Vec3,
};
use validate::GlitchState;

// The Rust's Supervisor without cfg and fence.
#[derive(Clone, Copy, Default)]
pub struct Supervisor {
    pub triggers: TriggerState,
    pub arbiter: ArbiterState,
    pub disarm: DisarmGate,
    pub glitch: GlitchState,
    pub last_now: Option<u32>,
    pub epoch_start: u32,
    pub backwards_streak: u8,
    pub initialized: bool,
}

// A step's answer; beside the Decision the side of the fence that gave its distance, 255 where none did.
#[derive(Clone, Copy)]
pub struct Stepped {
    pub supervisor: Supervisor,
    pub decision: Decision,
    pub side: u8,
}

// ---- what every third fault clears

fn triggers_after(third: bool, t: TriggerState) -> TriggerState
    ensures { result ≡ triggers_after third t }
{
    if third { t.gcs_clear_timer_clear() } else { t }
}

fn arbiter_after(third: bool, a: ArbiterState) -> ArbiterState
    ensures { result ≡ arbiter_after third a }
{
    if third { a.without_recovery() } else { a }
}

fn glitch_after(third: bool, g: GlitchState) -> GlitchState
    ensures { result ≡ glitch_after third g }
{
    if third { GlitchState::default() } else { g }
}

// ---- what is sensed

// Home, on the ground.
const ORIGIN: Vec3 = Vec3 {
    n: 0.0,
    e: 0.0,
    d: 0.0,
};

// All that a step reads off its telemetry and the triggers' state.
#[derive(Clone, Copy)]
pub struct Sensed {
    pub triggers: TriggerState,
    pub glitch: GlitchState,
    pub active: ActiveSet,
    pub requested: Request,
    pub position_valid: bool,
    pub energy: EnergyEstimate,
    pub fence_dist_m: Option<f32>,
    pub side: u8,
}

// What is read of a position: the place, and the energy to return from it.
#[derive(Clone, Copy)]
struct Located {
    place: Option<Place>,
    energy: EnergyEstimate,
}

// The distance is the clearance: from the fence, and from the keep-out areas. The energy is that of the origin where there is no position.
fn locate(
    cfg: &Config,
    pos: Option<PositionSample>,
    remaining_wh: Option<f32>,
    poly: &ConvexPolygon,
    lengths: &SideLengths,
    areas: &[u8],
) -> Located
    ensures place { result.place ≡ place_of (λ p. clearance_at areas.now (nearest_by (ring_of poly.now) lengths.now.m p) p) pos }
    ensures energy { result.energy ≡ energy_at cfg.now (place_of (λ p. clearance_at areas.now (nearest_by (ring_of poly.now) lengths.now.m p) p) pos) remaining_wh }
{
    let Some(PositionSample { pos: p, .. }) = pos else {
        return Located {
            place: None,
            energy: energy::rtl_energy(*cfg, ORIGIN, remaining_wh),
        };
    };
    let pt = Point2 { n: p.n, e: p.e };
    let fence = poly.nearest_by(lengths, pt);
    let d = p.horizontal_dist_home();
    Located {
        place: Some(Place {
            fence: frame_areas::clearance(areas, fence, pt),
            home_dist_m: d,
            alt_m: p.alt_m(),
        }),
        energy: energy::rtl_energy_by(*cfg, p, d, remaining_wh),
    }
}

fn valid_place(valid: bool, place: Option<Place>) -> Option<Place>
    ensures { result ≡ valid_place valid place }
{
    if valid { place } else { None }
}

// The triggers have a margin only where there is a position.
fn margin_at(place: Option<Place>, margin_wh: Option<f32>) -> Option<f32>
    ensures { result ≡ margin_at place margin_wh }
{
    place.and(margin_wh)
}

fn dist_of(place: Option<Place>) -> Option<f32>
    ensures { result ≡ dist_of place }
{
    place.map(|p| p.fence.m)
}

fn side_of(place: Option<Place>) -> u8
    ensures { result ≡ side_of place }
{
    place.map_or(255, |p| p.fence.side)
}

fn sense(
    triggers: &TriggerState,
    glitch: GlitchState,
    t: &Telemetry,
    invalid: bool,
    cfg: &Config,
    fence: &Geofence,
    lengths: &SideLengths,
    areas: &[u8],
    fault: bool,
) -> Sensed
    ensures { result ≡ sense (base_settings cfg.now) (with_areas areas.now (fence_site_by fence.now lengths.now)) triggers.now glitch t.now invalid fault }
{
    let now = t.now_ms;
    let f = validate::apply_glitch_filter(glitch, now, t.position, cfg.v_max);
    let valid = validate::position_valid(
        now,
        f.position,
        t.ekf_ok,
        cfg.pos_fresh_ms,
        cfg.status_fresh_ms,
    );
    let remaining = validate::fresh_remaining_wh(
        now,
        t.battery,
        cfg.battery_fresh_ms,
        cfg.usable_capacity_wh,
    );
    let l = locate(cfg, f.position, remaining, &fence.poly, lengths, areas);
    let u = triggers.update(
        t,
        cfg,
        fence.min_alt_m,
        fence.max_alt_m,
        valid_place(valid, l.place),
        margin_at(l.place, l.energy.margin_wh),
        invalid,
        fault,
    );
    Sensed {
        triggers: u.triggers,
        glitch: f.glitch,
        active: u.active,
        requested: u.active.requested_action(),
        position_valid: valid,
        energy: l.energy,
        fence_dist_m: dist_of(l.place),
        side: side_of(l.place),
    }
}

// ---- the step

// Confirmed disarm answers Nominal, even on a fault.
fn disarmed_decision(cfg: &Config, fault: bool) -> Decision
    ensures { result ≡ disarmed_decision cfg.now fault }
{
    Decision {
        action: Action::Nominal,
        reason: Reason::None,
        requested: Action::Nominal,
        active: ActiveSet::new(),
        position_valid: false,
        clock_fault: fault,
        energy: energy::rtl_energy(*cfg, ORIGIN, None),
        fence_dist_m: None,
        disarm_eligible: false,
    }
}

// It resets triggers, arbiter and gate, and neither filter nor clock.
fn disarmed(cfg: &Config, clock: ClockStep, glitch: GlitchState) -> Stepped
    ensures { result ≡ disarmed cfg.now clock glitch }
{
    Stepped {
        supervisor: Supervisor {
            glitch,
            last_now: clock.last_now,
            epoch_start: clock.epoch_start,
            backwards_streak: clock.backwards_streak,
            initialized: true,
            ..Supervisor::fresh()
        },
        decision: disarmed_decision(cfg, clock.fault),
        side: 255,
    }
}

fn decision_of(sensed: &Sensed, output: Request, fault: bool, eligible: bool) -> Decision
    ensures { result ≡ decision_of sensed.now output fault eligible }
{
    Decision {
        action: output.action,
        reason: output.reason,
        requested: sensed.requested.action,
        active: sensed.active,
        position_valid: sensed.position_valid,
        clock_fault: fault,
        energy: sensed.energy,
        fence_dist_m: sensed.fence_dist_m,
        disarm_eligible: eligible,
    }
}

// The wanted action goes through the arbiter; the gate goes by the requested one before latches.
fn flown(
    sensed: &Sensed,
    arbiter: ArbiterState,
    mut gate: DisarmGate,
    clock: ClockStep,
    t: &Telemetry,
    cfg: &Config,
) -> Stepped
    ensures { result ≡ flown (base_settings cfg.now) sensed.now arbiter gate clock t.now }
{
    let wanted = arbiter::output_with_latches(
        sensed.requested,
        sensed.triggers.battery_critical_latched,
        sensed.triggers.energy_infeasible_latched,
    );
    let next = arbiter.arbitrate(
        t.now_ms,
        cfg.recovery_hold_ms,
        wanted,
        sensed.position_valid,
        clock.fault,
    );
    let eligible = gate.evaluate(
        t.now_ms,
        t.armed,
        t.landed,
        cfg.status_fresh_ms,
        cfg.disarm_hold_ms,
        sensed.requested.action,
        clock.fault,
    );
    Stepped {
        supervisor: Supervisor {
            triggers: sensed.triggers,
            arbiter: next.state,
            disarm: gate,
            glitch: sensed.glitch,
            last_now: clock.last_now,
            epoch_start: clock.epoch_start,
            backwards_streak: clock.backwards_streak,
            initialized: true,
        },
        decision: decision_of(sensed, next.output, clock.fault, eligible),
        side: sensed.side,
    }
}

impl Supervisor {
    #[tactic(auto, unfolding(crate::specs::Step::fresh_supervisor, triggers::specs::Update::fresh_triggers))]
    pub fn fresh() -> Self
        ensures { result ≡ fresh_supervisor }
    {
        Self::default()
    }

    pub fn new(cfg: &Config, fence: &Geofence) -> Result<Self, ConfigError>
        ensures { result ≡ supervisor_new cfg.now fence.now }
    {
        config::validate_config(*cfg, *fence)?;
        Ok(Supervisor::fresh())
    }

    // One step, with the lengths of the fence's sides given, and the frame of the keep-out areas.
    pub fn step_by(
        &self,
        cfg: &Config,
        fence: &Geofence,
        lengths: &SideLengths,
        areas: &[u8],
        raw: &Telemetry,
    ) -> Stepped
        ensures { result ≡ step (base_settings cfg.now) self.now (fed_at (with_areas areas.now (fence_site_by fence.now lengths.now)) raw.now) }
    {
        let clock = clock::clock_step(
            self.last_now,
            self.epoch_start,
            self.backwards_streak,
            self.initialized,
            raw.now_ms,
        );
        let v = validate::validate_telemetry(*raw, cfg.usable_capacity_wh);
        let t = v.telemetry;
        let glitch = glitch_after(clock.third, self.glitch);
        if validate::is_confirmed_disarm(t.now_ms, t.armed, cfg.status_fresh_ms) {
            return disarmed(cfg, clock, glitch);
        }
        let triggers = triggers_after(clock.third, self.triggers);
        let arbiter = arbiter_after(clock.third, self.arbiter);
        let sensed = sense(
            &triggers,
            glitch,
            &t,
            v.invalid_input,
            cfg,
            fence,
            lengths,
            areas,
            clock.fault,
        );
        flown(&sensed, arbiter, self.disarm, clock, &t, cfg)
    }

    // The step where no area is held.
    pub fn step(&self, cfg: &Config, fence: &Geofence, raw: &Telemetry) -> Stepped
        ensures { result ≡ step (base_settings cfg.now) self.now (fed_at (fence_site fence.now) raw.now) }
    {
        let lengths = fence.poly.side_lengths();
        self.step_by(cfg, fence, &lengths, &[], raw)
    }
}
