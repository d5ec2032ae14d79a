// The Rust's triggers.rs: one function for each family of triggers, and update. Its timers are in `timers`.
#![tactic(auto, unfolding(crate::specs::Families::invalid_input, crate::specs::Families::stage_request, crate::specs::Families::gcs_stage, crate::specs::Families::gcs_clearing, crate::specs::Families::gcs_link, crate::specs::Families::rc_link, crate::specs::Families::gps, crate::specs::Families::ekf, crate::specs::Families::fence_approach, crate::specs::Families::fence_breach, crate::specs::Families::altitude_max, crate::specs::Families::altitude_min, crate::specs::Families::fence, crate::specs::Families::stale_battery, crate::specs::Families::battery_warn, crate::specs::Families::battery_low, crate::specs::Families::battery_critical, crate::specs::Families::battery, crate::specs::Families::energy_marginal, crate::specs::Families::energy, crate::specs::Update::fresh_triggers, crate::specs::Update::without_gcs_timer, crate::specs::Update::families, crate::specs::Update::raised_of, crate::specs::Update::link_requests, crate::specs::Update::fence_requests, crate::specs::Update::battery_requests, crate::specs::Update::requests, crate::specs::Update::next_triggers, crate::specs::Update::update))]

ghost use Rattle.std.specs.Prelude.{◌≡◌};
ghost use Rattle.time.specs.Time.{wrapping};
ghost use Rattle.triggers.specs.Families.{invalid_input, gcs_age, stage_request, gcs_clearing, gcs_stage, gcs_link, rc_link, few_sats, many_sats, poor_hdop, good_hdop, degraded, recovered, fixed, gps, ekf, fence_approach, fence_breach, altitude_max, in_air, altitude_min, fence, stale_battery, low_voltage, battery_warn, battery_low, battery_critical, battery, energy_marginal, energy};
ghost use Rattle.triggers.specs.Update.{without_gcs_timer, families, none_raised, raised_of, kept_raised, rc_lost, link_requests, fence_requests, battery_requests, requests, next_triggers, update};

use config::Config;
use geometry::FenceDistance;
use timers::{Held, PairHeld, Timer};
use types::{Action, ActiveSet, GpsFix, GpsSample, LandedState, Reason, Telemetry};

// ---- invalid input

#[derive(Clone, Copy)]
pub struct InvalidInput {
    pub active: bool,
    pub clear: Timer,
}

impl TriggerState {
    fn invalid_input(&self, now: u32, invalid: bool, clear_ms: u32) -> InvalidInput
        ensures { result ≡ invalid_input wrapping self.now.invalid_active self.now.invalid_clear now invalid clear_ms }
    {
        if invalid {
            InvalidInput {
                active: true,
                clear: Timer::clear(),
            }
        } else {
            let h = self.invalid_clear.held_set(now, true, clear_ms);
            InvalidInput {
                active: self.invalid_active & !h.met,
                clear: h.timer,
            }
        }
    }
}

// ---- the link to the ground station

#[derive(Clone, Copy)]
pub struct GcsLink {
    pub clear_timer: Timer,
    pub stage: u8,
    pub request: Option<Action>,
}

// The heartbeat's age; the largest number where it has none.
fn gcs_age(now: u32, heartbeat: Option<u32>) -> u32
    ensures { result ≡ gcs_age wrapping now heartbeat }
{
    heartbeat
        .and_then(|hb| time::age_ms(now, hb))
        .unwrap_or(u32::MAX)
}

fn stage_request(stage: u8) -> Option<Action>
    ensures { result ≡ stage_request stage }
{
    match stage {
        1 => Some(Action::Warn),
        2 => Some(Action::Hold),
        3 => Some(Action::ReturnToLaunch),
        _ => None,
    }
}

fn gcs_stage(timer: Timer, stage: u8) -> GcsLink
    ensures { result ≡ gcs_stage timer stage }
{
    GcsLink {
        clear_timer: timer,
        stage,
        request: stage_request(stage),
    }
}

impl TriggerState {
    // While the link is good again, what its stage asked for stays until the clear timer is met.
    fn gcs_clearing(&self, now: u32, clear_hold_ms: u32) -> GcsLink
        ensures { result ≡ gcs_clearing wrapping self.now.gcs_clear_timer self.now.gcs_stage now clear_hold_ms }
    {
        let h = self.gcs_clear_timer.held_set(now, true, clear_hold_ms);
        if h.met {
            GcsLink {
                clear_timer: h.timer,
                stage: 0,
                request: None,
            }
        } else {
            gcs_stage(h.timer, self.gcs_stage)
        }
    }

    fn gcs_link(&self, now: u32, heartbeat: Option<u32>, cfg: &Config) -> GcsLink
        ensures { result ≡ gcs_link wrapping self.now.gcs_clear_timer self.now.gcs_stage now heartbeat cfg.now }
    {
        let age = gcs_age(now, heartbeat);
        if cfg.gcs_rtl_ms < age {
            return gcs_stage(self.gcs_clear_timer, 3);
        }
        if cfg.gcs_hold_ms < age {
            return gcs_stage(self.gcs_clear_timer, 2);
        }
        if cfg.gcs_warn_ms < age {
            return gcs_stage(self.gcs_clear_timer, 1);
        }
        if age <= cfg.gcs_clear_ms {
            return self.gcs_clearing(now, cfg.gcs_clear_hold_ms);
        }
        GcsLink {
            clear_timer: Timer::clear(),
            stage: self.gcs_stage,
            request: None,
        }
    }
}

// ---- the hand controller

// `lost`: raised from the first bad step, since a pending timer suffices. `met`: the set timer has held its time.
#[derive(Clone, Copy)]
pub struct RcLink {
    pub set: Timer,
    pub clear: Timer,
    pub lost: bool,
    pub met: bool,
}

impl TriggerState {
    fn rc_link(&self, now: u32, good: bool, cfg: &Config) -> RcLink
        ensures { result ≡ rc_link wrapping self.now.rc_lost_set self.now.rc_clear_timer now good cfg.now }
    {
        let bad = cfg.rc_required & !good;
        let s = self.rc_lost_set.held_set(now, bad, cfg.rc_lost_set_ms);
        if s.met {
            return RcLink {
                set: s.timer,
                clear: self.rc_clear_timer,
                lost: true,
                met: true,
            };
        }
        let c = self
            .rc_clear_timer
            .held_set(now, good, cfg.rc_lost_clear_ms);
        RcLink {
            set: s.timer,
            clear: c.timer,
            lost: s.timer.pending() & !c.met,
            met: false,
        }
    }
}

// ---- satellite positioning

#[derive(Clone, Copy)]
pub struct GpsHeld {
    pub degraded: PairHeld,
    pub lost: PairHeld,
}

fn few_sats(sats: Option<u8>) -> bool
    ensures { result ≡ few_sats sats }
{
    sats.is_none_or(|n| n < 8)
}

fn many_sats(sats: Option<u8>) -> bool
    ensures { result ≡ many_sats sats }
{
    sats.is_some_and(|n| 10 <= n)
}

fn poor_hdop(hdop: Option<f32>) -> bool
    ensures { result ≡ poor_hdop hdop }
{
    hdop.is_none_or(|h| 2.5 < h)
}

fn good_hdop(hdop: Option<f32>) -> bool
    ensures { result ≡ good_hdop hdop }
{
    hdop.is_some_and(|h| h <= 2.0)
}

fn is_degraded(gps: Option<GpsSample>) -> bool
    ensures { result ≡ degraded gps }
{
    gps.is_none_or(|g| few_sats(g.sats) | poor_hdop(g.hdop))
}

fn is_recovered(gps: Option<GpsSample>) -> bool
    ensures { result ≡ recovered gps }
{
    gps.is_some_and(|g| many_sats(g.sats) & good_hdop(g.hdop))
}

fn is_fixed(gps: Option<GpsSample>) -> bool
    ensures { result ≡ fixed gps }
{
    gps.is_some_and(|g| g.fix == GpsFix::Fix3D)
}

impl TriggerState {
    fn gps(&self, now: u32, sample: Option<GpsSample>, cfg: &Config) -> GpsHeld
        ensures { result ≡ gps wrapping self.now now sample cfg.now }
    {
        let gps = validate::fresh_gps(now, sample, cfg.gps_fresh_ms);
        let fixed = is_fixed(gps);
        GpsHeld {
            degraded: timers::hold_pair(
                self.gps_deg_set,
                self.gps_deg_clear,
                now,
                is_degraded(gps),
                cfg.gps_degraded_set_ms,
                is_recovered(gps),
                cfg.gps_degraded_clear_ms,
            ),
            lost: timers::hold_pair(
                self.gps_lost_set,
                self.gps_lost_clear,
                now,
                !fixed,
                cfg.gps_lost_set_ms,
                fixed,
                cfg.gps_lost_clear_ms,
            ),
        }
    }
}

// ---- the fence

// What a step reads of a position, each worked out once: the distance from the fence and from home, and the height.
#[derive(Clone, Copy)]
pub struct Place {
    pub fence: FenceDistance,
    pub home_dist_m: f32,
    pub alt_m: f32,
}

#[derive(Clone, Copy)]
pub struct FenceHeld {
    pub approach: bool,
    pub breach: PairHeld,
    pub alt_max: PairHeld,
    pub alt_min: PairHeld,
}

fn fence_approach(dist: f32, cfg: &Config) -> bool
    ensures { result ≡ fence_approach dist cfg.now }
{
    (0.0 <= dist) & (dist < cfg.fence_approach_m)
}

fn in_air(landed: Option<LandedState>) -> bool
    ensures { result ≡ in_air landed }
{
    landed == Some(LandedState::InAir)
}

impl TriggerState {
    fn fence_breach(&self, now: u32, dist: f32, cfg: &Config) -> PairHeld
        ensures { result ≡ fence_breach wrapping self.now.fence_breach_set self.now.fence_breach_clear now dist cfg.now }
    {
        let bad = dist < 0.0;
        let good = cfg.fence_breach_clear_m <= dist;
        timers::hold_pair(
            self.fence_breach_set,
            self.fence_breach_clear,
            now,
            bad,
            cfg.fence_breach_set_ms,
            good,
            cfg.fence_breach_clear_ms,
        )
    }

    // At or below the limit both timers are cleared.
    fn altitude_max(&self, now: u32, alt: f32, max_alt_m: f32, cfg: &Config) -> PairHeld
        ensures { result ≡ altitude_max wrapping self.now.alt_max_set self.now.alt_max_clear now alt max_alt_m cfg.now }
    {
        if max_alt_m < alt {
            let good = alt < max_alt_m - cfg.alt_max_clear_m;
            timers::hold_pair(
                self.alt_max_set,
                self.alt_max_clear,
                now,
                true,
                cfg.alt_max_set_ms,
                good,
                cfg.alt_max_clear_hold_ms,
            )
        } else {
            timers::rested(Timer::clear(), Timer::clear())
        }
    }

    fn altitude_min(
        &self,
        now: u32,
        place: Place,
        flying: bool,
        min_alt_m: f32,
        cfg: &Config,
    ) -> PairHeld
        ensures { result ≡ altitude_min wrapping self.now.alt_min_set self.now.alt_min_clear now place flying min_alt_m cfg.now }
    {
        let alt = place.alt_m;
        let home = place.home_dist_m;
        let bad = (alt < min_alt_m) & (cfg.alt_min_home_radius_m < home) & flying;
        let good = (min_alt_m + cfg.alt_min_clear_m < alt) | (home <= cfg.alt_min_home_radius_m);
        timers::hold_pair(
            self.alt_min_set,
            self.alt_min_clear,
            now,
            bad,
            cfg.alt_min_set_ms,
            good,
            cfg.alt_min_clear_ms,
        )
    }

    // Timers rest without a valid position.
    fn fence(
        &self,
        now: u32,
        place: Option<Place>,
        flying: bool,
        min_alt_m: f32,
        max_alt_m: f32,
        cfg: &Config,
    ) -> FenceHeld
        ensures { result ≡ fence wrapping self.now now place flying min_alt_m max_alt_m cfg.now }
    {
        match place {
            Some(p) => FenceHeld {
                approach: fence_approach(p.fence.m, cfg),
                breach: self.fence_breach(now, p.fence.m, cfg),
                alt_max: self.altitude_max(now, p.alt_m, max_alt_m, cfg),
                alt_min: self.altitude_min(now, p, flying, min_alt_m, cfg),
            },
            None => FenceHeld {
                approach: false,
                breach: timers::rested(self.fence_breach_set, self.fence_breach_clear),
                alt_max: timers::rested(self.alt_max_set, self.alt_max_clear),
                alt_min: timers::rested(self.alt_min_set, self.alt_min_clear),
            },
        }
    }
}

// ---- the battery

#[derive(Clone, Copy)]
pub struct StaleBattery {
    pub stale: bool,
    pub clear: Timer,
}

impl TriggerState {
    // Stale without a fresh voltage and a fresh charge. The clear timer runs otherwise; nothing reads it.
    fn stale_battery(
        &self,
        now: u32,
        percent: Option<f32>,
        volts: Option<f32>,
        clear_ms: u32,
    ) -> StaleBattery
        ensures { result ≡ stale_battery wrapping self.now.stale_bat_clear now percent volts clear_ms }
    {
        if volts.is_some() | percent.is_some() {
            let h = self.stale_bat_clear.held_set(now, true, clear_ms);
            StaleBattery {
                stale: false,
                clear: h.timer,
            }
        } else {
            StaleBattery {
                stale: true,
                clear: self.stale_bat_clear,
            }
        }
    }
}

#[derive(Clone, Copy)]
pub struct BatteryHeld {
    pub warn: PairHeld,
    pub low: PairHeld,
    pub crit_set: Timer,
    pub latched: bool,
    pub critical: bool,
}

fn low_voltage(volts: Option<f32>, cfg: &Config) -> bool
    ensures { result ≡ low_voltage volts cfg.now }
{
    volts.is_some_and(|v| v < cfg.battery_critical_v_per_cell * (cfg.cell_count as f32))
}

impl TriggerState {
    fn battery_warn(&self, now: u32, p: f32, cfg: &Config) -> PairHeld
        ensures { result ≡ battery_warn wrapping self.now.bat_warn_set self.now.bat_warn_clear now p cfg.now }
    {
        let bad = p < cfg.battery_warn_pct;
        let good = cfg.battery_warn_clear_pct < p;
        timers::hold_pair(
            self.bat_warn_set,
            self.bat_warn_clear,
            now,
            bad,
            cfg.battery_warn_set_ms,
            good,
            cfg.battery_warn_clear_ms,
        )
    }

    fn battery_low(&self, now: u32, p: f32, cfg: &Config) -> PairHeld
        ensures { result ≡ battery_low wrapping self.now.bat_low_set self.now.bat_low_clear now p cfg.now }
    {
        let bad = p < cfg.battery_low_pct;
        let good = cfg.battery_low_clear_pct < p;
        timers::hold_pair(
            self.bat_low_set,
            self.bat_low_clear,
            now,
            bad,
            cfg.battery_low_set_ms,
            good,
            cfg.battery_low_clear_ms,
        )
    }

    fn battery_critical(&self, now: u32, p: f32, volts: Option<f32>, cfg: &Config) -> Held
        ensures { result ≡ battery_critical wrapping self.now.bat_crit_set now p volts cfg.now }
    {
        let low = low_voltage(volts, cfg);
        self.bat_crit_set.held_set(
            now,
            (p < cfg.battery_critical_pct) | low,
            cfg.battery_critical_set_ms,
        )
    }

    // Without a fresh charge the timers rest, and a latched Land is not filed.
    fn battery(
        &self,
        now: u32,
        percent: Option<f32>,
        volts: Option<f32>,
        cfg: &Config,
    ) -> BatteryHeld
        ensures { result ≡ battery wrapping self.now now percent volts cfg.now }
    {
        let was = self.battery_critical_latched;
        match percent {
            Some(p) => {
                let crit = self.battery_critical(now, p, volts, cfg);
                BatteryHeld {
                    warn: self.battery_warn(now, p, cfg),
                    low: self.battery_low(now, p, cfg),
                    crit_set: crit.timer,
                    latched: was | crit.met,
                    critical: was | crit.met,
                }
            }
            None => BatteryHeld {
                warn: timers::rested(self.bat_warn_set, self.bat_warn_clear),
                low: timers::rested(self.bat_low_set, self.bat_low_clear),
                crit_set: self.bat_crit_set,
                latched: was,
                critical: false,
            },
        }
    }
}

// ---- energy

#[derive(Clone, Copy)]
pub struct EnergyHeld {
    pub marginal: PairHeld,
    pub infeas_set: Timer,
    pub latched: bool,
    pub infeasible: bool,
}

impl TriggerState {
    fn energy_marginal(&self, now: u32, margin: f32, cfg: &Config) -> PairHeld
        ensures { result ≡ energy_marginal wrapping self.now.energy_marg_set self.now.energy_marg_clear now margin cfg.now }
    {
        let bad = (0.0 <= margin) & (margin < cfg.energy_marginal_wh);
        let good = cfg.energy_marginal_clear_wh < margin;
        timers::hold_pair(
            self.energy_marg_set,
            self.energy_marg_clear,
            now,
            bad,
            cfg.energy_marginal_set_ms,
            good,
            cfg.energy_marginal_clear_ms,
        )
    }

    fn energy(&self, now: u32, margin: Option<f32>, cfg: &Config) -> EnergyHeld
        ensures { result ≡ energy wrapping self.now now margin cfg.now }
    {
        let was = self.energy_infeasible_latched;
        match margin {
            Some(m) => {
                let h = self
                    .energy_infeas_set
                    .held_set(now, m < 0.0, cfg.energy_infeasible_set_ms);
                EnergyHeld {
                    marginal: self.energy_marginal(now, m, cfg),
                    infeas_set: h.timer,
                    latched: was | h.met,
                    infeasible: was | h.met,
                }
            }
            None => EnergyHeld {
                marginal: timers::rested(self.energy_marg_set, self.energy_marg_clear),
                infeas_set: self.energy_infeas_set,
                latched: was,
                infeasible: false,
            },
        }
    }
}

// ---- the whole

// The requests that a kind 11 configuration keeps once they are raised, in the order of kind 12's bytes.
#[derive(Clone, Copy, Default)]
pub struct Raised {
    pub gps_degraded: bool,
    pub gps_lost: bool,
    pub ekf_unhealthy: bool,
    pub fence_breach: bool,
    pub altitude_min: bool,
    pub battery_warn: bool,
    pub battery_low: bool,
    pub energy_rtl_marginal: bool,
}

#[derive(Clone, Copy, Default)]
pub struct TriggerState {
    pub battery_critical_latched: bool,
    pub energy_infeasible_latched: bool,
    pub gcs_clear_timer: Timer,
    pub rc_clear_timer: Timer,
    pub gps_deg_set: Timer,
    pub gps_deg_clear: Timer,
    pub gps_lost_set: Timer,
    pub gps_lost_clear: Timer,
    pub ekf_set: Timer,
    pub ekf_clear: Timer,
    pub fence_breach_set: Timer,
    pub fence_breach_clear: Timer,
    pub alt_max_set: Timer,
    pub alt_max_clear: Timer,
    pub alt_min_set: Timer,
    pub alt_min_clear: Timer,
    pub stale_bat_clear: Timer,
    pub bat_warn_set: Timer,
    pub bat_warn_clear: Timer,
    pub bat_low_set: Timer,
    pub bat_low_clear: Timer,
    pub bat_crit_set: Timer,
    pub energy_marg_set: Timer,
    pub energy_marg_clear: Timer,
    pub energy_infeas_set: Timer,
    pub invalid_clear: Timer,
    pub invalid_active: bool,
    pub rc_lost_set: Timer,
    pub gcs_stage: u8,
    // What is raised, where the configuration keeps it; none under kind 1. The Rust has no such field.
    pub raised: Raised,
}

// What each family made of a step.
#[derive(Clone, Copy)]
pub struct Families {
    pub invalid: InvalidInput,
    pub gcs: GcsLink,
    pub rc: RcLink,
    pub gps: GpsHeld,
    pub ekf: PairHeld,
    pub fence: FenceHeld,
    pub stale: StaleBattery,
    pub battery: BatteryHeld,
    pub energy: EnergyHeld,
}

// The state after a step, and the requests that it filed.
#[derive(Clone, Copy)]
pub struct Updated {
    pub triggers: TriggerState,
    pub active: ActiveSet,
}

impl TriggerState {
    fn ekf(&self, now: u32, healthy: bool, cfg: &Config) -> PairHeld
        ensures { result ≡ ekf wrapping self.now.ekf_set self.now.ekf_clear now healthy cfg.now }
    {
        timers::hold_pair(
            self.ekf_set,
            self.ekf_clear,
            now,
            !healthy,
            cfg.ekf_unhealthy_set_ms,
            healthy,
            cfg.ekf_unhealthy_clear_ms,
        )
    }

    fn families(
        &self,
        t: &Telemetry,
        cfg: &Config,
        min_alt_m: f32,
        max_alt_m: f32,
        place: Option<Place>,
        margin: Option<f32>,
        invalid: bool,
    ) -> Families
        ensures { result ≡ families wrapping self.now t.now cfg.now min_alt_m max_alt_m place margin invalid }
    {
        let now = t.now_ms;
        let rc_good = validate::fresh_true(now, t.rc_ok, cfg.status_fresh_ms);
        let healthy = validate::fresh_true(now, t.ekf_ok, cfg.status_fresh_ms);
        let flying = in_air(validate::fresh_landed(now, t.landed, cfg.status_fresh_ms));
        let percent = validate::fresh_battery_percent(
            now,
            t.battery,
            cfg.battery_fresh_ms,
            cfg.usable_capacity_wh,
        );
        let volts = validate::fresh_voltage(now, t.battery, cfg.battery_fresh_ms);
        Families {
            invalid: self.invalid_input(now, invalid, cfg.invalid_input_clear_ms),
            gcs: self.gcs_link(now, t.gcs_heartbeat_ms, cfg),
            rc: self.rc_link(now, rc_good, cfg),
            gps: self.gps(now, t.gps, cfg),
            ekf: self.ekf(now, healthy, cfg),
            fence: self.fence(now, place, flying, min_alt_m, max_alt_m, cfg),
            stale: self.stale_battery(now, percent, volts, cfg.stale_battery_clear_ms),
            battery: self.battery(now, percent, volts, cfg),
            energy: self.energy(now, margin, cfg),
        }
    }
}

impl Raised {
    pub fn none() -> Self
        ensures { result ≡ none_raised }
    {
        Self::default()
    }
}

// What is raised at a step, each by its pair of timers. There is one branch for the rule, which is quicker than a choice for each; under
// kind 1 nothing is read of what was raised before.
#[tactic(auto, unfolding(crate::specs::Update::raised_of, timers::specs::Timer::raised_by))]
fn raised_of(keeps: bool, before: Raised, f: &Families) -> Raised
    ensures { result ≡ raised_of keeps before f.now }
{
    if keeps {
        Raised {
            gps_degraded: timers::raised_by(true, before.gps_degraded, f.gps.degraded),
            gps_lost: timers::raised_by(true, before.gps_lost, f.gps.lost),
            ekf_unhealthy: timers::raised_by(true, before.ekf_unhealthy, f.ekf),
            fence_breach: timers::raised_by(true, before.fence_breach, f.fence.breach),
            altitude_min: timers::raised_by(true, before.altitude_min, f.fence.alt_min),
            battery_warn: timers::raised_by(true, before.battery_warn, f.battery.warn),
            battery_low: timers::raised_by(true, before.battery_low, f.battery.low),
            energy_rtl_marginal: timers::raised_by(
                true,
                before.energy_rtl_marginal,
                f.energy.marginal,
            ),
        }
    } else {
        Raised {
            gps_degraded: timers::raised_by(false, false, f.gps.degraded),
            gps_lost: timers::raised_by(false, false, f.gps.lost),
            ekf_unhealthy: timers::raised_by(false, false, f.ekf),
            fence_breach: timers::raised_by(false, false, f.fence.breach),
            altitude_min: timers::raised_by(false, false, f.fence.alt_min),
            battery_warn: timers::raised_by(false, false, f.battery.warn),
            battery_low: timers::raised_by(false, false, f.battery.low),
            energy_rtl_marginal: timers::raised_by(false, false, f.energy.marginal),
        }
    }
}

// What of it the next step is told. `keeps` is what the configuration says at run time.
fn kept_raised(keeps: bool, on: Raised) -> Raised
    ensures { result ≡ kept_raised keeps on }
{
    if keeps { on } else { Raised::none() }
}

// Where raised requests are kept, RcLost waits for its hold.
fn rc_lost(keeps: bool, rc: &RcLink) -> bool
    ensures { result ≡ rc_lost keeps rc.now }
{
    if keeps { rc.met } else { rc.lost }
}

// Requests are filed in the Rust's order, in three parts.
fn link_requests(keeps: bool, on: Raised, f: &Families) -> ActiveSet
    ensures { result ≡ link_requests keeps on f.now }
{
    let lost = rc_lost(keeps, &f.rc);
    ActiveSet::new()
        .set_if(f.invalid.active, Reason::InvalidInput, Action::Warn)
        .set_option(Reason::GcsLinkLost, f.gcs.request)
        .set_if(lost, Reason::RcLost, Action::ReturnToLaunch)
        .set_if(on.gps_degraded, Reason::GpsDegraded, Action::Warn)
        .set_if(on.gps_lost, Reason::GpsLost, Action::Land)
        .set_if(on.ekf_unhealthy, Reason::EkfUnhealthy, Action::Land)
}

// AltitudeMax is not among those that are kept.
fn fence_requests(a: ActiveSet, on: Raised, f: &FenceHeld) -> ActiveSet
    ensures { result ≡ fence_requests a on f.now }
{
    let high = timers::raised_by(false, false, f.alt_max);
    a.set_if(f.approach, Reason::FenceApproach, Action::Warn)
        .set_if(on.fence_breach, Reason::FenceBreach, Action::ReturnToLaunch)
        .set_if(high, Reason::AltitudeMax, Action::ReturnToLaunch)
        .set_if(on.altitude_min, Reason::AltitudeMin, Action::Warn)
}

fn battery_requests(a: ActiveSet, on: Raised, f: &Families) -> ActiveSet
    ensures { result ≡ battery_requests a on f.now }
{
    a.set_if(f.stale.stale, Reason::StaleBattery, Action::ReturnToLaunch)
        .set_if(on.battery_warn, Reason::BatteryWarn, Action::Warn)
        .set_if(on.battery_low, Reason::BatteryLow, Action::ReturnToLaunch)
        .set_if(f.battery.critical, Reason::BatteryCritical, Action::Land)
        .set_if(
            on.energy_rtl_marginal,
            Reason::EnergyRtlMarginal,
            Action::ReturnToLaunch,
        )
        .set_if(
            f.energy.infeasible,
            Reason::EnergyRtlInfeasible,
            Action::Land,
        )
}

fn requests(keeps: bool, on: Raised, f: &Families) -> ActiveSet
    ensures { result ≡ requests keeps on f.now }
{
    let a1 = link_requests(keeps, on, f);
    let a2 = fence_requests(a1, on, &f.fence);
    battery_requests(a2, on, f)
}

fn next_triggers(kept: Raised, f: &Families) -> TriggerState
    ensures { result ≡ next_triggers kept f.now }
{
    TriggerState {
        battery_critical_latched: f.battery.latched,
        energy_infeasible_latched: f.energy.latched,
        gcs_clear_timer: f.gcs.clear_timer,
        rc_clear_timer: f.rc.clear,
        gps_deg_set: f.gps.degraded.set,
        gps_deg_clear: f.gps.degraded.clear,
        gps_lost_set: f.gps.lost.set,
        gps_lost_clear: f.gps.lost.clear,
        ekf_set: f.ekf.set,
        ekf_clear: f.ekf.clear,
        fence_breach_set: f.fence.breach.set,
        fence_breach_clear: f.fence.breach.clear,
        alt_max_set: f.fence.alt_max.set,
        alt_max_clear: f.fence.alt_max.clear,
        alt_min_set: f.fence.alt_min.set,
        alt_min_clear: f.fence.alt_min.clear,
        stale_bat_clear: f.stale.clear,
        bat_warn_set: f.battery.warn.set,
        bat_warn_clear: f.battery.warn.clear,
        bat_low_set: f.battery.low.set,
        bat_low_clear: f.battery.low.clear,
        bat_crit_set: f.battery.crit_set,
        energy_marg_set: f.energy.marginal.set,
        energy_marg_clear: f.energy.marginal.clear,
        energy_infeas_set: f.energy.infeas_set,
        invalid_clear: f.invalid.clear,
        invalid_active: f.invalid.active,
        rc_lost_set: f.rc.set,
        gcs_stage: f.gcs.stage,
        raised: kept,
    }
}

impl TriggerState {
    pub fn gcs_clear_timer_clear(mut self) -> Self
        ensures { result ≡ without_gcs_timer self }
    {
        self.gcs_clear_timer = Timer::clear();
        self
    }

    // A clock fault yields ClockFault alone and moves no timer.
    #[tactic(auto, unfolding(crate::specs::Update::update))]
    pub fn update(
        &self,
        t: &Telemetry,
        cfg: &Config,
        min_alt_m: f32,
        max_alt_m: f32,
        place: Option<Place>,
        margin: Option<f32>,
        invalid: bool,
        clock_fault: bool,
    ) -> Updated
        ensures { result ≡ update wrapping self.now t.now cfg.now min_alt_m max_alt_m place margin invalid clock_fault }
    {
        if clock_fault {
            return Updated {
                triggers: *self,
                active: ActiveSet::new().set(Reason::ClockFault, Action::Warn),
            };
        }
        let keeps = cfg.keeps_raised;
        let f = self.families(t, cfg, min_alt_m, max_alt_m, place, margin, invalid);
        let on = raised_of(keeps, self.raised, &f);
        Updated {
            triggers: next_triggers(kept_raised(keeps, on), &f),
            active: requests(keeps, on, &f),
        }
    }
}
