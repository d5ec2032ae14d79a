// The Rust's validate.rs: bounds of readings, the glitch filter, the readers of fresh values.
#![tactic(auto, unfolding(crate::specs::Bounds::within_position, crate::specs::Bounds::within_velocity, crate::specs::Bounds::validate_position_sample, crate::specs::Bounds::validate_gps, crate::specs::Bounds::validate_percent, crate::specs::Bounds::validate_remaining, crate::specs::Bounds::validate_telemetry, crate::specs::Glitch::distance_between, crate::specs::Glitch::within_jump, crate::specs::Glitch::accept_sample, crate::specs::Glitch::apply_glitch_filter, crate::specs::Fresh::fresh_battery_percent, crate::specs::Fresh::fresh_remaining_wh, crate::specs::Fresh::fresh_voltage))]

ghost use Rattle.std.specs.Prelude.{◌≡◌, ◌&&◌};
ghost use Rattle.float32.specs.Libm.{is_finite};
ghost use Rattle.time.specs.Time.{wrapping};
ghost use Rattle.validate.specs.Bounds.{within_position, within_velocity, validate_position_sample, validate_hdop, validate_gps, up_to, validate_percent, validate_remaining, position_ok, gps_ok, percent_ok, remaining_ok, keep, validate_telemetry};
ghost use Rattle.validate.specs.Glitch.{distance_between, within_jump, accept_sample, accept_stored, apply_glitch_filter};
ghost use Rattle.validate.specs.Fresh.{fresh_true, position_valid, confirmed_disarm, fresh_reading, fresh_value, fresh_battery_percent, fresh_remaining_wh, fresh_voltage, fresh_landed, fresh_gps};

use types::{
    BatteryInputs, GpsSample, LandedState, PositionSample, Stamped, Telemetry, Timed, Vec3,
};

#[derive(Clone, Copy, Default)]
pub struct GlitchState {
    pub last_accepted: Option<PositionSample>,
    pub reject_streak: u8,
}

#[derive(Clone, Copy)]
pub struct ValidatedTelemetry {
    pub telemetry: Telemetry,
    pub invalid_input: bool,
}

// What the glitch filter leaves: its state, and the sample where it is kept.
#[derive(Clone, Copy)]
pub struct Filtered {
    pub glitch: GlitchState,
    pub position: Option<PositionSample>,
}

// ---- bounds

fn finite(v: Vec3) -> bool
    ensures { result ≡ (is_finite v.n && is_finite v.e && is_finite v.d) }
{
    float32::is_finite(v.n) & float32::is_finite(v.e) & float32::is_finite(v.d)
}

fn within_position(p: Vec3) -> bool
    ensures { result ≡ within_position p }
{
    let alt = p.alt_m();
    finite(p)
        & !(10_000.0 < float32::fabsf(p.n))
        & !(10_000.0 < float32::fabsf(p.e))
        & !(alt < -100.0)
        & !(2000.0 < alt)
}

fn within_velocity(v: Vec3) -> bool
    ensures { result ≡ within_velocity v }
{
    let speed = float32::sqrtf(v.n * v.n + v.e * v.e + v.d * v.d);
    finite(v) & !(100.0 < speed)
}

fn validate_position_sample(pos: PositionSample) -> bool
    ensures { result ≡ validate_position_sample pos }
{
    within_position(pos.pos) & within_velocity(pos.vel)
}

fn validate_hdop(hdop: Option<f32>) -> bool
    ensures { result ≡ validate_hdop hdop }
{
    hdop.is_none_or(|h| float32::is_finite(h) & !(h < 0.0) & !(100.0 < h))
}

// These three are the Rust's names, a line each over what they share.
fn validate_gps(gps: GpsSample) -> bool
    ensures { result ≡ validate_gps gps }
{
    validate_hdop(gps.hdop)
}

// Finite, and from 0 to `most`.
fn up_to(most: f32, x: f32) -> bool
    ensures { result ≡ up_to most x }
{
    float32::is_finite(x) & (0.0 <= x) & (x <= most)
}

// Of a voltage and of a percentage.
fn validate_percent(p: f32) -> bool
    ensures { result ≡ validate_percent p }
{
    up_to(100.0, p)
}

fn validate_remaining(r: f32, cap: f32) -> bool
    ensures { result ≡ validate_remaining r cap }
{
    up_to(cap * 1.1, r)
}

pub fn position_ok(p: Option<PositionSample>) -> bool
    ensures { result ≡ position_ok p }
{
    p.is_none_or(validate_position_sample)
}

pub fn gps_ok(g: Option<GpsSample>) -> bool
    ensures { result ≡ gps_ok g }
{
    g.is_none_or(validate_gps)
}

pub fn percent_ok(p: Option<Stamped<f32>>) -> bool
    ensures { result ≡ percent_ok p }
{
    p.is_none_or(|r| validate_percent(r.value))
}

pub fn remaining_ok(p: Option<Stamped<f32>>, cap: f32) -> bool
    ensures { result ≡ remaining_ok p cap }
{
    p.is_none_or(|r| validate_remaining(r.value, cap))
}

// A reading where it is kept.
fn keep<T: Copy>(kept: bool, x: Option<T>) -> Option<T>
    ensures { result ≡ keep kept x }
{
    if kept { x } else { None }
}

// The readings within their bounds, stale ones too; and whether one was dropped.
pub fn validate_telemetry(raw: Telemetry, usable_capacity_wh: f32) -> ValidatedTelemetry
    ensures { result ≡ validate_telemetry raw usable_capacity_wh }
{
    let battery = raw.battery;
    let position = position_ok(raw.position);
    let gps = gps_ok(raw.gps);
    let voltage = percent_ok(battery.voltage_v);
    let percent = percent_ok(battery.percent);
    let remaining = remaining_ok(battery.remaining_wh, usable_capacity_wh);
    let telemetry = Telemetry {
        position: keep(position, raw.position),
        gps: keep(gps, raw.gps),
        battery: BatteryInputs {
            voltage_v: keep(voltage, battery.voltage_v),
            percent: keep(percent, battery.percent),
            remaining_wh: keep(remaining, battery.remaining_wh),
        },
        ..raw
    };
    ValidatedTelemetry {
        telemetry,
        invalid_input: !(position & gps & voltage & percent & remaining),
    }
}

// ---- the glitch filter

fn distance_between(a: Vec3, b: Vec3) -> f32
    ensures { result ≡ distance_between a b }
{
    let dn = a.n - b.n;
    let de = a.e - b.e;
    let dd = a.d - b.d;
    float32::sqrtf(dn * dn + de * de + dd * dd)
}

// Whether a distance can be flown in `gap` ms: twice v_max, and 5 m.
fn within_jump(dist: f32, gap: u32, v_max: f32) -> bool
    ensures { result ≡ within_jump dist gap v_max }
{
    let dt_s = std::num::nearest_u32_to_f32(gap) / 1000.0;
    dist <= v_max * dt_s * 2.0 + 5.0
}

fn accept_sample(
    last: PositionSample,
    streak: u8,
    now_ms: u32,
    sample: PositionSample,
    v_max: f32,
) -> bool
    ensures { result ≡ accept_sample wrapping last streak now_ms sample v_max }
{
    if 3 <= streak {
        return true;
    }
    time::age_ms(now_ms, last.t_ms).is_none_or(|gap| {
        2000 < gap || within_jump(distance_between(sample.pos, last.pos), gap, v_max)
    })
}

fn accept_stored(
    stored: Option<PositionSample>,
    streak: u8,
    now_ms: u32,
    sample: PositionSample,
    v_max: f32,
) -> bool
    ensures { result ≡ accept_stored wrapping stored streak now_ms sample v_max }
{
    stored.is_none_or(|last| accept_sample(last, streak, now_ms, sample, v_max))
}

pub fn apply_glitch_filter(
    glitch: GlitchState,
    now_ms: u32,
    pos: Option<PositionSample>,
    v_max: f32,
) -> Filtered
    ensures { result ≡ apply_glitch_filter wrapping glitch now_ms pos v_max }
{
    let Some(sample) = pos else {
        return Filtered {
            glitch,
            position: None,
        };
    };
    let last = glitch.last_accepted;
    let streak = glitch.reject_streak;
    if accept_stored(last, streak, now_ms, sample, v_max) {
        return Filtered {
            glitch: GlitchState {
                last_accepted: Some(sample),
                reject_streak: 0,
            },
            position: Some(sample),
        };
    }
    Filtered {
        glitch: GlitchState {
            last_accepted: last,
            reject_streak: streak.saturating_add(1),
        },
        position: None,
    }
}

// ---- fresh values

// A reading where it is fresh.
fn fresh<T: Timed + Copy>(now_ms: u32, x: Option<T>, limit_ms: u32) -> Option<T>
    ensures { result ≡ fresh_reading T.stamp wrapping now_ms x limit_ms }
{
    x.filter(|r| time::is_fresh(now_ms, r.t_ms(), limit_ms))
}

// A reading's value where it is fresh.
fn fresh_value<T: Copy>(now_ms: u32, x: Option<Stamped<T>>, limit_ms: u32) -> Option<T>
    ensures { result ≡ fresh_value wrapping now_ms x limit_ms }
{
    fresh(now_ms, x, limit_ms).map(|r| r.value)
}

// Whether a flag is fresh and true.
pub fn fresh_true(now_ms: u32, x: Option<Stamped<bool>>, limit_ms: u32) -> bool
    ensures { result ≡ fresh_true wrapping now_ms x limit_ms }
{
    fresh_value(now_ms, x, limit_ms) == Some(true)
}

// A fresh armed reading of false.
pub fn is_confirmed_disarm(now_ms: u32, armed: Option<Stamped<bool>>, status_fresh_ms: u32) -> bool
    ensures { result ≡ confirmed_disarm wrapping now_ms armed status_fresh_ms }
{
    fresh_value(now_ms, armed, status_fresh_ms) == Some(false)
}

pub fn position_valid(
    now_ms: u32,
    pos: Option<PositionSample>,
    ekf_ok: Option<Stamped<bool>>,
    pos_fresh_ms: u32,
    status_fresh_ms: u32,
) -> bool
    ensures { result ≡ position_valid wrapping now_ms pos ekf_ok pos_fresh_ms status_fresh_ms }
{
    fresh(now_ms, pos, pos_fresh_ms).is_some() & fresh_true(now_ms, ekf_ok, status_fresh_ms)
}

// Here and below what is read is handed over one by one: a struct for it would be filled at one call alone.
// The fresh charge in percent: from remaining_wh where that is fresh, else as read.
pub fn fresh_battery_percent(
    now_ms: u32,
    battery: BatteryInputs,
    battery_fresh_ms: u32,
    usable_capacity_wh: f32,
) -> Option<f32>
    ensures { result ≡ fresh_battery_percent wrapping now_ms battery battery_fresh_ms usable_capacity_wh }
{
    fresh_value(now_ms, battery.remaining_wh, battery_fresh_ms)
        .map(|r| r / usable_capacity_wh * 100.0)
        .or_else(|| fresh_value(now_ms, battery.percent, battery_fresh_ms))
}

// The fresh charge in watt-hours: as read where that is fresh, else from the percentage.
pub fn fresh_remaining_wh(
    now_ms: u32,
    battery: BatteryInputs,
    battery_fresh_ms: u32,
    usable_capacity_wh: f32,
) -> Option<f32>
    ensures { result ≡ fresh_remaining_wh wrapping now_ms battery battery_fresh_ms usable_capacity_wh }
{
    fresh_value(now_ms, battery.remaining_wh, battery_fresh_ms).or_else(|| {
        fresh_value(now_ms, battery.percent, battery_fresh_ms).map(|p| p / 100.0
            * usable_capacity_wh)
    })
}

pub fn fresh_voltage(now_ms: u32, battery: BatteryInputs, battery_fresh_ms: u32) -> Option<f32>
    ensures { result ≡ fresh_voltage wrapping now_ms battery battery_fresh_ms }
{
    fresh_value(now_ms, battery.voltage_v, battery_fresh_ms)
}

pub fn fresh_landed(
    now_ms: u32,
    landed: Option<Stamped<LandedState>>,
    status_fresh_ms: u32,
) -> Option<LandedState>
    ensures { result ≡ fresh_landed wrapping now_ms landed status_fresh_ms }
{
    fresh_value(now_ms, landed, status_fresh_ms)
}

pub fn fresh_gps(now_ms: u32, gps: Option<GpsSample>, gps_fresh_ms: u32) -> Option<GpsSample>
    ensures { result ≡ fresh_gps wrapping now_ms gps gps_fresh_ms }
{
    fresh(now_ms, gps, gps_fresh_ms)
}
