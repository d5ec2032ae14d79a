// The readings of two radios merged for one step: one rule for choosing between two readings, carried to all ten.
#![tactic(auto, unfolding(crate::specs::Choice::second_of_two, crate::specs::Choice::second_taken, crate::specs::Choice::standing, crate::specs::Merge::merge_battery, crate::specs::Merge::merge_telemetry))]

ghost use Rattle.std.specs.Prelude.{◌≡◌};
ghost use Rattle.merge.specs.Choice.{younger, second_of_two, second_taken, standing, chosen, Computes};
ghost use Rattle.merge.specs.Merge.{merge_battery, merge_telemetry};

use types::{BatteryInputs, Telemetry, Timed};

// What the rule looks at in a reading that is present.
#[derive(Clone, Copy)]
pub struct Standing {
    pub kept: bool,
    pub age: Option<u32>,
}

// Whether age `a` wins over age `b`.
fn is_younger(a: Option<u32>, b: Option<u32>) -> bool
    ensures { result ≡ younger a b }
{
    a.is_some_and(|x| b.is_none_or(|y| x < y))
}

// Of two that are present.
fn second_of_two(a: Standing, b: Standing) -> bool
    ensures { result ≡ second_of_two a b }
{
    let wins = is_younger(b.age, a.age);
    if a.kept { b.kept & wins } else { b.kept | wins }
}

fn second_taken(a: Option<Standing>, b: Option<Standing>) -> bool
    ensures { result ≡ second_taken a b }
{
    b.is_some_and(|second| a.is_none_or(|first| second_of_two(first, second)))
}

fn standing_of<T: Timed + Copy>(now_ms: u32, x: Option<T>, kept: bool) -> Option<Standing>
    ensures { result ≡ standing T.stamp now_ms x kept }
{
    x.map(|r| Standing {
        kept,
        age: time::age_ms(now_ms, r.t_ms()),
    })
}

// The second radio's reading where it wins, else the first's. `kept` is whether `validate_telemetry` keeps a reading.
#[tactic(auto, unfolding(crate::specs::Choice::chosen))]
fn choose<T: Timed + Copy, K: Fn(Option<T>) -> bool>(
    now_ms: u32,
    a: Option<T>,
    b: Option<T>,
    kept: K,
) -> Option<T>
    requires { K.IsAlwaysCallable kept }
    ensures { (k : _) → Computes (K.post kept) k → result ≡ chosen T.stamp k now_ms a b }
{
    let first = standing_of(now_ms, a, kept(a));
    let second = standing_of(now_ms, b, kept(b));
    if second_taken(first, second) { b } else { a }
}

fn merge_battery(
    now_ms: u32,
    a: BatteryInputs,
    b: BatteryInputs,
    usable_capacity_wh: f32,
) -> BatteryInputs
    ensures { result ≡ merge_battery usable_capacity_wh now_ms a b }
{
    BatteryInputs {
        voltage_v: choose(now_ms, a.voltage_v, b.voltage_v, validate::percent_ok),
        percent: choose(now_ms, a.percent, b.percent, validate::percent_ok),
        remaining_wh: choose(now_ms, a.remaining_wh, b.remaining_wh, |r| {
            validate::remaining_ok(r, usable_capacity_wh)
        }),
    }
}

// The Telemetry of two radios: each reading is the first radio's or the second's, and what is not optional the first's.
pub fn merge_telemetry(a: Telemetry, b: Telemetry, usable_capacity_wh: f32) -> Telemetry
    ensures { result ≡ merge_telemetry usable_capacity_wh a b }
{
    let now_ms = a.now_ms;
    Telemetry {
        now_ms,
        position: choose(now_ms, a.position, b.position, validate::position_ok),
        gps: choose(now_ms, a.gps, b.gps, validate::gps_ok),
        battery: merge_battery(now_ms, a.battery, b.battery, usable_capacity_wh),
        gcs_heartbeat_ms: choose(now_ms, a.gcs_heartbeat_ms, b.gcs_heartbeat_ms, |_| true),
        armed: choose(now_ms, a.armed, b.armed, |_| true),
        landed: choose(now_ms, a.landed, b.landed, |_| true),
        rc_ok: choose(now_ms, a.rc_ok, b.rc_ok, |_| true),
        ekf_ok: choose(now_ms, a.ekf_ok, b.ekf_ok, |_| true),
    }
}
