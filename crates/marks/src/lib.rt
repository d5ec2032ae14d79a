// Instants and durations of 32 bits that mark how each test of the 64-bit clock came out (specs/Marks.antt).
#![tactic(auto, unfolding(crate::specs::Marks::marked_by, crate::specs::Marks::marks, crate::specs::Marks::marks_of, crate::specs::Marks::stamp_marks, crate::specs::Marks::stamp_marks_of, time::specs::Time::age, time::specs::Time::fresh, time::specs::Time::hold_met))]

ghost use Rattle.std.specs.Prelude.{◌≡◌, leb, ltb};
ghost use Rattle.time.specs.Time.{plain, age, fresh, hold_met};
ghost use Rattle.timers.specs.Timer.{started};
ghost use Rattle.triggers.specs.Families.{gcs_age};
ghost use Rattle.instants.specs.Listed.{listed, unlisted, stamps_listed, stamps_unlisted};
ghost use Rattle.marks.specs.Marks.{up_to2000, held_mark, fresh_mark, gap_mark, above_mark, within_mark, marked_by, marks_of, stamp_marks_of};

use config::Config;

// ---- one mark each

fn held_mark(now: u64, x: u64, hold: u32) -> u32
    ensures { result ≡ held_mark (hold_met plain now x hold) }
{
    if now < x {
        65537
    } else if now - x < hold as u64 {
        65537
    } else {
        65535
    }
}

fn fresh_mark(now: u64, x: u64, limit: u32) -> u32
    ensures { result ≡ fresh_mark (fresh plain now x limit) }
{
    if now < x {
        65537
    } else if now - x <= limit as u64 {
        65536
    } else {
        65537
    }
}

fn sound_mark(now: u64, x: u64) -> u32
    ensures { result ≡ fresh_mark (started (age plain now x)) }
{
    if now < x { 65537 } else { 65536 }
}

fn gap_mark(now: u64, x: u64) -> u32
    ensures { result ≡ gap_mark (up_to2000 (age plain now x)) }
{
    if now < x {
        65538
    } else if now - x > 2000 {
        65538
    } else {
        65536 - ((now - x) as u32)
    }
}

fn above_mark(limit: u32, age: u64) -> u32
    ensures { result ≡ above_mark (ltb limit age) }
{
    if (limit as u64) < age { 0 } else { 4294967295 }
}

fn within_mark(limit: u32, age: u64) -> u32
    ensures { result ≡ within_mark (leb age limit) }
{
    if age <= limit as u64 { 4294967295 } else { 0 }
}

// ---- the heartbeat

// An absent heartbeat, and one without an age, count as the most.
pub fn heartbeat_age(now: u64, heartbeat: Option<u64>) -> u64
    ensures { result ≡ gcs_age plain now heartbeat }
{
    match heartbeat {
        Some(at) if at <= now => now - at,
        _ => 4294967295,
    }
}

// ---- a row of them each

pub fn state_marks(cfg: &Config, now: u64, x: &[u64; 30]) -> [u32; 30]
    ensures { result ≡ listed (marks_of cfg.now now (unlisted x.now)) }
{
    [
        held_mark(now, x[0], cfg.gcs_clear_hold_ms),
        held_mark(now, x[1], cfg.rc_lost_clear_ms),
        held_mark(now, x[2], cfg.gps_degraded_set_ms),
        held_mark(now, x[3], cfg.gps_degraded_clear_ms),
        held_mark(now, x[4], cfg.gps_lost_set_ms),
        held_mark(now, x[5], cfg.gps_lost_clear_ms),
        held_mark(now, x[6], cfg.ekf_unhealthy_set_ms),
        held_mark(now, x[7], cfg.ekf_unhealthy_clear_ms),
        held_mark(now, x[8], cfg.fence_breach_set_ms),
        held_mark(now, x[9], cfg.fence_breach_clear_ms),
        held_mark(now, x[10], cfg.alt_max_set_ms),
        held_mark(now, x[11], cfg.alt_max_clear_hold_ms),
        held_mark(now, x[12], cfg.alt_min_set_ms),
        held_mark(now, x[13], cfg.alt_min_clear_ms),
        held_mark(now, x[14], cfg.stale_battery_clear_ms),
        held_mark(now, x[15], cfg.battery_warn_set_ms),
        held_mark(now, x[16], cfg.battery_warn_clear_ms),
        held_mark(now, x[17], cfg.battery_low_set_ms),
        held_mark(now, x[18], cfg.battery_low_clear_ms),
        held_mark(now, x[19], cfg.battery_critical_set_ms),
        held_mark(now, x[20], cfg.energy_marginal_set_ms),
        held_mark(now, x[21], cfg.energy_marginal_clear_ms),
        held_mark(now, x[22], cfg.energy_infeasible_set_ms),
        held_mark(now, x[23], cfg.invalid_input_clear_ms),
        held_mark(now, x[24], cfg.rc_lost_set_ms),
        held_mark(now, x[25], cfg.recovery_hold_ms),
        held_mark(now, x[26], cfg.disarm_hold_ms),
        gap_mark(now, x[27]),
        sound_mark(now, x[28]),
        0,
    ]
}

pub fn telemetry_marks(cfg: &Config, x: &[u64; 11]) -> [u32; 11]
    ensures { result ≡ stamps_listed (stamp_marks_of cfg.now (stamps_unlisted x.now)) }
{
    let now = x[0];
    [
        65536,
        fresh_mark(now, x[1], cfg.pos_fresh_ms),
        fresh_mark(now, x[2], cfg.gps_fresh_ms),
        fresh_mark(now, x[3], cfg.battery_fresh_ms),
        fresh_mark(now, x[4], cfg.battery_fresh_ms),
        fresh_mark(now, x[5], cfg.battery_fresh_ms),
        65535,
        fresh_mark(now, x[7], cfg.status_fresh_ms),
        fresh_mark(now, x[8], cfg.status_fresh_ms),
        fresh_mark(now, x[9], cfg.status_fresh_ms),
        fresh_mark(now, x[10], cfg.status_fresh_ms),
    ]
}

// ---- the configuration

pub fn mark_config(cfg: &Config, age: u64) -> Config
    ensures { result ≡ marked_by cfg.now age }
{
    Config {
        recovery_hold_ms: cfg.recovery_hold_ms.min(1),
        gcs_warn_ms: above_mark(cfg.gcs_warn_ms, age),
        gcs_hold_ms: above_mark(cfg.gcs_hold_ms, age),
        gcs_rtl_ms: above_mark(cfg.gcs_rtl_ms, age),
        gcs_clear_ms: within_mark(cfg.gcs_clear_ms, age),
        gcs_clear_hold_ms: cfg.gcs_clear_hold_ms.min(1),
        rc_lost_set_ms: cfg.rc_lost_set_ms.min(1),
        rc_lost_clear_ms: cfg.rc_lost_clear_ms.min(1),
        gps_degraded_set_ms: cfg.gps_degraded_set_ms.min(1),
        gps_degraded_clear_ms: cfg.gps_degraded_clear_ms.min(1),
        gps_lost_set_ms: cfg.gps_lost_set_ms.min(1),
        gps_lost_clear_ms: cfg.gps_lost_clear_ms.min(1),
        ekf_unhealthy_set_ms: cfg.ekf_unhealthy_set_ms.min(1),
        ekf_unhealthy_clear_ms: cfg.ekf_unhealthy_clear_ms.min(1),
        fence_breach_set_ms: cfg.fence_breach_set_ms.min(1),
        fence_breach_clear_ms: cfg.fence_breach_clear_ms.min(1),
        alt_max_set_ms: cfg.alt_max_set_ms.min(1),
        alt_max_clear_hold_ms: cfg.alt_max_clear_hold_ms.min(1),
        alt_min_set_ms: cfg.alt_min_set_ms.min(1),
        alt_min_clear_ms: cfg.alt_min_clear_ms.min(1),
        stale_battery_clear_ms: cfg.stale_battery_clear_ms.min(1),
        battery_warn_set_ms: cfg.battery_warn_set_ms.min(1),
        battery_warn_clear_ms: cfg.battery_warn_clear_ms.min(1),
        battery_low_set_ms: cfg.battery_low_set_ms.min(1),
        battery_low_clear_ms: cfg.battery_low_clear_ms.min(1),
        battery_critical_set_ms: cfg.battery_critical_set_ms.min(1),
        energy_marginal_set_ms: cfg.energy_marginal_set_ms.min(1),
        energy_marginal_clear_ms: cfg.energy_marginal_clear_ms.min(1),
        energy_infeasible_set_ms: cfg.energy_infeasible_set_ms.min(1),
        invalid_input_clear_ms: cfg.invalid_input_clear_ms.min(1),
        disarm_hold_ms: cfg.disarm_hold_ms.min(1),
        ..*cfg
    }
}
