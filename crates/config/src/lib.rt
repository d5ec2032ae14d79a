// The Rust's config.rs: the settings, their rules, the defaults.
#![tactic(auto, unfolding(crate::specs::Config::bad_cell_count, crate::specs::Config::bad_capacity, crate::specs::Config::non_finite_param, crate::specs::Config::non_positive_speed, crate::specs::Config::negative_power, crate::specs::Config::bad_threshold_order, crate::specs::Config::outside_duration, crate::specs::Config::duration_out_of_range, crate::specs::Config::rtl_alt_outside_fence, crate::specs::Config::check_config, crate::specs::Config::validate_config))]

ghost use Rattle.std.specs.Prelude.{◌≡◌};
ghost use Rattle.config.specs.Config.{config_error_number, bad_cell_count, bad_capacity, non_finite_param, non_positive_speed, negative_power, bad_threshold_order, duration_out_of_range, outside_duration, rtl_alt_outside_fence, check_config, validate_config};
ghost use Rattle.config.specs.Default.{default_config, default_fence};

use corners::FenceError;
use geometry::{ConvexPolygon, Geofence};
use types::Point2;

#[derive(Clone, Copy)]
pub struct Config {
    pub cell_count: u8,
    pub usable_capacity_wh: f32,
    pub rc_required: bool,
    pub pos_fresh_ms: u32,
    pub gps_fresh_ms: u32,
    pub status_fresh_ms: u32,
    pub battery_fresh_ms: u32,
    pub recovery_hold_ms: u32,
    pub gcs_warn_ms: u32,
    pub gcs_hold_ms: u32,
    pub gcs_rtl_ms: u32,
    pub gcs_clear_ms: u32,
    pub gcs_clear_hold_ms: u32,
    pub rc_lost_set_ms: u32,
    pub rc_lost_clear_ms: u32,
    pub gps_degraded_set_ms: u32,
    pub gps_degraded_clear_ms: u32,
    pub gps_lost_set_ms: u32,
    pub gps_lost_clear_ms: u32,
    pub ekf_unhealthy_set_ms: u32,
    pub ekf_unhealthy_clear_ms: u32,
    pub fence_approach_m: f32,
    pub fence_approach_clear_m: f32,
    pub fence_breach_set_ms: u32,
    pub fence_breach_clear_m: f32,
    pub fence_breach_clear_ms: u32,
    pub alt_max_clear_m: f32,
    pub alt_max_set_ms: u32,
    pub alt_max_clear_hold_ms: u32,
    pub alt_min_home_radius_m: f32,
    pub alt_min_set_ms: u32,
    pub alt_min_clear_m: f32,
    pub alt_min_clear_ms: u32,
    pub stale_battery_clear_ms: u32,
    pub battery_warn_pct: f32,
    pub battery_warn_clear_pct: f32,
    pub battery_warn_set_ms: u32,
    pub battery_warn_clear_ms: u32,
    pub battery_low_pct: f32,
    pub battery_low_clear_pct: f32,
    pub battery_low_set_ms: u32,
    pub battery_low_clear_ms: u32,
    pub battery_critical_pct: f32,
    pub battery_critical_v_per_cell: f32,
    pub battery_critical_set_ms: u32,
    pub energy_marginal_wh: f32,
    pub energy_marginal_clear_wh: f32,
    pub energy_marginal_set_ms: u32,
    pub energy_marginal_clear_ms: u32,
    pub energy_infeasible_set_ms: u32,
    pub invalid_input_clear_ms: u32,
    pub disarm_hold_ms: u32,
    pub v_cruise: f32,
    pub p_cruise: f32,
    pub k_wind: f32,
    pub v_climb: f32,
    pub p_climb: f32,
    pub v_desc: f32,
    pub p_desc: f32,
    pub h_rtl: f32,
    pub reserve_wh: f32,
    pub v_max: f32,
    // Of kind 11: eight of the requests, once raised, stay until they are cleared. The Rust has kind 1 alone.
    pub keeps_raised: bool,
}

impl Default for Config {
    ghost is_default = { λ cfg. cfg ≡ default_config };

    fn default() -> Self {
        Self {
            cell_count: 4,
            usable_capacity_wh: 40.0,
            rc_required: true,
            pos_fresh_ms: 500,
            gps_fresh_ms: 1000,
            status_fresh_ms: 1000,
            battery_fresh_ms: 2000,
            recovery_hold_ms: 5000,
            gcs_warn_ms: 3000,
            gcs_hold_ms: 5000,
            gcs_rtl_ms: 15000,
            gcs_clear_ms: 1500,
            gcs_clear_hold_ms: 3000,
            rc_lost_set_ms: 1000,
            rc_lost_clear_ms: 3000,
            gps_degraded_set_ms: 2000,
            gps_degraded_clear_ms: 5000,
            gps_lost_set_ms: 1500,
            gps_lost_clear_ms: 5000,
            ekf_unhealthy_set_ms: 1000,
            ekf_unhealthy_clear_ms: 5000,
            fence_approach_m: 10.0,
            fence_approach_clear_m: 15.0,
            fence_breach_set_ms: 500,
            fence_breach_clear_m: 5.0,
            fence_breach_clear_ms: 5000,
            alt_max_clear_m: 5.0,
            alt_max_set_ms: 500,
            alt_max_clear_hold_ms: 3000,
            alt_min_home_radius_m: 20.0,
            alt_min_set_ms: 1000,
            alt_min_clear_m: 2.0,
            alt_min_clear_ms: 1000,
            stale_battery_clear_ms: 3000,
            battery_warn_pct: 30.0,
            battery_warn_clear_pct: 33.0,
            battery_warn_set_ms: 2000,
            battery_warn_clear_ms: 5000,
            battery_low_pct: 20.0,
            battery_low_clear_pct: 23.0,
            battery_low_set_ms: 2000,
            battery_low_clear_ms: 5000,
            battery_critical_pct: 10.0,
            battery_critical_v_per_cell: 3.3,
            battery_critical_set_ms: 3000,
            energy_marginal_wh: 5.0,
            energy_marginal_clear_wh: 7.0,
            energy_marginal_set_ms: 2000,
            energy_marginal_clear_ms: 5000,
            energy_infeasible_set_ms: 2000,
            invalid_input_clear_ms: 3000,
            disarm_hold_ms: 2000,
            v_cruise: 10.0,
            p_cruise: 350.0,
            k_wind: 1.25,
            v_climb: 2.0,
            p_climb: 400.0,
            v_desc: 1.5,
            p_desc: 300.0,
            h_rtl: 30.0,
            reserve_wh: 8.0,
            v_max: 25.0,
            keeps_raised: false,
        }
    }
}

#[derive(Clone, Copy, PartialEq, Eq)]
pub enum ConfigError {
    Fence(FenceError),
    HomeOutsideFence,
    RtlAltOutsideFence,
    NonFiniteParam,
    NonPositiveSpeed,
    NegativePower,
    BadCellCount,
    BadCapacity,
    BadThresholdOrder,
    DurationOutOfRange,
}

impl ConfigError {
    // Document 01's refusal number. A fence's error keeps its own.
    pub fn number(self) -> u16
        ensures { result ≡ config_error_number self }
    {
        match self {
            ConfigError::Fence(e) => e.number(),
            ConfigError::HomeOutsideFence => 20,
            ConfigError::RtlAltOutsideFence => 21,
            ConfigError::NonFiniteParam => 22,
            ConfigError::NonPositiveSpeed => 23,
            ConfigError::NegativePower => 24,
            ConfigError::BadCellCount => 25,
            ConfigError::BadCapacity => 26,
            ConfigError::BadThresholdOrder => 27,
            ConfigError::DurationOutOfRange => 28,
        }
    }
}

fn bad_cell_count(cfg: Config) -> bool
    ensures { result ≡ bad_cell_count cfg }
{
    (cfg.cell_count < 1) | (14 < cfg.cell_count)
}

fn bad_capacity(cfg: Config) -> bool
    ensures { result ≡ bad_capacity cfg }
{
    !float32::is_finite(cfg.usable_capacity_wh) | (cfg.usable_capacity_wh <= 0.0)
}

fn non_finite_param(cfg: Config) -> bool
    ensures { result ≡ non_finite_param cfg }
{
    let f1 = float32::is_finite(cfg.v_cruise);
    let f2 = float32::is_finite(cfg.v_climb);
    let f3 = float32::is_finite(cfg.v_desc);
    let f4 = float32::is_finite(cfg.p_cruise);
    let f5 = float32::is_finite(cfg.p_climb);
    let f6 = float32::is_finite(cfg.p_desc);
    let f7 = float32::is_finite(cfg.reserve_wh);
    let f8 = float32::is_finite(cfg.h_rtl);
    !f1 | !f2 | !f3 | !f4 | !f5 | !f6 | !f7 | !f8
}

fn non_positive_speed(cfg: Config) -> bool
    ensures { result ≡ non_positive_speed cfg }
{
    (cfg.v_cruise <= 0.0) | (cfg.v_climb <= 0.0) | (cfg.v_desc <= 0.0)
}

fn negative_power(cfg: Config) -> bool
    ensures { result ≡ negative_power cfg }
{
    (cfg.p_cruise < 0.0) | (cfg.p_climb < 0.0) | (cfg.p_desc < 0.0) | (cfg.reserve_wh < 0.0)
}

fn bad_threshold_order(cfg: Config) -> bool
    ensures { result ≡ bad_threshold_order cfg }
{
    (cfg.battery_warn_pct <= cfg.battery_low_pct)
        | (cfg.battery_low_pct <= cfg.battery_critical_pct)
        | (cfg.battery_warn_clear_pct <= cfg.battery_warn_pct)
        | (cfg.battery_low_clear_pct <= cfg.battery_low_pct)
}

fn outside_duration(d: u32) -> bool
    ensures { result ≡ outside_duration d }
{
    (d < 1) | (600_000 < d)
}

fn duration_out_of_range(cfg: Config) -> bool
    ensures { result ≡ duration_out_of_range cfg }
{
    let d1 = outside_duration(cfg.recovery_hold_ms);
    let d2 = outside_duration(cfg.gcs_warn_ms);
    let d3 = outside_duration(cfg.disarm_hold_ms);
    let d4 = outside_duration(cfg.energy_infeasible_set_ms);
    d1 | d2 | d3 | d4
}

fn rtl_alt_outside_fence(cfg: Config, min_alt_m: f32, max_alt_m: f32) -> bool
    ensures { result ≡ rtl_alt_outside_fence cfg min_alt_m max_alt_m }
{
    (cfg.h_rtl < min_alt_m) | (max_alt_m < cfg.h_rtl)
}

// The rules in their order, with home's place in the fence already known.
pub fn check_config(
    cfg: Config,
    home_inside: bool,
    min_alt_m: f32,
    max_alt_m: f32,
) -> Result<(), ConfigError>
    ensures { result ≡ check_config cfg home_inside min_alt_m max_alt_m }
{
    if bad_cell_count(cfg) {
        return Err(ConfigError::BadCellCount);
    }
    if bad_capacity(cfg) {
        return Err(ConfigError::BadCapacity);
    }
    if non_finite_param(cfg) {
        return Err(ConfigError::NonFiniteParam);
    }
    if non_positive_speed(cfg) {
        return Err(ConfigError::NonPositiveSpeed);
    }
    if negative_power(cfg) {
        return Err(ConfigError::NegativePower);
    }
    if bad_threshold_order(cfg) {
        return Err(ConfigError::BadThresholdOrder);
    }
    if duration_out_of_range(cfg) {
        return Err(ConfigError::DurationOutOfRange);
    }
    if !home_inside {
        return Err(ConfigError::HomeOutsideFence);
    }
    if rtl_alt_outside_fence(cfg, min_alt_m, max_alt_m) {
        return Err(ConfigError::RtlAltOutsideFence);
    }
    Ok(())
}

pub fn validate_config(cfg: Config, fence: Geofence) -> Result<(), ConfigError>
    ensures { result ≡ validate_config cfg fence }
{
    let inside = fence.poly.contains(Point2 { n: 0.0, e: 0.0 });
    check_config(cfg, inside, fence.min_alt_m, fence.max_alt_m)
}

// The corners in the Rust's order; altitudes 5 to 120. The constructors accept them (proofs/Default.antt).
pub fn default_fence() -> Geofence
    ensures { result ≡ default_fence }
{
    let corners = [
        Point2 {
            n: -500.0,
            e: -500.0,
        },
        Point2 {
            n: -500.0,
            e: 500.0,
        },
        Point2 { n: 500.0, e: 500.0 },
        Point2 {
            n: 500.0,
            e: -500.0,
        },
    ];
    Geofence {
        poly: ConvexPolygon::held(&corners),
        max_alt_m: 120.0,
        min_alt_m: 5.0,
    }
}
