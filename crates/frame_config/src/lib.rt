// Kinds 1 and 11: Config in its frame of 246 bytes, read and written. Their bodies are the same.
#![tactic(auto, unfolding(crate::specs::ConfigFrame::config_at, crate::specs::ConfigFrame::keeps_raised))]

ghost use Rattle.std.specs.Prelude.{◌≡◌, length};
ghost use Rattle.std.specs.Result.{IfOk};
ghost use Rattle.std.proofs.lemmas.List.Edits.{sets};
ghost use Rattle.wire.specs.Cell.{bytes_of};
ghost use Rattle.wire.specs.Frame.{check_room, frame_written};
ghost use Rattle.frame_config.specs.ConfigFrame.{config_kind, keeps_raised, config_at, check_config_frame, read_config, freshness_cells, link_cells, fence_cells, battery_cells, energy_cells, flight_cells, config_frame};

use config::Config;
use wire::FrameError;

// A configuration under which raised requests are kept is a kind 11.
fn config_kind(keeps_raised: bool) -> u16
    ensures { result ≡ config_kind keeps_raised }
{
    if keeps_raised { 11 } else { 1 }
}

fn keeps_raised(s: &[u8]) -> bool
    ensures { result ≡ keeps_raised s.now }
{
    wire::u16_at(s, 2) == 11
}

fn config_at(s: &[u8], keeps_raised: bool) -> Config
    ensures { result ≡ config_at s.now keeps_raised }
{
    Config {
        cell_count: wire::u8_at(s, 4),
        usable_capacity_wh: wire::f32_at(s, 5),
        rc_required: wire::flag_at(s, 9),
        pos_fresh_ms: wire::u32_at(s, 10),
        gps_fresh_ms: wire::u32_at(s, 14),
        status_fresh_ms: wire::u32_at(s, 18),
        battery_fresh_ms: wire::u32_at(s, 22),
        recovery_hold_ms: wire::u32_at(s, 26),
        gcs_warn_ms: wire::u32_at(s, 30),
        gcs_hold_ms: wire::u32_at(s, 34),
        gcs_rtl_ms: wire::u32_at(s, 38),
        gcs_clear_ms: wire::u32_at(s, 42),
        gcs_clear_hold_ms: wire::u32_at(s, 46),
        rc_lost_set_ms: wire::u32_at(s, 50),
        rc_lost_clear_ms: wire::u32_at(s, 54),
        gps_degraded_set_ms: wire::u32_at(s, 58),
        gps_degraded_clear_ms: wire::u32_at(s, 62),
        gps_lost_set_ms: wire::u32_at(s, 66),
        gps_lost_clear_ms: wire::u32_at(s, 70),
        ekf_unhealthy_set_ms: wire::u32_at(s, 74),
        ekf_unhealthy_clear_ms: wire::u32_at(s, 78),
        fence_approach_m: wire::f32_at(s, 82),
        fence_approach_clear_m: wire::f32_at(s, 86),
        fence_breach_set_ms: wire::u32_at(s, 90),
        fence_breach_clear_m: wire::f32_at(s, 94),
        fence_breach_clear_ms: wire::u32_at(s, 98),
        alt_max_clear_m: wire::f32_at(s, 102),
        alt_max_set_ms: wire::u32_at(s, 106),
        alt_max_clear_hold_ms: wire::u32_at(s, 110),
        alt_min_home_radius_m: wire::f32_at(s, 114),
        alt_min_set_ms: wire::u32_at(s, 118),
        alt_min_clear_m: wire::f32_at(s, 122),
        alt_min_clear_ms: wire::u32_at(s, 126),
        stale_battery_clear_ms: wire::u32_at(s, 130),
        battery_warn_pct: wire::f32_at(s, 134),
        battery_warn_clear_pct: wire::f32_at(s, 138),
        battery_warn_set_ms: wire::u32_at(s, 142),
        battery_warn_clear_ms: wire::u32_at(s, 146),
        battery_low_pct: wire::f32_at(s, 150),
        battery_low_clear_pct: wire::f32_at(s, 154),
        battery_low_set_ms: wire::u32_at(s, 158),
        battery_low_clear_ms: wire::u32_at(s, 162),
        battery_critical_pct: wire::f32_at(s, 166),
        battery_critical_v_per_cell: wire::f32_at(s, 170),
        battery_critical_set_ms: wire::u32_at(s, 174),
        energy_marginal_wh: wire::f32_at(s, 178),
        energy_marginal_clear_wh: wire::f32_at(s, 182),
        energy_marginal_set_ms: wire::u32_at(s, 186),
        energy_marginal_clear_ms: wire::u32_at(s, 190),
        energy_infeasible_set_ms: wire::u32_at(s, 194),
        invalid_input_clear_ms: wire::u32_at(s, 198),
        disarm_hold_ms: wire::u32_at(s, 202),
        v_cruise: wire::f32_at(s, 206),
        p_cruise: wire::f32_at(s, 210),
        k_wind: wire::f32_at(s, 214),
        v_climb: wire::f32_at(s, 218),
        p_climb: wire::f32_at(s, 222),
        v_desc: wire::f32_at(s, 226),
        p_desc: wire::f32_at(s, 230),
        h_rtl: wire::f32_at(s, 234),
        reserve_wh: wire::f32_at(s, 238),
        v_max: wire::f32_at(s, 242),
        keeps_raised: keeps_raised,
    }
}

// Whether a frame is accepted: its head, and its one flag is 0 or 1.
#[tactic(auto, unfolding(crate::specs::ConfigFrame::check_config_frame))]
pub fn check_config_frame(s: &[u8]) -> Result<(), FrameError>
    ensures value { result ≡ check_config_frame s.now }
    ensures len { IfOk result (λ _. length s.now ≡ 246) }
{
    wire::check_frame(s, config_kind(keeps_raised(s)), 244)?;
    if wire::byte_below(s, 9, 2) {
        Ok(())
    } else {
        Err(FrameError::OutOfRange)
    }
}

// The Config of a frame that is accepted.
pub fn config_values(s: &[u8]) -> Config
    ensures { result ≡ config_at s.now (keeps_raised s.now) }
{
    config_at(s, keeps_raised(s))
}

// The Config of a whole frame.
#[tactic(auto, unfolding(crate::specs::ConfigFrame::read_config))]
pub fn read_config(s: &[u8]) -> Result<Config, FrameError>
    ensures { result ≡ read_config s.now }
{
    check_config_frame(s)?;
    Ok(config_values(s))
}

fn put_freshness(s: &mut [u8], c: Config)
    ensures { s.new ≡ sets s.old 4 (bytes_of (freshness_cells c)) }
{
    wire::put_u8(s, 4, c.cell_count);
    wire::put_f32(s, 5, c.usable_capacity_wh);
    wire::put_flag(s, 9, c.rc_required);
    wire::put_u32(s, 10, c.pos_fresh_ms);
    wire::put_u32(s, 14, c.gps_fresh_ms);
    wire::put_u32(s, 18, c.status_fresh_ms);
    wire::put_u32(s, 22, c.battery_fresh_ms);
    wire::put_u32(s, 26, c.recovery_hold_ms);
}

fn put_link(s: &mut [u8], c: Config)
    ensures { s.new ≡ sets s.old 30 (bytes_of (link_cells c)) }
{
    wire::put_u32(s, 30, c.gcs_warn_ms);
    wire::put_u32(s, 34, c.gcs_hold_ms);
    wire::put_u32(s, 38, c.gcs_rtl_ms);
    wire::put_u32(s, 42, c.gcs_clear_ms);
    wire::put_u32(s, 46, c.gcs_clear_hold_ms);
    wire::put_u32(s, 50, c.rc_lost_set_ms);
    wire::put_u32(s, 54, c.rc_lost_clear_ms);
    wire::put_u32(s, 58, c.gps_degraded_set_ms);
    wire::put_u32(s, 62, c.gps_degraded_clear_ms);
    wire::put_u32(s, 66, c.gps_lost_set_ms);
    wire::put_u32(s, 70, c.gps_lost_clear_ms);
    wire::put_u32(s, 74, c.ekf_unhealthy_set_ms);
    wire::put_u32(s, 78, c.ekf_unhealthy_clear_ms);
}

fn put_fence(s: &mut [u8], c: Config)
    ensures { s.new ≡ sets s.old 82 (bytes_of (fence_cells c)) }
{
    wire::put_f32(s, 82, c.fence_approach_m);
    wire::put_f32(s, 86, c.fence_approach_clear_m);
    wire::put_u32(s, 90, c.fence_breach_set_ms);
    wire::put_f32(s, 94, c.fence_breach_clear_m);
    wire::put_u32(s, 98, c.fence_breach_clear_ms);
    wire::put_f32(s, 102, c.alt_max_clear_m);
    wire::put_u32(s, 106, c.alt_max_set_ms);
    wire::put_u32(s, 110, c.alt_max_clear_hold_ms);
    wire::put_f32(s, 114, c.alt_min_home_radius_m);
    wire::put_u32(s, 118, c.alt_min_set_ms);
    wire::put_f32(s, 122, c.alt_min_clear_m);
    wire::put_u32(s, 126, c.alt_min_clear_ms);
}

fn put_battery(s: &mut [u8], c: Config)
    ensures { s.new ≡ sets s.old 130 (bytes_of (battery_cells c)) }
{
    wire::put_u32(s, 130, c.stale_battery_clear_ms);
    wire::put_f32(s, 134, c.battery_warn_pct);
    wire::put_f32(s, 138, c.battery_warn_clear_pct);
    wire::put_u32(s, 142, c.battery_warn_set_ms);
    wire::put_u32(s, 146, c.battery_warn_clear_ms);
    wire::put_f32(s, 150, c.battery_low_pct);
    wire::put_f32(s, 154, c.battery_low_clear_pct);
    wire::put_u32(s, 158, c.battery_low_set_ms);
    wire::put_u32(s, 162, c.battery_low_clear_ms);
    wire::put_f32(s, 166, c.battery_critical_pct);
    wire::put_f32(s, 170, c.battery_critical_v_per_cell);
    wire::put_u32(s, 174, c.battery_critical_set_ms);
}

fn put_energy(s: &mut [u8], c: Config)
    ensures { s.new ≡ sets s.old 178 (bytes_of (energy_cells c)) }
{
    wire::put_f32(s, 178, c.energy_marginal_wh);
    wire::put_f32(s, 182, c.energy_marginal_clear_wh);
    wire::put_u32(s, 186, c.energy_marginal_set_ms);
    wire::put_u32(s, 190, c.energy_marginal_clear_ms);
    wire::put_u32(s, 194, c.energy_infeasible_set_ms);
    wire::put_u32(s, 198, c.invalid_input_clear_ms);
    wire::put_u32(s, 202, c.disarm_hold_ms);
}

fn put_flight(s: &mut [u8], c: Config)
    ensures { s.new ≡ sets s.old 206 (bytes_of (flight_cells c)) }
{
    wire::put_f32(s, 206, c.v_cruise);
    wire::put_f32(s, 210, c.p_cruise);
    wire::put_f32(s, 214, c.k_wind);
    wire::put_f32(s, 218, c.v_climb);
    wire::put_f32(s, 222, c.p_climb);
    wire::put_f32(s, 226, c.v_desc);
    wire::put_f32(s, 230, c.p_desc);
    wire::put_f32(s, 234, c.h_rtl);
    wire::put_f32(s, 238, c.reserve_wh);
    wire::put_f32(s, 242, c.v_max);
}

fn put_config(s: &mut [u8], c: Config)
    ensures { s.new ≡ sets s.old 0 (config_frame c) }
{
    wire::put_head(s, config_kind(c.keeps_raised), 244);
    put_freshness(s, c);
    put_link(s, c);
    put_fence(s, c);
    put_battery(s, c);
    put_energy(s, c);
    put_flight(s, c);
}

// The frame in the first 246 bytes; nothing written where the slice has fewer.
pub fn write_config(s: &mut [u8], c: Config) -> Result<(), FrameError>
    ensures { (result ≡ check_room (config_frame c) s.old) × (s.new ≡ frame_written (config_frame c) s.old) }
{
    if s.len() < 246 {
        return Err(FrameError::NoRoom);
    }
    put_config(s, c);
    Ok(())
}
