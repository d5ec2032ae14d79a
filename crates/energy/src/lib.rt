// The Rust's energy.rs: what a return to launch and a landing cost.
#![tactic(auto, unfolding(crate::specs::Energy::rtl_wh, crate::specs::Energy::land_wh, crate::specs::Energy::rtl_energy_at, crate::specs::Energy::rtl_energy))]

ghost use Rattle.std.specs.Prelude.{◌≡◌};
ghost use Rattle.types.specs.Vec3.{alt_m};
ghost use Rattle.energy.specs.Energy.{margin_of, insufficient_of, rtl_wh, land_wh, rtl_energy_at, rtl_energy};

use config::Config;
use types::{EnergyEstimate, Vec3};

// Climb to h_rtl, cruise home, descend, at the horizontal distance d and the height h.
fn rtl_wh(cfg: Config, d: f32, h: f32) -> f32
    ensures { result ≡ rtl_wh cfg d h }
{
    let climb_m = float32::fmaxf(0.0, cfg.h_rtl - h);
    let e_climb_j = (climb_m / cfg.v_climb) * cfg.p_climb;
    let e_cruise_j = (d / cfg.v_cruise) * cfg.p_cruise * cfg.k_wind;
    let descent_m = float32::fmaxf(h, cfg.h_rtl);
    let e_desc_j = (descent_m / cfg.v_desc) * cfg.p_desc;
    (e_climb_j + e_cruise_j + e_desc_j) / 3600.0
}

fn land_wh(cfg: Config, h: f32) -> f32
    ensures { result ≡ land_wh cfg h }
{
    (h / cfg.v_desc) * cfg.p_desc / 3600.0
}

fn margin_of(remaining_wh: Option<f32>, rtl_wh: f32, reserve_wh: f32) -> Option<f32>
    ensures { result ≡ margin_of remaining_wh rtl_wh reserve_wh }
{
    remaining_wh.map(|r| r - rtl_wh - reserve_wh)
}

fn insufficient_of(remaining_wh: Option<f32>, land_wh: f32) -> bool
    ensures { result ≡ insufficient_of remaining_wh land_wh }
{
    remaining_wh.is_some_and(|r| r < land_wh)
}

// For a caller that has the horizontal distance home already: it is a root, and is taken once.
pub fn rtl_energy_by(cfg: Config, pos: Vec3, d: f32, remaining_wh: Option<f32>) -> EnergyEstimate
    ensures { result ≡ rtl_energy_at cfg d (alt_m pos) remaining_wh }
{
    let h = pos.alt_m();
    let rtl = rtl_wh(cfg, d, h);
    let land = land_wh(cfg, h);
    let margin = margin_of(remaining_wh, rtl, cfg.reserve_wh);
    let insufficient = insufficient_of(remaining_wh, land);
    EnergyEstimate {
        rtl_wh: rtl,
        land_wh: land,
        reserve_wh: cfg.reserve_wh,
        remaining_wh,
        margin_wh: margin,
        insufficient_for_landing: insufficient,
    }
}

pub fn rtl_energy(cfg: Config, pos: Vec3, remaining_wh: Option<f32>) -> EnergyEstimate
    ensures { result ≡ rtl_energy cfg pos remaining_wh }
{
    let d = pos.horizontal_dist_home();
    rtl_energy_by(cfg, pos, d, remaining_wh)
}
