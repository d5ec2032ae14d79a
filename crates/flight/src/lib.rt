// Configuration and fence of a flight: read, and accepted or refused, in document 01's order.
#![tactic(auto, using(crate::proofs::Read::home_by_lengths), unfolding(crate::specs::Flight::accept_flight, crate::specs::Flight::blank_flight, crate::specs::Flight::step_flight, config::specs::Config::validate_config))]

ghost use Rattle.std.specs.Prelude.{◌≡◌};
ghost use Rattle.std.specs.Float.Ieee.{le};
ghost use Rattle.float32.specs.Binary32.{zero_f};
ghost use Rattle.config.specs.Config.{home};
ghost use Rattle.geometry.specs.Distance.{ring_of, side_lengths, nearest_by};
ghost use Rattle.frame_config.specs.ConfigFrame.{keeps_raised, config_at};
ghost use Rattle.flight.specs.Flight.{flight_error_number, flight_of, settings_checked, accept_flight, blank_flight, step_flight};

use config::{Config, ConfigError};
use corners::FenceError;
use frame_fence::FenceRead;
use geometry::{ConvexPolygon, Geofence, SideLengths};
use supervisor::{Stepped, Supervisor};
use types::{Point2, Telemetry};
use wire::FrameError;

// A configuration and a fence that were accepted, with the lengths of the fence's sides.
#[derive(Clone, Copy)]
pub struct Flight {
    pub cfg: Config,
    pub fence: Geofence,
    pub lengths: SideLengths,
}

// Why configuration and fence make no flight.
#[derive(Clone, Copy)]
pub enum FlightError {
    Frame(FrameError),
    Fence(FenceError),
    Config(ConfigError),
}

impl FlightError {
    // The number of the refusal: what a C host is answered.
    pub fn number(self) -> u16
        ensures { result ≡ flight_error_number self }
    {
        match self {
            FlightError::Frame(e) => e.number(),
            FlightError::Fence(e) => e.number(),
            FlightError::Config(e) => e.number(),
        }
    }
}

impl From<FrameError> for FlightError {
    ghost use Rattle.flight.specs.declared.FlightError.{FlightError};

    ghost from_gives = { λ e r. r ≡ FlightError.Frame e };

    fn from(e: FrameError) -> FlightError {
        FlightError::Frame(e)
    }
}

impl From<FenceError> for FlightError {
    ghost use Rattle.flight.specs.declared.FlightError.{FlightError};

    ghost from_gives = { λ e r. r ≡ FlightError.Fence e };

    fn from(e: FenceError) -> FlightError {
        FlightError::Fence(e)
    }
}

impl From<ConfigError> for FlightError {
    ghost use Rattle.flight.specs.declared.FlightError.{FlightError};

    ghost from_gives = { λ e r. r ≡ FlightError.Config e };

    fn from(e: ConfigError) -> FlightError {
        FlightError::Config(e)
    }
}

// Default settings and no corners: it stands where no flight was read yet, and is not flown.
impl Default for Flight {
    fn default() -> Flight
        ensures { result ≡ blank_flight }
    {
        Flight {
            cfg: Config::default(),
            fence: Geofence {
                poly: ConvexPolygon {
                    verts: [Point2 { n: 0.0, e: 0.0 }; 16],
                    len: 0,
                },
                max_alt_m: 0.0,
                min_alt_m: 0.0,
            },
            lengths: SideLengths { m: [0.0; 16] },
        }
    }
}

// The configuration rules, with the lengths that the steps use.
fn home_inside(fence: &Geofence, lengths: &SideLengths) -> bool
    ensures { result ≡ le zero_f (nearest_by (ring_of fence.now.poly) lengths.now.m home).m }
{
    let home = Point2 { n: 0.0, e: 0.0 };
    fence.poly.nearest_by(lengths, home).m >= 0.0
}

// The fence rules, then the configuration rules. Home is tested with the lengths that the steps use.
pub fn accept_flight(cfg: &Config, read: &FenceRead) -> Result<Flight, FlightError>
    ensures { result ≡ accept_flight cfg.now read.now }
{
    let fence = frame_fence::fence_of(read)?;
    let lengths = fence.poly.side_lengths();
    let inside = home_inside(&fence, &lengths);
    config::check_config(*cfg, inside, fence.min_alt_m, fence.max_alt_m)?;
    Ok(Flight {
        cfg: *cfg,
        fence,
        lengths,
    })
}

// The same of a configuration in its frame. Its values are read last: before, the roots of the fence would push them out of the registers.
pub fn accept_frame(config: &[u8], sent: &FenceRead) -> Result<Flight, FlightError>
    ensures { result ≡ accept_flight (config_at config.now (keeps_raised config.now)) sent.now }
{
    let fence = frame_fence::fence_of(sent)?;
    let lengths = fence.poly.side_lengths();
    let inside = home_inside(&fence, &lengths);
    let cfg = frame_config::config_values(config);
    config::check_config(cfg, inside, fence.min_alt_m, fence.max_alt_m)?;
    Ok(Flight {
        cfg,
        fence,
        lengths,
    })
}

// One step of an accepted flight, with the frame of the keep-out areas.
pub fn step_flight(flight: &Flight, areas: &[u8], s: &Supervisor, t: &Telemetry) -> Stepped
    ensures { result ≡ step_flight flight.now areas.now s.now t.now }
{
    s.step_by(&flight.cfg, &flight.fence, &flight.lengths, areas, t)
}
