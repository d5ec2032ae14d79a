// The reader of kind 3 frames once more, with the same answer: tests first, then the values. `frame_telemetry::read_telemetry` is compiled into the
// step as long as nothing else of the library calls it, so whoever reads such a frame beside a step calls this one.
#![tactic(auto, unfolding(frame_telemetry::specs::Readings::option_gps_at, frame_telemetry::specs::Readings::stamped_f32_at, frame_telemetry::specs::Readings::stamped_bool_at, frame_telemetry::specs::Readings::stamped_landed_at, options::specs::Options::option_u8_at, options::specs::Options::option_u32_at, options::specs::Options::option_f32_at, options::specs::Position::vec3_at, options::specs::Position::option_position_at, frame_telemetry::specs::TelemetryFrame::telemetry_at, frame_telemetry::specs::TelemetryFrame::telemetry_tests, frame_telemetry::specs::TelemetryFrame::telemetry_valid, frame_telemetry::specs::TelemetryFrame::read_telemetry))]

ghost use Rattle.std.specs.Prelude.{◌≡◌, ◌<◌};
ghost use Rattle.options.specs.Position.{option_position_at};
ghost use Rattle.frame_telemetry.specs.Readings.{option_gps_at, stamped_at};
ghost use Rattle.frame_telemetry.specs.TelemetryFrame.{telemetry_at, telemetry_valid, read_telemetry};

use options::Field;
use types::{BatteryInputs, GpsSample, PositionSample, Stamped, Telemetry, Vec3};
use wire::FrameError;

fn option_gps_at(s: &[u8], at: usize) -> Option<GpsSample>
    requires { at < 65536 }
    ensures { result ≡ option_gps_at s.now at }
{
    if wire::flag_at(s, at) {
        let t_ms = wire::u32_at(s, at + 1);
        let fix = options::fix_at(s, at + 5);
        let sats = options::option_at(s, at + 6);
        let hdop = options::option_at(s, at + 8);
        Some(GpsSample {
            t_ms,
            fix,
            sats,
            hdop,
        })
    } else {
        None
    }
}

fn stamped_at<T: Field>(s: &[u8], at: usize) -> Option<Stamped<T>>
    requires { at < 65536 }
    ensures { result ≡ stamped_at T.read s.now at }
{
    if wire::flag_at(s, at) {
        Some(Stamped {
            t_ms: wire::u32_at(s, at + 1),
            value: T::read(s, at + 5),
        })
    } else {
        None
    }
}

fn position_at(s: &[u8]) -> Option<PositionSample>
    ensures { result ≡ option_position_at s.now 8 }
{
    if wire::flag_at(s, 8) {
        let t_ms = wire::u32_at(s, 9);
        let pos = Vec3 {
            n: wire::f32_at(s, 13),
            e: wire::f32_at(s, 17),
            d: wire::f32_at(s, 21),
        };
        let vel = Vec3 {
            n: wire::f32_at(s, 25),
            e: wire::f32_at(s, 29),
            d: wire::f32_at(s, 33),
        };
        Some(PositionSample { t_ms, pos, vel })
    } else {
        None
    }
}

fn telemetry_at(s: &[u8]) -> Telemetry
    ensures { result ≡ telemetry_at s.now }
{
    Telemetry {
        now_ms: wire::u32_at(s, 4),
        position: position_at(s),
        gps: option_gps_at(s, 37),
        battery: BatteryInputs {
            voltage_v: stamped_at(s, 50),
            percent: stamped_at(s, 59),
            remaining_wh: stamped_at(s, 68),
        },
        gcs_heartbeat_ms: options::option_at(s, 77),
        armed: stamped_at(s, 82),
        landed: stamped_at(s, 88),
        rc_ok: stamped_at(s, 94),
        ekf_ok: stamped_at(s, 100),
    }
}

// Whether each flag and enum byte is in range and each absent value zero.
fn telemetry_valid(s: &[u8]) -> bool
    ensures { result ≡ telemetry_valid s.now }
{
    let valid = options::option_valid(s, 8, 28)
        && options::option_valid(s, 37, 12)
        && wire::byte_below(s, 42, 3)
        && options::option_valid(s, 43, 1)
        && options::option_valid(s, 45, 4)
        && options::option_valid(s, 50, 8)
        && options::option_valid(s, 59, 8)
        && options::option_valid(s, 68, 8)
        && options::option_valid(s, 77, 4)
        && options::option_valid(s, 82, 5)
        && wire::byte_below(s, 87, 2)
        && options::option_valid(s, 88, 5)
        && wire::byte_below(s, 93, 5)
        && options::option_valid(s, 94, 5)
        && wire::byte_below(s, 99, 2)
        && options::option_valid(s, 100, 5);
    valid & wire::byte_below(s, 105, 2)
}

// The Telemetry of a whole frame of kind 3.
pub fn read_telemetry(s: &[u8]) -> Result<Telemetry, FrameError>
    ensures { result ≡ read_telemetry s.now }
{
    wire::check_frame(s, 3, 104)?;
    if telemetry_valid(s) {
        Ok(telemetry_at(s))
    } else {
        Err(FrameError::OutOfRange)
    }
}
