// A test load that everyone can make: telemetry frames from a seed, one a call.
#![tactic(auto, unfolding(crate::specs::Draws::next, crate::specs::Draws::stamp_of, crate::specs::Draws::flag_of, crate::specs::Draws::case_of, crate::specs::Draws::fix_of, crate::specs::Draws::landed_of, crate::specs::Draws::byte_of, crate::specs::Draws::float_of, crate::specs::Trial::vec3_of, crate::specs::Trial::position_of, crate::specs::Trial::sats_of, crate::specs::Trial::hdop_of, crate::specs::Trial::gps_of, crate::specs::Trial::battery_of, crate::specs::Trial::heartbeat_of, crate::specs::Trial::telemetry_of, crate::specs::Trial::now_of, crate::specs::Trial::fields_from, crate::specs::Trial::next_frame, crate::specs::Call::generator_at, crate::specs::Call::read_generator, crate::specs::Call::trial_call, crate::specs::Call::room_for, crate::specs::Decimal::with_digit, crate::specs::Decimal::read_decimal))]

ghost use Rattle.std.specs.Prelude.{◌≡◌, ◌+◌, ◌*◌, ◌≤◌, ◌++◌, length, take, drop};
ghost use Rattle.std.proofs.lemmas.List.Edits.{sets};
ghost use Rattle.wire.specs.Frame.{frame_number};
ghost use Rattle.trial.specs.Draws.{next, draws_of, stamp_of, flag_of, fix_of, landed_of, byte_of, float_of};
ghost use Rattle.trial.specs.Trial.{stamped_of, vec3_of, position_of, sats_of, hdop_of, gps_of, battery_of, heartbeat_of, telemetry_of, now_of, fields_from, next_frame};
ghost use Rattle.trial.specs.Call.{generator_at, generator_bytes, read_generator, trial_call, first_of, onward, frames_of, room_for};
ghost use Rattle.trial.specs.Decimal.{with_digit, read_decimal};
ghost use Rattle.frame_telemetry.specs.TelemetryFrame.{telemetry_frame};

use types::{
    BatteryInputs, GpsFix, GpsSample, LandedState, PositionSample, Stamped, Telemetry, Vec3,
};
use wire::FrameError;

// `begun`: whether a frame was made.
#[derive(Clone, Copy)]
pub struct Generator {
    pub x: u32,
    pub now_ms: u32,
    pub begun: bool,
}

// A frame's Telemetry, and the generator after it.
#[derive(Clone, Copy)]
pub struct NextFrame {
    pub telemetry: Telemetry,
    pub generator: Generator,
}

// ---- draws

pub fn next(x: u32) -> u32
    ensures { result ≡ next x }
{
    ((u64::from(x) * 1664525 + 1013904223) % 4294967296) as u32
}

// The draws of a frame's fields but now_ms.
fn draws(x: u32) -> [u32; 38]
    ensures { result ≡ draws_of 38 x }
{
    let mut d = [0; 38];
    let mut y = x;
    for i in 0..38 {
        y = next(y);
        d[i] = y;
    }
    d
}

fn stamp_of(now_ms: u32, draw: u32) -> u32
    ensures { result ≡ stamp_of now_ms draw }
{
    now_ms.wrapping_sub(draw / 1048576)
}

fn flag_of(draw: u32) -> bool
    ensures { result ≡ flag_of draw }
{
    draw / 2147483648 == 1
}

// The two enums have a draw each: one function over both would need laws for `TryFrom<u8>`, and no fewer lines.
fn fix_of(draw: u32) -> GpsFix
    ensures { result ≡ fix_of draw }
{
    GpsFix::try_from((draw / 65536 % 3) as u8).unwrap_or(GpsFix::None)
}

fn landed_of(draw: u32) -> LandedState
    ensures { result ≡ landed_of draw }
{
    LandedState::try_from((draw / 65536 % 5) as u8).unwrap_or(LandedState::Undefined)
}

fn byte_of(draw: u32) -> u8
    ensures { result ≡ byte_of draw }
{
    (draw / 16777216) as u8
}

fn float_of(draw: u32) -> f32
    ensures { result ≡ float_of draw }
{
    ((draw / 65536) as f32 - 32768.0) / 8.0
}

// ---- readings, from the draws by the number of their fields

fn vec3_of(d: &[u32; 38], at: usize) -> Vec3
    requires { at + 3 ≤ 38 }
    ensures { result ≡ vec3_of d.now at }
{
    Vec3 {
        n: float_of(d[at]),
        e: float_of(d[at + 1]),
        d: float_of(d[at + 2]),
    }
}

// The readings differ in their records; what they share is `stamp_of` and `then_some`.
fn position_of(now_ms: u32, d: &[u32; 38]) -> Option<PositionSample>
    ensures { result ≡ position_of now_ms d.now }
{
    let sample = PositionSample {
        t_ms: stamp_of(now_ms, d[1]),
        pos: vec3_of(d, 2),
        vel: vec3_of(d, 5),
    };
    flag_of(d[0]).then_some(sample)
}

fn sats_of(d: &[u32; 38]) -> Option<u8>
    ensures { result ≡ sats_of d.now }
{
    flag_of(d[11]).then_some(byte_of(d[12]))
}

fn hdop_of(d: &[u32; 38]) -> Option<f32>
    ensures { result ≡ hdop_of d.now }
{
    flag_of(d[13]).then_some(float_of(d[14]))
}

fn gps_of(now_ms: u32, d: &[u32; 38]) -> Option<GpsSample>
    ensures { result ≡ gps_of now_ms d.now }
{
    let sample = GpsSample {
        t_ms: stamp_of(now_ms, d[9]),
        fix: fix_of(d[10]),
        sats: sats_of(d),
        hdop: hdop_of(d),
    };
    flag_of(d[8]).then_some(sample)
}

// A reading of one value, from the draws of its flag and of its stamp.
fn stamped_of<T: Copy>(now_ms: u32, d: &[u32; 38], at: usize, value: T) -> Option<Stamped<T>>
    requires { at + 2 ≤ 38 }
    ensures { result ≡ stamped_of now_ms d.now at value }
{
    let t_ms = stamp_of(now_ms, d[at + 1]);
    flag_of(d[at]).then_some(Stamped { t_ms, value })
}

fn battery_of(now_ms: u32, d: &[u32; 38]) -> BatteryInputs
    ensures { result ≡ battery_of now_ms d.now }
{
    BatteryInputs {
        voltage_v: stamped_of(now_ms, d, 15, float_of(d[17])),
        percent: stamped_of(now_ms, d, 18, float_of(d[20])),
        remaining_wh: stamped_of(now_ms, d, 21, float_of(d[23])),
    }
}

fn heartbeat_of(now_ms: u32, d: &[u32; 38]) -> Option<u32>
    ensures { result ≡ heartbeat_of now_ms d.now }
{
    flag_of(d[24]).then_some(stamp_of(now_ms, d[25]))
}

fn telemetry_of(now_ms: u32, d: &[u32; 38]) -> Telemetry
    ensures { result ≡ telemetry_of now_ms d.now }
{
    Telemetry {
        now_ms,
        position: position_of(now_ms, d),
        gps: gps_of(now_ms, d),
        battery: battery_of(now_ms, d),
        gcs_heartbeat_ms: heartbeat_of(now_ms, d),
        armed: stamped_of(now_ms, d, 26, flag_of(d[28])),
        landed: stamped_of(now_ms, d, 29, landed_of(d[31])),
        rc_ok: stamped_of(now_ms, d, 32, flag_of(d[34])),
        ekf_ok: stamped_of(now_ms, d, 35, flag_of(d[37])),
    }
}

// ---- frames

fn now_of(g: Generator) -> u32
    ensures { result ≡ now_of g }
{
    if g.begun {
        g.now_ms.wrapping_add(next(g.x) / 4194304)
    } else {
        0
    }
}

fn fields_from(g: Generator) -> u32
    ensures { result ≡ fields_from g }
{
    if g.begun { next(g.x) } else { g.x }
}

// The next frame's Telemetry, and the generator after it.
pub fn next_frame(g: Generator) -> NextFrame
    ensures { result ≡ next_frame g }
{
    let now_ms = now_of(g);
    let d = draws(fields_from(g));
    NextFrame {
        telemetry: telemetry_of(now_ms, &d),
        generator: Generator {
            x: d[37],
            now_ms,
            begun: true,
        },
    }
}

// The generator of any bytes; `read_generator` tells which are accepted.
pub fn generator_at(s: &[u8]) -> Generator
    ensures { result ≡ generator_at s.now }
{
    Generator {
        x: wire::u32_at(s, 0),
        now_ms: wire::u32_at(s, 4),
        begun: wire::flag_at(s, 8),
    }
}

pub fn read_generator(s: &[u8]) -> Result<Generator, FrameError>
    ensures { result ≡ read_generator s.now }
{
    if s.len() < 9 {
        return Err(FrameError::Incomplete);
    }
    if s.len() > 9 {
        return Err(FrameError::WrongLength);
    }
    if !wire::byte_below(s, 8, 2) {
        return Err(FrameError::OutOfRange);
    }
    Ok(generator_at(s))
}

fn put_generator(s: &mut [u8], g: Generator)
    ensures { s.new ≡ sets s.old 0 (generator_bytes g) }
{
    wire::put_u32(s, 0, g.x);
    wire::put_u32(s, 4, g.now_ms);
    wire::put_flag(s, 8, g.begun);
}

// The next frame in the first 106 bytes of the output, or a refusal with nothing drawn or written.
pub fn trial(generator: &mut [u8], output: &mut [u8]) -> Result<(), FrameError>
    ensures value { frame_number result ≡ (trial_call generator.old output.old).number }
    ensures generator_after { generator.new ≡ (trial_call generator.old output.old).generator }
    ensures output_after { output.new ≡ (trial_call generator.old output.old).output }
{
    let g = read_generator(generator)?;
    if output.len() < 106 {
        return Err(FrameError::NoRoom);
    }
    let next = next_frame(g);
    put_generator(generator, next.generator);
    frame_telemetry::write_telemetry(output, next.telemetry)
}

// ---- frames in a row

pub fn seeded(seed: u32) -> Generator
    ensures { result ≡ first_of seed }
{
    Generator {
        x: seed,
        now_ms: 0,
        begun: false,
    }
}

// The next frame at a place of the block, and the generator after it.
fn put_next(g: Generator, block: &mut [u8], at: usize) -> Generator
    requires { at + 106 ≤ length block.old }
    ensures value { result ≡ (next_frame g).generator }
    ensures block_after { block.new ≡ take at block.old ++ (telemetry_frame (next_frame g).telemetry ++ drop (at + 106) block.old) }
{
    let next = next_frame(g);
    // the block has room
    let _ = frame_telemetry::write_telemetry(&mut block[at..], next.telemetry);
    next.generator
}

// `count` frames from the start of the block on, or as many as it has room for, and the generator after them.
pub fn fill(g: Generator, count: usize, block: &mut [u8]) -> Generator
    ensures value { result ≡ onward (room_for count block.old) g }
    ensures block_after { block.new ≡ frames_of (room_for count block.old) g ++ drop (106 * room_for count block.old) block.old }
{
    let n = count.min(block.len() / 106);
    let mut after = g;
    for i in 0..n {
        after = put_next(after, block, 106 * i);
    }
    after
}

// ---- arguments of the program `trials`

fn with_digit(n: u32, c: u8) -> Option<u32>
    ensures { result ≡ with_digit n c }
{
    if !c.is_ascii_digit() {
        return None;
    }
    n.checked_mul(10)?.checked_add(u32::from(c - b'0'))
}

// A decimal number below 2^32, of digits alone.
pub fn read_decimal(s: &[u8]) -> Option<u32>
    ensures { result ≡ read_decimal s.now }
{
    if s.is_empty() {
        return None;
    }
    let mut n = 0;
    for c in s {
        n = with_digit(n, *c)?;
    }
    Some(n)
}
