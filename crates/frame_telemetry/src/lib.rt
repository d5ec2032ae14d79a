// Kind 3: Telemetry in its frame, read and written.
#![tactic(auto, unfolding(options::specs::Enums::fix_at, options::specs::Enums::landed_at, crate::specs::Checked::sample_valid, crate::specs::Checked::sample_at, crate::specs::Checked::battery_field, crate::specs::Checked::telemetry_fields, crate::specs::TelemetryFrame::read_telemetry, options::specs::Position::vec3_at, options::specs::Options::option_u8_at, options::specs::Options::option_f32_at, wire::specs::Fields::f32_at))]

ghost use Rattle.std.specs.Prelude.{ℕ, Bool, true, refl, List, [], ◌∷◌, ◌≡◌, ◌+◌, ◌*◌, ◌<◌, ◌≤◌, length, Some};
ghost use Rattle.std.proofs.lemmas.List.Edits.{sets};
ghost use Rattle.std.proofs.lemmas.List.{append-nil};
ghost use Rattle.wire.specs.Fields.{u32_at, f32_at, le_flag, le_f32};
ghost use Rattle.options.specs.Enums.{fix_at, le_landed};
ghost use Rattle.options.proofs.Zeros.{zero_below};
ghost use Rattle.wire.specs.Cell.{Cell, bytes_of};
ghost use Rattle.wire.specs.Frame.{check_room, frame_written};
ghost use Rattle.wire.specs.Laid.{laid, Blank};
ghost use Rattle.options.specs.Options.{zeros, le_option_u8, le_option_f32};
ghost use Rattle.options.specs.Position.{vec3_at, position_cells};
ghost use Rattle.frame_telemetry.specs.Readings.{gps_cells, landed_cell, stamped_cells};
ghost use Rattle.frame_telemetry.specs.Checked.{position_field, sample_valid, sample_at, gps_field, in_range, f32_valid, bool_valid, landed_valid, stamped_field, heartbeat_field, battery_field, telemetry_fields};
ghost use Rattle.frame_telemetry.specs.TelemetryFrame.{read_telemetry, battery_cells, status_cells, telemetry_frame};

use options::Field;
use types::{BatteryInputs, GpsSample, LandedState, PositionSample, Stamped, Telemetry, Vec3};
use wire::FrameError;

// The number of four bytes that are all within the slice.
fn word(s: &[u8], at: usize) -> u32
    requires { at + 4 ≤ length s.now }
    ensures { result ≡ u32_at s.now at }
{
    wire::quad(s[at], s[at + 1], s[at + 2], s[at + 3])
}

// The float of these bytes; three of them.
fn real(s: &[u8], at: usize) -> f32
    requires { at + 4 ≤ length s.now }
    ensures { result ≡ f32_at s.now at }
{
    float32::from_bits(word(s, at))
}

fn vec3(s: &[u8], at: usize) -> Vec3
    requires { at + 12 ≤ length s.now }
    ensures { result ≡ vec3_at s.now at }
{
    Vec3 {
        n: real(s, at),
        e: real(s, at + 4),
        d: real(s, at + 8),
    }
}

// Whether `W` words, all within the slice, are 0: the bytes of an absent value.
#[tactic(auto, using(crate::proofs::Checked::zero_word, options::proofs::Zeros::zeros_none))]
fn zero<const W: usize>(s: &[u8], at: usize) -> bool
    requires { at + 4 * W ≤ length s.now }
    ensures { result ≡ zeros s.now at (4 * W) }
{
    let mut zero = true;
    for i in 0..W {
        zero &= word(s, at + 4 * i) == 0;
    }
    zero
}

// The value of a stamped reading: a field that is one cell of `width` bytes, of which `valid` tells those in range.
trait Value: Field {
    ghost width: { ℕ };

    ghost valid: { List ℕ → ℕ → Bool };

    ghost cell: { Self → Cell };

    // The value, or an error where its bytes are out of range.
    fn checked(s: &[u8], at: usize) -> Result<Self, FrameError>
        requires { at + width ≤ length s.now }
        ensures { result ≡ in_range (valid s.now at) (Self.read s.now at) };

    // Whether its bytes are all 0.
    fn blank(s: &[u8], at: usize) -> bool
        requires { at + width ≤ length s.now }
        ensures { result ≡ zeros s.now at width };

    ghost cell_bytes: { (x : Self) → bytes_of (cell x ∷ []) ≡ Self.bytes x };

    ghost zero_valid: { (s : List ℕ) (i : ℕ) → zeros s i width ≡ true → valid s i ≡ true };
}

impl Value for f32 {
    ghost width = { 4 };

    ghost valid = { f32_valid };

    ghost cell = { Cell.f32 };

    fn checked(s: &[u8], at: usize) -> Result<f32, FrameError> {
        Ok(real(s, at))
    }

    fn blank(s: &[u8], at: usize) -> bool {
        zero::<1>(s, at)
    }

    ghost cell_bytes = { λ x. append-nil (le_f32 x) };

    ghost zero_valid = { λ s i h. refl };
}

impl Value for bool {
    ghost width = { 1 };

    ghost valid = { bool_valid };

    ghost cell = { Cell.flag };

    fn checked(s: &[u8], at: usize) -> Result<bool, FrameError> {
        let b = s[at];
        if b < 2 {
            Ok(b == 1)
        } else {
            Err(FrameError::OutOfRange)
        }
    }

    fn blank(s: &[u8], at: usize) -> bool {
        s[at] == 0
    }

    ghost cell_bytes = { λ x. append-nil (le_flag x) };

    ghost zero_valid = { zero_below 1 };
}

impl Value for LandedState {
    ghost width = { 1 };

    ghost valid = { landed_valid };

    ghost cell = { landed_cell };

    fn checked(s: &[u8], at: usize) -> Result<LandedState, FrameError> {
        LandedState::try_from(s[at]).or(Err(FrameError::OutOfRange))
    }

    fn blank(s: &[u8], at: usize) -> bool {
        s[at] == 0
    }

    ghost cell_bytes = { λ x. append-nil (le_landed x) };

    ghost zero_valid = { zero_below 4 };
}

// Each reading is tested and read at once: a frame is refused at the first that is out of range, and no flag is looked at twice.
fn position_field(s: &[u8; 106]) -> Result<Option<PositionSample>, FrameError>
    ensures { result ≡ position_field s.now }
{
    let f = s[8];
    if f == 1 {
        let t_ms = word(s, 9);
        let pos = vec3(s, 13);
        let vel = vec3(s, 25);
        Ok(Some(PositionSample { t_ms, pos, vel }))
    } else if (f == 0) & zero::<7>(s, 9) {
        Ok(None)
    } else {
        Err(FrameError::OutOfRange)
    }
}

// Whether the fix of a sample that is present, and the flags inside it, are in range.
fn sample_valid(s: &[u8; 106]) -> bool
    ensures { result ≡ sample_valid s.now }
{
    let v = wire::byte_below(s, 42, 3);
    let v = v && options::option_valid(s, 43, 1);
    v && options::option_valid(s, 45, 4)
}

fn sample_at(s: &[u8; 106]) -> GpsSample
    ensures { result ≡ sample_at s.now }
{
    GpsSample {
        t_ms: word(s, 38),
        fix: options::fix_at(s, 42),
        sats: options::option_at(s, 43),
        hdop: options::option_at(s, 45),
    }
}

fn gps_field(s: &[u8; 106]) -> Result<Option<GpsSample>, FrameError>
    ensures { result ≡ gps_field s.now }
{
    let f = s[37];
    if f == 1 {
        if sample_valid(s) {
            Ok(Some(sample_at(s)))
        } else {
            Err(FrameError::OutOfRange)
        }
    } else if (f == 0) & zero::<3>(s, 38) {
        Ok(None)
    } else {
        Err(FrameError::OutOfRange)
    }
}

fn stamped_field<T: Value>(s: &[u8], at: usize) -> Result<Option<Stamped<T>>, FrameError>
    requires { at + 5 + T.width ≤ length s.now }
    ensures { result ≡ stamped_field T.read T.valid T.width s.now at }
{
    let f = s[at];
    if f == 1 {
        let value = T::checked(s, at + 5)?;
        let t_ms = word(s, at + 1);
        Ok(Some(Stamped { t_ms, value }))
    } else if (f == 0) & zero::<1>(s, at + 1) & T::blank(s, at + 5) {
        Ok(None)
    } else {
        Err(FrameError::OutOfRange)
    }
}

fn heartbeat_field(s: &[u8; 106]) -> Result<Option<u32>, FrameError>
    ensures { result ≡ heartbeat_field s.now }
{
    let f = s[77];
    if f == 1 {
        Ok(Some(word(s, 78)))
    } else if (f == 0) & zero::<1>(s, 78) {
        Ok(None)
    } else {
        Err(FrameError::OutOfRange)
    }
}

fn battery_field(s: &[u8; 106]) -> Result<BatteryInputs, FrameError>
    ensures { result ≡ battery_field s.now }
{
    Ok(BatteryInputs {
        voltage_v: stamped_field(s, 50)?,
        percent: stamped_field(s, 59)?,
        remaining_wh: stamped_field(s, 68)?,
    })
}

// The Telemetry of a body.
fn telemetry_fields(s: &[u8; 106]) -> Result<Telemetry, FrameError>
    ensures { result ≡ telemetry_fields s.now }
{
    Ok(Telemetry {
        now_ms: word(s, 4),
        position: position_field(s)?,
        gps: gps_field(s)?,
        battery: battery_field(s)?,
        gcs_heartbeat_ms: heartbeat_field(s)?,
        armed: stamped_field(s, 82)?,
        landed: stamped_field(s, 88)?,
        rc_ok: stamped_field(s, 94)?,
        ekf_ok: stamped_field(s, 100)?,
    })
}

// The Telemetry of a whole frame of kind 3.
#[tactic(auto, using(crate::proofs::Checked::by_fields), unfolding(crate::specs::TelemetryFrame::read_telemetry))]
pub fn read_telemetry(s: &[u8]) -> Result<Telemetry, FrameError>
    ensures { result ≡ read_telemetry s.now }
{
    wire::check_frame(s, 3, 104)?;
    telemetry_fields(s.as_array().ok_or(FrameError::WrongLength)?)
}

// Over bytes of 0, as an absent reading leaves them, only what is present is written.
fn put_position(s: &mut [u8], p: PositionSample)
    ensures { s.new ≡ sets s.old 8 (bytes_of (position_cells (Some p))) }
{
    wire::put_u8(s, 8, 1);
    wire::put_u32(s, 9, p.t_ms);
    wire::put_f32(s, 13, p.pos.n);
    wire::put_f32(s, 17, p.pos.e);
    wire::put_f32(s, 21, p.pos.d);
    wire::put_f32(s, 25, p.vel.n);
    wire::put_f32(s, 29, p.vel.e);
    wire::put_f32(s, 33, p.vel.d);
}

fn put_option_position(s: &mut [u8], o: Option<PositionSample>)
    ensures { s.new ≡ sets s.old 8 (bytes_of (position_cells o)) }
{
    wire::put_zeros(s, 8, 29);
    if let Some(p) = o {
        put_position(s, p);
    }
}

fn put_sats(s: &mut [u8], o: Option<u8>)
    ensures { s.new ≡ laid s.old 43 (le_option_u8 o) }
{
    if let Some(n) = o {
        wire::put_u8(s, 43, 1);
        wire::put_u8(s, 44, n);
    }
}

fn put_hdop(s: &mut [u8], o: Option<f32>)
    ensures { s.new ≡ laid s.old 45 (le_option_f32 o) }
{
    if let Some(x) = o {
        wire::put_u8(s, 45, 1);
        wire::put_f32(s, 46, x);
    }
}

fn put_sample(s: &mut [u8], g: GpsSample)
    requires { Blank s.old 37 13 }
    ensures { s.new ≡ sets s.old 37 (bytes_of (gps_cells (Some g))) }
{
    wire::put_u8(s, 37, 1);
    wire::put_u32(s, 38, g.t_ms);
    wire::put_u8(s, 42, u8::from(g.fix));
    put_sats(s, g.sats);
    put_hdop(s, g.hdop);
}

fn put_gps(s: &mut [u8], o: Option<GpsSample>)
    ensures { s.new ≡ sets s.old 37 (bytes_of (gps_cells o)) }
{
    wire::put_zeros(s, 37, 13);
    if let Some(g) = o {
        put_sample(s, g);
    }
}

fn put_stamped<T: Value>(s: &mut [u8], at: usize, o: Option<Stamped<T>>)
    requires { at < 65536 }
    ensures { s.new ≡ sets s.old at (bytes_of (stamped_cells T.cell T.zero o)) }
{
    let r = o.unwrap_or(Stamped {
        t_ms: 0,
        value: T::zero(),
    });
    wire::put_flag(s, at, o.is_some());
    wire::put_u32(s, at + 1, r.t_ms);
    r.value.put(s, at + 5);
}

fn put_battery(s: &mut [u8], b: BatteryInputs)
    ensures { s.new ≡ sets s.old 50 (bytes_of (battery_cells b)) }
{
    put_stamped(s, 50, b.voltage_v);
    put_stamped(s, 59, b.percent);
    put_stamped(s, 68, b.remaining_wh);
}

fn put_status(s: &mut [u8], t: Telemetry)
    ensures { s.new ≡ sets s.old 77 (bytes_of (status_cells t)) }
{
    options::put_option(s, 77, t.gcs_heartbeat_ms);
    put_stamped(s, 82, t.armed);
    put_stamped(s, 88, t.landed);
    put_stamped(s, 94, t.rc_ok);
    put_stamped(s, 100, t.ekf_ok);
}

fn put_telemetry(s: &mut [u8], t: Telemetry)
    ensures { s.new ≡ sets s.old 0 (telemetry_frame t) }
{
    wire::put_head(s, 3, 104);
    wire::put_u32(s, 4, t.now_ms);
    put_option_position(s, t.position);
    put_gps(s, t.gps);
    put_battery(s, t.battery);
    put_status(s, t);
}

// The frame in the first 106 bytes; nothing written where the slice has fewer.
pub fn write_telemetry(s: &mut [u8], t: Telemetry) -> Result<(), FrameError>
    ensures { (result ≡ check_room (telemetry_frame t) s.old) × (s.new ≡ frame_written (telemetry_frame t) s.old) }
{
    if s.len() < 106 {
        return Err(FrameError::NoRoom);
    }
    put_telemetry(s, t);
    Ok(())
}
