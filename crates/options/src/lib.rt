// Values that may be absent and enums, in a frame: tested, read and written. An absent value is all zero bytes.
#![tactic(auto, unfolding(crate::specs::Position::vec3_at, crate::specs::Position::position_at, crate::specs::Enums::action_at, crate::specs::Enums::reason_at, crate::specs::Enums::fix_at, crate::specs::Enums::landed_at, crate::specs::Enums::le_action, crate::specs::Enums::le_reason))]

ghost use Rattle.std.specs.Float.{binary32};
ghost use Rattle.std.specs.Float.Ieee.{of_bits};
ghost use Rattle.std.specs.Prelude.{ℕ, List, false, ◌≡◌, ◌+◌, ◌^◌, ◌<◌, ◌≤◌, length};
ghost use Rattle.std.proofs.lemmas.List.Edits.{sets};
ghost use Rattle.types.specs.declared.LandedState.{LandedState};
ghost use Rattle.wire.specs.Fields.{u8_at, u32_at, f32_at, flag_at, le8, le32, le_f32, le_flag};
ghost use Rattle.options.specs.Enums.{action_at, reason_at, fix_at, landed_at, le_action, le_reason, le_landed};
ghost use Rattle.options.specs.Options.{zeros, valid_option, option_at, le_option};
ghost use Rattle.options.specs.Position.{vec3_at, le_vec3, zero_sample, position_at, le_position};

use types::{Action, GpsFix, LandedState, PositionSample, Reason, Vec3};

// The number of four bytes that are all within the slice.
fn word(s: &[u8], at: usize) -> u32
    requires { at + 4 ≤ length s.now }
    ensures { result ≡ u32_at s.now at }
{
    wire::quad(s[at], s[at + 1], s[at + 2], s[at + 3])
}

// Whether the `n` bytes from `at` on, all within the slice, are 0: four at a time.
fn zero_words(s: &[u8], at: usize, n: usize) -> bool
    requires { at + n ≤ length s.now }
    ensures { result ≡ zeros s.now at n }
{
    let mut zero = true;
    let words = n / 4;
    for i in 0..words {
        zero &= word(s, at + 4 * i) == 0;
    }
    zero & zero_bytes(s, at + 4 * words, n % 4)
}

// The same, a byte at a time.
fn zero_bytes(s: &[u8], at: usize, n: usize) -> bool
    requires { at + n ≤ length s.now }
    ensures { result ≡ zeros s.now at n }
{
    let mut zero = true;
    for i in 0..n {
        zero &= s[at + i] == 0;
    }
    zero
}

// Whether a value of `n` bytes that may be absent is a byte 0 with `n` bytes 0 after it, or a byte 1.
pub fn option_valid(s: &[u8], at: usize, n: usize) -> bool
    ensures { result ≡ valid_option s.now at n }
{
    if at < s.len() {
        let f = s[at];
        if f == 0 {
            zero_words(s, at + 1, n.min(s.len() - (at + 1)))
        } else {
            f == 1
        }
    } else {
        true
    }
}

// A field of a frame that may be absent: how its value is read and written, and the value whose bytes stand where it is absent.
pub trait Field: Copy {
    ghost read: { List ℕ → ℕ → Self };

    ghost bytes: { Self → List ℕ };

    ghost zero: { Self };

    fn read(s: &[u8], at: usize) -> Self
        ensures { result ≡ read s.now at };

    fn put(self, s: &mut [u8], at: usize)
        ensures { s.new ≡ sets s.old at (bytes self) };

    fn zero() -> Self
        ensures { result ≡ zero };
}

impl Field for u8 {
    ghost read = { u8_at };

    ghost bytes = { le8 };

    ghost zero = { 0 };

    fn read(s: &[u8], at: usize) -> u8 {
        wire::u8_at(s, at)
    }

    fn put(self, s: &mut [u8], at: usize) {
        wire::put_u8(s, at, self);
    }

    fn zero() -> u8 {
        0
    }
}

impl Field for u32 {
    ghost read = { u32_at };

    ghost bytes = { le32 };

    ghost zero = { 0 };

    fn read(s: &[u8], at: usize) -> u32 {
        wire::u32_at(s, at)
    }

    fn put(self, s: &mut [u8], at: usize) {
        wire::put_u32(s, at, self);
    }

    fn zero() -> u32 {
        0
    }
}

impl Field for f32 {
    ghost read = { f32_at };

    ghost bytes = { le_f32 };

    ghost zero = { of_bits binary32 0 };

    fn read(s: &[u8], at: usize) -> f32 {
        wire::f32_at(s, at)
    }

    fn put(self, s: &mut [u8], at: usize) {
        wire::put_f32(s, at, self);
    }

    fn zero() -> f32 {
        0.0
    }
}

impl Field for bool {
    ghost read = { flag_at };

    ghost bytes = { le_flag };

    ghost zero = { false };

    fn read(s: &[u8], at: usize) -> bool {
        wire::flag_at(s, at)
    }

    fn put(self, s: &mut [u8], at: usize) {
        wire::put_flag(s, at, self);
    }

    fn zero() -> bool {
        false
    }
}

impl Field for LandedState {
    ghost read = { landed_at };

    ghost bytes = { le_landed };

    ghost zero = { LandedState.Undefined };

    // A byte that is no state's, which is refused before, is read as Undefined.
    fn read(s: &[u8], at: usize) -> LandedState {
        LandedState::try_from(wire::u8_at(s, at)).unwrap_or(LandedState::Undefined)
    }

    fn put(self, s: &mut [u8], at: usize) {
        wire::put_u8(s, at, u8::from(self));
    }

    fn zero() -> LandedState {
        LandedState::Undefined
    }
}

pub fn option_at<T: Field>(s: &[u8], at: usize) -> Option<T>
    ensures { result ≡ option_at T.read s.now at }
{
    if wire::flag_at(s, at) {
        Some(T::read(s, at + 1))
    } else {
        None
    }
}

pub fn put_option<T: Field>(s: &mut [u8], at: usize, o: Option<T>)
    ensures { s.new ≡ sets s.old at (le_option T.bytes T.zero o) }
{
    if at < s.len() {
        wire::put_flag(s, at, o.is_some());
        o.unwrap_or(T::zero()).put(s, at + 1);
    }
}

fn vec3_at(s: &[u8], at: usize) -> Vec3
    requires { at < 2 ^ 63 + 2 ^ 16 }
    ensures { result ≡ vec3_at s.now at }
{
    Vec3 {
        n: wire::f32_at(s, at),
        e: wire::f32_at(s, at + 4),
        d: wire::f32_at(s, at + 8),
    }
}

fn vec3_in(s: &[u8], at: usize) -> Vec3
    requires { at + 12 ≤ length s.now }
    ensures { result ≡ vec3_at s.now at }
{
    Vec3 {
        n: float32::from_bits(word(s, at)),
        e: float32::from_bits(word(s, at + 4)),
        d: float32::from_bits(word(s, at + 8)),
    }
}

fn put_vec3(s: &mut [u8], at: usize, v: Vec3)
    requires { at < 2 ^ 63 + 2 ^ 16 }
    ensures { s.new ≡ sets s.old at (le_vec3 v) }
{
    wire::put_f32(s, at, v.n);
    wire::put_f32(s, at + 4, v.e);
    wire::put_f32(s, at + 8, v.d);
}

fn zero_sample() -> PositionSample
    ensures { result ≡ zero_sample }
{
    let v = Vec3 {
        n: 0.0,
        e: 0.0,
        d: 0.0,
    };
    PositionSample {
        t_ms: 0,
        pos: v,
        vel: v,
    }
}

// A reading whose bytes may reach past the end.
fn position_past(s: &[u8], at: usize) -> PositionSample
    requires { at < 2 ^ 63 }
    ensures { result ≡ position_at s.now at }
{
    PositionSample {
        t_ms: wire::u32_at(s, at),
        pos: vec3_at(s, at + 4),
        vel: vec3_at(s, at + 16),
    }
}

// A reading whose bytes are all within the slice.
fn position_in(s: &[u8], at: usize) -> PositionSample
    requires { at + 28 ≤ length s.now }
    ensures { result ≡ position_at s.now at }
{
    PositionSample {
        t_ms: word(s, at),
        pos: vec3_in(s, at + 4),
        vel: vec3_in(s, at + 16),
    }
}

impl Field for PositionSample {
    ghost read = { position_at };

    ghost bytes = { le_position };

    ghost zero = { zero_sample };

    // Where all 28 bytes are within the slice, they are read with no further test.
    fn read(s: &[u8], at: usize) -> PositionSample {
        if at < s.len() {
            if at + 27 < s.len() {
                position_in(s, at)
            } else {
                position_past(s, at)
            }
        } else {
            zero_sample()
        }
    }

    fn put(self, s: &mut [u8], at: usize) {
        if at < s.len() {
            wire::put_u32(s, at, self.t_ms);
            put_vec3(s, at + 4, self.pos);
            put_vec3(s, at + 16, self.vel);
        }
    }

    fn zero() -> PositionSample {
        zero_sample()
    }
}

// A byte that is no action's, which `byte_below` refuses before, is read as Nominal.
pub fn action_at(s: &[u8], at: usize) -> Action
    ensures { result ≡ action_at s.now at }
{
    Action::try_from(wire::u8_at(s, at)).unwrap_or(Action::Nominal)
}

pub fn put_action(s: &mut [u8], at: usize, a: Action)
    ensures { s.new ≡ sets s.old at (le_action a) }
{
    wire::put_u8(s, at, a.rank());
}

// A byte that is no reason's, which `byte_below` refuses before, is read as None.
pub fn reason_at(s: &[u8], at: usize) -> Reason
    ensures { result ≡ reason_at s.now at }
{
    Reason::try_from(wire::u8_at(s, at)).unwrap_or(Reason::None)
}

pub fn put_reason(s: &mut [u8], at: usize, r: Reason)
    ensures { s.new ≡ sets s.old at (le_reason r) }
{
    wire::put_u8(s, at, r.index() as u8);
}

// A byte that is no fix's, which `byte_below` refuses before, is read as None.
pub fn fix_at(s: &[u8], at: usize) -> GpsFix
    ensures { result ≡ fix_at s.now at }
{
    GpsFix::try_from(wire::u8_at(s, at)).unwrap_or(GpsFix::None)
}
