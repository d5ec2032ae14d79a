// Fields of a frame: little-endian numbers, flags and floats, and the frame's head. Reading past the end of a slice finds
// bytes of 0; writing changes only what lies within the slice.
#![tactic(auto)]

ghost use Rattle.std.specs.Prelude.{◌≡◌, ◌+◌, ◌*◌, ◌≤◌, length, replicate};
ghost use Rattle.std.specs.Result.{is_ok, IfOk};
ghost use Rattle.std.proofs.lemmas.List.Edits.{sets};
ghost use Rattle.wire.specs.Fields.{u8_at, u16_at, u32_at, f32_at, flag_at, byte_below, le8, le16, le32, le_f32, le_flag};
ghost use Rattle.wire.specs.Frame.{whole_frame, frame_error_number, frame_number, check_frame, frame_head};

// The number of two bytes, the lowest first; of four; of two halves.
fn pair(a: u8, b: u8) -> u16
    ensures { result ≡ a + 256 * b }
{
    (a as u16) + 256 * (b as u16)
}

pub fn quad(a: u8, b: u8, c: u8, d: u8) -> u32
    ensures { result ≡ a + 256 * b + 65536 * c + 16777216 * d }
{
    (a as u32) + 256 * (b as u32) + 65536 * (c as u32) + 16777216 * (d as u32)
}

fn halves(a: u16, b: u16) -> u32
    ensures { result ≡ a + 65536 * b }
{
    (a as u32) + 65536 * (b as u32)
}

// Reading. Each width has a body of its own; where one function serves several types, `options::Field` is the trait over these.
pub fn u8_at(s: &[u8], at: usize) -> u8
    ensures { result ≡ u8_at s.now at }
{
    if at < s.len() { s[at] } else { 0 }
}

pub fn u16_at(s: &[u8], at: usize) -> u16
    ensures { result ≡ u16_at s.now at }
{
    if at < s.len() {
        pair(s[at], u8_at(s, at + 1))
    } else {
        0
    }
}

// Where all four bytes are within the slice, they are read with no further test.
pub fn u32_at(s: &[u8], at: usize) -> u32
    ensures { result ≡ u32_at s.now at }
{
    if at < s.len() {
        if at + 3 < s.len() {
            quad(s[at], s[at + 1], s[at + 2], s[at + 3])
        } else {
            halves(u16_at(s, at), u16_at(s, at + 2))
        }
    } else {
        0
    }
}

// Whether the byte at `at` is 1.
pub fn flag_at(s: &[u8], at: usize) -> bool
    ensures { result ≡ flag_at s.now at }
{
    u8_at(s, at) == 1
}

// Whether the byte at `at` is below `k`.
pub fn byte_below(s: &[u8], at: usize, k: u8) -> bool
    ensures { result ≡ byte_below s.now at k }
{
    u8_at(s, at) < k
}

pub fn f32_at(s: &[u8], at: usize) -> f32
    ensures { result ≡ f32_at s.now at }
{
    float32::from_bits(u32_at(s, at))
}

// Writing, width by width like the reading.
pub fn put_u8(s: &mut [u8], at: usize, b: u8)
    ensures { s.new ≡ sets s.old at (le8 b) }
{
    if at < s.len() {
        s[at] = b;
    }
}

pub fn put_u16(s: &mut [u8], at: usize, n: u16)
    ensures { s.new ≡ sets s.old at (le16 n) }
{
    if at < s.len() {
        s[at] = (n % 256) as u8;
        put_u8(s, at + 1, (n / 256 % 256) as u8);
    }
}

// Where all four bytes are within the slice, they are written with no further test.
pub fn put_u32(s: &mut [u8], at: usize, n: u32)
    ensures { s.new ≡ sets s.old at (le32 n) }
{
    if at < s.len() {
        if at + 3 < s.len() {
            s[at] = (n % 256) as u8;
            s[at + 1] = (n / 256 % 256) as u8;
            s[at + 2] = (n / 65536 % 256) as u8;
            s[at + 3] = (n / 16777216 % 256) as u8;
        } else {
            put_u16(s, at, (n % 65536) as u16);
            put_u16(s, at + 2, (n / 65536) as u16);
        }
    }
}

// A NaN is written as 7FC00000.
pub fn put_f32(s: &mut [u8], at: usize, x: f32)
    ensures { s.new ≡ sets s.old at (le_f32 x) }
{
    put_u32(s, at, float32::to_bits(x));
}

pub fn put_flag(s: &mut [u8], at: usize, b: bool)
    ensures { s.new ≡ sets s.old at (le_flag b) }
{
    if b {
        put_u8(s, at, 1);
    } else {
        put_u8(s, at, 0);
    }
}

// `n` bytes of 0.
pub fn put_zeros(s: &mut [u8], at: usize, n: usize)
    ensures { s.new ≡ sets s.old at (replicate n 0) }
{
    if at < s.len() {
        for i in 0..n.min(s.len() - at) {
            s[at + i] = 0;
        }
    }
}

// What is wrong with a frame, or with the room for one.
#[derive(Clone, Copy)]
pub enum FrameError {
    Incomplete = 1,
    WrongKind = 2,
    WrongLength = 3,
    OutOfRange = 4,
    NoRoom = 5,
}

impl FrameError {
    // The number of the refusal: what a C host is answered.
    pub fn number(self) -> u16
        ensures { result ≡ frame_error_number self }
    {
        self as u16
    }
}

// What a C entry answers: 0, or the number of the refusal.
pub fn number_of(r: Result<(), FrameError>) -> u32
    ensures { result ≡ frame_number r }
{
    r.map_or_else(|e| u32::from(e.number()), |()| 0)
}

// Whether a frame's head earns no refusal, by the fewest tests.
fn head_fits(s: &[u8], kind: u16, len: u16) -> bool
    ensures { result ≡ is_ok (check_frame kind len s.now) }
{
    if s.len() == 2 + usize::from(len) {
        if u32_at(s, 0) == halves(len, kind) {
            return 1 < len;
        }
    }
    false
}

// The refusal that a frame's head earns: `kind` is due, and `len` bytes of kind and body.
#[tactic(auto, unfolding(crate::specs::Frame::check_frame))]
fn head_error(s: &[u8], kind: u16, len: u16) -> Result<(), FrameError>
    ensures { result ≡ check_frame kind len s.now }
{
    if s.len() < 2 {
        return Err(FrameError::Incomplete);
    }
    let n = u16_at(s, 0);
    if s.len() < 2 + usize::from(n) {
        return Err(FrameError::Incomplete);
    }
    if n < 2 {
        return Err(FrameError::WrongLength);
    }
    if u16_at(s, 2) != kind {
        return Err(FrameError::WrongKind);
    }
    if (n == len) & (s.len() == 2 + usize::from(len)) {
        Ok(())
    } else {
        Err(FrameError::WrongLength)
    }
}

// A frame's head: `kind` is due, and `len` bytes of kind and body.
#[tactic(auto, using(crate::proofs::Head::accepted_length))]
pub fn check_frame(s: &[u8], kind: u16, len: u16) -> Result<(), FrameError>
    ensures value { result ≡ check_frame kind len s.now }
    ensures len { IfOk result (λ _. length s.now ≡ 2 + len) }
{
    if head_fits(s, kind, len) {
        Ok(())
    } else {
        head_error(s, kind, len)
    }
}

// The bytes of the whole frame at the start of s; 0 where there is none yet.
#[tactic(auto, unfolding(crate::specs::Frame::whole_frame))]
pub fn whole_frame(s: &[u8]) -> usize
    ensures value { result ≡ whole_frame s.now }
    ensures upper_bound { result ≤ length s.now }
{
    if s.len() < 2 {
        return 0;
    }
    let n = u16_at(s, 0);
    let bytes = 2 + usize::from(n);
    if s.len() < bytes { 0 } else { bytes }
}

pub fn put_head(s: &mut [u8], kind: u16, len: u16)
    ensures { s.new ≡ sets s.old 0 (frame_head kind len) }
{
    put_u16(s, 0, len);
    put_u16(s, 2, kind);
}
