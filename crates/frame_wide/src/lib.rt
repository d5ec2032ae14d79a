// Kinds 9 and 10: frames of kinds 3 and 5 with each instant in eight bytes.
#![tactic(auto)]

ghost use Rattle.std.specs.Prelude.{◌≡◌, ◌&&◌, not, cond, ◌+◌, ◌*◌, ◌≤◌, min, length, take, drop};
ghost use mathlib.Core.List.{◌++◌};
ghost use Rattle.std.proofs.lemmas.List.Edits.{sets};
ghost use Rattle.wire.specs.Fields.{number_at, le_bytes, le32, flag_at};
ghost use Rattle.wire.specs.Frame.{frame_head};
ghost use Rattle.instants.specs.Listed.{listed, unlisted};
ghost use Rattle.frame_wide.specs.Resized.{instants_at, widened};
ghost use Rattle.frame_wide.specs.WideState.{state_gaps, state_on, stays_at, instants_next};
ghost use Rattle.frame_wide.specs.WideTelemetry.{telemetry_gaps, telemetry_on};
ghost use Rattle.frame_wide.specs.Stored.{numbers_at, low_at, high_at, low_row, high_row};

// ---- numbers

// The number of two halves, the lower first.
fn halves(a: u32, b: u32) -> u64
    ensures { result ≡ a + 4294967296 * b }
{
    (a as u64) + 4294967296 * (b as u64)
}

// With all bytes within the slice: no test is made.
fn eight_at(s: &[u8], at: usize) -> u64
    requires { at + 8 ≤ length s.now }
    ensures { result ≡ number_at 8 s.now at }
{
    halves(
        wire::quad(s[at], s[at + 1], s[at + 2], s[at + 3]),
        wire::quad(s[at + 4], s[at + 5], s[at + 6], s[at + 7]),
    )
}

fn u64_at(s: &[u8], at: usize) -> u64
    ensures { result ≡ number_at 8 s.now at }
{
    if 8 <= s.len() && at <= s.len() - 8 {
        return eight_at(s, at);
    }
    if at < s.len() {
        halves(wire::u32_at(s, at), wire::u32_at(s, at + 4))
    } else {
        0
    }
}

// The instants at these places.
fn instants<const N: usize>(s: &[u8], places: &[usize; N]) -> [u64; N]
    ensures { result ≡ numbers_at s.now places.now }
{
    let mut r = [0u64; N];
    for k in 0..N {
        r[k] = u64_at(s, places[k]);
    }
    r
}

fn put_four(s: &mut [u8], at: usize, n: u32)
    requires { at + 4 ≤ length s.old }
    ensures { s.new ≡ sets s.old at (le32 n) }
{
    s[at] = (n % 256) as u8;
    s[at + 1] = (n / 256 % 256) as u8;
    s[at + 2] = (n / 65536 % 256) as u8;
    s[at + 3] = (n / 16777216 % 256) as u8;
}

fn put_eight(s: &mut [u8], at: usize, n: u64)
    requires { at + 8 ≤ length s.old }
    ensures { s.new ≡ sets s.old at (le_bytes 8 n) }
{
    put_four(s, at, (n % 4294967296) as u32);
    put_four(s, at + 4, (n / 4294967296) as u32);
}

// N bytes from p on, to the place `at`.
fn copy<const N: usize>(to: &mut [u8], at: usize, s: &[u8], p: usize)
    requires { (p + N ≤ length s.now) × (at + N ≤ length to.old) }
    ensures { to.new ≡ sets to.old at (take N (drop p s.now)) }
{
    to[at..at + N].copy_from_slice(&s[p..p + N]);
}

// ---- a flag, its instant, and the bytes behind these

fn narrow_number(held: bool, x: u32, n: u64) -> u32
    ensures { result ≡ cond held x (min n 1) }
{
    if held { x } else { n.min(1) as u32 }
}

fn wide_number(held: bool, x: u64, y: u64) -> u64
    ensures { result ≡ cond held x y }
{
    if held { x } else { y }
}

// The flag at p and the instant behind it, in four bytes, and MORE bytes.
fn put_low<const MORE: usize>(to: &mut [u8], at: usize, s: &[u8], p: usize, x: u32)
    requires { (p + (9 + MORE) ≤ length s.now) × (at + (5 + MORE) ≤ length to.old) }
    ensures { to.new ≡ sets to.old at (low_at MORE s.now p x) }
{
    to[at] = s[p];
    put_four(to, at + 1, narrow_number(s[p] == 1, x, eight_at(s, p + 1)));
    copy::<MORE>(to, at + 5, s, p + 9);
}

// The same in eight bytes.
fn put_high<const MORE: usize>(to: &mut [u8], at: usize, s: &[u8], p: usize, x: u64)
    requires { (p + (5 + MORE) ≤ length s.now) × (at + (9 + MORE) ≤ length to.old) }
    ensures { to.new ≡ sets to.old at (high_at MORE s.now p x) }
{
    to[at] = s[p];
    put_eight(to, at + 1, wide_number(s[p] == 1, x, 0));
    copy::<MORE>(to, at + 9, s, p + 5);
}

// ---- the state

// Where the instants of a kind 10 stand.
const STATE_PLACES: [usize; 30] = [
    7, 16, 25, 34, 43, 52, 61, 70, 79, 88, 97, 106, 115, 124, 133, 142, 151, 160, 169, 178, 187,
    196, 205, 214, 224, 236, 245, 254, 288, 296,
];

// Of a state and of telemetry there is a line each, here and below, over what both share: their kinds differ in the tables.
pub fn state_instants(s: &[u8]) -> [u64; 30]
    ensures { result ≡ instants_at 8 state_gaps (drop 4 s.now) }
{
    instants(s, &STATE_PLACES)
}

// The timers that stand one after the other. Narrowing and widening differ in widths and in the number of an absent instant, so a
// trait over the two would have as many functions as it saves.
fn low_timers(to: &mut [u8], s: &[u8], given: &[u32; 30])
    requires { (222 ≤ length s.now) × (126 ≤ length to.old) }
    ensures { to.new ≡ sets to.old 6 (low_row s.now given.now 24) }
{
    for k in 0..24 {
        put_low::<0>(to, 6 + 5 * k, s, 6 + 9 * k, given[k]);
    }
}

fn high_timers(to: &mut [u8], s: &[u8], given: &[u64; 30])
    requires { (126 ≤ length s.now) × (222 ≤ length to.old) }
    ensures { to.new ≡ sets to.old 6 (high_row s.now given.now 24) }
{
    for k in 0..24 {
        put_high::<0>(to, 6 + 9 * k, s, 6 + 5 * k, given[k]);
    }
}

// The kind 5 of a kind 10, with these numbers for the instants that are there.
pub fn state_on(s: &[u8], given: &[u32; 30]) -> [u8; 186]
    requires { length s.now ≡ 306 }
    ensures { result ≡ state_on given.now s.now }
{
    let mut r = [0u8; 186];
    wire::put_head(&mut r, 5, 184);
    copy::<2>(&mut r, 4, s, 4);
    low_timers(&mut r, s, given);
    copy::<1>(&mut r, 126, s, 222);
    put_low::<3>(&mut r, 127, s, 223, given[24]);
    put_low::<0>(&mut r, 135, s, 235, given[25]);
    put_low::<0>(&mut r, 140, s, 244, given[26]);
    put_low::<25>(&mut r, 145, s, 253, given[27]);
    put_low::<0>(&mut r, 175, s, 287, given[28]);
    put_four(&mut r, 180, given[29]);
    copy::<2>(&mut r, 184, s, 304);
    r
}

// The kind 10 of a kind 5, with these instants where they are there.
pub fn widen_state(low: &[u8], given: &[u64; 30], to: &mut [u8])
    requires { (length low.now ≡ 186) × (306 ≤ length to.old) }
    ensures { to.new ≡ (frame_head 10 304 ++ widened state_gaps given.now (drop 4 low.now)) ++ drop 306 to.old }
{
    wire::put_head(to, 10, 304);
    copy::<2>(to, 4, low, 4);
    high_timers(to, low, given);
    copy::<1>(to, 222, low, 126);
    put_high::<3>(to, 223, low, 127, given[24]);
    put_high::<0>(to, 235, low, 135, given[25]);
    put_high::<0>(to, 244, low, 140, given[26]);
    put_high::<25>(to, 253, low, 145, given[27]);
    put_high::<0>(to, 287, low, 175, given[28]);
    put_eight(to, 296, given[29]);
    copy::<2>(to, 304, low, 184);
}

// ---- telemetry

// Where the instants of a kind 9 stand.
const TELEMETRY_PLACES: [usize; 11] = [4, 13, 46, 63, 76, 89, 102, 111, 121, 131, 141];

pub fn telemetry_instants(s: &[u8]) -> [u64; 11]
    ensures { result ≡ instants_at 8 telemetry_gaps (drop 4 s.now) }
{
    instants(s, &TELEMETRY_PLACES)
}

// The kind 3 of a kind 9, with these numbers for the instants that are there.
pub fn telemetry_on(s: &[u8], given: &[u32; 11]) -> [u8; 106]
    requires { length s.now ≡ 150 }
    ensures { result ≡ telemetry_on given.now s.now }
{
    let mut r = [0u8; 106];
    wire::put_head(&mut r, 3, 104);
    put_four(&mut r, 4, given[0]);
    put_low::<24>(&mut r, 8, s, 12, given[1]);
    put_low::<8>(&mut r, 37, s, 45, given[2]);
    put_low::<4>(&mut r, 50, s, 62, given[3]);
    put_low::<4>(&mut r, 59, s, 75, given[4]);
    put_low::<4>(&mut r, 68, s, 88, given[5]);
    put_low::<0>(&mut r, 77, s, 101, given[6]);
    put_low::<1>(&mut r, 82, s, 110, given[7]);
    put_low::<1>(&mut r, 88, s, 120, given[8]);
    put_low::<1>(&mut r, 94, s, 130, given[9]);
    put_low::<1>(&mut r, 100, s, 140, given[10]);
    r
}

// The kind 9 of a kind 3, with these instants where they are there.
pub fn widen_telemetry(low: &[u8], given: &[u64; 11], to: &mut [u8])
    requires { (length low.now ≡ 106) × (150 ≤ length to.old) }
    ensures { to.new ≡ (frame_head 9 148 ++ widened telemetry_gaps given.now (drop 4 low.now)) ++ drop 150 to.old }
{
    wire::put_head(to, 9, 148);
    put_eight(to, 4, given[0]);
    put_high::<24>(to, 12, low, 8, given[1]);
    put_high::<8>(to, 45, low, 37, given[2]);
    put_high::<4>(to, 62, low, 50, given[3]);
    put_high::<4>(to, 75, low, 59, given[4]);
    put_high::<4>(to, 88, low, 68, given[5]);
    put_high::<0>(to, 101, low, 77, given[6]);
    put_high::<1>(to, 110, low, 82, given[7]);
    put_high::<1>(to, 120, low, 88, given[8]);
    put_high::<1>(to, 130, low, 94, given[9]);
    put_high::<1>(to, 140, low, 100, given[10]);
}

// ---- the instants after a step

// An instant that was there stays; one that was not is the reading.
fn stays(s: &[u8], at: usize, x: u64, reading: u64) -> u64
    ensures { result ≡ stays_at s.now at x reading }
{
    wide_number(wire::flag_at(s, at), x, reading)
}

// Whether the epoch stays.
fn epoch_stays(s: &[u8], third: bool) -> bool
    ensures { result ≡ (flag_at s.now 305 && not third) }
{
    wire::flag_at(s, 305) && !third
}

// What the instants after a step depend on beside the state before it.
#[derive(Clone, Copy)]
pub struct StepInstants {
    pub reading: u64,
    // The position's stamp, stored where the step has a distance.
    pub position: u64,
    pub distance: bool,
    pub fault: bool,
    pub third_fault: bool,
}

// The instants after a step, by the bytes of the kind 10 before it.
pub fn instants_next(s: &[u8], x: &[u64; 30], step: &StepInstants) -> [u64; 30]
    ensures { result ≡ listed (instants_next s.now (unlisted x.now) step.now.reading step.now.position step.now.distance step.now.fault step.now.third_fault) }
{
    let mut r = *x;
    for k in 0..24 {
        r[k] = stays(s, 6 + 9 * k, x[k], step.reading);
    }
    r[24] = stays(s, 223, x[24], step.reading);
    r[25] = stays(s, 235, x[25], step.reading);
    r[26] = stays(s, 244, x[26], step.reading);
    r[27] = wide_number(step.distance, step.position, x[27]);
    r[28] = wide_number(step.fault, x[28], step.reading);
    r[29] = wide_number(epoch_stays(s, step.third_fault), x[29], step.reading);
    r
}
