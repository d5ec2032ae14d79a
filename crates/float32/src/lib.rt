// Libm's part: the functions on binary32 that the Rust takes from libm and from core.
#![tactic(auto)]

ghost use Rattle.std.specs.Prelude.{◌≡◌, false, ◌+◌, ◌*◌, ◌^◌, ◌≤◌, ◌<◌};
ghost use Rattle.std.specs.Float.{inf, binary32};
ghost use Rattle.std.specs.Float.Ieee.{of_bits, to_bits};
ghost use Rattle.float32.specs.Libm.{is_finite, fabs, fmax};
ghost use Rattle.float32.specs.Sqrt.{rounded_root, square_root};
ghost use Rattle.float32.specs.Radicand.{radicand_of, MeanNear};

// +infinity.
pub fn infinity() -> f32
    ensures { result ≡ inf false }
{
    f32::from_bits(0x7f80_0000)
}

// Neither an infinity nor a NaN.
pub fn is_finite(x: f32) -> bool
    ensures { result ≡ is_finite x }
{
    let top = infinity();
    (-top < x) & (x < top)
}

// The float with the bits n. Every NaN's pattern gives the NaN, which is 0.0 / 0.0.
pub fn from_bits(n: u32) -> f32
    ensures { result ≡ of_bits binary32 n }
{
    if n % 0x8000_0000 <= 0x7f80_0000 {
        f32::from_bits(n)
    } else {
        0.0 / 0.0
    }
}

// The bits of x; of a NaN 7FC00000.
pub fn to_bits(x: f32) -> u32
    ensures { result ≡ to_bits binary32 x }
{
    if x == x { f32::to_bits(x) } else { 0x7fc0_0000 }
}

// x without its sign, so +0 for −0. A NaN stays one.
pub fn fabsf(x: f32) -> f32
    ensures { result ≡ fabs x }
{
    if x != x {
        x
    } else {
        f32::from_bits(f32::to_bits(x) % 0x8000_0000)
    }
}

// The larger of x and y. A NaN is dropped; of two unlike zeros it is +0.
pub fn fmaxf(x: f32, y: f32) -> f32
    ensures { result ≡ fmax x y }
{
    if x < y {
        return y;
    }
    if y < x {
        return x;
    }
    if x != x {
        return y;
    }
    if f32::to_bits(x) < 0x8000_0000 {
        return x;
    }
    if y != y { x } else { y }
}

// The 24 digits of the number with the bits b, doubled where its exponent is even.
fn radicand(b: u32) -> u32
    ensures { result ≡ radicand_of b }
{
    let t = b % 0x100_0000;
    if t < 0x80_0000 { 2 * t + 0x100_0000 } else { t }
}

// An eighth of a first guess at the root of v = 128 * radicand(b): a line along the digits, one for
// each parity of the exponent. The mean of the guess and v divided by it is at most 9 above the root.
fn first_guess(b: u32) -> u32
    ensures { (2 ^ 12 ≤ result) × (result < 2 ^ 14) × MeanNear (radicand_of b) result }
{
    let t = b % 0x100_0000;
    if t < 0x80_0000 {
        (5 * t + 45_880 * 2048) / 0x4000
    } else {
        (3 * t + 21_175 * 2048) / 0x4000
    }
}

// The mean of such a guess 8 * z and 128 * m divided by it, less 9: at most the root of 128 * m, and
// less than 10 below it.
fn low_root(m: u32, z: u32) -> u32
    requires { (m < 2 ^ 25) × (2 ^ 12 ≤ z) × (z < 2 ^ 14) × MeanNear m z }
    ensures { (result * result ≤ 128 * m) × (128 * m < (result + 10) * (result + 10)) }
{
    4 * z + 8 * m / z - 9
}

// The whole number that is nearest to the root of n = radicand(b) * 2^23, which is 2^16 * v. First
// 256 * r, from the r of `low_root`; then t, what is left, n - (256 * r)^2, divided by 512 * r. Their
// sum p is the nearest or one less: n is p * p + 512 * u - t * t, so p + 1 where that is above p * p + p.
fn nearest_root(b: u32) -> u32
    ensures { (result * result < radicand_of b * 2 ^ 23 + result) × (radicand_of b * 2 ^ 23 ≤ result * result + result) }
{
    let m = radicand(b);
    let r = low_root(m, first_guess(b));
    let v = 128 * m;
    let left = 128 * (v - r * r);
    let t = left / r;
    let u = left % r;
    let p = 256 * r + t;
    if t * t + p < 512 * u { p + 1 } else { p }
}

// The bits of the root of q * 2^g / 2^200, for a q of 24 digits and the g of a subnormal number. Its
// digits are those of the root of 2^48 times that, a normal number.
fn root_of(q: u32, g: u32) -> u32
    requires { (2 ^ 23 ≤ q) × (q < 2 ^ 24) × (28 ≤ g) × (g ≤ 51) }
    ensures { (result ≡ to_bits binary32 (rounded_root (q * 2 ^ g))) × (result < 255 * 2 ^ 23) }
{
    (g + 75) / 2 * 0x80_0000 + nearest_root(q + (g - 3) * 0x80_0000)
}

// The bits of the root of the subnormal number with the bits b, which is first shifted up by its
// count of leading zeros.
fn subnormal_root(b: u32) -> u32
    requires { (0 < b) × (b < 2 ^ 23) }
    ensures { (result ≡ to_bits binary32 (square_root (of_bits binary32 b))) × (result < 255 * 2 ^ 23) }
{
    let z = u32::leading_zeros(b) - 8;
    root_of(b << z, 51 - z)
}

// The bits of the root of the normal number with the bits b.
fn normal_root(b: u32) -> u32
    requires { (2 ^ 23 ≤ b) × (b < 255 * 2 ^ 23) }
    ensures { (result ≡ to_bits binary32 (square_root (of_bits binary32 b))) × (result < 255 * 2 ^ 23) }
{
    (b + 0x3e80_0000) / 0x100_0000 * 0x80_0000 + nearest_root(b)
}

// The square root: the binary32 number that is nearest to the exact one. A zero keeps its sign,
// +infinity stays, and a negative number or NaN gives a NaN. Normal numbers are tested for first.
pub fn sqrtf(x: f32) -> f32
    ensures { result ≡ square_root x }
{
    if f32::from_bits(0x80_0000) <= x {
        let b = f32::to_bits(x);
        if b < 0x7f80_0000 {
            return f32::from_bits(normal_root(b));
        }
        return x;
    }
    if 0.0 < x {
        return f32::from_bits(subnormal_root(f32::to_bits(x)));
    }
    if x == 0.0 { x } else { 0.0 / 0.0 }
}
