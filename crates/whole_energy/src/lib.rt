// The energy of a return in whole numbers: millimetres, millimetres a second, milliwatts, millijoules, and
// wind in thousandths. Everything can be checked on paper.
#![tactic(auto, unfolding(crate::specs::Input::speed_of_zero, crate::specs::Energy::remainder_of, crate::specs::Energy::distance_of, crate::specs::Energy::total_of, crate::specs::Energy::estimate_of, crate::specs::Call::estimate_bytes, crate::specs::Call::estimated))]

ghost use Rattle.std.specs.Prelude.{◌≡◌, ◌<◌, ◌≤◌, true, false, flat_map, length};
ghost use Rattle.whole_energy.specs.Root.{whole_root, WholeRoot};
ghost use Rattle.whole_energy.specs.Input.{i32_at, input_of, within, within_limits, speed_of_zero, from_zero, return_of};
ghost use Rattle.whole_energy.specs.Energy.{Bounded, one_for, leg, rounded_up, estimate_of};
ghost use Rattle.whole_energy.specs.Call.{energy_error_number, estimated, estimate_bytes, energy_call};

// The numbers that a host gives.
#[derive(Clone, Copy)]
pub struct Input {
    pub north: i32,
    pub east: i32,
    pub altitude: i32,
    pub home_north: i32,
    pub home_east: i32,
    pub return_altitude: i32,
    pub power_climb: i32,
    pub power_cruise: i32,
    pub power_descent: i32,
    pub wind: i32,
    pub speed_climb: i32,
    pub speed_cruise: i32,
    pub speed_descent: i32,
}

// What the legs are worked out from: the square of the distance home, heights, powers, wind, speeds.
#[derive(Clone, Copy)]
pub struct Return {
    pub square: u64,
    pub climb: u64,
    pub descent: u64,
    pub power_climb: u64,
    pub power_cruise: u64,
    pub power_descent: u64,
    pub wind: u64,
    pub speed_climb: u64,
    pub speed_cruise: u64,
    pub speed_descent: u64,
}

// A leg's energy divided, with what is left.
#[derive(Clone, Copy)]
pub struct Leg {
    pub quotient: u64,
    pub remainder: u64,
}

impl Leg {
    fn rounded_up(self) -> u64
        requires { self.quotient ≤ 3000000000000000000 }
        ensures value { result ≡ rounded_up self }
        ensures bound { result ≤ 3000000000000000001 }
    {
        self.quotient + one_for(self.remainder)
    }
}

#[derive(Clone, Copy)]
pub struct Estimate {
    pub distance: u64,
    pub remainder: u64,
    pub climb: Leg,
    pub cruise: Leg,
    pub descent: Leg,
    pub total: u64,
}

// Why a call is turned away, by its number.
#[derive(Clone, Copy, PartialEq, Eq)]
pub enum EnergyError {
    TooShort = 1,
    TooLong = 3,
    NoRoom = 5,
    OutsideLimits = 36,
    SpeedOfZero = 37,
}

impl EnergyError {
    // The number of the refusal: what a C host is answered.
    pub fn number(self) -> u32
        ensures { result ≡ energy_error_number self }
    {
        self as u32
    }
}

// The largest number whose square is not above n.
#[tactic(auto, using(crate::proofs::Root::whole_root_only))]
pub fn whole_root(n: u64) -> u64
    ensures value { result ≡ whole_root n }
    ensures root { WholeRoot n result }
{
    n.isqrt()
}

fn i32_at(s: &[u8], at: usize) -> i32
    ensures { result ≡ i32_at s.now at }
{
    wire::u32_at(s, at).cast_signed()
}

fn input_of(s: &[u8]) -> Input
    ensures { result ≡ input_of s.now }
{
    Input {
        north: i32_at(s, 0),
        east: i32_at(s, 4),
        altitude: i32_at(s, 8),
        home_north: i32_at(s, 12),
        home_east: i32_at(s, 16),
        return_altitude: i32_at(s, 20),
        power_climb: i32_at(s, 24),
        power_cruise: i32_at(s, 28),
        power_descent: i32_at(s, 32),
        wind: i32_at(s, 36),
        speed_climb: i32_at(s, 40),
        speed_cruise: i32_at(s, 44),
        speed_descent: i32_at(s, 48),
    }
}

// Whether a number lies from `low` to `high`.
fn within(low: i32, high: i32, z: i32) -> bool
    ensures { result ≡ within low high z }
{
    (low..=high).contains(&z)
}

fn within_limits(i: Input) -> bool
    ensures { result ≡ within_limits i }
{
    within(-10_000_000, 10_000_000, i.north)
        & within(-10_000_000, 10_000_000, i.east)
        & within(-10_000_000, 10_000_000, i.home_north)
        & within(-10_000_000, 10_000_000, i.home_east)
        & within(-100_000, 2_000_000, i.altitude)
        & within(0, 2_000_000, i.return_altitude)
        & within(0, 10_000_000, i.power_climb)
        & within(0, 10_000_000, i.power_cruise)
        & within(0, 10_000_000, i.power_descent)
        & within(0, 10_000, i.wind)
        & within(0, 100_000, i.speed_climb)
        & within(0, 100_000, i.speed_cruise)
        & within(0, 100_000, i.speed_descent)
}

fn speed_of_zero(i: Input) -> bool
    ensures { result ≡ speed_of_zero i }
{
    (i.speed_climb == 0) | (i.speed_cruise == 0) | (i.speed_descent == 0)
}

// A number below 0 counts as 0.
fn from_zero(z: i32) -> u64
    ensures { result ≡ from_zero z }
{
    u64::from(z.max(0).unsigned_abs())
}

fn return_of(i: Input) -> Return
    requires limits { within_limits i ≡ true }
    requires speeds { speed_of_zero i ≡ false }
    ensures value { result ≡ return_of i }
    ensures bounded { Bounded result }
{
    let north = u64::from(i.north.abs_diff(i.home_north));
    let east = u64::from(i.east.abs_diff(i.home_east));
    Return {
        square: north * north + east * east,
        climb: from_zero(i.return_altitude - i.altitude),
        descent: from_zero(i.altitude.max(i.return_altitude)),
        power_climb: from_zero(i.power_climb),
        power_cruise: from_zero(i.power_cruise),
        power_descent: from_zero(i.power_descent),
        wind: from_zero(i.wind),
        speed_climb: from_zero(i.speed_climb),
        speed_cruise: from_zero(i.speed_cruise),
        speed_descent: from_zero(i.speed_descent),
    }
}

// 1 for a remainder that is not zero.
fn one_for(remainder: u64) -> u64
    ensures value { result ≡ one_for remainder }
    ensures bound { result ≤ 1 }
{
    remainder.min(1)
}

fn leg_of(energy: u64, divisor: u64) -> Leg
    requires { 0 < divisor }
    ensures { result ≡ leg energy divisor }
{
    Leg {
        quotient: energy / divisor,
        remainder: energy % divisor,
    }
}

fn estimate_of(x: Return) -> Estimate
    requires { Bounded x }
    ensures { result ≡ estimate_of x }
{
    let root = whole_root(x.square);
    let remainder = x.square - root * root;
    let distance = root + one_for(remainder);
    let climb = leg_of(x.climb * x.power_climb, x.speed_climb);
    let cruise = leg_of(distance * x.power_cruise * x.wind, x.speed_cruise * 1000);
    let descent = leg_of(x.descent * x.power_descent, x.speed_descent);
    Estimate {
        distance,
        remainder,
        climb,
        cruise,
        descent,
        total: climb.rounded_up() + cruise.rounded_up() + descent.rounded_up(),
    }
}

// The estimate of the thirteen numbers, four bytes each.
fn estimated(input: &[u8]) -> Result<Estimate, EnergyError>
    ensures { result ≡ estimated input.now }
{
    if input.len() < 52 {
        return Err(EnergyError::TooShort);
    }
    if input.len() > 52 {
        return Err(EnergyError::TooLong);
    }
    let i = input_of(input);
    if !within_limits(i) {
        return Err(EnergyError::OutsideLimits);
    }
    if speed_of_zero(i) {
        return Err(EnergyError::SpeedOfZero);
    }
    Ok(estimate_of(return_of(i)))
}

// The estimate's nine numbers, eight bytes each, the lowest first.
fn estimate_bytes(e: Estimate) -> [[u8; 8]; 9]
    ensures value { flat_map (λ b. b) result ≡ estimate_bytes e }
    ensures len { length result ≡ 9 }
{
    [
        e.distance.to_le_bytes(),
        e.remainder.to_le_bytes(),
        e.climb.quotient.to_le_bytes(),
        e.climb.remainder.to_le_bytes(),
        e.cruise.quotient.to_le_bytes(),
        e.cruise.remainder.to_le_bytes(),
        e.descent.quotient.to_le_bytes(),
        e.descent.remainder.to_le_bytes(),
        e.total.to_le_bytes(),
    ]
}

// The estimate of `input`, into the first 72 bytes of `output`; nothing is written where the call is turned away.
#[tactic(auto, unfolding(crate::specs::Call::energy_call))]
pub fn whole_energy(input: &[u8], output: &mut [u8]) -> Result<(), EnergyError>
    ensures value { result ≡ (energy_call input.now output.old).result }
    ensures output_after { output.new ≡ (energy_call input.now output.old).output }
{
    let e = estimated(input)?;
    if output.len() < 72 {
        return Err(EnergyError::NoRoom);
    }
    output[..72].copy_from_slice(estimate_bytes(e).as_flattened());
    Ok(())
}
