// A running 32-bit state carried over to the clock of 64 bits: what turns it away, and its instants (specs/Carry.antt).
#![tactic(auto)]

ghost use Rattle.std.specs.Prelude.{◌≡◌, ◌-◌, if◌then◌else◌};
ghost use Rattle.time.specs.Time.{wrapping, wrapping_sub, age, at_most};
ghost use Rattle.triggers.specs.Update.{none_raised};
ghost use Rattle.frame_state.specs.StateFrame.{state_at};
ghost use Rattle.instants.specs.Listed.{listed};
ghost use Rattle.carry.specs.Carry.{has_age_at, carried, carry_error_number, carry};
ghost use Rattle.carry.specs.Held.{aged, stored};

// Why a state is not carried over, by its number.
#[derive(Clone, Copy, PartialEq, Eq)]
pub enum CarryError {
    // another last reading
    OtherReading = 34,
    // an instant without an age, or with one above the reading
    NoAge = 35,
}

impl CarryError {
    pub fn number(self) -> u16
        ensures { result ≡ carry_error_number self }
    {
        self as u16
    }
}

// The last sound reading: `t` in 64 bits, `last` in 32.
#[derive(Clone, Copy)]
struct Reading {
    t: u64,
    last: u32,
}

impl Reading {
    // Whether an instant has an age, at most t.
    fn aged(self, x: u32) -> bool
        ensures { result ≡ at_most (age wrapping self.last x) self.t }
    {
        time::age_ms(self.last, x).is_some_and(|age| u64::from(age) <= self.t)
    }

    // An instant that is not held turns nothing away.
    fn has_age(self, held: Option<u32>) -> bool
        ensures { result ≡ has_age_at self.t self.last held }
    {
        held.is_none_or(|x| self.aged(x))
    }

    // t minus an instant's age, and 0 where the age is larger.
    fn carried(self, x: u32) -> u64
        ensures { result ≡ self.t - wrapping_sub self.last x }
    {
        self.t.saturating_sub(u64::from(self.last.wrapping_sub(x)))
    }

    // An epoch without an age, or with one above t, becomes t.
    fn carried_epoch(self, x: u32) -> u64
        ensures { result ≡ (if at_most (age wrapping self.last x) self.t then self.t - wrapping_sub self.last x else self.t) }
    {
        if self.aged(x) {
            self.carried(x)
        } else {
            self.t
        }
    }
}

// Where a kind 5 holds its instants, but for last_now and the epoch.
const HELD: [usize; 28] = [
    6, 11, 16, 21, 26, 31, 36, 41, 46, 51, 56, 61, 66, 71, 76, 81, 86, 91, 96, 101, 106, 111, 116,
    121, 127, 135, 140, 145,
];

fn have_ages(old: &[u8], reading: Reading) -> bool
    ensures { result ≡ aged old.now reading 28 }
{
    let mut all = true;
    for k in 0..28 {
        all &= reading.has_age(options::option_at(old, HELD[k]));
    }
    all
}

// The instants in the order of the frame.
fn stored(old: &[u8], reading: Reading) -> [u64; 30]
    ensures { result ≡ stored old.now reading }
{
    let mut r = [0; 30];
    for k in 0..28 {
        r[k] = reading.carried(options::option_at(old, HELD[k]).unwrap_or(0));
    }
    r[28] = reading.t;
    r[29] = reading.carried_epoch(wire::u32_at(old, 180));
    r
}

// The instants carried over, whatever turns the state away: `carry` gives them where nothing does.
pub fn instants(old: &[u8], last_now: u64) -> [u64; 30]
    ensures { result ≡ listed (carried last_now (state_at old.now none_raised)) }
{
    let last = options::option_at(old, 175).unwrap_or(0);
    stored(old, Reading { t: last_now, last })
}

// The same, where the state's last reading is that of `t`.
pub fn carry(old: &[u8], t: u64) -> Result<[u64; 30], CarryError>
    ensures { result ≡ carry t (state_at old.now none_raised) }
{
    let last = match options::option_at(old, 175) {
        Some(last) if u64::from(last) == t % 4294967296 => last,
        _ => return Err(CarryError::OtherReading),
    };
    let reading = Reading { t, last };
    if !have_ages(old, reading) {
        return Err(CarryError::NoAge);
    }
    Ok(stored(old, reading))
}
