// The Rust's clock rule, in lib.rs: which reading is a fault, and which fault a third in a row.
#![tactic(auto, unfolding(crate::specs::Clock::clock_fault, crate::specs::Clock::sound_clock, crate::specs::Clock::clock_step))]

ghost use Rattle.std.specs.Prelude.{◌≡◌};
ghost use Rattle.time.specs.Time.{wrapping};
ghost use Rattle.clock.specs.Clock.{clock_fault, sound_clock, clock_step};

// The clock after a reading: whether the reading is a fault, and whether a third one in a row.
#[derive(Clone, Copy)]
pub struct ClockStep {
    pub last_now: Option<u32>,
    pub epoch_start: u32,
    pub backwards_streak: u8,
    pub fault: bool,
    pub third: bool,
}

fn clock_fault(last: u32, epoch_start: u32, streak: u8, now_ms: u32) -> ClockStep
    ensures { result ≡ clock_fault last epoch_start streak now_ms }
{
    if streak < 2 {
        ClockStep {
            last_now: Some(last),
            epoch_start,
            backwards_streak: streak + 1,
            fault: true,
            third: false,
        }
    } else {
        ClockStep {
            last_now: Some(last),
            epoch_start: now_ms,
            backwards_streak: 0,
            fault: true,
            third: true,
        }
    }
}

fn sound_clock(epoch_start: u32, streak: u8, now_ms: u32) -> ClockStep
    ensures { result ≡ sound_clock epoch_start streak now_ms }
{
    ClockStep {
        last_now: Some(now_ms),
        epoch_start,
        backwards_streak: streak,
        fault: false,
        third: false,
    }
}

pub fn clock_step(
    last_now: Option<u32>,
    epoch_start: u32,
    streak: u8,
    initialized: bool,
    now_ms: u32,
) -> ClockStep
    ensures { result ≡ clock_step wrapping last_now epoch_start streak initialized now_ms }
{
    if !initialized {
        return sound_clock(now_ms, 0, now_ms);
    }
    let Some(last) = last_now else {
        return sound_clock(epoch_start, streak, now_ms);
    };
    if time::age_ms(now_ms, last).is_some() {
        sound_clock(epoch_start, 0, now_ms)
    } else {
        clock_fault(last, epoch_start, streak, now_ms)
    }
}
