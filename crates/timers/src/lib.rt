// Timers, pairs of them that set and clear a request, and the rule by which a pair raises it.
#![tactic(auto, unfolding(crate::specs::Timer::held_set, crate::specs::Timer::hold_pair, crate::specs::Timer::raised_by))]

ghost use Rattle.std.specs.Prelude.{◌≡◌};
ghost use Rattle.time.specs.Time.{wrapping};
ghost use Rattle.timers.specs.Timer.{cleared, pending, held_set, hold_pair, rested, raised_by};

#[derive(Clone, Copy, Default)]
pub struct Timer {
    pub since_ms: Option<u32>,
}

// A timer after a step, and whether its hold is met.
#[derive(Clone, Copy)]
pub struct Held {
    pub timer: Timer,
    pub met: bool,
}

// The timers that set and clear a request after a step, and which of their holds is met.
#[derive(Clone, Copy)]
pub struct PairHeld {
    pub set: Timer,
    pub clear: Timer,
    pub set_met: bool,
    pub clear_met: bool,
}

impl Timer {
    pub fn clear() -> Self
        ensures { result ≡ cleared }
    {
        Self::default()
    }

    pub fn pending(self) -> bool
        ensures { result ≡ pending self }
    {
        self.since_ms.is_some()
    }

    // Starts at the first true step, and is cleared by a false one.
    pub fn held_set(self, now: u32, active: bool, hold_ms: u32) -> Held
        ensures { result ≡ held_set wrapping self now active hold_ms }
    {
        if !active {
            return Held {
                timer: Timer::clear(),
                met: false,
            };
        }
        let since = self.since_ms.unwrap_or(now);
        Held {
            timer: Timer {
                since_ms: Some(since),
            },
            met: time::hold_met(now, since, hold_ms),
        }
    }
}

pub fn hold_pair(
    set: Timer,
    clear: Timer,
    now: u32,
    bad: bool,
    set_ms: u32,
    good: bool,
    clear_ms: u32,
) -> PairHeld
    ensures { result ≡ hold_pair wrapping set clear now bad set_ms good clear_ms }
{
    let s = set.held_set(now, bad, set_ms);
    let c = clear.held_set(now, good, clear_ms);
    PairHeld {
        set: s.timer,
        clear: c.timer,
        set_met: s.met,
        clear_met: c.met,
    }
}

// A pair that rests: its timers as they were, and no hold met.
pub fn rested(set: Timer, clear: Timer) -> PairHeld
    ensures { result ≡ rested set clear }
{
    PairHeld {
        set,
        clear,
        set_met: false,
        clear_met: false,
    }
}

// Whether a pair's request is raised. Where raised requests are kept it stays until it is cleared; else it is raised where the
// set timer's hold is met and the clear timer's is not.
pub fn raised_by(keeps: bool, before: bool, p: PairHeld) -> bool
    ensures { result ≡ raised_by keeps before p }
{
    if keeps {
        p.set_met | (before & !p.clear_met)
    } else {
        p.set_met & !p.clear_met
    }
}
