// The Rust's time.rs: ages by wrapping subtraction.
#![tactic(auto, unfolding(crate::specs::Time::wrapping_sub, crate::specs::Time::age, crate::specs::Time::fresh, crate::specs::Time::hold_met))]

ghost use Rattle.std.specs.Prelude.{◌≡◌};
ghost use Rattle.time.specs.Time.{wrapping, age, fresh, hold_met};

// The milliseconds from `then` to `now`, or None where `then` lies ahead: a wrapping difference of 2^31 or more.
pub fn age_ms(now: u32, then: u32) -> Option<u32>
    ensures { result ≡ age wrapping now then }
{
    let diff = now.wrapping_sub(then);
    (diff < types::HALF_RANGE_MS).then_some(diff)
}

pub fn is_fresh(now: u32, t_ms: u32, limit_ms: u32) -> bool
    ensures { result ≡ fresh wrapping now t_ms limit_ms }
{
    age_ms(now, t_ms).is_some_and(|age| age <= limit_ms)
}

// Whether what began at `since` has lasted `hold_ms`: what the Rust writes out in triggers, arbiter and disarm.
pub fn hold_met(now: u32, since: u32, hold_ms: u32) -> bool
    ensures { result ≡ hold_met wrapping now since hold_ms }
{
    age_ms(now, since).is_some_and(|age| age >= hold_ms)
}
