// The Rust's disarm.rs: when the motors may be stopped. The caller lends its gate.
#![tactic(auto, unfolding(crate::specs::Disarm::gate_open, crate::specs::Disarm::hold_from, crate::specs::Disarm::evaluate))]

ghost use Rattle.std.specs.Prelude.{◌≡◌};
ghost use Rattle.time.specs.Time.{wrapping};
ghost use Rattle.disarm.specs.Disarm.{closed, gate_open, evaluate};

use types::{Action, LandedState, Stamped};

#[derive(Clone, Copy, Default)]
pub struct DisarmGate {
    pub hold_since_ms: Option<u32>,
}

// A gate after `evaluate`, and the answer.
#[derive(Clone, Copy)]
pub struct Evaluated {
    pub gate: DisarmGate,
    pub eligible: bool,
}

// Land is requested, and the aircraft is armed and on the ground by fresh readings. Here and below what is read is
// handed over one by one: a struct for it would be filled at one call alone.
fn gate_open(
    now_ms: u32,
    armed: Option<Stamped<bool>>,
    landed: Option<Stamped<LandedState>>,
    status_fresh_ms: u32,
    requested: Action,
) -> bool
    ensures { result ≡ gate_open wrapping now_ms armed landed status_fresh_ms requested }
{
    (requested == Action::Land)
        & validate::fresh_true(now_ms, armed, status_fresh_ms)
        & (validate::fresh_landed(now_ms, landed, status_fresh_ms) == Some(LandedState::OnGround))
}

// The gate after a reset.
pub fn reset_gate() -> DisarmGate
    ensures { result ≡ closed }
{
    DisarmGate::default()
}

impl DisarmGate {
    pub fn reset(&mut self)
        ensures { self.new ≡ closed }
    {
        *self = reset_gate();
    }

    // The gate is judged by the requested action before latches.
    pub fn evaluate(
        &mut self,
        now_ms: u32,
        armed: Option<Stamped<bool>>,
        landed: Option<Stamped<LandedState>>,
        status_fresh_ms: u32,
        disarm_hold_ms: u32,
        requested: Action,
        clock_fault: bool,
    ) -> bool
        ensures value { result ≡ (evaluate wrapping self.old now_ms armed landed status_fresh_ms disarm_hold_ms requested clock_fault).eligible }
        ensures self_after { self.new ≡ (evaluate wrapping self.old now_ms armed landed status_fresh_ms disarm_hold_ms requested clock_fault).gate }
    {
        if clock_fault | !gate_open(now_ms, armed, landed, status_fresh_ms, requested) {
            self.reset();
            return false;
        }
        let since = self.hold_since_ms.unwrap_or(now_ms);
        self.hold_since_ms = Some(since);
        time::hold_met(now_ms, since, disarm_hold_ms)
    }
}

// A gate is lent to `reset` and comes back as it was left.
pub fn reset_lent(mut gate: DisarmGate) -> DisarmGate
    ensures as_left { result ≡ closed }
{
    gate.reset();
    gate
}

// A gate is lent to `evaluate` and comes back as it was left, with the answer.
pub fn evaluate_lent(
    mut gate: DisarmGate,
    now_ms: u32,
    armed: Option<Stamped<bool>>,
    landed: Option<Stamped<LandedState>>,
    status_fresh_ms: u32,
    disarm_hold_ms: u32,
    requested: Action,
    clock_fault: bool,
) -> Evaluated
    ensures { result ≡ evaluate wrapping gate now_ms armed landed status_fresh_ms disarm_hold_ms requested clock_fault }
{
    let eligible = gate.evaluate(
        now_ms,
        armed,
        landed,
        status_fresh_ms,
        disarm_hold_ms,
        requested,
        clock_fault,
    );
    Evaluated { gate, eligible }
}
