// The Rust's arbiter.rs: latches, persistence, feasibility.
#![tactic(auto, unfolding(crate::specs::Arbiter::without_recovery, crate::specs::Arbiter::recover, crate::specs::Arbiter::apply_persistence, crate::specs::Arbiter::apply_feasibility, crate::specs::Arbiter::arbitrate))]

ghost use Rattle.std.specs.Prelude.{◌≡◌};
ghost use Rattle.time.specs.Time.{wrapping};
ghost use Rattle.arbiter.specs.Arbiter.{without_recovery, wanted, apply_persistence, apply_feasibility, arbitrate, previous, recover, shown, needs_position};

use types::{Action, Reason, Request};

#[derive(Clone, Copy, Default)]
pub struct ArbiterState {
    pub prev_output: Action,
    pub prev_reason: Reason,
    pub recovery_since_ms: Option<u32>,
}

// The request that is shown, and the state after it.
#[derive(Clone, Copy)]
pub struct Arbitrated {
    pub state: ArbiterState,
    pub output: Request,
}

// The wanted action: the requested one, or Land under a latch, battery named first.
pub fn output_with_latches(
    requested: Request,
    battery_latched: bool,
    energy_latched: bool,
) -> Request
    ensures { result ≡ wanted requested battery_latched energy_latched }
{
    if battery_latched {
        return Request {
            reason: Reason::BatteryCritical,
            action: Action::Land,
        };
    }
    if energy_latched {
        return Request {
            reason: Reason::EnergyRtlInfeasible,
            action: Action::Land,
        };
    }
    requested
}

fn needs_position(a: Action) -> bool
    ensures { result ≡ needs_position a }
{
    matches!(a, Action::Hold | Action::ReturnToLaunch)
}

impl Arbitrated {
    // A request shown, with the recovery's start.
    fn shown(output: Request, since: Option<u32>) -> Self
        ensures { result ≡ shown output since }
    {
        Self {
            state: ArbiterState {
                prev_output: output.action,
                prev_reason: output.reason,
                recovery_since_ms: since,
            },
            output,
        }
    }

    // Without a valid position Land stands for Hold and ReturnToLaunch, and ends the recovery.
    pub fn apply_feasibility(self, position_valid: bool) -> Self
        ensures { result ≡ apply_feasibility self position_valid }
    {
        if needs_position(self.output.action) & !position_valid {
            let land = Request {
                reason: Reason::PositionInvalid,
                action: Action::Land,
            };
            return Self::shown(land, None);
        }
        self
    }
}

impl ArbiterState {
    // What every third fault in a row clears.
    pub fn without_recovery(self) -> Self
        ensures { result ≡ without_recovery self }
    {
        Self {
            recovery_since_ms: None,
            ..self
        }
    }

    // What the step before showed.
    fn previous(self) -> Request
        ensures { result ≡ previous self }
    {
        Request {
            reason: self.prev_reason,
            action: self.prev_output,
        }
    }

    // Here and below the numbers are handed over one by one: a struct for them would be filled at one call alone.
    // What a sound step that wants less than before shows: the wanted action where the recovery has lasted.
    fn recover(self, now_ms: u32, recovery_hold_ms: u32, wanted: Request) -> Arbitrated
        ensures { result ≡ recover wrapping self now_ms recovery_hold_ms wanted }
    {
        let since = self.recovery_since_ms.unwrap_or(now_ms);
        if time::hold_met(now_ms, since, recovery_hold_ms) {
            Arbitrated::shown(wanted, None)
        } else {
            Arbitrated::shown(self.previous(), Some(since))
        }
    }

    // On a fault the last output stays.
    pub fn apply_persistence(
        self,
        now_ms: u32,
        recovery_hold_ms: u32,
        wanted: Request,
        clock_fault: bool,
    ) -> Arbitrated
        ensures { result ≡ apply_persistence wrapping self now_ms recovery_hold_ms wanted clock_fault }
    {
        if clock_fault {
            return Arbitrated::shown(self.previous(), self.recovery_since_ms);
        }
        if self.prev_output <= wanted.action {
            return Arbitrated::shown(wanted, None);
        }
        self.recover(now_ms, recovery_hold_ms, wanted)
    }

    pub fn arbitrate(
        self,
        now_ms: u32,
        recovery_hold_ms: u32,
        wanted: Request,
        position_valid: bool,
        clock_fault: bool,
    ) -> Arbitrated
        ensures { result ≡ arbitrate wrapping self now_ms recovery_hold_ms wanted position_valid clock_fault }
    {
        self.apply_persistence(now_ms, recovery_hold_ms, wanted, clock_fault)
            .apply_feasibility(position_valid)
    }
}
