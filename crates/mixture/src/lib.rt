// Document 02, L13: the 200 mixtures of previous action, wanted action, valid position, clock fault and elapsed recovery, and
// how many of them end in an action.
#![tactic(auto, unfolding(crate::specs::Mixtures::action_shown, crate::specs::Mixtures::mixture_at))]

ghost use Rattle.std.specs.Prelude.{◌≡◌};
ghost use Rattle.mixture.specs.Mixtures.{action_shown, action_at, is_odd, mixture_at, ends_in};

use arbiter::ArbiterState;
use types::{Action, Reason, Request};

#[derive(Clone, Copy)]
pub struct Mixture {
    pub previous: Action,
    pub wanted: Action,
    pub position_valid: bool,
    pub clock_fault: bool,
    pub recovery_elapsed: bool,
}

// How many mixtures there are.
const MIXTURES: u8 = 200;

// The action that a step shows. A recovery began at 0 and is to last 1 ms: it has elapsed where the clock reads 1.
pub fn action_shown(m: Mixture) -> Action
    ensures { result ≡ action_shown m }
{
    let state = ArbiterState {
        prev_output: m.previous,
        prev_reason: Reason::None,
        recovery_since_ms: Some(0),
    };
    let request = Request {
        reason: Reason::None,
        action: m.wanted,
    };
    let now_ms = u32::from(m.recovery_elapsed);
    state
        .arbitrate(now_ms, 1, request, m.position_valid, m.clock_fault)
        .output
        .action
}

// The action of a rank; Land from 4 up.
fn action_at(rank: u8) -> Action
    ensures { result ≡ action_at rank }
{
    Action::try_from(rank).unwrap_or(Action::Land)
}

fn is_odd(n: u8) -> bool
    ensures { result ≡ is_odd n }
{
    n % 2 == 1
}

// The mixture of a number, counted from 0: recovery turns over first, then fault, position, wanted and previous action.
pub fn mixture_at(n: u8) -> Mixture
    ensures { result ≡ mixture_at n }
{
    Mixture {
        previous: action_at(n / 40),
        wanted: action_at(n / 8 % 5),
        position_valid: is_odd(n / 4),
        clock_fault: is_odd(n / 2),
        recovery_elapsed: is_odd(n),
    }
}

// How many of the 200 mixtures end in an action.
pub fn ends_in(a: Action) -> usize
    ensures { result ≡ ends_in a }
{
    (0..MIXTURES)
        .map(mixture_at)
        .filter(|&m| action_shown(m) == a)
        .count()
}
