// Program `mixtures`: how many of the 200 mixtures end in each action, a line each. The counts are worked out by the crate
// `mixture`; no contract can say what is written.
#![tactic(auto)]

ghost use Rattle.std.specs.Prelude.{◌≡◌};
ghost use Rattle.mixture.specs.Mixtures.{ends_in};

use std::io::Print;
use types::Action;

// Writes a line, name, one space and count, and answers the count, also where the write fails.
fn print_line<R: Print>(rt: &R, name: &str, a: Action) -> usize
    ensures { result ≡ ends_in a }
{
    let count = mixture::ends_in(a);
    let _written = println!(rt; "{name} {count}").is_ok();
    count
}

fn main(rt: HostRuntime) {
    let actions = [
        ("Nominal", Action::Nominal),
        ("Warn", Action::Warn),
        ("Hold", Action::Hold),
        ("ReturnToLaunch", Action::ReturnToLaunch),
        ("Land", Action::Land),
    ];
    for (name, action) in actions {
        print_line(&rt, name, action);
    }
}
