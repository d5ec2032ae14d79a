// Program `trials SEED COUNT`: COUNT Telemetry frames from a seed to standard output, in blocks. Where an argument is no decimal
// number below 2^32, or is missing, or there are more than two, it says so on standard error and writes no frame. The work is in the
// crate `trial`; what is proved here is that the functions are safe and end.
#![tactic(auto)]

ghost use Rattle.std.specs.Prelude.{min, ◌≡◌, length, nat_le, if◌then◌else◌, MatchOption, string_bytes, None};
ghost use Rattle.trial.specs.Decimal.{read_decimal};

use std::env;
use std::io::{Eprint, Print};

// The frames that a block has room for, of 106 bytes each.
const BLOCK_FRAMES: usize = 618;

// The frames of the next block, where so many are left.
fn block_frames(left: usize) -> usize
    ensures { result ≡ min left 618 }
{
    left.min(BLOCK_FRAMES)
}

// An argument that is missing or longer than 32 bytes is no number.
fn argument(text: Option<String>) -> Option<u32>
    ensures { MatchOption text (result ≡ None)
        (λ s. result ≡ (if nat_le (length (string_bytes s)) 32 then read_decimal (string_bytes s) else None)) }
{
    match text {
        Some(word) if word.len() <= 32 => trial::read_decimal(word.as_bytes()),
        _ => None,
    }
}

// Ends early where a write fails.
fn write_frames<P: Print>(rt: &P, seed: u32, count: u32) {
    let mut block = [0; 65508];
    let mut g = trial::seeded(seed);
    let mut left = count as usize;
    for _ in 0..left.div_ceil(BLOCK_FRAMES) {
        let n = block_frames(left);
        g = trial::fill(g, n, &mut block);
        if rt.write_all(&block[..106 * n]).is_err() {
            return;
        }
        left -= n;
    }
}

fn complain<P: Eprint>(rt: &P) {
    let _told = eprintln!(rt;
        "usage: trials SEED COUNT, two decimal numbers from 0 to 4294967295"
    ).is_ok();
}

fn main(rt: HostRuntime) {
    let Ok(mut words) = env::args(&rt) else {
        complain(&rt);
        return;
    };
    let _program = words.next();
    let seed = argument(words.next());
    let count = argument(words.next());
    match (seed, count, words.next()) {
        (Some(seed), Some(count), None) => write_frames(&rt, seed, count),
        _ => complain(&rt),
    }
}
