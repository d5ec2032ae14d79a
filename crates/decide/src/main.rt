// Program `decide`: a frame of kind 1 or 11, one of kind 2 or 8, then frames of kind 3, with at most one of kind 13 before each, from
// standard input; frames of kind 4, and of kind 255 for a refusal, to standard output. The work is in the crates `stream` and `decided`,
// which says what is written for the whole input; here is input and output in blocks. No contract can say what is read or written:
// these functions say where a turn leaves the program, whatever it read.
#![tactic(auto)]

ghost use Rattle.std.specs.Prelude.{true, ◌++◌, ◌≡◌, ◌≤◌, length, take, drop, ltb};
ghost use Rattle.std.proofs.Math.Seq.{slice};
ghost use Rattle.decided.specs.Program.{pending, next, newly};

use decided::Kept;
use std::alloc::Alloc;
use std::env;
use std::env::Env;
use std::io::{Eprint, Print, Read};
use stream::Session;

// Writes the first bytes of the output block out; false where there are not so many, or where the write fails.
fn write_out<P: Print>(rt: &P, put: usize, output: &[u8]) -> bool
    ensures { result ≡ true → put ≤ length output.now }
{
    put <= output.len() && rt.write_all(&output[..put]).is_ok()
}

// Reads once, behind the `have` bytes that are in, and answers how many are in then: no more than `have` at the end of the
// input, and where a read fails.
fn read_behind<R: Read>(reader: &mut R, input: &mut [u8], have: usize) -> usize
    requires { have ≤ length input.old }
    ensures lower_bound { (have ≤ result) × (result ≤ length input.old) }
    ensures input_unchanged { take have input.new ≡ take have input.old }
{
    match reader.read(&mut input[have..]) {
        Ok(got) => have + got,
        Err(_) => have,
    }
}

// Nothing was left to answer: moves the rest to the front and reads behind it. At the end of the input that is answered, and the
// program ends.
#[tactic(auto, using(decided::proofs::Rest::behind, decided::proofs::Moved::moved_length))]
fn read_on<P: Print, R: Read>(
    rt: &P,
    reader: &mut R,
    session: &Session,
    from: usize,
    have: usize,
    input: &mut [u8],
    output: &mut [u8],
) -> Kept
    ensures from_le_have { (result.from ≤ result.have) × (result.have ≤ length input.old) × (result.session ≡ session.now) }
    ensures more_value { result.more ≡ ltb (length (slice from have input.old)) result.have }
    ensures input_after { slice result.from result.have input.new ≡ slice from have input.old ++ drop (length (slice from have input.old)) (slice result.from result.have input.new) }
{
    let rest = decided::move_front(input, from, have);
    let full = read_behind(reader, input, rest);
    if full == rest {
        let put = stream::end_input(session.due, rest, output);
        write_out(rt, put, output);
    }
    Kept {
        session: *session,
        from: 0,
        have: full,
        more: rest < full,
    }
}

// A turn: answers what it can of the bytes that were read and writes the answers out; where nothing was left to answer, it reads.
// After a refusal or a failed write the program ends.
#[tactic(auto, using(decided::proofs::Rest::lent, decided::proofs::Rest::turned_read))]
fn turn<P: Print, R: Read>(
    rt: &P,
    reader: &mut R,
    k: &Kept,
    input: &mut [u8],
    output: &mut [u8],
    held: &mut [u8; 1045],
) -> Kept
    requires { (k.now.from ≤ k.now.have) × (k.now.have ≤ length input.old) }
    ensures from_le_have { (result.from ≤ result.have) × (result.have ≤ length input.old) }
    ensures held_after { pending result input.new held.new ≡ next (length output.old) (pending k.now input.old held.old) (newly (pending k.now input.old held.old) (pending result input.new held.new)) }
{
    let t = decided::answer_front(&k.session, &input[k.from..k.have], output, held);
    if t.taken == 0 {
        return read_on(rt, reader, &t.session, k.from, k.have, input, output);
    }
    let ok = write_out(rt, t.put, output);
    let due = t.session.due;
    Kept {
        session: t.session,
        from: k.from + t.taken,
        have: k.have,
        more: ok & (due.in_setup() | due.in_flight()),
    }
}

// Turn after turn, until the input ends, or a refusal or a failed write ends the program. The input block has room for a frame of
// 65,537 bytes, the longest, beside a partial one; `held` for eight areas of sixteen corners, the most that a frame of kind 13 can
// hold. The count of turns is there because a proved loop has to end; no input is that long. That every place is reached by turns
// (`Turns`) is the loop's invariant; a struct that is handed back would cost each frame 4 %.
fn decide<P: Print, R: Read>(rt: &P, reader: &mut R) {
    let mut input = [0u8; 131072];
    let mut output = [0u8; 65536];
    let mut held = [0u8; 1045];
    let mut k = Kept {
        session: stream::begin(),
        from: 0,
        have: 0,
        more: true,
    };
    for _turn in 0..u64::MAX {
        if !k.more {
            return;
        }
        k = turn(rt, reader, &k, &mut input, &mut output, &mut held);
    }
}

// Whether the program was started with a word behind its name.
fn has_words<R: Env + Alloc>(rt: &R) -> bool {
    env::args(rt).map_or(true, |words| words.len() > 1)
}

fn main(rt: HostRuntime) {
    if has_words(&rt) {
        let _told = eprintln!(rt;
            "usage: decide, without a word: it reads frames of kinds 1 or 11, 2 or 8, 13 and 3 from standard input"
        ).is_ok();
        return;
    }
    let mut reader = rt.stdin();
    decide(&rt, &mut reader);
}
