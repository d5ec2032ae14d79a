// The program `decide` but for its reading and writing: a turn on the bytes that were read, and moving the rest of them to the front of
// their block. specs/Decided.antt says what is written for the whole input, specs/Program.antt that it doesn't matter how the input is
// cut into blocks.
#![tactic(auto)]

ghost use Rattle.std.specs.Prelude.{◌≡◌, ◌≤◌, length};
ghost use Rattle.std.proofs.Math.Seq.{slice};
ghost use Rattle.wire.specs.Frame.{frame_written};
ghost use Rattle.stream.specs.Stream.{put_count};
ghost use Rattle.decided.specs.Program.{state, turn, moved_front};

use stream::{Session, Turn};

// What is kept between two turns: the session, the place in the input block of the bytes that were read and not yet answered, and
// whether to go on.
#[derive(Clone, Copy)]
pub struct Kept {
    pub session: Session,
    pub from: usize,
    pub have: usize,
    pub more: bool,
}

// Answers frames from the front of the input: one where a kind 1 or 2 is due, and where a kind 3 is, as many as out has room for. The
// areas held are the first bytes of `held`, which has room for the longest frame of them.
pub fn answer_front(session: &Session, input: &[u8], out: &mut [u8], held: &mut [u8; 1045]) -> Turn
    ensures held_after { state result.session held.new ≡ (turn (length out.old) (state session.now held.old) input.now).after }
    ensures taken_value { result.taken ≡ (turn (length out.old) (state session.now held.old) input.now).taken }
    ensures put_value { result.put ≡ put_count (turn (length out.old) (state session.now held.old) input.now).bytes out.old }
    ensures out_after { out.new ≡ frame_written (turn (length out.old) (state session.now held.old) input.now).bytes out.old }
    ensures taken_in_bounds { result.taken ≤ length input.now }
{
    if session.due.in_flight() {
        let p = stream::fly_frames(session, input, out, held);
        return Turn {
            session: Session {
                due: p.due,
                supervisor: p.supervisor,
                areas: p.areas,
                ..*session
            },
            taken: p.taken,
            put: p.put,
        };
    }
    stream::set_up(session, input, out)
}

// Moves the bytes from `from` up to `end` to the front, and says how many they are. Bytes that stand there already are not touched: a frame that comes
// in small pieces would have all its bytes moved with each of them.
#[tactic(auto, using(crate::proofs::Moved::moved, crate::proofs::Moved::moved_none, crate::proofs::Moved::move_none, crate::proofs::Moved::move_nothing))]
pub fn move_front(input: &mut [u8], from: usize, end: usize) -> usize
    ensures value { result ≡ length (slice from end input.old) }
    ensures input_after { input.new ≡ moved_front from end input.old }
{
    let stop = end.min(input.len());
    if from == 0 {
        return stop;
    }
    if stop <= from {
        return 0;
    }
    input.copy_within(from..stop, 0);
    stop - from
}
