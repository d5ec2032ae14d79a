// The work of the program `decide`, on slices: what is written for each frame that it reads, and when it ends.
#![tactic(auto, using(crate::proofs::Room::put_all, crate::proofs::Room::put_none, crate::proofs::Room::put_nothing, crate::proofs::Room::written_nothing, frame_decision::proofs::Size::size, frame_refusal::proofs::Size::size), unfolding(crate::specs::Stream::refusal, crate::specs::Stream::begin, crate::specs::Stream::with_config, crate::specs::Stream::answer_config, crate::specs::Stream::answer_fence, crate::specs::Stream::answer_setup, crate::specs::Stream::setup_frame, crate::specs::Stream::reply_setup, crate::specs::Stream::after_areas, crate::specs::Stream::answer_frame, crate::specs::Stream::next_frame, crate::specs::Stream::end_bytes))]

ghost use Rattle.std.specs.Prelude.{◌≡◌, List, ℕ, ◌+◌, ◌≤◌, length, take, drop};
ghost use Rattle.wire.specs.Frame.{frame_written};
ghost use Rattle.frame_decision.specs.DecisionFrame.{decision_frame};
ghost use Rattle.frame_refusal.specs.RefusalFrame.{refusal_frame};
ghost use Rattle.frame_telemetry.specs.TelemetryFrame.{read_telemetry};
ghost use Rattle.frame_fence.specs.FenceFrame.{read_fence};
ghost use Rattle.flight.specs.Flight.{after_fence};
ghost use Rattle.stream.specs.Stream.{begin, silent, refusal, flying, with_config, answer_config, answer_fence, answer_setup, answered, setup_frame, reply_setup, set_up, put_count, after_telemetry, after_areas, takes_areas, answer_frame, frame_answer, next_frame, next_of, answer_next, fly_session, frames_answer, progress, in_setup, in_flight, end_bytes};

use config::Config;
use flight::{Flight, FlightError};
use supervisor::Supervisor;
use types::Decision;

// The frame that is due: a kind 1, a kind 2 or 8, then a kind 3 or a kind 13 before it, and after a kind 13 a kind 3 alone; after
// a refusal nothing.
#[derive(Clone, Copy)]
pub enum Due {
    Config,
    Fence,
    Telemetry,
    AfterAreas,
    Nothing,
}

// `areas` is how many bytes of keep-out areas are held, in a buffer that the caller keeps: in here they would be copied with each session.
// `refused` is why a frame of kind 1 or 2 was refused, if one was.
#[derive(Clone, Copy)]
pub struct Session {
    pub due: Due,
    pub flight: Flight,
    pub supervisor: Supervisor,
    pub areas: usize,
    pub refused: Option<FlightError>,
}

// The session after a frame of kind 1 or 2, and how many bytes were put.
#[derive(Clone, Copy)]
struct Answer {
    session: Session,
    put: usize,
}

// The session after what was answered from the front of the input, and how many bytes of it were taken, and put.
#[derive(Clone, Copy)]
pub struct Turn {
    pub session: Session,
    pub taken: usize,
    pub put: usize,
}

// What is due after a frame of kind 3 or 13, the supervisor then, how many bytes of areas are held, and how many bytes were put.
#[derive(Clone, Copy)]
struct FrameAnswer {
    due: Due,
    supervisor: Supervisor,
    areas: usize,
    put: usize,
}

// The same after several frames, with how many bytes of the input were taken.
#[derive(Clone, Copy)]
pub struct FramesAnswer {
    pub due: Due,
    pub supervisor: Supervisor,
    pub areas: usize,
    pub taken: usize,
    pub put: usize,
}

impl Due {
    // Whether a kind 1 or 2 is due.
    pub fn in_setup(self) -> bool
        ensures { result ≡ in_setup self }
    {
        matches!(self, Due::Config | Due::Fence)
    }

    // Whether a kind 3 is due, with or without a kind 13 before it.
    pub fn in_flight(self) -> bool
        ensures { result ≡ in_flight self }
    {
        matches!(self, Due::Telemetry | Due::AfterAreas)
    }

    // Whether the frame is a kind 13 that is taken: before each kind 3 at most one is.
    fn takes_areas(self, frame: &[u8]) -> bool
        ensures { result ≡ takes_areas self frame.now }
    {
        matches!(self, Due::Telemetry) && wire::u16_at(frame, 2) == 13
    }
}

// ---- what is put

// Writes a Decision at the start of out, and says how many bytes that is. Without room nothing is written.
fn put_decision(d: Decision, out: &mut [u8]) -> usize
    ensures value { result ≡ put_count (decision_frame d) out.old }
    ensures out_after { out.new ≡ frame_written (decision_frame d) out.old }
{
    match frame_decision::write_decision(out, d) {
        Ok(()) => 95,
        Err(_) => 0,
    }
}

// The same for a refusal.
fn put_refusal(n: u16, out: &mut [u8]) -> usize
    ensures value { result ≡ put_count (refusal_frame n) out.old }
    ensures out_after { out.new ≡ frame_written (refusal_frame n) out.old }
{
    match frame_refusal::write_refusal(out, n) {
        Ok(()) => 6,
        Err(_) => 0,
    }
}

// ---- a kind 1, a kind 2

fn silent(session: Session) -> Answer
    ensures { (out : List ℕ) → result ≡ answered (silent session) out }
{
    Answer { session, put: 0 }
}

// A refusal is put, and ends the session, which says which it was.
fn refusal(e: FlightError, out: &mut [u8]) -> Answer
    ensures value { result ≡ answered (refusal e) out.old }
    ensures out_after { out.new ≡ frame_written (refusal e).bytes out.old }
{
    let session = Session {
        due: Due::Nothing,
        flight: Flight::default(),
        supervisor: Supervisor::fresh(),
        areas: 0,
        refused: Some(e),
    };
    Answer {
        session,
        put: put_refusal(e.number(), out),
    }
}

// Before the first frame.
pub fn begin() -> Session
    ensures { result ≡ begin }
{
    Session {
        due: Due::Config,
        flight: Flight::default(),
        supervisor: Supervisor::fresh(),
        areas: 0,
        refused: None,
    }
}

#[tactic(auto, unfolding(crate::specs::Stream::with_config, flight::specs::Flight::blank_flight))]
fn with_config(cfg: Config) -> Session
    ensures { result ≡ with_config cfg }
{
    Session {
        due: Due::Fence,
        flight: Flight {
            cfg,
            ..Flight::default()
        },
        supervisor: Supervisor::fresh(),
        areas: 0,
        refused: None,
    }
}

fn answer_config(frame: &[u8], out: &mut [u8]) -> Answer
    ensures value { result ≡ answered (answer_config frame.now) out.old }
    ensures out_after { out.new ≡ frame_written (answer_config frame.now).bytes out.old }
{
    match frame_config::read_config(frame) {
        Err(e) => refusal(FlightError::Frame(e), out),
        Ok(cfg) => silent(with_config(cfg)),
    }
}

fn flying(flight: Flight) -> Session
    ensures { result ≡ flying flight }
{
    Session {
        due: Due::Telemetry,
        flight,
        supervisor: Supervisor::fresh(),
        areas: 0,
        refused: None,
    }
}

// The fence frame, then the fence rules and the configuration rules.
fn read_flight(cfg: &Config, frame: &[u8]) -> Result<Flight, FlightError>
    ensures { result ≡ after_fence cfg.now (read_fence frame.now) }
{
    let read = frame_fence::read_fence(frame)?;
    flight::accept_flight(cfg, &read)
}

fn answer_fence(cfg: &Config, frame: &[u8], out: &mut [u8]) -> Answer
    ensures value { result ≡ answered (answer_fence cfg.now frame.now) out.old }
    ensures out_after { out.new ≡ frame_written (answer_fence cfg.now frame.now).bytes out.old }
{
    match read_flight(cfg, frame) {
        Err(e) => refusal(e, out),
        Ok(f) => silent(flying(f)),
    }
}

// One whole frame of kind 1 or 2. Where neither is due, nothing happens.
fn answer_setup(session: &Session, frame: &[u8], out: &mut [u8]) -> Answer
    ensures value { result ≡ answered (answer_setup session.now frame.now) out.old }
    ensures out_after { out.new ≡ frame_written (answer_setup session.now frame.now).bytes out.old }
{
    match session.due {
        Due::Config => answer_config(frame, out),
        Due::Fence => answer_fence(&session.flight.cfg, frame, out),
        Due::Telemetry | Due::AfterAreas | Due::Nothing => silent(*session),
    }
}

// The bytes of the frame that is answered: 0 where neither a kind 1 nor a kind 2 is due, and where no whole frame is there.
fn setup_frame(due: Due, input: &[u8]) -> usize
    ensures value { result ≡ setup_frame due input.now }
    ensures upper_bound { result ≤ length input.now }
{
    if due.in_setup() {
        wire::whole_frame(input)
    } else {
        0
    }
}

// Answers the frame of kind 1 or 2 at the front of the input, where one is due and whole.
pub fn set_up(session: &Session, input: &[u8], out: &mut [u8]) -> Turn
    ensures value { result ≡ set_up session.now input.now out.old }
    ensures out_after { out.new ≡ frame_written (reply_setup session.now input.now).bytes out.old }
{
    let n = setup_frame(session.due, input);
    if n == 0 {
        return Turn {
            session: *session,
            taken: 0,
            put: 0,
        };
    }
    let a = answer_setup(session, &input[..n], out);
    Turn {
        session: a.session,
        taken: n,
        put: a.put,
    }
}

// ---- kind 3 frames, and kind 13 frames between them

// One whole frame of kind 3, with the keep-out areas held.
fn step_frame(
    flight: &Flight,
    supervisor: &Supervisor,
    areas: &[u8],
    frame: &[u8],
    out: &mut [u8],
) -> FrameAnswer
    ensures value { result ≡ frame_answer (after_telemetry (read_telemetry frame.now) flight.now supervisor.now areas.now) out.old }
    ensures out_after { out.new ≡ frame_written (after_telemetry (read_telemetry frame.now) flight.now supervisor.now areas.now).bytes out.old }
{
    match frame_telemetry::read_telemetry(frame) {
        Err(e) => FrameAnswer {
            due: Due::Nothing,
            supervisor: *supervisor,
            areas: areas.len(),
            put: put_refusal(e.number(), out),
        },
        Ok(t) => {
            let next = flight::step_flight(flight, areas, supervisor, &t);
            FrameAnswer {
                due: Due::Telemetry,
                supervisor: next.supervisor,
                areas: areas.len(),
                put: put_decision(next.decision, out),
            }
        }
    }
}

// One whole frame of kind 13: where it is accepted, it is held in the place of the one before.
#[tactic(auto, using(crate::proofs::Holding::accepted_fits, crate::proofs::Holding::held_answer, crate::proofs::Holding::held_written, crate::proofs::Holding::held_bytes, crate::proofs::Holding::not_held, crate::proofs::Holding::kept_length))]
fn hold_areas(p: &FramesAnswer, frame: &[u8], out: &mut [u8], held: &mut [u8]) -> FrameAnswer
    requires areas_bound { p.now.areas ≤ 1045 }
    requires in_bounds { 1045 ≤ length held.old }
    ensures value { result ≡ frame_answer (after_areas p.now.supervisor (take p.now.areas held.old) frame.now) out.old }
    ensures out_after { out.new ≡ frame_written (after_areas p.now.supervisor (take p.now.areas held.old) frame.now).bytes out.old }
    ensures held_after { take result.areas held.new ≡ (after_areas p.now.supervisor (take p.now.areas held.old) frame.now).areas }
{
    match frame_areas::check_areas(frame) {
        Ok(()) => FrameAnswer {
            due: Due::AfterAreas,
            supervisor: p.supervisor,
            areas: slices::copy(frame, held),
            put: 0,
        },
        Err(e) => FrameAnswer {
            due: Due::Nothing,
            supervisor: p.supervisor,
            areas: p.areas,
            put: put_refusal(e.number(), out),
        },
    }
}

// One whole frame of kind 3 or 13. The areas held are the first bytes of `held`.
#[tactic(auto, using(crate::proofs::Frames::kept), unfolding(crate::specs::Stream::answer_frame))]
fn fly_frame(
    flight: &Flight,
    p: &FramesAnswer,
    frame: &[u8],
    out: &mut [u8],
    held: &mut [u8],
) -> FrameAnswer
    requires areas_bound { p.now.areas ≤ 1045 }
    requires in_bounds { 1045 ≤ length held.old }
    ensures value { result ≡ frame_answer (answer_frame flight.now p.now.due p.now.supervisor (take p.now.areas held.old) frame.now) out.old }
    ensures out_after { out.new ≡ frame_written (answer_frame flight.now p.now.due p.now.supervisor (take p.now.areas held.old) frame.now).bytes out.old }
    ensures held_after { take result.areas held.new ≡ (answer_frame flight.now p.now.due p.now.supervisor (take p.now.areas held.old) frame.now).areas }
{
    if p.due.takes_areas(frame) {
        hold_areas(p, frame, out, held)
    } else {
        step_frame(flight, &p.supervisor, &held[..p.areas], frame, out)
    }
}

// The bytes of the frame that is answered next: 0 where no kind 3 is due, where there is no room for a Decision, the longest answer, and where no whole
// frame is there.
fn next_frame(due: Due, input: &[u8], room: usize) -> usize
    ensures value { result ≡ next_frame due input.now room }
    ensures upper_bound { result ≤ length input.now }
{
    if due.in_flight() && room >= 95 {
        wire::whole_frame(input)
    } else {
        0
    }
}

// The same behind the frames that were taken.
#[tactic(auto, using(crate::proofs::Frames::next_of_lem, crate::proofs::Frames::in_rest))]
fn next_of(p: &FramesAnswer, input: &[u8], out: &[u8]) -> usize
    requires taken_in_bounds { p.now.taken ≤ length input.now }
    requires put_in_bounds { p.now.put ≤ length out.now }
    ensures by_index { (held : List ℕ) → result ≡ next_of input.now (length out.now) (progress p.now out.now held) }
    ensures result_in_bounds { p.now.taken + result ≤ length input.now }
{
    next_frame(p.due, &input[p.taken..], out.len() - p.put)
}

// Answers the next frame, which has n bytes.
fn fly_next(
    flight: &Flight,
    p: &FramesAnswer,
    n: usize,
    input: &[u8],
    out: &mut [u8],
    held: &mut [u8],
) -> FramesAnswer
    requires n_in_bounds { p.now.taken + n ≤ length input.now }
    requires put_in_bounds { p.now.put + 95 ≤ length out.old }
    requires areas_bound { p.now.areas ≤ 1045 }
    requires in_bounds { 1045 ≤ length held.old }
    ensures held_after { progress result out.new held.new ≡ answer_next flight.now input.now n (progress p.now out.old held.old) }
    ensures out_unchanged { drop result.put out.new ≡ drop result.put out.old }
    ensures taken_in_bounds { (result.taken ≤ length input.now) × (p.now.put ≤ result.put) × (result.put ≤ length out.new) × (result.areas ≤ 1045) }
{
    let end = p.taken + n;
    let a = fly_frame(flight, p, &input[p.taken..end], &mut out[p.put..], held);
    FramesAnswer {
        due: a.due,
        supervisor: a.supervisor,
        areas: a.areas,
        taken: end,
        put: p.put + a.put,
    }
}

// Answers the frames of kinds 3 and 13 from the front of the input, as long as one is due, whole, and out has room for its answer. The
// areas held are the first bytes of `held`, which has room for the longest frame of them; those beyond it are none.
pub fn fly_frames(
    session: &Session,
    input: &[u8],
    out: &mut [u8],
    held: &mut [u8; 1045],
) -> FramesAnswer
    ensures value { result ≡ frames_answer (fly_session session.now held.old input.now (length out.old)) }
    ensures out_after { out.new ≡ frame_written (fly_session session.now held.old input.now (length out.old)).written out.old }
    ensures held_after { take result.areas held.new ≡ (fly_session session.now held.old input.now (length out.old)).areas }
    ensures taken_in_bounds { (result.taken ≤ length input.now) × (result.put ≤ length out.old) }
{
    let mut p = FramesAnswer {
        due: session.due,
        supervisor: session.supervisor,
        areas: session.areas.min(1045),
        taken: 0,
        put: 0,
    };
    for _turn in 0..input.len() {
        let n = next_of(&p, input, out);
        if n == 0 {
            return p;
        }
        p = fly_next(&session.flight, &p, n, input, out, held);
    }
    p
}

// ---- the end

// The end of the input, after so many bytes that make no whole frame: at a frame boundary nothing is put.
pub fn end_input(due: Due, rest: usize, out: &mut [u8]) -> usize
    ensures value { result ≡ put_count (end_bytes due rest) out.old }
    ensures out_after { out.new ≡ frame_written (end_bytes due rest) out.old }
{
    if rest > 0 && (due.in_setup() || due.in_flight()) {
        put_refusal(1, out)
    } else {
        0
    }
}
