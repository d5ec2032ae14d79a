// The one step behind every C entry, and the fresh state: number and buffers for all bytes. The entries themselves are in `failsafe`.
#![tactic(auto)]

ghost use Rattle.std.specs.Prelude.{◌≡◌, false, not, ◌&&◌, ◌++◌, ◌+◌, ◌≤◌, eqb, length, drop, replicate};
ghost use Rattle.flight.specs.Flight.{or_refused, refusal, read_flight, step_flight};
ghost use Rattle.frame_areas.specs.AreaFrame.{area_number};
ghost use Rattle.frame_areas.specs.AreasFrame.{areas_fault};
ghost use Rattle.wire.specs.Fields.{u16_at};
ghost use Rattle.wire.specs.Frame.{frame_error_number, frame_number, frame_fault};
ghost use Rattle.frame_state.specs.StateFrame.{state_kind, state_length, read_state};
ghost use Rattle.frame_wide.specs.WideState.{state_on};
ghost use Rattle.instants.specs.Listed.{unlisted};
ghost use Rattle.frame_telemetry.specs.TelemetryFrame.{read_telemetry};
ghost use Rattle.calls.specs.Form.{base, wide};
ghost use Rattle.calls.specs.Entry.{flight_keeps, output_frame, output_size, written, after_telemetry, from_state, step_any, step_or_check, fresh_call};
ghost use Rattle.calls.specs.Widen.{widen_call};
ghost use Rattle.calls.specs.Marked.{marked_flight, widened_after};
ghost use Rattle.entries.specs.Errors.{call_error_number, call_number};

use carry::CarryError;
use flight::{Flight, FlightError};
use frame_areas::AreaError;
use frame_wide::StepInstants;
use supervisor::Supervisor;
use types::{Decision, Telemetry};
use wire::FrameError;

// Why a call is declined.
#[derive(Clone, Copy)]
pub enum CallError {
    Frame(FrameError),
    Flight(FlightError),
    Areas(AreaError),
    Carry(CarryError),
}

impl CallError {
    // The number of the refusal: what a C host is answered.
    pub fn number(self) -> u16
        ensures { result ≡ call_error_number self }
    {
        match self {
            CallError::Frame(e) => e.number(),
            CallError::Flight(e) => e.number(),
            CallError::Areas(e) => e.number(),
            CallError::Carry(e) => e.number(),
        }
    }
}

impl From<FrameError> for CallError {
    ghost use Rattle.entries.specs.declared.CallError.{CallError};

    ghost from_gives = { λ e r. r ≡ CallError.Frame e };

    fn from(e: FrameError) -> CallError {
        CallError::Frame(e)
    }
}

impl From<FlightError> for CallError {
    ghost use Rattle.entries.specs.declared.CallError.{CallError};

    ghost from_gives = { λ e r. r ≡ CallError.Flight e };

    fn from(e: FlightError) -> CallError {
        CallError::Flight(e)
    }
}

impl From<AreaError> for CallError {
    ghost use Rattle.entries.specs.declared.CallError.{CallError};

    ghost from_gives = { λ e r. r ≡ CallError.Areas e };

    fn from(e: AreaError) -> CallError {
        CallError::Areas(e)
    }
}

impl From<CarryError> for CallError {
    ghost use Rattle.entries.specs.declared.CallError.{CallError};

    ghost from_gives = { λ e r. r ≡ CallError.Carry e };

    fn from(e: CarryError) -> CallError {
        CallError::Carry(e)
    }
}

// `with_side` stays a value: as a const parameter it would compile the whole step twice, and the readers would no longer have one
// caller, for which the compiler puts them into the step. The buffers of a call travel together as the C interface has them.
fn output_size(with_side: bool) -> usize
    ensures { result ≡ output_size with_side }
{
    if with_side { 96 } else { 95 }
}

// The frame of kind 4; where the side is wanted, one byte more is put in, so that there is one call of the writer.
fn write_output(with_side: bool, d: &Decision, side: u8, output: &mut [u8])
    requires { output_size with_side ≤ length output.old }
    ensures { output.new ≡ output_frame with_side d.now side ++ drop (output_size with_side) output.old }
{
    frame_decision::put_decision(output, *d);
    if with_side {
        frame_side::put_side(output, side, d.disarm_eligible);
    }
}

// The step, where there is room for its Decision.
fn step_write(
    with_side: bool,
    flight: &Flight,
    areas: &[u8],
    s: &Supervisor,
    t: &Telemetry,
    state: &mut [u8],
    output: &mut [u8],
) -> Result<(), CallError>
    requires { length state.old ≡ 2 + state_length (flight_keeps flight.now) }
    ensures value { call_number result ≡ (written with_side (base (flight_keeps flight.now)) (step_flight flight.now areas.now s.now t.now) state.old output.old).number }
    ensures state_after { state.new ≡ (written with_side (base (flight_keeps flight.now)) (step_flight flight.now areas.now s.now t.now) state.old output.old).state }
    ensures output_after { output.new ≡ (written with_side (base (flight_keeps flight.now)) (step_flight flight.now areas.now s.now t.now) state.old output.old).output }
{
    if output.len() < output_size(with_side) {
        return Err(CallError::Frame(FrameError::NoRoom));
    }
    let next = flight::step_flight(flight, areas, s, t);
    frame_state::write_state(state, flight.cfg.keeps_raised, next.supervisor)?;
    write_output(with_side, &next.decision, next.side, output);
    Ok(())
}

fn step_telemetry(
    with_side: bool,
    flight: &Flight,
    areas: &[u8],
    s: &Supervisor,
    state: &mut [u8],
    telemetry: &[u8],
    output: &mut [u8],
) -> Result<(), CallError>
    requires { length state.old ≡ 2 + state_length (flight_keeps flight.now) }
    ensures value { call_number result ≡ (after_telemetry with_side (base (flight_keeps flight.now)) (read_telemetry telemetry.now) flight.now areas.now s.now state.old output.old).number }
    ensures state_after { state.new ≡ (after_telemetry with_side (base (flight_keeps flight.now)) (read_telemetry telemetry.now) flight.now areas.now s.now state.old output.old).state }
    ensures output_after { output.new ≡ (after_telemetry with_side (base (flight_keeps flight.now)) (read_telemetry telemetry.now) flight.now areas.now s.now state.old output.old).output }
{
    let t = frame_telemetry::read_telemetry(telemetry)?;
    step_write(with_side, flight, areas, s, &t, state, output)
}

// State, then telemetry. Each refusal ends the call where it is found, so no blank state or Decision is handed on.
fn step_state(
    with_side: bool,
    flight: &Flight,
    areas: &[u8],
    state: &mut [u8],
    telemetry: &[u8],
    output: &mut [u8],
) -> Result<(), CallError>
    ensures value { call_number result ≡ (from_state with_side (base (flight_keeps flight.now)) flight.now areas.now state.old telemetry.now output.old).number }
    ensures state_after { state.new ≡ (from_state with_side (base (flight_keeps flight.now)) flight.now areas.now state.old telemetry.now output.old).state }
    ensures output_after { output.new ≡ (from_state with_side (base (flight_keeps flight.now)) flight.now areas.now state.old telemetry.now output.old).output }
{
    let s = frame_state::read_state(state, flight.cfg.keeps_raised)?;
    step_telemetry(with_side, flight, areas, &s, state, telemetry, output)
}

// The areas' refusal. Most flights have none, and then nothing is called.
fn check_areas(areas: &[u8]) -> Result<(), AreaError>
    ensures { area_number result ≡ areas_fault areas.now }
{
    if areas.is_empty() {
        return Ok(());
    }
    frame_areas::check_areas(areas)
}

// ---- kinds 9 and 10: the step above on marks of how each test of the 64-bit clock comes out

fn is_wide(keeps: bool, state: &[u8]) -> bool
    ensures { result ≡ not keeps && eqb (u16_at state.now 2) 10 }
{
    !keeps && wire::u16_at(state, 2) == 10
}

fn marked_flight(flight: &Flight, age: u64) -> Flight
    ensures { result ≡ marked_flight flight.now age }
{
    Flight {
        cfg: marks::mark_config(&flight.cfg, age),
        ..*flight
    }
}

// Whether a kind 5 is refused for a field out of range. It is asked by a step without telemetry, which answers 1 where the state is accepted: so `read_state`
// has one caller, and the compiler puts it into the step.
fn check_state(flight: &Flight, areas: &[u8], low: &mut [u8]) -> Result<(), CallError>
    requires { frame_fault (state_kind (flight_keeps flight.now)) (state_length (flight_keeps flight.now)) low.old ≡ 0 }
    ensures value { call_number result ≡ frame_number (read_state (flight_keeps flight.now) low.old) }
    ensures low_unchanged { low.new ≡ low.old }
{
    match step_state(false, flight, areas, low, &[], &mut []) {
        Ok(()) => Ok(()),
        Err(e) => { if e.number() == 1 { Ok(()) } else { Err(e) } }
    }
}

// The kind 10 after a step whose kind 5 is `low` and whose Decision is in `output`.
fn widen_after(
    state: &mut [u8],
    low: &[u8],
    x: &[u64; 30],
    reading: u64,
    position: u64,
    output: &[u8],
)
    requires { (length state.old ≡ 306) × (length low.now ≡ 186) }
    ensures { state.new ≡ widened_after state.old low.now (unlisted x.now) reading position output.now }
{
    let fault = wire::flag_at(output, 65);
    let step = StepInstants {
        reading,
        position,
        distance: wire::flag_at(output, 89),
        fault,
        third_fault: fault & (wire::u8_at(low, 184) == 0),
    };
    let next = frame_wide::instants_next(state, x, &step);
    frame_wide::widen_state(low, &next, state);
}

// The step, where both heads are those of kinds 10 and 9.
fn step_marked(
    with_side: bool,
    flight: &Flight,
    areas: &[u8],
    state: &mut [u8],
    telemetry: &[u8],
    output: &mut [u8],
) -> Result<(), CallError>
    requires { (flight_keeps flight.now ≡ false) × (frame_fault 10 304 state.old ≡ 0) × (frame_fault 9 148 telemetry.now ≡ 0) }
    ensures value { call_number result ≡ (from_state with_side wide flight.now areas.now state.old telemetry.now output.old).number }
    ensures state_after { state.new ≡ (from_state with_side wide flight.now areas.now state.old telemetry.now output.old).state }
    ensures output_after { output.new ≡ (from_state with_side wide flight.now areas.now state.old telemetry.now output.old).output }
{
    let x = frame_wide::state_instants(state);
    let j = frame_wide::telemetry_instants(telemetry);
    let mut low = frame_wide::state_on(state, &marks::state_marks(&flight.cfg, j[0], &x));
    let reading = frame_wide::telemetry_on(telemetry, &marks::telemetry_marks(&flight.cfg, &j));
    let heartbeat = wire::flag_at(&reading, 77).then_some(j[6]);
    let age = marks::heartbeat_age(j[0], heartbeat);
    let marked = marked_flight(flight, age);
    step_state(with_side, &marked, areas, &mut low, &reading, output)?;
    widen_after(state, &low, &x, j[0], j[1], output);
    Ok(())
}

// Telemetry whose head is refused: the state's own refusal comes first.
fn late_error(
    flight: &Flight,
    areas: &[u8],
    state: &[u8],
    late: FrameError,
) -> Result<(), CallError>
    requires { (flight_keeps flight.now ≡ false) × (frame_fault 10 304 state.now ≡ 0) }
    ensures { call_number result ≡ or_refused (frame_number (read_state false (state_on (replicate 30 0) state.now))) (frame_error_number late) }
{
    let mut low = frame_wide::state_on(state, &[0; 30]);
    check_state(flight, areas, &mut low)?;
    Err(CallError::Frame(late))
}

// A step on a state of kind 10, beside a configuration of kind 1. A function of its own, so that a 32-bit step has neither its stack nor its registers.
#[inline(never)]
fn step_wide(
    with_side: bool,
    flight: &Flight,
    areas: &[u8],
    state: &mut [u8],
    telemetry: &[u8],
    output: &mut [u8],
) -> Result<(), CallError>
    requires { flight_keeps flight.now ≡ false }
    ensures value { call_number result ≡ (from_state with_side wide flight.now areas.now state.old telemetry.now output.old).number }
    ensures state_after { state.new ≡ (from_state with_side wide flight.now areas.now state.old telemetry.now output.old).state }
    ensures output_after { output.new ≡ (from_state with_side wide flight.now areas.now state.old telemetry.now output.old).output }
{
    wire::check_frame(state, 10, 304)?;
    if let Err(late) = wire::check_frame(telemetry, 9, 148) {
        return late_error(flight, areas, state, late);
    }
    step_marked(with_side, flight, areas, state, telemetry, output)
}

// One step, or with `checking` the refusal of configuration, fence and areas alone. Both are in one function, so that what reads a flight has one
// caller and the compiler puts it into the step.
fn step_or_check(
    checking: bool,
    with_side: bool,
    config: &[u8],
    fence: &[u8],
    state: &mut [u8],
    telemetry: &[u8],
    output: &mut [u8],
    areas: &[u8],
) -> Result<(), CallError>
    ensures value { call_number result ≡ (step_or_check checking with_side config.now fence.now state.old telemetry.now output.old areas.now).number }
    ensures state_after { state.new ≡ (step_or_check checking with_side config.now fence.now state.old telemetry.now output.old areas.now).state }
    ensures output_after { output.new ≡ (step_or_check checking with_side config.now fence.now state.old telemetry.now output.old areas.now).output }
{
    frame_config::check_config_frame(config)?;
    let read = frame_fence::read_fence(fence)?;
    // The flight is lent, since `?` would copy it.
    let accepted = flight::accept_frame(&config[0..246], &read);
    let flight = match &accepted {
        Ok(f) => f,
        Err(e) => return Err(CallError::Flight(*e)),
    };
    check_areas(areas)?;
    if checking {
        return Ok(());
    }
    if is_wide(flight.cfg.keeps_raised, state) {
        step_wide(with_side, flight, areas, state, telemetry, output)
    } else {
        step_state(with_side, flight, areas, state, telemetry, output)
    }
}

// One step: `with_side` is whether kind 6 is written, and not kind 4.
pub fn step_any(
    with_side: bool,
    config: &[u8],
    fence: &[u8],
    state: &mut [u8],
    telemetry: &[u8],
    output: &mut [u8],
    areas: &[u8],
) -> Result<(), CallError>
    ensures value { call_number result ≡ (step_any with_side config.now fence.now state.old telemetry.now output.old areas.now).number }
    ensures state_after { state.new ≡ (step_any with_side config.now fence.now state.old telemetry.now output.old areas.now).state }
    ensures output_after { output.new ≡ (step_any with_side config.now fence.now state.old telemetry.now output.old areas.now).output }
{
    step_or_check(
        false, with_side, config, fence, state, telemetry, output, areas,
    )
}

// The first refusal of configuration and fence, as a step gives it.
pub fn check(config: &[u8], fence: &[u8]) -> Result<(), CallError>
    ensures { call_number result ≡ refusal (read_flight config.now fence.now) }
{
    step_or_check(true, false, config, fence, &mut [], &[], &mut [], &[])
}

// A fresh state into the first 186 bytes, or 194 where it is for a configuration of kind 11; later bytes stay.
pub fn fresh(keeps: bool, state: &mut [u8]) -> Result<(), CallError>
    ensures value { call_number result ≡ (fresh_call (base keeps) state.old).number }
    ensures state_after { state.new ≡ (fresh_call (base keeps) state.old).state }
{
    frame_state::write_fresh(state, keeps)?;
    Ok(())
}

// The same of kind 10, into the first 306 bytes: its body is zero bytes alone.
pub fn fresh_wide(state: &mut [u8]) -> Result<(), CallError>
    ensures value { call_number result ≡ (fresh_call wide state.old).number }
    ensures state_after { state.new ≡ (fresh_call wide state.old).state }
{
    if state.len() < 306 {
        return Err(CallError::Frame(FrameError::NoRoom));
    }
    wire::put_head(state, 10, 304);
    wire::put_zeros(state, 4, 302);
    Ok(())
}

// ---- carrying over

// The refusal of a state of kind 5: its head's, or that of a field out of range.
fn check_old(old: &[u8]) -> Result<(), CallError>
    ensures { call_number result ≡ frame_number (read_state false old.now) }
{
    wire::check_frame(old, 5, 184)?;
    let mut low = [0u8; 186];
    slices::copy(old, &mut low);
    check_state(&Flight::default(), &[], &mut low)
}

// An accepted state on the 64-bit clock, into the first 306 bytes; later bytes stay.
fn carry_over(old: &[u8], last_now: u64, new: &mut [u8]) -> Result<(), CallError>
    requires { frame_number (read_state false old.now) ≡ 0 }
    ensures value { call_number result ≡ (widen_call old.now last_now new.old).number }
    ensures after { new.new ≡ (widen_call old.now last_now new.old).state }
{
    let x = carry::carry(old, last_now)?;
    if new.len() < 306 {
        return Err(CallError::Frame(FrameError::NoRoom));
    }
    frame_wide::widen_state(old, &x, new);
    Ok(())
}

// A running state of kind 5 as one of kind 10: `last_now` is its last sound reading in 64 bits.
pub fn widen(old: &[u8], last_now: u64, new: &mut [u8]) -> Result<(), CallError>
    ensures value { call_number result ≡ (widen_call old.now last_now new.old).number }
    ensures after { new.new ≡ (widen_call old.now last_now new.old).state }
{
    check_old(old)?;
    carry_over(old, last_now, new)
}
