// The entries for the autopilot's C host: include/failsafe.h describes them. Each calls one function of a library that has its logic.
#![tactic(auto)]

ghost use Rattle.std.specs.Prelude.{true, false, [], ◌≡◌};
ghost use Rattle.flight.specs.Flight.{refusal, read_flight};
ghost use Rattle.entries.specs.Errors.{call_number};
ghost use Rattle.calls.specs.Form.{base, wide};
ghost use Rattle.calls.specs.Entry.{step_any, fresh_call};
ghost use Rattle.calls.specs.Widen.{widen_call};
ghost use Rattle.frame_areas.specs.AreaFrame.{area_number};
ghost use Rattle.edit_areas.specs.Edit.{add_call, remove_call};
ghost use Rattle.inside.specs.Call.{inside_call};
ghost use Rattle.spelling.specs.Spell.{spell_number, spell_output};
ghost use Rattle.trial.specs.Call.{trial_call};
ghost use Rattle.whole_energy.specs.Call.{energy_call, energy_number};
ghost use Rattle.merge_frames.specs.Call.{merge_call};

use entries::CallError;
use frame_areas::AreaError;

// What a C host is answered: 0, or the number of the refusal.
fn number(r: Result<(), CallError>) -> u32
    ensures { result ≡ call_number r }
{
    match r {
        Ok(()) => 0,
        Err(e) => u32::from(e.number()),
    }
}

// The same for an edit of the areas.
fn edit_number(r: Result<(), AreaError>) -> u32
    ensures { result ≡ area_number r }
{
    match r {
        Ok(()) => 0,
        Err(e) => u32::from(e.number()),
    }
}

#[unsafe(no_mangle)]
pub extern "C" fn failsafe_step(
    config: &[u8],
    fence: &[u8],
    state: &mut [u8],
    telemetry: &[u8],
    output: &mut [u8],
) -> u32
    ensures value { result ≡ (step_any false config.now fence.now state.old telemetry.now output.old []).number }
    ensures state_after { state.new ≡ (step_any false config.now fence.now state.old telemetry.now output.old []).state }
    ensures output_after { output.new ≡ (step_any false config.now fence.now state.old telemetry.now output.old []).output }
{
    let none = [0u8; 0];
    number(entries::step_any(false, config, fence, state, telemetry, output, &none))
}

// Document 02, L1: the same step, with the side of the fence in its output.
#[unsafe(no_mangle)]
pub extern "C" fn failsafe_step_side(
    config: &[u8],
    fence: &[u8],
    state: &mut [u8],
    telemetry: &[u8],
    output: &mut [u8],
) -> u32
    ensures value { result ≡ (step_any true config.now fence.now state.old telemetry.now output.old []).number }
    ensures state_after { state.new ≡ (step_any true config.now fence.now state.old telemetry.now output.old []).state }
    ensures output_after { output.new ≡ (step_any true config.now fence.now state.old telemetry.now output.old []).output }
{
    let none = [0u8; 0];
    number(entries::step_any(true, config, fence, state, telemetry, output, &none))
}

// Document 02, L3: the same, with the keep-out areas that are held.
#[unsafe(no_mangle)]
pub extern "C" fn failsafe_step_areas(
    config: &[u8],
    fence: &[u8],
    state: &mut [u8],
    telemetry: &[u8],
    output: &mut [u8],
    areas: &[u8],
) -> u32
    ensures value { result ≡ (step_any true config.now fence.now state.old telemetry.now output.old areas.now).number }
    ensures state_after { state.new ≡ (step_any true config.now fence.now state.old telemetry.now output.old areas.now).state }
    ensures output_after { output.new ≡ (step_any true config.now fence.now state.old telemetry.now output.old areas.now).output }
{
    number(entries::step_any(true, config, fence, state, telemetry, output, areas))
}

// Document 02, L3: an area put in among those held, and one taken out.
#[unsafe(no_mangle)]
pub extern "C" fn failsafe_add_area(areas: &[u8], area: &[u8], output: &mut [u8]) -> u32
    ensures value { result ≡ (add_call areas.now area.now output.old).number }
    ensures output_after { output.new ≡ (add_call areas.now area.now output.old).output }
{
    edit_number(edit_areas::add_area(areas, area, output))
}

#[unsafe(no_mangle)]
pub extern "C" fn failsafe_remove_area(areas: &[u8], number: u8, output: &mut [u8]) -> u32
    ensures value { result ≡ (remove_call areas.now number output.old).number }
    ensures output_after { output.new ≡ (remove_call areas.now number output.old).output }
{
    edit_number(edit_areas::remove_area(areas, number, output))
}

#[unsafe(no_mangle)]
pub extern "C" fn failsafe_fresh(state: &mut [u8]) -> u32
    ensures value { result ≡ (fresh_call (base false) state.old).number }
    ensures state_after { state.new ≡ (fresh_call (base false) state.old).state }
{
    number(entries::fresh(false, state))
}

// The fresh state of a flight whose configuration is of kind 11.
#[unsafe(no_mangle)]
pub extern "C" fn failsafe_fresh_raised(state: &mut [u8]) -> u32
    ensures value { result ≡ (fresh_call (base true) state.old).number }
    ensures state_after { state.new ≡ (fresh_call (base true) state.old).state }
{
    number(entries::fresh(true, state))
}

// Document 02, L7: a fresh state on the clock of 64 bits.
#[unsafe(no_mangle)]
pub extern "C" fn failsafe_fresh_wide(state: &mut [u8]) -> u32
    ensures value { result ≡ (fresh_call wide state.old).number }
    ensures state_after { state.new ≡ (fresh_call wide state.old).state }
{
    number(entries::fresh_wide(state))
}

// Document 02, L7: a running state of kind 5 carried over to kind 10; `last_now` is its last sound reading in 64 bits.
#[unsafe(no_mangle)]
pub extern "C" fn failsafe_widen(old: &[u8], last_now: u64, new: &mut [u8]) -> u32
    ensures value { result ≡ (widen_call old.now last_now new.old).number }
    ensures after { new.new ≡ (widen_call old.now last_now new.old).state }
{
    number(entries::widen(old, last_now, new))
}

// Before a flight: the refusal that every step with this configuration and fence would answer, 0 for none.
#[unsafe(no_mangle)]
pub extern "C" fn failsafe_check(config: &[u8], fence: &[u8]) -> u32
    ensures { result ≡ refusal (read_flight config.now fence.now) }
{
    number(entries::check(config, fence))
}

#[unsafe(no_mangle)]
pub extern "C" fn failsafe_trial(generator: &mut [u8], output: &mut [u8]) -> u32
    ensures value { result ≡ (trial_call generator.old output.old).number }
    ensures generator_after { generator.new ≡ (trial_call generator.old output.old).generator }
    ensures output_after { output.new ≡ (trial_call generator.old output.old).output }
{
    wire::number_of(trial::trial(generator, output))
}

#[unsafe(no_mangle)]
pub extern "C" fn failsafe_whole_energy(input: &[u8], output: &mut [u8]) -> u32
    ensures value { result ≡ energy_number (energy_call input.now output.old).result }
    ensures output_after { output.new ≡ (energy_call input.now output.old).output }
{
    match whole_energy::whole_energy(input, output) {
        Ok(()) => 0,
        Err(e) => e.number(),
    }
}

// Document 02, L9: a row of points against one fence.
#[unsafe(no_mangle)]
pub extern "C" fn failsafe_inside(fence: &[u8], points: &[u8], output: &mut [u8]) -> u32
    ensures value { result ≡ (inside_call fence.now points.now output.old).number }
    ensures output_after { output.new ≡ (inside_call fence.now points.now output.old).output }
{
    match inside::inside_call(fence, points, output) {
        Ok(()) => 0,
        Err(e) => u32::from(e.number()),
    }
}

// Document 02, L10: the kind 3 frames of two radios merged into one.
#[unsafe(no_mangle)]
pub extern "C" fn failsafe_merge(
    config: &[u8],
    fence: &[u8],
    first: &[u8],
    second: &[u8],
    output: &mut [u8],
) -> u32
    ensures value { result ≡ (merge_call config.now fence.now first.now second.now output.old).number }
    ensures output_after { output.new ≡ (merge_call config.now fence.now first.now second.now output.old).output }
{
    if let Err(e) = entries::check(config, fence) {
        return u32::from(e.number());
    }
    match merge_frames::merge_accepted(config, first, second, output) {
        Ok(()) => 0,
        Err(e) => u32::from(e.number()),
    }
}

// Document 02, L12: a fence of kind 8 in its one form.
#[unsafe(no_mangle)]
pub extern "C" fn failsafe_spell_fence(fence: &[u8], output: &mut [u8]) -> u32
    ensures value { result ≡ spell_number fence.now output.old }
    ensures output_after { output.new ≡ spell_output fence.now output.old }
{
    match spelling::spell_fence(fence, output) {
        Ok(()) => 0,
        Err(e) => u32::from(e.number()),
    }
}
