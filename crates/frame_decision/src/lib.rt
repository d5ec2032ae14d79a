// Kind 4: a Decision in its frame of 95 bytes, read and written.
#![tactic(auto, unfolding(crate::specs::Slots::slot_at, crate::specs::DecisionFrame::estimate_at, crate::specs::DecisionFrame::decision_at, crate::specs::DecisionFrame::read_decision, options::specs::Options::option_f32_at, options::specs::Options::le_option_f32))]

ghost use Rattle.std.specs.Prelude.{◌≡◌};
ghost use Rattle.std.proofs.lemmas.List.Edits.{sets};
ghost use Rattle.wire.specs.Frame.{check_room, frame_written};
ghost use Rattle.wire.specs.Laid.{laid};
ghost use Rattle.frame_decision.specs.Slots.{slot_at, slots_at, slot_valid, slots_valid, le_slot, le_slots};
ghost use Rattle.frame_decision.specs.DecisionFrame.{estimate_at, decision_at, decision_valid, read_decision, le_estimate, decision_frame};

use types::{ActiveSet, Decision, EnergyEstimate, Request};
use wire::FrameError;

fn slot_at(s: &[u8], at: u8) -> Option<Request>
    ensures { result ≡ slot_at s.now at }
{
    let at = usize::from(at);
    if wire::flag_at(s, at) {
        Some(Request {
            reason: options::reason_at(s, at + 1),
            action: options::action_at(s, at + 2),
        })
    } else {
        None
    }
}

fn slots_at(s: &[u8]) -> ActiveSet
    ensures { result.reqs ≡ slots_at s.now 19 }
{
    let mut reqs = [None; 19];
    for i in 0..19u8 {
        reqs[usize::from(i)] = slot_at(s, 7 + 3 * i);
    }
    ActiveSet { reqs }
}

fn slot_valid(s: &[u8], at: u8) -> bool
    ensures { result ≡ slot_valid s.now at }
{
    let at = usize::from(at);
    match wire::u8_at(s, at) {
        0 => wire::u16_at(s, at + 1) == 0,
        1 => wire::byte_below(s, at + 1, 19) & wire::byte_below(s, at + 2, 5),
        _ => false,
    }
}

fn slots_valid(s: &[u8]) -> bool
    ensures { result ≡ slots_valid s.now 19 }
{
    for i in 0..19u8 {
        if !slot_valid(s, 7 + 3 * i) {
            return false;
        }
    }
    true
}

fn estimate_at(s: &[u8]) -> EnergyEstimate
    ensures { result ≡ estimate_at s.now }
{
    EnergyEstimate {
        rtl_wh: wire::f32_at(s, 66),
        land_wh: wire::f32_at(s, 70),
        reserve_wh: wire::f32_at(s, 74),
        remaining_wh: options::option_at(s, 78),
        margin_wh: options::option_at(s, 83),
        insufficient_for_landing: wire::flag_at(s, 88),
    }
}

fn decision_at(s: &[u8]) -> Decision
    ensures { result ≡ decision_at s.now }
{
    Decision {
        action: options::action_at(s, 4),
        reason: options::reason_at(s, 5),
        requested: options::action_at(s, 6),
        active: slots_at(s),
        position_valid: wire::flag_at(s, 64),
        clock_fault: wire::flag_at(s, 65),
        energy: estimate_at(s),
        fence_dist_m: options::option_at(s, 89),
        disarm_eligible: wire::flag_at(s, 94),
    }
}

// No test is made after one that fails.
#[tactic(auto, unfolding(crate::specs::DecisionFrame::decision_valid))]
fn decision_valid(s: &[u8]) -> bool
    ensures { result ≡ decision_valid s.now }
{
    slots_valid(s)
        && wire::byte_below(s, 4, 5)
        && wire::byte_below(s, 5, 19)
        && wire::byte_below(s, 6, 5)
        && wire::byte_below(s, 64, 2)
        && wire::byte_below(s, 65, 2)
        && options::option_valid(s, 78, 4)
        && options::option_valid(s, 83, 4)
        && wire::byte_below(s, 88, 2)
        && options::option_valid(s, 89, 4)
        && wire::byte_below(s, 94, 2)
}

// The Decision of a whole frame. Its length is asked once more where the compiler sees it, and then no place in the frame is tested against it.
pub fn read_decision(s: &[u8]) -> Result<Decision, FrameError>
    ensures { result ≡ read_decision s.now }
{
    wire::check_frame(s, 4, 93)?;
    if s.len() == 95 && decision_valid(s) {
        Ok(decision_at(s))
    } else {
        Err(FrameError::OutOfRange)
    }
}

// An absent request is three bytes of 0, which stand there already.
#[tactic(auto, unfolding(crate::specs::Slots::le_slot, options::specs::Enums::le_action, options::specs::Enums::le_reason, wire::specs::Fields::le_flag, wire::specs::Fields::le8))]
fn put_slot(s: &mut [u8], at: u8, slot: Option<Request>)
    ensures { s.new ≡ laid s.old at (le_slot slot) }
{
    let at = usize::from(at);
    if let Some(q) = slot {
        wire::put_u8(s, at, 1);
        options::put_reason(s, at + 1, q.reason);
        options::put_action(s, at + 2, q.action);
    }
}

// Most requests are absent, so all bytes are made 0 first.
fn put_slots(s: &mut [u8], a: ActiveSet)
    ensures { s.new ≡ sets s.old 7 (le_slots 19 a.reqs) }
{
    wire::put_zeros(s, 7, 57);
    for i in 0..19u8 {
        put_slot(s, 7 + 3 * i, a.reqs[usize::from(i)]);
    }
}

fn put_estimate(s: &mut [u8], e: EnergyEstimate)
    ensures { s.new ≡ sets s.old 66 (le_estimate e) }
{
    wire::put_f32(s, 66, e.rtl_wh);
    wire::put_f32(s, 70, e.land_wh);
    wire::put_f32(s, 74, e.reserve_wh);
    options::put_option(s, 78, e.remaining_wh);
    options::put_option(s, 83, e.margin_wh);
    wire::put_flag(s, 88, e.insufficient_for_landing);
}

// The frame, as far as the slice has room.
pub fn put_decision(s: &mut [u8], d: Decision)
    ensures { s.new ≡ sets s.old 0 (decision_frame d) }
{
    wire::put_head(s, 4, 93);
    options::put_action(s, 4, d.action);
    options::put_reason(s, 5, d.reason);
    options::put_action(s, 6, d.requested);
    put_slots(s, d.active);
    wire::put_flag(s, 64, d.position_valid);
    wire::put_flag(s, 65, d.clock_fault);
    put_estimate(s, d.energy);
    options::put_option(s, 89, d.fence_dist_m);
    wire::put_flag(s, 94, d.disarm_eligible);
}

// The frame in the first 95 bytes; nothing written where the slice has fewer.
pub fn write_decision(s: &mut [u8], d: Decision) -> Result<(), FrameError>
    ensures { (result ≡ check_room (decision_frame d) s.old) × (s.new ≡ frame_written (decision_frame d) s.old) }
{
    if s.len() < 95 {
        return Err(FrameError::NoRoom);
    }
    put_decision(s, d);
    Ok(())
}
