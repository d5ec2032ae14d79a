// Adding a keep-out area to those held, and removing one: from slice to slice, body by body as sent.
#![tactic(auto)]

ghost use Rattle.std.specs.Prelude.{◌≡◌, ◌++◌, ◌+◌, ◌<◌, ◌≤◌, ◌||◌, eqb, length};
ghost use Rattle.std.specs.Result.{is_ok};
ghost use Rattle.std.proofs.lemmas.List.Edits.{sets};
ghost use Rattle.wire.specs.Frame.{frame_number, check_room, frame_written};
ghost use Rattle.frame_areas.specs.AreaFrame.{area_number};
ghost use Rattle.edit_areas.specs.Edit.{write_call, add_call, remove_call};
ghost use Rattle.edit_areas.specs.Cut.{place_of, framed};

use frame_areas::{AreaError, Bodies};
use wire::FrameError;

// The byte where the body of a number begins; Err where it is not held, with the byte where it would.
fn place_of(s: &[u8], number: u8) -> Result<usize, usize>
    ensures { result ≡ place_of s.now number }
{
    let mut at = s.len().min(5);
    for body in Bodies::new(s) {
        let n = wire::u8_at(body, 0);
        if n >= number {
            return if n == number { Ok(at) } else { Err(at) };
        }
        at += body.len();
    }
    Err(at)
}

// Copies a part of a frame to its place.
fn put_part(s: &mut [u8], at: usize, part: &[u8])
    requires { at + length part.now ≤ length s.old }
    ensures { s.new ≡ sets s.old at part.now }
{
    slices::copy(part, &mut s[at..]);
}

// The frame of a kind whose body is one byte, a count or a number, and three parts; nothing is written where it has no room.
fn put_frame(
    kind: u16,
    before: &[u8],
    area: &[u8],
    after: &[u8],
    first: u8,
    output: &mut [u8],
) -> Result<(), FrameError>
    requires { length before.now + length area.now + length after.now < 65533 }
    ensures value { result ≡ check_room (framed kind first (before.now ++ (area.now ++ after.now))) output.old }
    ensures output_after { output.new ≡ frame_written (framed kind first (before.now ++ (area.now ++ after.now))) output.old }
{
    let n = before.len() + area.len() + after.len();
    if output.len() < 5 + n {
        return Err(FrameError::NoRoom);
    }
    wire::put_head(output, kind, (3 + n) as u16);
    wire::put_u8(output, 4, first);
    put_part(output, 5, before);
    put_part(output, 5 + before.len(), area);
    put_part(output, 5 + before.len() + area.len(), after);
    Ok(())
}

// The kind 7 frame of an area, whose corner count and corners come as bytes, into the first bytes of output; WrongLength where they are not as many as the
// count says, else NoRoom, with nothing written.
pub fn write_area(number: u8, corners: &[u8], output: &mut [u8]) -> Result<(), FrameError>
    ensures value { frame_number result ≡ (write_call number corners.now output.old).number }
    ensures output_after { output.new ≡ (write_call number corners.now output.old).output }
{
    if corners.len() != 1 + 8 * usize::from(wire::u8_at(corners, 0)) {
        return Err(FrameError::WrongLength);
    }
    put_frame(7, &[], corners, &[], number, output)
}

// A number that no area may have: 0, and one that is held.
fn wrong_number(number: u8, place: Result<usize, usize>) -> bool
    ensures { result ≡ eqb number 0 || is_ok place }
{
    number == 0 || place.is_ok()
}

// The frame of the areas then held, into the first bytes of output; an error leaves it as it was.
pub fn add_area(areas: &[u8], area: &[u8], output: &mut [u8]) -> Result<(), AreaError>
    ensures value { area_number result ≡ (add_call areas.now area.now output.old).number }
    ensures output_after { output.new ≡ (add_call areas.now area.now output.old).output }
{
    frame_areas::check_areas(areas)?;
    frame_areas::check_area_frame(area)?;
    let body = &area[4..];
    let number = wire::u8_at(area, 4);
    let count = wire::u8_at(areas, 4);
    let place = place_of(areas, number);
    frame_areas::check_body(body, wrong_number(number, place), usize::from(count))?;
    let from = areas.len().min(5);
    // An accepted area's number is not held.
    let at = place.unwrap_err();
    put_frame(13, &areas[from..at], body, &areas[at..], count + 1, output)?;
    Ok(())
}

// The same for the areas without that number.
pub fn remove_area(areas: &[u8], number: u8, output: &mut [u8]) -> Result<(), AreaError>
    ensures value { area_number result ≡ (remove_call areas.now number output.old).number }
    ensures output_after { output.new ≡ (remove_call areas.now number output.old).output }
{
    frame_areas::check_areas(areas)?;
    let Ok(at) = place_of(areas, number) else {
        return Err(AreaError::AreaNumber);
    };
    let end = at + frame_areas::body_size(&areas[at..]);
    let count = wire::u8_at(areas, 4);
    put_frame(13, &areas[5..at], &[], &areas[end..], count - 1, output)?;
    Ok(())
}
