// A Telemetry that is written and read again is the same: the round trip as code.
#![tactic(auto)]

ghost use Rattle.std.specs.Prelude.{◌≡◌, Ok};

use types::Telemetry;
use wire::FrameError;

pub fn written_and_read(t: Telemetry) -> Result<Telemetry, FrameError>
    ensures { result ≡ Ok t }
{
    let mut b = [0u8; 106];
    frame_telemetry::write_telemetry(&mut b, t)?;
    frame_telemetry::read_telemetry(&b)
}
