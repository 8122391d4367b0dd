//! A caller of `drive`.

ghost use Rattle.std.specs.Prelude.{◌≡◌, ◌∷◌, List, IfOk, IfSome};
ghost use Rattle.drive.specs.State.{Agrees};
ghost use Rattle.drive.specs.Answers.{IsAnswer};
ghost use Rattle.fis.specs.H2d.{h2d_at};
ghost use Rattle.history.specs.Facts.{facts};
ghost use Rattle.history.specs.History.{Act, Accept, event, log};
ghost use Rattle.history.specs.Opening.{Origin};

use drive::{Accepted, Drive};
use fis::H2D_LENGTH;
use std::alloc::AllocError;

/// Gives a drive the FIS of a command with its payload. None where the payload is not of as many bytes as the
/// command brings: then nothing was done.
pub fn hand_over(
    drive: &mut Drive,
    fis: &[u8; H2D_LENGTH],
    payload: &[u8],
) -> Result<Option<Accepted>, AllocError>
    // Whatever was done with the drive before, it now stands as after that and this command, and answers as it should.
    ensures done { IfOk result (λ given. IfSome given (λ accepted.
        (o : Origin) (acts : List Act) → Agrees drive.old o acts
        → Agrees drive.new o (Accept fis.now payload.now ∷ acts)
        × IsAnswer (facts o (log o acts)) (h2d_at fis.now)
        (event o (log o acts) (Accept fis.now payload.now)) accepted)) }
    ensures nothing { result ≡ Ok None → drive.new ≡ drive.old }
{
    if payload.len() != drive.payload_len(fis) {
        return Ok(None);
    }
    let accepted = drive.accept(fis, payload)?;
    Ok(Some(accepted))
}
