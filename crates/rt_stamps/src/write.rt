// Whole pieces, written.
ghost use Rattle.std.specs.Prelude.{◌+◌};
ghost use Rattle.rt_stamps.specs.Written.{WritesText};

use crate::{Fault, Sink};

/// Writes a piece whole, in as many writes as the sink asks for, the first of them with the whole
/// piece. `WriteFault` where a write fails or takes nothing; a front of the piece was then written.
pub fn write_all<W: Sink>(out: &mut W, piece: &[u8]) -> Result<(), Fault>
    ensures { WritesText (W.stream out.old) (W.stream out.new) result piece.now }
{
    let mut done = 0;
    while done < piece.len() {
        let n = match out.write(&piece[done..]) {
            Ok(n) => n,
            Err(_) => return Err(Fault::WriteFault),
        };
        if n == 0 {
            return Err(Fault::WriteFault);
        }
        done += n;
    }
    Ok(())
}
