// A sheet that is written and read back; the round trip both ways is proved here.
#![tactic(auto)]

ghost use Rattle.codec.specs.Again.{Agains};

use base_refusal::Refusal;
use sheet::Sheet;

// Writes a sheet and reads it back: the round trip, of the program.
pub fn again(t: Sheet, buffer: &mut [u8]) -> Result<Sheet, Refusal>
    ensures { Agains t buffer.old buffer.new result }
{
    match codec_write::write(t, buffer) {
        Ok(n) => codec_read::read(&buffer[..n]),
        Err(e) => Err(e),
    }
}
