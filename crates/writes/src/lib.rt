// Writing one payload of a sample: document 01, 'Writing and boxes'.
#![tactic(auto)]

ghost use Rattle.std.specs.Prelude.{◌≡◌};
ghost use Rattle.writer.specs.Write.{after, written};
ghost use Rattle.writer.specs.Lent.{caption_of};

use paper::Refusal;
use writer::{Payload, Sample};

// Writes payload `number` of a sample for the size limit m.
pub fn write_sample(c: &Sample, m: usize, number: usize, out: &mut [u8]) -> Result<Payload, Refusal>
    ensures { after result out.new ≡ written (caption_of c.now) m number out.old }
{
    if allows::is_unwritable(c, m, out.len()) {
        return Err(Refusal::Writer);
    }
    if m < c.slen() + 9 {
        return cuts::write_cut(c, m, number, out);
    }
    if number != 1 {
        return Err(Refusal::Payload);
    }
    let len = lays::write_whole(c, out);
    Ok(Payload { len, count: 1 })
}
