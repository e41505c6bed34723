// Writing a description's one payload: document 01, 'Writing and boxes'.
#![tactic(auto)]

ghost use Rattle.std.specs.Prelude.{◌≡◌};
ghost use Rattle.writer.specs.Write.{after, described};

use paper::Refusal;
use unit::{Description, Unit};
use writer::Payload;

// Writes the one payload of a description for the size limit m.
pub fn write_description(
    sidx: usize,
    d: &[u8],
    m: usize,
    number: usize,
    out: &mut [u8],
) -> Result<Payload, Refusal>
    ensures { after result out.new ≡ described sidx d.now m number out.old }
{
    if allows::is_undescribed(sidx, d.len(), m, out.len()) {
        return Err(Refusal::Writer);
    }
    if m < d.len() + 4 {
        return Err(Refusal::Parts);
    }
    if number != 1 {
        return Err(Refusal::Payload);
    }
    let x = Unit::Description(Description {
        sidx,
        start: 4,
        len: d.len(),
    });
    let len = lays::lay(out, x, d);
    Ok(Payload { len, count: 1 })
}
