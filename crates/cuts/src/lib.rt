// A sample that does not fit the size limit: it is cut by document 01's rules, and one of its parts is written.
#![tactic(auto)]

ghost use Rattle.std.specs.Prelude.{◌≡◌, true, false, length};
ghost use Rattle.writer.specs.Cuts.{Counted};
ghost use Rattle.writer.specs.Returns.{Writable};
ghost use Rattle.writer.specs.Write.{long, unwritable, after, written};
ghost use Rattle.writer.specs.Lent.{caption_of};

use paper::Refusal;
use paper::limits::PARTS_MOST;
use writer::{PartFound, PartNumber, Payload, Sample};

// Part n of a sample whose parts were counted: `f` is what the pass over the string found.
fn write_part(
    c: &Sample,
    m: usize,
    f: PartFound,
    n: PartNumber,
    out: &mut [u8],
) -> Result<Payload, Refusal>
    requires { Counted (caption_of c.now) m n.this out.old f n.total }
    ensures { after result out.new ≡ written (caption_of c.now) m n.this out.old }
{
    if !(1..=n.total).contains(&n.this) {
        return Err(Refusal::Payload);
    }
    let len = if n.this <= f.count {
        sends::send_string(c, f, n, out)
    } else {
        sends::send_block(c, n.this - f.count - 1, m - 7, n, out)
    };
    Ok(Payload {
        len,
        count: n.total,
    })
}

// A sample that does not fit: the parts are counted, and the one of the number is written.
pub fn write_cut(c: &Sample, m: usize, number: usize, out: &mut [u8]) -> Result<Payload, Refusal>
    requires out_value { unwritable (caption_of c.now) m (length out.old) ≡ false }
    requires writable { Writable (caption_of c.now) m (length out.old) }
    requires m_value { long (caption_of c.now) m ≡ true }
    ensures { after result out.new ≡ written (caption_of c.now) m number out.old }
{
    if c.string.is_empty() {
        return Err(Refusal::Parts);
    }
    let f = passes::find(c.u, c.string, m - 10, number);
    let total = f.count + c.modifiers.len().div_ceil(m - 7);
    if PARTS_MOST < total {
        return Err(Refusal::Parts);
    }
    let n = PartNumber {
        this: number,
        total,
    };
    write_part(c, m, f, n, out)
}
