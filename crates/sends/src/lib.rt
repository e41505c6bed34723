// A part of a sample that is cut goes out: the string part that was found, or a block of the modifiers.
#![tactic(auto)]

ghost use Rattle.std.specs.Prelude.{◌≡◌, ◌<◌, ◌*◌, length};
ghost use Rattle.laws.specs.Region.{part};
ghost use Rattle.unit.specs.Layout.{string_part, modifiers_part};
ghost use Rattle.unit.specs.declared.Unit.TheVariants.{Part as PartUnit};
ghost use Rattle.writer.specs.Find.{found_in};
ghost use Rattle.writer.specs.Returns.{PutDown, block_type};
ghost use Rattle.writer.specs.Write.{sample};
ghost use Rattle.writer.specs.Lent.{caption_of};

use unit::{Part, Unit};
use writer::{PartFound, PartNumber, Sample};

// The block numbered j from 0.
fn block(s: &[u8], j: usize, k: usize) -> &[u8]
    requires { (j < 65536) × (k < 65536) }
    ensures { result.now ≡ part (j * k) k s.now }
{
    octets::cut(s, j * k, k)
}

#[tactic(auto, using(laws::specs::Rows::rows), unfolding(writer::specs::Returns::block_type))]
fn block_type(j: usize) -> usize
    ensures { result ≡ block_type j }
{
    if j == 0 { 3 } else { 4 }
}

// Part n, from where to where it was found in the string.
pub fn send_string(c: &Sample, f: PartFound, n: PartNumber, out: &mut [u8]) -> usize
    ensures { PutDown result out.new out.old
        (PartUnit (string_part c.now.u n.total n.this c.now.sdur c.now.sidx (length (sample (caption_of c.now)))
        (length (found_in f c.now.string.now))))
        (found_in f c.now.string.now) }
{
    let d = octets::cut(c.string, f.from, f.to.saturating_sub(f.from));
    let x = Unit::Part(Part {
        kind: 2,
        total: n.total,
        this: n.this,
        sdur: c.sdur,
        u: c.u,
        sidx: c.sidx,
        slen: c.slen(),
        start: 10,
        len: d.len(),
    });
    lays::lay(out, x, d)
}

// Part n: of the modifiers, in blocks of k bytes, the block numbered j from 0.
pub fn send_block(c: &Sample, j: usize, k: usize, n: PartNumber, out: &mut [u8]) -> usize
    requires { (j < 65536) × (k < 65536) }
    ensures { PutDown result out.new out.old
        (PartUnit (modifiers_part (block_type j) n.total n.this c.now.sdur (length (part (j * k) k c.now.modifiers.now))))
        (part (j * k) k c.now.modifiers.now) }
{
    let d = block(c.modifiers, j, k);
    let PartNumber { this, total } = n;
    let x = Unit::Part(Part {
        kind: block_type(j),
        total,
        this,
        sdur: c.sdur,
        u: 0,
        sidx: 0,
        slen: 0,
        start: 7,
        len: d.len(),
    });
    lays::lay(out, x, d)
}
