// A unit's header with its data, at the front of the output.
#![tactic(auto)]

ghost use Rattle.std.specs.Prelude.{◌≤◌, length};
ghost use Rattle.paper.specs.Limits.{sample_most};
ghost use Rattle.writer.specs.Returns.{PutDown};
ghost use Rattle.writer.specs.Write.{sample, whole_unit};
ghost use Rattle.writer.specs.Lent.{caption_of};

use unit::{Unit, Whole};
use writer::Sample;

// A unit's header and its data at the front of the output; answers how many bytes they are.
pub fn lay(out: &mut [u8], x: Unit, d: &[u8]) -> usize
    ensures { PutDown result out.new out.old x d.now }
{
    let n = header::put_head(out, x);
    octets::put(out, n, d);
    n + d.len()
}

// A sample that goes out whole.
pub fn write_whole(c: &Sample, out: &mut [u8]) -> usize
    requires { length (sample (caption_of c.now)) ≤ sample_most }
    ensures { PutDown result out.new out.old (whole_unit (caption_of c.now)) (sample (caption_of c.now)) }
{
    let x = Unit::Whole(Whole {
        u: c.u,
        sidx: c.sidx,
        sdur: c.sdur,
        tlen: c.string.len(),
        start: 9,
        len: c.slen(),
    });
    let n = lay(out, x, c.string);
    octets::put(out, n, c.modifiers);
    n + c.modifiers.len()
}
