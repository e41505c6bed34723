// Putting a unit's header down. That of a part is in `part_header`.
#![tactic(auto)]

ghost use Rattle.std.specs.Prelude.{◌≡◌, length};
ghost use Rattle.std.proofs.lemmas.List.Edits.{sets};
ghost use Rattle.unit.specs.Head.{whole_head, description_head, head_of};

use unit::{Description, Unit, Whole};

fn put_whole(out: &mut [u8], w: Whole) -> usize
    ensures { (result ≡ length (whole_head w)) × (out.new ≡ sets out.old 0 (whole_head w)) }
{
    let [len1, len0] = octets::bytes::<2>(w.len % 65536 + 8);
    let [sdur2, sdur1, sdur0] = octets::bytes::<3>(w.sdur);
    let [tlen1, tlen0] = octets::bytes::<2>(w.tlen);
    let first = (w.u % 2 * 128 + 1) as u8;
    let sidx = (w.sidx % 256) as u8;
    let head = [first, len1, len0, sidx, sdur2, sdur1, sdur0, tlen1, tlen0];
    octets::put(out, 0, &head);
    head.len()
}

fn put_description(out: &mut [u8], w: Description) -> usize
    ensures { (result ≡ length (description_head w)) × (out.new ≡ sets out.old 0 (description_head w)) }
{
    let [len1, len0] = octets::bytes::<2>(w.len % 65536 + 3);
    let head = [5, len1, len0, (w.sidx % 256) as u8];
    octets::put(out, 0, &head);
    head.len()
}

// Puts the unit's header over the front of the output, and answers its length; what lies behind it stays. No unit: nothing.
pub fn put_head(out: &mut [u8], x: Unit) -> usize
    ensures { (result ≡ length (head_of x)) × (out.new ≡ sets out.old 0 (head_of x)) }
{
    match x {
        Unit::Whole(w) => put_whole(out, w),
        Unit::Part(w) => part_header::put_part(out, w),
        Unit::Description(w) => put_description(out, w),
        Unit::End | Unit::Skipped(_) | Unit::Refused(_) => 0,
    }
}
