// Putting the header of a part down: TYPE 2, 3 and 4.
#![tactic(auto)]

ghost use Rattle.std.specs.Prelude.{◌≡◌, length};
ghost use Rattle.std.proofs.lemmas.List.Edits.{sets};
ghost use Rattle.unit.specs.Head.{string_head, modifiers_head, part_head};

use unit::Part;

fn put_string(out: &mut [u8], w: Part) -> usize
    ensures { (result ≡ length (string_head w)) × (out.new ≡ sets out.old 0 (string_head w)) }
{
    let [len1, len0] = octets::bytes::<2>(w.len % 65536 + 9);
    let [sdur2, sdur1, sdur0] = octets::bytes::<3>(w.sdur);
    let [slen1, slen0] = octets::bytes::<2>(w.slen);
    let first = (w.u % 2 * 128 + 2) as u8;
    let counts = (w.total % 16 * 16 + w.this % 16) as u8;
    let sidx = (w.sidx % 256) as u8;
    let head = [
        first, len1, len0, counts, sdur2, sdur1, sdur0, sidx, slen1, slen0,
    ];
    octets::put(out, 0, &head);
    head.len()
}

fn put_modifiers(out: &mut [u8], w: Part) -> usize
    ensures { (result ≡ length (modifiers_head w)) × (out.new ≡ sets out.old 0 (modifiers_head w)) }
{
    let [len1, len0] = octets::bytes::<2>(w.len % 65536 + 6);
    let [sdur2, sdur1, sdur0] = octets::bytes::<3>(w.sdur);
    let first = (w.kind % 8) as u8;
    let counts = (w.total % 16 * 16 + w.this % 16) as u8;
    let head = [first, len1, len0, counts, sdur2, sdur1, sdur0];
    octets::put(out, 0, &head);
    head.len()
}

// TYPE 2 has one header, TYPE 3 and 4 another.
pub fn put_part(out: &mut [u8], w: Part) -> usize
    ensures { (result ≡ length (part_head w)) × (out.new ≡ sets out.old 0 (part_head w)) }
{
    if w.kind == 2 {
        return put_string(out, w);
    }
    put_modifiers(out, w)
}
