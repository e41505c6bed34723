// Refusal 17: whether the text of a unit is well-formed, which it has to be by itself.
#![tactic(auto)]

ghost use Rattle.std.specs.Prelude.{◌≡◌};
ghost use Rattle.unit.specs.declared.Unit.TheVariants as U;
ghost use Rattle.unit.specs.Layout.{ill_text};

use unit::{Part, Unit, Whole};

// The first TLEN bytes of the sample; what stands behind them is not looked at.
fn ill_whole(rest: &[u8], w: Whole) -> bool
    ensures { result ≡ ill_text rest.now (U.Whole w) }
{
    let sample = octets::cut(rest, w.start, w.len);
    !strings::well_formed(w.u, octets::cut(sample, 0, w.tlen))
}

// All data of a TYPE 2; a TYPE 3 or 4 has no text.
fn ill_part(rest: &[u8], w: Part) -> bool
    ensures { result ≡ ill_text rest.now (U.Part w) }
{
    w.kind == 2 && !strings::well_formed(w.u, octets::cut(rest, w.start, w.len))
}

pub fn is_ill(rest: &[u8], x: Unit) -> bool
    ensures { result ≡ ill_text rest.now x }
{
    match x {
        Unit::Whole(w) => ill_whole(rest, w),
        Unit::Part(w) => ill_part(rest, w),
        Unit::Description(_) | Unit::End | Unit::Skipped(_) | Unit::Refused(_) => false,
    }
}
