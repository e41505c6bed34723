// The box walk of document 01: what stands at a place of the modifiers, and a box's contents as a part of them.
#![tactic(auto)]

ghost use Rattle.std.specs.Prelude.{◌≡◌};
ghost use Rattle.boxes.specs.Step.{step_of, contents_of};

use paper::Refusal;

// What stands at a place: a box by its type, the four bytes as a big-endian number; the end; or a refusal. And the place of the next box;
// at the end and on refusal that is the place given.
#[derive(Clone, Copy)]
pub struct Stepped {
    pub found: Result<Option<usize>, Refusal>,
    pub next: usize,
}

const HEADER_SIZE: usize = 8;

#[tactic(auto, using(laws::specs::Rows::rows), unfolding(crate::specs::Step::step_of))]
pub fn step(m: &[u8], at: usize) -> Stepped
    ensures { result ≡ step_of m.now at }
{
    if at == m.len() {
        return Stepped {
            found: Ok(None),
            next: at,
        };
    }
    let left = m.len().saturating_sub(at);
    let size = octets::number::<4>(m, at);
    if left < HEADER_SIZE || size < HEADER_SIZE || left < size {
        return Stepped {
            found: Err(Refusal::Box),
            next: at,
        };
    }
    Stepped {
        found: Ok(Some(octets::number::<4>(m, at + 4))),
        next: at + size,
    }
}

// The contents of the box at a place, not copied; empty at the end and on refusal.
pub fn contents(m: &[u8], at: usize) -> &[u8]
    ensures { result.now ≡ contents_of m.now at }
{
    match step(m, at).found {
        Ok(Some(_)) => {
            let size = octets::number::<4>(m, at);
            octets::cut(m, at + HEADER_SIZE, size.saturating_sub(HEADER_SIZE))
        }
        Ok(None) => octets::cut(m, at, 0),
        Err(_) => octets::cut(m, at, 0),
    }
}
