// The slots of a desk's store: those that leave the window are forgotten, and a description is put down.
#![tactic(auto)]

ghost use Rattle.std.specs.Prelude.{◌≡◌, ◌*◌};
ghost use Rattle.std.proofs.lemmas.List.Edits.{sets};
ghost use Rattle.paper.specs.Limits.{record_size};
ghost use Rattle.style.specs.Record.{record_of};
ghost use Rattle.style.specs.Store.{forgotten_at, forgotten, stored};

use paper::limits::{RECORD_SIZE, WINDOW};

fn put_record(store: &mut [u8], i: usize, r: &[u8])
    ensures { store.new ≡ sets store.old (record_size * i) r.now }
{
    octets::put(store, RECORD_SIZE.saturating_mul(i), r);
}

fn forget_at(store: &mut [u8], newest: usize, new: usize, i: usize)
    ensures { store.new ≡ forgotten_at newest new store.old i }
{
    if !window::does_stay(newest, new, records::index_at(store, i)) {
        put_record(store, i, &[0; RECORD_SIZE]);
    }
}

// Blanks every slot whose value does not stay in the window.
pub fn forget(store: &mut [u8], newest: usize, new: usize)
    ensures { store.new ≡ forgotten newest new store.old }
{
    for i in 0..WINDOW {
        forget_at(store, newest, new, i);
    }
}

fn record_of(v: usize, d: &[u8]) -> [u8; RECORD_SIZE]
    ensures { result ≡ record_of v d.now }
{
    let [high, low] = octets::bytes::<2>(d.len());
    let head = [(v % 256) as u8, 0, high, low];
    let mut r = [0; RECORD_SIZE];
    octets::put(&mut r, 0, &head);
    octets::put(&mut r, 4, d);
    r
}

// Puts the record of v down in its slot.
pub fn put_description(store: &mut [u8], v: usize, d: &[u8])
    ensures { store.new ≡ stored store.old v d.now }
{
    put_record(store, v % WINDOW, &record_of(v, d));
}
