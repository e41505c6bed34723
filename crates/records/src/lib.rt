// Records of 260 bytes, in a style book and in a desk's store alike.
#![tactic(auto)]

ghost use Rattle.std.specs.Prelude.{◌≡◌, ◌<◌};
ghost use Rattle.style.specs.Record.{record_at, index_of, description_of};

use paper::limits::RECORD_SIZE;

// Record i, counted from 0.
pub fn record_at(s: &[u8], i: usize) -> &[u8]
    ensures { result.now ≡ record_at s.now i }
{
    octets::cut(s, RECORD_SIZE.saturating_mul(i), RECORD_SIZE)
}

// A record's description.
pub fn description_of(r: &[u8]) -> &[u8]
    ensures { result.now ≡ description_of r.now }
{
    octets::cut(r, 4, octets::number::<2>(r, 2))
}

// The index of record i.
pub fn index_at(s: &[u8], i: usize) -> usize
    ensures { (result ≡ index_of (record_at s.now i)) × (result < 256) }
{
    octets::byte(record_at(s, i), 0)
}
