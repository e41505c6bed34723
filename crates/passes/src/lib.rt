// The pass over a string that is cut, with no table of parts: the work grows with the sample's length and with the size limit, and not with
// the number of the part that is wanted.
#![tactic(auto)]

ghost use Rattle.std.specs.Prelude.{◌≡◌, ◌<◌, ◌≤◌, length};
ghost use Rattle.writer.specs.Cut.{strings};
ghost use Rattle.writer.specs.Find.{found, turned, sought};

use writer::PartFound;

#[tactic(auto, using(laws::specs::Rows::rows), unfolding(writer::specs::Find::turned))]
fn turn(number: usize, f: PartFound, e: usize, next: usize) -> PartFound
    requires { f.count < next }
    ensures { result ≡ turned number f e next }
{
    let count = f.count + 1;
    let (from, to) = if count == number {
        (e, next)
    } else {
        (f.from, f.to)
    };
    PartFound { count, from, to }
}

// Passes over the string part by part, each as long as possible within k bytes: counts the parts, and finds the one of the number.
pub fn find(u: usize, s: &[u8], k: usize, number: usize) -> PartFound
    requires { k < 65536 }
    ensures { (result ≡ sought number 0 (found 0 0 0) (strings u k s.now)) × (result.count ≤ length s.now) }
{
    let mut f = PartFound {
        count: 0,
        from: 0,
        to: 0,
    };
    let mut e = 0;
    loop {
        let next = strings::boundary(u, s, e, e + k);
        if next == e {
            return f;
        }
        f = turn(number, f, e, next);
        e = next;
    }
}
