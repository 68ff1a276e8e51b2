// Copies lent bytes to the front of a lent tail, 128 at once where there are so many, else 32, eight or four: the compiler makes moves of
// these, and no function from outside is called.
#![tactic(auto)]

ghost use Rattle.std.specs.Prelude.{◌≡◌, ◌++◌, ◌≤◌, ◌<◌, length, take, drop};
ghost use Rattle.cdf_builder_copy.specs.Onto.{onto};

// One by one.
fn copy_few(tail: &mut [u8], bytes: &[u8])
    requires { length bytes.now ≤ length tail.old }
    ensures { tail.new ≡ bytes.now ++ drop (length bytes.now) tail.old }
{
    for i in 0..bytes.len() {
        tail[i] = bytes[i];
    }
}

// The first N.
fn copy_first<const N: usize>(tail: &mut [u8], bytes: &[u8])
    requires { (N ≤ length bytes.now) × (N ≤ length tail.old) }
    ensures { tail.new ≡ take N bytes.now ++ drop N tail.old }
{
    tail[..N].copy_from_slice(&bytes[..N]);
}

// N at a time, and then the last N, of which some may be there already.
fn copy_by<const N: usize>(tail: &mut [u8], bytes: &[u8])
    requires { (1 ≤ N) × (N ≤ length bytes.now) × (length bytes.now ≤ length tail.old) }
    ensures { tail.new ≡ bytes.now ++ drop (length bytes.now) tail.old }
{
    let last = bytes.len() - N;
    let mut at = 0;
    while at < last {
        copy_first::<N>(&mut tail[at..], &bytes[at..]);
        at += N;
    }
    copy_first::<N>(&mut tail[last..], &bytes[last..]);
}

// Writes these bytes over the tail's first ones, where there are as many.
pub fn copy(tail: &mut [u8], bytes: &[u8])
    ensures { tail.new ≡ onto bytes.now tail.old }
{
    if tail.len() < bytes.len() {
        return;
    }
    if bytes.len() < 4 {
        copy_few(tail, bytes);
        return;
    }
    if bytes.len() < 8 {
        copy_by::<4>(tail, bytes);
        return;
    }
    if bytes.len() < 32 {
        copy_by::<8>(tail, bytes);
        return;
    }
    if bytes.len() < 128 {
        copy_by::<32>(tail, bytes);
        return;
    }
    copy_by::<128>(tail, bytes);
}
