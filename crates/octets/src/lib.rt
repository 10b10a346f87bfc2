// Octets in areas that are lent: one way to write them, one to read a part, one to compare. Everything above writes through
// `put`.
#![tactic(auto)]

ghost use Rattle.std.specs.Prelude.{◌≡◌, ◌+◌, ◌≤◌, length};
ghost use Rattle.rules.specs.Octets.{same_octets};
ghost use Rattle.octets.specs.Patch.{patch, part as part_of};

// Writes all of `src` into `dst` from `to` on, octet by octet.
fn put_few(dst: &mut [u8], to: usize, src: &[u8])
    requires { to + length src.now ≤ length dst.old }
    ensures { dst.new ≡ patch to src.now dst.old }
{
    for (i, octet) in src.iter().enumerate() {
        dst[to + i] = *octet;
    }
}

// Writes eight octets of `src`, from `i` on, into `dst` from `to` on. All are read before one is written: so they move at once.
fn put_eight(dst: &mut [u8], to: usize, src: &[u8], i: usize)
    requires { (i + 8 ≤ length src.now) × (to + 8 ≤ length dst.old) }
    ensures { dst.new ≡ patch to (part_of i 8 src.now) dst.old }
{
    let eight = [
        src[i],
        src[i + 1],
        src[i + 2],
        src[i + 3],
        src[i + 4],
        src[i + 5],
        src[i + 6],
        src[i + 7],
    ];
    put_few(dst, to, &eight);
}

// Writes all of `src` into `dst`, from `at` on. `copy_from_slice` in its place is compiled to a call of `memmove`, which the C
// interface asks no host for (include/bawbeenor.h).
pub fn put(dst: &mut [u8], at: usize, src: &[u8])
    requires { at + length src.now ≤ length dst.old }
    ensures { dst.new ≡ patch at src.now dst.old }
{
    if src.len() < 8 {
        put_few(dst, at, src);
        return;
    }
    let last = src.len() - 8;
    // that a `for` over `step_by` ends would have to be proved by hand: no plainer
    let mut i = 0;
    while i < last {
        put_eight(dst, at + i, src, i);
        i += 8;
    }
    // the last eight may overlap what was written: the same octets again
    put_eight(dst, at + last, src, last);
}

// The `size` octets from `from` on.
pub fn part(s: &[u8], from: usize, size: usize) -> &[u8]
    requires { from + size ≤ length s.now }
    ensures { result.now ≡ part_of from size s.now }
{
    &s[from..from + size]
}

// Whether the two hold the same octets. `a == b` is compiled to more where the walk over an offer compares a value: some forty
// instructions for each comparison of a category 4.
pub fn same(a: &[u8], b: &[u8]) -> bool
    ensures { result ≡ same_octets a.now b.now }
{
    a.len() == b.len() && a.iter().zip(b).all(|(x, y)| x == y)
}
