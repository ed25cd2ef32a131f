// Walks over positions, by a test or a width that the caller hands in: each scanner is one of them.
ghost use Rattle.std.specs.Prelude.{◌≡◌, ℕ, ◌+◌, ◌≤◌, ◌<◌};
ghost use Rattle.characters.specs.Walk.{Finds, FindsLast, Asks, Skips};

// The first position from i to before e that passes the test, or e: the end stands for none as in the definition, and the callers go on from it.
pub fn find<F: Fn(usize) -> bool>(i: usize, e: usize, test: F) -> usize
    requires in_order { i ≤ e }
    requires callable { (k : ℕ) → i ≤ k → k < e → F.pre test k }
    ensures { Finds (F.post test) i e result }
{
    for k in i..e {
        if test(k) {
            return k;
        }
    }
    e
}

// The last such position.
pub fn find_last<F: Fn(usize) -> bool>(i: usize, e: usize, test: F) -> Option<usize>
    requires { (k : ℕ) → i ≤ k → k < e → F.pre test k }
    ensures { FindsLast (F.post test) i e result }
{
    for k in (i..e).rev() {
        if test(k) {
            return Some(k);
        }
    }
    None
}

// Whether one of the first n positions passes. It asks about all of them whatever it finds, so that the compiler can take many at once.
pub fn any_of<F: Fn(usize) -> bool>(n: usize, test: F) -> bool
    requires { (j : ℕ) → j < n → F.pre test j }
    ensures { Asks (F.post test) n result }
{
    let mut found = false;
    for j in 0..n {
        found = found | test(j);
    }
    found
}

// Past the characters that follow one another from i on, of which `width` measures each, up to e.
pub fn skip<F: Fn(usize) -> usize>(i: usize, e: usize, width: F) -> usize
    requires in_order { i ≤ e }
    requires callable { (k : ℕ) → k ≤ e → F.pre width k }
    requires fits { (k n : ℕ) → k ≤ e → F.post width k n → k + n ≤ e }
    ensures { Skips (F.post width) i e result }
{
    let mut k = i;
    // whether it goes on is known only when the width is
    loop {
        let n = width(k);
        if n == 0 {
            return k;
        }
        k += n;
    }
}
