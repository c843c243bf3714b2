// Chains: places in buckets, in two rows of two-byte numbers. What the places hold is the caller's.
#![tactic(auto)]

ghost use Rattle.std.specs.Prelude.{◌≡◌, ◌-◌, ◌<◌, ◌≤◌, length, get_or, replicate};
ghost use Rattle.chains.specs.Chains.{CanPush, counted, heads_with, next_with, mixed, bucket_in};

// Places in buckets: of each bucket the last place that was put there, and of each place the one before it in its bucket.
#[derive(Drop)]
pub struct Chains<const PLACES: usize, const BUCKETS: usize> {
    pub heads: [u16; BUCKETS],
    pub next: [u16; PLACES],
}

// A number in which every bit of a page counts, for a bucket to be made from.
pub fn mix(page: u64) -> u64
    ensures { result ≡ mixed page }
{
    page % 4294967296 * 1640531527 + page / 4294967296 * 1540483477
}

// The bucket of a page, of so many.
pub fn bucket<const BUCKETS: usize>(page: u64) -> usize
    requires some { 0 < BUCKETS }
    requires few { BUCKETS ≤ 65536 }
    ensures value { result ≡ bucket_in BUCKETS page }
    ensures upper_bound { result < BUCKETS }
{
    mix(page) as usize / (4294967296 / BUCKETS) % BUCKETS
}

// Here and below the rows are lent one by one and may have any length, so that a caller may have them as it will; `Chains` has two of its own and lends them.

// The last place of a bucket. What its head says up to base was left by chains that are no more.
pub fn head(base: usize, heads: &[u16], v: usize) -> Option<usize>
    requires { v < length heads.now }
    ensures value { counted result ≡ get_or heads.now v 0 - base }
    ensures upper_bound { counted result < 65536 }
{
    let e = usize::from(heads[v]);
    // Tested first: a subtraction that may fail was done whether there is a place or not.
    if base < e { Some(e - base - 1) } else { None }
}

// The last place before place j in its bucket.
pub fn link(next: &[u16], j: usize) -> Option<usize>
    requires { j < length next.now }
    ensures { counted result ≡ get_or next.now j 0 }
{
    usize::from(next[j]).checked_sub(1)
}

// Place c is put in front of bucket v.
pub fn push(base: usize, heads: &mut [u16], next: &mut [u16], c: usize, v: usize)
    requires { CanPush base c v heads.old next.old }
    ensures heads_after { heads.new ≡ heads_with base c v heads.old }
    ensures next_after { next.new ≡ next_with base c v heads.old next.old }
{
    next[c] = heads[v].saturating_sub(base as u16);
    heads[v] = (base + c + 1) as u16;
}

// No bucket has a place.
pub fn clear(heads: &mut [u16])
    ensures { heads.new ≡ replicate (length heads.old) 0 }
{
    heads.fill(0);
}

impl<const PLACES: usize, const BUCKETS: usize> Chains<PLACES, BUCKETS> {
    // No bucket has a place.
    pub fn new() -> Self
        ensures heads { result.heads ≡ replicate BUCKETS 0 }
        ensures next { result.next ≡ replicate PLACES 0 }
    {
        Chains {
            heads: [0; BUCKETS],
            next: [0; PLACES],
        }
    }

    // The bucket of a page: of the lower 32 bits of the number that it is mixed to, the upper ones.
    pub fn bucket(&self, page: u64) -> usize
        requires some { 0 < BUCKETS }
        requires few { BUCKETS ≤ 65536 }
        ensures value { result ≡ bucket_in BUCKETS page }
        ensures upper_bound { result < BUCKETS }
    {
        bucket::<BUCKETS>(page)
    }

    // The last place of a bucket. What its head says up to base was left by chains that are no more.
    pub fn head(&self, base: usize, v: usize) -> Option<usize>
        requires { v < BUCKETS }
        ensures value { counted result ≡ get_or self.now.heads v 0 - base }
        ensures upper_bound { counted result < 65536 }
    {
        head(base, &self.heads, v)
    }

    // The last place before place j in its bucket.
    pub fn link(&self, j: usize) -> Option<usize>
        requires { j < PLACES }
        ensures { counted result ≡ get_or self.now.next j 0 }
    {
        link(&self.next, j)
    }

    // Place c is put in front of bucket v.
    pub fn push(&mut self, base: usize, c: usize, v: usize)
        requires { CanPush base c v self.old.heads self.old.next }
        ensures heads_after { self.new.heads ≡ heads_with base c v self.old.heads }
        ensures next_after { self.new.next ≡ next_with base c v self.old.heads self.old.next }
    {
        push(base, &mut self.heads, &mut self.next, c, v);
    }

    // No bucket has a place.
    pub fn clear(&mut self)
        ensures heads { self.new.heads ≡ replicate (length self.old.heads) 0 }
        ensures next { self.new.next ≡ self.old.next }
    {
        clear(&mut self.heads);
    }
}
