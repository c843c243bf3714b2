// A filter whose rows are lent, of any length. What is found in it, and what is done with it, is found and done here; `Table` has rows of its own and lends them.
ghost use Rattle.std.specs.Prelude.{◌≡◌, ◌+◌, ◌-◌, ◌*◌, ◌≤◌, ◌<◌, ℕ, true, false, ◌&&◌, [], length, get_or, take, set, eqb};
ghost use Rattle.pages.specs.Pages.{has, add as added, place};
ghost use Rattle.trace.specs.Layout.{item_at};
ghost use Rattle.chains.specs.Chains.{counted, heads_with, next_with};
ghost use Rattle.filter.specs.Filter.{pages_in, Stands, Notes, bucket_of, Holds, bucket_at, IsFilter, Holds-prop, CanAdd, FirstNoted, first_from, found, flags_of, flag_is, found_if, empty_base, empty_heads};

use super::BUCKETS;
use super::flags::flag_at;

// How many links of a chain are followed before the places are gone through one by one. Random pages hardly ever have longer chains;
// pages chosen for it do, and then a link costs more than a place.
const LINKS: usize = 8;

// Of as many items whose chains are long one looks for the next noted item. It is dearer than to look for one item, and spares the search for all up to that one.
const FAR: usize = 16;

// How a walk along a chain ends: at a place that passes a test, where the chain is too long to follow, or with no such place.
#[derive(Drop)]
enum Walked {
    Found(usize),
    Long,
    Nowhere,
}

// The filter of a file. Its first places, as many as are held, note an item each, and so hold the item's page, which is read from the file.
#[derive(Clone, Copy)]
pub struct Rows<'a> {
    pub file: &'a [u8],
    pub last: &'a [u32],
    pub held: usize,
    pub base: usize,
    pub heads: &'a [u16],
    pub next: &'a [u16],
    pub ghost is: { IsFilter file.now last.now held base heads.now next.now } by { Holds-prop file.now last.now held base heads.now next.now (pages_in file.now last.now held) },
}

// The page of the item that place j notes.
fn page_at(file: &[u8], last: &[u32], j: usize) -> u64
    requires { Stands file.now last.now j }
    ensures { result ≡ (item_at file.now (get_or last.now j 0)).page }
{
    trace::read::item_at(file, last[j] as usize).page
}

// The place of a page by all places in turn. Tried and slower, by a tenth to a third on hostile traces: a `for` over the places; so four go in a turn.
// It is not put into its callers' loops, where its counters would find no registers, and takes the rows one by one, so that its callers need not put them together in memory.
#[inline(never)]
fn scan(file: &[u8], last: &[u32], held: usize, page: u64) -> Option<usize>
    requires { Notes file.now last.now held (pages_in file.now last.now held) }
    ensures { result ≡ found page (pages_in file.now last.now held) }
{
    let mut j = 0;
    while j + 4 <= held {
        if page_at(file, last, j) == page {
            return Some(j);
        }
        if page_at(file, last, j + 1) == page {
            return Some(j + 1);
        }
        if page_at(file, last, j + 2) == page {
            return Some(j + 2);
        }
        if page_at(file, last, j + 3) == page {
            return Some(j + 3);
        }
        j += 4;
    }
    while j < held {
        if page_at(file, last, j) == page {
            return Some(j);
        }
        j += 1;
    }
    None
}

impl Rows<'_> {
    ghost use Rattle.filter.specs.Lent.{pages};

    // The last place whose page shares the bucket of this page.
    fn newest(&self, page: u64) -> Option<usize>
        ensures { counted result ≡ get_or self.now.heads.now (bucket_of page) 0 - self.now.base }
    {
        chains::head(self.base, self.heads, chains::bucket::<BUCKETS>(page))
    }

    // The page of the item that place j notes.
    fn page_at(&self, j: usize) -> u64
        requires { j < self.now.held }
        ensures { result ≡ (item_at self.now.file.now (get_or self.now.last.now j 0)).page }
    {
        page_at(self.file, self.last, j)
    }

    // The place of a page by all places in turn.
    fn scan(&self, page: u64) -> Option<usize>
        ensures { result ≡ found page (pages self.now) }
    {
        scan(self.file, self.last, self.held, page)
    }

    // A walk along the chain of a page's bucket, to the last place that passes a test. It goes into each caller: called as a function it made a reduction up to a fifth slower.
    #[inline(always)]
    fn walk<T: Fn(usize) -> bool>(&self, page: u64, test: T) -> Walked
        requires { (j : ℕ) → j < self.now.held → T.pre test j }
        ensures found { (j : ℕ) → result ≡ Walked.Found j → (j < self.now.held) × T.post test j true }
        ensures nowhere { result ≡ Walked.Nowhere → (j : ℕ) → j < self.now.held → bucket_at (pages self.now) j ≡ bucket_of page → T.post test j false }
    {
        let mut left = LINKS;
        let mut at = self.newest(page);
        while let Some(j) = at {
            if test(j) {
                return Walked::Found(j);
            }
            if left == 0 {
                return Walked::Long;
            }
            left -= 1;
            at = chains::link(self.next, j);
        }
        Walked::Nowhere
    }

    // The place of a page. The three searches go into each caller, as `walk` does: a call would have the rows put together in memory for it.
    #[inline(always)]
    pub fn find(&self, page: u64) -> Option<usize>
        ensures { result ≡ found page (pages self.now) }
    {
        match self.walk(page, |here| self.page_at(here) == page) {
            Walked::Found(here) => Some(here),
            Walked::Long => self.scan(page),
            Walked::Nowhere => None,
        }
    }

    // Whether place j has the page, and a flag as is asked. The flag is looked at first: the page has to be read from the file.
    fn is_flagged(&self, flags: &[u8], page: u64, on: bool, j: usize) -> bool
        requires j_in_bounds { j < length (flags_of flags.now) }
        requires j_held { j < self.now.held }
        ensures { result ≡ flag_is on (get_or (flags_of flags.now) j 0) && eqb (item_at self.now.file.now (get_or self.now.last.now j 0)).page page }
    {
        flag_at(flags, j) == on && self.page_at(j) == page
    }

    // The place of a page if its flag is as is asked.
    #[inline(always)]
    pub fn find_by_flag<const ON: bool>(&self, flags: &[u8], page: u64) -> Option<usize>
        requires { self.now.held ≤ length (flags_of flags.now) }
        ensures { result ≡ found_if ON (flags_of flags.now) page (pages self.now) }
    {
        // Tried, and the check made no proof: a closure that names ON itself.
        let on = ON;
        match self.walk(page, |j| self.is_flagged(flags, page, on, j)) {
            Walked::Found(j) => Some(j),
            Walked::Long => {
                let j = self.scan(page)?;
                (flag_at(flags, j) == ON).then_some(j)
            }
            Walked::Nowhere => None,
        }
    }

    // The first item from k on that the places note.
    fn next_noted(&self, k: usize) -> Option<usize>
        ensures { result ≡ first_from k (take self.now.held self.now.last.now) }
    {
        self.last[..self.held]
            .iter()
            .map(|i| *i as usize)
            .filter(|i| k <= *i)
            .min()
    }

    // The first item from k on that the filter may note, by the place of item k's page.
    fn noted_at_page(&self, page: u64, k: usize) -> usize
        requires page_value { page ≡ (item_at self.now.file.now k).page }
        requires k_bound { k < usize.MAX }
        ensures { FirstNoted (take self.now.held self.now.last.now) k result }
    {
        let Some(j) = self.scan(page) else {
            return k + 1;
        };
        if self.last[j] as usize == k { k } else { k + 1 }
    }

    // The first item from k on that the filter may note: k if it does. The numbers on the chain of item k's page tell that, and where the chain is long
    // the place of its page. Now and then all places are gone through there, and tell how far on the next one is: one such search serves all items up to it.
    #[inline(always)]
    pub fn first_noted(&self, k: usize) -> usize
        requires { 23 + 19 * (k + 1) ≤ length self.now.file.now }
        ensures { FirstNoted (take self.now.held self.now.last.now) k result }
    {
        let x = trace::read::item_at(self.file, k);
        match self.walk(x.page, |j| self.last[j] as usize == k) {
            Walked::Found(_) => k,
            Walked::Long if k % FAR == 0 => self.next_noted(k).unwrap_or(usize::MAX),
            Walked::Long => self.noted_at_page(x.page, k),
            Walked::Nowhere => k + 1,
        }
    }
}

// Whether a page that the places hold stands at place c. No chain is asked. Here and below the rows are lent one by one, as few as are needed, or to be written.
pub fn is_at(file: &[u8], last: &[u32], held: usize, page: u64, c: usize) -> bool
    requires notes { Notes file.now last.now held (pages_in file.now last.now held) }
    requires held_value { has page (pages_in file.now last.now held) ≡ true }
    ensures { result ≡ eqb (place page (pages_in file.now last.now held)) c }
{
    c < held && page_at(file, last, c) == page
}

// The filter with one page more, that of item k.
pub fn add(
    file: &[u8],
    last: &mut [u32],
    held: usize,
    base: usize,
    heads: &mut [u16],
    next: &mut [u16],
    k: usize,
)
    requires filter { IsFilter file.now last.old held base heads.old next.old }
    requires can_add { CanAdd file.now last.old held k }
    ensures last_after { last.new ≡ set last.old held k }
    ensures heads_after { heads.new ≡ heads_with base held (bucket_of (item_at file.now k).page) heads.old }
    ensures next_after { next.new ≡ next_with base held (bucket_of (item_at file.now k).page) heads.old next.old }
    ensures holds { Holds file.now last.new (held + 1) base heads.new next.new
        (added (item_at file.now k).page (pages_in file.now last.old held)) }
{
    let x = trace::read::item_at(file, k);
    let v = chains::bucket::<BUCKETS>(x.page);
    chains::push(base, heads, next, held, v);
    last[held] = k as u32;
}

// The filter with no page: answers its base. The heads stay while two bytes hold the numbers of a whole filter more, since no head is above the new base; else they are cleared.
pub fn empty(
    file: &[u8],
    last: &[u32],
    held: usize,
    base: usize,
    heads: &mut [u16],
    next: &[u16],
) -> usize
    requires { IsFilter file.now last.now held base heads.old next.now }
    ensures value { result ≡ empty_base base held (length last.now) }
    ensures heads_after { heads.new ≡ empty_heads base held (length last.now) heads.old }
    ensures holds { Holds file.now last.now 0 result heads.new next.now [] }
{
    let above = base + held;
    if above + last.len() <= 65535 {
        return above;
    }
    chains::clear(heads);
    0
}
