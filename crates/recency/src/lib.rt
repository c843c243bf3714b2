// The order of recency as a log of pages: every use of a page appends it, and a page counts where it stands last; that place says whether it was written.
// Chains by bucket find it.
#![tactic(auto)]

ghost use Rattle.std.specs.Prelude.{◌≡◌, ◌+◌, ◌≤◌, ◌<◌, length, ◌∷◌, ◌||◌};
ghost use Rattle.pages.specs.Rows.{over};
ghost use Rattle.frames.specs.Frames.{framed, pages_of, marks_of, frames_of, dirty, taken};
ghost use Rattle.chains.specs.Chains.{counted};
ghost use Rattle.recency.specs.State.{state, unchained, SameRows};
ghost use Rattle.recency.specs.Linked.{Linked, last_from, CanLink, CanIndex};
ghost use Rattle.recency.specs.Held.{state_of, is_stale, is_written, frames, Held, Holds, CanPack, Packed, CanShorten, CanAppend, CanMark, count_with, stale_with, written_with};
ghost use Rattle.recency.specs.Held.{CanUse, CanEvict, Gone, CanCopy, Copied, CanLoad, CanSave};

use frames::Frame;

// How many places a log has. It is packed when all are used, so there should be far more than pages.
pub const PLACES: usize = 8192;

// How many heads there are.
pub const BUCKETS: usize = 8192;

// What a place of a log says: that it is stale, or else whether its page was written.
#[derive(Clone, Copy, PartialEq, Eq)]
pub enum Mark {
    Clean,
    Stale,
    Written,
}

// A mark takes one byte, so that a log stays small.
const _: () = prove!(size_of::<Mark>() == 1);

// The places of the log from `low` up to `now` are in use, and so many pages are resident.
#[derive(Clone, Copy)]
pub struct Queue {
    pub resident: usize,
    pub low: usize,
    pub now: usize,
}

// The pages used, oldest first; what each place says; the chains that find a page's last place; and which places are in use. The rows are lent, and may have
// any length.
#[derive(Drop)]
pub struct Log<'a> {
    pub pages: &'a mut [u64],
    pub marks: &'a mut [Mark],
    pub next: &'a mut [u16],
    pub heads: &'a mut [u16],
    pub queue: Queue,
}

// Place c, the first that is not chained, is put in front of its page's bucket. Here and below the rows are lent one by one: the list need be no log's.
pub fn link(pages: &[u64], next: &mut [u16], heads: &mut [u16], c: usize)
    requires { CanLink pages.now next.old heads.old c }
    ensures { Linked pages.now next.new heads.new (c + 1) }
{
    let v = chains::bucket::<BUCKETS>(pages[c]);
    chains::push(0, heads, next, c, v);
}

// The last place of a page from `low` on among the first `end`. Places count from the list's front, so a part of it is no plainer.
pub fn find(
    pages: &[u64],
    next: &[u16],
    heads: &[u16],
    low: usize,
    end: usize,
    page: u64,
) -> Option<usize>
    requires { Linked pages.now next.now heads.now end }
    ensures { counted result ≡ last_from low pages.now end page }
{
    // Places are counted from 1 here, as the rows have them, so that at each link one test tells that the chain ends or goes below `low`. Over an `Option` it took two
    // and a subtraction, and a replay of pages that share a bucket two fifths longer.
    let mut e = usize::from(heads[chains::bucket::<BUCKETS>(page)]);
    while low < e {
        if pages[e - 1] == page {
            return Some(e - 1);
        }
        e = usize::from(next[e - 1]);
    }
    None
}

// The first n places are chained; the log behind them stays as it is, but is there.
fn index(pages: &[u64], next: &mut [u16], heads: &mut [u16], n: usize)
    requires { CanIndex pages.now next.old heads.old n }
    ensures { Linked pages.now next.new heads.new n }
{
    chains::clear(heads);
    for c in 0..n {
        link(pages, next, heads, c);
    }
}

impl Mark {
    // What a page's last place says.
    fn of(written: bool) -> Mark
        ensures { result ≡ state_of written }
    {
        if written { Mark::Written } else { Mark::Clean }
    }

    fn is_stale(self) -> bool
        ensures { result ≡ is_stale self }
    {
        self == Mark::Stale
    }

    fn is_written(self) -> bool
        ensures { result ≡ is_written self }
    {
        self == Mark::Written
    }
}

// The least recently used page goes: the first from `low` on that is not stale. Answers which places are in use then, and the frame that went. Here and below
// the two rows are lent by themselves, so that a caller need lend no chains.
pub fn evict(pages: &[u64], marks: &[Mark], q: Queue) -> (Queue, Frame)
    requires { CanEvict (unchained pages.now marks.now q) }
    ensures { Gone (unchained pages.now marks.now q) result.0 result.1 }
{
    for r in q.low..q.now {
        let mark = marks[r];
        if !mark.is_stale() {
            let left = Queue {
                resident: q.resident - 1,
                low: r + 1,
                now: q.now,
            };
            let gone = Frame {
                page: pages[r],
                written: mark.is_written(),
            };
            return (left, gone);
        }
    }
    unreachable!()
}

// The resident frames, most recently used first, at the front of two columns.
pub fn save(pages: &[u64], marks: &[Mark], q: Queue, list: &mut [u64], kept: &mut [bool])
    requires { CanSave (unchained pages.now marks.now q) list.old kept.old }
    ensures list_after { list.new ≡ over (pages_of (frames (unchained pages.now marks.now q))) list.old }
    ensures kept_after { kept.new ≡ over (marks_of (frames (unchained pages.now marks.now q))) kept.old }
{
    // i counts the frames that are told, which are not all that are passed.
    let mut i = 0;
    for r in (q.low..q.now).rev() {
        let mark = marks[r];
        if mark.is_stale() {
            continue;
        }
        list[i] = pages[r];
        kept[i] = mark.is_written();
        i += 1;
    }
}

impl Log<'_> {
    // The last place of a page.
    pub fn find(&self, page: u64) -> Option<usize>
        requires { Held (state self.now) }
        ensures { counted result ≡ last_from self.now.queue.low self.now.pages.now self.now.queue.now page }
    {
        find(
            self.pages,
            self.next,
            self.heads,
            self.queue.low,
            self.queue.now,
            page,
        )
    }

    // The places that are not stale, moved to the front with what they say. Answers how many there are.
    fn pack(&mut self) -> usize
        requires { CanPack (state self.old) }
        ensures packed { Packed (state self.old) (state self.new) result }
        ensures rows { SameRows self.old self.new }
    {
        // By place: the rows that are read are written too.
        let mut w = 0;
        for r in self.queue.low..self.queue.now {
            let mark = self.marks[r];
            self.pages[w] = self.pages[r];
            self.marks[w] = mark;
            if mark.is_stale() {
                continue;
            }
            w += 1;
        }
        w
    }

    // A full log, made short: only the places that count are left.
    fn shorten(&mut self)
        requires { CanShorten (state self.old) }
        ensures holds { Holds (frames (state self.old)) (state self.new) }
        ensures rows { SameRows self.old self.new }
    {
        let n = self.pack();
        // Here and below a row that is only read is taken first, and as a `&mut`: beside a `&` out of `self` the check lets no other row be lent.
        let pages = &mut *self.pages;
        index(pages, self.next, self.heads, n);
        self.queue = Queue {
            resident: n,
            low: 0,
            now: n,
        };
    }

    // A page is appended, which is counted among the resident ones already.
    fn append(&mut self, page: u64, written: bool)
        requires { CanAppend (state self.old) page }
        ensures holds { Holds (framed page written ∷ taken page (frames (state self.old))) (state self.new) }
        ensures rows { SameRows self.old self.new }
    {
        let at = self.queue.now;
        self.pages[at] = page;
        self.marks[at] = Mark::of(written);
        let pages = &mut *self.pages;
        link(pages, self.next, self.heads, at);
        self.queue.now = at + 1;
        if self.queue.now == self.pages.len() {
            self.shorten();
        }
    }

    // The place where a page stood last is stale once the page is used again. A page that comes in is counted.
    fn mark(&mut self, last: Option<usize>)
        requires { CanMark (state self.old) last }
        ensures changed { state self.new ≡ record (state self.old) {
          marks = stale_with last self.old.marks.now;
          queue = record self.old.queue { resident = count_with last self.old.queue.resident };
        } }
        ensures rows { SameRows self.old self.new }
    {
        match last {
            Some(j) => self.marks[j] = Mark::Stale,
            None => self.queue.resident += 1,
        }
    }

    // Whether a page is written once it is used: if it is now, or was at its last place.
    fn stays_written(&self, last: Option<usize>, written: bool) -> bool
        requires { counted last ≤ length self.now.marks.now }
        ensures { result ≡ written_with last self.now.marks.now written }
    {
        match last {
            Some(j) => self.marks[j].is_written() || written,
            None => written,
        }
    }

    // A page is used, whose last place is told; a page that is not found comes in. A write marks it, and a mark stays.
    pub fn used(&mut self, page: u64, written: bool, last: Option<usize>)
        requires { CanUse (state self.old) page last }
        ensures holds { Holds (framed page (dirty page (frames (state self.old)) || written) ∷ taken page (frames (state self.old))) (state self.new) }
        ensures rows { SameRows self.old self.new }
    {
        let w = self.stays_written(last, written);
        self.mark(last);
        self.append(page, w);
    }

    // The least recently used page goes.
    pub fn evict(&mut self) -> Frame
        requires { CanEvict (state self.old) }
        ensures gone { Gone (state self.old) self.new.queue result }
        ensures rest { self.new ≡ record self.old { queue = self.new.queue } }
    {
        let q = self.queue;
        let pages = &mut *self.pages;
        let marks = &mut *self.marks;
        let (left, gone) = evict(pages, marks, q);
        self.queue = left;
        gone
    }

    // A list is written over the front of the log, the last page first, and its marks beside it. Here and below these are plain columns: the scope names this form.
    fn copy_back(&mut self, list: &[u64], kept: &[bool])
        requires { CanCopy list.now kept.now (state self.old) }
        ensures copied { Copied list.now kept.now (state self.old) (state self.new) }
        ensures rows { SameRows self.old self.new }
    {
        // By place: two columns backwards beside two rows forwards are no plainer as iterators.
        let n = list.len();
        for i in 0..n {
            let r = n - 1 - i;
            self.pages[i] = list[r];
            self.marks[i] = Mark::of(kept[r]);
        }
    }

    // The frames of two columns are the resident ones, in the columns' order.
    pub fn load(&mut self, list: &[u64], kept: &[bool])
        requires { CanLoad list.now kept.now (state self.old) }
        ensures holds { Holds (frames_of list.now kept.now) (state self.new) }
        ensures rows { SameRows self.old self.new }
    {
        let n = list.len();
        self.copy_back(list, kept);
        let pages = &mut *self.pages;
        index(pages, self.next, self.heads, n);
        self.queue = Queue {
            resident: n,
            low: 0,
            now: n,
        };
    }

    // The resident frames, most recently used first, at the front of two columns.
    pub fn save(&self, list: &mut [u64], kept: &mut [bool])
        requires { CanSave (state self.now) list.old kept.old }
        ensures list_after { list.new ≡ over (pages_of (frames (state self.now))) list.old }
        ensures kept_after { kept.new ≡ over (marks_of (frames (state self.now))) kept.old }
    {
        save(self.pages, self.marks, self.queue, list, kept);
    }
}
