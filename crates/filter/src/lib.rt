// The reducer's filter, in 8 KiB: a four-byte item number for each page that it holds, and chains of two-byte places to find a page by.
#![tactic(auto)]

ghost use Rattle.std.specs.Prelude.{◌≡◌, ◌+◌, ◌-◌, ◌*◌, ◌≤◌, ◌<◌, ℕ, true, length, get_or, take, set, replicate, eqb};
ghost use Rattle.pages.specs.Pages.{has, add as added, place};
ghost use Rattle.trace.specs.Layout.{item_at};
ghost use Rattle.chains.specs.Chains.{heads_with, next_with};
ghost use Rattle.filter.specs.Filter.{pages_in, places, buckets, bucket_of, Holds, IsFilter, Holds-prop, CanNote, CanAdd, FirstNoted, found, flags_of, found_if, empty_base, empty_heads};

use chains::Chains;
use flags::Flags;
use limits::Filter;

pub mod flags;
mod lent;

pub use flags::{clear_flags, put_flag};
pub use lent::{Rows, add, empty, is_at};

// How many heads there are. 1,024 of two bytes, with 1,024 places of four and two, make 8 KiB.
pub const BUCKETS: usize = 1024;

// The filter of a file, with rows of its own for as many pages as a filter may have.
#[derive(Drop)]
pub struct Table<'a> {
    pub file: &'a [u8],
    pub last: [u32; Filter::PLACES],
    pub chains: Chains<{ Filter::PLACES }, BUCKETS>,
    pub held: usize,
    pub base: usize,
    pub ghost is: { IsFilter file.now last held base chains.heads chains.next } by { Holds-prop file.now last held base chains.heads chains.next (pages_in file.now last held) },
}

impl<'a> Table<'a> {
    ghost use Rattle.filter.specs.Tables.{pages};

    // No page is held.
    pub fn new(file: &'a [u8]) -> Self
        ensures file { result.file.now ≡ file.now }
        ensures last { result.last ≡ replicate places 0 }
        ensures heads { result.chains.heads ≡ replicate buckets 0 }
        ensures next { result.chains.next ≡ replicate places 0 }
        ensures held { result.held ≡ 0 }
        ensures base { result.base ≡ 0 }
    {
        Table {
            file,
            last: [0; Filter::PLACES],
            chains: Chains::new(),
            held: 0,
            base: 0,
        }
    }

    // Its rows, lent.
    #[inline(always)]
    fn rows(&self) -> Rows<'_>
        ensures file { result.file.now ≡ self.now.file.now }
        ensures last { result.last.now ≡ self.now.last }
        ensures held { result.held ≡ self.now.held }
        ensures base { result.base ≡ self.now.base }
        ensures heads { result.heads.now ≡ self.now.chains.heads }
        ensures next { result.next.now ≡ self.now.chains.next }
    {
        Rows {
            file: self.file,
            last: &self.last,
            held: self.held,
            base: self.base,
            heads: &self.chains.heads,
            next: &self.chains.next,
        }
    }

    // The place of a page.
    pub fn find(&self, page: u64) -> Option<usize>
        ensures { result ≡ found page (pages self.now) }
    {
        self.rows().find(page)
    }

    // The place of a page if its flag is as is asked.
    pub fn find_by_flag<const ON: bool>(&self, flags: &Flags, page: u64) -> Option<usize>
        ensures { result ≡ found_if ON (flags_of flags.now.bytes) page (pages self.now) }
    {
        self.rows().find_by_flag::<ON>(&flags.bytes, page)
    }

    // Whether a page that the filter holds stands at place c.
    pub fn is_at(&self, page: u64, c: usize) -> bool
        requires { has page (pages self.now) ≡ true }
        ensures { result ≡ eqb (place page (pages self.now)) c }
    {
        is_at(self.file, &self.last, self.held, page, c)
    }

    // The first item from k on that the filter may note: k if it does.
    pub fn first_noted(&self, k: usize) -> usize
        requires { 23 + 19 * (k + 1) ≤ length self.now.file.now }
        ensures { FirstNoted (take self.now.held self.now.last) k result }
    {
        self.rows().first_noted(k)
    }

    // Place j notes item k, which has its page.
    pub fn note(&mut self, j: usize, k: usize)
        requires { CanNote self.old.file.now self.old.last self.old.held j k }
        ensures last_after { self.new.last ≡ set self.old.last j k }
        ensures file { self.new.file.now ≡ self.old.file.now }
        ensures chains { self.new.chains ≡ self.old.chains }
        ensures held { self.new.held ≡ self.old.held }
        ensures base { self.new.base ≡ self.old.base }
    {
        self.last[j] = k as u32;
    }

    // One page more is held, that of item k.
    pub fn add(&mut self, k: usize)
        requires { CanAdd self.old.file.now self.old.last self.old.held k }
        ensures last_after { self.new.last ≡ set self.old.last self.old.held k }
        ensures heads_after { self.new.chains.heads ≡ heads_with self.old.base self.old.held (bucket_of (item_at self.old.file.now k).page) self.old.chains.heads }
        ensures next_after { self.new.chains.next ≡ next_with self.old.base self.old.held (bucket_of (item_at self.old.file.now k).page) self.old.chains.heads self.old.chains.next }
        ensures file { self.new.file.now ≡ self.old.file.now }
        ensures held { self.new.held ≡ self.old.held + 1 }
        ensures base { self.new.base ≡ self.old.base }
        ensures holds { Holds self.new.file.now self.new.last self.new.held self.new.base self.new.chains.heads self.new.chains.next
            (added (item_at self.old.file.now k).page (pages self.old)) }
    {
        add(
            self.file,
            &mut self.last,
            self.held,
            self.base,
            &mut self.chains.heads,
            &mut self.chains.next,
            k,
        );
        self.held += 1;
    }

    // No page is held any more.
    pub fn empty(&mut self)
        ensures base_after { self.new.base ≡ empty_base self.old.base self.old.held (length self.old.last) }
        ensures heads_after { self.new.chains.heads ≡ empty_heads self.old.base self.old.held (length self.old.last) self.old.chains.heads }
        ensures held { self.new.held ≡ 0 }
        ensures file { self.new.file.now ≡ self.old.file.now }
        ensures last { self.new.last ≡ self.old.last }
        ensures next { self.new.chains.next ≡ self.old.chains.next }
    {
        self.base = empty(
            self.file,
            &self.last,
            self.held,
            self.base,
            &mut self.chains.heads,
            &self.chains.next,
        );
        self.held = 0;
    }
}
