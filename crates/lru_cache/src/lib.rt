// What a cache that evicts the least recently used page does with the items of a trace.
#![tactic(auto)]

ghost use Rattle.std.specs.Prelude.{◌≡◌, [], ◌∷◌, ◌+◌, ◌*◌, ◌≤◌, ◌<◌, length, take, is_some};
ghost use Rattle.std.proofs.lemmas.List.Edits.{sets};
ghost use Rattle.limits.proofs.Numbers.{items_most};
ghost use Rattle.frames.specs.Frames.{frames_of};
ghost use Rattle.recency.specs.State.{state, SameRows};
ghost use Rattle.recency.specs.Held.{frames};
ghost use Rattle.trace.specs.Layout.{items_from};
ghost use Rattle.lru_cache.specs.Lru.{step as stepped, replay as lru};
ghost use Rattle.lru_cache.specs.Tally.{one_of, nothing, counted_of, HasRoom, tally as tally_of, per_million};
ghost use Rattle.lru_cache.specs.Passes.{CanMake, Made, cost_of, told, evicts, Ready, Stepped, CanPlay, Plays, CanRun, Rows, Ran};

use frames::Frame;
use recency::Log;
use trace::Item;
use trace::read::Items;

// How many items there were, and how many of them were fetches and evictions.
#[derive(Clone, Copy)]
pub struct Tally {
    pub items: u64,
    pub fetches: u64,
    pub evictions: u64,
}

// A fetch: when, of which page, and the frame that went for it, if one did.
#[derive(Clone, Copy)]
pub struct Fetch {
    pub time: u64,
    pub page: u64,
    pub gone: Option<Frame>,
}

impl Tally {
    // One item more, which was a fetch or not.
    fn counted(self, fetch: Option<Fetch>) -> Tally
        requires { HasRoom self }
        ensures { result ≡ counted_of self (is_some fetch) (evicts fetch) }
    {
        let evicted = fetch.is_some_and(|f| f.gone.is_some());
        Tally {
            items: self.items + 1,
            fetches: self.fetches + u64::from(fetch.is_some()),
            evictions: self.evictions + u64::from(evicted),
        }
    }
}

// One item more, in a tally that is lent.
fn count(t: &mut Tally, fetch: Option<Fetch>)
    requires { HasRoom t.old }
    ensures { t.new ≡ counted_of t.old (is_some fetch) (evicts fetch) }
{
    *t = t.counted(fetch);
}

// The fourth number of a fetch: 0 where nothing was evicted, 1 for a clean page, 2 for a written one.
fn cost(gone: Option<Frame>) -> u64
    ensures { result ≡ cost_of gone }
{
    match gone {
        None => 0,
        Some(f) => if f.written { 2 } else { 1 },
    }
}

impl Fetch {
    // The four numbers of an event: the page evicted is 0 where none was.
    fn numbers(self) -> [u64; 4]
        ensures { result ≡ told (Some self) }
    {
        let page = self.gone.map_or(0, |g| g.page);
        [self.time, self.page, page, cost(self.gone)]
    }
}

// The numbers of a fetch, if there was one, from place `at` on: lent from there on, the rest of the row would have to be put together again.
fn put(events: &mut [u64], at: usize, fetch: Option<Fetch>)
    requires { at + 4 ≤ length events.old }
    ensures { events.new ≡ sets events.old at (told fetch) }
{
    if let Some(f) = fetch {
        events[at..at + 4].copy_from_slice(&f.numbers());
    }
}

// Room for a page whose last place is told: a page that comes in where there is none makes the last one go.
fn make_room(log: &mut Log, k: usize, last: Option<usize>) -> Option<Frame>
    requires { CanMake k (state log.old) }
    ensures made { Made k last (state log.old) (state log.new) result }
    ensures rows { SameRows log.old log.new }
{
    if last.is_some() || log.queue.resident < k {
        return None;
    }
    Some(log.evict())
}

// One item, which is a fetch where its page is not found.
fn step(x: Item, k: usize, log: &mut Log) -> Option<Fetch>
    requires { Ready k (state log.old) }
    ensures outcome { Stepped (stepped k (frames (state log.old)) x) k result (state log.new) }
    ensures rows { SameRows log.old log.new }
{
    let last = log.find(x.page);
    let gone = make_room(log, k, last);
    log.used(x.page, x.written, last);
    if last.is_some() {
        return None;
    }
    Some(Fetch {
        time: x.time,
        page: x.page,
        gone,
    })
}

// The items of a file, through the cache that the log holds.
fn play(items: Items, k: usize, log: &mut Log, events: &mut [u64]) -> Tally
    requires { CanPlay items.count k (state log.old) events.old }
    ensures plays { Plays items.entry.file.now items.entry.count k (frames (state log.old)) events.old result (state log.new) events.new }
    ensures rows { SameRows log.old log.new }
{
    let mut t = Tally {
        items: 0,
        fetches: 0,
        evictions: 0,
    };
    for i in 0..items.count {
        let x = items.at(i);
        let fetch = step(x, k, log);
        put(events, 4 * t.fetches as usize, fetch);
        count(&mut t, fetch);
    }
    t
}

// The items of a file, through a cache whose frames are the first `resident` places of two columns, in a log that is lent. It holds the cache afterwards too.
// Plain columns, with the count of those that are resident: the scope names this form.
pub fn run(
    items: Items,
    k: usize,
    cache: &mut [u64],
    kept: &mut [bool],
    resident: usize,
    events: &mut [u64],
    log: &mut Log,
) -> Tally
    requires can_run { CanRun items.count k resident cache.old kept.old events.old }
    requires rows { Rows (state log.old) }
    ensures ran { Ran (lru k (take resident (frames_of cache.old kept.old)) (items_from items.entry.file.now 0 items.entry.count))
        (tally_of k (take resident (frames_of cache.old kept.old)) nothing (items_from items.entry.file.now 0 items.entry.count))
        cache.old kept.old events.old result (state log.new) cache.new kept.new events.new }
    ensures rows { SameRows log.old log.new }
{
    log.load(&cache[..resident], &kept[..resident]);
    let t = play(items, k, log, events);
    log.save(cache, kept);
    t
}

// Fetches per million items, rounded down.
pub fn per_million(fetches: u64, items: u64) -> u64
    requires { fetches ≤ items_most }
    ensures { result ≡ per_million fetches items }
{
    (fetches * 1000000).checked_div(items).unwrap_or(0)
}
