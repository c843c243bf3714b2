// A replay of a trace file through a cache that evicts the least recently used page: what is refused, and what is answered. The cache is two columns, pages and marks.
#![tactic(auto)]

ghost use Rattle.std.specs.Prelude.{◌≡◌, length};
ghost use Rattle.limits.proofs.Numbers.{cache_most};
ghost use Rattle.pages.specs.Rows.{over};
ghost use Rattle.trace.specs.Verdict.{Sound};
ghost use Rattle.frames.specs.Frames.{pages_of, marks_of, frames_of};
ghost use Rattle.lru_cache.specs.Lru.{words};
ghost use Rattle.recency.specs.State.{state};
ghost use Rattle.lru_cache.specs.Passes.{Rows};
ghost use Rattle.replays.specs.Replay.{twice, bad_start, replay_verdict, replay_of, summary_of, replay_answer, frames_after, events_after};
ghost use Rattle.replays.specs.Passes.{CanSift, CanStart};

use limits::CacheSize;
use recency::{Log, Mark, Queue};
use trace::read::Items;
use trace::{Reason, Refusal};

// What is told of a replay.
#[derive(Clone, Copy)]
pub struct Summary {
    pub items: u64,
    pub fetches: u64,
    pub evictions: u64,
    pub resident: u64,
    pub permillion: u64,
}

// A refusal, with the resident count that was given.
#[derive(Clone, Copy)]
pub struct Unreplayed {
    pub refusal: Refusal,
    pub resident: u64,
}

// Whether a page stands twice: each is looked for among those before it, and then chained.
fn has_twice(list: &[u64], next: &mut [u16], heads: &mut [u16]) -> bool
    requires { CanSift list.now next.old heads.old }
    ensures { result ≡ twice list.now }
{
    chains::clear(heads);
    for (i, &page) in list.iter().enumerate() {
        let again = recency::find(list, next, heads, 0, i, page).is_some();
        if again {
            return true;
        }
        recency::link(list, next, heads, i);
    }
    false
}

// Whether a cache cannot start so. Here and below the cache is plain columns, with the count of those that are resident: the scope names this form.
fn bad_start(k: usize, cache: &[u64], resident: usize, next: &mut [u16], heads: &mut [u16]) -> bool
    requires { CanStart k next.old heads.old }
    ensures { result ≡ bad_start k cache.now resident }
{
    if k < resident || cache.len() < k {
        return true;
    }
    has_twice(&cache[..resident], next, heads)
}

// The file's own refusals, then 7, 9, 10, 11.
fn judge(
    file: &[u8],
    k: u64,
    cache: &[u64],
    resident: usize,
    room: usize,
    next: &mut [u16],
    heads: &mut [u16],
) -> Result<(), Reason>
    requires { CanStart cache_most next.old heads.old }
    ensures { result ≡ replay_verdict file.now k cache.now resident room }
{
    trace::judge(file)?;
    if CacheSize::new(k).is_none() {
        return Err(Reason::BadSetting);
    }
    let h = trace::read::header_at(file);
    if k < h.filter {
        return Err(Reason::SmallCache);
    }
    if bad_start(k as usize, cache, resident, next, heads) {
        return Err(Reason::BadStart);
    }
    if (room as u64) < 4 * h.items {
        return Err(Reason::NoRoom);
    }
    Ok(())
}

// The replay of a file that is not refused.
fn replay_sound(
    file: &[u8],
    k: u64,
    cache: &mut [u64],
    kept: &mut [bool],
    resident: usize,
    events: &mut [u64],
    log: &mut Log,
) -> Summary
    requires events_value { replay_verdict file.now k cache.old resident (length events.old) ≡ Sound }
    requires kept_len { length kept.old ≡ length cache.old }
    requires rows { Rows (state log.old) }
    ensures value { result ≡ summary_of file.now k (frames_of cache.old kept.old) resident }
    ensures cache_after { cache.new ≡ over (pages_of (replay_of file.now k
        (frames_of cache.old kept.old) resident).final) cache.old }
    ensures kept_after { kept.new ≡ over (marks_of (replay_of file.now k
        (frames_of cache.old kept.old) resident).final) kept.old }
    ensures events_after { events.new ≡ over (words (replay_of file.now k
        (frames_of cache.old kept.old) resident).events) events.old }
{
    let items = Items::of(file);
    let t = lru_cache::run(items, k as usize, cache, kept, resident, events, log);
    Summary {
        items: t.items,
        fetches: t.fetches,
        evictions: t.evictions,
        resident: log.queue.resident as u64,
        permillion: lru_cache::per_million(t.fetches, t.items),
    }
}

// `replay_columns`, in a log that is lent.
fn replay_in(
    file: &[u8],
    k: u64,
    cache: &mut [u64],
    kept: &mut [bool],
    resident: usize,
    events: &mut [u64],
    log: &mut Log,
) -> Result<Summary, Unreplayed>
    requires kept_len { length kept.old ≡ length cache.old }
    requires rows { Rows (state log.old) }
    ensures value { result ≡ replay_answer file.now k (frames_of cache.old kept.old) resident (length events.old) }
    ensures cache_after { cache.new ≡ pages_of (frames_after file.now k
        (frames_of cache.old kept.old) resident (length events.old)) }
    ensures kept_after { kept.new ≡ marks_of (frames_after file.now k
        (frames_of cache.old kept.old) resident (length events.old)) }
    ensures events_after { events.new ≡ events_after file.now k (frames_of cache.old kept.old) resident events.old }
{
    judge(file, k, cache, resident, events.len(), log.next, log.heads).map_err(
        |reason| Unreplayed {
            refusal: reason.into(),
            resident: resident as u64,
        },
    )?;
    Ok(replay_sound(file, k, cache, kept, resident, events, log))
}

// Replays a trace file through a cache of k frames that starts as the first `resident` places of two columns, writes four numbers for each fetch, and answers the tally;
// or refuses, and changes nothing.
pub fn replay_columns(
    file: &[u8],
    k: u64,
    cache: &mut [u64],
    kept: &mut [bool],
    resident: usize,
    events: &mut [u64],
) -> Result<Summary, Unreplayed>
    requires { length kept.old ≡ length cache.old }
    ensures value { result ≡ replay_answer file.now k (frames_of cache.old kept.old) resident (length events.old) }
    ensures cache_after { cache.new ≡ pages_of (frames_after file.now k
        (frames_of cache.old kept.old) resident (length events.old)) }
    ensures kept_after { kept.new ≡ marks_of (frames_after file.now k
        (frames_of cache.old kept.old) resident (length events.old)) }
    ensures events_after { events.new ≡ events_after file.now k (frames_of cache.old kept.old) resident events.old }
{
    let mut pages = [0; recency::PLACES];
    let mut marks = [Mark::Clean; recency::PLACES];
    let mut next = [0; recency::PLACES];
    let mut heads = [0; recency::BUCKETS];
    let mut log = Log {
        pages: &mut pages,
        marks: &mut marks,
        next: &mut next,
        heads: &mut heads,
        queue: Queue {
            resident: 0,
            low: 0,
            now: 0,
        },
    };
    replay_in(file, k, cache, kept, resident, events, &mut log)
}
