// A replay through a cache that is lent as a row of frames, most recent first. The row's two columns are loaded, the work is done on them, and they are saved.
#![tactic(auto)]

ghost use Rattle.std.specs.Prelude.{◌≡◌, length};
ghost use Rattle.replays.specs.Replay.{replay_answer, frames_after, events_after};
ghost use Rattle.cache.specs.Reach.{reached};

use frames::Frame;
use limits::Cache;
use replays::{Summary, Unreplayed};

// How many frames of a row of n can matter: no more than the largest cache has.
fn reach(n: usize) -> usize
    ensures { result ≡ reached n }
{
    n.min(Cache::PLACES)
}

// `replay`, by two plain columns that are lent, a form that the scope names. On a refusal they are unchanged, so that saving them changes nothing.
fn replay_by(
    file: &[u8],
    k: u64,
    frames: &mut [Frame],
    pages: &mut [u64],
    written: &mut [bool],
    resident: usize,
    events: &mut [u64],
) -> Result<Summary, Unreplayed>
    requires { (length pages.old ≡ reached (length frames.old)) × (length written.old ≡ length pages.old) }
    ensures { (result ≡ replay_answer file.now k frames.old resident (length events.old))
        × ((frames.new ≡ frames_after file.now k frames.old resident (length events.old))
        × (events.new ≡ events_after file.now k frames.old resident events.old)) }
{
    frames::load(frames, pages, written);
    let r = replays::replay_columns(file, k, pages, written, resident, events);
    frames::save(frames, pages, written);
    r
}

// Replays a trace file through a cache of k frames that starts as the first `resident` places of the lent row, writes four numbers for each fetch, and answers the tally;
// or refuses, and changes nothing.
pub fn replay(
    file: &[u8],
    k: u64,
    frames: &mut [Frame],
    resident: usize,
    events: &mut [u64],
) -> Result<Summary, Unreplayed>
    ensures value { result ≡ replay_answer file.now k frames.old resident (length events.old) }
    ensures frames_after { frames.new ≡ frames_after file.now k frames.old resident (length events.old) }
    ensures events_after { events.new ≡ events_after file.now k frames.old resident events.old }
{
    let mut pages = [0u64; Cache::PLACES];
    let mut written = [false; Cache::PLACES];
    let n = reach(frames.len());
    replay_by(
        file,
        k,
        frames,
        &mut pages[..n],
        &mut written[..n],
        resident,
        events,
    )
}
