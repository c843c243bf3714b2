// Each of the four calls, on buffers full of noise, and what came of it.
ghost use Rattle.std.specs.Prelude.{◌≡◌, length};

use super::answer::Answer;
use super::noise;
use limits::Cache;

// The answer, and whether every lent buffer then holds what it should.
#[derive(Clone, Copy)]
pub struct Came {
    pub answer: Answer,
    pub kept: bool,
}

// The settings of a reduction, and how many bytes are lent to it.
#[derive(Clone, Copy)]
pub struct Reduction {
    pub mode: u64,
    pub filter: u64,
    pub room: usize,
}

// The cache size of a replay, how many places and pages of a cache it is lent, and how many numbers for its events. The cache starts as
// `start`, with `marks`, and noise beyond it.
#[derive(Clone, Copy)]
pub struct Replaying<'a> {
    pub size: u64,
    pub places: usize,
    pub resident: usize,
    pub room: usize,
    pub start: &'a [u64],
    pub marks: &'a [u64],
}

// What the three buffers of a replay should begin with afterwards.
#[derive(Clone, Copy)]
pub struct Left<'a> {
    pub pages: &'a [u64],
    pub marks: &'a [u64],
    pub events: &'a [u64],
}

impl Left<'_> {
    // As they were before.
    pub const NOTHING: Left<'static> = Left {
        pages: &[],
        marks: &[],
        events: &[],
    };
}

impl Came {
    // Of a call on an output full of noise, of which `after` should then be the front.
    pub fn of<C: FnOnce(&mut [u8]) -> Answer>(out: &mut [u8], after: &[u8], call: C) -> Came
        requires { C.IsAlwaysCallable call }
    {
        noise::fill(out, |i| noise::byte(&[], i));
        let answer = call(out);
        let kept = noise::holds(out, |i| noise::byte(after, i));
        Came { answer, kept }
    }
}

pub fn check(file: &[u8]) -> Came {
    Came {
        answer: trace::check(file).into(),
        kept: true,
    }
}

// As many bytes of a buffer as are asked for, or all.
fn lent(buffer: &mut [u8; 512], room: usize) -> &mut [u8] {
    &mut buffer[..room.min(512)]
}

impl Reduction {
    pub fn run(&self, file: &[u8], after: &[u8]) -> Came {
        let mut buffer = [0u8; 512];
        Came::of(lent(&mut buffer, self.room), after, |out| {
            slim::reduce(file, self.mode, self.filter, out).into()
        })
    }
}

pub fn join(f: &[u8], g: &[u8], room: usize, after: &[u8]) -> Came {
    let mut buffer = [0u8; 512];
    Came::of(lent(&mut buffer, room), after, |out| {
        join::join(f, g, out).into()
    })
}

impl Replaying<'_> {
    pub fn run(&self, file: &[u8], left: Left) -> Came {
        let mut cache = [0u64; Cache::PLACES + 1];
        let mut column = [false; Cache::PLACES + 1];
        let mut out = [0u64; 64];
        let places = self.places.min(cache.len());
        let room = self.room.min(out.len());
        self.lent(
            file,
            left,
            &mut cache[..places],
            &mut column[..places],
            &mut out[..room],
        )
    }

    // By all the buffers that the C interface lends, which are filled before and compared after.
    fn lent(
        &self,
        file: &[u8],
        left: Left,
        cache: &mut [u64],
        column: &mut [bool],
        events: &mut [u64],
    ) -> Came
        requires { length column.old ≡ length cache.old }
    {
        noise::fill(cache, |i| noise::number(self.start, &[], i));
        noise::fill(column, |i| noise::mark(self.marks, &[], i));
        noise::fill(events, |i| noise::number(&[], &[], i));
        let answer = replays::replay_columns(
            file,
            self.size,
            cache,
            column,
            self.resident,
            events,
        ).into();
        let kept = noise::holds(cache, |i| noise::number(left.pages, self.start, i))
            && noise::holds(column, |i| noise::mark(left.marks, self.marks, i))
            && noise::holds(events, |i| noise::number(left.events, &[], i));
        Came { answer, kept }
    }
}
