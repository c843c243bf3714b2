// A flag for each place of a filter. Two share a byte: with a byte each the reducer would not keep to 9 KiB of stack.
ghost use Rattle.std.specs.Prelude.{◌≡◌, ◌<◌, length, get_or, set, replicate, eqb};
ghost use Rattle.filter.specs.Filter.{places, flag_of, flags_of, flags_set};

use limits::Filter;

// The bytes for them.
const BYTES: usize = Filter::PLACES / 2;

// The flags of a table, and how many of them are set.
#[derive(Drop)]
pub struct Flags {
    pub bytes: [u8; BYTES],
    pub set: usize,
    pub ghost is_long: { length (flags_of bytes) ≡ places },
    pub ghost is_count: { set ≡ flags_set places (flags_of bytes) },
}

// Whether the flag of place j is set, in a row of flags of any length.
pub fn flag_at(flags: &[u8], j: usize) -> bool
    requires { j < length (flags_of flags.now) }
    ensures { result ≡ eqb (get_or (flags_of flags.now) j 0) 1 }
{
    let b = flags[j / 2];
    let flag = if j % 2 == 0 { b % 2 } else { b / 2 % 2 };
    flag == 1
}

// Place j gets a flag.
pub fn put_flag(flags: &mut [u8], j: usize, on: bool)
    requires { j < length (flags_of flags.old) }
    ensures { flags_of flags.new ≡ set (flags_of flags.old) j (flag_of on) }
{
    let v = u8::from(on);
    let i = j / 2;
    let b = flags[i];
    flags[i] = if j % 2 == 0 {
        b / 2 % 2 * 2 + v
    } else {
        b % 2 + 2 * v
    };
}

// No flag is set.
pub fn clear_flags(flags: &mut [u8])
    ensures { flags_of flags.new ≡ replicate (length (flags_of flags.old)) 0 }
{
    flags.fill(0);
}

impl Flags {
    // No flag is set.
    pub fn new() -> Self
        ensures { flags_of result.bytes ≡ replicate places 0 }
    {
        Flags {
            bytes: [0; BYTES],
            set: 0,
        }
    }

    // Whether the flag of place j is set.
    pub fn is_set(&self, j: usize) -> bool
        requires { j < places }
        ensures { result ≡ eqb (get_or (flags_of self.now.bytes) j 0) 1 }
    {
        flag_at(&self.bytes, j)
    }

    // Place j gets a flag.
    pub fn put(&mut self, j: usize, on: bool)
        requires { j < places }
        ensures { flags_of self.new.bytes ≡ set (flags_of self.old.bytes) j (flag_of on) }
    {
        let was = self.is_set(j);
        put_flag(&mut self.bytes, j, on);
        self.set = self.set + usize::from(on) - usize::from(was);
    }

    // No flag is set.
    pub fn clear(&mut self)
        ensures { flags_of self.new.bytes ≡ replicate places 0 }
    {
        clear_flags(&mut self.bytes);
        self.set = 0;
    }
}
