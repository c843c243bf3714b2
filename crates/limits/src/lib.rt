// The limits, each stated once, beside the thing that it limits.
#![tactic(auto)]

ghost use Rattle.std.specs.Prelude.{◌≡◌};
ghost use Rattle.limits.specs.Sizes.{within};

// A filter, by its size.
#[derive(Clone, Copy)]
pub struct Filter;

// A cache, by its size.
#[derive(Clone, Copy)]
pub struct Cache;

// The items of a file, by their count.
#[derive(Clone, Copy)]
pub struct Items;

// What a program takes, settings included, by its bytes.
#[derive(Clone, Copy)]
pub struct Input;

impl Filter {
    pub const LEAST: u64 = 1;

    pub const MOST: u64 = 1024;

    // As many places hold the pages of any filter.
    pub const PLACES: usize = Filter::MOST as usize;
}

impl Cache {
    pub const LEAST: u64 = 1;

    pub const MOST: u64 = 4096;

    // As many places hold the pages of any cache.
    pub const PLACES: usize = Cache::MOST as usize;
}

impl Items {
    pub const LEAST: u64 = 0;

    pub const MOST: u64 = 1_000_000;
}

impl Input {
    pub const LEAST: u64 = 0;

    pub const MOST: u64 = 32_768;

    // As many bytes hold any input.
    pub const PLACES: usize = Input::MOST as usize;
}

// A number that lies from the least to the most.
#[derive(Clone, Copy)]
pub struct Within<const LEAST: u64, const MOST: u64> {
    number: u64,
}

pub type FilterSize = Within<{ Filter::LEAST }, { Filter::MOST }>;

pub type CacheSize = Within<{ Cache::LEAST }, { Cache::MOST }>;

pub type ItemCount = Within<{ Items::LEAST }, { Items::MOST }>;

pub type InputLength = Within<{ Input::LEAST }, { Input::MOST }>;

impl<const LEAST: u64, const MOST: u64> Within<LEAST, MOST> {
    pub fn new(number: u64) -> Option<Self>
        ensures { result ≡ within LEAST MOST number }
    {
        if (LEAST..=MOST).contains(&number) {
            Some(Within { number })
        } else {
            None
        }
    }

    pub fn number(self) -> u64
        ensures { result ≡ self.entry.number }
    {
        self.number
    }
}
