// The keys of a channel that are down, one bit for each: pressing and releasing one, how many there are
// and which is the lowest.
//
// Every function is total and says what it finds by a definition of specs/. The laws of these
// definitions are the last three functions, which do nothing and ensure them.
#![tactic(auto)]

ghost use Rattle.std.specs.Prelude.{◌≡◌, cond, ◌<◌};
ghost use Rattle.keys.specs.Keys.{down, down_count, empty_keys, least_down, pressed, released, with_bit, without};
ghost use Rattle.keys.specs.History.{History, Lowests, Single};

// Key k is bit k of low, or bit k - 64 of high.
#[repr(C)]
#[derive(Clone, Copy)]
pub struct Keys {
    pub low: u64,
    pub high: u64,
}

// A half with one bit set or cleared.
fn with_bit(half: u64, at: u8, set: bool) -> u64
    requires { at < 64 }
    ensures { result ≡ cond set (with_bit half at) (without half at) }
{
    let mask = 1u64 << at;
    if set { half | mask } else { half & !mask }
}

impl Keys {
    // None is down.
    pub fn cleared() -> Keys
        ensures { result ≡ empty_keys }
    {
        Keys { low: 0, high: 0 }
    }

    // With a key down or up; a number above 127 is no key. The half is picked before its bit is changed, so that there
    // is no jump on it.
    pub fn with_key(self, key: u8, down: bool) -> Keys
        ensures { result ≡ cond down (pressed self key) (released self key) }
    {
        if 127 < key {
            return self;
        }
        let in_low = key < 64;
        let old = if in_low { self.low } else { self.high };
        let half = with_bit(old, key % 64, down);
        if in_low {
            Keys { low: half, ..self }
        } else {
            Keys { high: half, ..self }
        }
    }

    pub fn is_down(self, key: u8) -> bool
        ensures { result ≡ down self key }
    {
        if key < 64 {
            (self.low >> key) % 2 == 1
        } else if key < 128 {
            let at = key - 64;
            (self.high >> at) % 2 == 1
        } else {
            false
        }
    }

    pub fn count(self) -> u32
        ensures { result ≡ down_count self }
    {
        let low = u64::count_ones(self.low);
        let high = u64::count_ones(self.high);
        low + high
    }

    pub fn lowest(self) -> Option<u8>
        ensures { result ≡ least_down self }
    {
        if self.low != 0 {
            let zeros = u64::trailing_zeros(self.low);
            Some(zeros as u8)
        } else if self.high != 0 {
            let above = u64::trailing_zeros(self.high);
            let key = 64 + above;
            Some(key as u8)
        } else {
            None
        }
    }
}

// A change is of its own key alone.
pub fn single()
    ensures { Single }
{}

// The lowest key is what it says.
pub fn lowests()
    ensures { Lowests }
{}

// The picture is what the events say.
pub fn history()
    ensures { History }
{}
