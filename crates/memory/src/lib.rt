// What a channel remembers of control changes: bank high and low, the address that registered and
// assignable controllers are sent to, and data high. Beside them stands the mark of a channel whose
// keyboard sends data high alone.
//
// It is plain numbers, so that it crosses to C as it stands, and a caller may lend any. A number is 0
// to 127 or `MISSING`, and the mark 0 or 1; a memory with any other is not sound. The methods take it
// by value and return the new one.
#![tactic(auto)]

ghost use Rattle.std.specs.Prelude.{◌≡◌, ◌&&◌, leb};
ghost use Rattle.memory.specs.Memory.{StaysSound, address_open, addressed, assignable, banked, complete};
ghost use Rattle.memory.specs.Memory.{data_high_present, empty, kept, mark_by, marked, null, number};
ghost use Rattle.memory.specs.Memory.{registered, sound, sound_bank, with_address_bank, with_address_closed};
ghost use Rattle.memory.specs.Memory.{with_address_index, with_bank_high, with_bank_low, with_bank_spent, with_data_high};
ghost use Rattle.memory.specs.Memory.{with_mark};

// Kept: the kind is a number of the record in C, and a lent one may hold any, so it is no enum.
// Kind: no address.
pub const NONE: u16 = 0;
// Kind: the address of a registered controller.
pub const REGISTERED: u16 = 1;
// Kind: the address of an assignable controller.
pub const ASSIGNABLE: u16 = 2;
// Kept: each number is a byte of the record in C, and a lent one may hold any, so none is an `Option`.
// A number that is not there.
pub const MISSING: u8 = 255;
// Kept: the mark is a byte of the record in C, and a lent one may hold any number, so it is no `bool`.
// No mark, and the mark.
const UNMARKED: u8 = 0;

const MARKED: u8 = 1;

// Eight bytes, so that it moves as one word.
#[repr(C)]
#[derive(Clone, Copy)]
pub struct Memory {
    pub kind: u16,
    pub bank_high: u8,
    pub bank_low: u8,
    pub address_bank: u8,
    pub address_index: u8,
    pub data_high: u8,
    pub coarse: u8,
}

// The laws of soundness hold of the definitions.
pub fn stays_sound()
    ensures { StaysSound }
{}

fn is_number(n: u8) -> bool
    ensures { result ≡ number n }
{
    (n <= 127) | (n == MISSING)
}

// The other half of an address: it stays where the kind stays.
#[tactic(auto, unfolding(crate::specs::Memory::kept))]
fn kept_half(old: u16, kind: u16, half: u8) -> u8
    ensures { result ≡ kept old kind half }
{
    if old == kind { half } else { MISSING }
}

// Any number but 0 sets the mark.
fn mark_by(n: u8) -> u8
    ensures { result ≡ mark_by n }
{
    if n == 0 { UNMARKED } else { MARKED }
}

impl Memory {
    // Everything missing, kind none, no mark.
    pub fn empty() -> Memory
        ensures { result ≡ empty }
    {
        Memory {
            kind: NONE,
            bank_high: MISSING,
            bank_low: MISSING,
            address_bank: MISSING,
            address_index: MISSING,
            data_high: MISSING,
            coarse: UNMARKED,
        }
    }

    // A kind, and both address halves present.
    pub fn address_complete(self) -> bool
        ensures { result ≡ complete self }
    {
        (self.kind != NONE) & ((self.address_bank != MISSING) & (self.address_index != MISSING))
    }

    // Registered 127/127.
    pub fn address_null(self) -> bool
        ensures { result ≡ null self }
    {
        (self.kind == REGISTERED) & ((self.address_bank == 127) & (self.address_index == 127))
    }

    // Data can be entered: the address is complete, and not null.
    pub fn address_open(self) -> bool
        ensures { result ≡ address_open self }
    {
        self.address_complete() & !self.address_null()
    }

    // Its keyboard sends data high alone.
    pub fn is_coarse(self) -> bool
        ensures { result ≡ marked self }
    {
        self.coarse != UNMARKED
    }

    pub fn data_high_present(self) -> bool
        ensures { result ≡ data_high_present self }
    {
        self.data_high != MISSING
    }

    // The bank halves are numbers, and the mark is at most so much.
    fn has_sound_bank(self, most: u8) -> bool
        ensures { result ≡ (sound_bank self && leb self.coarse most) }
    {
        (is_number(self.bank_high) & is_number(self.bank_low)) & (self.coarse <= most)
    }

    // A tree that asks first for data high with a whole address, which a channel keeps once it was given one. The mark
    // is asked at its ends.
    pub fn is_sound(self) -> bool
        ensures { result ≡ sound self }
    {
        let kind = self.kind;
        let bank = self.address_bank;
        let index = self.address_index;
        let data_high = self.data_high;
        if ((data_high <= 127) & (bank <= 127)) & (index <= 127) {
            if kind == REGISTERED {
                if bank == 127 {
                    (index < 127) & self.has_sound_bank(UNMARKED)
                } else {
                    self.has_sound_bank(UNMARKED)
                }
            } else {
                (kind == ASSIGNABLE) & self.has_sound_bank(UNMARKED)
            }
        } else if self.has_sound_bank(MARKED) {
            if kind == NONE {
                (bank == MISSING) & ((index == MISSING) & (data_high == MISSING))
            } else if ASSIGNABLE < kind {
                false
            } else {
                (data_high == MISSING) & (is_number(bank) & is_number(index))
            }
        } else {
            false
        }
    }

    fn banked(self, high: u8, low: u8) -> Memory
        ensures { result ≡ banked high low self }
    {
        Memory {
            bank_high: high,
            bank_low: low,
            ..self
        }
    }

    fn addressed(self, kind: u16, bank: u8, index: u8, high: u8) -> Memory
        ensures { result ≡ addressed kind bank index high self }
    {
        Memory {
            kind,
            address_bank: bank,
            address_index: index,
            data_high: high,
            ..self
        }
    }

    // Control change 0.
    pub fn with_bank_high(self, v: u8) -> Memory
        ensures { result ≡ with_bank_high self v }
    {
        self.banked(v, self.bank_low)
    }

    // Control change 32.
    pub fn with_bank_low(self, v: u8) -> Memory
        ensures { result ≡ with_bank_low self v }
    {
        self.banked(self.bank_high, v)
    }

    fn with_address_bank(self, kind: u16, v: u8) -> Memory
        ensures { result ≡ with_address_bank kind self v }
    {
        let index = kept_half(self.kind, kind, self.address_index);
        self.addressed(kind, v, index, MISSING)
    }

    fn with_address_index(self, kind: u16, v: u8) -> Memory
        ensures { result ≡ with_address_index kind self v }
    {
        let bank = kept_half(self.kind, kind, self.address_bank);
        self.addressed(kind, bank, v, MISSING)
    }

    // Control change 101.
    pub fn with_registered_bank(self, v: u8) -> Memory
        ensures { result ≡ with_address_bank registered self v }
    {
        self.with_address_bank(REGISTERED, v)
    }

    // Control change 100.
    pub fn with_registered_index(self, v: u8) -> Memory
        ensures { result ≡ with_address_index registered self v }
    {
        self.with_address_index(REGISTERED, v)
    }

    // Control change 99.
    pub fn with_assignable_bank(self, v: u8) -> Memory
        ensures { result ≡ with_address_bank assignable self v }
    {
        self.with_address_bank(ASSIGNABLE, v)
    }

    // Control change 98.
    pub fn with_assignable_index(self, v: u8) -> Memory
        ensures { result ≡ with_address_index assignable self v }
    {
        self.with_address_index(ASSIGNABLE, v)
    }

    // Control change 6: only where the address is open, and there is no mark.
    #[tactic(auto, unfolding(crate::specs::Memory::with_data_high))]
    pub fn with_data_high(self, v: u8) -> Memory
        ensures { result ≡ with_data_high self v }
    {
        if self.address_open() & !self.is_coarse() {
            Memory {
                data_high: v,
                ..self
            }
        } else {
            self
        }
    }

    // Control change 121: no address is left, and no data high with it.
    pub fn with_address_closed(self) -> Memory
        ensures { result ≡ with_address_closed self }
    {
        self.addressed(NONE, MISSING, MISSING, MISSING)
    }

    // After a program change.
    pub fn with_bank_spent(self) -> Memory
        ensures { result ≡ with_bank_spent self }
    {
        self.banked(MISSING, MISSING)
    }

    // Any number but 0 sets the mark, and 0 takes it off. Data high goes, and the rest stays.
    pub fn with_mark(self, coarse: u8) -> Memory
        ensures { result ≡ with_mark self coarse }
    {
        Memory {
            data_high: MISSING,
            coarse: mark_by(coarse),
            ..self
        }
    }
}
