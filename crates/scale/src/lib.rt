// Scaling of values between the widths of MIDI 1.0 and MIDI 2.0, by one rule.
//
// Every function here is total. Of a value outside the source width only the lowest bits, as many
// as the width has, are read.
#![tactic(auto)]

ghost use Rattle.std.specs.Prelude.{◌≡◌, cond, ◌<◌, ◌%◌, ◌^◌, leb};
ghost use Rattle.scale.specs.Scale.{CoreRules, down, up};

// What a value repeats below itself: nothing up to the centre, and above it all its bits but the highest. It is picked
// first, so that no branch stands around the shifts.
fn repeated(x: u32, centre: u32) -> u32
    requires { 0 < centre }
    ensures { result ≡ cond (leb x centre) 0 (x % centre) }
{
    if x <= centre { 0 } else { x % centre }
}

// Kept: one function over any two widths could not promise this, since a width above 32 does not fit the result, and it
// would loop over the copies that each of these three writes as one row.
// From 7 to 16 bits: velocities.
pub fn up_7_to_16(x: u32) -> u32
    ensures { result ≡ up 7 16 (x % 2 ^ 7) }
{
    let v = x % 0x80;
    let r = repeated(v, 0x40);
    (v << 9) + (r << 3) + (r >> 3)
}

// From 7 to 32 bits: pressure and controllers.
pub fn up_7_to_32(x: u32) -> u32
    ensures { result ≡ up 7 32 (x % 2 ^ 7) }
{
    let v = x % 0x80;
    let r = repeated(v, 0x40);
    (v << 25) + (r << 19) + (r << 13) + (r << 7) + (r << 1) + (r >> 5)
}

// From 14 to 32 bits: pitch bend, registered and assignable controllers.
pub fn up_14_to_32(x: u32) -> u32
    ensures { result ≡ up 14 32 (x % 2 ^ 14) }
{
    let v = x % 0x4000;
    let r = repeated(v, 0x2000);
    (v << 18) + (r << 5) + (r >> 8)
}

// Kept: one function over any two widths would need tests for those of 32 bits and more, where each of these three is
// one shift.
// From 16 to 7 bits.
pub fn down_16_to_7(y: u32) -> u32
    ensures { result ≡ down 16 7 (y % 2 ^ 16) }
{
    (y % 0x10000) >> 9
}

// From 32 to 7 bits: every value is inside the width.
pub fn down_32_to_7(y: u32) -> u32
    ensures { result ≡ down 32 7 y }
{
    y >> 25
}

// From 32 to 14 bits: every value is inside the width.
pub fn down_32_to_14(y: u32) -> u32
    ensures { result ≡ down 32 14 y }
{
    y >> 18
}

// The core rules of 004 D.1.2 hold of the definitions, for every two widths.
pub fn core_rules()
    ensures { CoreRules }
{}
