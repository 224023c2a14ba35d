// The pitch of a note as an f64, in units of a semitone: what it is counted from, and what the
// bend adds.
//
// Every function is total. Nothing is rounded: a pitch is just as many parts of 2 to the -31 as the number of
// specs/Pitch.antt, since no operation on the way loses anything.
#![tactic(auto)]

ghost use Rattle.std.specs.Prelude.{◌≡◌, pos, Some};
ghost use Rattle.pitch.specs.Dyadic.{Dyadic, nearest};
ghost use Rattle.pitch.specs.Pitch.{base_of, bend_of, float_of, pitch_of, shown_as};
ghost use Rattle.pitch.specs.Claims.{Exactness, Operations};

// What a pitch is counted from: the note number, Pitch 7.25 or Pitch 7.9.
#[derive(Clone, Copy)]
pub enum Base {
    Number(u8),
    Pitch725(u32),
    Pitch79(u16),
}

// What is shown: which of the three it was, together with the pitch.
#[derive(Clone, Copy, PartialEq)]
pub enum Shown {
    Number(f64),
    Pitch725(f64),
    Pitch79(f64),
}

// The base in hundred-cent units.
fn base_pitch(base: Base) -> f64
    ensures { (result ≡ nearest 31 (pos (base_of base))) × Dyadic 39 31 result (pos (base_of base)) }
{
    match base {
        Base::Number(n) => n as f64,
        Base::Pitch725(w) => w as f64 / 33554432.0,
        Base::Pitch79(h) => h as f64 / 512.0,
    }
}

// What a bend adds where its range is so many units.
// Kept: a bend and its range are no struct, since nothing else reads them and a desk is asked with many ranges.
fn offset(bend: u32, units: u8) -> f64
    ensures { Dyadic 41 31 result (bend_of bend units) }
{
    (bend as f64 - 2147483648.0) / 2147483648.0 * (units as f64)
}

// The pitch that is counted from a base.
pub fn pitch(base: Base, bend: u32, units: u8) -> f64
    ensures { (result ≡ nearest 31 (pitch_of base bend units)) × Dyadic 42 31 result (pitch_of base bend units) }
{
    base_pitch(base) + offset(bend, units)
}

// The pitch together with what it was counted from.
pub fn show(base: Base, bend: u32, units: u8) -> Shown
    ensures shown { result ≡ shown_as base (nearest 31 (pitch_of base bend units)) }
    ensures exact { Dyadic 42 31 (float_of (Some result)) (pitch_of base bend units) }
{
    let p = pitch(base, bend, units);
    match base {
        Base::Number(_) => Shown::Number(p),
        Base::Pitch725(_) => Shown::Pitch725(p),
        Base::Pitch79(_) => Shown::Pitch79(p),
    }
}

// The pitch that is shown, and 0 where nothing is.
pub fn shown_pitch(shown: Option<Shown>) -> f64
    ensures { result ≡ float_of shown }
{
    match shown {
        None => 0.0,
        Some(Shown::Number(p) | Shown::Pitch725(p) | Shown::Pitch79(p)) => p,
    }
}

// Claims, each a theorem with no code.

// The shown pitch times 2 to the 31 is the whole number of the definition.
pub fn exactness()
    ensures { Exactness }
{}

// No operation on the way to it loses anything.
pub fn operations()
    ensures { Operations }
{}
