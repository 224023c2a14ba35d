// A line: how many notes sound, and each with its base and its pitch.
ghost use Rattle.std.specs.Prelude.{◌≡◌, ◌+◌, ◌≤◌, nat_abs, length};
ghost use Rattle.std.proofs.lemmas.List.Edits.{sets};
ghost use Rattle.text.specs.Lines.{place_if_put, with_row};
ghost use Rattle.pitch.specs.Dyadic.{times2};
ghost use Rattle.pitch.specs.Pitch.{float_of};
ghost use Rattle.display.specs.Line.{Parts, count_below, field_from, field_of, fields_below, line_of};
ghost use Rattle.display.specs.Line.{pitch_text, same_below, same_shown, shown_at};

use pitch::Shown;
use tuning::{Desk, ask};

// How many notes there are.
const NOTES: u8 = 128;

// More than any line has: 128 notes of at most 63 bytes, their number and the end.
const LINE_BYTES: usize = 0x2000;

// A pitch times 2 to the 31, without its sign. The cast loses nothing.
// Kept: a pitch comes out of `Shown` as a plain f64, so a struct that holds what is required of it would be made in
// each arm of `put_shown` and taken apart here.
fn size_of(p: f64) -> u64
    requires { Parts p }
    ensures { result ≡ nat_abs (times2 31 p) }
{
    (p.abs() * 2147483648.0) as u64
}

// Stores a pitch in exact digits.
fn put_pitch(p: f64, row: &mut [u8], at: usize) -> usize
    requires { Parts p × (at + 53 ≤ length row.old) }
    ensures place { result ≡ at + length (pitch_text p) }
    ensures text { row.new ≡ sets row.old at (pitch_text p) }
{
    let size = size_of(p);
    if p < 0.0 {
        let next = text::row(b"-", row, at).unwrap();
        figures::exact(size, row, next).unwrap()
    } else {
        figures::exact(size, row, at).unwrap()
    }
}

// Stores a note with the name of its base, which has a space on either side, and its pitch.
fn put_field(note: u8, name: &[u8], p: f64, row: &mut [u8], at: usize) -> usize
    requires { Parts p × (length name.now ≤ 6) × (at + 63 ≤ length row.old) }
    ensures place { result ≡ at + length (field_of note name.now p) }
    ensures text { row.new ≡ sets row.old at (field_of note name.now p) }
{
    let first = text::row(b" ", row, at).unwrap();
    let second = text::number(note as u64, row, first).unwrap();
    let third = text::row(name, row, second).unwrap();
    put_pitch(p, row, third)
}

// What is shown of a note, if anything is.
// Kept: a desk and its range are no struct, since two desks are compared, and heard one from another, with one range.
fn shown(desk: Desk, units: u32, note: u8) -> Option<Shown>
    ensures is { result ≡ shown_at desk units note }
    ensures parts { Parts (float_of result) }
{
    ask(desk, note, units, 0).ok()
}

// Stores what is shown of a note: nothing where it is silent.
#[tactic(auto, unfolding(crate::specs::Line::field_from))]
fn put_shown(note: u8, shown: Option<Shown>, row: &mut [u8], at: usize) -> usize
    requires { Parts (float_of shown) × (at + 63 ≤ length row.old) }
    ensures place { result ≡ at + length (field_from note shown) }
    ensures text { row.new ≡ sets row.old at (field_from note shown) }
{
    match shown {
        None => at,
        Some(Shown::Number(p)) => put_field(note, b" note ", p, row, at),
        Some(Shown::Pitch725(p)) => put_field(note, b" 7.25 ", p, row, at),
        Some(Shown::Pitch79(p)) => put_field(note, b" 7.9 ", p, row, at),
    }
}

// Stores what is shown of all notes.
fn put_notes(desk: Desk, units: u32, row: &mut [u8], at: usize) -> usize
    requires { at + 8064 ≤ length row.old }
    ensures place { result ≡ at + length (fields_below desk units 128) }
    ensures text { row.new ≡ sets row.old at (fields_below desk units 128) }
    ensures few { result ≤ at + 8064 }
{
    let mut end = at;
    for note in 0..NOTES {
        end = put_shown(note, shown(desk, units, note), row, end);
    }
    end
}

// How many notes are shown.
fn count_notes(desk: Desk, units: u32) -> usize
    ensures { result ≡ count_below desk units 128 }
{
    (0..NOTES)
        .filter(|note| shown(desk, units, *note).is_some())
        .count()
}

// Stores the whole line, and answers its length.
fn put_line(desk: Desk, units: u32, row: &mut [u8]) -> usize
    requires { 8192 ≤ length row.old }
    ensures place { result ≡ length (line_of desk units) }
    ensures text { row.new ≡ sets row.old 0 (line_of desk units) }
    ensures few { result ≤ 8192 }
{
    let fields = text::number(count_notes(desk, units) as u64, row, 0).unwrap();
    let end = put_notes(desk, units, row, fields);
    row[end] = b'\n';
    end + 1
}

// Writes the line of a desk, with a range of so many units, from a place on and answers the place after
// it. Where it does not fit, it writes nothing and answers None.
pub fn line(desk: Desk, units: u32, out: &mut [u8], to: usize) -> Option<usize>
    ensures place { result ≡ place_if_put out.old to (line_of desk units) }
    ensures text { out.new ≡ with_row out.old to (line_of desk units) }
{
    // Kept: memory is fixed here, so the line is made in a buffer that has room for the longest.
    let mut row = [0u8; LINE_BYTES];
    let n = put_line(desk, units, &mut row);
    text::row(&row[..n], out, to)
}

// Whether the same is shown of a note: the same pitch, counted from the same; or nothing of either.
fn is_same_shown(one: Option<Shown>, other: Option<Shown>) -> bool
    ensures { result ≡ same_shown one other }
{
    one == other
}

// Whether two desks show the same of every note.
pub fn is_same_picture(one: Desk, other: Desk, units: u32) -> bool
    ensures { result ≡ same_below one other units 128 }
{
    (0..NOTES).all(|note| is_same_shown(shown(one, units, note), shown(other, units, note)))
}
