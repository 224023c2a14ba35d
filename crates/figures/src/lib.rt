// Exact decimals: a number of 2 to the -31 written out with all of its decimal places, of which there
// are no more than 31, since ten is twice five.
//
// `exact` has no `requires`, and says what it answers and what the lent buffer holds after it, on every
// input: what does not fit is not begun. That the digits lose nothing is a claim.
#![tactic(auto)]

ghost use Rattle.std.specs.Prelude.{◌≡◌, ◌+◌, ◌<◌, ◌≤◌, ◌^◌, length};
ghost use Rattle.std.proofs.lemmas.List.Edits.{sets};
ghost use Rattle.text.specs.Lines.{place_if_put, with_row};
ghost use Rattle.figures.specs.Figures.{Exactly, exact_decimal, fraction_digits};

// How many parts of 2 to the -31 are a whole.
const UNIT: u64 = 0x80000000;

// The most decimal places that such a number has.
const PLACES: usize = 31;

// More than any of them is long: 20 digits, the point, and the places.
const ROW_BYTES: usize = 52;

// Stores the digits behind the point, and answers the place after them.
fn put_digits(rest: u64, row: &mut [u8], at: usize) -> usize
    requires { (rest < 2 ^ 31) × (at + 31 ≤ length row.old) }
    ensures place { result ≡ at + length (fraction_digits 31 rest) }
    ensures text { row.new ≡ sets row.old at (fraction_digits 31 rest) }
{
    let mut left = rest;
    for end in at..at + PLACES {
        if left == 0 {
            return end;
        }
        let tenfold = left * 10;
        let digit = (tenfold / UNIT) as u8;
        row[end] = b'0' + digit;
        left = tenfold % UNIT;
    }
    at + PLACES
}

// Stores the whole number, and answers its length.
fn put_exact(size: u64, row: &mut [u8]) -> usize
    requires { 52 ≤ length row.old }
    ensures place { result ≡ length (exact_decimal size) }
    ensures text { row.new ≡ sets row.old 0 (exact_decimal size) }
    ensures few { result ≤ 52 }
{
    let point = text::number(size / UNIT, row, 0).unwrap();
    let rest = size % UNIT;
    if rest == 0 {
        return point;
    }
    row[point] = b'.';
    put_digits(rest, row, point + 1)
}

// Writes so many parts of 2 to the -31 in decimal from a place on and answers the place after it. Where it
// does not fit, it writes nothing and answers None.
pub fn exact(size: u64, out: &mut [u8], to: usize) -> Option<usize>
    ensures place { result ≡ place_if_put out.old to (exact_decimal size) }
    ensures text { out.new ≡ with_row out.old to (exact_decimal size) }
{
    // Kept: memory is fixed here, so the row is made in a buffer that has room for the longest.
    let mut row = [0u8; ROW_BYTES];
    let n = put_exact(size, &mut row);
    text::row(&row[..n], out, to)
}

// A claim, with no code: the digits behind the point are the fraction, with nothing left over.
pub fn exactly()
    ensures { Exactly }
{}
