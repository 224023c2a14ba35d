// What the tuning desk displays: a line with the notes that sound, what each is counted from and its
// pitch in exact digits; and a run, which has a line for each packet that changes what is shown.
//
// No public function has a `requires`. Each says by a definition of specs/ what it answers and what the
// lent text holds after it, on every input: a line that does not fit is not begun.
#![tactic(auto)]

mod picture;
mod run;

pub use picture::{is_same_picture, line};
pub use run::show_some;
use stream::Done;
use tuning::Desk;

// A call or a run: the desk after it, and the report, which counts the bytes of the lines as written.
#[derive(Clone, Copy)]
pub struct DeskAndReport {
    pub desk: Desk,
    pub done: Done,
}
