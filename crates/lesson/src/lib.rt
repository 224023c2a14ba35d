// The lesson run: up over a table of its own, which nobody lent, so that no record of it can be other
// than sound and none is asked.
//
// `run` has no `requires`, and promises the words and the report of the run up from that table, with an
// answer that is one of three.
#![tactic(auto)]

ghost use Rattle.std.specs.Prelude.{◌≡◌, length};
ghost use Rattle.ground.specs.Store.{at_start};
ghost use Rattle.lesson.specs.Lesson.{lesson, lesson_report};

use stream::Done;
use table::{known_run, run_from};

// The packets of the words, from a table that is empty but for the marks of `coarse`: one number for
// each group, in which bit c is the mark of channel c.
pub fn run(words: &[u32], coarse: &[u16], out: &mut [u32]) -> Done
    ensures report { result
        ≡ lesson_report (lesson (length out.old) coarse.now words.now) }
    ensures output { out.new ≡ at_start
        (lesson (length out.old) coarse.now words.now).sends out.old }
{
    let records = mark::marked_table(coarse);
    let ran = run_from(records, words, out, known_run());
    ran.done
}
