// Where a program starts from: its arguments, all of which are looked at before anything is read. Each
// names a channel to mark coarse, or two name the one channel that is asked for, with a range by a third,
// or one names a group. One that is wrong, or missing, gets a line on standard error.
//
// No contract can say what a program is started with, so these functions are proved to be safe and to
// end. What an argument names and what a mark does are said by the contracts of argument and mark.
#![tactic(auto)]

use flow::Table;
use std::env::{Env, FillError};
use std::io::Write;

// That an argument is wrong or missing, which has been said. It forbids to start.
#[derive(Clone, Copy)]
pub struct Wrong;

// The channel that is asked for, by its group and its own number.
#[derive(Clone, Copy)]
pub struct Chosen {
    pub group: u8,
    pub channel: u8,
}

// The same with the units of a range.
#[derive(Clone, Copy)]
pub struct ChosenRange {
    pub chosen: Chosen,
    pub units: u8,
}

// The arguments of a program, and where it says under its name what is wrong with them.
#[derive(Drop)]
struct Arguments<'v, 'e, 'n, V, E> {
    env: &'v V,
    errors: &'e mut E,
    name: &'n [u8],
}

// The bytes of a wrong argument that are shown, and more than any right one has.
const SHOWN_BYTES: usize = 0x100;

const COARSE: u8 = 1;

// Names a wrong argument. Dots stand for the bytes that are not shown.
pub fn say_wrong<V: Env, E: Write>(env: &V, errors: &mut E, name: &[u8], what: &[u8], i: usize) {
    let mut bytes = [0u8; SHOWN_BYTES];
    match env.arg(i, &mut bytes) {
        Ok(n) => notice::say_wrong(errors, name, what, &bytes[..n], b""),
        Err(FillError::TooLong) => notice::say_wrong(errors, name, what, &bytes, b"..."),
        Err(FillError::NotPresent) => notice::say_wrong(errors, name, what, b"", b""),
    }
}

// Whether there is an argument at a place.
pub fn is_given<V: Env>(env: &V, i: usize) -> bool {
    let mut bytes = [0u8; SHOWN_BYTES];
    !matches!(env.arg(i, &mut bytes), Err(FillError::NotPresent))
}

impl<V: Env, E: Write> Arguments<'_, '_, '_, V, E> {
    fn refuse(&mut self, what: &[u8], i: usize) -> Wrong {
        say_wrong(self.env, self.errors, self.name, what, i);
        Wrong
    }

    // What an argument gives, with a line for one that gives nothing. One that is too long to be shown whole does not.
    fn given<T: Drop, F: Fn(&[u8]) -> Option<T> + Drop>(
        &mut self,
        i: usize,
        what: &[u8],
        parse: F,
    ) -> Result<T, Wrong>
        requires { F.IsAlwaysCallable parse }
    {
        let mut bytes = [0u8; SHOWN_BYTES];
        let found = match self.env.arg(i, &mut bytes) {
            Ok(n) => parse(&bytes[..n]),
            Err(_) => None,
        };
        match found {
            Some(found) => Ok(found),
            None => Err(self.refuse(what, i)),
        }
    }

    // The same with another line where there is no argument.
    fn needed<F: Fn(&[u8]) -> Option<u8> + Drop>(
        &mut self,
        i: usize,
        missing: &[u8],
        what: &[u8],
        parse: F,
    ) -> Result<u8, Wrong>
        requires { F.IsAlwaysCallable parse }
    {
        if is_given(self.env, i) {
            return self.given(i, what, parse);
        }
        notice::say_wrong(self.errors, self.name, missing, b"", b"");
        Err(Wrong)
    }

    // The first argument as a group.
    fn group(&mut self) -> Result<u8, Wrong> {
        self.needed(
            1,
            b": GROUP is missing",
            b": not a GROUP, 0 to 15: ",
            argument::number_in,
        )
    }

    // The second as a channel.
    fn channel(&mut self) -> Result<u8, Wrong> {
        self.needed(
            2,
            b": CHANNEL is missing",
            b": not a CHANNEL, 0 to 15: ",
            argument::number_in,
        )
    }

    // The third as the units of a range.
    fn units(&mut self) -> Result<u8, Wrong> {
        self.needed(
            3,
            b": UNITS is missing",
            b": not UNITS, 0 to 127: ",
            |text| argument::units_in(text),
        )
    }

    // A fresh table in which the channel of each argument is marked. Argument 0 is the program itself.
    fn table(&mut self) -> Result<Table, Wrong> {
        let mut records = channel::fresh_table();
        let mut all = Ok(());
        for i in 1..usize::MAX {
            if !is_given(self.env, i) {
                break;
            }
            let what = b": not GROUP:CHANNEL, each 0 to 15: ";
            match self.given(i, what, argument::channel_named) {
                Ok((group, channel)) => {
                    let marked = mark::mark_in(records, group, channel, COARSE);
                    records = marked;
                }
                Err(wrong) => all = Err(wrong),
            }
        }
        all?;
        Ok(Table { records })
    }

    // Names each argument from a place on, where no more are taken.
    fn end(&mut self, what: &[u8], from: usize) -> Result<(), Wrong> {
        let mut all = Ok(());
        for i in from..usize::MAX {
            if !is_given(self.env, i) {
                break;
            }
            all = Err(self.refuse(what, i));
        }
        all
    }
}

// A fresh table in which the channel of each argument is marked.
pub fn taken<V: Env, E: Write>(env: &V, errors: &mut E, name: &[u8]) -> Result<Table, Wrong> {
    Arguments { env, errors, name }.table()
}

// Where a program takes no arguments.
pub fn nothing_taken<V: Env, E: Write>(env: &V, errors: &mut E, name: &[u8]) -> Result<(), Wrong> {
    Arguments { env, errors, name }.end(b": takes no arguments: ", 1)
}

// The channel that the two arguments name.
pub fn channel_chosen<V: Env, E: Write>(
    env: &V,
    errors: &mut E,
    name: &[u8],
) -> Result<Chosen, Wrong> {
    let mut arguments = Arguments { env, errors, name };
    let group = arguments.group();
    let channel = arguments.channel();
    arguments.end(b": takes GROUP and CHANNEL alone: ", 3)?;
    Ok(Chosen {
        group: group?,
        channel: channel?,
    })
}

// The channel and the range that the three arguments name.
pub fn range_chosen<V: Env, E: Write>(
    env: &V,
    errors: &mut E,
    name: &[u8],
) -> Result<ChosenRange, Wrong> {
    let mut arguments = Arguments { env, errors, name };
    let group = arguments.group();
    let channel = arguments.channel();
    let units = arguments.units();
    arguments.end(b": takes GROUP, CHANNEL and UNITS alone: ", 4)?;
    Ok(ChosenRange {
        chosen: Chosen {
            group: group?,
            channel: channel?,
        },
        units: units?,
    })
}

// The group that the only argument names, or 0 where there is none. Any further one is wrong.
pub fn group_chosen<V: Env, E: Write>(env: &V, errors: &mut E, name: &[u8]) -> Result<u8, Wrong> {
    let mut arguments = Arguments { env, errors, name };
    let group = if is_given(env, 1) {
        arguments.given(1, b": not a GROUP, 0 to 15: ", argument::number_in)
    } else {
        Ok(0)
    };
    arguments.end(b": takes GROUP alone: ", 2)?;
    group
}
