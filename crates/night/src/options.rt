// The options in front of PRN.
use console::args::argument;
use inputs::files::{is_arg, is_option};

// What was asked for: a line for each frame, the table alone, no progress lines, mixed logs, and the limits.
#[derive(Clone, Copy)]
pub(crate) struct Options {
    pub each: bool,
    pub csv: bool,
    pub quiet: bool,
    pub mixed: bool,
    pub rows: u32,
    pub percent: Option<u32>,
    pub age: Option<u32>,
    pub gap: Option<u32>,
}

// Something is wrong with the options, and it has been said what.
#[derive(Clone, Copy)]
pub(crate) struct Wrong;

// An option that stands alone.
#[derive(Clone, Copy)]
enum Word {
    Each,
    Csv,
    Quiet,
    Mixed,
}

// An option with a number behind it.
#[derive(Clone, Copy)]
enum Limit {
    Rows,
    Percent,
    Age,
    Gap,
}

// The option that stands alone and that argument i is, if it is one.
fn word_of(rt: &HostRuntime, i: usize) -> Option<Word> {
    if is_arg(rt, i, b"-e") {
        Some(Word::Each)
    } else if is_arg(rt, i, b"--csv") {
        Some(Word::Csv)
    } else if is_arg(rt, i, b"--quiet") {
        Some(Word::Quiet)
    } else if is_arg(rt, i, b"-m") {
        Some(Word::Mixed)
    } else {
        None
    }
}

// The option with a number behind it that argument i is, if it is one.
fn limit_of(rt: &HostRuntime, i: usize) -> Option<Limit> {
    if is_arg(rt, i, b"--min-rows") {
        Some(Limit::Rows)
    } else if is_arg(rt, i, b"--max-refused") {
        Some(Limit::Percent)
    } else if is_arg(rt, i, b"--max-age") {
        Some(Limit::Age)
    } else if is_arg(rt, i, b"--max-gap") {
        Some(Limit::Gap)
    } else {
        None
    }
}

// The number that argument i says, if it says one.
fn number_arg(rt: &HostRuntime, i: usize) -> Option<u32> {
    let mut room = io::buffer();
    let n = argument(rt, i, &mut room).count;
    console::words::number_of(&room[..n])
}

// What is wrong with argument i.
fn say_arg(rt: &HostRuntime, i: usize, what: &[u8]) -> Wrong {
    let mut room = io::buffer();
    let n = argument(rt, i, &mut room).count;
    console::say::say_file(rt, b"night", &room[..n], what);
    Wrong
}

impl Options {
    // No options.
    fn new() -> Options {
        Options {
            each: false,
            csv: false,
            quiet: false,
            mixed: false,
            rows: 1,
            percent: None,
            age: None,
            gap: None,
        }
    }

    // One more that stands alone.
    fn set(&mut self, word: Word) {
        match word {
            Word::Each => self.each = true,
            Word::Csv => self.csv = true,
            Word::Quiet => self.quiet = true,
            Word::Mixed => self.mixed = true,
        }
    }

    // A limit, whose number is argument i + 1.
    fn limit(&mut self, rt: &HostRuntime, limit: Limit, i: usize) -> Result<(), Wrong> {
        let Some(x) = number_arg(rt, i.saturating_add(1)) else {
            return Err(say_arg(rt, i, b"expected a number after it"));
        };
        match limit {
            Limit::Rows => self.rows = x,
            Limit::Percent => {
                if x > 100 {
                    return Err(say_arg(rt, i, b"expected 0 to 100 percent after it"));
                }
                self.percent = Some(x);
            }
            Limit::Age => self.age = Some(x),
            Limit::Gap => self.gap = Some(x),
        }
        Ok(())
    }

    // The options that argument i begins are set, if it is one: how many arguments they are.
    fn take(&mut self, rt: &HostRuntime, i: usize) -> Result<usize, Wrong> {
        if !is_option(rt, i) {
            return Ok(0);
        }
        if let Some(word) = word_of(rt, i) {
            self.set(word);
            return Ok(1);
        }
        let Some(limit) = limit_of(rt, i) else {
            return Err(say_arg(rt, i, b"no such option; night alone says how it is called"));
        };
        self.limit(rt, limit, i)?;
        Ok(2)
    }
}

// The options from argument first on, of count, and which argument stands behind them.
pub(crate) fn options_from(
    rt: &HostRuntime,
    first: usize,
    count: usize,
) -> Result<(Options, usize), Wrong> {
    let mut o = Options::new();
    let mut at = first;
    for _ in 0..10000 {
        if at >= count {
            break;
        }
        let n = o.take(rt, at)?;
        if n == 0 {
            break;
        }
        at = at.saturating_add(n);
    }
    if o.each && o.csv {
        console::say::say_file(
            rt,
            b"night",
            b"--csv",
            b"prints the table alone, so not with -e",
        );
        return Err(Wrong);
    }
    Ok((o, at))
}
