//! A file of cases, line by line.
use crate::formail_case::FormailCase;
use crate::formail_trying::try_formail;
use crate::plan::Plan;
use crate::tally::Tally;
use crate::trying::try_plan;
use cases::{Line, Refused, State, Words, answer, copy_of, show_words};
use std::alloc::Global;

/// The case whose lines are being read.
#[derive(Drop)]
enum Open {
    /// None: the lines are rows.
    Rows,
    Procmail(Plan),
    Formail(FormailCase),
}

/// What was read so far: the case that is open, what it or the rows are about, and the variables.
#[derive(Drop)]
pub struct Session {
    alloc: Global,
    open: Open,
    about: Words,
    state: State,
    tally: Tally,
}

impl Session {
    pub fn new(alloc: Global) -> Session {
        Session {
            alloc,
            open: Open::Rows,
            about: Vec::new(alloc),
            state: State::new(alloc),
            tally: Tally::new(),
        }
    }

    /// Reads the lines, tries what they end, and tells how many tries passed and failed.
    pub fn take_all<R: Print>(&mut self, rt: &R, lines: &[Line]) -> Result<Tally, Refused> {
        for line in lines {
            self.take(rt, line)?;
        }
        self.end_case(rt)?;
        let Tally { passed, failed, .. } = self.tally;
        println!(rt; "{passed} passed, {failed} failed")?;
        Ok(self.tally)
    }

    // Reads a line, and tries what it ends.
    fn take<R: Print>(&mut self, rt: &R, line: &Line) -> Result<(), Refused> {
        match self.read(rt, line) {
            Err(refused) => Err(refused.at(line.number)),
            Ok(()) => Ok(()),
        }
    }

    fn read<R: Print>(&mut self, rt: &R, line: &Line) -> Result<(), Refused> {
        match line.key() {
            "run" => {
                self.end_case(rt)?;
                self.begin_run(line)
            }
            "formail" => {
                self.end_case(rt)?;
                self.begin_formail(line)
            }
            "about" => {
                self.end_case(rt)?;
                self.begin_rows(line)
            }
            _ => match &mut self.open {
                Open::Procmail(plan) => plan.take(line),
                Open::Formail(case) => case.take(line),
                Open::Rows => self.read_row(rt, line),
            },
        }
    }

    fn begin_run(&mut self, line: &Line) -> Result<(), Refused> {
        self.open = Open::Procmail(Plan::new(self.alloc, line)?);
        Ok(())
    }

    fn begin_formail(&mut self, line: &Line) -> Result<(), Refused> {
        self.open = Open::Formail(FormailCase::new(self.alloc, line)?);
        Ok(())
    }

    fn begin_rows(&mut self, line: &Line) -> Result<(), Refused> {
        self.about = copy_of(self.alloc, line.arguments())?;
        Ok(())
    }

    fn read_row<R: Print>(&mut self, rt: &R, line: &Line) -> Result<(), Refused> {
        let words = line.words.as_slice();
        let arrow = words
            .iter()
            .position(|word| word.as_slice() == b"->".as_slice());
        let Some(arrow) = arrow else {
            return self.state.take(line);
        };
        let asked = words.get(..arrow).unwrap_or(words);
        let wanted = words.get(arrow.saturating_add(1)..).unwrap_or(words);
        let came = answer(self.alloc, &self.state, asked)?;
        self.tally.count(wanted == came.as_slice());
        if wanted == came.as_slice() {
            Ok(())
        } else {
            self.print_row(rt, line.number, [asked, wanted, came.as_slice()])
        }
    }

    // A row that failed: what is asked, what is wanted and what came.
    fn print_row<R: Print>(&self, rt: &R, line: u64, row: [&[Vec<u8>]; 3]) -> Result<(), Refused> {
        let [asked, wanted, came] = row;
        self.print_asked(rt, line, asked)?;
        self.print_words(rt, "  wanted", wanted)?;
        self.print_words(rt, "  came  ", came)
    }

    fn print_asked<R: Print>(&self, rt: &R, line: u64, asked: &[Vec<u8>]) -> Result<(), Refused> {
        let about = show_words(self.alloc, &self.about)?;
        let start = format!(in self.alloc; "{line}: about {about}:")?;
        self.print_words(rt, start.as_str(), asked)
    }

    fn print_words<R: Print>(&self, rt: &R, start: &str, words: &[Vec<u8>]) -> Result<(), Refused> {
        let shown = show_words(self.alloc, words)?;
        Ok(println!(rt; "{start} {shown}")?)
    }

    // Tries the case that is open.
    fn end_case<R: Print>(&mut self, rt: &R) -> Result<(), Refused> {
        match std::mem::replace(&mut self.open, Open::Rows) {
            Open::Rows => Ok(()),
            Open::Procmail(plan) => at_line(plan.line, try_plan(rt, &plan, &mut self.tally)),
            Open::Formail(case) => {
                at_line(
                    case.line,
                    try_formail(rt, &case, &self.about, &mut self.tally),
                )
            }
        }
    }
}

// A refusal with the number of the line that began the case.
fn at_line(line: u64, tried: Result<(), Refused>) -> Result<(), Refused> {
    match tried {
        Err(refused) => Err(refused.at(line)),
        Ok(()) => Ok(()),
    }
}
