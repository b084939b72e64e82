// The lines of a case file in turn: a line sets something up, is a step, or holds what the step above gave against what it must give.
use case_calls::{elapsed_step, leave_step, message_step};
use case_coding::{block_step, read_step, write_step};
use case_forms::lines::{Line, Step, read_line};
use case_forms::misread::Misread;
use case_rooms::Ran;
use case_rooms::lent::RIGHT;
use case_rooms::setting::Setting;
use case_stream::output::Output;
use case_stream::report::Report;
use case_stream::source::Turn;
use case_text::{Words, trim};
use std::alloc::{AllocError, Global};
use std::io;
use std::io::Write;

#[derive(Drop)]
pub struct Runner {
    report: Report,
    setting: Setting,
}

impl Runner {
    // Lines before the first `case` are a case with no name, which starts as any other.
    pub fn new(alloc: Global, output: Output) -> Result<Runner, AllocError> {
        Ok(Runner {
            report: Report::new(alloc, output),
            setting: Setting::new(alloc)?,
        })
    }

    // What one turn of the source found. Every line has a number, also one that is too long.
    pub fn take_turn(&mut self, turn: Turn<'_>) -> io::Result<()> {
        if !matches!(turn, Turn::Piece(_)) {
            self.report.count_line();
        }
        match turn {
            Turn::Piece(piece) => self.report.output.pass_on(piece),
            Turn::LongEnd(end) => self.take_long_line(end),
            Turn::Line(line) => self.take_line(line),
        }
    }

    fn take_long_line(&mut self, end: &[u8]) -> io::Result<()> {
        if self.report.begin_line(end)? {
            self.report.fail_long()?;
        }
        Ok(())
    }

    fn take_line(&mut self, line: &[u8]) -> io::Result<()> {
        let mut words = Words::of(line);
        match words.next() {
            None | Some([b'#', ..]) => self.report.output.keep(line),
            Some([b'=', ..]) => self.report.take_expected(line),
            Some(b"case") => self.open_case(line, trim(words.rest())),
            Some(_) => self.run_line(line),
        }
    }

    fn open_case(&mut self, line: &[u8], name: &[u8]) -> io::Result<()> {
        self.report.close_case()?;
        self.report.open_case(name)?;
        self.setting = Setting::new(self.setting.alloc)?;
        self.report.output.keep(line)
    }

    // A line that sets something up or is a step, unless its case has failed.
    fn run_line(&mut self, line: &[u8]) -> io::Result<()> {
        if !self.report.begin_line(line)? {
            return Ok(());
        }
        match read_line(self.setting.alloc, line) {
            Ok(Line::Ours(cid)) => self.setting.ours = cid,
            Ok(Line::Record(i, record)) => self.setting.set_record(i, record),
            Ok(Line::Free(i)) => self.setting.free(i),
            Ok(Line::Place(place)) => self.setting.set_place(&place),
            Ok(Line::Lend(piece, n)) => self.setting.lent.set(piece, n),
            Ok(Line::Step(step)) => self.take_step(step)?,
            Err(Misread::At(at, wanted)) => self.report.fail_reading(line, at, wanted)?,
            Err(Misread::OutOfMemory(error)) => return Err(io::Error::from(error)),
        }
        Ok(())
    }

    // Runs a step. What was lent for it is spent. The library takes its eight records by value.
    fn take_step(&mut self, step: Step) -> io::Result<()> {
        if step.takes_table() && self.setting.lent.table != 8 {
            let reason = "a table of another number of records than 8 cannot be lent yet";
            return self.report.fail_for(reason);
        }
        let ran = self.run_step(step)?;
        self.setting.lent = RIGHT;
        match ran.fault {
            None => self.report.take_step(ran.said),
            Some(fault) => self.report.fail_for(fault),
        }
    }

    fn run_step(&mut self, step: Step) -> Result<Ran, AllocError> {
        let setting = &mut self.setting;
        let alloc = setting.alloc;
        match step {
            Step::Message {
                sender,
                vector,
                reciprocal,
                data,
            } => message_step(setting, &sender, vector, reciprocal, &data),
            Step::Elapsed(ms) => elapsed_step(setting, ms),
            Step::Leave {
                owner,
                channel,
                reason,
            } => leave_step(setting, &owner, channel, reason),
            Step::Block { position, octets } => block_step(alloc, position, &octets),
            Step::Read { vector, data } => read_step(alloc, vector, &data),
            Step::Write {
                room,
                message,
                contents,
            } => write_step(alloc, room, message, &contents),
        }
    }

    // The input has ended.
    pub fn finish(&mut self) -> io::Result<()> {
        self.report.close_case()?;
        self.report.tally()
    }

    // The input cannot be read on: what was reported so far is written.
    pub fn give_up(&mut self) -> io::Result<()> {
        self.report.output.flush()
    }
}
