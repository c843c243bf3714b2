// One line for each vector, and the count of those that passed and failed.
use super::answer::Answer;
use super::ask::Came;
use std::io;

#[derive(Drop)]
pub struct Report<'a, R> {
    rt: &'a R,
    passed: u64,
    failed: u64,
}

impl<'a, R: Print> Report<'a, R> {
    pub fn new(rt: &'a R) -> Report<'a, R> {
        Report {
            rt,
            passed: 0,
            failed: 0,
        }
    }

    // Compares what came of a call with what it should answer.
    pub fn line(&mut self, call: &str, name: &[u8], came: Came, want: Answer) -> io::Result<()> {
        let rt = self.rt;
        // The name need not be UTF-8.
        print!(rt; "{call}: ")?;
        rt.write_all(name)?;
        if came.kept && came.answer == want {
            self.passed = self.passed.wrapping_add(1);
            return println!(rt; ": ok");
        }
        self.failed = self.failed.wrapping_add(1);
        let answer = came.answer;
        print!(rt; ": WRONG, came{answer}")?;
        if !came.kept {
            print!(rt; ", and a buffer differs")?;
        }
        println!(rt)
    }

    // A line of no known form is no vector that passed.
    pub fn unread(&mut self, name: &[u8]) -> io::Result<()> {
        let came = Came {
            answer: Answer([0; 6]),
            kept: true,
        };
        self.line("unknown form", name, came, Answer([1; 6]))
    }

    pub fn total(&self) -> io::Result<()> {
        let rt = self.rt;
        println!(rt; "{} passed, {} failed", self.passed, self.failed)
    }
}
