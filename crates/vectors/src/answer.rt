// What a call answers, as six numbers: 0 and the values, or the refusal's number, trace, item and, of a replay, the resident count given back.
use replays::{Summary, Unreplayed};
use std::fmt;
use trace::{Header, Refusal};

#[derive(Clone, Copy, PartialEq, Eq)]
pub struct Answer(pub [u64; 6]);

impl Answer {
    pub fn refused(r: Refusal, resident: u64) -> Answer {
        Answer([r.number, r.trace, r.item, resident, 0, 0])
    }

    // Of a program, how many bytes it wrote.
    pub fn length(bytes: usize) -> Answer {
        Answer([bytes as u64, 0, 0, 0, 0, 0])
    }
}

impl From<Header> for Answer {
    fn from(h: Header) -> Answer {
        Answer([0, h.kind, h.filter, h.references, h.items, 0])
    }
}

impl From<Summary> for Answer {
    fn from(d: Summary) -> Answer {
        Answer([0, d.items, d.fetches, d.evictions, d.resident, d.permillion])
    }
}

impl From<Refusal> for Answer {
    fn from(r: Refusal) -> Answer {
        Answer::refused(r, 0)
    }
}

// Of a check, a reduction or a join.
impl From<Result<Header, Refusal>> for Answer {
    fn from(answer: Result<Header, Refusal>) -> Answer {
        match answer {
            Ok(h) => h.into(),
            Err(r) => r.into(),
        }
    }
}

impl From<Result<Summary, Unreplayed>> for Answer {
    fn from(answer: Result<Summary, Unreplayed>) -> Answer {
        match answer {
            Ok(d) => d.into(),
            Err(u) => Answer::refused(u.refusal, u.resident),
        }
    }
}

impl fmt::Display for Answer {
    fn fmt<W: fmt::Write>(&self, f: &mut fmt::Formatter<W>) -> fmt::Result {
        for x in self.0 {
            write!(f, " {x}")?;
        }
        Ok(())
    }
}
