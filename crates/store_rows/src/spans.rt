//! Answers to numbers in a row.
use row_table::RowFault;
use std::alloc::Global;

/// Answers to numbers in a row. Neighbours with equal answers are told together, as `0..3 ANSWER`.
#[derive(Drop)]
pub struct Spans {
    told: String,
    between: &'static str,
    last: Option<Span>,
}

/// Numbers in a row with one answer.
#[derive(Drop)]
struct Span {
    from: u64,
    to: u64,
    answer: String,
}

impl Spans {
    /// No answers. This will stand between what is told.
    pub fn new(alloc: Global, between: &'static str) -> Spans {
        Spans {
            told: String::new(alloc),
            between,
            last: None,
        }
    }

    /// Adds the answer to the next number.
    pub fn push(&mut self, alloc: Global, number: u64, answer: String) -> Result<(), RowFault> {
        if self.goes_on(number, &answer) {
            return Ok(());
        }
        self.tell_last(alloc)?;
        self.last = Some(Span {
            from: number,
            to: number,
            answer,
        });
        Ok(())
    }

    /// Takes the number into the last span, if that has its answer.
    fn goes_on(&mut self, number: u64, answer: &str) -> bool {
        match &mut self.last {
            Some(span) if span.answer.as_str() == answer => {
                span.to = number;
                true
            }
            _ => false,
        }
    }

    /// Tells the last span, if there is one.
    fn tell_last(&mut self, alloc: Global) -> Result<(), RowFault> {
        if let Some(span) = self.last.take() {
            if !self.told.is_empty() {
                self.told.push_str(self.between)?;
            }
            self.told.push_str(span.text(alloc)?.as_str())?;
        }
        Ok(())
    }

    /// All that was added, as a text.
    pub fn text(self, alloc: Global) -> Result<String, RowFault> {
        let mut spans = self;
        spans.tell_last(alloc)?;
        let Spans { told, .. } = spans;
        Ok(told)
    }
}

impl Span {
    /// The numbers and their answer.
    fn text(&self, alloc: Global) -> Result<String, RowFault> {
        let Span { from, to, answer } = self;
        if from == to {
            return Ok(format!(in alloc; "{from} {answer}")?);
        }
        Ok(format!(in alloc; "{from}..{to} {answer}")?)
    }
}
