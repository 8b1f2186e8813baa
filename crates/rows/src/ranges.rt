//! Answers to the same call at ascending numbers, told by ranges.
use outside::NoMemory;
use std::alloc::Global;

/// The ranges so far, and the last, which may go on.
#[derive(Drop)]
pub struct Ranges {
    text: String,
    first: usize,
    last: usize,
    answer: String,
}

impl Ranges {
    /// No range.
    pub fn new(alloc: Global) -> Ranges {
        Ranges {
            text: String::new(alloc),
            first: 0,
            last: 0,
            answer: String::new(alloc),
        }
    }

    /// Adds the answer at the next number.
    pub fn add(&mut self, alloc: Global, number: usize, answer: String) -> Result<(), NoMemory> {
        if self.answer.as_str() != answer.as_str() {
            self.end(alloc)?;
            self.first = number;
            self.answer = answer;
        }
        self.last = number;
        Ok(())
    }

    /// Ends the last range.
    fn end(&mut self, alloc: Global) -> Result<(), NoMemory> {
        if !self.answer.is_empty() {
            let (first, last) = (self.first, self.last);
            self.text.push_str(&format!(in alloc;
                "{first} to {last}: {}\n",
                self.answer.as_str()
            )?)?;
        }
        Ok(())
    }

    /// All ranges, a line each.
    pub fn told(self, alloc: Global) -> Result<String, NoMemory> {
        let mut ranges = self;
        ranges.end(alloc)?;
        Ok(ranges.text)
    }
}
