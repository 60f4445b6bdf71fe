//! How often something came, by its name.

use spk_nums::{Call, Reply, call_name, reply_name};
use std::alloc::{AllocError, Global};
use std::fmt;

// A name, and how often it came.
#[derive(Clone, Copy, Debug, PartialEq, Eq)]
struct Row {
    name: &'static str,
    count: u64,
}

/// Names in order, and how often each came.
#[derive(Debug, Drop)]
pub struct Counts {
    rows: Vec<Row>,
}

impl Counts {
    // Nothing came.
    fn none(alloc: Global) -> Counts {
        Counts {
            rows: Vec::new(alloc),
        }
    }

    // It came once more.
    fn add(&mut self, name: &'static str) -> Result<(), AllocError> {
        let mut at: usize = 0;
        for row in &mut self.rows {
            if row.name == name {
                row.count = row.count.saturating_add(1);
                return Ok(());
            }
            if row.name < name {
                at = at.saturating_add(1);
            }
        }
        let at = at.min(self.rows.len());
        self.rows.insert(at, Row { name, count: 1 })?;
        Ok(())
    }
}

impl fmt::Display for Counts {
    fn fmt<W: fmt::Write>(&self, f: &mut fmt::Formatter<W>) -> fmt::Result {
        let mut first = true;
        for row in &self.rows {
            if !first {
                write!(f, ", ")?;
            }
            first = false;
            let Row { name, count } = *row;
            write!(f, "{name} {count}")?;
        }
        Ok(())
    }
}

/// What the calls of runs came to.
#[derive(Debug, Drop)]
pub struct Tally {
    /// How many steps were made.
    pub steps: u64,
    /// How many calls were decided.
    pub calls: u64,
    /// The replies, by their names.
    pub replies: Counts,
    /// The calls that were carried out, by their names.
    pub carried: Counts,
}

impl Tally {
    /// Of no run.
    pub fn none(alloc: Global) -> Tally {
        Tally {
            steps: 0,
            calls: 0,
            replies: Counts::none(alloc),
            carried: Counts::none(alloc),
        }
    }

    /// Counts a step.
    pub fn step(&mut self) {
        self.steps = self.steps.saturating_add(1);
    }

    /// Counts a call that is decided with this reply.
    pub fn decide(&mut self, call: &Call, reply: &Reply) -> Result<(), AllocError> {
        self.calls = self.calls.saturating_add(1);
        self.replies.add(reply_name(reply))?;
        if let Reply::Ok(_) = reply {
            self.carried.add(call_name(call))?;
        }
        Ok(())
    }
}
