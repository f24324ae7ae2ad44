//! What came of some runs of a session.

use crate::running::Outcome;
use fc_base::request::Reply;
use fc_entry::history::History;
use fc_judge::Verdict;
use fc_top::status::Status;
use std::alloc::{AllocError, Global};

/// What came of some runs of a session.
#[derive(Drop)]
pub struct Tally {
    runs: u32,
    right: u32,
    cut_short: u32,
    faults: u64,
    texts: Vec<Vec<u8>>,
    first_wrong: Option<String>,
}

/// How many entries of a history answer that a disk failed.
fn faults_in(history: &History) -> u64 {
    let mut faults = 0u64;
    for index in 0..history.len() {
        if let Reply::DiskFault = &history.entry(index).reply {
            faults = faults.saturating_add(1);
        }
    }
    faults
}

/// Whether a run ended for want of memory, with a history that may begin so.
fn was_cut_short(status: Status, verdict: &Verdict) -> bool {
    let may_begin_so = match verdict {
        Verdict::Right | Verdict::FirstPart { .. } => true,
        Verdict::Wrong { .. } => false,
    };
    status == Status::NoMemory && may_begin_so
}

/// What a wrong run says, and its history.
fn told_wrong(
    alloc: Global,
    run: u32,
    status: Status,
    verdict: Verdict,
    text: &[u8],
) -> Result<String, AllocError> {
    let text = String::from_utf8_lossy(alloc, text)?;
    match verdict {
        Verdict::Right => {
            let code = status.code();
            format!(in alloc; "run {run}: right, and status {code}\n{text}")
        }
        Verdict::FirstPart { segment } => {
            format!(in alloc; "run {run}: right up to segment {segment}\n{text}")
        }
        Verdict::Wrong { entry, why } => {
            let why = why.text();
            format!(in alloc; "run {run}: entry {entry}: {why}\n{text}")
        }
    }
}

impl Tally {
    /// No runs.
    pub fn new(alloc: Global) -> Tally {
        Tally {
            runs: 0,
            right: 0,
            cut_short: 0,
            faults: 0,
            texts: Vec::new(alloc),
            first_wrong: None,
        }
    }

    /// One more run, of which this came and which was judged so.
    pub fn add(
        &mut self,
        alloc: Global,
        outcome: &Outcome,
        verdict: Verdict,
    ) -> Result<(), AllocError> {
        let status = outcome.status;
        let text = outcome.written.as_slice();
        self.runs = self.runs.saturating_add(1);
        self.faults = self.faults.saturating_add(faults_in(&outcome.history));
        if status == Status::Done && verdict == Verdict::Right {
            self.right = self.right.saturating_add(1);
        } else if was_cut_short(status, &verdict) {
            self.cut_short = self.cut_short.saturating_add(1);
        } else if self.first_wrong.is_none() {
            let wrong = told_wrong(alloc, self.runs, status, verdict, text)?;
            self.first_wrong = Some(wrong);
        }
        if !self.texts.iter().any(|known| known.as_slice() == text) {
            let text = Vec::from_slice(alloc, text)?;
            self.texts.push(text)?;
        }
        Ok(())
    }

    /// How many runs there were.
    pub fn runs(&self) -> u32 {
        self.runs
    }

    /// How many were right: all lines were answered, and the history is one that may come.
    pub fn right(&self) -> u32 {
        self.right
    }

    /// How many ended for want of memory, with the first part of a history that may come.
    pub fn cut_short(&self) -> u32 {
        self.cut_short
    }

    /// How many different histories there were.
    pub fn orders(&self) -> usize {
        self.texts.len()
    }

    /// Whether disks failed.
    pub fn has_faults(&self) -> bool {
        self.faults > 0
    }

    /// What the first run says that wasn't right, and its history.
    pub fn first_wrong(&self) -> Option<&str> {
        match &self.first_wrong {
            Some(wrong) => Some(wrong.as_str()),
            None => None,
        }
    }
}
