//! A session with each preset written out in the lines that it stands for.
//!
//! Which lines these are goes by replies. So the session is run as far as it is written out, and the reply of its last entry looked at.

use crate::presets::drawn::Line;
use crate::presets::ends::{End, Ends};
use crate::presets::preset::Preset;
use crate::presets::traced::run_traced;
use fc_base::list::List;
use fc_base::request::Reply;
use fc_entry::history::History;
use std::alloc::{AllocError, Global};
use std::sync::Wait;
use std::thread::Threads;

/// What a line was answered, as far as presets ask.
#[derive(Clone, Copy, PartialEq, Eq)]
enum Answer {
    /// An object with this id was made.
    Made(u32),
    /// It was done.
    Done,
    /// Anything else.
    Other,
}

/// A session that is written out.
#[derive(Drop)]
pub struct Written {
    text: String,
    ends: Ends,
}

/// The reply of the last entry, if there is one.
fn last_reply(history: &History) -> Option<&Reply> {
    if history.len() == 0 {
        return None;
    }
    Some(&history.entry(history.len() - 1).reply)
}

/// What the last line was answered, where it has one entry.
fn last_answer(history: &History) -> Answer {
    match last_reply(history) {
        Some(Reply::Made { id, .. }) => Answer::Made(*id),
        Some(Reply::Done) => Answer::Done,
        _ => Answer::Other,
    }
}

/// The size in KiB of a volume, where a row of a report of volumes is its row.
fn size_in_row(row: &str, volume: &str) -> Option<u64> {
    let mut fields = row.split(':');
    let id = fields.next()?;
    let name = fields.next()?;
    let _status = fields.next()?;
    let capacity = fields.next()?;
    if id != volume && name != volume {
        return None;
    }
    Some(capacity.parse::<u64>().ok()? / 1024)
}

/// The size in KiB of a volume, as the rows of a report have it. None where it isn't among them.
fn size_in_rows(alloc: Global, rows: &[List<u8>], volume: &str) -> Result<Option<u64>, AllocError> {
    for row in rows {
        let row = String::from_utf8_lossy(alloc, row.as_slice())?;
        if let Some(size) = size_in_row(row.as_str(), volume) {
            return Ok(Some(size));
        }
    }
    Ok(None)
}

impl Written {
    /// How its presets ended.
    pub fn ends(&self) -> Ends {
        self.ends
    }

    /// Its text.
    pub fn text(&self) -> &str {
        self.text.as_str()
    }

    /// Adds a line.
    fn add(&mut self, line: &str) -> Result<(), AllocError> {
        self.text.push_str(line)?;
        self.text.push_str("\n")
    }

    /// Adds a line, and says what it is answered.
    fn ask<R: Threads + Wait + Sync>(
        &mut self,
        rt: &R,
        alloc: Global,
        line: &str,
    ) -> Result<Answer, AllocError> {
        self.add(line)?;
        let outcome = run_traced(rt, alloc, self.text.as_str())?;
        Ok(last_answer(&outcome.history))
    }

    /// The size in KiB of a volume, as a report of volumes would have it here. None where there is no such volume.
    fn size_of<R: Threads + Wait + Sync>(
        &self,
        rt: &R,
        alloc: Global,
        volume: &str,
    ) -> Result<Option<u64>, AllocError> {
        let text = self.text.as_str();
        let listed = format!(in alloc; "{text}lsvdisk -delim :\n")?;
        let outcome = run_traced(rt, alloc, listed.as_str())?;
        match last_reply(&outcome.history) {
            Some(Reply::Listed(rows)) => size_in_rows(alloc, rows.as_slice(), volume),
            _ => Ok(None),
        }
    }

    /// Adds a mapping of a preset to its volume, and its start, or what undoes what was made.
    fn add_copy<R: Threads + Wait + Sync>(
        &mut self,
        rt: &R,
        alloc: Global,
        preset: &Preset,
        volume: u32,
    ) -> Result<End, AllocError> {
        let unmade = format!(in alloc; "rmvdisk {volume}")?;
        let line = preset.mapping_line(alloc, volume)?;
        let Answer::Made(mapping) = self.ask(rt, alloc, line.as_str())? else {
            self.add(unmade.as_str())?;
            return Ok(End::NoMapping);
        };
        let start = format!(in alloc; "startfcmap -prep {mapping}")?;
        if self.ask(rt, alloc, start.as_str())? == Answer::Done {
            return Ok(End::Whole);
        }
        let unmapped = format!(in alloc; "rmfcmap {mapping}")?;
        self.add(unmapped.as_str())?;
        self.add(unmade.as_str())?;
        Ok(End::NoStart)
    }

    /// Adds the lines of a preset; the preset itself where its source names no volume.
    fn add_preset<R: Threads + Wait + Sync>(
        &mut self,
        rt: &R,
        alloc: Global,
        preset: &Preset,
    ) -> Result<End, AllocError> {
        let Some(kib) = self.size_of(rt, alloc, preset.source.as_str())? else {
            let line = preset.line(alloc)?;
            self.add(line.as_str())?;
            return Ok(End::NoSource);
        };
        let line = preset.volume_line(alloc, kib)?;
        match self.ask(rt, alloc, line.as_str())? {
            Answer::Made(volume) => self.add_copy(rt, alloc, preset, volume),
            _ => Ok(End::NoVolume),
        }
    }
}

/// The session of these lines, with each preset written out.
pub fn written_out<R: Threads + Wait + Sync>(
    rt: &R,
    alloc: Global,
    lines: &[Line],
) -> Result<Written, AllocError> {
    let mut written = Written {
        text: String::new(alloc),
        ends: Ends::none(),
    };
    for line in lines {
        match line {
            Line::Preset(preset) => {
                let end = written.add_preset(rt, alloc, preset)?;
                written.ends.add(end);
            }
            Line::Plain(line) => written.add(line.as_str())?,
        }
    }
    Ok(written)
}
