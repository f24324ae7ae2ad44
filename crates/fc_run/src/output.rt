//! What a session writes: each answer before more input is taken, or a summary at the end.

ghost use Rattle.std.specs.Prelude.{◌≡◌, ◌≤◌, length, is_err, OnErr, OnOk};
ghost use Rattle.fc_entry.specs.Text.{HasNames};
ghost use Rattle.fc_entry.specs.Written.{Written};
ghost use Rattle.fc_io.specs.Sink.{SinkState};
ghost use Rattle.fc_run.specs.Output.{HasFailed, HasGot, IsOut, IsPut, IsWritten, behind_first_line, first_line, tells_each, text_left, text_so_far};

use crate::form::Form;
use crate::summary::put_summary;
use fc_base::outcome::Failed;
use fc_entry::history::History;
use fc_entry::text::put_entries;
use fc_io::sink::Sink;
use fc_trace::header::put_header;
use fc_trace::trace::put_all_traced;

/// In which form a session writes its history, and how much of it is put.
#[derive(Clone, Copy)]
pub struct Output {
    /// The form.
    pub form: Form,
    /// How many entries were put. Of a summary none is put before the end.
    pub put: usize,
}

impl Output {
    /// Nothing is put yet.
    pub fn new(form: Form) -> Self
        ensures { result ≡ record { form = form; put = 0 } }
    {
        Output { form, put: 0 }
    }

    /// Puts the first line of a trace; of any other form nothing. Failed, the sink got a front of it.
    pub fn begin<K: Sink>(&self, sink: &mut K) -> Result<(), Failed>
        ensures got { OnOk result (HasGot (K.meaning sink.old) (first_line self.now.form) (K.meaning sink.new)) }
        ensures cut { OnErr result (HasFailed (K.meaning sink.old) (first_line self.now.form) (K.meaning sink.new)) }
    {
        match &self.form {
            Form::Trace(header) => put_header(header.grain, &header.lanes, sink),
            Form::Text | Form::Summary => Ok(()),
        }
    }

    /// Puts the texts of the entries that weren't put yet and sends them on; without such entries, and of a summary,
    /// nothing. Failed, the sink got a front of the text.
    pub fn write_new<K: Sink>(&mut self, history: &History, sink: &mut K) -> Result<(), Failed>
        requires within { self.old.put ≤ length history.now.entries }
        requires named { HasNames history.now }
        requires limit { length history.now.entries ≤ 262144 }
        ensures form { self.new.form ≡ self.old.form }
        ensures within { self.new.put ≤ length history.now.entries }
        ensures out { OnOk result (IsOut self.old self.new history.now (K.meaning sink.new)) }
        ensures put { (before : SinkState)
            → HasGot before (text_so_far self.old.form self.old.put history.now) (K.meaning sink.old)
            → IsPut before self.old.form self.new.put history.now (is_err result) (K.meaning sink.new) }
    {
        let put = self.put;
        if !tells_each(self.form) || put == history.len() {
            return Ok(());
        }
        self.put = history.len();
        put_and_send(self.form, put, history, sink)
    }

    /// Puts the rest of the text or of the trace, or the summary, and sends on what waits. Failed, the sink got a front of
    /// the text.
    pub fn write_rest<K: Sink>(self, history: &History, sink: &mut K) -> Result<(), Failed>
        requires within { self.put ≤ length history.now.entries }
        requires named { HasNames history.now }
        requires limit { length history.now.entries ≤ 262144 }
        ensures { (before : SinkState) → HasGot before (text_so_far self.form self.put history.now) (K.meaning sink.old)
            → IsWritten before (behind_first_line self.form history.now) (is_err result) (K.meaning sink.new) }
    {
        put_and_send(self.form, self.put, history, sink)
    }
}

/// Whether each answer is written before more is taken.
fn tells_each(form: Form) -> bool
    ensures { result ≡ tells_each form }
{
    !matches!(form, Form::Summary)
}

/// Puts the entries from this number on, in text or as a trace; or the summary.
fn put_left<K: Sink>(form: Form, put: usize, history: &History, sink: &mut K) -> Result<(), Failed>
    requires within { put ≤ length history.now.entries }
    requires named { HasNames history.now }
    requires limit { length history.now.entries ≤ 262144 }
    ensures { Written (K.meaning sink.old) (text_left form put history.now) (is_err result) (K.meaning sink.new) }
{
    match form {
        Form::Text => put_entries(history, put, sink),
        Form::Trace(_) => put_all_traced(history, put, sink),
        Form::Summary => put_summary(history, sink),
    }
}

/// The same, and sends on what waits.
fn put_and_send<K: Sink>(
    form: Form,
    put: usize,
    history: &History,
    sink: &mut K,
) -> Result<(), Failed>
    requires within { put ≤ length history.now.entries }
    requires named { HasNames history.now }
    requires limit { length history.now.entries ≤ 262144 }
    ensures written { (before : SinkState) → HasGot before (text_so_far form put history.now) (K.meaning sink.old)
        → IsWritten before (behind_first_line form history.now) (is_err result) (K.meaning sink.new) }
    ensures sent { OnOk result ((K.meaning sink.new).sent ≡ (K.meaning sink.new).held) }
{
    match put_left(form, put, history, sink) {
        Ok(()) => sink.flush(),
        Err(failed) => Err(failed),
    }
}
