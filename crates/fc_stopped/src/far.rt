//! How far a session came.

ghost use Rattle.std.specs.Prelude.{◌≡◌, is_err};
ghost use Rattle.fc_entry.specs.Written.{Written};
ghost use Rattle.fc_stopped.specs.Far.{far_of};
ghost use Rattle.fc_stopped.specs.Text.{far_text};

use fc_base::outcome::Failed;
use fc_call::status::Status;
use fc_entry::parts::{put_all, put_text};
use fc_io::sink::Sink;
use fc_marks::NotedStop;
use fc_run::ended::Ended;
use itoa::Buffer;

/// How far a session came that ended at its end, or at the disk of metadata.
#[derive(Clone, Copy, PartialEq, Eq)]
pub(crate) enum Far {
    /// To its end.
    ToEnd,
    /// To the call of the disk of metadata with this number, which failed.
    ToCall(u32),
    /// Until the disk of metadata was full.
    ToFull,
}

/// How far a session came that ended so, where it ended at its end or at the disk of metadata; else the status of the call.
pub(crate) fn far_of(ended: Ended, stop: Option<NotedStop>, call: u32) -> Result<Far, Status>
    ensures { result ≡ far_of call ended stop }
{
    match (ended, stop) {
        (Ended::Done, _) => Ok(Far::ToEnd),
        (Ended::NoMemory, Some(NotedStop::MetaFailed)) => Ok(Far::ToCall(call)),
        (Ended::NoMemory, Some(NotedStop::MetaFull)) => Ok(Far::ToFull),
        _ => Err(Status::of(ended)),
    }
}

/// Puts how far a session came.
pub(crate) fn put_far<K: Sink>(far: Far, sink: &mut K) -> Result<(), Failed>
    ensures { Written (K.meaning sink.old) (far_text far) (is_err result) (K.meaning sink.new) }
{
    match far {
        Far::ToEnd => put_text(sink, b"not stopped\n"),
        Far::ToCall(call) => put_all(
            sink,
            &[b"stopped at ", Buffer::new().format(call).as_bytes(), b"\n"],
        ),
        Far::ToFull => put_text(sink, b"metadata full\n"),
    }
}
