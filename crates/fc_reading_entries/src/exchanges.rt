//! What was asked and answered, as the line of an entry tells it.

ghost use Rattle.std.specs.Prelude.{◌≡◌};
ghost use Rattle.fc_reading_notes.specs.Answers.{ReadsOr};
ghost use Rattle.fc_reading_entries.specs.Exchanges.{access_line, is_id, line_at, request_by};

use fc_base::fault::Refusal;
use fc_base::name::Ref;
use fc_base::request::{Reply, Request};
use fc_reading_notes::stop::ReadStop;
use fc_reading_replies::faults::take_unread;
use fc_reading_replies::replies::{ReplyLine, take_refused, take_reply};
use fc_reading_requests::asked::Asked;
use std::alloc::Global;

/// The greatest block of a line.
const LAST_BLOCK: u64 = 4_294_967_295;

/// Whether it is an id, by which a host names a volume.
fn is_id(volume: &Ref) -> bool
    ensures { result ≡ is_id volume.now }
{
    matches!(volume, Ref::Id(_))
}

/// Takes the line of a reply of an access: a refusal where a line may have asked for it, another one where a
/// host may have.
fn take_access_line(
    alloc: Global,
    refusable: bool,
    of_host: bool,
    bytes: &[u8],
) -> Result<(ReplyLine, &[u8]), ReadStop>
    ensures { ReadsOr (λ found. (found.0, found.1.now)) result (access_line refusable of_host bytes.now) }
{
    if of_host {
        return take_reply(alloc, refusable, bytes);
    }
    let (refusal, rest) = take_refused(alloc, bytes)?;
    Ok((ReplyLine::Whole(Reply::Refused(refusal)), rest))
}

/// Takes the line of a reply of what was asked.
pub(crate) fn take_line<'a>(
    alloc: Global,
    asked: &Asked,
    bytes: &'a [u8],
) -> Result<(ReplyLine, &'a [u8]), ReadStop>
    ensures { ReadsOr (λ found. (found.0, found.1.now)) result (line_at asked.now bytes.now) }
{
    match asked {
        Asked::Unread => {
            let (fault, rest) = take_unread(bytes)?;
            let reply = Reply::Refused(Refusal::Words(fault));
            Ok((ReplyLine::Whole(reply), rest))
        }
        Asked::Read { volume, block, .. } => {
            take_access_line(alloc, *block <= LAST_BLOCK, is_id(volume), bytes)
        }
        Asked::Write { volume, block, .. } => {
            take_access_line(alloc, *block <= LAST_BLOCK, is_id(volume), bytes)
        }
        _ => take_reply(alloc, true, bytes),
    }
}

/// The request that was asked so and has this line of a reply. There is one for each line that `take_line`
/// reads.
pub(crate) fn request_by(asked: Asked, line: &ReplyLine) -> Request
    ensures { result ≡ request_by asked line.now }
{
    let request = match line {
        ReplyLine::Whole(reply) => asked.request(reply),
        ReplyLine::Rows(_) => asked.request(&Reply::Done),
    };
    request.unwrap_or(Request::CopyTurn { lane: 0 })
}
