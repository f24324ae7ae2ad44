//! The comparison of replies.

use crate::same::{Same, all_same};
use fc_base::request::Reply;

impl Same for Reply {
    fn is_same(&self, other: &Reply) -> bool {
        match (self, other) {
            (Reply::Done, Reply::Done) => true,
            (
                Reply::Made { kind, id },
                Reply::Made {
                    kind: made,
                    id: given,
                },
            ) => kind == made && id == given,
            (Reply::Bytes(own), Reply::Bytes(runs)) => all_same(own.as_slice(), runs.as_slice()),
            (Reply::Listed(own), Reply::Listed(rows)) => own.is_same(rows),
            (
                Reply::Moved { map, grain },
                Reply::Moved {
                    map: filled,
                    grain: number,
                },
            ) => map == filled && grain == number,
            (Reply::Idle, Reply::Idle) => true,
            (
                Reply::Offline { map, state },
                Reply::Offline {
                    map: stopped,
                    state: held,
                },
            ) => map == stopped && state == held,
            (Reply::NotAccessible { map }, Reply::NotAccessible { map: prepared }) => {
                map == prepared
            }
            (Reply::DiskFault, Reply::DiskFault) => true,
            (Reply::MediumError, Reply::MediumError) => true,
            (Reply::NoMemory, Reply::NoMemory) => true,
            (Reply::Refused(own), Reply::Refused(refusal)) => own.is_same(refusal),
            _ => false,
        }
    }
}
