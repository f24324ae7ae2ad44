//! The comparison of effects.

use crate::same::{Same, all_same};
use fc_base::request::Effect;

impl Same for Effect {
    fn is_same(&self, other: &Effect) -> bool {
        match (self, other) {
            (
                Effect::Make { volume, grains },
                Effect::Make {
                    volume: own,
                    grains: held,
                },
            ) => volume == own && grains == held,
            (Effect::Remove { volume }, Effect::Remove { volume: own }) => volume == own,
            (Effect::Trigger { pairs }, Effect::Trigger { pairs: own }) => pairs.is_same(own),
            (
                Effect::Cut { volume, kept },
                Effect::Cut {
                    volume: own,
                    kept: held,
                },
            ) => volume == own && all_same(kept.as_slice(), held.as_slice()),
            (
                Effect::State { map, state },
                Effect::State {
                    map: own,
                    state: come,
                },
            ) => map == own && state == come,
            (Effect::Gone { map }, Effect::Gone { map: own }) => map == own,
            _ => false,
        }
    }
}
