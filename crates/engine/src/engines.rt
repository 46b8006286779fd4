// Engines.
use crate::states::State;

// An engine: what it holds, and the computed cache that it looks results up in.
#[derive(Drop)]
pub struct Engine<C> {
    pub(crate) state: State,
    pub(crate) cache: C,
}
