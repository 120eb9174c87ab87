// The sink: writers on a lent output, which know nothing of tokens or of the layout's state. `write` tests
// the room, `put` is told that there is room, `copy` copies a part of a text.
#![tactic(auto)]

mod copy;
mod put;
pub mod write;
