// The desk: what is held from one line to the next, and how a line is answered.

#![tactic(auto)]

use building::Scalars;
use modes::Mode;

mod answers;

pub use answers::refuse;

// The service's scalars: what is held, and the place in the room where the next answer goes.
#[derive(Clone, Copy)]
pub struct Desk {
    pub mode: Mode,
    pub held: Scalars,
    pub at: usize,
}
