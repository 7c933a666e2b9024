// What a service holds, told from one line to the next by three words.

#![tactic(auto)]

ghost use Rattle.std.specs.Prelude.{◌≡◌};
ghost use Rattle.modes.specs.held.Mode.{loads, holds};

// What is held: nothing, a load that runs, or a building.
#[derive(Clone, Copy, PartialEq, Eq)]
pub enum Mode {
    Nothing,
    Loading,
    Holding,
}

// Whether a load is running.
pub fn is_loading(mode: Mode) -> bool
    ensures { result ≡ loads mode }
{
    mode == Mode::Loading
}

// Whether a building is held.
pub fn is_holding(mode: Mode) -> bool
    ensures { result ≡ holds mode }
{
    mode == Mode::Holding
}
