// The walk over the lent list: every port of it is noted, but no more than the one that is too many.
ghost use Rattle.std.specs.Prelude.{◌≡◌};
ghost use Rattle.ports.specs.Choice.{choice};

use super::{Choice, MOST, Port, Survey};

// One port more than a list may have.
const TOO_MANY: usize = MOST as usize + 1;

// The port of a lent list that has a bus.
pub fn choose(ports: &[Port], bus: u8) -> Choice
    ensures { result ≡ choice ports.now bus }
{
    let mut survey = Survey::begin(bus);
    for port in ports.iter().take(TOO_MANY) {
        survey.note(*port);
    }
    survey.conclude()
}
