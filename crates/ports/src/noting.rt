// A list noted port by port, on plain numbers: the start, a port more, and the choice when all are noted.
ghost use Rattle.std.specs.Prelude.{◌≡◌};
ghost use Rattle.ports.specs.Noting.{begun, Notes, concluded};

use super::{BadList, Buses, Choice, Exit, MOST, Port, Survey};

impl Survey {
    // No port is noted yet.
    #[tactic(auto, unfolding(crate::specs::Noting::begun))]
    pub fn begin(bus: u8) -> Survey
        ensures { result ≡ begun bus }
    {
        Survey {
            bus,
            count: 0,
            taken: Buses::NONE,
            bad: false,
            found: None,
        }
    }

    // One port more. 33 stands for more than a list may have.
    #[tactic(auto, unfolding(crate::specs::Noting::noted, crate::specs::Noting::placed))]
    pub fn note(&mut self, port: Port)
        ensures { Notes self.old port self.new }
    {
        if MOST < self.count {
            return;
        }
        let its = Buses::of(port);
        self.bad = self.bad || port.subordinate < port.secondary || self.taken.shares(its);
        self.taken = self.taken.union(its);
        if port.has(self.bus) {
            self.found = Some(Exit {
                place: self.count,
                port,
            });
        }
        self.count += 1;
    }

    // The choice, when every port is noted.
    #[tactic(auto, unfolding(crate::specs::Noting::concluded))]
    pub fn conclude(self) -> Choice
        ensures { result ≡ concluded self }
    {
        if MOST < self.count || self.bad {
            return Err(BadList);
        }
        Ok(self.found)
    }
}
