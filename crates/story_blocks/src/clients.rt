ghost use Rattle.std.specs.Prelude.{◌<◌, All, IfSome, length};

use std::alloc::Global;
use version_pair::NoMemory;

// How many of the names that were added last a name is compared with.
const MOST_COMPARED: usize = 64;

// An event whose line says who asked: its position, and the number of the name.
#[derive(Clone, Copy)]
struct Asking {
    place: usize,
    name: usize,
}

/// Which clients asked, by the positions of the events whose lines say so.
#[derive(Drop)]
pub struct Clients {
    // Each name once, unless more than 64 clients take turns.
    names: Vec<String>,
    // By position, rising.
    askings: Vec<Asking>,
    ghost named: { All (λ asking. asking.name < length names.items) askings.items },
}

impl Clients {
    /// Returns no clients. It allocates nothing.
    pub fn new(alloc: Global) -> Clients {
        Clients {
            names: Vec::new(alloc),
            askings: Vec::new(alloc),
        }
    }

    // Returns the number of the name, if it is one of the last.
    fn recent(&self, name: &str) -> Option<usize>
        ensures { IfSome result (λ i. i < length self.now.names.items) }
    {
        let first = self.names.len().saturating_sub(MOST_COMPARED);
        for i in first..self.names.len() {
            if self.names[i].as_str() == name {
                return Some(i);
            }
        }
        None
    }

    /// Adds the name of who asked by the event at this position, which is above those before; nothing if it is
    /// empty.
    pub fn add(&mut self, alloc: Global, place: usize, name: &str) -> Result<(), NoMemory> {
        if name.is_empty() {
            return Ok(());
        }
        let name = match self.recent(name) {
            Some(number) => number,
            None => {
                self.names.push(String::from_str(alloc, name)?)?;
                self.names.len() - 1
            }
        };
        self.askings.push(Asking { place, name })?;
        Ok(())
    }

    /// Returns who asked by the event at this position, if its line says so.
    pub fn of(&self, place: usize) -> Option<&str> {
        let before = self.askings.partition_point(|asking| asking.place < place);
        match self.askings.get(before) {
            Some(asking) if asking.place == place => Some(self.names[asking.name].as_str()),
            _ => None,
        }
    }
}
