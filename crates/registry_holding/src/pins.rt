ghost use Rattle.std.specs.Prelude.{◌≡◌, length, take, drop, Some, None, OnOk, OnErr};
ghost use Rattle.oci_types.specs.Text.{Text};
ghost use Rattle.registry_holding.specs.Holding.{put_under, count_from};
ghost use Rattle.registry_holding.specs.Shown.{pins_in};

use std::alloc::{AllocError, Global};
use std::collections::BTreeMap;
use std::rc::Rc;

/// Contents under numbers, in memory.
#[derive(Drop)]
pub struct Pins {
    map: BTreeMap<u64, Rc<Vec<u8>>>,
}

impl Pins {
    /// None; takes no memory.
    pub fn new(alloc: Global) -> Pins
        ensures { pins_in result.map ≡ (λ _. None) }
    {
        Pins {
            map: BTreeMap::new(alloc),
        }
    }

    /// Puts a content under a number, in the place of one that is there.
    pub fn put(&mut self, key: u64, bytes: Rc<Vec<u8>>) -> Result<(), AllocError>
        ensures ok { OnOk result
            (pins_in self.new.map ≡ put_under key (Some bytes.value.items) (pins_in self.old.map)) }
        ensures err { OnErr result (pins_in self.new.map ≡ pins_in self.old.map) }
    {
        self.map.insert(key, bytes)?;
        Ok(())
    }

    /// Lets the one under a number go.
    pub fn remove(&mut self, key: u64)
        ensures { pins_in self.new.map ≡ put_under key None (pins_in self.old.map) }
    {
        self.map.remove(&key);
    }

    /// Reads bytes of the one under a number, from a place on: as many as there is room for and as are there.
    pub fn read(&self, key: u64, from: u64, room: &mut [u8]) -> usize
        ensures count { result ≡ count_from (pins_in self.now.map key) from (length room.old) }
        ensures bytes { (t : Text) → pins_in self.now.map key ≡ Some t
            → take (count_from (Some t) from (length room.old)) room.new
            ≡ take (count_from (Some t) from (length room.old)) (drop from t) }
    {
        let Some(bytes) = self.map.get(&key) else {
            return 0;
        };
        let len = bytes.len();
        let from = if (len as u64) < from {
            len
        } else {
            from as usize
        };
        let n = room.len().min(len - from);
        room[..n].copy_from_slice(&bytes[from..from + n]);
        n
    }
}
