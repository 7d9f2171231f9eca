ghost use Rattle.std.specs.Prelude.{◌≡◌};
ghost use Rattle.pmap_model.specs.MapText.{map_of};

use crate::labeller::Labeller;
use pmap_model::MapText;
use prefix_keys::{Addr, Version};
use std::marker::Model;

/// The labels of a prefix map, found by a scan of its statements from the last one backwards. The first one that covers
/// the address decides.
#[derive(Drop)]
pub struct Scan<'a> {
    map: &'a MapText,
}

impl<'a> Model for Scan<'a> {
    ghost use Rattle.pmap_model.specs.MapModel.{MapModel};

    ghost Value = { MapModel };

    ghost use Rattle.pmap_model.specs.MapText.{map_of};

    ghost view = { λ s. map_of s.map.now };
}

impl<'a> Scan<'a> {
    /// Returns the labels of this map.
    pub fn new(map: &'a MapText) -> Scan<'a>
        ensures { result ≡ map_of map.now }
    {
        Scan { map }
    }
}

impl<'a> Labeller for Scan<'a> {
    ghost use Rattle.std.specs.Prelude.{Some};
    ghost use Rattle.pmap_model.specs.MapModel.{map_label};

    ghost version_of = { λ m. m.version };

    ghost label = { λ m a. Some (map_label m a) };

    fn version(&self) -> Version {
        self.map.version
    }

    fn label_of(&self, addr: Addr) -> Option<&[u8]> {
        let statements = &self.map.statements;
        let mut left = statements.len();
        while left > 0 {
            left -= 1;
            let statement = statements.at(left);
            if statement.span.covers(&addr) {
                return self.map.labels.text(statement.label);
            }
        }
        self.map.labels.text(self.map.default)
    }
}
