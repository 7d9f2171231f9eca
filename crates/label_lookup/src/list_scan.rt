//! The labels of a prefix list, found by a look at each entry.
use crate::labeller::Labeller;
use pmap_model::{Entry, PrefixList};
use prefix_keys::{Addr, Version};

/// The labels of a prefix list under longest match. Nothing is built, so for one address this is faster than a
/// [`ListIndex`](crate::ListIndex).
impl Labeller for PrefixList {
    ghost use Rattle.pmap_model.specs.ListModel.{list_label};
    ghost use Rattle.pmap_model.specs.PrefixList.{list_of};

    ghost version_of = { λ l. l.version };

    ghost label = { λ l. list_label (list_of l) };

    fn version(&self) -> Version {
        self.version
    }

    fn label_of(&self, addr: Addr) -> Option<&[u8]> {
        let mut longest: Option<Entry> = None;
        for index in 0..self.entries.len() {
            let entry = self.entries.at(index);
            if entry.block.covers(&addr) {
                match longest {
                    Some(found) if entry.block.len < found.block.len => {}
                    _ => longest = Some(entry),
                }
            }
        }
        self.labels.text(longest?.label)
    }
}
