//! Lists that are no shortest list of a map: a shorter one labels every address as the map does, or the list itself
//! labels an address otherwise.

ghost use Rattle.definition_examples.specs.Shortest.{IsNotEquivalent, IsNotLeast, IsEquivalentRead};
ghost use Rattle.std.specs.Prelude.{codes};

/// One entry labels every address as these two do.
pub fn a_list_with_an_entry_too_many_is_not_least()
    ensures two_halves { IsNotLeast (codes "default A\n") (codes "0.0.0.0/1 A\n128.0.0.0/1 A\n") }
{}

pub fn a_list_that_labels_an_address_otherwise_is_not_equivalent()
    ensures another_label { IsNotEquivalent (codes "default A\n10.0.0.0/8 B\n") (codes "0.0.0.0/0 A\n") }
    ensures no_label { IsNotEquivalent (codes "default A\n") (codes "128.0.0.0/1 A\n") }
    ensures another_version { IsNotEquivalent (codes "default A\n") (codes "::/0 A\n") }
{}

/// One entry for all addresses.
pub fn a_list_that_labels_all_addresses_alike_is_equivalent()
    ensures one_entry { IsEquivalentRead (codes "default A\n") (codes "0.0.0.0/0 A\n") }
{}
