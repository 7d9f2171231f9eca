//! Verdicts of `check`: FORMATS.md, "What `check` reports".
#![tactic(auto, unfolding(crate::specs::Certificates::opened))]

ghost use Rattle.cert_check.specs.Checking.{fault_of_number, claim_fault};
ghost use Rattle.cert_check.specs.declared.fault.CheckFaultKind.TheVariants.{BoundNotMet, CostTooHigh, LeafNotUniform};
ghost use Rattle.cert_check.specs.declared.fault.CheckFaultKind.TheVariants.{ListDiffers, SetTooSmall, VersionDiffers};
ghost use Rattle.definition_examples.specs.Certificates.{AreMinimalPair, head, last, last_list, last_map};
ghost use Rattle.definition_examples.specs.Certificates.{minimal, quarters, quarters_list, quarters_map};
ghost use Rattle.definition_examples.specs.Certificates.{refused, verdict, AreMinimalAsRead};
ghost use Rattle.pmap_cert.specs.Acceptance.{begins_before, HasBlock, IsInOrder, StandsFor, entries_of};
ghost use Rattle.pmap_cert.specs.Acceptance.{handed_on, in_table_order, least_label, own_entry};
ghost use Rattle.pmap_cert.specs.CertificateModel.{ChainNode, InnerNode, LeafNode};
ghost use Rattle.pmap_cert.specs.FormatReading.{format_reading};
ghost use Rattle.pmap_model.specs.MapModel.{meets};
ghost use Rattle.pmap_text.specs.Reading.{list_reading, map_reading};
ghost use Rattle.prefix_keys.specs.declared.version.Version.TheVariants.{V4};
ghost use Rattle.std.specs.Prelude.{◌≡◌, ◌++◌, codes, None, ◌∷◌, [], Some, true, false};

/// The first map of the page has the first list and the first certificate as its minimal pair.
pub fn a_map_has_a_minimal_pair()
    ensures the_first_of_the_page { AreMinimalPair (map_reading quarters_map) (list_reading quarters_list)
        (format_reading quarters) }
    ensures the_first_label_of_the_table_is_chosen { AreMinimalPair (map_reading (codes "128.0.0.0/1 B\n0.0.0.0/1 A\n"))
        (list_reading (codes "0.0.0.0/0 B\n0.0.0.0/1 A\n"))
        (format_reading (codes "flowlabel-cert 1 ipv4 3\nB\nA\nUNKNOWN\nn 1 0 1\nl 1\nl 0\n")) }
    ensures of_seven_nodes { AreMinimalPair
        (map_reading (codes "192.0.0.0/3 C\n224.0.0.0/3 A\n128.0.0.0/2 C\n0.0.0.0/2 B\n64.0.0.0/2 A\n"))
        (list_reading (codes "0.0.0.0/0 C\n0.0.0.0/1 A\n0.0.0.0/2 B\n224.0.0.0/3 A\n"))
        (format_reading
        (codes "flowlabel-cert 1 ipv4 4\nC\nA\nB\nUNKNOWN\nn 3 0 1 2\nn 1 1 2\nl 2\nl 1\nn 1 0\nl 0\nn 1 0 1\nl 0\nl 1\n")) }
{}

/// The certificates of the page are accepted, and others that claim no more than the exact claims.
pub fn a_shortest_list_is_minimal()
    ensures the_first_of_the_page { verdict quarters_map quarters_list quarters ≡ minimal 3 }
    ensures the_second_of_the_page { verdict last_map last_list last ≡ minimal 2 }
    ensures a_fifth_label { verdict quarters_map quarters_list
        (codes "flowlabel-cert 1 ipv4 5\nA\nB\nC\nUNKNOWN\nZ\nn 2 0 4\nn 1 0 1\nl 0\nl 1\nn 1 0 2\nl 0\nl 2\n")
        ≡ minimal 3 }
    ensures a_larger_set_of_the_root { verdict quarters_map quarters_list
        (head ++ codes "n 2 0 1\nn 1 0 1\nl 0\nl 1\nn 1 0 2\nl 0\nl 2\n") ≡ minimal 3 }
    ensures another_order_of_the_labels { verdict quarters_map quarters_list
        (codes "flowlabel-cert 1 ipv4 3\nC\nB\nA\nn 2 2\nn 1 1 2\nl 2\nl 1\nn 1 0 2\nl 2\nl 0\n") ≡ minimal 3 }
    ensures another_order_of_the_entries { verdict quarters_map
        (codes "192.0.0.0/2 C\n64.0.0.0/2 B\n0.0.0.0/0 A\n") quarters ≡ minimal 3 }
    ensures an_empty_map { verdict (codes "") (codes "0.0.0.0/0 UNKNOWN\n")
        (codes "flowlabel-cert 1 ipv4 1\nUNKNOWN\nl 0\n") ≡ minimal 1 }
    ensures two_halves { verdict (codes "128.0.0.0/1 X\n0.0.0.0/1 D\n") (codes "0.0.0.0/0 D\n128.0.0.0/1 X\n")
        (codes "flowlabel-cert 1 ipv4 2\nD\nX\nn 1 0 1\nl 0\nl 1\n") ≡ minimal 2 }
    ensures two_halves_the_other_way { verdict (codes "128.0.0.0/1 X\n0.0.0.0/1 D\n")
        (codes "0.0.0.0/0 X\n0.0.0.0/1 D\n") (codes "flowlabel-cert 1 ipv4 2\nD\nX\nn 1 0 1\nl 0\nl 1\n") ≡ minimal 2 }
    ensures two_entries_for_the_halves { verdict (codes "128.0.0.0/1 X\n0.0.0.0/1 D\n")
        (codes "0.0.0.0/1 D\n128.0.0.0/1 X\n") (codes "flowlabel-cert 1 ipv4 2\nD\nX\nn 1 0 1\nl 0\nl 1\n")
        ≡ minimal 2 }
    ensures of_ipv6 { verdict (codes "2000::/3 G\n") (codes "::/0 UNKNOWN\n2000::/3 G\n")
        (codes "flowlabel-cert 2 ipv6 2\nG\nUNKNOWN\nc 1 001 1 1\nl 0\n") ≡ minimal 2 }
    ensures a_chain_of_one_digit { verdict (codes "128.0.0.0/1 X\n0.0.0.0/1 D\n") (codes "0.0.0.0/0 D\n128.0.0.0/1 X\n")
        (codes "flowlabel-cert 2 ipv4 2\nD\nX\nc 1 1 0 0 1\nl 1\n") ≡ minimal 2 }
    ensures a_later_mapping { verdict (codes "default A\n0.0.0.0/1 B\n0.0.0.0/0 C\n") (codes "0.0.0.0/0 C\n")
        (codes "flowlabel-cert 1 ipv4 3\nA\nB\nC\nl 2\n") ≡ minimal 1 }
    ensures a_chain_in_the_lower_half { verdict (codes "default A\n0.0.0.0/3 B\n128.0.0.0/1 C\n")
        (codes "0.0.0.0/0 A\n0.0.0.0/3 B\n128.0.0.0/1 C\n")
        (codes "flowlabel-cert 2 ipv4 3\nA\nB\nC\nn 2 0 2\nc 1 00 0 0\nl 1\nl 2\n") ≡ minimal 3 }
{}

/// The versions of map, list and certificate differ. Reported at 0, and checked first.
pub fn k1_version_differs()
    ensures the_list { verdict quarters_map (codes "mode ipv6\n::/0 A\n") quarters ≡ refused VersionDiffers 0 }
    ensures the_map { verdict (codes "mode ipv6\n::/0 A\n") quarters_list quarters ≡ refused VersionDiffers 0 }
    ensures the_certificate { verdict quarters_map quarters_list (codes "flowlabel-cert 1 ipv6 1\nA\nl 0\n")
        ≡ refused VersionDiffers 0 }
    ensures before_a_leaf { verdict quarters_map (codes "mode ipv6\n::/0 A\n")
        (head ++ codes "n 2 0\nn 1 0 1\nl 1\nl 1\nn 1 0 2\nl 0\nl 2\n") ≡ refused VersionDiffers 0 }
{}

/// A leaf or a side block doesn't meet the condition on the map.
pub fn k2_leaf_not_uniform()
    ensures a_leaf { verdict quarters_map quarters_list (head ++ codes "n 2 0\nn 1 0 1\nl 1\nl 1\nn 1 0 2\nl 0\nl 2\n")
        ≡ refused LeafNotUniform 3 }
    ensures another_leaf { verdict quarters_map quarters_list
        (head ++ codes "n 2 0\nn 1 0 1\nl 0\nl 1\nn 1 0 2\nl 0\nl 1\n") ≡ refused LeafNotUniform 7 }
    ensures a_changed_map { verdict
        (codes "0.0.0.0/2 A\n64.0.0.0/2 B\n128.0.0.0/2 A\n192.0.0.0/2 D\n") quarters_list quarters
        ≡ refused LeafNotUniform 7 }
    ensures labels_exchanged { verdict quarters_map quarters_list
        (codes "flowlabel-cert 1 ipv4 4\nB\nA\nC\nUNKNOWN\nn 2 0\nn 1 0 1\nl 0\nl 1\nn 1 0 2\nl 0\nl 2\n")
        ≡ refused LeafNotUniform 3 }
    ensures letters { verdict (codes "0.0.0.0/0 Red\n") (codes "0.0.0.0/0 red\n")
        (codes "flowlabel-cert 1 ipv4 1\nred\nl 0\n") ≡ refused LeafNotUniform 1 }
    ensures a_mapping_for_a_part { verdict (codes "default A\n10.0.0.0/8 A\n") (codes "0.0.0.0/0 A\n")
        (codes "flowlabel-cert 1 ipv4 1\nA\nl 0\n") ≡ refused LeafNotUniform 1 }
    ensures one_other_address { verdict (codes "default D\n255.255.255.255 X\n255.255.255.254 Y\n") last_list last
        ≡ refused LeafNotUniform 1 }
    ensures before_the_list { verdict (codes "0.0.0.0/0 B\n") (codes "0.0.0.0/0 B\n")
        (codes "flowlabel-cert 1 ipv4 1\nA\nl 0\n") ≡ refused LeafNotUniform 1 }
    ensures the_upper_end_of_a_leaf { verdict (codes "128.0.0.0/1 X\n0.0.0.0/1 D\n127.255.255.255 Y\n")
        (codes "0.0.0.0/0 D\n128.0.0.0/1 X\n") (codes "flowlabel-cert 1 ipv4 2\nD\nX\nn 1 0 1\nl 0\nl 1\n")
        ≡ refused LeafNotUniform 2 }
    ensures the_lower_end_of_a_leaf { verdict (codes "128.0.0.0/1 X\n0.0.0.0/1 D\n128.0.0.0 Y\n")
        (codes "0.0.0.0/0 D\n128.0.0.0/1 X\n") (codes "flowlabel-cert 1 ipv4 2\nD\nX\nn 1 0 1\nl 0\nl 1\n")
        ≡ refused LeafNotUniform 3 }
    ensures after_a_chain { verdict (codes "default A\n0.0.0.0/3 B\n128.0.0.0/1 C\n")
        (codes "0.0.0.0/0 A\n0.0.0.0/3 B\n128.0.0.0/1 C\n")
        (codes "flowlabel-cert 2 ipv4 3\nA\nB\nC\nn 2 0 2\nc 1 00 0 0\nl 1\nl 1\n") ≡ refused LeafNotUniform 4 }
{}

/// A leaf or a side block doesn't meet the condition on the list.
pub fn k3_list_differs()
    ensures an_additional_entry { verdict quarters_map
        (codes "0.0.0.0/0 A\n64.0.0.0/2 B\n192.0.0.0/2 C\n0.0.0.0/3 A\n") quarters ≡ refused ListDiffers 3 }
    ensures a_missing_entry { verdict quarters_map (codes "64.0.0.0/2 B\n192.0.0.0/2 C\n") quarters
        ≡ refused ListDiffers 3 }
    ensures an_empty_list { verdict (codes "") (codes "") (codes "flowlabel-cert 1 ipv4 1\nUNKNOWN\nl 0\n")
        ≡ refused ListDiffers 1 }
    ensures another_label { verdict quarters_map (codes "0.0.0.0/0 A\n64.0.0.0/2 B\n192.0.0.0/2 B\n") quarters
        ≡ refused ListDiffers 7 }
    ensures letters { verdict (codes "0.0.0.0/0 red\n") (codes "0.0.0.0/0 Red\n")
        (codes "flowlabel-cert 1 ipv4 1\nred\nl 0\n") ≡ refused ListDiffers 1 }
    ensures an_address_within_a_leaf { verdict (codes "0.0.0.0/0 A\n") (codes "0.0.0.0/0 A\n10.0.0.1 A\n")
        (codes "flowlabel-cert 1 ipv4 1\nA\nl 0\n") ≡ refused ListDiffers 1 }
    ensures the_smallest_side_block_first { verdict (codes "default D\n255.255.255.255 X\n0.0.0.0/1 Y\n")
        (codes "0.0.0.0/0 D\n255.255.255.255/32 X\n255.255.255.254/32 Z\n") last ≡ refused ListDiffers 1 }
    ensures the_end_of_a_chain_first { verdict (codes "default D\n255.255.255.255 X\n0.0.0.0/1 Y\n")
        (codes "0.0.0.0/0 D\n") last ≡ refused ListDiffers 2 }
    ensures only_a_part { verdict (codes "") (codes "10.0.0.0/8 UNKNOWN\n")
        (codes "flowlabel-cert 1 ipv4 1\nUNKNOWN\nl 0\n") ≡ refused ListDiffers 1 }
    ensures the_path_of_a_chain_before_its_claim { verdict last_map (codes "0.0.0.0/0 D\n")
        (codes "flowlabel-cert 2 ipv4 2\nD\nX\nc 2 11111111111111111111111111111111 0 0\nl 1\n")
        ≡ refused ListDiffers 2 }
{}

/// A node claims the exact cost, but its set lacks a label of the exact set.
pub fn k4_set_too_small()
    ensures an_inner_node { verdict quarters_map quarters_list
        (head ++ codes "n 2 0\nn 1 1\nl 0\nl 1\nn 1 0 2\nl 0\nl 2\n") ≡ refused SetTooSmall 2 }
    ensures the_other_label { verdict quarters_map quarters_list
        (head ++ codes "n 2 0\nn 1 0\nl 0\nl 1\nn 1 0 2\nl 0\nl 2\n") ≡ refused SetTooSmall 2 }
    ensures the_root { verdict quarters_map quarters_list
        (head ++ codes "n 2 1\nn 1 0 1\nl 0\nl 1\nn 1 0 2\nl 0\nl 2\n") ≡ refused SetTooSmall 1 }
    ensures an_empty_set { verdict quarters_map quarters_list
        (head ++ codes "n 2\nn 1 0 1\nl 0\nl 1\nn 1 0 2\nl 0\nl 2\n") ≡ refused SetTooSmall 1 }
    ensures the_root_over_larger_sets { verdict quarters_map quarters_list
        (head ++ codes "n 2 0\nn 1 0 1 2\nl 0\nl 1\nn 1 0 2\nl 0\nl 2\n") ≡ refused SetTooSmall 1 }
    ensures the_lower_node_first { verdict quarters_map quarters_list
        (head ++ codes "n 2 0\nn 1 1\nl 0\nl 1\nn 1 2\nl 0\nl 2\n") ≡ refused SetTooSmall 2 }
    ensures the_upper_node { verdict quarters_map quarters_list
        (head ++ codes "n 2 0\nn 1 0 1\nl 0\nl 1\nn 1 2\nl 0\nl 2\n") ≡ refused SetTooSmall 5 }
    ensures a_chain { verdict last_map last_list
        (codes "flowlabel-cert 2 ipv4 2\nD\nX\nc 1 11111111111111111111111111111111 0\nl 1\n") ≡ refused SetTooSmall 1 }
    ensures a_chain_with_the_label_of_its_end { verdict last_map last_list
        (codes "flowlabel-cert 2 ipv4 2\nD\nX\nc 1 11111111111111111111111111111111 0 1\nl 1\n")
        ≡ refused SetTooSmall 1 }
    ensures a_chain_of_one_digit { verdict (codes "128.0.0.0/1 X\n0.0.0.0/1 D\n") (codes "0.0.0.0/0 D\n128.0.0.0/1 X\n")
        (codes "flowlabel-cert 2 ipv4 2\nD\nX\nc 1 1 0 0\nl 1\n") ≡ refused SetTooSmall 1 }
{}

/// A node claims more than the exact cost.
pub fn k5_cost_too_high()
    ensures the_root { verdict quarters_map quarters_list
        (head ++ codes "n 3 0\nn 1 0 1\nl 0\nl 1\nn 1 0 2\nl 0\nl 2\n") ≡ refused CostTooHigh 1 }
    ensures the_root_over_a_lower_cost { verdict quarters_map quarters_list
        (head ++ codes "n 2 0\nn 0 0 1\nl 0\nl 1\nn 1 0 2\nl 0\nl 2\n") ≡ refused CostTooHigh 1 }
    ensures an_inner_node { verdict quarters_map quarters_list
        (head ++ codes "n 2 0\nn 2 0 1\nl 0\nl 1\nn 1 0 2\nl 0\nl 2\n") ≡ refused CostTooHigh 2 }
    ensures the_upper_node { verdict quarters_map quarters_list
        (head ++ codes "n 2 0\nn 1 0 1\nl 0\nl 1\nn 2 0 2\nl 0\nl 2\n") ≡ refused CostTooHigh 5 }
    ensures a_chain { verdict last_map last_list
        (codes "flowlabel-cert 2 ipv4 2\nD\nX\nc 2 11111111111111111111111111111111 0 0\nl 1\n")
        ≡ refused CostTooHigh 1 }
    ensures a_chain_whose_end_has_its_side_label { verdict (codes "default D\n") (codes "0.0.0.0/0 D\n")
        (codes "flowlabel-cert 2 ipv4 1\nD\nc 1 11 0 0\nl 0\n") ≡ refused CostTooHigh 1 }
    ensures two_equal_leaves { verdict (codes "default D\n") (codes "0.0.0.0/0 D\n")
        (codes "flowlabel-cert 1 ipv4 1\nD\nn 1 0\nl 0\nl 0\n") ≡ refused CostTooHigh 1 }
    ensures a_leaf_first { verdict quarters_map quarters_list
        (head ++ codes "n 3 0\nn 1 0 1\nl 0\nl 1\nn 1 0 2\nl 0\nl 1\n") ≡ refused LeafNotUniform 7 }
{}

/// The list has more entries than the root's cost plus one. Reported at 0, and checked last.
pub fn k6_bound_not_met()
    ensures a_lower_cost { verdict quarters_map quarters_list
        (head ++ codes "n 1 0\nn 1 0 1\nl 0\nl 1\nn 1 0 2\nl 0\nl 2\n") ≡ refused BoundNotMet 0 }
    ensures a_longer_list { verdict (codes "128.0.0.0/1 X\n0.0.0.0/1 D\n")
        (codes "0.0.0.0/0 D\n0.0.0.0/1 D\n128.0.0.0/1 X\n") (codes "flowlabel-cert 1 ipv4 2\nD\nX\nn 1 0 1\nl 0\nl 1\n")
        ≡ refused BoundNotMet 0 }
    ensures two_halves_of_one_label { verdict (codes "default D\n") (codes "0.0.0.0/1 D\n128.0.0.0/1 D\n")
        (codes "flowlabel-cert 1 ipv4 1\nD\nn 0 0\nl 0\nl 0\n") ≡ refused BoundNotMet 0 }
    ensures after_the_nodes { verdict (codes "128.0.0.0/1 X\n0.0.0.0/1 D\n")
        (codes "0.0.0.0/0 D\n0.0.0.0/1 D\n128.0.0.0/1 X\n") (codes "flowlabel-cert 1 ipv4 2\nD\nX\nn 1 0\nl 0\nl 1\n")
        ≡ refused SetTooSmall 1 }
{}

/// `check` stops at the first fault of a text.
pub fn no_verdict_on_faulty_texts()
    ensures the_map { verdict (codes "colour red\n") quarters_list quarters ≡ None }
    ensures the_list { verdict quarters_map (codes "default A\n") quarters ≡ None }
    ensures the_certificate { verdict quarters_map quarters_list (codes "") ≡ None }
{}

/// FORMATS.md, "What `check` reports": the number of the node, or 18446744073709551615 if the number is larger.
pub fn a_node_has_its_number()
    ensures above_999 { (fault_of_number 1000 BoundNotMet).node ≡ 1000 }
    ensures the_greatest { (fault_of_number 18446744073709551615 BoundNotMet).node ≡ 18446744073709551615 }
    ensures above_the_greatest { (fault_of_number 18446744073709551616 BoundNotMet).node ≡ 18446744073709551615 }
    ensures above_2_to_the_63 { (fault_of_number 9223372036854775809 BoundNotMet).node ≡ 9223372036854775809 }
{}

/// FORMATS.md, "What `check` reports": K4 and K5.
pub fn a_claim_is_compared_with_the_exact_one()
    ensures a_lower_cost_needs_no_label { claim_fault (record { cost = 1; labels = [] })
        (record { cost = 2; labels = codes "A" ∷ [] }) ≡ None }
    ensures the_same_cost_needs_each_label { claim_fault (record { cost = 2; labels = codes "A" ∷ [] })
        (record { cost = 2; labels = codes "A" ∷ codes "B" ∷ [] }) ≡ Some SetTooSmall }
    ensures a_higher_cost { claim_fault (record { cost = 3; labels = codes "A" ∷ [] })
        (record { cost = 2; labels = codes "A" ∷ [] }) ≡ Some CostTooHigh }
{}

/// FORMATS.md, "Printed texts": the entries that `shrink` prints.
pub fn the_entries_of_a_list_have_an_order()
    ensures by_their_start { begins_before (record { start = 1; bits = 32; label = [] })
        (record { start = 2; bits = 31; label = [] }) ≡ true }
    ensures not_by_their_length { begins_before (record { start = 2; bits = 31; label = [] })
        (record { start = 1; bits = 32; label = [] }) ≡ false }
    ensures then_by_their_length { begins_before (record { start = 0; bits = 1; label = [] })
        (record { start = 0; bits = 2; label = [] }) ≡ true }
    ensures the_longer_one_later { begins_before (record { start = 0; bits = 2; label = [] })
        (record { start = 0; bits = 1; label = [] }) ≡ false }
    ensures not_before_itself { begins_before (record { start = 0; bits = 1; label = [] })
        (record { start = 0; bits = 1; label = [] }) ≡ false }
{}

/// RFC 4632, section 3.1: a block has no bits beyond its length.
pub fn an_entry_has_a_block()
    ensures a_block { HasBlock 32 (record { start = 0x0a00_0000; bits = 8; label = [] }) }
    ensures all_addresses { HasBlock 32 (record { start = 0; bits = 0; label = [] }) }
    ensures the_last_address { HasBlock 32 (record { start = 0xffff_ffff; bits = 32; label = [] }) }
    ensures no_length { HasBlock 32 (record { start = 0; bits = 33; label = [] }) → ⊥ }
    ensures no_address { HasBlock 32 (record { start = 0x1_0000_0000; bits = 8; label = [] }) → ⊥ }
    ensures host_bits { HasBlock 32 (record { start = 0x0a00_0001; bits = 8; label = [] }) → ⊥ }
    ensures no_entry_is_in_order { IsInOrder [] }
    ensures two_in_order { IsInOrder
        ((record { start = 0; bits = 1; label = [] }) ∷ (record { start = 0; bits = 2; label = [] }) ∷ []) }
    ensures the_later_first { IsInOrder
        ((record { start = 0; bits = 2; label = [] }) ∷ (record { start = 0; bits = 1; label = [] }) ∷ []) → ⊥ }
    ensures the_last_two { IsInOrder
        ((record { start = 0; bits = 1; label = [] }) ∷ (record { start = 2; bits = 2; label = [] })
        ∷ (record { start = 1; bits = 2; label = [] }) ∷ []) → ⊥ }
{}

/// DEFINITIONS.md, "The pair that shrink prints".
pub fn the_first_label_of_the_table_is_chosen()
    ensures of_a_set { least_label (codes "B" ∷ codes "A" ∷ []) (codes "A" ∷ codes "B" ∷ []) ≡ codes "B" }
    ensures of_a_set_that_the_table_lacks { least_label (codes "C" ∷ []) (codes "A" ∷ codes "B" ∷ []) ≡ codes "A" }
    ensures the_inherited_label_is_passed_on { handed_on (codes "A" ∷ codes "B" ∷ []) (codes "A" ∷ codes "B" ∷ [])
        (Some (codes "B")) ≡ Some (codes "B") }
    ensures otherwise_the_first_of_the_table { handed_on (codes "B" ∷ codes "A" ∷ []) (codes "A" ∷ codes "B" ∷ [])
        (Some (codes "C")) ≡ Some (codes "B") }
    ensures an_entry_with_it { own_entry 32 (codes "B" ∷ codes "A" ∷ []) (codes "A" ∷ codes "B" ∷ []) None 1 1
        ≡ record { start = 0x8000_0000; bits = 1; label = codes "B" } ∷ [] }
    ensures entries_of_two_halves { entries_of 32 (codes "B" ∷ codes "A" ∷ [])
        (InnerNode (record { cost = 1; labels = codes "A" ∷ codes "B" ∷ [] }) (LeafNode (codes "A"))
        (LeafNode (codes "B")))
        None 1 1
        ≡ record { start = 0x8000_0000; bits = 1; label = codes "B" }
        ∷ record { start = 0x8000_0000; bits = 2; label = codes "A" } ∷ [] }
    ensures a_set_in_the_order_of_the_table { in_table_order (codes "C" ∷ codes "A" ∷ [])
        (record { cost = 3; labels = codes "A" ∷ codes "X" ∷ codes "C" ∷ [] })
        ≡ record { cost = 3; labels = codes "C" ∷ codes "A" ∷ codes "X" ∷ [] } }
{}

/// DEFINITIONS.md, "The pair that shrink prints": everything in a pair is determined by the map.
pub fn a_pair_is_minimal_as_it_is_read()
    ensures of_one_label { AreMinimalAsRead (map_reading (codes "")) (list_reading (codes "0.0.0.0/0 UNKNOWN\n"))
        (format_reading (codes "flowlabel-cert 1 ipv4 1\nUNKNOWN\nl 0\n")) }
    ensures format_2 { AreMinimalAsRead (map_reading (codes "")) (list_reading (codes "0.0.0.0/0 UNKNOWN\n"))
        (format_reading (codes "flowlabel-cert 2 ipv4 1\nUNKNOWN\nl 0\n")) → ⊥ }
    ensures another_version_of_the_certificate { AreMinimalAsRead (map_reading (codes ""))
        (list_reading (codes "0.0.0.0/0 UNKNOWN\n")) (format_reading (codes "flowlabel-cert 1 ipv6 1\nUNKNOWN\nl 0\n"))
        → ⊥ }
    ensures another_table_of_the_certificate { AreMinimalAsRead (map_reading (codes ""))
        (list_reading (codes "0.0.0.0/0 UNKNOWN\n"))
        (format_reading (codes "flowlabel-cert 1 ipv4 2\nUNKNOWN\nA\nl 0\n")) → ⊥ }
    ensures two_equal_leaves { AreMinimalAsRead (map_reading (codes "")) (list_reading (codes "0.0.0.0/0 UNKNOWN\n"))
        (format_reading (codes "flowlabel-cert 1 ipv4 1\nUNKNOWN\nn 0 0\nl 0\nl 0\n")) → ⊥ }
    ensures another_version_of_the_list { AreMinimalAsRead (map_reading (codes ""))
        (list_reading (codes "mode ipv6\n::/0 UNKNOWN\n"))
        (format_reading (codes "flowlabel-cert 1 ipv4 1\nUNKNOWN\nl 0\n")) → ⊥ }
    ensures another_name { AreMinimalAsRead (map_reading (codes ""))
        (list_reading (codes "map-name x\n0.0.0.0/0 UNKNOWN\n"))
        (format_reading (codes "flowlabel-cert 1 ipv4 1\nUNKNOWN\nl 0\n")) → ⊥ }
    ensures another_table_of_the_list { AreMinimalAsRead (map_reading (codes ""))
        (list_reading (codes "label 5 A\n0.0.0.0/0 UNKNOWN\n"))
        (format_reading (codes "flowlabel-cert 1 ipv4 1\nUNKNOWN\nl 0\n")) → ⊥ }
    ensures no_entries { AreMinimalAsRead (map_reading (codes "")) (list_reading (codes "label 5 UNKNOWN\n"))
        (format_reading (codes "flowlabel-cert 1 ipv4 1\nUNKNOWN\nl 0\n")) → ⊥ }
{}

/// DEFINITIONS.md, "The pair that shrink prints": the certificate represents the map, with exact costs.
pub fn a_minimal_pair_has_exact_costs()
    ensures one_leaf_for_two_labels { AreMinimalPair (map_reading (codes "0.0.0.0/1 A\n128.0.0.0/1 B\n"))
        (list_reading (codes "0.0.0.0/0 A\n")) (format_reading (codes "flowlabel-cert 1 ipv4 3\nA\nB\nUNKNOWN\nl 0\n"))
        → ⊥ }
    ensures another_cost { AreMinimalPair
        (map_reading (codes "0.0.0.0/2 A\n64.0.0.0/2 B\n128.0.0.0/2 A\n192.0.0.0/2 C\n"))
        (list_reading (codes "0.0.0.0/0 A\n64.0.0.0/2 B\n192.0.0.0/2 C\n"))
        (format_reading
        (codes "flowlabel-cert 1 ipv4 4\nA\nB\nC\nUNKNOWN\nn 3 0\nn 1 0 1\nl 0\nl 1\nn 1 0 2\nl 0\nl 2\n")) → ⊥ }
    ensures another_cost_of_the_lower_half { AreMinimalPair
        (map_reading (codes "0.0.0.0/2 A\n64.0.0.0/2 B\n128.0.0.0/2 A\n192.0.0.0/2 C\n"))
        (list_reading (codes "0.0.0.0/0 A\n64.0.0.0/2 B\n192.0.0.0/2 C\n"))
        (format_reading
        (codes "flowlabel-cert 1 ipv4 4\nA\nB\nC\nUNKNOWN\nn 3 0\nn 2 0 1\nl 0\nl 1\nn 1 0 2\nl 0\nl 2\n")) → ⊥ }
    ensures another_cost_of_the_upper_half { AreMinimalPair
        (map_reading (codes "0.0.0.0/2 A\n64.0.0.0/2 B\n128.0.0.0/2 A\n192.0.0.0/2 C\n"))
        (list_reading (codes "0.0.0.0/0 A\n64.0.0.0/2 B\n192.0.0.0/2 C\n"))
        (format_reading
        (codes "flowlabel-cert 1 ipv4 4\nA\nB\nC\nUNKNOWN\nn 3 0\nn 1 0 1\nl 0\nl 1\nn 2 0 2\nl 0\nl 2\n")) → ⊥ }
    ensures a_chain { StandsFor
        (record { version = V4; name = None; fallback = codes "A"; mappings = []; table = codes "A" ∷ [] })
        (ChainNode (record { cost = 0; labels = [] }) (true ∷ []) (codes "A") (LeafNode (codes "A"))) 0 0 → ⊥ }
{}

/// DEFINITIONS.md, "Certificates": a mapping that covers an address of the block.
pub fn a_mapping_meets_blocks()
    ensures in_which_it_begins { meets 32 1 0 (record { low = 5; high = 0x8000_0005; label = [] }) ≡ true }
    ensures in_which_it_ends { meets 32 1 1 (record { low = 5; high = 0x8000_0005; label = [] }) ≡ true }
    ensures not_before_it { meets 32 1 0 (record { low = 0x8000_0000; high = 0x8000_0005; label = [] }) ≡ false }
    ensures not_after_it { meets 32 1 1 (record { low = 5; high = 0x7fff_ffff; label = [] }) ≡ false }
{}
