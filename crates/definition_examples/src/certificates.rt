//! Certificates: their texts, both ways, and compacting. The trees are written down by hand.
#![tactic(auto, unfolding(crate::specs::Certificates::opened))]

ghost use Rattle.definition_examples.specs.Certificates.{compacted_text, last, last_opened, nested};
ghost use Rattle.definition_examples.specs.Certificates.{nested_tree, opened_text, quarters};
ghost use Rattle.pmap_cert.specs.CertificateModel.{ChainNode, InnerNode, LeafNode, chain_claim};
ghost use Rattle.pmap_cert.specs.CertificateModel.{chosen_half, exact_claim, side_half};
ghost use Rattle.pmap_cert.specs.CertificateText.{certificate_text};
ghost use Rattle.pmap_cert.specs.Compacting.{compact, line_count};
ghost use Rattle.pmap_cert.specs.FormatReading.{format_reading};
ghost use Rattle.prefix_keys.specs.declared.version.Version.TheVariants.{V4, V6};
ghost use Rattle.std.specs.Prelude.{◌≡◌, ◌∷◌, [], codes, false, Ok, replicate, true};

/// FORMATS.md, "Certificates" and "Chains": the certificates that the page shows.
pub fn texts_of_the_page_represent_certificates()
    ensures the_first_of_the_page { format_reading quarters
        ≡ Ok (record {
          format = 1;
          version = V4;
          table = codes "A" ∷ codes "B" ∷ codes "C" ∷ codes "UNKNOWN" ∷ [];
          root = (InnerNode (record { cost = 2; labels = codes "A" ∷ [] })
              (InnerNode (record { cost = 1; labels = codes "A" ∷ codes "B" ∷ [] }) (LeafNode (codes "A"))
              (LeafNode (codes "B")))
              (InnerNode (record { cost = 1; labels = codes "A" ∷ codes "C" ∷ [] }) (LeafNode (codes "A"))
              (LeafNode (codes "C"))));
        }) }
    ensures the_second_of_the_page { format_reading last
        ≡ Ok (record {
          format = 2;
          version = V4;
          table = codes "D" ∷ codes "X" ∷ [];
          root = (ChainNode (record { cost = 1; labels = codes "D" ∷ [] }) (replicate 32 true) (codes "D")
              (LeafNode (codes "X")));
        }) }
{}

/// FORMATS.md, "Certificates": the format, the IP version and the labels of a certificate with a single leaf.
pub fn a_text_of_one_leaf_represents_a_certificate()
    ensures one_leaf { format_reading (codes "flowlabel-cert 1 ipv4 1\nA\nl 0\n")
        ≡ Ok (record { format = 1; version = V4; table = codes "A" ∷ []; root = (LeafNode (codes "A")) }) }
    ensures of_ipv6 { format_reading (codes "flowlabel-cert 1 ipv6 2\nA\nB\nl 1\n")
        ≡ Ok (record { format = 1; version = V6; table = codes "A" ∷ codes "B" ∷ []; root = (LeafNode (codes "B")) }) }
    ensures format_2_without_chains { format_reading (codes "flowlabel-cert 2 ipv4 1\nA\nl 0\n")
        ≡ Ok (record { format = 2; version = V4; table = codes "A" ∷ []; root = (LeafNode (codes "A")) }) }
    ensures a_label_of_digits { format_reading (codes "flowlabel-cert 1 ipv4 1\n5\nl 0\n")
        ≡ Ok (record { format = 1; version = V4; table = codes "5" ∷ []; root = (LeafNode (codes "5")) }) }
    ensures a_label_with_a_blank { format_reading (codes "flowlabel-cert 1 ipv4 1\nGuest network\nl 0\n")
        ≡ Ok (record {
          format = 1;
          version = V4;
          table = codes "Guest network" ∷ [];
          root = (LeafNode (codes "Guest network"));
        }) }
{}

/// FORMATS.md, "Certificates": the cost and the set of labels of a node.
pub fn a_text_has_the_claim_of_a_node()
    ensures an_empty_set { format_reading (codes "flowlabel-cert 1 ipv4 2\nA\nB\nn 0\nl 0\nl 1\n")
        ≡ Ok (record {
          format = 1;
          version = V4;
          table = codes "A" ∷ codes "B" ∷ [];
          root = (InnerNode (record { cost = 0; labels = [] }) (LeafNode (codes "A")) (LeafNode (codes "B")));
        }) }
    ensures the_greatest_cost { format_reading (codes "flowlabel-cert 1 ipv4 2\nA\nB\nn 4294967295 0 1\nl 0\nl 1\n")
        ≡ Ok (record {
          format = 1;
          version = V4;
          table = codes "A" ∷ codes "B" ∷ [];
          root = (InnerNode (record { cost = 4294967295; labels = codes "A" ∷ codes "B" ∷ [] }) (LeafNode (codes "A"))
              (LeafNode (codes "B")));
        }) }
{}

/// FORMATS.md, "Certificates" and "Chains": nodes below nodes.
pub fn a_text_represents_a_tree()
    ensures the_lower_half_first { format_reading
        (codes "flowlabel-cert 1 ipv4 3\nA\nB\nC\nn 2 0 1 2\nn 1 0 1\nl 0\nl 1\nl 2\n")
        ≡ Ok (record {
          format = 1;
          version = V4;
          table = codes "A" ∷ codes "B" ∷ codes "C" ∷ [];
          root = (InnerNode (record { cost = 2; labels = codes "A" ∷ codes "B" ∷ codes "C" ∷ [] })
              (InnerNode (record { cost = 1; labels = codes "A" ∷ codes "B" ∷ [] }) (LeafNode (codes "A"))
              (LeafNode (codes "B")))
              (LeafNode (codes "C")));
        }) }
    ensures both_bits { format_reading (codes "flowlabel-cert 2 ipv4 2\nA\nB\nc 1 01 0 0 1\nl 1\n")
        ≡ Ok (record {
          format = 2;
          version = V4;
          table = codes "A" ∷ codes "B" ∷ [];
          root = (ChainNode (record { cost = 1; labels = codes "A" ∷ codes "B" ∷ [] }) (false ∷ true ∷ []) (codes "A")
              (LeafNode (codes "B")));
        }) }
    ensures a_chain_below_an_inner_node { format_reading
        (codes "flowlabel-cert 2 ipv4 2\nA\nB\nn 1 0\nl 0\nc 1 10 0 0\nl 1\n")
        ≡ Ok (record {
          format = 2;
          version = V4;
          table = codes "A" ∷ codes "B" ∷ [];
          root = (InnerNode (record { cost = 1; labels = codes "A" ∷ [] }) (LeafNode (codes "A"))
              (ChainNode (record { cost = 1; labels = codes "A" ∷ [] }) (true ∷ false ∷ []) (codes "A")
              (LeafNode (codes "B"))));
        }) }
    ensures nodes_of_32_levels { format_reading (nested (codes "flowlabel-cert 1 ipv4 1\n") 32)
        ≡ Ok (record { format = 1; version = V4; table = codes "A" ∷ []; root = nested_tree 32 }) }
    ensures nodes_of_128_levels { format_reading (nested (codes "flowlabel-cert 1 ipv6 1\n") 128)
        ≡ Ok (record { format = 1; version = V6; table = codes "A" ∷ []; root = nested_tree 128 }) }
{}

/// FORMATS.md, "Certificates" and "Chains": the printed texts of the certificates that the page shows.
pub fn certificates_of_the_page_have_texts()
    ensures the_first_of_the_page { certificate_text
        (record {
          format = 1;
          version = V4;
          table = codes "A" ∷ codes "B" ∷ codes "C" ∷ codes "UNKNOWN" ∷ [];
          root = (InnerNode (record { cost = 2; labels = codes "A" ∷ [] })
              (InnerNode (record { cost = 1; labels = codes "A" ∷ codes "B" ∷ [] }) (LeafNode (codes "A"))
              (LeafNode (codes "B")))
              (InnerNode (record { cost = 1; labels = codes "A" ∷ codes "C" ∷ [] }) (LeafNode (codes "A"))
              (LeafNode (codes "C"))));
        }) ≡ quarters }
    ensures the_second_of_the_page { certificate_text
        (record {
          format = 2;
          version = V4;
          table = codes "D" ∷ codes "X" ∷ [];
          root = (ChainNode (record { cost = 1; labels = codes "D" ∷ [] }) (replicate 32 true) (codes "D")
              (LeafNode (codes "X")));
        }) ≡ last }
{}

/// FORMATS.md, "Certificates": the printed texts of certificates with a single leaf.
pub fn a_certificate_of_one_leaf_has_a_text()
    ensures one_leaf { certificate_text
        (record { format = 1; version = V4; table = codes "A" ∷ []; root = (LeafNode (codes "A")) })
        ≡ codes "flowlabel-cert 1 ipv4 1\nA\nl 0\n" }
    ensures of_ipv6 { certificate_text
        (record { format = 1; version = V6; table = codes "A" ∷ codes "B" ∷ []; root = (LeafNode (codes "B")) })
        ≡ codes "flowlabel-cert 1 ipv6 2\nA\nB\nl 1\n" }
    ensures format_2_without_chains { certificate_text
        (record { format = 2; version = V4; table = codes "A" ∷ []; root = (LeafNode (codes "A")) })
        ≡ codes "flowlabel-cert 2 ipv4 1\nA\nl 0\n" }
    ensures a_label_of_digits { certificate_text
        (record { format = 1; version = V4; table = codes "5" ∷ []; root = (LeafNode (codes "5")) })
        ≡ codes "flowlabel-cert 1 ipv4 1\n5\nl 0\n" }
    ensures a_label_with_a_blank { certificate_text
        (record {
          format = 1;
          version = V4;
          table = codes "Guest network" ∷ [];
          root = (LeafNode (codes "Guest network"));
        })
        ≡ codes "flowlabel-cert 1 ipv4 1\nGuest network\nl 0\n" }
{}

/// FORMATS.md, "Certificates": the printed cost and set of labels of a node.
pub fn the_claim_of_a_node_has_a_text()
    ensures an_empty_set { certificate_text
        (record {
          format = 1;
          version = V4;
          table = codes "A" ∷ codes "B" ∷ [];
          root = (InnerNode (record { cost = 0; labels = [] }) (LeafNode (codes "A")) (LeafNode (codes "B")));
        })
        ≡ codes "flowlabel-cert 1 ipv4 2\nA\nB\nn 0\nl 0\nl 1\n" }
    ensures the_greatest_cost { certificate_text
        (record {
          format = 1;
          version = V4;
          table = codes "A" ∷ codes "B" ∷ [];
          root = (InnerNode (record { cost = 4294967295; labels = codes "A" ∷ codes "B" ∷ [] }) (LeafNode (codes "A"))
              (LeafNode (codes "B")));
        })
        ≡ codes "flowlabel-cert 1 ipv4 2\nA\nB\nn 4294967295 0 1\nl 0\nl 1\n" }
{}

/// FORMATS.md, "Certificates" and "Chains": the printed texts of nodes below nodes.
pub fn a_tree_has_a_text()
    ensures the_lower_half_first { certificate_text
        (record {
          format = 1;
          version = V4;
          table = codes "A" ∷ codes "B" ∷ codes "C" ∷ [];
          root = (InnerNode (record { cost = 2; labels = codes "A" ∷ codes "B" ∷ codes "C" ∷ [] })
              (InnerNode (record { cost = 1; labels = codes "A" ∷ codes "B" ∷ [] }) (LeafNode (codes "A"))
              (LeafNode (codes "B")))
              (LeafNode (codes "C")));
        })
        ≡ codes "flowlabel-cert 1 ipv4 3\nA\nB\nC\nn 2 0 1 2\nn 1 0 1\nl 0\nl 1\nl 2\n" }
    ensures both_bits { certificate_text
        (record {
          format = 2;
          version = V4;
          table = codes "A" ∷ codes "B" ∷ [];
          root = (ChainNode (record { cost = 1; labels = codes "A" ∷ codes "B" ∷ [] }) (false ∷ true ∷ []) (codes "A")
              (LeafNode (codes "B")));
        })
        ≡ codes "flowlabel-cert 2 ipv4 2\nA\nB\nc 1 01 0 0 1\nl 1\n" }
    ensures a_chain_below_an_inner_node { certificate_text
        (record {
          format = 2;
          version = V4;
          table = codes "A" ∷ codes "B" ∷ [];
          root = (InnerNode (record { cost = 1; labels = codes "A" ∷ [] }) (LeafNode (codes "A"))
              (ChainNode (record { cost = 1; labels = codes "A" ∷ [] }) (true ∷ false ∷ []) (codes "A")
              (LeafNode (codes "B"))));
        })
        ≡ codes "flowlabel-cert 2 ipv4 2\nA\nB\nn 1 0\nl 0\nc 1 10 0 0\nl 1\n" }
{}

/// FORMATS.md, "Chains": where a path begins, where it goes on and where it ends.
pub fn paths_are_compacted()
    ensures the_upper_halves { compacted_text (codes "flowlabel-cert 1 ipv4 2\nA\nB\nn 1 0\nl 0\nn 1 0 1\nl 0\nl 1\n")
        ≡ Ok (codes "flowlabel-cert 2 ipv4 2\nA\nB\nc 1 11 0 0\nl 1\n") }
    ensures the_lower_halves { compacted_text (codes "flowlabel-cert 1 ipv4 2\nA\nB\nn 1 0\nn 1 0 1\nl 1\nl 0\nl 0\n")
        ≡ Ok (codes "flowlabel-cert 2 ipv4 2\nA\nB\nc 1 00 0 0\nl 1\n") }
    ensures the_lower_halves_twice { compacted_text
        (codes "flowlabel-cert 1 ipv4 3\nA\nB\nC\nn 2 0\nn 1 0\nn 1 1 2\nl 1\nl 2\nl 0\nl 0\n")
        ≡ Ok (codes "flowlabel-cert 2 ipv4 3\nA\nB\nC\nc 2 00 0 0\nn 1 1 2\nl 1\nl 2\n") }
    ensures one_half_after_the_other { compacted_text
        (codes "flowlabel-cert 1 ipv4 2\nA\nB\nn 1 0\nl 0\nn 1 0 1\nl 1\nl 0\n")
        ≡ Ok (codes "flowlabel-cert 2 ipv4 2\nA\nB\nc 1 10 0 0\nl 1\n") }
    ensures two_leaves_with_the_side_label { compacted_text
        (codes "flowlabel-cert 1 ipv4 1\nA\nn 0 0\nl 0\nn 0 0\nl 0\nl 0\n")
        ≡ Ok (codes "flowlabel-cert 2 ipv4 1\nA\nc 0 11 0 0\nl 0\n") }
    ensures one_inner_node_stays { compacted_text (codes "flowlabel-cert 1 ipv4 2\nA\nB\nn 1 0 1\nl 0\nl 1\n")
        ≡ Ok (codes "flowlabel-cert 2 ipv4 2\nA\nB\nn 1 0 1\nl 0\nl 1\n") }
    ensures another_side_label_ends_the_path { compacted_text
        (codes "flowlabel-cert 1 ipv4 3\nA\nB\nC\nn 2 0\nl 0\nn 2 1 2\nl 1\nl 2\n")
        ≡ Ok (codes "flowlabel-cert 2 ipv4 3\nA\nB\nC\nn 2 0\nl 0\nn 2 1 2\nl 1\nl 2\n") }
    ensures compacting_goes_on_at_the_end { compacted_text
        (codes "flowlabel-cert 1 ipv4 3\nA\nB\nC\nn 2 0\nl 0\nn 2 0\nl 0\nn 1 1\nl 1\nn 1 1 2\nl 1\nl 2\n")
        ≡ Ok (codes "flowlabel-cert 2 ipv4 3\nA\nB\nC\nc 2 11 0 0\nc 1 11 1 1\nl 2\n") }
    ensures and_in_both_halves { compacted_text
        (codes "flowlabel-cert 1 ipv4 2\nA\nB\nn 2 0\nn 1 0\nl 0\nn 1 0 1\nl 0\nl 1\nn 1 0\nl 0\nn 1 0 1\nl 0\nl 1\n")
        ≡ Ok (codes "flowlabel-cert 2 ipv4 2\nA\nB\nn 2 0\nc 1 11 0 0\nl 1\nc 1 11 0 0\nl 1\n") }
    ensures the_first_of_the_page { compacted_text quarters
        ≡ Ok (codes "flowlabel-cert 2 ipv4 4\nA\nB\nC\nUNKNOWN\nn 2 0\nn 1 0 1\nl 0\nl 1\nn 1 0 2\nl 0\nl 2\n") }
    ensures the_second_of_the_page_opened { compacted_text (last_opened (codes "1")) ≡ Ok last }
    ensures format_2_is_unchanged { compacted_text last ≡ Ok last }
    ensures paths_of_format_2_too { compacted_text
        (codes "flowlabel-cert 2 ipv4 2\nA\nB\nn 1 0\nl 0\nn 1 0 1\nl 0\nl 1\n")
        ≡ Ok (codes "flowlabel-cert 2 ipv4 2\nA\nB\nn 1 0\nl 0\nn 1 0 1\nl 0\nl 1\n") }
    ensures a_single_leaf { compacted_text (codes "flowlabel-cert 1 ipv4 1\nA\nl 0\n")
        ≡ Ok (codes "flowlabel-cert 2 ipv4 1\nA\nl 0\n") }
    ensures the_greatest_cost { compacted_text (codes "flowlabel-cert 2 ipv4 1\nA\nc 4294967295 1 0 0\nl 0\n")
        ≡ Ok (codes "flowlabel-cert 2 ipv4 1\nA\nc 4294967295 1 0 0\nl 0\n") }
{}

/// FORMATS.md, "Chains": a chain opened into its inner nodes and leaves.
pub fn chains_are_opened()
    ensures the_second_of_the_page { opened_text last ≡ Ok (last_opened (codes "2")) }
{}

/// DEFINITIONS.md, "Certificates": the cost of the entries, and the labels that the block may inherit at this cost.
pub fn a_claim_of_two_halves_is_exact()
    ensures with_a_common_label { exact_claim (record { cost = 2; labels = codes "A" ∷ codes "B" ∷ [] })
        (record { cost = 5; labels = codes "C" ∷ codes "A" ∷ [] })
        ≡ record { cost = 7; labels = codes "A" ∷ [] } }
    ensures without_a_common_label { exact_claim (record { cost = 2; labels = codes "A" ∷ [] })
        (record { cost = 5; labels = codes "B" ∷ codes "C" ∷ [] })
        ≡ record { cost = 8; labels = codes "A" ∷ codes "B" ∷ codes "C" ∷ [] } }
    ensures of_two_common_labels { exact_claim (record { cost = 2; labels = codes "B" ∷ codes "A" ∷ codes "C" ∷ [] })
        (record { cost = 0; labels = codes "A" ∷ codes "B" ∷ [] })
        ≡ record { cost = 2; labels = codes "B" ∷ codes "A" ∷ [] } }
{}

/// DEFINITIONS.md, "Certificates": the exact claim of a chain.
pub fn a_chain_has_an_exact_claim()
    ensures the_end_has_the_side_label { chain_claim 2 (codes "A")
        (record { cost = 3; labels = codes "B" ∷ codes "A" ∷ [] })
        ≡ record { cost = 3; labels = codes "A" ∷ [] } }
    ensures of_one_bit { chain_claim 1 (codes "A") (record { cost = 3; labels = codes "B" ∷ codes "C" ∷ [] })
        ≡ record { cost = 4; labels = codes "A" ∷ codes "B" ∷ codes "C" ∷ [] } }
    ensures of_two_bits { chain_claim 2 (codes "A") (record { cost = 3; labels = codes "B" ∷ codes "C" ∷ [] })
        ≡ record { cost = 4; labels = codes "A" ∷ [] } }
    ensures the_upper_half_is_chosen { chosen_half true 5 ≡ 11 }
    ensures the_lower_half_is_chosen { chosen_half false 5 ≡ 10 }
    ensures beside_the_upper_half { side_half true 5 ≡ 10 }
    ensures beside_the_lower_half { side_half false 5 ≡ 11 }
{}

/// FORMATS.md, "Chains".
pub fn a_compact_certificate_has_format_2()
    ensures of_a_leaf { compact
        (record { format = 1; version = V4; table = codes "A" ∷ []; root = LeafNode (codes "A") })
        ≡ record { format = 2; version = V4; table = codes "A" ∷ []; root = LeafNode (codes "A") } }
    ensures lines_of_a_tree { line_count
        (InnerNode (record { cost = 1; labels = [] }) (LeafNode (codes "A"))
        (InnerNode (record { cost = 1; labels = [] }) (LeafNode (codes "A"))
        (ChainNode (record { cost = 1; labels = [] }) (true ∷ true ∷ []) (codes "A") (LeafNode (codes "B"))))) ≡ 6 }
{}
