//! The faults of certificates, each with its line: FORMATS.md, "Faults of certificates".
#![tactic(auto, unfolding(crate::specs::Certificates::opened))]

ghost use Rattle.definition_examples.specs.Certificates.{at_certificate_line, head, lines, quarters};
ghost use Rattle.pmap_cert.specs.FormatReading.{format_reading};
ghost use Rattle.pmap_cert.specs.declared.fault.CertFaultKind.TheVariants.{BadHeader, BadLabelTable, BadNode};
ghost use Rattle.pmap_cert.specs.declared.fault.CertFaultKind.TheVariants.{NodesLeft, NodesMissing, TooDeep};
ghost use Rattle.std.specs.Prelude.{◌≡◌, ◌++◌, ◌∷◌, [], codes, Err, replicate};

/// Line 1 is not a valid header.
pub fn c1_bad_header()
    ensures the_empty_text { format_reading ([]) ≡ Err (at_certificate_line BadHeader 1) }
    ensures a_count_above_65536 { format_reading (codes "flowlabel-cert 1 ipv4 65537\n")
        ≡ Err (at_certificate_line BadHeader 1) }
    ensures another_format { format_reading (codes "flowlabel-cert 3 ipv4 0\n")
        ≡ Err (at_certificate_line BadHeader 1) }
    ensures a_leading_zero { format_reading (codes "flowlabel-cert 1 ipv4 04\nA\nB\nC\nD\nl 0\n")
        ≡ Err (at_certificate_line BadHeader 1) }
    ensures no_line_feed { format_reading (codes "flowlabel-cert 1 ipv4 0") ≡ Err (at_certificate_line BadHeader 1) }
    ensures a_carriage_return { format_reading (codes "flowlabel-cert 1 ipv4 1\r\nA\r\nl 0\r\n")
        ≡ Err (at_certificate_line BadHeader 1) }
    ensures two_blanks { format_reading (codes "flowlabel-cert  1 ipv4 1\nA\nl 0\n")
        ≡ Err (at_certificate_line BadHeader 1) }
    ensures another_version { format_reading (codes "flowlabel-cert 1 ipv5 1\nA\nl 0\n")
        ≡ Err (at_certificate_line BadHeader 1) }
    ensures the_word_of_maps { format_reading (codes "flowlabel-cert 1 ip 1\nA\nl 0\n")
        ≡ Err (at_certificate_line BadHeader 1) }
    ensures no_count { format_reading (codes "flowlabel-cert 1 ipv4\nA\nl 0\n")
        ≡ Err (at_certificate_line BadHeader 1) }
    ensures a_fifth_word { format_reading (codes "flowlabel-cert 1 ipv4 1 1\nA\nl 0\n")
        ≡ Err (at_certificate_line BadHeader 1) }
    ensures a_blank_at_the_end { format_reading (codes "flowlabel-cert 1 ipv4 1 \nA\nl 0\n")
        ≡ Err (at_certificate_line BadHeader 1) }
    ensures a_capital_letter { format_reading (codes "Flowlabel-cert 1 ipv4 1\nA\nl 0\n")
        ≡ Err (at_certificate_line BadHeader 1) }
    ensures a_list { format_reading (codes "mode ipv4\n0.0.0.0/0 A\n") ≡ Err (at_certificate_line BadHeader 1) }
    ensures format_0 { format_reading (codes "flowlabel-cert 0 ipv4 1\nA\nl 0\n")
        ≡ Err (at_certificate_line BadHeader 1) }
    ensures a_leading_zero_of_the_format { format_reading (codes "flowlabel-cert 01 ipv4 1\nA\nl 0\n")
        ≡ Err (at_certificate_line BadHeader 1) }
{}

/// A label line is malformed, repeated or missing.
pub fn c2_bad_label_table()
    ensures a_blank_before { format_reading (codes "flowlabel-cert 1 ipv4 1\n A\nl 0\n")
        ≡ Err (at_certificate_line BadLabelTable 2) }
    ensures a_comment { format_reading (codes "flowlabel-cert 1 ipv4 1\nA # first\nl 0\n")
        ≡ Err (at_certificate_line BadLabelTable 2) }
    ensures a_repeated_label { format_reading (codes "flowlabel-cert 1 ipv4 2\nA\nA\nl 0\n")
        ≡ Err (at_certificate_line BadLabelTable 3) }
    ensures a_missing_line { format_reading (codes "flowlabel-cert 1 ipv4 1\n")
        ≡ Err (at_certificate_line BadLabelTable 2) }
    ensures no_line_feed { format_reading (codes "flowlabel-cert 1 ipv4 1\nA")
        ≡ Err (at_certificate_line BadLabelTable 2) }
    ensures an_empty_label { format_reading (codes "flowlabel-cert 1 ipv4 1\n\nl 0\n")
        ≡ Err (at_certificate_line BadLabelTable 2) }
    ensures a_blank_after { format_reading (codes "flowlabel-cert 1 ipv4 1\nA \nl 0\n")
        ≡ Err (at_certificate_line BadLabelTable 2) }
    ensures the_greatest_count_without_labels { format_reading (codes "flowlabel-cert 1 ipv4 65536\n")
        ≡ Err (at_certificate_line BadLabelTable 2) }
    ensures a_control_character { format_reading (codes "flowlabel-cert 1 ipv4 1\nA" ++ 1 ∷ codes "\nl 0\n")
        ≡ Err (at_certificate_line BadLabelTable 2) }
    ensures of_256_bytes { format_reading (codes "flowlabel-cert 1 ipv4 1\n" ++ replicate 256 120 ++ codes "\nl 0\n")
        ≡ Err (at_certificate_line BadLabelTable 2) }
    ensures the_third_of_three { format_reading (codes "flowlabel-cert 1 ipv4 3\nA\nB\nA\nl 0\n")
        ≡ Err (at_certificate_line BadLabelTable 4) }
    ensures a_carriage_return { format_reading (codes "flowlabel-cert 1 ipv4 1\nA\r\nl 0\n")
        ≡ Err (at_certificate_line BadLabelTable 2) }
{}

/// A node line is malformed, or a label number is not below the count.
pub fn c3_bad_node()
    ensures a_number_above_the_labels { format_reading (head ++ codes "n 2 0\nn 1 0 1\nl 4\nl 1\nn 1 0 2\nl 0\nl 2\n")
        ≡ Err (at_certificate_line BadNode 8) }
    ensures a_leading_zero { format_reading (head ++ codes "n 2 0\nn 1 0 1\nl 00\nl 1\nn 1 0 2\nl 0\nl 2\n")
        ≡ Err (at_certificate_line BadNode 8) }
    ensures numbers_that_descend { format_reading (head ++ codes "n 2 0\nn 1 1 0\nl 0\nl 1\nn 1 0 2\nl 0\nl 2\n")
        ≡ Err (at_certificate_line BadNode 7) }
    ensures two_blanks { format_reading (head ++ codes "n  1 0\nn 1 0 1\nl 0\nl 1\nn 1 0 2\nl 0\nl 2\n")
        ≡ Err (at_certificate_line BadNode 6) }
    ensures a_cost_of_2_to_the_32 { format_reading
        (head ++ codes "n 4294967296 0\nn 1 0 1\nl 0\nl 1\nn 1 0 2\nl 0\nl 2\n") ≡ Err (at_certificate_line BadNode 6) }
    ensures no_line_feed { format_reading (codes "flowlabel-cert 1 ipv4 1\nA\nl 0")
        ≡ Err (at_certificate_line BadNode 3) }
    ensures a_number_twice { format_reading (head ++ codes "n 1 0 0\nn 1 0 1\nl 0\nl 1\nn 1 0 2\nl 0\nl 2\n")
        ≡ Err (at_certificate_line BadNode 6) }
    ensures a_number_of_a_set_above_the_labels { format_reading
        (head ++ codes "n 2 0\nn 1 0 4\nl 0\nl 1\nn 1 0 2\nl 0\nl 2\n") ≡ Err (at_certificate_line BadNode 7) }
    ensures another_letter { format_reading (head ++ codes "n 2 0\nn 1 0 1\nx 0\nl 1\nn 1 0 2\nl 0\nl 2\n")
        ≡ Err (at_certificate_line BadNode 8) }
    ensures a_capital_letter { format_reading (head ++ codes "n 2 0\nn 1 0 1\nL 0\nl 1\nn 1 0 2\nl 0\nl 2\n")
        ≡ Err (at_certificate_line BadNode 8) }
    ensures a_leaf_without_a_number { format_reading (head ++ codes "n 2 0\nn 1 0 1\nl\nl 1\nn 1 0 2\nl 0\nl 2\n")
        ≡ Err (at_certificate_line BadNode 8) }
    ensures a_leaf_with_two_numbers { format_reading (head ++ codes "n 2 0\nn 1 0 1\nl 0 0\nl 1\nn 1 0 2\nl 0\nl 2\n")
        ≡ Err (at_certificate_line BadNode 8) }
    ensures a_blank_at_the_end { format_reading (head ++ codes "n 2 0\nn 1 0 1\nl 0 \nl 1\nn 1 0 2\nl 0\nl 2\n")
        ≡ Err (at_certificate_line BadNode 8) }
    ensures a_blank_before { format_reading (head ++ codes "n 2 0\nn 1 0 1\n l 0\nl 1\nn 1 0 2\nl 0\nl 2\n")
        ≡ Err (at_certificate_line BadNode 8) }
    ensures a_tab { format_reading (head ++ codes "n 2 0\nn 1 0 1\nl\t0\nl 1\nn 1 0 2\nl 0\nl 2\n")
        ≡ Err (at_certificate_line BadNode 8) }
    ensures a_node_without_a_cost { format_reading (head ++ codes "n\nn 1 0 1\nl 0\nl 1\nn 1 0 2\nl 0\nl 2\n")
        ≡ Err (at_certificate_line BadNode 6) }
    ensures a_leading_zero_of_a_cost { format_reading (head ++ codes "n 02 0\nn 1 0 1\nl 0\nl 1\nn 1 0 2\nl 0\nl 2\n")
        ≡ Err (at_certificate_line BadNode 6) }
    ensures a_negative_cost { format_reading (head ++ codes "n -1 0\nn 1 0 1\nl 0\nl 1\nn 1 0 2\nl 0\nl 2\n")
        ≡ Err (at_certificate_line BadNode 6) }
    ensures an_empty_line { format_reading (head ++ codes "n 2 0\nn 1 0 1\n\nl 1\nn 1 0 2\nl 0\nl 2\n")
        ≡ Err (at_certificate_line BadNode 8) }
    ensures a_carriage_return { format_reading (head ++ codes "n 2 0\nn 1 0 1\nl 0\nl 1\nn 1 0 2\nl 0\nl 2\r\n")
        ≡ Err (at_certificate_line BadNode 12) }
    ensures no_labels { format_reading (codes "flowlabel-cert 1 ipv4 0\nl 0\n") ≡ Err (at_certificate_line BadNode 2) }
    ensures a_set_that_descends_from_2 { format_reading (codes "flowlabel-cert 1 ipv4 3\nA\nB\nC\nn 1 2 1\nl 0\nl 1\n")
        ≡ Err (at_certificate_line BadNode 5) }
{}

/// The line of a chain is malformed, or the format has no chains.
pub fn c3_bad_chain()
    ensures a_chain_in_format_1 { format_reading
        (codes "flowlabel-cert 1 ipv4 2\nD\nX\nc 1 11111111111111111111111111111111 0 0\nl 1\n")
        ≡ Err (at_certificate_line BadNode 4) }
    ensures a_chain_of_33_digits { format_reading
        (codes "flowlabel-cert 2 ipv4 2\nD\nX\nc 1 111111111111111111111111111111111 0 0\nl 1\n")
        ≡ Err (at_certificate_line BadNode 4) }
    ensures the_digit_2 { format_reading (codes "flowlabel-cert 2 ipv4 1\nA\nc 0 12 0 0\nl 0\n")
        ≡ Err (at_certificate_line BadNode 3) }
    ensures no_digits { format_reading (codes "flowlabel-cert 2 ipv4 1\nA\nc 0  0 0\nl 0\n")
        ≡ Err (at_certificate_line BadNode 3) }
    ensures a_side_above_the_labels { format_reading (codes "flowlabel-cert 2 ipv4 1\nA\nc 0 1 1 0\nl 0\n")
        ≡ Err (at_certificate_line BadNode 3) }
    ensures a_chain_without_a_side { format_reading (codes "flowlabel-cert 2 ipv4 1\nA\nc 0 1\nl 0\n")
        ≡ Err (at_certificate_line BadNode 3) }
    ensures a_chain_of_129_digits { format_reading
        (codes "flowlabel-cert 2 ipv6 1\nA\nc 0 " ++ replicate 129 49 ++ codes " 0 0\nl 0\n")
        ≡ Err (at_certificate_line BadNode 3) }
    ensures format_1_has_no_chain_of_one_digit { format_reading (codes "flowlabel-cert 1 ipv4 1\nA\nc 0 1 0 0\nl 0\n")
        ≡ Err (at_certificate_line BadNode 3) }
    ensures a_cost_of_a_chain_that_is_too_large { format_reading
        (codes "flowlabel-cert 2 ipv4 1\nA\nc 4294967296 1 0 0\nl 0\n") ≡ Err (at_certificate_line BadNode 3) }
    ensures a_set_that_descends { format_reading (codes "flowlabel-cert 2 ipv4 3\nA\nB\nC\nc 1 11 0 2 1\nl 1\n")
        ≡ Err (at_certificate_line BadNode 5) }
    ensures a_label_of_a_set_that_is_missing { format_reading (codes "flowlabel-cert 2 ipv4 1\nA\nc 1 11 0 1\nl 0\n")
        ≡ Err (at_certificate_line BadNode 3) }
{}

/// An inner node, or a digit of a well-formed chain, halves a block of one address.
pub fn c4_too_deep()
    ensures the_33rd_node { format_reading (codes "flowlabel-cert 1 ipv4 1\nA\n" ++ lines 33 (codes "n 0\n"))
        ≡ Err (at_certificate_line TooDeep 35) }
    ensures the_129th_node_of_ipv6 { format_reading (codes "flowlabel-cert 1 ipv6 1\nA\n" ++ lines 129 (codes "n 0\n"))
        ≡ Err (at_certificate_line TooDeep 131) }
    ensures a_node_above_a_chain_of_32_digits { format_reading
        (codes "flowlabel-cert 2 ipv4 1\nA\nn 0 0\nc 0 11111111111111111111111111111111 0 0\nl 0\nl 0\n")
        ≡ Err (at_certificate_line TooDeep 4) }
    ensures a_node_below_a_chain_of_32_digits { format_reading
        (codes "flowlabel-cert 2 ipv4 1\nA\nc 0 11111111111111111111111111111111 0 0\nn 0 0\nl 0\nl 0\n")
        ≡ Err (at_certificate_line TooDeep 4) }
    ensures a_chain_below_a_chain { format_reading
        (codes "flowlabel-cert 2 ipv4 1\nA\nc 0 1111111111111111 0 0\nc 0 11111111111111111 0 0\nl 0\n")
        ≡ Err (at_certificate_line TooDeep 4) }
    ensures in_an_upper_half { format_reading
        (codes "flowlabel-cert 1 ipv4 1\nA\n" ++ lines 33 (codes "n 0\n") ++ codes "x")
        ≡ Err (at_certificate_line TooDeep 35) }
{}

/// The text ends before the last node.
pub fn c5_nodes_missing()
    ensures without_the_last_line { format_reading (head ++ codes "n 2 0\nn 1 0 1\nl 0\nl 1\nn 1 0 2\nl 0\n")
        ≡ Err (at_certificate_line NodesMissing 12) }
    ensures the_count_0 { format_reading (codes "flowlabel-cert 1 ipv4 0\n")
        ≡ Err (at_certificate_line NodesMissing 2) }
    ensures no_node { format_reading (head) ≡ Err (at_certificate_line NodesMissing 6) }
    ensures a_root_alone { format_reading (codes "flowlabel-cert 1 ipv4 1\nA\nn 0 0\n")
        ≡ Err (at_certificate_line NodesMissing 4) }
    ensures no_upper_half { format_reading (codes "flowlabel-cert 1 ipv4 1\nA\nn 0 0\nl 0\n")
        ≡ Err (at_certificate_line NodesMissing 5) }
    ensures no_end_of_a_chain { format_reading (codes "flowlabel-cert 2 ipv4 1\nA\nc 0 11 0 0\n")
        ≡ Err (at_certificate_line NodesMissing 4) }
{}

/// Something follows the last node, well formed or not.
pub fn c6_nodes_left()
    ensures a_leaf { format_reading (quarters ++ codes "l 2\n") ≡ Err (at_certificate_line NodesLeft 13) }
    ensures an_empty_line { format_reading (quarters ++ codes "\n") ≡ Err (at_certificate_line NodesLeft 13) }
    ensures a_letter_without_a_line_feed { format_reading (quarters ++ codes "x")
        ≡ Err (at_certificate_line NodesLeft 13) }
    ensures a_second_leaf { format_reading (codes "flowlabel-cert 1 ipv4 1\nA\nl 0\nl 0\n")
        ≡ Err (at_certificate_line NodesLeft 4) }
    ensures two_certificates { format_reading (quarters ++ quarters) ≡ Err (at_certificate_line NodesLeft 13) }
    ensures a_node_after_a_chain { format_reading (codes "flowlabel-cert 2 ipv4 1\nA\nc 0 11 0 0\nl 0\nl 0\n")
        ≡ Err (at_certificate_line NodesLeft 5) }
{}

/// Reading stops at the first faulty line. If a line has several faults, the first in the table is reported.
pub fn the_first_fault_is_reported()
    ensures a_header_before_a_label { format_reading (codes "flowlabel-cert 3 ipv4 1\n A\nl 0\n")
        ≡ Err (at_certificate_line BadHeader 1) }
    ensures a_label_before_a_node { format_reading (codes "flowlabel-cert 1 ipv4 1\n A\nl 9\n")
        ≡ Err (at_certificate_line BadLabelTable 2) }
    ensures a_node_before_what_is_left { format_reading (codes "flowlabel-cert 1 ipv4 1\nA\nl 9\nl 0\n")
        ≡ Err (at_certificate_line BadNode 3) }
    ensures a_malformed_node_that_is_too_deep { format_reading
        (codes "flowlabel-cert 1 ipv4 1\nA\n" ++ lines 32 (codes "n 0\n") ++ codes "n 0 9\n")
        ≡ Err (at_certificate_line BadNode 35) }
    ensures a_chain_of_too_many_digits_below_a_node { format_reading
        (codes "flowlabel-cert 2 ipv4 1\nA\nn 0 0\nc 0 111111111111111111111111111111111 0 0\nl 0\n")
        ≡ Err (at_certificate_line BadNode 4) }
    ensures the_lower_half_before_the_upper { format_reading (codes "flowlabel-cert 1 ipv4 1\nA\nn 0 0\nl 8\nl 9\n")
        ≡ Err (at_certificate_line BadNode 4) }
{}
