//! The faults of maps and lists, each with its line: FORMATS.md, "Faults of maps and lists".

ghost use Rattle.definition_examples.specs.Maps.{at_line};
ghost use Rattle.pmap_text.specs.Reading.{list_reading, map_reading};
ghost use Rattle.pmap_text.specs.declared.fault.MapFaultKind.TheVariants.{BadAddress, BadLabel, BadLength, BadMode};
ghost use Rattle.pmap_text.specs.declared.fault.MapFaultKind.TheVariants.{BadStatement, DuplicateBlock, LabelConflict};
ghost use Rattle.pmap_text.specs.declared.fault.MapFaultKind.TheVariants.{LowAboveHigh, MissingLabel, ModeLate};
ghost use Rattle.pmap_text.specs.declared.fault.MapFaultKind.TheVariants.{ModeRepeated, NotAList, WrongVersion};
ghost use Rattle.std.specs.Prelude.{◌≡◌, ◌++◌, ◌∷◌, [], codes, Err, replicate};

/// The first word is unknown, or the number after `label` is missing or malformed.
pub fn m1_bad_statement()
    ensures an_unknown_word { map_reading (codes "colour red") ≡ Err (at_line BadStatement 1) }
    ensures a_malformed_number { map_reading (codes "label x red") ≡ Err (at_line BadStatement 1) }
    ensures a_number_that_is_too_large { map_reading (codes "label 2147483648 red") ≡ Err (at_line BadStatement 1) }
    ensures a_capital_letter { map_reading (codes "Default red") ≡ Err (at_line BadStatement 1) }
    ensures a_header { map_reading (codes "network,label\n10.0.0.0/8 A\n") ≡ Err (at_line BadStatement 1) }
    ensures a_missing_number { map_reading (codes "label\n") ≡ Err (at_line BadStatement 1) }
    ensures a_number_of_eleven_digits { map_reading (codes "label 00000000005 red\n") ≡ Err (at_line BadStatement 1) }
    ensures a_negative_number { map_reading (codes "label -5 red\n") ≡ Err (at_line BadStatement 1) }
    ensures in_the_third_line { map_reading (codes "# first\n\nlocalhost A\n10.0.0.0/8 A\n")
        ≡ Err (at_line BadStatement 3) }
    ensures a_word_that_begins_with_a_keyword { map_reading (codes "map-names A\n") ≡ Err (at_line BadStatement 1) }
    ensures a_no_break_space { map_reading (codes "mode" ++ 194 ∷ 160 ∷ codes "ipv4") ≡ Err (at_line BadStatement 1) }
    ensures a_byte_order_mark { map_reading (239 ∷ 187 ∷ 191 ∷ codes "mode ipv4") ≡ Err (at_line BadStatement 1) }
    ensures a_letter_in_hexadecimal { map_reading (codes "dead A\n") ≡ Err (at_line BadStatement 1) }
{}

/// The line begins with a malformed address, alone or in a block. A first word that begins with a digit or contains a
/// `:` is taken for an address.
pub fn m2_bad_address()
    ensures a_truncated_block { map_reading (codes "10.0.0/8 A") ≡ Err (at_line BadAddress 1) }
    ensures a_truncated_address { map_reading (codes "10.0.0 A") ≡ Err (at_line BadAddress 1) }
    ensures a_word_that_begins_with_a_digit { map_reading (codes "7up A") ≡ Err (at_line BadAddress 1) }
    ensures two_gaps { map_reading (codes "1::2::3 A") ≡ Err (at_line BadAddress 1) }
    ensures a_comma { map_reading (codes "10.0.0.1,A") ≡ Err (at_line BadAddress 1) }
    ensures a_number_above_255 { map_reading (codes "256.0.0.1 A") ≡ Err (at_line BadAddress 1) }
    ensures a_range_in_one_word { map_reading (codes "10.0.0.0-10.0.0.255 A") ≡ Err (at_line BadAddress 1) }
    ensures a_zone { map_reading (codes "fe80::1%eth0 A") ≡ Err (at_line BadAddress 1) }
    ensures a_whole_number { map_reading (codes "167772161 A") ≡ Err (at_line BadAddress 1) }
    ensures a_word_with_a_slash { map_reading (codes "x/8 A") ≡ Err (at_line BadAddress 1) }
    ensures a_word_with_a_colon { map_reading (codes "x: A") ≡ Err (at_line BadAddress 1) }
    ensures in_the_second_line { map_reading (codes "10.0.0.0/8 A\n10.0.0 B\n10.1 C\n") ≡ Err (at_line BadAddress 2) }
    ensures a_slash_alone { map_reading (codes "/ A") ≡ Err (at_line BadAddress 1) }
    ensures a_colon_alone { map_reading (codes "A:B C") ≡ Err (at_line BadAddress 1) }
    ensures in_a_list { list_reading (codes "10.0.0 A\n") ≡ Err (at_line BadAddress 1) }
{}

/// The prefix length is missing, malformed or too large.
pub fn m3_bad_length()
    ensures above_32 { map_reading (codes "10.0.0.0/33 A") ≡ Err (at_line BadLength 1) }
    ensures missing { map_reading (codes "10.0.0.0/ A") ≡ Err (at_line BadLength 1) }
    ensures above_128 { map_reading (codes "::/129 A") ≡ Err (at_line BadLength 1) }
    ensures a_comma { map_reading (codes "10.0.0.0/8,Alder") ≡ Err (at_line BadLength 1) }
    ensures a_netmask { map_reading (codes "10.0.0.0/255.0.0.0 A") ≡ Err (at_line BadLength 1) }
    ensures a_blank_after_the_slash { map_reading (codes "10.0.0.0/ 8 A") ≡ Err (at_line BadLength 1) }
    ensures in_an_ipv6_map { map_reading (codes "mode ipv6\n10.0.0.0/33 A\n") ≡ Err (at_line BadLength 2) }
    ensures of_four_digits { map_reading (codes "10.0.0.0/0008 A\n") ≡ Err (at_line BadLength 1) }
    ensures in_a_list { list_reading (codes "10.0.0.0/33 A\n") ≡ Err (at_line BadLength 1) }
    ensures a_form_feed_is_no_blank { map_reading (codes "10.0.0.0/8" ++ 12 ∷ codes "A\n") ≡ Err (at_line BadLength 1) }
{}

/// The first address of a range is above the second.
pub fn m4_low_above_high()
    ensures of_the_table { map_reading (codes "10.0.0.9 10.0.0.2 A") ≡ Err (at_line LowAboveHigh 1) }
    ensures a_wildcard_mask { map_reading (codes "10.0.0.0 0.255.255.255 A") ≡ Err (at_line LowAboveHigh 1) }
    ensures by_one { map_reading (codes "10.0.0.2 10.0.0.1 A\n") ≡ Err (at_line LowAboveHigh 1) }
    ensures of_ipv6 { map_reading (codes "2001:db8::2 2001:db8::1 A\n") ≡ Err (at_line LowAboveHigh 1) }
    ensures of_both_versions { map_reading (codes "mode ipv6\n2001:db8:: 10.0.0.1 A\n") ≡ Err (at_line LowAboveHigh 2) }
{}

/// An IPv6 address in an IPv4 map or list.
pub fn m5_wrong_version()
    ensures a_block { map_reading (codes "mode ipv4\n2001:db8::/32 A") ≡ Err (at_line WrongVersion 2) }
    ensures after_an_ipv4_mapping { map_reading (codes "10.0.0.1 A\n::ffff:10.0.0.1 B\n")
        ≡ Err (at_line WrongVersion 2) }
    ensures the_second_of_a_range { map_reading (codes "10.0.0.1 ::1 A\n") ≡ Err (at_line WrongVersion 1) }
    ensures the_first_of_a_range { map_reading (codes "mode ip\n::1 10.0.0.1 A\n") ≡ Err (at_line WrongVersion 2) }
    ensures an_address { map_reading (codes "mode ipv4\n::1 A\n") ≡ Err (at_line WrongVersion 2) }
    ensures in_a_list { list_reading (codes "10.0.0.1 A\n::1 B\n") ≡ Err (at_line WrongVersion 2) }
{}

/// The label or name is missing.
pub fn m6_missing_label()
    ensures of_a_block { map_reading (codes "10.0.0.0/8") ≡ Err (at_line MissingLabel 1) }
    ensures of_a_default { map_reading (codes "default # none") ≡ Err (at_line MissingLabel 1) }
    ensures of_a_label_line { map_reading (codes "label 5") ≡ Err (at_line MissingLabel 1) }
    ensures of_a_range { map_reading (codes "10.0.0.1 10.0.0.2") ≡ Err (at_line MissingLabel 1) }
    ensures of_an_address { map_reading (codes "10.0.0.1 \t\n") ≡ Err (at_line MissingLabel 1) }
    ensures of_a_name { map_reading (codes "map-name\n") ≡ Err (at_line MissingLabel 1) }
    ensures a_label_that_begins_with_a_comment { map_reading (codes "10.0.0.0/8 #1\n") ≡ Err (at_line MissingLabel 1) }
    ensures in_a_list { list_reading (codes "10.0.0.0/8\n") ≡ Err (at_line MissingLabel 1) }
{}

/// The label or name is malformed, or the `TEXT` of a `label` line consists of digits only.
pub fn m7_bad_label()
    ensures the_byte_1 { map_reading (codes "10.0.0.0/8 " ++ 1 ∷ []) ≡ Err (at_line BadLabel 1) }
    ensures of_256_letters { map_reading (codes "10.0.0.0/8 " ++ replicate 256 120) ≡ Err (at_line BadLabel 1) }
    ensures of_digits { map_reading (codes "label 5 7") ≡ Err (at_line BadLabel 1) }
    ensures a_carriage_return { map_reading (codes "10.0.0.0/8 A\rB") ≡ Err (at_line BadLabel 1) }
    ensures the_byte_127 { map_reading (codes "10.0.0.0/8 " ++ 127 ∷ []) ≡ Err (at_line BadLabel 1) }
    ensures the_byte_31 { map_reading (codes "10.0.0.0/8 A" ++ 31 ∷ []) ≡ Err (at_line BadLabel 1) }
    ensures the_byte_0 { map_reading (codes "10.0.0.0/8 A" ++ 0 ∷ []) ≡ Err (at_line BadLabel 1) }
    ensures of_a_default { map_reading (codes "default A" ++ 1 ∷ []) ≡ Err (at_line BadLabel 1) }
    ensures of_a_name { map_reading (codes "map-name A" ++ 1 ∷ []) ≡ Err (at_line BadLabel 1) }
    ensures of_a_range { map_reading (codes "10.0.0.0 10.0.0.1 A" ++ 11 ∷ []) ≡ Err (at_line BadLabel 1) }
    ensures lines_that_end_with_a_carriage_return { map_reading (codes "10.0.0.0/8 A\r10.1.0.0/16 B\r")
        ≡ Err (at_line BadLabel 1) }
    ensures a_declared_text_of_eleven_digits { map_reading (codes "label 5 12345678901\n") ≡ Err (at_line BadLabel 1) }
{}

/// A number has two labels, or a label two numbers.
pub fn m8_label_conflict()
    ensures two_numbers { map_reading (codes "label 5 red\nlabel 6 red\n") ≡ Err (at_line LabelConflict 2) }
    ensures two_labels { map_reading (codes "label 5 red\nlabel 5 blue\n") ≡ Err (at_line LabelConflict 2) }
    ensures the_number_with_a_zero { map_reading (codes "label 5 red\nlabel 05 blue\n")
        ≡ Err (at_line LabelConflict 2) }
    ensures two_lines_between { map_reading (codes "label 5 red\nlabel 6 blue\n10.0.0.0/8 5\nlabel 7 red\n")
        ≡ Err (at_line LabelConflict 4) }
{}

/// `mode` is not followed by exactly `ipv4`, `ip` or `ipv6`.
pub fn m9_bad_mode()
    ensures a_second_word { map_reading (codes "mode ipv4 x") ≡ Err (at_line BadMode 1) }
    ensures ports { map_reading (codes "mode proto-port") ≡ Err (at_line BadMode 1) }
    ensures a_capital_letter { map_reading (codes "mode IPv4") ≡ Err (at_line BadMode 1) }
    ensures nothing { map_reading (codes "mode") ≡ Err (at_line BadMode 1) }
    ensures another_version { map_reading (codes "mode ipv5") ≡ Err (at_line BadMode 1) }
    ensures in_a_list { list_reading (codes "mode 4") ≡ Err (at_line BadMode 1) }
{}

/// A `mode` line comes after a mapping.
pub fn m10_mode_late()
    ensures after_a_block { map_reading (codes "10.0.0.0/8 A\nmode ipv4") ≡ Err (at_line ModeLate 2) }
    ensures after_an_address { map_reading (codes "10.0.0.1 A\nmode ipv4\n") ≡ Err (at_line ModeLate 2) }
    ensures after_a_range { map_reading (codes "10.0.0.1 10.0.0.2 A\n\nmode ipv4\n") ≡ Err (at_line ModeLate 3) }
    ensures a_second_one { map_reading (codes "mode ipv4\n10.0.0.1 A\nmode ipv4\n") ≡ Err (at_line ModeLate 3) }
    ensures in_a_list { list_reading (codes "10.0.0.0/8 A\nmode ipv4\n") ≡ Err (at_line ModeLate 2) }
{}

/// A second `mode` line.
pub fn m11_mode_repeated()
    ensures the_other_word { map_reading (codes "mode ipv4\nmode ip") ≡ Err (at_line ModeRepeated 2) }
    ensures the_same_word { map_reading (codes "mode ipv6\nmode ipv6\n") ≡ Err (at_line ModeRepeated 2) }
    ensures lines_between { map_reading (codes "mode ipv4\nlabel 5 red\ndefault 5\nmode ipv6\n")
        ≡ Err (at_line ModeRepeated 4) }
    ensures in_a_list { list_reading (codes "mode ipv6\n\nmode ip\n") ≡ Err (at_line ModeRepeated 3) }
{}

/// A list has a range or a `default` line.
pub fn m13_not_a_list()
    ensures a_range { list_reading (codes "10.0.0.1 10.0.0.2 A") ≡ Err (at_line NotAList 1) }
    ensures a_default { list_reading (codes "default A") ≡ Err (at_line NotAList 1) }
    ensures in_the_second_line { list_reading (codes "10.0.0.0/8 A\ndefault B\n") ≡ Err (at_line NotAList 2) }
    ensures a_range_without_a_label { list_reading (codes "10.0.0.1 10.0.0.2\n") ≡ Err (at_line NotAList 1) }
{}

/// A list has this block already.
pub fn m14_duplicate_block()
    ensures host_bits { list_reading (codes "1.0.0.0/8 A\n1.2.3.4/8 B") ≡ Err (at_line DuplicateBlock 2) }
    ensures an_address_and_its_block { list_reading (codes "10.0.0.1 A\n10.0.0.1/32 B")
        ≡ Err (at_line DuplicateBlock 2) }
    ensures converted { list_reading (codes "mode ipv6\n10.0.0.0/8 A\n::ffff:10.0.0.0/104 B")
        ≡ Err (at_line DuplicateBlock 3) }
    ensures the_same_line_again { list_reading (codes "10.0.0.0/8 A\n10.0.0.0/8 A\n") ≡ Err (at_line DuplicateBlock 2) }
    ensures the_first_of_three { list_reading (codes "10.0.0.0/8 A\n11.0.0.0/8 A\n12.0.0.0/8 A\n10.0.0.0/8 B\n")
        ≡ Err (at_line DuplicateBlock 4) }
{}

/// FORMATS.md: the order for each statement, below the table.
pub fn the_first_fault_of_a_line_is_reported()
    ensures a_late_mode_is_malformed { map_reading (codes "10.0.0.0/8 A\nmode x\n") ≡ Err (at_line BadMode 2) }
    ensures a_late_mode_is_repeated { map_reading (codes "mode ip\n10.0.0.0/8 A\nmode ip\n")
        ≡ Err (at_line ModeLate 3) }
    ensures a_malformed_number_without_a_label { map_reading (codes "label x\n") ≡ Err (at_line BadStatement 1) }
    ensures digits_that_conflict { map_reading (codes "label 5 red\nlabel 5 7\n") ≡ Err (at_line BadLabel 2) }
    ensures a_default_in_a_list_without_a_label { list_reading (codes "default\n") ≡ Err (at_line NotAList 1) }
    ensures a_malformed_address_with_a_malformed_length { map_reading (codes "10.0.0/33 A\n")
        ≡ Err (at_line BadAddress 1) }
    ensures a_malformed_length_in_the_wrong_version { map_reading (codes "mode ipv4\n::/129 A\n")
        ≡ Err (at_line BadLength 2) }
    ensures the_wrong_version_without_a_label { map_reading (codes "mode ipv4\n::/8\n") ≡ Err (at_line WrongVersion 2) }
    ensures a_known_block_without_a_label { list_reading (codes "10.0.0.0/8 A\n10.0.0.0/8\n")
        ≡ Err (at_line MissingLabel 2) }
    ensures a_known_block_with_a_malformed_label { list_reading (codes "10.0.0.0/8 A\n10.0.0.0/8 A\rB\n")
        ≡ Err (at_line BadLabel 2) }
    ensures a_range_in_the_wrong_version { map_reading (codes "mode ipv4\n::9 ::2 A\n") ≡ Err (at_line WrongVersion 2) }
    ensures a_range_in_the_wrong_order_without_a_label { map_reading (codes "10.0.0.9 10.0.0.2\n")
        ≡ Err (at_line LowAboveHigh 1) }
    ensures a_range_in_a_list_in_the_wrong_version { list_reading (codes "mode ipv4\n::1 ::2 A\n")
        ≡ Err (at_line NotAList 2) }
    ensures an_address_in_the_wrong_version_without_a_label { map_reading (codes "mode ipv4\n::1\n")
        ≡ Err (at_line WrongVersion 2) }
    ensures a_missing_name_before_a_malformed_one { map_reading (codes "map-name # " ++ 1 ∷ [])
        ≡ Err (at_line MissingLabel 1) }
{}

/// Reading stops at the first faulty line. Lines are counted from 1.
pub fn the_first_faulty_line_is_reported()
    ensures of_two { map_reading (codes "colour red\n10.0.0 A\n") ≡ Err (at_line BadStatement 1) }
    ensures of_two_the_other_way_round { map_reading (codes "10.0.0 A\ncolour red\n") ≡ Err (at_line BadAddress 1) }
    ensures after_blank_lines_and_comments { map_reading (codes "\n# x\n \n10.0.0.0/33 A\n")
        ≡ Err (at_line BadLength 4) }
    ensures a_last_line_without_a_line_feed { map_reading (codes "10.0.0.0/8 A\n10.1.0.0/16")
        ≡ Err (at_line MissingLabel 2) }
    ensures the_tenth { map_reading (codes "\n\n\n\n\n\n\n\n\nmode\n") ≡ Err (at_line BadMode 10) }
{}
