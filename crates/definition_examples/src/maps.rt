//! Maps: how the lines of a text are read, and the label of an address under the map.

ghost use Rattle.definition_examples.specs.Maps.{of_map, offices, under_map, label_at};
ghost use Rattle.label_lookup.specs.Labelling.{labelling};
ghost use Rattle.pmap_text.specs.Declarations.{with_declared};
ghost use Rattle.prefix_keys.specs.declared.version.Version.TheVariants.{V4, V6};
ghost use Rattle.std.specs.Prelude.{◌≡◌, ◌++◌, ◌∷◌, [], codes, None, Ok, replicate, Some};

/// FORMATS.md, "Map texts": the first example, and what the page says of it.
pub fn the_map_of_the_page()
    ensures the_part { under_map offices (codes "10.1.2.3") ≡ Ok (Some (codes "Guest network")) }
    ensures the_block { under_map offices (codes "10.2.2.3") ≡ Ok (Some (codes "Inside")) }
    ensures the_address { under_map offices (codes "192.0.2.9") ≡ Ok (Some (codes "Gateway")) }
    ensures the_end_of_the_range { under_map offices (codes "198.51.100.99") ≡ Ok (Some (codes "Inside")) }
    ensures the_default { under_map offices (codes "11.0.0.1") ≡ Ok (Some (codes "elsewhere")) }
    ensures the_start_of_the_range { under_map offices (codes "198.51.100.0") ≡ Ok (Some (codes "Inside")) }
    ensures before_the_range { under_map offices (codes "198.51.99.255") ≡ Ok (Some (codes "elsewhere")) }
    ensures after_the_range { under_map offices (codes "198.51.100.100") ≡ Ok (Some (codes "elsewhere")) }
    ensures beside_the_address { under_map offices (codes "192.0.2.10") ≡ Ok (Some (codes "elsewhere")) }
    ensures after_the_part { under_map offices (codes "10.2.0.0") ≡ Ok (Some (codes "Inside")) }
    ensures before_the_part { under_map offices (codes "10.0.255.255") ≡ Ok (Some (codes "Inside")) }
    ensures its_name { of_map (λ m. m.name) offices ≡ Ok (Some (codes "offices")) }
    ensures its_version { of_map (λ m. m.version) offices ≡ Ok V4 }
    ensures its_default { of_map (λ m. m.fallback) offices ≡ Ok (codes "elsewhere") }
    ensures its_labels { of_map (λ m. m.table) offices
        ≡ Ok (codes "elsewhere" ∷ codes "Guest network" ∷ codes "Inside" ∷ codes "Gateway" ∷ []) }
{}

/// FORMATS.md, "Lines".
pub fn lines_end_with_a_line_feed()
    ensures the_last_line_may_lack_it { under_map (codes "10.0.0.0/8 A\n10.1.0.0/16 B") (codes "10.1.0.0")
        ≡ Ok (Some (codes "B")) }
    ensures carriage_returns_are_blanks { under_map (codes "10.0.0.0/8 A\r\n10.1.0.0/16 B\r\n") (codes "10.0.0.0")
        ≡ Ok (Some (codes "A")) }
    ensures tabs_are_blanks { under_map (codes "\t10.0.0.0/8\t\tA\t\n") (codes "10.0.0.0") ≡ Ok (Some (codes "A")) }
    ensures blanks_before_a_line { under_map (codes "   10.0.0.0/8 A\n") (codes "10.0.0.0") ≡ Ok (Some (codes "A")) }
    ensures a_comment { under_map (codes "10.0.0.0/8 A # not B\n") (codes "10.0.0.0") ≡ Ok (Some (codes "A")) }
    ensures a_comment_beside_the_label { under_map (codes "10.0.0.0/8 A#B\n") (codes "10.0.0.0")
        ≡ Ok (Some (codes "A")) }
    ensures a_second_comment { under_map (codes "10.0.0.0/8 A # B # C\n") (codes "10.0.0.0") ≡ Ok (Some (codes "A")) }
    ensures a_statement_in_a_comment { under_map (codes "10.0.0.0/8 A\n# 10.0.0.0/8 B\n") (codes "10.0.0.0")
        ≡ Ok (Some (codes "A")) }
    ensures blank_lines { under_map (codes "\n \t\r\n10.0.0.0/8 A\n\n") (codes "10.0.0.0") ≡ Ok (Some (codes "A")) }
    ensures an_empty_text { under_map (codes "") (codes "10.0.0.0") ≡ Ok (Some (codes "UNKNOWN")) }
    ensures a_line_feed_alone { under_map (codes "\n") (codes "10.0.0.0") ≡ Ok (Some (codes "UNKNOWN")) }
{}

/// FORMATS.md, "Statements": the rows of the table.
pub fn each_statement_has_its_meaning()
    ensures the_last_name_counts { of_map (λ m. m.name) (codes "map-name a\nmap-name b\n") ≡ Ok (Some (codes "b")) }
    ensures a_name_has_blanks { of_map (λ m. m.name) (codes "map-name  the head office \n")
        ≡ Ok (Some (codes "the head office")) }
    ensures no_name { of_map (λ m. m.name) (codes "10.0.0.0/8 A\n") ≡ Ok None }
    ensures mode_ipv4 { of_map (λ m. m.version) (codes "mode ipv4\n") ≡ Ok V4 }
    ensures mode_ip { of_map (λ m. m.version) (codes "mode ip\n") ≡ Ok V4 }
    ensures mode_ipv6 { of_map (λ m. m.version) (codes "mode ipv6\n") ≡ Ok V6 }
    ensures the_last_default_counts { under_map (codes "default A\ndefault B\n") (codes "10.0.0.0")
        ≡ Ok (Some (codes "B")) }
    ensures a_default_may_come_last { under_map (codes "10.0.0.0/8 A\ndefault B\n") (codes "11.0.0.0")
        ≡ Ok (Some (codes "B")) }
    ensures a_default_covers_nothing { under_map (codes "10.0.0.0/8 A\ndefault B\n") (codes "10.0.0.0")
        ≡ Ok (Some (codes "A")) }
    ensures without_a_default { under_map (codes "10.0.0.0/8 A\n") (codes "11.0.0.0") ≡ Ok (Some (codes "UNKNOWN")) }
    ensures a_block { of_map (λ m. m.mappings) (codes "10.1.2.3/8 A\n")
        ≡ Ok (record { low = 0x0a00_0000; high = 0x0aff_ffff; label = codes "A" } ∷ []) }
    ensures a_range { of_map (λ m. m.mappings) (codes "10.0.0.1 10.0.0.9 A\n")
        ≡ Ok (record { low = 0x0a00_0001; high = 0x0a00_0009; label = codes "A" } ∷ []) }
    ensures a_range_of_one_address { of_map (λ m. m.mappings) (codes "10.0.0.1 10.0.0.1 A\n")
        ≡ Ok (record { low = 0x0a00_0001; high = 0x0a00_0001; label = codes "A" } ∷ []) }
    ensures an_address { of_map (λ m. m.mappings) (codes "10.0.0.1 A\n")
        ≡ Ok (record { low = 0x0a00_0001; high = 0x0a00_0001; label = codes "A" } ∷ []) }
    ensures all_addresses { of_map (λ m. m.mappings) (codes "0.0.0.0/0 A\n")
        ≡ Ok (record { low = 0x0000; high = 0xffff_ffff; label = codes "A" } ∷ []) }
    ensures all_ipv6_addresses { of_map (λ m. m.mappings) (codes "::/0 A\n")
        ≡ Ok (record { low = 0x0000; high = 0xffff_ffff_ffff_ffff_ffff_ffff_ffff_ffff; label = codes "A" } ∷ []) }
    ensures a_block_of_one_address { of_map (λ m. m.mappings) (codes "2001:db8::1/128 A\n")
        ≡ Ok (record {
          low = 0x2001_0db8_0000_0000_0000_0000_0000_0001;
          high = 0x2001_0db8_0000_0000_0000_0000_0000_0001;
          label = codes "A";
        }
        ∷ []) }
    ensures in_the_order_of_lines { of_map (λ m. m.mappings) (codes "10.0.0.1 A\n10.0.0.0 B\n")
        ≡ Ok
        (record { low = 0x0a00_0001; high = 0x0a00_0001; label = codes "A" }
        ∷ record { low = 0x0a00_0000; high = 0x0a00_0000; label = codes "B" } ∷ []) }
{}

/// FORMATS.md, "Statements": the remarks below the table.
pub fn the_first_word_decides()
    ensures a_block_with_an_address_as_its_label { of_map (λ m. m.mappings) (codes "10.0.0.0/8 10.0.0.1\n")
        ≡ Ok (record { low = 0x0a00_0000; high = 0x0aff_ffff; label = codes "10.0.0.1" } ∷ []) }
    ensures a_netmask_is_the_end_of_a_range { of_map (λ m. m.mappings) (codes "10.0.0.0 255.0.0.0 DC\n")
        ≡ Ok (record { low = 0x0a00_0000; high = 0xff00_0000; label = codes "DC" } ∷ []) }
    ensures a_word_between_two_addresses { of_map (λ m. m.mappings) (codes "10.0.0.0 - 10.0.0.255 DE\n")
        ≡ Ok (record { low = 0x0a00_0000; high = 0x0a00_0000; label = codes "- 10.0.0.255 DE" } ∷ []) }
    ensures a_block_after_an_address { of_map (λ m. m.mappings) (codes "10.0.0.0 10.0.0.0/8 A\n")
        ≡ Ok (record { low = 0x0a00_0000; high = 0x0a00_0000; label = codes "10.0.0.0/8 A" } ∷ []) }
    ensures a_third_address { of_map (λ m. m.mappings) (codes "10.0.0.0 10.0.0.1 10.0.0.2\n")
        ≡ Ok (record { low = 0x0a00_0000; high = 0x0a00_0001; label = codes "10.0.0.2" } ∷ []) }
    ensures a_keyword_as_a_label { under_map (codes "default mode\n") (codes "10.0.0.0") ≡ Ok (Some (codes "mode")) }
    ensures leading_zeros { of_map (λ m. m.mappings) (codes "010.0.0.1 A\n")
        ≡ Ok (record { low = 0x0a00_0001; high = 0x0a00_0001; label = codes "A" } ∷ []) }
{}

/// FORMATS.md, "Statements": if several mappings cover an address, the last one counts, whatever their sizes.
pub fn the_last_mapping_counts()
    ensures the_smaller_one_later { under_map (codes "10.0.0.0/8 A\n10.1.0.0/16 B\n") (codes "10.1.1.1")
        ≡ Ok (Some (codes "B")) }
    ensures the_larger_one_later { under_map (codes "10.1.0.0/16 B\n10.0.0.0/8 A\n") (codes "10.1.1.1")
        ≡ Ok (Some (codes "A")) }
    ensures outside_the_later_one { under_map (codes "10.0.0.0/8 A\n10.1.0.0/16 B\n") (codes "10.2.1.1")
        ≡ Ok (Some (codes "A")) }
    ensures the_same_block_twice { under_map (codes "10.0.0.0/8 A\n10.0.0.0/8 B\n") (codes "10.1.1.1")
        ≡ Ok (Some (codes "B")) }
    ensures all_of_three { under_map (codes "10.0.0.0/8 A\n10.1.0.0/16 B\n10.1.1.0/24 C\n") (codes "10.1.1.1")
        ≡ Ok (Some (codes "C")) }
    ensures the_second_of_three { under_map (codes "10.0.0.0/8 A\n10.1.0.0/16 B\n10.1.1.0/24 C\n") (codes "10.1.2.1")
        ≡ Ok (Some (codes "B")) }
    ensures ranges_that_overlap { under_map (codes "10.0.0.1 10.0.0.5 A\n10.0.0.5 10.0.0.9 B\n") (codes "10.0.0.5")
        ≡ Ok (Some (codes "B")) }
    ensures before_the_overlap { under_map (codes "10.0.0.1 10.0.0.5 A\n10.0.0.5 10.0.0.9 B\n") (codes "10.0.0.4")
        ≡ Ok (Some (codes "A")) }
    ensures an_address_in_a_block { under_map (codes "10.0.0.0/8 A\n10.0.0.7 B\n") (codes "10.0.0.7")
        ≡ Ok (Some (codes "B")) }
    ensures beside_the_address { under_map (codes "10.0.0.0/8 A\n10.0.0.7 B\n") (codes "10.0.0.8")
        ≡ Ok (Some (codes "A")) }
{}

/// FORMATS.md, "Addresses and versions".
pub fn a_map_has_one_version()
    ensures the_first_mapping_decides { of_map (λ m. m.version) (codes "2001:db8::/32 A\n10.0.0.0/8 B\n") ≡ Ok V6 }
    ensures a_default_does_not_decide { of_map (λ m. m.version) (codes "default A\n2001:db8::1 B\n") ≡ Ok V6 }
    ensures without_mode_and_mappings { of_map (λ m. m.version) (codes "default A\n") ≡ Ok V4 }
    ensures mode_decides { of_map (λ m. m.version) (codes "mode ipv6\n10.0.0.0/8 A\n") ≡ Ok V6 }
    ensures the_first_address_of_a_range_decides { of_map (λ m. m.version) (codes "10.0.0.0 10.0.0.1 A\n") ≡ Ok V4 }
    ensures an_ipv4_address_in_an_ipv6_map { of_map (λ m. m.mappings) (codes "mode ipv6\n10.0.0.1 A\n")
        ≡ Ok (record { low = 0xffff_0a00_0001; high = 0xffff_0a00_0001; label = codes "A" } ∷ []) }
    ensures an_ipv4_block_in_an_ipv6_map { of_map (λ m. m.mappings) (codes "mode ipv6\n10.0.0.0/8 A\n")
        ≡ Ok (record { low = 0xffff_0a00_0000; high = 0xffff_0aff_ffff; label = codes "A" } ∷ []) }
    ensures all_ipv4_addresses_in_an_ipv6_map { of_map (λ m. m.mappings) (codes "mode ipv6\n0.0.0.0/0 A\n")
        ≡ Ok (record { low = 0xffff_0000_0000; high = 0xffff_ffff_ffff; label = codes "A" } ∷ []) }
    ensures a_range_of_both_versions { of_map (λ m. m.mappings) (codes "mode ipv6\n::1 10.0.0.1 A\n")
        ≡ Ok (record { low = 0x0001; high = 0xffff_0a00_0001; label = codes "A" } ∷ []) }
    ensures the_length_belongs_to_the_address_as_written { of_map (λ m. m.mappings) (codes "::ffff:10.0.0.0/8 A\n")
        ≡ Ok (record { low = 0x0000; high = 0x00ff_ffff_ffff_ffff_ffff_ffff_ffff_ffff; label = codes "A" } ∷ []) }
{}

/// FORMATS.md, "Addresses and versions": the last remark. Outside `::ffff:0:0/96` there is no label, not even the
/// default.
pub fn an_address_is_looked_up_in_the_version_of_the_map()
    ensures mapped_under_ipv4 { under_map (codes "10.0.0.0/8 A\n") (codes "::ffff:10.0.0.1") ≡ Ok (Some (codes "A")) }
    ensures mapped_under_a_default { under_map (codes "10.0.0.0/8 A\n") (codes "::ffff:11.0.0.1")
        ≡ Ok (Some (codes "UNKNOWN")) }
    ensures ipv6_under_ipv4 { under_map (codes "10.0.0.0/8 A\n") (codes "2001:db8::1") ≡ Ok None }
    ensures compatible_under_ipv4 { under_map (codes "0.0.0.0/0 A\n") (codes "::10.0.0.1") ≡ Ok None }
    ensures the_address_before_the_mapped_ones { under_map (codes "0.0.0.0/0 A\n") (codes "::fffe:ffff:ffff")
        ≡ Ok None }
    ensures the_address_after_the_mapped_ones { under_map (codes "0.0.0.0/0 A\n") (codes "::1:0:0:0") ≡ Ok None }
    ensures the_last_mapped_one { under_map (codes "0.0.0.0/0 A\n") (codes "::ffff:ffff:ffff") ≡ Ok (Some (codes "A")) }
    ensures ipv4_under_ipv6 { under_map (codes "mode ipv6\n10.0.0.0/8 A\n") (codes "10.1.1.1") ≡ Ok (Some (codes "A")) }
    ensures ipv4_under_a_mapped_block { under_map (codes "::ffff:10.0.0.0/104 A\n") (codes "10.1.1.1")
        ≡ Ok (Some (codes "A")) }
    ensures ipv4_outside_a_mapped_block { under_map (codes "::ffff:10.0.0.0/104 A\n") (codes "11.1.1.1")
        ≡ Ok (Some (codes "UNKNOWN")) }
    ensures ipv4_under_a_short_ipv6_block { under_map (codes "::/8 A\n") (codes "10.1.1.1") ≡ Ok (Some (codes "A")) }
    ensures ipv6_under_ipv6 { under_map (codes "2001:db8::/32 A\n") (codes "2001:db8:ffff::1") ≡ Ok (Some (codes "A")) }
    ensures ipv6_outside_the_block { under_map (codes "2001:db8::/32 A\n") (codes "2001:db9::")
        ≡ Ok (Some (codes "UNKNOWN")) }
{}

/// FORMATS.md, "Labels": `label` lines.
pub fn a_number_replaces_a_label()
    ensures the_number { under_map (codes "label 5 red\n10.0.0.0/8 5\n") (codes "10.0.0.0") ≡ Ok (Some (codes "red")) }
    ensures one_leading_zero { under_map (codes "label 5 red\n10.0.0.0/8 05\n") (codes "10.0.0.0")
        ≡ Ok (Some (codes "red")) }
    ensures ten_digits { under_map (codes "label 5 red\n10.0.0.0/8 0000000005\n") (codes "10.0.0.0")
        ≡ Ok (Some (codes "red")) }
    ensures eleven_digits { under_map (codes "label 5 red\n10.0.0.0/8 00000000005\n") (codes "10.0.0.0")
        ≡ Ok (Some (codes "00000000005")) }
    ensures the_label_itself { under_map (codes "label 5 red\n10.0.0.0/8 red\n") (codes "10.0.0.0")
        ≡ Ok (Some (codes "red")) }
    ensures another_number { under_map (codes "label 5 red\n10.0.0.0/8 6\n") (codes "10.0.0.0")
        ≡ Ok (Some (codes "6")) }
    ensures only_in_later_lines { under_map (codes "10.0.0.0/8 5\nlabel 5 red\n") (codes "10.0.0.0")
        ≡ Ok (Some (codes "5")) }
    ensures in_a_default { under_map (codes "label 5 red\ndefault 5\n") (codes "10.0.0.0") ≡ Ok (Some (codes "red")) }
    ensures in_a_range { under_map (codes "label 5 red\n10.0.0.0 10.0.0.1 5\n") (codes "10.0.0.1")
        ≡ Ok (Some (codes "red")) }
    ensures leading_zeros_of_the_declaration { under_map (codes "label 05 red\n10.0.0.0/8 5\n") (codes "10.0.0.0")
        ≡ Ok (Some (codes "red")) }
    ensures the_number_zero { under_map (codes "label 0 red\n10.0.0.0/8 0\n") (codes "10.0.0.0")
        ≡ Ok (Some (codes "red")) }
    ensures the_greatest_number { under_map (codes "label 2147483647 red\n10.0.0.0/8 2147483647\n") (codes "10.0.0.0")
        ≡ Ok (Some (codes "red")) }
    ensures above_the_greatest_number { under_map (codes "label 0 red\n10.0.0.0/8 2147483648\n") (codes "10.0.0.0")
        ≡ Ok (Some (codes "2147483648")) }
    ensures the_same_pair_again { under_map (codes "label 5 red\nlabel 5 red\n10.0.0.0/8 5\n") (codes "10.0.0.0")
        ≡ Ok (Some (codes "red")) }
    ensures two_numbers { under_map (codes "label 5 red\nlabel 6 blue\n10.0.0.0/8 5\n10.0.0.0/8 6\n") (codes "10.0.0.0")
        ≡ Ok (Some (codes "blue")) }
    ensures not_in_a_name { of_map (λ m. m.name) (codes "label 5 red\nmap-name 5\n") ≡ Ok (Some (codes "5")) }
    ensures no_number_within_a_label { under_map (codes "label 5 red\n10.0.0.0/8 5 5\n") (codes "10.0.0.0")
        ≡ Ok (Some (codes "5 5")) }
{}

/// FORMATS.md, "Labels". Labels are compared byte by byte.
pub fn a_label_is_the_rest_of_its_line()
    ensures with_blanks { under_map (codes "10.0.0.0/8  Guest  network \n") (codes "10.0.0.0")
        ≡ Ok (Some (codes "Guest  network")) }
    ensures with_a_tab { under_map (codes "10.0.0.0/8 Guest\tnetwork\n") (codes "10.0.0.0")
        ≡ Ok (Some (codes "Guest\tnetwork")) }
    ensures with_a_bar { under_map (codes "10.0.0.0/8 a|b\n") (codes "10.0.0.0") ≡ Ok (Some (codes "a|b")) }
    ensures one_byte { under_map (codes "10.0.0.0/8 -\n") (codes "10.0.0.0") ≡ Ok (Some (codes "-")) }
    ensures a_tilde { under_map (codes "10.0.0.0/8 ~\n") (codes "10.0.0.0") ≡ Ok (Some (codes "~")) }
    ensures capital_letters_differ { of_map (λ m. m.table) (codes "10.0.0.0/8 red\n10.0.0.1 Red\ndefault red\n")
        ≡ Ok (codes "red" ∷ codes "Red" ∷ []) }
    ensures bytes_above_127 { of_map (λ m. m.fallback) (codes "default " ++ 195 ∷ 169 ∷ []) ≡ Ok (195 ∷ 169 ∷ []) }
    ensures any_byte_above_127 { of_map (λ m. m.fallback) (codes "default " ++ 128 ∷ 255 ∷ []) ≡ Ok (128 ∷ 255 ∷ []) }
    ensures of_255_bytes { of_map (λ m. m.fallback) (codes "default " ++ replicate 255 120) ≡ Ok (replicate 255 120) }
    ensures a_declared_label_with_a_digit { under_map (codes "label 5 AS5\n10.0.0.0/8 5\n") (codes "10.0.0.0")
        ≡ Ok (Some (codes "AS5")) }
    ensures no_break_space_is_no_blank { under_map (codes "10.0.0.0/8 A" ++ 194 ∷ 160 ∷ codes "\n") (codes "10.0.0.0")
        ≡ Ok (Some (codes "A" ++ 194 ∷ 160 ∷ [])) }
{}

/// FORMATS.md, "Limits" and "Certificates": in the order of first occurrence, with `UNKNOWN` last if there is no
/// default.
pub fn the_label_table_has_each_label_once()
    ensures of_an_empty_text { of_map (λ m. m.table) (codes "") ≡ Ok (codes "UNKNOWN" ∷ []) }
    ensures with_a_default { of_map (λ m. m.table) (codes "10.0.0.0/8 A\ndefault B\n")
        ≡ Ok (codes "A" ∷ codes "B" ∷ []) }
    ensures without_a_default { of_map (λ m. m.table) (codes "10.0.0.0/8 B\n10.0.0.1 A\n10.0.0.2 B\n")
        ≡ Ok (codes "B" ∷ codes "A" ∷ codes "UNKNOWN" ∷ []) }
    ensures with_unknown_in_the_text { of_map (λ m. m.table) (codes "10.0.0.0/8 UNKNOWN\n10.0.0.1 A\n")
        ≡ Ok (codes "UNKNOWN" ∷ codes "A" ∷ []) }
    ensures with_a_label_that_is_not_used { of_map (λ m. m.table) (codes "label 5 red\n10.0.0.0/8 A\ndefault A\n")
        ≡ Ok (codes "red" ∷ codes "A" ∷ []) }
    ensures without_the_numbers { of_map (λ m. m.table) (codes "label 5 red\n10.0.0.0/8 5\ndefault 5\n")
        ≡ Ok (codes "red" ∷ []) }
    ensures without_the_name { of_map (λ m. m.table) (codes "map-name A\ndefault B\n") ≡ Ok (codes "B" ∷ []) }
    ensures with_a_default_that_does_not_count { of_map (λ m. m.table) (codes "default A\ndefault B\n")
        ≡ Ok (codes "A" ∷ codes "B" ∷ []) }
{}

/// FORMATS.md, "Statements": `label NUMBER TEXT`.
pub fn a_text_declares_labels_by_numbers()
    ensures in_order { with_declared ((5, codes "red") ∷ []) (6, codes "blue")
        ≡ (5, codes "red") ∷ (6, codes "blue") ∷ [] }
    ensures once { with_declared ((5, codes "red") ∷ []) (5, codes "red") ≡ (5, codes "red") ∷ [] }
{}

/// RFC 791: an IPv4 address has 32 bits.
pub fn no_number_above_the_addresses_has_a_label()
    ensures the_greatest { label_at (labelling V4 (λ a. Some (codes "A"))) 0xffff_ffff ≡ Some (codes "A") }
    ensures one_more { label_at (labelling V4 (λ a. Some (codes "A"))) 0x1_0000_0000 ≡ None }
{}
