//! Groups, as `uniq` prints them. The lines were added up and sorted by a few lines of Python.
#![tactic(auto, unfolding(crate::specs::Rows::opened))]

ghost use Rattle.definition_examples.specs.Maps.{by_map};
ghost use Rattle.definition_examples.specs.Reports.{uniq, uniq_of_parts, unlabelled};
ghost use Rattle.definition_examples.specs.Rows.{tcp, tcp_back};
ghost use Rattle.flow_uniq.specs.Grouped.{compare_by, grouped};
ghost use Rattle.flow_uniq.specs.Key.{fields_need_labels};
ghost use Rattle.flow_uniq.specs.declared.fault.KeyFault.TheVariants.{BadField, FieldRepeated};
ghost use Rattle.flow_rows.specs.declared.number.Number.TheVariants.{Flags, Protocol, SourcePort};
ghost use Rattle.flow_uniq.specs.declared.field.KeyField.TheVariants.{Number, SourceAddress};
ghost use Rattle.flow_uniq.specs.declared.field.KeyField.TheVariants.{SourceLabel};
ghost use Rattle.label_lookup.specs.Labelling.{label_where};
ghost use Rattle.prefix_keys.specs.declared.version.Version.TheVariants.{V6};
ghost use Rattle.std.specs.Prelude.{◌≡◌, ◌==◌, ◌/◌, ◌∷◌, [], codes, Err, false, Ok, true};
ghost use Rattle.std.specs.declared.cmp.Ordering.TheVariants.{Equal, Greater, Less};

/// FORMATS.md, "Groups of rows": a group is all rows with the same value of the field.
pub fn rows_with_the_same_value_are_a_group()
    ensures by_protocol { uniq (codes "proto") false unlabelled
        (tcp ∷ record tcp { protocol = 17; packets = 7; octets = 70 } ∷ tcp ∷ [])
        ≡ Ok (codes "proto|records|packets|bytes\n6|2|10|1092\n17|1|7|70\n") }
    ensures by_source { uniq (codes "sip") false unlabelled (tcp ∷ tcp_back ∷ tcp ∷ [])
        ≡ Ok (codes "sip|records|packets|bytes\n10.0.0.0|2|10|1092\n198.51.100.228|1|2|80\n") }
    ensures by_destination { uniq (codes "dip") false unlabelled (tcp ∷ tcp_back ∷ [])
        ≡ Ok (codes "dip|records|packets|bytes\n198.51.100.228|1|5|546\n10.0.0.0|1|2|80\n") }
    ensures by_source_port { uniq (codes "sport") false unlabelled
        (tcp ∷ tcp_back ∷ record tcp { protocol = 17; packets = 7; octets = 70 } ∷ [])
        ≡ Ok (codes "sport|records|packets|bytes\n1804|2|12|616\n443|1|2|80\n") }
    ensures by_destination_port { uniq (codes "dport") false unlabelled (tcp ∷ tcp_back ∷ [])
        ≡ Ok (codes "dport|records|packets|bytes\n443|1|5|546\n1804|1|2|80\n") }
    ensures by_flags { uniq (codes "flags") false unlabelled
        (tcp ∷ tcp_back ∷ tcp ∷ record tcp { protocol = 17; packets = 7; octets = 70 } ∷ [])
        ≡ Ok (codes "flags|records|packets|bytes\n27|3|17|1162\n19|1|2|80\n") }
    ensures no_rows { uniq (codes "proto") false unlabelled ([])
        ≡ Ok (codes "proto|records|packets|bytes\n") }
    ensures both_directions_count_one_by_one { uniq (codes "proto") false unlabelled (tcp ∷ tcp_back ∷ [])
        ≡ Ok (codes "proto|records|packets|bytes\n6|2|7|626\n") }
    ensures other_values_do_not_matter { uniq (codes "sport") false unlabelled
        (tcp ∷ record tcp { dport = 1; flags = 0; packets = 0; octets = 0 } ∷ [])
        ≡ Ok (codes "sport|records|packets|bytes\n1804|2|5|546\n") }
{}

/// FORMATS.md, "Groups of rows": a group is all rows with the same values of the fields.
pub fn rows_with_the_same_values_are_a_group()
    ensures by_two_fields { uniq (codes "dport,proto") false unlabelled
        (tcp ∷ record tcp { protocol = 17; packets = 7; octets = 70 } ∷ tcp_back ∷ tcp ∷ [])
        ≡ Ok (codes "dport|proto|records|packets|bytes\n443|6|2|10|1092\n443|17|1|7|70\n1804|6|1|2|80\n") }
    ensures by_the_same_fields_in_another_order { uniq (codes "proto,dport") false unlabelled
        (tcp ∷ record tcp { protocol = 17; packets = 7; octets = 70 } ∷ tcp_back ∷ tcp ∷ [])
        ≡ Ok (codes "proto|dport|records|packets|bytes\n6|443|2|10|1092\n17|443|1|7|70\n6|1804|1|2|80\n") }
    ensures one_row { uniq (codes "sip,dip,sport,dport,proto,flags") false unlabelled (tcp ∷ [])
        ≡ Ok
        (codes "sip|dip|sport|dport|proto|flags|records|packets|bytes\n10.0.0.0|198.51.100.228|1804|443|6|27|1|5|546\n") }
    ensures by_three_fields { uniq (codes "sip,dip,proto") false unlabelled (tcp ∷ record tcp { protocol = 17 } ∷ [])
        ≡ Ok (codes "sip|dip|proto|records|packets|bytes\n10.0.0.0|198.51.100.228|6|1|5|546\n10.0.0.0|198.51.100.228|17|1|5|546\n") }
    ensures by_six_fields { uniq (codes "sip,dip,sport,dport,proto,flags") true unlabelled
        (record tcp { flags = 274 } ∷ record tcp { flags = 18 } ∷ [])
        ≡ Ok (codes "sip|dip|sport|dport|proto|flags|records|packets|bytes\n10.0.0.0|198.51.100.228|1804|443|6|18|1|5|546\n10.0.0.0|198.51.100.228|1804|443|6|274|1|5|546\n") }
{}

/// FORMATS.md, "Groups of rows": addresses are the same if their versions and all their bits are.
pub fn rows_with_the_same_address_are_a_group()
    ensures an_address_of_each_version { uniq (codes "sip") false unlabelled
        (tcp ∷ record tcp { version = V6; src = 0xffff_0a00_0000 } ∷ tcp ∷ [])
        ≡ Ok (codes "sip|records|packets|bytes\n10.0.0.0|2|10|1092\n::ffff:a00:0|1|5|546\n") }
    ensures the_same_number_in_both_versions { uniq (codes "sip") false unlabelled
        (tcp ∷ record tcp { version = V6; src = 0x0a00_0000 } ∷ [])
        ≡ Ok (codes "sip|records|packets|bytes\n10.0.0.0|1|5|546\n::a00:0|1|5|546\n") }
    ensures two_hosts_of_one_64 { uniq (codes "sip") false unlabelled
        (record tcp { version = V6; src = 0x2001_0db8_0000_0000_0000_0000_0000_0001 }
        ∷ record tcp { version = V6; src = 0x2001_0db8_0000_0000_0000_0000_0000_0002 } ∷ [])
        ≡ Ok (codes "sip|records|packets|bytes\n2001:db8::1|1|5|546\n2001:db8::2|1|5|546\n") }
{}

/// FORMATS.md, "Groups of rows": an address without a label has the empty label.
pub fn labels_group_addresses()
    ensures by_source_label { uniq (codes "src-label") false (by_map (codes "10.0.0.0/8 Inside\n198.51.100.0/24 Out\n"))
        (tcp ∷ tcp_back ∷ tcp ∷ [])
        ≡ Ok (codes "src-label|records|packets|bytes\nInside|2|10|1092\nOut|1|2|80\n") }
    ensures by_destination_label { uniq (codes "dst-label") false
        (by_map (codes "10.0.0.0/8 Inside\n198.51.100.0/24 Out\n")) (tcp ∷ tcp_back ∷ tcp ∷ [])
        ≡ Ok (codes "dst-label|records|packets|bytes\nOut|2|10|1092\nInside|1|2|80\n") }
    ensures by_both { uniq (codes "src-label,dst-label") false
        (by_map (codes "10.0.0.0/8 Inside\n198.51.100.0/24 Out\n"))
        (tcp ∷ tcp_back ∷ record tcp { protocol = 17; packets = 7; octets = 70 } ∷ [])
        ≡ Ok (codes "src-label|dst-label|records|packets|bytes\nInside|Out|2|12|616\nOut|Inside|1|2|80\n") }
    ensures the_default { uniq (codes "src-label") false (by_map (codes "10.0.0.0/8 Inside\n198.51.100.0/24 Out\n"))
        (tcp ∷ record tcp { src = 0x0b00_0000 } ∷ [])
        ≡ Ok (codes "src-label|records|packets|bytes\nInside|1|5|546\nUNKNOWN|1|5|546\n") }
    ensures the_empty_label { uniq (codes "src-label") false (by_map (codes "10.0.0.0/8 Inside\n198.51.100.0/24 Out\n"))
        (tcp
        ∷ record tcp {
          version = V6;
          src = 0x2001_0db8_0000_0000_0000_0000_0000_0000;
          dst = 0x2001_0db8_0000_0000_0000_0000_0000_0001;
        }
        ∷ [])
        ≡ Ok (codes "src-label|records|packets|bytes\nInside|1|5|546\n|1|5|546\n") }
    ensures two_addresses_of_one_label { uniq (codes "src-label") false
        (by_map (codes "10.0.0.0/8 Inside\n198.51.100.0/24 Out\n")) (tcp ∷ record tcp { src = 0x0a00_0001 } ∷ [])
        ≡ Ok (codes "src-label|records|packets|bytes\nInside|2|10|1092\n") }
    ensures without_a_map { uniq (codes "src-label") false unlabelled (tcp ∷ tcp_back ∷ [])
        ≡ Ok (codes "src-label|records|packets|bytes\n|2|7|626\n") }
    ensures long_labels_differ_at_the_end { uniq (codes "src-label") false
        (by_map (codes "10.0.0.0/8 a customer with a long name A\n11.0.0.0/8 a customer with a long name B\n"))
        (tcp ∷ record tcp { src = 0x0b00_0000 } ∷ [])
        ≡ Ok (codes "src-label|records|packets|bytes\na customer with a long name A|1|5|546\na customer with a long name B|1|5|546\n") }
    ensures no_label_is_not_unknown { uniq (codes "src-label") false (by_map (codes "11.0.0.0/8 A\n"))
        (tcp ∷ record tcp { version = V6; src = 0x2001_0db8_0000_0000_0000_0000_0000_0001 } ∷ [])
        ≡ Ok (codes "src-label|records|packets|bytes\nUNKNOWN|1|5|546\n|1|5|546\n") }
{}

/// FORMATS.md, "Groups of rows": the sums are larger than 2^64 - 1.
pub fn sums_never_overflow()
    ensures of_two_rows { uniq (codes "proto") false unlabelled
        (record tcp { packets = 18446744073709551615; octets = 18446744073709551615 }
        ∷ record tcp { packets = 18446744073709551615; octets = 18446744073709551615 } ∷ [])
        ≡ Ok (codes "proto|records|packets|bytes\n6|2|36893488147419103230|36893488147419103230\n") }
    ensures one_more_packet { uniq (codes "proto") false unlabelled
        (record tcp { packets = 18446744073709551615; octets = 18446744073709551615 }
        ∷ record tcp { packets = 1; octets = 1 } ∷ [])
        ≡ Ok (codes "proto|records|packets|bytes\n6|2|18446744073709551616|18446744073709551616\n") }
    ensures of_three_rows { uniq (codes "proto") false unlabelled
        (record tcp { packets = 18446744073709551615; octets = 18446744073709551615 }
        ∷ record tcp { packets = 18446744073709551615; octets = 18446744073709551615 }
        ∷ record tcp { packets = 18446744073709551615; octets = 18446744073709551615 } ∷ [])
        ≡ Ok (codes "proto|records|packets|bytes\n6|3|55340232221128654845|55340232221128654845\n") }
    ensures in_two_groups { uniq (codes "proto") false unlabelled
        (record tcp { packets = 18446744073709551615; octets = 18446744073709551615 }
        ∷ record tcp { protocol = 17; packets = 18446744073709551615; octets = 0 }
        ∷ record tcp { packets = 18446744073709551615; octets = 18446744073709551615 } ∷ [])
        ≡ Ok
        (codes "proto|records|packets|bytes\n6|2|36893488147419103230|36893488147419103230\n17|1|18446744073709551615|0\n") }
{}

/// FORMATS.md, "Groups of rows": without `--sort-output`.
pub fn groups_are_in_the_order_of_their_first_rows()
    ensures of_their_first_rows { uniq (codes "sport") false unlabelled
        (record tcp { sport = 10 } ∷ record tcp { sport = 9 } ∷ record tcp { sport = 100 } ∷ record tcp { sport = 10 }
        ∷ [])
        ≡ Ok (codes "sport|records|packets|bytes\n10|2|10|1092\n9|1|5|546\n100|1|5|546\n") }
    ensures labels_by_first_rows { uniq (codes "src-label") false
        (by_map (codes "10.0.0.0/8 B\n11.0.0.0/8 A\n12.0.0.0/8 a\n13.0.0.0/8 AA\n"))
        (record tcp { src = 0x0c00_0000 } ∷ record tcp { src = 0x0a00_0000 } ∷ record tcp { src = 0x0b00_0000 } ∷ [])
        ≡ Ok (codes "src-label|records|packets|bytes\na|1|5|546\nB|1|5|546\nA|1|5|546\n") }
{}

/// FORMATS.md, "Groups of rows": with `--sort-output`, by one field.
pub fn groups_are_sorted_by_value()
    ensures numbers_by_value { uniq (codes "sport") true unlabelled
        (record tcp { sport = 10 } ∷ record tcp { sport = 9 } ∷ record tcp { sport = 100 } ∷ record tcp { sport = 10 }
        ∷ [])
        ≡ Ok (codes "sport|records|packets|bytes\n9|1|5|546\n10|2|10|1092\n100|1|5|546\n") }
    ensures addresses_by_value { uniq (codes "sip") true unlabelled
        (record tcp { src = 0x0a00_0002 } ∷ record tcp { src = 0x09ff_ffff } ∷ record tcp { src = 0x0a00_0001 } ∷ [])
        ≡ Ok (codes "sip|records|packets|bytes\n9.255.255.255|1|5|546\n10.0.0.1|1|5|546\n10.0.0.2|1|5|546\n") }
    ensures ipv4_before_ipv6 { uniq (codes "sip") true unlabelled
        (record tcp { version = V6; src = 0x0001 } ∷ record tcp { src = 0xffff_ffff } ∷ [])
        ≡ Ok (codes "sip|records|packets|bytes\n255.255.255.255|1|5|546\n::1|1|5|546\n") }
    ensures protocols_by_value { uniq (codes "proto") true unlabelled
        (record tcp { protocol = 17 } ∷ record tcp { protocol = 6 } ∷ record tcp { protocol = 1 } ∷ [])
        ≡ Ok (codes "proto|records|packets|bytes\n1|1|5|546\n6|1|5|546\n17|1|5|546\n") }
    ensures flags_by_value { uniq (codes "flags") true unlabelled
        (record tcp { flags = 27 } ∷ record tcp { flags = 2 } ∷ [])
        ≡ Ok (codes "flags|records|packets|bytes\n2|1|5|546\n27|1|5|546\n") }
    ensures no_rows { uniq (codes "sport") true unlabelled ([])
        ≡ Ok (codes "sport|records|packets|bytes\n") }
{}

/// FORMATS.md, "Groups of rows": with `--sort-output`, by the first field in which groups differ.
pub fn groups_are_sorted_by_their_fields()
    ensures by_the_first_field { uniq (codes "sport,dport") true unlabelled
        (record tcp { sport = 2; dport = 1 } ∷ record tcp { sport = 1; dport = 2 } ∷ [])
        ≡ Ok (codes "sport|dport|records|packets|bytes\n1|2|1|5|546\n2|1|1|5|546\n") }
    ensures then_by_the_second { uniq (codes "sport,dport") true unlabelled
        (record tcp { sport = 1; dport = 2 } ∷ record tcp { sport = 1; dport = 1 } ∷ record tcp { sport = 0; dport = 3 }
        ∷ [])
        ≡ Ok (codes "sport|dport|records|packets|bytes\n0|3|1|5|546\n1|1|1|5|546\n1|2|1|5|546\n") }
    ensures by_the_third_field { uniq (codes "proto,dport,sport") true unlabelled
        (record tcp { sport = 2 } ∷ record tcp { sport = 1 } ∷ [])
        ≡ Ok (codes "proto|dport|sport|records|packets|bytes\n6|443|1|1|5|546\n6|443|2|1|5|546\n") }
{}

/// FORMATS.md, "Groups of rows": with `--sort-output`, by labels.
pub fn groups_are_sorted_by_label()
    ensures labels_by_their_bytes { uniq (codes "src-label") true
        (by_map (codes "10.0.0.0/8 B\n11.0.0.0/8 A\n12.0.0.0/8 a\n13.0.0.0/8 AA\n"))
        (record tcp { src = 0x0c00_0000 } ∷ record tcp { src = 0x0a00_0000 } ∷ record tcp { src = 0x0d00_0000 }
        ∷ record tcp { src = 0x0b00_0000 } ∷ [])
        ≡ Ok (codes "src-label|records|packets|bytes\nA|1|5|546\nAA|1|5|546\nB|1|5|546\na|1|5|546\n") }
    ensures the_empty_label_first { uniq (codes "src-label") true
        (by_map (codes "10.0.0.0/8 B\n11.0.0.0/8 A\n12.0.0.0/8 a\n13.0.0.0/8 AA\n"))
        (record tcp { src = 0x0b00_0000 }
        ∷ record tcp {
          version = V6;
          src = 0x2001_0db8_0000_0000_0000_0000_0000_0000;
          dst = 0x2001_0db8_0000_0000_0000_0000_0000_0001;
        }
        ∷ [])
        ≡ Ok (codes "src-label|records|packets|bytes\n|1|5|546\nA|1|5|546\n") }
{}

/// FORMATS.md, "Statuses and fault lines": an unknown name (U1) comes before a repeated one (U2).
pub fn u1_and_u2()
    ensures another_name { uniq (codes "src") false unlabelled [] ≡ Err BadField }
    ensures nothing { uniq (codes "") false unlabelled [] ≡ Err BadField }
    ensures a_comma_at_the_end { uniq (codes "sip,") false unlabelled [] ≡ Err BadField }
    ensures capital_letters { uniq (codes "SIP") false unlabelled [] ≡ Err BadField }
    ensures a_blank { uniq (codes "sip, dip") false unlabelled [] ≡ Err BadField }
    ensures a_column_that_is_no_field { uniq (codes "packets") false unlabelled [] ≡ Err BadField }
    ensures twice { uniq (codes "sip,sip") false unlabelled [] ≡ Err FieldRepeated }
    ensures twice_with_one_between { uniq (codes "sip,dip,sip") false unlabelled [] ≡ Err FieldRepeated }
    ensures twice_before_an_unknown_one { uniq (codes "sip,sip,x") false unlabelled [] ≡ Err BadField }
    ensures a_label_twice { uniq (codes "src-label,src-label") false unlabelled [] ≡ Err FieldRepeated }
    ensures a_blank_between { uniq (codes "sip dip") false unlabelled [] ≡ Err BadField }
    ensures one_label_of_two_fields { fields_need_labels (SourceAddress ∷ SourceLabel ∷ []) ≡ true }
    ensures no_label { fields_need_labels (SourceAddress ∷ Number Flags ∷ []) ≡ false }
{}

/// A group has all items that are the same as its first item. Groups are in the order of their first items.
pub fn items_that_are_the_same_are_a_group()
    ensures no_items { grouped (λ a b. a == b) [] ≡ [] }
    ensures two_groups { grouped (λ a b. a == b) (3 ∷ 1 ∷ 3 ∷ []) ≡ (3, 3 ∷ []) ∷ (1, []) ∷ [] }
    ensures same_digit { grouped (λ a b. a / 10 == b / 10) (25 ∷ 13 ∷ 27 ∷ 14 ∷ 20 ∷ [])
        ≡ (25, 27 ∷ 20 ∷ []) ∷ (13, 14 ∷ []) ∷ [] }
{}

/// Rows compare by the first field that differs.
pub fn rows_compare_by_their_fields()
    ensures same { compare_by (label_where unlabelled) (Number Protocol ∷ []) tcp tcp_back ≡ Equal }
    ensures by_the_second_field { compare_by
        (label_where unlabelled) (Number Protocol ∷ Number SourcePort ∷ []) tcp tcp_back
        ≡ Greater }
    ensures by_the_first_field { compare_by
        (label_where unlabelled) (SourceAddress ∷ Number SourcePort ∷ []) tcp tcp_back
        ≡ Less }
    ensures by_nothing { compare_by (label_where unlabelled) [] tcp tcp_back ≡ Equal }
    ensures ipv4_first { compare_by (label_where unlabelled) (SourceAddress ∷ []) tcp
        (record tcp { version = V6; src = 1 }) ≡ Less }
    ensures no_label_first { compare_by (label_where (by_map (codes "11.0.0.0/8 A\n"))) (SourceLabel ∷ []) tcp
        (record tcp { version = V6; src = 1 }) ≡ Greater }
{}

/// The groups of parts of the rows, merged by key: their records, packets and bytes are added.
pub fn groups_of_parts_are_merged()
    ensures in_order_of_first_rows { uniq_of_parts (codes "dport") false unlabelled
        ((tcp ∷ tcp_back ∷ []) ∷ (record tcp { dport = 53; packets = 7; octets = 70 } ∷ tcp ∷ tcp ∷ []) ∷ [])
        ≡ Ok (codes "dport|records|packets|bytes\n443|3|15|1638\n1804|1|2|80\n53|1|7|70\n") }
    ensures in_order_of_keys { uniq_of_parts (codes "dport") true unlabelled
        ((tcp ∷ tcp_back ∷ []) ∷ (record tcp { dport = 53; packets = 7; octets = 70 } ∷ tcp ∷ tcp ∷ []) ∷ [])
        ≡ Ok (codes "dport|records|packets|bytes\n53|1|7|70\n443|3|15|1638\n1804|1|2|80\n") }
    ensures of_no_parts { uniq_of_parts (codes "dport") true unlabelled []
        ≡ Ok (codes "dport|records|packets|bytes\n") }
{}
