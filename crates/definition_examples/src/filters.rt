//! Filters: which rows pass an option, and which texts are malformed. The row `tcp` goes from 10.0.0.0, port 1804, to
//! 198.51.100.228, port 443, with protocol 6, 5 packets and 546 bytes.

ghost use Rattle.definition_examples.specs.Filters.{number_passes, of_option, passes, passes_all, passing_by};
ghost use Rattle.definition_examples.specs.Maps.{by_map};
ghost use Rattle.definition_examples.specs.Rows.{tcp, tcp_back};
ghost use Rattle.flow_filter.specs.Condition.{passing};
ghost use Rattle.flow_filter.specs.declared.fault.FilterFaultKind.TheVariants.{BadBlock, BadNumberList, BadRange};
ghost use Rattle.flow_rows.specs.declared.number.Number.TheVariants.{DestinationAs, DestinationPort, InputInterface};
ghost use Rattle.flow_rows.specs.declared.number.Number.TheVariants.{OutputInterface, Protocol, SourceAs, SourcePort};
ghost use Rattle.flow_rows.specs.declared.number.Number.TheVariants.{Vlan};
ghost use Rattle.flow_filter.specs.declared.option.FilterOption.TheVariants.{AnyLabel, Bytes, DestinationAddress};
ghost use Rattle.flow_filter.specs.declared.option.FilterOption.TheVariants.{DestinationLabel, Number};
ghost use Rattle.flow_filter.specs.declared.option.FilterOption.TheVariants.{Packets, SourceAddress};
ghost use Rattle.flow_filter.specs.declared.option.FilterOption.TheVariants.{SourceLabel};
ghost use Rattle.prefix_keys.specs.declared.version.Version.TheVariants.{V6};
ghost use Rattle.std.specs.Prelude.{◌≡◌, ◌∷◌, [], codes, Err, false, None, Ok, true};

/// FORMATS.md, "Filters": `--protocol`, `--sport` and `--dport`.
pub fn numbers_and_ranges()
    ensures the_protocol { passes (Number Protocol) (codes "6") tcp ≡ Ok true }
    ensures another_protocol { passes (Number Protocol) (codes "17") tcp ≡ Ok false }
    ensures the_first_of_two { passes (Number Protocol) (codes "6,17") tcp ≡ Ok true }
    ensures the_second_of_two { passes (Number Protocol) (codes "17,6") tcp ≡ Ok true }
    ensures a_range { passes (Number Protocol) (codes "1-16") tcp ≡ Ok true }
    ensures the_start_of_a_range { passes (Number Protocol) (codes "6-16") tcp ≡ Ok true }
    ensures the_end_of_a_range { passes (Number Protocol) (codes "1-6") tcp ≡ Ok true }
    ensures below_a_range { passes (Number Protocol) (codes "7-16") tcp ≡ Ok false }
    ensures above_a_range { passes (Number Protocol) (codes "1-5") tcp ≡ Ok false }
    ensures a_range_of_one_number { passes (Number Protocol) (codes "6-6") tcp ≡ Ok true }
    ensures a_range_after_a_number { passes (Number Protocol) (codes "17,1-16") tcp ≡ Ok true }
    ensures all_protocols { passes (Number Protocol) (codes "0-255") tcp ≡ Ok true }
    ensures leading_zeros { passes (Number Protocol) (codes "006") tcp ≡ Ok true }
    ensures of_20_digits { passes (Number Protocol) (codes "00000000000000000006") tcp ≡ Ok true }
    ensures a_repeated_number { passes (Number Protocol) (codes "6,6") tcp ≡ Ok true }
    ensures the_source_port { passes (Number SourcePort) (codes "1804") tcp ≡ Ok true }
    ensures not_the_destination_port { passes (Number SourcePort) (codes "443") tcp ≡ Ok false }
    ensures the_destination_port { passes (Number DestinationPort) (codes "443") tcp ≡ Ok true }
    ensures not_the_source_port { passes (Number DestinationPort) (codes "1804") tcp ≡ Ok false }
    ensures ports_above_1023 { passes (Number SourcePort) (codes "1024-65535") tcp ≡ Ok true }
    ensures ports_below_1024 { passes (Number SourcePort) (codes "0-1023") tcp ≡ Ok false }
    ensures web { passes (Number DestinationPort) (codes "80,443") tcp ≡ Ok true }
    ensures up_to_the_last_port { passes (Number DestinationPort) (codes "443-65535") tcp ≡ Ok true }
    ensures a_list_of_source_ports { passes (Number SourcePort) (codes "80,1804") tcp ≡ Ok true }
{}

/// FORMATS.md, "Sums of many Files": the options of interfaces, VLANs and AS numbers.
pub fn numbers_of_many()
    ensures an_interface_in { number_passes (Number InputInterface) (codes "1-3") (record tcp { in_if = 3 }) ≡ Ok true }
    ensures another_interface { number_passes (Number InputInterface) (codes "1-3") (record tcp { out_if = 3 })
        ≡ Ok false }
    ensures an_interface_out { number_passes (Number OutputInterface) (codes "4294967295")
        (record tcp { out_if = 4294967295 }) ≡ Ok true }
    ensures a_vlan { number_passes (Number Vlan) (codes "100,200") (record tcp { vlan = 200 }) ≡ Ok true }
    ensures no_vlan { number_passes (Number Vlan) (codes "0") tcp ≡ Ok true }
    ensures a_source_as { number_passes (Number SourceAs) (codes "65536-4294967295") (record tcp { src_as = 65535 })
        ≡ Ok false }
    ensures a_destination_as { number_passes (Number DestinationAs) (codes "65536-4294967295")
        (record tcp { dst_as = 65536 }) ≡ Ok true }
    ensures an_interface_above_32_bits { number_passes (Number InputInterface) (codes "4294967296") tcp
        ≡ Err (of_option (Number InputInterface) BadNumberList) }
    ensures a_vlan_above_16_bits { number_passes (Number Vlan) (codes "65536") tcp
        ≡ Err (of_option (Number Vlan) BadNumberList) }
    ensures a_name_of_an_as { number_passes (Number SourceAs) (codes "AS65000") tcp
        ≡ Err (of_option (Number SourceAs) BadNumberList) }
{}

/// FORMATS.md, "Filters": `--saddress` and `--daddress`. Membership is that of Python's `ipaddress`.
pub fn blocks_and_addresses()
    ensures the_source { passes SourceAddress (codes "10.0.0.0") tcp ≡ Ok true }
    ensures another_source { passes SourceAddress (codes "10.0.0.1") tcp ≡ Ok false }
    ensures a_block_of_the_source { passes SourceAddress (codes "10.0.0.0/8") tcp ≡ Ok true }
    ensures not_the_destination { passes SourceAddress (codes "198.51.100.228") tcp ≡ Ok false }
    ensures the_destination { passes DestinationAddress (codes "198.51.100.228") tcp ≡ Ok true }
    ensures not_the_source { passes DestinationAddress (codes "10.0.0.0/8") tcp ≡ Ok false }
    ensures the_second_of_two { passes SourceAddress (codes "11.0.0.0/8,10.0.0.0/24") tcp ≡ Ok true }
    ensures neither_of_two { passes SourceAddress (codes "11.0.0.0/8,10.0.0.1") tcp ≡ Ok false }
    ensures host_bits { passes SourceAddress (codes "10.1.2.3/8") tcp ≡ Ok true }
    ensures all_ipv4_addresses { passes SourceAddress (codes "0.0.0.0/0") tcp ≡ Ok true }
    ensures a_longer_block { passes DestinationAddress (codes "198.51.100.224/27") tcp ≡ Ok true }
    ensures the_block_below { passes DestinationAddress (codes "198.51.100.192/27") tcp ≡ Ok false }
    ensures one_address { passes DestinationAddress (codes "198.51.100.228/32") tcp ≡ Ok true }
    ensures the_address_beside_it { passes DestinationAddress (codes "198.51.100.229/32") tcp ≡ Ok false }
{}

/// FORMATS.md, "Filters" and "Addresses and versions".
pub fn the_address_is_converted_to_the_version_of_the_option()
    ensures a_mapped_block { passes SourceAddress (codes "::ffff:10.0.0.0/104") tcp ≡ Ok true }
    ensures a_mapped_address { passes SourceAddress (codes "::ffff:a00:0") tcp ≡ Ok true }
    ensures another_mapped_address { passes SourceAddress (codes "::ffff:a00:1") tcp ≡ Ok false }
    ensures all_ipv6_addresses { passes SourceAddress (codes "::/0") tcp ≡ Ok true }
    ensures a_block_of_ipv6 { passes SourceAddress (codes "2001:db8::/32") tcp ≡ Ok false }
    ensures the_same_number_in_ipv6 { passes SourceAddress (codes "::a00:0") tcp ≡ Ok false }
    ensures ipv6_in_its_block { passes SourceAddress (codes "2001:db8::/32")
        (record tcp { version = V6; src = 0x2001_0db8_0000_0000_0000_0000_0000_0001 }) ≡ Ok true }
    ensures ipv6_outside_a_block { passes SourceAddress (codes "2001:db9::/32")
        (record tcp { version = V6; src = 0x2001_0db8_0000_0000_0000_0000_0000_0001 }) ≡ Ok false }
    ensures ipv6_in_no_ipv4_block { passes SourceAddress (codes "0.0.0.0/0")
        (record tcp { version = V6; src = 0x2001_0db8_0000_0000_0000_0000_0000_0001 }) ≡ Ok false }
    ensures ipv6_in_either { passes SourceAddress (codes "0.0.0.0/0,2001:db8::1")
        (record tcp { version = V6; src = 0x2001_0db8_0000_0000_0000_0000_0000_0001 }) ≡ Ok true }
    ensures mapped_in_an_ipv4_block { passes SourceAddress (codes "10.0.0.0/8")
        (record tcp { version = V6; src = 0xffff_0a00_0000 }) ≡ Ok true }
    ensures mapped_in_another_ipv4_block { passes SourceAddress (codes "11.0.0.0/8")
        (record tcp { version = V6; src = 0xffff_0a00_0000 }) ≡ Ok false }
    ensures mapped_and_its_address { passes SourceAddress (codes "10.0.0.0")
        (record tcp { version = V6; src = 0xffff_0a00_0000 }) ≡ Ok true }
{}

/// FORMATS.md, "Filters": `--packets` and `--bytes`.
pub fn one_range_of_packets_or_bytes()
    ensures the_number { passes Packets (codes "5") tcp ≡ Ok true }
    ensures another_number { passes Packets (codes "6") tcp ≡ Ok false }
    ensures at_least { passes Packets (codes "5-") tcp ≡ Ok true }
    ensures at_least_less { passes Packets (codes "4-") tcp ≡ Ok true }
    ensures at_least_more { passes Packets (codes "6-") tcp ≡ Ok false }
    ensures up_to { passes Packets (codes "4-5") tcp ≡ Ok true }
    ensures below { passes Packets (codes "6-9") tcp ≡ Ok false }
    ensures above { passes Packets (codes "1-4") tcp ≡ Ok false }
    ensures any_number { passes Packets (codes "0-") tcp ≡ Ok true }
    ensures the_greatest_number { passes Packets (codes "18446744073709551615") tcp ≡ Ok false }
    ensures the_greatest_number_of_packets { passes Packets (codes "18446744073709551615")
        (record tcp { packets = 18446744073709551615 }) ≡ Ok true }
    ensures at_least_and_the_greatest { passes Packets (codes "5-") (record tcp { packets = 18446744073709551615 })
        ≡ Ok true }
    ensures of_20_digits { passes Packets (codes "00000000000000000005") tcp ≡ Ok true }
    ensures not_the_bytes { passes Packets (codes "546") tcp ≡ Ok false }
    ensures bytes { passes Bytes (codes "546") tcp ≡ Ok true }
    ensures not_the_packets { passes Bytes (codes "5") tcp ≡ Ok false }
    ensures bytes_from_to { passes Bytes (codes "500-1000") tcp ≡ Ok true }
    ensures bytes_at_least { passes Bytes (codes "547-") tcp ≡ Ok false }
    ensures bytes_up_to_the_greatest_number { passes Bytes (codes "546-18446744073709551615") tcp ≡ Ok true }
{}

/// FORMATS.md, "Filters": labels are compared byte by byte, and are no lists. An address without a label matches no
/// label.
pub fn labels()
    ensures of_the_source { passes_all ((SourceLabel, codes "Inside") ∷ [])
        (by_map (codes "10.0.0.0/8 Inside\n198.51.100.0/24 Out, far\n")) tcp ≡ Ok true }
    ensures of_the_destination { passes_all ((DestinationLabel, codes "Out, far") ∷ [])
        (by_map (codes "10.0.0.0/8 Inside\n198.51.100.0/24 Out, far\n")) tcp ≡ Ok true }
    ensures not_of_the_source { passes_all ((SourceLabel, codes "Out, far") ∷ [])
        (by_map (codes "10.0.0.0/8 Inside\n198.51.100.0/24 Out, far\n")) tcp ≡ Ok false }
    ensures not_of_the_destination { passes_all ((DestinationLabel, codes "Inside") ∷ [])
        (by_map (codes "10.0.0.0/8 Inside\n198.51.100.0/24 Out, far\n")) tcp ≡ Ok false }
    ensures any_the_source { passes_all ((AnyLabel, codes "Inside") ∷ [])
        (by_map (codes "10.0.0.0/8 Inside\n198.51.100.0/24 Out, far\n")) tcp ≡ Ok true }
    ensures any_the_destination { passes_all ((AnyLabel, codes "Out, far") ∷ [])
        (by_map (codes "10.0.0.0/8 Inside\n198.51.100.0/24 Out, far\n")) tcp ≡ Ok true }
    ensures any_neither { passes_all ((AnyLabel, codes "UNKNOWN") ∷ [])
        (by_map (codes "10.0.0.0/8 Inside\n198.51.100.0/24 Out, far\n")) tcp ≡ Ok false }
    ensures a_part_of_a_label { passes_all ((DestinationLabel, codes "Out") ∷ [])
        (by_map (codes "10.0.0.0/8 Inside\n198.51.100.0/24 Out, far\n")) tcp ≡ Ok false }
    ensures a_small_letter { passes_all ((SourceLabel, codes "inside") ∷ [])
        (by_map (codes "10.0.0.0/8 Inside\n198.51.100.0/24 Out, far\n")) tcp ≡ Ok false }
    ensures the_default { passes_all ((SourceLabel, codes "UNKNOWN") ∷ []) (by_map (codes "11.0.0.0/8 A\n")) tcp
        ≡ Ok true }
    ensures no_label { passes_all ((SourceLabel, codes "UNKNOWN") ∷ [])
        (by_map (codes "10.0.0.0/8 Inside\n198.51.100.0/24 Out, far\n"))
        (record tcp { version = V6; src = 0x2001_0db8_0000_0000_0000_0000_0000_0001 }) ≡ Ok false }
    ensures the_empty_text { passes_all ((SourceLabel, codes "") ∷ [])
        (by_map (codes "10.0.0.0/8 Inside\n198.51.100.0/24 Out, far\n"))
        (record tcp { version = V6; src = 0x2001_0db8_0000_0000_0000_0000_0000_0001 }) ≡ Ok false }
    ensures any_of_one_address { passes_all ((AnyLabel, codes "Inside") ∷ [])
        (by_map (codes "10.0.0.0/8 Inside\n198.51.100.0/24 Out, far\n")) tcp_back ≡ Ok true }
    ensures under_a_labelling { passing_by (codes "10.0.0.0/8 Inside\n") ((SourceLabel, codes "Inside") ∷ [])
        (tcp ∷ tcp_back ∷ []) ≡ Ok (tcp ∷ []) }
    ensures without_a_labelling { passing ((SourceLabel, codes "Inside") ∷ []) None (tcp ∷ []) ≡ [] }
    ensures a_source_label_with_a_comma { passes_all ((SourceLabel, codes "Out, far") ∷ [])
        (by_map (codes "10.0.0.0/8 Inside\n198.51.100.0/24 Out, far\n")) tcp_back ≡ Ok true }
    ensures no_row_meets_a_malformed_option { passing ((Number Protocol, codes "x") ∷ []) None (tcp ∷ []) ≡ [] }
{}

/// FORMATS.md, "Filters": a row passes if it meets the condition of each option given.
pub fn a_row_must_pass_each_option()
    ensures no_option { passes_all [] (by_map (codes "10.0.0.0/8 Inside\n198.51.100.0/24 Out, far\n")) tcp ≡ Ok true }
    ensures both { passes_all ((Number Protocol, codes "6") ∷ (Number DestinationPort, codes "443") ∷ [])
        (by_map (codes "10.0.0.0/8 Inside\n198.51.100.0/24 Out, far\n")) tcp ≡ Ok true }
    ensures the_first_alone { passes_all ((Number Protocol, codes "6") ∷ (Number DestinationPort, codes "80") ∷ [])
        (by_map (codes "10.0.0.0/8 Inside\n198.51.100.0/24 Out, far\n")) tcp ≡ Ok false }
    ensures the_second_alone { passes_all ((Number Protocol, codes "17") ∷ (Number DestinationPort, codes "443") ∷ [])
        (by_map (codes "10.0.0.0/8 Inside\n198.51.100.0/24 Out, far\n")) tcp ≡ Ok false }
    ensures all_of_three { passes_all
        ((SourceLabel, codes "Inside") ∷ (Packets, codes "5-") ∷ (Bytes, codes "546") ∷ [])
        (by_map (codes "10.0.0.0/8 Inside\n198.51.100.0/24 Out, far\n")) tcp ≡ Ok true }
    ensures two_of_three { passes_all
        ((SourceLabel, codes "Inside") ∷ (Packets, codes "5-") ∷ (Bytes, codes "545") ∷ [])
        (by_map (codes "10.0.0.0/8 Inside\n198.51.100.0/24 Out, far\n")) tcp ≡ Ok false }
    ensures one_row_of_three { passing ((Number Protocol, codes "6") ∷ (Packets, codes "5") ∷ []) None
        (tcp ∷ record tcp { protocol = 17 } ∷ tcp_back ∷ []) ≡ tcp ∷ [] }
{}

/// FORMATS.md, "Statuses and fault lines": L1. NUMBERS contain no blanks, and have 1 to 20 digits.
pub fn l1_bad_number_list()
    ensures a_name { passes (Number Protocol) (codes "tcp") tcp ≡ Err (of_option (Number Protocol) BadNumberList) }
    ensures a_protocol_above_255 { passes (Number Protocol) (codes "256") tcp
        ≡ Err (of_option (Number Protocol) BadNumberList) }
    ensures a_port_above_65535 { passes (Number SourcePort) (codes "65536") tcp
        ≡ Err (of_option (Number SourcePort) BadNumberList) }
    ensures a_port_above_65535_in_a_range { passes (Number DestinationPort) (codes "1-65536") tcp
        ≡ Err (of_option (Number DestinationPort) BadNumberList) }
    ensures a_blank { passes (Number Protocol) (codes "6, 17") tcp ≡ Err (of_option (Number Protocol) BadNumberList) }
    ensures a_blank_before { passes (Number Protocol) (codes " 6") tcp
        ≡ Err (of_option (Number Protocol) BadNumberList) }
    ensures nothing { passes (Number Protocol) (codes "") tcp ≡ Err (of_option (Number Protocol) BadNumberList) }
    ensures an_empty_item { passes (Number Protocol) (codes "6,,17") tcp
        ≡ Err (of_option (Number Protocol) BadNumberList) }
    ensures a_comma_at_the_end { passes (Number Protocol) (codes "6,") tcp
        ≡ Err (of_option (Number Protocol) BadNumberList) }
    ensures the_greater_number_first { passes (Number Protocol) (codes "9-5") tcp
        ≡ Err (of_option (Number Protocol) BadNumberList) }
    ensures an_open_range { passes (Number Protocol) (codes "5-") tcp
        ≡ Err (of_option (Number Protocol) BadNumberList) }
    ensures no_lower_end { passes (Number Protocol) (codes "-5") tcp ≡ Err (of_option (Number Protocol) BadNumberList) }
    ensures three_ends { passes (Number Protocol) (codes "1-2-3") tcp
        ≡ Err (of_option (Number Protocol) BadNumberList) }
    ensures of_21_digits { passes (Number Protocol) (codes "000000000000000000006") tcp
        ≡ Err (of_option (Number Protocol) BadNumberList) }
    ensures a_sign { passes (Number Protocol) (codes "+6") tcp ≡ Err (of_option (Number Protocol) BadNumberList) }
    ensures a_malformed_item_after_one_that_passes { passes (Number Protocol) (codes "6,x") tcp
        ≡ Err (of_option (Number Protocol) BadNumberList) }
    ensures an_open_range_of_source_ports { passes (Number SourcePort) (codes "5-") tcp
        ≡ Err (of_option (Number SourcePort) BadNumberList) }
    ensures an_open_range_of_destination_ports { passes (Number DestinationPort) (codes "5-") tcp
        ≡ Err (of_option (Number DestinationPort) BadNumberList) }
    ensures a_blank_between { passes (Number Protocol) (codes "6 17") tcp
        ≡ Err (of_option (Number Protocol) BadNumberList) }
{}

/// FORMATS.md, "Statuses and fault lines": L2.
pub fn l2_bad_range()
    ensures a_unit { passes Packets (codes "10k") tcp ≡ Err (of_option Packets BadRange) }
    ensures the_greater_number_first { passes Bytes (codes "5-4") tcp ≡ Err (of_option Bytes BadRange) }
    ensures two_to_the_64 { passes Bytes (codes "18446744073709551616") tcp ≡ Err (of_option Bytes BadRange) }
    ensures no_lower_end { passes Packets (codes "-5") tcp ≡ Err (of_option Packets BadRange) }
    ensures a_dash { passes Packets (codes "-") tcp ≡ Err (of_option Packets BadRange) }
    ensures nothing { passes Packets (codes "") tcp ≡ Err (of_option Packets BadRange) }
    ensures a_list { passes Packets (codes "5,6") tcp ≡ Err (of_option Packets BadRange) }
    ensures two_dashes { passes Packets (codes "5--6") tcp ≡ Err (of_option Packets BadRange) }
    ensures of_21_digits { passes Packets (codes "000000000000000000005") tcp ≡ Err (of_option Packets BadRange) }
    ensures a_list_of_bytes { passes Bytes (codes "5,6") tcp ≡ Err (of_option Bytes BadRange) }
    ensures two_to_the_64_packets { passes Packets (codes "18446744073709551616") tcp
        ≡ Err (of_option Packets BadRange) }
    ensures an_end_of_21_digits { passes Packets (codes "5-000000000000000000006") tcp
        ≡ Err (of_option Packets BadRange) }
{}

/// FORMATS.md, "Statuses and fault lines": L3.
pub fn l3_bad_block()
    ensures a_range { passes SourceAddress (codes "10.0.0.0-10.0.0.255") tcp ≡ Err (of_option SourceAddress BadBlock) }
    ensures a_host_name { passes SourceAddress (codes "localhost") tcp ≡ Err (of_option SourceAddress BadBlock) }
    ensures a_blank { passes DestinationAddress (codes "10.0.0.0, 10.0.0.1") tcp
        ≡ Err (of_option DestinationAddress BadBlock) }
    ensures a_length_above_32 { passes SourceAddress (codes "10.0.0.0/33") tcp
        ≡ Err (of_option SourceAddress BadBlock) }
    ensures nothing { passes DestinationAddress (codes "") tcp ≡ Err (of_option DestinationAddress BadBlock) }
    ensures a_comma_at_the_end { passes SourceAddress (codes "10.0.0.0,") tcp ≡ Err (of_option SourceAddress BadBlock) }
    ensures no_length { passes SourceAddress (codes "10.0.0.0/") tcp ≡ Err (of_option SourceAddress BadBlock) }
{}

/// FORMATS.md, "Statuses and fault lines": in the order of the table of filters.
pub fn the_first_malformed_option_is_reported()
    ensures the_protocol_before_packets { passes_all ((Packets, codes "x") ∷ (Number Protocol, codes "x") ∷ [])
        (by_map (codes "10.0.0.0/8 Inside\n198.51.100.0/24 Out, far\n")) tcp
        ≡ Err (of_option (Number Protocol) BadNumberList) }
    ensures the_source_port_before_the_destination_port { passes_all
        ((Number DestinationPort, codes "x") ∷ (Number SourcePort, codes "x") ∷ [])
        (by_map (codes "10.0.0.0/8 Inside\n198.51.100.0/24 Out, far\n")) tcp
        ≡ Err (of_option (Number SourcePort) BadNumberList) }
    ensures a_port_before_an_address { passes_all
        ((SourceAddress, codes "x") ∷ (Number DestinationPort, codes "x") ∷ [])
        (by_map (codes "10.0.0.0/8 Inside\n198.51.100.0/24 Out, far\n")) tcp
        ≡ Err (of_option (Number DestinationPort) BadNumberList) }
    ensures the_source_before_the_destination { passes_all
        ((DestinationAddress, codes "x") ∷ (SourceAddress, codes "x") ∷ [])
        (by_map (codes "10.0.0.0/8 Inside\n198.51.100.0/24 Out, far\n")) tcp ≡ Err (of_option SourceAddress BadBlock) }
    ensures packets_before_bytes { passes_all ((Bytes, codes "x") ∷ (Packets, codes "x") ∷ [])
        (by_map (codes "10.0.0.0/8 Inside\n198.51.100.0/24 Out, far\n")) tcp ≡ Err (of_option Packets BadRange) }
    ensures an_option_before_a_well_formed_one { passes_all ((Number Protocol, codes "17") ∷ (Bytes, codes "x") ∷ [])
        (by_map (codes "10.0.0.0/8 Inside\n198.51.100.0/24 Out, far\n")) tcp ≡ Err (of_option Bytes BadRange) }
{}
