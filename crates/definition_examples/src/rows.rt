//! Rows of records. The elements are those of IANA's registry, and bytes are in network byte order (RFC 7011).
#![tactic(auto, unfolding(crate::specs::Rows::opened))]

ghost use Rattle.definition_examples.specs.Rows.{field, first_ipv6, hex, plain, plain_back, plain_ipv6, reverse};
ghost use Rattle.definition_examples.specs.Rows.{rows_of, rows_with, second_ipv6, tcp, tcp_back, tcp_values, value};
ghost use Rattle.flow_rows.specs.Elements.{rows_of_record};
ghost use Rattle.ipfix_read.specs.Value.{values_at};
ghost use Rattle.ipfix_templates.specs.Elements.{fits};
ghost use Rattle.ipfix_templates.specs.declared.kind.Kind.TheVariants.{Flow, Options};
ghost use Rattle.prefix_keys.specs.declared.version.Version.TheVariants.{V6};
ghost use Rattle.std.specs.Prelude.{◌≡◌, ◌++◌, ◌∷◌, [], codes, None, Some, false};

/// FORMATS.md, "Rows of a File": the table. The values are those of Python's `int.from_bytes`.
pub fn a_number_has_its_element()
    ensures addresses_alone { rows_with [] ≡ plain ∷ [] }
    ensures source_port { rows_with (value 7 (codes "1f90") ∷ []) ≡ record plain { sport = 8080 } ∷ [] }
    ensures destination_port { rows_with (value 11 (codes "01bb") ∷ []) ≡ record plain { dport = 443 } ∷ [] }
    ensures protocol { rows_with (value 4 (codes "11") ∷ []) ≡ record plain { protocol = 17 } ∷ [] }
    ensures flags { rows_with (value 6 (codes "1b") ∷ []) ≡ record plain { flags = 27 } ∷ [] }
    ensures packets { rows_with (value 2 (codes "00000005") ∷ []) ≡ record plain { packets = 5 } ∷ [] }
    ensures total_packets { rows_with (value 86 (codes "00000005") ∷ []) ≡ record plain { packets = 5 } ∷ [] }
    ensures bytes { rows_with (value 1 (codes "00000222") ∷ []) ≡ record plain { octets = 546 } ∷ [] }
    ensures total_bytes { rows_with (value 85 (codes "00000222") ∷ []) ≡ record plain { octets = 546 } ∷ [] }
    ensures start { rows_with (value 152 (codes "0000018bcfe56806") ∷ [])
        ≡ record plain { start_ms = 1700000000006 } ∷ [] }
    ensures end { rows_with (value 153 (codes "0000018bcfe56952") ∷ []) ≡ record plain { end_ms = 1700000000338 } ∷ [] }
    ensures the_order_of_fields_is_free { rows_of
        (value 11 (codes "0050") ∷ value 12 (codes "0a000002") ∷ value 8 (codes "0a000001") ∷ [])
        ≡ record plain { dport = 80 } ∷ [] }
    ensures interfaces { rows_with (value 10 (codes "00010003") ∷ value 14 (codes "ffffffff") ∷ [])
        ≡ record plain { in_if = 65539; out_if = 4294967295 } ∷ [] }
    ensures vlan { rows_with (value 58 (codes "0064") ∷ []) ≡ record plain { vlan = 100 } ∷ [] }
    ensures vlan_of_a_tag { rows_with (value 243 (codes "0fff") ∷ []) ≡ record plain { vlan = 4095 } ∷ [] }
    ensures both_vlans { rows_with (value 243 (codes "0065") ∷ value 58 (codes "0064") ∷ [])
        ≡ record plain { vlan = 100 } ∷ [] }
    ensures as_numbers { rows_with (value 16 (codes "0000fde8") ∷ value 17 (codes "fa56ea00") ∷ [])
        ≡ record plain { src_as = 65000; dst_as = 4200000000 } ∷ [] }
    ensures another_element { rows_with (value 3 (codes "00000005") ∷ []) ≡ plain ∷ [] }
{}

/// RFC 7011, section 6.2, and the lengths of the table in FORMATS.md.
pub fn a_number_may_be_sent_in_fewer_bytes()
    ensures a_port_in_one_byte { rows_with (value 7 (codes "50") ∷ []) ≡ record plain { sport = 80 } ∷ [] }
    ensures another_port_in_one_byte { rows_with (value 11 (codes "35") ∷ []) ≡ record plain { dport = 53 } ∷ [] }
    ensures flags_in_two_bytes { rows_with (value 6 (codes "0112") ∷ []) ≡ record plain { flags = 274 } ∷ [] }
    ensures packets_in_one_byte { rows_with (value 2 (codes "ff") ∷ []) ≡ record plain { packets = 255 } ∷ [] }
    ensures packets_in_two_bytes { rows_with (value 2 (codes "0100") ∷ []) ≡ record plain { packets = 256 } ∷ [] }
    ensures packets_in_three_bytes { rows_with (value 2 (codes "010000") ∷ []) ≡ record plain { packets = 65536 } ∷ [] }
    ensures packets_in_five_bytes { rows_with (value 2 (codes "0100000000") ∷ [])
        ≡ record plain { packets = 4294967296 } ∷ [] }
    ensures packets_in_eight_bytes { rows_with (value 2 (codes "ffffffffffffffff") ∷ [])
        ≡ record plain { packets = 18446744073709551615 } ∷ [] }
    ensures bytes_in_one_byte { rows_with (value 1 (codes "2a") ∷ []) ≡ record plain { octets = 42 } ∷ [] }
    ensures bytes_in_eight_bytes { rows_with (value 1 (codes "0123456789abcdef") ∷ [])
        ≡ record plain { octets = 81985529216486895 } ∷ [] }
    ensures total_bytes_in_seven_bytes { rows_with (value 85 (codes "01000000000000") ∷ [])
        ≡ record plain { octets = 281474976710656 } ∷ [] }
    ensures total_packets_in_six_bytes { rows_with (value 86 (codes "010203040506") ∷ [])
        ≡ record plain { packets = 1108152157446 } ∷ [] }
    ensures an_interface_in_one_byte { rows_with (value 10 (codes "07") ∷ []) ≡ record plain { in_if = 7 } ∷ [] }
    ensures an_interface_in_three_bytes { rows_with (value 14 (codes "010000") ∷ [])
        ≡ record plain { out_if = 65536 } ∷ [] }
    ensures an_as_in_two_bytes { rows_with (value 16 (codes "fde8") ∷ []) ≡ record plain { src_as = 65000 } ∷ [] }
    ensures three_bytes_have_no_sign { rows_with (value 2 (codes "ff0000") ∷ [])
        ≡ record plain { packets = 16711680 } ∷ [] }
{}

/// FORMATS.md, "Rows of a File": the column of lengths.
pub fn fields_of_other_lengths_are_not_used()
    ensures a_port_of_three_bytes { rows_with (value 7 (codes "000050") ∷ []) ≡ plain ∷ [] }
    ensures an_interface_of_five_bytes { rows_with (value 10 (codes "0000000003") ∷ []) ≡ plain ∷ [] }
    ensures a_vlan_of_three_bytes { rows_with (value 58 (codes "000064") ∷ []) ≡ plain ∷ [] }
    ensures an_as_of_eight_bytes { rows_with (value 17 (codes "000000000000fde8") ∷ []) ≡ plain ∷ [] }
    ensures a_port_of_no_byte { rows_with (value 7 (codes "") ∷ []) ≡ plain ∷ [] }
    ensures a_protocol_of_two_bytes { rows_with (value 4 (codes "0006") ∷ []) ≡ plain ∷ [] }
    ensures flags_of_four_bytes { rows_with (value 6 (codes "0000001b") ∷ []) ≡ plain ∷ [] }
    ensures packets_of_nine_bytes { rows_with (value 2 (codes "000000000000000005") ∷ []) ≡ plain ∷ [] }
    ensures packets_of_no_byte { rows_with (value 2 (codes "") ∷ []) ≡ plain ∷ [] }
    ensures a_start_of_four_bytes { rows_with (value 152 (codes "6553f100") ∷ []) ≡ plain ∷ [] }
    ensures an_end_of_seven_bytes { rows_with (value 153 (codes "00018bcfe56952") ∷ []) ≡ plain ∷ [] }
    ensures an_address_of_eight_bytes { rows_of (value 8 (codes "000000000a000001") ∷ value 12 (codes "0a000002") ∷ [])
        ≡ [] }
    ensures an_address_of_three_bytes { rows_of (value 8 (codes "0a000001") ∷ value 12 (codes "000002") ∷ []) ≡ [] }
    ensures an_ipv6_address_of_four_bytes { rows_of (value 27 (codes "20010db8") ∷ value 28 (codes "20010db8") ∷ [])
        ≡ [] }
    ensures total_packets_in_place_of_unused_ones { rows_with
        (value 2 (codes "000000000000000005") ∷ value 86 (codes "07") ∷ []) ≡ record plain { packets = 7 } ∷ [] }
    ensures an_element_of_no_row { fits 3 4 ≡ false }
{}

/// FORMATS.md, "Rows of a File".
pub fn the_first_usable_field_is_used()
    ensures of_two { rows_with (value 7 (codes "0050") ∷ value 7 (codes "0051") ∷ [])
        ≡ record plain { sport = 80 } ∷ [] }
    ensures after_one_that_is_not_usable { rows_with (value 7 (codes "000050") ∷ value 7 (codes "0051") ∷ [])
        ≡ record plain { sport = 81 } ∷ [] }
    ensures the_address_too { rows_of
        (value 8 (codes "0a000001") ∷ value 8 (codes "0a000009") ∷ value 12 (codes "0a000002") ∷ []) ≡ plain ∷ [] }
    ensures packets_before_total_packets { rows_with (value 86 (codes "07") ∷ value 2 (codes "05") ∷ [])
        ≡ record plain { packets = 5 } ∷ [] }
    ensures bytes_before_total_bytes { rows_with (value 85 (codes "07") ∷ value 1 (codes "05") ∷ [])
        ≡ record plain { octets = 5 } ∷ [] }
    ensures no_packets_before_total_packets { rows_with (value 86 (codes "07") ∷ value 2 (codes "00") ∷ [])
        ≡ record plain { packets = 0 } ∷ [] }
    ensures an_enterprise_has_its_own_elements { rows_with
        (record { field = record { enterprise = Some 9; number = 7; length = 2 }; value = hex (codes "0050") } ∷ [])
        ≡ plain ∷ [] }
    ensures enterprise_0_is_none_of_ours { rows_with
        (record { field = record { enterprise = Some 0; number = 7; length = 2 }; value = hex (codes "0050") } ∷ [])
        ≡ plain ∷ [] }
    ensures variable_length { rows_with (record { field = field 7 65535; value = hex (codes "0050") } ∷ [])
        ≡ plain ∷ [] }
{}

/// FORMATS.md, "Rows of a File": the last remark.
pub fn a_row_has_both_addresses_of_a_version()
    ensures ipv6 { rows_of (first_ipv6 ∷ second_ipv6 ∷ []) ≡ plain_ipv6 ∷ [] }
    ensures all_four { rows_of
        (first_ipv6 ∷ second_ipv6 ∷ value 8 (codes "0a000001") ∷ value 12 (codes "0a000002") ∷ []) ≡ plain ∷ [] }
    ensures one_ipv4_address_and_both_ipv6_addresses { rows_of
        (value 8 (codes "0a000001") ∷ first_ipv6 ∷ second_ipv6 ∷ []) ≡ plain_ipv6 ∷ [] }
    ensures both_ipv4_addresses_and_one_ipv6_address { rows_of
        (second_ipv6 ∷ value 8 (codes "0a000001") ∷ value 12 (codes "0a000002") ∷ []) ≡ plain ∷ [] }
    ensures a_source_alone { rows_of (value 8 (codes "0a000001") ∷ []) ≡ [] }
    ensures a_destination_alone { rows_of (value 12 (codes "0a000002") ∷ []) ≡ [] }
    ensures one_of_each_version { rows_of (value 8 (codes "0a000001") ∷ second_ipv6 ∷ []) ≡ [] }
    ensures no_address { rows_of (value 7 (codes "0050") ∷ value 2 (codes "05") ∷ []) ≡ [] }
    ensures ipv4_mapped_addresses_stay { rows_of
        (value 27 (codes "00000000000000000000ffff0a000001") ∷ value 28 (codes "00000000000000000000ffff0a000002") ∷ [])
        ≡ record plain { version = V6; src = 0xffff_0a00_0001; dst = 0xffff_0a00_0002 } ∷ [] }
    ensures an_options_record { rows_of_record
        (record { kind = Options; fields = value 8 (codes "0a000001") ∷ value 12 (codes "0a000002") ∷ [] }) ≡ [] }
    ensures a_flow_record { rows_of_record
        (record { kind = Flow; fields = value 8 (codes "0a000001") ∷ value 12 (codes "0a000002") ∷ [] }) ≡ plain ∷ [] }
{}

/// RFC 5103, section 6.1, and FORMATS.md, "Records of both directions", with the record of softflowd.
pub fn a_record_of_both_directions_has_two_rows()
    ensures of_the_page { rows_of
        (tcp_values ++ reverse 6 (codes "13") ∷ reverse 2 (codes "00000002") ∷ reverse 1 (codes "00000050") ∷ [])
        ≡ tcp ∷ tcp_back ∷ [] }
    ensures one_direction_of_it { rows_of tcp_values ≡ tcp ∷ [] }
    ensures packets_alone { rows_with (reverse 2 (codes "02") ∷ []) ≡ plain ∷ plain_back ∷ [] }
    ensures total_packets { rows_with (reverse 86 (codes "02") ∷ []) ≡ plain ∷ plain_back ∷ [] }
    ensures packets_before_total_packets { rows_with (reverse 86 (codes "07") ∷ reverse 2 (codes "02") ∷ [])
        ≡ plain ∷ plain_back ∷ [] }
    ensures bytes { rows_with (reverse 2 (codes "02") ∷ reverse 1 (codes "50") ∷ [])
        ≡ plain ∷ record plain_back { octets = 80 } ∷ [] }
    ensures total_bytes { rows_with (reverse 2 (codes "02") ∷ reverse 85 (codes "50") ∷ [])
        ≡ plain ∷ record plain_back { octets = 80 } ∷ [] }
    ensures flags_are_not_those_of_the_first { rows_with (value 6 (codes "1b") ∷ reverse 2 (codes "02") ∷ [])
        ≡ record plain { flags = 27 } ∷ plain_back ∷ [] }
    ensures counts_are_not_those_of_the_first { rows_with
        (value 2 (codes "05") ∷ value 1 (codes "ff") ∷ reverse 2 (codes "02") ∷ [])
        ≡ record plain { packets = 5; octets = 255 } ∷ plain_back ∷ [] }
    ensures the_protocol_is_that_of_the_first { rows_with (value 4 (codes "11") ∷ reverse 2 (codes "02") ∷ [])
        ≡ record plain { protocol = 17 } ∷ record plain_back { protocol = 17 } ∷ [] }
    ensures ports_are_swapped { rows_with
        (value 7 (codes "0050") ∷ value 11 (codes "0051") ∷ reverse 2 (codes "02") ∷ [])
        ≡ record plain { sport = 80; dport = 81 } ∷ record plain_back { sport = 81; dport = 80 } ∷ [] }
    ensures interfaces_are_swapped { rows_with
        (value 10 (codes "03") ∷ value 14 (codes "04") ∷ reverse 2 (codes "02") ∷ [])
        ≡ record plain { in_if = 3; out_if = 4 } ∷ record plain_back { in_if = 4; out_if = 3 } ∷ [] }
    ensures as_numbers_are_swapped { rows_with
        (value 16 (codes "05") ∷ value 17 (codes "06") ∷ reverse 2 (codes "02") ∷ [])
        ≡ record plain { src_as = 5; dst_as = 6 } ∷ record plain_back { src_as = 6; dst_as = 5 } ∷ [] }
    ensures the_vlan_is_that_of_the_first { rows_with
        (value 58 (codes "64") ∷ reverse 58 (codes "65") ∷ reverse 2 (codes "02") ∷ [])
        ≡ record plain { vlan = 100 } ∷ record plain_back { vlan = 100 } ∷ [] }
    ensures reverse_ports_are_not_used { rows_with
        (value 7 (codes "0050") ∷ reverse 7 (codes "0052") ∷ reverse 2 (codes "02") ∷ [])
        ≡ record plain { sport = 80 } ∷ record plain_back { dport = 80 } ∷ [] }
    ensures a_reverse_start { rows_with
        (value 152 (codes "0000000000000009") ∷ reverse 152 (codes "000000000000000a") ∷ reverse 2 (codes "02") ∷ [])
        ≡ record plain { start_ms = 9 } ∷ record plain_back { start_ms = 10 } ∷ [] }
    ensures a_reverse_end { rows_with
        (value 153 (codes "0000000000000009") ∷ reverse 153 (codes "000000000000000a") ∷ reverse 2 (codes "02") ∷ [])
        ≡ record plain { end_ms = 9 } ∷ record plain_back { end_ms = 10 } ∷ [] }
    ensures times_of_the_first { rows_with
        (value 152 (codes "0000000000000009") ∷ value 153 (codes "000000000000000b") ∷ reverse 2 (codes "02") ∷ [])
        ≡ record plain { start_ms = 9; end_ms = 11 } ∷ record plain_back { start_ms = 9; end_ms = 11 } ∷ [] }
    ensures of_ipv6 { rows_of (first_ipv6 ∷ second_ipv6 ∷ reverse 2 (codes "01") ∷ [])
        ≡ plain_ipv6 ∷ record plain_ipv6 { src = plain_ipv6.dst; dst = plain_ipv6.src; packets = 1 } ∷ [] }
    ensures a_protocol_of_the_way_back { rows_with
        (value 4 (codes "11") ∷ reverse 4 (codes "06") ∷ reverse 2 (codes "02") ∷ [])
        ≡ record plain { protocol = 17 } ∷ record plain_back { protocol = 17 } ∷ [] }
{}

/// FORMATS.md, "Records of both directions": a second row needs a first row, and packets.
pub fn other_records_have_no_second_row()
    ensures no_packets { rows_with (reverse 2 (codes "00") ∷ reverse 1 (codes "50") ∷ []) ≡ plain ∷ [] }
    ensures missing_packets { rows_with (reverse 1 (codes "50") ∷ reverse 6 (codes "13") ∷ []) ≡ plain ∷ [] }
    ensures no_packets_before_total_packets { rows_with (reverse 2 (codes "00") ∷ reverse 86 (codes "05") ∷ [])
        ≡ plain ∷ [] }
    ensures packets_of_nine_bytes { rows_with (reverse 2 (codes "000000000000000002") ∷ []) ≡ plain ∷ [] }
    ensures no_first_row { rows_of (value 8 (codes "0a000001") ∷ reverse 2 (codes "02") ∷ []) ≡ [] }
    ensures reverse_addresses { rows_of
        (reverse 8 (codes "0a000001") ∷ reverse 12 (codes "0a000002") ∷ reverse 2 (codes "02") ∷ []) ≡ [] }
    ensures an_options_record { rows_of_record
        (record {
          kind = Options;
          fields = value 8 (codes "0a000001") ∷ value 12 (codes "0a000002")
              ∷ reverse 2 (codes "02") ∷ [];
        }) ≡ [] }
{}

/// RFC 7011, appendix A.4: 5009 packets and 5344385 bytes, 748 and 388934, 5 and 6534.
pub fn the_flow_records_of_rfc_7011()
    ensures the_first { rows_of
        (value 8 (codes "c000020c") ∷ value 12 (codes "c00002fe") ∷ value 15 (codes "c0000201")
        ∷ value 2 (codes "00001391") ∷ value 1 (codes "00518c81") ∷ [])
        ≡ record plain { src = 0xc000_020c; dst = 0xc000_02fe; packets = 5009; octets = 5344385 } ∷ [] }
    ensures the_second { rows_of
        (value 8 (codes "c000021b") ∷ value 12 (codes "c0000217") ∷ value 15 (codes "c0000202")
        ∷ value 2 (codes "000002ec") ∷ value 1 (codes "0005ef46") ∷ [])
        ≡ record plain { src = 0xc000_021b; dst = 0xc000_0217; packets = 748; octets = 388934 } ∷ [] }
    ensures the_third { rows_of
        (value 8 (codes "c0000238") ∷ value 12 (codes "c0000241") ∷ value 15 (codes "c0000203")
        ∷ value 2 (codes "00000005") ∷ value 1 (codes "00001986") ∷ [])
        ≡ record plain { src = 0xc000_0238; dst = 0xc000_0241; packets = 5; octets = 6534 } ∷ [] }
{}

/// RFC 7011, sections 3.4.3 and 7: the length of a value is that of its field, or precedes the value in one byte or
/// three.
pub fn values_are_cut_out_of_a_record()
    ensures fixed_lengths { values_at (field 8 4 ∷ field 7 2 ∷ []) (hex (codes "0a000001 0050 ff"))
        ≡ Some (
          record { field = field 8 4; value = hex (codes "0a000001") }
              ∷ record { field = field 7 2; value = hex (codes "0050") } ∷ [],
          hex (codes "ff"),
        ) }
    ensures too_short { values_at (field 8 4 ∷ field 7 2 ∷ []) (hex (codes "0a000001 00")) ≡ None }
    ensures one_byte_of_length { values_at (field 82 65535 ∷ field 7 2 ∷ []) (hex (codes "03 657468 0050"))
        ≡ Some (
          record { field = field 82 65535; value = hex (codes "657468") }
              ∷ record { field = field 7 2; value = hex (codes "0050") } ∷ [],
          hex (codes ""),
        ) }
    ensures three_bytes_of_length { values_at (field 82 65535 ∷ field 7 2 ∷ []) (hex (codes "ff0003 657468 0050"))
        ≡ Some (
          record { field = field 82 65535; value = hex (codes "657468") }
              ∷ record { field = field 7 2; value = hex (codes "0050") } ∷ [],
          hex (codes ""),
        ) }
    ensures no_bytes { values_at (field 82 65535 ∷ []) (hex (codes "00 01"))
        ≡ Some (record { field = field 82 65535; value = hex (codes "") } ∷ [], hex (codes "01")) }
    ensures a_length_that_is_too_large { values_at (field 82 65535 ∷ []) (hex (codes "04 657468")) ≡ None }
    ensures a_length_that_is_cut_off { values_at (field 82 65535 ∷ []) (hex (codes "ff00")) ≡ None }
    ensures nothing_left { values_at (field 82 65535 ∷ []) (hex (codes "")) ≡ None }
{}
