//! Addresses and blocks as texts represent them. The numbers are those of Python's `ipaddress`.

ghost use Rattle.prefix_keys.specs.Conversion.{converted};
ghost use Rattle.prefix_keys.specs.declared.version.Version.TheVariants.{V4, V6};
ghost use Rattle.prefix_keys.specs.Text.{address_of, block_of_text};
ghost use Rattle.prefix_keys.specs.declared.text.BlockFault.TheVariants.{BadAddress, BadLength};
ghost use Rattle.std.specs.Prelude.{◌≡◌, codes, Err, None, Ok, Some};

/// An IPv4 address is four numbers from 0 to 255, of one to three digits, the first the highest.
pub fn four_decimal_numbers_are_an_ipv4_address()
    ensures the_least { address_of (codes "0.0.0.0") ≡ Some (V4, 0x0000) }
    ensures the_greatest { address_of (codes "255.255.255.255") ≡ Some (V4, 0xffff_ffff) }
    ensures the_first_number_is_the_highest { address_of (codes "1.2.3.4") ≡ Some (V4, 0x0102_0304) }
    ensures private { address_of (codes "192.168.0.1") ≡ Some (V4, 0xc0a8_0001) }
    ensures leading_zeros_are_allowed { address_of (codes "010.000.00.001") ≡ Some (V4, 0x0a00_0001) }
    ensures digits_are_decimal { address_of (codes "099.100.009.010") ≡ Some (V4, 0x6364_090a) }
    ensures documentation { address_of (codes "198.51.100.99") ≡ Some (V4, 0xc633_6463) }
    ensures a_tens_digit_counts_ten { address_of (codes "0.0.0.90") ≡ Some (V4, 0x005a) }
{}

/// Python's `ipaddress` refuses these texts too.
pub fn other_texts_are_no_ipv4_address()
    ensures a_number_above_255 { address_of (codes "256.0.0.1") ≡ None }
    ensures a_last_number_above_255 { address_of (codes "10.0.0.256") ≡ None }
    ensures three_numbers { address_of (codes "1.2.3") ≡ None }
    ensures five_numbers { address_of (codes "1.2.3.4.5") ≡ None }
    ensures four_digits { address_of (codes "1.2.3.0004") ≡ None }
    ensures an_empty_number { address_of (codes "1..2.3") ≡ None }
    ensures nothing { address_of (codes "") ≡ None }
    ensures a_sign { address_of (codes "+1.2.3.4") ≡ None }
    ensures a_blank_before { address_of (codes " 1.2.3.4") ≡ None }
    ensures a_blank_after { address_of (codes "1.2.3.4 ") ≡ None }
    ensures a_letter { address_of (codes "1.2.3.a") ≡ None }
    ensures a_point_after { address_of (codes "1.2.3.4.") ≡ None }
    ensures a_point_before { address_of (codes ".1.2.3.4") ≡ None }
    ensures a_whole_number { address_of (codes "16909060") ≡ None }
    ensures a_host_name { address_of (codes "localhost") ≡ None }
    ensures hexadecimal { address_of (codes "0x1.2.3.4") ≡ None }
    ensures commas { address_of (codes "1,2,3,4") ≡ None }
    ensures a_byte_before_the_digits { address_of (codes "1.2.3./") ≡ None }
    ensures a_byte_after_the_digits { address_of (codes "1.2.3.:") ≡ None }
{}

/// The first form of RFC 4291, section 2.2: eight groups of one to four hexadecimal digits.
pub fn eight_groups_are_an_ipv6_address()
    ensures of_the_rfc { address_of (codes "ABCD:EF01:2345:6789:ABCD:EF01:2345:6789")
        ≡ Some (V6, 0xabcd_ef01_2345_6789_abcd_ef01_2345_6789) }
    ensures without_leading_zeros { address_of (codes "2001:DB8:0:0:8:800:200C:417A")
        ≡ Some (V6, 0x2001_0db8_0000_0000_0008_0800_200c_417a) }
    ensures lower_case { address_of (codes "abcd:ef01:2345:6789:abcd:ef01:2345:6789")
        ≡ Some (V6, 0xabcd_ef01_2345_6789_abcd_ef01_2345_6789) }
    ensures multicast { address_of (codes "FF01:0:0:0:0:0:0:101")
        ≡ Some (V6, 0xff01_0000_0000_0000_0000_0000_0000_0101) }
    ensures loopback { address_of (codes "0:0:0:0:0:0:0:1") ≡ Some (V6, 0x0001) }
    ensures unspecified { address_of (codes "0:0:0:0:0:0:0:0") ≡ Some (V6, 0x0000) }
    ensures leading_zeros { address_of (codes "2001:0db8:0000:0000:0001:0000:0000:0001")
        ≡ Some (V6, 0x2001_0db8_0000_0000_0001_0000_0000_0001) }
    ensures the_greatest { address_of (codes "ffff:ffff:ffff:ffff:ffff:ffff:ffff:ffff")
        ≡ Some (V6, 0xffff_ffff_ffff_ffff_ffff_ffff_ffff_ffff) }
    ensures the_first_group_is_the_highest { address_of (codes "1:2:3:4:5:6:7:8")
        ≡ Some (V6, 0x0001_0002_0003_0004_0005_0006_0007_0008) }
    ensures each_digit { address_of (codes "0123:4567:89ab:cdef:fedc:ba98:7654:3210")
        ≡ Some (V6, 0x0123_4567_89ab_cdef_fedc_ba98_7654_3210) }
{}

/// The second form of RFC 4291, section 2.2: one `::` replaces one or more groups of zeros.
pub fn a_gap_replaces_groups_of_zeros()
    ensures unicast { address_of (codes "2001:DB8::8:800:200C:417A")
        ≡ Some (V6, 0x2001_0db8_0000_0000_0008_0800_200c_417a) }
    ensures multicast { address_of (codes "FF01::101") ≡ Some (V6, 0xff01_0000_0000_0000_0000_0000_0000_0101) }
    ensures loopback { address_of (codes "::1") ≡ Some (V6, 0x0001) }
    ensures unspecified { address_of (codes "::") ≡ Some (V6, 0x0000) }
    ensures at_the_end { address_of (codes "2001:db8::") ≡ Some (V6, 0x2001_0db8_0000_0000_0000_0000_0000_0000) }
    ensures one_group_before { address_of (codes "::2:3:4:5:6:7:8") ≡ Some (V6, 0x0002_0003_0004_0005_0006_0007_0008) }
    ensures one_group_after { address_of (codes "1:2:3:4:5:6:7::")
        ≡ Some (V6, 0x0001_0002_0003_0004_0005_0006_0007_0000) }
    ensures one_group_within { address_of (codes "1:2:3::5:6:7:8")
        ≡ Some (V6, 0x0001_0002_0003_0000_0005_0006_0007_0008) }
    ensures link_local { address_of (codes "fe80::1") ≡ Some (V6, 0xfe80_0000_0000_0000_0000_0000_0000_0001) }
    ensures a_zero_beside { address_of (codes "2001:db8::0:1:0:0:1")
        ≡ Some (V6, 0x2001_0db8_0000_0000_0001_0000_0000_0001) }
{}

/// The texts of RFC 5952, section 2.1 to 2.3, for one address.
pub fn variations_are_the_same_address()
    ensures in_full { address_of (codes "2001:db8:0:0:1:0:0:1") ≡ Some (V6, 0x2001_0db8_0000_0000_0001_0000_0000_0001) }
    ensures a_leading_zero { address_of (codes "2001:0db8:0:0:1:0:0:1")
        ≡ Some (V6, 0x2001_0db8_0000_0000_0001_0000_0000_0001) }
    ensures the_first_gap { address_of (codes "2001:db8::1:0:0:1")
        ≡ Some (V6, 0x2001_0db8_0000_0000_0001_0000_0000_0001) }
    ensures the_first_gap_and_a_zero { address_of (codes "2001:db8::0:1:0:0:1")
        ≡ Some (V6, 0x2001_0db8_0000_0000_0001_0000_0000_0001) }
    ensures a_leading_zero_and_a_gap { address_of (codes "2001:0db8::1:0:0:1")
        ≡ Some (V6, 0x2001_0db8_0000_0000_0001_0000_0000_0001) }
    ensures the_second_gap { address_of (codes "2001:db8:0:0:1::1")
        ≡ Some (V6, 0x2001_0db8_0000_0000_0001_0000_0000_0001) }
    ensures four_zeros { address_of (codes "2001:db8:0000:0:1::1")
        ≡ Some (V6, 0x2001_0db8_0000_0000_0001_0000_0000_0001) }
    ensures capital_letters { address_of (codes "2001:DB8:0:0:1::1")
        ≡ Some (V6, 0x2001_0db8_0000_0000_0001_0000_0000_0001) }
    ensures mixed_letters { address_of (codes "2001:Db8::1:0:0:1")
        ≡ Some (V6, 0x2001_0db8_0000_0000_0001_0000_0000_0001) }
{}

/// The third form of RFC 4291, section 2.2. Leading zeros are allowed there too.
pub fn an_ipv4_text_may_end_an_ipv6_address()
    ensures compatible { address_of (codes "0:0:0:0:0:0:13.1.68.3") ≡ Some (V6, 0x0d01_4403) }
    ensures mapped { address_of (codes "0:0:0:0:0:FFFF:129.144.52.38") ≡ Some (V6, 0xffff_8190_3426) }
    ensures compatible_with_a_gap { address_of (codes "::13.1.68.3") ≡ Some (V6, 0x0d01_4403) }
    ensures mapped_with_a_gap { address_of (codes "::FFFF:129.144.52.38") ≡ Some (V6, 0xffff_8190_3426) }
    ensures after_six_groups { address_of (codes "1:2:3:4:5:6:1.2.3.4")
        ≡ Some (V6, 0x0001_0002_0003_0004_0005_0006_0102_0304) }
    ensures after_five_groups_and_a_gap { address_of (codes "1:2:3:4:5::1.2.3.4")
        ≡ Some (V6, 0x0001_0002_0003_0004_0005_0000_0102_0304) }
    ensures translated { address_of (codes "64:ff9b::192.0.2.33")
        ≡ Some (V6, 0x0064_ff9b_0000_0000_0000_0000_c000_0221) }
    ensures with_leading_zeros { address_of (codes "::ffff:010.001.1.1") ≡ Some (V6, 0xffff_0a01_0101) }
{}

/// Python's `ipaddress` refuses these texts too. It only accepts a zone.
pub fn other_texts_are_no_ipv6_address()
    ensures two_gaps { address_of (codes "1::2::3") ≡ None }
    ensures three_colons { address_of (codes ":::") ≡ None }
    ensures three_colons_within { address_of (codes "1:::2") ≡ None }
    ensures seven_groups { address_of (codes "1:2:3:4:5:6:7") ≡ None }
    ensures nine_groups { address_of (codes "1:2:3:4:5:6:7:8:9") ≡ None }
    ensures a_gap_of_no_group { address_of (codes "1:2:3:4::5:6:7:8") ≡ None }
    ensures five_digits { address_of (codes "00001::") ≡ None }
    ensures a_letter_above_f { address_of (codes "2001:db8::g") ≡ None }
    ensures one_colon { address_of (codes ":") ≡ None }
    ensures a_colon_before { address_of (codes ":1:2:3:4:5:6:7") ≡ None }
    ensures a_colon_after { address_of (codes "1:2:3:4:5:6:7:") ≡ None }
    ensures ipv4_before_a_gap { address_of (codes "1.2.3.4::") ≡ None }
    ensures ipv4_before_a_group { address_of (codes "::1.2.3.4:5") ≡ None }
    ensures ipv4_after_seven_groups { address_of (codes "1:2:3:4:5:6:7:1.2.3.4") ≡ None }
    ensures ipv4_of_three_numbers { address_of (codes "::1.2.3") ≡ None }
    ensures ipv4_above_255 { address_of (codes "::ffff:256.0.0.1") ≡ None }
    ensures a_bracket { address_of (codes "[::1]") ≡ None }
    ensures a_blank { address_of (codes "::1 ") ≡ None }
    ensures a_zone { address_of (codes "fe80::1%eth0") ≡ None }
    ensures a_byte_before_the_letters { address_of (codes "::@") ≡ None }
    ensures a_capital_above_f { address_of (codes "::G") ≡ None }
{}

/// Host bits are cleared. A length has one to three digits, at most 32 for IPv4 and 128 for IPv6.
pub fn a_block_is_an_address_and_a_length()
    ensures class_a { block_of_text (codes "10.0.0.0/8") ≡ Ok (V4, 0x0a00_0000, 8) }
    ensures host_bits_are_cleared { block_of_text (codes "10.1.2.3/8") ≡ Ok (V4, 0x0a00_0000, 8) }
    ensures a_leading_zero { block_of_text (codes "10.0.0.0/08") ≡ Ok (V4, 0x0a00_0000, 8) }
    ensures two_leading_zeros { block_of_text (codes "10.0.0.0/008") ≡ Ok (V4, 0x0a00_0000, 8) }
    ensures all_ipv4_addresses { block_of_text (codes "255.255.255.255/0") ≡ Ok (V4, 0x0000, 0) }
    ensures one_ipv4_address { block_of_text (codes "192.0.2.9/32") ≡ Ok (V4, 0xc000_0209, 32) }
    ensures two_ipv4_addresses { block_of_text (codes "192.0.2.9/31") ≡ Ok (V4, 0xc000_0208, 31) }
    ensures half_of_the_ipv4_addresses { block_of_text (codes "192.0.2.9/1") ≡ Ok (V4, 0x8000_0000, 1) }
    ensures within_a_byte { block_of_text (codes "198.51.100.99/27") ≡ Ok (V4, 0xc633_6460, 27) }
    ensures all_ipv6_addresses { block_of_text (codes "ffff::/0") ≡ Ok (V6, 0x0000, 0) }
    ensures one_ipv6_address { block_of_text (codes "2001:db8::9/128")
        ≡ Ok (V6, 0x2001_0db8_0000_0000_0000_0000_0000_0009, 128) }
    ensures two_ipv6_addresses { block_of_text (codes "2001:db8::9/127")
        ≡ Ok (V6, 0x2001_0db8_0000_0000_0000_0000_0000_0008, 127) }
    ensures documentation { block_of_text (codes "2001:db8:ffff::1/32")
        ≡ Ok (V6, 0x2001_0db8_0000_0000_0000_0000_0000_0000, 32) }
    ensures mapped_with_a_short_length { block_of_text (codes "::ffff:10.0.0.0/8") ≡ Ok (V6, 0x0000, 8) }
    ensures mapped_with_a_long_length { block_of_text (codes "::ffff:10.0.0.0/104") ≡ Ok (V6, 0xffff_0a00_0000, 104) }
{}

/// RFC 4291, section 2.3: three texts of one prefix, a node's address with its prefix, and texts that are wrong for the
/// prefix.
pub fn the_blocks_of_rfc_4291()
    ensures in_full { block_of_text (codes "2001:0DB8:0000:CD30:0000:0000:0000:0000/60")
        ≡ Ok (V6, 0x2001_0db8_0000_cd30_0000_0000_0000_0000, 60) }
    ensures a_gap_before { block_of_text (codes "2001:0DB8::CD30:0:0:0:0/60")
        ≡ Ok (V6, 0x2001_0db8_0000_cd30_0000_0000_0000_0000, 60) }
    ensures a_gap_after { block_of_text (codes "2001:0DB8:0:CD30::/60")
        ≡ Ok (V6, 0x2001_0db8_0000_cd30_0000_0000_0000_0000, 60) }
    ensures a_node { block_of_text (codes "2001:0DB8:0:CD30:123:4567:89AB:CDEF/60")
        ≡ Ok (V6, 0x2001_0db8_0000_cd30_0000_0000_0000_0000, 60) }
    ensures seven_groups_are_missing { block_of_text (codes "2001:0DB8:0:CD3/60") ≡ Err BadAddress }
    ensures a_gap_that_ends_too_late { block_of_text (codes "2001:0DB8::CD30/60")
        ≡ Ok (V6, 0x2001_0db8_0000_0000_0000_0000_0000_0000, 60) }
    ensures a_dropped_trailing_zero { block_of_text (codes "2001:0DB8::CD3/60")
        ≡ Ok (V6, 0x2001_0db8_0000_0000_0000_0000_0000_0000, 60) }
{}

/// The address is read before the length.
pub fn other_texts_are_no_block()
    ensures a_length_above_32 { block_of_text (codes "10.0.0.0/33") ≡ Err BadLength }
    ensures no_length { block_of_text (codes "10.0.0.0/") ≡ Err BadLength }
    ensures no_slash { block_of_text (codes "10.0.0.0") ≡ Err BadLength }
    ensures a_length_above_128 { block_of_text (codes "::/129") ≡ Err BadLength }
    ensures a_length_of_four_digits { block_of_text (codes "10.0.0.0/0008") ≡ Err BadLength }
    ensures a_netmask { block_of_text (codes "10.0.0.0/255.0.0.0") ≡ Err BadLength }
    ensures a_sign { block_of_text (codes "10.0.0.0/+8") ≡ Err BadLength }
    ensures a_blank { block_of_text (codes "10.0.0.0/ 8") ≡ Err BadLength }
    ensures a_second_length { block_of_text (codes "10.0.0.0/8/8") ≡ Err BadLength }
    ensures a_comma { block_of_text (codes "10.0.0.0/8,Alder") ≡ Err BadLength }
    ensures three_numbers { block_of_text (codes "10.0.0/8") ≡ Err BadAddress }
    ensures a_length_alone { block_of_text (codes "/8") ≡ Err BadAddress }
    ensures both_malformed { block_of_text (codes "10.0.0/33") ≡ Err BadAddress }
    ensures a_word { block_of_text (codes "x/8") ≡ Err BadAddress }
    ensures the_length_belongs_to_the_version_as_written { block_of_text (codes "10.0.0.0/104") ≡ Err BadLength }
    ensures a_colon_in_a_length { block_of_text (codes "10.0.0.0/1:") ≡ Err BadLength }
{}

/// RFC 4291, section 2.5.5.2.
pub fn an_address_has_another_version()
    ensures ipv6_as_ipv4 { converted V4 (V6, 0xffff_0a00_0001) ≡ Some (V4, 0x0a00_0001) }
    ensures ipv4_as_ipv6 { converted V6 (V4, 0x0a00_0001) ≡ Some (V6, 0xffff_0a00_0001) }
    ensures no_ipv4_address { converted V4 (V6, 0x0a00_0001) ≡ None }
    ensures the_same_version { converted V6 (V6, 1) ≡ Some (V6, 1) }
    ensures ipv4_within_ipv6 { address_of (codes "::255.255.0.0") ≡ Some (V6, 0xffff_0000) }
{}
