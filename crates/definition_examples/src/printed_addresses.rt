//! Addresses and blocks as they are printed. The texts are those of Python's `ipaddress`, and of RFC 5952.
#![tactic(auto, unfolding(crate::specs::Addresses::opened))]

ghost use Rattle.prefix_keys.specs.Print.{address_text, block_text};
ghost use Rattle.prefix_keys.specs.declared.version.Version.TheVariants.{V4, V6};
ghost use Rattle.std.specs.Prelude.{◌≡◌, codes};

/// Four numbers without leading zeros, separated by dots, the highest byte first.
pub fn an_ipv4_address_is_four_decimal_numbers()
    ensures the_least { address_text V4 0x0000 ≡ codes "0.0.0.0" }
    ensures the_greatest { address_text V4 0xffff_ffff ≡ codes "255.255.255.255" }
    ensures the_highest_byte_is_first { address_text V4 0x0102_0304 ≡ codes "1.2.3.4" }
    ensures a_zero_within { address_text V4 0x0a00_c81e ≡ codes "10.0.200.30" }
    ensures one_to_three_digits { address_text V4 0x090a_6364 ≡ codes "9.10.99.100" }
{}

/// RFC 5952, section 4.1: leading zeros are suppressed, and a group of zeros is one digit.
pub fn leading_zeros_are_not_printed()
    ensures of_the_rfc { address_text V6 0x2001_0db8_0000_0000_0000_0000_0000_0001 ≡ codes "2001:db8::1" }
    ensures in_each_group { address_text V6 0x0001_0020_0300_4000_0005_0060_0700_8000
        ≡ codes "1:20:300:4000:5:60:700:8000" }
    ensures a_single_group_of_zeros { address_text V6 0x0001_0002_0003_0000_0005_0006_0007_0008
        ≡ codes "1:2:3:0:5:6:7:8" }
{}

/// RFC 5952, section 4.2.1: a `::` replaces all groups of zeros that it can.
pub fn a_gap_is_as_long_as_possible()
    ensures of_the_rfc { address_text V6 0x2001_0db8_0000_0000_0000_0000_0002_0001 ≡ codes "2001:db8::2:1" }
    ensures no_zero_beside_it { address_text V6 0x2001_0db8_0000_0000_0000_0000_0000_0001 ≡ codes "2001:db8::1" }
    ensures at_the_end { address_text V6 0x2001_0db8_0000_0000_0000_0000_0000_0000 ≡ codes "2001:db8::" }
    ensures at_the_start { address_text V6 0x0001 ≡ codes "::1" }
    ensures all_groups { address_text V6 0x0000 ≡ codes "::" }
    ensures all_but_the_first { address_text V6 0x0001_0000_0000_0000_0000_0000_0000_0000 ≡ codes "1::" }
    ensures two_groups { address_text V6 0x0001_0002_0003_0000_0000_0006_0007_0008 ≡ codes "1:2:3::6:7:8" }
    ensures two_groups_at_the_end { address_text V6 0x0001_0002_0003_0004_0005_0006_0000_0000 ≡ codes "1:2:3:4:5:6::" }
    ensures two_groups_at_the_start { address_text V6 0x0003_0004_0005_0006_0007_0008 ≡ codes "::3:4:5:6:7:8" }
{}

/// RFC 5952, section 4.2.2: a `::` never replaces a single group of zeros.
pub fn one_group_is_not_shortened()
    ensures of_the_rfc { address_text V6 0x2001_0db8_0000_0001_0001_0001_0001_0001 ≡ codes "2001:db8:0:1:1:1:1:1" }
    ensures two_single_groups { address_text V6 0x0001_0000_0003_0004_0000_0006_0007_0008 ≡ codes "1:0:3:4:0:6:7:8" }
    ensures at_the_start { address_text V6 0x0002_0003_0004_0005_0006_0007_0008 ≡ codes "0:2:3:4:5:6:7:8" }
    ensures at_the_end { address_text V6 0x0001_0002_0003_0004_0005_0006_0007_0000 ≡ codes "1:2:3:4:5:6:7:0" }
{}

/// RFC 5952, section 4.2.3: the longest run, or the first of several equally long ones.
pub fn the_longest_run_is_shortened()
    ensures of_the_rfc { address_text V6 0x2001_0000_0000_0001_0000_0000_0000_0001 ≡ codes "2001:0:0:1::1" }
    ensures the_first_of_two { address_text V6 0x2001_0db8_0000_0000_0001_0000_0000_0001 ≡ codes "2001:db8::1:0:0:1" }
    ensures the_first_of_two_at_both_ends { address_text V6 0x0003_0004_0005_0006_0000_0000 ≡ codes "::3:4:5:6:0:0" }
    ensures the_second_is_longer { address_text V6 0x0003_0004_0005_0000_0000_0000 ≡ codes "0:0:3:4:5::" }
    ensures the_first_is_longer { address_text V6 0x0004_0005_0006_0000_0000 ≡ codes "::4:5:6:0:0" }
    ensures a_single_group_before { address_text V6 0x0002_0000_0000_0005_0006_0007_0008 ≡ codes "0:2::5:6:7:8" }
    ensures the_first_of_three { address_text V6 0x0003_0000_0000_0006_0000_0000 ≡ codes "::3:0:0:6:0:0" }
{}

/// RFC 5952, section 4.3. The IPv4 address of an IPv4-mapped address isn't printed with dots.
pub fn digits_are_in_lower_case()
    ensures each_digit { address_text V6 0xabcd_ef01_2345_6789_abcd_ef01_2345_6789
        ≡ codes "abcd:ef01:2345:6789:abcd:ef01:2345:6789" }
    ensures the_greatest { address_text V6 0xffff_ffff_ffff_ffff_ffff_ffff_ffff_ffff
        ≡ codes "ffff:ffff:ffff:ffff:ffff:ffff:ffff:ffff" }
    ensures documentation { address_text V6 0x2001_0db8_0000_0000_0008_0800_200c_417a
        ≡ codes "2001:db8::8:800:200c:417a" }
    ensures mapped { address_text V6 0xffff_0a00_0001 ≡ codes "::ffff:a00:1" }
{}

/// The first address, a `/` and the length.
pub fn a_block_is_its_address_and_its_length()
    ensures class_a { block_text V4 0x0a00_0000 8 ≡ codes "10.0.0.0/8" }
    ensures all_ipv4_addresses { block_text V4 0x0000 0 ≡ codes "0.0.0.0/0" }
    ensures one_ipv4_address { block_text V4 0xc000_0209 32 ≡ codes "192.0.2.9/32" }
    ensures documentation { block_text V6 0x2001_0db8_0000_0000_0000_0000_0000_0000 32 ≡ codes "2001:db8::/32" }
    ensures all_ipv6_addresses { block_text V6 0x0000 0 ≡ codes "::/0" }
    ensures one_ipv6_address { block_text V6 0x2001_0db8_0000_0000_0000_0000_0000_0001 128 ≡ codes "2001:db8::1/128" }
{}
