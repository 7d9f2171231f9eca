//! Lists: how the lines of a text are read, and the label of an address under the list.

ghost use Rattle.definition_examples.specs.Maps.{of_list, office_list, under_list};
ghost use Rattle.pmap_cert.specs.ListText.{labels_of};
ghost use Rattle.pmap_model.specs.ListModel.{list_label, label_below};
ghost use Rattle.prefix_keys.specs.declared.version.Version.TheVariants.{V4, V6};
ghost use Rattle.std.specs.Prelude.{◌≡◌, ◌∷◌, [], codes, None, Ok, Some};

/// FORMATS.md, "Prefix lists": the example.
pub fn the_list_of_the_page()
    ensures the_longest_block { under_list office_list (codes "10.1.2.3") ≡ Ok (Some (codes "Guest network")) }
    ensures the_later_block { under_list office_list (codes "10.2.2.3") ≡ Ok (Some (codes "Inside")) }
    ensures all_addresses { under_list office_list (codes "11.0.0.1") ≡ Ok (Some (codes "elsewhere")) }
    ensures its_labels { of_list (λ m. m.table) office_list
        ≡ Ok (codes "elsewhere" ∷ codes "Guest network" ∷ codes "Inside" ∷ []) }
    ensures its_version { of_list (λ m. m.version) office_list ≡ Ok V4 }
    ensures its_name { of_list (λ m. m.name) office_list ≡ Ok None }
{}

/// FORMATS.md, "Prefix lists": if several entries cover an address, the one with the longest block counts, whatever
/// their order.
pub fn the_longest_block_counts()
    ensures the_longer_one_later { under_list (codes "10.0.0.0/8 A\n10.1.0.0/16 B\n") (codes "10.1.0.1")
        ≡ Ok (Some (codes "B")) }
    ensures the_longer_one_earlier { under_list (codes "10.1.0.0/16 B\n10.0.0.0/8 A\n") (codes "10.1.0.1")
        ≡ Ok (Some (codes "B")) }
    ensures outside_the_longer_one { under_list (codes "10.1.0.0/16 B\n10.0.0.0/8 A\n") (codes "10.2.0.1")
        ≡ Ok (Some (codes "A")) }
    ensures one_address { under_list (codes "10.0.0.1 C\n10.0.0.0/31 A\n10.0.0.0/8 B\n") (codes "10.0.0.1")
        ≡ Ok (Some (codes "C")) }
    ensures beside_the_address { under_list (codes "10.0.0.1 C\n10.0.0.0/31 A\n10.0.0.0/8 B\n") (codes "10.0.0.0")
        ≡ Ok (Some (codes "A")) }
    ensures no_entry { under_list (codes "10.0.0.0/8 A\n") (codes "11.0.0.0") ≡ Ok None }
    ensures the_last_address_of_a_block { under_list (codes "10.0.0.0/8 A\n") (codes "10.255.255.255")
        ≡ Ok (Some (codes "A")) }
    ensures the_address_before_a_block { under_list (codes "10.0.0.0/8 A\n") (codes "9.255.255.255") ≡ Ok None }
    ensures an_empty_list { under_list (codes "") (codes "10.0.0.0") ≡ Ok None }
    ensures a_block_of_length_0 { under_list (codes "0.0.0.0/0 A\n") (codes "255.255.255.255") ≡ Ok (Some (codes "A")) }
    ensures ipv6 { under_list (codes "2001:db8::/32 A\n2001:db8::/48 B\n::/0 C\n") (codes "2001:db8::1")
        ≡ Ok (Some (codes "B")) }
    ensures ipv6_outside { under_list (codes "2001:db8::/32 A\n2001:db8::/48 B\n::/0 C\n") (codes "2001:db8:1::1")
        ≡ Ok (Some (codes "A")) }
    ensures one_ipv6_address { under_list (codes "2001:db8::1 D\n2001:db8::/32 A\n") (codes "2001:db8::1")
        ≡ Ok (Some (codes "D")) }
    ensures among_addresses_of_four_bits { label_below 4 (record { start = 2; bits = 3; label = codes "A" } ∷ []) 5 3
        ≡ Some (codes "A") }
{}

/// Host bits are cleared. A single address is a block of length 32 or 128.
pub fn an_entry_is_a_block()
    ensures host_bits { of_list (λ m. m.prefixes) (codes "10.1.2.3/8 A\n")
        ≡ Ok (record { start = 0x0a00_0000; bits = 8; label = codes "A" } ∷ []) }
    ensures an_address { of_list (λ m. m.prefixes) (codes "10.1.2.3 A\n")
        ≡ Ok (record { start = 0x0a01_0203; bits = 32; label = codes "A" } ∷ []) }
    ensures an_ipv6_address { of_list (λ m. m.prefixes) (codes "2001:db8::1 A\n")
        ≡ Ok (record { start = 0x2001_0db8_0000_0000_0000_0000_0000_0001; bits = 128; label = codes "A" } ∷ []) }
    ensures in_the_order_of_lines { of_list (λ m. m.prefixes) (codes "10.1.0.0/16 B\n10.0.0.0/8 A\n")
        ≡ Ok
        (record { start = 0x0a01_0000; bits = 16; label = codes "B" }
        ∷ record { start = 0x0a00_0000; bits = 8; label = codes "A" } ∷ []) }
    ensures converted { of_list (λ m. m.prefixes) (codes "mode ipv6\n10.0.0.0/8 A\n10.0.0.1 B\n")
        ≡ Ok
        (record { start = 0xffff_0a00_0000; bits = 104; label = codes "A" }
        ∷ record { start = 0xffff_0a00_0001; bits = 128; label = codes "B" } ∷ []) }
    ensures by_number { of_list (λ m. m.prefixes) (codes "label 5 red\n10.0.0.0/8 05\n")
        ≡ Ok (record { start = 0x0a00_0000; bits = 8; label = codes "red" } ∷ []) }
    ensures of_one_first_address { of_list (λ m. m.prefixes) (codes "10.0.0.0/8 A\n10.0.0.0/9 B\n")
        ≡ Ok
        (record { start = 0x0a00_0000; bits = 8; label = codes "A" }
        ∷ record { start = 0x0a00_0000; bits = 9; label = codes "B" } ∷ []) }
{}

/// FORMATS.md, "Prefix lists".
pub fn a_list_is_written_like_a_map()
    ensures a_name { of_list (λ m. m.name) (codes "map-name offices\n") ≡ Ok (Some (codes "offices")) }
    ensures mode { of_list (λ m. m.version) (codes "mode ipv6\n") ≡ Ok V6 }
    ensures the_first_entry_decides_the_version { of_list (λ m. m.version) (codes "2001:db8::/32 A\n10.0.0.0/8 B\n")
        ≡ Ok V6 }
    ensures of_an_empty_list { of_list (λ m. m.version) (codes "") ≡ Ok V4 }
    ensures labels { of_list (λ m. m.table) (codes "10.0.0.0/8 B\n10.0.0.1 A\n10.0.0.2 B\n")
        ≡ Ok (codes "B" ∷ codes "A" ∷ []) }
    ensures no_label_is_added { of_list (λ m. m.table) (codes "") ≡ Ok [] }
    ensures a_comment { under_list (codes "10.0.0.0/8 A # B\r\n") (codes "10.0.0.0") ≡ Ok (Some (codes "A")) }
{}

/// FORMATS.md, "Addresses and versions".
pub fn an_address_is_looked_up_in_the_version_of_the_list()
    ensures mapped_under_ipv4 { under_list (codes "10.0.0.0/8 A\n") (codes "::ffff:10.0.0.1") ≡ Ok (Some (codes "A")) }
    ensures ipv6_under_ipv4 { under_list (codes "0.0.0.0/0 A\n") (codes "2001:db8::1") ≡ Ok None }
    ensures ipv4_under_ipv6 { under_list (codes "mode ipv6\n10.0.0.0/8 A\n") (codes "10.0.0.1")
        ≡ Ok (Some (codes "A")) }
    ensures ipv4_under_all_ipv6_addresses { under_list (codes "::/0 A\n") (codes "10.0.0.1") ≡ Ok (Some (codes "A")) }
    ensures ipv4_under_the_block_of_mapped_addresses { under_list (codes "::/0 A\n::ffff:0:0/96 B\n") (codes "10.0.0.1")
        ≡ Ok (Some (codes "B")) }
    ensures compatible_outside_that_block { under_list (codes "::/0 A\n::ffff:0:0/96 B\n") (codes "::10.0.0.1")
        ≡ Ok (Some (codes "A")) }
{}

/// No text has equal blocks (fault M14), but a list of a Rust program may: DEFINITIONS.md, "Labels of addresses".
pub fn of_equal_blocks_the_first_counts()
    ensures the_same_start { list_label
        (record {
          version = V4;
          name = None;
          prefixes = (record { start = 0x0a00_0000; bits = 8; label = codes "A" }
              ∷ record { start = 0x0a00_0000; bits = 8; label = codes "B" } ∷ []);
          table = [];
        })
        0x0a00_0001 ≡ Some (codes "A") }
    ensures another_start { list_label
        (record {
          version = V4;
          name = None;
          prefixes = (record { start = 0x0a07_0000; bits = 8; label = codes "A" }
              ∷ record { start = 0x0a00_0000; bits = 8; label = codes "B" } ∷ []);
          table = [];
        })
        0x0a00_0001 ≡ Some (codes "A") }
    ensures a_longer_one_later { list_label
        (record {
          version = V4;
          name = None;
          prefixes = (record { start = 0x0a00_0000; bits = 8; label = codes "A" }
              ∷ record { start = 0x0a00_0000; bits = 8; label = codes "B" }
              ∷ record { start = 0x0a00_0000; bits = 9; label = codes "C" } ∷ []);
          table = [];
        })
        0x0a00_0001 ≡ Some (codes "C") }
{}

/// FORMATS.md, "Limits": a text may have this many different labels.
pub fn a_list_has_each_label_once()
    ensures of_three_entries { labels_of
        (record { start = 0; bits = 1; label = codes "B" } ∷ record { start = 1; bits = 2; label = codes "A" }
        ∷ record { start = 2; bits = 2; label = codes "B" } ∷ [])
        ≡ codes "B" ∷ codes "A" ∷ [] }
{}
