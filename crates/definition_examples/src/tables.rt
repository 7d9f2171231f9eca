//! Printed tables, lists and counts: FORMATS.md, "Printed texts".
#![tactic(auto, unfolding(crate::specs::Rows::opened))]

ghost use Rattle.definition_examples.specs.Maps.{office_list};
ghost use Rattle.definition_examples.specs.Reports.{groups_in, info, printed_list, rows, unlabelled};
ghost use Rattle.definition_examples.specs.Rows.{plain, tcp, tcp_back, value};
ghost use Rattle.ipfix_read.specs.declared.set.Set.TheVariants.{Skipped, Templates, Values};
ghost use Rattle.ipfix_templates.specs.declared.event.TemplateEvent.TheVariants.{Define, Withdraw, WithdrawAll};
ghost use Rattle.ipfix_templates.specs.declared.kind.Kind.TheVariants.{Flow, Options};
ghost use Rattle.pmap_print.specs.Reports.{rows_text};
ghost use Rattle.pmap_print.specs.Table.{column_width};
ghost use Rattle.prefix_keys.specs.declared.version.Version.TheVariants.{V6};
ghost use Rattle.std.specs.Prelude.{◌≡◌, ◌∷◌, [], codes, false, None, Ok, Some, true};

/// The lines of softflowd's record are in FORMATS.md, "Records of both directions".
pub fn rows_are_a_table()
    ensures no_rows { rows false ([])
        ≡ codes "sip|dip|sport|dport|proto|flags|packets|bytes|stime|etime\n" }
    ensures of_the_page { rows false (tcp ∷ tcp_back ∷ [])
        ≡ codes "sip|dip|sport|dport|proto|flags|packets|bytes|stime|etime\n10.0.0.0|198.51.100.228|1804|443|6|27|5|546|1700000067030|1700000067362\n198.51.100.228|10.0.0.0|443|1804|6|19|2|80|1700000067030|1700000067362\n" }
    ensures zeros { rows false (plain ∷ [])
        ≡ codes "sip|dip|sport|dport|proto|flags|packets|bytes|stime|etime\n10.0.0.1|10.0.0.2|0|0|0|0|0|0|0|0\n" }
    ensures in_order { rows false (plain ∷ tcp ∷ plain ∷ [])
        ≡ codes "sip|dip|sport|dport|proto|flags|packets|bytes|stime|etime\n10.0.0.1|10.0.0.2|0|0|0|0|0|0|0|0\n10.0.0.0|198.51.100.228|1804|443|6|27|5|546|1700000067030|1700000067362\n10.0.0.1|10.0.0.2|0|0|0|0|0|0|0|0\n" }
    ensures the_greatest_numbers { rows false
        (record plain {
          packets = 18446744073709551615;
          octets = 18446744073709551615;
          sport = 65535;
          dport = 65535;
          protocol = 255;
          flags = 65535;
        }
        ∷ [])
        ≡ codes "sip|dip|sport|dport|proto|flags|packets|bytes|stime|etime\n10.0.0.1|10.0.0.2|65535|65535|255|65535|18446744073709551615|18446744073709551615|0|0\n" }
    ensures ipv6 { rows false
        (record plain { version = V6; src = 0x2001_0db8_0000_0000_0000_0000_0000_0001; dst = 0xffff_0a00_0001 } ∷ [])
        ≡ codes "sip|dip|sport|dport|proto|flags|packets|bytes|stime|etime\n2001:db8::1|::ffff:a00:1|0|0|0|0|0|0|0|0\n" }
    ensures with_labels { rows_text (tcp ∷ []) (Some ((Some (codes "Inside"), Some (codes "Out")) ∷ [])) false
        ≡ codes "sip|dip|sport|dport|proto|flags|packets|bytes|stime|etime|src-label|dst-label\n10.0.0.0|198.51.100.228|1804|443|6|27|5|546|1700000067030|1700000067362|Inside|Out\n" }
    ensures without_a_source_label { rows_text (tcp ∷ []) (Some ((None, Some (codes "Out")) ∷ [])) false
        ≡ codes "sip|dip|sport|dport|proto|flags|packets|bytes|stime|etime|src-label|dst-label\n10.0.0.0|198.51.100.228|1804|443|6|27|5|546|1700000067030|1700000067362||Out\n" }
    ensures without_labels { rows_text (tcp ∷ plain ∷ [])
        (Some ((None, None) ∷ (Some (codes "Inside"), None) ∷ [])) false
        ≡ codes "sip|dip|sport|dport|proto|flags|packets|bytes|stime|etime|src-label|dst-label\n10.0.0.0|198.51.100.228|1804|443|6|27|5|546|1700000067030|1700000067362||\n10.0.0.1|10.0.0.2|0|0|0|0|0|0|0|0|Inside|\n" }
    ensures no_rows_with_labels { rows_text ([]) (Some ([])) false
        ≡ codes "sip|dip|sport|dport|proto|flags|packets|bytes|stime|etime|src-label|dst-label\n" }
{}

/// The lines are those of Python's `rjust`, by bytes.
pub fn columns_are_padded_on_the_left()
    ensures no_rows { rows true ([])
        ≡ codes "sip|dip|sport|dport|proto|flags|packets|bytes|stime|etime\n" }
    ensures of_the_page { rows true (tcp ∷ tcp_back ∷ [])
        ≡ codes "           sip|           dip|sport|dport|proto|flags|packets|bytes|        stime|        etime\n      10.0.0.0|198.51.100.228| 1804|  443|    6|   27|      5|  546|1700000067030|1700000067362\n198.51.100.228|      10.0.0.0|  443| 1804|    6|   19|      2|   80|1700000067030|1700000067362\n" }
    ensures a_header_that_is_wider { rows true (plain ∷ [])
        ≡ codes "     sip|     dip|sport|dport|proto|flags|packets|bytes|stime|etime\n10.0.0.1|10.0.0.2|    0|    0|    0|    0|      0|    0|    0|    0\n" }
    ensures rows_of_different_widths { rows true (plain ∷ tcp ∷ [])
        ≡ codes "     sip|           dip|sport|dport|proto|flags|packets|bytes|        stime|        etime\n10.0.0.1|      10.0.0.2|    0|    0|    0|    0|      0|    0|            0|            0\n10.0.0.0|198.51.100.228| 1804|  443|    6|   27|      5|  546|1700000067030|1700000067362\n" }
    ensures with_labels { rows_text (tcp ∷ plain ∷ [])
        (Some ((Some (codes "Guest network"), None) ∷ (Some (codes "A"), Some (codes "B")) ∷ [])) true
        ≡ codes "     sip|           dip|sport|dport|proto|flags|packets|bytes|        stime|        etime|    src-label|dst-label\n10.0.0.0|198.51.100.228| 1804|  443|    6|   27|      5|  546|1700000067030|1700000067362|Guest network|         \n10.0.0.1|      10.0.0.2|    0|    0|    0|    0|      0|    0|            0|            0|            A|        B\n" }
    ensures groups { groups_in true (codes "proto") false unlabelled
        (tcp ∷ record tcp { protocol = 17; octets = 123456789 } ∷ [])
        ≡ Ok
        (codes "proto|records|packets|    bytes\n    6|      1|      5|      546\n   17|      1|      5|123456789\n") }
    ensures a_column_of_17_bytes { groups_in true (codes "sip") false unlabelled
        (record tcp { version = V6; src = 0x2001_0db8_0000_0000_0000_0000_1234_5678 }
        ∷ record tcp { version = V6; src = 1 } ∷ [])
        ≡ Ok (codes "                sip|records|packets|bytes\n2001:db8::1234:5678|      1|      5|  546\n                ::1|      1|      5|  546\n") }
{}

/// FORMATS.md, "Printed texts", `shrink`: entries are sorted by first address and then by length.
pub fn a_list_is_printed_in_order()
    ensures of_the_page { printed_list office_list
        ≡ Ok (codes "mode ipv4\n0.0.0.0/0 elsewhere\n10.0.0.0/8 Inside\n10.1.0.0/16 Guest network\n") }
    ensures by_first_address { printed_list (codes "11.0.0.0/8 B\n9.0.0.0/8 A\n10.0.0.0/8 C\n")
        ≡ Ok (codes "mode ipv4\n9.0.0.0/8 A\n10.0.0.0/8 C\n11.0.0.0/8 B\n") }
    ensures then_by_length { printed_list (codes "10.0.0.0/16 B\n10.0.0.0/8 A\n10.0.0.0 C\n")
        ≡ Ok (codes "mode ipv4\n10.0.0.0/8 A\n10.0.0.0/16 B\n10.0.0.0/32 C\n") }
    ensures by_number_and_not_by_text { printed_list (codes "100.0.0.0/8 B\n20.0.0.0/8 A\n")
        ≡ Ok (codes "mode ipv4\n20.0.0.0/8 A\n100.0.0.0/8 B\n") }
    ensures a_name { printed_list (codes "map-name the offices\n10.0.0.0/8 A\n")
        ≡ Ok (codes "map-name the offices\nmode ipv4\n10.0.0.0/8 A\n") }
    ensures ipv6 { printed_list (codes "2001:db8::/32 A\n::1 B\n::/0 C\n")
        ≡ Ok (codes "mode ipv6\n::/0 C\n::1/128 B\n2001:db8::/32 A\n") }
    ensures no_entries { printed_list (codes "mode ipv4 # none\n")
        ≡ Ok (codes "mode ipv4\n") }
    ensures host_bits { printed_list (codes "10.1.2.3/8 A\n")
        ≡ Ok (codes "mode ipv4\n10.0.0.0/8 A\n") }
{}

/// FORMATS.md, "Printed texts", `info`.
pub fn info_counts_nine_kinds()
    ensures no_messages { info ([])
        ≡ codes "messages 0\ntemplates 0\noptions-templates 0\nwithdrawals 0\ndata-sets 0\nskipped-sets 0\nrecords 0\noptions-records 0\nrows 0\n" }
    ensures two_messages { info (([]) ∷ ([]) ∷ [])
        ≡ codes "messages 2\ntemplates 0\noptions-templates 0\nwithdrawals 0\ndata-sets 0\nskipped-sets 0\nrecords 0\noptions-records 0\nrows 0\n" }
    ensures templates { info
        ((Templates Flow
        (Define (record { id = 256; kind = Flow; scope_count = 0; fields = [] })
        ∷ Define (record { id = 256; kind = Flow; scope_count = 0; fields = [] }) ∷ []) ∷ []) ∷ [])
        ≡ codes "messages 1\ntemplates 2\noptions-templates 0\nwithdrawals 0\ndata-sets 0\nskipped-sets 0\nrecords 0\noptions-records 0\nrows 0\n" }
    ensures options_templates { info
        ((Templates Options (Define (record { id = 257; kind = Options; scope_count = 1; fields = [] }) ∷ []) ∷ [])
        ∷ [])
        ≡ codes "messages 1\ntemplates 0\noptions-templates 1\nwithdrawals 0\ndata-sets 0\nskipped-sets 0\nrecords 0\noptions-records 0\nrows 0\n" }
    ensures withdrawals { info
        ((Templates Flow (Withdraw 256 ∷ WithdrawAll Flow ∷ []) ∷ [])
        ∷ (Templates Options (WithdrawAll Options ∷ []) ∷ []) ∷ [])
        ≡ codes "messages 2\ntemplates 0\noptions-templates 0\nwithdrawals 3\ndata-sets 0\nskipped-sets 0\nrecords 0\noptions-records 0\nrows 0\n" }
    ensures data_sets { info ((Values Flow ([]) ∷ Values Options ([]) ∷ []) ∷ [])
        ≡ codes "messages 1\ntemplates 0\noptions-templates 0\nwithdrawals 0\ndata-sets 2\nskipped-sets 0\nrecords 0\noptions-records 0\nrows 0\n" }
    ensures skipped_sets { info ((Skipped 4 ∷ Skipped 300 ∷ []) ∷ [])
        ≡ codes "messages 1\ntemplates 0\noptions-templates 0\nwithdrawals 0\ndata-sets 0\nskipped-sets 2\nrecords 0\noptions-records 0\nrows 0\n" }
    ensures of_each_kind { info
        ((Templates Flow (Define (record { id = 256; kind = Flow; scope_count = 0; fields = [] }) ∷ [])
        ∷ Values Flow
        (record { kind = Flow; fields = value 8 (codes "0a000001") ∷ value 12 (codes "0a000002") ∷ [] } ∷ []) ∷ [])
        ∷ (Templates Options
        (Define (record { id = 257; kind = Options; scope_count = 1; fields = [] }) ∷ Withdraw 256 ∷ [])
        ∷ Values Options
        (record { kind = Options; fields = value 8 (codes "0a000001") ∷ value 12 (codes "0a000002") ∷ [] } ∷ [])
        ∷ Skipped 256 ∷ []) ∷ [])
        ≡ codes "messages 2\ntemplates 1\noptions-templates 1\nwithdrawals 1\ndata-sets 2\nskipped-sets 1\nrecords 1\noptions-records 1\nrows 1\n" }
{}

/// Each data record counts, and each row of one.
pub fn info_counts_records_and_rows()
    ensures records_with_a_row { info
        ((Values Flow
        (record { kind = Flow; fields = value 8 (codes "0a000001") ∷ value 12 (codes "0a000002") ∷ [] }
        ∷ record { kind = Flow; fields = value 8 (codes "0a000001") ∷ value 12 (codes "0a000002") ∷ [] } ∷ []) ∷ [])
        ∷ [])
        ≡ codes "messages 1\ntemplates 0\noptions-templates 0\nwithdrawals 0\ndata-sets 1\nskipped-sets 0\nrecords 2\noptions-records 0\nrows 2\n" }
    ensures records_without_a_row { info
        ((Values Flow
        (record { kind = Flow; fields = value 4 (codes "06") ∷ [] }
        ∷ record { kind = Flow; fields = value 8 (codes "0a000001") ∷ value 12 (codes "0a000002") ∷ [] } ∷ []) ∷ [])
        ∷ [])
        ≡ codes "messages 1\ntemplates 0\noptions-templates 0\nwithdrawals 0\ndata-sets 1\nskipped-sets 0\nrecords 2\noptions-records 0\nrows 1\n" }
    ensures options_records { info
        ((Values Options
        (record { kind = Options; fields = value 8 (codes "0a000001") ∷ value 12 (codes "0a000002") ∷ [] }
        ∷ record { kind = Options; fields = value 8 (codes "0a000001") ∷ value 12 (codes "0a000002") ∷ [] }
        ∷ record { kind = Options; fields = value 8 (codes "0a000001") ∷ value 12 (codes "0a000002") ∷ [] } ∷ []) ∷ [])
        ∷ [])
        ≡ codes "messages 1\ntemplates 0\noptions-templates 0\nwithdrawals 0\ndata-sets 1\nskipped-sets 0\nrecords 0\noptions-records 3\nrows 0\n" }
{}

/// FORMATS.md, "Printed texts": `--columns`.
pub fn a_column_is_as_wide_as_its_longest_field()
    ensures of_empty_fields { column_width (([] ∷ []) ∷ ([] ∷ []) ∷ []) 0 ≡ 0 }
    ensures of_the_second_column { column_width ((codes "abc" ∷ codes "de" ∷ []) ∷ (codes "a" ∷ codes "defg" ∷ []) ∷ [])
        1 ≡ 4 }
{}
