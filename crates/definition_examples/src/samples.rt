//! Files of real exporters, whole. The results are those of a reader that was written in Python from RFC 7011, RFC 5103
//! and FORMATS.md alone. examples/README.md describes the Files.
#![tactic(auto, unfolding(crate::specs::Files::opened))]

ghost use Rattle.definition_examples.specs.Files.{of_messages};
ghost use Rattle.definition_examples.specs.Rows.{plain};
ghost use Rattle.definition_examples.specs.Samples.{ends_of, pmacctd, softflowd};
ghost use Rattle.definition_examples.specs.Samples.{softflowd_biflow, softflowd_milli, summary};
ghost use Rattle.flow_rows.specs.Counts.{counts_of, rows_of_messages};
ghost use Rattle.ipfix_read.specs.Messages.{file_reading};
ghost use Rattle.prefix_keys.specs.declared.version.Version.TheVariants.{V6};
ghost use Rattle.std.specs.Prelude.{◌≡◌, ◌∷◌, [], Ok};

/// softflowd.ipfix: 942 packets. Its times are those of other elements, so no row has a time.
pub fn a_file_of_softflowd()
    ensures { of_messages summary (file_reading softflowd) ≡ Ok (
      9 ∷ 4 ∷ 1 ∷ 0 ∷ 59 ∷ 0 ∷ 210 ∷ 1 ∷ 210 ∷ [],
      record plain {
        src = 0x0a00_d9b6;
        dst = 0x3e7a_3fe6;
        sport = 19014;
        dport = 443;
        protocol = 6;
        flags = 2;
        packets = 1;
        octets = 40;
        start_ms = 0;
        end_ms = 0;
      }
          ∷ record plain {
            src = 0x0a02_dc2a;
            dst = 0xd428_2ce4;
            sport = 55755;
            dport = 443;
            protocol = 6;
            flags = 2;
            packets = 1;
            octets = 40;
            start_ms = 0;
            end_ms = 0;
          }
          ∷ [],
      942,
    ) }
{}

/// softflowd-milli.ipfix: the same packets, with times in milliseconds.
pub fn a_file_with_times()
    ensures { of_messages summary (file_reading softflowd_milli) ≡ Ok (
      10 ∷ 4 ∷ 1 ∷ 0 ∷ 61 ∷ 0 ∷ 210 ∷ 1 ∷ 210 ∷ [],
      record plain {
        src = 0x0a00_d9b6;
        dst = 0x3e7a_3fe6;
        sport = 19014;
        dport = 443;
        protocol = 6;
        flags = 2;
        packets = 1;
        octets = 40;
        start_ms = 1700000148638;
        end_ms = 1700000148665;
      }
          ∷ record plain {
            src = 0x0a02_dc2a;
            dst = 0xd428_2ce4;
            sport = 55755;
            dport = 443;
            protocol = 6;
            flags = 2;
            packets = 1;
            octets = 40;
            start_ms = 1700000279549;
            end_ms = 1700000279549;
          }
          ∷ [],
      942,
    ) }
{}

/// softflowd-biflow.ipfix: records of both directions (RFC 5103), so there are more rows than records.
pub fn a_file_with_both_directions()
    ensures { of_messages summary (file_reading softflowd_biflow) ≡ Ok (
      2 ∷ 4 ∷ 1 ∷ 0 ∷ 12 ∷ 0 ∷ 21 ∷ 1 ∷ 41 ∷ [],
      record plain {
        version = V6;
        src = 0x2001_0db8_0000_0000_0000_0000_0000_0000;
        dst = 0x2001_0db8_ffff_0000_0000_0000_0000_00a9;
        sport = 1924;
        dport = 443;
        protocol = 17;
        flags = 0;
        packets = 1;
        octets = 135;
        start_ms = 1700000019980;
        end_ms = 1700000019999;
      }
          ∷ record plain {
            src = 0xc633_6438;
            dst = 0x0a00_0000;
            sport = 80;
            dport = 1984;
            protocol = 6;
            flags = 27;
            packets = 4;
            octets = 872;
            start_ms = 1700000594059;
            end_ms = 1700000594547;
          }
          ∷ [],
      88,
    ) }
{}

/// pmacctd.ipfix: a File of another exporter.
pub fn a_file_of_pmacctd()
    ensures { of_messages counts_of (file_reading pmacctd) ≡ Ok (33 ∷ 8 ∷ 0 ∷ 0 ∷ 60 ∷ 0 ∷ 210 ∷ 0 ∷ 210 ∷ []) }
{}

/// The rows of pmacctd.ipfix.
pub fn rows_of_pmacctd()
    ensures { of_messages (λ messages. ends_of (rows_of_messages messages)) (file_reading pmacctd) ≡ Ok (
      record plain {
        src = 0x971c_00dd;
        dst = 0x0a02_ea14;
        sport = 49505;
        dport = 80;
        protocol = 6;
        flags = 2;
        packets = 2;
        octets = 80;
        start_ms = 1700000038271;
        end_ms = 1700000038271;
      }
          ∷ record plain {
            src = 0x3412_9271;
            dst = 0x0a03_8964;
            sport = 0;
            dport = 0;
            protocol = 50;
            flags = 0;
            packets = 2;
            octets = 120;
            start_ms = 1700000249914;
            end_ms = 1700000249914;
          }
          ∷ [],
      1884,
    ) }
{}
