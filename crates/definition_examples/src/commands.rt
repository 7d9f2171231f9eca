//! Worked examples: what a user sees of whole commands, if their files have given texts.
//!
//! The functions do nothing. Each clause is a claim that the prover computes, or that its proof file shows. The texts
//! are small, and what they give is worked out by hand from the rules of docs/FORMATS.md, or is in that page or an RFC.
#![tactic(auto, unfolding(crate::specs::Commands::opened))]

ghost use Rattle.flow_io.specs.declared.devices.LastCall.TheVariants.{Flush, Nothing};
ghost use Rattle.flow_files.specs.Answer.{is_help, is_mistake, words_fault_of};
ghost use Rattle.flow_files.specs.ByFile.{turn};
ghost use Rattle.flow_files.specs.ByFile as role;
ghost use Rattle.flow_files.specs.BytesFault.{certificate_fault_name, check_fault_name};
ghost use Rattle.flow_files.specs.BytesFault.{flows_fault_name, map_fault_name};
ghost use Rattle.flow_files.specs.Ending.{IsReported, IsWritten};
ghost use Rattle.flowlabel.specs.Definition.{program_name};
ghost use Rattle.flow_files.specs.Faults.{filter_fault_text, key_fault_text};
ghost use Rattle.flow_files.specs.Opening.{AreOpened, CanOpen, CannotOpenFirst, CannotOpenNamed, IsOpened};
ghost use Rattle.flow_files.specs.declared.bytes_fault.BytesFault.TheVariants.{Map as InMap, Flows as InFlows};
ghost use Rattle.ipfix_read.specs.declared.fault.ReadFaultKind.TheVariants.{TooManyMessages};
ghost use Rattle.pmap_text.specs.declared.fault.MapFaultKind.TheVariants.{NoMemory as NoMemoryForMap, TooMany};
ghost use Rattle.prefix_keys.specs.declared.version.Version.TheVariants.{V4, V6};
ghost use Rattle.std.specs.Prelude.{◌≡◌, ◌++◌, ◌∷◌, [], Err, None, Some, codes, false, replicate, take, true, ◌+◌, Ok};
ghost use Rattle.std.specs.String.{string_bytes};
ghost use Rattle.std.specs.declared.alloc.Global.{Global};
ghost use Rattle.std.specs.declared.string.String.{String};
ghost use Rattle.flow_filter.specs.declared.fault.FilterFaultKind.TheVariants.{BadNumberList, BadBlock, BadRange};
ghost use Rattle.flow_rows.specs.declared.number.Number.TheVariants.{DestinationPort, Flags, Protocol, SourcePort};
ghost use Rattle.flow_filter.specs.declared.option.FilterOption.TheVariants.{AnyLabel, Bytes, DestinationAddress};
ghost use Rattle.flow_filter.specs.declared.option.FilterOption.TheVariants.{DestinationLabel, Number};
ghost use Rattle.flow_filter.specs.declared.option.FilterOption.TheVariants.{Packets, SourceAddress};
ghost use Rattle.flow_filter.specs.declared.option.FilterOption.TheVariants.{SourceLabel};
ghost use Rattle.flow_uniq.specs.declared.fault.KeyFault.TheVariants.{BadField, FieldRepeated};
ghost use Rattle.flow_uniq.specs.declared.fault.KeyFault.TheVariants.{NoMemory as NoMemoryForKeys};
ghost use Rattle.flow_uniq.specs.declared.field.KeyField.TheVariants as field;
ghost use Rattle.definition_examples.specs.Commands.{Checks, Counts, Drops, Groups, HasCertificateFault, HasCheckFault};
ghost use Rattle.definition_examples.specs.Commands.{HasFlowsFault, HasListFault, HasMapFault, Keeps, Labels};
ghost use Rattle.definition_examples.specs.Commands.{LabelsByList, Recerts, Reports, StandardError, StandardOutput};
ghost use Rattle.definition_examples.specs.Commands.{Writes, both_ways, by_list, by_map, day, empty};
ghost use Rattle.definition_examples.specs.Commands.{halves_certificate, halves_map, head, labelled_flow};
ghost use Rattle.definition_examples.specs.Commands.{labelled_header, long_address, named, of_flows, of_list, of_map};
ghost use Rattle.definition_examples.specs.Commands.{one_flow, quarters_list, quarters_map, quarters_nodes, seen, Asks};
ghost use Rattle.definition_examples.specs.Commands.{HasUsageFault, asks_for_help, is_refused, file_with, map_read};
ghost use Rattle.definition_examples.specs.Commands.{of_files, opens, reader_of, seen_of, shown_of, writer_of};
ghost use Rattle.flow_files.specs.Readers.{AreTexts, AreUnread, MayHave, any_failed, view_of};
ghost use Rattle.flow_files.specs.Sources.{Text, FromList, FromMap};
ghost use Rattle.flowlabel.specs.Request.{IsProper};
ghost use Rattle.flowlabel.specs.declared.command.Command.TheVariants as command;
ghost use Rattle.flowlabel.specs.declared.command.Shrunk.TheVariants as shrunk;
ghost use Rattle.flow_files.specs.declared.fault.RunFault.TheVariants.{CannotOpen, CannotRead};
ghost use Rattle.flow_files.specs.declared.fault.RunFault.TheVariants.{CannotWrite, File, NoMemory, Usage};
ghost use Rattle.flow_files.specs.declared.usage.UsageFault.TheVariants as usage;
ghost use Rattle.clap.specs.declared.error.kind.ErrorKind.TheVariants as kind;
ghost use Rattle.std.specs.declared.io.ErrorKind.TheVariants as io;
ghost use Rattle.flowlabel.specs.Request as ask;
ghost use Rattle.ipfix_read.specs.declared.fault.ReadFaultKind.TheVariants as flows;
ghost use Rattle.pmap_cert.specs.declared.fault.CertFaultKind.TheVariants as certificate;
ghost use Rattle.cert_check.specs.declared.fault.CheckFaultKind.TheVariants as check;
ghost use Rattle.flow_filter.specs.declared.fault.FilterFaultKind.TheVariants as filters;

/// FORMATS.md, "Statements" and "Addresses and versions": the label of 10.1.2.3 under a map.
pub fn label_prints_a_line()
    ensures later_line { Labels (codes "10.0.0.0/8 A\n10.0.0.0/7 B\n") (codes "B\n") }
    ensures earlier_line { Labels (codes "10.0.0.0/8 A\n10.1.3.0/24 B\n") (codes "A\n") }
    ensures no_line { Labels (codes "11.0.0.0/8 A\n") (codes "UNKNOWN\n") }
    ensures the_default { Labels (codes "11.0.0.0/8 A\ndefault Z\n") (codes "Z\n") }
    ensures range { Labels (codes "10.1.2.3 10.1.2.9 A\n") (codes "A\n") }
    ensures after_a_range { Labels (codes "10.1.0.0 10.1.2.2 A\n") (codes "UNKNOWN\n") }
    ensures single_address { Labels (codes "map-name m\n10.1.2.3 A # it\n") (codes "A\n") }
    ensures label_number { Labels (codes "label 5 red\n10.0.0.0/8 5\n11.0.0.0/8 6\n") (codes "red\n") }
    ensures unknown_number { Labels (codes "label 5 red\n10.0.0.0/8 6\n") (codes "6\n") }
    ensures mapped_address { Labels (codes "mode ipv6\n10.0.0.0/8 In\n") (codes "In\n") }
    ensures a_label_of_255_bytes { Labels (codes "10.0.0.0/8 " ++ replicate 255 65) (replicate 255 65 ++ codes "\n") }
    ensures the_greatest_number { Labels (codes "label 2147483647 A\n10.0.0.0/8 2147483647\n") (codes "A\n") }
    ensures other_version { Writes (command.Label by_map long_address) (of_map (codes "10.0.0.0/8 A\n")) (codes "\n") }
    ensures ipv6 { Writes (command.Label by_map long_address) (of_map (codes "2001:db8::/32 D\n")) (codes "D\n") }
{}

/// FORMATS.md, "Prefix lists".
pub fn label_prints_a_line_by_a_list()
    ensures longest_match { LabelsByList (codes "10.0.0.0/8 A\n10.0.0.0/7 B\n") (codes "A\n") }
    ensures no_entry { LabelsByList (codes "128.0.0.0/1 A\n") (codes "\n") }
    ensures ipv6 { Writes (command.Label by_list long_address) (of_list (codes "::/0 E\n2001:db8::/33 D\n"))
        (codes "D\n") }
{}

/// FORMATS.md, "Faults of maps and lists": the first fault with its line.
pub fn a_map_has_a_first_fault()
    ensures bad_statement { HasMapFault (codes "10.0.0.0/8 A\nx\n") (codes "M1 BadStatement at 2") }
    ensures a_number_that_is_too_large { HasMapFault (codes "label 2147483648 A\n") (codes "M1 BadStatement at 1") }
    ensures bad_address { HasMapFault (codes "10.0.0 A\n") (codes "M2 BadAddress at 1") }
    ensures bad_length { HasMapFault (codes "10.0.0.0/33 A\n") (codes "M3 BadLength at 1") }
    ensures low_above_high { HasMapFault (codes "10.0.0.9 10.0.0.2 x\n") (codes "M4 LowAboveHigh at 1") }
    ensures wrong_version { HasMapFault (codes "mode ipv4\n2001:db8::/32 x\n") (codes "M5 WrongVersion at 2") }
    ensures missing_label { HasMapFault (codes "10.0.0.1 10.0.0.2\n") (codes "M6 MissingLabel at 1") }
    ensures bad_label { HasMapFault (codes "label 5 6\n") (codes "M7 BadLabel at 1") }
    ensures a_label_of_256_bytes { HasMapFault (codes "10.0.0.0/8 " ++ replicate 256 65) (codes "M7 BadLabel at 1") }
    ensures label_conflict { HasMapFault (codes "label 5 red\n1.0.0.0/8 5\nlabel 5 blue\n")
        (codes "M8 LabelConflict at 3") }
    ensures bad_mode { HasMapFault (codes "mode proto-port\n") (codes "M9 BadMode at 1") }
    ensures mode_late { HasMapFault (codes "10.0.0.0/8 A\nmode ipv4\n") (codes "M10 ModeLate at 2") }
    ensures mode_repeated { HasMapFault (codes "mode ip\n\nmode ipv4\n") (codes "M11 ModeRepeated at 3") }
    ensures first_of_two { HasMapFault (codes "10.0.0.0/36 A\nmode x\n") (codes "M3 BadLength at 1") }
{}

pub fn a_list_has_a_first_fault()
    ensures a_default { HasListFault (codes "default x\n") (codes "M13 NotAList at 1") }
    ensures a_range { HasListFault (codes "mode ipv4\n1.0.0.0 1.0.0.9 x\n") (codes "M13 NotAList at 2") }
    ensures duplicate_block { HasListFault (codes "1.0.0.0/8 5\n1.0.0.0/8 x\n") (codes "M14 DuplicateBlock at 2") }
    ensures of_cat { Reports (command.Cat by_list) (of_list (codes "10.0.0.0/33 A\n"))
        (codes "list.txt: M3 BadLength at 1") }
{}

/// FORMATS.md, "What `check` reports".
pub fn check_prints_the_number_of_entries()
    ensures halves { Checks halves_map halves_map halves_certificate (codes "minimal 2\n") }
    ensures quarters { Checks quarters_map quarters_list (head ++ codes "n 2 0\n" ++ quarters_nodes)
        (codes "minimal 3\n") }
    ensures needless_label { Checks quarters_map quarters_list
        (codes "flowlabel-cert 1 ipv4 5\nA\nB\nC\nUNKNOWN\nZ\nn 2 0 4\n" ++ quarters_nodes) (codes "minimal 3\n") }
    ensures of_one_label { Checks (codes "") (codes "0.0.0.0/0 UNKNOWN\n")
        (codes "flowlabel-cert 1 ipv4 1\nUNKNOWN\nl 0\n") (codes "minimal 1\n") }
{}

pub fn check_names_the_first_fault()
    ensures version_differs { HasCheckFault halves_map (codes "mode ipv6\n::/0 A\n") halves_certificate
        (codes "cert.txt: K1 VersionDiffers at 0") }
    ensures leaf_not_uniform { HasCheckFault quarters_map quarters_list
        (head ++ codes "n 2 0\nn 1 0 1\nl 1\nl 1\nn 1 0 2\nl 0\nl 2\n") (codes "cert.txt: K2 LeafNotUniform at 3") }
    ensures list_differs { HasCheckFault halves_map (codes "0.0.0.0/2 A\n64.0.0.0/2 A\n128.0.0.0/2 B\n192.0.0.0/2 B\n")
        halves_certificate (codes "cert.txt: K3 ListDiffers at 2") }
    ensures set_too_small { HasCheckFault quarters_map quarters_list
        (head ++ codes "n 2 0\nn 1 1\nl 0\nl 1\nn 1 0 2\nl 0\nl 2\n") (codes "cert.txt: K4 SetTooSmall at 2") }
    ensures cost_too_high { HasCheckFault quarters_map quarters_list (head ++ codes "n 3 0\n" ++ quarters_nodes)
        (codes "cert.txt: K5 CostTooHigh at 1") }
    ensures bound_not_met { HasCheckFault halves_map (codes "0.0.0.0/0 A\n0.0.0.0/1 A\n128.0.0.0/1 B\n")
        halves_certificate (codes "cert.txt: K6 BoundNotMet at 0") }
    ensures map_before_list { HasCheckFault (codes "x\n1.0.0.0/8 A\n") (codes "y\n") (codes "")
        (codes "map.txt: M1 BadStatement at 1") }
    ensures list_before_certificate { HasCheckFault halves_map (codes "default x\n") (codes "")
        (codes "list.txt: M13 NotAList at 1") }
    ensures certificate_before_verdict { HasCheckFault halves_map (codes "0.0.0.0/1 Z\n") (codes "")
        (codes "cert.txt: C1 BadHeader at 1") }
{}

/// FORMATS.md, "Faults of certificates".
pub fn a_certificate_has_a_first_fault()
    ensures bad_header { HasCertificateFault (codes "flowlabel-cert 1 ipv4 65537\n") (codes "C1 BadHeader at 1") }
    ensures a_header_of_65536_labels { HasCertificateFault (codes "flowlabel-cert 1 ipv4 65536\n")
        (codes "C2 BadLabelTable at 2") }
    ensures label_twice { HasCertificateFault (codes "flowlabel-cert 1 ipv4 3\nA\nA\nUNKNOWN\nl 0\n")
        (codes "C2 BadLabelTable at 3") }
    ensures no_such_label { HasCertificateFault (codes "flowlabel-cert 1 ipv4 1\nA\nl 1\n") (codes "C3 BadNode at 3") }
    ensures a_cost_above_the_limit { HasCertificateFault
        (codes "flowlabel-cert 1 ipv4 1\nA\nn 4294967296 0\nl 0\nl 0\n") (codes "C3 BadNode at 3") }
    ensures too_deep { HasCertificateFault
        (codes "flowlabel-cert 2 ipv4 1\nA\nc 0 11111111111111111111111111111111 0 0\nn 0 0\nl 0\nl 0\n")
        (codes "C4 TooDeep at 4") }
    ensures nodes_missing { HasCertificateFault (codes "flowlabel-cert 1 ipv4 2\nA\nB\nn 1 0 1\nl 0\n")
        (codes "C5 NodesMissing at 6") }
    ensures nodes_left { HasCertificateFault (halves_certificate ++ codes "l 0\n") (codes "C6 NodesLeft at 8") }
{}

/// FORMATS.md, "Chains".
pub fn recert_prints_chains()
    ensures one_side { Recerts (codes "flowlabel-cert 1 ipv4 2\nA\nB\nn 1 0\nl 0\nn 1 0 1\nl 0\nl 1\n")
        (codes "flowlabel-cert 2 ipv4 2\nA\nB\nc 1 11 0 0\nl 1\n") }
    ensures lower_half { Recerts (codes "flowlabel-cert 1 ipv6 2\nA\nB\nn 1 0\nn 1 0 1\nl 1\nl 0\nl 0\n")
        (codes "flowlabel-cert 2 ipv6 2\nA\nB\nc 1 00 0 0\nl 1\n") }
    ensures no_path { Recerts halves_certificate (codes "flowlabel-cert 2 ipv4 3\nA\nB\nUNKNOWN\nn 1 0 1\nl 0\nl 1\n") }
    ensures format_two { Recerts (codes "flowlabel-cert 2 ipv4 2\nA\nB\nc 1 11 0 0\nl 1\n")
        (codes "flowlabel-cert 2 ipv4 2\nA\nB\nc 1 11 0 0\nl 1\n") }
    ensures the_greatest_cost { Recerts (codes "flowlabel-cert 2 ipv4 1\nA\nc 4294967295 1 0 0\nl 0\n")
        (codes "flowlabel-cert 2 ipv4 1\nA\nc 4294967295 1 0 0\nl 0\n") }
{}

/// FORMATS.md, "Printed texts".
pub fn info_counts()
    ensures no_bytes { Counts (codes "")
        (codes "messages 0\ntemplates 0\noptions-templates 0\nwithdrawals 0\ndata-sets 0\nskipped-sets 0\nrecords 0\noptions-records 0\nrows 0\n") }
    ensures both_ways { Writes (command.Info day) (of_flows both_ways)
        (codes "messages 1\ntemplates 1\noptions-templates 0\nwithdrawals 0\ndata-sets 1\nskipped-sets 0\nrecords 1\noptions-records 0\nrows 2\n") }
    ensures options { Counts (codes "000a00260000000000000000000000010003000e010100010001008d00040101000800000001")
        (codes "messages 1\ntemplates 0\noptions-templates 1\nwithdrawals 0\ndata-sets 1\nskipped-sets 0\nrecords 0\noptions-records 1\nrows 0\n") }
    ensures withdrawal { Counts
        (codes "000a0034000000000000000000000001000200100100000200080004000c000400020008010000000100000c0a0000010a000002")
        (codes "messages 1\ntemplates 1\noptions-templates 0\nwithdrawals 1\ndata-sets 0\nskipped-sets 1\nrecords 0\noptions-records 0\nrows 0\n") }
{}

/// FORMATS.md, "IPFIX Files". A message without sets comes first in most Files: offsets are those of the File.
pub fn a_file_has_a_first_fault()
    ensures truncated_header { HasFlowsFault (codes "000a0010000000000000000000000001000a")
        (codes "F1 TruncatedHeader at 16") }
    ensures bad_version { HasFlowsFault (codes "000a001000000000000000000000000100090010000000000000000000000001")
        (codes "F2 BadVersion at 16") }
    ensures bad_message_length { HasFlowsFault (codes "000a000f000000000000000000000001")
        (codes "F3 BadMessageLength at 0") }
    ensures truncated_message { HasFlowsFault (codes "000a0011000000000000000000000001")
        (codes "F4 TruncatedMessage at 0") }
    ensures bad_set_length { HasFlowsFault
        (codes "000a0010000000000000000000000001000a001400000000000000000000000100020003")
        (codes "F5 BadSetLength at 32") }
    ensures template_truncated { HasFlowsFault
        (codes "000a0010000000000000000000000001000a001c0000000000000000000000010002000c0100000200080004")
        (codes "F6 BadTemplate X1 at 36") }
    ensures bad_template_id { HasFlowsFault
        (codes "000a0010000000000000000000000001000a001c0000000000000000000000010002000c00ff000100080004")
        (codes "F6 BadTemplate X2 at 36") }
    ensures bad_scope { HasFlowsFault (codes "000a001e0000000000000000000000010003000e01000001000000080004")
        (codes "F6 BadTemplate X3 at 20") }
    ensures bad_record { HasFlowsFault
        (codes "000a0010000000000000000000000001000a00240000000000000000000000010002000c010000010052ffff0100000804657468")
        (codes "F7 BadRecord at 48") }
    ensures of_rows { Reports (command.Rows None [] false day) (of_flows (take 105 one_flow))
        (codes "day.ipfix: F4 TruncatedMessage at 0") }
    ensures of_uniq { Reports (command.Uniq (field.Number Flags ∷ []) None [] false false day)
        (of_flows (take 105 one_flow))
        (codes "day.ipfix: F4 TruncatedMessage at 0") }
    ensures map_before_flows { Reports (command.Rows (Some by_map) [] false day)
        (record empty { map = codes "x\n"; flows = take 5 one_flow }) (codes "map.txt: M1 BadStatement at 1") }
{}

/// FORMATS.md has the flow under "Records of both directions", and the options under "Filters".
pub fn rows_keeps_the_rows_that_meet_an_option()
    ensures protocol { Keeps (Number Protocol) (codes "1,6") }
    ensures other_protocol { Drops (Number Protocol) (codes "0-5,7-255") }
    ensures source_port { Keeps (Number SourcePort) (codes "1804") }
    ensures other_source_port { Drops (Number SourcePort) (codes "443") }
    ensures destination_port { Keeps (Number DestinationPort) (codes "443-65535") }
    ensures other_destination_port { Drops (Number DestinationPort) (codes "1804,444-65535") }
    ensures source_address { Keeps SourceAddress (codes "10.0.0.0/8") }
    ensures other_source_address { Drops SourceAddress (codes "198.51.100.228") }
    ensures destination_address { Keeps DestinationAddress (codes "192.0.2.1,198.51.100.228") }
    ensures other_destination_address { Drops DestinationAddress (codes "10.0.0.0/8") }
    ensures packets { Keeps Packets (codes "5-18446744073709551615") }
    ensures other_packets { Drops Packets (codes "6-") }
    ensures bytes { Keeps Bytes (codes "546-") }
    ensures other_bytes { Drops Bytes (codes "0-545") }
    ensures source_label { Keeps SourceLabel (codes "In") }
    ensures other_source_label { Drops SourceLabel (codes "Out") }
    ensures destination_label { Keeps DestinationLabel (codes "Out") }
    ensures other_destination_label { Drops DestinationLabel (codes "In") }
    ensures any_label { Keeps AnyLabel (codes "Out") }
    ensures other_label { Drops AnyLabel (codes "In,Out") }
    ensures one_option_of_two { Writes
        (command.Rows (Some by_map) ((Number Protocol, codes "6") ∷ (Packets, codes "4") ∷ []) false day) labelled_flow
        labelled_header }
{}

/// FORMATS.md, "Printed texts": the rows of a flow with its way back.
pub fn rows_prints_a_table()
    ensures no_rows { Writes (command.Rows None [] false day) empty
        (codes "sip|dip|sport|dport|proto|flags|packets|bytes|stime|etime\n") }
    ensures two_rows { Writes (command.Rows None [] false day) (of_flows both_ways)
        (codes "sip|dip|sport|dport|proto|flags|packets|bytes|stime|etime\n10.0.0.1|8.8.8.8|0|0|6|0|3|180|0|0\n8.8.8.8|10.0.0.1|0|0|6|0|2|100|0|0\n") }
    ensures columns { Writes (command.Rows None [] true day) (of_flows both_ways)
        (codes "     sip|     dip|sport|dport|proto|flags|packets|bytes|stime|etime\n10.0.0.1| 8.8.8.8|    0|    0|    6|    0|      3|  180|    0|    0\n 8.8.8.8|10.0.0.1|    0|    0|    6|    0|      2|  100|    0|    0\n") }
    ensures labels_of_a_map { Writes (command.Rows (Some by_map) [] false day)
        (record empty { map = codes "10.0.0.0/8 In\n8.0.0.0/8 Out\n"; flows = both_ways })
        (labelled_header
        ++ codes "10.0.0.1|8.8.8.8|0|0|6|0|3|180|0|0|In|Out\n8.8.8.8|10.0.0.1|0|0|6|0|2|100|0|0|Out|In\n") }
    ensures labels_of_a_list { Writes (command.Rows (Some by_list) [] false day)
        (record empty { list = codes "10.0.0.0/8 In\n"; flows = both_ways })
        (labelled_header ++ codes "10.0.0.1|8.8.8.8|0|0|6|0|3|180|0|0|In|\n8.8.8.8|10.0.0.1|0|0|6|0|2|100|0|0||In\n") }
    ensures one_of_two { Writes (command.Rows None ((Packets, codes "2") ∷ []) false day) (of_flows both_ways)
        (codes "sip|dip|sport|dport|proto|flags|packets|bytes|stime|etime\n8.8.8.8|10.0.0.1|0|0|6|0|2|100|0|0\n") }
{}

/// FORMATS.md, "Groups of rows".
pub fn uniq_prints_groups_by_their_fields()
    ensures source_address { Groups (field.SourceAddress ∷ []) (codes "sip|records|packets|bytes\n10.0.0.0|1|5|546\n") }
    ensures destination_address { Groups (field.DestinationAddress ∷ [])
        (codes "dip|records|packets|bytes\n198.51.100.228|1|5|546\n") }
    ensures source_port { Groups (field.Number SourcePort ∷ []) (codes "sport|records|packets|bytes\n1804|1|5|546\n") }
    ensures destination_port { Groups (field.Number DestinationPort ∷ [])
        (codes "dport|records|packets|bytes\n443|1|5|546\n") }
    ensures protocol { Groups (field.Number Protocol ∷ []) (codes "proto|records|packets|bytes\n6|1|5|546\n") }
    ensures flags { Groups (field.Number Flags ∷ []) (codes "flags|records|packets|bytes\n27|1|5|546\n") }
    ensures source_label { Groups (field.SourceLabel ∷ []) (codes "src-label|records|packets|bytes\nIn|1|5|546\n") }
    ensures destination_label { Groups (field.DestinationLabel ∷ [])
        (codes "dst-label|records|packets|bytes\nOut|1|5|546\n") }
    ensures two_fields { Groups (field.DestinationLabel ∷ field.Number Protocol ∷ [])
        (codes "dst-label|proto|records|packets|bytes\nOut|6|1|5|546\n") }
    ensures no_rows { Writes (command.Uniq (field.Number Flags ∷ []) None [] true false day) empty
        (codes "flags|records|packets|bytes\n") }
    ensures one_group { Writes (command.Uniq (field.Number Protocol ∷ []) None [] false false day) (of_flows both_ways)
        (codes "proto|records|packets|bytes\n6|2|5|280\n") }
    ensures as_they_come { Writes (command.Uniq (field.SourceAddress ∷ []) None [] false false day) (of_flows both_ways)
        (codes "sip|records|packets|bytes\n10.0.0.1|1|3|180\n8.8.8.8|1|2|100\n") }
    ensures sorted { Writes (command.Uniq (field.SourceAddress ∷ []) None [] true false day) (of_flows both_ways)
        (codes "sip|records|packets|bytes\n8.8.8.8|1|2|100\n10.0.0.1|1|3|180\n") }
    ensures columns { Writes (command.Uniq (field.SourceAddress ∷ []) None [] false true day) (of_flows both_ways)
        (codes "     sip|records|packets|bytes\n10.0.0.1|      1|      3|  180\n 8.8.8.8|      1|      2|  100\n") }
    ensures filtered { Writes (command.Uniq (field.SourceAddress ∷ []) None ((Bytes, codes "180") ∷ []) false false day)
        (of_flows both_ways) (codes "sip|records|packets|bytes\n10.0.0.1|1|3|180\n") }
    ensures by_a_list { Writes (command.Uniq (field.SourceLabel ∷ []) (Some by_list) [] true false day)
        (record empty { list = codes "10.0.0.0/8 In\n"; flows = both_ways })
        (codes "src-label|records|packets|bytes\n|1|2|100\nIn|1|3|180\n") }
{}

/// FORMATS.md has the map, the list and the certificate under "Certificates". No path of it has two inner nodes, so the
/// compact certificate differs only in its format ("Chains").
pub fn a_run_shrinks_a_map()
    ensures list { Writes (command.Shrink (named (codes "map.txt")) shrunk.List) (of_map quarters_map)
        (codes "mode ipv4\n0.0.0.0/0 A\n64.0.0.0/2 B\n192.0.0.0/2 C\n") }
    ensures certificate { Writes (command.Shrink (named (codes "map.txt")) shrunk.Certificate) (of_map quarters_map)
        (head ++ codes "n 2 0\n" ++ quarters_nodes) }
    ensures compact { Writes (command.Shrink (named (codes "map.txt")) shrunk.Compact) (of_map quarters_map)
        (codes "flowlabel-cert 2 ipv4 4\nA\nB\nC\nUNKNOWN\nn 2 0\n" ++ quarters_nodes) }
    ensures fault { Reports (command.Shrink (named (codes "map.txt")) shrunk.List) (of_map (codes "x\n"))
        (codes "map.txt: M1 BadStatement at 1") }
{}

/// The addresses of the ranges are those of RFC 4632, section 3.1.
pub fn a_run_prints_ranges()
    ensures of_a_map { Writes (command.Cat by_map) (of_map halves_map)
        (codes "low|high|label\n0.0.0.0|127.255.255.255|A\n128.0.0.0|255.255.255.255|B\n") }
    ensures of_a_list { Writes (command.Cat by_list) (of_list (codes "0.0.0.0/1 A\n"))
        (codes "low|high|label\n0.0.0.0|127.255.255.255|A\n128.0.0.0|255.255.255.255|\n") }
{}

/// FORMATS.md, "Statuses and fault lines".
pub fn a_run_reports_any_other_fault()
    ensures usage { seen (Err (Usage usage.MapMissing))
        ≡ (2, StandardError, codes "flowlabel: usage: P2 MapMissing\n") }
    ensures of_clap { (text : String Global)
        → seen (Err (Usage (usage.Refused text))) ≡ (2, StandardError, string_bytes text) }
    ensures filter { seen (Err (Usage (usage.Filter (record { option = Number SourcePort; kind = BadNumberList }))))
        ≡ (2, StandardError, codes "flowlabel: usage: --sport L1 BadNumberList\n") }
    ensures key { seen (Err (Usage (usage.Key BadField)))
        ≡ (2, StandardError, codes "flowlabel: usage: --fields U1 BadField\n") }
    ensures help { (text : String Global)
        → seen (Err (Usage (usage.Help text))) ≡ (0, StandardOutput, string_bytes text) }
    ensures no_memory_for_words { seen (Err (Usage usage.NoMemory))
        ≡ (3, StandardError, codes "flowlabel: out of memory\n") }
    ensures no_memory { seen (Err NoMemory) ≡ (3, StandardError, codes "flowlabel: out of memory\n") }
    ensures cannot_open { seen (Err (CannotOpen (named (codes "day.ipfix"))))
        ≡ (4, StandardError, codes "flowlabel: day.ipfix: cannot open\n") }
    ensures cannot_read { seen (Err (CannotRead (named (codes "day.ipfix"))))
        ≡ (4, StandardError, codes "flowlabel: day.ipfix: cannot read\n") }
    ensures cannot_write { seen (Err CannotWrite) ≡ (4, StandardError, codes "flowlabel: output: cannot write\n") }
    ensures not_utf8 { seen (Err (Usage usage.NotUtf8)) ≡ (2, StandardError, codes "flowlabel: usage: P1 NotUtf8\n") }
    ensures two_sources { seen (Err (Usage usage.MapTwice))
        ≡ (2, StandardError, codes "flowlabel: usage: P3 MapTwice\n") }
    ensures no_address { seen (Err (Usage usage.BadAddress))
        ≡ (2, StandardError, codes "flowlabel: usage: P4 BadAddress\n") }
    ensures no_map_for_labels { seen (Err (Usage usage.LabelNeedsMap))
        ≡ (2, StandardError, codes "flowlabel: usage: P5 LabelNeedsMap\n") }
    ensures compact_alone { seen (Err (Usage usage.CompactAlone))
        ≡ (2, StandardError, codes "flowlabel: usage: P6 CompactAlone\n") }
    ensures a_range { seen (Err (Usage (usage.Filter (record { option = Packets; kind = BadRange }))))
        ≡ (2, StandardError, codes "flowlabel: usage: --packets L2 BadRange\n") }
    ensures a_block { seen (Err (Usage (usage.Filter (record { option = DestinationAddress; kind = BadBlock }))))
        ≡ (2, StandardError, codes "flowlabel: usage: --daddress L3 BadBlock\n") }
    ensures a_field_twice { seen (Err (Usage (usage.Key FieldRepeated)))
        ≡ (2, StandardError, codes "flowlabel: usage: --fields U2 FieldRepeated\n") }
    ensures a_fault_of_a_map { seen (Err (File (named (codes "m")) (InMap (record { kind = TooMany; line = 7 }))))
        ≡ (1, StandardError, codes "flowlabel: m: M12 TooMany at 7\n") }
    ensures too_many_messages { seen
        (Err (File (named (codes "day")) (InFlows (record { kind = TooManyMessages; offset = 9 }))))
        ≡ (1, StandardError, codes "flowlabel: day: F9 TooManyMessages at 9\n") }
{}

/// A file that was read to its end has the bytes that were read. Any bytes may follow those of another file.
pub fn a_file_may_have_a_text()
    ensures whole { (text : Text)
        → MayHave (record { failed = false; returned = codes "mode ipv4\n"; stopped = true; left = None }) text
        → text ≡ codes "mode ipv4\n" }
    ensures begun { (rest : Text)
        → MayHave (record { failed = false; returned = codes "mode ipv4\n"; stopped = false; left = None })
        (codes "mode ipv4\n" ++ rest) }
    ensures not_at_its_end { (rest : Text)
        → MayHave (record { failed = false; returned = codes "mode ipv4\n"; stopped = true; left = Some (codes "x") })
        (codes "mode ipv4\n" ++ rest) }
{}

/// DEFINITIONS.md, "The command line", and FORMATS.md, "Filters": what the words of a command line ask for.
pub fn a_command_line_asks_for_a_command()
    ensures label_by_a_map { Asks (codes "flowlabel label --pmap m 10.1.2.3")
        (ask.label (FromMap (codes "m")) (V4, 0x0a01_0203)) }
    ensures label_by_a_list { Asks (codes "flowlabel label --list l ::1") (ask.label (FromList (codes "l")) (V6, 1)) }
    ensures info { Asks (codes "flowlabel info day") (ask.info (codes "day")) }
    ensures rows { Asks (codes "flowlabel rows day") (ask.rows None [] false (codes "day")) }
    ensures rows_with_all_options { Asks
        (codes "flowlabel rows --protocol 6 --sport 1 --dport 2 --saddress 10.0.0.0/8 --daddress ::1 --packets 3- --bytes 4- --src-label A --dst-label B --any-label C --pmap m --columns day")
        (ask.rows (Some (FromMap (codes "m")))
        ((Number Protocol, codes "6") ∷ (Number SourcePort, codes "1") ∷ (Number DestinationPort, codes "2")
        ∷ (SourceAddress, codes "10.0.0.0/8") ∷ (DestinationAddress, codes "::1") ∷ (Packets, codes "3-")
        ∷ (Bytes, codes "4-") ∷ (SourceLabel, codes "A") ∷ (DestinationLabel, codes "B") ∷ (AnyLabel, codes "C") ∷ [])
        true (codes "day")) }
    ensures uniq { Asks (codes "flowlabel uniq --fields sip,dip day")
        (ask.uniq (field.SourceAddress ∷ field.DestinationAddress ∷ []) None [] false false (codes "day")) }
    ensures uniq_by_all_fields { Asks
        (codes "flowlabel uniq --fields sip,dip,sport,dport,proto,flags,src-label,dst-label --list l day")
        (ask.uniq
        (field.SourceAddress ∷ field.DestinationAddress ∷ field.Number SourcePort ∷ field.Number DestinationPort
        ∷ field.Number Protocol ∷ field.Number Flags ∷ field.SourceLabel ∷ field.DestinationLabel ∷ [])
        (Some (FromList (codes "l"))) [] false false (codes "day")) }
    ensures uniq_sorted { Asks (codes "flowlabel uniq --fields proto --bytes 5 --sort-output day")
        (ask.uniq (field.Number Protocol ∷ []) None ((Bytes, codes "5") ∷ []) true false (codes "day")) }
    ensures uniq_in_columns { Asks (codes "flowlabel uniq --fields proto --columns day")
        (ask.uniq (field.Number Protocol ∷ []) None [] false true (codes "day")) }
    ensures cat { Asks (codes "flowlabel cat --list l") (ask.cat (FromList (codes "l"))) }
    ensures shrink { Asks (codes "flowlabel shrink --pmap m") (ask.shrink (codes "m") shrunk.List) }
    ensures shrink_to_a_certificate { Asks (codes "flowlabel shrink --pmap m --certificate")
        (ask.shrink (codes "m") shrunk.Certificate) }
    ensures shrink_to_a_compact_certificate { Asks (codes "flowlabel shrink --pmap m --compact --certificate")
        (ask.shrink (codes "m") shrunk.Compact) }
    ensures check { Asks (codes "flowlabel check --pmap m --list l --cert c")
        (ask.check (codes "m") (codes "l") (codes "c")) }
    ensures recert { Asks (codes "flowlabel recert --cert c") (ask.recert (codes "c")) }
{}

/// FORMATS.md, "Statuses and fault lines": the first usage fault of a command line.
pub fn a_command_line_has_a_usage_fault()
    ensures no_labels { HasUsageFault (codes "flowlabel label 10.1.2.3") usage.MapMissing }
    ensures two_sources { HasUsageFault (codes "flowlabel label --pmap m --list l x") usage.MapTwice }
    ensures no_address { HasUsageFault (codes "flowlabel label --pmap m 10.1.2") usage.BadAddress }
    ensures no_labels_for_cat { HasUsageFault (codes "flowlabel cat") usage.MapMissing }
    ensures two_sources_of_cat { HasUsageFault (codes "flowlabel cat --pmap m --list l") usage.MapTwice }
    ensures two_sources_of_rows { HasUsageFault (codes "flowlabel rows --pmap m --list l --sport x day")
        usage.MapTwice }
    ensures a_malformed_option { HasUsageFault (codes "flowlabel rows --src-label A --sport x day")
        (usage.Filter (record { option = Number SourcePort; kind = BadNumberList })) }
    ensures a_source_label_without_a_map { HasUsageFault (codes "flowlabel rows --src-label A day")
        usage.LabelNeedsMap }
    ensures a_destination_label_without_a_map { HasUsageFault (codes "flowlabel rows --dst-label A day")
        usage.LabelNeedsMap }
    ensures any_label_without_a_map { HasUsageFault (codes "flowlabel rows --any-label A day") usage.LabelNeedsMap }
    ensures two_sources_of_uniq { HasUsageFault (codes "flowlabel uniq --fields x --pmap m --list l day")
        usage.MapTwice }
    ensures a_malformed_option_before_a_field { HasUsageFault (codes "flowlabel uniq --fields x --bytes 5,6 day")
        (usage.Filter (record { option = Bytes; kind = BadRange })) }
    ensures an_unknown_field { HasUsageFault (codes "flowlabel uniq --fields src-label,x day") (usage.Key BadField) }
    ensures a_field_of_flowlabel_many { HasUsageFault (codes "flowlabel uniq --fields vlan day") (usage.Key BadField) }
    ensures a_field_twice { HasUsageFault (codes "flowlabel uniq --fields src-label,src-label day")
        (usage.Key FieldRepeated) }
    ensures a_field_of_source_labels { HasUsageFault (codes "flowlabel uniq --fields src-label day")
        usage.LabelNeedsMap }
    ensures a_field_of_destination_labels { HasUsageFault (codes "flowlabel uniq --fields dst-label day")
        usage.LabelNeedsMap }
    ensures uniq_by_a_label_without_a_map { HasUsageFault (codes "flowlabel uniq --fields sip --any-label A day")
        usage.LabelNeedsMap }
    ensures compact_alone { HasUsageFault (codes "flowlabel shrink --pmap m --compact") usage.CompactAlone }
{}

/// FORMATS.md, "Statuses and fault lines": P0, help and the version.
pub fn clap_refuses_other_words()
    ensures no_command { is_refused (codes "flowlabel") ≡ true }
    ensures help_is_an_option { is_refused (codes "flowlabel help") ≡ true }
    ensures another_command { is_refused (codes "flowlabel lable") ≡ true }
    ensures another_option { is_refused (codes "flowlabel cat --map m") ≡ true }
    ensures an_option_of_flowlabel_many { is_refused (codes "flowlabel rows --vlan 5 day") ≡ true }
    ensures no_address { is_refused (codes "flowlabel label --pmap m") ≡ true }
    ensures two_addresses { is_refused (codes "flowlabel label --pmap m 10.0.0.1 10.0.0.2") ≡ true }
    ensures no_file_for_info { is_refused (codes "flowlabel info") ≡ true }
    ensures no_file_for_rows { is_refused (codes "flowlabel rows") ≡ true }
    ensures no_file_for_uniq { is_refused (codes "flowlabel uniq --fields sip") ≡ true }
    ensures no_fields { is_refused (codes "flowlabel uniq day") ≡ true }
    ensures no_map_for_shrink { is_refused (codes "flowlabel shrink") ≡ true }
    ensures no_map_for_check { is_refused (codes "flowlabel check --list l --cert c") ≡ true }
    ensures no_list_for_check { is_refused (codes "flowlabel check --pmap m --cert c") ≡ true }
    ensures no_certificate_for_check { is_refused (codes "flowlabel check --pmap m --list l") ≡ true }
    ensures no_certificate_for_recert { is_refused (codes "flowlabel recert") ≡ true }
    ensures rows_sorted { is_refused (codes "flowlabel rows --sort-output day") ≡ true }
    ensures a_list_to_shrink { is_refused (codes "flowlabel shrink --list l") ≡ true }
    ensures an_option_twice { is_refused (codes "flowlabel rows --sport 1 --sport 2 day") ≡ true }
    ensures a_word_after_cat { is_refused (codes "flowlabel cat --pmap m x") ≡ true }
    ensures the_version { asks_for_help (codes "flowlabel --version") ≡ true }
    ensures help { asks_for_help (codes "flowlabel --help") ≡ true }
    ensures help_for_a_command { asks_for_help (codes "flowlabel shrink --help") ≡ true }
{}

/// What the errors of clap, and of getting the words, say.
pub fn a_usage_fault_has_its_kind()
    ensures help { is_help kind.DisplayHelp ≡ true }
    ensures the_version { is_help kind.DisplayVersion ≡ true }
    ensures no_help { is_help kind.UnknownArgument ≡ false }
    ensures help_is_no_mistake { is_mistake kind.DisplayHelp ≡ false }
    ensures the_version_is_no_mistake { is_mistake kind.DisplayVersion ≡ false }
    ensures no_memory_is_no_mistake { is_mistake kind.OutOfMemory ≡ false }
    ensures a_mistake { is_mistake kind.UnknownArgument ≡ true }
    ensures words_that_are_not_utf8 { words_fault_of io.InvalidData ≡ usage.NotUtf8 }
    ensures no_memory_for_words { words_fault_of io.OutOfMemory ≡ usage.NoMemory }
{}

/// FORMATS.md, "Statuses and fault lines": the codes of faults that the program reports in another way.
pub fn a_fault_without_a_line_has_a_name()
    ensures of_a_map { map_fault_name NoMemoryForMap ≡ codes "M15 NoMemory" }
    ensures of_a_failed_reader { flows_fault_name flows.ReadFault ≡ codes "F8 ReadFault" }
    ensures of_a_file { flows_fault_name flows.NoMemory ≡ codes "F10 NoMemory" }
    ensures of_a_call_after_a_fault { flows_fault_name flows.Failed ≡ codes "F11 Failed" }
    ensures of_a_certificate { certificate_fault_name certificate.NoMemory ≡ codes "C7 NoMemory" }
    ensures of_a_check { check_fault_name check.NoMemory ≡ codes "K7 NoMemory" }
    ensures of_a_filter { filter_fault_text filters.NoMemory ≡ codes "L4 NoMemory" }
    ensures of_fields { key_fault_text NoMemoryForKeys ≡ codes "U3 NoMemory" }
{}

/// FORMATS.md, "Statuses and fault lines": the map, the list, the certificate and the File are read in this order.
pub fn each_file_has_its_turn()
    ensures the_map { turn role.Map ≡ 0 }
    ensures the_list { turn role.List ≡ 1 }
    ensures the_certificate { turn role.Certificate ≡ 2 }
    ensures the_flows { turn role.Flows ≡ 3 }
{}

/// A command line names files, and each that can be opened has a reader.
pub fn a_named_file_is_opened()
    ensures no_file { IsOpened opens None None }
    ensures a_file { IsOpened opens (Some (codes "there")) (file_with (codes "there") 7) }
    ensures files { AreOpened opens (of_files (Some (codes "there")) None None (Some (codes "there")))
        (of_files (file_with (codes "there") 7) None None (file_with (codes "there") 7)) }
    ensures no_name_can_be_opened { CanOpen opens None }
    ensures no_memory { CannotOpenNamed opens (Some (codes "there")) NoMemory }
    ensures a_file_that_is_missing { CannotOpenNamed opens (Some (codes "gone")) (CannotOpen (named (codes "gone"))) }
    ensures the_first_that_is_missing { CannotOpenFirst opens
        (of_files (Some (codes "gone")) None None (Some (codes "lost"))) (CannotOpen (named (codes "gone"))) }
{}

/// A file that isn't named, or a fault that isn't of the first file that can't be opened.
pub fn another_file_is_not_opened()
    ensures another_name { IsOpened opens (Some (codes "there")) (file_with (codes "gone") 7) → ⊥ }
    ensures another_reader { IsOpened opens (Some (codes "there")) (file_with (codes "there") 8) → ⊥ }
    ensures not_opened { IsOpened opens (Some (codes "there")) None → ⊥ }
    ensures not_named { IsOpened opens None (file_with (codes "there") 7) → ⊥ }
    ensures a_missing_file_can_be_opened { CanOpen opens (Some (codes "gone")) → ⊥ }
    ensures a_file_that_is_there { CannotOpenNamed opens (Some (codes "there")) (CannotOpen (named (codes "there")))
        → ⊥ }
    ensures the_name_of_another { CannotOpenNamed opens (Some (codes "gone")) (CannotOpen (named (codes "lost"))) → ⊥ }
    ensures a_fault_of_the_writer { CannotOpenNamed opens (Some (codes "gone")) CannotWrite → ⊥ }
    ensures the_later_of_two { CannotOpenFirst opens (of_files (Some (codes "gone")) None None (Some (codes "lost")))
        (CannotOpen (named (codes "lost"))) → ⊥ }
{}

/// The texts that a file may have, by the bytes that its reads returned.
pub fn a_reader_may_have_a_text()
    ensures all_of_it { MayHave (reader_of false true (codes "ab")) (codes "ab") }
    ensures not_more_after_the_end { MayHave (reader_of false true (codes "ab")) (codes "abc") → ⊥ }
    ensures of_one_file { AreTexts seen_of (map_read (reader_of false true (codes "ab"))) (of_map (codes "ab")) }
{}

/// What contracts see of the readers of a command's files.
pub fn readers_are_seen()
    ensures a_missing_file { view_of seen_of None ≡ record (reader_of false true []) { left = Some [] } }
    ensures a_file { view_of seen_of (file_with (codes "x") (reader_of false false (codes "ab")))
        ≡ (reader_of false false (codes "ab")) }
    ensures none_failed { any_failed seen_of (map_read (reader_of false false (codes "ab"))) ≡ false }
    ensures the_map_failed { any_failed seen_of
        (of_files (file_with (codes "x") (reader_of true false (codes "ab"))) None None None) ≡ true }
    ensures the_list_failed { any_failed seen_of
        (of_files None (file_with (codes "x") (reader_of true false (codes "ab"))) None None) ≡ true }
    ensures the_certificate_failed { any_failed seen_of
        (of_files None None (file_with (codes "x") (reader_of true false (codes "ab"))) None) ≡ true }
    ensures the_flows_failed { any_failed seen_of
        (of_files None None None (file_with (codes "x") (reader_of true false (codes "ab")))) ≡ true }
    ensures nothing_is_read { AreUnread seen_of (map_read (reader_of false false (codes ""))) }
{}

/// FORMATS.md, "Statuses and fault lines": the line of a fault goes to standard error, if there is memory for it.
pub fn a_fault_is_reported()
    ensures written { IsWritten (writer_of false Nothing (codes "")) (writer_of false Flush (codes "ab")) (codes "ab") }
    ensures nothing_to_report { IsReported shown_of shown_of program_name (Ok tt) (writer_of false Nothing (codes ""))
        (writer_of false Nothing (codes "")) (writer_of false Nothing (codes "")) (writer_of false Nothing (codes "")) }
    ensures a_line { IsReported shown_of shown_of program_name (Err CannotWrite) (writer_of false Nothing (codes ""))
        (writer_of false Nothing (codes "")) (writer_of false Nothing (codes ""))
        (writer_of false Flush (codes "flowlabel: output: cannot write\n")) }
    ensures a_line_on_standard_output { IsReported shown_of shown_of program_name (Err CannotWrite)
        (writer_of false Nothing (codes "")) (writer_of false Flush (codes "x")) (writer_of false Nothing (codes ""))
        (writer_of false Nothing (codes "")) → ⊥ }
    ensures output_after_a_success { IsReported shown_of shown_of program_name (Ok tt)
        (writer_of false Nothing (codes "")) (writer_of false Flush (codes "x")) (writer_of false Nothing (codes ""))
        (writer_of false Nothing (codes "")) → ⊥ }
    ensures a_line_after_a_success { IsReported shown_of shown_of program_name (Ok tt)
        (writer_of false Nothing (codes "")) (writer_of false Nothing (codes "")) (writer_of false Nothing (codes ""))
        (writer_of false Flush (codes "x")) → ⊥ }
{}

/// RFC 791: an IPv4 address has 32 bits.
pub fn an_address_of_a_request_is_one()
    ensures the_greatest { IsProper (ask.label (FromMap []) (V4, 4294967295)) }
    ensures one_more { IsProper (ask.label (FromMap []) (V4, 4294967296)) → ⊥ }
    ensures of_ipv6 { IsProper (ask.label (FromMap []) (V6, 4294967296)) }
{}
