//! IPFIX Files: what is counted and which rows there are, and each fault with its offset. Bytes are in hexadecimal.
#![tactic(auto, unfolding(crate::specs::Files::opened))]

ghost use Rattle.definition_examples.specs.Files.{at_offset, counts, lacks, rfc_decoded};
ghost use Rattle.definition_examples.specs.Files.{rfc_message, rows, of_messages};
ghost use Rattle.definition_examples.specs.Rows.{hex, plain};
ghost use Rattle.flow_rows.specs.Laws.{summed_counts, sums};
ghost use Rattle.ipfix_read.specs.Message.{own_fault, header_fault};
ghost use Rattle.ipfix_read.specs.Messages.{StopsReading, file_reading, messages_from, StopsFrom};
ghost use Rattle.ipfix_read.specs.Set.{set_next};
ghost use Rattle.ipfix_read.specs.Value.{variable_at};
ghost use Rattle.ipfix_read.specs.declared.fault.ReadFaultKind.TheVariants.{BadMessageLength, BadRecord};
ghost use Rattle.ipfix_read.specs.declared.fault.ReadFaultKind.TheVariants.{BadSetLength, BadTemplate, BadVersion};
ghost use Rattle.ipfix_read.specs.declared.fault.ReadFaultKind.TheVariants.{ReadFault as Unread, TooManyMessages};
ghost use Rattle.ipfix_read.specs.declared.fault.ReadFaultKind.TheVariants.{TruncatedHeader, TruncatedMessage};
ghost use Rattle.ipfix_read.specs.declared.set.Set.TheVariants.{Skipped};
ghost use Rattle.ipfix_templates.specs.InForce.{no_templates};
ghost use Rattle.ipfix_templates.specs.declared.fault.TemplateFaultKind.TheVariants.{BadScope, BadTemplateId};
ghost use Rattle.ipfix_templates.specs.declared.fault.TemplateFaultKind.TheVariants.{Truncated};
ghost use Rattle.std.specs.Prelude.{◌≡◌, ◌++◌, ◌∷◌, [], codes, Err, false, None};
ghost use Rattle.std.specs.Prelude.{Ok, replicate, Some, take, true, is_ok};

/// RFC 7011, appendix A: one template, one options template, three records and two options records.
pub fn the_message_of_rfc_7011()
    ensures counts_of_it { counts
        (codes "000a0098 00000000 00000000 00000001 0002001c 01000005 00080004 000c0004 000f0004 00020004 00010004 01000040 c000020c c00002fe c0000201 00001391 00518c81 c000021b c0000217 c0000202 000002ec 0005ef46 c0000238 c0000241 c0000203 00000005 00001986 00030018 01010003 0001008d 00040029 0002002a 00020000 01010014 00000001 015927d9 00000002 02b24fb2")
        ≡ Ok (1 ∷ 1 ∷ 1 ∷ 0 ∷ 2 ∷ 0 ∷ 3 ∷ 2 ∷ 3 ∷ []) }
    ensures rows_of_it { rows
        (codes "000a0098 00000000 00000000 00000001 0002001c 01000005 00080004 000c0004 000f0004 00020004 00010004 01000040 c000020c c00002fe c0000201 00001391 00518c81 c000021b c0000217 c0000202 000002ec 0005ef46 c0000238 c0000241 c0000203 00000005 00001986 00030018 01010003 0001008d 00040029 0002002a 00020000 01010014 00000001 015927d9 00000002 02b24fb2")
        ≡ Ok (record plain { src = 0xc000_020c; dst = 0xc000_02fe; packets = 5009; octets = 5344385 }
        ∷ record plain { src = 0xc000_021b; dst = 0xc000_0217; packets = 748; octets = 388934 }
        ∷ record plain { src = 0xc000_0238; dst = 0xc000_0241; packets = 5; octets = 6534 } ∷ []) }
    ensures without_its_last_byte { counts
        (codes "000a0098 00000000 00000000 00000001 0002001c 01000005 00080004 000c0004 000f0004 00020004 00010004 01000040 c000020c c00002fe c0000201 00001391 00518c81 c000021b c0000217 c0000202 000002ec 0005ef46 c0000238 c0000241 c0000203 00000005 00001986 00030018 01010003 0001008d 00040029 0002002a 00020000 01010014 00000001 015927d9 00000002 02b24f")
        ≡ Err (at_offset TruncatedMessage 0) }
{}

/// RFC 7011, appendix A: the decoded message, and where a reader of it may stop.
pub fn the_message_of_rfc_7011_is_decoded()
    ensures whole { file_reading rfc_message ≡ Ok (rfc_decoded ∷ []) }
    ensures twice { file_reading (rfc_message ++ rfc_message) ≡ Ok (rfc_decoded ∷ rfc_decoded ∷ []) }
    ensures cut_off { file_reading (rfc_message ++ take 151 rfc_message) ≡ Err (at_offset TruncatedMessage 152) }
    ensures stops_between { StopsReading rfc_message }
    ensures stops_within { StopsReading (rfc_message ++ take 100 rfc_message) }
    ensures stops_first { StopsReading [] }
{}

/// RFC 7011, section 3.1, and RFC 5655: a File is a concatenation of messages.
pub fn messages_follow_one_another()
    ensures no_message { counts (codes "") ≡ Ok (0 ∷ 0 ∷ 0 ∷ 0 ∷ 0 ∷ 0 ∷ 0 ∷ 0 ∷ 0 ∷ []) }
    ensures a_message_without_sets { counts (codes "000a0010 00000000 00000000 00000001")
        ≡ Ok (1 ∷ 0 ∷ 0 ∷ 0 ∷ 0 ∷ 0 ∷ 0 ∷ 0 ∷ 0 ∷ []) }
    ensures three_messages { counts
        (codes "000a0010 00000000 00000000 00000001 000a0010 00000000 00000000 00000001 000a0010 00000000 00000000 00000001")
        ≡ Ok (3 ∷ 0 ∷ 0 ∷ 0 ∷ 0 ∷ 0 ∷ 0 ∷ 0 ∷ 0 ∷ []) }
    ensures a_template_for_a_later_message { counts
        (codes "000a0020 00000000 00000000 00000001 00020010 01000002 00080004 000c0004 000a001c 00000000 00000000 00000001 0100000c 0a000001 0a000002")
        ≡ Ok (2 ∷ 1 ∷ 0 ∷ 0 ∷ 1 ∷ 0 ∷ 1 ∷ 0 ∷ 1 ∷ []) }
    ensures not_for_another_domain { counts
        (codes "000a0020 00000000 00000000 00000001 00020010 01000002 00080004 000c0004 000a001c 00000000 00000000 00000002 0100000c 0a000001 0a000002")
        ≡ Ok (2 ∷ 1 ∷ 0 ∷ 0 ∷ 0 ∷ 1 ∷ 0 ∷ 0 ∷ 0 ∷ []) }
    ensures not_for_an_earlier_message { counts
        (codes "000a001c 00000000 00000000 00000001 0100000c 0a000001 0a000002 000a0020 00000000 00000000 00000001 00020010 01000002 00080004 000c0004")
        ≡ Ok (2 ∷ 1 ∷ 0 ∷ 0 ∷ 0 ∷ 1 ∷ 0 ∷ 0 ∷ 0 ∷ []) }
    ensures each_domain_has_its_own { counts
        (codes "000a0020 00000000 00000000 00000001 00020010 01000002 00080004 000c0004 000a001c 00000000 00000000 00000002 0002000c 01000001 00040001 000a001c 00000000 00000000 00000001 0100000c 0a000001 0a000002")
        ≡ Ok (3 ∷ 2 ∷ 0 ∷ 0 ∷ 1 ∷ 0 ∷ 1 ∷ 0 ∷ 1 ∷ []) }
    ensures domains_differ_in_high_bits { counts
        (codes "000a0020 00000000 00000000 00010001 00020010 01000002 00080004 000c0004 000a001c 00000000 00000000 00000001 0100000c 0a000001 0a000002")
        ≡ Ok (2 ∷ 1 ∷ 0 ∷ 0 ∷ 0 ∷ 1 ∷ 0 ∷ 0 ∷ 0 ∷ []) }
    ensures domains_differ_in_the_highest_byte { counts
        (codes "000a0020 00000000 00000000 01000001 00020010 01000002 00080004 000c0004 000a001c 00000000 00000000 00000001 0100000c 0a000001 0a000002")
        ≡ Ok (2 ∷ 1 ∷ 0 ∷ 0 ∷ 0 ∷ 1 ∷ 0 ∷ 0 ∷ 0 ∷ []) }
    ensures a_header_has_its_numbers { file_reading
        (hex (codes "000a0018 01020304 05060708 090a0b0c 00010008 00000000"))
        ≡ Ok (record { export_time = 0x0102_0304; sequence = 0x0506_0708; domain = 0x090a_0b0c; sets = Skipped 1 ∷ [] }
        ∷ []) }
    ensures the_count_goes_on { messages_from no_templates 4294967294 7
        (hex (codes "000a0010 00000000 00000000 00000001 000a0010 00000000 00000000 00000001"))
        ≡ Err (at_offset TooManyMessages 23) }
    ensures the_last_two_messages { is_ok
        (messages_from no_templates 4294967293 0
        (hex (codes "000a0010 00000000 00000000 00000001 000a0010 00000000 00000000 00000001"))) ≡ true }
{}

/// RFC 7011, section 3.3: the set ID is 2, 3, or 256 or above.
pub fn sets_follow_one_another()
    ensures a_template_and_its_records { counts
        (codes "000a0034 00000000 00000000 00000001 00020010 01000002 00080004 000c0004 01000014 0a000001 0a000002 0a000001 0a000002")
        ≡ Ok (1 ∷ 1 ∷ 0 ∷ 0 ∷ 1 ∷ 0 ∷ 2 ∷ 0 ∷ 2 ∷ []) }
    ensures two_templates_in_a_set { counts
        (codes "000a0028 00000000 00000000 00000001 00020018 01000002 00080004 000c0004 01010001 00040001")
        ≡ Ok (1 ∷ 2 ∷ 0 ∷ 0 ∷ 0 ∷ 0 ∷ 0 ∷ 0 ∷ 0 ∷ []) }
    ensures set_0 { counts (codes "000a0018 00000000 00000000 00000001 00000008 00000000")
        ≡ Ok (1 ∷ 0 ∷ 0 ∷ 0 ∷ 0 ∷ 1 ∷ 0 ∷ 0 ∷ 0 ∷ []) }
    ensures set_1 { counts (codes "000a0014 00000000 00000000 00000001 00010004")
        ≡ Ok (1 ∷ 0 ∷ 0 ∷ 0 ∷ 0 ∷ 1 ∷ 0 ∷ 0 ∷ 0 ∷ []) }
    ensures set_4 { counts (codes "000a0015 00000000 00000000 00000001 00040005 01")
        ≡ Ok (1 ∷ 0 ∷ 0 ∷ 0 ∷ 0 ∷ 1 ∷ 0 ∷ 0 ∷ 0 ∷ []) }
    ensures set_255 { counts (codes "000a0015 00000000 00000000 00000001 00ff0005 01")
        ≡ Ok (1 ∷ 0 ∷ 0 ∷ 0 ∷ 0 ∷ 1 ∷ 0 ∷ 0 ∷ 0 ∷ []) }
    ensures no_template { counts (codes "000a001c 00000000 00000000 00000001 012c000c 0a000001 0a000002")
        ≡ Ok (1 ∷ 0 ∷ 0 ∷ 0 ∷ 0 ∷ 1 ∷ 0 ∷ 0 ∷ 0 ∷ []) }
    ensures an_empty_data_set { counts
        (codes "000a0024 00000000 00000000 00000001 00020010 01000002 00080004 000c0004 01000004")
        ≡ Ok (1 ∷ 1 ∷ 0 ∷ 0 ∷ 1 ∷ 0 ∷ 0 ∷ 0 ∷ 0 ∷ []) }
    ensures options_records { counts
        (codes "000a0026 00000000 00000000 00000001 0003000e 010100010001 008d0004 01010008 00000001")
        ≡ Ok (1 ∷ 0 ∷ 1 ∷ 0 ∷ 1 ∷ 0 ∷ 0 ∷ 1 ∷ 0 ∷ []) }
    ensures a_field_of_an_enterprise { counts
        (codes "000a0028 00000000 00000000 00000001 00020010 01000001 80080004 00007279 01000008 00000001")
        ≡ Ok (1 ∷ 1 ∷ 0 ∷ 0 ∷ 1 ∷ 0 ∷ 1 ∷ 0 ∷ 0 ∷ []) }
    ensures the_greatest_template_id { counts
        (codes "000a002c 00000000 00000000 00000001 00020010 ffff0002 00080004 000c0004 ffff000c 0a000001 0a000002")
        ≡ Ok (1 ∷ 1 ∷ 0 ∷ 0 ∷ 1 ∷ 0 ∷ 1 ∷ 0 ∷ 1 ∷ []) }
    ensures another_enterprise_with_the_same_low_bytes { rows
        (codes "000a0038 00000000 00000000 00000001 00020018 01000003 00080004 000c0004 80020004 00017279 01000010 0a000001 0a000002 00000005")
        ≡ Ok (record plain { src = 0x0a000001; dst = 0x0a000002 } ∷ []) }
    ensures an_element_above_16384 { rows
        (codes "000a0038 00000000 00000000 00000001 00020018 01000003 00080004 000c0004 c0020004 00007279 01000010 0a000001 0a000002 00000005")
        ≡ Ok (record plain { src = 0x0a000001; dst = 0x0a000002 } ∷ []) }
    ensures records_of_two_templates { counts
        (codes "000a002f 00000000 00000000 00000001 00020014 01000001 00040001 01010001 000b0002 01000005 06 01010006 01bb")
        ≡ Ok (1 ∷ 2 ∷ 0 ∷ 0 ∷ 2 ∷ 0 ∷ 2 ∷ 0 ∷ 0 ∷ []) }
    ensures the_greater_id_first { counts
        (codes "000a002f 00000000 00000000 00000001 00020014 01010001 000b0002 01000001 00040001 01000005 06 01010006 01bb")
        ≡ Ok (1 ∷ 2 ∷ 0 ∷ 0 ∷ 2 ∷ 0 ∷ 2 ∷ 0 ∷ 0 ∷ []) }
{}

/// RFC 7011, section 8.1, and FORMATS.md, "Template in force".
pub fn the_last_definition_is_in_force()
    ensures a_second_definition { counts
        (codes "000a0032 00000000 00000000 00000001 00020010 01000002 00080004 000c0004 0002000c 01000001 00040001 01000006 06 06")
        ≡ Ok (1 ∷ 2 ∷ 0 ∷ 0 ∷ 1 ∷ 0 ∷ 2 ∷ 0 ∷ 0 ∷ []) }
    ensures a_withdrawal { counts
        (codes "000a0034 00000000 00000000 00000001 00020010 01000002 00080004 000c0004 00020008 01000000 0100000c 0a000001 0a000002")
        ≡ Ok (1 ∷ 1 ∷ 0 ∷ 1 ∷ 0 ∷ 1 ∷ 0 ∷ 0 ∷ 0 ∷ []) }
    ensures a_withdrawal_of_all { counts
        (codes "000a0034 00000000 00000000 00000001 00020010 01000002 00080004 000c0004 00020008 00020000 0100000c 0a000001 0a000002")
        ≡ Ok (1 ∷ 1 ∷ 0 ∷ 1 ∷ 0 ∷ 1 ∷ 0 ∷ 0 ∷ 0 ∷ []) }
    ensures a_withdrawal_of_all_options_templates { counts
        (codes "000a0034 00000000 00000000 00000001 00020010 01000002 00080004 000c0004 00030008 00030000 0100000c 0a000001 0a000002")
        ≡ Ok (1 ∷ 1 ∷ 0 ∷ 1 ∷ 1 ∷ 0 ∷ 1 ∷ 0 ∷ 1 ∷ []) }
    ensures a_withdrawal_in_a_set_of_the_other_kind { counts
        (codes "000a0034 00000000 00000000 00000001 00020010 01000002 00080004 000c0004 00030008 01000000 0100000c 0a000001 0a000002")
        ≡ Ok (1 ∷ 1 ∷ 0 ∷ 1 ∷ 0 ∷ 1 ∷ 0 ∷ 0 ∷ 0 ∷ []) }
    ensures a_withdrawal_of_none { counts
        (codes "000a0034 00000000 00000000 00000001 00020008 01010000 00020010 01000002 00080004 000c0004 0100000c 0a000001 0a000002")
        ≡ Ok (1 ∷ 1 ∷ 0 ∷ 1 ∷ 1 ∷ 0 ∷ 1 ∷ 0 ∷ 1 ∷ []) }
    ensures in_another_domain { counts
        (codes "000a0020 00000000 00000000 00000001 00020010 01000002 00080004 000c0004 000a0018 00000000 00000000 00000002 00020008 01000000 000a001c 00000000 00000000 00000001 0100000c 0a000001 0a000002")
        ≡ Ok (3 ∷ 1 ∷ 0 ∷ 1 ∷ 1 ∷ 0 ∷ 1 ∷ 0 ∷ 1 ∷ []) }
    ensures a_definition_after_a_withdrawal { counts
        (codes "000a0044 00000000 00000000 00000001 00020010 01000002 00080004 000c0004 00020008 01000000 00020010 01000002 00080004 000c0004 0100000c 0a000001 0a000002")
        ≡ Ok (1 ∷ 2 ∷ 0 ∷ 1 ∷ 1 ∷ 0 ∷ 1 ∷ 0 ∷ 1 ∷ []) }
    ensures a_withdrawal_of_all_of_another_domain { counts
        (codes "000a0020 00000000 00000000 00000001 00020010 01000002 00080004 000c0004 000a0018 00000000 00000000 00000002 00020008 00020000 000a001c 00000000 00000000 00000001 0100000c 0a000001 0a000002")
        ≡ Ok (3 ∷ 1 ∷ 0 ∷ 1 ∷ 1 ∷ 0 ∷ 1 ∷ 0 ∷ 1 ∷ []) }
    ensures a_definition_after_a_withdrawal_in_one_set { counts
        (codes "000a0020 00000000 00000000 00000001 00020010 01000000 01010001 00040001")
        ≡ Ok (1 ∷ 1 ∷ 0 ∷ 1 ∷ 0 ∷ 0 ∷ 0 ∷ 0 ∷ 0 ∷ []) }
    ensures a_definition_after_a_withdrawal_of_all_in_one_set { counts
        (codes "000a0020 00000000 00000000 00000001 00020010 00020000 01010001 00040001")
        ≡ Ok (1 ∷ 1 ∷ 0 ∷ 1 ∷ 0 ∷ 0 ∷ 0 ∷ 0 ∷ 0 ∷ []) }
    ensures a_withdrawal_of_all_of_a_lower_domain { counts
        (codes "000a0020 00000000 00000000 00000002 00020010 01000002 00080004 000c0004 000a0018 00000000 00000000 00000001 00020008 00020000 000a001c 00000000 00000000 00000002 0100000c 0a000001 0a000002")
        ≡ Ok (3 ∷ 1 ∷ 0 ∷ 1 ∷ 1 ∷ 0 ∷ 1 ∷ 0 ∷ 1 ∷ []) }
{}

/// RFC 7011, sections 3.3.1 and 3.4.3: fewer bytes than a record has, whatever they are.
pub fn padding_is_ignored()
    ensures of_a_template_set { counts
        (codes "000a002f 00000000 00000000 00000001 00020013 01000002 00080004 000c0004 ffffff 0100000c 0a000001 0a000002")
        ≡ Ok (1 ∷ 1 ∷ 0 ∷ 0 ∷ 1 ∷ 0 ∷ 1 ∷ 0 ∷ 1 ∷ []) }
    ensures of_a_data_set { counts
        (codes "000a0033 00000000 00000000 00000001 00020010 01000002 00080004 000c0004 01000013 0a000001 0a000002 ffffffffffffff")
        ≡ Ok (1 ∷ 1 ∷ 0 ∷ 0 ∷ 1 ∷ 0 ∷ 1 ∷ 0 ∷ 1 ∷ []) }
    ensures of_variable_length { counts
        (codes "000a002a 00000000 00000000 00000001 00020010 01000002 0052ffff 00040001 0100000a 03657468 06 00")
        ≡ Ok (1 ∷ 1 ∷ 0 ∷ 0 ∷ 1 ∷ 0 ∷ 1 ∷ 0 ∷ 0 ∷ []) }
    ensures long_form { counts
        (codes "000a0026 00000000 00000000 00000001 0002000c 01000001 0052ffff 0100000a ff0003657468")
        ≡ Ok (1 ∷ 1 ∷ 0 ∷ 0 ∷ 1 ∷ 0 ∷ 1 ∷ 0 ∷ 0 ∷ []) }
    ensures records_of_no_bytes { counts
        (codes "000a0021 00000000 00000000 00000001 0002000c 01000001 00080000 01000005 00")
        ≡ Ok (1 ∷ 1 ∷ 0 ∷ 0 ∷ 1 ∷ 0 ∷ 0 ∷ 0 ∷ 0 ∷ []) }
    ensures a_length_of_254 { variable_at (254 ∷ replicate 255 7) ≡ Some (replicate 254 7, 7 ∷ []) }
    ensures a_long_form_of_256_bytes { variable_at (255 ∷ 1 ∷ 0 ∷ replicate 257 7) ≡ Some (replicate 256 7, 7 ∷ []) }
    ensures an_empty_value_is_a_record { counts
        (codes "000a0021 00000000 00000000 00000001 0002000c 01000001 0052ffff 01000005 00")
        ≡ Ok (1 ∷ 1 ∷ 0 ∷ 0 ∷ 1 ∷ 0 ∷ 1 ∷ 0 ∷ 0 ∷ []) }
    ensures a_long_form_of_no_bytes { variable_at (255 ∷ 0 ∷ 0 ∷ []) ≡ Some ([], []) }
{}

/// FORMATS.md, "IPFIX Files": F1 to F4, at the offset of the message.
pub fn faults_of_messages()
    ensures fifteen_bytes { counts (codes "000a0010 00000000 00000000 000000") ≡ Err (at_offset TruncatedHeader 0) }
    ensures one_byte_after_two_messages { counts
        (codes "000a0010 00000000 00000000 00000001 000a0010 00000000 00000000 00000001 00")
        ≡ Err (at_offset TruncatedHeader 32) }
    ensures version_9 { counts (codes "00090010 00000000 00000000 00000001") ≡ Err (at_offset BadVersion 0) }
    ensures version_9_of_the_second { counts
        (codes "000a0010 00000000 00000000 00000001 00090010 00000000 00000000 00000001")
        ≡ Err (at_offset BadVersion 16) }
    ensures a_length_of_15 { counts (codes "000a000f 00000000 00000000 00000001") ≡ Err (at_offset BadMessageLength 0) }
    ensures a_length_of_17 { counts (codes "000a0011 00000000 00000000 00000001") ≡ Err (at_offset TruncatedMessage 0) }
    ensures a_version_before_a_length { counts (codes "0009000f 00000000 00000000 00000001")
        ≡ Err (at_offset BadVersion 0) }
    ensures in_the_third { counts
        (codes "000a0010 00000000 00000000 00000001 000a0020 00000000 00000000 00000001 00020010 01000002 00080004 000c0004 000a0028 00000000 00000000 00000001")
        ≡ Err (at_offset TruncatedMessage 48) }
    ensures the_last_message_of_a_file { own_fault 4294967294 (hex (codes "000a0010")) ≡ None }
    ensures one_message_too_many { own_fault 4294967295 (hex (codes "000a0010")) ≡ Some TooManyMessages }
    ensures a_version_of_two_bytes { own_fault 0 (hex (codes "010a0010")) ≡ Some BadVersion }
    ensures a_length_of_40000 { header_fault 0 (hex (codes "000a9c40 00000000 00000000 00000001"))
        ≡ Some TruncatedMessage }
    ensures a_version_before_a_truncated_message { header_fault 0 (hex (codes "0009ffff 00000000 00000000 00000001"))
        ≡ Some BadVersion }
{}

/// FORMATS.md, "IPFIX Files": F5, at the offset of the set.
pub fn faults_of_set_lengths()
    ensures three_bytes_left { counts (codes "000a0013 00000000 00000000 00000001 000200")
        ≡ Err (at_offset BadSetLength 16) }
    ensures a_length_of_3 { counts (codes "000a0014 00000000 00000000 00000001 00020003")
        ≡ Err (at_offset BadSetLength 16) }
    ensures beyond_the_message { counts (codes "000a0014 00000000 00000000 00000001 01000005")
        ≡ Err (at_offset BadSetLength 16) }
    ensures the_second_set { counts (codes "000a0018 00000000 00000000 00000001 012c0004 012d0009")
        ≡ Err (at_offset BadSetLength 20) }
    ensures a_set_of_the_second_message { counts
        (codes "000a0010 00000000 00000000 00000001 000a0014 00000000 00000000 00000001 00020003")
        ≡ Err (at_offset BadSetLength 32) }
{}

/// FORMATS.md, "IPFIX Files": F6, at the offset of the template record.
pub fn faults_of_template_records()
    ensures a_template_255 { counts (codes "000a001c 00000000 00000000 00000001 0002000c 00ff0001 00080004")
        ≡ Err (at_offset (BadTemplate BadTemplateId) 20) }
    ensures four_zeros_of_padding { counts
        (codes "000a0020 00000000 00000000 00000001 00020010 01000001 00080004 00000000")
        ≡ Err (at_offset (BadTemplate BadTemplateId) 28) }
    ensures a_scope_of_0 { counts (codes "000a001e 00000000 00000000 00000001 0003000e 010000010000 00080004")
        ≡ Err (at_offset (BadTemplate BadScope) 20) }
    ensures a_scope_above_the_fields { counts
        (codes "000a001e 00000000 00000000 00000001 0003000e 010000010002 00080004")
        ≡ Err (at_offset (BadTemplate BadScope) 20) }
    ensures a_field_that_is_cut_off { counts (codes "000a001c 00000000 00000000 00000001 0002000c 01000002 00080004")
        ≡ Err (at_offset (BadTemplate Truncated) 20) }
    ensures an_enterprise_that_is_cut_off { counts
        (codes "000a001e 00000000 00000000 00000001 0002000e 01000001 80080004 0000")
        ≡ Err (at_offset (BadTemplate Truncated) 20) }
    ensures a_template_of_the_second_message { counts
        (codes "000a0010 00000000 00000000 00000001 000a001c 00000000 00000000 00000001 0002000c 00ff0001 00080004")
        ≡ Err (at_offset (BadTemplate BadTemplateId) 36) }
    ensures the_withdrawal_of_all_of_the_other_kind { counts
        (codes "000a0018 00000000 00000000 00000001 00020008 00030000")
        ≡ Err (at_offset (BadTemplate BadTemplateId) 20) }
{}

/// FORMATS.md, "IPFIX Files": F7, at the offset of the data record.
pub fn faults_of_data_records()
    ensures a_value_beyond_the_set { counts
        (codes "000a0024 00000000 00000000 00000001 0002000c 01000001 0052ffff 01000008 04657468")
        ≡ Err (at_offset BadRecord 32) }
    ensures the_second_record { counts
        (codes "000a0024 00000000 00000000 00000001 0002000c 01000001 0052ffff 01000008 0165 0265")
        ≡ Err (at_offset BadRecord 34) }
    ensures a_record_of_the_second_message { counts
        (codes "000a0010 00000000 00000000 00000001 000a0024 00000000 00000000 00000001 0002000c 01000001 0052ffff 01000008 04657468")
        ≡ Err (at_offset BadRecord 48) }
{}

/// RFC 7011, section 3.3.2: the length of a set includes its header, its records and its padding.
pub fn a_set_ends_at_its_length()
    ensures a_set_of_4100_bytes { set_next no_templates 1 16 (hex (codes "00041004") ++ replicate 4096 0)
        ≡ Ok (Skipped 4, []) }
    ensures a_set_before_another { set_next no_templates 1 16 (hex (codes "0004000501 0005"))
        ≡ Ok (Skipped 4, hex (codes "0005")) }
{}

/// FORMATS.md, "Printed texts": `info`.
pub fn the_counts_of_messages_add_up()
    ensures of_two_lists { sums (1 ∷ 2 ∷ []) (10 ∷ 20 ∷ []) ≡ 11 ∷ 22 ∷ [] }
    ensures of_two_messages { of_messages summed_counts
        (file_reading (hex
        (codes "000a0014 00000000 00000000 00000001 00010004 000a0018 00000000 00000000 00000001 00040004 00050004")))
        ≡ Ok (2 ∷ 0 ∷ 0 ∷ 0 ∷ 0 ∷ 3 ∷ 0 ∷ 0 ∷ 0 ∷ []) }
{}

/// A reader may fail at the end of a message, or within one that isn't complete.
pub fn a_reader_may_stop_within_a_message()
    ensures after_ten_bytes { StopsReading (take 10 rfc_message) }
    ensures of_a_file_that_is_read_on { StopsFrom no_templates 4 7 [] (at_offset Unread 7) }
    ensures not_elsewhere { StopsFrom no_templates 0 0 [] (at_offset Unread 1) → ⊥ }
    ensures not_after_the_beginning_of_a_message { StopsFrom no_templates 0 0 (take 10 rfc_message)
        (at_offset Unread 10) → ⊥ }
    ensures not_after_a_fault { StopsReading (hex (codes "00090010 00000000 00000000 00000001")) → ⊥ }
    ensures not_with_another_fault { StopsFrom no_templates 0 0 [] (at_offset TruncatedHeader 0) → ⊥ }
    ensures not_after_too_many_messages { StopsFrom no_templates 4294967295 0 rfc_message (at_offset Unread 152) → ⊥ }
    ensures not_after_other_bytes { StopsFrom no_templates 0 4294967295 rfc_message (at_offset Unread 152) → ⊥ }
{}

/// RFC 7011, section 8.1: a later File may define a template again, here with the destination before the source. Joined
/// to the earlier File it has the same row as alone.
pub fn a_later_file_has_its_own_templates()
    ensures the_first { rows
        (codes "000a002c 00000000 00000000 00000001 00020010 01000002 00080004 000c0004 0100000c 0a000001 0a000002")
        ≡ Ok (plain ∷ []) }
    ensures the_second { rows
        (codes "000a002c 00000000 00000000 00000001 00020010 01000002 000c0004 00080004 0100000c 0a000003 0a000004")
        ≡ Ok (record plain { src = 0x0a00_0004; dst = 0x0a00_0003 } ∷ []) }
    ensures lacks_none { lacks
        (codes "000a002c 00000000 00000000 00000001 00020010 01000002 000c0004 00080004 0100000c 0a000003 0a000004")
        ≡ Ok false }
    ensures both { rows
        (codes "000a002c 00000000 00000000 00000001 00020010 01000002 00080004 000c0004 0100000c 0a000001 0a000002 000a002c 00000000 00000000 00000001 00020010 01000002 000c0004 00080004 0100000c 0a000003 0a000004")
        ≡ Ok (plain ∷ record plain { src = 0x0a00_0004; dst = 0x0a00_0003 } ∷ []) }
    ensures counts_of_both { counts
        (codes "000a002c 00000000 00000000 00000001 00020010 01000002 00080004 000c0004 0100000c 0a000001 0a000002 000a002c 00000000 00000000 00000001 00020010 01000002 000c0004 00080004 0100000c 0a000003 0a000004")
        ≡ Ok (2 ∷ 2 ∷ 0 ∷ 0 ∷ 2 ∷ 0 ∷ 2 ∷ 0 ∷ 2 ∷ []) }
{}

/// A later File that needs a template of the earlier one: the joined File has a row more than both alone. A skipped set
/// with a reserved ID needs none.
pub fn a_later_file_may_lack_a_template()
    ensures alone { counts
        (codes "000a001c 00000000 00000000 00000001 0100000c 0a000003 0a000004")
        ≡ Ok (1 ∷ 0 ∷ 0 ∷ 0 ∷ 0 ∷ 1 ∷ 0 ∷ 0 ∷ 0 ∷ []) }
    ensures lacks_one { lacks (codes "000a001c 00000000 00000000 00000001 0100000c 0a000003 0a000004") ≡ Ok true }
    ensures both { counts
        (codes "000a002c 00000000 00000000 00000001 00020010 01000002 00080004 000c0004 0100000c 0a000001 0a000002 000a001c 00000000 00000000 00000001 0100000c 0a000003 0a000004")
        ≡ Ok (2 ∷ 1 ∷ 0 ∷ 0 ∷ 2 ∷ 0 ∷ 2 ∷ 0 ∷ 2 ∷ []) }
    ensures reserved { counts (codes "000a0014 00000000 00000000 00000001 00ff0004")
        ≡ Ok (1 ∷ 0 ∷ 0 ∷ 0 ∷ 0 ∷ 1 ∷ 0 ∷ 0 ∷ 0 ∷ []) }
    ensures reserved_lacks_none { lacks (codes "000a0014 00000000 00000000 00000001 00ff0004") ≡ Ok false }
{}
