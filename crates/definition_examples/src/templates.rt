//! Template records.
#![tactic(auto, unfolding(crate::specs::Templates::opened))]

ghost use Rattle.definition_examples.specs.Rows.{field, hex};
ghost use Rattle.ipfix_templates.specs.Reading.{template_record_at, field_at};
ghost use Rattle.ipfix_templates.specs.declared.event.TemplateEvent.TheVariants.{WithdrawAll, Withdraw};
ghost use Rattle.ipfix_templates.specs.declared.fault.TemplateFaultKind.TheVariants.{BadTemplateId};
ghost use Rattle.ipfix_templates.specs.declared.fault.TemplateFaultKind.TheVariants.{BadScope, Truncated};
ghost use Rattle.ipfix_templates.specs.declared.kind.Kind.TheVariants.{Flow, Options};
ghost use Rattle.std.specs.Prelude.{◌≡◌, ◌∷◌, [], Err, Ok, codes, None, Some};

/// RFC 7011, section 8.1: the ID of a withdrawal of all templates is that of its set.
pub fn a_withdrawal_of_all_has_the_id_of_its_set()
    ensures of_flow_templates { template_record_at Flow (0 ∷ 2 ∷ 0 ∷ 0 ∷ []) ≡ Ok (WithdrawAll Flow, []) }
    ensures of_options_templates { template_record_at Options (0 ∷ 3 ∷ 0 ∷ 0 ∷ []) ≡ Ok (WithdrawAll Options, []) }
    ensures of_the_other_kind { template_record_at Flow (0 ∷ 3 ∷ 0 ∷ 0 ∷ []) ≡ Err BadTemplateId }
{}

/// RFC 7011, section 3.2: an enterprise number follows if the first bit is 1.
pub fn a_field_specifier_has_4_or_8_bytes()
    ensures the_greatest_element { field_at (hex (codes "7fff0004 06")) ≡ Some (field 32767 4, hex (codes "06")) }
    ensures element_0_of_an_enterprise { field_at (hex (codes "80000004 00000001 06"))
        ≡ Some (record { enterprise = Some 1; number = 0; length = 4 }, hex (codes "06")) }
    ensures a_great_enterprise_number { field_at (hex (codes "80080004 00017279"))
        ≡ Some (record { enterprise = Some 94841; number = 8; length = 4 }, []) }
    ensures three_bytes { field_at (hex (codes "000800")) ≡ None }
    ensures seven_bytes { field_at (hex (codes "80080004 000072")) ≡ None }
{}

/// RFC 7011, sections 3.4.1, 3.4.2 and 8.1, with the bytes after the record.
pub fn a_template_record_has_its_fields()
    ensures no_definition_has_the_id_2 { template_record_at Flow (hex (codes "00020001 00080004")) ≡ Err BadTemplateId }
    ensures no_scope_count { template_record_at Options (hex (codes "01010001")) ≡ Err Truncated }
    ensures half_a_scope_count { template_record_at Options (hex (codes "01010001 00")) ≡ Err Truncated }
    ensures a_scope_count_of_0 { template_record_at Options (hex (codes "01010001 0000")) ≡ Err BadScope }
    ensures a_withdrawal_and_more { template_record_at Flow (hex (codes "01000000 0101"))
        ≡ Ok (Withdraw 256, hex (codes "0101")) }
    ensures a_withdrawal_of_all_and_more { template_record_at Flow (hex (codes "00020000 0101"))
        ≡ Ok (WithdrawAll Flow, hex (codes "0101")) }
{}
