//! The limits of a text: FORMATS.md, "Limits". Fault M12 is reported if a mapping, an entry or a label has no room.

ghost use Rattle.pmap_model.specs.ListModel.{Prefix};
ghost use Rattle.pmap_model.specs.MapModel.{Mapping};
ghost use Rattle.pmap_text.specs.Reading.{content_line, no_lines, label_limit, mapping_limit, with_text};
ghost use Rattle.pmap_text.specs.declared.fault.MapFaultKind.TheVariants.{TooMany};
ghost use Rattle.pmap_text.specs.declared.reading.form.Form.TheVariants as form;
ghost use Rattle.std.specs.List.{list_any};
ghost use Rattle.std.specs.Prelude.{◌≡◌, ◌==◌, ◌&&◌, codes, Err, false, is_ok, length, List, replicate, true};

/// A text has at most 65,535 different labels. A label that the text has already needs no room.
pub fn a_text_has_at_most_65535_labels()
    ensures room { is_ok (content_line form.Map (record no_lines { table = replicate 65534 (codes "x") })
        (codes "default A")) ≡ true }
    ensures a_known_label { is_ok (content_line form.Map (record no_lines { table = replicate 65535 (codes "x") })
        (codes "default x")) ≡ true }
    ensures of_a_default { content_line form.Map (record no_lines { table = replicate 65535 (codes "x") })
        (codes "default A") ≡ Err TooMany }
    ensures of_a_declaration { content_line form.Map (record no_lines { table = replicate 65535 (codes "x") })
        (codes "label 5 A") ≡ Err TooMany }
    ensures of_a_mapping { content_line form.Map (record no_lines { table = replicate 65535 (codes "x") })
        (codes "10.0.0.0/8 A") ≡ Err TooMany }
    ensures of_an_entry { content_line form.List (record no_lines { table = replicate 65535 (codes "x") })
        (codes "10.0.0.0/8 A") ≡ Err TooMany }
{}

/// A text has at most 1,000,000 mappings or entries.
pub fn a_text_has_at_most_1000000_mappings()
    ensures room { (ms : List Mapping) → length ms ≡ 999999
        → is_ok (content_line form.Map (record no_lines { mappings = ms }) (codes "10.0.0.0/8 A")) ≡ true }
    ensures no_room { (ms : List Mapping) → length ms ≡ 1000000
        → content_line form.Map (record no_lines { mappings = ms }) (codes "10.0.0.0/8 A") ≡ Err TooMany }
    ensures room_for_an_entry { (ps : List Prefix)
        → list_any (λ p. p.start == 0x0a00_0000 && p.bits == 8) ps ≡ false → length ps ≡ 999999
        → is_ok (content_line form.List (record no_lines { prefixes = ps }) (codes "10.0.0.0/8 A")) ≡ true }
    ensures no_room_for_an_entry { (ps : List Prefix)
        → list_any (λ p. p.start == 0x0a00_0000 && p.bits == 8) ps ≡ false → length ps ≡ 1000000
        → content_line form.List (record no_lines { prefixes = ps }) (codes "10.0.0.0/8 A") ≡ Err TooMany }
{}

/// FORMATS.md, "Limits".
pub fn a_text_has_limits()
    ensures mappings { mapping_limit ≡ 1000000 }
    ensures labels { label_limit ≡ 65535 }
    ensures no_room { with_text false (codes "A") no_lines ≡ Err TooMany }
{}
