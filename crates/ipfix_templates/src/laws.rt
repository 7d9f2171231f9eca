//! A law about the templates in force.
ghost use Rattle.std.specs.Prelude.{◌≡◌, ℕ, List};
ghost use Rattle.ipfix_templates.specs.InForce.{TemplateEvent, no_templates};
ghost use Rattle.ipfix_templates.specs.Laws.{in_force, last_in_force};

/// The template in force for an ID in a domain is the last definition of this ID there, or none if a later event there
/// withdraws it (RFC 7011 section 8).
pub fn last_definition_is_in_force()
    ensures { (events : List (ℕ × TemplateEvent)) (domain id : ℕ) →
        in_force no_templates events domain id ≡ last_in_force events domain id }
{}
