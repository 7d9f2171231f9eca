ghost use Rattle.ipfix_templates.specs.Table.{AreParted};

use crate::kind::Kind;
use crate::template::Template;
use std::alloc::{AllocError, Global};
use std::collections::BTreeMap;

// Templates by their domains and IDs. The templates of each domain have a map of their own, so dropping all of them
// does not visit those of other domains. The maps are ordered, so no choice of domains or IDs makes a lookup slow.
type Domains = BTreeMap<u32, BTreeMap<u16, Template>>;

/// The templates of each observation domain, by their IDs. `template_at` is the template at a domain and an ID.
#[derive(Drop)]
pub struct TemplateTable {
    alloc: Global,
    flow: Domains,
    options: Domains,
    ghost parted: { AreParted flow options },
}

impl TemplateTable {
    ghost use Rattle.std.specs.Prelude.{◌≡◌, None, Some, OnOk, OnErr};
    ghost use Rattle.std.specs.Option.{option_copied};
    ghost use Rattle.ipfix_templates.specs.InForce.{Define, Withdraw, WithdrawAll, after_event};
    ghost use Rattle.ipfix_templates.specs.InForce.{changed_at, no_templates, template_at};
    ghost use Rattle.ipfix_templates.specs.Table.{stored};

    /// Returns an empty table.
    pub fn new(alloc: Global) -> Self
        ensures { template_at result ≡ no_templates }
    {
        TemplateTable {
            alloc,
            flow: BTreeMap::new(alloc),
            options: BTreeMap::new(alloc),
        }
    }

    // Returns the template with this ID in the domain.
    fn find(domains: &Domains, domain: u32, id: u16) -> Option<&Template>
        ensures { option_copied result ≡ stored domains.now domain id }
    {
        domains.get(&domain)?.get(&id)
    }

    // Adds a template to the domain, replacing the one with its ID.
    fn insert(
        alloc: Global,
        domains: &mut Domains,
        domain: u32,
        template: Template,
    ) -> Result<(), AllocError>
        ensures ok { OnOk result (stored domains.new
            ≡ changed_at (stored domains.old) domain template.id (Some template)) }
        ensures err { OnErr result (stored domains.new ≡ stored domains.old) }
    {
        let templates = domains.entry(domain)?.or_insert(BTreeMap::new(alloc));
        templates.insert(template.id, template)?;
        Ok(())
    }

    // Removes the template with this ID from the domain, if there is one.
    fn remove(domains: &mut Domains, domain: u32, id: u16)
        ensures { stored domains.new ≡ changed_at (stored domains.old) domain id None }
    {
        if let Some(templates) = domains.get_mut(&domain) {
            templates.remove(&id);
        }
    }

    /// Returns the template with this ID in the domain.
    pub fn get(&self, domain: u32, id: u16) -> Option<&Template>
        ensures { option_copied result ≡ template_at self.now domain id }
    {
        match TemplateTable::find(&self.flow, domain, id) {
            Some(template) => Some(template),
            None => TemplateTable::find(&self.options, domain, id),
        }
    }

    /// Defines a template in the domain, replacing the one with its ID. If an allocation fails, no template changes.
    pub fn set(&mut self, domain: u32, template: Template) -> Result<(), AllocError>
        ensures ok { OnOk result (template_at self.new ≡ after_event domain (template_at self.old) (Define template)) }
        ensures err { OnErr result (template_at self.new ≡ template_at self.old) }
    {
        let id = template.id;
        match template.kind {
            Kind::Flow => {
                TemplateTable::insert(self.alloc, &mut self.flow, domain, template)?;
                TemplateTable::remove(&mut self.options, domain, id);
            }
            Kind::Options => {
                TemplateTable::insert(self.alloc, &mut self.options, domain, template)?;
                TemplateTable::remove(&mut self.flow, domain, id);
            }
        }
        Ok(())
    }

    /// Withdraws the template with this ID in the domain, if there is one.
    pub fn withdraw(&mut self, domain: u32, id: u16)
        ensures { template_at self.new ≡ after_event domain (template_at self.old) (Withdraw id) }
    {
        TemplateTable::remove(&mut self.flow, domain, id);
        TemplateTable::remove(&mut self.options, domain, id);
    }

    /// Withdraws all templates of the kind in the domain.
    pub fn withdraw_all(&mut self, domain: u32, kind: Kind)
        ensures { template_at self.new ≡ after_event domain (template_at self.old) (WithdrawAll kind) }
    {
        match kind {
            Kind::Flow => self.flow.remove(&domain),
            Kind::Options => self.options.remove(&domain),
        };
    }
}
