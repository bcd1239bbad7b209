//! What the rules find in a form.

ghost use Rattle.std.specs.Prelude.{◌≡◌, OnOk, Some};
ghost use Rattle.level_rules.specs.Rules.{nothing_found, both_found, place_found, put_found, fault_found, call_found};

use crate::{Holder, Instance};
use ctl_base::{Memory, Node};
use sqlite_items::Items;
use std::alloc::Global;

/// What the rules find in a form, each list in source order: what they put into the set, the
/// instances that are called, the varying arguments of uniform parameters, and for each place
/// whether its control varies.
#[derive(Drop)]
pub struct Found {
    pub puts: Items<Holder>,
    pub calls: Items<Instance>,
    pub faults: Items<Node>,
    pub places: Items<bool>,
}

impl Found {
    /// Nothing.
    pub fn new(alloc: Global) -> Found
        ensures { result ≡ nothing_found }
    {
        Found {
            puts: Items::new(alloc),
            calls: Items::new(alloc),
            faults: Items::new(alloc),
            places: Items::new(alloc),
        }
    }

    /// This is put into the set, where it varies.
    pub fn put(&mut self, varies: bool, holder: Holder) -> Result<(), Memory>
        ensures { OnOk result (self.new ≡ both_found self.old (put_found varies holder)) }
    {
        if varies {
            self.puts.push(holder)?;
        }
        Ok(())
    }

    /// A place with its control.
    pub fn place(&mut self, control: bool) -> Result<(), Memory>
        ensures { OnOk result (self.new ≡ both_found self.old (place_found control)) }
    {
        self.places.push(control)?;
        Ok(())
    }

    /// An argument with its node, where it varies and is not to.
    pub fn fault(&mut self, varies: bool, node: Node) -> Result<(), Memory>
        ensures { OnOk result (self.new ≡ both_found self.old (fault_found varies (Some node))) }
    {
        if varies {
            self.faults.push(node)?;
        }
        Ok(())
    }

    /// An instance that is called.
    pub fn call(&mut self, instance: Instance) -> Result<(), Memory>
        ensures { OnOk result (self.new ≡ both_found self.old (call_found instance)) }
    {
        self.calls.push(instance)?;
        Ok(())
    }
}
