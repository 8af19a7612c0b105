ghost use Rattle.std.specs.Prelude.{◌≡◌, ◌∷◌, ◌++◌, [], IfOk, OnOk};
ghost use Rattle.sec_ast.specs.declared.Item.TheVariants as items;
ghost use Rattle.sec_read.specs.Items.{has_id, is_full};

use sec_ast::{Item, Rule};
use std::alloc::Global;
use std::collections::BTreeSet;
use std::marker::Model;
use std::mem;
use waf_plain::{Bytes, NoMemory, Seq};

// How many rules a listing has at most.
pub const RULE_LIMIT: u32 = 20_000;

// The items of a listing, in reading order. Beside them lie the set of their rules' identifiers and
// the number of rules, so that each test takes the time of one look-up.
#[derive(Drop)]
pub struct Items {
    list: Seq<Item>,
    ids: BTreeSet<u32>,
    rule_count: u32,
}

impl Model for Items {
    ghost use Rattle.std.specs.Prelude.{List};
    ghost use Rattle.sec_ast.specs.declared.Item.{Item};

    ghost Value = { List Item };

    ghost use Rattle.sec_read.specs.Items.{Indexes};

    ghost view = { λ s. s.list };

    ghost invariant = { λ s. Indexes s.ids s.rule_count s.list };
}

impl Items {
    pub fn new(alloc: Global) -> Items
        ensures { result ≡ [] }
    {
        Items {
            list: Seq::new(alloc),
            ids: BTreeSet::new(alloc),
            rule_count: 0,
        }
    }

    // Whether some rule has this identifier.
    pub fn has_id(&self, id: u32) -> bool
        ensures { result ≡ has_id id self.now }
    {
        self.ids.contains(&id)
    }

    // Whether no further rule has room.
    pub fn is_full(&self) -> bool
        ensures { result ≡ is_full self.now }
    {
        self.rule_count >= RULE_LIMIT
    }

    fn with_rule(self, rule: Rule) -> Result<Items, NoMemory>
        ensures { IfOk result (λ all. all ≡ self ++ items.Rule rule ∷ []) }
    {
        let Items {
            list,
            ids,
            rule_count,
        } = self;
        let mut ids = ids;
        match ids.insert(rule.id) {
            Ok(_) => {}
            Err(_) => {
                drop(rule);
                return Err(NoMemory);
            }
        }
        let mut list = list;
        list.push(Item::Rule(rule))?;
        Ok(Items {
            list,
            ids,
            rule_count: rule_count.saturating_add(1),
        })
    }

    fn with_marker(self, label: Bytes) -> Result<Items, NoMemory>
        ensures { IfOk result (λ all. all ≡ self ++ items.Marker label ∷ []) }
    {
        let Items {
            list,
            ids,
            rule_count,
        } = self;
        let mut list = list;
        list.push(Item::Marker(label))?;
        Ok(Items {
            list,
            ids,
            rule_count,
        })
    }

    // Adds a rule at the end. After an `Err` the items are of no use.
    pub fn push_rule(&mut self, alloc: Global, rule: Rule) -> Result<(), NoMemory>
        ensures { OnOk result (self.new ≡ self.old ++ items.Rule rule ∷ []) }
    {
        let all = mem::replace(self, Items::new(alloc));
        *self = all.with_rule(rule)?;
        Ok(())
    }

    // Adds a marker at the end. After an `Err` the items are of no use.
    pub fn push_marker(&mut self, alloc: Global, label: Bytes) -> Result<(), NoMemory>
        ensures { OnOk result (self.new ≡ self.old ++ items.Marker label ∷ []) }
    {
        let all = mem::replace(self, Items::new(alloc));
        *self = all.with_marker(label)?;
        Ok(())
    }

    pub fn into_list(self) -> Seq<Item>
        ensures { result ≡ self }
    {
        let Items {
            list,
            ids: _,
            rule_count: _,
        } = self;
        list
    }
}
