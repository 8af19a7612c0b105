use crate::values::expanded;
use crate::{PlainState, Removed, Text, Transaction};
use sec_ast::{Ctl, Engine, LogLine, Macro};
use sec_collect::{captured_rows, delete_variable, put_variable, value_named};
use std::alloc::Global;
use waf_plain::{Bytes, NoMemory, Seq};
use web_parts::NameValue;

impl Transaction for PlainState {
    ghost seen = { λ s. s };

    fn expanded<'a>(&self, alloc: Global, text: &'a Macro) -> Result<Text<'a>, NoMemory> {
        Ok(Text::Owned(expanded(alloc, text, self)?))
    }

    fn engine(&self) -> Engine {
        self.engine
    }

    fn tx_value(&self, name: &[u8]) -> &[u8] {
        value_named(name, self.tx.as_slice())
    }

    fn set_tx(&mut self, alloc: Global, name: &[u8], value: &[u8]) -> Result<(), NoMemory> {
        put_variable(alloc, &mut self.tx, name, value)
    }

    fn delete_tx(&mut self, alloc: Global, name: &[u8]) {
        delete_variable(alloc, &mut self.tx, name);
    }

    fn capture(&mut self, alloc: Global, groups: &Seq<Option<Bytes>>) -> Result<(), NoMemory> {
        let captured = captured_rows(alloc, groups.as_slice())?;
        self.captured = captured;
        Ok(())
    }

    fn forget_matched(&mut self, alloc: Global) {
        self.matched = Seq::new(alloc);
    }

    fn add_matched(&mut self, full_name: Bytes, value: Bytes) -> Result<(), NoMemory> {
        self.matched.push(NameValue {
            name: full_name,
            value,
        })
    }

    fn add_line(&mut self, line: LogLine) -> Result<(), NoMemory> {
        self.lines.push(line)
    }

    fn control(&mut self, ctl: &Ctl) -> Result<(), NoMemory> {
        match ctl {
            Ctl::Engine(engine) => {
                self.engine = *engine;
                Ok(())
            }
            Ctl::RequestBody(is_read) => {
                self.request_body = *is_read;
                Ok(())
            }
            Ctl::ResponseBody(is_read) => {
                self.response_body = *is_read;
                Ok(())
            }
            Ctl::Body(processor) => {
                self.processor = *processor;
                Ok(())
            }
            Ctl::RemoveById(first, last) => self.removed_rules.push(Removed::Ids(*first, *last)),
            Ctl::RemoveByTag(tag) => {
                let tag = tag.clone()?;
                self.removed_rules.push(Removed::Tag(tag))
            }
        }
    }
}
