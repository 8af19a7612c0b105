ghost use Rattle.std.specs.Prelude.{◌≡◌, ◌++◌, ◌∷◌, [], IfOk, OnOk};
ghost use Rattle.sec_collect.specs.Captures.{captured_rows};
ghost use Rattle.sec_collect.specs.Expansion.{expansion};
ghost use Rattle.sec_collect.specs.Row.{row, value_named};
ghost use Rattle.sec_collect.specs.Variables.{put_within, without};
ghost use Rattle.sec_meaning.specs.declared.state.PlainState.{PlainState as TheState};
ghost use Rattle.sec_meaning.specs.Links.{control};
ghost use Rattle.sec_meaning.specs.State.{view_of};
ghost use Rattle.sec_meaning.specs.Text.{text_of};

use crate::Text;
use sec_ast::{Ctl, Engine, LogLine, Macro};
use std::alloc::Global;
use waf_plain::{Bytes, NoMemory, Seq};

/// The state of a transaction, as the actions of a rule read and change it. After `NoMemory` it is only
/// dropped.
pub trait Transaction {
    /// The state that definitions speak of.
    ghost seen: { Self → TheState };

    /// A macro with values in the places of its references.
    fn expanded<'a>(&self, alloc: Global, text: &'a Macro) -> Result<Text<'a>, NoMemory>
        ensures { IfOk result (λ t. text_of t ≡ expansion (view_of (seen self.now)) text.entry.now) };

    /// What the engine does by now.
    fn engine(&self) -> Engine
        ensures { result ≡ (seen self.now).engine };

    /// The value of a variable of TX, empty where there is none.
    fn tx_value(&self, name: &[u8]) -> &[u8]
        ensures { result.now ≡ value_named name.now (seen self.now).tx };

    /// Puts a variable of TX, where it has room.
    fn set_tx(&mut self, alloc: Global, name: &[u8], value: &[u8]) -> Result<(), NoMemory>
        ensures { OnOk result (seen self.new
            ≡ record (seen self.old) { tx = put_within name.now value.now (seen self.old).tx }) };

    /// Takes a variable of TX away.
    fn delete_tx(&mut self, alloc: Global, name: &[u8])
        ensures { seen self.new ≡ record (seen self.old) { tx = without name.now (seen self.old).tx } };

    /// Keeps the texts of groups in the place of those before.
    fn capture(&mut self, alloc: Global, groups: &Seq<Option<Bytes>>) -> Result<(), NoMemory>
        ensures { OnOk result (seen self.new
            ≡ record (seen self.old) { captured = captured_rows groups.now }) };

    /// Forgets the matched values.
    fn forget_matched(&mut self, alloc: Global)
        ensures { seen self.new ≡ record (seen self.old) { matched = [] } };

    /// Adds a matched value under its full name.
    fn add_matched(&mut self, full_name: Bytes, value: Bytes) -> Result<(), NoMemory>
        ensures { OnOk result (seen self.new
            ≡ record (seen self.old) { matched = (seen self.old).matched ++ row full_name value ∷ [] }) };

    /// Adds a log line.
    fn add_line(&mut self, line: LogLine) -> Result<(), NoMemory>
        ensures { OnOk result (seen self.new
            ≡ record (seen self.old) { lines = (seen self.old).lines ++ line ∷ [] }) };

    /// Does what a `ctl` says.
    fn control(&mut self, ctl: &Ctl) -> Result<(), NoMemory>
        ensures { OnOk result (seen self.new ≡ control (seen self.old) ctl.now) };
}
