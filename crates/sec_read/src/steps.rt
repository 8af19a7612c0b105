ghost use Rattle.std.specs.Prelude.{◌≡◌, ◌≤◌, IfErr, IfSome, Some, true};
ghost use Rattle.waf_io.specs.Counts.{Rose};
ghost use Rattle.sec_read.specs.Places.{directive_file, named_file};
ghost use Rattle.sec_read.specs.Results.{Answers, IsSpot, Tells, WhereUnread, is_unread};
ghost use Rattle.sec_read.specs.Steps.{apart, default_line, directive, ids_line, include_line, marker_line, mode_line, obeyed, on, setting_line, tag_line, unless_open, with_defaults};

use crate::at::At;
use crate::defaults::PhaseDefault;
use crate::directive::{Directive, is_left_out_name};
use crate::faults::{Cause, Halt};
use crate::links::{read_action_line, read_rule_line};
use crate::modes::PatternMode;
use crate::reading::Reading;
use crate::removals::Removals;
use crate::settings::Setting;
use sec_parts::{Acts, Stand, read_actions};
use std::alloc::Global;
use std::mem;
use waf_io::Files;
use waf_plain::Bytes;

fn read_marker_line(
    alloc: Global,
    at: At<'_>,
    name: &[u8],
    given: &[Bytes],
    reading: &mut Reading,
) -> Result<(), Halt>
    ensures { Answers (λ _. reading.new) result
        (marker_line at.entry.file.now at.entry.line name.now given.now reading.old) }
{
    match given {
        [label] => {
            let label = Bytes::copy(alloc, label.as_slice())?;
            reading.items.push_marker(alloc, label)?;
            Ok(())
        }
        _ => Err(at.fault(alloc, Cause::BadWord, name)),
    }
}

// The defaults that a list of actions states, which must name their phase.
fn set_default(
    alloc: Global,
    at: At<'_>,
    text: &[u8],
    acts: Acts,
    reading: &mut Reading,
) -> Result<(), Halt>
    ensures { Answers (λ _. reading.new) result
        (with_defaults at.entry.file.now at.entry.line text.now acts.phase acts reading.old) }
{
    match acts.phase {
        None => {
            drop(acts);
            Err(at.fault(alloc, Cause::BadWord, text))
        }
        Some(phase) => {
            reading.defaults.set(phase, PhaseDefault::of(acts));
            Ok(())
        }
    }
}

fn read_default_line(
    alloc: Global,
    at: At<'_>,
    name: &[u8],
    given: &[Bytes],
    reading: &mut Reading,
) -> Result<(), Halt>
    ensures { Answers (λ _. reading.new) result
        (default_line at.entry.file.now at.entry.line name.now given.now reading.old) }
{
    match given {
        [text] => {
            let text = text.as_slice();
            let acts = at.placed(alloc, read_actions(alloc, Stand::Defaults, text))?;
            set_default(alloc, at, text, acts, reading)
        }
        _ => Err(at.fault(alloc, Cause::BadWord, name)),
    }
}

fn read_ids_line(
    alloc: Global,
    at: At<'_>,
    name: &[u8],
    given: &[Bytes],
    reading: &mut Reading,
) -> Result<(), Halt>
    ensures { Answers (λ _. reading.new) result
        (ids_line at.entry.file.now at.entry.line name.now given.now reading.old) }
{
    match given {
        [] => Err(at.fault(alloc, Cause::BadWord, name)),
        _ => {
            let removals = mem::replace(&mut reading.removals, Removals::none(alloc));
            reading.removals = at.placed(alloc, removals.with_ids(alloc, given))?;
            Ok(())
        }
    }
}

fn read_tag_line(
    alloc: Global,
    at: At<'_>,
    name: &[u8],
    given: &[Bytes],
    reading: &mut Reading,
) -> Result<(), Halt>
    ensures { Answers (λ _. reading.new) result
        (tag_line at.entry.file.now at.entry.line name.now given.now reading.old) }
{
    match given {
        [tag] => {
            reading
                .removals
                .tags
                .push(Bytes::copy(alloc, tag.as_slice())?)?;
            Ok(())
        }
        _ => Err(at.fault(alloc, Cause::BadWord, name)),
    }
}

fn read_setting_line(
    alloc: Global,
    at: At<'_>,
    name: &[u8],
    setting: Setting,
    given: &[Bytes],
    reading: &mut Reading,
) -> Result<(), Halt>
    ensures { Answers (λ _. reading.new) result
        (setting_line at.entry.file.now at.entry.line name.now setting given.now reading.old) }
{
    match given {
        [word] => {
            let word = word.as_slice();
            let Some(settings) = reading.settings.with(setting, word) else {
                return Err(at.fault(alloc, Cause::BadWord, word));
            };
            reading.settings = settings;
            Ok(())
        }
        _ => Err(at.fault(alloc, Cause::BadWord, name)),
    }
}

fn read_mode_line(
    alloc: Global,
    at: At<'_>,
    name: &[u8],
    given: &[Bytes],
    reading: &mut Reading,
) -> Result<(), Halt>
    ensures { Answers (λ _. reading.new) result
        (mode_line at.entry.file.now at.entry.line name.now given.now reading.old) }
{
    match given {
        [word] => {
            let word = word.as_slice();
            let Some(mode) = PatternMode::named(word) else {
                return Err(at.fault(alloc, Cause::BadWord, word));
            };
            reading.mode = mode;
            Ok(())
        }
        _ => Err(at.fault(alloc, Cause::BadWord, name)),
    }
}

fn read_include_line(
    alloc: Global,
    at: At<'_>,
    name: &[u8],
    given: &[Bytes],
    reading: &mut Reading,
) -> Result<Option<Bytes>, Halt>
    ensures { Answers (λ word.
        (word, reading.new)) result (include_line at.entry.file.now at.entry.line name.now given.now reading.old) }
{
    match given {
        [word] => Ok(Some(Bytes::copy(alloc, word.as_slice())?)),
        _ => Err(at.fault(alloc, Cause::BadWord, name)),
    }
}

// A directive that is no link of a rule; the word of a file that it names.
fn read_apart(
    alloc: Global,
    at: At<'_>,
    name: &[u8],
    given: &[Bytes],
    reading: &mut Reading,
    directive: Directive,
) -> Result<Option<Bytes>, Halt>
    ensures { Answers (λ word.
        (word, reading.new)) result (apart at.entry.file.now at.entry.line name.now given.now reading.old directive) }
{
    match directive {
        Directive::SecMarker => {
            read_marker_line(alloc, at, name, given, reading)?;
            Ok(None)
        }
        Directive::SecDefaultAction => {
            read_default_line(alloc, at, name, given, reading)?;
            Ok(None)
        }
        Directive::Include => read_include_line(alloc, at, name, given, reading),
        Directive::SecRuleRemoveById => {
            read_ids_line(alloc, at, name, given, reading)?;
            Ok(None)
        }
        Directive::SecRuleRemoveByTag => {
            read_tag_line(alloc, at, name, given, reading)?;
            Ok(None)
        }
        Directive::SecPatternMode => {
            read_mode_line(alloc, at, name, given, reading)?;
            Ok(None)
        }
        Directive::Set(setting) => {
            read_setting_line(alloc, at, name, setting, given, reading)?;
            Ok(None)
        }
        Directive::SecRule | Directive::SecAction | Directive::Accepted => Ok(None),
    }
}

// The same, where no rule waits for its next link.
fn read_unless_open(
    alloc: Global,
    at: At<'_>,
    name: &[u8],
    given: &[Bytes],
    reading: &mut Reading,
    directive: Directive,
) -> Result<Option<Bytes>, Halt>
    ensures { Answers (λ word. (word, reading.new)) result
        (unless_open at.entry.file.now reading.old.unfinished
        (apart at.entry.file.now at.entry.line name.now given.now reading.old directive)) }
{
    if let Some(line) = reading.open_line() {
        let open = At {
            file: at.file,
            line,
        };
        return Err(open.fault(alloc, Cause::OpenChain, b""));
    }
    read_apart(alloc, at, name, given, reading, directive)
}

// What a directive does; the word of a file that it names.
fn obey<F: Files>(
    alloc: Global,
    files: &mut F,
    at: At<'_>,
    name: &[u8],
    given: &[Bytes],
    reading: &mut Reading,
    directive: Directive,
) -> Result<Option<Bytes>, Halt>
    ensures same { F.content files.new ≡ F.content files.old }
    ensures later { F.faults files.old ≤ F.faults files.new }
    ensures cause { IfErr result (λ halt. is_unread halt ≡ true → Rose (F.faults files.old) (F.faults files.new)) }
    ensures place { IfErr result (λ halt.
        WhereUnread halt (IsSpot at.entry.file.now at.entry.line (directive_file given.now (Some directive)))) }
    ensures told { IfSome (F.content files.old) (λ told.
        Tells (λ word. (word, reading.new)) result
        (obeyed told at.entry.file.now at.entry.line name.now given.now reading.old directive)) }
{
    match directive {
        Directive::SecRule => {
            read_rule_line(alloc, files, at, name, given, reading)?;
            Ok(None)
        }
        Directive::SecAction => {
            read_action_line(alloc, at, name, given, reading)?;
            Ok(None)
        }
        _ => read_unless_open(alloc, at, name, given, reading, directive),
    }
}

// What the words of a line do; the word of a file that they name.
#[tactic(auto, unfolding(crate::specs::Steps::directive))]
pub fn read_directive<F: Files>(
    alloc: Global,
    files: &mut F,
    at: At<'_>,
    words: &[Bytes],
    reading: &mut Reading,
) -> Result<Option<Bytes>, Halt>
    ensures same { F.content files.new ≡ F.content files.old }
    ensures later { F.faults files.old ≤ F.faults files.new }
    ensures cause { IfErr result (λ halt. is_unread halt ≡ true → Rose (F.faults files.old) (F.faults files.new)) }
    ensures place { IfErr result (λ halt.
        WhereUnread halt (IsSpot at.entry.file.now at.entry.line (named_file words.now))) }
    ensures told { IfSome (F.content files.old) (λ told.
        Tells (λ word. (word, reading.new)) result
        (directive told at.entry.file.now at.entry.line words.now reading.old)) }
{
    let [name, given @ ..] = words else {
        return Ok(None);
    };
    let name = name.as_slice();
    if is_left_out_name(name) {
        return Err(at.fault(alloc, Cause::RefusedByName, name));
    }
    match Directive::of(name) {
        None => Err(at.fault(alloc, Cause::UnknownDirective, name)),
        Some(directive) => obey(alloc, files, at, name, given, reading, directive),
    }
}
