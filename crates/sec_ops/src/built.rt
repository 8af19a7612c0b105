ghost use Rattle.std.specs.Prelude.{◌≡◌, List, ℕ, [], IfOk, IfErr, IfSome, IsErrOf, OnOk, false, is_none, is_some, map, nat_eq, true};
ghost use Rattle.std.specs.Cmp.Lexicographic.{pointwise};
ghost use Rattle.sec_ast.specs.declared.operator.OpKind.TheVariants.{Pm, IpMatch, ValidateByteRange};
ghost use Rattle.ip_set.specs.Blocks.{IsFirstBad};
ghost use Rattle.sec_ops.specs.declared.built.Test.TheVariants.{Pattern as is_pattern};
ghost use Rattle.sec_ops.specs.Bytes.{IsBytes};
ghost use Rattle.sec_ops.specs.Hits.{IsBuiltFrom, bytes_hit, bytes_reading, groups_of, has, hit, hit_of, is_unread_op, pattern_hit, phrase_hit, plain_test, source_of, source_reading, test_hit, when};

use crate::escapes::{has_bad_escape, is_text};
use crate::gates::is_open;
use crate::numbers::order_of;
use crate::pattern::{Pattern, compile, part, texts};
use crate::phrases::{fold, set_of};
use crate::ranges::{Range, has_other, read_ranges};
use ip_set::{IpFault, IpSet};
use pattern_text::{WordFault, word_pattern};
use phrase_set::{PhraseSet, place};
use sec_ast::{Op, OpKind, Part};
use std::alloc::Global;
use std::marker::Model;
use std::snapshot::Snapshot;
use waf_plain::{Bytes, NoMemory, Seq};

/// Why an operator is not built.
#[derive(Clone, Copy, Debug, PartialEq, Eq)]
pub enum BuildFault {
    /// The pattern has no reading in the grammar of `regex`, or nests deeper than its bound; one of
    /// `rxBytes` has no wording, or that has no reading.
    BadPattern,
    /// No memory; the compiled pattern would pass the size limit of `regex`; or a word of `ipMatch`
    /// is no address and no block, which no operator that was read from rules has.
    NoMemory,
}

impl From<NoMemory> for BuildFault {
    ghost use Rattle.std.specs.Prelude.{◌≡◌};
    ghost use Rattle.sec_ops.specs.declared.built.BuildFault.TheVariants.{NoMemory as no_memory};

    ghost from_gives = { λ _ fault. fault ≡ no_memory };

    fn from(_: NoMemory) -> Self {
        BuildFault::NoMemory
    }
}

/// What an operator found in a value.
#[derive(Debug, Drop)]
pub enum Hit {
    No,
    /// The texts of the groups, group 0 first; none for a group that took no part.
    Yes { groups: Seq<Option<Bytes>> },
}

/// An operator that is ready to be asked. A pattern is compiled once; what a search needs is made
/// for one value and dropped, or kept by an `Asker`. Contracts see it as the operator that it was built from, of which no
/// copy is kept.
#[derive(Drop)]
pub struct Built {
    op: Snapshot<Op>,
    alloc: Global,
    test: Test,
}

impl Model for Built {
    ghost use Rattle.sec_ast.specs.declared.operator.Op.{Op};

    ghost Value = { Op };

    ghost view = { λ s. s.op.value };

    ghost use Rattle.sec_ops.specs.Hits.{IsBuiltFrom};

    ghost invariant = { λ s. IsBuiltFrom s.test s.op.value };
}

impl Built {
    pub(crate) fn alloc(&self) -> Global {
        self.alloc
    }

    /// Whether there may be a hit in a value. No pattern is searched for.
    pub(crate) fn may_hit(&self, value: &[u8]) -> Result<bool, NoMemory>
        ensures { IfOk result (λ may. may ≡ false → (argument : List ℕ) → hit self.now argument value.now ≡ None) }
    {
        match &self.test {
            Test::Pattern(pattern) => is_open(self.alloc, &pattern.gate, value),
            _ => Ok(true),
        }
    }

    /// The compiled pattern, where the operator is one.
    pub(crate) fn pattern(&self) -> Option<&Pattern>
        ensures { IfSome result (λ pattern. IsBuiltFrom (is_pattern pattern.now) self.now) }
    {
        match &self.test {
            Test::Pattern(pattern) => Some(pattern),
            _ => None,
        }
    }
}

#[derive(Drop)]
enum Test {
    Pattern(Pattern),
    /// In lower case.
    Phrases(PhraseSet),
    Addresses(IpSet),
    Ranges(Seq<Range>),
    Plain(OpKind),
}

/// Builds an operator (ModSecurity reference manual, "Operators").
pub fn build(alloc: Global, op: &Op) -> Result<Built, BuildFault>
    ensures ok { IfOk result (λ built. built ≡ op.now) }
    ensures bad { IfErr result (λ e. e ≡ BuildFault.BadPattern
        → is_unread_op op.now.kind (source_of op.now.text) ≡ true) }
    ensures read { OnOk result (is_unread_op op.now.kind (source_of op.now.text) ≡ false) }

    // No set of addresses is built of a word that names none.
    ensures word { (at : ℕ) → op.now.kind ≡ IpMatch → IsFirstBad op.now.words at → IsErrOf result BuildFault.NoMemory }
{
    match test_of(alloc, op) {
        Ok(test) => Ok(Built {
            op: Snapshot::of(op),
            alloc,
            test,
        }),
        Err(fault) => Err(fault),
    }
}

fn test_of(alloc: Global, op: &Op) -> Result<Test, BuildFault>
    ensures ok { IfOk result (λ test. IsBuiltFrom test op.now) }
    ensures bad { IfErr result (λ e. e ≡ BuildFault.BadPattern
        → is_unread_op op.now.kind (source_of op.now.text) ≡ true) }
    ensures read { OnOk result (is_unread_op op.now.kind (source_of op.now.text) ≡ false) }
    ensures word { (at : ℕ) → op.now.kind ≡ IpMatch → IsFirstBad op.now.words at → IsErrOf result BuildFault.NoMemory }
{
    match op.kind {
        OpKind::Rx => pattern_test(alloc, source_of(op.text.as_slice())),
        OpKind::RxBytes => bytes_test(alloc, source_of(op.text.as_slice())),
        OpKind::Pm => phrases_test(alloc, &op.words),
        OpKind::IpMatch => addresses_test(alloc, &op.words),
        OpKind::ValidateByteRange => ranges_test(alloc, &op.words),
        kind => Ok(Test::Plain(kind)),
    }
}

fn source_of(parts: &[Part]) -> &[u8]
    ensures { result.now ≡ source_of parts.now }
{
    match parts {
        [Part::Text(text)] => text.as_slice(),
        _ => &[],
    }
}

fn pattern_test(alloc: Global, source: &[u8]) -> Result<Test, BuildFault>
    ensures ok { IfOk result (λ test. (argument value : List ℕ)
        → IsBytes value → test_hit test argument value ≡ pattern_hit source.now value) }
    ensures bad { IfErr result (λ e. e ≡ BuildFault.BadPattern → is_none (source_reading source.now) ≡ true) }
    ensures read { OnOk result (is_none (source_reading source.now) ≡ false) }
{
    let Ok(text) = std::str::from_utf8(source) else {
        return Err(BuildFault::BadPattern);
    };
    match compile(alloc, text) {
        Ok(pattern) => Ok(Test::Pattern(pattern)),
        Err(fault) => Err(fault),
    }
}

/// The wording of a pattern of PCRE, compiled.
fn bytes_test(alloc: Global, source: &[u8]) -> Result<Test, BuildFault>
    ensures ok { IfOk result (λ test. (argument value : List ℕ)
        → IsBytes value → test_hit test argument value ≡ bytes_hit source.now value) }
    ensures bad { IfErr result (λ e. e ≡ BuildFault.BadPattern → is_none (bytes_reading source.now) ≡ true) }
    ensures read { OnOk result (is_none (bytes_reading source.now) ≡ false) }
{
    match word_pattern(alloc, source) {
        Ok(text) => pattern_test(alloc, text.as_slice()),
        Err(WordFault::Unsupported) => Err(BuildFault::BadPattern),
        Err(WordFault::NoMemory) => Err(BuildFault::NoMemory),
    }
}

fn phrases_test(alloc: Global, words: &Seq<Bytes>) -> Result<Test, BuildFault>
    ensures ok { IfOk result (λ test. (argument value : List ℕ)
        → test_hit test argument value ≡ hit_of Pm [] words.now argument value) }
    ensures err { IfErr result (λ e. e ≡ BuildFault.NoMemory) }
{
    match set_of(alloc, words) {
        Ok(phrases) => Ok(Test::Phrases(phrases)),
        Err(NoMemory) => Err(BuildFault::NoMemory),
    }
}

fn addresses_test(alloc: Global, words: &Seq<Bytes>) -> Result<Test, BuildFault>
    ensures ok { IfOk result (λ test. (argument value : List ℕ)
        → test_hit test argument value ≡ hit_of IpMatch [] words.now argument value) }
    ensures err { IfErr result (λ e. e ≡ BuildFault.NoMemory) }
    ensures word { (at : ℕ) → IsFirstBad words.now at → IsErrOf result BuildFault.NoMemory }
{
    match IpSet::read(alloc, words) {
        Ok(set) => Ok(Test::Addresses(set)),
        Err(_) => Err(BuildFault::NoMemory),
    }
}

fn ranges_test(alloc: Global, words: &Seq<Bytes>) -> Result<Test, BuildFault>
    ensures ok { IfOk result (λ test. (argument value : List ℕ)
        → test_hit test argument value ≡ hit_of ValidateByteRange [] words.now argument value) }
    ensures err { IfErr result (λ e. e ≡ BuildFault.NoMemory) }
{
    match read_ranges(alloc, words) {
        Ok(ranges) => Ok(Test::Ranges(ranges)),
        Err(NoMemory) => Err(BuildFault::NoMemory),
    }
}

/// What a built operator finds in a value. `argument` is its expanded text, which the kinds with a
/// macro compare with.
pub fn holds(built: &Built, argument: &[u8], value: &[u8]) -> Result<Hit, NoMemory>
    ensures { IfOk result (λ found. groups_of found ≡ hit built.now argument.now value.now) }
{
    match &built.test {
        Test::Pattern(pattern) => match texts(built.alloc, pattern, value)? {
            None => Ok(Hit::No),
            Some(groups) => Ok(Hit::Yes { groups }),
        },
        Test::Phrases(phrases) => phrase_hit(built.alloc, phrases, value),
        Test::Addresses(set) => Ok(when(built.alloc, set.contains(value))),
        Test::Ranges(ranges) => Ok(when(built.alloc, has_other(ranges.as_slice(), value))),
        Test::Plain(kind) => Ok(when(built.alloc, plain_test(*kind, argument, value))),
    }
}

fn when(alloc: Global, is_hit: bool) -> Hit
    ensures { groups_of result ≡ when is_hit }
{
    if is_hit {
        return Hit::Yes {
            groups: Seq::new(alloc),
        };
    }
    Hit::No
}

fn phrase_hit(alloc: Global, phrases: &PhraseSet, value: &[u8]) -> Result<Hit, NoMemory>
    ensures { IfOk result (λ hit. groups_of hit ≡ phrase_hit phrases.now value.now) }
{
    let text = fold(alloc, value)?;
    let Some((start, end)) = phrases.find(text.as_slice()) else {
        return Ok(Hit::No);
    };
    let found = Bytes::copy(alloc, part(value, start as usize, end as usize))?;
    let mut groups = Seq::new(alloc);
    groups.push(Some(found))?;
    Ok(Hit::Yes { groups })
}

#[tactic(auto, unfolding(crate::specs::Hits::plain_test))]
fn plain_test(kind: OpKind, argument: &[u8], value: &[u8]) -> bool
    ensures { result ≡ plain_test kind argument.now value.now }
{
    match kind {
        OpKind::Streq => same(value, argument),
        OpKind::Contains => has(value, argument),
        OpKind::BeginsWith => value.starts_with(argument),
        OpKind::EndsWith => value.ends_with(argument),
        OpKind::Within => has(argument, value),
        OpKind::Eq => order_of(argument, value).is_eq(),
        OpKind::Ge => order_of(argument, value).is_ge(),
        OpKind::Gt => order_of(argument, value).is_gt(),
        OpKind::Le => order_of(argument, value).is_le(),
        OpKind::Lt => order_of(argument, value).is_lt(),
        OpKind::ValidateUrlEncoding => has_bad_escape(value),
        OpKind::ValidateUtf8Encoding => !is_text(value),
        OpKind::UnconditionalMatch => true,
        OpKind::Rx => false,
        OpKind::RxBytes => false,
        OpKind::Pm => false,
        OpKind::IpMatch => false,
        OpKind::ValidateByteRange => false,
        OpKind::NoMatch => false,
    }
}

fn same(a: &[u8], b: &[u8]) -> bool
    ensures { result ≡ pointwise nat_eq a.now b.now }
{
    a == b
}

fn has(text: &[u8], needle: &[u8]) -> bool
    ensures { result ≡ has text.now needle.now }
{
    place(text, needle).is_some()
}
