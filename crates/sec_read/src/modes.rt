ghost use Rattle.std.specs.Prelude.{◌≡◌};
ghost use Rattle.sec_read.specs.Modes.{kind_in, mode_named};

use sec_ast::OpKind;

// How the patterns of operators are read: `SecPatternMode`.
#[derive(Clone, Copy)]
pub enum PatternMode {
    // Under Unicode rules.
    Unicode,
    // As PCRE reads them, on bytes.
    Bytes,
}

impl PatternMode {
    // The mode of this name, without regard to case.
    #[tactic(auto, unfolding(crate::specs::Modes::mode_named))]
    pub fn named(word: &[u8]) -> Option<PatternMode>
        ensures { result ≡ mode_named word.now }
    {
        if word.eq_ignore_ascii_case(b"Unicode") {
            return Some(PatternMode::Unicode);
        }
        if word.eq_ignore_ascii_case(b"Bytes") {
            return Some(PatternMode::Bytes);
        }
        None
    }

    // What an operator that states this kind is in this mode.
    pub fn kind_of(self, stated: OpKind) -> OpKind
        ensures { result ≡ kind_in self stated }
    {
        match self {
            PatternMode::Unicode => stated,
            PatternMode::Bytes => by_bytes(stated),
        }
    }
}

fn by_bytes(stated: OpKind) -> OpKind
    ensures { result ≡ kind_in PatternMode.Bytes stated }
{
    match stated {
        OpKind::Rx => OpKind::RxBytes,
        _ => stated,
    }
}
