ghost use Rattle.std.specs.Prelude.{◌≡◌, ℕ, Option, Some, None};
ghost use Rattle.sec_ast.specs.declared.listing.Listing.{Listing};
ghost use Rattle.sec_ast.specs.declared.verdict.Verdict.{Verdict};
ghost use Rattle.web_parts.specs.declared.transaction.Request.{Request};
ghost use Rattle.web_parts.specs.declared.transaction.Response.{Response};
ghost use Rattle.sec_eval.specs.Counting.{rules_in};
ghost use Rattle.sec_meaning.specs.declared.state.PlainState.{PlainState};
ghost use Rattle.sec_meaning.specs.Judgement.{judge, last_part, request_part, two_phases};
ghost use Rattle.sec_meaning.specs.Phase.{ended, phase};
ghost use Rattle.sec_meaning.specs.declared.phase_number.TheConstants.{LOGGING};
ghost use Rattle.tx_core.specs.Laws.{AddsBehind, KeepsRequest};
ghost use Rattle.tx_core.specs.Later.{judged_later};

/// No rule reads the lines: of a state with further lines in front, a phase makes what it makes of the
/// state without them, with these lines in front, and so do two phases. It does nothing.
pub fn lines_stay_in_front()
    ensures phase { (l : Listing) (p : ℕ) → AddsBehind (phase l p) }
    ensures two { (l : Listing) (p q : ℕ) → AddsBehind (two_phases l p q) }
{}

/// No phase changes the request. It does nothing.
pub fn requests_stay()
    ensures phase { (l : Listing) (p : ℕ) → KeepsRequest (phase l p) }
    ensures two { (l : Listing) (p q : ℕ) → KeepsRequest (two_phases l p q) }
    ensures start { (l : Listing) (r : Request) → (request_part l r).state.request ≡ r }
{}

/// A judgement whose request is interrupted is the phases of the request and the logging phase,
/// whichever response would come. Any other is the phases of the request, and then what is made of
/// their state without its lines, however late that is. It does nothing.
pub fn judgements_come_in_halves()
    ensures stops { (l : Listing) (r : Request) (response : Option Response) (v : Verdict)
        → (request_part l r).verdict ≡ Some v
        → judge l r response
        ≡ record { first = Some v; second = None; lines = (last_part l (request_part l r)).lines } }
    ensures goes { (l : Listing) (r : Request) (response : Option Response) → (request_part l r).verdict ≡ None
        → judge l r response ≡ judged_later l response (request_part l r).state }
{}

/// Where no rule is of the logging phase, that phase looks at none and changes nothing. So a half that
/// is given up then logs no line. It does nothing.
pub fn logging_may_be_empty()
    ensures { (l : Listing) (s : PlainState) → rules_in LOGGING l.items ≡ 0 → phase l LOGGING s ≡ ended s }
{}
