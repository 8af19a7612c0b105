ghost use Rattle.std.specs.Prelude.{◌≡◌, ◌++◌, ◌<◌, ◌≤◌, ◌^◌, List, Some, ℕ};
ghost use Rattle.spop_data.specs.Lists.{all_of};
ghost use Rattle.spop_data.specs.Reading.{pair_at};
ghost use Rattle.spop_frame.specs.Head.{head_of, Whole};
ghost use Rattle.spop_frame.specs.declared.kind.TheConstants.{AGENT_DISCONNECT, AGENT_HELLO};
ghost use Rattle.spop_hello.specs.Frames.{agent_hello, control, hello_pairs, hello_payload};
ghost use Rattle.spop_hello.specs.Frames.{disconnect, disconnect_pairs, disconnect_payload};
ghost use Rattle.spop_hello.specs.declared.terms.TheConstants.{MIN_SIZE};
ghost use Rattle.spop_hello.specs.declared.terms.Terms.{Terms};

/// A law, with nothing to run: a frame that was written is read again, whatever follows it, by every
/// reader that takes frames of the least size; and so are the pairs in it.
pub fn frames_again()
    ensures hello { (limit : ℕ) (t : Terms) (rest : List ℕ) → t.size < 2 ^ 32 → MIN_SIZE ≤ limit
        → head_of limit (agent_hello t ++ rest) ≡ Whole (control AGENT_HELLO (hello_payload t)) rest }
    ensures in_hello { (t : Terms) → t.size < 2 ^ 32 → all_of pair_at (hello_payload t) ≡ Some (hello_pairs t) }
    ensures leave { (limit status : ℕ) (rest : List ℕ) → status < 2 ^ 32 → MIN_SIZE ≤ limit
        → head_of limit (disconnect status ++ rest)
        ≡ Whole (control AGENT_DISCONNECT (disconnect_payload status)) rest }
    ensures in_leave { (status : ℕ) → status < 2 ^ 32
        → all_of pair_at (disconnect_payload status) ≡ Some (disconnect_pairs status) }
{}
