//! An object of one thread, and what it keeps of its callers' lists.
ghost use Rattle.std.specs.Prelude.{◌≡◌, ◌≢◌, ℕ, List, [], ◌∷◌, ◌++◌, slice_set};
ghost use mathlib.Core.Option.{some};
ghost use lib.ListN.{get_elem?};
ghost use Rattle.turn_lock.specs.declared.history.Entry.{Entry};
ghost use Rattle.turn_lock.specs.History.{entry, Interleaves};

/// An object that one thread at a time acts on. The ghost members above `act` say what it does, in
/// terms of its states as contracts see them. Those below it are laws that each object proves:
/// `kept` holds at the start, each call and each split and join of its callers keeps it, and where
/// it holds, a call that fits its caller's list may be made.
pub trait Object {
    type Call;

    type Reply;

    /// The states in which it may be put behind a lock.
    ghost starts: { Self → Type 0 };

    /// The step's condition: in this state the call may be made.
    ghost may: { Self → Self.Call → Type 0 };

    /// In this state the call may have this reply.
    ghost allows: { Self → Self.Call → Self.Reply → Type 0 };

    /// The state that a call with this reply leaves.
    ghost after: { Self → Self.Call → Self.Reply → Self };

    /// Who has made just these calls may make this one, whatever others do meanwhile.
    ghost fits: { List (Entry Self.Call Self.Reply) → Self.Call → Type 0 };

    /// What holds of the state and the lists of all callers.
    ghost kept: { Self → List (List (Entry Self.Call Self.Reply)) → Type 0 };

    /// Makes one call.
    fn act(&mut self, call: Self::Call) -> Self::Reply
        requires { may self.old call }
        ensures reply { allows self.old call result }
        ensures state { self.new ≡ after self.old call result };

    /// At the start there is one caller, who has made no call.
    ghost kept_first: { (s : Self) → starts s → kept s ([] ∷ []) };

    /// A caller makes a call that fits its list.
    ghost kept_call: { (s : Self) (lists : List (List (Entry Self.Call Self.Reply))) (i : ℕ)
        (own : List (Entry Self.Call Self.Reply)) (c : Self.Call) (r : Self.Reply)
        → kept s lists → get_elem? lists i ≡ some own → fits own c → may s c → allows s c r
        → kept (after s c r) (slice_set lists i (own ++ entry c r ∷ [])) };

    /// A caller comes who has made no call.
    ghost kept_new: { (s : Self) (lists : List (List (Entry Self.Call Self.Reply))) → kept s lists
        → kept s (lists ++ [] ∷ []) };

    /// A caller takes over what another made, in some order that keeps that of each.
    ghost kept_join: { (s : Self) (lists : List (List (Entry Self.Call Self.Reply))) (i j : ℕ)
        (xs ys zs : List (Entry Self.Call Self.Reply))
        → kept s lists → get_elem? lists i ≡ some xs → j ≢ i → get_elem? lists j ≡ some ys
        → Interleaves xs ys zs → kept s (slice_set (slice_set lists i zs) j []) };

    /// A call that fits its caller's list may be made.
    ghost may_fitting: { (s : Self) (lists : List (List (Entry Self.Call Self.Reply))) (i : ℕ)
        (own : List (Entry Self.Call Self.Reply)) (c : Self.Call)
        → kept s lists → get_elem? lists i ≡ some own → fits own c → may s c };
}
