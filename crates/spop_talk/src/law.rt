ghost use Rattle.std.specs.Prelude.{◌≡◌, ◌++◌, ◌<◌, ◌≤◌, ◌^◌, List, Some, ℕ, length};
ghost use Rattle.spop_data.specs.Lists.{SpellsEach};
ghost use Rattle.spop_frame.specs.Head.{head_of, Whole};
ghost use Rattle.spop_talk.specs.Ack.{ack, ack_body, ack_frame};
ghost use Rattle.spop_talk.specs.Message.{SpellsMessage};
ghost use Rattle.spop_talk.specs.Reading.{messages_of};
ghost use Rattle.spop_talk.specs.declared.ack.Action.{Action};
ghost use Rattle.spop_talk.specs.declared.message.Message.{Message};

/// A law, with nothing to run: messages that a payload spells are read, so it spells one list of
/// messages at most.
pub fn messages_are_read()
    ensures { (payload : List ℕ) (ms : List Message) → SpellsEach SpellsMessage payload ms
        → messages_of payload ≡ Some ms }
{}

/// A law, with nothing to run: an ACK whose length is within the limit of the reader is read as its
/// frame, whatever follows it.
pub fn ack_again()
    ensures { (limit stream frame : ℕ) (actions : List Action) (rest : List ℕ)
        → stream < 2 ^ 64 → frame < 2 ^ 64 → limit < 2 ^ 32 → length (ack_body stream frame actions) ≤ limit
        → head_of limit (ack stream frame actions ++ rest) ≡ Whole (ack_frame stream frame actions) rest }
{}
