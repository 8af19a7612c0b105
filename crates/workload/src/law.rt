ghost use Rattle.std.specs.Prelude.{[], ℕ};
ghost use Rattle.replay_text.specs.Playable.{IsPlayable};
ghost use Rattle.workload.specs.Workload.{script};
ghost use Rattle.workload.specs.declared.commands.TheConstants.{SHARDS};

/// A law, with nothing to run: each command of a script can be made in its order, over as many shards as it names.
pub fn scripts_are_playable()
    ensures { (seed count : ℕ) → IsPlayable SHARDS [] (script seed count) }
{}
