// The names of the commands, and those of their words.

pub(crate) const CHECK: &str = "check";

pub(crate) const ONCE: &str = "once";

pub(crate) const REPLAY: &str = "replay";

pub(crate) const GENERATE: &str = "generate";

pub(crate) const SERVE: &str = "serve";

pub(crate) const CONF: &str = "conf";

pub(crate) const RULES: &str = "rules";

pub(crate) const PLAIN: &str = "plain";

pub(crate) const SEED: &str = "seed";

pub(crate) const COUNT: &str = "count";
