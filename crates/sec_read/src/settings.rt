ghost use Rattle.std.specs.Prelude.{◌≡◌};
ghost use Rattle.sec_read.specs.Settings.{first_settings, rejection_named, with_setting};

use sec_ast::Engine;
use sec_parts::{read_number, read_switch};

// How many bytes of a request's body are read where no directive says it, and at most.
const FIRST_REQUEST_LIMIT: u64 = 131_072;

pub const MAX_REQUEST_LIMIT: u32 = 1_073_741_824;

// A directive that sets something for the whole listing.
#[derive(Clone, Copy)]
pub enum Setting {
    Engine,
    RequestBodyAccess,
    RequestBodyLimit,
    RequestBodyLimitAction,
    ResponseBodyAccess,
}

// What is set. The last directive of a kind wins.
#[derive(Clone, Copy)]
pub struct Settings {
    pub engine: Engine,
    pub request_body: bool,
    pub request_limit: u64,
    pub limit_reject: bool,
    pub response_body: bool,
}

impl Settings {
    // Where no directive sets them.
    pub fn first() -> Settings
        ensures { result ≡ first_settings }
    {
        Settings {
            engine: Engine::On,
            request_body: true,
            request_limit: FIRST_REQUEST_LIMIT,
            limit_reject: true,
            response_body: false,
        }
    }

    // These, but for one, which has this value; `None` where it can't have it.
    pub fn with(self, setting: Setting, word: &[u8]) -> Option<Settings>
        ensures { result ≡ with_setting setting word.now self }
    {
        let mut settings = self;
        match setting {
            Setting::Engine => settings.engine = Engine::named(word)?,
            Setting::RequestBodyAccess => settings.request_body = read_switch(word)?,
            Setting::RequestBodyLimit => {
                settings.request_limit = u64::from(read_number(word, 1, MAX_REQUEST_LIMIT)?)
            }
            Setting::RequestBodyLimitAction => settings.limit_reject = read_rejection(word)?,
            Setting::ResponseBodyAccess => settings.response_body = read_switch(word)?,
        }
        Some(settings)
    }
}

// Whether a body over the limit is rejected.
#[tactic(auto, unfolding(crate::specs::Settings::rejection_named))]
fn read_rejection(word: &[u8]) -> Option<bool>
    ensures { result ≡ rejection_named word.now }
{
    if word.eq_ignore_ascii_case(b"Reject") {
        return Some(true);
    }
    if word.eq_ignore_ascii_case(b"ProcessPartial") {
        return Some(false);
    }
    None
}
