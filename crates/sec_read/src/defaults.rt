ghost use Rattle.std.specs.Prelude.{◌≡◌, IfOk, unwrap_or};
ghost use Rattle.sec_read.specs.Defaults.{default_at, default_of, first_default, first_defaults, with_default};

use sec_ast::Disrupt;
use sec_parts::Acts;
use waf_plain::NoMemory;

// The phase of the headers of a request.
pub const REQUEST_HEADERS: u8 = 1;
// The phase of the body of a request.
pub const REQUEST_BODY: u8 = 2;
// The phase of the headers of a response.
pub const RESPONSE_HEADERS: u8 = 3;
// The phase of the body of a response.
pub const RESPONSE_BODY: u8 = 4;

// What a rule of one phase does that does not say it.
#[derive(Drop)]
pub struct PhaseDefault {
    pub disrupt: Disrupt,
    pub status: u32,
    pub log: bool,
}

// The defaults of each phase.
#[derive(Drop)]
pub struct Defaults {
    pub request_headers: PhaseDefault,
    pub request_body: PhaseDefault,
    pub response_headers: PhaseDefault,
    pub response_body: PhaseDefault,
    pub logging: PhaseDefault,
}

impl PhaseDefault {
    fn first() -> PhaseDefault
        ensures { result ≡ first_default }
    {
        PhaseDefault {
            disrupt: Disrupt::Pass,
            status: 0,
            log: true,
        }
    }

    // What a list of actions names, and the rest as at the start.
    pub fn of(acts: Acts) -> PhaseDefault
        ensures { result ≡ default_of acts }
    {
        PhaseDefault {
            disrupt: acts.disrupt.unwrap_or(Disrupt::Pass),
            status: acts.status.unwrap_or(0),
            log: acts.log.unwrap_or(true),
        }
    }

    // The disruptive action of a rule that names this one, or none.
    pub fn disrupt_or(&self, given: &Option<Disrupt>) -> Result<Disrupt, NoMemory>
        ensures { IfOk result (λ disrupt. disrupt ≡ unwrap_or given.now self.now.disrupt) }
    {
        match given {
            Some(disrupt) => Ok(disrupt.clone()?),
            None => Ok(self.disrupt.clone()?),
        }
    }
}

impl Defaults {
    // As they are before any directive.
    pub fn first() -> Defaults
        ensures { result ≡ first_defaults }
    {
        Defaults {
            request_headers: PhaseDefault::first(),
            request_body: PhaseDefault::first(),
            response_headers: PhaseDefault::first(),
            response_body: PhaseDefault::first(),
            logging: PhaseDefault::first(),
        }
    }

    #[tactic(auto, unfolding(crate::specs::Defaults::default_at))]
    pub fn of(&self, phase: u8) -> &PhaseDefault
        ensures { result.now ≡ default_at phase self.now }
    {
        match phase {
            REQUEST_HEADERS => &self.request_headers,
            REQUEST_BODY => &self.request_body,
            RESPONSE_HEADERS => &self.response_headers,
            RESPONSE_BODY => &self.response_body,
            _ => &self.logging,
        }
    }

    // Sets those of one phase.
    #[tactic(auto, unfolding(crate::specs::Defaults::with_default))]
    pub fn set(&mut self, phase: u8, default: PhaseDefault)
        ensures { self.new ≡ with_default phase default self.old }
    {
        match phase {
            REQUEST_HEADERS => self.request_headers = default,
            REQUEST_BODY => self.request_body = default,
            RESPONSE_HEADERS => self.response_headers = default,
            RESPONSE_BODY => self.response_body = default,
            _ => self.logging = default,
        }
    }
}
