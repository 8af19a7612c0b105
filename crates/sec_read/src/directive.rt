ghost use Rattle.std.specs.Prelude.{◌≡◌};
ghost use Rattle.sec_read.specs.Directives.{directive_name, directive_named, directive_of, is_accepted, is_left_out};

use crate::settings::Setting;
use sec_ast::is_among;

// What a line is, by its first word.
#[derive(Clone, Copy)]
pub enum Directive {
    SecRule,
    SecAction,
    SecMarker,
    SecDefaultAction,
    Include,
    SecRuleRemoveById,
    SecRuleRemoveByTag,
    SecPatternMode,
    Set(Setting),
    // Published rule sets carry it, and it has no effect.
    Accepted,
}

const DIRECTIVES: [Directive; 13] = [
    Directive::SecRule,
    Directive::SecAction,
    Directive::SecMarker,
    Directive::SecDefaultAction,
    Directive::Include,
    Directive::SecRuleRemoveById,
    Directive::SecRuleRemoveByTag,
    Directive::SecPatternMode,
    Directive::Set(Setting::Engine),
    Directive::Set(Setting::RequestBodyAccess),
    Directive::Set(Setting::RequestBodyLimit),
    Directive::Set(Setting::RequestBodyLimitAction),
    Directive::Set(Setting::ResponseBodyAccess),
];

const ACCEPTED: [&[u8]; 34] = [
    b"SecArgumentSeparator",
    b"SecArgumentsLimit",
    b"SecAuditEngine",
    b"SecAuditLog",
    b"SecAuditLogDir",
    b"SecAuditLogDirMode",
    b"SecAuditLogFileMode",
    b"SecAuditLogFormat",
    b"SecAuditLogParts",
    b"SecAuditLogRelevantStatus",
    b"SecAuditLogStorageDir",
    b"SecAuditLogType",
    b"SecCollectionTimeout",
    b"SecComponentSignature",
    b"SecConnEngine",
    b"SecCookieFormat",
    b"SecDataDir",
    b"SecDebugLog",
    b"SecDebugLogLevel",
    b"SecPcreMatchLimit",
    b"SecPcreMatchLimitRecursion",
    b"SecRequestBodyInMemoryLimit",
    b"SecRequestBodyJsonDepthLimit",
    b"SecRequestBodyNoFilesLimit",
    b"SecResponseBodyLimit",
    b"SecResponseBodyLimitAction",
    b"SecResponseBodyMimeType",
    b"SecResponseBodyMimeTypesClear",
    b"SecSensorId",
    b"SecServerSignature",
    b"SecStatusEngine",
    b"SecTmpDir",
    b"SecUnicodeMapFile",
    b"SecWebAppId",
];

const LEFT_OUT: [&[u8]; 12] = [
    b"SecRemoteRules",
    b"SecRemoteRulesFailAction",
    b"SecRuleScript",
    b"SecRuleRemoveByMsg",
    b"SecRuleUpdateTargetByMsg",
    b"SecUploadDir",
    b"SecUploadFileLimit",
    b"SecUploadFileMode",
    b"SecUploadKeepFiles",
    b"SecGeoLookupDb",
    b"SecGsbLookupDb",
    b"SecHttpBlKey",
];

impl Directive {
    fn name(self) -> &'static [u8]
        ensures { result.now ≡ directive_name self }
    {
        match self {
            Directive::SecRule => b"SecRule",
            Directive::SecAction => b"SecAction",
            Directive::SecMarker => b"SecMarker",
            Directive::SecDefaultAction => b"SecDefaultAction",
            Directive::Include => b"Include",
            Directive::SecRuleRemoveById => b"SecRuleRemoveById",
            Directive::SecRuleRemoveByTag => b"SecRuleRemoveByTag",
            Directive::SecPatternMode => b"SecPatternMode",
            Directive::Set(Setting::Engine) => b"SecRuleEngine",
            Directive::Set(Setting::RequestBodyAccess) => b"SecRequestBodyAccess",
            Directive::Set(Setting::RequestBodyLimit) => b"SecRequestBodyLimit",
            Directive::Set(Setting::RequestBodyLimitAction) => b"SecRequestBodyLimitAction",
            Directive::Set(Setting::ResponseBodyAccess) => b"SecResponseBodyAccess",
            Directive::Accepted => b"",
        }
    }

    #[tactic(auto, unfolding(crate::specs::Directives::directive_named))]
    fn named(word: &[u8]) -> Option<Directive>
        ensures { result ≡ directive_named word.now }
    {
        DIRECTIVES
            .iter()
            .copied()
            .find(|directive| directive.name().eq_ignore_ascii_case(word))
    }

    // What a name stands for, without regard to case.
    pub fn of(name: &[u8]) -> Option<Directive>
        ensures { result ≡ directive_of name.now }
    {
        if is_accepted_name(name) {
            return Some(Directive::Accepted);
        }
        Directive::named(name)
    }
}

#[tactic(auto, unfolding(crate::specs::Directives::is_accepted))]
fn is_accepted_name(name: &[u8]) -> bool
    ensures { result ≡ is_accepted name.now }
{
    is_among(name, &ACCEPTED)
}

// The name of a directive that this agent leaves out on purpose.
#[tactic(auto, unfolding(crate::specs::Directives::is_left_out))]
pub fn is_left_out_name(name: &[u8]) -> bool
    ensures { result ≡ is_left_out name.now }
{
    is_among(name, &LEFT_OUT)
}
