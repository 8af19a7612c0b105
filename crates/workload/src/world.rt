//! The rules that a script is made for.

/// The name of the file of these rules.
pub const RULES_NAME: &[u8] = b"generate.rules";

/// A request by POST is denied, each response is logged, and one with status 500 is denied.
pub const RULES: &[u8] = b"\
SecRule REQUEST_METHOD \"@streq POST\" \"id:100,phase:1,deny,log\"
SecAction \"id:8,phase:3,pass,log\"
SecRule RESPONSE_STATUS \"@streq 500\" \"id:7,phase:3,deny,log\"
";
