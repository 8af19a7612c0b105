ghost use Rattle.std.specs.Prelude.{◌≡◌};

use sec_ast::Processor;
use std::alloc::AllocError;
use web_parts::Response;

/// How the body of a request was opened: by which processor, and up to how many bytes.
#[derive(Clone, Copy, Debug, PartialEq, Eq)]
pub struct OpenedBody {
    pub processor: Processor,
    pub limit: u64,
}

/// A response that was added to a transaction, and whether its body is read.
#[derive(Debug, PartialEq, Drop)]
pub struct AddedResponse {
    pub response: Response,
    pub with_body: bool,
}

impl Clone for AddedResponse {
    ghost is_clone = { λ a b. b ≡ a };

    fn clone(&self) -> Result<AddedResponse, AllocError> {
        let response = self.response.clone()?;
        Ok(AddedResponse {
            response,
            with_body: self.with_body,
        })
    }
}
