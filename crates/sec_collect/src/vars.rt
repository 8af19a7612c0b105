ghost use Rattle.std.specs.Prelude.{◌≡◌, ◌++◌, ◌∷◌, [], cond, true, false, None, Some, IfOk, OnOk, OnErr};
ghost use Rattle.std.specs.Option.{option_map};
ghost use Rattle.sec_ast.specs.Variable.{is_collection};
ghost use Rattle.sec_collect.specs.Body.{chosen_processor, flag_text, is_longer, left_of, posted, processor_of};
ghost use Rattle.sec_collect.specs.TransactionView.{of_request};
ghost use Rattle.sec_collect.specs.Kept.{kept_rows, response_rows};
ghost use Rattle.sec_collect.specs.RowList.{row_list};
ghost use Rattle.sec_collect.specs.Response.{response_body};
ghost use Rattle.sec_collect.specs.Row.{optional, row, single, value_named};
ghost use Rattle.sec_collect.specs.Captures.{captured_rows};
ghost use Rattle.sec_collect.specs.Rows.{last_matched, rows_of};
ghost use Rattle.sec_collect.specs.Variables.{put_within, without};

use crate::body::{flag_text, is_longer, left_of};
use crate::body_rows::BodyRows;
use crate::captures::captured_rows;
use crate::kept_rows::KeptRows;
use crate::request::value_named;
use crate::response_rows::ResponseRows;
use crate::rows::optional;
use crate::{AddedResponse, Captures, OpenedBody, Rows, Variables, delete_variable, put_variable};
use sec_ast::{Processor, Var};
use std::alloc::Global;
use std::marker::Model;
use waf_plain::{Bytes, NoMemory, Seq};
use web_parts::{NameValue, Request, Response};

/// What the variables of a transaction are made from, with their rows kept ready: to borrow the rows of a
/// variable takes neither memory nor a pass over them.
#[derive(Drop)]
pub struct Vars {
    request: Request,
    processor: Processor,
    body: Option<OpenedBody>,
    response: Option<AddedResponse>,
    tx: Variables,
    captured: Captures,
    matched: Seq<NameValue>,
    // Made from these:
    kept: KeptRows,
}

impl Model for Vars {
    ghost use Rattle.sec_collect.specs.TransactionView.{TransactionView};

    ghost Value = { TransactionView };

    ghost use Rattle.sec_collect.specs.Kept.{vars_view, AreKept};

    ghost view = { vars_view };

    ghost invariant = { AreKept };
}

impl Vars {
    /// The variables of a request whose body is not opened yet.
    pub fn new(alloc: Global, request: Request) -> Result<Vars, NoMemory>
        ensures { IfOk result (λ vars. vars ≡ of_request request) }
    {
        match KeptRows::new(alloc, &request) {
            Ok(kept) => Ok(Vars::with_rows(alloc, request, kept)),
            Err(NoMemory) => {
                drop(request);
                Err(NoMemory)
            }
        }
    }

    fn with_rows(alloc: Global, request: Request, kept: KeptRows) -> Vars
        requires { kept ≡ kept_rows request None None }
        ensures { result ≡ of_request request }
    {
        Vars {
            request,
            processor: Processor::Plain,
            body: None,
            response: None,
            tx: Variables::new(alloc),
            captured: Captures::new(alloc),
            matched: Seq::new(alloc),
            kept,
        }
    }

    /// The rows of a variable, in order.
    pub fn rows(&self, var: Var) -> Rows<'_>
        ensures { row_list result ≡ rows_of var self.now }
    {
        if var.is_collection() {
            self.collection_rows(var)
        } else {
            self.single_rows(var)
        }
    }

    #[tactic(auto, unfolding(crate::specs::Rows::rows_of))]
    fn single_rows(&self, var: Var) -> Rows<'_>
        requires { is_collection var ≡ false }
        ensures { row_list result ≡ rows_of var self.now }
    {
        match var {
            Var::RemoteAddr => Rows::One(self.kept.request.addresses.source.as_slice()),
            Var::RemotePort => Rows::One(self.kept.request.addresses.source_port.as_slice()),
            Var::ServerAddr => Rows::One(self.kept.request.addresses.destination.as_slice()),
            Var::ServerPort => Rows::One(self.kept.request.addresses.destination_port.as_slice()),
            Var::ServerName => Rows::One(self.kept.request.server_name.as_slice()),
            Var::UniqueId => Rows::One(self.request.id.as_slice()),
            Var::RequestMethod => Rows::One(self.request.method.as_slice()),
            Var::RequestUri => Rows::One(self.kept.request.line.uri.as_slice()),
            Var::RequestUriRaw => Rows::One(self.kept.request.line.uri.as_slice()),
            Var::RequestFilename => Rows::One(self.request.path.as_slice()),
            Var::RequestBasename => Rows::One(self.kept.request.line.basename.as_slice()),
            Var::RequestLine => Rows::One(self.kept.request.line.line.as_slice()),
            Var::RequestProtocol => Rows::One(self.kept.request.line.protocol.as_slice()),
            Var::QueryString => Rows::One(self.request.query.as_slice()),
            Var::RequestBody => self.body_rows(),
            Var::RequestBodyLength => optional(&self.kept.body.length),
            Var::ReqbodyProcessor => Rows::One(self.processor().name()),
            Var::ReqbodyError => Rows::One(b"0"),
            Var::MultipartStrictError => Rows::One(b"0"),
            Var::InboundDataError => Rows::One(self.inbound_error()),
            Var::ArgsCombinedSize => Rows::One(self.kept.body.arguments_size.as_slice()),
            Var::FilesCombinedSize => Rows::One(b"0"),
            Var::ResponseStatus => optional(&self.kept.response.status),
            Var::ResponseProtocol => optional(&self.kept.response.protocol),
            Var::ResponseBody => self.response_body_rows(),
            Var::ResponseContentLength => optional(&self.kept.response.length),
            Var::ResponseContentType => optional(&self.kept.response.media_type),
            Var::OutboundDataError => Rows::One(b"0"),
            Var::MatchedVar => self.matched_value_rows(),
            Var::MatchedVarName => self.matched_name_rows(),
            _ => unreachable!(),
        }
    }

    #[tactic(auto, unfolding(crate::specs::Rows::rows_of))]
    fn collection_rows(&self, var: Var) -> Rows<'_>
        requires { is_collection var ≡ true }
        ensures { row_list result ≡ rows_of var self.now }
    {
        let query = self.kept.request.query_arguments.as_slice();
        let posted = self.kept.body.posted.as_slice();
        match var {
            Var::Args => Rows::Pairs(query, posted),
            Var::ArgsGet => Rows::Pairs(&[], query),
            Var::ArgsPost => Rows::Pairs(&[], posted),
            Var::ArgsNames => Rows::Names(query, posted),
            Var::ArgsGetNames => Rows::Names(&[], query),
            Var::ArgsPostNames => Rows::Names(&[], posted),
            Var::RequestHeaders => Rows::Pairs(&[], self.kept.request.headers.as_slice()),
            Var::RequestHeadersNames => Rows::Names(&[], self.kept.request.headers.as_slice()),
            Var::RequestCookies => Rows::Pairs(&[], self.kept.request.cookies.as_slice()),
            Var::RequestCookiesNames => Rows::Names(&[], self.kept.request.cookies.as_slice()),
            Var::Files => Rows::Nothing,
            Var::FilesNames => Rows::Nothing,
            Var::ResponseHeaders => Rows::Pairs(&[], self.kept.response.headers.as_slice()),
            Var::ResponseHeadersNames => Rows::Names(&[], self.kept.response.headers.as_slice()),
            Var::Tx => Rows::Pairs(self.captured.as_slice(), self.tx.as_slice()),
            Var::MatchedVars => Rows::Pairs(&[], self.matched.as_slice()),
            Var::MatchedVarsNames => Rows::Names(&[], self.matched.as_slice()),
            Var::Xml => Rows::Nothing,
            _ => unreachable!(),
        }
    }

    fn body_rows(&self) -> Rows<'_>
        ensures { row_list result ≡ optional (option_map (left_of self.now.request.body) self.now.body) }
    {
        match self.body {
            Some(opened) => Rows::One(left_of(self.request.body.as_slice(), opened)),
            None => Rows::Nothing,
        }
    }

    fn inbound_error(&self) -> &[u8]
        ensures { result.now ≡ flag_text (is_longer self.now.request.body self.now.body) }
    {
        flag_text(self.is_body_over_limit())
    }

    /// Whether the body of the request is longer than the limit under which it was opened.
    pub fn is_body_over_limit(&self) -> bool
        ensures { result ≡ is_longer self.now.request.body self.now.body }
    {
        is_longer(self.request.body.as_slice(), self.body)
    }

    fn response_body_rows(&self) -> Rows<'_>
        ensures { row_list result ≡ response_body self.now.response }
    {
        match &self.response {
            Some(added) => body_of(added),
            None => Rows::Nothing,
        }
    }

    fn matched_value_rows(&self) -> Rows<'_>
        ensures { row_list result ≡ optional (option_map (λ r. r.value) (last_matched self.now)) }
    {
        match self.matched.as_slice().last() {
            Some(row) => Rows::One(row.value.as_slice()),
            None => Rows::Nothing,
        }
    }

    fn matched_name_rows(&self) -> Rows<'_>
        ensures { row_list result ≡ optional (option_map (λ r. r.name) (last_matched self.now)) }
    {
        match self.matched.as_slice().last() {
            Some(row) => Rows::One(row.name.as_slice()),
            None => Rows::Nothing,
        }
    }

    /// The request as it was given.
    pub fn request(&self) -> &Request
        ensures { result.now ≡ self.now.request }
    {
        &self.request
    }

    /// The processor that opens the body now, if it is opened: the one that was set last, or else the
    /// one of the request's media type.
    pub fn chosen_processor(&self) -> Processor
        ensures { result ≡ chosen_processor self.now }
    {
        match self.processor {
            Processor::Plain if self.kept.request.is_form => Processor::Urlencoded,
            processor => processor,
        }
    }

    /// The processor of the opened body, and before that the one that would open it.
    pub fn processor(&self) -> Processor
        ensures { result ≡ processor_of self.now.body (chosen_processor self.now) }
    {
        match self.body {
            Some(opened) => opened.processor,
            None => self.chosen_processor(),
        }
    }

    /// Sets the processor of the request's body. A body that is open already stays as it is.
    pub fn set_processor(&mut self, processor: Processor)
        ensures { self.new ≡ record self.old { processor = processor } }
    {
        self.processor = processor;
    }

    /// Opens the body of the request: from here on it has rows, made from its first `limit` bytes.
    pub fn add_body(
        &mut self,
        alloc: Global,
        processor: Processor,
        limit: u64,
    ) -> Result<(), NoMemory>
        ensures ok { OnOk result
            (self.new ≡ record self.old { body = Some (record { processor = processor; limit = limit }) }) }
        ensures err { OnErr result (self.new ≡ self.old) }
    {
        let opened = OpenedBody { processor, limit };
        let arguments = &self.kept.request.query_arguments;
        let rows = BodyRows::of_opened(alloc, &self.request, arguments, opened)?;
        self.body = Some(opened);
        self.kept.body = rows;
        Ok(())
    }

    /// Adds the response; its body has a row where it is read.
    pub fn add_response(
        &mut self,
        alloc: Global,
        response: Response,
        with_body: bool,
    ) -> Result<(), NoMemory>
        ensures ok { OnOk result
            (self.new ≡ record self.old { response = Some (record { response = response; with_body = with_body }) }) }
        ensures err { OnErr result (self.new ≡ self.old) }
    {
        let added = AddedResponse {
            response,
            with_body,
        };
        match ResponseRows::of_added(alloc, &added) {
            Ok(rows) => {
                self.set_response(added, rows);
                Ok(())
            }
            Err(NoMemory) => {
                drop(added);
                Err(NoMemory)
            }
        }
    }

    fn set_response(&mut self, added: AddedResponse, rows: ResponseRows)
        requires { rows ≡ response_rows (Some added) }
        ensures { self.new ≡ record self.old { response = Some added } }
    {
        self.response = Some(added);
        self.kept.response = rows;
    }

    /// The value of a variable of TX, empty where there is none.
    pub fn tx_value(&self, name: &[u8]) -> &[u8]
        ensures { result.now ≡ value_named name.now self.entry.now.tx }
    {
        value_named(name, self.tx.as_slice())
    }

    /// Gives a variable of TX a value, as `put_variable` does.
    pub fn set_tx(&mut self, alloc: Global, name: &[u8], value: &[u8]) -> Result<(), NoMemory>
        ensures ok { OnOk result (self.new ≡ record self.old { tx = put_within name.now value.now self.old.tx }) }
        ensures err { OnErr result (self.new ≡ self.old) }
    {
        put_variable(alloc, &mut self.tx, name, value)
    }

    /// Takes a variable of TX away, if it is there.
    pub fn delete_tx(&mut self, alloc: Global, name: &[u8])
        ensures { self.new ≡ record self.old { tx = without name.now self.old.tx } }
    {
        delete_variable(alloc, &mut self.tx, name)
    }

    /// Keeps the texts of the first ten groups of a match, in the place of those kept before.
    pub fn capture(&mut self, alloc: Global, groups: &Seq<Option<Bytes>>) -> Result<(), NoMemory>
        ensures ok { OnOk result (self.new ≡ record self.old { captured = captured_rows groups.now }) }
        ensures err { OnErr result (self.new ≡ self.old) }
    {
        let captured = captured_rows(alloc, groups.as_slice())?;
        self.captured = captured;
        Ok(())
    }

    /// Puts others in the places of the variables of TX, the captured texts and the matched values.
    pub fn set_lists(&mut self, tx: Variables, captured: Captures, matched: Seq<NameValue>)
        ensures { self.new ≡ record self.old { tx = tx; captured = captured; matched = matched } }
    {
        self.tx = tx;
        self.captured = captured;
        self.matched = matched;
    }

    /// Forgets all matched values.
    pub fn forget_matched(&mut self, alloc: Global)
        ensures { self.new ≡ record self.old { matched = [] } }
    {
        self.matched = Seq::new(alloc);
    }

    /// Adds a matched value under the full name of its row.
    pub fn add_matched(&mut self, full_name: Bytes, value: Bytes) -> Result<(), NoMemory>
        ensures ok { OnOk result
            (self.new ≡ record self.old { matched = self.old.matched ++ row full_name value ∷ [] }) }
        ensures err { OnErr result (self.new ≡ self.old) }
    {
        self.matched.push(NameValue {
            name: full_name,
            value,
        })
    }
}

// The row of a response's body, where it is read.
fn body_of(added: &AddedResponse) -> Rows<'_>
    ensures { row_list result ≡ cond added.now.with_body (single added.now.response.body) [] }
{
    if added.with_body {
        return Rows::One(added.response.body.as_slice());
    }
    Rows::Nothing
}
