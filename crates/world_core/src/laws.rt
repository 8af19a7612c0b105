//! What holds of every run.
ghost use Rattle.sec_ast.specs.declared.listing.Listing.{Listing};
ghost use Rattle.world_core.specs.Promised.{OthersStay, OutputIsOfNeeds, ShardsAreLegal, TicketsStay};

/// A step of one connection, of the clock, of a shard or of the applications leaves every other
/// connection as it was. What a shard goes through is a legal history of it.
pub fn runs_keep_apart<R>()
    ensures others { (listing_of : R → Listing) → OthersStay listing_of }
    ensures shards { (listing_of : R → Listing) → ShardsAreLegal listing_of }
{}

/// What is shown as written on a connection is what the needs wrote that it has met, in their order.
pub fn outputs_are_of_needs<R>()
    ensures { (listing_of : R → Listing) → OutputIsOfNeeds listing_of }
{}

/// In each shard as many rows run under a number as connections hold tickets of it: each step keeps that. So the
/// ticket of a connection can always be parked or left.
pub fn tickets_stay_with_rows<R>()
    ensures { (listing_of : R → Listing) → TicketsStay listing_of }
{}
